//! Who answers the lines of one connection, as a trait.

ghost use Rattle.std.specs.Prelude.{◌≡◌, ℕ, List, []};
ghost use Rattle.bh_share.specs.declared.share_line.ShareLine.{ShareLine};
ghost use Rattle.bh_desk.specs.Turns.{IsTurn, IsWaited};

use bh_share::ShareLine;
use std::alloc::AllocError;

/// What came of a line.
#[derive(Clone, Copy, Debug, PartialEq, Eq)]
pub enum Turn {
    /// It was answered.
    Answered,
    /// It has to wait for its answer, and says that it may: nothing was done.
    Waits,
}

/// Who answers the lines of one connection, one after the other. Its value is what the connection has.
///
/// The type says, whatever the value, which answers a line may get where the connection has one thing, and what it has
/// then. One whose answers wait keeps the runtime that they wait by.
pub trait Desk {
    // The answers to a line where the connection has this, and what it has then.
    ghost may: { Self → ShareLine → List ℕ → Self → Type 0 };

    /// Puts the answer to a line behind the bytes, unless it says that it may wait and has to.
    ///
    /// The error comes where memory was refused: the bytes are as they were then, and an answer may be lost.
    fn answer(&mut self, line: &ShareLine, out: &mut Vec<u8>) -> Result<Turn, AllocError>
        ensures { IsTurn may self.old line.now out.old.items result self.new out.new.items };

    /// Puts the answer to a line behind the bytes, of which there are none, once it need not wait any more or can wait no
    /// longer: no earlier answer waits with it.
    ///
    /// The error comes as at `answer`.
    fn answer_late(&mut self, line: &ShareLine, out: &mut Vec<u8>) -> Result<(), AllocError>
        requires { out.old.items ≡ [] }
        ensures { IsWaited may self.old line.now out.old.items result self.new out.new.items };
}
