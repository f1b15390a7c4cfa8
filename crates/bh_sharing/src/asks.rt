//! What may be asked for in one turn of the lock, and what is said to it.

ghost use Rattle.std.specs.Prelude.{◌≡◌};

use crate::waiters::{Numbers, Waiter};
use bh_base::{GroupId, Op};
use bh_in_force::InForce;
use bh_lease::Refusal;
use bh_lender::StepLog;

/// What may be asked for in one turn of the lock. Leases are those that are handed in with it.
#[derive(Drop)]
pub enum Ask<'a> {
    /// That this step of the group is made for the connection, unless it is to wait and has to.
    Step {
        /// Whose step it is.
        group: GroupId,
        /// What is to be done.
        op: &'a Op,
        /// Whether it is to wait where it would be answered `Pending` or `Idle`.
        wait: bool,
    },
    /// That the connection is within the request context of the group from now on. No step is made.
    Enter {
        group: GroupId,
        context: u64,
    },
    /// What is in force of the group's command of the number. No step is made.
    Properties {
        group: GroupId,
        command: u8,
    },
    /// That all that the connection has is given back.
    GiveBack,
    /// That what is due is timed out in the groups of the numbers from one on and below another.
    Expire {
        from: u64,
        to: u64,
    },
    /// That the connection of the number waits for this from now on.
    BeginWait {
        number: usize,
        waiter: Waiter,
    },
    /// That the connection of the number goes on, once it was told to look again or so many milliseconds have passed.
    Sleep {
        number: usize,
        millis: u64,
    },
    /// That the connection of the number waits no more for a step of the group.
    EndWait {
        number: usize,
        group: GroupId,
    },
    /// That everybody looks again who waits.
    WakeAll,
    /// Whether nobody waits.
    IsQuiet,
    /// That all connections have ended.
    End,
    /// Whether they have.
    HasEnded,
    /// The steps that were put into the log, in exchange for those of another log.
    SwapLog(StepLog),
    /// That no further step is put into the log.
    EndRecord,
}

/// What is said to it.
#[derive(Drop)]
pub enum Said {
    /// What was asked for was done.
    Done,
    /// Of a step: why the connection may not ask for it, or that it was made. The reply stands where the caller keeps it. Of a
    /// request context: why the connection may not enter it, or that it is within it.
    Told(Option<Refusal>),
    /// Of a step that is to wait: it has to, and nothing was done.
    Waits,
    /// Memory was refused, and nothing was done.
    NoMemory,
    /// Whether it is so.
    Is(bool),
    /// The steps of the log.
    Log(StepLog),
    /// What is in force of a command; None where its group is not registered, or lacks it.
    Properties(Option<InForce>),
}

/// What is said, and which connections are to be woken because of it.
#[derive(Drop)]
pub struct Answer {
    /// What is said.
    pub said: Said,
    /// Which connections are to be woken.
    pub told: Numbers,
}

impl Answer {
    /// What is said, and who is to be woken because of it.
    pub fn telling(said: Said, told: Numbers) -> Answer
        ensures { result.said ≡ said }
    {
        Answer { said, told }
    }

    /// What is said where nobody is to be woken because of it.
    pub fn quiet(said: Said) -> Answer
        ensures { result.said ≡ said }
    {
        Answer {
            said,
            told: Numbers::none(),
        }
    }
}
