//! The bytes of a stream of lines that have come, from which the lines are taken.

ghost use Rattle.std.specs.Prelude.{◌≡◌, ◌++◌, [], false, OnOk, OnErr};
ghost use Rattle.bh_lines.specs.Lines.{has_line};
ghost use Rattle.bh_desk.specs.Taken.{TakesAsked, IsLastAsked};

use bh_lines::{PortError, front_line, last_line, next_line};
use bh_share::share_line::Asked;
use bh_share::{Directory, ShareLine};
use bytes::BytesMut;
use json::Scratch;
use std::alloc::{AllocError, Global};
use std::marker::Model;

/// The bytes that have come and were not taken yet. It keeps the memory that it has taken, so that lines no longer than
/// those before are read without any.
#[derive(Drop)]
pub struct Received {
    alloc: Global,
    bytes: BytesMut,
    scratch: Scratch,
}

impl Model for Received {
    ghost use Rattle.std.specs.Prelude.{ℕ, List};

    ghost Value = { List ℕ };

    ghost view = { λ r. r.bytes.items };
}

impl Received {
    /// Nothing has come. It takes no memory yet.
    pub fn new(alloc: Global) -> Received
        ensures { result ≡ [] }
    {
        Received {
            alloc,
            bytes: BytesMut::new(alloc),
            scratch: Scratch::new(alloc),
        }
    }

    /// Puts a piece behind what has come.
    pub fn push(&mut self, piece: &[u8]) -> Result<(), AllocError>
        ensures ok { OnOk result (self.new ≡ self.old ++ piece.now) }
        ensures err { OnErr result (self.new ≡ self.old) }
    {
        self.bytes.extend_from_slice(piece)
    }

    /// Forgets what has come.
    pub fn clear(&mut self)
        ensures { self.new ≡ [] }
    {
        self.bytes.clear();
    }

    /// Takes the line in front, and answers what it asks of the groups and commands of the directory, or nothing where none
    /// has ended.
    ///
    /// `Line` comes where the line in front is of over 1,024 bytes, ended or not, or is not UTF-8; `Memory` where memory
    /// is refused. After an error nothing is to be taken.
    pub fn next<D: Directory>(&mut self, directory: &D) -> Result<Option<Asked>, PortError>
        ensures taken { TakesAsked (D.names directory.now) self.old result self.new }
    {
        let Some(line) = front_line(self.bytes.as_slice()) else {
            return self.next_cut(directory);
        };
        let asked = ShareLine::parse(self.alloc, &mut self.scratch, directory, line.text)?;
        let taken = line.taken;
        self.bytes.advance(taken);
        Ok(Some(asked))
    }

    /// The same where no plain line stands in front.
    fn next_cut<D: Directory>(&mut self, directory: &D) -> Result<Option<Asked>, PortError>
        ensures taken { TakesAsked (D.names directory.now) self.old result self.new }
    {
        let Some(line) = next_line(&mut self.bytes)? else {
            return Ok(None);
        };
        let asked = ShareLine::parse(self.alloc, &mut self.scratch, directory, line.as_str())?;
        Ok(Some(asked))
    }

    /// What the line asks that stands at the end of the input with no line feed behind it, if there is one. No line has
    /// ended before it.
    ///
    /// `Line` comes where it is not UTF-8; `Memory` where memory is refused.
    pub fn last<D: Directory>(&mut self, directory: &D) -> Result<Option<Asked>, PortError>
        requires { has_line self.old ≡ false }
        ensures last { IsLastAsked (D.names directory.now) self.old result }
    {
        let Some(line) = last_line(&mut self.bytes)? else {
            return Ok(None);
        };
        let asked = ShareLine::parse(self.alloc, &mut self.scratch, directory, line.as_str())?;
        Ok(Some(asked))
    }
}
