//! What a service says on standard error, and the queue in which it waits to be written.

ghost use Rattle.std.specs.Prelude.{◌≡◌, ◌<◌, ◌+◌, ◌^◌, ◌-◌, [], ◌==◌, length, IfSome};
ghost use Rattle.bh_serve.specs.Reports.{put, taken, rest_after, with_more, in_all, said};

use crate::connection::ConnectionFault;
use crate::serve::ServeError;
use arrayvec::ArrayVec;
use std::alloc::AllocError;
use std::fmt;
use std::fmt::{Display, Formatter, Write};
use std::marker::Model;
use thiserror::Error;

/// So many texts at most wait to be written.
pub const MOST_WAITING: usize = 64;

/// A text, without its line feed.
#[derive(Clone, Copy, Debug, PartialEq, Eq)]
pub enum Report {
    /// The service takes so many threads.
    Threads(u64),
    /// A fault of the service.
    Service(ServeError),
    /// A fault of one connection.
    Connection(ConnectionFault),
    /// A record ends before the service does.
    Record(RecordEnd),
    /// So many texts found no room.
    More(u64),
}

/// Why a record ends before the service that it is of does.
#[derive(Clone, Copy, Debug, PartialEq, Eq, Error)]
pub enum RecordEnd {
    /// Too many steps wait to be written.
    #[error("record: it ends here, since its file is slower than the service")]
    Full,
    /// It could not be written.
    #[error("record: it ends here, since its file cannot be written")]
    Write,
    /// Memory was refused.
    #[error("record: it ends here, since memory was refused")]
    Memory,
    /// The line of a step would be longer than a script's may be.
    #[error("record: it ends here, since the line of the next step is too long for a script")]
    Long,
    /// A step gave a property a value that no script may give it.
    #[error("record: it ends here, since the next step gives a property a value out of its range")]
    Range,
}

impl From<AllocError> for RecordEnd {
    fn from(_refused: AllocError) -> RecordEnd {
        RecordEnd::Memory
    }
}

impl Default for Report {
    fn default() -> Report {
        Report::More(0)
    }
}

impl Display for Report {
    fn fmt<W: Write>(&self, f: &mut Formatter<W>) -> fmt::Result {
        match self {
            Report::Threads(count) => write!(f, "threads: {count}"),
            Report::Service(error) => write!(f, "{error}"),
            Report::Connection(fault) => write!(f, "{fault}"),
            Report::Record(end) => write!(f, "{end}"),
            Report::More(count) => write!(f, "fault: {count} more"),
        }
    }
}

/// Texts that wait to be written, `MOST_WAITING` at most. What finds no room is counted, and the count is a text of its own
/// once there is room: so each text is told or counted, in the order in which they came. It takes no memory.
#[derive(Drop)]
pub struct ReportQueue {
    waiting: ArrayVec<Report, 64>,
    more: u64,
}

impl Model for ReportQueue {
    ghost use Rattle.std.specs.Prelude.{◌≤◌, length};
    ghost use Rattle.bh_serve.specs.Reports.{QueueView};

    ghost Value = { QueueView };

    ghost view = { λ q. record { waiting = q.waiting.items; more = q.more } };

    ghost invariant = { λ q. length q.waiting.items ≤ 64 };
}

impl ReportQueue {
    /// No text waits.
    pub fn new() -> ReportQueue
        ensures { result ≡ record { waiting = []; more = 0 } }
    {
        ReportQueue {
            waiting: ArrayVec::new(),
            more: 0,
        }
    }

    /// Whether no text waits.
    pub fn is_empty(&self) -> bool
        ensures { result ≡ (length self.now.waiting == 0) }
    {
        self.waiting.is_empty()
    }

    /// Puts a text behind those that wait, or counts it where there is no room.
    #[tactic(auto, using(crate::proofs::Told::said_snoc))]
    pub fn put(&mut self, report: Report)
        ensures put { self.new ≡ put report self.old }
        ensures counted { said report ≡ 1 → self.old.more < 2 ^ 64 - 1 → in_all self.new ≡ in_all self.old + 1 }
    {
        if self.waiting.try_push(report).is_err() {
            self.more = self.more.saturating_add(1);
        }
    }

    /// Takes the text in front, where one waits. What found no room before waits behind the others then, as a count.
    #[tactic(auto, using(crate::proofs::Told::said_first, crate::proofs::Told::rest_others, crate::proofs::Told::fewer))]
    pub fn take(&mut self) -> Option<Report>
        ensures first { result ≡ taken self.old }
        ensures rest { self.new ≡ rest_after self.old }
        ensures told { IfSome result (λ report. in_all self.old ≡ said report + in_all self.new) }
    {
        if self.waiting.is_empty() {
            return None;
        }
        let report = self.waiting.remove(0);
        self.tell_more();
        Some(report)
    }

    /// Puts the count of what found no room where there is room now.
    #[tactic(auto, using(crate::proofs::Told::said_snoc))]
    fn tell_more(&mut self)
        requires { length self.old.waiting < 64 }
        ensures told { self.new ≡ with_more self.old.waiting self.old.more }
        ensures kept { in_all self.new ≡ in_all self.old }
    {
        let more = self.more;
        if more > 0 {
            self.waiting.push(Report::More(more));
            self.more = 0;
        }
    }
}
