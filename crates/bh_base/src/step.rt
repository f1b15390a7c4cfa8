//! What a caller asks of a group.

use crate::props::Tuning;
use crate::text::Text;

/// A moment in milliseconds, handed in by the caller.
pub type Moment = u64;

/// The number of a ticket within its group, from 1, rising by one with each ticket that is made.
pub type Serial = u64;

/// The number of a group, from 0 in the order of registration.
#[derive(Clone, Copy, Debug, PartialEq, Eq)]
pub struct GroupId(pub u64);

/// How a run of the dependency ended.
///
/// A bad request is the caller's fault: it is no failure of the dependency and gets no fallback
/// (Hystrix wiki, "How To Use", error propagation).
#[derive(Clone, Copy, Debug, PartialEq, Eq)]
pub enum RunEnd {
    /// It gave this body.
    Success(Text<256>),
    /// It failed.
    Failure,
    /// The request was bad.
    BadRequest,
}

/// How a run of the fallback ended (Hystrix wiki, "How To Use", fallback).
#[derive(Clone, Copy, Debug, PartialEq, Eq)]
pub enum FallbackEnd {
    /// It gave this body.
    Success(Text<256>),
    /// It failed.
    Failure,
    /// There is none.
    Missing,
}

/// A request for one run of the dependency of a command.
#[derive(Clone, Copy, Debug, PartialEq, Eq)]
pub struct Request {
    /// The number of the command in its group; 0 is the group's own.
    pub command: u8,
    /// The request context and the cache key, where the answer may be shared within that context
    /// (Hystrix wiki, "How To Use", request cache).
    pub cache: Option<(u64, Text<32>)>,
    /// The argument that the dependency is run with.
    pub arg: Text<64>,
}

/// What a step does.
#[derive(Clone, Copy, Debug, PartialEq, Eq)]
pub enum Op {
    /// Asks for a run, and gets a ticket for it.
    Submit(Request),
    /// A worker asks for the queued ticket of least serial.
    Start,
    /// The run of the ticket gave this body.
    Finish { serial: Serial, body: Text<256> },
    /// The run of the ticket failed, or the request was bad.
    Fail { serial: Serial, bad: bool },
    /// Times out each ticket whose run is due.
    Expire,
    /// A holder asks for the answer of the ticket.
    Collect { serial: Serial },
    /// The fallback of the ticket ended.
    FallbackDone { serial: Serial, end: FallbackEnd },
    /// Ends a request context: nothing of it stays cached.
    Close { context: u64 },
    /// Asks for the metrics of the command.
    Read { command: u8 },
    /// Asks how many events of the command there were since the group was registered.
    Totals { command: u8 },
    /// Changes a property of the command, or of the group's thread pool.
    Tune { command: u8, tuning: Tuning },
}

/// One step of one group at one moment.
#[derive(Clone, Copy, Debug, PartialEq, Eq)]
pub struct Step {
    /// The group that makes it.
    pub group: GroupId,
    /// Milliseconds; a step is never earlier than the ones before it in its group, whatever stands here.
    pub now: Moment,
    /// What it does.
    pub op: Op,
}
