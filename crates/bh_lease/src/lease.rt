//! What a connection has of one ticket, or of one request context.

ghost use Rattle.std.specs.Prelude.{◌≡◌};
ghost use Rattle.bh_lease.specs.Lease.{has, has_at, is_over, is_within, with_part};

use bh_base::{GroupId, Serial};

/// What a connection may have of a ticket. What it has, it has to give back.
#[derive(Clone, Copy, Debug, PartialEq, Eq)]
pub enum Part {
    /// A request that submitted or joined, and has still to collect the answer.
    Holder,
    /// The run, which the connection was told to make: its end is still to be told.
    Run,
    /// The fallback, which the connection was told to run: its end is still to be told.
    Fallback,
}

/// What a connection has of the ticket of a request of its own, or of a run that it was assigned.
#[derive(Clone, Copy, Debug, PartialEq, Eq)]
pub struct Lease {
    /// The group of the ticket.
    pub group: GroupId,
    /// The number of the ticket in its group.
    pub serial: Serial,
    /// Whether it has `Part::Holder` of it.
    pub holds: bool,
    /// Whether it has `Part::Run`.
    pub runs: bool,
    /// Whether it has `Part::Fallback`.
    pub falls_back: bool,
}

/// A request context of a group that a connection is within. It is closed when the connection ends, if not before.
#[derive(Clone, Copy, Debug, PartialEq, Eq)]
pub struct Within {
    /// The group.
    pub group: GroupId,
    /// The number of the context in its group.
    pub context: u64,
}

impl Within {
    /// Whether it is this context of the group.
    pub(crate) fn is(&self, group: GroupId, context: u64) -> bool
        ensures { result ≡ is_within group context self.now }
    {
        self.group.0 == group.0 && self.context == context
    }
}

impl Lease {
    /// Whether the connection has this part.
    pub fn has(&self, part: Part) -> bool
        ensures { result ≡ has part self.now }
    {
        match part {
            Part::Holder => self.holds,
            Part::Run => self.runs,
            Part::Fallback => self.falls_back,
        }
    }

    /// Whether it is of the ticket, and the connection has this part.
    pub(crate) fn has_at(&self, group: GroupId, serial: Serial, part: Part) -> bool
        ensures { result ≡ has_at group serial part self.now }
    {
        self.group.0 == group.0 && self.serial == serial && self.has(part)
    }

    /// The lease with this part, or without it.
    pub(crate) fn with(self, part: Part, is_there: bool) -> Lease
        ensures { result ≡ with_part part is_there self }
    {
        match part {
            Part::Holder => Lease {
                holds: is_there,
                ..self
            },
            Part::Run => Lease {
                runs: is_there,
                ..self
            },
            Part::Fallback => Lease {
                falls_back: is_there,
                ..self
            },
        }
    }

    /// Whether all of it was given back.
    pub fn is_over(&self) -> bool
        ensures { result ≡ is_over self.now }
    {
        !self.holds && !self.runs && !self.falls_back
    }
}
