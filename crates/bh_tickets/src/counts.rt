//! How many of a command's tickets there are of each kind.

ghost use Rattle.std.specs.Prelude.{◌≡◌};
ghost use Rattle.bh_base.specs.declared.ticket.Ticket.{Ticket};
ghost use Rattle.bh_cache.specs.Slots.{one};
ghost use Rattle.bh_tickets.specs.Counts.{HasRoomFor, IsCounted, no_counts, one_less, one_more};

use crate::states::{is_in_fallback, is_open, is_queued};
use bh_base::Ticket;

/// How many tickets of a command are busy, queued and in their fallback, and since when one may be queued or running.
#[derive(Clone, Copy, Debug)]
pub struct CommandCounts {
    pub busy: u64,
    pub queued: u64,
    pub in_fallback: u64,
    /// None that is queued or running was submitted before; the greatest number, where there surely is none. It goes up
    /// again only by a walk that looks for tickets that are due.
    pub open_since: u64,
}

/// What a ticket adds to a count: 1 where it counts, else 0.
pub fn one(counts: bool) -> u64
    ensures { result ≡ one counts }
{
    if counts { 1 } else { 0 }
}

impl CommandCounts {
    /// Those of a command without tickets.
    pub fn new() -> Self
        ensures { result ≡ no_counts }
    {
        CommandCounts {
            busy: 0,
            queued: 0,
            in_fallback: 0,
            open_since: u64::MAX,
        }
    }

    /// A ticket of the command is counted no more.
    pub fn count_out(&mut self, ticket: &Ticket)
        requires { IsCounted ticket.now self.old }
        ensures { self.new ≡ one_less ticket.now self.old }
    {
        self.busy -= one(ticket.busy);
        self.queued -= one(is_queued(ticket));
        self.in_fallback -= one(is_in_fallback(ticket));
    }

    /// A ticket of the command is counted.
    pub fn count_in(&mut self, ticket: &Ticket)
        requires { HasRoomFor ticket.now self.old }
        ensures { self.new ≡ one_more ticket.now self.old }
    {
        self.busy += one(ticket.busy);
        self.queued += one(is_queued(ticket));
        self.in_fallback += one(is_in_fallback(ticket));
        if is_open(ticket) {
            self.open_since = self.open_since.min(ticket.submitted);
        }
    }
}
