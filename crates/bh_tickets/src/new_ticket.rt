//! A ticket as it is made.

ghost use Rattle.std.specs.Prelude.{◌≡◌};
ghost use Rattle.bh_tickets.specs.NewTicket.{ticket_of};

use bh_base::{Cause, Moment, Request, Serial, Ticket, TicketState};

/// Where a new ticket begins.
#[derive(Clone, Copy)]
pub enum TicketStart {
    /// It waits for a worker.
    Queued,
    /// Its run is under way at once.
    Running,
    /// It is not run.
    NeedsFallback(Cause),
}

/// A ticket that is to be made, but for its serial, which the group gives.
#[derive(Clone, Copy)]
pub struct NewTicket<'a> {
    pub request: &'a Request,
    pub submitted: Moment,
    pub start: TicketStart,
    pub cached: bool,
    pub test: bool,
}

/// The ticket of the serial is written where it is kept, field by field.
#[inline(always)]
pub fn write(new: &NewTicket, serial: Serial, kept: &mut Ticket)
    ensures { kept.new ≡ ticket_of new.now serial }
{
    kept.serial = serial;
    kept.command = new.request.command;
    kept.arg = new.request.arg;
    kept.cache = new.request.cache;
    kept.submitted = new.submitted;
    match new.start {
        TicketStart::Queued => {
            kept.state = TicketState::Queued;
            kept.busy = false;
        }
        TicketStart::Running => {
            kept.state = TicketState::Running;
            kept.busy = true;
        }
        TicketStart::NeedsFallback(cause) => {
            kept.state = TicketState::NeedsFallback(cause);
            kept.busy = false;
        }
    }
    kept.holders = 1;
    kept.cached = new.cached;
    kept.test = new.test;
}
