//! What is asked of one ticket.

ghost use Rattle.std.specs.Prelude.{◌≡◌, ◌-◌, ◌<◌, nat_lt};
ghost use Rattle.bh_base.specs.Tickets.{is_in_fallback, is_kept, is_queued, is_running, is_unanswered};
ghost use Rattle.bh_tickets.specs.Changes.{is_due_by, is_young_by};
ghost use Rattle.bh_tickets.specs.Counts.{is_open};
ghost use Rattle.bh_tickets.specs.TicketsView.{is_used};

use bh_base::{Moment, Ticket, TicketState};

/// Which tickets of a command are due to time out.
#[derive(Clone, Copy, Debug)]
pub struct DueRule {
    pub command: u8,
    pub timeout_on: bool,
    /// Milliseconds from the submit.
    pub timeout_ms: u64,
    pub moment: Moment,
}

/// Whether the ticket waits for a worker.
pub fn is_queued(ticket: &Ticket) -> bool
    ensures { result ≡ is_queued ticket.now }
{
    matches!(ticket.state, TicketState::Queued)
}

/// Whether the ticket's run is under way and has not timed out.
pub fn is_running(ticket: &Ticket) -> bool
    ensures { result ≡ is_running ticket.now }
{
    matches!(ticket.state, TicketState::Running)
}

/// Whether the ticket can time out: it waits, or its run is under way.
pub fn is_open(ticket: &Ticket) -> bool
    ensures { result ≡ is_open ticket.now }
{
    is_queued(ticket) || is_running(ticket)
}

/// Whether a holder runs the ticket's fallback.
pub fn is_in_fallback(ticket: &Ticket) -> bool
    ensures { result ≡ is_in_fallback ticket.now }
{
    matches!(ticket.state, TicketState::InFallback(_))
}

/// Whether a holder that collects gets no answer yet, and no fallback to run.
pub fn is_unanswered(ticket: &Ticket) -> bool
    ensures { result ≡ is_unanswered ticket.now }
{
    matches!(
        ticket.state,
        TicketState::Queued | TicketState::Running | TicketState::InFallback(_)
    )
}

/// Whether a holder is to collect the ticket's answer.
pub fn is_held(ticket: &Ticket) -> bool
    ensures { result ≡ nat_lt 0 ticket.now.holders }
{
    0 < ticket.holders
}

/// Whether the ticket's run has not ended, or someone has still to collect its answer.
pub fn is_used(ticket: &Ticket) -> bool
    ensures { result ≡ is_used ticket.now }
{
    ticket.busy || is_held(ticket)
}

/// Whether somebody needs the ticket.
pub fn is_kept(ticket: &Ticket) -> bool
    ensures { result ≡ is_kept ticket.now }
{
    ticket.busy || 0 < ticket.holders || ticket.cached
}

/// Whether the ticket was submitted too late to be due.
pub fn is_young(ticket: &Ticket, due: &DueRule) -> bool
    ensures { result ≡ is_young_by due.now ticket.now }
{
    due.moment.saturating_sub(ticket.submitted) < due.timeout_ms
}

/// Whether the ticket is to time out.
pub fn is_due(ticket: &Ticket, due: &DueRule) -> bool
    ensures { result ≡ is_due_by due.now ticket.now }
{
    ticket.command == due.command && due.timeout_on && is_open(ticket) && !is_young(ticket, due)
}
