//! What the steps of a group do to one ticket.

ghost use Rattle.std.specs.Prelude.{◌≡◌};
ghost use Rattle.bh_tickets.specs.Changes.{IsAllowed, changed_by, state_after};

use bh_base::{Answer, Cause, Text, Ticket, TicketState};

/// How a run ended that ended in time. The body is held by whoever told the end.
#[derive(Clone, Copy)]
pub enum RunEnd<'a> {
    /// It gave a body.
    Value(&'a Text<256>),
    /// It told that the request was a bad one.
    BadRequest,
    Failure,
}

/// What happens to a ticket.
#[derive(Clone, Copy)]
pub enum TicketChange<'a> {
    /// A worker begins with its run.
    StartRun,
    /// Its run ended in time.
    EndRun(RunEnd<'a>),
    /// Its run ended, too late.
    StopRun,
    /// One holder has collected the answer.
    ReleaseHolder,
    /// It is answered, and one holder has collected that.
    AnswerHolder(&'a Answer),
    Answer(&'a Answer),
    /// A holder begins with its fallback.
    StartFallback(Cause),
    /// One more holder waits for the answer.
    AddHolder,
    TimeOut,
}

/// Changes the ticket.
#[inline(always)]
pub fn apply(change: &TicketChange, ticket: &mut Ticket)
    requires { IsAllowed change.now ticket.old }
    ensures { ticket.new ≡ changed_by change.now ticket.old }
{
    match change {
        TicketChange::StartRun => {
            ticket.state = TicketState::Running;
            ticket.busy = true;
        }
        TicketChange::EndRun(end) => {
            settle(end, &mut ticket.state);
            ticket.busy = false;
        }
        TicketChange::StopRun => ticket.busy = false,
        TicketChange::ReleaseHolder => ticket.holders -= 1,
        TicketChange::AnswerHolder(answer) => {
            ticket.state = TicketState::Answered(**answer);
            ticket.holders -= 1;
        }
        TicketChange::Answer(answer) => ticket.state = TicketState::Answered(**answer),
        TicketChange::StartFallback(cause) => ticket.state = TicketState::InFallback(*cause),
        TicketChange::AddHolder => ticket.holders += 1,
        TicketChange::TimeOut => ticket.state = TicketState::NeedsFallback(Cause::Timeout),
    }
}

/// The state of a ticket whose run has ended so is written where it is kept: only a body is copied, and only once.
#[inline(always)]
fn settle(end: &RunEnd, state: &mut TicketState)
    ensures { state.new ≡ state_after end.now }
{
    match end {
        RunEnd::Value(body) => *state = TicketState::Answered(Answer::Value(**body)),
        RunEnd::BadRequest => *state = TicketState::Answered(Answer::BadRequest),
        RunEnd::Failure => *state = TicketState::NeedsFallback(Cause::Failure),
    }
}
