//! Collect and fallback-done: answers, and the fallbacks that may give them.

ghost use Rattle.std.specs.Prelude.{◌≡◌, ◌<◌};
ghost use Rattle.bh_base.specs.declared.step.Op.TheVariants as op;
ghost use Rattle.bh_base.specs.declared.ticket.TicketState.TheVariants as ticket;
ghost use Rattle.bh_base.specs.Commands.{command_count};
ghost use Rattle.bh_base.specs.Machine.{collected_in, fallback_answer, fallback_done_in};
ghost use Rattle.bh_base.specs.Tickets.{is_held_at, is_in_fallback_at};
ghost use Rattle.bh_core.specs.Stepping.{IsBounded, IsDone, IsDoneBy};
ghost use Rattle.bh_core.specs.GroupView.{HasTickets, Leaves, view_in};
ghost use Rattle.bh_tickets.specs.TicketsView.{IsFirstAt, group_at};

use super::Group;
use super::written::write_answered;
use bh_base::{Answer, Cause, EventKind, FallbackEnd, FallbackFault, Reply, Serial, TicketState};
use bh_tickets::Tickets;

impl Group {
    /// One holder of the ticket asks for its answer.
    pub fn collect(&mut self, tickets: &mut Tickets, serial: Serial, reply: &mut Reply)
        requires has { HasTickets tickets.old self.old }
        requires bounded { IsBounded (view_in tickets.old self.old) }
        ensures done { IsDone (view_in tickets.old self.old) (op.Collect serial) reply.new (view_in tickets.new self.new) }
        ensures left { Leaves tickets.old self.old tickets.new self.new }
    {
        match tickets.find_held(self.place, serial) {
            None => *reply = Reply::NoTicket,
            Some(slot) => {
                let ticket = tickets.get(self.place, slot);
                let command = ticket.command;
                match &ticket.state {
                    TicketState::Answered(answer) => {
                        // Before the ticket changes, so that the answer is copied once.
                        write_answered(answer, reply);
                        tickets.release_holder(self.place, slot);
                        return;
                    }
                    TicketState::NeedsFallback(cause) => {
                        let cause = *cause;
                        self.fall_back(tickets, serial, slot, command, cause, reply);
                        return;
                    }
                    TicketState::Queued => *reply = Reply::Pending,
                    TicketState::Running => *reply = Reply::Pending,
                    TicketState::InFallback(_) => *reply = Reply::Pending,
                }
            }
        }
    }

    /// A holder asks for the answer of a ticket of the command that needs a fallback.
    fn fall_back(
        &mut self,
        tickets: &mut Tickets,
        serial: Serial,
        slot: u32,
        command: u8,
        cause: Cause,
        reply: &mut Reply,
    )
        requires has { HasTickets tickets.old self.old }
        requires bounded { IsBounded (view_in tickets.old self.old) }
        requires held { IsFirstAt (is_held_at serial) (group_at tickets.old self.old.place) slot }
        requires known { command < command_count self.old.props }
        ensures done { IsDoneBy (view_in tickets.old self.old) (collected_in (ticket.NeedsFallback cause) command serial (view_in tickets.old self.old).present) reply.new (view_in tickets.new self.new) }
        ensures left { Leaves tickets.old self.old tickets.new self.new }
    {
        let own = self.props.command(command);
        if !own.fallback_on {
            let answer = error(cause, FallbackFault::Disabled);
            tickets.answer_holder(self.place, slot, &answer);
            self.record(command, EventKind::ExceptionThrown);
            *reply = Reply::Answered(answer);
            return;
        }
        if tickets.in_fallback_count(self.place, command) >= own.fallback_permits {
            let answer = error(cause, FallbackFault::Rejected);
            tickets.answer_holder(self.place, slot, &answer);
            self.record(command, EventKind::FallbackRejection);
            self.record(command, EventKind::ExceptionThrown);
            *reply = Reply::Answered(answer);
            return;
        }
        tickets.start_fallback(self.place, slot, cause);
        *reply = Reply::RunFallback(cause);
    }

    /// The end of a ticket's fallback is told.
    pub fn fallback_done(
        &mut self,
        tickets: &mut Tickets,
        serial: Serial,
        end: &FallbackEnd,
        reply: &mut Reply,
    )
        requires has { HasTickets tickets.old self.old }
        requires bounded { IsBounded (view_in tickets.old self.old) }
        ensures done { IsDone (view_in tickets.old self.old) (op.FallbackDone serial end.now) reply.new (view_in tickets.new self.new) }
        ensures left { Leaves tickets.old self.old tickets.new self.new }
    {
        match tickets.find_in_fallback(self.place, serial) {
            None => *reply = Reply::NotInFallback,
            Some(slot) => {
                let ticket = tickets.get(self.place, slot);
                let command = ticket.command;
                match ticket.state {
                    TicketState::InFallback(cause) => {
                        self.end_fallback(tickets, serial, slot, command, cause, end, reply);
                        return;
                    }
                    _ => *reply = Reply::NotInFallback,
                }
            }
        }
    }

    /// The fallback of a ticket of the command has ended: the ticket is answered.
    fn end_fallback(
        &mut self,
        tickets: &mut Tickets,
        serial: Serial,
        slot: u32,
        command: u8,
        cause: Cause,
        end: &FallbackEnd,
        reply: &mut Reply,
    )
        requires has { HasTickets tickets.old self.old }
        requires bounded { IsBounded (view_in tickets.old self.old) }
        requires known { command < command_count self.old.props }
        requires found { IsFirstAt (is_in_fallback_at serial) (group_at tickets.old self.old.place) slot }
        ensures done { IsDoneBy (view_in tickets.old self.old) (fallback_done_in (ticket.InFallback cause) command serial end.now (view_in tickets.old self.old).present) reply.new (view_in tickets.new self.new) }
        ensures left { Leaves tickets.old self.old tickets.new self.new }
    {
        let answer = fallback_answer(end, cause);
        tickets.answer(self.place, slot, &answer);
        match end {
            FallbackEnd::Success(_) => {
                self.record(command, EventKind::FallbackSuccess);
                *reply = Reply::Done;
                return;
            }
            FallbackEnd::Failure => {
                self.record(command, EventKind::FallbackFailure);
                self.record(command, EventKind::ExceptionThrown);
                *reply = Reply::Done;
                return;
            }
            FallbackEnd::Missing => {
                self.record(command, EventKind::FallbackMissing);
                self.record(command, EventKind::ExceptionThrown);
                *reply = Reply::Done;
                return;
            }
        }
    }
}

/// The answer where no fallback gave a value.
fn error(cause: Cause, fallback: FallbackFault) -> Answer
    ensures { result ≡ Answer.Error cause fallback }
{
    Answer::Error { cause, fallback }
}

/// The answer that a fallback gives.
fn fallback_answer(end: &FallbackEnd, cause: Cause) -> Answer
    ensures { result ≡ fallback_answer end.now cause }
{
    match end {
        FallbackEnd::Success(body) => Answer::FallbackValue { cause, body: *body },
        FallbackEnd::Failure => error(cause, FallbackFault::Failed),
        FallbackEnd::Missing => error(cause, FallbackFault::Missing),
    }
}
