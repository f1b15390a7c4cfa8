//! Start, finish and fail: the runs of the dependency.

ghost use Rattle.std.specs.Prelude.{◌≡◌, ◌<◌, ◌≤◌, find};
ghost use Rattle.bh_base.specs.declared.step.Op.TheVariants as op;
ghost use Rattle.bh_base.specs.Commands.{command_count};
ghost use Rattle.bh_base.specs.Machine.{pool_busy_count, run_ended};
ghost use Rattle.bh_base.specs.Order.{AreKnown};
ghost use Rattle.bh_base.specs.Tickets.{is_busy_at};
ghost use Rattle.bh_core.specs.Stepping.{IsBounded, IsDone, IsDoneBy, worker_count};
ghost use Rattle.bh_core.specs.GroupView.{HasTickets, Leaves, view_in};
ghost use Rattle.bh_tickets.specs.Changes.{state_after};
ghost use Rattle.bh_tickets.specs.TicketsView.{group_at};

use super::Group;
use super::written::{write_assigned, write_done};
use bh_base::{End, EventKind, Reply, Serial, Strategy, Text};
use bh_tickets::{RunEnd, Tickets, is_running};

impl Group {
    /// The first queued ticket runs, where a worker is free.
    pub fn start(&self, tickets: &mut Tickets, reply: &mut Reply)
        requires has { HasTickets tickets.old self.now }
        requires bounded { IsBounded (view_in tickets.old self.now) }
        ensures done { IsDone (view_in tickets.old self.now) op.Start reply.new (view_in tickets.new self.now) }
        ensures left { Leaves tickets.old self.now tickets.new self.now }
    {
        if self.pool_busy_count(tickets) >= self.workers() {
            *reply = Reply::Idle;
            return;
        }
        match tickets.first_queued(self.place) {
            None => *reply = Reply::Idle,
            Some(slot) => {
                let ticket = tickets.get(self.place, slot);
                write_assigned(ticket, reply);
                tickets.start_run(self.place, slot);
            }
        }
    }

    /// How many workers of the group's thread pool are at a run.
    pub fn pool_busy_count(&self, tickets: &Tickets) -> u64
        requires has { HasTickets tickets.now self.now }
        requires known { AreKnown self.now.props (group_at tickets.now self.now.place).items }
        ensures { result ≡ pool_busy_count (view_in tickets.now self.now).present }
    {
        let mut count = 0;
        for command in 0..self.command_count() {
            count += self.worker_count(tickets, command);
        }
        count
    }

    /// How many of them are at a run of the command.
    fn worker_count(&self, tickets: &Tickets, command: u8) -> u64
        requires has { HasTickets tickets.now self.now }
        requires known { command < command_count self.now.props }
        ensures few { result ≤ 4096 }
        ensures count { result ≡ worker_count command (view_in tickets.now self.now).present }
    {
        match self.props.command(command).strategy {
            Strategy::Thread => tickets.busy_count(self.place, command),
            Strategy::Semaphore => 0,
        }
    }

    /// The end of a ticket's run is told, with the value that it gave.
    pub fn finish(
        &mut self,
        tickets: &mut Tickets,
        serial: Serial,
        body: &Text<256>,
        reply: &mut Reply,
    )
        requires has { HasTickets tickets.old self.old }
        requires bounded { IsBounded (view_in tickets.old self.old) }
        ensures done { IsDone (view_in tickets.old self.old) (op.Finish serial body.now) reply.new (view_in tickets.new self.new) }
        ensures left { Leaves tickets.old self.old tickets.new self.new }
    {
        self.end_run(
            tickets,
            serial,
            RunEnd::Value(body),
            End::Success,
            EventKind::Success,
            reply,
        );
    }

    /// The end of a ticket's run is told, as a failure or as a bad request.
    pub fn fail(&mut self, tickets: &mut Tickets, serial: Serial, bad: bool, reply: &mut Reply)
        requires has { HasTickets tickets.old self.old }
        requires bounded { IsBounded (view_in tickets.old self.old) }
        ensures done { IsDone (view_in tickets.old self.old) (op.Fail serial bad) reply.new (view_in tickets.new self.new) }
        ensures left { Leaves tickets.old self.old tickets.new self.new }
    {
        if bad {
            self.end_run(
                tickets,
                serial,
                RunEnd::BadRequest,
                End::BadRequest,
                EventKind::BadRequest,
                reply,
            );
            return;
        }
        self.end_run(
            tickets,
            serial,
            RunEnd::Failure,
            End::Error,
            EventKind::Failure,
            reply,
        );
    }

    /// The run of the ticket has ended, and the ticket goes on to what its end brings, unless it had timed out.
    #[inline(always)]
    fn end_run(
        &mut self,
        tickets: &mut Tickets,
        serial: Serial,
        run_end: RunEnd,
        end: End,
        kind: EventKind,
        reply: &mut Reply,
    )
        requires has { HasTickets tickets.old self.old }
        requires bounded { IsBounded (view_in tickets.old self.old) }
        ensures done { IsDoneBy (view_in tickets.old self.old) (run_ended (find (is_busy_at serial) (view_in tickets.old self.old).present.tickets) serial (state_after run_end.entry) end kind (view_in tickets.old self.old).present) reply.new (view_in tickets.new self.new) }
        ensures left { Leaves tickets.old self.old tickets.new self.new }
    {
        match tickets.find_busy(self.place, serial) {
            None => *reply = Reply::NotRunning,
            Some(slot) => {
                let ticket = tickets.get(self.place, slot);
                let command = ticket.command;
                if !is_running(ticket) {
                    tickets.stop_run(self.place, slot);
                    *reply = Reply::Late;
                    return;
                }
                tickets.end_run(self.place, slot, run_end);
                self.record(command, kind);
                self.tell_circuit(command, serial, end);
                write_done(reply);
            }
        }
    }
}
