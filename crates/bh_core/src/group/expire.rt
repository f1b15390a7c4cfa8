//! Expire: tickets whose time is up.

ghost use Rattle.std.specs.Prelude.{◌≡◌, ◌==◌, ◌+◌, ◌*◌, ◌<◌, ◌≤◌, ◌^◌, filter, length, replicate};
ghost use Rattle.std.specs.List.{list_any};
ghost use Rattle.bh_base.specs.declared.event.EventKind.TheVariants as kind;
ghost use Rattle.bh_base.specs.declared.step.Op.TheVariants as op;
ghost use Rattle.bh_base.specs.Commands.{command_count};
ghost use Rattle.bh_base.specs.Machine.{is_due};
ghost use Rattle.bh_base.specs.Order.{AreKnown};
ghost use Rattle.bh_core.specs.GroupView.{HasTickets, Leaves, counted_of, view_in};
ghost use Rattle.bh_core.specs.Stepping.{IsBounded, IsDone, due_of, due_rule_of, view_test_timed_out, view_tests_timed_out, view_timed_out, with_events};
ghost use Rattle.bh_tickets.specs.TicketsView.{TicketsView, group_at};

use super::Group;
use bh_base::{CircuitState, End, EventKind, Reply, Serial};
use bh_tickets::{DueRule, Tickets};

impl Group {
    /// Each ticket that is due times out, one command after the other.
    pub fn expire(&mut self, tickets: &mut Tickets, reply: &mut Reply)
        requires has { HasTickets tickets.old self.old }
        requires bounded { IsBounded (view_in tickets.old self.old) }
        ensures done { IsDone (view_in tickets.old self.old) op.Expire reply.new (view_in tickets.new self.new) }
        ensures left { Leaves tickets.old self.old tickets.new self.new }
    {
        self.time_out_tests(tickets);
        let mut count = 0;
        for command in 0..self.command_count() {
            count += self.time_out(tickets, command);
        }
        *reply = Reply::Expired(count);
    }

    /// Which tickets of the command are due at the latest moment.
    pub fn due_rule(&self, command: u8) -> DueRule
        requires { command < command_count self.now.props }
        ensures { (ts : TicketsView) → result ≡ due_rule_of command (view_in ts self.now).present }
    {
        let own = self.props.command(command);
        DueRule {
            command,
            timeout_on: own.timeout_on,
            timeout_ms: own.timeout_ms,
            moment: self.latest,
        }
    }

    /// The tickets of the command that are due time out; answers how many did.
    fn time_out(&mut self, tickets: &mut Tickets, command: u8) -> u64
        requires has { HasTickets tickets.old self.old }
        requires known { command < command_count self.old.props }
        requires few { counted_of self.old < 2 ^ 58 }
        ensures few { result ≤ 4096 }
        ensures count { result ≡ length (due_of command (view_in tickets.old self.old).present) }
        ensures view { view_in tickets.new self.new ≡ view_timed_out command (view_in tickets.old self.old) }
        ensures counted { counted_of self.new ≤ counted_of self.old + 3 * result }
        ensures left { Leaves tickets.old self.old tickets.new self.new }
    {
        let due = self.due_rule(command);
        let count = tickets.time_out(self.place, &due);
        self.record_timeouts(command, count);
        count
    }

    /// Tells each circuit breaker whose test call is due.
    fn time_out_tests(&mut self, tickets: &Tickets)
        requires there { self.old.place < length tickets.now.groups }
        requires known { AreKnown self.old.props (group_at tickets.now self.old.place).items }
        ensures view { view_in tickets.now self.new ≡ view_tests_timed_out (view_in tickets.now self.old) }
        ensures left { (ts : TicketsView) → Leaves ts self.old ts self.new }
    {
        for command in 0..self.command_count() {
            self.time_out_test(tickets, command);
        }
    }

    /// Tells the command's circuit breaker where its test call is due.
    fn time_out_test(&mut self, tickets: &Tickets, command: u8)
        requires there { self.old.place < length tickets.now.groups }
        requires tickets { AreKnown self.old.props (group_at tickets.now self.old.place).items }
        requires known { command < command_count self.old.props }
        ensures view { view_in tickets.now self.new ≡ view_test_timed_out command (view_in tickets.now self.old) }
        ensures left { (ts : TicketsView) → Leaves ts self.old ts self.new }
    {
        match self.commands[command as usize].circuit.state() {
            CircuitState::HalfOpen(_, test) if self.is_ticket_due(tickets, test) =>
                self.tell_circuit(command, test, End::Error),
            _ => {}
        }
    }

    /// Whether a ticket of the serial is due, of whichever command.
    fn is_ticket_due(&self, tickets: &Tickets, serial: Serial) -> bool
        requires there { self.now.place < length tickets.now.groups }
        requires tickets { AreKnown self.now.props (group_at tickets.now self.now.place).items }
        ensures { result ≡ list_any (λ t. t.serial == serial) (filter (is_due (view_in tickets.now self.now).present) (group_at tickets.now self.now.place).items) }
    {
        for command in 0..self.command_count() {
            if tickets.is_due(self.place, serial, &self.due_rule(command)) {
                return true;
            }
        }
        false
    }

    /// Adds so many timeouts of the command at the step's moment.
    fn record_timeouts(&mut self, command: u8, count: u64)
        requires known { command < command_count self.old.props }
        requires few { counted_of self.old + 3 * count < 2 ^ 60 }
        ensures view { (ts : TicketsView) → view_in ts self.new ≡ with_events (replicate count (record { command = command; kind = kind.Timeout })) (view_in ts self.old) }
        ensures counted { counted_of self.new ≤ counted_of self.old + 3 * count }
        ensures left { (ts : TicketsView) → Leaves ts self.old ts self.new }
    {
        for done in 0..count {
            self.record(command, EventKind::Timeout);
        }
    }
}
