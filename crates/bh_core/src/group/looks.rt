//! Looks at a group that change nothing: what a step would be answered.

ghost use Rattle.std.specs.Prelude.{◌≡◌, ◌==◌, ◌<◌, ℕ, Bool, [], false, find, length, max, option_copied, IfSome};
ghost use Rattle.bh_base.specs.declared.step.Op.TheVariants as op;
ghost use Rattle.bh_base.specs.Seen.{view_reply};
ghost use Rattle.bh_base.specs.declared.ticket.Ticket.{Ticket};
ghost use Rattle.bh_core.specs.GroupView.{HasTickets, view_in};
ghost use Rattle.bh_core.specs.Stepping.{IsSteady};
ghost use Rattle.bh_core.specs.Looks.{IsFound, circuit_shown, expires_some, is_assigned, is_pending, metrics_shown, ticket_meant, totals_shown};
ghost use Rattle.bh_tickets.specs.TicketsView.{IsThere, TicketsView, group_at};

use super::Group;
use bh_base::{CircuitState, Counts, GroupProps, Metrics, Moment, Op, Serial, Ticket};
use bh_tickets::{DueRule, Tickets, is_unanswered};

impl Group {
    /// The properties of the group.
    pub fn props(&self) -> &GroupProps
        ensures { result.now ≡ self.now.props }
    {
        &self.props
    }

    /// How many steps the group may do.
    pub fn step_limit(&self) -> u64
        ensures { result ≡ self.now.limit }
    {
        self.limit
    }

    /// How many steps the group has done.
    pub fn steps(&self) -> u64
        ensures { result ≡ self.now.steps }
    {
        self.steps
    }

    /// The moment of the last step, 0 where there was none.
    pub fn latest(&self) -> Moment
        ensures { result ≡ self.now.latest }
    {
        self.latest
    }

    /// Whether the group has done all the steps that it may.
    pub fn is_worn(&self) -> bool
        ensures { result ≡ (self.now.steps == self.now.limit) }
    {
        self.steps == self.limit
    }

    /// The state of the command's circuit breaker, where the group has the command.
    pub fn circuit(&self, command: u8) -> Option<CircuitState>
        ensures { (ts : TicketsView) → result ≡ circuit_shown command (view_in ts self.now) }
    {
        if command >= self.command_count() {
            return None;
        }
        Some(self.commands[command as usize].circuit.state())
    }

    /// How many events of each kind the command had, where the group has the command.
    pub fn totals(&self, command: u8) -> Option<Counts>
        ensures { (ts : TicketsView) → result ≡ totals_shown command (view_in ts self.now) }
    {
        if command >= self.command_count() {
            return None;
        }
        Some(self.commands[command as usize].history.totals())
    }

    /// The metrics of the command at the moment, where the group has the command.
    pub fn metrics(&self, tickets: &Tickets, command: u8, now: Moment) -> Option<Metrics>
        requires { HasTickets tickets.now self.now }
        ensures { result ≡ metrics_shown command now (view_in tickets.now self.now) }
    {
        if command >= self.command_count() {
            return None;
        }
        Some(self.metrics_at(tickets, command, self.moment_of(now)))
    }

    /// The ticket that a step of the operation goes by, where it says a serial and there is such a ticket.
    pub fn ticket<'a>(&self, tickets: &'a Tickets, op: &Op) -> Option<&'a Ticket>
        requires { HasTickets tickets.now self.now }
        ensures { option_copied result ≡ ticket_meant op.now (view_in tickets.now self.now).present.tickets }
    {
        match op {
            Op::Finish { serial, .. } | Op::Fail { serial, .. } => {
                self.ticket_in(tickets, tickets.find_busy(self.place, *serial))
            }
            Op::Collect { serial } => {
                self.ticket_in(tickets, tickets.find_held(self.place, *serial))
            }
            Op::FallbackDone { serial, .. } => {
                self.ticket_in(tickets, tickets.find_in_fallback(self.place, *serial))
            }
            _ => None,
        }
    }

    /// The ticket in the slot, if a search found one.
    fn ticket_in<'a>(&self, tickets: &'a Tickets, slot: Option<u32>) -> Option<&'a Ticket>
        requires group { self.now.place < length tickets.now.groups }
        requires there { IfSome slot (λ slot. IsThere (group_at tickets.now self.now.place) slot) }
        ensures { (p : Ticket → Bool) → IsFound p (group_at tickets.now self.now.place) slot → option_copied result ≡ find p (group_at tickets.now self.now.place).items }
    {
        match slot {
            Some(slot) => Some(tickets.get(self.place, slot)),
            None => None,
        }
    }

    /// Whether a `Start` would be answered `Assigned`, at whatever moment.
    pub fn is_startable(&self, tickets: &Tickets) -> bool
        requires has { HasTickets tickets.now self.now }
        requires steady { IsSteady (view_in tickets.now self.now) }
        ensures { (moment : ℕ) → result ≡ is_assigned (view_reply (view_in tickets.now self.now) op.Start moment) }
    {
        if self.is_worn() {
            return false;
        }
        // Most often nothing is queued, and then no worker is counted.
        tickets.any_queued(self.place) && self.pool_busy_count(tickets) < self.workers()
    }

    /// Whether a `Collect` of the serial would be answered `Pending`, at whatever moment.
    pub fn is_pending(&self, tickets: &Tickets, serial: Serial) -> bool
        requires { HasTickets tickets.now self.now }
        ensures { (moment : ℕ) → result ≡ is_pending (view_reply (view_in tickets.now self.now) (op.Collect serial) moment) }
    {
        if self.is_worn() {
            return false;
        }
        match tickets.find_held(self.place, serial) {
            None => false,
            Some(slot) => is_unanswered(tickets.get(self.place, slot)),
        }
    }

    /// Whether the group has a ticket. Of one that has none nothing else has to be looked at.
    pub fn has_tickets(&self, tickets: &Tickets) -> bool
        requires { HasTickets tickets.now self.now }
        ensures { result ≡ false → (view_in tickets.now self.now).present.tickets ≡ [] }
    {
        tickets.len(self.place) > 0
    }

    /// Whether an `Expire` at the moment would be answered `Expired` of more than 0.
    pub fn is_due(&self, tickets: &Tickets, now: Moment) -> bool
        requires has { HasTickets tickets.now self.now }
        requires steady { IsSteady (view_in tickets.now self.now) }
        ensures { result ≡ expires_some (view_reply (view_in tickets.now self.now) op.Expire now) }
    {
        if self.is_worn() {
            return false;
        }
        let moment = self.moment_of(now);
        for command in 0..self.command_count() {
            let due = DueRule {
                moment,
                ..self.due_rule(command)
            };
            if tickets.any_due(self.place, &due) {
                return true;
            }
        }
        false
    }

    /// The moment of a step that comes at the given one: never before the latest.
    fn moment_of(&self, now: Moment) -> Moment
        ensures { result ≡ max self.now.latest now }
    {
        self.latest.max(now)
    }
}
