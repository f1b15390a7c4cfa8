//! One group: its operations change it together with its tickets.

ghost use Rattle.std.specs.Prelude.{◌≡◌, ◌+◌, ◌<◌, ◌≤◌, ◌^◌, length, map, true};
ghost use Rattle.bh_base.specs.declared.step.Op.TheVariants as op;
ghost use Rattle.bh_base.specs.Commands.{command_count, is_known};
ghost use Rattle.bh_base.specs.Machine.{metrics};
ghost use Rattle.bh_base.specs.Seen.{view_after, view_reply};
ghost use Rattle.bh_core.specs.Command.{new_command};
ghost use Rattle.bh_core.specs.GroupView.{HasTickets, Leaves, LeavesRoom, counted_of, new_group, view_in};
ghost use Rattle.bh_core.specs.Stepping.{Begins, IsBounded, IsDone, IsServed, IsSteady, rolling_then, view_ended, with_event, released_view};
ghost use Rattle.bh_tickets.specs.TicketsView.{TicketsView, group_at};

mod expire;
mod fallback;
mod looks;
mod runs;
mod submit;
mod tune;
mod written;

use crate::command::Command;
use crate::service::entry::Registration;
use bh_base::{End, EventKind, GroupProps, Metrics, Moment, Op, Reply, Serial};
use bh_circuit::percent;
use bh_tickets::Tickets;
use std::marker::Model;

/// A group beside its tickets, with storage for all that its steps can bring.
#[derive(Drop)]
pub struct Group {
    /// Where its tickets stand among those of all groups.
    place: usize,
    props: GroupProps,
    limit: u64,
    steps: u64,
    latest: Moment,
    /// By their numbers.
    commands: Vec<Command>,
}

impl Model for Group {
    ghost use Rattle.bh_core.specs.GroupView.{GroupView, group_view, IsReady};

    ghost Value = { GroupView };

    ghost view = { group_view };

    ghost invariant = { IsReady };
}

impl Group {
    /// A new group with these commands, which have no past, that may do so many steps.
    pub fn new(place: usize, props: GroupProps, limit: u64, commands: Vec<Command>) -> Self
        requires props { IsServed props }
        requires limit { limit ≤ 2 ^ 40 }
        requires commands { commands.items ≡ map new_command props.commands }
        ensures { result ≡ new_group place props limit }
    {
        Group {
            place,
            props,
            limit,
            steps: 0,
            latest: 0,
            commands,
        }
    }

    /// With what the group was registered. All else of it is given up.
    pub fn into_registration(self) -> Registration
        ensures { result ≡ record { props = self.props; limit = self.limit } }
    {
        let Group { props, limit, .. } = self;
        Registration { props, limit }
    }

    /// Where its tickets stand among those of all groups.
    pub fn place(&self) -> usize
        ensures { result ≡ self.now.place }
    {
        self.place
    }

    /// One step at the moment, in place. Like every function of an operation it writes the reply where the caller keeps it,
    /// since a reply is too long to be copied at each return.
    pub fn apply(&mut self, tickets: &mut Tickets, op: &Op, now: Moment, reply: &mut Reply)
        requires has { HasTickets tickets.old self.old }
        requires steady { IsSteady (view_in tickets.old self.old) }
        ensures has { HasTickets tickets.new self.new }
        ensures steady { IsSteady (view_in tickets.new self.new) }
        ensures reply { reply.new ≡ view_reply (view_in tickets.old self.old) op.now now }
        ensures view { view_in tickets.new self.new ≡ view_after (view_in tickets.old self.old) op.now now }
        ensures left { LeavesRoom tickets.old self.old tickets.new self.new }
    {
        if !self.is_known(op) {
            *reply = Reply::NoCommand;
            return;
        }
        if self.steps == self.limit {
            *reply = Reply::Worn;
            return;
        }
        self.begin(now);
        self.act(tickets, op, reply);
        tickets.release(self.place);
    }

    /// How many commands the group has.
    fn command_count(&self) -> u8
        ensures number { result ≡ command_count self.now.props }
        ensures each { length self.now.commands ≡ command_count self.now.props }
    {
        self.commands.len() as u8
    }

    /// How many tickets the group may have at a time.
    fn slots(&self) -> u64
        ensures { result ≡ self.now.props.slots }
    {
        self.props.slots
    }

    /// How many workers the group's thread pool has.
    fn workers(&self) -> u64
        ensures { result ≡ self.now.props.core }
    {
        self.props.core
    }

    /// Whether the group has the command that the operation names, if it names one.
    fn is_known(&self, op: &Op) -> bool
        ensures { result ≡ is_known op.now self.now.props }
    {
        match op {
            Op::Submit(request) => request.command < self.command_count(),
            Op::Read { command } => *command < self.command_count(),
            Op::Totals { command } => *command < self.command_count(),
            Op::Tune { command, .. } => *command < self.command_count(),
            _ => true,
        }
    }

    /// The step gets its number and its moment.
    fn begin(&mut self, now: Moment)
        requires { self.old.steps < self.old.limit }
        ensures begins { (ts : TicketsView) → Begins (view_in ts self.old) now (view_in ts self.new) }
        ensures bounded { (ts : TicketsView) → HasTickets ts self.old → IsSteady (view_in ts self.old) → IsBounded (view_in ts self.new) }
        ensures left { (ts : TicketsView) → Leaves ts self.old ts self.new }
    {
        self.steps += 1;
        self.latest = self.latest.max(now);
    }

    /// The case of the operation, in a step that has begun.
    fn act(&mut self, tickets: &mut Tickets, op: &Op, reply: &mut Reply)
        requires has { HasTickets tickets.old self.old }
        requires bounded { IsBounded (view_in tickets.old self.old) }
        requires known { is_known op.now self.old.props ≡ true }
        ensures done { IsDone (view_in tickets.old self.old) op.now reply.new (view_in tickets.new self.new) }
        ensures left { LeavesRoom tickets.old self.old tickets.new self.new }
    {
        match op {
            Op::Submit(request) => self.submit(tickets, request, reply),
            Op::Start => self.start(tickets, reply),
            Op::Finish { serial, body } => self.finish(tickets, *serial, body, reply),
            Op::Fail { serial, bad } => self.fail(tickets, *serial, *bad, reply),
            Op::Expire => self.expire(tickets, reply),
            Op::Collect { serial } => self.collect(tickets, *serial, reply),
            Op::FallbackDone { serial, end } => self.fallback_done(tickets, *serial, end, reply),
            Op::Close { context } => self.close(tickets, *context, reply),
            Op::Read { command } => self.read(tickets, *command, reply),
            Op::Totals { command } => self.read_totals(tickets, *command, reply),
            Op::Tune { command, tuning } => self.tune(*command, tuning, reply),
        }
    }

    /// A request context ends: no ticket of the group is cached in it any more.
    fn close(&self, tickets: &mut Tickets, context: u64, reply: &mut Reply)
        requires { HasTickets tickets.old self.now }
        ensures done { IsDone (view_in tickets.old self.now) (op.Close context) reply.new (view_in tickets.new self.now) }
        ensures left { Leaves tickets.old self.now tickets.new self.now }
    {
        *reply = Reply::Closed(tickets.close(self.place, context));
    }

    /// The metrics of the command at the step's moment.
    fn read(&self, tickets: &Tickets, command: u8, reply: &mut Reply)
        requires has { HasTickets tickets.now self.now }
        requires known { command < command_count self.now.props }
        ensures { IsDone (view_in tickets.now self.now) (op.Read command) reply.new (view_in tickets.now self.now) }
    {
        *reply = Reply::Metrics(self.metrics_at(tickets, command, self.latest));
    }

    /// The numbers of all events of the command.
    fn read_totals(&self, tickets: &Tickets, command: u8, reply: &mut Reply)
        requires has { HasTickets tickets.now self.now }
        requires known { command < command_count self.now.props }
        ensures { IsDone (view_in tickets.now self.now) (op.Totals command) reply.new (view_in tickets.now self.now) }
    {
        *reply = Reply::Totals(self.commands[command as usize].history.totals());
    }

    /// The metrics of the command at a moment that is no earlier than the latest.
    fn metrics_at(&self, tickets: &Tickets, command: u8, moment: Moment) -> Metrics
        requires has { HasTickets tickets.now self.now }
        requires known { command < command_count self.now.props }
        requires later { self.now.latest ≤ moment }
        ensures { Reply.Metrics result ≡ metrics command (rolling_then (view_in tickets.now self.now) command moment) (view_in tickets.now self.now).present }
    {
        let own = &self.commands[command as usize];
        let rolling = own.history.rolling(moment);
        Metrics {
            circuit: own.circuit.state(),
            counts: rolling.counts,
            errors: rolling.health.errors,
            total: rolling.health.total,
            percent: percent(rolling.health),
            busy: tickets.busy_count(self.place, command),
            queued: tickets.queued_count(self.place, command),
            free: self.slots() - tickets.len(self.place),
        }
    }

    /// Adds an event of the command at the step's moment.
    fn record(&mut self, command: u8, kind: EventKind)
        requires known { command < command_count self.old.props }
        requires few { counted_of self.old < 2 ^ 60 }
        ensures view { (ts : TicketsView) → view_in ts self.new ≡ with_event command kind (view_in ts self.old) }
        ensures counted { counted_of self.new ≤ counted_of self.old + 3 }
        ensures left { (ts : TicketsView) → Leaves ts self.old ts self.new }
    {
        self.commands[command as usize]
            .history
            .record(self.latest, kind);
    }

    /// Tells the command's circuit breaker how its ticket ended; where that closes it, the command's health starts anew.
    fn tell_circuit(&mut self, command: u8, serial: Serial, end: End)
        requires { command < command_count self.old.props }
        ensures view { (ts : TicketsView) → view_in ts self.new ≡ view_ended command serial end (view_in ts self.old) }
        ensures left { (ts : TicketsView) → Leaves ts self.old ts self.new }
    {
        let now = self.latest;
        let own = &mut self.commands[command as usize];
        if own.circuit.ended(serial, end, now) {
            own.history.restart_health();
            return;
        }
    }
}
