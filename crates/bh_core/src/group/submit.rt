//! Submit: where a request goes.

ghost use Rattle.std.specs.Prelude.{◌≡◌, ◌<◌, ◌≤◌, None, Some, length};
ghost use Rattle.bh_base.specs.declared.step.Op.TheVariants as op;
ghost use Rattle.bh_base.specs.Commands.{command_count, props_of};
ghost use Rattle.bh_base.specs.Order.{AreKnown};
ghost use Rattle.bh_base.specs.Machine.{due_fallback, is_admitted, placed, rejected, submitted};
ghost use Rattle.bh_core.specs.Stepping.{IsBounded, IsDone, IsDoneBy, IsJoinable, asked_with, rolling_now, view_with_ticket};
ghost use Rattle.bh_core.specs.GroupView.{HasTickets, Leaves, view_in};
ghost use Rattle.bh_tickets.specs.NewTicket.{is_busy_from, state_from};
ghost use Rattle.bh_tickets.specs.TicketsView.{group_at};

use super::Group;
use super::written::{write_inline, write_queued};
use bh_admit::pool_admits;
use bh_base::{Admit, Cause, End, EventKind, Health, Reply, Request, Serial, Strategy};
use bh_tickets::{NewTicket, TicketStart, Tickets};

impl Group {
    /// A request comes in: it joins a cached ticket, or asks for one of its own.
    pub fn submit(&mut self, tickets: &mut Tickets, request: &Request, reply: &mut Reply)
        requires has { HasTickets tickets.old self.old }
        requires bounded { IsBounded (view_in tickets.old self.old) }
        requires known { request.now.command < command_count self.old.props }
        ensures done { IsDone (view_in tickets.old self.old) (op.Submit request.now) reply.new (view_in tickets.new self.new) }
        ensures left { Leaves tickets.old self.old tickets.new self.new }
    {
        if let Some(slot) = self.find_cached(tickets, request) {
            self.join(tickets, request, slot, reply);
            return;
        }
        self.make_ticket(tickets, request, reply);
    }

    /// The slot of the cached ticket that the request may join.
    fn find_cached(&self, tickets: &Tickets, request: &Request) -> Option<u32>
        requires has { HasTickets tickets.now self.now }
        requires known { request.now.command < command_count self.now.props }
        ensures { IsJoinable (view_in tickets.now self.now).present (group_at tickets.now self.now.place) request.now result }
    {
        if !self.props.command(request.command).cache_on {
            return None;
        }
        match &request.cache {
            Some((context, key)) => tickets.find_cached(self.place, request.command, *context, key),
            None => None,
        }
    }

    /// The request joins the ticket in the slot.
    fn join(&mut self, tickets: &mut Tickets, request: &Request, slot: u32, reply: &mut Reply)
        requires has { HasTickets tickets.old self.old }
        requires bounded { IsBounded (view_in tickets.old self.old) }
        requires known { request.now.command < command_count self.old.props }
        requires found { IsJoinable (view_in tickets.old self.old).present (group_at tickets.old self.old.place) request.now (Some slot) }
        ensures done { IsDone (view_in tickets.old self.old) (op.Submit request.now) reply.new (view_in tickets.new self.new) }
        ensures left { Leaves tickets.old self.old tickets.new self.new }
    {
        let serial = tickets.get(self.place, slot).serial;
        tickets.add_holder(self.place, slot);
        self.record(request.command, EventKind::ResponseFromCache);
        *reply = Reply::Joined(serial);
    }

    /// The request gets a ticket of its own, unless there is no free slot.
    fn make_ticket(&mut self, tickets: &mut Tickets, request: &Request, reply: &mut Reply)
        requires has { HasTickets tickets.old self.old }
        requires bounded { IsBounded (view_in tickets.old self.old) }
        requires known { request.now.command < command_count self.old.props }
        ensures done { IsDoneBy (view_in tickets.old self.old) (submitted None request.now (rolling_now (view_in tickets.old self.old) request.now.command) (view_in tickets.old self.old).present) reply.new (view_in tickets.new self.new) }
        ensures left { Leaves tickets.old self.old tickets.new self.new }
    {
        if tickets.len(self.place) >= self.slots() {
            *reply = Reply::GroupFull;
            return;
        }
        let health = self.health_asked(tickets, request.command);
        let said = self.commands[request.command as usize].circuit.admit(
            self.latest,
            self.props.command(request.command),
            health,
            tickets.next_serial(self.place),
        );
        match said {
            Admit::Short => self.fall_back_from(
                tickets,
                request,
                Cause::ShortCircuited,
                EventKind::ShortCircuited,
                false,
                reply,
            ),
            Admit::Test => self.run_or_queue(tickets, request, true, reply),
            Admit::Pass => self.run_or_queue(tickets, request, false, reply),
        }
    }

    /// Health for the command's circuit breaker, which is counted only where it is looked at.
    fn health_asked(&self, tickets: &Tickets, command: u8) -> Health
        requires has { HasTickets tickets.now self.now }
        requires known { command < command_count self.now.props }
        ensures range { result.errors ≤ result.total }
        ensures same { asked_with command (view_in tickets.now self.now) result ≡ asked_with command (view_in tickets.now self.now) (rolling_now (view_in tickets.now self.now) command).health }
    {
        let own = &self.commands[command as usize];
        if own
            .circuit
            .takes_snapshot(self.latest, self.props.command(command))
        {
            return own.history.health(self.latest);
        }
        Health {
            errors: 0,
            total: 0,
        }
    }

    /// The request runs, or waits for a worker, where there is room for it.
    fn run_or_queue(
        &mut self,
        tickets: &mut Tickets,
        request: &Request,
        test: bool,
        reply: &mut Reply,
    )
        requires has { HasTickets tickets.old self.old }
        requires bounded { IsBounded (view_in tickets.old self.old) }
        requires known { request.now.command < command_count self.old.props }
        requires free { length (view_in tickets.old self.old).present.tickets < (view_in tickets.old self.old).present.props.slots }
        ensures done { IsDoneBy (view_in tickets.old self.old) (placed request.now test (view_in tickets.old self.old).present) reply.new (view_in tickets.new self.new) }
        ensures left { Leaves tickets.old self.old tickets.new self.new }
    {
        if !self.is_admitted(tickets, request.command) {
            self.reject(tickets, request, test, reply);
            return;
        }
        let serial = tickets.next_serial(self.place);
        match self.props.command(request.command).strategy {
            Strategy::Semaphore => {
                self.add_ticket(tickets, request, TicketStart::Running, test);
                write_inline(serial, reply);
                return;
            }
            Strategy::Thread => {
                self.add_ticket(tickets, request, TicketStart::Queued, test);
                write_queued(serial, reply);
                return;
            }
        }
    }

    /// Whether a permit of the command is free, or the pool of the group takes one more.
    fn is_admitted(&self, tickets: &Tickets, command: u8) -> bool
        requires has { HasTickets tickets.now self.now }
        requires tickets { AreKnown self.now.props (group_at tickets.now self.now.place).items }
        requires known { command < command_count self.now.props }
        ensures { result ≡ is_admitted (view_in tickets.now self.now).present command (props_of command self.now.props).strategy }
    {
        let props = self.props.command(command);
        match props.strategy {
            Strategy::Semaphore => tickets.busy_count(self.place, command) < props.semaphore,
            Strategy::Thread => pool_admits(
                self.pool_busy_count(tickets),
                tickets.waiting_count(self.place),
                self.props.core,
                self.props.max_queue,
                self.props.queue_threshold,
            ),
        }
    }

    /// The request is rejected; a test call that is rejected has failed.
    fn reject(&mut self, tickets: &mut Tickets, request: &Request, test: bool, reply: &mut Reply)
        requires has { HasTickets tickets.old self.old }
        requires bounded { IsBounded (view_in tickets.old self.old) }
        requires known { request.now.command < command_count self.old.props }
        requires free { length (view_in tickets.old self.old).present.tickets < (view_in tickets.old self.old).present.props.slots }
        ensures done { IsDoneBy (view_in tickets.old self.old) (rejected (props_of request.now.command self.old.props).strategy request.now test (view_in tickets.old self.old).present) reply.new (view_in tickets.new self.new) }
        ensures left { Leaves tickets.old self.old tickets.new self.new }
    {
        self.tell_circuit(request.command, tickets.next_serial(self.place), End::Error);
        match self.props.command(request.command).strategy {
            Strategy::Semaphore => {
                self.fall_back_from(
                    tickets,
                    request,
                    Cause::SemaphoreRejected,
                    EventKind::SemaphoreRejected,
                    test,
                    reply,
                );
                return;
            }
            Strategy::Thread => {
                self.fall_back_from(
                    tickets,
                    request,
                    Cause::PoolRejected,
                    EventKind::ThreadPoolRejected,
                    test,
                    reply,
                );
                return;
            }
        }
    }

    /// The request does not run: its ticket needs a fallback.
    fn fall_back_from(
        &mut self,
        tickets: &mut Tickets,
        request: &Request,
        cause: Cause,
        event: EventKind,
        test: bool,
        reply: &mut Reply,
    )
        requires has { HasTickets tickets.old self.old }
        requires bounded { IsBounded (view_in tickets.old self.old) }
        requires known { request.now.command < command_count self.old.props }
        requires free { length (view_in tickets.old self.old).present.tickets < (view_in tickets.old self.old).present.props.slots }
        ensures done { IsDoneBy (view_in tickets.old self.old) (due_fallback cause event request.now test (view_in tickets.old self.old).present) reply.new (view_in tickets.new self.new) }
        ensures left { Leaves tickets.old self.old tickets.new self.new }
    {
        let serial = tickets.next_serial(self.place);
        self.add_ticket(tickets, request, TicketStart::NeedsFallback(cause), test);
        self.record(request.command, event);
        *reply = Reply::FallbackDue { serial, cause };
    }

    /// Makes the ticket of a request.
    #[inline(always)]
    fn add_ticket(&self, tickets: &mut Tickets, request: &Request, start: TicketStart, test: bool)
        requires has { HasTickets tickets.old self.now }
        requires bounded { IsBounded (view_in tickets.old self.now) }
        requires known { request.now.command < command_count self.now.props }
        requires free { length (view_in tickets.old self.now).present.tickets < (view_in tickets.old self.now).present.props.slots }
        ensures view { view_in tickets.new self.now ≡ view_with_ticket request.now (state_from start) (is_busy_from start) test (view_in tickets.old self.now) }
        ensures left { Leaves tickets.old self.now tickets.new self.now }
    {
        let new = NewTicket {
            request,
            submitted: self.latest,
            start,
            cached: self.props.command(request.command).cache_on && request.cache.is_some(),
            test,
        };
        tickets.push(self.place, &new);
    }
}
