//! What a group keeps of its tickets beside their slots, and the changes of one slot.

ghost use Rattle.std.specs.Prelude.{◌≡◌, ◌≢◌, ◌+◌, ◌-◌, ◌<◌, ◌≤◌, ◌^◌, Some, true, length, is_some};
ghost use Rattle.bh_base.specs.declared.ticket.Ticket.{Ticket};
ghost use Rattle.bh_base.specs.Tickets.{is_queued, is_kept};
ghost use Rattle.bh_slot_arena.specs.Slots.{lists_in, with_moved};
ghost use Rattle.bh_cache.specs.Slots.{IsArena, list_for, ticket_at, one};
ghost use Rattle.bh_tickets.specs.GroupSlots.{IsGroupSlots, CanBe, IsPut, CanAdd, IsAdded, IsReleasedAt, IsSinceAt, IsTimed, IsUncached, counted_in, counted_out, may_be_due, no_slot_taken, with_since, with_start, with_submit};
ghost use Rattle.bh_tickets.specs.Changes.{changed_by};
ghost use Rattle.bh_tickets.specs.NewTicket.{ticket_of};
ghost use Rattle.bh_tickets.specs.Whole.{KeepsTable};
ghost use Rattle.bh_tickets.specs.Counts.{HasRoomFor, IsCounted, counts_of};

use crate::changes::{TicketChange, apply};
use crate::counts::{CommandCounts, one};
use crate::new_ticket::{NewTicket, write};
use crate::order::TicketOrder;
use crate::states::{DueRule, is_due, is_kept, is_queued};
use bh_admit::Permits;
use bh_base::{Serial, Ticket, TicketState};
use bh_cache::{GroupLists, Noted, drop_context, nothing, place_gone, place_new, with_slot};
use bh_serials::SerialTable;
use bh_slot_arena::Arena;

/// What a group keeps of its tickets beside their slots.
#[derive(Clone, Copy, Debug)]
pub struct GroupSlots {
    pub lists: GroupLists,
    /// Of the group's slots each ticket takes one.
    pub slots: Permits,
    /// How many of the slots are not made yet: a slot is made as it is first needed.
    pub unmade: u64,
    /// The next ticket's serial.
    pub next: Serial,
    /// How many of the tickets are queued, of whatever command.
    pub queued: u64,
    /// The slots of the tickets that may be needed no more; others may be among them.
    pub needless: Noted,
    /// In which order the tickets were submitted and started.
    pub order: TicketOrder,
    /// What is counted of the tickets of each command, by its number. It is long and comes last, so that what each step reads
    /// lies together.
    pub commands: [CommandCounts; 16],
}

impl GroupSlots {
    /// So many slots, none of which has a ticket, with those that are not made yet.
    pub fn new(lists: GroupLists, slots: u64, unmade: u64) -> Self
        ensures { result ≡ no_slot_taken lists slots unmade }
    {
        GroupSlots {
            lists,
            slots: Permits::new(slots),
            unmade,
            next: 1,
            queued: 0,
            needless: nothing(),
            order: TicketOrder::new(),
            commands: [CommandCounts::new(); 16],
        }
    }
}

/// The list on which a ticket in the state lies.
fn list_for(lists: &GroupLists, state: &TicketState) -> usize
    ensures { result ≡ list_for lists.now state.now }
{
    match state {
        TicketState::Queued => lists.queued,
        TicketState::Running => lists.running,
        TicketState::NeedsFallback(_) => lists.settled,
        TicketState::InFallback(_) => lists.settled,
        TicketState::Answered(_) => lists.settled,
    }
}

/// The ticket is taken out of the group's counts.
fn count_out(group: &mut GroupSlots, ticket: &Ticket)
    requires command { ticket.now.command < length group.old.commands }
    requires queued { one (is_queued ticket.now) ≤ group.old.queued }
    requires counted { IsCounted ticket.now (counts_of group.old.commands ticket.now.command) }
    ensures { group.new ≡ counted_out ticket.now group.old }
{
    group.queued -= one(is_queued(ticket));
    group.commands[ticket.command as usize].count_out(ticket);
}

/// The ticket is taken into the group's counts.
fn count_in(group: &mut GroupSlots, ticket: &Ticket)
    requires command { ticket.now.command < length group.old.commands }
    requires queued { group.old.queued + one (is_queued ticket.now) < 2 ^ 64 }
    requires room { HasRoomFor ticket.now (counts_of group.old.commands ticket.now.command) }
    ensures { group.new ≡ counted_in ticket.now group.old }
{
    group.queued += one(is_queued(ticket));
    group.commands[ticket.command as usize].count_in(ticket);
}

/// The ticket, which is of the next serial, is noted among the submits.
fn note_submit(group: &mut GroupSlots, ticket: &Ticket)
    ensures { group.new ≡ with_submit ticket.now group.old }
{
    let order = &mut group.order;
    order.in_time = order.in_time && order.latest <= ticket.submitted;
    order.latest = order.latest.max(ticket.submitted);
}

/// A ticket of the serial goes to the end of a list, where it lies on another: where it begins to run, it is noted whether
/// the running tickets lie in turn. They do where it runs alone, or after tickets of smaller serials.
fn note_move(group: &mut GroupSlots, serial: Serial, alone: bool, from: usize, to: usize)
    ensures rest { group.new ≡ record group.old { order = record group.old.order { last_started = group.new.order.last_started; in_turn = group.new.order.in_turn } } }
    ensures stays { from ≡ to → group.new ≡ group.old }
    ensures other { to ≢ group.old.lists.running → group.new ≡ group.old }
    ensures starts { from ≢ to → to ≡ group.old.lists.running → group.new ≡ with_start serial alone group.old }
{
    if from == to || to != group.lists.running {
        return;
    }
    let order = &mut group.order;
    order.in_turn = alone || order.in_turn && order.last_started < serial;
    order.last_started = if alone {
        serial
    } else {
        order.last_started.max(serial)
    };
}

/// Moves a slot to the end of a list, where it lies on another.
fn move_on(arena: &mut Arena<Ticket, 3>, slot: u32, from: usize, to: usize)
    requires slot { slot < length arena.old.payloads }
    requires list { to < length (lists_in arena.old 0) }
    ensures same { from ≡ to → arena.new ≡ arena.old }
    ensures moved { from ≢ to → arena.new ≡ with_moved 0 slot to arena.old }
{
    if from != to {
        arena.move_to_back(0, slot, to);
    }
}

/// The ticket in the slot changes in place, and so does what is counted of it and the list on which it lies. Most changes
/// leave most of that as it is, so each gets code of its own.
#[inline(always)]
pub fn change(
    arena: &mut Arena<Ticket, 3>,
    group: &mut GroupSlots,
    slot: u32,
    change: &TicketChange,
)
    requires arena { IsArena arena.old 0 }
    requires group { IsGroupSlots arena.old group.old }
    requires allowed { CanBe arena.old group.old slot change.now }
    ensures { (t : Ticket) → ticket_at arena.old group.old.lists slot ≡ Some t → IsPut arena.old group.old slot (changed_by change.now t) arena.new group.new }
{
    let was = arena.get(slot);
    count_out(group, was);
    let from = list_for(&group.lists, &was.state);
    apply(change, arena.get_mut(slot));
    let ticket = arena.get(slot);
    count_in(group, ticket);
    let to = list_for(&group.lists, &ticket.state);
    let needed = is_kept(ticket);
    let alone = arena.len_of(0, group.lists.running) == 0;
    note_move(group, ticket.serial, alone, from, to);
    move_on(arena, slot, from, to);
    if !needed {
        group.needless = with_slot(group.needless, slot);
    }
}

/// A new ticket, in the slot of the group that was freed last, which is likely still in the processor's cache.
#[inline(always)]
pub fn add(arena: &mut Arena<Ticket, 3>, group: &mut GroupSlots, new: &NewTicket)
    requires arena { IsArena arena.old 0 }
    requires group { IsGroupSlots arena.old group.old }
    requires ticket { CanAdd group.old new.now }
    ensures { IsAdded arena.old group.old (ticket_of new.now group.old.next) arena.new group.new }
{
    if !group.slots.try_take() {
        return;
    }
    let Some(slot) = arena.back(0, group.lists.free) else {
        return;
    };
    let from = group.lists.free;
    let alone = arena.len_of(0, group.lists.running) == 0;
    arena.partition(1);
    arena.partition(2);
    write(new, group.next, arena.get_mut(slot));
    let ticket = arena.get(slot);
    let to = list_for(&group.lists, &ticket.state);
    count_in(group, ticket);
    note_submit(group, ticket);
    note_move(group, ticket.serial, alone, from, to);
    arena.move_to_back(0, slot, to);
    place_new(arena, &group.lists, slot);
    group.next += 1;
}

/// The ticket in the slot goes, where nobody needs it.
pub fn release_at(
    arena: &mut Arena<Ticket, 3>,
    group: &mut GroupSlots,
    table: &mut SerialTable,
    slot: u32,
)
    requires arena { IsArena arena.old 0 }
    requires group { IsGroupSlots arena.old group.old }
    requires many { group.old.needless ≡ Noted.Many }
    requires there { is_some (ticket_at arena.old group.old.lists slot) ≡ true }
    ensures released { IsReleasedAt arena.old group.old slot arena.new group.new }
    ensures table { KeepsTable arena.old group.old table.old arena.new group.new table.new }
{
    let was = arena.get(slot);
    if is_kept(was) {
        return;
    }
    table.remove(was.serial);
    count_out(group, was);
    group.slots.give();
    arena.partition(1);
    arena.partition(2);
    arena.move_to_back(0, slot, group.lists.free);
    place_gone(arena, &group.lists, slot);
}

/// No ticket of the group is cached in the context any more; answers how many were.
pub fn drop_cached(arena: &mut Arena<Ticket, 3>, group: &mut GroupSlots, context: u64) -> u64
    requires arena { IsArena arena.old 0 }
    requires group { IsGroupSlots arena.old group.old }
    ensures { IsUncached arena.old group.old context result arena.new group.new }
{
    drop_context(arena, &group.lists, context, &mut group.needless)
}

/// Whether a ticket of the rule's command may be due, by what is counted of the command alone. Where it is false, surely
/// none is due.
pub fn may_be_due(group: &GroupSlots, due: &DueRule) -> bool
    requires { length group.now.commands ≡ 16 }
    ensures { result ≡ may_be_due due.now group.now }
{
    if due.command >= 16 || !due.timeout_on {
        return false;
    }
    let since = group.commands[due.command as usize].open_since;
    due.moment.saturating_sub(since) >= due.timeout_ms
}

/// Since then tickets of the command may be queued or running.
pub fn set_open_since(group: &mut GroupSlots, command: u8, since: u64)
    requires { command < length group.old.commands }
    ensures { group.new ≡ with_since command since group.old }
{
    group.commands[command as usize].open_since = since;
}

/// The earlier of a moment and the ticket's submit, where the ticket is of the rule's command.
fn since_with(since: u64, ticket: &Ticket, due: &DueRule) -> u64
    ensures earlier { result ≤ since }
    ensures own { ticket.now.command ≡ due.now.command → result ≤ ticket.now.submitted }
{
    if ticket.command == due.command {
        since.min(ticket.submitted)
    } else {
        since
    }
}

/// The ticket in the slot has timed out, where it is due; answers how many did. One of the rule's command that is not due
/// was not submitted before `since`.
pub fn time_out_at(
    arena: &mut Arena<Ticket, 3>,
    group: &mut GroupSlots,
    slot: u32,
    due: &DueRule,
    since: &mut u64,
) -> u64
    requires arena { IsArena arena.old 0 }
    requires group { IsGroupSlots arena.old group.old }
    requires there { is_some (ticket_at arena.old group.old.lists slot) ≡ true }
    ensures timed { IsTimed arena.old group.old slot due.now result arena.new group.new }
    ensures since { IsSinceAt (ticket_at arena.old group.old.lists slot) due.now since.old since.new }
{
    let ticket = arena.get(slot);
    if !is_due(ticket, due) {
        *since = since_with(*since, ticket, due);
        return 0;
    }
    change(arena, group, slot, &TicketChange::TimeOut);
    1
}
