//! Walks along all of a group's tickets, which may move the ticket at hand to another list.

ghost use Rattle.std.specs.Prelude.{◌≡◌, ◌≢◌, ◌<◌, ℕ, [], ◌∷◌, false, true};
ghost use Rattle.bh_slot_arena.specs.Slots.{slots_on};
ghost use Rattle.bh_cache.specs.Slots.{IsArena, is_live_list};
ghost use Rattle.bh_cache.specs.Notes.{is_noted};
ghost use Rattle.bh_tickets.specs.GroupSlots.{IsGroupSlots, IsReleased, IsRising};
ghost use Rattle.bh_tickets.specs.Whole.{KeepsTable};
ghost use Rattle.bh_tickets.specs.Sweeps.{IsReleasedFrom, IsSinceFrom, IsTimedFrom, IsTimedOut};

use crate::group_slots::{GroupSlots, may_be_due, release_at, set_open_since, time_out_at};
use crate::states::{DueRule, is_young};
use bh_base::Ticket;
use bh_cache::{FewSlots, GroupLists, Noted, nothing};
use bh_serials::SerialTable;
use bh_slot_arena::Arena;

/// Each of the group's tickets that is due has timed out. How many did. It takes no walk where what is counted of the
/// command shows that none is due.
pub fn time_out(arena: &mut Arena<Ticket, 3>, group: &mut GroupSlots, due: &DueRule) -> u64
    requires arena { IsArena arena.old 0 }
    requires group { IsGroupSlots arena.old group.old }
    ensures { IsTimedOut arena.old group.old due.now result arena.new group.new }
{
    if !may_be_due(group, due) {
        return 0;
    }
    time_out_open(arena, group, due)
}

/// Each of the group's tickets that is due has timed out, by a walk along those that are queued or running. How many did.
/// The walk finds anew since when tickets of the command are queued or running.
fn time_out_open(arena: &mut Arena<Ticket, 3>, group: &mut GroupSlots, due: &DueRule) -> u64
    requires arena { IsArena arena.old 0 }
    requires group { IsGroupSlots arena.old group.old }
    requires known { due.now.command < 16 }
    ensures { IsTimedOut arena.old group.old due.now result arena.new group.new }
{
    arena.partition(0);
    let lists = group.lists;
    let mut since = u64::MAX;
    let rising = group.order.in_time;
    let queued = time_out_on(arena, group, lists.queued, rising, due, &mut since);
    let rising = group.order.running_rises();
    let running = time_out_on(arena, group, lists.running, rising, due, &mut since);
    set_open_since(group, due.command, since);
    queued + running
}

/// Each of the group's tickets that nobody needs goes. It takes no walk where few were noted.
pub fn release(arena: &mut Arena<Ticket, 3>, group: &mut GroupSlots, table: &mut SerialTable)
    requires arena { IsArena arena.old 0 }
    requires group { IsGroupSlots arena.old group.old }
    ensures released { IsReleased arena.old group.old arena.new group.new }
    ensures table { KeepsTable arena.old group.old table.old arena.new group.new table.new }
{
    if is_nothing(&group.needless) {
        return;
    }
    match group.needless {
        Noted::Few(few) => release_few(arena, group, table, &few),
        Noted::Many => release_all(arena, group, table),
    }
}

/// Whether no slot is noted, as after most steps.
fn is_nothing(notes: &Noted) -> bool
    ensures { result ≡ true → (slot : ℕ) → is_noted notes.now slot ≡ false }
{
    match notes {
        Noted::Few(few) => few.count == 0,
        Noted::Many => false,
    }
}

/// The tickets go that were noted, where nobody needs them.
fn release_few(
    arena: &mut Arena<Ticket, 3>,
    group: &mut GroupSlots,
    table: &mut SerialTable,
    few: &FewSlots,
)
    requires arena { IsArena arena.old 0 }
    requires group { IsGroupSlots arena.old group.old }
    requires noted { group.old.needless ≡ Noted.Few few.now }
    ensures released { IsReleased arena.old group.old arena.new group.new }
    ensures table { KeepsTable arena.old group.old table.old arena.new group.new table.new }
{
    group.needless = Noted::Many;
    for index in 0..few.count {
        if let Some(slot) = few.slots.get(index) {
            release_noted(arena, group, table, *slot);
        }
    }
    group.needless = nothing();
}

/// The ticket in the slot goes, where there is one of the group and nobody needs it. The slot may be any number.
fn release_noted(
    arena: &mut Arena<Ticket, 3>,
    group: &mut GroupSlots,
    table: &mut SerialTable,
    slot: u32,
)
    requires arena { IsArena arena.old 0 }
    requires group { IsGroupSlots arena.old group.old }
    requires many { group.old.needless ≡ Noted.Many }
    ensures released { IsReleasedFrom (slot ∷ []) arena.old group.old arena.new group.new }
    ensures table { KeepsTable arena.old group.old table.old arena.new group.new table.new }
{
    if slot >= arena.slot_count() {
        return;
    }
    let list = arena.list_holding(0, slot);
    if is_live_list(&group.lists, list) {
        release_at(arena, group, table, slot);
    }
}

/// Whether the list has tickets of the group.
fn is_live_list(lists: &GroupLists, list: usize) -> bool
    ensures { result ≡ is_live_list lists.now list }
{
    lists.queued == list || lists.running == list || lists.settled == list
}

/// Each of the group's tickets that nobody needs goes, by a walk along all its lists.
fn release_all(arena: &mut Arena<Ticket, 3>, group: &mut GroupSlots, table: &mut SerialTable)
    requires arena { IsArena arena.old 0 }
    requires group { IsGroupSlots arena.old group.old }
    requires many { group.old.needless ≡ Noted.Many }
    ensures released { IsReleased arena.old group.old arena.new group.new }
    ensures table { KeepsTable arena.old group.old table.old arena.new group.new table.new }
{
    let lists = group.lists;
    release_on(arena, group, table, lists.queued);
    release_on(arena, group, table, lists.running);
    release_on(arena, group, table, lists.settled);
    group.needless = nothing();
}

/// The tickets of a list have timed out, where they are due. How many did. Those of the rule's command that are not due
/// were not submitted before `since`. Where the tickets lie in the order of their submits, the walk ends at the first that
/// was submitted too late, of whatever command.
fn time_out_on(
    arena: &mut Arena<Ticket, 3>,
    group: &mut GroupSlots,
    list: usize,
    rising: bool,
    due: &DueRule,
    since: &mut u64,
) -> u64
    requires arena { IsArena arena.old 0 }
    requires group { IsGroupSlots arena.old group.old }
    requires live { is_live_list group.old.lists list ≡ true }
    requires open { list ≢ group.old.lists.settled }
    requires rising { rising ≡ true → IsRising arena.old.payloads (slots_on arena.old 0 list) }
    ensures timed { IsTimedFrom (slots_on arena.old 0 list) arena.old group.old due.now result arena.new group.new }
    ensures since { IsSinceFrom (slots_on arena.old 0 list) arena.old group.old due.now since.old since.new }
{
    arena.partition(0);
    let mut number = 0;
    let mut ahead = arena.front(0, list);
    for _ in 0..arena.len_of(0, list) {
        let Some(slot) = ahead else {
            return number;
        };
        let ticket = arena.get(slot);
        if rising && is_young(ticket, due) {
            *since = (*since).min(ticket.submitted);
            return number;
        }
        // Before the slot moves.
        ahead = arena.next(0, slot);
        number += time_out_at(arena, group, slot, due, since);
    }
    number
}

/// The tickets of a list go, where nobody needs them.
fn release_on(
    arena: &mut Arena<Ticket, 3>,
    group: &mut GroupSlots,
    table: &mut SerialTable,
    list: usize,
)
    requires arena { IsArena arena.old 0 }
    requires group { IsGroupSlots arena.old group.old }
    requires many { group.old.needless ≡ Noted.Many }
    requires live { is_live_list group.old.lists list ≡ true }
    ensures released { IsReleasedFrom (slots_on arena.old 0 list) arena.old group.old arena.new group.new }
    ensures table { KeepsTable arena.old group.old table.old arena.new group.new table.new }
{
    let mut ahead = arena.front(0, list);
    for _ in 0..arena.len_of(0, list) {
        let Some(slot) = ahead else {
            return;
        };
        // Before the slot moves.
        ahead = arena.next(0, slot);
        release_at(arena, group, table, slot);
    }
}
