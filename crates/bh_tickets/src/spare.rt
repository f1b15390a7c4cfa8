//! The slots of retired groups, and how groups take them.

ghost use Rattle.std.specs.Prelude.{◌≡◌, ◌≢◌, ◌+◌, ◌<◌, ◌≤◌, ◌^◌, List, length, true, IfOk, IfSome, OnErr, Some};
ghost use Rattle.bh_base.specs.declared.ticket.Ticket.{Ticket};
ghost use Rattle.bh_slot_arena.specs.Slots.{lists_in, with_payload};
ghost use Rattle.bh_cache.specs.Slots.{IsApart};
ghost use Rattle.bh_tickets.specs.declared.names.NameLists.{NameLists};
ghost use Rattle.bh_tickets.specs.GroupSlots.{IsGroupSlots, no_slot_taken};
ghost use Rattle.bh_tickets.specs.Growth.{chains_for};
ghost use Rattle.bh_tickets.specs.Spare.{AreSpare, GetsPlace, HasRoomBeside, HasSlotFree, IsAmong, IsGathered, IsGiven, IsLeft, IsTaken, IsVacant, KeepsGroups, StaysWhole, free_slots};

use crate::group_slots::GroupSlots;
use crate::growth::{add_lists, add_slot, blank_ticket, chains_for, first_lists, reserve_slots};
use crate::names::{NameLists, are_many, exchange, names_of, ready_names};
use bh_base::Ticket;
use bh_cache::{GroupLists, UNCHAINED};
use bh_slot_arena::Arena;
use std::alloc::AllocError;

/// The chains of each family among the lists of spare slots, on which no ticket ever lies.
const SPARE_CHAINS: usize = 16;

/// What a group keeps that has no ticket, with so many slots that are not made yet.
pub fn vacant(arena: &Arena<Ticket, 3>, lists: &GroupLists, unmade: u64) -> GroupSlots
    requires there { lists.now.free < length (lists_in arena.now 0) }
    requires few { free_slots arena.now lists.now + unmade < 2 ^ 64 }
    ensures { result ≡ no_slot_taken lists.now (free_slots arena.now lists.now + unmade) unmade }
{
    let made = arena.len_of(0, lists.free) as u64;
    GroupSlots::new(*lists, made + unmade, unmade)
}

/// How many spare slots are not made yet.
pub fn unmade_of(spare: &Option<GroupSlots>) -> u64
    ensures { (part : GroupSlots) → spare.now ≡ Some part → result ≡ part.unmade }
{
    match spare {
        Some(part) => part.unmade,
        None => 0,
    }
}

/// The lists of spare slots, of which there are so many then at least: for what is missing the memory is taken. Refused, the
/// arena may have some empty lists more.
pub fn ready_spare(
    arena: &mut Arena<Ticket, 3>,
    spare: &mut Option<GroupSlots>,
    slots: u64,
) -> Result<GroupLists, AllocError>
    requires few { slots ≤ 4096 }
    requires room { HasRoomBeside slots arena.old spare.old }
    ensures keeps { KeepsGroups arena.old spare.old arena.new spare.new }
    ensures ok { IfOk result (λ lists. AreSpare slots lists spare.new) }
{
    let lists = spare_lists(arena, spare)?;
    let unmade = unmade_of(spare);
    let there = arena.len_of(0, lists.free) as u64 + unmade;
    if there < slots {
        let missing = slots - there;
        reserve_slots(arena, missing as u32)?;
        *spare = Some(vacant(arena, &lists, unmade + missing));
    }
    Ok(lists)
}

/// The lists of spare slots, which are made where there are none. Refused, the arena may have some empty lists more.
fn spare_lists(
    arena: &mut Arena<Ticket, 3>,
    spare: &mut Option<GroupSlots>,
) -> Result<GroupLists, AllocError>
    ensures keeps { KeepsGroups arena.old spare.old arena.new spare.new }
    ensures ok { IfOk result (λ lists. AreSpare 0 lists spare.new) }
{
    if let Some(part) = *spare {
        return Ok(part.lists);
    }
    let lists = first_lists(arena, SPARE_CHAINS)?;
    *spare = Some(GroupSlots::new(lists, 0, 0));
    Ok(lists)
}

/// A place for a group, with lists for so many slots and no slot: the first from the place `from` on that a retired group
/// left, else a new one behind the others. Refused, the arena may have some empty lists more.
pub fn take_place(
    arena: &mut Arena<Ticket, 3>,
    groups: &mut Vec<GroupSlots>,
    names: &mut Vec<NameLists>,
    from: usize,
    slots: u64,
) -> Result<usize, AllocError>
    ensures ok { IfOk result (λ place. GetsPlace (chains_for slots) place arena.old groups.old.items names.old.items arena.new groups.new.items names.new.items) }
    ensures err { OnErr result (StaysWhole arena.old groups.old.items names.old.items arena.new groups.new.items names.new.items) }
{
    let chains = chains_for(slots);
    match left_place(groups, from) {
        Some(place) => fit_place(arena, groups, names, place, chains),
        None => new_place(arena, groups, chains),
    }
}

/// The place that a retired group left, with so many chains of each family: where its own are not, they are left to others,
/// so that no group pays at its end for the many chains of one before it. Refused, the arena may have some empty lists
/// more.
fn fit_place(
    arena: &mut Arena<Ticket, 3>,
    groups: &mut Vec<GroupSlots>,
    names: &mut Vec<NameLists>,
    place: usize,
    chains: usize,
) -> Result<usize, AllocError>
    requires left { IsLeft place groups.old.items }
    requires some { 0 < chains }
    requires few { chains < 2 ^ 63 }
    ensures ok { IfOk result (λ place. GetsPlace chains place arena.old groups.old.items names.old.items arena.new groups.new.items names.new.items) }
    ensures err { OnErr result (StaysWhole arena.old groups.old.items names.old.items arena.new groups.new.items names.new.items) }
{
    let lists = groups[place].lists;
    if are_many(&names_of(&lists), chains) {
        return Ok(place);
    }
    let number = ready_names(arena, names, chains)?;
    exchange(groups, names, place, number);
    Ok(place)
}

/// A new place behind the others, with so many chains of each family. Refused, the arena may have some empty lists more.
fn new_place(
    arena: &mut Arena<Ticket, 3>,
    groups: &mut Vec<GroupSlots>,
    chains: usize,
) -> Result<usize, AllocError>
    requires some { 0 < chains }
    requires few { chains < 2 ^ 63 }
    ensures ok { IfOk result (λ place. (ns : List NameLists) → GetsPlace chains place arena.old groups.old.items ns arena.new groups.new.items ns) }
    ensures err { OnErr result ((ns : List NameLists) → StaysWhole arena.old groups.old.items ns arena.new groups.new.items ns) }
{
    groups.reserve(1)?;
    let lists = add_lists(arena, chains)?;
    let place = groups.len();
    groups.push_reserved(GroupSlots::new(lists, 0, 0));
    Ok(place)
}

/// The first place from the place `from` on whose group has no slot.
fn left_place(groups: &[GroupSlots], from: usize) -> Option<usize>
    ensures { IfSome result (λ place. IsLeft place groups.now) }
{
    for place in from..groups.len() {
        if has_no_slots(&groups[place]) {
            return Some(place);
        }
    }
    None
}

/// Whether the group has no slot.
fn has_no_slots(group: &GroupSlots) -> bool
    ensures { result ≡ true → group.now.slots.max ≡ 0 }
{
    let mut slots = group.slots;
    slots.taken() == 0 && !slots.try_take()
}

/// So many slots go from one group to another, neither of which has a ticket.
pub fn take_slots(arena: &mut Arena<Ticket, 3>, from: &GroupLists, to: &GroupLists, count: u64)
    requires giver { IsVacant arena.old from.now }
    requires taker { IsVacant arena.old to.now }
    requires apart { IsApart from.now to.now }
    requires enough { count ≤ free_slots arena.old from.now }
    ensures { IsTaken count from.now to.now arena.old arena.new }
{
    for _ in 0..count {
        take_slot(arena, from, to);
    }
}

/// A slot goes from one group to another, neither of which has a ticket. Nothing of the tickets that it had is left. Among
/// the chains it stays where it is: on the lists that all groups share.
fn take_slot(arena: &mut Arena<Ticket, 3>, from: &GroupLists, to: &GroupLists)
    requires giver { IsVacant arena.old from.now }
    requires taker { IsVacant arena.old to.now }
    requires apart { IsApart from.now to.now }
    requires enough { 0 < free_slots arena.old from.now }
    ensures { IsTaken 1 from.now to.now arena.old arena.new }
{
    let Some(slot) = arena.front(0, from.free) else {
        return;
    };
    arena.partition(0);
    arena.partition(1);
    arena.partition(2);
    blank(arena, slot);
    arena.move_to_back(0, slot, to.free);
}

/// A free slot for the group's next ticket, where it has room for one: one of those that are not made yet, where all others
/// have tickets. It takes no memory.
#[inline(always)]
pub fn ready_slot(arena: &mut Arena<Ticket, 3>, group: &mut GroupSlots)
    requires { IsAmong arena.old group.old }
    ensures { HasSlotFree arena.old group.old arena.new group.new }
{
    if group.unmade == 0 || group.unmade < group.slots.free() {
        return;
    }
    group.unmade -= 1;
    add_slot(arena, &group.lists);
}

/// Nothing is left of the tickets that the slot had. One that had none since it was blank is not written again: it has the
/// serial 0, which no ticket has.
fn blank(arena: &mut Arena<Ticket, 3>, slot: u32)
    requires { slot < length arena.old.payloads }
    ensures { (t : Ticket) × (arena.new ≡ with_payload slot t arena.old) × (t.serial ≡ 0) }
{
    if arena.get(slot).serial != 0 {
        arena.set(slot, blank_ticket());
    }
}

/// All slots of a group that are made go to one without tickets, and have none then. It takes no memory.
pub fn give_slots(arena: &mut Arena<Ticket, 3>, group: &GroupSlots, to: &GroupLists)
    requires giver { IsGroupSlots arena.old group.now }
    requires taker { IsVacant arena.old to.now }
    requires apart { IsApart group.now.lists to.now }
    ensures { IsGiven group.now to.now arena.old arena.new }
{
    let from = group.lists;
    is_number(from.settled);
    is_number(from.names_end);
    is_number(from.contexts_end);
    let by_name = from.names_end - from.names;
    let by_context = from.contexts_end - from.contexts;
    arena.partition(0);
    gather(arena, 0, from.free, 4, to.free);
    gather(arena, 1, from.names, by_name, UNCHAINED);
    gather(arena, 2, from.contexts, by_context, UNCHAINED);
    arena.partition(0);
}

/// The law of numbers: each is below 2^64. The call does nothing; its contract is the law.
fn is_number(number: usize)
    ensures { number < 2 ^ 64 }
{
    let _ = number;
}

/// What is on so many lists, from the first on, goes to the end of another.
fn gather(arena: &mut Arena<Ticket, 3>, family: usize, first: usize, count: usize, to: usize)
    requires family { family < 3 }
    requires there { first + count ≤ length (lists_in arena.old family) }
    requires few { first + count ≤ 2 ^ 64 }
    requires to { to < length (lists_in arena.old family) }
    requires apart { first ≤ to → to < first + count → ⊥ }
    ensures { IsGathered family first count to arena.old arena.new }
{
    arena.partition(family);
    for offset in 0..count {
        arena.append(family, first + offset, to);
    }
}
