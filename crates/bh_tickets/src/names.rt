//! Chains by cache name and by request context that no group has at present.

ghost use Rattle.std.specs.Prelude.{◌≡◌, ◌≤◌, ◌+◌, ◌<◌, ◌^◌, length, IfOk, IfSome, OnErr, Some, slice_get, true};
ghost use Rattle.bh_tickets.specs.Growth.{HasMoreLists};
ghost use Rattle.bh_tickets.specs.Names.{AreMany, HasNames, IsExchanged, names_of, with_names};
ghost use Rattle.bh_tickets.specs.Spare.{GetsNames};

use crate::group_slots::GroupSlots;
use bh_base::Ticket;
use bh_cache::GroupLists;
use bh_slot_arena::Arena;
use std::alloc::AllocError;

/// The chains of a group: by cache name the lists of the second family from `names` up to `names_end`, which is none of
/// them, and by request context those of the third from `contexts` up to `contexts_end`.
#[derive(Clone, Copy, Debug)]
pub struct NameLists {
    pub names: usize,
    pub names_end: usize,
    pub contexts: usize,
    pub contexts_end: usize,
}

/// The number of chains that no group has and that are so many in each family. They are made where there are none.
/// Refused, the arena may have some empty lists more.
pub fn ready_names(
    arena: &mut Arena<Ticket, 3>,
    left: &mut Vec<NameLists>,
    chains: usize,
) -> Result<usize, AllocError>
    requires some { 0 < chains }
    requires few { chains < 2 ^ 63 }
    ensures ok { IfOk result (λ number. GetsNames chains number arena.old left.old.items arena.new left.new.items) }
    ensures err { OnErr result (HasMoreLists arena.old arena.new × (left.new.items ≡ left.old.items)) }
{
    if let Some(number) = number_of(left, chains) {
        return Ok(number);
    }
    left.reserve(1)?;
    arena.partition(0);
    let names = arena.add_lists(1, chains)?;
    let contexts = arena.add_lists(2, chains)?;
    let number = left.len();
    left.push_reserved(NameLists {
        names,
        names_end: names + chains,
        contexts,
        contexts_end: contexts + chains,
    });
    Ok(number)
}

/// The number of some that are so many.
fn number_of(left: &[NameLists], chains: usize) -> Option<usize>
    requires { 0 < chains }
    ensures { IfSome result (λ number. HasNames chains number left.now) }
{
    for (number, lists) in left.iter().enumerate() {
        if are_many(lists, chains) {
            return Some(number);
        }
    }
    None
}

/// Whether there are so many chains in each family.
pub fn are_many(lists: &NameLists, chains: usize) -> bool
    requires { 0 < chains }
    ensures { result ≡ true → AreMany chains lists.now }
{
    lists.names_end.saturating_sub(lists.names) == chains
        && lists.contexts_end.saturating_sub(lists.contexts) == chains
}

/// The group at the place, which has no slot, gets the chains of the number, and its own are left to others.
pub fn exchange(
    groups: &mut Vec<GroupSlots>,
    left: &mut Vec<NameLists>,
    place: usize,
    number: usize,
)
    requires place { place < length groups.old.items }
    requires number { number < length left.old.items }
    ensures { IsExchanged place number groups.old.items left.old.items groups.new.items left.new.items }
{
    let was = groups[place].lists;
    let names = left[number];
    left[number] = names_of(&was);
    groups[place] = GroupSlots::new(with_names(&was, &names), 0, 0);
}

/// The chains of a group.
pub fn names_of(lists: &GroupLists) -> NameLists
    ensures { result ≡ names_of lists.now }
{
    NameLists {
        names: lists.names,
        names_end: lists.names_end,
        contexts: lists.contexts,
        contexts_end: lists.contexts_end,
    }
}

/// The lists of a group, with these chains in the place of its own.
fn with_names(lists: &GroupLists, names: &NameLists) -> GroupLists
    ensures { result ≡ with_names names.now lists.now }
{
    let mut now = *lists;
    now.names = names.names;
    now.names_end = names.names_end;
    now.contexts = names.contexts;
    now.contexts_end = names.contexts_end;
    now
}
