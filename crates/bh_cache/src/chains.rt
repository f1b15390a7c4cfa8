//! The chains on which a group's cached tickets are found, by their names and by their request contexts.

ghost use Rattle.std.specs.Prelude.{◌≡◌, ◌<◌, Some, None, length, slice_get};
ghost use Rattle.bh_cache.specs.Chains.{HasChains, context_chain, is_named, list_by_context, list_by_name, name_chain, with_placed, with_placed_where};

use crate::lists::{GroupLists, UNCHAINED};
use crate::places::{place_among, place_of_context};
use bh_base::{Text, Ticket};
use bh_slot_arena::Arena;

/// Moves the slot of a ticket to the ends of the chains of its cache name and of its request context, or, where it is not
/// cached, of the list of slots without a cached ticket, and changes nothing else.
pub fn place(arena: &mut Arena<Ticket, 3>, lists: &GroupLists, slot: u32)
    requires lists { HasChains arena.old lists.now }
    requires slot { slot < length arena.old.payloads }
    ensures { arena.new ≡ with_placed lists.now slot (slice_get arena.old.payloads slot) arena.old }
{
    let ticket = arena.get(slot);
    let names = list_by_name(lists, ticket);
    let contexts = list_by_context(lists, ticket);
    arena.move_to_back(1, slot, names);
    arena.move_to_back(2, slot, contexts);
}

/// Moves a slot that has no ticket any more to the end of the list of slots without a cached ticket in both families, and
/// changes nothing else.
pub fn place_free(arena: &mut Arena<Ticket, 3>, lists: &GroupLists, slot: u32)
    requires lists { HasChains arena.old lists.now }
    requires slot { slot < length arena.old.payloads }
    ensures { arena.new ≡ with_placed lists.now slot None arena.old }
{
    // The contract alone names the group.
    let _ = lists;
    arena.move_to_back(1, slot, UNCHAINED);
    arena.move_to_back(2, slot, UNCHAINED);
}

/// Moves the slot of a ticket that had none before as `place` does. One that is not cached stays where it is: on the list
/// of slots without a cached ticket it lies already.
pub fn place_new(arena: &mut Arena<Ticket, 3>, lists: &GroupLists, slot: u32)
    requires lists { HasChains arena.old lists.now }
    requires slot { slot < length arena.old.payloads }
    ensures { arena.new ≡ with_placed_where (is_named (slice_get arena.old.payloads slot)) lists.now slot (slice_get arena.old.payloads slot) arena.old }
{
    if is_named(arena.get(slot)) {
        place(arena, lists, slot);
    }
}

/// Moves the slot whose ticket has just gone as `place_free` does. One that was not cached stays where it is: on the list
/// of slots without a cached ticket it lies already.
pub fn place_gone(arena: &mut Arena<Ticket, 3>, lists: &GroupLists, slot: u32)
    requires lists { HasChains arena.old lists.now }
    requires slot { slot < length arena.old.payloads }
    ensures { arena.new ≡ with_placed_where (is_named (slice_get arena.old.payloads slot)) lists.now slot None arena.old }
{
    if is_named(arena.get(slot)) {
        place_free(arena, lists, slot);
    }
}

/// Whether the ticket lies on chains by name and by context.
fn is_named(ticket: &Ticket) -> bool
    ensures { result ≡ is_named (Some ticket.now) }
{
    ticket.cached && ticket.cache.is_some()
}

/// The chain of a cache name.
pub(crate) fn name_chain(lists: &GroupLists, context: u64, key: &Text<32>) -> usize
    requires { lists.now.names < lists.now.names_end }
    ensures { result ≡ name_chain lists.now (context, key.now) }
{
    let lists = *lists;
    lists.names + place_among(lists.names_end - lists.names, context, key)
}

/// The chain of a request context.
pub(crate) fn context_chain(lists: &GroupLists, context: u64) -> usize
    requires { lists.now.contexts < lists.now.contexts_end }
    ensures { result ≡ context_chain lists.now context }
{
    let lists = *lists;
    lists.contexts + place_of_context(lists.contexts_end - lists.contexts, context)
}

/// The list of the second family for a ticket.
fn list_by_name(lists: &GroupLists, ticket: &Ticket) -> usize
    requires { lists.now.names < lists.now.names_end }
    ensures { result ≡ list_by_name lists.now (Some ticket.now) }
{
    match &ticket.cache {
        Some((context, key)) if ticket.cached => name_chain(lists, *context, key),
        _ => UNCHAINED,
    }
}

/// The list of the third family for a ticket.
fn list_by_context(lists: &GroupLists, ticket: &Ticket) -> usize
    requires { lists.now.contexts < lists.now.contexts_end }
    ensures { result ≡ list_by_context lists.now (Some ticket.now) }
{
    match &ticket.cache {
        Some((context, _)) if ticket.cached => context_chain(lists, *context),
        _ => UNCHAINED,
    }
}
