//! The end of a request context, along the chain on which its tickets lie.

ghost use Rattle.std.specs.Prelude.{◌≡◌, ◌≢◌, ℕ, ◌<◌, ◌≤◌, [], ◌∷◌, true, length, slice_get};
ghost use Rattle.bh_base.specs.Tickets.{is_cached_in};
ghost use Rattle.bh_slot_arena.specs.Slots.{slots_on};
ghost use Rattle.bh_cache.specs.Slots.{HasLists, has, has_one, is_live};
ghost use Rattle.bh_cache.specs.Cache.{IsDropped, IsDroppedFrom};
ghost use Rattle.bh_cache.specs.Chains.{IsChained, unchained};
ghost use Rattle.bh_cache.specs.Drops.{without_if};
ghost use Rattle.bh_cache.specs.Notes.{AreNoted};

use crate::chains::{context_chain, place};
use crate::lists::GroupLists;
use crate::notes::{Noted, with_slot};
use bh_base::Ticket;
use bh_slot_arena::Arena;

/// Ends a request context: none of the group's tickets is cached in it any more, and the rest of each ticket stays as
/// it was, as do each other slot and the lists of the first family. Each slot lies where `place` puts it. The number
/// of those that were cached, whose slots are noted. It looks at the chain of the context alone, on which each ticket lies
/// that is cached in it.
pub fn drop_context(
    arena: &mut Arena<Ticket, 3>,
    lists: &GroupLists,
    context: u64,
    notes: &mut Noted,
) -> u64
    requires lists { HasLists arena.old lists.now }
    requires chained { IsChained arena.old lists.now }
    ensures dropped { IsDropped context lists.now arena.old arena.new result }
    ensures noted { AreNoted context (is_live arena.old lists.now) arena.old notes.old notes.new }
{
    arena.partition(2);
    let chain = context_chain(lists, context);
    drop_chain(arena, lists, chain, context, notes)
}

/// The tickets of one of the group's chains by context are cached in the context no more. The number of those that were,
/// whose slots are noted.
fn drop_chain(
    arena: &mut Arena<Ticket, 3>,
    lists: &GroupLists,
    chain: usize,
    context: u64,
    notes: &mut Noted,
) -> u64
    requires from { lists.now.contexts ≤ chain }
    requires to { chain < lists.now.contexts_end }
    requires chained { IsChained arena.old lists.now }
    ensures dropped { IsDroppedFrom context lists.now (slots_on arena.old 2 chain) arena.old arena.new result }
    ensures noted { AreNoted context (λ x. has x (slots_on arena.old 2 chain)) arena.old notes.old notes.new }
{
    let mut number = 0;
    let mut ahead = arena.front(2, chain);
    for _ in 0..arena.len_of(2, chain) {
        let Some(slot) = ahead else {
            return number;
        };
        arena.partition(2);
        // Before the slot leaves the chain.
        ahead = arena.next(2, slot);
        number += drop_at(arena, lists, slot, context, notes);
    }
    number
}

/// The ticket of a slot is cached in the context no more. 1 where it was, and the slot is noted, else 0.
fn drop_at(
    arena: &mut Arena<Ticket, 3>,
    lists: &GroupLists,
    slot: u32,
    context: u64,
    notes: &mut Noted,
) -> u64
    requires slot { slot < length arena.old.payloads }
    requires live { is_live arena.old lists.now slot ≡ true }
    requires chained { IsChained arena.old lists.now }
    ensures dropped { IsDroppedFrom context lists.now (slot ∷ []) arena.old arena.new result }
    ensures noted { AreNoted context (λ x. has x (slot ∷ [])) arena.old notes.old notes.new }

    // Each chain by context has lost the slot where its ticket was cached in the context, and is as it was else.
    ensures walk { (l : ℕ) → l ≢ unchained → slots_on arena.new 2 l ≡ without_if (has_one (is_cached_in context) (slice_get arena.old.payloads slot)) slot (slots_on arena.old 2 l) }
{
    if !has_context(arena.get(slot), context) {
        return 0;
    }
    arena.partition(1);
    arena.partition(2);
    arena.get_mut(slot).cached = false;
    place(arena, lists, slot);
    *notes = with_slot(*notes, slot);
    1
}

/// Whether the ticket is cached in the context, under any key.
fn has_context(ticket: &Ticket, context: u64) -> bool
    ensures { result ≡ is_cached_in context ticket.now }
{
    let Some((of_context, _)) = &ticket.cache else {
        return false;
    };
    *of_context == context && ticket.cached
}
