//! Looking a cached ticket up.

ghost use Rattle.std.specs.Prelude.{◌≡◌, ℕ, ◌<◌, IfSome, None, false, length};
ghost use Rattle.bh_base.specs.Tickets.{is_cached_as};
ghost use Rattle.bh_slot_arena.specs.Slots.{lists_in, slots_on};
ghost use Rattle.bh_cache.specs.Cache.{IsEarliest, earlier, earliest};
ghost use Rattle.bh_cache.specs.Slots.{has_one, ticket_at};
ghost use Rattle.bh_cache.specs.Chains.{IsChained};

use crate::chains::name_chain;
use crate::lists::GroupLists;
use bh_base::{Text, Ticket};
use bh_slot_arena::Arena;

/// The slot of the ticket of the group's command that is cached under the request context and the key, the one of the
/// least serial where there are several; None only where there is none.
pub fn find(
    arena: &Arena<Ticket, 3>,
    lists: &GroupLists,
    command: u8,
    context: u64,
    key: &Text<32>,
) -> Option<u32>
    requires { IsChained arena.now lists.now }
    ensures found { IfSome result (λ slot. IsEarliest (is_cached_as command (context, key.now)) arena.now lists.now slot) }
    ensures none { result ≡ None → (slot : ℕ) → has_one (is_cached_as command (context, key.now)) (ticket_at arena.now lists.now slot) ≡ false }
{
    arena.partition(1);
    let chain = name_chain(lists, context, key);
    find_on(arena, chain, command, context, key)
}

/// The slot of the least serial among those of the chain that are cached of the command under the context and the key.
fn find_on(
    arena: &Arena<Ticket, 3>,
    chain: usize,
    command: u8,
    context: u64,
    key: &Text<32>,
) -> Option<u32>
    requires { chain < length (lists_in arena.now 1) }
    ensures { result ≡ earliest (is_cached_as command (context, key.now)) arena.now.payloads None (slots_on arena.now 1 chain) }
{
    arena.partition(1);
    let mut found = None;
    let mut ahead = arena.front(1, chain);
    for _ in 0..arena.len_of(1, chain) {
        let Some(slot) = ahead else {
            return found;
        };
        if has_name(arena.get(slot), command, context, key) {
            found = Some(earlier(arena, found, slot));
        }
        ahead = arena.next(1, slot);
    }
    found
}

/// Of two slots that whose ticket has the lesser serial.
fn earlier(arena: &Arena<Ticket, 3>, found: Option<u32>, slot: u32) -> u32
    requires slot { slot < length arena.now.payloads }
    requires found { IfSome found (λ other. other < length arena.now.payloads) }
    ensures earlier { result ≡ earlier arena.now.payloads found slot }
    ensures within { result < length arena.now.payloads }
{
    let Some(other) = found else {
        return slot;
    };
    if arena.get(slot).serial < arena.get(other).serial {
        slot
    } else {
        other
    }
}

/// Whether the ticket is of the command, and cached under the context and the key. The name tells most tickets of a chain
/// apart, so it comes first: its parts lie beside one another.
fn has_name(ticket: &Ticket, command: u8, context: u64, key: &Text<32>) -> bool
    ensures { result ≡ is_cached_as command (context, key.now) ticket.now }
{
    let Some((of_context, of_key)) = &ticket.cache else {
        return false;
    };
    if *of_context != context || of_key.as_str() != key.as_str() {
        return false;
    }
    ticket.command == command && ticket.cached
}
