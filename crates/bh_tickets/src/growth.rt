//! How the arena grows by a group.

ghost use Rattle.std.specs.Prelude.{◌≡◌, ◌+◌, ◌<◌, ◌≤◌, ◌^◌, [], ◌∷◌, length, IfOk, OnErr, OnOk};
ghost use Rattle.bh_base.specs.declared.ticket.Ticket.{Ticket};
ghost use Rattle.bh_slot_arena.specs.Slots.{lists_in, with_reserved};
ghost use Rattle.bh_tickets.specs.Growth.{HasMoreLists, HasNewLists, IsGrown, IsReadyFor, chains_for, lists_from};

use bh_base::{Text, Ticket, TicketState};
use bh_cache::{GroupLists, UNCHAINED};
use bh_slot_arena::Arena;
use std::alloc::{AllocError, Global};

/// An arena without slots.
pub fn new_arena(alloc: Global, limit: u32) -> Arena<Ticket, 3>
    ensures { result ≡ record { limit = limit; reserved = 0; payloads = []; families = [] ∷ [] ∷ [] ∷ [] } }
{
    Arena::new(alloc, limit)
}

/// How many chains a group with so many slots has by cache name, and as many by request context: from 256 slots on a
/// quarter of the slots, or down to a sixteenth, in one of three sizes, so that the chains of retired groups fit others.
pub fn chains_for(slots: u64) -> usize
    ensures is { result ≡ chains_for slots }
    ensures some { 0 < result }
    ensures few { result < 2 ^ 63 }
{
    match slots {
        0..=255 => 16,
        256..=1023 => 64,
        1024..=4095 => 256,
        _ => 1024,
    }
}

/// The lists of a new group, which are empty, with so many chains by cache name and by request context. Refused, the arena
/// may have some empty lists more.
pub fn add_lists(arena: &mut Arena<Ticket, 3>, chains: usize) -> Result<GroupLists, AllocError>
    requires { chains < 2 ^ 63 }
    ensures lists { IfOk result (λ lists. lists ≡ lists_from chains (length (lists_in arena.old 0)) (length (lists_in arena.old 1)) (length (lists_in arena.old 2))) }
    ensures ok { OnOk result (HasNewLists 4 chains chains arena.old arena.new) }
    ensures more { HasMoreLists arena.old arena.new }
{
    arena.partition(0);
    let free = arena.add_lists(0, 4)?;
    let names = arena.add_lists(1, chains)?;
    let contexts = arena.add_lists(2, chains)?;
    Ok(GroupLists {
        free,
        queued: free + 1,
        running: free + 2,
        settled: free + 3,
        names,
        names_end: names + chains,
        contexts,
        contexts_end: contexts + chains,
    })
}

/// The lists of a new group before all others: in either family of chains the first is the one that all groups share for
/// slots without a cached ticket. Refused, the arena may have some empty lists more.
pub fn first_lists(arena: &mut Arena<Ticket, 3>, chains: usize) -> Result<GroupLists, AllocError>
    requires { chains < 2 ^ 63 }
    ensures lists { IfOk result (λ lists. lists ≡ lists_from chains (length (lists_in arena.old 0)) (1 + length (lists_in arena.old 1)) (1 + length (lists_in arena.old 2))) }
    ensures ok { OnOk result (HasNewLists 4 (1 + chains) (1 + chains) arena.old arena.new) }
    ensures more { HasMoreLists arena.old arena.new }
{
    arena.partition(0);
    arena.add_lists(1, 1)?;
    arena.add_lists(2, 1)?;
    add_lists(arena, chains)
}

/// Takes the memory for so many slots more. Refused, nothing has changed.
pub fn reserve_slots(arena: &mut Arena<Ticket, 3>, count: u32) -> Result<(), AllocError>
    requires { length arena.old.payloads + arena.old.reserved + count ≤ arena.old.limit }
    ensures ok { OnOk result (arena.new ≡ with_reserved (arena.old.reserved + count) arena.old) }
    ensures err { OnErr result (arena.new ≡ arena.old) }
{
    arena.reserve_slots(count).map_err(|_| AllocError)
}

/// One of the reserved slots is there, and free for a group.
pub fn add_slot(arena: &mut Arena<Ticket, 3>, lists: &GroupLists)
    requires { IsReadyFor lists.now arena.old }
    ensures { IsGrown lists.now arena.old arena.new }
{
    arena.add_reserved(1, [lists.free, UNCHAINED, UNCHAINED], blank_ticket());
    arena.partition(0);
}

/// What lies in a slot that has no ticket: its serial is 0, which no ticket has.
pub fn blank_ticket() -> Ticket
    ensures { result.serial ≡ 0 }
{
    Ticket {
        serial: 0,
        command: 0,
        arg: Text::new("").unwrap(),
        cache: None,
        submitted: 0,
        state: TicketState::Queued,
        busy: false,
        holders: 0,
        cached: false,
        test: false,
    }
}
