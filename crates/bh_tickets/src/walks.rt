//! Walks along one list of slots, for a ticket that passes a test.

ghost use Rattle.std.specs.Fn.{FnReturnsAt};
ghost use Rattle.std.specs.Prelude.{◌≡◌, ◌<◌, Bool, length, true};
ghost use Rattle.bh_base.specs.declared.ticket.Ticket.{Ticket};
ghost use Rattle.bh_slot_arena.specs.Slots.{lists_in, slots_on};
ghost use Rattle.bh_tickets.specs.Changes.{is_due_by};
ghost use Rattle.bh_tickets.specs.GroupSlots.{IsRising, any_at};
ghost use Rattle.bh_tickets.specs.TicketsView.{is_used};

use crate::states::{DueRule, is_due, is_used, is_young};
use bh_base::Ticket;
use bh_slot_arena::Arena;

/// Whether a ticket of the list passes the test.
fn any_on<F: Fn(&Ticket) -> bool>(arena: &Arena<Ticket, 3>, list: usize, test: F) -> bool
    requires list { list < length (lists_in arena.now 0) }
    requires test { F.IsAlwaysCallable test }
    ensures { (p : Ticket → Bool) → ((t : Ticket) (b : Bool) → FnReturnsAt F.Fn test t b → b ≡ p t) → result ≡ any_at p arena.now.payloads (slots_on arena.now 0 list) }
{
    arena.partition(0);
    let mut ahead = arena.front(0, list);
    for _ in 0..arena.len_of(0, list) {
        let Some(slot) = ahead else {
            return false;
        };
        if test(arena.get(slot)) {
            return true;
        }
        ahead = arena.next(0, slot);
    }
    false
}

/// Whether a ticket of the list is due to time out. Where the tickets lie in the order of their submits, the walk ends at
/// the first that was submitted too late.
pub fn any_due_on(arena: &Arena<Ticket, 3>, list: usize, rising: bool, due: &DueRule) -> bool
    requires list { list < length (lists_in arena.now 0) }
    requires rising { rising ≡ true → IsRising arena.now.payloads (slots_on arena.now 0 list) }
    ensures { result ≡ any_at (is_due_by due.now) arena.now.payloads (slots_on arena.now 0 list) }
{
    arena.partition(0);
    let mut ahead = arena.front(0, list);
    for _ in 0..arena.len_of(0, list) {
        let Some(slot) = ahead else {
            return false;
        };
        let ticket = arena.get(slot);
        if is_due(ticket, due) {
            return true;
        }
        if rising && is_young(ticket, due) {
            return false;
        }
        ahead = arena.next(0, slot);
    }
    false
}

/// Whether a ticket of the list is in use.
pub fn any_used_on(arena: &Arena<Ticket, 3>, list: usize) -> bool
    requires { list < length (lists_in arena.now 0) }
    ensures { result ≡ any_at is_used arena.now.payloads (slots_on arena.now 0 list) }
{
    any_on(arena, list, is_used)
}
