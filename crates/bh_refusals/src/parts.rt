//! Rings, and lists and slots of an arena.

ghost use Rattle.std.specs.Prelude.{◌≡◌, ◌<◌, length};
ghost use Rattle.bh_slot_arena.specs.Slots.{lists_in};

use crate::refusing::{assert_told, give_up};
use bh_base::EventKind;
use bh_rolling::Ring;
use bh_scripts::refusing::{MANY, refuse};
use bh_slot_arena::{Arena, SlotsError};
use std::process::Abort;

#[test]
fn a_ring_is_made_or_not(rt: HostRuntime) {
    for nth in 1..MANY {
        refuse(rt.alloc(), nth);
        let made = Ring::new(rt.alloc(), 2, 1000);
        assert_told(&rt, nth, made.is_ok());
        if let Ok(mut ring) = made {
            ring.record(0, EventKind::Success);
            ring.record(1999, EventKind::Success);
            assert_eq!(rt; ring.sum(2000, EventKind::Success), 1);
            return;
        }
    }
    give_up(&rt);
}

/// Buckets that no machine has memory for are refused, whatever allocator there is.
#[test]
fn a_ring_too_large_for_any_memory_is_not_made(rt: HostRuntime) {
    assert!(rt; Ring::new(rt.alloc(), 1 << 60, 1000).is_err());
}

/// An arena of two families with a list each, on which lie three of the five slots that it may have.
fn three_slots<R: Abort + AllocGlobal>(rt: &R) -> Arena<u8, 2>
    ensures slots { length result.payloads ≡ 3 }
    ensures first { length (lists_in result 0) ≡ 1 }
    ensures second { length (lists_in result 1) ≡ 1 }
{
    let mut arena = Arena::<u8, 2>::new(rt.alloc(), 5);
    arena.add_lists(0, 1).expect(rt, "memory");
    arena.add_lists(1, 1).expect(rt, "memory");
    arena.add_slots(3, [0, 0], 9).expect(rt, "memory");
    arena
}

/// Asserts that the three slots lie on the list of each family, with their payload.
fn assert_three_slots(rt: &impl Abort, arena: &Arena<u8, 2>)
    requires slots { length arena.now.payloads ≡ 3 }
    requires first { length (lists_in arena.now 0) ≡ 1 }
    requires second { length (lists_in arena.now 1) ≡ 1 }
{
    for family in 0..2 {
        assert_eq!(rt; arena.len_of(family, 0), 3);
        assert_eq!(rt; arena.front(family, 0), Some(0));
        assert_eq!(rt; arena.next(family, 0), Some(1));
        assert_eq!(rt; arena.next(family, 1), Some(2));
        assert_eq!(rt; arena.next(family, 2), None);
    }
    for slot in 0..3 {
        assert_eq!(rt; *arena.get(slot), 9);
    }
}

/// More lists than there is room for from before.
const LISTS: usize = 100;

#[test]
fn lists_are_added_or_not(rt: HostRuntime) {
    for nth in 1..MANY {
        let mut arena = three_slots(&rt);
        refuse(rt.alloc(), nth);
        let added = arena.add_lists(1, LISTS);
        assert_told(&rt, nth, added.is_ok());
        if let Ok(first) = added {
            assert_eq!(rt; first, 1);
            return;
        }
        assert_three_slots(&rt, &arena);
        assert_eq!(rt; arena.add_lists(1, LISTS).ok(), Some(1));
    }
    give_up(&rt);
}

#[test]
fn slots_are_added_or_not(rt: HostRuntime) {
    for nth in 1..MANY {
        let mut arena = three_slots(&rt);
        refuse(rt.alloc(), nth);
        let added = arena.add_slots(2, [0, 0], 7);
        assert_told(&rt, nth, added.is_ok());
        if let Ok(first) = added {
            assert_eq!(rt; first, 3);
            return;
        }
        assert_eq!(rt; added.err(), Some(SlotsError::Memory));
        assert_three_slots(&rt, &arena);
        assert_eq!(rt; arena.add_slots(2, [0, 0], 7).ok(), Some(3));
    }
    give_up(&rt);
}

#[test]
fn slots_are_reserved_or_not(rt: HostRuntime) {
    for nth in 1..MANY {
        let mut arena = three_slots(&rt);
        refuse(rt.alloc(), nth);
        let reserved = arena.reserve_slots(2);
        assert_told(&rt, nth, reserved.is_ok());
        if reserved.is_ok() {
            assert_eq!(rt; arena.add_reserved(2, [0, 0], 7), 3);
            return;
        }
        assert_eq!(rt; reserved.err(), Some(SlotsError::Memory));
        assert_three_slots(&rt, &arena);
        assert!(rt; arena.has_room_for(2));
        assert_eq!(rt; arena.add_slots(2, [0, 0], 7).ok(), Some(3));
    }
    give_up(&rt);
}

#[test]
fn lists_too_many_for_any_memory_are_not_added(rt: HostRuntime) {
    let mut arena = three_slots(&rt);
    assert!(rt; arena.add_lists(0, 1 << 60).is_err());
    assert_three_slots(&rt, &arena);
    assert_eq!(rt; arena.add_lists(0, 2).ok(), Some(1));
}
