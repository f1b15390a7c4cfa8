//! The arena of slots, and the lists of places that it is made of.

ghost use Rattle.std.specs.Prelude.{◌≡◌, ℕ, ◌<◌, length};
ghost use Rattle.bh_slot_arena.specs.Slots.{lists_in};

use crate::asserts::assert_number;
use bh_index_lists::{Link, ListHead, pop_front, push_back, unlink};
use bh_slot_arena::{Arena, SlotsError};
use rand_core::{Rng, SeedableRng};
use rand_xoshiro::Xoshiro256PlusPlus;
use std::process::Abort;

fn assert_numbers<R: Abort>(rt: &R, told: &[u32], want: &[u32]) {
    assert_eq!(rt; told, want);
}

/// The slots of a list, from the first on, each behind the one before.
fn slots_on<R: Abort + AllocGlobal, const K: usize>(
    rt: &R,
    arena: &Arena<u8, K>,
    family: usize,
    list: usize,
    slots: u32,
) -> Vec<u32>
    requires family { family < K }
    requires list { list < length (lists_in arena.now family) }
    requires slots { length arena.now.payloads ≡ slots }
{
    let mut found = Vec::new(rt.alloc());
    let mut place = arena.front(family, list);
    for _ in 0..arena.len_of(family, list) {
        let slot = place.expect(rt, "as many slots as the list has");
        assert!(rt; slot < slots);
        found.push(slot).expect(rt, "memory");
        place = arena.next(family, slot);
    }
    assert!(rt; place.is_none());
    found
}

#[test]
fn slots_move_to_the_ends_of_lists(rt: HostRuntime) {
    let mut arena = Arena::<u8, 1>::new(rt.alloc(), 4);
    let list = arena.add_lists(0, 2).expect(&rt, "memory");
    assert_number(&rt, list as u64, 0);
    let slot = arena.add_slots(3, [0], 9).expect(&rt, "memory");
    assert_number(&rt, u64::from(slot), 0);
    arena.move_to_back(0, 1, 1);
    assert_numbers(&rt, &slots_on(&rt, &arena, 0, 0, 3), &[0, 2]);
    assert_numbers(&rt, &slots_on(&rt, &arena, 0, 1, 3), &[1]);
    arena.move_to_back(0, 0, 1);
    let refused = arena.add_slots(2, [0], 9).err();
    assert!(rt; refused == Some(SlotsError::TooManySlots));
    assert_numbers(&rt, &slots_on(&rt, &arena, 0, 0, 3), &[2]);
    assert_numbers(&rt, &slots_on(&rt, &arena, 0, 1, 3), &[1, 0]);
}

#[test]
fn reserved_slots_come_one_after_another(rt: HostRuntime) {
    let mut arena = Arena::<u8, 1>::new(rt.alloc(), 4);
    arena.add_lists(0, 2).expect(&rt, "memory");
    arena.reserve_slots(3).expect(&rt, "memory");
    assert_number(&rt, u64::from(arena.slot_count()), 0);
    assert!(rt; arena.has_room_for(1));
    assert!(rt; !arena.has_room_for(2));
    assert!(rt; arena.reserve_slots(2).err() == Some(SlotsError::TooManySlots));
    assert_number(&rt, u64::from(arena.add_reserved(1, [1], 7)), 0);
    assert_number(&rt, u64::from(arena.add_reserved(2, [0], 9)), 1);
    assert_numbers(&rt, &slots_on(&rt, &arena, 0, 0, 3), &[1, 2]);
    assert_numbers(&rt, &slots_on(&rt, &arena, 0, 1, 3), &[0]);
    for (slot, want) in [(0, 7), (1, 9), (2, 9)] {
        assert_number(&rt, u64::from(*arena.get(slot)), want);
    }
}

#[test]
fn slots_that_are_added_leave_the_reserved_ones(rt: HostRuntime) {
    let mut arena = Arena::<u8, 1>::new(rt.alloc(), 4);
    arena.add_lists(0, 1).expect(&rt, "memory");
    arena.reserve_slots(2).expect(&rt, "memory");
    let refused = arena.add_slots(3, [0], 9).err();
    assert!(rt; refused == Some(SlotsError::TooManySlots));
    arena.add_slots(2, [0], 9).expect(&rt, "memory");
    assert!(rt; !arena.has_room_for(1));
    assert_number(&rt, u64::from(arena.add_reserved(2, [0], 7)), 2);
    assert_numbers(&rt, &slots_on(&rt, &arena, 0, 0, 4), &[0, 1, 2, 3]);
}

#[test]
fn a_list_goes_to_the_end_of_another(rt: HostRuntime) {
    let mut arena = Arena::<u8, 1>::new(rt.alloc(), 4);
    arena.add_lists(0, 2).expect(&rt, "memory");
    arena.add_slots(3, [0], 9).expect(&rt, "memory");
    arena.move_to_back(0, 1, 1);
    arena.move_to_back(0, 0, 1);
    arena.append(0, 1, 0);
    assert_numbers(&rt, &slots_on(&rt, &arena, 0, 0, 3), &[2, 1, 0]);
    assert_numbers(&rt, &slots_on(&rt, &arena, 0, 1, 3), &[]);
}

#[test]
fn each_slot_has_its_own_payload(rt: HostRuntime) {
    let mut arena = Arena::<u8, 1>::new(rt.alloc(), 4);
    arena.add_lists(0, 1).expect(&rt, "memory");
    arena.add_slots(3, [0], 9).expect(&rt, "memory");
    arena.set(1, 7);
    for (slot, want) in [(0, 9), (1, 7), (2, 9)] {
        assert_number(&rt, u64::from(*arena.get(slot)), want);
    }
}

#[test]
fn lists_that_no_memory_can_hold_are_not_added(rt: HostRuntime) {
    let mut arena = Arena::<u8, 1>::new(rt.alloc(), 4);
    arena.add_lists(0, 1).expect(&rt, "memory");
    assert!(rt; arena.add_lists(0, usize::MAX).is_err());
    let list = arena.add_lists(0, 1).expect(&rt, "memory");
    assert_number(&rt, list as u64, 1);
}

#[test]
fn places_go_on_a_list_and_off_it(rt: HostRuntime) {
    let mut links = [Link::default(); 3];
    let mut head = ListHead::default();
    push_back(&mut links, &mut head, 2);
    push_back(&mut links, &mut head, 0);
    push_back(&mut links, &mut head, 1);
    unlink(&mut links, &mut head, 0);
    assert!(rt; pop_front(&mut links, &mut head) == Some(2));
    assert!(rt; pop_front(&mut links, &mut head) == Some(1));
    assert!(rt; pop_front(&mut links, &mut head).is_none());
}

const SLOTS: u32 = 6;

/// An arena of two families of three lists and six slots, and the lists that it must have.
#[derive(Drop)]
struct Both {
    arena: Arena<u8, 2>,
    plain: Vec<Vec<Vec<u32>>>,
    ghost slots: { length arena.payloads ≡ 6 },
    ghost lists: { (f : ℕ) → f < 2 → length (lists_in arena f) ≡ 3 },
}

/// A number below the limit.
fn below(rng: &mut Xoshiro256PlusPlus, limit: u64) -> u64
    requires some { 0 < limit }
    ensures { result < limit }
{
    rng.next_u64() % limit
}

/// Moves the slot in plain lists.
fn move_plainly<R: Abort>(rt: &R, lists: &mut Vec<Vec<u32>>, slot: u32, to: usize) {
    for list in lists.iter_mut() {
        list.retain(|other| *other != slot);
    }
    let list = lists.get_mut(to).expect(rt, "a list");
    list.push(slot).expect(rt, "memory");
}

/// Moves a random slot of a random family to the end of a random list.
fn move_one<R: Abort + AllocGlobal>(rt: &R, both: &mut Both, rng: &mut Xoshiro256PlusPlus) {
    let family = below(rng, 2) as usize;
    let slot = below(rng, 6) as u32;
    let to = below(rng, 3) as usize;
    both.arena.move_to_back(family, slot, to);
    let lists = both.plain.get_mut(family).expect(rt, "a family");
    move_plainly(rt, lists, slot, to);
}

/// Asserts that a list of the arena is the plain one.
fn compare_list<R: Abort + AllocGlobal>(rt: &R, both: &Both, family: usize, list: usize)
    requires family { family < 2 }
    requires list { list < 3 }
{
    let lists = both.plain.get(family).expect(rt, "a family");
    let want = lists.get(list).expect(rt, "a list");
    assert_numbers(rt, &slots_on(rt, &both.arena, family, list, SLOTS), want);
}

/// Asserts that all lists of the arena are the plain ones.
fn compare<R: Abort + AllocGlobal>(rt: &R, both: &Both) {
    for list in 0..3 {
        compare_list(rt, both, 0, list);
        compare_list(rt, both, 1, list);
    }
}

/// Three plain lists, with all slots on one of them.
fn plain_lists<R: Abort + AllocGlobal>(rt: &R, list: usize) -> Vec<Vec<u32>> {
    let mut lists = Vec::new(rt.alloc());
    for _ in 0..3 {
        lists.push(Vec::new(rt.alloc())).expect(rt, "memory");
    }
    for slot in 0..SLOTS {
        move_plainly(rt, &mut lists, slot, list);
    }
    lists
}

/// Two families with all slots on one list each, which is not the same in both.
fn two_families<R: Abort + AllocGlobal>(rt: &R) -> Both {
    let mut arena = Arena::new(rt.alloc(), SLOTS);
    arena.add_lists(0, 3).expect(rt, "memory");
    arena.add_lists(1, 3).expect(rt, "memory");
    arena.add_slots(SLOTS, [0, 1], 0).expect(rt, "memory");
    let plain = vec![in rt.alloc(); plain_lists(rt, 0), plain_lists(rt, 1)].expect(rt, "memory");
    Both { arena, plain }
}

#[test]
fn random_moves_are_those_of_plain_lists(rt: HostRuntime) {
    let mut both = two_families(&rt);
    let mut rng = Xoshiro256PlusPlus::seed_from_u64(11);
    for _ in 0..3000 {
        move_one(&rt, &mut both, &mut rng);
        compare(&rt, &both);
    }
}
