//! Tables of slots by serial.

ghost use Rattle.std.specs.Prelude.{◌≡◌, ◌<◌, length};

use bh_serials::SerialTable;
use rand_core::{Rng, SeedableRng};
use rand_xoshiro::Xoshiro256PlusPlus;
use std::process::Abort;

const ROOM: u64 = 5;

/// A table with room for five tickets, and the serials and slots that it must have.
#[derive(Drop)]
struct Both {
    table: SerialTable,
    plain: Vec<(u64, u32)>,
    next: u64,
    count: u64,
    ghost room: { table.room ≡ 5 },
    ghost latest: { table.latest < next },
    ghost counted: { length table.entries ≡ count },
}

/// Neither has a ticket.
fn no_tickets<R: Abort + AllocGlobal>(rt: &R) -> Both {
    let table = SerialTable::new(rt.alloc(), ROOM).expect(rt, "memory");
    Both {
        table,
        plain: Vec::new(rt.alloc()),
        next: 1,
        count: 0,
    }
}

/// A ticket of the next serial comes, where there is room.
fn add_one<R: Abort>(rt: &R, both: &mut Both, slot: u32) {
    if both.count >= ROOM || both.next == u64::MAX {
        return;
    }
    both.plain.push((both.next, slot)).expect(rt, "memory");
    both.table.add(both.next, slot);
    both.count += 1;
    both.next += 1;
}

/// The ticket of the serial leaves, where there is one.
fn remove_one(both: &mut Both, serial: u64) {
    both.plain.retain(|(other, _)| *other != serial);
    if both.table.find(serial).is_some() {
        both.table.remove(serial);
        both.count -= 1;
    }
}

/// The slot beside the serial in a plain list.
fn slot_in(plain: &[(u64, u32)], serial: u64) -> Option<u32> {
    for (other, slot) in plain {
        if *other == serial {
            return Some(*slot);
        }
    }
    None
}

/// Asserts that each serial up to the next is found in both alike.
fn compare<R: Abort>(rt: &R, both: &Both) {
    for serial in 0..both.next {
        let want = slot_in(&both.plain, serial);
        assert!(rt; both.table.find(serial) == want);
    }
    assert!(rt; both.table.find(u64::MAX).is_none());
}

#[test]
fn random_steps_are_those_of_a_plain_list(rt: HostRuntime) {
    let mut both = no_tickets(&rt);
    let mut rng = Xoshiro256PlusPlus::seed_from_u64(17);
    for _ in 0..600 {
        let drawn = rng.next_u64();
        let newer = drawn / 2 % 12;
        if drawn % 2 == 0 {
            add_one(&rt, &mut both, newer as u32);
        } else {
            let serial = both.next.saturating_sub(newer);
            remove_one(&mut both, serial);
        }
        compare(&rt, &both);
    }
}

#[test]
fn an_old_ticket_is_found_among_many_that_left(rt: HostRuntime) {
    let mut both = no_tickets(&rt);
    add_one(&rt, &mut both, 7);
    for slot in 0..100 {
        add_one(&rt, &mut both, slot);
        let newest = both.next.saturating_sub(1);
        remove_one(&mut both, newest);
    }
    compare(&rt, &both);
    assert!(rt; both.table.find(1) == Some(7));
}

#[test]
fn serials_begin_anew_in_a_cleared_table(rt: HostRuntime) {
    let mut table = SerialTable::new(rt.alloc(), ROOM).expect(&rt, "memory");
    table.add(4, 0);
    table.remove(5);
    assert!(rt; table.find(4) == Some(0));
    table.clear();
    assert!(rt; table.find(4).is_none());
    table.add(1, 3);
    assert!(rt; table.find(1) == Some(3));
    assert!(rt; table.room() == ROOM);
}
