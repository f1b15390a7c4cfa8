//! What retired groups leave serves groups of any size: what a core keeps follows the most groups that are there at one
//! time.

ghost use Rattle.std.specs.Prelude.{◌≤◌};
ghost use Rattle.bh_base.specs.Ranges.{IsInRange};

use crate::counting::{count_requests, requests_counted};
use crate::worked::props_of_two;
use bh_base::{GroupId, GroupProps};
use bh_core::Core;
use std::process::Abort;

/// How many groups come in all.
const GROUPS: u64 = 10_000;

/// After so many groups there were as many of each size as there ever are at one time.
const FIRST: u64 = 200;

/// How many groups are there at one time.
const AT_ONCE: u64 = 3;

/// How often the list of groups by number grows behind the first ones: it doubles.
const DOUBLINGS: u64 = 7;

/// The settings of the group of the number.
fn props_at<R: Abort + AllocGlobal>(rt: &R, number: u64) -> GroupProps
    ensures { IsInRange result }
{
    GroupProps {
        slots: slots_at(number),
        ..props_of_two(rt)
    }
}

/// How many slots the group of the number has: of four sizes, by turns, each of which wants another number of chains by
/// cache name. The larger ones come seldom, as each slot goes from hand to hand.
fn slots_at(number: u64) -> u64
    ensures some { 1 ≤ result }
    ensures few { result ≤ 4096 }
{
    match number % 100 {
        0 => 4096,
        50 => 1024,
        turn if turn % 2 == 0 => 1,
        _ => 256,
    }
}

/// The group of the number comes, and the oldest that is there goes.
fn take_turn<R: Abort + AllocGlobal>(rt: &R, core: &mut Core, number: u64) {
    let told = core.register(&props_at(rt, number), 100);
    assert_eq!(rt; told, Ok(GroupId(number)));
    if number >= AT_ONCE {
        assert_eq!(rt; core.retire(GroupId(number - AT_ONCE)), Ok(()));
    }
}

/// Where allocations can be counted, each group asks for as much as any other of its commands: for what it keeps itself,
/// and no more.
#[test]
fn places_of_retired_groups_serve_groups_of_any_size(rt: HostRuntime) {
    let mut core = Core::new(rt.alloc(), 8192);
    for number in 0..FIRST {
        take_turn(&rt, &mut core, number);
    }
    count_requests(rt.alloc());
    take_turn(&rt, &mut core, FIRST);
    let of_one = requests_counted(rt.alloc());
    count_requests(rt.alloc());
    for number in FIRST + 1..GROUPS {
        take_turn(&rt, &mut core, number);
    }
    let of_all = requests_counted(rt.alloc());
    let most = of_one
        .saturating_mul(GROUPS - FIRST - 1)
        .saturating_add(DOUBLINGS);
    assert!(rt; of_all <= most, "{of_all} requests, {of_one} of one group");
}
