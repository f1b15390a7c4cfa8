//! Rings of buckets.

ghost use Rattle.std.specs.Prelude.{◌≤◌};

use bh_base::{EventKind, Moment};
use bh_rolling::Ring;
use std::process::Abort;

fn assert_sum<R: Abort>(rt: &R, ring: &Ring, now: Moment, want: u64)
    requires { ring.now.latest ≤ now }
{
    assert_eq!(rt; ring.sum(now, EventKind::Success), want);
    assert_eq!(rt; ring.sum(now, EventKind::Failure), 0);
}

#[test]
fn a_ring_of_two_buckets_forgets(rt: HostRuntime) {
    let mut ring = Ring::new(rt.alloc(), 2, 1000).expect(&rt, "memory");
    ring.record(0, EventKind::Success);
    ring.record(1999, EventKind::Success);
    assert_sum(&rt, &ring, 1999, 2);
    assert_sum(&rt, &ring, 2000, 1);
    assert_sum(&rt, &ring, 3000, 0);
    ring.record(3500, EventKind::Success);
    assert_sum(&rt, &ring, 8500, 0);
}

#[test]
fn a_ring_counts_at_the_last_moment(rt: HostRuntime) {
    let mut ring = Ring::new(rt.alloc(), 60, 1).expect(&rt, "memory");
    ring.record(0, EventKind::Success);
    ring.record(u64::MAX, EventKind::Success);
    ring.record(u64::MAX, EventKind::Success);
    assert_sum(&rt, &ring, u64::MAX, 2);
    ring.clear();
    assert_sum(&rt, &ring, 0, 0);
}
