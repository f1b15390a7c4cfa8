//! The request cache, and tickets by their serials, as the steps of two groups see them.

ghost use Rattle.std.specs.Prelude.{◌≤◌, length};

use crate::samples::props;
use bh_base::{Op, Reply};
use bh_core::Core;
use bh_scripts::samples::{own_request, step, text};
use std::process::Abort;

/// Asks for a run that further requests of the context and the key may join.
fn request(context: u64, key: &str) -> Op
    requires fits { length key.now ≤ 32 }
{
    let (arg, key) = (text("x"), text(key));
    Op::Submit(own_request(Some((context, key)), arg))
}

/// Asserts what the group is told.
fn assert_told<R: Abort>(rt: &R, core: &mut Core, group: u64, op: &Op, want: Reply) {
    let told = core.apply(step(group, 0, op));
    assert!(rt; told == want, "{op:?}");
}

/// The first group has tickets of two contexts and two keys, of the serials 1 to 3; the second has one of the same name
/// as the first ticket.
fn two_groups<R: Abort + AllocGlobal>(rt: &R) -> Core {
    let mut core = Core::new(rt.alloc(), 128);
    core.register(&props(rt), 1024).expect(rt, "memory");
    core.register(&props(rt), 1024).expect(rt, "memory");
    assert_told(rt, &mut core, 0, &request(7, "k"), Reply::Queued(1));
    assert_told(rt, &mut core, 0, &request(8, "k"), Reply::Queued(2));
    assert_told(rt, &mut core, 0, &request(7, "j"), Reply::Queued(3));
    assert_told(rt, &mut core, 1, &request(7, "k"), Reply::Queued(1));
    core
}

#[test]
fn a_context_ends_for_all_its_keys_and_no_other(rt: HostRuntime) {
    let mut core = two_groups(&rt);
    let close = Op::Close { context: 7 };
    assert_told(&rt, &mut core, 0, &request(7, "j"), Reply::Joined(3));
    assert_told(&rt, &mut core, 0, &close, Reply::Closed(2));
    assert_told(&rt, &mut core, 0, &request(7, "k"), Reply::Queued(4));
    assert_told(&rt, &mut core, 0, &request(7, "j"), Reply::Queued(5));
    assert_told(&rt, &mut core, 0, &request(8, "k"), Reply::Joined(2));
    assert_told(&rt, &mut core, 1, &request(7, "k"), Reply::Joined(1));
    assert_told(&rt, &mut core, 1, &close, Reply::Closed(1));
    assert_told(&rt, &mut core, 1, &close, Reply::Closed(0));
}

#[test]
fn a_serial_means_a_ticket_of_its_own_group(rt: HostRuntime) {
    let mut core = two_groups(&rt);
    for serial in 1..4 {
        assert_told(&rt, &mut core, 0, &Op::Collect { serial }, Reply::Pending);
    }
    let (first, second) = (Op::Collect { serial: 1 }, Op::Collect { serial: 2 });
    assert_told(&rt, &mut core, 1, &first, Reply::Pending);
    assert_told(&rt, &mut core, 1, &second, Reply::NoTicket);
}
