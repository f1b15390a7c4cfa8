//! A run of steps leaves a retired group retired, whatever the steps ask of it.

use crate::lives::{assert_registered, assert_retired};
use crate::script::play;
use bh_base::{GroupId, Op, Reply, Step};
use bh_core::Core;
use bh_scripts::samples::{are_built_in, command, step};
use std::process::Abort;

/// Asserts what a run of the steps answers.
fn assert_run<R: Abort>(rt: &R, core: &mut Core, steps: &[Step], want: &[Reply]) {
    let replies = core.run(steps).expect(rt, "memory");
    assert!(rt; replies.as_slice() == want);
}

/// Asserts that the first group is retired, and shows with what it was registered.
fn assert_first_retired<R: Abort + AllocGlobal>(rt: &R, core: &Core) {
    assert!(rt; core.is_retired(GroupId(0)) && !core.is_registered(GroupId(0)));
    let (shown, limit) = core
        .props(GroupId(0))
        .expect(rt, "a group that was registered");
    assert!(rt; limit == 1024 && are_built_in(shown, &[command()]));
}

#[test]
fn a_run_leaves_a_retired_group_retired(rt: HostRuntime) {
    let mut core = Core::new(rt.alloc(), 64);
    assert_registered(&rt, &mut core, 64, Ok(GroupId(0)));
    assert_retired(&rt, &mut core, 0, Ok(()));
    assert_registered(&rt, &mut core, 64, Ok(GroupId(1)));
    let steps = [
        step(0, 5, &Op::Start),
        step(1, 5, &Op::Start),
        step(0, 6, &Op::Expire),
        step(2, 6, &Op::Start),
    ];
    let want = [Reply::NoGroup, Reply::Idle, Reply::NoGroup, Reply::NoGroup];
    assert_run(&rt, &mut core, &steps, &want);
    assert_first_retired(&rt, &core);
    play(&rt, &mut core, "groups = 2\nsteps 1 = 1\n");
}

/// The retired group is the only one, and all slots are spare.
#[test]
fn a_run_brings_no_group_back(rt: HostRuntime) {
    let mut core = Core::new(rt.alloc(), 64);
    assert_registered(&rt, &mut core, 64, Ok(GroupId(0)));
    assert_retired(&rt, &mut core, 0, Ok(()));
    assert_run(&rt, &mut core, &[step(0, 5, &Op::Start)], &[Reply::NoGroup]);
    assert_first_retired(&rt, &core);
    play(&rt, &mut core, "groups = 1\n0 6 start = NoGroup\n");
}
