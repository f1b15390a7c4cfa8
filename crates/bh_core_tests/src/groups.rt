//! Groups of a core: steps one by one and in a run, looks, slots and the step limit.

ghost use Rattle.std.specs.Prelude.{◌≤◌, ◌^◌, length};
ghost use Rattle.bh_base.specs.Ranges.{IsInRange};

use crate::samples::props;
use crate::script::{assert_number, play};
use bh_base::{CommandProps, GroupId, GroupProps, Op, Reply, Step};
use bh_core::{Core, RegisterError};
use bh_scripts::samples::{are_built_in, command, step, submit};
use bh_scripts::worked::steps;
use std::process::Abort;

/// Registers so many groups with the settings that are built in.
fn register(rt: &(impl Abort + AllocGlobal), core: &mut Core, count: u64) {
    for _ in 0..count {
        core.register(&props(rt), 1024).expect(rt, "memory");
    }
}

/// Asserts that a run of the steps is replied to as the steps one by one.
fn assert_run_equals_apply(rt: &(impl Abort + AllocGlobal), steps: &[Step]) {
    let mut whole = Core::new(rt.alloc(), 1000);
    let mut single = Core::new(rt.alloc(), 1000);
    register(rt, &mut whole, 2);
    register(rt, &mut single, 2);
    let replies = whole.run(steps).expect(rt, "memory");
    assert_replies(rt, &mut single, steps, replies.as_slice());
}

/// Asserts that the step by itself is replied to in the same way.
fn assert_same(rt: &impl Abort, core: &mut Core, step: &Step, reply: &Reply) {
    let alone = core.apply(*step);
    assert!(rt; alone == *reply, "{step:?}");
}

fn assert_replies(rt: &impl Abort, core: &mut Core, steps: &[Step], replies: &[Reply]) {
    assert_number(rt, replies.len() as u64, 10);
    for (step, reply) in steps.iter().zip(replies.iter()) {
        assert_same(rt, core, step, reply);
    }
}

#[test]
fn run_equals_apply(rt: HostRuntime) {
    assert_run_equals_apply(&rt, &steps());
}

#[test]
fn unregistered_group_is_no_group(rt: HostRuntime) {
    let mut core = Core::new(rt.alloc(), 1000);
    play(&rt, &mut core, "0 0 start = NoGroup");
    register(&rt, &mut core, 1);
    play(&rt, &mut core, "0 0 start = Idle\n1 0 start = NoGroup");
}

#[test]
fn second_group_has_no_slots(rt: HostRuntime) {
    let mut core = Core::new(rt.alloc(), 100);
    let first = core.register(&props(&rt), 1024);
    assert!(rt; first == Ok(GroupId(0)));
    let second = core.register(&props(&rt), 1024);
    assert!(rt; second == Err(RegisterError::TooManySlots));
    play(&rt, &mut core, "0 0 start = Idle");
}

/// A core of one group that may do so many steps.
pub(crate) fn core_of_one(rt: &(impl Abort + AllocGlobal), steps: u64) -> Core
    requires some { 1 ≤ steps }
    requires few { steps ≤ 2 ^ 40 }
{
    let mut core = Core::new(rt.alloc(), 64);
    core.register(&props(rt), steps).expect(rt, "memory");
    core
}

#[test]
fn worn_at_the_step_limit(rt: HostRuntime) {
    let mut core = core_of_one(&rt, 2);
    play(
        &rt,
        &mut core,
        "0 0 start = Idle\n0 0 start = Idle\n0 0 start = Worn",
    );
}

const LOOKS: &str = "groups = 1
startable 0 = 0
0 0 submit x = Queued(1)
steps 0 = 1
startable 0 = 1
0 0 start = Assigned(1 x)
startable 0 = 0
pending 0 1 = 1
pending 0 2 = 0
0 500 collect 1 = Pending
due 0 999 = 0
due 0 1000 = 1
0 1000 expire = Expired(1)
due 0 1000 = 0
pending 0 1 = 0
worn 0 = 0
";

/// Asserts that the first group has the settings that are built in, with these commands, and the step limit.
pub(crate) fn assert_shown<R: Abort>(
    rt: &R,
    core: &Core,
    commands: &[CommandProps],
    step_limit: u64,
) {
    let (shown, limit) = core.props(GroupId(0)).expect(rt, "a group");
    assert!(rt; are_built_in(shown, commands));
    assert_number(rt, limit, step_limit);
}

#[test]
fn looks_say_what_a_step_is_answered(rt: HostRuntime) {
    let mut core = core_of_one(&rt, 5);
    assert_shown(&rt, &core, &[command()], 5);
    play(&rt, &mut core, LOOKS);
    core.apply(step(0, 1000, &Op::Read { command: 0 }));
    play(&rt, &mut core, "worn 0 = 1");
}

const NOTHING_TO_SEE: &str = "groups = 0
steps 0 = 0
worn 0 = 0
startable 0 = 0
pending 0 1 = 0
due 0 0 = 0
";

#[test]
fn looks_at_an_unregistered_group(rt: HostRuntime) {
    let mut core = Core::new(rt.alloc(), 64);
    assert!(rt; core.props(GroupId(0)).is_none());
    play(&rt, &mut core, NOTHING_TO_SEE);
}

/// A group with as many slots as there may be, all of which may wait for the one worker.
fn crowded<R: Abort + AllocGlobal>(rt: &R) -> GroupProps
    ensures { IsInRange result }
{
    GroupProps {
        slots: 4096,
        core: 1,
        max_queue: Some(5000),
        queue_threshold: 5000,
        ..props(rt)
    }
}

/// Fills the group's slots with tickets that wait.
fn fill(rt: &impl Abort, core: &mut Core) {
    for made in 1_u64..4097 {
        let told = core.apply(step(0, 0, &submit("x")));
        assert!(rt; told == Reply::Queued(made));
    }
}

#[test]
fn thousands_of_tickets_time_out_in_one_step(rt: HostRuntime) {
    let mut core = Core::new(rt.alloc(), 4096);
    core.register(&crowded(&rt), 1 << 40).expect(&rt, "memory");
    fill(&rt, &mut core);
    play(
        &rt,
        &mut core,
        "0 0 submit x = GroupFull\n0 999 expire = Expired(0)",
    );
    play(
        &rt,
        &mut core,
        "0 1000 expire = Expired(4096)\n0 1000 expire = Expired(0)",
    );
    play(
        &rt,
        &mut core,
        "0 1000 start = Idle\ndue 0 2000 = 0\npending 0 4096 = 0",
    );
}
