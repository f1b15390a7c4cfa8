//! Properties that change while a group runs, and the numbers of all events.

ghost use Rattle.std.specs.Prelude.{◌≤◌, ◌^◌};

use crate::samples::{props, props_with_two};
use crate::script::play;
use bh_base::{GroupId, Op, Reply};
use bh_core::Core;
use bh_scripts::samples::{command, step};
use std::process::Abort;

const GROUP: GroupId = GroupId(0);

const NO_GROUP: GroupId = GroupId(1);

/// A core of one group of two commands with the settings that are built in, which may do so many steps.
fn core_of_two<R: Abort + AllocGlobal>(rt: &R, steps: u64) -> Core
    requires some { 1 ≤ steps }
    requires few { steps ≤ 2 ^ 40 }
{
    let mut core = Core::new(rt.alloc(), 64);
    let props = props_with_two(rt, command(), command());
    core.register(&props, steps).expect(rt, "memory");
    core
}

const HELD_OPEN: &str = "0 0 submit x = Queued(1)
0 1 tune force-open 1 = Tuned
0 1 submit y = FallbackDue { serial: 2, cause: ShortCircuited }
0 1 submit-of 1 y = Queued(3)
0 2 start = Assigned(1 x)
0 2 finish 1 ok = Done
0 3 tune force-open 0 = Tuned
0 3 submit z = Queued(4)
0 3 collect 1 = Value(ok)
";

#[test]
fn a_circuit_is_held_open_and_let_go(rt: HostRuntime) {
    play(&rt, &mut core_of_two(&rt, 100), HELD_OPEN);
}

const OUT_OF_RANGE: &str = "0 0 tune core-size 0 = OutOfRange
0 0 tune core-size 65 = OutOfRange
0 0 tune volume 4294967296 = OutOfRange
0 0 tune-of 2 volume 1 = NoCommand
1 0 tune volume 1 = NoGroup
steps 0 = 3
0 0 tune core-size 64 = Tuned
0 0 tune core-size 1 = Worn
";

#[test]
fn a_value_out_of_range_is_a_step_that_changes_nothing(rt: HostRuntime) {
    let mut core = core_of_two(&rt, 4);
    play(&rt, &mut core, OUT_OF_RANGE);
    let (shown, limit) = core.props(GROUP).expect(&rt, "a group");
    let volume = shown.commands.first().map(|own| own.volume);
    assert!(rt; (shown.core, volume, limit) == (64, Some(20), 4));
}

const SHORTER: &str = "0 0 submit x = Queued(1)
0 0 start = Assigned(1 x)
0 100 tune timeout 100 = Tuned
due 0 100 = 1
0 100 expire = Expired(1)
0 101 finish 1 late = Late
";

#[test]
fn a_shorter_timeout_holds_for_the_runs_under_way(rt: HostRuntime) {
    play(&rt, &mut core_of_two(&rt, 100), SHORTER);
}

const MORE_WORKERS: &str = "0 0 tune core-size 1 = Tuned
0 0 submit x = Queued(1)
0 0 start = Assigned(1 x)
0 0 submit y = FallbackDue { serial: 2, cause: PoolRejected }
0 0 tune core-size 2 = Tuned
0 0 submit z = Queued(3)
startable 0 = 1
0 0 start = Assigned(3 z)
";

#[test]
fn a_larger_pool_takes_more(rt: HostRuntime) {
    play(&rt, &mut core_of_two(&rt, 100), MORE_WORKERS);
}

/// Asserts that a Totals at the moment is answered what the look told before it, and how many timeouts that are.
fn assert_timeouts(rt: &impl Abort, core: &mut Core, moment: u64, timeouts: u64) {
    let looked = core.totals(GROUP, 0);
    let told = core.apply(step(0, moment, &Op::Totals { command: 0 }));
    assert!(rt; looked.map(Reply::Totals) == Some(told));
    assert!(rt; looked.map(|shown| shown.timeout) == Some(timeouts));
}

#[test]
fn totals_stay_when_the_window_has_passed(rt: HostRuntime) {
    let mut core = core_of_two(&rt, 100);
    play(
        &rt,
        &mut core,
        "0 0 submit x = Queued(1)\n0 2000 expire = Expired(1)",
    );
    assert_timeouts(&rt, &mut core, 2000, 1);
    play(
        &rt,
        &mut core,
        "0 99000 submit x = Queued(2)\n0 101000 expire = Expired(1)",
    );
    assert_timeouts(&rt, &mut core, 900_000, 2);
    assert!(rt; core.totals(GROUP, 1).map(|shown| shown.timeout) == Some(0));
}

#[test]
fn no_totals_are_shown_of_what_is_not_there(rt: HostRuntime) {
    let mut core = Core::new(rt.alloc(), 64);
    core.register(&props(&rt), 1).expect(&rt, "memory");
    assert!(rt; core.totals(GROUP, 1).is_none());
    assert!(rt; core.totals(NO_GROUP, 0).is_none());
}
