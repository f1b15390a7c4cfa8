//! Rules of a group, each shown by a run that keeps to the moment or the number at which it begins.

ghost use Rattle.bh_base.specs.Ranges.{IsCommandInRange, IsInRange};

use crate::samples::props_with;
use crate::script::play;
use bh_base::{CommandProps, GroupProps};
use bh_core::Core;
use bh_scripts::samples::command;
use std::process::Abort;

/// A group of one worker, whose queue has room for four and takes two.
fn two_may_wait<R: Abort + AllocGlobal>(rt: &R) -> GroupProps
    ensures { IsInRange result }
{
    GroupProps {
        core: 1,
        max_queue: Some(4),
        queue_threshold: 2,
        ..props_with(rt, command())
    }
}

/// The answers of a group to the script.
fn play_in<R: Abort + AllocGlobal>(rt: &R, props: &GroupProps, script: &str)
    requires props { IsInRange props.now }
{
    let mut core = Core::new(rt.alloc(), 64);
    core.register(props, 100).expect(rt, "memory");
    play(rt, &mut core, script);
}

const QUEUE: &str = "0 0 submit a = Queued(1)
0 0 start = Assigned(1 a)
0 0 submit b = Queued(2)
0 0 submit c = Queued(3)
0 0 submit d = FallbackDue { serial: 4, cause: PoolRejected }
0 1 finish 1 r = Done
0 1 submit e = Queued(5)
0 1 submit f = FallbackDue { serial: 6, cause: PoolRejected }
";

#[test]
fn a_queue_is_full_at_its_threshold(rt: HostRuntime) {
    play_in(&rt, &two_may_wait(&rt), QUEUE);
}

const LATE: &str = "0 0 submit x = Queued(1)
0 0 start = Assigned(1 x)
0 0 submit y = Queued(2)
0 999 expire = Expired(0)
0 1000 expire = Expired(2)
0 1000 submit z = Queued(3)
0 1000 start = Idle
0 1001 finish 1 late = Late
0 1001 start = Assigned(3 z)
0 1001 collect 1 = RunFallback(Timeout)
0 1002 fall-back 1 instead = Done
0 1002 collect 1 = FallbackValue(Timeout instead)
";

#[test]
fn a_late_end_frees_its_worker_and_is_no_answer(rt: HostRuntime) {
    play_in(&rt, &two_may_wait(&rt), LATE);
}

/// A command whose circuit is opened by a single failure, as soon as a look at its health shows it.
fn frail() -> CommandProps
    ensures { IsCommandInRange result }
{
    CommandProps {
        volume: 1,
        ..command()
    }
}

const SNAPSHOT: &str = "0 0 submit x = Queued(1)
0 0 start = Assigned(1 x)
0 1 fail 1 = Done
0 499 submit y = Queued(2)
0 500 submit z = FallbackDue { serial: 3, cause: ShortCircuited }
";

#[test]
fn health_is_read_again_after_the_snapshots_interval(rt: HostRuntime) {
    play_in(&rt, &props_with(&rt, frail()), SNAPSHOT);
}

/// A command that runs nothing, and one fallback at a time.
fn one_fallback() -> CommandProps
    ensures { IsCommandInRange result }
{
    CommandProps {
        force_open: true,
        fallback_permits: 1,
        ..command()
    }
}

const PERMITS: &str = "0 0 submit x = FallbackDue { serial: 1, cause: ShortCircuited }
0 0 submit y = FallbackDue { serial: 2, cause: ShortCircuited }
0 0 submit z = FallbackDue { serial: 3, cause: ShortCircuited }
0 0 collect 1 = RunFallback(ShortCircuited)
0 0 collect 2 = Answered(Error { cause: ShortCircuited, fallback: Rejected })
0 1 fall-back 1 instead = Done
0 1 collect 3 = RunFallback(ShortCircuited)
";

#[test]
fn fallbacks_run_under_permits(rt: HostRuntime) {
    play_in(&rt, &props_with(&rt, one_fallback()), PERMITS);
}
