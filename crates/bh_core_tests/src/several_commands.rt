//! Groups of several commands: each has its circuit, its permits, its timeout and its cached tickets, and all share the
//! slots and the workers of the group.

ghost use Rattle.bh_base.specs.Ranges.{IsCommandInRange, IsInRange};

use crate::groups::assert_shown;
use crate::samples::props_with_two;
use crate::script::play;
use bh_base::{CircuitState, CommandProps, Counts, GroupProps, Metrics, Op, Reply};
use bh_core::Core;
use bh_scripts::samples::{NO_EVENTS, command, command_by_callers, props_of, step};
use std::process::Abort;

/// A core of the one group.
fn core_of<R: Abort + AllocGlobal>(rt: &R, props: &GroupProps) -> Core
    requires props { IsInRange props.now }
{
    let mut core = Core::new(rt.alloc(), 64);
    core.register(props, 100).expect(rt, "memory");
    core
}

#[test]
fn a_group_shows_both_of_its_commands(rt: HostRuntime) {
    let core = core_of(&rt, &props_with_two(&rt, command(), command_by_callers()));
    assert_shown(&rt, &core, &[command(), command_by_callers()], 100);
}

/// A command whose circuit is opened by a single failure.
fn frail() -> CommandProps
    ensures { IsCommandInRange result }
{
    CommandProps {
        volume: 1,
        health_ms: 0,
        ..command()
    }
}

/// A group of one worker, with three commands of which each is opened by a single failure.
fn three_frail<R: Abort + AllocGlobal>(rt: &R) -> GroupProps
    ensures { IsInRange result }
{
    let commands = vec![in rt.alloc(); frail(), frail(), frail()];
    GroupProps {
        core: 1,
        ..props_of(commands.expect(rt, "memory"))
    }
}

/// Asserts what the command shows of itself at the moment.
fn assert_metrics<R: Abort>(rt: &R, core: &mut Core, now: u64, command: u8, want: &Metrics) {
    let told = core.apply(step(0, now, &Op::Read { command }));
    assert!(rt; told == Reply::Metrics(*want), "{told:?}");
}

const ONE_CIRCUIT_OPENS: &str = "0 0 submit-of 1 p = Queued(1)
0 0 start = Assigned(1 p @1)
0 1 fail 1 = Done
0 2 submit-of 1 r = FallbackDue { serial: 2, cause: ShortCircuited }
0 2 submit q = Queued(3)
0 2 submit-of 2 s = FallbackDue { serial: 4, cause: PoolRejected }
0 3 submit-of 3 t = NoCommand
";

#[test]
fn a_failure_opens_the_circuit_of_its_own_command(rt: HostRuntime) {
    let mut core = core_of(&rt, &three_frail(&rt));
    play(&rt, &mut core, ONE_CIRCUIT_OPENS);
    let opened = Metrics {
        circuit: CircuitState::Open(2),
        counts: Counts {
            failure: 1,
            short_circuited: 1,
            ..NO_EVENTS
        },
        errors: 1,
        total: 1,
        percent: 100,
        busy: 0,
        queued: 0,
        free: 60,
    };
    assert_metrics(&rt, &mut core, 3, 1, &opened);
    let own = Metrics {
        circuit: CircuitState::Closed,
        counts: NO_EVENTS,
        errors: 0,
        total: 0,
        percent: 0,
        queued: 1,
        ..opened
    };
    assert_metrics(&rt, &mut core, 3, 0, &own);
}

/// A group of one worker, whose own command the worker runs, and a further one its callers under a single permit.
fn one_worker_one_permit<R: Abort + AllocGlobal>(rt: &R) -> GroupProps
    ensures { IsInRange result }
{
    let one_permit = CommandProps {
        semaphore: 1,
        ..command_by_callers()
    };
    GroupProps {
        core: 1,
        ..props_with_two(rt, command(), one_permit)
    }
}

const BESIDE_THE_POOL: &str = "0 0 submit-of 1 p = Inline(1)
0 0 submit q = Queued(2)
0 0 start = Assigned(2 q)
0 0 submit-of 1 r = FallbackDue { serial: 3, cause: SemaphoreRejected }
0 1 cached-of 0 7/k x = FallbackDue { serial: 4, cause: PoolRejected }
0 1 cached-of 1 7/k x = FallbackDue { serial: 5, cause: SemaphoreRejected }
0 1 cached-of 1 7/k x = Joined(5)
0 2 close 7 = Closed(2)
";

#[test]
fn runs_by_callers_take_no_worker_and_no_name_of_another_command(rt: HostRuntime) {
    let mut core = core_of(&rt, &one_worker_one_permit(&rt));
    play(&rt, &mut core, BESIDE_THE_POOL);
}

/// A group whose further command times out in half the time.
fn further_times_out_first<R: Abort + AllocGlobal>(rt: &R) -> GroupProps
    ensures { IsInRange result }
{
    let further = CommandProps {
        timeout_ms: 500,
        ..command()
    };
    props_with_two(rt, command(), further)
}

const TWO_TIMEOUTS: &str = "0 0 submit x = Queued(1)
0 0 submit-of 1 y = Queued(2)
due 0 499 = 0
due 0 500 = 1
0 500 expire = Expired(1)
pending 0 1 = 1
pending 0 2 = 0
due 0 999 = 0
0 1000 expire = Expired(1)
";

#[test]
fn a_ticket_times_out_by_its_own_command(rt: HostRuntime) {
    let mut core = core_of(&rt, &further_times_out_first(&rt));
    play(&rt, &mut core, TWO_TIMEOUTS);
}
