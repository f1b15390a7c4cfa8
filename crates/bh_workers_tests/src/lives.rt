//! Groups that come and go while threads work in others.

ghost use Rattle.std.specs.Prelude.{IfOk};
ghost use Rattle.bh_base.specs.Ranges.{IsInRange};
ghost use Rattle.bh_audit.specs.Books.{AreNew};

use crate::driving::{
    Echo, Steady, Still, answer_text, assert_agreed, assert_call, assert_drive, assert_number,
    assert_passed, assert_text, lists, report_of, request, service, success_after,
};
use crate::gates::Gate;
use crate::samples::{by_callers, props};
use bh_audit::{AuditReport, Pass, Shared};
use bh_base::{Cause, FallbackEnd, GroupId, GroupProps, RunEnd, Text};
use bh_core::{Core, RegisterError, RetireError};
use bh_services::services::{A, B, add, service_of};
use bh_workers::{Dependency, DriveError, call, drive, worker_loop};
use std::alloc::Global;
use std::process::Abort;
use std::sync::Wait;
use std::thread::Threads;
use std::{rt, thread};

/// How many steps a group may do.
const STEPS: u64 = 100;

/// Holds each run until it is let go.
#[derive(Drop)]
struct HeldRun<'a, R> {
    begun: Gate<'a, R>,
    let_go: Gate<'a, R>,
}

impl<'a, R: rt::Clock> Dependency for HeldRun<'a, R> {
    ghost ends = { λ group command arg end. Unit {0} };

    ghost fallback_ends = { λ group command cause arg end. Unit {0} };

    fn run(&self, _group: GroupId, _command: u8, arg: &Text<64>) -> RunEnd {
        self.begun.come();
        success_after(&self.let_go, 1, arg)
    }

    fn fallback(
        &self,
        _group: GroupId,
        _command: u8,
        _cause: Cause,
        _arg: &Text<64>,
    ) -> FallbackEnd {
        FallbackEnd::Missing
    }
}

/// A pass of the group with room for some receipts.
fn pass<R: Wait + Abort + AllocGlobal>(rt: &R, shared: &Shared, group: GroupId) -> Pass {
    shared.pass(rt, rt.alloc(), group, 20).expect(rt, "a pass")
}

/// A core of one group that did no step.
fn one_group(alloc: Global, own: &GroupProps) -> Result<Core, RegisterError>
    requires { IsInRange own.now }
    ensures { IfOk result (λ core. AreNew STEPS core) }
{
    let mut core = Core::new(alloc, 1000);
    add(&mut core, own, STEPS)?;
    Ok(core)
}

/// Asserts that the group is registered with the number.
fn assert_registered<R: Wait + Abort + AllocGlobal>(
    rt: &R,
    shared: &Shared,
    own: &GroupProps,
    number: GroupId,
)
    requires { IsInRange own.now }
{
    let told = shared.register(rt, rt.alloc(), own, STEPS);
    assert!(rt; told == Ok(number), "{told:?}");
}

/// Asserts what the retirement of the group is answered.
fn assert_retired<R: Wait + Abort>(
    rt: &R,
    shared: &Shared,
    group: GroupId,
    want: Result<(), RetireError>,
) {
    let told = shared.retire(rt, group);
    assert!(rt; told == want, "{told:?}");
}

/// Once the run of the first group is held, registers a group and calls it, and lets the run go. The pass of that call.
fn register_beside<R: Wait + Abort + AllocGlobal + rt::Clock>(
    rt: &R,
    shared: &Shared,
    held: &HeldRun<'_, R>,
) -> Pass {
    held.begun.wait(1);
    assert_registered(rt, shared, &by_callers(rt), B);
    let mut own = pass(rt, shared, B);
    assert_call(rt, shared, &mut own, &Echo, "x");
    assert_retired(rt, shared, A, Err(RetireError::Busy));
    held.let_go.come();
    own
}

/// Calls the first group, and once the call is answered retires the group. The pass of what was done beside it.
fn retire_once_answered<R: Threads + Wait + Sync + Abort + AllocGlobal + rt::Clock>(
    rt: &R,
    shared: &Shared,
    held: &HeldRun<'_, R>,
    caller: &mut Pass,
    ended: &Gate<'_, R>,
) -> Pass {
    let (answer, beside) = thread::join(
        rt,
        || call(rt, shared, caller, held, &Still, request("slow")),
        || register_beside(rt, shared, held),
    );
    assert_text(rt, answer_text(rt.alloc(), &answer), "slow", "the call");
    assert_retired(rt, shared, A, Ok(()));
    // A worker that the retirement does not wake is got out by a stop, and its test fails by the gate's name.
    if !ended.wait(1) {
        shared.stop(rt);
    }
    beside
}

/// Works in the first group, and beside it calls the group and retires it. The pass of what was done beside that call.
fn work_until_retired<R: Threads + Wait + Sync + Abort + AllocGlobal + rt::Clock>(
    rt: &R,
    shared: &Shared,
    held: &HeldRun<'_, R>,
    caller: &mut Pass,
    worker: &mut Pass,
) -> Pass {
    let ended = Gate::new(rt, "the worker of a retired group");
    let ((), beside) = thread::join(
        rt,
        || {
            worker_loop(rt, shared, worker, held, &Still);
            ended.come();
        },
        || retire_once_answered(rt, shared, held, caller, &ended),
    );
    assert_passed(rt, &ended);
    beside
}

/// Asserts that the two groups did as many steps, and the first alone was retired.
fn assert_account<R: Abort>(rt: &R, report: &AuditReport, first: u64, second: u64) {
    assert_number(rt, report.journals.len() as u64, 2);
    assert_number(rt, report.journal(A).len() as u64, first);
    assert_number(rt, report.journal(B).len() as u64, second);
    assert!(rt; report.retired.as_slice() == [true, false].as_slice());
    assert!(rt; !report.stopped);
}

#[test]
fn register_while_others_run(rt: HostRuntime) {
    let core = one_group(rt.alloc(), &props(&rt)).expect(&rt, "memory");
    let shared = service_of(rt.alloc(), core, Some(STEPS)).expect(&rt, "memory");
    let held = HeldRun {
        begun: Gate::new(&rt, "the run of the first group"),
        let_go: Gate::new(&rt, "a call of a group that came beside it"),
    };
    let mut caller = pass(&rt, &shared, A);
    let mut worker = pass(&rt, &shared, A);
    let beside = work_until_retired(&rt, &shared, &held, &mut caller, &mut worker);
    assert_passed(&rt, &held.begun);
    assert_passed(&rt, &held.let_go);
    assert!(rt; worker.marks().no_group);
    let passes = vec![in rt.alloc(); caller, worker, beside].expect(&rt, "memory");
    assert_account(&rt, &report_of(&rt, shared, passes), 4, 3);
}

#[test]
fn drive_of_a_retired_group_starts_no_thread(rt: HostRuntime) {
    let shared = service(&rt, props(&rt), props(&rt), STEPS);
    assert_retired(&rt, &shared, B, Ok(()));
    let lists = lists(rt.alloc(), "0 x\n1 y").expect(&rt, "memory");
    let driven = drive(
        &rt,
        rt.alloc(),
        &shared,
        &Echo,
        &Still,
        Steady,
        lists.as_slice(),
        10,
    );
    assert!(rt; matches!(driven, Err(DriveError::NoGroup)));
    assert!(rt; !shared.stopped(&rt));
}

#[test]
fn drive_leaves_out_a_retired_group(rt: HostRuntime) {
    let shared = service(&rt, props(&rt), props(&rt), STEPS);
    assert_retired(&rt, &shared, A, Ok(()));
    let passes = assert_drive(&rt, &shared, &Echo, &Still, 100, "1 x", "x\n");
    // A caller, ten workers of the second group, and the timer's pass of it.
    assert_number(&rt, passes.len() as u64, 12);
    assert_agreed(&rt, shared, passes);
}
