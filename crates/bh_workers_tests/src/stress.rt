//! Threads under stress: a group that is full, worn or stopped while others run, want of room, and many calls at once.

use crate::driving::{
    Echo, Still, assert_drive, assert_end, assert_number, assert_passed, drive_lists, request,
    same_lists, service, success_after,
};
use crate::gates::Gate;
use crate::samples::{props, props_with};
use bh_audit::{Pass, Shared, StepError};
use bh_base::{
    Answer, CallError, Cause, CommandProps, FallbackEnd, GroupId, GroupProps, Reply, RunEnd, Text,
};
use bh_scripts::samples::command;
use bh_services::services::{A, B};
use bh_workers::{Dependency, Driven, call, worker_loop};
use std::process::Abort;
use std::sync::{Mutex, Wait};
use std::thread::Threads;
use std::{rt, thread};

/// While the one slot of the first group is taken by a run, calls that group once more, and holds the run until a
/// hundred calls of the second group are answered. Each run of the second waits until that call was refused.
struct FullGroup<'a, R> {
    rt: &'a R,
    shared: &'a Shared,
    pass: Mutex<Pass>,
    refused: Gate<'a, R>,
    begun: Gate<'a, R>,
}

impl<'a, R: Wait + rt::Clock> FullGroup<'a, R> {
    /// Calls the first group once more.
    fn call_again(&self) {
        let mut pass = self.pass.lock(self.rt);
        let again = call(
            self.rt,
            self.shared,
            &mut *pass,
            &Echo,
            &Still,
            request("again"),
        );
        if matches!(again, Err(CallError::GroupFull)) {
            self.refused.come();
        }
    }
}

impl<'a, R: Wait + rt::Clock> Dependency for FullGroup<'a, R> {
    ghost ends = { λ group command arg end. Unit {0} };

    ghost fallback_ends = { λ group command cause arg end. Unit {0} };

    fn run(&self, group: GroupId, _command: u8, arg: &Text<64>) -> RunEnd {
        if group == A {
            self.call_again();
            return success_after(&self.begun, 101, arg);
        }
        self.begun.come();
        success_after(&self.refused, 1, arg)
    }

    fn fallback(
        &self,
        _group: GroupId,
        _command: u8,
        _cause: Cause,
        _arg: &Text<64>,
    ) -> FallbackEnd {
        FallbackEnd::Missing
    }
}

/// Whether each call was answered by its argument, or found its group full; and how many found it full.
fn full_of<R: Abort>(rt: &R, driven: &Driven) -> u64 {
    let mut full = 0_u64;
    for own in driven.answers.iter() {
        for answer in own.iter() {
            match answer {
                Ok(Answer::Value(value)) => assert!(rt; value.as_str() == "x"),
                Err(CallError::GroupFull) => full = full.saturating_add(1),
                other => assert!(rt; false, "{other:?}"),
            }
        }
    }
    full
}

#[test]
fn full_group_others_run(rt: HostRuntime) {
    let one_slot = GroupProps {
        slots: 1,
        ..props(&rt)
    };
    let shared = service(&rt, one_slot, props(&rt), 1000);
    let full = FullGroup {
        rt: &rt,
        shared: &shared,
        pass: Mutex::new(shared.pass(&rt, rt.alloc(), A, 1000).expect(&rt, "a pass")),
        refused: Gate::new(&rt, "a call that the full group refuses"),
        begun: Gate::new(&rt, "a hundred answers of the other group"),
    };
    let lists = same_lists(rt.alloc(), &[(A, 1), (B, 101)]).expect(&rt, "memory");
    let driven = drive_lists(&rt, &shared, &full, &Still, lists.as_slice(), 1000);
    assert_passed(&rt, &full.refused);
    assert_passed(&rt, &full.begun);
    assert_number(&rt, full_of(&rt, &driven), 0);
    let FullGroup {
        rt: _,
        shared: _,
        pass,
        refused: _,
        begun: _,
    } = full;
    let mut passes = driven.passes;
    passes.push(pass.into_inner()).expect(&rt, "memory");
    assert_end(
        &rt,
        shared,
        passes,
        "5 of 1000 changed, 404 of 1000, stopped",
    );
}

#[test]
fn worn_in_the_middle(rt: HostRuntime) {
    let shared = service(&rt, props(&rt), props(&rt), 3);
    let passes = assert_drive(&rt, &shared, &Echo, &Still, 1000, "0 x", "Err(Worn)\n");
    assert_end(&rt, shared, passes, "3 of 3, 0 of 3, stopped");
}

/// Holds each run until its caller was told something.
#[derive(Drop)]
struct HeldUntilTold<'a, R> {
    begun: Gate<'a, R>,
    told: Gate<'a, R>,
}

impl<'a, R: rt::Clock> Dependency for HeldUntilTold<'a, R> {
    ghost ends = { λ group command arg end. Unit {0} };

    ghost fallback_ends = { λ group command cause arg end. Unit {0} };

    fn run(&self, _group: GroupId, _command: u8, arg: &Text<64>) -> RunEnd {
        self.begun.come();
        success_after(&self.told, 1, arg)
    }

    fn fallback(
        &self,
        _group: GroupId,
        _command: u8,
        _cause: Cause,
        _arg: &Text<64>,
    ) -> FallbackEnd {
        FallbackEnd::Missing
    }
}

/// Calls the first group, with a worker beside it, and stops the service once the run has begun.
fn call_and_stop<R: Threads + Wait + Sync + rt::Clock>(
    rt: &R,
    shared: &Shared,
    held: &HeldUntilTold<'_, R>,
    caller: &mut Pass,
    worker: &mut Pass,
) -> Result<Answer, CallError> {
    let (answer, ()) = thread::join(
        rt,
        || {
            let answer = call(rt, shared, caller, held, &Still, request("x"));
            held.told.come();
            answer
        },
        || stop_beside_worker(rt, shared, held, worker),
    );
    answer
}

/// Works, and beside it stops the service once the run has begun.
fn stop_beside_worker<R: Threads + Wait + Sync + rt::Clock>(
    rt: &R,
    shared: &Shared,
    held: &HeldUntilTold<'_, R>,
    worker: &mut Pass,
) {
    thread::join(
        rt,
        || worker_loop(rt, shared, worker, held, &Still),
        || {
            held.begun.wait(1);
            shared.stop(rt);
        },
    );
}

/// Whether the call was told that the service is stopped.
fn is_stopped(answer: &Result<Answer, CallError>) -> bool {
    matches!(answer, Err(CallError::Stopped))
}

/// Whether the ticket had its answer.
fn is_answered(reply: &Result<Reply, StepError>) -> bool {
    matches!(reply, Ok(Reply::Answered(_)))
}

#[test]
fn stopped_in_the_middle(rt: HostRuntime) {
    let shared = service(&rt, props(&rt), props(&rt), 1000);
    let held = HeldUntilTold {
        begun: Gate::new(&rt, "the run"),
        told: Gate::new(&rt, "the caller of a service that is stopped"),
    };
    let mut caller = shared.pass(&rt, rt.alloc(), A, 1000).expect(&rt, "a pass");
    let mut worker = shared.pass(&rt, rt.alloc(), A, 1000).expect(&rt, "a pass");
    let answer = call_and_stop(&rt, &shared, &held, &mut caller, &mut worker);
    assert_passed(&rt, &held.begun);
    assert_passed(&rt, &held.told);
    assert!(rt; is_stopped(&answer));
    // The ticket is still held: its answer is there to be collected.
    assert!(rt; is_answered(&shared.await_answer(&rt, &mut caller, 1, &Still)));
    let passes = vec![in rt.alloc(); caller, worker].expect(&rt, "memory");
    assert_end(&rt, shared, passes, "5 of 1000, 0 of 1000, stopped");
}

/// One worker, whose pass has room for two runs, and three callers, whose passes have room for one call. No timeout
/// ends a wait.
#[test]
fn worker_goes_on_where_its_pass_is_full(rt: HostRuntime) {
    let command = CommandProps {
        timeout_on: false,
        ..command()
    };
    let one_worker = GroupProps {
        core: 1,
        max_queue: Some(5),
        ..props_with(&rt, command)
    };
    let shared = service(&rt, one_worker, props(&rt), 100);
    let lists = same_lists(rt.alloc(), &[(A, 1), (A, 1), (A, 1)]).expect(&rt, "memory");
    let driven = drive_lists(&rt, &shared, &Echo, &Still, lists.as_slice(), 5);
    assert_number(&rt, full_of(&rt, &driven), 0);
    assert_end(
        &rt,
        shared,
        driven.passes,
        "12 of 100 changed, 0 of 100, stopped",
    );
}

/// No group is ever full: four callers hold four tickets at once, and ten workers run what four callers ask for.
#[test]
fn many(rt: HostRuntime) {
    let shared = service(&rt, props(&rt), props(&rt), 10_000);
    let wanted = [
        (A, 200),
        (B, 200),
        (A, 200),
        (B, 200),
        (A, 200),
        (B, 200),
        (A, 200),
        (B, 200),
    ];
    let lists = same_lists(rt.alloc(), &wanted).expect(&rt, "memory");
    let driven = drive_lists(&rt, &shared, &Echo, &Still, lists.as_slice(), 10_000);
    assert_number(&rt, full_of(&rt, &driven), 0);
    assert_end(
        &rt,
        shared,
        driven.passes,
        "3200 of 10000, 3200 of 10000, stopped",
    );
}
