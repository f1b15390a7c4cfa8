//! Calls and drives: what they answer that no clause speaks of, and that a right run's account is agreed with.

use crate::driving::{
    Echo, Steady, Still, assert_call, assert_drive, assert_end, assert_number, lists, request,
    service, success,
};
use crate::samples::{by_callers, props};
use bh_audit::{Pass, Shared};
use bh_base::{CallError, Cause, FallbackEnd, GroupId, Op, Request, RunEnd, Text};
use bh_scripts::samples::{step, text};
use bh_services::services::{A, B};
use bh_workers::{Dependency, DriveError, call, drive};
use std::process::Abort;
use std::sync::{Mutex, Wait};

#[test]
fn drive_answers_two_lists(rt: HostRuntime) {
    let shared = service(&rt, props(&rt), props(&rt), 100);
    let passes = assert_drive(&rt, &shared, &Echo, &Still, 100, "0 x\n1 y", "x\ny\n");
    // Two callers, ten workers of each group, and the timer's pass of each.
    assert_number(&rt, passes.len() as u64, 24);
    assert_end(&rt, shared, passes, "4 of 100, 4 of 100, stopped");
}

#[test]
fn drive_without_the_group_starts_no_thread(rt: HostRuntime) {
    let shared = service(&rt, props(&rt), props(&rt), 10);
    let lists = lists(rt.alloc(), "0 x\n2 y").expect(&rt, "memory");
    let driven = drive(
        &rt,
        rt.alloc(),
        &shared,
        &Echo,
        &Still,
        Steady,
        lists.as_slice(),
        10,
    );
    assert!(rt; matches!(driven, Err(DriveError::NoGroup)));
    assert!(rt; !shared.stopped(&rt));
}

/// A pass of the group with room for so many receipts.
fn pass<R: Wait + Abort + AllocGlobal>(rt: &R, shared: &Shared, group: GroupId, room: u64) -> Pass {
    shared
        .pass(rt, rt.alloc(), group, room)
        .expect(rt, "a pass")
}

fn assert_no_receipt<R: Abort>(rt: &R, pass: &Pass, room: u64) {
    assert_number(rt, pass.room_left(), room);
    assert!(rt; pass.receipts().is_empty());
}

#[test]
fn call_needs_five_free_receipts(rt: HostRuntime) {
    let shared = service(&rt, props(&rt), props(&rt), 10);
    let mut pass = pass(&rt, &shared, A, 4);
    assert_call(&rt, &shared, &mut pass, &Echo, "Err(PassFull)");
    assert_no_receipt(&rt, &pass, 4);
}

#[test]
fn pass_of_an_unknown_group_is_no_group(rt: HostRuntime) {
    let shared = service(&rt, props(&rt), props(&rt), 10);
    let mut pass = shared
        .blank_pass(rt.alloc(), GroupId(2), 5)
        .expect(&rt, "memory");
    assert_call(&rt, &shared, &mut pass, &Echo, "Err(NoGroup)");
    assert_no_receipt(&rt, &pass, 5);
    assert!(rt; pass.marks().no_group);
}

/// While the caller runs the ticket, another pass ends the run and collects the answer.
struct Thief<'a, R: Wait> {
    rt: &'a R,
    shared: &'a Shared,
    pass: Mutex<Pass>,
}

fn steal<R: Wait>(rt: &R, shared: &Shared, pass: &mut Pass, group: GroupId) {
    let body = text("stolen");
    let finish = Op::Finish { serial: 1, body };
    let _ = shared.step(rt, pass, step(group.0, 0, &finish));
    let collect = Op::Collect { serial: 1 };
    let _ = shared.step(rt, pass, step(group.0, 0, &collect));
}

impl<'a, R: Wait> Dependency for Thief<'a, R> {
    ghost ends = { λ group command arg end. Unit {0} };

    ghost fallback_ends = { λ group command cause arg end. Unit {0} };

    fn run(&self, group: GroupId, _command: u8, arg: &Text<64>) -> RunEnd {
        let mut pass = self.pass.lock(self.rt);
        steal(self.rt, self.shared, &mut *pass, group);
        success(arg)
    }

    fn fallback(
        &self,
        _group: GroupId,
        _command: u8,
        _cause: Cause,
        _arg: &Text<64>,
    ) -> FallbackEnd {
        FallbackEnd::Missing
    }
}

/// A call of the second group, whose ticket the thief collects; the passes of both.
fn robbed<R: Wait + Abort + AllocGlobal>(rt: &R, shared: &Shared) -> Vec<Pass> {
    let mut own = pass(rt, shared, B, 10);
    let thief = Thief {
        rt,
        shared,
        pass: Mutex::new(pass(rt, shared, B, 10)),
    };
    assert_call(rt, shared, &mut own, &thief, "Err(Taken)");
    let Thief {
        rt: _,
        shared: _,
        pass,
    } = thief;
    vec![in rt.alloc(); own, pass.into_inner()].expect(rt, "memory")
}

#[test]
fn ticket_that_another_pass_collected_is_taken(rt: HostRuntime) {
    let shared = service(&rt, props(&rt), by_callers(&rt), 10);
    let passes = robbed(&rt, &shared);
    assert_end(&rt, shared, passes, "0 of 10, 5 of 10 changed, running");
}

/// Asserts what a call of a second command is answered.
fn assert_no_command<R: Wait + Abort>(rt: &R, shared: &Shared, pass: &mut Pass) {
    let request = Request {
        command: 1,
        ..request("x")
    };
    let answer = call(rt, shared, pass, &Echo, &Still, request);
    assert!(rt; matches!(answer, Err(CallError::NoCommand)), "{answer:?}");
    assert!(rt; pass.receipts().is_empty());
}

#[test]
fn a_call_of_an_unknown_command_is_told_so(rt: HostRuntime) {
    let shared = service(&rt, props(&rt), by_callers(&rt), 10);
    let passes = vec![in rt.alloc(); pass(&rt, &shared, A, 5), pass(&rt, &shared, B, 5)];
    let mut passes = passes.expect(&rt, "memory");
    for pass in passes.iter_mut() {
        assert_no_command(&rt, &shared, pass);
    }
    assert_end(&rt, shared, passes, "0 of 10, 0 of 10 changed, running");
}
