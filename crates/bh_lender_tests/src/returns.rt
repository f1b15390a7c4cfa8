//! What a connection that ends gives back, and what the others see of that.

use crate::samples::{GROUP, assert_step, body, leases_of, lender_of, metrics, shared_submit};
use bh_base::{Answer, Cause, FallbackEnd, FallbackFault, Op, Reply};
use bh_scripts::samples::{command, command_by_callers, step, submit, text};

#[test]
fn a_dead_client_keeps_no_permit(rt: HostRuntime) {
    let mut lender = lender_of(&rt, command_by_callers());
    let mut dead = leases_of(&rt, 10);
    let mut other = leases_of(&rt, 10);
    for serial in 1..11 {
        assert_step(
            &rt,
            &mut lender,
            &mut dead,
            1,
            &submit("x"),
            Reply::Inline(serial),
        );
    }
    let rejected = Reply::FallbackDue {
        serial: 11,
        cause: Cause::SemaphoreRejected,
    };
    assert_step(&rt, &mut lender, &mut other, 2, &submit("x"), rejected);
    lender.give_back(&mut dead, 3).expect(&rt, "memory");
    let shown = metrics(&rt, &mut lender, 3);
    assert!(&rt; shown.busy == 0 && shown.free == 63, "{shown:?}");
    assert!(&rt; shown.counts.failure == 10, "{shown:?}");
    assert!(&rt; shown.counts.fallback_missing == 10, "{shown:?}");
    assert!(&rt; dead.as_slice().is_empty() && lender.left().is_empty());
    assert_step(
        &rt,
        &mut lender,
        &mut other,
        3,
        &submit("x"),
        Reply::Inline(12),
    );
}

#[test]
fn whoever_waits_for_a_dead_clients_run_is_answered(rt: HostRuntime) {
    let mut lender = lender_of(&rt, command());
    let mut holder = leases_of(&rt, 4);
    let mut dead = leases_of(&rt, 4);
    assert_step(
        &rt,
        &mut lender,
        &mut holder,
        1,
        &submit("x"),
        Reply::Queued(1),
    );
    let assigned = Reply::Assigned {
        serial: 1,
        command: 0,
        arg: text("x"),
    };
    assert_step(&rt, &mut lender, &mut dead, 2, &Op::Start, assigned);
    let collect = Op::Collect { serial: 1 };
    assert_step(&rt, &mut lender, &mut holder, 3, &collect, Reply::Pending);
    lender.give_back(&mut dead, 4).expect(&rt, "memory");
    let cause = Cause::Failure;
    assert_step(
        &rt,
        &mut lender,
        &mut holder,
        5,
        &collect,
        Reply::RunFallback(cause),
    );
    lender.give_back(&mut holder, 6).expect(&rt, "memory");
    let shown = metrics(&rt, &mut lender, 6);
    assert!(&rt;
        shown.counts.fallback_failure == 1 && shown.free == 64,
        "{shown:?}"
    );
}

#[test]
fn a_holder_that_is_gone_collects_once_the_run_ends(rt: HostRuntime) {
    let mut lender = lender_of(&rt, command_by_callers());
    let mut runner = leases_of(&rt, 4);
    let mut dead = leases_of(&rt, 4);
    assert_step(
        &rt,
        &mut lender,
        &mut runner,
        1,
        &shared_submit("k"),
        Reply::Inline(1),
    );
    assert_step(
        &rt,
        &mut lender,
        &mut dead,
        2,
        &shared_submit("k"),
        Reply::Joined(1),
    );
    assert_step(
        &rt,
        &mut lender,
        &mut dead,
        2,
        &shared_submit("k"),
        Reply::Joined(1),
    );
    lender.give_back(&mut dead, 3).expect(&rt, "memory");
    let left = lender.left();
    assert!(&rt; left.len() == 1 && left[0].number == 2, "{left:?}");
    let finish = Op::Finish {
        serial: 1,
        body: body("y"),
    };
    assert_step(&rt, &mut lender, &mut runner, 4, &finish, Reply::Done);
    assert!(&rt; lender.left().is_empty());
    let value = Reply::Answered(Answer::Value(body("y")));
    assert_step(
        &rt,
        &mut lender,
        &mut runner,
        5,
        &Op::Collect { serial: 1 },
        value,
    );
    let close = Op::Close { context: 1 };
    assert_step(&rt, &mut lender, &mut runner, 6, &close, Reply::Closed(1));
    assert!(&rt; metrics(&rt, &mut lender, 6).free == 64);
}

#[test]
fn a_holder_that_is_gone_collects_once_the_run_times_out(rt: HostRuntime) {
    let mut lender = lender_of(&rt, command_by_callers());
    let mut runner = leases_of(&rt, 4);
    let mut dead = leases_of(&rt, 4);
    assert_step(
        &rt,
        &mut lender,
        &mut runner,
        1,
        &shared_submit("k"),
        Reply::Inline(1),
    );
    assert_step(
        &rt,
        &mut lender,
        &mut dead,
        2,
        &shared_submit("k"),
        Reply::Joined(1),
    );
    lender.give_back(&mut dead, 3).expect(&rt, "memory");
    assert!(&rt; lender.expire_due(GROUP, 1000) == None);
    let left = lender.left();
    assert!(&rt; left.len() == 1 && left[0].number == 1, "{left:?}");
    assert!(&rt; lender.expire_due(GROUP, 1001) == Some(1));
    assert!(&rt; lender.left().is_empty());
    let answer = Answer::Error {
        cause: Cause::Timeout,
        fallback: FallbackFault::Missing,
    };
    let collect = Op::Collect { serial: 1 };
    assert_step(
        &rt,
        &mut lender,
        &mut runner,
        1002,
        &collect,
        Reply::Answered(answer),
    );
    assert!(&rt; runner.as_slice().len() == 1);
    let finish = Op::Finish {
        serial: 1,
        body: body("y"),
    };
    assert_step(&rt, &mut lender, &mut runner, 1003, &finish, Reply::Late);
    assert!(&rt; runner.as_slice().is_empty());
}

#[test]
fn a_fallback_that_the_dead_client_ran_has_failed_for_all(rt: HostRuntime) {
    let mut lender = lender_of(&rt, command_by_callers());
    let mut dead = leases_of(&rt, 4);
    let mut other = leases_of(&rt, 4);
    assert_step(
        &rt,
        &mut lender,
        &mut dead,
        1,
        &shared_submit("k"),
        Reply::Inline(1),
    );
    assert_step(
        &rt,
        &mut lender,
        &mut other,
        1,
        &shared_submit("k"),
        Reply::Joined(1),
    );
    let fail = Op::Fail {
        serial: 1,
        bad: false,
    };
    assert_step(&rt, &mut lender, &mut dead, 2, &fail, Reply::Done);
    let collect = Op::Collect { serial: 1 };
    let due = Reply::RunFallback(Cause::Failure);
    assert_step(&rt, &mut lender, &mut dead, 3, &collect, due);
    assert_step(&rt, &mut lender, &mut other, 3, &collect, Reply::Pending);
    lender.give_back(&mut dead, 4).expect(&rt, "memory");
    let answer = Answer::Error {
        cause: Cause::Failure,
        fallback: FallbackFault::Failed,
    };
    assert_step(
        &rt,
        &mut lender,
        &mut other,
        5,
        &collect,
        Reply::Answered(answer),
    );
    let late = Op::FallbackDone {
        serial: 1,
        end: FallbackEnd::Missing,
    };
    let mut reply = Reply::Idle;
    let made = lender.step(&mut other, &step(GROUP.0, 6, &late), &mut reply);
    assert!(&rt; made.is_err());
}
