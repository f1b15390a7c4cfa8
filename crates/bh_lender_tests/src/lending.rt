//! A step on a ticket is the connection's whose it is.

use crate::samples::{assert_refused, assert_step, body, leases_of, lender_of};
use bh_base::{Answer, FallbackEnd, Op, Reply};
use bh_lease::Refusal;
use bh_scripts::samples::{command, command_by_callers, submit, text};

#[test]
fn a_client_ends_and_collects_nothing_that_another_began(rt: HostRuntime) {
    let mut lender = lender_of(&rt, command_by_callers());
    let mut mine = leases_of(&rt, 4);
    let mut others = leases_of(&rt, 4);
    assert_step(
        &rt,
        &mut lender,
        &mut mine,
        1,
        &submit("x"),
        Reply::Inline(1),
    );
    let finish = Op::Finish {
        serial: 1,
        body: body("y"),
    };
    let collect = Op::Collect { serial: 1 };
    let fall_back = Op::FallbackDone {
        serial: 1,
        end: FallbackEnd::Failure,
    };
    assert_refused(&rt, &mut lender, &mut others, &finish, Refusal::NotRunning);
    assert_refused(&rt, &mut lender, &mut others, &collect, Refusal::NoTicket);
    assert_refused(
        &rt,
        &mut lender,
        &mut others,
        &fall_back,
        Refusal::NotInFallback,
    );
    assert_step(&rt, &mut lender, &mut mine, 2, &finish, Reply::Done);
    let value = Reply::Answered(Answer::Value(body("y")));
    assert_step(&rt, &mut lender, &mut mine, 3, &collect, value);
    assert_refused(&rt, &mut lender, &mut mine, &finish, Refusal::NotRunning);
    assert_refused(&rt, &mut lender, &mut mine, &collect, Refusal::NoTicket);
}

#[test]
fn a_worker_ends_the_run_that_it_was_assigned(rt: HostRuntime) {
    let mut lender = lender_of(&rt, command());
    let mut holder = leases_of(&rt, 4);
    let mut worker = leases_of(&rt, 4);
    assert_step(
        &rt,
        &mut lender,
        &mut holder,
        1,
        &submit("x"),
        Reply::Queued(1),
    );
    let assigned = Reply::Assigned {
        serial: 1,
        command: 0,
        arg: text("x"),
    };
    assert_step(&rt, &mut lender, &mut worker, 2, &Op::Start, assigned);
    let fail = Op::Fail {
        serial: 1,
        bad: true,
    };
    assert_refused(&rt, &mut lender, &mut holder, &fail, Refusal::NotRunning);
    let collect = Op::Collect { serial: 1 };
    assert_refused(&rt, &mut lender, &mut worker, &collect, Refusal::NoTicket);
    assert_step(&rt, &mut lender, &mut worker, 3, &fail, Reply::Done);
    let bad_request = Reply::Answered(Answer::BadRequest);
    assert_step(&rt, &mut lender, &mut holder, 4, &collect, bad_request);
}

#[test]
fn no_more_tickets_are_had_than_the_limit(rt: HostRuntime) {
    let mut lender = lender_of(&rt, command_by_callers());
    let mut leases = leases_of(&rt, 2);
    assert_step(
        &rt,
        &mut lender,
        &mut leases,
        1,
        &submit("x"),
        Reply::Inline(1),
    );
    assert_step(
        &rt,
        &mut lender,
        &mut leases,
        1,
        &submit("x"),
        Reply::Inline(2),
    );
    assert_refused(&rt, &mut lender, &mut leases, &submit("x"), Refusal::Full);
    assert_refused(&rt, &mut lender, &mut leases, &Op::Start, Refusal::Full);
    let finish = Op::Finish {
        serial: 2,
        body: body(""),
    };
    assert_step(&rt, &mut lender, &mut leases, 2, &finish, Reply::Done);
    assert_refused(&rt, &mut lender, &mut leases, &submit("x"), Refusal::Full);
    let value = Reply::Answered(Answer::Value(body("")));
    assert_step(
        &rt,
        &mut lender,
        &mut leases,
        2,
        &Op::Collect { serial: 2 },
        value,
    );
    assert_step(
        &rt,
        &mut lender,
        &mut leases,
        3,
        &submit("x"),
        Reply::Inline(3),
    );
}
