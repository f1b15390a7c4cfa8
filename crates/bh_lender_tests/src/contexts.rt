//! Which request contexts end with a connection.

use crate::accounts::{lender_of_two, logged};
use crate::samples::{GROUP, assert_step, body, leases_of, lender_of, metrics, shared_submit};
use bh_base::{Answer, FallbackEnd, GroupId, Op, Reply, Serial};
use bh_lease::{Leases, Refusal};
use bh_lender::Lender;
use bh_scripts::samples::{command_by_callers, step};
use std::process::Abort;

/// A run of the connection in context 1 has ended, and its answer was collected. It stays cached until the context ends.
fn cache_answer<R: Abort>(rt: &R, lender: &mut Lender, leases: &mut Leases, serial: Serial) {
    let submit = shared_submit("k");
    assert_step(rt, lender, leases, 1, &submit, Reply::Inline(serial));
    let body = body("y");
    let finish = Op::Finish { serial, body };
    assert_step(rt, lender, leases, 2, &finish, Reply::Done);
    let value = Reply::Answered(Answer::Value(body));
    let collect = Op::Collect { serial };
    assert_step(rt, lender, leases, 3, &collect, value);
}

#[test]
fn a_context_that_a_dead_client_entered_keeps_no_slot(rt: HostRuntime) {
    let mut lender = lender_of(&rt, command_by_callers());
    let mut dead = leases_of(&rt, 4);
    let mut other = leases_of(&rt, 4);
    assert!(&rt; dead.enter(GROUP, 1) == Ok(()));
    cache_answer(&rt, &mut lender, &mut other, 1);
    assert!(&rt; metrics(&rt, &mut lender, 4).free == 63);
    lender.give_back(&mut dead, 5).expect(&rt, "memory");
    assert!(&rt; metrics(&rt, &mut lender, 5).free == 64);
    assert!(&rt; dead.contexts().is_empty());
    cache_answer(&rt, &mut lender, &mut other, 2);
}

#[test]
fn a_context_that_a_dead_client_did_not_enter_stays(rt: HostRuntime) {
    let mut lender = lender_of(&rt, command_by_callers());
    let mut dead = leases_of(&rt, 4);
    let mut other = leases_of(&rt, 4);
    assert!(&rt; dead.enter(GROUP, 2) == Ok(()));
    assert!(&rt; dead.enter(GroupId(1), 1) == Ok(()));
    cache_answer(&rt, &mut lender, &mut dead, 1);
    lender.give_back(&mut dead, 4).expect(&rt, "memory");
    assert!(&rt; metrics(&rt, &mut lender, 4).free == 63);
    assert_step(
        &rt,
        &mut lender,
        &mut other,
        5,
        &shared_submit("k"),
        Reply::Joined(1),
    );
}

#[test]
fn a_context_that_was_left_is_not_closed_again(rt: HostRuntime) {
    let mut lender = lender_of(&rt, command_by_callers());
    let mut dead = leases_of(&rt, 4);
    let mut other = leases_of(&rt, 4);
    assert!(&rt; dead.enter(GROUP, 1) == Ok(()));
    cache_answer(&rt, &mut lender, &mut dead, 1);
    let close = Op::Close { context: 1 };
    assert_step(&rt, &mut lender, &mut dead, 4, &close, Reply::Closed(1));
    assert!(&rt; dead.contexts().is_empty());
    cache_answer(&rt, &mut lender, &mut other, 2);
    lender.give_back(&mut dead, 5).expect(&rt, "memory");
    assert!(&rt; metrics(&rt, &mut lender, 5).free == 63);
}

#[test]
fn a_close_by_another_client_ends_no_stay(rt: HostRuntime) {
    let mut lender = lender_of(&rt, command_by_callers());
    let mut within = leases_of(&rt, 4);
    let mut other = leases_of(&rt, 4);
    assert!(&rt; within.enter(GROUP, 1) == Ok(()));
    let close = Op::Close { context: 1 };
    assert_step(&rt, &mut lender, &mut other, 1, &close, Reply::Closed(0));
    let another = Op::Close { context: 2 };
    assert_step(&rt, &mut lender, &mut within, 1, &another, Reply::Closed(0));
    let contexts = within.contexts();
    assert!(&rt; contexts.len() == 1 && contexts[0].context == 1);
}

#[test]
fn no_more_contexts_are_entered_than_the_limit(rt: HostRuntime) {
    let mut leases = leases_of(&rt, 4);
    assert!(&rt; leases.enter(GROUP, 1) == Ok(()));
    assert!(&rt; leases.enter(GROUP, 2) == Ok(()));
    assert!(&rt; leases.enter(GROUP, 3) == Err(Refusal::Full));
    assert!(&rt; leases.enter(GroupId(1), 1) == Err(Refusal::Full));
    assert!(&rt; leases.enter(GROUP, 2) == Ok(()));
    let contexts = leases.contexts();
    assert!(&rt; contexts.len() == 2);
    assert!(&rt; contexts[0].context == 1 && contexts[1].context == 2);
}

#[test]
fn contexts_are_closed_behind_the_runs_and_before_the_holders(rt: HostRuntime) {
    let mut lender = lender_of_two(&rt, false);
    let mut dead = leases_of(&rt, 4);
    assert!(&rt; dead.enter(GroupId(1), 1) == Ok(()));
    assert!(&rt; dead.enter(GroupId(0), 7) == Ok(()));
    let submit = step(1, 1, &shared_submit("k"));
    let mut reply = Reply::Idle;
    let made = lender.step(&mut dead, &submit, &mut reply);
    assert!(&rt; made == Ok(()) && reply == Reply::Inline(1), "{reply:?}");
    lender.give_back(&mut dead, 2).expect(&rt, "memory");
    let fail = Op::Fail {
        serial: 1,
        bad: false,
    };
    let collect = Op::Collect { serial: 1 };
    let missing = Op::FallbackDone {
        serial: 1,
        end: FallbackEnd::Missing,
    };
    let steps = [
        submit,
        step(1, 2, &fail),
        step(1, 2, &Op::Close { context: 1 }),
        step(0, 2, &Op::Close { context: 7 }),
        step(1, 2, &collect),
        step(1, 2, &missing),
        step(1, 2, &collect),
    ];
    let log = logged(&rt, &mut lender);
    assert!(&rt; log.as_slice() == &steps[..], "{:?}", log.as_slice());
}
