//! A property that one connection changes is changed for all.

use crate::samples::{
    assert_refused, assert_step, body, leases_of, lender_of, metrics, operator_of,
};
use bh_base::{Answer, Cause, Counts, Op, Reply, Tuning};
use bh_lease::Refusal;
use bh_scripts::samples::{NO_EVENTS, command_by_callers, submit};

/// Lets so many runs go on at a time.
fn permits(number: u64) -> Op {
    let tuning = Tuning::Semaphore(number);
    Op::Tune { command: 0, tuning }
}

/// What a submit is told that finds no permit.
fn rejected(serial: u64) -> Reply {
    let cause = Cause::SemaphoreRejected;
    Reply::FallbackDue { serial, cause }
}

#[test]
fn a_change_by_one_client_is_seen_by_another(rt: HostRuntime) {
    let mut lender = lender_of(&rt, command_by_callers());
    let mut operator = operator_of(&rt);
    let mut other = leases_of(&rt, 4);
    let submit = submit("x");
    assert_step(&rt, &mut lender, &mut other, 1, &submit, Reply::Inline(1));
    assert_step(
        &rt,
        &mut lender,
        &mut operator,
        2,
        &permits(1),
        Reply::Tuned,
    );
    assert_step(&rt, &mut lender, &mut other, 3, &submit, rejected(2));
    assert_step(
        &rt,
        &mut lender,
        &mut operator,
        4,
        &permits(2),
        Reply::Tuned,
    );
    assert_step(&rt, &mut lender, &mut other, 5, &submit, Reply::Inline(3));
    assert!(&rt; operator.as_slice().is_empty() && other.as_slice().len() == 3);
}

#[test]
fn a_change_outlives_the_client_that_made_it(rt: HostRuntime) {
    let mut lender = lender_of(&rt, command_by_callers());
    let mut operator = operator_of(&rt);
    let mut other = leases_of(&rt, 4);
    let tuning = Tuning::ForceOpen(true);
    let open = Op::Tune { command: 0, tuning };
    assert_step(&rt, &mut lender, &mut operator, 1, &open, Reply::Tuned);
    lender.give_back(&mut operator, 2).expect(&rt, "memory");
    let short_circuited = Reply::FallbackDue {
        serial: 1,
        cause: Cause::ShortCircuited,
    };
    assert_step(
        &rt,
        &mut lender,
        &mut other,
        3,
        &submit("x"),
        short_circuited,
    );
    let again = Op::Tune {
        command: 0,
        tuning: Tuning::ForceOpen(false),
    };
    assert_step(&rt, &mut lender, &mut operator, 4, &again, Reply::Tuned);
    assert_step(
        &rt,
        &mut lender,
        &mut other,
        5,
        &submit("x"),
        Reply::Inline(2),
    );
}

#[test]
fn a_client_that_may_not_changes_nothing(rt: HostRuntime) {
    let mut lender = lender_of(&rt, command_by_callers());
    let mut other = leases_of(&rt, 4);
    let none = permits(0);
    assert_refused(&rt, &mut lender, &mut other, &none, Refusal::NotTunable);
    let submit = submit("x");
    assert_step(&rt, &mut lender, &mut other, 1, &submit, Reply::Inline(1));
    assert!(&rt; metrics(&rt, &mut lender, 1).busy == 1);
}

#[test]
fn a_value_out_of_range_is_told_to_who_may(rt: HostRuntime) {
    let mut lender = lender_of(&rt, command_by_callers());
    let mut operator = operator_of(&rt);
    let tuning = Tuning::CoreSize(0);
    let no_workers = Op::Tune { command: 0, tuning };
    assert_step(
        &rt,
        &mut lender,
        &mut operator,
        1,
        &no_workers,
        Reply::OutOfRange,
    );
    let mut other = leases_of(&rt, 4);
    assert_refused(
        &rt,
        &mut lender,
        &mut other,
        &no_workers,
        Refusal::NotTunable,
    );
}

#[test]
fn totals_are_told_to_any_client(rt: HostRuntime) {
    let mut lender = lender_of(&rt, command_by_callers());
    let mut runner = leases_of(&rt, 4);
    let mut other = leases_of(&rt, 4);
    let submit = submit("x");
    assert_step(&rt, &mut lender, &mut runner, 1, &submit, Reply::Inline(1));
    let body = body("y");
    let finish = Op::Finish { serial: 1, body };
    assert_step(&rt, &mut lender, &mut runner, 2, &finish, Reply::Done);
    let value = Reply::Answered(Answer::Value(body));
    let collect = Op::Collect { serial: 1 };
    assert_step(&rt, &mut lender, &mut runner, 3, &collect, value);
    let once = Counts {
        success: 1,
        ..NO_EVENTS
    };
    let totals = Op::Totals { command: 0 };
    assert_step(
        &rt,
        &mut lender,
        &mut other,
        60_000,
        &totals,
        Reply::Totals(once),
    );
    let shown = metrics(&rt, &mut lender, 60_000);
    assert!(&rt; shown.counts == NO_EVENTS, "{shown:?}");
    assert!(&rt; other.as_slice().is_empty());
}
