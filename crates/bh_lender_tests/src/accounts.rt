//! What an account has of the steps of connections that come and go.

ghost use Rattle.bh_audit.specs.Books.{AreNew};
ghost use Rattle.bh_base.specs.Ranges.{IsCommandInRange};

use crate::samples::leases_of;
use bh_audit::Book;
use bh_base::{Answer, Cause, CommandProps, FallbackEnd, FallbackFault, GroupId, Op, Reply};
use bh_core::Core;
use bh_journal::Journal;
use bh_lease::Leases;
use bh_lender::{Lender, StepLog};
use bh_scripts::replies::reply_text;
use bh_scripts::samples::{command, command_by_callers, props_of, step};
use bh_scripts::steps::step_of;
use bh_scripts::words::split_line;
use bh_services::services::two_groups;
use std::process::Abort;

/// So many steps may each group do, and so many are logged.
const MOST_STEPS: u32 = 60_000;

/// The command, whose runs time out soon.
fn timed(own: CommandProps) -> CommandProps
    requires { IsCommandInRange own }
    ensures { IsCommandInRange result }
{
    CommandProps {
        timeout_ms: 20,
        ..own
    }
}

/// Two groups that did no step: the runs of the first are made by workers, those of the second by callers.
fn new_groups<R: Abort + AllocGlobal>(rt: &R) -> Core
    ensures { AreNew 60_000 result }
{
    let by_workers = vec![in rt.alloc(); timed(command())].expect(rt, "memory");
    let by_callers = vec![in rt.alloc(); timed(command_by_callers())].expect(rt, "memory");
    let first = props_of(by_workers);
    let second = props_of(by_callers);
    two_groups(rt.alloc(), first, second, u64::from(MOST_STEPS)).expect(rt, "memory")
}

/// A book of the two groups, with an account or without one.
pub(crate) fn book_of_two<R: Abort + AllocGlobal>(rt: &R, audited: bool) -> Book {
    let core = new_groups(rt);
    let audit = if audited {
        Some(u64::from(MOST_STEPS))
    } else {
        None
    };
    Book::new(rt.alloc(), core, audit).ok().expect(rt, "memory")
}

/// A lender of the two groups, with an account or without one, that logs its steps.
pub(crate) fn lender_of_two<R: Abort + AllocGlobal>(rt: &R, audited: bool) -> Lender {
    let book = book_of_two(rt, audited);
    let log = StepLog::new(rt.alloc(), MOST_STEPS).expect(rt, "memory");
    Lender::new(rt.alloc(), book, Some(log))
}

/// The steps that the lender made so far.
pub(crate) fn logged<R: Abort + AllocGlobal>(rt: &R, lender: &mut Lender) -> StepLog {
    let mut log = StepLog::new(rt.alloc(), 0).expect(rt, "memory");
    lender.swap_log(&mut log);
    assert!(rt; !log.has_lost());
    log
}

/// Whether no step was made.
pub(crate) fn is_refused(reply: &Reply) -> bool {
    matches!(reply, Reply::Worn | Reply::NoGroup | Reply::NoCommand)
}

/// Asserts that the journal has each step of the group in the log that is not refused, and nothing else, with the replies of
/// a group that did no step.
fn assert_journal<R: Abort>(
    rt: &R,
    journal: &Journal,
    group: GroupId,
    log: &StepLog,
    new: &mut Core,
) {
    let mut place = 0u64;
    for step in log.as_slice() {
        if step.group != group {
            continue;
        }
        let told = new.apply(*step);
        if is_refused(&told) {
            continue;
        }
        assert!(rt;
            journal.get(place) == Some((*step, told)),
            "{place}: {step:?}"
        );
        place = place.saturating_add(1);
    }
    assert!(rt; journal.len() == place, "{place}");
}

/// Asserts that the account is right: each journal has just the steps of its group. The journals, and how many steps were
/// made or refused.
pub(crate) fn account_of<R: Abort + AllocGlobal>(
    rt: &R,
    mut lender: Lender,
) -> (Vec<Journal>, usize) {
    let log = logged(rt, &mut lender);
    let mut new = new_groups(rt);
    let (_, journals) = lender.into_book().into_parts();
    assert!(rt; journals.len() == 2);
    for (number, journal) in journals.iter().enumerate() {
        assert_journal(rt, journal, GroupId(number as u64), &log, &mut new);
    }
    (journals, log.as_slice().len())
}

/// Asserts what the steps of each line are answered.
fn assert_steps<R: Abort + AllocGlobal>(
    rt: &R,
    lender: &mut Lender,
    leases: &mut Leases,
    script: &str,
) {
    for line in script.lines() {
        let (words, want) = split_line(line);
        let step = step_of(words).expect(rt, "a step");
        let mut reply = Reply::Idle;
        let made = lender.step(leases, &step, &mut reply);
        assert!(rt; made == Ok(()), "{line}: {made:?}");
        let told = reply_text(rt.alloc(), &reply).expect(rt, "memory");
        assert_eq!(rt; told.as_str(), want, "{line}");
    }
}

/// It ends with a run, a fallback and two holders.
const FIRST: &str = "1 1 submit x = Inline(1)
1 1 cached-of 0 1/k x = Inline(2)
1 2 fail 1 = Done
1 2 collect 1 = RunFallback(Failure)
";

/// It ends with a holder of the first one's run, and a run of the third one's.
const SECOND: &str = "1 2 cached-of 0 1/k x = Joined(2)
0 3 start = Assigned(1 y)
";

/// It ends with a holder. Two of its steps are refused.
const THIRD: &str = "0 2 submit y = Queued(1)
0 3 read-of 9 = NoCommand
7 3 start = NoGroup
";

/// Three connections come, and end one after the other.
fn come_and_go<R: Abort + AllocGlobal>(rt: &R, lender: &mut Lender) {
    let mut first = leases_of(rt, 4);
    let mut second = leases_of(rt, 4);
    let mut third = leases_of(rt, 4);
    assert_steps(rt, lender, &mut third, THIRD);
    assert_steps(rt, lender, &mut first, FIRST);
    assert_steps(rt, lender, &mut second, SECOND);
    lender.give_back(&mut first, 4).expect(rt, "memory");
    lender.give_back(&mut second, 5).expect(rt, "memory");
    lender.give_back(&mut third, 6).expect(rt, "memory");
}

/// Asserts that the journal of the group ends with these steps.
fn assert_end<R: Abort>(rt: &R, journal: &Journal, group: u64, want: &[(u64, Op, Reply)]) {
    let mut place = journal.len().saturating_sub(want.len() as u64);
    for (now, op, reply) in want {
        let entry = journal.get(place);
        assert!(rt;
            entry == Some((step(group, *now, op), *reply)),
            "{place}: {op:?}"
        );
        place = place.saturating_add(1);
    }
}

/// How a request ends whose run failed, and of which nobody ran the fallback, or somebody who is gone.
fn failed(fallback: FallbackFault) -> Reply {
    Reply::Answered(Answer::Error {
        cause: Cause::Failure,
        fallback,
    })
}

/// The run of the ticket has failed.
fn fail(serial: u64) -> Op {
    Op::Fail { serial, bad: false }
}

/// A holder of the ticket asks for its answer.
fn collect(serial: u64) -> Op {
    Op::Collect { serial }
}

/// The fallback of the ticket ends so.
fn fall_back(serial: u64, end: FallbackEnd) -> Op {
    Op::FallbackDone { serial, end }
}

#[test]
fn an_account_has_what_was_given_back(rt: HostRuntime) {
    let mut lender = lender_of_two(&rt, true);
    come_and_go(&rt, &mut lender);
    let (journals, made) = account_of(&rt, lender);
    let first = journals.get(0).expect(&rt, "a journal");
    let by_workers = [
        (5, fail(1), Reply::Done),
        (6, collect(1), Reply::RunFallback(Cause::Failure)),
        (6, fall_back(1, FallbackEnd::Missing), Reply::Done),
        (6, collect(1), failed(FallbackFault::Missing)),
    ];
    assert_end(&rt, first, 0, &by_workers);
    let second = journals.get(1).expect(&rt, "a journal");
    let by_callers = [
        (4, fail(2), Reply::Done),
        (4, fall_back(1, FallbackEnd::Failure), Reply::Done),
        (4, collect(1), failed(FallbackFault::Failed)),
        (4, collect(2), Reply::RunFallback(Cause::Failure)),
        (4, fall_back(2, FallbackEnd::Missing), Reply::Done),
        (4, collect(2), failed(FallbackFault::Missing)),
        (5, collect(2), failed(FallbackFault::Missing)),
    ];
    assert_end(&rt, second, 1, &by_callers);
    assert!(&rt; (first.len(), second.len(), made) == (6, 12, 20), "{made}");
}

#[test]
fn a_lender_without_an_account_keeps_none(rt: HostRuntime) {
    let mut lender = lender_of_two(&rt, false);
    come_and_go(&rt, &mut lender);
    assert!(&rt; logged(&rt, &mut lender).as_slice().len() == 20);
    let book = lender.into_book();
    assert!(&rt; !book.audited());
    let (_, journals) = book.into_parts();
    assert!(&rt; journals.is_empty());
}
