//! Books, services, passes, accounts, and drives of threads.

ghost use Rattle.std.specs.Prelude.{◌≡◌, ◌≤◌, length};

use crate::refusing::{assert_told, give_up};
use crate::worked::{SLOTS, assert_new, props_of_two, two_groups};
use bh_audit::{AuditError, AuditReport, Book, Clock, Pass, PassError, Shared};
use bh_base::{Answer, Cause, FallbackEnd, GroupId, Moment, Reply, RunEnd, Text};
use bh_core::RegisterError;
use bh_scripts::refusing::{MANY, refuse};
use bh_scripts::samples::{own_request, text};
use bh_scripts::worked::{replies, steps};
use bh_workers::{Dependency, DriveError, Driven, Pace, RequestList, drive};
use std::process::Abort;
use std::sync::Wait;
use std::sync::atomic::{AtomicU64, Ordering};
use std::thread;
use std::thread::Threads;

const A: GroupId = GroupId(0);

const B: GroupId = GroupId(1);

/// How many steps each group does in the worked run.
const STEPS: usize = 5;

/// More receipts or entries than any machine has memory for.
const TOO_MANY: u64 = 1 << 40;

fn book<R: Abort + AllocGlobal>(rt: &R) -> Book {
    let core = two_groups(rt, 100);
    Book::new(rt.alloc(), core, Some(100))
        .ok()
        .expect(rt, "memory")
}

fn service<R: Abort + AllocGlobal>(rt: &R) -> Shared {
    Shared::new(rt.alloc(), book(rt)).ok().expect(rt, "memory")
}

#[test]
fn a_book_is_made_or_the_core_handed_back(rt: HostRuntime) {
    for nth in 1..MANY {
        let core = two_groups(&rt, 100);
        refuse(rt.alloc(), nth);
        let told = Book::new(rt.alloc(), core, Some(100));
        assert_told(&rt, nth, told.is_ok());
        match told {
            Ok(book) => return assert_new_book(&rt, book),
            Err((mut core, _)) => assert_new(&rt, &mut core),
        }
    }
    give_up(&rt);
}

/// The book has room for just the slots of three groups, so that slots counted for a refused one would be missed.
#[test]
fn a_group_of_a_book_is_registered_or_not(rt: HostRuntime) {
    let third = props_of_two(&rt);
    for nth in 1..MANY {
        let mut book = book(&rt);
        refuse(rt.alloc(), nth);
        let told = book.register(rt.alloc(), &third, 100);
        assert_told(&rt, nth, told.is_ok());
        if told.is_err() {
            assert_eq!(rt; told, Err(RegisterError::Memory));
            let again = book.register(rt.alloc(), &third, 100);
            assert_eq!(rt; again, Ok(GroupId(2)));
        } else {
            assert_eq!(rt; told, Ok(GroupId(2)));
        }
        assert_new_book(&rt, book);
        if told.is_ok() {
            return;
        }
    }
    give_up(&rt);
}

#[test]
fn journals_too_long_for_any_memory_are_not_made(rt: HostRuntime) {
    let core = two_groups(&rt, TOO_MANY);
    match Book::new(rt.alloc(), core, Some(TOO_MANY)) {
        Ok(_) => assert!(rt; false, "a book of so many entries"),
        Err((mut core, _)) => assert_new(&rt, &mut core),
    }
}

/// Asserts that the book answers the run as a new one does.
fn assert_new_book(rt: &impl Abort, mut book: Book) {
    let places = [1, 1, 2, 2, 3, 3, 4, 4, 5, 5];
    for ((step, reply), place) in steps().iter().zip(replies(SLOTS).iter()).zip(places.iter()) {
        let mut told = Reply::Worn;
        let told_place = book.apply_to(step, &mut told);
        assert!(rt; told == *reply, "{step:?}");
        assert_eq!(rt; told_place, Some(*place));
    }
}

#[test]
fn a_service_is_made_or_the_book_handed_back(rt: HostRuntime) {
    for nth in 1..MANY {
        let book = book(&rt);
        refuse(rt.alloc(), nth);
        let told = Shared::new(rt.alloc(), book);
        assert_told(&rt, nth, told.is_ok());
        match told {
            Ok(shared) => return assert_new_service(&rt, shared),
            Err((book, _)) => assert_new_book(&rt, book),
        }
    }
    give_up(&rt);
}

/// The service has room for just the slots of three groups, so that slots counted for a refused one would be missed.
#[test]
fn a_group_of_a_service_is_registered_or_not(rt: HostRuntime) {
    let third = props_of_two(&rt);
    for nth in 1..MANY {
        let shared = service(&rt);
        refuse(rt.alloc(), nth);
        let told = shared.register(&rt, rt.alloc(), &third, 100);
        assert_told(&rt, nth, told.is_ok());
        if told.is_err() {
            assert_eq!(rt; told, Err(RegisterError::Memory));
            let again = shared.register(&rt, rt.alloc(), &third, 100);
            assert_eq!(rt; again, Ok(GroupId(2)));
        } else {
            assert_eq!(rt; told, Ok(GroupId(2)));
        }
        assert_of_three(&rt, shared);
        if told.is_ok() {
            return;
        }
    }
    give_up(&rt);
}

/// Does the run, and gives back the passes of both groups.
fn run<R: Abort + Wait + AllocGlobal>(rt: &R, shared: &Shared) -> (Pass, Pass) {
    let mut first = shared.pass(rt, rt.alloc(), A, 10).expect(rt, "memory");
    let mut second = shared.pass(rt, rt.alloc(), B, 10).expect(rt, "memory");
    for (step, reply) in steps().iter().zip(replies(SLOTS).iter()) {
        let pass = if step.group == A {
            &mut first
        } else {
            &mut second
        };
        assert!(rt; shared.step(rt, pass, *step) == Ok(*reply), "{step:?}");
    }
    (first, second)
}

/// The two passes as a list.
fn listed<R: Abort + AllocGlobal>(rt: &R, passes: (Pass, Pass)) -> Vec<Pass> {
    let mut list = Vec::new(rt.alloc());
    list.push(passes.0).ok().expect(rt, "memory");
    list.push(passes.1).ok().expect(rt, "memory");
    list
}

/// Asserts that each of the two groups did so many steps.
fn assert_account(rt: &impl Abort, report: &AuditReport, steps: usize) {
    assert_eq!(rt; report.journals.len(), 2);
    assert_eq!(rt; report.journal(A).len(), steps);
    assert_eq!(rt; report.journal(B).len(), steps);
}

/// Asserts that the service, which has a third group by now, answers the run as a new one does, and gives its account.
fn assert_of_three<R: Abort + Wait + AllocGlobal>(rt: &R, shared: Shared) {
    let passes = run(rt, &shared);
    let passes = listed(rt, passes);
    let report = shared
        .finish(rt.alloc(), passes)
        .ok()
        .expect(rt, "an account");
    assert_eq!(rt; report.journals.len(), 3);
    assert_eq!(rt; report.journal(A).len(), STEPS);
    assert_eq!(rt; report.journal(B).len(), STEPS);
}

/// Asserts that the service answers the run as a new one does, and gives its account.
fn assert_new_service<R: Abort + Wait + AllocGlobal>(rt: &R, shared: Shared) {
    let passes = run(rt, &shared);
    let passes = listed(rt, passes);
    let report = shared
        .finish(rt.alloc(), passes)
        .ok()
        .expect(rt, "an account");
    assert_account(rt, &report, STEPS);
}

#[test]
fn a_pass_is_made_or_not(rt: HostRuntime) {
    let shared = service(&rt);
    for nth in 1..MANY {
        refuse(rt.alloc(), nth);
        let told = shared.pass(&rt, rt.alloc(), A, 10);
        assert_told(&rt, nth, told.is_ok());
        if told.is_ok() {
            return assert_new_service(&rt, shared);
        }
        assert_eq!(rt; told.err(), Some(PassError::Memory));
    }
    give_up(&rt);
}

#[test]
fn a_blank_pass_is_made_or_not(rt: HostRuntime) {
    let shared = service(&rt);
    for nth in 1..MANY {
        refuse(rt.alloc(), nth);
        let told = shared.blank_pass(rt.alloc(), A, 10);
        assert_told(&rt, nth, told.is_ok());
        if told.is_ok() {
            return assert_new_service(&rt, shared);
        }
    }
    give_up(&rt);
}

#[test]
fn a_pass_too_long_for_any_memory_is_not_made(rt: HostRuntime) {
    let shared = service(&rt);
    let told = shared.pass(&rt, rt.alloc(), A, TOO_MANY);
    assert_eq!(rt; told.err(), Some(PassError::Memory));
    assert_new_service(&rt, shared);
}

#[test]
fn an_account_is_given_or_not(rt: HostRuntime) {
    for nth in 1..MANY {
        let shared = service(&rt);
        let passes = run(&rt, &shared);
        let passes = listed(&rt, passes);
        refuse(rt.alloc(), nth);
        let told = shared.finish(rt.alloc(), passes);
        assert_told(&rt, nth, told.is_ok());
        match told {
            Ok(report) => return assert_account(&rt, &report, STEPS),
            Err(error) => assert!(rt; matches!(error, AuditError::Memory)),
        }
    }
    give_up(&rt);
}

#[test]
fn a_missing_pass_is_told_or_want_of_memory(rt: HostRuntime) {
    for nth in 1..MANY {
        let shared = service(&rt);
        let (_first, second) = run(&rt, &shared);
        let mut passes = Vec::new(rt.alloc());
        passes.push(second).ok().expect(&rt, "memory");
        refuse(rt.alloc(), nth);
        let told = shared.finish(rt.alloc(), passes);
        let found = matches!(
            &told,
            Err(AuditError::PassMissing {
                group: A,
                place: 1,
                ..
            })
        );
        assert_told(&rt, nth, found);
        if found {
            return;
        }
        assert!(rt; matches!(&told, Err(AuditError::Memory)));
    }
    give_up(&rt);
}

/// Always says 0.
#[derive(Drop)]
struct Still;

impl Clock for Still {
    ghost moments = { λ moment. moment ≡ 0 };

    fn now(&self) -> Moment {
        0
    }
}

/// Goes on as long as it is asked, and lets other threads run.
#[derive(Drop)]
struct Steady;

impl Pace for Steady {
    fn go_on(&mut self) -> bool {
        thread::yield_now();
        true
    }
}

/// Answers each run with its argument, and counts the runs that have begun and ended.
#[derive(Drop)]
struct Counting {
    begun: AtomicU64,
    ended: AtomicU64,
}

impl Dependency for Counting {
    ghost ends = { λ group command arg end. Unit {0} };

    ghost fallback_ends = { λ group command cause arg end. Unit {0} };

    fn run(&self, _group: GroupId, _command: u8, arg: &Text<64>) -> RunEnd {
        self.begun.fetch_add(1, Ordering::SeqCst);
        let end = match Text::new(arg.as_str()) {
            Ok(body) => RunEnd::Success(body),
            Err(_) => RunEnd::Failure,
        };
        self.ended.fetch_add(1, Ordering::SeqCst);
        end
    }

    fn fallback(
        &self,
        _group: GroupId,
        _command: u8,
        _cause: Cause,
        _arg: &Text<64>,
    ) -> FallbackEnd {
        FallbackEnd::Missing
    }
}

/// A list of one request with the argument.
fn list<R: Abort + AllocGlobal>(rt: &R, group: GroupId, arg: &str) -> RequestList
    requires fits { length arg.now ≤ 64 }
{
    let mut requests = Vec::new(rt.alloc());
    let request = own_request(None, text(arg));
    requests.push(request).ok().expect(rt, "memory");
    RequestList { group, requests }
}

/// Drives a request of each group, with an allocation refused, and asserts that no thread is left. The service was
/// stopped whatever came of it.
fn drive_both<R: Threads + Wait + Sync + Abort + AllocGlobal>(
    rt: &R,
    shared: &Shared,
    nth: usize,
    room: u64,
) -> Result<Driven, DriveError> {
    let lists = [list(rt, A, "x"), list(rt, B, "y")];
    let counting = Counting {
        begun: AtomicU64::new(0),
        ended: AtomicU64::new(0),
    };
    refuse(rt.alloc(), nth);
    let told = drive(
        rt,
        rt.alloc(),
        shared,
        &counting,
        &Still,
        Steady,
        &lists,
        room,
    );
    assert_told(rt, nth, told.is_ok());
    let begun = counting.begun.load(Ordering::SeqCst);
    assert_eq!(rt; counting.ended.load(Ordering::SeqCst), begun);
    assert!(rt; begun == 2 || told.is_err(), "{begun} runs");
    assert!(rt; shared.stopped(rt));
    told
}

/// Asserts what both lists were answered, and that the account agrees with the passes.
fn assert_driven<R: Abort + AllocGlobal>(rt: &R, shared: Shared, driven: Driven) {
    let Driven { answers, passes } = driven;
    for (own, want) in answers.iter().zip(["x", "y"]) {
        let value = Ok(Answer::Value(Text::new(want).unwrap()));
        assert!(rt; own.as_slice() == [value].as_slice());
    }
    let report = shared
        .finish(rt.alloc(), passes)
        .ok()
        .expect(rt, "an account");
    assert_account(rt, &report, 4);
}

#[test]
fn a_drive_is_whole_or_gives_up(rt: HostRuntime) {
    for nth in 1..MANY {
        let shared = service(&rt);
        match drive_both(&rt, &shared, nth, 100) {
            Ok(driven) => return assert_driven(&rt, shared, driven),
            Err(error) => assert!(rt; error != DriveError::NoGroup),
        }
    }
    give_up(&rt);
}
