//! Books: the places of steps, and the journals of groups that come and go.

ghost use Rattle.std.specs.Prelude.{◌≤◌};
ghost use Rattle.bh_base.specs.Ranges.{IsInRange};

use crate::driving::assert_text;
use crate::samples::props;
use bh_audit::Book;
use bh_base::{GroupId, GroupProps, Op, Reply};
use bh_core::{Core, RegisterError, RetireError};
use bh_scripts::samples::step;
use bh_scripts::words::{number, split_line};
use bh_services::services::two_groups;
use std::alloc::{AllocError, Global};
use std::process::Abort;

/// A book of two groups that may do two steps each.
fn book<R: Abort + AllocGlobal>(rt: &R, audited: bool) -> Book {
    let core = two_groups(rt.alloc(), props(rt), props(rt), 2).expect(rt, "memory");
    let audit = if audited { Some(2) } else { None };
    Book::new(rt.alloc(), core, audit).ok().expect(rt, "memory")
}

/// Starts in the group, and tells the place of the step and the reply.
fn start_text(alloc: Global, book: &mut Book, group: u64) -> Result<String, AllocError> {
    let mut reply = Reply::Done;
    let place = book.apply_to(&step(group, 0, &Op::Start), &mut reply);
    format!(in alloc; "{place:?} {reply:?}")
}

/// Asserts the place and the reply of a step of the group of each line.
fn assert_places<R: Abort + AllocGlobal>(rt: &R, book: &mut Book, script: &str) {
    for line in script.lines() {
        let (group, want) = split_line(line);
        let told = start_text(rt.alloc(), book, number(group));
        assert_text(rt, told, want, line);
    }
}

const PLACES: &str = "0 = Some(1) Idle
0 = Some(2) Idle
0 = None Worn
1 = Some(1) Idle
2 = None NoGroup
";

/// The length of the first journal, where there is one.
fn first_length(book: Book) -> Option<u64> {
    let (_, journals) = book.into_parts();
    match journals.get(0) {
        Some(journal) => Some(journal.len()),
        None => None,
    }
}

fn assert_book<R: Abort + AllocGlobal>(rt: &R, audited: bool, journal: Option<u64>) {
    let mut book = book(rt, audited);
    assert_places(rt, &mut book, PLACES);
    assert!(rt; first_length(book) == journal);
}

#[test]
fn a_book_numbers_the_steps_of_each_group(rt: HostRuntime) {
    assert_book(&rt, true, Some(2));
    assert_book(&rt, false, None);
}

/// A group of two slots with the settings that are built in.
fn two_slots<R: Abort + AllocGlobal>(rt: &R) -> GroupProps
    ensures { IsInRange result }
{
    GroupProps {
        slots: 2,
        ..props(rt)
    }
}

/// Asserts what is left of a book: how many groups, how many journals, and of the first one how many entries.
fn assert_left<R: Abort>(rt: &R, book: Book, want: (u64, usize, Option<u64>)) {
    let (core, journals) = book.into_parts();
    let first = journals.get(0).map(|journal| journal.len());
    let seen = (core.groups(), journals.len(), first);
    assert!(rt; seen == want, "{seen:?}");
}

/// Registers two groups in the book, and retires the first after a step.
fn come_and_go<R: Abort + AllocGlobal>(rt: &R, book: &mut Book) {
    let own = two_slots(rt);
    let first = book.register(rt.alloc(), &own, 8);
    assert!(rt; first == Ok(GroupId(0)), "{first:?}");
    let mut reply = Reply::Done;
    let place = book.apply_to(&step(0, 0, &Op::Start), &mut reply);
    assert!(rt; (place, reply) == (Some(1), Reply::Idle));
    assert!(rt; book.retire(GroupId(0)) == Ok(()));
    assert!(rt; book.retire(GroupId(0)) == Err(RetireError::NoGroup));
    let second = book.register(rt.alloc(), &own, 8);
    assert!(rt; second == Ok(GroupId(1)), "{second:?}");
    let third = book.register(rt.alloc(), &own, 8);
    assert!(rt; third == Err(RegisterError::TooManySlots), "{third:?}");
}

#[test]
fn a_book_keeps_the_journal_of_a_retired_group(rt: HostRuntime) {
    let core = Core::new(rt.alloc(), 2);
    let mut book = Book::new(rt.alloc(), core, Some(8))
        .ok()
        .expect(&rt, "memory");
    come_and_go(&rt, &mut book);
    assert_left(&rt, book, (2, 2, Some(1)));
}

#[test]
fn a_plain_book_keeps_no_journal(rt: HostRuntime) {
    let core = Core::new(rt.alloc(), 2);
    let mut book = Book::new(rt.alloc(), core, None).ok().expect(&rt, "memory");
    come_and_go(&rt, &mut book);
    assert_left(&rt, book, (2, 0, None));
}
