//! The book of groups that connections shared, once nobody shares them any more.

ghost use Rattle.std.specs.Prelude.{◌≡◌, []};

use crate::accounts::book_of_two;
use crate::samples::leases_of;
use bh_base::{GroupId, Moment, Op, Text};
use bh_journal::Journal;
use bh_lease::Leases;
use bh_scripts::replies::reply_text;
use bh_scripts::samples::{submit, text};
use bh_share::Directory;
use bh_sharing::{Opening, Service, SharedGroups};
use std::marker::PhantomData;
use std::process::Abort;
use std::rt::Clock;
use std::sync::Wait;

/// The group whose runs are made by callers.
const GROUP: GroupId = GroupId(1);

/// What a connection's steps are answered, a line for each.
const ANSWERS: &str = r#"{"reply":"inline","ticket":1}
{"reply":"done"}
{"body":"y","reply":"value"}
"#;

/// What the account has of them.
const REPLIES: [&str; 3] = ["Inline(1)", "Done", "Value(y)"];

/// Groups that have no names.
#[derive(Drop)]
struct Nameless;

impl Directory for Nameless {
    ghost names = { λ nameless. record { groups = []; commands = [] } };

    fn groups(&self) -> &[Text<32>] {
        &[]
    }

    fn group(&self, _name: &str) -> Option<GroupId> {
        None
    }

    fn command(&self, _group: GroupId, _name: &str) -> Option<u8> {
        None
    }

    fn command_name(&self, _group: GroupId, _command: u8) -> Option<&Text<32>> {
        None
    }
}

/// Always says 5, and goes on.
#[derive(Drop)]
struct Five;

impl Service for Five {
    ghost use Rattle.std.specs.Prelude.{◌≡◌, ⊤};

    ghost facts = { record { opened = λ groups. ⊤; moments = λ moment. moment ≡ 5; stopped = ⊥ } };

    fn now(&self) -> Moment {
        5
    }

    fn is_stopped(&self) -> bool {
        false
    }
}

/// Makes a step of the connection, whose answer goes behind the others.
fn make_step<R: Abort + Wait + Clock>(
    rt: &R,
    shared: &SharedGroups<Five>,
    leases: &mut Leases,
    op: &Op,
    answers: &mut Vec<u8>,
) {
    let turn = shared.answer(rt, &Nameless, leases, GROUP, op, false, answers);
    assert!(rt; turn.is_ok(), "{op:?}: {turn:?}");
}

/// Makes all steps of a request that its caller runs.
fn make_steps<R: Abort + Wait + Clock>(
    rt: &R,
    shared: &SharedGroups<Five>,
    leases: &mut Leases,
    answers: &mut Vec<u8>,
) {
    let body = text("y");
    make_step(rt, shared, leases, &submit("x"), answers);
    make_step(rt, shared, leases, &Op::Finish { serial: 1, body }, answers);
    make_step(rt, shared, leases, &Op::Collect { serial: 1 }, answers);
}

/// Asserts the reply at a place of the journal, and the moment of its step.
fn assert_entry<R: Abort + AllocGlobal>(rt: &R, journal: &Journal, place: u64, want: &str) {
    let Some((step, reply)) = journal.get(place) else {
        panic!(rt; "{place}: no entry");
    };
    let told = reply_text(rt.alloc(), &reply).expect(rt, "memory");
    assert_eq!(rt; told.as_str(), want, "{place}");
    assert!(rt; step.now == 5, "{place}");
}

#[test]
fn the_book_of_shared_groups_has_each_step(rt: HostRuntime) {
    let book = book_of_two(&rt, true);
    let opening = Opening {
        book,
        log: None,
        of: PhantomData,
    };
    let shared = SharedGroups::new(rt.alloc(), Five, opening, 1).expect(&rt, "memory");
    let mut leases = leases_of(&rt, 4);
    let mut answers = Vec::new(rt.alloc());
    make_steps(&rt, &shared, &mut leases, &mut answers);
    assert!(&rt; answers.as_slice() == ANSWERS.as_bytes(), "{answers:?}");
    let (_, journals) = shared.into_book().into_parts();
    let idle = journals.get(0).expect(&rt, "a journal");
    assert!(&rt; idle.len() == 0);
    let journal = journals.get(1).expect(&rt, "a journal");
    assert!(&rt; journal.len() == 3);
    for (place, want) in REPLIES.iter().enumerate() {
        assert_entry(&rt, journal, place as u64, want);
    }
}
