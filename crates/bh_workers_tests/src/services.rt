//! The calls of a service, by one thread: that memory is there, and what they answer that no clause speaks of.

ghost use Rattle.std.specs.Prelude.{◌≤◌, ◌^◌};

use crate::driving::{assert_end, assert_text, service};
use crate::samples::{by_callers, props};
use crate::script::{play, take_passes, three_groups};
use bh_audit::{PassError, Shared};
use bh_base::{GroupId, Op, Reply};
use bh_scripts::samples::step;
use bh_services::services::{A, B, service_of, two_groups};
use std::alloc::{AllocError, Global};
use std::process::Abort;
use std::sync::Wait;

/// An audited service of two groups.
fn audited<R: Abort + AllocGlobal>(rt: &R, steps: u64) -> Shared
    requires some { 1 ≤ steps }
    requires few { steps ≤ 2 ^ 40 }
{
    service(rt, props(rt), props(rt), steps)
}

/// A service of two groups without an audit.
fn unaudited<R: Abort + AllocGlobal>(rt: &R, steps: u64) -> Shared
    requires some { 1 ≤ steps }
    requires few { steps ≤ 2 ^ 40 }
{
    let core = two_groups(rt.alloc(), props(rt), props(rt), steps).expect(rt, "memory");
    service_of(rt.alloc(), core, None).expect(rt, "memory")
}

/// The first ticket of the first group is submitted, started and finished.
const FIRST_RUN: &str = "0 0 0 submit x = Queued(1)
0 0 0 start = Assigned(1 x)
0 0 0 finish 1 r = Done
";

const WORN: &str = "0 0 0 collect 1 = Worn
1 1 0 submit y = Queued(1)
0 marks = Marks { worn: true, no_group: false, stopped: false }
0 receipts = 3
";

#[test]
fn a_worn_group_has_a_whole_account(rt: HostRuntime) {
    let shared = audited(&rt, 3);
    let mut passes = take_passes(&rt, &shared, &[(A, 10), (B, 10)]);
    play(&rt, &shared, &mut passes, FIRST_RUN);
    play(&rt, &shared, &mut passes, WORN);
    assert_end(&rt, shared, passes, "3 of 3, 1 of 3, running");
}

#[test]
fn a_mark_that_is_not_true_is_a_mismatch(rt: HostRuntime) {
    let other = audited(&rt, 3);
    let mut marked = take_passes(&rt, &other, &[(A, 10)]);
    play(&rt, &other, &mut marked, FIRST_RUN);
    play(&rt, &other, &mut marked, "0 0 0 collect 1 = Worn");

    let shared = audited(&rt, 4);
    let mut own = take_passes(&rt, &shared, &[(A, 10)]);
    play(&rt, &shared, &mut own, FIRST_RUN);
    assert_end(
        &rt,
        shared,
        marked,
        "mismatch at 0 4: 3 of 4, 0 of 4, running",
    );
}

const TWO_PASSES: &str = "0 0 18446744073709551615 submit x = Queued(1)
1 0 18446744073709551615 expire = Expired(0)
";

#[test]
fn a_pass_that_is_not_there_is_missed(rt: HostRuntime) {
    let shared = audited(&rt, 10);
    let mut passes = take_passes(&rt, &shared, &[(A, 5), (A, 5)]);
    play(&rt, &shared, &mut passes, TWO_PASSES);
    passes.truncate(1);
    assert_end(
        &rt,
        shared,
        passes,
        "missing at 0 2: 2 of 10, 0 of 10, running",
    );
}

/// How many groups there are, and how many workers each of three numbers wants.
fn workers_text<R: Wait>(rt: &R, alloc: Global, shared: &Shared) -> Result<String, AllocError> {
    let groups = shared.groups(rt);
    let mut text = format!(in alloc; "{groups} groups:")?;
    for group in 0..3_u64 {
        let workers = shared.workers(rt, GroupId(group));
        text.push_str(format!(in alloc; " {workers}")?.as_str())?;
    }
    Ok(text)
}

#[test]
fn groups_and_their_workers(rt: HostRuntime) {
    let shared = service(&rt, props(&rt), by_callers(&rt), 10);
    assert!(rt; shared.audited());
    let text = workers_text(&rt, rt.alloc(), &shared);
    assert_text(&rt, text, "2 groups: 10 0 0", "the workers");
    let missing = shared.pass(&rt, rt.alloc(), GroupId(2), 1).err();
    assert!(rt; missing == Some(PassError::NoGroup));
}

#[test]
fn a_blank_pass_of_a_missing_group(rt: HostRuntime) {
    let shared = audited(&rt, 10);
    let mut pass = shared
        .blank_pass(rt.alloc(), GroupId(2), 1)
        .expect(&rt, "memory");
    let told = shared.step(&rt, &mut pass, step(2, 0, &Op::Start));
    assert!(rt; told == Ok(Reply::NoGroup));
    assert!(rt; pass.marks().no_group);
    assert!(rt; pass.room_left() == 1);
}

const REFUSED: &str = "0 1 0 start = OtherGroup
0 next 0 = PassFull
0 0 0 start = Idle
0 0 0 start = PassFull
0 due 0 = Err(PassFull)
0 receipts = 1
0 first step = Step { group: GroupId(0), now: 0, op: Start }
";

#[test]
fn a_refused_step_leaves_the_pass(rt: HostRuntime) {
    let shared = audited(&rt, 10);
    let mut passes = take_passes(&rt, &shared, &[(A, 1)]);
    play(&rt, &shared, &mut passes, REFUSED);
}

const DUE: &str = "0 due 1000 = Ok(None)
0 0 0 submit x = Queued(1)
0 due 999 = Ok(None)
0 due 1000 = Ok(Some(1))
0 receipts = 2
";

#[test]
fn only_a_due_ticket_expires(rt: HostRuntime) {
    let shared = audited(&rt, 10);
    let mut passes = take_passes(&rt, &shared, &[(A, 5)]);
    play(&rt, &shared, &mut passes, DUE);
}

const UNKNOWN_GROUP: &str = "0 2 0 start = NoGroup
0 next 0 = NoGroup
0 await 1 0 = NoGroup
0 due 0 = Ok(None)
0 receipts = 0
0 marks = Marks { worn: false, no_group: true, stopped: false }
";

#[test]
fn passes_of_other_services(rt: HostRuntime) {
    let shared = audited(&rt, 10);
    let other = unaudited(&rt, 10);
    let mut without_room = take_passes(&rt, &other, &[(A, 5)]);
    play(&rt, &shared, &mut without_room, "0 0 0 start = PassFull");

    let larger = three_groups(&rt, 10);
    let mut third = take_passes(&rt, &larger, &[(GroupId(2), 5)]);
    shared.stop(&rt);
    play(&rt, &shared, &mut third, UNKNOWN_GROUP);
}

const NO_AUDIT: &str = "0 await 1 0 = Worn
0 receipts = 0
0 marks = Marks { worn: true, no_group: false, stopped: false }
";

#[test]
fn a_service_without_an_audit(rt: HostRuntime) {
    let shared = unaudited(&rt, 3);
    assert!(rt; !shared.audited());
    let mut passes = take_passes(&rt, &shared, &[(A, 10)]);
    play(&rt, &shared, &mut passes, "0 room = 0");
    play(&rt, &shared, &mut passes, FIRST_RUN);
    play(&rt, &shared, &mut passes, NO_AUDIT);
    assert_end(&rt, shared, passes, "not audited");
}

const BEFORE_STOP: &str = "1 0 0 submit x = Queued(1)
0 next 7 = Assigned(1 x)
0 first step = Step { group: GroupId(0), now: 7, op: Start }
";

const AFTER_STOP: &str = "0 next 7 = Stopped
1 await 1 7 = Pending
0 marks = Marks { worn: false, no_group: false, stopped: true }
1 marks = Marks { worn: false, no_group: false, stopped: true }
";

#[test]
fn a_stopped_service_makes_no_one_wait(rt: HostRuntime) {
    let shared = audited(&rt, 10);
    let mut passes = take_passes(&rt, &shared, &[(A, 5), (A, 5)]);
    play(&rt, &shared, &mut passes, BEFORE_STOP);
    assert!(rt; !shared.stopped(&rt));
    shared.stop(&rt);
    assert!(rt; shared.stopped(&rt));
    play(&rt, &shared, &mut passes, AFTER_STOP);
    assert_end(&rt, shared, passes, "3 of 10, 0 of 10, stopped");
}

const NO_RECEIPT: &str = "0 0 0 submit-of 1 y = NoCommand
0 0 0 read-of 9 = NoCommand
0 receipts = 0
0 room = 5
0 marks = Marks { worn: false, no_group: false, stopped: false }
0 0 0 submit x = Queued(1)
0 0 0 submit-of 1 y = NoCommand
0 receipts = 1
";

#[test]
fn a_step_of_an_unknown_command_is_in_no_journal(rt: HostRuntime) {
    let shared = service(&rt, props(&rt), props(&rt), 10);
    let mut passes = take_passes(&rt, &shared, &[(A, 5)]);
    play(&rt, &shared, &mut passes, NO_RECEIPT);
    assert_end(&rt, shared, passes, "1 of 10, 0 of 10, running");
}
