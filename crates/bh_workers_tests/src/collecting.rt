//! A step with a Collect behind it, in one turn of the lock.

use crate::asking::ask;
use crate::driving::{assert_end, assert_text, service};
use crate::samples::props;
use crate::script::take_passes;
use bh_audit::{Clock, Pass, Receipt, Shared};
use bh_base::{Answer, Moment, Reply};
use bh_scripts::replies::reply_text;
use bh_scripts::samples::text;
use bh_scripts::steps::step_of;
use bh_scripts::words::{number, split_line, split_word};
use bh_services::services::A;
use std::alloc::{AllocError, Global};
use std::process::Abort;
use std::sync::Wait;

/// A clock that always says this moment.
#[derive(Drop)]
struct Stopped(Moment);

impl Clock for Stopped {
    ghost moments = { λ moment. Unit {0} };

    fn now(&self) -> Moment {
        self.0
    }
}

/// What is said to `SERIAL NOW STEP`: how far the call came, or its error, and the reply that is left, which was
/// `Queued(99)` before. The Collect is made at the moment NOW.
fn both_text<R: Wait>(
    rt: &R,
    alloc: Global,
    shared: &Shared,
    pass: &mut Pass,
    words: &str,
) -> Result<String, AllocError> {
    let (serial, rest) = split_word(words);
    let (now, words) = split_word(rest);
    let Some(step) = step_of(words) else {
        return format!(in alloc; "no step");
    };
    let mut reply = Reply::Queued(99);
    let clock = Stopped(number(now));
    let told = shared.step_and_collect_to(rt, pass, &step, number(serial), &clock, &mut reply);
    let reply = reply_text(alloc, &reply)?;
    match told {
        Ok(progress) => format!(in alloc; "{progress:?} {reply}"),
        Err(error) => format!(in alloc; "{error:?} {reply}"),
    }
}

/// What is said to a line: `both SERIAL NOW STEP`, or what else may be asked.
fn told<R: Wait>(
    rt: &R,
    alloc: Global,
    shared: &Shared,
    pass: &mut Pass,
    words: &str,
) -> Result<String, AllocError> {
    match split_word(words) {
        ("both", rest) => both_text(rt, alloc, shared, pass, rest),
        _ => ask(rt, alloc, shared, pass, words),
    }
}

/// Asserts what is said to each line, by the pass alone.
fn play<R: Wait + Abort + AllocGlobal>(rt: &R, shared: &Shared, pass: &mut Pass, script: &str) {
    for line in script.lines() {
        let (asked, want) = split_line(line);
        assert_text(rt, told(rt, rt.alloc(), shared, pass, asked), want, line);
    }
}

/// The receipt of the step of the words, with its place in the journal and its reply.
fn receipt<R: Abort>(rt: &R, words: &str, place: u64, reply: Reply) -> Receipt {
    Receipt {
        place,
        step: step_of(words).expect(rt, "a step"),
        reply,
    }
}

/// Asserts that the receipt at the index of the pass is this one.
fn assert_receipt<R: Abort>(rt: &R, pass: &Pass, index: usize, want: &Receipt) {
    let kept = pass.receipts().get(index);
    assert!(rt; kept == Some(want), "{kept:?}");
}

/// Asserts that the pass has the receipt of the end of the run, and behind it that of the Collect.
fn assert_both<R: Abort>(rt: &R, pass: &Pass) {
    let end = receipt(rt, "0 5 finish 1 r", 3, Reply::Done);
    assert_receipt(rt, pass, 2, &end);
    let answer = Reply::Answered(Answer::Value(text("r")));
    let collect = receipt(rt, "0 7 collect 1", 4, answer);
    assert_receipt(rt, pass, 3, &collect);
}

const ENDED: &str = "0 0 submit x = Queued(1)
next 3 = Assigned(1 x)
both 1 7 0 5 finish 1 r = Collected Value(r)
receipts = 4
room = 6
both 1 7 0 8 finish 1 r = Collected NoTicket
receipts = 6
";

#[test]
fn the_end_of_a_run_and_its_collect_have_a_receipt_each(rt: HostRuntime) {
    let shared = service(&rt, props(&rt), props(&rt), 10);
    let mut passes = take_passes(&rt, &shared, &[(A, 10)]);
    let pass = passes.get_mut(0).expect(&rt, "a pass");
    play(&rt, &shared, pass, ENDED);
    assert_both(&rt, pass);
    assert_end(&rt, shared, passes, "6 of 10, 0 of 10, running");
}

/// The run fails, the caller runs the fallback, and each end is followed by a Collect.
const WITH_FALLBACK: &str = "0 0 submit x = Queued(1)
next 0 = Assigned(1 x)
both 1 0 0 0 fail 1 = Collected RunFallback(Failure)
receipts = 4
both 1 0 0 0 fall-back 1 s = Collected FallbackValue(Failure s)
receipts = 6
";

/// The second ticket has no answer, so its Collect is made only once the service is stopped. Then the group is worn.
const WITHOUT_ANSWER: &str = "both 2 0 0 0 submit y = Stepped Queued(2)
receipts = 7
both 2 0 0 0 read-of 9 = Refused NoCommand
receipts = 7
stop = stopped
both 2 0 0 0 submit z = Collected Pending
receipts = 9
marks = Marks { worn: false, no_group: false, stopped: true }
both 2 0 0 0 submit z = Refused Worn
receipts = 9
marks = Marks { worn: true, no_group: false, stopped: true }
";

#[test]
fn a_collect_is_made_where_it_has_not_to_wait(rt: HostRuntime) {
    let shared = service(&rt, props(&rt), props(&rt), 9);
    let mut passes = take_passes(&rt, &shared, &[(A, 20)]);
    let pass = passes.get_mut(0).expect(&rt, "a pass");
    play(&rt, &shared, pass, WITH_FALLBACK);
    play(&rt, &shared, pass, WITHOUT_ANSWER);
    assert_end(&rt, shared, passes, "9 of 9, 0 of 9, stopped");
}

/// One receipt is free, and then none.
const ONE_FREE: &str = "0 0 submit x = Queued(1)
next 0 = Assigned(1 x)
room = 1
both 1 0 0 0 finish 1 r = PassFull Queued(99)
receipts = 2
both 1 0 1 0 finish 1 r = OtherGroup Queued(99)
0 0 finish 1 r = Done
both 1 0 0 0 finish 1 r = PassFull Queued(99)
both 1 0 1 0 finish 1 r = OtherGroup Queued(99)
receipts = 3
marks = Marks { worn: false, no_group: false, stopped: false }
";

#[test]
fn a_pass_with_room_for_one_receipt_makes_neither_step(rt: HostRuntime) {
    let shared = service(&rt, props(&rt), props(&rt), 10);
    let mut passes = take_passes(&rt, &shared, &[(A, 3)]);
    let pass = passes.get_mut(0).expect(&rt, "a pass");
    play(&rt, &shared, pass, ONE_FREE);
    assert_end(&rt, shared, passes, "3 of 10, 0 of 10, running");
}
