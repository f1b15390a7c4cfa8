//! Passes that agree with a report, and the first difference of those that do not.

use crate::asserts::{assert_number, assert_text};
use bh_base::{GroupId, GroupProps, Op, Reply, Step};
use bh_journal::{AuditReport, Difference, Journal, Marks, PassRead, Receipt, first_difference};
use bh_scripts::samples::{command, props_of, step};
use bh_scripts::words::{number, split_line, split_word};
use std::alloc::{AllocError, Global};
use std::process::Abort;

/// A pass that no service made.
#[derive(Drop)]
struct Written {
    group: GroupId,
    receipts: Vec<Receipt>,
    marks: Marks,
}

impl PassRead for Written {
    ghost seen = { λ p. record { group = p.group; receipts = p.receipts.items; room = 0; marks = p.marks } };

    fn group(&self) -> GroupId {
        self.group
    }

    fn receipts(&self) -> &[Receipt] {
        self.receipts.as_slice()
    }

    fn marks(&self) -> Marks {
        self.marks
    }
}

/// A step of the group and its reply.
fn entry(group: u64, now: u64) -> (Step, Reply) {
    (step(group, now, &Op::Start), Reply::Idle)
}

/// The settings that are built in.
fn props<R: Abort + AllocGlobal>(rt: &R) -> GroupProps {
    props_of(vec![in rt.alloc(); command()].expect(rt, "memory"))
}

/// Two groups that may do 2 and 3 steps, and did 2 each, and a third one that did none and is retired.
fn report<R: Abort + AllocGlobal>(rt: &R, stopped: bool) -> AuditReport {
    let alloc = rt.alloc();
    let a = vec![in alloc; entry(0, 10), entry(0, 20)].expect(rt, "memory");
    let b = vec![in alloc; entry(1, 30), entry(1, 40)].expect(rt, "memory");
    let groups = vec![in alloc; (props(rt), 2), (props(rt), 3), (props(rt), 1)];
    let none = Vec::new(alloc);
    AuditReport {
        groups: groups.expect(rt, "memory"),
        journals: vec![in alloc; a, b, none].expect(rt, "memory"),
        retired: vec![in alloc; false, false, true].expect(rt, "memory"),
        stopped,
    }
}

fn receipt(group: u64, word: &str) -> Receipt {
    let (place, now) = word.split_once(':').unwrap_or((word, ""));
    let (step, reply) = entry(group, number(now));
    Receipt {
        place: number(place),
        step,
        reply,
    }
}

/// A pass of the group, whose receipts have these places and moments.
fn pass(alloc: Global, group: u64, words: &str) -> Result<Written, AllocError> {
    let mut receipts = Vec::new(alloc);
    for word in words.split_whitespace() {
        put(&mut receipts, &receipt(group, word))?;
    }
    Ok(Written {
        group: GroupId(group),
        receipts,
        marks: marks("none"),
    })
}

fn put<T: Copy>(list: &mut Vec<T>, item: &T) -> Result<(), AllocError> {
    list.push(*item)?;
    Ok(())
}

fn found_text(alloc: Global, found: &Option<Difference>) -> Result<String, AllocError> {
    match found {
        None => format!(in alloc; "none"),
        Some(Difference::PassMissing { group, place }) => {
            format!(in alloc; "missing {} {place}", group.0)
        }
        Some(Difference::Mismatch { group, place }) => {
            format!(in alloc; "mismatch {} {place}", group.0)
        }
    }
}

/// Says how the passes differ from the report.
fn difference<R: Abort + AllocGlobal>(
    rt: &R,
    passes: &[Written],
    stopped: bool,
) -> Result<String, AllocError> {
    let report = report(rt, stopped);
    let found = first_difference(rt.alloc(), &report, passes)?;
    found_text(rt.alloc(), &found)
}

/// Passes of these groups and receipts, one for each text between commas.
fn passes(alloc: Global, words: &str) -> Result<Vec<Written>, AllocError> {
    let mut passes = Vec::new(alloc);
    for one in words.split(", ") {
        let (group, receipts) = split_word(one);
        passes.push(pass(alloc, number(group), receipts)?)?;
    }
    Ok(passes)
}

/// Asserts for each line how its passes differ from the report.
fn assert_differences(rt: &(impl Abort + AllocGlobal), script: &str) {
    for line in script.lines() {
        let (words, want) = split_line(line);
        let passes = passes(rt.alloc(), words).expect(rt, "memory");
        let told = difference(rt, passes.as_slice(), false);
        assert_text(rt, told, want, line);
    }
}

// A pass of the second group, beside a good one of the first.
const OF_SECOND: &str = "0 1:10 2:20, 1 1:30 2:40 = none
0 1:10 2:20, 1 1:30 = missing 1 2
0 1:10 2:20, 1 2:40 = missing 1 1
0 1:10 2:20, 1 2:40 1:30 = mismatch 1 1
0 1:10 2:20, 1 1:30 1:30 2:40 = mismatch 1 1
0 1:10 2:20, 1 1:30 2:41 = mismatch 1 2
0 1:10 2:20, 1 1:31 = mismatch 1 1
0 1:10 2:20, 1 2:40 5:50 = missing 1 1
0 1:10 2:20, 1 1:30 2:40 5:50 = mismatch 1 5
0 1:10 2:20, 1 0:30 1:30 2:40 = mismatch 1 0
";

#[test]
fn receipts_are_held_to_the_journals(rt: HostRuntime) {
    assert_differences(&rt, OF_SECOND);
}

const SEVERAL: &str = "1 2:40, 0 1:10 2:20, 1 1:30 = none
1 2:40, 0 1:10 2:20, 1 1:30, 7 3:1, 5 4:1 2:1 = mismatch 5 2
1 2:40, 0 1:10 2:20, 1 1:30, 7 3:1, 5 4:1 2:1, 1 1:30 = mismatch 1 1
";

#[test]
fn receipts_of_one_group_may_be_in_several_passes(rt: HostRuntime) {
    assert_differences(&rt, SEVERAL);
}

/// The mark of this name alone.
fn marks(name: &str) -> Marks {
    Marks {
        worn: name == "worn",
        no_group: name == "no-group",
        stopped: name == "stopped",
    }
}

/// Compares passes of all entries, and a pass of the group that has the mark.
fn marked<R: Abort + AllocGlobal>(
    rt: &R,
    group: u64,
    name: &str,
    stopped: bool,
) -> Result<String, AllocError> {
    let mut passes = passes(rt.alloc(), "0 1:10 2:20, 1 1:30 2:40")?;
    let mut last = pass(rt.alloc(), group, "")?;
    last.marks = marks(name);
    passes.push(last)?;
    difference(rt, passes.as_slice(), stopped)
}

// The group of the pass that has the mark, the mark, and whether the service goes on or was stopped.
const MARKS: &str = "0 worn going = none
1 worn going = mismatch 1 3
9 worn going = mismatch 9 1
1 no-group going = mismatch 1 3
2 no-group going = none
2 worn going = mismatch 2 1
3 no-group going = none
0 stopped going = mismatch 0 3
0 stopped stopped = none
";

#[test]
fn marks_are_held_to_the_report(rt: HostRuntime) {
    for line in MARKS.lines() {
        let (words, want) = split_line(line);
        let (group, rest) = split_word(words);
        let (name, end) = split_word(rest);
        let told = marked(&rt, number(group), name, end == "stopped");
        assert_text(&rt, told, want, line);
    }
}

fn assert_kept<R: Abort>(rt: &R, journal: Journal) {
    assert_number(rt, journal.len(), 1);
    assert_number(rt, journal.room_left(), 1);
    assert!(rt; journal.get(0) == Some(entry(0, 10)));
    assert!(rt; journal.get(1).is_none());
    let entries = journal.into_entries();
    assert!(rt; entries.as_slice() == [entry(0, 10)].as_slice());
}

#[test]
fn a_journal_keeps_what_is_written(rt: HostRuntime) {
    let props = props(&rt);
    let mut journal = Journal::new(rt.alloc(), &props, 2).expect(&rt, "memory");
    assert!(&rt; (journal.props().slots, journal.limit()) == (props.slots, 2));
    let (step, reply) = entry(0, 10);
    journal.write(&step, &reply);
    assert_kept(&rt, journal);
}
