//! Pictures of scripts, with their counts worked out by hand.

use crate::samples::{assert_well_formed, count_of};
use crate::scripts::{FIRST, SECOND, SETTINGS};
use bh_commands::{Drawing, SummaryForm, draw_file, summary_file};
use std::process::Abort;

/// All groups at all moments.
pub(crate) fn all(columns: u64) -> Drawing<'static> {
    Drawing {
        groups: &[],
        from: 0,
        to: u64::MAX,
        columns,
    }
}

/// What a drawing came to.
#[derive(Drop)]
pub(crate) struct Drawn {
    pub(crate) status: u8,
    pub(crate) text: String,
    pub(crate) errors: String,
}

/// The bytes as a text.
pub(crate) fn text_of<R: Abort + AllocGlobal>(rt: &R, bytes: &Vec<u8>) -> String {
    String::from_utf8_lossy(rt.alloc(), bytes.as_slice()).expect(rt, "memory")
}

/// Draws the lines under the settings.
pub(crate) fn draw<R: Abort + AllocGlobal>(
    rt: &R,
    settings: &str,
    lines: &str,
    drawing: Drawing<'_>,
) -> Drawn {
    let mut written = Vec::new(rt.alloc());
    let mut reported = Vec::new(rt.alloc());
    let status = draw_file(
        rt.alloc(),
        settings.as_bytes(),
        drawing,
        &mut lines.as_bytes(),
        &mut written,
        &mut reported,
    );
    Drawn {
        status,
        text: text_of(rt, &written),
        errors: text_of(rt, &reported),
    }
}

/// The lines of both groups.
fn both<R: Abort + AllocGlobal>(rt: &R) -> String {
    let mut lines = String::new(rt.alloc());
    lines.push_str(FIRST).expect(rt, "memory");
    lines.push_str(SECOND).expect(rt, "memory");
    lines
}

/// The titles of the picture, that of the whole aside, a line each.
pub(crate) fn titles<R: Abort + AllocGlobal>(rt: &R, text: &str) -> String {
    let mut titles = String::new(rt.alloc());
    for piece in text.split("\"><title>").skip(2) {
        let Some((title, _rest)) = piece.split_once("</title>") else {
            panic!(rt; "a title does not end");
        };
        titles.push_str(title).expect(rt, "memory");
        titles.push_str("\n").expect(rt, "memory");
    }
    titles
}

const TITLES: &str =
    "a, 0 s: asked 2, fallback's value 1, error 1, short-circuited 1, failure 1, trips 1, open 1,400 ms
a, 2 s: asked 0, open 2,000 ms
a, 4 s: asked 1, value 1, open 1,600 ms, half-open 100 ms
pool of a, 0 s: busy 0.01, queued 0.005, most at once 1
pool of a, 4 s: busy 0.045, queued 0.005, most at once 1
b, 0 s: asked 1, error 1, timeout 1, late end 1
b/refund, 0 s: asked 1, fallback's value 1, rejected 1
b/refund, 2 s: asked 2, bad request \
2, joined 1
pool of b and refund, 0 s: busy 0.6, most at once 1
pool of b and refund, 2 s: busy 0.024, queued 0.001, most at once 1
";

#[test]
fn each_column_has_its_counts_in_its_title(rt: HostRuntime) {
    let lines = both(&rt);
    let drawn = draw(&rt, SETTINGS, lines.as_str(), all(4));
    assert_eq!(rt; drawn.errors.as_str(), "");
    assert_eq!(rt; drawn.status, 0);
    assert_well_formed(&rt, drawn.text.as_str());
    let titles = titles(&rt, drawn.text.as_str());
    assert_eq!(rt; titles.as_str(), TITLES);
}

/// Settings of a group whose circuit breaker opens at a single failure, for 50 ms.
const SHORT_SLEEP: &str = "service.groups = [\"a\"]
hystrix.command.a.circuitBreaker.requestVolumeThreshold = 1
hystrix.command.a.circuitBreaker.sleepWindowInMilliseconds = 50
";

/// Its circuit breaker opens at 1,000 ms, closes at 1,120 ms, and opens again at 1,800 ms.
const OPEN_AGAIN: &str = r#"{"op":"submit","group":"a","now":0,"arg":"x"}
{"op":"start","group":"a","now":10}
{"op":"fail","group":"a","now":30,"ticket":1,"bad":false}
{"op":"submit","group":"a","now":1000,"arg":"x"}
{"op":"submit","group":"a","now":1100,"arg":"x"}
{"op":"start","group":"a","now":1110}
{"op":"finish","group":"a","now":1120,"ticket":3,"body":"z"}
{"op":"submit","group":"a","now":1200,"arg":"x"}
{"op":"start","group":"a","now":1210}
{"op":"fail","group":"a","now":1230,"ticket":4,"bad":false}
{"op":"submit","group":"a","now":1800,"arg":"x"}
"#;

#[test]
fn a_trip_behind_a_closing_in_the_last_column_is_open_to_the_end(rt: HostRuntime) {
    let drawn = draw(&rt, SHORT_SLEEP, OPEN_AGAIN, all(2));
    assert_eq!(rt; drawn.errors.as_str(), "");
    assert_well_formed(&rt, drawn.text.as_str());
    let said = "tripped 2 times, open 1 s to the end:";
    assert!(rt; drawn.text.as_str().contains(said));
}

const PART: &str = "a, 0 ms: asked 0, fallback's value 1, failure 1
a, 600 ms: asked 1, short-circuited 1, trips 1, open 50 ms
pool of a, 0 ms: busy 0.05, most at once 1
";

#[test]
fn only_the_groups_and_moments_that_are_asked_for_are_drawn(rt: HostRuntime) {
    let lines = both(&rt);
    let part = Drawing {
        groups: &["a"],
        from: 20,
        to: 650,
        columns: 4,
    };
    let drawn = draw(&rt, SETTINGS, lines.as_str(), part);
    assert_eq!(rt; drawn.status, 0);
    assert_well_formed(&rt, drawn.text.as_str());
    let titles = titles(&rt, drawn.text.as_str());
    assert_eq!(rt; titles.as_str(), PART);
    assert!(rt;
        drawn
            .text
            .as_str()
            .contains("<title>a: 20 ms to 650 ms</title>")
    );
}

/// Asserts that a drawing that names a group which never was is refused.
fn assert_missing<R: Abort + AllocGlobal>(rt: &R, missing: &str, told: &str) {
    let lines = both(rt);
    let named = Drawing {
        groups: &["b", missing],
        ..all(80)
    };
    let drawn = draw(rt, SETTINGS, lines.as_str(), named);
    assert_eq!(rt; drawn.errors.as_str(), told);
    assert_eq!(rt; drawn.text.as_str(), "");
    assert_eq!(rt; drawn.status, 3);
}

#[test]
fn a_group_that_never_was_is_a_fault(rt: HostRuntime) {
    assert_missing(&rt, "c", "fault: group c\n");
    assert_missing(
        &rt,
        "a-name-of-more-than-thirty-two-letters",
        "fault: group a-name-of-more-than-thirty-two-letters\n",
    );
}

#[test]
fn what_came_before_a_fault_is_drawn_and_the_head_says_so(rt: HostRuntime) {
    let mut lines = both(&rt);
    for _ in 0..1025 {
        lines.push_str("x").expect(&rt, "memory");
    }
    let drawn = draw(&rt, SETTINGS, lines.as_str(), all(4));
    assert_eq!(rt; drawn.status, 3);
    assert_eq!(rt; drawn.errors.as_str(), "fault: line\n");
    assert_well_formed(&rt, drawn.text.as_str());
    let titles = titles(&rt, drawn.text.as_str());
    assert_eq!(rt; titles.as_str(), TITLES);
    let said = "A fault ended the run behind line 33: the next one is too long or not UTF-8";
    assert!(rt; drawn.text.as_str().contains(said));
}

#[test]
fn settings_that_are_refused_are_told_and_nothing_is_drawn(rt: HostRuntime) {
    let drawn = draw(&rt, "service.groups = []", FIRST, all(80));
    assert_eq!(rt; drawn.status, 1);
    assert_eq!(rt; drawn.errors.as_str(), "settings refused: 2 no groups\n");
    assert_eq!(rt; drawn.text.as_str(), "");
}

/// Asserts that lines without a step are drawn without columns.
fn assert_nothing<R: Abort + AllocGlobal>(rt: &R, lines: &str) {
    let drawn = draw(rt, SETTINGS, lines, all(80));
    assert_eq!(rt; drawn.status, 0);
    assert_well_formed(rt, drawn.text.as_str());
    let said = "No step of these groups and moments is there to be drawn";
    assert!(rt; drawn.text.as_str().contains(said));
    let titles = count_of(drawn.text.as_str(), "<title>");
    assert_eq!(rt; titles, 1);
}

#[test]
fn a_run_without_a_step_is_drawn_without_columns(rt: HostRuntime) {
    assert_nothing(&rt, "");
    assert_nothing(&rt, "no line\n");
}

/// Which word of a title has the counts of which member of a summary's object.
const WORDS: [(&str, &str); 14] = [
    ("asked", "requests"),
    ("value", "values"),
    ("fallback's value", "fallback_values"),
    ("error", "errors"),
    ("bad request", "bad_requests"),
    ("joined", "joined"),
    ("group full", "group_full"),
    ("short-circuited", "short_circuited"),
    ("rejected", "rejected"),
    ("timeout", "timeouts"),
    ("failure", "failures"),
    ("late end", "late"),
    ("open", "open_ms"),
    ("half-open", "half_open_ms"),
];

/// The number behind the mark, its commas left out; 0 where the mark does not stand there.
fn number_behind(text: &str, mark: &str) -> u64 {
    let Some((_before, behind)) = text.split_once(mark) else {
        return 0;
    };
    let mut number = 0u64;
    for letter in behind.chars() {
        match letter.to_digit(10) {
            Some(digit) => number = number.saturating_mul(10).saturating_add(u64::from(digit)),
            None if letter == ',' && number > 0 => {}
            None => return number,
        }
    }
    number
}

/// The sum of the counts of the word in the titles of the lane.
fn sum_of<R: Abort + AllocGlobal>(rt: &R, titles: &str, lane: &str, word: &str) -> u64 {
    let begin = format!(in rt.alloc(); "{lane}, ").expect(rt, "memory");
    let first = format!(in rt.alloc(); ": {word} ").expect(rt, "memory");
    let later = format!(in rt.alloc(); ", {word} ").expect(rt, "memory");
    let mut sum = 0u64;
    for title in titles.lines() {
        if title.starts_with(begin.as_str()) {
            sum = sum
                .saturating_add(number_behind(title, first.as_str()))
                .saturating_add(number_behind(title, later.as_str()));
        }
    }
    sum
}

/// The objects of the summary of the lines under the settings.
pub(crate) fn summary<R: Abort + AllocGlobal>(rt: &R, settings: &str, lines: &str) -> String {
    let mut objects = Vec::new(rt.alloc());
    let mut reported = Vec::new(rt.alloc());
    let status = summary_file(
        rt.alloc(),
        settings.as_bytes(),
        SummaryForm::Objects,
        &mut lines.as_bytes(),
        &mut objects,
        &mut reported,
    );
    assert_eq!(rt; status, 0);
    text_of(rt, &objects)
}

/// Asserts that the counts in the titles of the lane add up to those of its object.
fn assert_sums<R: Abort + AllocGlobal>(rt: &R, titles: &str, lane: &str, object: &str) {
    for (word, member) in WORDS {
        let mark = format!(in rt.alloc(); "\"{member}\":").expect(rt, "memory");
        let told = number_behind(object, mark.as_str());
        let sum = sum_of(rt, titles, lane, word);
        assert_eq!(rt; sum, told, "{word} of {lane}");
    }
}

/// The same of all lanes in so many columns.
fn assert_all_sums<R: Abort + AllocGlobal>(rt: &R, summary: &str, columns: u64) {
    let lines = both(rt);
    let drawn = draw(rt, SETTINGS, lines.as_str(), all(columns));
    let titles = titles(rt, drawn.text.as_str());
    for (lane, object) in ["a", "b", "b/refund"].iter().zip(summary.lines()) {
        assert_sums(rt, titles.as_str(), lane, object);
    }
}

#[test]
fn the_counts_of_all_columns_add_up_to_the_summary(rt: HostRuntime) {
    let lines = both(&rt);
    let summary = summary(&rt, SETTINGS, lines.as_str());
    for columns in [2, 3, 7, 80, 200] {
        assert_all_sums(&rt, summary.as_str(), columns);
    }
}

/// Settings of twenty groups.
fn wide_settings<R: Abort + AllocGlobal>(rt: &R) -> String {
    let mut settings = String::new(rt.alloc());
    settings
        .push_str("service.groups = [\"g-0\"")
        .expect(rt, "memory");
    for number in 1..20 {
        let name = format!(in rt.alloc(); ", \"g-{number}\"").expect(rt, "memory");
        settings.push_str(name.as_str()).expect(rt, "memory");
    }
    settings.push_str("]\n").expect(rt, "memory");
    settings
}

/// Adds the line of a step of the group, with more members behind its moment.
fn add_line<R: Abort + AllocGlobal>(rt: &R, lines: &mut String, group: u64, now: u64, more: &str) {
    let line = format!(in rt.alloc(); "{{\"group\":\"g-{group}\",\"now\":{now},{more}}}\n");
    let line = line.expect(rt, "memory");
    lines.push_str(line.as_str()).expect(rt, "memory");
}

/// Adds the line of a step on the ticket.
fn add_end<R: Abort + AllocGlobal>(
    rt: &R,
    lines: &mut String,
    group: u64,
    now: u64,
    ticket: u64,
    more: &str,
) {
    let members = format!(in rt.alloc(); "\"ticket\":{ticket},{more}").expect(rt, "memory");
    add_line(rt, lines, group, now, members.as_str());
}

/// Lines by which each of the twenty groups has, in each of a hundred columns, a value and a failure.
fn wide_lines<R: Abort + AllocGlobal>(rt: &R) -> String {
    let mut lines = String::new(rt.alloc());
    for column in 0u64..100 {
        for group in 0u64..20 {
            let now = column.saturating_mul(10);
            let ticket = column.saturating_mul(2).saturating_add(1);
            add_requests(rt, &mut lines, group, now);
            add_ends(rt, &mut lines, group, now, ticket);
        }
    }
    lines
}

/// Adds two requests, whose runs begin.
fn add_requests<R: Abort + AllocGlobal>(rt: &R, lines: &mut String, group: u64, now: u64) {
    add_line(rt, lines, group, now, "\"op\":\"submit\",\"arg\":\"x\"");
    add_line(rt, lines, group, now, "\"op\":\"submit\",\"arg\":\"x\"");
    add_line(rt, lines, group, now, "\"op\":\"start\"");
    add_line(rt, lines, group, now, "\"op\":\"start\"");
}

/// Adds their ends: the ticket and the next one are answered by a value and by an error.
fn add_ends<R: Abort + AllocGlobal>(rt: &R, lines: &mut String, group: u64, now: u64, ticket: u64) {
    let next = ticket.saturating_add(1);
    add_end(
        rt,
        lines,
        group,
        now,
        ticket,
        "\"op\":\"finish\",\"body\":\"y\"",
    );
    add_end(rt, lines, group, now, next, "\"op\":\"fail\",\"bad\":false");
    add_end(rt, lines, group, now, ticket, "\"op\":\"collect\"");
    add_end(rt, lines, group, now, next, "\"op\":\"collect\"");
    add_end(
        rt,
        lines,
        group,
        now,
        next,
        "\"op\":\"fallback\",\"end\":\"missing\"",
    );
    add_end(rt, lines, group, now, next, "\"op\":\"collect\"");
}

#[test]
fn a_picture_has_at_most_300_000_bytes(rt: HostRuntime) {
    let settings = wide_settings(&rt);
    let lines = wide_lines(&rt);
    let drawn = draw(&rt, settings.as_str(), lines.as_str(), all(200));
    assert_eq!(rt; drawn.status, 0);
    assert_well_formed(&rt, drawn.text.as_str());
    assert!(rt; drawn.text.len() <= 300_000, "too long");
    assert!(rt; drawn.text.len() > 100_000, "too few columns");
    let panels = count_of(drawn.text.as_str(), "<rect class=\"panel\"");
    assert_eq!(rt; panels, 20);
}
