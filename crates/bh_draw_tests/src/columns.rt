//! The columns of runs, worked out by hand.

use crate::scripts::{FIRST, SECOND, SETTINGS};
use bh_base::{CircuitState, Text};
use bh_columns::chart::{Chart, Lane, Panel, make_chart};
use bh_columns::column::Column;
use bh_columns::kept::MOST_LANES;
use bh_columns::record::{Recording, record_script};
use bh_columns::selection::Selection;
use bh_lines::PortError;
use bh_props::{Settings, settings_in};
use bh_streams::WatchedReader;
use std::process::Abort;

const BOTH: &str = "a/a
 0: admitted 1, short-circuited 1, failures 1, fallbacks 1, errors 1, trips 1; closed 600, open 1400, half-open 0; closed from 0; first trip 600; busy 20, queued 10, most 1
 2000: ; closed 0, open 2000, half-open 0; open from 2000; busy 0, queued 0, most 0
 4000: admitted 1, values 1; closed 300, open 1600, half-open 100; open from 4000; last close 5700; busy 90, queued 10, most 1
 6000: ; closed 0, open 0, half-open 0; busy 0, queued 0, most 0
pool of a: 20 10 1, 0 0 0, 90 10 1, 0 0 0
life 0 to 6000
b/b
 0: admitted 1, timeouts 1, late 1, errors 1; closed 2000, open 0, half-open 0; closed from 0; busy 1200, queued 0, most 1
 2000: ; closed 70, open 0, half-open 0; closed from 2000; busy 0, queued 0, most 0
 4000: ; closed 0, open 0, half-open 0; busy 0, queued 0, most 0
 6000: ; closed 0, open 0, half-open 0; busy 0, queued 0, most 0
b/refund
 0: rejected 1, fallbacks 1; closed 2000, open 0, half-open 0; closed from 0; busy 0, queued 0, most 0
 2000: admitted 1, joined 1, bad 2; closed 70, open 0, half-open 0; closed from 2000; busy 48, queued 2, most 1
 4000: ; closed 0, open 0, half-open 0; busy 0, queued 0, most 0
 6000: ; closed 0, open 0, half-open 0; busy 0, queued 0, most 0
pool of b: 1200 0 1, 48 2 1, 0 0 0, 0 0 0
life 0 to 2070
lines 33, at fault 1, left out 0
";

const JOINED: &str = "a/a
 0: admitted 1, short-circuited 1, failures 1, fallbacks 1, errors 1, trips 1; closed 600, open 4400, half-open 0; closed from 0; first trip 600; busy 20, queued 10, most 1
 5000: admitted 1, values 1; closed 300, open 600, half-open 100; open from 5000; last close 5700; busy 90, queued 10, most 1
pool of a: 20 10 1, 90 10 1
life 0 to 6000
b/b
 0: ; closed 0, open 0, half-open 0; busy 0, queued 0, most 0
 5000: ; closed 0, open 0, half-open 0; busy 0, queued 0, most 0
b/refund
 0: ; closed 0, open 0, half-open 0; busy 0, queued 0, most 0
 5000: ; closed 0, open 0, half-open 0; busy 0, queued 0, most 0
pool of b: 0 0 0, 0 0 0
lines 15, at fault 0, left out 0
";

const PART: &str = "a/a
 0: failures 1, fallbacks 1; closed 180, open 0, half-open 0; closed from 20; busy 10, queued 0, most 1
 200: ; closed 200, open 0, half-open 0; closed from 200; busy 0, queued 0, most 0
 400: ; closed 200, open 0, half-open 0; closed from 400; busy 0, queued 0, most 0
 600: short-circuited 1, trips 1; closed 0, open 50, half-open 0; open from 600; first trip 600; busy 0, queued 0, most 0
pool of a: 10 0 1, 0 0 0, 0 0 0, 0 0 0
life 0 to 6000
lines 33, at fault 1, left out 0
";

/// A group comes, goes and comes again under its name.
const LIVES: &str = r#"{"op":"register","group":"c","like":"b"}
{"op":"submit","group":"c","command":"refund","now":0,"arg":"x"}
{"op":"start","group":"c","now":0}
{"op":"finish","group":"c","now":7,"ticket":1,"body":"y"}
{"op":"collect","group":"c","now":7,"ticket":1}
{"op":"retire","group":"c"}
{"op":"register","group":"c","like":"b"}
{"op":"submit","group":"c","command":"refund","now":0,"arg":"x"}
{"op":"expire","group":"c","now":1000}
"#;

const LIVES_DRAWN: &str = "c/c
 0: ; closed 507, open 0, half-open 0; closed from 0; busy 0, queued 0, most 0
 500: ; closed 500, open 0, half-open 0; closed from 500; busy 0, queued 0, most 0
 1000: ; closed 0, open 0, half-open 0; busy 0, queued 0, most 0
c/refund
 0: admitted 2, values 1; closed 507, open 0, half-open 0; closed from 0; busy 7, queued 500, most 1
 500: ; closed 500, open 0, half-open 0; closed from 500; busy 0, queued 500, most 1
 1000: timeouts 1; closed 0, open 0, half-open 0; busy 0, queued 0, most 0
pool of c: 7 500 1, 0 500 1, 0 0 0
life 0 to 7, retired
life 0 to 1000
lines 9, at fault 0, left out 0
";

/// The clock of the second group is behind that of the first.
const CLOCKS: &str = r#"{"op":"read","group":"a","now":1000}
{"op":"read","group":"a","now":1500}
{"op":"read","group":"b","now":300}
{"op":"read","group":"b","now":400}
"#;

const CLOCKS_DRAWN: &str = "a/a
 0: ; closed 0, open 0, half-open 0; busy 0, queued 0, most 0
 500: ; closed 0, open 0, half-open 0; busy 0, queued 0, most 0
 1000: ; closed 500, open 0, half-open 0; closed from 1000; busy 0, queued 0, most 0
 1500: ; closed 0, open 0, half-open 0; busy 0, queued 0, most 0
pool of a: 0 0 0, 0 0 0, 0 0 0, 0 0 0
life 1000 to 1500
b/b
 0: ; closed 100, open 0, half-open 0; closed from 300; busy 0, queued 0, most 0
 500: ; closed 0, open 0, half-open 0; busy 0, queued 0, most 0
 1000: ; closed 0, open 0, half-open 0; busy 0, queued 0, most 0
 1500: ; closed 0, open 0, half-open 0; busy 0, queued 0, most 0
b/refund
 0: ; closed 100, open 0, half-open 0; closed from 300; busy 0, queued 0, most 0
 500: ; closed 0, open 0, half-open 0; busy 0, queued 0, most 0
 1000: ; closed 0, open 0, half-open 0; busy 0, queued 0, most 0
 1500: ; closed 0, open 0, half-open 0; busy 0, queued 0, most 0
pool of b: 0 0 0, 0 0 0, 0 0 0, 0 0 0
life 300 to 400
lines 4, at fault 0, left out 0
";

/// Two runs at a time, of which one outlasts its moment, while a second waits within a moment.
const MOMENTS: &str = r#"{"op":"submit","group":"a","now":5,"arg":"x"}
{"op":"submit","group":"a","now":5,"arg":"x"}
{"op":"start","group":"a","now":5}
{"op":"start","group":"a","now":5}
{"op":"finish","group":"a","now":5,"ticket":1,"body":"y"}
{"op":"finish","group":"a","now":9,"ticket":2,"body":"y"}
{"op":"submit","group":"a","now":9,"arg":"x"}
{"op":"submit","group":"a","now":9,"arg":"x"}
"#;

const MOMENTS_DRAWN: &str = "a/a
 5: admitted 2; closed 1, open 0, half-open 0; closed from 5; busy 1, queued 0, most 1
 6: ; closed 1, open 0, half-open 0; closed from 6; busy 1, queued 0, most 1
 7: ; closed 1, open 0, half-open 0; closed from 7; busy 1, queued 0, most 1
 8: ; closed 1, open 0, half-open 0; closed from 8; busy 1, queued 0, most 1
 9: admitted 2; closed 0, open 0, half-open 0; busy 0, queued 0, most 0
pool of a: 1 0 1, 1 0 1, 1 0 1, 1 0 1, 0 0 0
life 5 to 9
lines 8, at fault 0, left out 0
";

/// What is told of a run: the text that grows.
#[derive(Drop)]
struct Told {
    text: String,
}

impl Told {
    /// Puts a text.
    fn put<R: Abort>(&mut self, rt: &R, text: &str) {
        self.text.push_str(text).expect(rt, "memory");
    }

    /// Puts a number.
    fn number<R: Abort + AllocGlobal>(&mut self, rt: &R, number: u64) {
        let text = format!(in rt.alloc(); "{number}").expect(rt, "memory");
        self.put(rt, text.as_str());
    }

    /// Puts a word and a number, where there is one.
    fn count<R: Abort + AllocGlobal>(&mut self, rt: &R, first: &mut bool, word: &str, number: u64) {
        if number == 0 {
            return;
        }
        if !*first {
            self.put(rt, ", ");
        }
        *first = false;
        self.put(rt, word);
        self.put(rt, " ");
        self.number(rt, number);
    }

    /// Puts a text and a number.
    fn pair<R: Abort + AllocGlobal>(&mut self, rt: &R, text: &str, number: u64) {
        self.put(rt, text);
        self.number(rt, number);
    }

    /// Puts what requests came to.
    fn counts<R: Abort + AllocGlobal>(&mut self, rt: &R, column: &Column) {
        let tally = &column.tally;
        let mut first = true;
        for (word, number) in [
            ("admitted", tally.admitted),
            ("joined", tally.joined),
            ("full", tally.group_full),
            ("worn", tally.worn),
            ("short-circuited", tally.short_circuited),
            ("rejected", tally.rejected),
            ("timeouts", tally.timeouts),
            ("failures", tally.failures),
            ("late", tally.late),
            ("values", tally.values),
            ("fallbacks", tally.fallback_values),
            ("errors", tally.errors),
            ("bad", tally.bad_requests),
            ("trips", tally.trips),
        ] {
            self.count(rt, &mut first, word, number);
        }
    }

    /// Puts a column.
    fn column<R: Abort + AllocGlobal>(&mut self, rt: &R, column: &Column) {
        self.counts(rt, column);
        self.pair(rt, "; closed ", column.closed_ms);
        self.pair(rt, ", open ", column.tally.open_ms);
        self.pair(rt, ", half-open ", column.tally.half_open_ms);
        if let Some(began) = column.began {
            let state = match began.circuit {
                CircuitState::Closed => "; closed from ",
                CircuitState::Open(_) => "; open from ",
                CircuitState::HalfOpen(_, _) => "; half-open from ",
            };
            self.pair(rt, state, began.moment);
        }
        if let Some(moment) = column.first_trip {
            self.pair(rt, "; first trip ", moment);
        }
        if let Some(moment) = column.last_close {
            self.pair(rt, "; last close ", moment);
        }
        self.pair(rt, "; busy ", column.usage.busy_ms);
        self.pair(rt, ", queued ", column.usage.queued_ms);
        self.pair(rt, ", most ", column.usage.most);
        self.put(rt, "\n");
    }

    /// Puts a lane.
    fn lane<R: Abort + AllocGlobal>(&mut self, rt: &R, chart: &Chart, panel: &Panel, lane: &Lane) {
        self.put(rt, panel.group.as_str());
        self.put(rt, "/");
        self.put(rt, lane.command.as_str());
        self.put(rt, "\n");
        let mut moment = chart.begin;
        for column in lane.columns.iter() {
            self.pair(rt, " ", moment);
            self.put(rt, ": ");
            self.column(rt, column);
            moment = moment.saturating_add(chart.width);
        }
    }

    /// Puts the usages of a pool.
    fn pool<R: Abort + AllocGlobal>(&mut self, rt: &R, panel: &Panel) {
        if panel.pool.is_empty() {
            return;
        }
        self.put(rt, "pool of ");
        self.put(rt, panel.group.as_str());
        let mut before = ": ";
        for usage in panel.pool.iter() {
            self.pair(rt, before, usage.busy_ms);
            self.pair(rt, " ", usage.queued_ms);
            self.pair(rt, " ", usage.most);
            before = ", ";
        }
        self.put(rt, "\n");
    }

    /// Puts a panel.
    fn panel<R: Abort + AllocGlobal>(&mut self, rt: &R, chart: &Chart, panel: &Panel) {
        for lane in panel.lanes.iter() {
            self.lane(rt, chart, panel, lane);
        }
        self.pool(rt, panel);
        for life in panel.lives.iter() {
            self.pair(rt, "life ", life.begin);
            self.pair(rt, " to ", life.end);
            self.put(rt, if life.retired { ", retired\n" } else { "\n" });
        }
    }

    /// Puts a chart.
    fn chart<R: Abort + AllocGlobal>(&mut self, rt: &R, chart: &Chart) {
        for panel in chart.panels.iter() {
            self.panel(rt, chart, panel);
        }
        self.pair(rt, "lines ", chart.lines);
        self.pair(rt, ", at fault ", chart.faults);
        self.pair(rt, ", left out ", chart.left_out);
        self.put(rt, "\n");
    }
}

/// The settings of the text.
fn settings_of<R: Abort + AllocGlobal>(rt: &R, text: &str) -> Settings {
    match settings_in(rt.alloc(), text.as_bytes()) {
        Ok(settings) => settings,
        Err(_) => rt.panic("the settings are refused"),
    }
}

/// What is kept of the lines under the settings, as far as it is selected.
fn recorded<R: Abort + AllocGlobal>(
    rt: &R,
    settings: &Settings,
    selection: Selection,
    lines: &str,
) -> Recording {
    let mut recording = match Recording::new(rt.alloc(), settings, selection) {
        Ok(recording) => recording,
        Err(_) => rt.panic("memory"),
    };
    let ended = take(rt, settings, &mut recording, lines);
    assert!(rt; ended.is_ok());
    recording
}

/// Takes the lines.
fn take<R: Abort + AllocGlobal>(
    rt: &R,
    settings: &Settings,
    recording: &mut Recording,
    lines: &str,
) -> Result<(), PortError> {
    let mut bytes = lines.as_bytes();
    let mut reader = WatchedReader::new(&mut bytes);
    record_script(rt.alloc(), &mut reader, settings, recording)
}

/// The text of the chart.
fn told_of<R: Abort + AllocGlobal>(rt: &R, drawn: &Chart) -> String {
    let mut told = Told {
        text: String::new(rt.alloc()),
    };
    told.chart(rt, drawn);
    told.text
}

/// Only the group of the name.
fn only<R: Abort + AllocGlobal>(rt: &R, name: &str) -> Selection {
    let mut selection = Selection::all(rt.alloc());
    let name = Text::new(name).expect(rt, "a name");
    selection.groups.push(name).expect(rt, "memory");
    selection
}

/// Asserts what is drawn of the lines in at most so many columns.
fn assert_drawn<R: Abort + AllocGlobal>(
    rt: &R,
    settings: &str,
    selection: Selection,
    lines: &str,
    columns: u64,
    want: &str,
) {
    let settings = settings_of(rt, settings);
    let recording = recorded(rt, &settings, selection, lines);
    let drawn = make_chart(rt.alloc(), &settings, &recording, columns).expect(rt, "memory");
    assert_eq!(rt; told_of(rt, &drawn).as_str(), want);
}

/// The lines of both groups, one behind the other.
fn both<R: Abort + AllocGlobal>(rt: &R) -> String {
    let mut lines = String::new(rt.alloc());
    lines.push_str(FIRST).expect(rt, "memory");
    lines.push_str(SECOND).expect(rt, "memory");
    lines
}

#[test]
fn columns_have_what_the_machines_did_in_their_moments(rt: HostRuntime) {
    let lines = both(&rt);
    assert_drawn(
        &rt,
        SETTINGS,
        Selection::all(rt.alloc()),
        lines.as_str(),
        4,
        BOTH,
    );
}

#[test]
fn columns_are_joined_ten_by_ten_where_there_would_be_too_many(rt: HostRuntime) {
    let mut selection = Selection::all(rt.alloc());
    selection.columns = 2;
    assert_drawn(&rt, SETTINGS, selection, FIRST, 2, JOINED);
}

#[test]
fn only_the_moments_and_groups_that_are_selected_are_kept(rt: HostRuntime) {
    let lines = both(&rt);
    let mut selection = only(&rt, "a");
    selection.from = 20;
    selection.to = 650;
    assert_drawn(&rt, SETTINGS, selection, lines.as_str(), 4, PART);
}

#[test]
fn the_lives_of_a_name_share_their_lanes(rt: HostRuntime) {
    assert_drawn(&rt, SETTINGS, only(&rt, "c"), LIVES, 4, LIVES_DRAWN);
}

#[test]
fn each_group_is_drawn_by_its_own_clock(rt: HostRuntime) {
    let selection = Selection::all(rt.alloc());
    assert_drawn(&rt, SETTINGS, selection, CLOCKS, 4, CLOCKS_DRAWN);
}

#[test]
fn what_ends_within_its_moment_is_not_the_most_at_once(rt: HostRuntime) {
    assert_drawn(&rt, SETTINGS, only(&rt, "a"), MOMENTS, 80, MOMENTS_DRAWN);
}

#[test]
fn a_line_that_ends_the_run_leaves_what_came_before(rt: HostRuntime) {
    let settings = settings_of(&rt, SETTINGS);
    let mut recording = recorded(&rt, &settings, only(&rt, "a"), MOMENTS);
    let long = "x".repeat(rt.alloc(), 1_025).expect(&rt, "memory");
    let mut lines = String::new(rt.alloc());
    lines.push_str(long.as_str()).expect(&rt, "memory");
    lines
        .push_str("\n{\"op\":\"read\",\"group\":\"a\",\"now\":80}\n")
        .expect(&rt, "memory");
    let ended = take(&rt, &settings, &mut recording, lines.as_str());
    assert_eq!(&rt; ended, Err(PortError::Line));
    let drawn = make_chart(rt.alloc(), &settings, &recording, 80).expect(&rt, "memory");
    assert_eq!(&rt; told_of(&rt, &drawn).as_str(), MOMENTS_DRAWN);
}

/// Settings of so many groups with 16 commands each.
fn wide_settings<R: Abort + AllocGlobal>(rt: &R, groups: usize) -> String {
    let mut text = String::new(rt.alloc());
    text.push_str("[service]\ngroups = [").expect(rt, "memory");
    for group in 0..groups {
        let name = format!(in rt.alloc(); "\"g{group}\", ").expect(rt, "memory");
        text.push_str(name.as_str()).expect(rt, "memory");
    }
    text.push_str("]\n").expect(rt, "memory");
    for group in 0..groups {
        for command in 1..16 {
            let line = format!(in rt.alloc(); "command.g{group}c{command}.group = \"g{group}\"\n");
            text.push_str(line.expect(rt, "memory").as_str())
                .expect(rt, "memory");
        }
    }
    text
}

#[test]
fn a_thousand_lanes_are_kept_and_the_rest_is_told(rt: HostRuntime) {
    let settings = settings_of(&rt, wide_settings(&rt, 64).as_str());
    let lines =
        "{\"op\":\"read\",\"group\":\"g63\",\"now\":80}\n{\"op\":\"read\",\"group\":\"g61\",\"now\":80}\n";
    let recording = recorded(&rt, &settings, Selection::all(rt.alloc()), lines);
    let drawn = make_chart(rt.alloc(), &settings, &recording, 80).expect(&rt, "memory");
    assert_eq!(&rt; drawn.panels.len(), MOST_LANES / 16);
    assert_eq!(&rt; drawn.left_out, 2);
    assert_eq!(&rt; (drawn.begin, drawn.width, drawn.count), (80, 1, 1));
}
