//! Pictures of charts that are made by hand.

use crate::samples::{assert_well_formed, chart, count_of, lane, panel};
use bh_columns::chart::{Chart, Lane, Panel};
use bh_draw::canvas::Canvas;
use bh_draw::head::Course;
use bh_draw::picture::draw_chart;
use bh_draw::time::Clock;
use bh_props::Settings;
use std::process::Abort;

/// Settings of one group.
fn settings<R: Abort + AllocGlobal>(rt: &R) -> Settings {
    bh_props::read(rt.alloc(), "service.groups = [\"payment\"]").expect(rt, "settings")
}

/// A chart of so many groups of one command, of which each has a value more than the one before.
fn chart_of<R: Abort + AllocGlobal>(rt: &R, groups: u64) -> Chart {
    let mut panels = Vec::new(rt.alloc());
    for number in 0..groups {
        let group = format!(in rt.alloc(); "g-{number}").expect(rt, "memory");
        let mut lanes = Vec::new(rt.alloc());
        let mut made = lane(rt, group.as_str(), 8, 5);
        made.total.tally.values = number;
        lanes.push(made).expect(rt, "memory");
        panels
            .push(panel(rt, group.as_str(), 8, lanes))
            .expect(rt, "memory");
    }
    chart(8, panels)
}

/// The picture of the chart.
fn drawn<R: Abort + AllocGlobal>(rt: &R, made: &Chart) -> Canvas {
    let course = Course {
        from: 0,
        to: u64::MAX,
        ended: None,
    };
    let drawn = draw_chart(rt.alloc(), &settings(rt), made, course).expect(rt, "memory");
    assert_well_formed(rt, drawn.as_str());
    drawn
}

/// Asserts that each of the texts stands in the picture.
fn assert_said<R: Abort>(rt: &R, picture: &Canvas, texts: &[&str]) {
    for text in texts {
        assert!(rt; picture.as_str().contains(*text), "{text}");
    }
}

/// How often the part stands in the picture of the chart.
fn drawn_parts<R: Abort + AllocGlobal>(rt: &R, made: Chart, part: &str) -> usize {
    let picture = drawn(rt, &made);
    count_of(picture.as_str(), part)
}

#[test]
fn twenty_commands_are_all_drawn(rt: HostRuntime) {
    let made = chart_of(&rt, 20);
    let panels = drawn_parts(&rt, made, "<rect class=\"panel\"");
    assert_eq!(rt; panels, 20);
}

/// What is said of 35 commands in as many groups, and of two groups that are left out.
const BOUNDS: [&str; 5] = [
    "<tspan class=\"l\">g-0<",
    "Drawn are the 20 of 35 commands",
    "Of 2 groups more nothing is kept, since 1,000 commands are.",
    "Never open: g-0 (40 of 40 without a value), g-1 ",
    ", and 32 more<",
];

#[test]
fn of_more_commands_twenty_are_drawn_and_both_bounds_said(rt: HostRuntime) {
    let mut made = chart_of(&rt, 35);
    made.left_out = 2;
    let picture = drawn(&rt, &made);
    assert_said(&rt, &picture, &BOUNDS);
    let panels = count_of(picture.as_str(), "<rect class=\"panel\"");
    assert_eq!(rt; panels, 20);
    let others = count_of(picture.as_str(), "<tspan class=\"l\">g-20<");
    assert_eq!(rt; others, 0);
}

/// Makes moments and counts of the panel as great as they can be.
fn make_great(panel: &mut Panel) {
    for lane in panel.lanes.iter_mut() {
        lane.total.tally.values = u64::MAX;
        lane.total.tally.trips = u64::MAX;
        lane.total.first_trip = Some(u64::MAX);
        make_lane_great(lane);
    }
    for usage in panel.pool.iter_mut() {
        usage.busy_ms = u64::MAX;
        usage.queued_ms = u64::MAX;
        usage.most = u64::MAX;
    }
}

/// The same of the columns of a lane.
fn make_lane_great(lane: &mut Lane) {
    for column in lane.columns.iter_mut() {
        column.tally.values = u64::MAX;
        column.tally.timeouts = u64::MAX;
        column.tally.open_ms = u64::MAX;
        column.first_trip = Some(u64::MAX);
    }
}

#[test]
fn moments_and_counts_may_be_as_great_as_they_can(rt: HostRuntime) {
    let mut made = chart_of(&rt, 1);
    made.begin = u64::MAX - 10;
    made.width = 1 << 62;
    made.lines = u64::MAX;
    for panel in made.panels.iter_mut() {
        make_great(panel);
    }
    let picture = drawn(&rt, &made);
    assert_said(&rt, &picture, &["18,446,744,073,709,551,615 lines"]);
}

/// A chart of the group of the settings, with one life.
fn listed<R: Abort + AllocGlobal>(rt: &R, retired: bool) -> Chart {
    let mut lanes = Vec::new(rt.alloc());
    lanes.push(lane(rt, "payment", 8, 5)).expect(rt, "memory");
    let mut made = panel(rt, "payment", 8, lanes);
    for life in made.lives.iter_mut() {
        life.retired = retired;
    }
    let mut panels = Vec::new(rt.alloc());
    panels.push(made).expect(rt, "memory");
    chart(8, panels)
}

/// What the path of marks of lives begins with.
const LIFE: &str = "<path class=\"life\"";

#[test]
fn the_one_life_of_a_listed_group_is_not_marked(rt: HostRuntime) {
    let made = listed(&rt, false);
    let marks = drawn_parts(&rt, made, LIFE);
    assert_eq!(rt; marks, 0);
}

#[test]
fn the_life_of_a_retired_group_is_marked(rt: HostRuntime) {
    let made = listed(&rt, true);
    let marks = drawn_parts(&rt, made, LIFE);
    assert_eq!(rt; marks, 3, "two of them in the legend");
}

#[test]
fn the_lives_of_groups_that_lines_registered_are_marked(rt: HostRuntime) {
    let made = chart_of(&rt, 2);
    let marks = drawn_parts(&rt, made, LIFE);
    assert_eq!(rt; marks, 4, "two of them in the legend");
}

/// Makes the third column of the lane one in which the circuit breaker opens in the middle and is half-open at the end.
fn open_in_the_middle(lane: &mut Lane) {
    if let Some(column) = lane.columns.get_mut(2) {
        column.closed_ms = 500;
        column.tally.open_ms = 499;
        column.tally.half_open_ms = 1;
        column.first_trip = Some(2500);
    }
}

/// The same of each lane of the panel.
fn open_all(panel: &mut Panel) {
    for lane in panel.lanes.iter_mut() {
        open_in_the_middle(lane);
    }
}

/// What is drawn of that: closed up to 2.5 s, a pixel aside, and from 3 s on; open from 2.5 s on; half-open for a pixel, since
/// less would not be seen; and a triangle at 2.5 s.
const BAND: [&str; 4] = [
    "<path class=\"closed\" stroke-width=\"4\" d=\"M40 206h291.6M391 206h585\"/>",
    "<path class=\"open\" stroke-width=\"14\" d=\"M331.6 206h58.4\"/>",
    "<path class=\"half\" stroke-width=\"14\" d=\"M390 206h1\"/>",
    "d=\"M328.5 190h8l-4 6z\"",
];

#[test]
fn the_band_shows_the_shares_of_states_and_the_moment_of_a_trip(rt: HostRuntime) {
    let mut made = listed(&rt, false);
    for panel in made.panels.iter_mut() {
        open_all(panel);
    }
    let picture = drawn(&rt, &made);
    assert_said(&rt, &picture, &BAND);
}

#[test]
fn what_xml_reads_as_its_own_is_written_out(rt: HostRuntime) {
    let mut canvas = Canvas::new(rt.alloc());
    canvas
        .put_escaped("a < b & \"c\" > d\u{1}é")
        .expect(&rt, "memory");
    let written = "a &lt; b &amp; &quot;c&quot; &gt; d\u{fffd}é";
    assert_eq!(rt; canvas.as_str(), written);
}

/// Numbers, and how they are grouped.
const GROUPED: [(u64, &str); 6] = [
    (0, "0"),
    (999, "999"),
    (1000, "1,000"),
    (12_034, "12,034"),
    (1_000_000, "1,000,000"),
    (u64::MAX, "18,446,744,073,709,551,615"),
];

#[test]
fn numbers_are_written_with_commas(rt: HostRuntime) {
    for (number, written) in GROUPED {
        let mut canvas = Canvas::new(rt.alloc());
        canvas.put_grouped(number).expect(&rt, "memory");
        assert_eq!(rt; canvas.as_str(), written);
    }
}

#[test]
fn moments_are_written_to_be_read(rt: HostRuntime) {
    for (clock, moment, written) in MOMENTS {
        let mut canvas = Canvas::new(rt.alloc());
        clock.put(&mut canvas, moment).expect(&rt, "memory");
        assert_eq!(rt; canvas.as_str(), written);
    }
}

/// Moments, and how they are written.
const MOMENTS: [(Clock, u64, &str); 8] = [
    (Clock::Milliseconds, 7, "7 ms"),
    (Clock::Seconds(100), 20_593, "20.6 s"),
    (Clock::Seconds(100), 20_000, "20 s"),
    (Clock::Seconds(10), 1_250, "1.25 s"),
    (Clock::Seconds(1), 1_007, "1.007 s"),
    (Clock::Seconds(1), 1_070, "1.07 s"),
    (Clock::Seconds(100), 1_732_680_020_550, "1,732,680,020.6 s"),
    (Clock::Seconds(100), 49, "0 s"),
];
