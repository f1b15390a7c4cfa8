//! The head of a picture: what tripped, when, and what its callers got; then what never opened, the worst first.

use crate::axis::Axis;
use crate::canvas::{Canvas, PIXEL};
use crate::flow::{Flow, LINE_WIDTH, width_of};
use crate::order::{MOST_DRAWN, Ranked, lane_of, without_value};
use crate::time::put_span;
use crate::words::{put_got, put_name};
use bh_columns::chart::{Chart, Lane, Panel};
use bh_columns::column::Column;
use bh_columns::kept::MOST_LANES;
use bh_lines::PortError;
use bh_look::tally::Tally;
use std::alloc::{AllocError, Global};

/// Letters of the title, of sentences, and of bold ones are so wide.
const TITLE_LETTER: u64 = 125;

const LETTER: u64 = 76;

const BOLD_LETTER: u64 = 83;

/// What is said where there is no column.
const NOTHING: &str = "No step of these groups and moments is there to be drawn";

/// So many commands that tripped have a sentence of their own, and so many that did not are named.
const MOST_TRIPPED: usize = 10;

const MOST_NAMED: usize = 3;

/// What is told beside a chart: which moments were asked for, and the fault that ended the run, where one did.
#[derive(Clone, Copy)]
pub struct Course {
    /// Moments from `from` on and before `to`.
    pub from: u64,
    pub to: u64,
    pub ended: Option<PortError>,
}

/// What a head tells of.
#[derive(Clone, Copy)]
pub(crate) struct HeadOf<'a> {
    pub chart: &'a Chart,
    pub ranking: &'a [Ranked],
    /// The columns, where there are any.
    pub axis: Option<Axis>,
    pub course: Course,
}

/// Draws the head, and tells its last base line.
pub(crate) fn draw_head(
    alloc: Global,
    canvas: &mut Canvas,
    of: HeadOf<'_>,
) -> Result<u64, AllocError> {
    let mut y = draw_title(alloc, canvas, of)?;
    y = draw_fault(alloc, canvas, of, y)?;
    y = draw_tripped(alloc, canvas, of, y)?;
    y = draw_never_open(alloc, canvas, of, y)?;
    draw_bounds(alloc, canvas, of, y)
}

/// Adds what the picture is of.
pub(crate) fn put_title(canvas: &mut Canvas, of: HeadOf<'_>) -> Result<(), AllocError> {
    put_groups(canvas, of.chart.panels.as_slice())?;
    let Some(axis) = of.axis else {
        return Ok(());
    };
    canvas.put(": ")?;
    axis.clock().put(canvas, axis.begin.max(of.course.from))?;
    canvas.put(" to ")?;
    axis.clock().put(canvas, axis.end().min(of.course.to))
}

/// Adds the name of the one group that made a step, or how many did.
fn put_groups(canvas: &mut Canvas, panels: &[Panel]) -> Result<(), AllocError> {
    let mut count = 0u64;
    let mut last = None;
    for panel in panels {
        if !panel.lives.is_empty() {
            count = count.saturating_add(1);
            last = Some(panel);
        }
    }
    match last {
        Some(only) if count == 1 => canvas.put_escaped(only.group.as_str()),
        _ => canvas.put_counted(count, "group"),
    }
}

/// Draws the title, and at the right or below it how much there was.
fn draw_title(alloc: Global, canvas: &mut Canvas, of: HeadOf<'_>) -> Result<u64, AllocError> {
    let mut title = Canvas::new(alloc);
    put_title(&mut title, of)?;
    let mut counts = Canvas::new(alloc);
    put_size(&mut counts, of)?;
    let line = 34 * PIXEL;
    canvas.put_text(12 * PIXEL, line, "h", title.as_str())?;
    let both = width_of(title.as_str(), TITLE_LETTER).saturating_add(width_of(
        counts.as_str(),
        LETTER,
    ));
    if both < LINE_WIDTH {
        canvas.put_text(988 * PIXEL, line, "s e", counts.as_str())?;
        return Ok(line);
    }
    let below = line.saturating_add(22 * PIXEL);
    canvas.put_text(12 * PIXEL, below, "s", counts.as_str())?;
    Ok(below)
}

/// Adds how many lines and commands there were, and how wide a column is.
fn put_size(canvas: &mut Canvas, of: HeadOf<'_>) -> Result<(), AllocError> {
    canvas.put_counted(of.chart.lines, "line")?;
    canvas.put(", ")?;
    if of.chart.faults == 0 {
        canvas.put("none")?;
    } else {
        canvas.put_grouped(of.chart.faults)?;
    }
    canvas.put(" at fault, ")?;
    canvas.put_counted(of.ranking.len() as u64, "command")?;
    let Some(axis) = of.axis else {
        return Ok(());
    };
    canvas.put(", a column is ")?;
    put_span(canvas, axis.width)
}

/// Says where a fault ended the run, and that nothing is drawn where there is no column.
fn draw_fault(
    alloc: Global,
    canvas: &mut Canvas,
    of: HeadOf<'_>,
    y: u64,
) -> Result<u64, AllocError> {
    let mut flow = Flow::new(alloc, "b", BOLD_LETTER, y);
    if let Some(fault) = of.course.ended {
        let words = fault_words(alloc, of.chart.lines, fault)?;
        flow.add(alloc, canvas, words.as_str())?;
        flow.end(alloc, canvas)?;
    }
    if of.axis.is_none() {
        flow.add(alloc, canvas, NOTHING)?;
    }
    flow.end(alloc, canvas)?;
    Ok(flow.y)
}

/// That a fault ended the run behind so many lines.
fn fault_words(alloc: Global, lines: u64, fault: PortError) -> Result<Canvas, AllocError> {
    let mut words = Canvas::new(alloc);
    words.put("A fault ended the run behind line ")?;
    words.put_grouped(lines)?;
    words.put(": ")?;
    words.put(reason_of(fault))?;
    Ok(words)
}

/// Why a run ended.
fn reason_of(fault: PortError) -> &'static str {
    match fault {
        PortError::Line => "the next one is too long or not UTF-8",
        PortError::Read => "the input could not be read any further",
        PortError::Write => "the output could not be written",
        PortError::Memory => "memory was refused",
    }
}

/// The commands whose circuit breakers were not closed all the time, or the others, in the order of the ranking.
fn commands(alloc: Global, of: HeadOf<'_>, opened: bool) -> Result<Vec<Ranked>, AllocError> {
    let mut commands = Vec::new(alloc);
    for ranked in of.ranking {
        if is_opened(of, *ranked) == opened {
            commands.push(*ranked)?;
        }
    }
    Ok(commands)
}

/// Whether the circuit breaker of the command was not closed all the time.
fn is_opened(of: HeadOf<'_>, ranked: Ranked) -> bool {
    match lane_of(of.chart, ranked) {
        Some((_panel, lane)) => was_opened(&lane.total),
        None => false,
    }
}

/// Says of each command that was not closed all the time how often and when it tripped, and what its callers got.
fn draw_tripped(
    alloc: Global,
    canvas: &mut Canvas,
    of: HeadOf<'_>,
    y: u64,
) -> Result<u64, AllocError> {
    let opened = commands(alloc, of, true)?;
    let mut flow = Flow::new(alloc, "b", BOLD_LETTER, y);
    for ranked in opened.iter().take(MOST_TRIPPED) {
        draw_sentence(alloc, canvas, &mut flow, of, *ranked)?;
    }
    let more = opened.len().saturating_sub(MOST_TRIPPED);
    if more > 0 {
        let words = more_words(alloc, "and ", more, " more that tripped")?;
        flow.add(alloc, canvas, words.as_str())?;
    }
    flow.end(alloc, canvas)?;
    Ok(flow.y)
}

/// A number between two texts.
fn more_words(
    alloc: Global,
    before: &str,
    number: usize,
    behind: &str,
) -> Result<Canvas, AllocError> {
    let mut words = Canvas::new(alloc);
    words.put(before)?;
    words.put_grouped(number as u64)?;
    words.put(behind)?;
    Ok(words)
}

/// Whether the circuit breaker was not closed all the time.
fn was_opened(total: &Column) -> bool {
    total.tally.trips > 0 || total.tally.open_ms > 0 || total.tally.half_open_ms > 0
}

/// Writes the sentence of a command that was not closed all the time.
fn draw_sentence(
    alloc: Global,
    canvas: &mut Canvas,
    flow: &mut Flow,
    of: HeadOf<'_>,
    ranked: Ranked,
) -> Result<(), AllocError> {
    let Some((panel, lane)) = lane_of(of.chart, ranked) else {
        return Ok(());
    };
    let trips = trip_words(alloc, of, panel, lane)?;
    flow.add(alloc, canvas, trips.as_str())?;
    let got = got_words(alloc, lane)?;
    flow.add(alloc, canvas, got.as_str())?;
    flow.end(alloc, canvas)
}

/// The name of a command, how often it tripped, and when.
fn trip_words(
    alloc: Global,
    of: HeadOf<'_>,
    panel: &Panel,
    lane: &Lane,
) -> Result<Canvas, AllocError> {
    let mut words = Canvas::new(alloc);
    put_name(&mut words, panel, lane)?;
    put_trips(&mut words, &lane.total.tally)?;
    if let Some(axis) = of.axis {
        put_times(&mut words, axis, lane)?;
    }
    words.put(":")?;
    Ok(words)
}

/// What the callers of a command got.
fn got_words(alloc: Global, lane: &Lane) -> Result<Canvas, AllocError> {
    let mut words = Canvas::new(alloc);
    words.put("its callers got ")?;
    put_got(&mut words, &lane.total.tally)?;
    Ok(words)
}

/// Adds how often a command tripped.
fn put_trips(canvas: &mut Canvas, tally: &Tally) -> Result<(), AllocError> {
    if tally.trips == 0 {
        return canvas.put(" was open from before");
    }
    canvas.put(" tripped ")?;
    canvas.put_counted(tally.trips, "time")
}

/// Adds from when to when a command was not closed: from its first trip to its last closing, or to the end.
fn put_times(canvas: &mut Canvas, axis: Axis, lane: &Lane) -> Result<(), AllocError> {
    if let Some(moment) = lane.total.first_trip {
        canvas.put(", open ")?;
        axis.clock().put(canvas, moment)?;
    }
    canvas.put(" to ")?;
    match last_closing(lane) {
        Some(moment) => axis.clock().put(canvas, moment),
        None => canvas.put("the end"),
    }
}

/// The moment at which the circuit breaker closed, where it stayed closed.
fn last_closing(lane: &Lane) -> Option<u64> {
    let moment = lane.total.last_close?;
    if trips_behind(&lane.total, moment) || is_open_behind(lane.columns.as_slice(), moment) {
        return None;
    }
    Some(moment)
}

/// Whether the last trip lies behind the moment.
fn trips_behind(total: &Column, moment: u64) -> bool {
    match total.last_trip {
        Some(trip) => trip > moment,
        None => false,
    }
}

/// Whether the circuit breaker was open in a column behind that in which it closed last, at the moment.
fn is_open_behind(columns: &[Column], closed: u64) -> bool {
    let mut has_closed = false;
    for column in columns {
        if has_closed && was_opened(column) {
            return true;
        }
        if column.last_close == Some(closed) {
            has_closed = true;
        }
    }
    false
}

/// Names the commands whose circuit breakers never opened, the worst first.
fn draw_never_open(
    alloc: Global,
    canvas: &mut Canvas,
    of: HeadOf<'_>,
    y: u64,
) -> Result<u64, AllocError> {
    let closed = commands(alloc, of, false)?;
    let mut flow = Flow::new(alloc, "", LETTER, y);
    name_closed(alloc, canvas, of, closed.as_slice(), &mut flow)?;
    let more = closed.len().saturating_sub(MOST_NAMED);
    if more > 0 {
        let words = more_words(alloc, "and ", more, " more")?;
        flow.add(alloc, canvas, words.as_str())?;
    }
    flow.end(alloc, canvas)?;
    Ok(flow.y)
}

/// Adds the first names of these commands to the flow.
fn name_closed(
    alloc: Global,
    canvas: &mut Canvas,
    of: HeadOf<'_>,
    closed: &[Ranked],
    flow: &mut Flow,
) -> Result<(), AllocError> {
    for (place, ranked) in closed.iter().take(MOST_NAMED).enumerate() {
        let before = if place == 0 { "Never open: " } else { "" };
        let is_last = place.saturating_add(1) == closed.len();
        let words = closed_words(alloc, before, of, *ranked, is_last)?;
        flow.add(alloc, canvas, words.as_str())?;
    }
    Ok(())
}

/// The name of a command that never opened, how many of its requests had no value, and a comma unless it is the last.
fn closed_words(
    alloc: Global,
    before: &str,
    of: HeadOf<'_>,
    ranked: Ranked,
    is_last: bool,
) -> Result<Canvas, AllocError> {
    let mut words = Canvas::new(alloc);
    let Some((panel, lane)) = lane_of(of.chart, ranked) else {
        return Ok(words);
    };
    words.put(before)?;
    put_closed(&mut words, panel, lane)?;
    words.put(if is_last { "" } else { "," })?;
    Ok(words)
}

/// Adds the name of a command, and how many of its requests had no value.
fn put_closed(words: &mut Canvas, panel: &Panel, lane: &Lane) -> Result<(), AllocError> {
    put_name(words, panel, lane)?;
    words.put(" (")?;
    words.put_grouped(without_value(lane))?;
    words.put(" of ")?;
    words.put_grouped(lane.total.tally.requests())?;
    words.put(" without a value)")
}

/// Says how many commands are not drawn, and of how many groups nothing is kept.
fn draw_bounds(
    alloc: Global,
    canvas: &mut Canvas,
    of: HeadOf<'_>,
    y: u64,
) -> Result<u64, AllocError> {
    let mut flow = Flow::new(alloc, "s", LETTER, y);
    if of.ranking.len() > MOST_DRAWN {
        let words = drawn_words(alloc, of.ranking.len())?;
        flow.add(alloc, canvas, words.as_str())?;
    }
    if of.chart.left_out > 0 {
        let words = left_out_words(alloc, of.chart.left_out)?;
        flow.add(alloc, canvas, words.as_str())?;
    }
    flow.end(alloc, canvas)?;
    Ok(flow.y)
}

/// How many are drawn of so many commands.
fn drawn_words(alloc: Global, kept: usize) -> Result<Canvas, AllocError> {
    let mut words = Canvas::new(alloc);
    words.put("Drawn are the ")?;
    words.put_grouped(MOST_DRAWN as u64)?;
    words.put(" of ")?;
    words.put_grouped(kept as u64)?;
    words.put(" commands with most that was no value.")?;
    Ok(words)
}

/// That of so many groups nothing is kept.
fn left_out_words(alloc: Global, groups: u64) -> Result<Canvas, AllocError> {
    let mut words = Canvas::new(alloc);
    words.put("Of ")?;
    words.put_counted(groups, "group")?;
    words.put(" more nothing is kept, since ")?;
    words.put_grouped(MOST_LANES as u64)?;
    words.put(" commands are.")?;
    Ok(words)
}
