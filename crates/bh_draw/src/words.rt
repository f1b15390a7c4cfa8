//! What is said of a command in words: its name, its totals, its settings, and the counts of a column.

use crate::axis::Axis;
use crate::bar::{ANSWERS, REASONS};
use crate::canvas::Canvas;
use crate::time::put_span;
use bh_base::CommandProps;
use bh_columns::chart::{Lane, Panel};
use bh_columns::column::Column;
use bh_look::tally::Tally;
use std::alloc::AllocError;

/// Adds the name of a command: that of its group, and behind a stroke that of a further command.
pub(crate) fn put_name(canvas: &mut Canvas, panel: &Panel, lane: &Lane) -> Result<(), AllocError> {
    canvas.put(panel.group.as_str())?;
    if lane.command == panel.group {
        return Ok(());
    }
    canvas.put("/")?;
    canvas.put(lane.command.as_str())
}

/// Adds what callers got.
pub(crate) fn put_got(canvas: &mut Canvas, tally: &Tally) -> Result<(), AllocError> {
    canvas.put_counted(tally.values, "value")?;
    canvas.put(", ")?;
    canvas.put_counted(tally.fallback_values, "fallback")?;
    canvas.put(", ")?;
    canvas.put_counted(tally.errors, "error")?;
    if tally.bad_requests == 0 {
        return Ok(());
    }
    canvas.put(", ")?;
    canvas.put_counted(tally.bad_requests, "bad request")
}

/// Adds the totals of a command.
pub(crate) fn put_totals(canvas: &mut Canvas, tally: &Tally) -> Result<(), AllocError> {
    canvas.put_grouped(tally.requests())?;
    canvas.put(" asked")?;
    put_asides(canvas, tally)?;
    canvas.put(": ")?;
    put_got(canvas, tally)
}

/// Adds, between brackets, how many shared a run, or were heard neither by a pool nor by a circuit breaker.
fn put_asides(canvas: &mut Canvas, tally: &Tally) -> Result<(), AllocError> {
    let mut before = " (";
    for (number, word) in asides(tally) {
        if number > 0 {
            canvas.put(before)?;
            canvas.put_grouped(number)?;
            canvas.put(" ")?;
            canvas.put(word)?;
            before = ", ";
        }
    }
    if before == ", " {
        return canvas.put(")");
    }
    Ok(())
}

/// The requests that no bar shows.
fn asides(tally: &Tally) -> [(u64, &'static str); 3] {
    [
        (tally.joined, "joined"),
        (tally.group_full, "group full"),
        (tally.worn, "worn"),
    ]
}

/// What stands before the settings of a group: that they held at first, where its steps changed a property.
pub(crate) fn before_settings(panel: &Panel) -> &'static str {
    for life in panel.lives.iter() {
        if life.changes > 0 {
            return "at first ";
        }
    }
    ""
}

/// Adds when a command times out, and when its circuit breaker opens and for how long.
pub(crate) fn put_settings(
    canvas: &mut Canvas,
    panel: &Panel,
    props: &CommandProps,
) -> Result<(), AllocError> {
    canvas.put(before_settings(panel))?;
    if props.timeout_on {
        canvas.put("timeout ")?;
        put_span(canvas, props.timeout_ms)?;
    } else {
        canvas.put("no timeout")?;
    }
    canvas.put("; ")?;
    put_circuit(canvas, props)
}

/// Adds when the circuit breaker opens and for how long.
fn put_circuit(canvas: &mut Canvas, props: &CommandProps) -> Result<(), AllocError> {
    if props.force_open {
        return canvas.put("circuit forced open");
    }
    if props.force_closed {
        return canvas.put("circuit forced closed");
    }
    if !props.circuit_on {
        return canvas.put("no circuit breaker");
    }
    canvas.put("trips at ")?;
    canvas.put_grouped(props.percent)?;
    canvas.put(" % of ")?;
    canvas.put_grouped(props.volume)?;
    canvas.put(" or more, sleeps ")?;
    put_span(canvas, props.sleep_ms)
}

/// Adds the title of a column: whose it is, when it begins, and all counts that are not 0.
pub(crate) fn put_title(
    canvas: &mut Canvas,
    name: &str,
    axis: Axis,
    number: usize,
    column: &Column,
) -> Result<(), AllocError> {
    canvas.put("<title>")?;
    canvas.put_escaped(name)?;
    canvas.put(", ")?;
    axis.clock().put(canvas, axis.moment(number))?;
    canvas.put(": asked ")?;
    canvas.put_grouped(column.tally.requests())?;
    put_counts(canvas, &column.tally)?;
    put_circuit_counts(canvas, &column.tally)?;
    canvas.put("</title>")
}

/// Adds the counts of requests that are not 0.
fn put_counts(canvas: &mut Canvas, tally: &Tally) -> Result<(), AllocError> {
    for bar in ANSWERS.iter().chain(REASONS.iter()) {
        put_count(canvas, bar.words(), bar.count(tally))?;
    }
    for (number, word) in asides(tally) {
        put_count(canvas, word, number)?;
    }
    Ok(())
}

/// Adds a count behind others, unless it is 0.
fn put_count(canvas: &mut Canvas, word: &str, number: u64) -> Result<(), AllocError> {
    if number == 0 {
        return Ok(());
    }
    canvas.put(", ")?;
    canvas.put(word)?;
    canvas.put(" ")?;
    canvas.put_grouped(number)
}

/// Adds what the circuit breaker did, where it was not closed all the time.
fn put_circuit_counts(canvas: &mut Canvas, tally: &Tally) -> Result<(), AllocError> {
    put_count(canvas, "trips", tally.trips)?;
    put_milliseconds(canvas, "open", tally.open_ms)?;
    put_milliseconds(canvas, "half-open", tally.half_open_ms)
}

/// Adds milliseconds behind counts, unless there are none.
fn put_milliseconds(canvas: &mut Canvas, word: &str, number: u64) -> Result<(), AllocError> {
    put_count(canvas, word, number)?;
    if number == 0 {
        return Ok(());
    }
    canvas.put(" ms")
}

/// Adds a number in at most four letters: in thousands, millions and so on where it is long.
pub(crate) fn put_short(canvas: &mut Canvas, number: u64) -> Result<(), AllocError> {
    let mut rest = number;
    for unit in ["", "k", "M", "G", "T", "P"] {
        if rest < 1000 {
            canvas.put_number(rest)?;
            return canvas.put(unit);
        }
        rest /= 1000;
    }
    canvas.put_number(rest)?;
    canvas.put("E")
}

/// Whether there is nothing to tell of a column.
pub(crate) fn is_silent(tally: &Tally) -> bool {
    let told = tally
        .requests()
        .saturating_add(tally.trips)
        .saturating_add(tally.open_ms)
        .saturating_add(tally.half_open_ms);
    if told > 0 {
        return false;
    }
    for bar in ANSWERS.iter().chain(REASONS.iter()) {
        if bar.count(tally) > 0 {
            return false;
        }
    }
    true
}
