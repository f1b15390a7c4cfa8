//! The strip of a pool, or of the permits of a command: how many runs were under way, and how many may be.

use crate::axis::{Axis, LEFT, PLOT};
use crate::canvas::{Canvas, PIXEL, Path};
use crate::lane::Extent;
use crate::scale::share;
use crate::time::put_thousandths;
use crate::titles::{open_title, open_titles};
use crate::words::put_short;
use bh_columns::column::Usage;
use std::alloc::{AllocError, Global};

/// How high a strip is.
const STRIP: u64 = 32 * PIXEL;

/// A limit that is more than so many times the most at once is not drawn: nothing else would be seen beside it.
const FAR: u64 = 10;

/// What a strip shows.
#[derive(Clone, Copy)]
pub(crate) struct StripAt<'a> {
    pub axis: Axis,
    pub usages: &'a [Usage],
    /// Whose it is, and with that how many may run and wait.
    pub name: &'a str,
    pub label: &'a str,
    /// How many may run, and how many may run or wait.
    pub limits: [u64; 2],
    pub top: u64,
}

/// Draws a strip, and tells how far it goes.
pub(crate) fn draw_strip(
    alloc: Global,
    canvas: &mut Canvas,
    at: StripAt<'_>,
) -> Result<Extent, AllocError> {
    let label = at.top.saturating_add(13 * PIXEL);
    canvas.put_text(LEFT, label, "t s", at.label)?;
    let frame = Frame::of(at);
    draw_means(alloc, canvas, at, frame)?;
    draw_most(alloc, canvas, at, frame)?;
    draw_limits(alloc, canvas, at, frame)?;
    draw_titles(alloc, canvas, at, frame)?;
    Ok(Extent {
        grid_top: frame.top,
        bottom: frame.bottom.saturating_add(8 * PIXEL),
    })
}

/// Where a strip lies, and how many its height stands for.
#[derive(Clone, Copy)]
struct Frame {
    top: u64,
    bottom: u64,
    full: u64,
}

impl Frame {
    /// That of a strip: its height is the greatest limit, or the most at once where that is far below.
    fn of(at: StripAt<'_>) -> Frame {
        let most = most_at_once(at.usages).max(1);
        let [_, limit] = at.limits;
        let full = if limit > most.saturating_mul(FAR) {
            most
        } else {
            most.max(limit)
        };
        let top = at.top.saturating_add(22 * PIXEL);
        Frame {
            top,
            bottom: top.saturating_add(STRIP),
            full,
        }
    }

    /// The height that so many over so many milliseconds have.
    fn height(self, sum: u64, milliseconds: u64) -> u64 {
        share(sum, self.full.saturating_mul(milliseconds), STRIP)
    }

    /// Where so many end.
    fn y(self, number: u64) -> u64 {
        self.bottom.saturating_sub(self.height(number, 1))
    }
}

/// The most that were busy or waited together.
fn most_at_once(usages: &[Usage]) -> u64 {
    let mut most = 0;
    for usage in usages {
        most = most.max(usage.most);
    }
    most
}

/// Draws how many were busy, and upon these how many waited, as means over each column.
fn draw_means(
    alloc: Global,
    canvas: &mut Canvas,
    at: StripAt<'_>,
    frame: Frame,
) -> Result<(), AllocError> {
    let (mut busy, mut queued) = (Path::new(alloc), Path::new(alloc));
    for (number, usage) in at.usages.iter().enumerate() {
        let middle = at.axis.middle(number);
        let height = frame.height(usage.busy_ms, at.axis.width);
        draw_mean(&mut busy, middle, frame.bottom, height)?;
        let waiting = frame.height(usage.queued_ms, at.axis.width);
        draw_mean(
            &mut queued,
            middle,
            frame.bottom.saturating_sub(height),
            waiting,
        )?;
    }
    canvas.put_path("busy", at.axis.filled(), &busy)?;
    canvas.put_path("queued", at.axis.filled(), &queued)
}

/// Draws a mean, if it has a height.
fn draw_mean(path: &mut Path, middle: u64, begin: u64, height: u64) -> Result<(), AllocError> {
    if height == 0 {
        return Ok(());
    }
    path.move_to(middle, begin)?;
    path.up(height)
}

/// Draws a line along the most at once of each column.
fn draw_most(
    alloc: Global,
    canvas: &mut Canvas,
    at: StripAt<'_>,
    frame: Frame,
) -> Result<(), AllocError> {
    let mut path = Path::new(alloc);
    let (mut from, mut last) = (LEFT, frame.bottom);
    for (number, usage) in at.usages.iter().enumerate() {
        let y = frame.y(usage.most);
        if number == 0 {
            path.move_to(LEFT, y)?;
        } else if y != last {
            let left = at.axis.left(number);
            path.right(left.saturating_sub(from))?;
            path.down_to(y)?;
            from = left;
        }
        last = y;
    }
    let end = at.axis.left(at.usages.len());
    path.right(end.saturating_sub(from))?;
    canvas.put_path("peak", PIXEL, &path)
}

/// Draws the limits that lie in the strip, each with its number at the left; without any the most at once has one.
fn draw_limits(
    alloc: Global,
    canvas: &mut Canvas,
    at: StripAt<'_>,
    frame: Frame,
) -> Result<(), AllocError> {
    let [low, high] = at.limits;
    if high > frame.full {
        return draw_limit_number(canvas, frame, frame.full);
    }
    let mut path = Path::new(alloc);
    path.move_to(LEFT, frame.y(high))?;
    path.right(PLOT)?;
    draw_limit_number(canvas, frame, high)?;
    if low != high {
        path.move_to(LEFT, frame.y(low))?;
        path.right(PLOT)?;
        draw_limit_number(canvas, frame, low)?;
    }
    canvas.put_path("limit", PIXEL, &path)
}

/// Writes a number at the left of the strip.
fn draw_limit_number(canvas: &mut Canvas, frame: Frame, number: u64) -> Result<(), AllocError> {
    let right = LEFT.saturating_sub(5 * PIXEL);
    let line = frame.y(number).saturating_add(5 * PIXEL);
    canvas.open_text(right, line, "t s e")?;
    put_short(canvas, number)?;
    canvas.close_text()
}

/// Adds a title over each column in which something was under way.
fn draw_titles(
    alloc: Global,
    canvas: &mut Canvas,
    at: StripAt<'_>,
    frame: Frame,
) -> Result<(), AllocError> {
    open_titles(canvas, at.axis)?;
    for (number, usage) in at.usages.iter().enumerate() {
        if is_used(usage) {
            open_title(
                alloc,
                canvas,
                at.axis.middle(number),
                frame.top,
                frame.bottom,
            )?;
            put_usage(canvas, at, number, usage)?;
            canvas.put("</path>\n")?;
        }
    }
    canvas.put("</g>\n")
}

/// Whether something was under way in the column.
fn is_used(usage: &Usage) -> bool {
    usage.most > 0 || usage.busy_ms > 0 || usage.queued_ms > 0
}

/// Adds the title of a column: the means and the most at once.
fn put_usage(
    canvas: &mut Canvas,
    at: StripAt<'_>,
    number: usize,
    usage: &Usage,
) -> Result<(), AllocError> {
    canvas.put("<title>")?;
    canvas.put_escaped(at.name)?;
    canvas.put(", ")?;
    at.axis.clock().put(canvas, at.axis.moment(number))?;
    canvas.put(": busy ")?;
    put_mean(canvas, usage.busy_ms, at.axis.width)?;
    if usage.queued_ms > 0 {
        canvas.put(", queued ")?;
        put_mean(canvas, usage.queued_ms, at.axis.width)?;
    }
    canvas.put(", most at once ")?;
    canvas.put_grouped(usage.most)?;
    canvas.put("</title>")
}

/// Adds the mean of a sum over so many milliseconds, rounded to thousandths.
fn put_mean(canvas: &mut Canvas, sum: u64, milliseconds: u64) -> Result<(), AllocError> {
    if milliseconds == 0 {
        return canvas.put("0");
    }
    canvas.put_grouped(sum / milliseconds)?;
    let rest = sum % milliseconds;
    put_thousandths(canvas, share(rest, milliseconds, 1000).min(999))
}
