//! The bars of a lane: what callers got stands up, and why it was no value hangs down.

ghost use Rattle.std.specs.Prelude.{◌≡◌, ◌≤◌, All};
ghost use Rattle.bh_draw.specs.Bars.{bar_count};
ghost use Rattle.bh_draw.specs.Lengths.{bars_count, bars_height};

use crate::axis::Axis;
use crate::canvas::{Canvas, PIXEL, Path};
use crate::scale::Scale;
use bh_columns::column::Column;
use bh_look::tally::Tally;
use std::alloc::{AllocError, Global};

/// A kind of bar, as a part of the stack of a column.
#[derive(Clone, Copy)]
pub(crate) enum Bar {
    Value,
    FallbackValue,
    Error,
    BadRequest,
    ShortCircuited,
    Rejected,
    Timeout,
    Failure,
    Late,
}

/// What callers got, from the line of the lane upwards.
pub(crate) const ANSWERS: [Bar; 4] = [Bar::Value, Bar::FallbackValue, Bar::Error, Bar::BadRequest];

/// Why it was no value, from the line downwards, and at last the ends that nobody waited for any more.
pub(crate) const REASONS: [Bar; 5] = [
    Bar::ShortCircuited,
    Bar::Rejected,
    Bar::Timeout,
    Bar::Failure,
    Bar::Late,
];

/// A segment is so high at least, since a single failure is to be seen among many.
const LEAST_HEIGHT: u64 = 2 * PIXEL;

impl Bar {
    /// The class by which the style sheet knows it.
    pub(crate) fn class(self) -> &'static str {
        match self {
            Bar::Value => "value",
            Bar::FallbackValue => "fallback",
            Bar::Error => "error",
            Bar::BadRequest => "bad",
            Bar::ShortCircuited => "short",
            Bar::Rejected => "rejected",
            Bar::Timeout => "timeout",
            Bar::Failure => "failure",
            Bar::Late => "late",
        }
    }

    /// What it is called.
    pub(crate) fn words(self) -> &'static str {
        match self {
            Bar::Value => "value",
            Bar::FallbackValue => "fallback's value",
            Bar::Error => "error",
            Bar::BadRequest => "bad request",
            Bar::ShortCircuited => "short-circuited",
            Bar::Rejected => "rejected",
            Bar::Timeout => "timeout",
            Bar::Failure => "failure",
            Bar::Late => "late end",
        }
    }

    /// How many of it the tally has.
    pub(crate) fn count(self, tally: &Tally) -> u64
        ensures { result ≡ bar_count self tally.now }
    {
        match self {
            Bar::Value => tally.values,
            Bar::FallbackValue => tally.fallback_values,
            Bar::Error => tally.errors,
            Bar::BadRequest => tally.bad_requests,
            Bar::ShortCircuited => tally.short_circuited,
            Bar::Rejected => tally.rejected,
            Bar::Timeout => tally.timeouts,
            Bar::Failure => tally.failures,
            Bar::Late => tally.late,
        }
    }
}

/// How many there are of all these bars in the column that has most of them.
pub(crate) fn most_of(bars: &[Bar], columns: &[Column]) -> u64
    ensures { All (λ column. bars_count bars.now column.tally ≤ result) columns.now }
{
    let mut most = 0;
    for column in columns {
        most = most.max(count_of(bars, &column.tally));
    }
    most
}

/// How many there are of all these bars.
fn count_of(bars: &[Bar], tally: &Tally) -> u64
    ensures { result ≡ bars_count bars.now tally.now }
{
    let mut count = 0u64;
    for bar in bars {
        count = count.saturating_add(bar.count(tally));
    }
    count
}

/// How high the highest stack of these bars is.
pub(crate) fn highest(bars: &[Bar], columns: &[Column], scale: Scale) -> u64
    ensures { All (λ column. bars_height bars.now column.tally scale LEAST_HEIGHT ≤ result) columns.now }
{
    let mut highest = 0;
    for column in columns {
        highest = highest.max(height_of(bars, &column.tally, scale));
    }
    highest
}

/// How high the stack of these bars is.
fn height_of(bars: &[Bar], tally: &Tally, scale: Scale) -> u64
    ensures { result ≡ bars_height bars.now tally.now scale LEAST_HEIGHT }
{
    let mut height = 0u64;
    for bar in bars {
        height = height.saturating_add(scale.height_of(bar.count(tally), LEAST_HEIGHT));
    }
    height
}

/// Draws these bars of all columns, upwards or downwards from that line. All bars of a kind are one path, which takes a
/// dozen bytes for each.
pub(crate) fn draw_bars(
    alloc: Global,
    canvas: &mut Canvas,
    axis: Axis,
    columns: &[Column],
    stack: Stack<'_>,
) -> Result<(), AllocError> {
    for (place, bar) in stack.bars.iter().enumerate() {
        let mut path = Path::new(alloc);
        let below = stack.bars.get(..place).unwrap_or(&[]);
        for (number, column) in columns.iter().enumerate() {
            let height = stack
                .scale
                .height_of(bar.count(&column.tally), LEAST_HEIGHT);
            let offset = height_of(below, &column.tally, stack.scale);
            draw_segment(&mut path, axis, number, *bar, stack.segment(offset, height))?;
        }
        let width = match bar {
            Bar::Late => PIXEL,
            _ => axis.bar_width(),
        };
        canvas.put_path(bar.class(), width, &path)?;
    }
    Ok(())
}

/// Bars upon one another, from a line on.
#[derive(Clone, Copy)]
pub(crate) struct Stack<'a> {
    pub bars: &'a [Bar],
    pub scale: Scale,
    /// The height of the line.
    pub line: u64,
    /// Whether they stand on it, and do not hang below.
    pub is_up: bool,
}

/// A part of a stack: where it begins, how high it is, and whether it goes up from there.
#[derive(Clone, Copy)]
struct Segment {
    begin: u64,
    height: u64,
    is_up: bool,
}

impl Stack<'_> {
    /// The segment that begins so far from the line.
    fn segment(&self, offset: u64, height: u64) -> Segment {
        let begin = if self.is_up {
            self.line.saturating_sub(offset)
        } else {
            self.line.saturating_add(offset)
        };
        Segment {
            begin,
            height,
            is_up: self.is_up,
        }
    }
}

/// Draws a segment of the column, if it has a height: a thick stroke, and of late ends the outline.
fn draw_segment(
    path: &mut Path,
    axis: Axis,
    number: usize,
    bar: Bar,
    segment: Segment,
) -> Result<(), AllocError> {
    if segment.height == 0 {
        return Ok(());
    }
    match bar {
        Bar::Late => draw_outline(path, axis, number, segment),
        _ => {
            path.move_to(axis.middle(number), segment.begin)?;
            draw_height(path, segment)
        }
    }
}

/// Draws the height of the segment.
fn draw_height(path: &mut Path, segment: Segment) -> Result<(), AllocError> {
    if segment.is_up {
        path.up(segment.height)
    } else {
        path.down(segment.height)
    }
}

/// Draws the outline of the segment, a pixel within the column.
fn draw_outline(
    path: &mut Path,
    axis: Axis,
    number: usize,
    segment: Segment,
) -> Result<(), AllocError> {
    let width = axis.bar_width().saturating_sub(PIXEL).max(PIXEL);
    let left = axis.middle(number).saturating_sub(width / 2);
    path.move_to(left, segment.begin)?;
    path.right(width)?;
    draw_height(path, segment)?;
    path.left(width)?;
    path.put("z")
}
