//! The lane of a command: its totals in words, the band of its circuit breaker, its bars, and titles that tell all counts.

use crate::axis::{Axis, LEFT, LETTER, PLOT};
use crate::band::{BAND, draw_band};
use crate::bar::{ANSWERS, REASONS, Stack, draw_bars, highest, most_of};
use crate::canvas::{Canvas, PIXEL, Path};
use crate::flow::width_of;
use crate::scale::{Scale, common_scale};
use crate::titles::{open_title, open_titles};
use crate::words::{is_silent, put_name, put_settings, put_short, put_title, put_totals};
use bh_base::CommandProps;
use bh_columns::chart::{Lane, Panel};
use bh_columns::column::Column;
use std::alloc::{AllocError, Global};

/// A letter of a name is so wide.
const NAME_LETTER: u64 = 110;

/// Words beside one another have so much room.
const ROOM: u64 = 960 * PIXEL;

/// A lane that is drawn: its command, where it stands, and how its columns lie.
#[derive(Clone, Copy)]
pub(crate) struct LaneAt<'a> {
    pub axis: Axis,
    pub panel: &'a Panel,
    pub lane: &'a Lane,
    pub props: Option<&'a CommandProps>,
    pub top: u64,
}

/// From which height to which the grid goes, and where the lane ends.
#[derive(Clone, Copy)]
pub(crate) struct Extent {
    pub grid_top: u64,
    pub bottom: u64,
}

/// Draws a lane, and tells how far it goes.
pub(crate) fn draw_lane(
    alloc: Global,
    canvas: &mut Canvas,
    at: LaneAt<'_>,
) -> Result<Extent, AllocError> {
    let mut name = Canvas::new(alloc);
    put_name(&mut name, at.panel, at.lane)?;
    let line = draw_lane_words(alloc, canvas, at, name.as_str())?;
    let top = line.saturating_add(16 * PIXEL);
    let columns = at.lane.columns.as_slice();
    draw_band(alloc, canvas, at.axis, columns, top)?;
    let heights = Heights::of(columns, top);
    draw_stacks(alloc, canvas, at.axis, columns, heights)?;
    draw_titles(
        alloc,
        canvas,
        at.axis,
        columns,
        name.as_str(),
        top,
        heights.bottom,
    )?;
    Ok(Extent {
        grid_top: top,
        bottom: heights.bottom.saturating_add(8 * PIXEL),
    })
}

/// Writes the name, the totals and the settings of the command, in one line where they have room beside one another, and
/// tells the last base line.
fn draw_lane_words(
    alloc: Global,
    canvas: &mut Canvas,
    at: LaneAt<'_>,
    name: &str,
) -> Result<u64, AllocError> {
    let mut totals = Canvas::new(alloc);
    put_totals(&mut totals, &at.lane.total.tally)?;
    let line = at.top.saturating_add(22 * PIXEL);
    let named = width_of(name, NAME_LETTER).saturating_add(width_of(totals.as_str(), LETTER));
    let line = draw_named(canvas, line, name, totals.as_str(), named)?;
    let Some(props) = at.props else {
        return Ok(line);
    };
    let mut settings = Canvas::new(alloc);
    put_settings(&mut settings, at.panel, props)?;
    let all = named.saturating_add(width_of(settings.as_str(), LETTER));
    let line = if all < ROOM { line } else { below(line) };
    canvas.put_text(984 * PIXEL, line, "t s e", settings.as_str())?;
    Ok(line)
}

/// The base line below that one.
fn below(line: u64) -> u64 {
    line.saturating_add(18 * PIXEL)
}

/// Writes the name and the totals of a command, which are so wide, on that base line or the totals below it, and tells the
/// last one.
fn draw_named(
    canvas: &mut Canvas,
    line: u64,
    name: &str,
    totals: &str,
    named: u64,
) -> Result<u64, AllocError> {
    canvas.open_text(14 * PIXEL, line, "t")?;
    put_span(canvas, "class=\"l\"", name)?;
    if named >= ROOM {
        canvas.close_text()?;
        canvas.put_text(14 * PIXEL, below(line), "t", totals)?;
        return Ok(below(line));
    }
    put_span(canvas, "dx=\"10\"", totals)?;
    canvas.close_text()?;
    Ok(line)
}

/// Adds a part of a text, with an attribute of its own.
fn put_span(canvas: &mut Canvas, attribute: &str, words: &str) -> Result<(), AllocError> {
    canvas.put("<tspan ")?;
    canvas.put(attribute)?;
    canvas.put(">")?;
    canvas.put_escaped(words)?;
    canvas.put("</tspan>")
}

/// The bars go so far up at most, and so far down, segments of the least height aside.
const UP: u64 = 54 * PIXEL;

const DOWN: u64 = 48 * PIXEL;

/// A stack below the line is told in numbers where it is at least so high.
const TOLD: u64 = 16 * PIXEL;

/// Where the bars of a lane lie: one scale for both stacks, the line between them, and the ends of the highest.
#[derive(Clone, Copy)]
struct Heights {
    scale: Scale,
    /// How many the column with most answers has, and that with most reasons.
    most: u64,
    worst: u64,
    top: u64,
    line: u64,
    bottom: u64,
}

impl Heights {
    /// Those of the columns, below a band at that height.
    fn of(columns: &[Column], band: u64) -> Heights {
        let (most, worst) = (most_of(&ANSWERS, columns), most_of(&REASONS, columns));
        let scale = common_scale(most, UP, worst, DOWN);
        let top = band.saturating_add(BAND).saturating_add(5 * PIXEL);
        let line = top.saturating_add(highest(&ANSWERS, columns, scale));
        Heights {
            scale,
            most,
            worst,
            top,
            line,
            bottom: line.saturating_add(highest(&REASONS, columns, scale)),
        }
    }
}

/// Draws both stacks, the line between them, and how many their highest have.
fn draw_stacks(
    alloc: Global,
    canvas: &mut Canvas,
    axis: Axis,
    columns: &[Column],
    heights: Heights,
) -> Result<(), AllocError> {
    let Heights { scale, line, .. } = heights;
    let above = Stack {
        bars: &ANSWERS,
        scale,
        line,
        is_up: true,
    };
    let below = Stack {
        bars: &REASONS,
        scale,
        line: line.saturating_add(PIXEL),
        is_up: false,
    };
    draw_bars(alloc, canvas, axis, columns, above)?;
    draw_bars(alloc, canvas, axis, columns, below)?;
    let mut path = Path::new(alloc);
    path.move_to(LEFT, line)?;
    path.right(PLOT)?;
    canvas.put_path("grid", PIXEL, &path)?;
    draw_most(canvas, heights)
}

/// Writes how many the highest stacks have, at the left of them.
fn draw_most(canvas: &mut Canvas, heights: Heights) -> Result<(), AllocError> {
    let right = LEFT.saturating_sub(5 * PIXEL);
    if heights.most > 0 {
        let up = heights.top.saturating_add(11 * PIXEL);
        draw_number(canvas, right, up, heights.most)?;
    }
    if heights.bottom < heights.line.saturating_add(TOLD) {
        return Ok(());
    }
    draw_number(canvas, right, heights.bottom, heights.worst)
}

/// Writes a number that ends there, in short where it is long.
fn draw_number(canvas: &mut Canvas, x: u64, y: u64, number: u64) -> Result<(), AllocError> {
    canvas.open_text(x, y, "t s e")?;
    put_short(canvas, number)?;
    canvas.close_text()
}

/// Adds a title with all counts over each column that has any, from the band to the ends of the bars.
fn draw_titles(
    alloc: Global,
    canvas: &mut Canvas,
    axis: Axis,
    columns: &[Column],
    name: &str,
    band: u64,
    bottom: u64,
) -> Result<(), AllocError> {
    open_titles(canvas, axis)?;
    for (number, column) in columns.iter().enumerate() {
        if !is_silent(&column.tally) {
            open_title(alloc, canvas, axis.middle(number), band, bottom)?;
            put_title(canvas, name, axis, number, column)?;
            canvas.put("</path>\n")?;
        }
    }
    canvas.put("</g>\n")
}
