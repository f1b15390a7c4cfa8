//! The picture of a run.

ghost use Rattle.std.specs.Prelude.{codes, IfOk};
ghost use Rattle.bh_draw.specs.Texts.{EndsIn};

use crate::axis::{Axis, Marks, draw_moments};
use crate::canvas::{Canvas, PIXEL};
use crate::head::{Course, HeadOf, draw_head, put_title};
use crate::legend::draw_legend;
use crate::lives::is_marked;
use crate::looks::LOOKS;
use crate::order::{Drawn, Ranked, ranking};
use crate::panel::{PanelAt, draw_panel};
use bh_base::GroupProps;
use bh_columns::chart::{Chart, Panel, make_chart};
use bh_columns::record::Recording;
use bh_lines::PortError;
use bh_props::Settings;
use std::alloc::{AllocError, Global};

/// A picture has at most so many bytes, as long as two columns suffice for that.
const MOST_BYTES: usize = 300_000;

/// The fewest columns, and so often the most that may be asked for are halved until there are so few.
const FEWEST: u64 = 2;

const MOST_HALVINGS: u64 = 8;

/// The picture, as the text of an SVG, of what was kept of a run that ended so, in at most so many columns, and in fewer
/// where it would have over `MOST_BYTES`. It fails only for want of memory.
pub fn picture(
    alloc: Global,
    settings: &Settings,
    recording: &Recording,
    columns: u64,
    ended: Option<PortError>,
) -> Result<Canvas, AllocError>
    ensures { IfOk result (EndsIn (codes "</svg>\n")) }
{
    let course = Course {
        from: recording.kept.selection.from,
        to: recording.kept.selection.to,
        ended,
    };
    let mut most = columns;
    let mut drawn = draw_columns(alloc, settings, recording, most, course)?;
    for _ in 0..MOST_HALVINGS {
        if drawn.len() <= MOST_BYTES || most <= FEWEST {
            break;
        }
        most /= 2;
        drawn = draw_columns(alloc, settings, recording, most, course)?;
    }
    Ok(drawn)
}

/// The picture in at most so many columns, of whatever length.
fn draw_columns(
    alloc: Global,
    settings: &Settings,
    recording: &Recording,
    columns: u64,
    course: Course,
) -> Result<Canvas, AllocError>
    ensures { IfOk result (EndsIn (codes "</svg>\n")) }
{
    let chart = make_chart(alloc, settings, recording, columns)?;
    draw_chart(alloc, settings, &chart, course)
}

/// The picture of a chart.
pub fn draw_chart(
    alloc: Global,
    settings: &Settings,
    chart: &Chart,
    course: Course,
) -> Result<Canvas, AllocError>
    ensures { IfOk result (EndsIn (codes "</svg>\n")) }
{
    let ranking = ranking(alloc, chart)?;
    let head = HeadOf {
        chart,
        ranking: ranking.as_slice(),
        axis: axis_of(chart),
        course,
    };
    let mut body = Canvas::new(alloc);
    let mut bottom = draw_head(alloc, &mut body, head)?;
    if let Some(axis) = head.axis {
        let plots = Plots {
            settings,
            chart,
            ranking: ranking.as_slice(),
            axis,
        };
        bottom = draw_plots(alloc, &mut body, plots, bottom)?;
    }
    let mut title = Canvas::new(alloc);
    put_title(&mut title, head)?;
    framed(
        alloc,
        title.as_str(),
        body.as_str(),
        bottom.saturating_add(16 * PIXEL),
    )
}

/// The columns of a chart, where it has any.
fn axis_of(chart: &Chart) -> Option<Axis> {
    if chart.count == 0 {
        return None;
    }
    Some(Axis {
        begin: chart.begin,
        width: chart.width,
        count: chart.count as u64,
    })
}

/// What is drawn below the head.
#[derive(Clone, Copy)]
struct Plots<'a> {
    settings: &'a Settings,
    chart: &'a Chart,
    ranking: &'a [Ranked],
    axis: Axis,
}

/// Draws legend, moments and panels below that height, and tells how far they go.
fn draw_plots(
    alloc: Global,
    canvas: &mut Canvas,
    plots: Plots<'_>,
    top: u64,
) -> Result<u64, AllocError> {
    let marks = Marks::new(alloc, plots.axis)?;
    let legend = draw_legend(
        alloc,
        canvas,
        top.saturating_add(8 * PIXEL),
        has_lives(plots),
    )?;
    let top = legend.saturating_add(34 * PIXEL);
    draw_moments(
        alloc,
        canvas,
        plots.axis,
        &marks,
        top.saturating_sub(6 * PIXEL),
    )?;
    let bottom = draw_panels(alloc, canvas, plots, &marks, top)?;
    let line = bottom.saturating_add(6 * PIXEL);
    draw_moments(alloc, canvas, plots.axis, &marks, line)?;
    Ok(line)
}

/// Whether the lives of a panel are marked.
fn has_lives(plots: Plots<'_>) -> bool {
    for panel in plots.chart.panels.iter() {
        if is_marked(panel, is_listed(plots.settings, panel)) {
            return true;
        }
    }
    false
}

/// Draws the panels of which a command is drawn, one below the other, and tells how far they go.
fn draw_panels(
    alloc: Global,
    canvas: &mut Canvas,
    plots: Plots<'_>,
    marks: &Marks,
    top: u64,
) -> Result<u64, AllocError> {
    let drawn = Drawn::of(plots.ranking);
    let mut top = top;
    for (place, panel) in plots.chart.panels.iter().enumerate() {
        if drawn.has_panel(place) {
            let at = PanelAt {
                axis: plots.axis,
                marks,
                drawn,
                place,
                panel,
                props: props_of(plots.settings, panel),
                is_listed: is_listed(plots.settings, panel),
                top,
            };
            top = draw_panel(alloc, canvas, at)?;
        }
    }
    Ok(top)
}

/// The settings of the group that the panel is like.
fn props_of<'a>(settings: &'a Settings, panel: &Panel) -> Option<&'a GroupProps> {
    match settings.groups.get_index(panel.like as usize) {
        Some((_name, props)) => Some(props),
        None => None,
    }
}

/// Whether the panel is of the group of the settings at its place there.
fn is_listed(settings: &Settings, panel: &Panel) -> bool {
    match settings.groups.get_index(panel.like as usize) {
        Some((name, _props)) => *name == panel.group,
        None => false,
    }
}

/// The body within its frame: what makes an SVG of it, the title, the looks, and the ground.
fn framed(alloc: Global, title: &str, body: &str, height: u64) -> Result<Canvas, AllocError>
    ensures { IfOk result (EndsIn (codes "</svg>\n")) }
{
    let mut canvas = Canvas::new(alloc);
    open_frame(&mut canvas, title, height)?;
    put_looks(&mut canvas)?;
    draw_page(&mut canvas, height)?;
    canvas.put(body)?;
    canvas.put("</svg>\n")?;
    Ok(canvas)
}

/// Opens the SVG, and gives it its title.
fn open_frame(canvas: &mut Canvas, title: &str, height: u64) -> Result<(), AllocError> {
    canvas.put("<svg xmlns=\"http://www.w3.org/2000/svg\" viewBox=\"0 0 1000 ")?;
    canvas.put_tenths(height)?;
    canvas.put("\" role=\"img\"><title>")?;
    canvas.put_escaped(title)?;
    canvas.put("</title>")
}

/// Adds the style sheet, and the patterns.
fn put_looks(canvas: &mut Canvas) -> Result<(), AllocError> {
    for part in LOOKS {
        canvas.put(part)?;
    }
    Ok(())
}

/// Draws the ground of the page.
fn draw_page(canvas: &mut Canvas, height: u64) -> Result<(), AllocError> {
    canvas.put("<rect class=\"page\" width=\"1000\" height=\"")?;
    canvas.put_tenths(height)?;
    canvas.put("\"/>\n")
}
