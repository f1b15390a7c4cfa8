//! The panel of a group: the lanes of its commands, and below them its pool, so that one sees who shares it.

use crate::axis::{Axis, Marks, draw_grid};
use crate::canvas::{Canvas, PIXEL, Path};
use crate::lane::{Extent, LaneAt, draw_lane};
use crate::lives::draw_lives;
use crate::order::Drawn;
use crate::strip::{StripAt, draw_strip};
use crate::words::{before_settings, put_name};
use bh_base::{CommandProps, GroupProps};
use bh_columns::chart::{Lane, Panel};
use bh_columns::column::Usage;
use std::alloc::{AllocError, Global};

/// Panels lie so far apart.
const GAP: u64 = 10 * PIXEL;

/// A pool is told with so many names at most.
const MOST_NAMES: usize = 3;

/// A panel that is drawn: its place among all, its settings, and where it begins.
#[derive(Clone, Copy)]
pub(crate) struct PanelAt<'a> {
    pub axis: Axis,
    pub marks: &'a Marks,
    pub drawn: Drawn<'a>,
    pub place: usize,
    pub panel: &'a Panel,
    pub props: Option<&'a GroupProps>,
    /// Whether it is the group of the settings at its place there, and not one that lines registered.
    pub is_listed: bool,
    pub top: u64,
}

/// Draws a panel of which a command is drawn, and tells where the next one begins.
pub(crate) fn draw_panel(
    alloc: Global,
    canvas: &mut Canvas,
    at: PanelAt<'_>,
) -> Result<u64, AllocError> {
    let inner = Inner::of(alloc, at)?;
    draw_ground(canvas, at.top, inner.bottom)?;
    inner.draw(alloc, canvas, at)?;
    Ok(inner.bottom.saturating_add(GAP))
}

/// Draws the ground of a panel.
fn draw_ground(canvas: &mut Canvas, top: u64, bottom: u64) -> Result<(), AllocError> {
    canvas.put("<rect class=\"panel\" x=\"4\" y=\"")?;
    canvas.put_tenths(top)?;
    canvas.put("\" width=\"992\" height=\"")?;
    canvas.put_tenths(bottom.saturating_sub(top))?;
    canvas.put("\" rx=\"6\"/>\n")
}

/// What stands in a panel, which grows downwards, and the grid below it.
#[derive(Drop)]
struct Inner {
    canvas: Canvas,
    grid: Path,
    bottom: u64,
    /// Where the first grid begins.
    grid_top: Option<u64>,
}

impl Inner {
    /// What stands in the panel: the lanes of the commands that are drawn, and the pool.
    fn of(alloc: Global, at: PanelAt<'_>) -> Result<Inner, AllocError> {
        let mut inner = Inner {
            canvas: Canvas::new(alloc),
            grid: Path::new(alloc),
            bottom: at.top,
            grid_top: None,
        };
        for (number, lane) in at.panel.lanes.iter().enumerate() {
            if at.drawn.has(at.place, number) {
                inner.add_lane(alloc, at, number, lane)?;
            }
        }
        inner.add_pool(alloc, at)?;
        Ok(inner)
    }

    /// Draws the grid, what stands over it, and the lives of the group over both.
    fn draw(&self, alloc: Global, canvas: &mut Canvas, at: PanelAt<'_>) -> Result<(), AllocError> {
        canvas.put_path("grid", PIXEL, &self.grid)?;
        canvas.put(self.canvas.as_str())?;
        match self.grid_top {
            Some(top) => draw_lives(alloc, canvas, at, top, self.bottom),
            None => Ok(()),
        }
    }

    /// Adds the lane of a command, and below it its permits, if it has them.
    fn add_lane(
        &mut self,
        alloc: Global,
        at: PanelAt<'_>,
        number: usize,
        lane: &Lane,
    ) -> Result<(), AllocError> {
        let props = match at.props {
            Some(props) => props.commands.get(number),
            None => None,
        };
        let drawn = LaneAt {
            axis: at.axis,
            panel: at.panel,
            lane,
            props,
            top: self.bottom,
        };
        let extent = draw_lane(alloc, &mut self.canvas, drawn)?;
        self.go_to(at, extent)?;
        if lane.pooled {
            return Ok(());
        }
        self.add_permits(alloc, at, lane, props)
    }

    /// Adds the strip of the permits of a command.
    fn add_permits(
        &mut self,
        alloc: Global,
        at: PanelAt<'_>,
        lane: &Lane,
        props: Option<&CommandProps>,
    ) -> Result<(), AllocError> {
        let permits = match props {
            Some(props) => props.semaphore,
            None => 0,
        };
        let usages = usages_of(alloc, lane)?;
        let name = permits_name(alloc, at.panel, lane)?;
        let label = permits_label(alloc, at.panel, name.as_str(), permits)?;
        let strip = StripAt {
            axis: at.axis,
            usages: usages.as_slice(),
            name: name.as_str(),
            label: label.as_str(),
            limits: [permits, permits],
            top: self.bottom,
        };
        let extent = draw_strip(alloc, &mut self.canvas, strip)?;
        self.go_to(at, extent)
    }

    /// Adds the strip of the pool, where the group has one.
    fn add_pool(&mut self, alloc: Global, at: PanelAt<'_>) -> Result<(), AllocError> {
        let usages: &[Usage] = at.panel.pool.as_slice();
        let Some(props) = at.props else {
            return Ok(());
        };
        if usages.is_empty() {
            return Ok(());
        }
        let waiting = places(props);
        let name = pool_name(alloc, at.panel)?;
        let label = pool_label(alloc, at.panel, name.as_str(), props.core, waiting)?;
        let strip = StripAt {
            axis: at.axis,
            usages,
            name: name.as_str(),
            label: label.as_str(),
            limits: [props.core, props.core.saturating_add(waiting)],
            top: self.bottom,
        };
        let extent = draw_strip(alloc, &mut self.canvas, strip)?;
        self.go_to(at, extent)
    }

    /// Goes on below what was drawn, with the grid behind it.
    fn go_to(&mut self, at: PanelAt<'_>, extent: Extent) -> Result<(), AllocError> {
        draw_grid(
            &mut self.grid,
            at.axis,
            at.marks,
            extent.grid_top,
            extent.bottom,
        )?;
        if self.grid_top.is_none() {
            self.grid_top = Some(extent.grid_top);
        }
        self.bottom = extent.bottom;
        Ok(())
    }
}

/// How many runs may wait in the pool of a group.
fn places(props: &GroupProps) -> u64 {
    match props.max_queue {
        Some(most) => most.min(props.queue_threshold),
        None => 0,
    }
}

/// The usage of the permits of a command, column by column.
fn usages_of(alloc: Global, lane: &Lane) -> Result<Vec<Usage>, AllocError> {
    let mut usages = Vec::with_capacity(alloc, lane.columns.len())?;
    for column in lane.columns.iter() {
        usages.push(column.usage)?;
    }
    Ok(usages)
}

/// Whose permits they are.
fn permits_name(alloc: Global, panel: &Panel, lane: &Lane) -> Result<Canvas, AllocError> {
    let mut name = Canvas::new(alloc);
    name.put("permits of ")?;
    put_name(&mut name, panel, lane)?;
    Ok(name)
}

/// What is said above the strip of permits.
fn permits_label(
    alloc: Global,
    panel: &Panel,
    name: &str,
    permits: u64,
) -> Result<Canvas, AllocError> {
    let mut label = Canvas::new(alloc);
    label.put(name)?;
    label.put(": ")?;
    label.put(before_settings(panel))?;
    label.put_grouped(permits)?;
    label.put(" at a time")?;
    Ok(label)
}

/// What is said above the strip of a pool: how many workers it has, and how many runs may wait for one.
fn pool_label(
    alloc: Global,
    panel: &Panel,
    name: &str,
    workers: u64,
    waiting: u64,
) -> Result<Canvas, AllocError> {
    let mut label = Canvas::new(alloc);
    label.put(name)?;
    label.put(": ")?;
    label.put(before_settings(panel))?;
    label.put_counted(workers, "worker")?;
    label.put(", ")?;
    label.put_grouped(waiting)?;
    label.put(" may wait")?;
    Ok(label)
}

/// Whose pool it is.
fn pool_name(alloc: Global, panel: &Panel) -> Result<Canvas, AllocError> {
    let mut name = Canvas::new(alloc);
    name.put("pool of ")?;
    let sharing = sharing_of(panel);
    let told = if sharing > MOST_NAMES { 1 } else { sharing };
    put_sharing(&mut name, panel, told, sharing)?;
    if told < sharing {
        name.put(" and ")?;
        name.put_number(sharing.saturating_sub(told) as u64)?;
        name.put(" others")?;
    }
    Ok(name)
}

/// How many commands share the pool.
fn sharing_of(panel: &Panel) -> usize {
    let mut count = 0usize;
    for lane in panel.lanes.iter() {
        if lane.pooled {
            count = count.saturating_add(1);
        }
    }
    count
}

/// Adds the first so many names of those that share a pool.
fn put_sharing(
    canvas: &mut Canvas,
    panel: &Panel,
    told: usize,
    sharing: usize,
) -> Result<(), AllocError> {
    let mut place = 0usize;
    for lane in panel.lanes.iter() {
        if lane.pooled && place < told {
            canvas.put(before_name(place, sharing))?;
            canvas.put(lane.command.as_str())?;
            place = place.saturating_add(1);
        }
    }
    Ok(())
}

/// What stands before a name with so many before it, out of so many.
fn before_name(place: usize, sharing: usize) -> &'static str {
    if place == 0 {
        ""
    } else if place.saturating_add(1) == sharing {
        " and "
    } else {
        ", "
    }
}
