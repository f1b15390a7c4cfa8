//! Where the lives of a name begin and end, in panels of groups that lines registered or retired.

use crate::axis::Axis;
use crate::canvas::{Canvas, PIXEL, Path};
use crate::panel::PanelAt;
use bh_columns::chart::Panel;
use std::alloc::{AllocError, Global};

/// A mark has a foot so long, which points into the life.
const FOOT: u64 = 5 * PIXEL;

/// Draws a mark where each life begins and ends, from one height to the other. Of those that would lie in one column, the
/// first alone is drawn.
pub(crate) fn draw_lives(
    alloc: Global,
    canvas: &mut Canvas,
    at: PanelAt<'_>,
    top: u64,
    bottom: u64,
) -> Result<(), AllocError> {
    if !is_marked(at.panel, at.is_listed) {
        return Ok(());
    }
    let mut marks = LifeMarks {
        path: Path::new(alloc),
        begun: None,
        ended: None,
        top,
        bottom: bottom.saturating_sub(8 * PIXEL),
    };
    for life in at.panel.lives.iter() {
        marks.begin(at.axis, life.begin)?;
        if life.retired {
            marks.end(at.axis, life.end)?;
        }
    }
    canvas.put_path("life", PIXEL, &marks.path)
}

/// Whether the lives of a panel are marked: not the one of a group of the settings that was never retired.
pub(crate) fn is_marked(panel: &Panel, is_listed: bool) -> bool {
    match panel.lives.as_slice() {
        [] => false,
        [only] => only.retired || !is_listed,
        _ => true,
    }
}

/// Marks that are drawn from left to right.
#[derive(Drop)]
struct LifeMarks {
    path: Path,
    /// Where the last mark of each kind stands.
    begun: Option<u64>,
    ended: Option<u64>,
    top: u64,
    bottom: u64,
}

impl LifeMarks {
    /// Marks the begin of a life.
    fn begin(&mut self, axis: Axis, moment: u64) -> Result<(), AllocError> {
        let x = axis.place(moment);
        if !is_shown(axis, moment) || is_near(self.begun, x, axis) {
            return Ok(());
        }
        self.begun = Some(x);
        self.path.move_to(x.saturating_add(FOOT), self.top)?;
        self.path.left(FOOT)?;
        self.path.down_to(self.bottom)
    }

    /// Marks the end of a life.
    fn end(&mut self, axis: Axis, moment: u64) -> Result<(), AllocError> {
        let x = axis.place(moment);
        if !is_shown(axis, moment) || is_near(self.ended, x, axis) {
            return Ok(());
        }
        self.ended = Some(x);
        self.path.move_to(x.saturating_sub(FOOT), self.top)?;
        self.path.right(FOOT)?;
        self.path.down_to(self.bottom)
    }
}

/// Whether the moment lies in the picture.
fn is_shown(axis: Axis, moment: u64) -> bool {
    axis.begin <= moment && moment <= axis.end()
}

/// Whether a mark lies within a column of the last one.
fn is_near(last: Option<u64>, x: u64, axis: Axis) -> bool {
    match last {
        Some(last) => x < last.saturating_add(axis.step()),
        None => false,
    }
}
