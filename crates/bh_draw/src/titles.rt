//! Titles over the columns of a band, a stack or a strip, which whoever points at one reads.

use crate::axis::Axis;
use crate::canvas::{Canvas, Path};
use std::alloc::{AllocError, Global};

/// Begins a row of titles, each over one column.
pub(crate) fn open_titles(canvas: &mut Canvas, axis: Axis) -> Result<(), AllocError> {
    canvas.put("<g class=\"hit\" stroke-width=\"")?;
    canvas.put_tenths(axis.step())?;
    canvas.put("\">\n")
}

/// Begins the element of a title: a stroke that is not seen, from one height to the other.
pub(crate) fn open_title(
    alloc: Global,
    canvas: &mut Canvas,
    middle: u64,
    top: u64,
    bottom: u64,
) -> Result<(), AllocError> {
    let mut path = Path::new(alloc);
    path.move_to(middle, top)?;
    path.down_to(bottom)?;
    canvas.put("<path d=\"")?;
    canvas.put(path.as_str())?;
    canvas.put("\">")
}
