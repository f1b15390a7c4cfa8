//! What a picture is drawn from: for each command as many columns as there are, all of one width and side by side.

ghost use Rattle.std.specs.Prelude.{◌≡◌, [], true, false, max, IfOk};
ghost use Rattle.bh_props.specs.SettingsView.{SettingsView};
ghost use Rattle.bh_columns.specs.Charts.{AreDrawn, AreUsed, EachDrawn, HasHappened, IsChartOf, IsDrawnOf, IsLaidOut, IsLaneOf, total_of};
ghost use Rattle.bh_columns.specs.Layouts.{layout_of};
ghost use Rattle.bh_columns.specs.Panels.{any_pooled};
ghost use Rattle.bh_columns.specs.Named.{KeptRun};
ghost use Rattle.bh_columns.specs.Recorded.{IsRecorded};
ghost use Rattle.bh_columns.specs.declared.selection.Selection.{Selection as SelectionView};

use crate::column::{Column, Usage};
use crate::drawn::Drawn;
use crate::lane::KeptLane;
use crate::panel::KeptPanel;
use crate::record::Recording;
use crate::track::Track;
use bh_base::{Moment, Text};
use bh_look::rows::{FurtherNames, command_name, further_names};
use bh_props::Settings;
use std::alloc::{AllocError, Global};

/// What a picture is drawn from.
#[derive(Drop)]
pub struct Chart {
    /// The moment at which the first column begins: a multiple of the width. 0 where there is no column.
    pub begin: Moment,
    /// How many milliseconds wide a column is: 1, 2 or 5 times a power of ten.
    pub width: u64,
    /// How many columns there are: 0 where no step has a moment that is kept.
    pub count: usize,
    /// The groups of the settings in their order, then those that lines registered.
    pub panels: Vec<Panel>,
    /// How many groups are in no panel, because there would be more than `MOST_LANES` commands.
    pub left_out: u64,
    /// How many lines there were.
    pub lines: u64,
    /// How many of them were at fault.
    pub faults: u64,
}

/// The commands of the groups that had one name and began with the properties of one group of the settings, one behind the
/// other.
#[derive(Drop)]
pub struct Panel {
    /// The name of the group, and of its own command.
    pub group: Text<32>,
    /// The place in the settings of the group with whose properties it began: its own, unless lines registered it.
    pub like: u64,
    /// A lane for each command, by their numbers.
    pub lanes: Vec<Lane>,
    /// The group's thread pool, which its commands of strategy THREAD share: a usage for each column, or none at all
    /// where it has no such command.
    pub pool: Vec<Usage>,
    /// The lives of the name that made a step, one behind the other.
    pub lives: Vec<Life>,
}

/// A command.
#[derive(Drop)]
pub struct Lane {
    /// Its name: that of the group for the group's own.
    pub command: Text<32>,
    /// Whether its strategy is THREAD; else it has permits of its own, and `usage` of its columns tells of these.
    pub pooled: bool,
    /// As many as the chart has.
    pub columns: Vec<Column>,
    /// All of them as one.
    pub total: Column,
}

/// A life of a group, from its first step on. Moments that are not kept are told too.
#[derive(Clone, Copy, Debug, PartialEq, Eq)]
pub struct Life {
    /// The moment of its first step.
    pub begin: Moment,
    /// The moment of its last step so far.
    pub end: Moment,
    /// Whether it was retired.
    pub retired: bool,
    /// How often its steps gave a property another value than the settings do, with which it began.
    pub changes: u64,
}

/// What was kept, in at most so many columns, of which 2 are always allowed: the narrowest columns of 1, 2 or 5 times a power
/// of ten milliseconds, from those that are kept on, of which there are not more. It fails only for want of memory.
pub fn make_chart(
    alloc: Global,
    settings: &Settings,
    recording: &Recording,
    columns: u64,
) -> Result<Chart, AllocError>
    ensures drawn { IfOk result (IsChartOf recording.now.kept (max columns 2)) }
    ensures laid_out { IfOk result (λ chart. (service : SettingsView) (sel : SelectionView) (run : KeptRun) → IsRecorded service sel recording.now.groups recording.now.kept run →
        IsLaidOut (layout_of service sel run.course.entries) chart) }
    ensures happened { IfOk result (λ chart. (service : SettingsView) (sel : SelectionView) (run : KeptRun) → IsRecorded service sel recording.now.groups recording.now.kept run → HasHappened run.fills chart) }
    ensures lines { IfOk result (λ chart. chart.lines ≡ recording.now.lines) }
    ensures faults { IfOk result (λ chart. chart.faults ≡ recording.now.faults) }
{
    let kept = &recording.kept;
    let drawn = Drawn::of(&kept.grid, columns.max(2));
    let width = kept.grid.width.saturating_mul(drawn.many);
    let names = further_names(alloc, settings)?;
    let panels = draw_panels(alloc, kept.panels.as_slice(), &names, &drawn)?;
    Ok(Chart {
        begin: drawn.first.saturating_mul(width),
        width,
        count: drawn.count() as usize,
        panels,
        left_out: kept.left_out,
        lines: recording.lines,
        faults: recording.faults,
    })
}

/// The panels as they are drawn, by the names of the further commands.
fn draw_panels(
    alloc: Global,
    kept: &[KeptPanel],
    names: &FurtherNames,
    drawn: &Drawn,
) -> Result<Vec<Panel>, AllocError>
    ensures { IfOk result (λ panels. EachDrawn kept.now panels.items (λ one panel. IsDrawnOf drawn.now.many drawn.now.first drawn.now.end one panel)) }
{
    let mut panels = Vec::with_capacity(alloc, kept.len())?;
    for place in 0..kept.len() {
        let panel = draw_panel(alloc, &kept[place], names, drawn)?;
        panels.push(panel)?;
    }
    Ok(panels)
}

/// The panel as it is drawn.
fn draw_panel(
    alloc: Global,
    kept: &KeptPanel,
    names: &FurtherNames,
    drawn: &Drawn,
) -> Result<Panel, AllocError>
    ensures { IfOk result (IsDrawnOf drawn.now.many drawn.now.first drawn.now.end kept.now) }
{
    let lanes = draw_lanes(
        alloc,
        names,
        kept.group,
        kept.like,
        kept.lanes.as_slice(),
        drawn,
    )?;
    let pool = draw_pool(alloc, kept, drawn)?;
    let lives = Vec::from_slice(alloc, kept.lives.as_slice())?;
    Ok(Panel {
        group: kept.group,
        like: kept.like,
        lanes,
        pool,
        lives,
    })
}

/// The lanes of a group of the name, like that at the place in the settings, as they are drawn.
fn draw_lanes(
    alloc: Global,
    names: &FurtherNames,
    group: Text<32>,
    like: u64,
    kept: &[KeptLane],
    drawn: &Drawn,
) -> Result<Vec<Lane>, AllocError>
    ensures { IfOk result (λ lanes. EachDrawn kept.now lanes.items (λ one lane. IsLaneOf drawn.now.many drawn.now.first drawn.now.end one lane)) }
{
    let mut lanes = Vec::with_capacity(alloc, kept.len())?;
    for number in 0..kept.len() {
        let command = command_name(names, group, like, number as u64);
        let lane = draw_lane(alloc, &kept[number], command, drawn)?;
        lanes.push(lane)?;
    }
    Ok(lanes)
}

/// The lane as it is drawn.
fn draw_lane(
    alloc: Global,
    kept: &KeptLane,
    command: Text<32>,
    drawn: &Drawn,
) -> Result<Lane, AllocError>
    ensures { IfOk result (IsLaneOf drawn.now.many drawn.now.first drawn.now.end kept.now) }
{
    let columns = draw_columns(alloc, &kept.track, drawn)?;
    let total = total_of(columns.as_slice());
    Ok(Lane {
        command,
        pooled: kept.pooled,
        columns,
        total,
    })
}

/// The columns of the track as they are drawn.
fn draw_columns(alloc: Global, track: &Track, drawn: &Drawn) -> Result<Vec<Column>, AllocError>
    ensures { IfOk result (λ columns. AreDrawn drawn.now.many drawn.now.first drawn.now.end track.now columns.items) }
{
    let mut columns = Vec::with_capacity(alloc, drawn.count() as usize)?;
    for index in drawn.first..drawn.end {
        let column = track.joined(index, drawn.many);
        columns.push(column)?;
    }
    Ok(columns)
}

/// All columns as one.
fn total_of(columns: &[Column]) -> Column
    ensures { result ≡ total_of columns.now }
{
    let mut total = Column::new();
    for column in columns {
        total.join(column);
    }
    total
}

/// The pool as it is drawn: nothing where no command runs in it.
fn draw_pool(alloc: Global, kept: &KeptPanel, drawn: &Drawn) -> Result<Vec<Usage>, AllocError>
    ensures used { IfOk result (λ usages. any_pooled kept.now.lanes.items ≡ true → AreUsed drawn.now.many drawn.now.first drawn.now.end kept.now.pool usages.items) }
    ensures none { IfOk result (λ usages. any_pooled kept.now.lanes.items ≡ false → usages.items ≡ []) }
{
    if kept.has_pool() {
        draw_usages(alloc, &kept.pool, drawn)
    } else {
        Ok(Vec::new(alloc))
    }
}

/// The usages of the columns of the track as they are drawn.
fn draw_usages(alloc: Global, track: &Track, drawn: &Drawn) -> Result<Vec<Usage>, AllocError>
    ensures { IfOk result (λ usages. AreUsed drawn.now.many drawn.now.first drawn.now.end track.now usages.items) }
{
    let mut usages = Vec::with_capacity(alloc, drawn.count() as usize)?;
    for index in drawn.first..drawn.end {
        usages.push(track.joined(index, drawn.many).usage)?;
    }
    Ok(usages)
}
