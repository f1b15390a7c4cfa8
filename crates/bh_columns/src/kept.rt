//! The columns that are kept of all groups, and where.

ghost use Rattle.std.specs.Prelude.{◌≡◌, ◌<◌, ◌≤◌, ◌-◌, ◌/◌, ℕ, [], true, length, slice_get, IfOk, MatchOption, OnOk, Some};
ghost use Rattle.std.specs.List.{AllByRecursion};
ghost use Rattle.bh_props.specs.Shown.{settings_view};
ghost use Rattle.bh_props.specs.SettingsView.{SettingsView};
ghost use Rattle.bh_port.specs.declared.act.LineAct.TheVariants as act;
ghost use Rattle.bh_port.specs.Course.{Course, new_course};
ghost use Rattle.bh_port.specs.Text.{with_act};
ghost use Rattle.bh_columns.specs.Filled.{AreFilled, AreFills, Fills, HasRoomsFor, IsJoinedPanel, SamePanel};
ghost use Rattle.bh_columns.specs.Layouts.{keeps};
ghost use Rattle.bh_columns.specs.Named.{NamedFills, no_fills};
ghost use Rattle.bh_columns.specs.Panels.{EachAt, IsTaken};
ghost use Rattle.bh_columns.specs.Placed.{IsBegunAt, IsPlaceFor, SameKept};
ghost use Rattle.bh_columns.specs.Recorded.{HasNone, IsKept, IsPanelOf};
ghost use Rattle.bh_columns.specs.Spans.{Fill, IsFill};
ghost use Rattle.bh_columns.specs.Tracks.{IsIn, IsWithin};
ghost use Rattle.bh_columns.specs.declared.panel.KeptPanel.{KeptPanel};
ghost use Rattle.bh_columns.specs.declared.selection.Selection.{Selection as SelectionView};

use crate::grid::Grid;
use crate::panel::{KeptPanel, When};
use crate::selection::{MOST_COLUMNS, Selection};
use crate::track::JOINED;
use bh_base::{GroupId, Moment, Text};
use bh_props::Settings;
use std::alloc::{AllocError, Global};

/// The most lanes that are kept: a group with whose commands there would be more is left out, and so is each that comes behind
/// it and has no panel yet.
pub const MOST_LANES: usize = 1_000;

/// How often columns can be joined ten by ten: then the first has all moments that there are but the last.
const MOST_JOINS: u32 = 19;

/// The columns that are kept of all groups.
#[derive(Drop)]
pub struct Kept {
    pub alloc: Global,
    pub selection: Selection,
    /// By the numbers of the groups: the place of the panel of each that is kept.
    pub places: Vec<Option<usize>>,
    pub panels: Vec<KeptPanel>,
    /// How many lanes all panels have.
    pub lanes: usize,
    /// How many groups are left out for the number of lanes.
    pub left_out: u64,
    pub grid: Grid,
}

impl Kept {
    /// Nothing of the groups of the settings. It fails only for want of memory.
    pub fn new(alloc: Global, settings: &Settings, selection: Selection) -> Result<Kept, AllocError>
        ensures { IfOk result (λ kept. IsKept (settings_view settings.now) selection kept (new_course (settings_view settings.now)) no_fills) }
    {
        let mut kept = Kept::none(alloc, selection);
        for (place, name) in settings.groups.keys().enumerate() {
            kept.add_group(settings, *name, place as u64)?;
        }
        Ok(kept)
    }

    /// Nothing, of no group.
    fn none(alloc: Global, selection: Selection) -> Kept
        ensures { (service : SettingsView) → IsKept service selection result (record { entries = []; steps = [] }) no_fills }
    {
        let limit = selection.columns.clamp(2, MOST_COLUMNS) * JOINED;
        Kept {
            alloc,
            selection,
            places: Vec::new(alloc),
            panels: Vec::new(alloc),
            lanes: 0,
            left_out: 0,
            grid: Grid::new(limit),
        }
    }

    /// One group more, which has the name and the properties of the group of the settings at the place: its panel is that of
    /// the groups before it that had both, or a new one. It fails only for want of memory.
    pub fn add_group(
        &mut self,
        settings: &Settings,
        name: Text<32>,
        like: u64,
    ) -> Result<(), AllocError>
        ensures { OnOk result ((sel : SelectionView) (course : Course) (fills : NamedFills) → like < length (settings_view settings.now).groups → AllByRecursion (λ x. x.group.0 < length course.entries) course.steps
            → IsKept (settings_view settings.now) sel self.old course fills → IsKept (settings_view settings.now) sel self.new (with_act (settings_view settings.now) course (act.Register name like)) fills) }
    {
        let place = self.panel_for(settings, name, like)?;
        self.begin_life(place);
        self.places.push(place)?;
        Ok(())
    }

    /// The place of the panel for such a group, if it is kept.
    fn panel_for(
        &mut self,
        settings: &Settings,
        name: Text<32>,
        like: u64,
    ) -> Result<Option<usize>, AllocError>
        ensures { IfOk result (λ place. IsPlaceFor (settings_view settings.now) name like self.old self.new place) }
    {
        if !self.selection.keeps_group(&name) {
            return Ok(None);
        }
        match find_panel(self.panels.as_slice(), &name, like) {
            Some(place) => Ok(Some(place)),
            None => self.new_panel(settings, name, like),
        }
    }

    /// The place of a new panel for such a group, unless it has to be left out for the number of lanes.
    fn new_panel(
        &mut self,
        settings: &Settings,
        name: Text<32>,
        like: u64,
    ) -> Result<Option<usize>, AllocError>
        ensures { IfOk result (λ place. keeps self.old.selection name ≡ true → HasNone self.old.panels.items name like
            → IsPlaceFor (settings_view settings.now) name like self.old self.new place) }
    {
        let Some((_name, props)) = settings.groups.get_index(like as usize) else {
            return Ok(None);
        };
        let lanes = self.lanes.saturating_add(props.commands.len());
        if lanes > MOST_LANES || self.left_out > 0 {
            self.left_out = self.left_out.saturating_add(1);
            return Ok(None);
        }
        let place = self.panels.len();
        let panel = KeptPanel::new(self.alloc, name, like, props)?;
        self.panels.push(panel)?;
        self.lanes = lanes;
        Ok(Some(place))
    }

    /// Begins a life in the panel at the place, if there is one.
    fn begin_life(&mut self, place: Option<usize>)
        ensures panels { EachAt self.old.panels.items self.new.panels.items (λ p panel next. IsBegunAt place p panel next) }
        ensures places { self.new.places ≡ self.old.places }
        ensures selection { self.new.selection ≡ self.old.selection }
        ensures grid { self.new.grid ≡ self.old.grid }
        ensures lanes { self.new.lanes ≡ self.old.lanes }
        ensures left_out { self.new.left_out ≡ self.old.left_out }
    {
        let Some(panel) = place else {
            return;
        };
        if panel < self.panels.len() {
            self.panels[panel].begin_life();
        }
    }

    /// Makes room in the panel for what a step at these moments did: where there would be too many columns, all are joined. It
    /// fails only for want of memory.
    pub fn make_room(&mut self, panel: usize, when: &When) -> Result<(), AllocError>
        requires { panel < length self.old.panels.items }
        ensures filled { OnOk result ((fs : Fills) → AreFills fs → AreFilled self.old.panels.items self.old.grid.width fs → AreFilled self.new.panels.items self.new.grid.width fs) }
        ensures panels { OnOk result (EachAt self.old.panels.items self.new.panels.items (λ place panel next. SamePanel panel next)) }
        ensures within { (f : Fill) → IsFill f → IsWithin self.old.grid.extent self.old.grid.width f → IsWithin self.new.grid.extent self.new.grid.width f }
        ensures taken { IsTaken self.new.grid.extent self.new.grid.width when.now }
        ensures room { OnOk result ((own : KeptPanel) → when.now.since ≤ when.now.moment → slice_get self.new.panels.items panel ≡ Some own → HasRoomsFor self.new.grid.width when.now own) }
        ensures count { length self.new.panels.items ≡ length self.old.panels.items }
        ensures places { self.new.places ≡ self.old.places }
        ensures selection { self.new.selection ≡ self.old.selection }
        ensures lanes { self.new.lanes ≡ self.old.lanes }
        ensures left_out { self.new.left_out ≡ self.old.left_out }
    {
        let since = when.since.max(when.from);
        let until = when.until();
        self.fit(since, until);
        let reach = self.grid.reach(since, until);
        self.panels[panel].make_room(self.alloc, reach.first, reach.end)
    }

    /// Joins columns until those of the moments from the one on and before the other are not too many.
    fn fit(&mut self, since: Moment, until: Moment)
        ensures filled { (fs : Fills) → AreFills fs → AreFilled self.old.panels.items self.old.grid.width fs → AreFilled self.new.panels.items self.new.grid.width fs }
        ensures panels { EachAt self.old.panels.items self.new.panels.items (λ place panel next. SamePanel panel next) }
        ensures within { (f : Fill) → IsFill f → IsWithin self.old.grid.extent self.old.grid.width f → IsWithin self.new.grid.extent self.new.grid.width f }
        ensures taken { since < until → IsIn self.new.grid.extent (since / self.new.grid.width) × IsIn self.new.grid.extent ((until - 1) / self.new.grid.width) }
        ensures places { self.new.places ≡ self.old.places }
        ensures selection { self.new.selection ≡ self.old.selection }
        ensures lanes { self.new.lanes ≡ self.old.lanes }
        ensures left_out { self.new.left_out ≡ self.old.left_out }
    {
        if since >= until {
            return;
        }
        let last = until - 1;
        for _ in 0..MOST_JOINS {
            if self.grid.takes(since, last) {
                return;
            }
            self.join();
        }
        self.grid.take_in(since, last);
    }

    /// Joins all columns ten by ten, where they can be.
    fn join(&mut self)
        ensures filled { (fs : Fills) → AreFills fs → AreFilled self.old.panels.items self.old.grid.width fs → AreFilled self.new.panels.items self.new.grid.width fs }
        ensures panels { EachAt self.old.panels.items self.new.panels.items (λ place panel next. SamePanel panel next) }
        ensures within { (f : Fill) → IsFill f → IsWithin self.old.grid.extent self.old.grid.width f → IsWithin self.new.grid.extent self.new.grid.width f }
        ensures places { self.new.places ≡ self.old.places }
        ensures selection { self.new.selection ≡ self.old.selection }
        ensures lanes { self.new.lanes ≡ self.old.lanes }
        ensures left_out { self.new.left_out ≡ self.old.left_out }
    {
        if !self.grid.widen() {
            return;
        }
        join_panels(&mut self.panels);
    }

    /// Notes that the life of the group is over, which made a step.
    pub fn end_life(&mut self, group: GroupId)
        ensures { SameKept self.old self.new }
    {
        if let Some(place) = self.place_of(group) {
            self.panels[place].end_life();
        }
    }

    /// The place of the panel of the group, if it is kept.
    pub fn place_of(&self, group: GroupId) -> Option<usize>
        ensures { MatchOption result ((place : ℕ) → slice_get self.now.places.items group.0 ≡ Some (Some place) → length self.now.panels.items ≤ place)
            (λ place. (slice_get self.now.places.items group.0 ≡ Some (Some place)) × (place < length self.now.panels.items)) }
    {
        let place = match self.places.get(group.0 as usize) {
            Some(place) => (*place)?,
            None => return None,
        };
        if place < self.panels.len() {
            Some(place)
        } else {
            None
        }
    }
}

/// Joins the columns of each panel ten by ten.
fn join_panels(panels: &mut [KeptPanel])
    ensures { EachAt panels.old panels.new (λ place panel next. IsJoinedPanel panel next) }
{
    for place in 0..panels.len() {
        panels[place].join();
    }
}

/// The place of the panel of the name and of the group of the settings at the place.
fn find_panel(panels: &[KeptPanel], group: &Text<32>, like: u64) -> Option<usize>
    ensures { MatchOption result (HasNone panels.now group.now like)
        (λ place. (panel : KeptPanel) × (slice_get panels.now place ≡ Some panel) × IsPanelOf group.now like panel) }
{
    for place in 0..panels.len() {
        if panels[place].is_of(group, like) {
            return Some(place);
        }
    }
    None
}
