//! What is kept of the groups that have one name and began with the same properties, one behind the other.

ghost use Rattle.std.specs.Prelude.{◌≡◌, ◌+◌, ℕ, min, All, is_some, length, slice_get, false, true, IfOk, OnOk, Some};
ghost use Rattle.bh_base.specs.Commands.{command_count};
ghost use Rattle.bh_base.specs.Machine.{circuit_of};
ghost use Rattle.bh_base.specs.Ranges.{IsInRange};
ghost use Rattle.bh_base.specs.Runs.{State, View, view};
ghost use Rattle.bh_core.specs.CoreView.{Shows, view_at};
ghost use Rattle.bh_core.specs.Step.{IsStep};
ghost use Rattle.bh_port.specs.Entries.{entry_at};
ghost use Rattle.bh_look.specs.declared.lane.Lane.{Lane};
ghost use Rattle.bh_look.specs.Tallies.{no_tally};
ghost use Rattle.bh_columns.specs.Columns.{told_of};
ghost use Rattle.bh_columns.specs.Panels.{EachAt, FitsLanes, HasAdded, HasAddedTime, HasAddedTold, HasLooked, HasMadeRoom, HasNotedAt, HasSpent, HasTold, IsJoinedLane, IsNewLife, any_pooled};
ghost use Rattle.bh_columns.specs.Placed.{IsEmptyPanel};
ghost use Rattle.bh_columns.specs.Recorded.{IsPanelOf};
ghost use Rattle.bh_columns.specs.Spans.{lies};
ghost use Rattle.bh_columns.specs.Steps.{closes};

use crate::chart::Life;
use crate::grid::Grid;
use crate::lane::{
    KeptLane, Touched, any_pooled, begin_all, join_all, look_all, make_room_in_all, note_all,
    pool_busy, pool_queued, spend_all,
};
use crate::stay::Stay;
use crate::track::{Reach, Track};
use bh_base::{CircuitState, GroupId, GroupProps, Moment, Reply, Step, Strategy, Text};
use bh_core::Core;
use bh_look::lane::{Lane, new_lanes};
use bh_look::making::make_step;
use bh_look::tally::Tally;
use bh_port::groups::Groups;
use std::alloc::{AllocError, Global};

/// What is kept of the commands of the groups that have one name and began with the properties of one group of the
/// settings, one behind the other.
#[derive(Drop)]
pub struct KeptPanel {
    pub group: Text<32>,
    /// The place in the settings of the group with whose properties they began.
    pub like: u64,
    /// What the step at hand told of each command, by their numbers.
    pub steps: Vec<Lane>,
    /// What is kept of each.
    pub lanes: Vec<KeptLane>,
    /// What the commands in the thread pool use together.
    pub pool: Track,
    pub lives: Vec<Life>,
}

/// The moments of a step, and which are kept.
#[derive(Clone, Copy, Debug, PartialEq, Eq)]
pub struct When {
    /// The moment of the step before; its own, where there was none.
    pub since: Moment,
    /// Its own.
    pub moment: Moment,
    /// From this moment on.
    pub from: Moment,
    /// Before this moment.
    pub to: Moment,
}

impl When {
    /// The moment behind the last of the step that is kept, its own one included.
    pub fn until(&self) -> Moment
        ensures { result ≡ min (self.now.moment + 1) self.now.to }
    {
        if self.moment < self.to {
            self.moment + 1
        } else {
            self.to
        }
    }

    /// Whether the moment of the step is kept.
    fn is_kept(&self) -> bool
        ensures { result ≡ lies self.now.from self.now.to self.now.moment }
    {
        self.from <= self.moment && self.moment < self.to
    }
}

impl KeptPanel {
    /// Nothing of the commands of a group of the name and the properties, which stand at the place of the settings. It
    /// fails only for want of memory.
    pub fn new(
        alloc: Global,
        group: Text<32>,
        like: u64,
        props: &GroupProps,
    ) -> Result<KeptPanel, AllocError>
        ensures named { IfOk result (λ panel. IsPanelOf group like panel) }
        ensures lanes { IfOk result (λ panel. length panel.lanes.items ≡ command_count props.now) }
        ensures steps { IfOk result (λ panel. length panel.steps.items ≡ command_count props.now) }
        ensures empty { IfOk result IsEmptyPanel }
    {
        let mut lanes = Vec::with_capacity(alloc, props.commands.len())?;
        for number in 0..props.commands.len() {
            let pooled = props.commands[number].strategy == Strategy::Thread;
            lanes.push(KeptLane::new(alloc, pooled))?;
        }
        Ok(KeptPanel {
            group,
            like,
            steps: new_lanes(alloc, props.commands.len())?,
            lanes,
            pool: Track::new(alloc),
            lives: Vec::new(alloc),
        })
    }

    /// Whether it is that of the groups of the name which began with the properties of the group of the settings at the place.
    pub(crate) fn is_of(&self, group: &Text<32>, like: u64) -> bool
        ensures own { result ≡ true → IsPanelOf group.now like self.now }
        ensures other { result ≡ false → IsPanelOf group.now like self.now → ⊥ }
    {
        self.like == like && self.group == *group
    }

    /// Begins a life: no run is under way, and each circuit breaker is closed.
    pub fn begin_life(&mut self)
        ensures lanes { EachAt self.old.lanes.items self.new.lanes.items (λ k lane next. IsNewLife lane next) }
        ensures steps { self.new.steps ≡ self.old.steps }
        ensures group { self.new.group ≡ self.old.group }
        ensures like { self.new.like ≡ self.old.like }
    {
        begin_all(&mut self.lanes);
    }

    /// Notes a step of the life at the moment, which is its first where it has not begun, and whether it changed a property.
    /// It fails only for want of memory.
    pub fn note_life(&mut self, begun: bool, moment: Moment, tuned: bool) -> Result<(), AllocError>
        ensures lanes { self.new.lanes ≡ self.old.lanes }
        ensures steps { self.new.steps ≡ self.old.steps }
        ensures group { self.new.group ≡ self.old.group }
        ensures like { self.new.like ≡ self.old.like }
    {
        if !begun {
            self.lives.push(Life {
                begin: moment,
                end: moment,
                retired: false,
                changes: u64::from(tuned),
            })?;
            return Ok(());
        }
        if let Some(life) = self.lives.last_mut() {
            life.end = moment;
            life.changes = life.changes.saturating_add(u64::from(tuned));
        }
        Ok(())
    }

    /// Notes that the life which made a step is over.
    pub fn end_life(&mut self)
        ensures lanes { self.new.lanes ≡ self.old.lanes }
        ensures steps { self.new.steps ≡ self.old.steps }
        ensures group { self.new.group ≡ self.old.group }
        ensures like { self.new.like ≡ self.old.like }
    {
        if let Some(life) = self.lives.last_mut() {
            life.retired = true;
        }
    }

    /// Makes the step, and keeps what it told of each command. It fails only for want of memory, and the step is made then.
    pub fn make_step(
        &mut self,
        groups: &mut Groups,
        step: &Step,
        reply: &mut Reply,
    ) -> Result<(), AllocError>
        ensures step { IsStep groups.old.core step.entry.now reply.new groups.new.core }
        ensures entries { groups.new.entries ≡ groups.old.entries }
        ensures there { (number : ℕ) → is_some (view_at groups.old.core number) ≡ is_some (entry_at groups.old.entries number) }
        ensures told { (s : State) → Shows groups.old.core step.entry.now.group.0 s → IsInRange s.present.props → length self.old.steps.items ≡ command_count s.present.props
            → HasTold (view s) step.entry.now.op step.entry.now.now self.new.steps.items }
        ensures count { length self.new.steps.items ≡ length self.old.steps.items }
        ensures lanes { self.new.lanes ≡ self.old.lanes }
        ensures group { self.new.group ≡ self.old.group }
        ensures like { self.new.like ≡ self.old.like }
    {
        clear_all(&mut self.steps);
        make_step(groups, &mut self.steps, step, reply)
    }

    /// Makes room in each track for the columns of the indexes from the one on and before the other. It fails only for want
    /// of memory.
    pub fn make_room(&mut self, alloc: Global, from: u64, to: u64) -> Result<(), AllocError>
        ensures lanes { OnOk result (EachAt self.old.lanes.items self.new.lanes.items (λ k lane next. HasMadeRoom from to lane next)) }
        ensures steps { self.new.steps ≡ self.old.steps }
        ensures group { self.new.group ≡ self.old.group }
        ensures like { self.new.like ≡ self.old.like }
    {
        make_room_in_all(&mut self.lanes, alloc, from, to)?;
        self.pool.make_room(alloc, from, to)
    }

    /// Joins the columns of each track ten by ten.
    pub fn join(&mut self)
        ensures lanes { EachAt self.old.lanes.items self.new.lanes.items (λ k lane next. IsJoinedLane lane next) }
        ensures steps { self.new.steps ≡ self.old.steps }
        ensures group { self.new.group ≡ self.old.group }
        ensures like { self.new.like ≡ self.old.like }
    {
        join_all(&mut self.lanes);
        self.pool.join();
    }

    /// Adds the time from the one moment on and before the other, in which each command stood as the last step left it.
    pub fn spend(&mut self, reach: &Reach, since: Moment, until: Moment)
        ensures lanes { EachAt self.old.lanes.items self.new.lanes.items (λ k lane next. HasSpent reach.now since until lane next) }
        ensures steps { self.new.steps ≡ self.old.steps }
        ensures group { self.new.group ≡ self.old.group }
        ensures like { self.new.like ≡ self.old.like }
    {
        let pool = self.pool_stay(since, until);
        spend_all(&mut self.lanes, reach, since, until);
        self.pool.spend(reach, &pool);
    }

    /// What the commands in the pool use together. It has no circuit breaker, which so stands for one that is closed.
    fn pool_stay(&self, since: Moment, until: Moment) -> Stay {
        Stay {
            since,
            until,
            circuit: CircuitState::Closed,
            busy: pool_busy(self.lanes.as_slice()),
            queued: pool_queued(self.lanes.as_slice()),
        }
    }

    /// Whether a command runs in the pool.
    pub fn has_pool(&self) -> bool
        ensures { result ≡ any_pooled self.now.lanes.items }
    {
        any_pooled(self.lanes.as_slice())
    }

    /// Adds what was done: the time from the step before to this one, and what this one told, as far as both are kept.
    pub fn add(&mut self, grid: &Grid, when: &When, core: &Core, group: GroupId)
        ensures lanes { (v : View) → view_at core.now group.0 ≡ Some v → FitsLanes v self.old.lanes.items → length self.old.steps.items ≡ length self.old.lanes.items
            → EachAt self.old.lanes.items self.new.lanes.items (λ k lane next. (step : Lane) → slice_get self.old.steps.items k ≡ Some step → HasAdded grid.now.width when.now (told_of step.tally) (circuit_of k v.present).state lane next) }
        ensures steps { self.new.steps ≡ self.old.steps }
        ensures group { self.new.group ≡ self.old.group }
        ensures like { self.new.like ≡ self.old.like }
    {
        self.add_time(grid, when);
        self.add_told(grid, when, core, group);
    }

    /// Adds the time from the step before to this one, as far as it is kept.
    fn add_time(&mut self, grid: &Grid, when: &When)
        ensures lanes { EachAt self.old.lanes.items self.new.lanes.items (λ k lane next. HasAddedTime grid.now.width when.now lane next) }
        ensures steps { self.new.steps ≡ self.old.steps }
        ensures group { self.new.group ≡ self.old.group }
        ensures like { self.new.like ≡ self.old.like }
    {
        let since = when.since.max(when.from);
        let until = when.moment.min(when.to);
        if since < until {
            self.spend(&grid.reach(since, until), since, until);
        }
    }

    /// Adds what the step told, if its moment is kept.
    fn add_told(&mut self, grid: &Grid, when: &When, core: &Core, group: GroupId)
        ensures lanes { (v : View) → view_at core.now group.0 ≡ Some v → FitsLanes v self.old.lanes.items → length self.old.steps.items ≡ length self.old.lanes.items
            → EachAt self.old.lanes.items self.new.lanes.items (λ k lane next. (step : Lane) → slice_get self.old.steps.items k ≡ Some step → HasAddedTold grid.now.width when.now (told_of step.tally) (circuit_of k v.present).state lane next) }
        ensures steps { self.new.steps ≡ self.old.steps }
        ensures group { self.new.group ≡ self.old.group }
        ensures like { self.new.like ≡ self.old.like }
    {
        if when.is_kept() {
            self.note(core, group, grid.index(when.moment), when.moment);
        }
    }

    /// Adds what the step told of each command, at its moment, to the column of the index.
    pub fn note(&mut self, core: &Core, group: GroupId, index: u64, moment: Moment)
        ensures lanes { (v : View) → view_at core.now group.0 ≡ Some v → FitsLanes v self.old.lanes.items → length self.old.steps.items ≡ length self.old.lanes.items
            → EachAt self.old.lanes.items self.new.lanes.items (λ k lane next. (step : Lane) → slice_get self.old.steps.items k ≡ Some step → HasNotedAt index moment (told_of step.tally) (closes lane.circuit (circuit_of k v.present).state) lane next) }
        ensures steps { self.new.steps ≡ self.old.steps }
        ensures group { self.new.group ≡ self.old.group }
        ensures like { self.new.like ≡ self.old.like }
    {
        note_all(
            &mut self.lanes,
            self.steps.as_slice(),
            core,
            group,
            index,
            moment,
        );
    }

    /// Keeps how each command stands behind the step, and how many runs there are of those that it touched.
    pub fn look(&mut self, core: &Core, group: GroupId, now: Moment, touched: Touched)
        ensures lanes { (v : View) → view_at core.now group.0 ≡ Some v → FitsLanes v self.old.lanes.items
            → EachAt self.old.lanes.items self.new.lanes.items (λ k lane next. HasLooked v k touched lane next) }
        ensures steps { self.new.steps ≡ self.old.steps }
        ensures group { self.new.group ≡ self.old.group }
        ensures like { self.new.like ≡ self.old.like }
    {
        look_all(&mut self.lanes, core, group, now, touched);
    }
}

/// Nothing is told of a step.
fn clear_all(steps: &mut [Lane])
    ensures { All (λ step. step.tally ≡ no_tally) steps.new }
{
    for place in 0..steps.len() {
        steps[place].tally = Tally::new();
    }
}
