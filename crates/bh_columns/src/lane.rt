//! What is kept of the commands of a group.

ghost use Rattle.std.specs.Prelude.{◌≡◌, ◌<◌, ◌≤◌, length, slice_get, OnOk, Some};
ghost use Rattle.bh_base.specs.Commands.{command_count};
ghost use Rattle.bh_base.specs.Machine.{circuit_of};
ghost use Rattle.bh_base.specs.Runs.{View};
ghost use Rattle.bh_core.specs.CoreView.{view_at};
ghost use Rattle.bh_look.specs.declared.lane.Lane.{Lane};
ghost use Rattle.bh_columns.specs.Columns.{told_of};
ghost use Rattle.bh_columns.specs.Panels.{EachAt, FitsLanes, HasLooked, HasMadeRoom, HasNotedAt, HasSpent, IsJoinedLane, IsNewLife, any_pooled, is_touched, lane_stay};
ghost use Rattle.bh_columns.specs.Placed.{IsEmptyLane};
ghost use Rattle.bh_columns.specs.Steps.{closes, is_closed};

use crate::column::told_of;
use crate::stay::Stay;
use crate::track::{Reach, Track};
use bh_base::{CircuitState, GroupId, Moment};
use bh_core::Core;
use bh_look::lane::Lane;
use bh_look::tally::Tally;
use std::alloc::{AllocError, Global};

/// The longest window that metrics may have, in milliseconds.
const LONGEST_WINDOW: u64 = 3_600_000;

/// What is kept of a command.
#[derive(Drop)]
pub struct KeptLane {
    /// Whether its strategy is THREAD.
    pub pooled: bool,
    /// How its circuit breaker stands since the last step.
    pub circuit: CircuitState,
    /// How many of its runs are under way since then.
    pub busy: u64,
    /// How many of its tickets wait for a worker since then.
    pub queued: u64,
    pub track: Track,
}

/// Whose runs a step may have begun, ended or let wait.
#[derive(Clone, Copy, Debug, PartialEq, Eq)]
pub enum Touched {
    None,
    Command(u8),
    All,
}

impl KeptLane {
    /// Nothing of a command, whose strategy is THREAD or not.
    pub(crate) fn new(alloc: Global, pooled: bool) -> KeptLane
        ensures pooled { result.pooled ≡ pooled }
        ensures empty { IsEmptyLane result }
    {
        KeptLane {
            pooled,
            circuit: CircuitState::Closed,
            busy: 0,
            queued: 0,
            track: Track::new(alloc),
        }
    }

    /// The time from the one moment on and before the other, in which nothing changes.
    pub fn stay(&self, since: Moment, until: Moment) -> Stay
        ensures { result ≡ lane_stay since until self.now }
    {
        Stay {
            since,
            until,
            circuit: self.circuit,
            busy: self.busy,
            queued: self.queued,
        }
    }

    /// Adds the time from the one moment on and before the other.
    fn spend(&mut self, reach: &Reach, since: Moment, until: Moment)
        ensures { HasSpent reach.now since until self.old self.new }
    {
        let stay = self.stay(since, until);
        self.track.spend(reach, &stay);
    }

    /// Adds to the column of the index what a step told at the moment, behind which the circuit breaker stands so.
    fn note(&mut self, index: u64, moment: Moment, told: &Tally, after: CircuitState)
        ensures { HasNotedAt index moment told.now (closes self.old.circuit after) self.old self.new }
    {
        let closes = closes(self.circuit, after);
        self.track.note(index, moment, told, closes);
    }

    /// Keeps how the circuit breaker of the command stands, and, where they were touched, how many runs there are.
    fn look(&mut self, core: &Core, group: GroupId, command: u8, now: Moment, touched: Touched)
        ensures { (v : View) → view_at core.now group.0 ≡ Some v → command < command_count v.present.props → HasLooked v command touched self.old self.new }
    {
        self.circuit = circuit_of(core, group, command);
        if !is_touched(touched, command) {
            return;
        }
        // How many runs there are is the same at each moment, and a window later there are no events to be added up.
        let later = now.saturating_add(LONGEST_WINDOW);
        if let Some(metrics) = core.metrics(group, command, later) {
            self.busy = metrics.busy;
            self.queued = metrics.queued;
        }
    }

    /// Begins a life: no run is under way, and the circuit breaker is closed.
    fn begin_life(&mut self)
        ensures { IsNewLife self.old self.new }
    {
        self.circuit = CircuitState::Closed;
        self.busy = 0;
        self.queued = 0;
    }

    /// Makes room for the columns of the indexes from the one on and before the other. It fails only for want of memory.
    fn make_room(&mut self, alloc: Global, from: u64, to: u64) -> Result<(), AllocError>
        ensures { OnOk result (HasMadeRoom from to self.old self.new) }
    {
        self.track.make_room(alloc, from, to)
    }

    /// Joins the columns ten by ten.
    fn join(&mut self)
        ensures { IsJoinedLane self.old self.new }
    {
        self.track.join();
    }
}

/// Adds the time from the one moment on and before the other to each lane.
pub fn spend_all(lanes: &mut [KeptLane], reach: &Reach, since: Moment, until: Moment)
    ensures { EachAt lanes.old lanes.new (λ k lane next. HasSpent reach.now since until lane next) }
{
    for place in 0..lanes.len() {
        lanes[place].spend(reach, since, until);
    }
}

/// Adds to each lane what the step at the moment told of its command, in the column of the index.
pub fn note_all(
    lanes: &mut [KeptLane],
    steps: &[Lane],
    core: &Core,
    group: GroupId,
    index: u64,
    moment: Moment,
)
    ensures { (v : View) → view_at core.now group.0 ≡ Some v → FitsLanes v lanes.old → length steps.now ≡ length lanes.old
        → EachAt lanes.old lanes.new (λ k lane next. (step : Lane) → slice_get steps.now k ≡ Some step → HasNotedAt index moment (told_of step.tally) (closes lane.circuit (circuit_of k v.present).state) lane next) }
{
    for command in 0..lane_count(lanes) {
        let told = told_at(steps, command);
        let after = circuit_of(core, group, command);
        lanes[command as usize].note(index, moment, &told, after);
    }
}

/// What the step told of the command.
fn told_at(steps: &[Lane], command: u8) -> Tally
    ensures { (step : Lane) → slice_get steps.now command ≡ Some step → result ≡ told_of step.tally }
{
    match steps.get(command as usize) {
        Some(step) => told_of(&step.tally),
        None => Tally::new(),
    }
}

/// Keeps how each command stands behind a step.
pub fn look_all(lanes: &mut [KeptLane], core: &Core, group: GroupId, now: Moment, touched: Touched)
    ensures { (v : View) → view_at core.now group.0 ≡ Some v → FitsLanes v lanes.old
        → EachAt lanes.old lanes.new (λ k lane next. HasLooked v k touched lane next) }
{
    for command in 0..lane_count(lanes) {
        lanes[command as usize].look(core, group, command, now, touched);
    }
}

/// Begins a life of each command.
pub fn begin_all(lanes: &mut [KeptLane])
    ensures { EachAt lanes.old lanes.new (λ k lane next. IsNewLife lane next) }
{
    for place in 0..lanes.len() {
        lanes[place].begin_life();
    }
}

/// Makes room in each lane for the columns of the indexes from the one on and before the other. It fails only for want of
/// memory.
pub fn make_room_in_all(
    lanes: &mut [KeptLane],
    alloc: Global,
    from: u64,
    to: u64,
) -> Result<(), AllocError>
    ensures { OnOk result (EachAt lanes.old lanes.new (λ k lane next. HasMadeRoom from to lane next)) }
{
    for place in 0..lanes.len() {
        lanes[place].make_room(alloc, from, to)?;
    }
    Ok(())
}

/// Joins the columns of each lane ten by ten.
pub fn join_all(lanes: &mut [KeptLane])
    ensures { EachAt lanes.old lanes.new (λ k lane next. IsJoinedLane lane next) }
{
    for place in 0..lanes.len() {
        lanes[place].join();
    }
}

/// Whether a command runs in the pool.
pub fn any_pooled(lanes: &[KeptLane]) -> bool
    ensures { result ≡ any_pooled lanes.now }
{
    for lane in lanes {
        if lane.pooled {
            return true;
        }
    }
    false
}

/// How many runs of the lanes in the pool are under way.
pub fn pool_busy(lanes: &[KeptLane]) -> u64 {
    let mut busy = 0u64;
    for lane in lanes {
        if lane.pooled {
            busy = busy.saturating_add(lane.busy);
        }
    }
    busy
}

/// How many tickets of the lanes in the pool wait for a worker.
pub fn pool_queued(lanes: &[KeptLane]) -> u64 {
    let mut queued = 0u64;
    for lane in lanes {
        if lane.pooled {
            queued = queued.saturating_add(lane.queued);
        }
    }
    queued
}

/// How many lanes there are: a group has 16 commands at most.
fn lane_count(lanes: &[KeptLane]) -> u8
    ensures within { result ≤ length lanes.now }
    ensures all { length lanes.now ≤ 16 → result ≡ length lanes.now }
{
    lanes.len().min(16) as u8
}

/// Whether the command's runs may have been touched.
fn is_touched(touched: Touched, command: u8) -> bool
    ensures { result ≡ is_touched touched command }
{
    match touched {
        Touched::None => false,
        Touched::Command(number) => number == command,
        Touched::All => true,
    }
}

/// How the circuit breaker of the command stands.
fn circuit_of(core: &Core, group: GroupId, command: u8) -> CircuitState
    ensures { (v : View) → view_at core.now group.0 ≡ Some v → command < command_count v.present.props → result ≡ (circuit_of command v.present).state }
{
    match core.circuit(group, command) {
        Some(circuit) => circuit,
        None => CircuitState::Closed,
    }
}

/// Whether the circuit breaker closed.
fn closes(before: CircuitState, after: CircuitState) -> bool
    ensures { result ≡ closes before after }
{
    is_closed(after) && !is_closed(before)
}

/// Whether the circuit breaker is closed.
fn is_closed(circuit: CircuitState) -> bool
    ensures { result ≡ is_closed circuit }
{
    match circuit {
        CircuitState::Closed => true,
        CircuitState::Open(_) => false,
        CircuitState::HalfOpen(_, _) => false,
    }
}
