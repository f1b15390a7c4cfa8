//! One step, and what it did to the commands of its group: looks before the step and behind it, and its reply.

ghost use Rattle.std.specs.Prelude.{◌≡◌, ◌<◌, ◌≤◌, ℕ, Some, is_some, length, option_map};
ghost use Rattle.bh_base.specs.Commands.{command_count};
ghost use Rattle.bh_base.specs.Ranges.{IsInRange};
ghost use Rattle.bh_base.specs.Runs.{State, View, view};
ghost use Rattle.bh_core.specs.CoreView.{Shows, view_at};
ghost use Rattle.bh_core.specs.Looks.{ticket_meant};
ghost use Rattle.bh_core.specs.Step.{IsStep};
ghost use Rattle.bh_port.specs.Entries.{entry_at};
ghost use Rattle.bh_look.specs.Kinds.{kind_told};
ghost use Rattle.bh_look.specs.Looked.{AsksTimeouts, EachLane, Fits, HasAdded, HasNoted, IsShown, tally_looked, timeouts_at};
ghost use Rattle.bh_look.specs.Steps.{command_meant, tally_with, with_told};

use crate::kind::{Kind, kind_told};
use crate::lane::{Lane, Shown};
use bh_base::{CircuitState, GroupId, Moment, Op, Reply, Step, TicketState};
use bh_core::Core;
use bh_port::groups::Groups;
use std::alloc::AllocError;

/// What the step's ticket was before the step, if the operation says one.
#[derive(Clone, Copy, Debug)]
struct Before {
    command: u8,
    submitted: Moment,
    /// Whether it had its answer.
    answered: bool,
}

/// Makes the step, and adds what it did to the lanes of the group's commands. It fails only for want of memory for a time,
/// and the step is made then.
pub fn make_step(
    groups: &mut Groups,
    lanes: &mut [Lane],
    step: &Step,
    reply: &mut Reply,
) -> Result<(), AllocError>
    ensures step { IsStep groups.old.core step.entry.now reply.new groups.new.core }
    ensures entries { groups.new.entries ≡ groups.old.entries }
    ensures there { (number : ℕ) → is_some (view_at groups.old.core number) ≡ is_some (entry_at groups.old.entries number) }
    ensures tallies { (s : State) → Shows groups.old.core step.entry.now.group.0 s → IsInRange s.present.props → length lanes.old ≡ command_count s.present.props
        → EachLane lanes.old lanes.new (λ k lane next. next.tally ≡ tally_with (view s) step.entry.now.op step.entry.now.now k lane.tally) }
{
    let ticket = ticket_before(groups.core(), step.group, &step.op);
    let began = groups.core().latest(step.group);
    let expires = expires_some(groups.core(), step.group, step.now, &step.op);
    note_looks(groups.core(), lanes, step.group, step.now, expires);
    groups.apply_to(step.group, step.now, &step.op, reply);
    let moment = groups.core().latest(step.group);
    let passed = moment.saturating_sub(began);
    add_looks(groups.core(), lanes, step.group, step.now, passed, expires);
    add_told(
        lanes,
        kind_told(&step.op, reply),
        command_of(&step.op, ticket),
    );
    match newly_answered(&step.op, reply, ticket) {
        Some(before) => {
            let time = moment.saturating_sub(before.submitted);
            add_time(lanes, before.command as usize, time)
        }
        None => Ok(()),
    }
}

/// Whether tickets would time out in the step.
fn expires_some(core: &Core, group: GroupId, now: Moment, op: &Op) -> bool
    ensures { (v : View) → view_at core.now group.0 ≡ Some v → AsksTimeouts v op.now now result }
{
    match op {
        Op::Expire => core.due(group, now),
        _ => false,
    }
}

/// The ticket that the step goes by, before it.
fn ticket_before(core: &Core, group: GroupId, op: &Op) -> Option<Before>
    ensures { (v : View) → view_at core.now group.0 ≡ Some v → option_map (λ b. b.command) result ≡ option_map (λ t. t.command) (ticket_meant op.now v.present.tickets) }
{
    let ticket = core.ticket(group, op)?;
    Some(Before {
        command: ticket.command,
        submitted: ticket.submitted,
        answered: matches!(ticket.state, TicketState::Answered(_)),
    })
}

/// How many lanes there are: a group has 16 commands at most.
fn lane_count(lanes: &[Lane]) -> u8
    ensures within { result ≤ length lanes.now }
    ensures all { length lanes.now ≤ 16 → result ≡ length lanes.now }
{
    lanes.len().min(16) as u8
}

/// Notes in each lane what its command shows before the step.
fn note_looks(core: &Core, lanes: &mut [Lane], group: GroupId, now: Moment, asks: bool)
    ensures { (v : View) → view_at core.now group.0 ≡ Some v → Fits v lanes.old
        → EachLane lanes.old lanes.new (λ k lane next. HasNoted v k now asks lane next) }
{
    for command in 0..lane_count(lanes) {
        lanes[command as usize].before = shown(core, group, command, now, asks);
    }
}

/// What a command shows at the moment, its timeouts only where they are asked for.
fn shown(core: &Core, group: GroupId, command: u8, now: Moment, asks: bool) -> Shown
    ensures { (v : View) → view_at core.now group.0 ≡ Some v → command < command_count v.present.props → IsShown v command now asks result }
{
    let circuit = match core.circuit(group, command) {
        Some(circuit) => circuit,
        None => CircuitState::Closed,
    };
    let timeouts = if asks {
        timeouts_at(core, group, command, now)
    } else {
        0
    };
    Shown { circuit, timeouts }
}

/// The timeouts in the window of the command at the moment.
fn timeouts_at(core: &Core, group: GroupId, command: u8, now: Moment) -> u64
    ensures { (v : View) → view_at core.now group.0 ≡ Some v → command < command_count v.present.props → result ≡ timeouts_at v command now }
{
    match core.metrics(group, command, now) {
        Some(metrics) => metrics.counts.timeout,
        None => 0,
    }
}

/// Adds to each lane what its command shows differently behind the step: what timed out, whether the circuit opened, and
/// in which state so many milliseconds passed.
fn add_looks(core: &Core, lanes: &mut [Lane], group: GroupId, now: Moment, passed: u64, asks: bool)
    ensures { (v : View) → view_at core.now group.0 ≡ Some v → Fits v lanes.old
        → EachLane lanes.old lanes.new (λ k lane next. HasAdded v k now asks passed lane next) }
{
    for command in 0..lane_count(lanes) {
        let after = shown(core, group, command, now, asks);
        add_look(&mut lanes[command as usize], after, passed);
    }
}

/// Adds to the lane what is shown differently.
fn add_look(lane: &mut Lane, after: Shown, passed: u64)
    ensures { lane.new.tally ≡ tally_looked lane.old.before after passed lane.old.tally }
{
    let before = lane.before;
    lane.tally.spend(before.circuit, passed);
    lane.tally.count_trip(before.circuit, after.circuit);
    lane.tally
        .count_timeouts(after.timeouts.saturating_sub(before.timeouts));
}

/// Adds what the reply tells of the request, to the lane of its command.
fn add_told(lanes: &mut [Lane], kind: Option<Kind>, command: Option<u8>)
    ensures { EachLane lanes.old lanes.new (λ k lane next. next.tally ≡ with_told command kind k lane.tally) }
{
    let Some(command) = command else {
        return;
    };
    let Some(kind) = kind else {
        return;
    };
    let place = command as usize;
    if place < lanes.len() {
        lanes[place].tally.count(kind);
    }
}

/// The command of the request that the step is of.
fn command_of(op: &Op, ticket: Option<Before>) -> Option<u8>
    ensures { (v : View) → option_map (λ b. b.command) ticket ≡ option_map (λ t. t.command) (ticket_meant op.now v.present.tickets) → result ≡ command_meant op.now v.present.tickets }
{
    match op {
        Op::Submit(request) => Some(request.command),
        _ => match ticket {
            Some(before) => Some(before.command),
            None => None,
        },
    }
}

/// The ticket, where the step gave it its answer.
fn newly_answered(op: &Op, reply: &Reply, ticket: Option<Before>) -> Option<Before> {
    match ticket {
        Some(before) if !before.answered && gives_answer(op, reply) => Some(before),
        _ => None,
    }
}

/// Whether the reply says that the ticket has an answer now.
fn gives_answer(op: &Op, reply: &Reply) -> bool {
    match reply {
        Reply::Answered(_) => true,
        Reply::Done => !matches!(op, Op::Fail { bad: false, .. }),
        _ => false,
    }
}

/// Adds the time from a ticket's submit to its answer to the lane at the place. It fails only for want of memory.
fn add_time(lanes: &mut [Lane], place: usize, milliseconds: u64) -> Result<(), AllocError>
    ensures { EachLane lanes.old lanes.new (λ k lane next. next.tally ≡ lane.tally) }
{
    if place >= lanes.len() {
        return Ok(());
    }
    lanes[place].times.add(milliseconds)
}
