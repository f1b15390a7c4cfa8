//! The step that a line asks for, its group and its command by number.

ghost use Rattle.std.specs.Prelude.{◌≡◌, ◌<◌, Err, length, map, option_copied, IfSome, MatchResult, Ok, OnErr, OnOk};
ghost use Rattle.bh_lines.specs.ScriptLine.{a_step};
ghost use Rattle.bh_base.specs.declared.step.Op.{Op};
ghost use Rattle.bh_lines.specs.StepLine.{group_number, if_short, op_view, step_view};
ghost use Rattle.bh_props.specs.Shown.{settings_view};
ghost use Rattle.bh_port.specs.declared.act.LineAct.TheVariants as acts;
ghost use Rattle.bh_port.specs.Course.{IsActOf, act_of, command_said};

use crate::act::LineAct;
use crate::commands::command_at;
use crate::groups::Groups;
use bh_base::{GroupId, GroupProps, Op, Step, Text};
use bh_faults::Fault;
use bh_lines::step_line::{StepLine, if_short};
use bh_props::Settings;
use indexmap::IndexMap;

/// Tells the step that is asked for, where the caller keeps it, or answers the fault; what is there stays then. The group
/// is looked up before its command, and both before the texts are measured.
pub(crate) fn tell_step(
    settings: &Settings,
    groups: &Groups,
    said: &StepLine<'_>,
    act: &mut LineAct,
) -> Result<(), Fault>
    ensures said { MatchResult result
        (λ _. act_of (settings_view settings.now) groups.now.entries (a_step (step_view said.entry.now)) ≡ Ok act.new)
        (λ fault. act_of (settings_view settings.now) groups.now.entries (a_step (step_view said.entry.now)) ≡ Err fault) }
    ensures act { OnOk result (IsActOf (settings_view settings.now) groups.now.entries act.new) }
    ensures kept { OnErr result (act.new ≡ act.old) }
{
    let number = groups.number(said.group).ok_or(Fault::Group)?;
    let group = GroupId(number);
    let command = command_said(settings, groups, group, said.op.command())?;
    match act {
        LineAct::Step(step) => {
            if_short(command, said.op, &mut step.op)?;
            step.group = group;
            step.now = said.now;
            Ok(())
        }
        _ => tell_first_step(group, command, said, act),
    }
}

/// Tells the step where no step was told before. It stands by itself, so that the lines behind another step do not pay for
/// the room of its locals.
#[cold]
#[inline(never)]
fn tell_first_step(
    group: GroupId,
    command: u8,
    said: &StepLine<'_>,
    act: &mut LineAct,
) -> Result<(), Fault>
    ensures said { MatchResult result
        (λ _. (o : Op) × (if_short command (op_view said.entry.now.op) ≡ Ok o) × (act.new ≡ acts.Step (record { group = group; now = said.entry.now.now; op = o })))
        (λ fault. if_short command (op_view said.entry.now.op) ≡ Err fault) }
    ensures kept { OnErr result (act.new ≡ act.old) }
{
    let mut op = Op::Start;
    if_short(command, said.op, &mut op)?;
    *act = LineAct::Step(Step {
        group,
        now: said.now,
        op,
    });
    Ok(())
}

/// The number of the group's command of the name, or of its own command where no name is said. `Command` comes where the
/// group has no command of the name.
fn command_said(
    settings: &Settings,
    groups: &Groups,
    group: GroupId,
    name: Option<&str>,
) -> Result<u8, Fault>
    ensures { result ≡ command_said (settings_view settings.now) groups.now.entries group.0 (option_copied name.entry) }
{
    match name {
        Some(name) => command_at(settings, groups, group, name).ok_or(Fault::Command),
        None => Ok(0),
    }
}

/// The number of the group of the settings that has the name, if there is one. It looks the name up by its hash.
pub fn group_number(groups: &IndexMap<Text<32>, GroupProps>, name: &str) -> Option<u64>
    ensures number { result ≡ group_number (map (λ group. group.0) groups.now.entries) name.now }
    ensures within { IfSome result (λ number. number < length groups.now.entries) }
{
    let Ok(key) = Text::new(name) else {
        return place_of(groups, name);
    };
    let number = groups.get_index_of(&key)?;
    Some(number as u64)
}

/// The place of a name that is too long for a key.
fn place_of(groups: &IndexMap<Text<32>, GroupProps>, name: &str) -> Option<u64>
    ensures number { result ≡ group_number (map (λ group. group.0) groups.now.entries) name.now }
    ensures within { IfSome result (λ number. number < length groups.now.entries) }
{
    for (i, other) in groups.keys().enumerate() {
        if other.as_str() == name {
            return Some(i as u64);
        }
    }
    None
}
