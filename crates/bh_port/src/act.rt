//! What a line asks of the groups of a run, and what it is told.

ghost use Rattle.std.specs.Prelude.{◌≡◌, Err, IfOk, IfSome, MatchOption, MatchResult, Ok, OnErr, OnOk, option_copied};
ghost use Rattle.bh_replies.specs.declared.told.Told.TheVariants as told;
ghost use Rattle.bh_lines.specs.Flat.{members_data};
ghost use Rattle.bh_lines.specs.Plain.{IsFrontOf};
ghost use Rattle.bh_lines.specs.ScriptLine.{asked_at};
ghost use Rattle.bh_props.specs.SettingsView.{SettingsView};
ghost use Rattle.bh_props.specs.Shown.{settings_view};
ghost use Rattle.bh_port.specs.declared.act.LineAct.TheVariants as act;
ghost use Rattle.bh_port.specs.CommandPlaces.{AreCommandPlaces};
ghost use Rattle.bh_port.specs.Course.{Course, IsActOf, act_asked, is_free, line_act, registration, retirement};
ghost use Rattle.bh_port.specs.Script.{GroupsShow, IsSaid};
ghost use Rattle.bh_port.specs.Text.{told_by, with_act};

use crate::commands::{assigned_command, further_command};
use crate::groups::Groups;
use crate::places::CommandPlaces;
use crate::steps::{group_number, tell_step};
use bh_base::{GroupId, Reply, Step, Text};
use bh_core::MOST_GROUPS;
use bh_faults::Fault;
use bh_lines::flat::FlatObject;
use bh_lines::members::{Members, value_if_json};
use bh_lines::script_line::{ScriptLine, asked_at};
use bh_props::{Settings, is_name};
use bh_replies::Told;
use json::Scratch;
use std::alloc::{AllocError, Global};

/// What a line asks for, its names looked up.
#[derive(Clone, Copy, Debug)]
pub enum LineAct {
    Step(Step),
    /// One group more, of the name: it is like the group of the settings at the place, from 0.
    Register { name: Text<32>, like: u64 },
    /// The end of the group.
    Retire(GroupId),
}

/// Tells what a line asks for in a service that has these groups, or answers its fault. It is told where the caller keeps
/// it, since a step is too long to be copied at each return, and what is there stays where nothing is told: at a fault, and
/// for want of memory, which is all that it fails for.
pub fn line_act(
    alloc: Global,
    settings: &Settings,
    groups: &Groups,
    scratch: &mut Scratch,
    line: &str,
    act: &mut LineAct,
) -> Result<Result<(), Fault>, AllocError>
    ensures said { IfOk result (λ said. MatchResult said
        (λ _. line_act (settings_view settings.now) groups.now.entries line.now ≡ Ok act.new)
        (λ fault. line_act (settings_view settings.now) groups.now.entries line.now ≡ Err fault)) }
    ensures act { IfOk result (λ said. OnOk said (IsActOf (settings_view settings.now) groups.now.entries act.new)) }
    ensures kept { MatchResult result (λ said. OnErr said (act.new ≡ act.old)) (λ _. act.new ≡ act.old) }
{
    let mut object = FlatObject::new();
    match plain_act(settings, groups, &mut object, line, act) {
        Some(said) => Ok(said),
        None => other_act(alloc, settings, groups, scratch, &object, line, act),
    }
}

/// The same of a plain line, and nothing of any other but what its front is. It takes no memory, and one object serves for all
/// lines.
#[tactic(auto, unfolding(bh_lines::specs::ScriptLine::line_asked, crate::specs::Course::line_act))]
pub(crate) fn plain_act<'a>(
    settings: &Settings,
    groups: &Groups,
    object: &mut FlatObject<'a>,
    line: &'a str,
    act: &mut LineAct,
) -> Option<Result<(), Fault>>
    ensures said { IfSome result (IsSaid (settings_view settings.now) groups.now.entries line.now act.new) }
    ensures act { IfSome result (λ said. OnOk said (IsActOf (settings_view settings.now) groups.now.entries act.new)) }
    ensures kept { MatchOption result (act.new ≡ act.old) (λ said. OnErr said (act.new ≡ act.old)) }
    ensures front { IsFrontOf line.now object.new }
{
    if !object.read_plain(line) {
        return None;
    }
    Some(act_at(settings, groups, Members::Flat(object), act))
}

/// The same of any line, of which the front was read.
#[tactic(auto, unfolding(bh_lines::specs::ScriptLine::line_asked, crate::specs::Course::line_act))]
pub(crate) fn other_act(
    alloc: Global,
    settings: &Settings,
    groups: &Groups,
    scratch: &mut Scratch,
    front: &FlatObject<'_>,
    line: &str,
    act: &mut LineAct,
) -> Result<Result<(), Fault>, AllocError>
    requires { IsFrontOf line.now front.now }
    ensures said { IfOk result (IsSaid (settings_view settings.now) groups.now.entries line.now act.new) }
    ensures act { IfOk result (λ said. OnOk said (IsActOf (settings_view settings.now) groups.now.entries act.new)) }
    ensures kept { MatchResult result (λ said. OnErr said (act.new ≡ act.old)) (λ _. act.new ≡ act.old) }
{
    let mut object = FlatObject::new();
    if object.read_rest(front, line, scratch)? {
        return Ok(act_at(settings, groups, Members::Flat(&object), act));
    }
    match value_if_json(alloc, scratch, line)? {
        Some(value) => Ok(act_at(settings, groups, Members::Tree(&value), act)),
        None => Ok(Err(Fault::Syntax)),
    }
}

/// Tells what the members ask for, or answers the fault.
fn act_at(
    settings: &Settings,
    groups: &Groups,
    members: Members<'_>,
    act: &mut LineAct,
) -> Result<(), Fault>
    ensures said { MatchResult result
        (λ _. act_asked (settings_view settings.now) groups.now.entries (asked_at (members_data members.entry)) ≡ Ok act.new)
        (λ fault. act_asked (settings_view settings.now) groups.now.entries (asked_at (members_data members.entry)) ≡ Err fault) }
    ensures act { OnOk result (IsActOf (settings_view settings.now) groups.now.entries act.new) }
    ensures kept { OnErr result (act.new ≡ act.old) }
{
    match &asked_at(members) {
        Ok(ScriptLine::Step(said)) => tell_step(settings, groups, said, act),
        Ok(ScriptLine::Register { group, like }) => {
            tell_registration(settings, groups, *group, *like, act)
        }
        Ok(ScriptLine::Retire { group }) => tell_retirement(groups, *group, act),
        Err(fault) => Err(*fault),
    }
}

/// Tells of a new group of the name, like the group of the settings that has the other one. `Name` comes where it cannot
/// have the name, then `Like` where the settings list no group of the other one, and `Groups` where 2^40 groups were
/// registered.
fn tell_registration(
    settings: &Settings,
    groups: &Groups,
    name: &str,
    like: &str,
    act: &mut LineAct,
) -> Result<(), Fault>
    ensures said { MatchResult result
        (λ _. registration (settings_view settings.now) groups.now.entries name.now like.now ≡ Ok act.new)
        (λ fault. registration (settings_view settings.now) groups.now.entries name.now like.now ≡ Err fault) }
    ensures act { OnOk result (IsActOf (settings_view settings.now) groups.now.entries act.new) }
    ensures kept { OnErr result (act.new ≡ act.old) }
{
    if !is_free(settings, groups, name) {
        return Err(Fault::Name);
    }
    let like = group_number(&settings.groups, like).ok_or(Fault::Like)?;
    if groups.count() as u64 >= MOST_GROUPS {
        return Err(Fault::Groups);
    }
    let name = Text::new(name).unwrap();
    *act = LineAct::Register { name, like };
    Ok(())
}

/// Whether a group may be registered under the name.
fn is_free(settings: &Settings, groups: &Groups, name: &str) -> bool
    ensures { result ≡ is_free (settings_view settings.now) groups.now.entries name.now }
{
    is_name(name)
        && groups.number(name).is_none()
        && further_command(&settings.commands, name).is_none()
}

/// Tells of the end of the group of the name. `Group` comes where none of the name is there.
fn tell_retirement(groups: &Groups, name: &str, act: &mut LineAct) -> Result<(), Fault>
    ensures said { MatchResult result
        (λ _. retirement groups.now.entries name.now ≡ Ok act.new)
        (λ fault. retirement groups.now.entries name.now ≡ Err fault) }
    ensures act { OnOk result ((service : SettingsView) → IsActOf service groups.now.entries act.new) }
    ensures kept { OnErr result (act.new ≡ act.old) }
{
    let number = groups.number(name).ok_or(Fault::Group)?;
    *act = LineAct::Retire(GroupId(number));
    Ok(())
}

impl Groups {
    /// Does what a line asks for, and says what the line is told. It fails only for want of memory, and nothing has changed
    /// then; a step and a retirement need none.
    pub fn act(&mut self, settings: &Settings, act: &LineAct) -> Result<Told, AllocError>
        requires { IsActOf (settings_view settings.now) self.old.entries act.now }
        ensures told { IfOk result (λ told. (before : Course) → GroupsShow (settings_view settings.now) self.old before →
            told ≡ told_by (settings_view settings.now) before act.now) }
        ensures agrees { OnOk result ((before : Course) → GroupsShow (settings_view settings.now) self.old before →
            GroupsShow (settings_view settings.now) self.new (with_act (settings_view settings.now) before act.now)) }
        ensures err { OnErr result (self.new ≡ self.old) }
    {
        match act {
            LineAct::Step(step) => {
                let mut reply = Reply::NoGroup;
                let command = self.make_step(settings, None, step, &mut reply);
                let command = command.copied();
                Ok(Told::Reply { reply, command })
            }
            LineAct::Register { name, like } => {
                self.register(settings, *name, *like)?;
                Ok(Told::Registered(*name))
            }
            LineAct::Retire(group) => {
                if self.retire(*group) {
                    Ok(Told::Retired)
                } else {
                    Ok(Told::Held)
                }
            }
        }
    }

    /// Makes the step that a line asks for, writes its reply where the caller keeps it, and answers the name of the further
    /// command whose run is assigned, as in `Told::Reply`, where the settings have it: a line is told both.
    pub(crate) fn make_step<'a>(
        &mut self,
        settings: &'a Settings,
        places: Option<&CommandPlaces>,
        step: &Step,
        reply: &mut Reply,
    ) -> Option<&'a Text<32>>
        requires act { IsActOf (settings_view settings.now) self.old.entries (act.Step step.now) }
        requires places { IfSome places (λ places. AreCommandPlaces (settings_view settings.now).commands places.now) }
        ensures told { (before : Course) → GroupsShow (settings_view settings.now) self.old before →
            told.Reply reply.new (option_copied result) ≡ told_by (settings_view settings.now) before (act.Step step.entry.now) }
        ensures agrees { (before : Course) → GroupsShow (settings_view settings.now) self.old before →
            GroupsShow (settings_view settings.now) self.new (with_act (settings_view settings.now) before (act.Step step.entry.now)) }
        ensures entries { self.new.entries ≡ self.old.entries }
    {
        self.apply_to(step.group, step.now, &step.op, reply);
        assigned_command(settings, places, self, step.group, reply)
    }
}
