//! Control lines: what each asks, read from a line of JSON.

ghost use Rattle.std.specs.Prelude.{◌≡◌, ◌<◌, length, option_copied, IfOk};
ghost use Rattle.bh_lines.specs.Flat.{members_data};
ghost use Rattle.bh_lines.specs.StepLine.{cache_view, command_in};
ghost use Rattle.bh_control.specs.ControlLine.{control_word, request_of, control_line_for, control_line_at, group_named, control_line, IsOfGroups};

use crate::control::Control;
use bh_base::{GroupId, Request, Text, Tuning};
use bh_faults::Fault;
use bh_lines::flat::FlatObject;
use bh_lines::members::{Members, value_if_json};
use bh_lines::step_line::{cache_of, command_of, short_name, tuning_of};
use json::Scratch;
use std::alloc::{AllocError, Global};

/// The kinds of control lines, each by its word under `op`.
#[derive(Clone, Copy, Debug, PartialEq, Eq)]
pub enum ControlWord {
    Groups,
    Metrics,
    Call,
    Close,
    Totals,
    Tune,
    Properties,
}

/// What a control line asks. A group is meant by its place in the list of groups, from 0, and a command by its number in
/// its group, 0 for the group's own.
#[derive(Clone, Copy, Debug, PartialEq, Eq)]
pub enum ControlLine {
    /// The names of all groups.
    Groups,
    /// What the group's command of the number shows of itself.
    Metrics {
        group: GroupId,
        command: u8,
    },
    /// The answer to a request.
    Call {
        group: GroupId,
        request: Request,
    },
    /// The end of a request context in a group.
    Close {
        group: GroupId,
        context: u64,
    },
    /// How many events of each kind the group's command of the number has had in all.
    Totals {
        group: GroupId,
        command: u8,
    },
    /// The change of a property of the group's command of the number, or of its thread pool.
    Tune {
        group: GroupId,
        command: u8,
        tuning: Tuning,
    },
    /// The properties that are in force of the group's command of the number.
    Properties {
        group: GroupId,
        command: u8,
    },
}

/// What a line asks, or the first fault that it has.
pub type Asked = Result<ControlLine, Fault>;

impl ControlLine {
    /// What a line asks of the groups of the control, or the first fault that it has.
    ///
    /// It fails only for want of memory: the scratch grows to the length of the line, and a line that is no flat object
    /// is read as a tree.
    #[tactic(auto, unfolding(crate::specs::ControlLine::control_line))]
    pub fn parse<C: Control>(
        alloc: Global,
        scratch: &mut Scratch,
        control: &C,
        line: &str,
    ) -> Result<Asked, AllocError>
        ensures asked { IfOk result (λ said. said ≡ control_line (C.names control.now) line.now) }
        ensures group { IfOk result (λ said. IfOk said (IsOfGroups (length (C.names control.now).groups))) }
    {
        let mut object = FlatObject::new();
        if object.read(line, scratch)? {
            return Ok(control_line_at(control, Members::Flat(&object)));
        }
        match value_if_json(alloc, scratch, line)? {
            Some(value) => Ok(control_line_at(control, Members::Tree(&value))),
            None => Ok(Err(Fault::Syntax)),
        }
    }
}

/// What the members ask.
fn control_line_at<C: Control>(control: &C, members: Members<'_>) -> Asked
    ensures asked { result ≡ control_line_at (C.names control.now) (members_data members.entry) }
    ensures group { IfOk result (IsOfGroups (length (C.names control.now).groups)) }
{
    let word = members.text("op").ok_or(Fault::Field)?;
    match control_word(word).ok_or(Fault::Op)? {
        ControlWord::Groups => Ok(ControlLine::Groups),
        ControlWord::Metrics => metrics_at(control, members),
        ControlWord::Call => call_at(control, members),
        ControlWord::Close => close_at(control, members),
        ControlWord::Totals => totals_at(control, members),
        ControlWord::Tune => tune_at(control, members),
        ControlWord::Properties => properties_at(control, members),
    }
}

/// The kind of control line that a line names by this word.
fn control_word(word: &str) -> Option<ControlWord>
    ensures { result ≡ control_word word.now }
{
    match word {
        "groups" => Some(ControlWord::Groups),
        "metrics" => Some(ControlWord::Metrics),
        "call" => Some(ControlWord::Call),
        "close" => Some(ControlWord::Close),
        "totals" => Some(ControlWord::Totals),
        "tune" => Some(ControlWord::Tune),
        "properties" => Some(ControlWord::Properties),
        _ => None,
    }
}

/// What a line for metrics asks.
fn metrics_at<C: Control>(control: &C, members: Members<'_>) -> Asked
    ensures asked { result ≡ control_line_for (C.names control.now) ControlWord.Metrics (members_data members.entry) }
    ensures group { IfOk result (IsOfGroups (length (C.names control.now).groups)) }
{
    let name = members.text("group").ok_or(Fault::Field)?;
    let said = command_of(members)?;
    let group = group_named(control, name)?;
    let command = command_in(control, group, said)?;
    Ok(ControlLine::Metrics { group, command })
}

/// What a line for a call asks.
fn call_at<C: Control>(control: &C, members: Members<'_>) -> Asked
    ensures asked { result ≡ control_line_for (C.names control.now) ControlWord.Call (members_data members.entry) }
    ensures group { IfOk result (IsOfGroups (length (C.names control.now).groups)) }
{
    let name = members.text("group").ok_or(Fault::Field)?;
    let said = command_of(members)?;
    let arg = members.text("arg").ok_or(Fault::Field)?;
    let cache = cache_of(members)?;
    let group = group_named(control, name)?;
    let command = command_in(control, group, said)?;
    let request = request_of(command, cache, arg)?;
    Ok(ControlLine::Call { group, request })
}

/// What a line that closes a context asks.
fn close_at<C: Control>(control: &C, members: Members<'_>) -> Asked
    ensures asked { result ≡ control_line_for (C.names control.now) ControlWord.Close (members_data members.entry) }
    ensures group { IfOk result (IsOfGroups (length (C.names control.now).groups)) }
{
    let name = members.text("group").ok_or(Fault::Field)?;
    let context = members.number("context").ok_or(Fault::Field)?;
    let group = group_named(control, name)?;
    Ok(ControlLine::Close { group, context })
}

/// What a line for totals asks.
fn totals_at<C: Control>(control: &C, members: Members<'_>) -> Asked
    ensures asked { result ≡ control_line_for (C.names control.now) ControlWord.Totals (members_data members.entry) }
    ensures group { IfOk result (IsOfGroups (length (C.names control.now).groups)) }
{
    let name = members.text("group").ok_or(Fault::Field)?;
    let said = command_of(members)?;
    let group = group_named(control, name)?;
    let command = command_in(control, group, said)?;
    Ok(ControlLine::Totals { group, command })
}

/// What a line that changes a property asks.
fn tune_at<C: Control>(control: &C, members: Members<'_>) -> Asked
    ensures asked { result ≡ control_line_for (C.names control.now) ControlWord.Tune (members_data members.entry) }
    ensures group { IfOk result (IsOfGroups (length (C.names control.now).groups)) }
{
    let name = members.text("group").ok_or(Fault::Field)?;
    let said = command_of(members)?;
    let tuning = tuning_of(members)?;
    let group = group_named(control, name)?;
    let command = command_in(control, group, said)?;
    Ok(ControlLine::Tune {
        group,
        command,
        tuning,
    })
}

/// What a line for the properties in force asks.
fn properties_at<C: Control>(control: &C, members: Members<'_>) -> Asked
    ensures asked { result ≡ control_line_for (C.names control.now) ControlWord.Properties (members_data members.entry) }
    ensures group { IfOk result (IsOfGroups (length (C.names control.now).groups)) }
{
    let name = members.text("group").ok_or(Fault::Field)?;
    let said = command_of(members)?;
    let group = group_named(control, name)?;
    let command = command_in(control, group, said)?;
    Ok(ControlLine::Properties { group, command })
}

/// The request of the command of this number, unless a text is too long.
fn request_of(command: u8, cache: Option<(u64, &str)>, arg: &str) -> Result<Request, Fault>
    ensures { result ≡ request_of command (cache_view cache.entry) arg.now }
{
    match (short_name(cache), Text::new(arg)) {
        (Ok(cache), Ok(arg)) => Ok(Request {
            command,
            cache,
            arg,
        }),
        _ => Err(Fault::Long),
    }
}

/// The group of the name.
fn group_named<C: Control>(control: &C, name: &str) -> Result<GroupId, Fault>
    ensures group { result ≡ group_named (C.names control.now) name.now }
    ensures within { IfOk result (λ group. group.0 < length (C.names control.now).groups) }
{
    control.group(name).ok_or(Fault::Group)
}

/// The number of the group's command of the name, or of its own command where no name is said.
fn command_in<C: Control>(control: &C, group: GroupId, said: Option<&str>) -> Result<u8, Fault>
    ensures { result ≡ command_in (C.names control.now) group.0 (option_copied said.entry) }
{
    match said {
        Some(name) => control.command(group, name).ok_or(Fault::Command),
        None => Ok(0),
    }
}
