//! What a line asks of a service that connections share.

ghost use Rattle.std.specs.Prelude.{◌≡◌, ◌<◌, length, option_copied, IfOk};
ghost use Rattle.bh_lines.specs.Flat.{members_data};
ghost use Rattle.bh_lines.specs.StepLine.{command_in};
ghost use Rattle.bh_share.specs.ShareLine.{IsOfGroups, group_named, share_line, share_line_at, share_line_for, share_word, wait_said, waits};

use crate::directory::Directory;
use bh_base::{GroupId, Op};
use bh_faults::Fault;
use bh_lines::flat::FlatObject;
use bh_lines::members::{Members, value_if_json};
use bh_lines::step_line::{OpWord, command_of, if_short, op_at};
use json::Scratch;
use std::alloc::{AllocError, Global};

/// The kinds of lines, each by its word under `op`. `expire` and `read` are no words here: the service keeps the time, and
/// `metrics` is asked for.
#[derive(Clone, Copy, Debug, PartialEq, Eq)]
pub enum ShareWord {
    Groups,
    Metrics,
    Properties,
    Enter,
    Step(OpWord),
}

/// What a line asks of groups by their places, and of commands by their numbers.
#[derive(Clone, Copy, Debug, PartialEq, Eq)]
pub enum ShareLine {
    /// The names of all groups.
    Groups,
    /// The properties that are in force of the group's command of the number. No step is made.
    Properties {
        group: GroupId,
        command: u8,
    },
    /// The connection is within the request context of the group from now on. No step is made.
    Enter {
        group: GroupId,
        context: u64,
    },
    /// A step of the group, at the moment at which it is made.
    Step {
        group: GroupId,
        op: Op,
        /// Whether the answer is to come once it is no longer `Pending` or `Idle`: only of a collect and a start.
        wait: bool,
    },
}

/// What a line asks, or the first fault that it has.
pub type Asked = Result<ShareLine, Fault>;

impl ShareLine {
    /// What a line asks of the groups of the directory, or the first fault that it has.
    ///
    /// It fails only for want of memory: the scratch grows to the length of the line, and a line that is no flat object
    /// is read as a tree.
    #[tactic(auto, unfolding(crate::specs::ShareLine::share_line))]
    pub fn parse<D: Directory>(
        alloc: Global,
        scratch: &mut Scratch,
        directory: &D,
        line: &str,
    ) -> Result<Asked, AllocError>
        ensures asked { IfOk result (λ said. said ≡ share_line (D.names directory.now) line.now) }
        ensures group { IfOk result (λ said. IfOk said (IsOfGroups (length (D.names directory.now).groups))) }
    {
        let mut object = FlatObject::new();
        if object.read(line, scratch)? {
            return Ok(share_line_at(directory, Members::Flat(&object)));
        }
        match value_if_json(alloc, scratch, line)? {
            Some(value) => Ok(share_line_at(directory, Members::Tree(&value))),
            None => Ok(Err(Fault::Syntax)),
        }
    }
}

/// What the members ask.
fn share_line_at<D: Directory>(directory: &D, members: Members<'_>) -> Asked
    ensures asked { result ≡ share_line_at (D.names directory.now) (members_data members.entry) }
    ensures group { IfOk result (IsOfGroups (length (D.names directory.now).groups)) }
{
    let word = members.text("op").ok_or(Fault::Field)?;
    match share_word(word).ok_or(Fault::Op)? {
        ShareWord::Groups => Ok(ShareLine::Groups),
        ShareWord::Metrics => metrics_at(directory, members),
        ShareWord::Properties => properties_at(directory, members),
        ShareWord::Enter => enter_at(directory, members),
        ShareWord::Step(word) => step_at(directory, word, members),
    }
}

/// The kind of line that a line names by this word.
fn share_word(word: &str) -> Option<ShareWord>
    ensures { result ≡ share_word word.now }
{
    match word {
        "groups" => Some(ShareWord::Groups),
        "metrics" => Some(ShareWord::Metrics),
        "properties" => Some(ShareWord::Properties),
        "submit" => Some(ShareWord::Step(OpWord::Submit)),
        "start" => Some(ShareWord::Step(OpWord::Start)),
        "finish" => Some(ShareWord::Step(OpWord::Finish)),
        "fail" => Some(ShareWord::Step(OpWord::Fail)),
        "collect" => Some(ShareWord::Step(OpWord::Collect)),
        "fallback" => Some(ShareWord::Step(OpWord::FallbackDone)),
        "close" => Some(ShareWord::Step(OpWord::Close)),
        "totals" => Some(ShareWord::Step(OpWord::Totals)),
        "tune" => Some(ShareWord::Step(OpWord::Tune)),
        "enter" => Some(ShareWord::Enter),
        _ => None,
    }
}

/// What a line for metrics asks.
fn metrics_at<D: Directory>(directory: &D, members: Members<'_>) -> Asked
    ensures asked { result ≡ share_line_for (D.names directory.now) ShareWord.Metrics (members_data members.entry) }
    ensures group { IfOk result (IsOfGroups (length (D.names directory.now).groups)) }
{
    let name = members.text("group").ok_or(Fault::Field)?;
    let said = command_of(members)?;
    let group = group_named(directory, name)?;
    let command = command_in(directory, group, said)?;
    let op = Op::Read { command };
    let wait = false;
    Ok(ShareLine::Step { group, op, wait })
}

/// What a line for the properties in force asks.
fn properties_at<D: Directory>(directory: &D, members: Members<'_>) -> Asked
    ensures asked { result ≡ share_line_for (D.names directory.now) ShareWord.Properties (members_data members.entry) }
    ensures group { IfOk result (IsOfGroups (length (D.names directory.now).groups)) }
{
    let name = members.text("group").ok_or(Fault::Field)?;
    let said = command_of(members)?;
    let group = group_named(directory, name)?;
    let command = command_in(directory, group, said)?;
    Ok(ShareLine::Properties { group, command })
}

/// What a line asks by which the connection enters a request context.
fn enter_at<D: Directory>(directory: &D, members: Members<'_>) -> Asked
    ensures asked { result ≡ share_line_for (D.names directory.now) ShareWord.Enter (members_data members.entry) }
    ensures group { IfOk result (IsOfGroups (length (D.names directory.now).groups)) }
{
    let name = members.text("group").ok_or(Fault::Field)?;
    let context = members.number("context").ok_or(Fault::Field)?;
    let group = group_named(directory, name)?;
    Ok(ShareLine::Enter { group, context })
}

/// What a line for a step of this word asks.
fn step_at<D: Directory>(directory: &D, word: OpWord, members: Members<'_>) -> Asked
    ensures asked { result ≡ share_line_for (D.names directory.now) (ShareWord.Step word) (members_data members.entry) }
    ensures group { IfOk result (IsOfGroups (length (D.names directory.now).groups)) }
{
    let name = members.text("group").ok_or(Fault::Field)?;
    let said = op_at(word, members)?;
    let wait = wait_said(word, members)?;
    let group = group_named(directory, name)?;
    let command = command_in(directory, group, said.command())?;
    let mut op = Op::Start;
    if_short(command, said, &mut op)?;
    Ok(ShareLine::Step { group, op, wait })
}

/// Whether the answer may wait, by the word and the member `wait`. `Field` comes where that is no truth value.
fn wait_said(word: OpWord, members: Members<'_>) -> Result<bool, Fault>
    ensures { result ≡ wait_said word (members_data members.entry) }
{
    if !waits(word) || !members.has("wait") {
        return Ok(false);
    }
    members.truth("wait").ok_or(Fault::Field)
}

/// Whether a step of this word may wait for its answer.
fn waits(word: OpWord) -> bool
    ensures { result ≡ waits word }
{
    matches!(word, OpWord::Start | OpWord::Collect)
}

/// The group of the name.
fn group_named<D: Directory>(directory: &D, name: &str) -> Result<GroupId, Fault>
    ensures group { result ≡ group_named (D.names directory.now) name.now }
    ensures within { IfOk result (λ group. group.0 < length (D.names directory.now).groups) }
{
    directory.group(name).ok_or(Fault::Group)
}

/// The number of the group's command of the name, or of its own command where no name is said.
fn command_in<D: Directory>(directory: &D, group: GroupId, said: Option<&str>) -> Result<u8, Fault>
    ensures { result ≡ command_in (D.names directory.now) group.0 (option_copied said.entry) }
{
    match said {
        Some(name) => directory.command(group, name).ok_or(Fault::Command),
        None => Ok(0),
    }
}
