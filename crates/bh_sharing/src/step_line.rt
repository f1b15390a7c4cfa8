//! The line of a script that says a step.

ghost use Rattle.std.specs.Prelude.{◌≡◌, ◌≤◌, ◌<◌, ◌++◌, ◌+◌, Err, IfOk, IfSome, OnErr, OnOk, Some, false, length, option_copied, slice_get, true};
ghost use Rattle.serde_json.specs.View.{view};
ghost use Rattle.bh_base.specs.declared.step.FallbackEnd.TheVariants as ends;
ghost use Rattle.bh_base.specs.declared.step.Op.TheVariants as op;
ghost use Rattle.bh_lines.specs.Lines.{line_limit};
ghost use Rattle.bh_lines.specs.StepLine.{is_short, is_short_end};
ghost use Rattle.bh_sharing.specs.declared.step_line.StepLineError.TheVariants as errors;
ghost use Rattle.bh_sharing.specs.StepText.{SaysEnd, SaysStep, close_data, collect_data, command_data, end_line, fail_data, fallback_data, finish_data, is_sayable, name_of_command, no_value_data, step_data, step_line, submit_data, tune_data, word_data};

use crate::line_object::{Member, object_of};
use bh_base::{FallbackEnd, GroupId, Moment, Op, Request, Step};
use bh_lines::lines::LINE_LIMIT;
use bh_replies::json_line;
use bh_share::Directory;
use bh_tuning::{Given, is_said_by_name, name_of, value_of};
use serde_json::Value;
use std::alloc::{AllocError, Global};
use thiserror::Error;

/// Why the line of a step was not put.
#[derive(Clone, Copy, Debug, PartialEq, Eq, Error)]
pub enum StepLineError {
    /// Memory was refused.
    #[error("memory was refused")]
    Memory,
    /// It would be of more bytes than a line of a script may have, 1,024 without its line feed.
    #[error("the line of a step is longer than a script's may be")]
    Long,
    /// It would give a property a value that is out of its range, as no script may.
    #[error("a step gives a property a value that no script may give it")]
    Range,
}

impl From<AllocError> for StepLineError {
    ghost use Rattle.std.specs.Prelude.{◌≡◌};
    ghost use Rattle.bh_sharing.specs.declared.step_line.StepLineError.TheVariants.{Memory};

    ghost from_gives = { λ _ error. error ≡ Memory };

    fn from(_refused: AllocError) -> StepLineError {
        StepLineError::Memory
    }
}

/// Puts the line of a script that says the step behind the bytes. Nothing is put for a step of a group that the directory
/// does not have. It fails for want of memory, where the line is longer than a script's may be, or where a property would get a
/// value out of its range, and leaves the bytes as they were then.
///
/// The line, read, is the step: a script that has it is asked for this operation at this moment, of the group and the command
/// by their names.
pub fn put_step<D: Directory>(
    alloc: Global,
    directory: &D,
    out: &mut Vec<u8>,
    step: &Step,
) -> Result<(), StepLineError>
    ensures ok { OnOk result (out.new.items ≡ out.old.items ++ step_line (D.names directory.now) step.entry.now) }
    ensures says { OnOk result (IfSome (slice_get (D.names directory.now).groups step.entry.now.group.0) (SaysStep (D.names directory.now) step.entry.now)) }
    ensures fits { OnOk result (length (step_line (D.names directory.now) step.entry.now) ≤ line_limit + 1) }
    ensures long { result ≡ Err errors.Long → line_limit + 1 < length (step_line (D.names directory.now) step.entry.now) }
    ensures range { result ≡ Err errors.Range → is_sayable step.entry.now.op ≡ false }
    ensures err { OnErr result (out.new.items ≡ out.old.items) }
{
    let Some(group) = group_name(directory, step.group) else {
        return Ok(());
    };
    if !is_sayable(&step.op) {
        return Err(StepLineError::Range);
    }
    is_said_by_name();
    let value = step_value(alloc, directory, group, step)?;
    let line = json_line(alloc, &value)?;
    if line.len() > LINE_LIMIT + 1 {
        return Err(StepLineError::Long);
    }
    out.extend_from_slice(line.as_str().as_bytes())?;
    Ok(())
}

/// Puts the line behind the bytes that ends a whole record: a read of the first group, with a member that a script ignores.
/// Nothing is put where the directory has no group. It fails only for want of memory, and leaves the bytes as they were then.
pub fn put_end<D: Directory>(
    alloc: Global,
    directory: &D,
    out: &mut Vec<u8>,
    now: Moment,
) -> Result<(), AllocError>
    ensures ok { OnOk result (out.new.items ≡ out.old.items ++ end_line (D.names directory.now) now) }
    ensures says { OnOk result (IfSome (slice_get (D.names directory.now).groups 0) (SaysEnd now)) }
    ensures err { OnErr result (out.new.items ≡ out.old.items) }
{
    let Some(group) = group_name(directory, GroupId(0)) else {
        return Ok(());
    };
    let value = object_of(
        alloc,
        &[
            Member::Truth("end", true),
            Member::Text("group", group),
            Member::Number("now", now),
            Member::Text("op", "read"),
        ],
    )?;
    let line = json_line(alloc, &value)?;
    out.extend_from_slice(line.as_str().as_bytes())
}

/// The name of the group of the number.
fn group_name<D: Directory>(directory: &D, group: GroupId) -> Option<&str>
    ensures { option_copied result ≡ slice_get (D.names directory.now).groups group.0 }
{
    let name = directory.groups().get(group.0 as usize)?;
    Some(name.as_str())
}

/// The name of the group's command of the number, its own one's that of the group.
fn command_name<'d, D: Directory>(
    directory: &'d D,
    name: &'d str,
    group: GroupId,
    command: u8,
) -> &'d str
    ensures { result.now ≡ name_of_command (D.names directory.now) group.0 name.now command }
{
    match directory.command_name(group, command) {
        Some(further) => further.as_str(),
        None => name,
    }
}

/// The object that says the step of the group of this name.
fn step_value<D: Directory>(
    alloc: Global,
    directory: &D,
    group: &str,
    step: &Step,
) -> Result<Value, AllocError>
    ensures data { IfOk result (λ v. view v ≡ step_data (D.names directory.now) group.now step.entry.now) }
    ensures short { IfOk result (λ _. is_short step.entry.now.op ≡ true) }
{
    let now = step.now;
    match &step.op {
        Op::Submit(request) => {
            let command = command_name(directory, group, step.group, request.command);
            submit_value(alloc, group, now, command, request)
        }
        Op::Start => word_value(alloc, group, now, "start"),
        Op::Finish { serial, body } => finish_value(alloc, group, now, *serial, body.as_str()),
        Op::Fail { serial, bad } => fail_value(alloc, group, now, *serial, *bad),
        Op::Expire => word_value(alloc, group, now, "expire"),
        Op::Collect { serial } => collect_value(alloc, group, now, *serial),
        Op::FallbackDone { serial, end } => fallback_value(alloc, group, now, *serial, end),
        Op::Close { context } => close_value(alloc, group, now, *context),
        Op::Read { command } => {
            let command = command_name(directory, group, step.group, *command);
            command_value(alloc, group, now, command, "read")
        }
        Op::Totals { command } => {
            let command = command_name(directory, group, step.group, *command);
            command_value(alloc, group, now, command, "totals")
        }
        Op::Tune { command, tuning } => {
            let command = command_name(directory, group, step.group, *command);
            let (property, value) = (name_of(tuning), value_of(tuning));
            tune_value(alloc, group, now, command, property, value)
        }
    }
}

/// The object that says a submit.
fn submit_value<'x>(
    alloc: Global,
    group: &'x str,
    now: Moment,
    command: &'x str,
    request: &'x Request,
) -> Result<Value, AllocError>
    ensures data { IfOk result (λ v. view v ≡ submit_data group.now now command.now request.now request.now.cache) }
    ensures short { IfOk result (λ _. is_short (op.Submit request.now) ≡ true) }
{
    let arg = Member::Text("arg", request.arg.as_str());
    let command = Member::Text("command", command);
    let group = Member::Text("group", group);
    let now = Member::Number("now", now);
    let word = Member::Text("op", "submit");
    match &request.cache {
        Some((context, key)) => {
            let context = Member::Number("context", *context);
            let key = Member::Text("key", key.as_str());
            object_of(alloc, &[arg, command, context, group, key, now, word])
        }
        None => object_of(alloc, &[arg, command, group, now, word]),
    }
}

/// The object that says an operation which is its word alone.
fn word_value<'x>(
    alloc: Global,
    group: &'x str,
    now: Moment,
    word: &'x str,
) -> Result<Value, AllocError>
    ensures { IfOk result (λ v. view v ≡ word_data group.now now word.now) }
{
    object_of(
        alloc,
        &[
            Member::Text("group", group),
            Member::Number("now", now),
            Member::Text("op", word),
        ],
    )
}

/// The object that says that a run gave this body.
fn finish_value<'x>(
    alloc: Global,
    group: &'x str,
    now: Moment,
    ticket: u64,
    body: &'x str,
) -> Result<Value, AllocError>
    ensures { IfOk result (λ v. view v ≡ finish_data group.now now ticket body.now) }
{
    object_of(
        alloc,
        &[
            Member::Text("body", body),
            Member::Text("group", group),
            Member::Number("now", now),
            Member::Text("op", "finish"),
            Member::Number("ticket", ticket),
        ],
    )
}

/// The object that says that a run failed, or that the request was bad.
fn fail_value(
    alloc: Global,
    group: &str,
    now: Moment,
    ticket: u64,
    bad: bool,
) -> Result<Value, AllocError>
    ensures { IfOk result (λ v. view v ≡ fail_data group.now now ticket bad) }
{
    object_of(
        alloc,
        &[
            Member::Truth("bad", bad),
            Member::Text("group", group),
            Member::Number("now", now),
            Member::Text("op", "fail"),
            Member::Number("ticket", ticket),
        ],
    )
}

/// The object that says that an answer is asked for.
fn collect_value(alloc: Global, group: &str, now: Moment, ticket: u64) -> Result<Value, AllocError>
    ensures { IfOk result (λ v. view v ≡ collect_data group.now now ticket) }
{
    object_of(
        alloc,
        &[
            Member::Text("group", group),
            Member::Number("now", now),
            Member::Text("op", "collect"),
            Member::Number("ticket", ticket),
        ],
    )
}

/// The object that says how a fallback ended.
fn fallback_value(
    alloc: Global,
    group: &str,
    now: Moment,
    ticket: u64,
    end: &FallbackEnd,
) -> Result<Value, AllocError>
    ensures data { IfOk result (λ v. view v ≡ fallback_data group.now now ticket end.now) }
    ensures short { IfOk result (λ _. is_short_end end.now ≡ true) }
{
    match end {
        FallbackEnd::Success(body) => success_value(alloc, group, now, ticket, body.as_str()),
        FallbackEnd::Failure => end_value(alloc, group, now, ticket, "failure"),
        FallbackEnd::Missing => end_value(alloc, group, now, ticket, "missing"),
    }
}

/// The object that says that a fallback gave this body.
fn success_value<'x>(
    alloc: Global,
    group: &'x str,
    now: Moment,
    ticket: u64,
    body: &'x str,
) -> Result<Value, AllocError>
    ensures { IfOk result (λ v. view v ≡ fallback_data group.now now ticket (ends.Success body.now)) }
{
    object_of(
        alloc,
        &[
            Member::Text("body", body),
            Member::Text("end", "success"),
            Member::Text("group", group),
            Member::Number("now", now),
            Member::Text("op", "fallback"),
            Member::Number("ticket", ticket),
        ],
    )
}

/// The object that says that a fallback gave nothing, by the word of its end.
fn end_value<'x>(
    alloc: Global,
    group: &'x str,
    now: Moment,
    ticket: u64,
    end: &'x str,
) -> Result<Value, AllocError>
    ensures { IfOk result (λ v. view v ≡ no_value_data group.now now ticket end.now) }
{
    object_of(
        alloc,
        &[
            Member::Text("end", end),
            Member::Text("group", group),
            Member::Number("now", now),
            Member::Text("op", "fallback"),
            Member::Number("ticket", ticket),
        ],
    )
}

/// The object that says that a request context ends.
fn close_value(alloc: Global, group: &str, now: Moment, context: u64) -> Result<Value, AllocError>
    ensures { IfOk result (λ v. view v ≡ close_data group.now now context) }
{
    object_of(
        alloc,
        &[
            Member::Number("context", context),
            Member::Text("group", group),
            Member::Number("now", now),
            Member::Text("op", "close"),
        ],
    )
}

/// The object that says that what was counted of the command is asked for, by the word.
fn command_value<'x>(
    alloc: Global,
    group: &'x str,
    now: Moment,
    command: &'x str,
    word: &'x str,
) -> Result<Value, AllocError>
    ensures { IfOk result (λ v. view v ≡ command_data group.now now command.now word.now) }
{
    object_of(
        alloc,
        &[
            Member::Text("command", command),
            Member::Text("group", group),
            Member::Number("now", now),
            Member::Text("op", word),
        ],
    )
}

/// The object that says that the property of this name gets the value.
fn tune_value<'x>(
    alloc: Global,
    group: &'x str,
    now: Moment,
    command: &'x str,
    property: &'x str,
    value: Given,
) -> Result<Value, AllocError>
    ensures { IfOk result (λ v. view v ≡ tune_data group.now now command.now property.now value) }
{
    let command = Member::Text("command", command);
    let group = Member::Text("group", group);
    let now = Member::Number("now", now);
    let word = Member::Text("op", "tune");
    let property = Member::Text("property", property);
    match value {
        Given::Number(number) => {
            let value = Member::Number("value", number);
            object_of(alloc, &[command, group, now, word, property, value])
        }
        Given::Truth(truth) => {
            let value = Member::Truth("value", truth);
            object_of(alloc, &[command, group, now, word, property, value])
        }
    }
}

/// Whether a script may say the operation.
fn is_sayable(op: &Op) -> bool
    ensures { result ≡ is_sayable op.now }
{
    match op {
        Op::Tune { tuning, .. } => tuning.is_within(),
        _ => true,
    }
}
