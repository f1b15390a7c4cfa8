//! The step that the JSON of a line says.

ghost use Rattle.std.specs.Prelude.{◌≡◌, Ok, if◌then◌else◌, Err, codes, option_copied, MatchResult, OnErr};
ghost use Rattle.serde_json.specs.Find.{get};
ghost use Rattle.bh_base.specs.declared.step.Op.TheVariants as ops;
ghost use Rattle.bh_lines.specs.Flat.{members_data};
ghost use Rattle.bh_lines.specs.StepLine.{op_word, cache_of, command_of, op_said, if_short, step_said, op_view, given_at, tuning_of, untunable_fault, cache_view, command_view, found_op, found_cache, found_command, found_said, is_short_name, fallback_end_of, end_view, found_end, is_short_end};

use crate::members::Members;
use bh_base::{FallbackEnd, Op, Request, Text, Tuning};
use bh_faults::Fault;
use bh_tuning::{Given, Untunable, tuning_named};

/// The operations that a line can name.
#[derive(Clone, Copy, Debug, PartialEq, Eq)]
pub enum OpWord {
    Submit,
    Start,
    Finish,
    Fail,
    Expire,
    Collect,
    FallbackDone,
    Close,
    Read,
    Totals,
    Tune,
}

/// How a line says that a fallback ended, with its text where it stands, of any length.
#[derive(Clone, Copy, Debug)]
pub enum EndLine<'a> {
    Success(&'a str),
    Failure,
    Missing,
}

/// The operation that a line says, with its texts where they stand, of any length.
#[derive(Clone, Copy, Debug)]
pub enum OpLine<'a> {
    Submit {
        command: Option<&'a str>,
        cache: Option<(u64, &'a str)>,
        arg: &'a str,
    },
    Start,
    Finish {
        ticket: u64,
        body: &'a str,
    },
    Fail {
        ticket: u64,
        bad: bool,
    },
    Expire,
    Collect {
        ticket: u64,
    },
    FallbackDone {
        ticket: u64,
        end: EndLine<'a>,
    },
    Close {
        context: u64,
    },
    Read {
        command: Option<&'a str>,
    },
    Totals {
        command: Option<&'a str>,
    },
    Tune {
        command: Option<&'a str>,
        tuning: Tuning,
    },
}

impl<'a> OpLine<'a> {
    /// The name of the command that the line says, where it says one: only a submit, a read, totals and a change do.
    pub fn command(self) -> Option<&'a str>
        ensures { option_copied result ≡ command_view self.entry }
    {
        match self {
            OpLine::Submit { command, .. } | OpLine::Read { command } => command,
            OpLine::Totals { command } | OpLine::Tune { command, .. } => command,
            _ => None,
        }
    }
}

/// A step as a line says it: its group by name, its moment in milliseconds, and its operation.
#[derive(Clone, Copy, Debug)]
pub struct StepLine<'a> {
    pub group: &'a str,
    pub now: u64,
    pub op: OpLine<'a>,
}

/// The step of the operation that the members say, whatever groups and commands there are, with its texts of any length.
/// `Field` comes where a member is missing or of another type, and `Property` and `Range` of a change, as `tuning_of` says.
#[inline(always)]
pub(crate) fn step_said(word: OpWord, members: Members<'_>) -> Result<StepLine<'_>, Fault>
    ensures { found_said result ≡ step_said word (members_data members.entry) }
{
    let group = members.text("group").ok_or(Fault::Field)?;
    let now = members.number("now").ok_or(Fault::Field)?;
    let op = op_at(word, members)?;
    Ok(StepLine { group, now, op })
}

/// The operation that a line names by this word.
pub(crate) fn op_word(word: &str) -> Option<OpWord>
    ensures { result ≡ op_word word.now }
{
    match word {
        "submit" => Some(OpWord::Submit),
        "start" => Some(OpWord::Start),
        "finish" => Some(OpWord::Finish),
        "fail" => Some(OpWord::Fail),
        "expire" => Some(OpWord::Expire),
        "collect" => Some(OpWord::Collect),
        "fallback" => Some(OpWord::FallbackDone),
        "close" => Some(OpWord::Close),
        "read" => Some(OpWord::Read),
        "totals" => Some(OpWord::Totals),
        "tune" => Some(OpWord::Tune),
        _ => None,
    }
}

/// The operation of the word, from the members. `Field` comes where one is missing or of another type, and `Property` and `Range`
/// of a change, as `tuning_of` says.
#[inline(always)]
pub fn op_at(word: OpWord, members: Members<'_>) -> Result<OpLine<'_>, Fault>
    ensures { found_op result ≡ op_said word (members_data members.entry) }
{
    Ok(match word {
        OpWord::Submit => OpLine::Submit {
            command: command_of(members)?,
            cache: cache_of(members)?,
            arg: members.text("arg").ok_or(Fault::Field)?,
        },
        OpWord::Start => OpLine::Start,
        OpWord::Finish => OpLine::Finish {
            ticket: members.number("ticket").ok_or(Fault::Field)?,
            body: members.text("body").ok_or(Fault::Field)?,
        },
        OpWord::Fail => OpLine::Fail {
            ticket: members.number("ticket").ok_or(Fault::Field)?,
            bad: members.truth("bad").ok_or(Fault::Field)?,
        },
        OpWord::Expire => OpLine::Expire,
        OpWord::Collect => OpLine::Collect {
            ticket: members.number("ticket").ok_or(Fault::Field)?,
        },
        OpWord::FallbackDone => OpLine::FallbackDone {
            ticket: members.number("ticket").ok_or(Fault::Field)?,
            end: fallback_end_of(members.text("end").ok_or(Fault::Field)?, members)?,
        },
        OpWord::Close => OpLine::Close {
            context: members.number("context").ok_or(Fault::Field)?,
        },
        OpWord::Read => OpLine::Read {
            command: command_of(members)?,
        },
        OpWord::Totals => OpLine::Totals {
            command: command_of(members)?,
        },
        OpWord::Tune => OpLine::Tune {
            command: command_of(members)?,
            tuning: tuning_of(members)?,
        },
    })
}

/// How a fallback ended, by its word; only a success has a body.
fn fallback_end_of<'a>(word: &str, members: Members<'a>) -> Result<EndLine<'a>, Fault>
    ensures { found_end result ≡ fallback_end_of word.now (members_data members.entry) }
{
    match word {
        "success" => match members.text("body") {
            Some(body) => Ok(EndLine::Success(body)),
            None => Err(Fault::Field),
        },
        "failure" => Ok(EndLine::Failure),
        "missing" => Ok(EndLine::Missing),
        _ => Err(Fault::Field),
    }
}

/// The name of the command that the members say, of any length, where they say one. `Field` comes where it is no text.
pub fn command_of(members: Members<'_>) -> Result<Option<&str>, Fault>
    ensures { found_command result ≡ command_of (get (codes "command") (members_data members.entry)) }
{
    members.text_if_any("command")
}

/// The change of a property that the members say. `Field` comes where its name or value is missing, or either is of another
/// type; `Property` where no property of the name may change; and `Range` where the value is out of range.
pub fn tuning_of(members: Members<'_>) -> Result<Tuning, Fault>
    ensures { result ≡ tuning_of (members_data members.entry) }
{
    let name = members.text("property").ok_or(Fault::Field)?;
    let given = given_of(members).ok_or(Fault::Field)?;
    match tuning_named(name, given) {
        Ok(tuning) => Ok(tuning),
        Err(error) => Err(untunable_fault(error)),
    }
}

/// The value that the members say.
fn given_of(members: Members<'_>) -> Option<Given>
    ensures { result ≡ given_at (codes "value") (members_data members.entry) }
{
    match members.number("value") {
        Some(number) => Some(Given::Number(number)),
        None => {
            let truth = members.truth("value")?;
            Some(Given::Truth(truth))
        }
    }
}

/// The fault of a line that says a change which cannot be.
fn untunable_fault(error: Untunable) -> Fault
    ensures { result ≡ untunable_fault error }
{
    match error {
        Untunable::NoProperty => Fault::Property,
        Untunable::WrongType => Fault::Field,
        Untunable::OutOfRange => Fault::Range,
    }
}

/// The context and the key of a request where they stand, of any length: both or neither. `Field` comes where only one
/// is there, or one is of another type.
pub fn cache_of(members: Members<'_>) -> Result<Option<(u64, &str)>, Fault>
    ensures { found_cache result ≡ cache_of (get (codes "context") (members_data members.entry)) (get (codes "key") (members_data members.entry)) }
{
    match (
        members.number_if_any("context")?,
        members.text_if_any("key")?,
    ) {
        (None, None) => Ok(None),
        (Some(context), Some(key)) => Ok(Some((context, key))),
        _ => Err(Fault::Field),
    }
}

/// Writes the operation where the caller keeps it, or answers `Long` where an argument is of over 64 bytes, a key of over
/// 32 or a body of over 256; what is there stays then. An operation of a command is of the one of this number in the group.
pub fn if_short(command: u8, said: OpLine<'_>, op: &mut Op) -> Result<(), Fault>
    ensures said { MatchResult result
        (λ _. if_short command (op_view said.entry) ≡ Ok op.new)
        (λ fault. if_short command (op_view said.entry) ≡ Err fault) }
    ensures kept { OnErr result (op.new ≡ op.old) }
{
    match said {
        OpLine::Submit { cache, arg, .. } => return write_submit(command, cache, arg, op),
        OpLine::Start => *op = Op::Start,
        OpLine::Finish { ticket, body } => return write_finish(ticket, body, op),
        OpLine::Fail { ticket, bad } => {
            *op = Op::Fail {
                serial: ticket,
                bad,
            };
        }
        OpLine::Expire => *op = Op::Expire,
        OpLine::Collect { ticket } => *op = Op::Collect { serial: ticket },
        OpLine::FallbackDone { ticket, end } => return write_fallback(ticket, end, op),
        OpLine::Close { context } => *op = Op::Close { context },
        OpLine::Read { .. } => *op = Op::Read { command },
        OpLine::Totals { .. } => *op = Op::Totals { command },
        OpLine::Tune { tuning, .. } => *op = Op::Tune { command, tuning },
    }
    Ok(())
}

/// Writes a submit, as `if_short` does. Each operation with a text is written by itself, so that a line clears the room of
/// no other.
fn write_submit(
    command: u8,
    cache: Option<(u64, &str)>,
    arg: &str,
    op: &mut Op,
) -> Result<(), Fault>
    ensures said { MatchResult result
        (λ _. if_short command (ops.Submit (record { command = 0; cache = cache_view cache.entry; arg = arg.now })) ≡ Ok op.new)
        (λ fault. if_short command (ops.Submit (record { command = 0; cache = cache_view cache.entry; arg = arg.now })) ≡ Err fault) }
    ensures kept { OnErr result (op.new ≡ op.old) }
{
    let cache = short_name(cache)?;
    let arg = Text::new(arg).map_err(|_| Fault::Long)?;
    *op = Op::Submit(Request {
        command,
        cache,
        arg,
    });
    Ok(())
}

/// Writes the end of a run, as `if_short` does.
fn write_finish(ticket: u64, body: &str, op: &mut Op) -> Result<(), Fault>
    ensures said { MatchResult result
        (λ _. if_short 0 (ops.Finish ticket body.now) ≡ Ok op.new)
        (λ fault. if_short 0 (ops.Finish ticket body.now) ≡ Err fault) }
    ensures kept { OnErr result (op.new ≡ op.old) }
{
    let body = Text::new(body).map_err(|_| Fault::Long)?;
    *op = Op::Finish {
        serial: ticket,
        body,
    };
    Ok(())
}

/// Writes the end of a fallback, as `if_short` does.
fn write_fallback(ticket: u64, end: EndLine<'_>, op: &mut Op) -> Result<(), Fault>
    ensures said { MatchResult result
        (λ _. if_short 0 (ops.FallbackDone ticket (end_view end.entry)) ≡ Ok op.new)
        (λ fault. if_short 0 (ops.FallbackDone ticket (end_view end.entry)) ≡ Err fault) }
    ensures kept { OnErr result (op.new ≡ op.old) }
{
    let end = short_end(end)?;
    *op = Op::FallbackDone {
        serial: ticket,
        end,
    };
    Ok(())
}

/// The context and the key, or `Long` where the key is of over 32 bytes.
pub fn short_name(cache: Option<(u64, &str)>) -> Result<Option<(u64, Text<32>)>, Fault>
    ensures { result ≡ (if is_short_name (cache_view cache.entry) then Ok (cache_view cache.entry) else Err Fault.Long) }
{
    let Some((context, key)) = cache else {
        return Ok(None);
    };
    match Text::new(key) {
        Ok(key) => Ok(Some((context, key))),
        Err(_) => Err(Fault::Long),
    }
}

/// How the fallback ended, unless its value is too long.
fn short_end(end: EndLine<'_>) -> Result<FallbackEnd, Fault>
    ensures { result ≡ (if is_short_end (end_view end.entry) then Ok (end_view end.entry) else Err Fault.Long) }
{
    match end {
        EndLine::Success(body) => match Text::new(body) {
            Ok(body) => Ok(FallbackEnd::Success(body)),
            Err(_) => Err(Fault::Long),
        },
        EndLine::Failure => Ok(FallbackEnd::Failure),
        EndLine::Missing => Ok(FallbackEnd::Missing),
    }
}
