//! The lines that answer control lines.

ghost use Rattle.std.specs.Prelude.{◌≡◌, length, ◌<◌, ◌++◌, [], true, Option, Result, IfOk, OnOk, OnErr, Ok, Err, None};
ghost use Rattle.bh_control.specs.ControlLine.{IsOfGroups};
ghost use Rattle.bh_base.specs.declared.reply.Answer.{Answer};
ghost use Rattle.bh_base.specs.declared.reply.CallError.{CallError};
ghost use Rattle.bh_base.specs.declared.reply.Reply.{Reply};
ghost use Rattle.bh_in_force.specs.declared.properties.InForce.{InForce};
ghost use Rattle.bh_replies.specs.ReplyLine.{reply_line};
ghost use Rattle.bh_control.specs.AnswerLine.{responder, answer_line, in_force_line, may_wait, IsPut, IsAnswer};

use crate::control::Control;
use crate::control_line::{Asked, ControlLine};
use crate::groups_line::put_groups;
use bh_base::{Answer, CallError, GroupId, Reply, Request, Tuning};
use bh_in_force::put_properties;
use bh_replies::{put_error, put_fault, put_reply};
use std::alloc::{AllocError, Global};

/// Answers what a line asks, or its fault: puts the line of the answer behind what is in `out`.
///
/// Where the line asks for a call, which may wait, nothing is in `out`: earlier answers have left.
pub fn put_answer<C: Control>(
    alloc: Global,
    control: &mut C,
    asked: &Asked,
    out: &mut Vec<u8>,
) -> Result<(), AllocError>
    requires group { IfOk asked.now (IsOfGroups (length (C.names control.old).groups)) }
    requires held { may_wait asked.now ≡ true → out.old.items ≡ [] }
    ensures answer { OnOk result (IsPut (IsAnswer (responder (C.names control.old) C.may_show C.may_answer C.may_close C.may_total C.may_tune C.may_force) asked.now) out.old.items out.new.items) }
    ensures kept { OnErr result (out.new.items ≡ out.old.items) }
    ensures groups { C.names control.new ≡ C.names control.old }
{
    match asked {
        Ok(line) => put_asked(alloc, control, line, out),
        Err(fault) => put_fault(alloc, out, *fault),
    }
}

/// Whether what a line asks may wait.
pub fn may_wait(asked: &Asked) -> bool
    ensures { result ≡ may_wait asked.now }
{
    matches!(asked, Ok(ControlLine::Call { .. }))
}

/// Answers what is asked.
fn put_asked<C: Control>(
    alloc: Global,
    control: &mut C,
    line: &ControlLine,
    out: &mut Vec<u8>,
) -> Result<(), AllocError>
    requires group { IsOfGroups (length (C.names control.old).groups) line.now }
    requires held { may_wait (Ok line.now) ≡ true → out.old.items ≡ [] }
    ensures answer { OnOk result (IsPut (IsAnswer (responder (C.names control.old) C.may_show C.may_answer C.may_close C.may_total C.may_tune C.may_force) (Ok line.now)) out.old.items out.new.items) }
    ensures kept { OnErr result (out.new.items ≡ out.old.items) }
    ensures groups { C.names control.new ≡ C.names control.old }
{
    match line {
        ControlLine::Groups => put_groups(alloc, control.groups(), out),
        ControlLine::Metrics { group, command } => {
            put_metrics(alloc, control, *group, *command, out)
        }
        ControlLine::Call { group, request } => put_call(alloc, control, *group, request, out),
        ControlLine::Close { group, context } => put_close(alloc, control, *group, *context, out),
        ControlLine::Totals { group, command } => put_totals(alloc, control, *group, *command, out),
        ControlLine::Tune {
            group,
            command,
            tuning,
        } => put_tune(alloc, control, *group, *command, *tuning, out),
        ControlLine::Properties { group, command } => {
            put_in_force(alloc, control, *group, *command, out)
        }
    }
}

/// Asks for the metrics of a command.
fn put_metrics<C: Control>(
    alloc: Global,
    control: &mut C,
    group: GroupId,
    command: u8,
    out: &mut Vec<u8>,
) -> Result<(), AllocError>
    requires { group.0 < length (C.names control.old).groups }
    ensures answer { OnOk result ((reply : Reply) × C.may_show group command reply × (out.new.items ≡ out.old.items ++ reply_line None reply)) }
    ensures kept { OnErr result (out.new.items ≡ out.old.items) }
    ensures groups { C.names control.new ≡ C.names control.old }
{
    let reply = control.metrics(group, command);
    put_reply(alloc, out, &reply, None)
}

/// Asks for the end of a context.
fn put_close<C: Control>(
    alloc: Global,
    control: &mut C,
    group: GroupId,
    context: u64,
    out: &mut Vec<u8>,
) -> Result<(), AllocError>
    requires { group.0 < length (C.names control.old).groups }
    ensures answer { OnOk result ((reply : Reply) × C.may_close group context reply × (out.new.items ≡ out.old.items ++ reply_line None reply)) }
    ensures kept { OnErr result (out.new.items ≡ out.old.items) }
    ensures groups { C.names control.new ≡ C.names control.old }
{
    let reply = control.close(group, context);
    put_reply(alloc, out, &reply, None)
}

/// Asks for the totals of a command.
fn put_totals<C: Control>(
    alloc: Global,
    control: &mut C,
    group: GroupId,
    command: u8,
    out: &mut Vec<u8>,
) -> Result<(), AllocError>
    requires { group.0 < length (C.names control.old).groups }
    ensures answer { OnOk result ((reply : Reply) × C.may_total group command reply × (out.new.items ≡ out.old.items ++ reply_line None reply)) }
    ensures kept { OnErr result (out.new.items ≡ out.old.items) }
    ensures groups { C.names control.new ≡ C.names control.old }
{
    let reply = control.totals(group, command);
    put_reply(alloc, out, &reply, None)
}

/// Asks for the change of a property.
fn put_tune<C: Control>(
    alloc: Global,
    control: &mut C,
    group: GroupId,
    command: u8,
    tuning: Tuning,
    out: &mut Vec<u8>,
) -> Result<(), AllocError>
    requires { group.0 < length (C.names control.old).groups }
    ensures answer { OnOk result ((reply : Reply) × C.may_tune group command tuning reply × (out.new.items ≡ out.old.items ++ reply_line None reply)) }
    ensures kept { OnErr result (out.new.items ≡ out.old.items) }
    ensures groups { C.names control.new ≡ C.names control.old }
{
    let reply = control.tune(group, command, tuning);
    put_reply(alloc, out, &reply, None)
}

/// Asks for the properties in force of a command.
fn put_in_force<C: Control>(
    alloc: Global,
    control: &C,
    group: GroupId,
    command: u8,
    out: &mut Vec<u8>,
) -> Result<(), AllocError>
    requires { group.0 < length (C.names control.now).groups }
    ensures answer { OnOk result ((found : Option InForce) × C.may_force group command found × (out.new.items ≡ out.old.items ++ in_force_line found)) }
    ensures kept { OnErr result (out.new.items ≡ out.old.items) }
{
    match control.in_force(group, command) {
        Some(properties) => put_properties(out, &properties),
        None => put_reply(alloc, out, &Reply::NoGroup, None),
    }
}

/// Asks for the answer to a request, for which a caller may have to wait. No earlier answer waits with it: `out` is empty.
#[tactic(auto, unfolding(crate::specs::AnswerLine::answer_line))]
fn put_call<C: Control>(
    alloc: Global,
    control: &mut C,
    group: GroupId,
    request: &Request,
    out: &mut Vec<u8>,
) -> Result<(), AllocError>
    requires group { group.0 < length (C.names control.old).groups }
    requires held { out.old.items ≡ [] }
    ensures answer { OnOk result ((answer : Result Answer CallError) × C.may_answer group request.now answer × (out.new.items ≡ out.old.items ++ answer_line answer)) }
    ensures kept { OnErr result (out.new.items ≡ out.old.items) }
    ensures groups { C.names control.new ≡ C.names control.old }
{
    let mut reply = Reply::Idle;
    match control.call_to(group, request, &mut reply) {
        Ok(()) => put_reply(alloc, out, &reply, None),
        Err(error) => put_refusal(alloc, out, error),
    }
}

/// Puts the line that says why there is no answer to a call behind what is in `out`.
#[tactic(auto, unfolding(crate::specs::AnswerLine::answer_line))]
fn put_refusal(alloc: Global, out: &mut Vec<u8>, error: CallError) -> Result<(), AllocError>
    ensures ok { OnOk result (out.new.items ≡ out.old.items ++ answer_line (Err error)) }
    ensures err { OnErr result (out.new.items ≡ out.old.items) }
{
    match error {
        CallError::GroupFull => put_reply(alloc, out, &Reply::GroupFull, None),
        CallError::Worn => put_reply(alloc, out, &Reply::Worn, None),
        CallError::PassFull => put_error(alloc, out, "full"),
        CallError::Stopped => put_error(alloc, out, "stopped"),
        CallError::Taken => put_error(alloc, out, "taken"),
        CallError::NoGroup => put_error(alloc, out, "group"),
        CallError::NoCommand => put_error(alloc, out, "command"),
    }
}
