//! One turn: whether a connection has to wait, and what its step is answered.

ghost use Rattle.std.specs.Prelude.{◌≡◌, ◌++◌, OnErr, OnOk, option_copied};
ghost use Rattle.bh_core.specs.CoreView.{view_at};
ghost use Rattle.bh_turns.specs.Turn.{IsDone, answer_line, has_to_wait, in_force_line, told_name, would_idle};
ghost use Rattle.bh_lease.specs.Leases.{refusal};

use bh_base::{GroupId, Op, Reply, Step, Text};
use bh_core::Core;
use bh_in_force::{InForce, put_properties};
use bh_lease::{Leases, Refusal};
use bh_lender::Lender;
use bh_replies::put_reply;
use bh_share::{Directory, put_refusal};
use std::alloc::{AllocError, Global};

/// Whether a step that is to wait for its answer has to: the connection may ask for it, and it would be answered `Pending` or
/// `Idle`, at whatever moment.
pub fn has_to_wait(lender: &Lender, leases: &Leases, group: GroupId, op: &Op) -> bool
    ensures { result ≡ has_to_wait lender.now leases.now group op.now }
{
    if leases.refusal(group, op).is_some() {
        return false;
    }
    match op {
        Op::Start => is_idle(lender.core(), group),
        Op::Collect { serial } => lender.core().pending(group, *serial),
        _ => false,
    }
}

/// Whether a start in the group would be answered `Idle`, at whatever moment: it is there, and neither has a run to do nor is worn.
pub fn is_idle(core: &Core, group: GroupId) -> bool
    ensures { result ≡ would_idle (view_at core.now group.0) }
{
    if !core.is_registered(group) {
        return false;
    }
    if core.startable(group) {
        return false;
    }
    !core.worn(group)
}

/// Makes the step for the connection that has the leases, and writes its reply where the caller keeps it; or says why the
/// connection may not ask for it, with nothing done, and what is at `reply` stays.
pub fn make_step(
    lender: &mut Lender,
    leases: &mut Leases,
    step: &Step,
    reply: &mut Reply,
) -> Option<Refusal>
    ensures refused { result ≡ refusal step.entry.now.group step.entry.now.op leases.old }
    ensures done { IsDone step.entry.now reply.new lender.old leases.old lender.new leases.new }
{
    match lender.step(leases, step, reply) {
        Ok(()) => None,
        Err(refusal) => Some(refusal),
    }
}

/// Puts the line behind the bytes that answers a step of the group: that of its reply, or that of its refusal.
///
/// The error comes where memory for the line was refused: the bytes are as they were then.
pub fn put_answer<D: Directory>(
    alloc: Global,
    directory: &D,
    group: GroupId,
    refused: Option<Refusal>,
    reply: &Reply,
    out: &mut Vec<u8>,
) -> Result<(), AllocError>
    ensures ok { OnOk result (out.new.items ≡ out.old.items ++ answer_line refused (D.names directory.now) group reply.now) }
    ensures err { OnErr result (out.new.items ≡ out.old.items) }
{
    match refused {
        None => put_reply(alloc, out, reply, told_name(directory, group, reply)),
        Some(refusal) => put_refusal(alloc, out, refusal),
    }
}

/// Puts the line behind the bytes that tells what is in force of a command; where that is nothing, the line of a step in a group
/// that is not there.
///
/// The error comes where memory for the line was refused: the bytes are as they were then.
pub fn put_in_force(
    alloc: Global,
    found: Option<InForce>,
    out: &mut Vec<u8>,
) -> Result<(), AllocError>
    ensures ok { OnOk result (out.new.items ≡ out.old.items ++ in_force_line found) }
    ensures err { OnErr result (out.new.items ≡ out.old.items) }
{
    match found {
        Some(properties) => put_properties(out, &properties),
        None => put_reply(alloc, out, &Reply::NoGroup, None),
    }
}

/// The name that stands in the line of the reply: of a run that was assigned the further command's.
fn told_name<'d, D: Directory>(
    directory: &'d D,
    group: GroupId,
    reply: &Reply,
) -> Option<&'d Text<32>>
    ensures { option_copied result ≡ told_name (D.names directory.now) group reply.now }
{
    match reply {
        Reply::Assigned { command, .. } => directory.command_name(group, *command),
        _ => None,
    }
}
