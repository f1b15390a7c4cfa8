//! The steps that C gives, made in their groups.
//!
//! A function pays at its entry for the room of every operation that it names, so each operation has a function of its own.

ghost use Rattle.std.specs.Prelude.{Ok};
ghost use Rattle.bh_c.specs.Calls.{StepTold};
ghost use Rattle.bh_c.specs.Given.{made_in, step_in, step_of};

use crate::given::{GivenStep, OpNumber, op_number, text_in, tuning_in};
use crate::outcome::Outcome;
use crate::told::ToldReply;
use bh_base::{FallbackEnd, GroupId, Op, Reply, Request};
use bh_port::groups::Groups;

/// Makes the step that is given, and tells its reply; or says why none is given, and does nothing: the operation is
/// looked at before the texts, a key before an argument, and a property before its value. What lies at `reply` means nothing: the reply is written there
/// before it is told, since to make a new one is to clear some 280 bytes.
pub fn make_given(
    groups: &mut Groups,
    given: &GivenStep,
    reply: &mut Reply,
    told: &mut ToldReply,
) -> Outcome
    ensures { StepTold (step_in given.now) groups.old groups.new told.old told.new result }
{
    match op_number(given.operation) {
        Some(number) => make_numbered(groups, given, number, reply, told),
        None => Outcome::NoSuchOperation,
    }
}

/// Makes a step of the operation.
fn make_numbered(
    groups: &mut Groups,
    given: &GivenStep,
    number: OpNumber,
    reply: &mut Reply,
    told: &mut ToldReply,
) -> Outcome
    ensures { StepTold (made_in number given.now) groups.old groups.new told.old told.new result }
{
    match number {
        OpNumber::Submit => submit(groups, given, reply, told),
        OpNumber::SubmitShared => submit_shared(groups, given, reply, told),
        OpNumber::Start => start(groups, given, reply, told),
        OpNumber::Finish => finish(groups, given, reply, told),
        OpNumber::Fail => fail(groups, given, false, reply, told),
        OpNumber::BadRequest => fail(groups, given, true, reply, told),
        OpNumber::Expire => expire(groups, given, reply, told),
        OpNumber::Collect => collect(groups, given, reply, told),
        OpNumber::FallbackValue => fallback_value(groups, given, reply, told),
        OpNumber::FallbackFailed => fallback_failed(groups, given, reply, told),
        OpNumber::FallbackMissing => fallback_missing(groups, given, reply, told),
        OpNumber::Close => close(groups, given, reply, told),
        OpNumber::Read => read(groups, given, reply, told),
        OpNumber::Tune => tune(groups, given, reply, told),
        OpNumber::Totals => totals(groups, given, reply, told),
    }
}

/// A worker asks for a run.
#[inline(never)]
fn start(groups: &mut Groups, given: &GivenStep, reply: &mut Reply, told: &mut ToldReply) -> Outcome
    ensures { StepTold (made_in OpNumber.Start given.now) groups.old groups.new told.old told.new result }
{
    make(groups, given, &Op::Start, reply, told)
}

/// The end of a run without a body.
#[inline(never)]
fn fail(
    groups: &mut Groups,
    given: &GivenStep,
    bad: bool,
    reply: &mut Reply,
    told: &mut ToldReply,
) -> Outcome
    ensures { StepTold (Ok (step_of given.now (Op.Fail given.now.ticket bad))) groups.old groups.new told.old told.new result }
{
    let serial = given.ticket;
    make(groups, given, &Op::Fail { serial, bad }, reply, told)
}

/// Times out what is due.
#[inline(never)]
fn expire(
    groups: &mut Groups,
    given: &GivenStep,
    reply: &mut Reply,
    told: &mut ToldReply,
) -> Outcome
    ensures { StepTold (made_in OpNumber.Expire given.now) groups.old groups.new told.old told.new result }
{
    make(groups, given, &Op::Expire, reply, told)
}

/// A holder asks for the answer.
#[inline(never)]
fn collect(
    groups: &mut Groups,
    given: &GivenStep,
    reply: &mut Reply,
    told: &mut ToldReply,
) -> Outcome
    ensures { StepTold (made_in OpNumber.Collect given.now) groups.old groups.new told.old told.new result }
{
    let serial = given.ticket;
    make(groups, given, &Op::Collect { serial }, reply, told)
}

/// A fallback that failed.
#[inline(never)]
fn fallback_failed(
    groups: &mut Groups,
    given: &GivenStep,
    reply: &mut Reply,
    told: &mut ToldReply,
) -> Outcome
    ensures { StepTold (made_in OpNumber.FallbackFailed given.now) groups.old groups.new told.old told.new result }
{
    end_fallback(groups, given, FallbackEnd::Failure, reply, told)
}

/// A fallback that there is not.
#[inline(never)]
fn fallback_missing(
    groups: &mut Groups,
    given: &GivenStep,
    reply: &mut Reply,
    told: &mut ToldReply,
) -> Outcome
    ensures { StepTold (made_in OpNumber.FallbackMissing given.now) groups.old groups.new told.old told.new result }
{
    end_fallback(groups, given, FallbackEnd::Missing, reply, told)
}

/// Ends a request context.
#[inline(never)]
fn close(groups: &mut Groups, given: &GivenStep, reply: &mut Reply, told: &mut ToldReply) -> Outcome
    ensures { StepTold (made_in OpNumber.Close given.now) groups.old groups.new told.old told.new result }
{
    let context = given.context;
    make(groups, given, &Op::Close { context }, reply, told)
}

/// Asks for the metrics.
#[inline(never)]
fn read(groups: &mut Groups, given: &GivenStep, reply: &mut Reply, told: &mut ToldReply) -> Outcome
    ensures { StepTold (made_in OpNumber.Read given.now) groups.old groups.new told.old told.new result }
{
    let command = given.command;
    make(groups, given, &Op::Read { command }, reply, told)
}

/// Asks for the totals.
#[inline(never)]
fn totals(
    groups: &mut Groups,
    given: &GivenStep,
    reply: &mut Reply,
    told: &mut ToldReply,
) -> Outcome
    ensures { StepTold (made_in OpNumber.Totals given.now) groups.old groups.new told.old told.new result }
{
    let command = given.command;
    make(groups, given, &Op::Totals { command }, reply, told)
}

/// Changes a property.
#[inline(never)]
fn tune(groups: &mut Groups, given: &GivenStep, reply: &mut Reply, told: &mut ToldReply) -> Outcome
    ensures { StepTold (made_in OpNumber.Tune given.now) groups.old groups.new told.old told.new result }
{
    let command = given.command;
    let name = match text_in::<64>(&given.text, given.text_length) {
        Ok(name) => name,
        Err(outcome) => return outcome,
    };
    match tuning_in(name.as_str(), given.context) {
        Ok(tuning) => make(groups, given, &Op::Tune { command, tuning }, reply, told),
        Err(outcome) => outcome,
    }
}

/// A submit that shares nothing.
#[inline(never)]
fn submit(
    groups: &mut Groups,
    given: &GivenStep,
    reply: &mut Reply,
    told: &mut ToldReply,
) -> Outcome
    ensures { StepTold (made_in OpNumber.Submit given.now) groups.old groups.new told.old told.new result }
{
    match text_in::<64>(&given.text, given.text_length) {
        Ok(arg) => {
            let request = Request {
                command: given.command,
                cache: None,
                arg,
            };
            make(groups, given, &Op::Submit(request), reply, told)
        }
        Err(outcome) => outcome,
    }
}

/// A submit that may share its answer.
#[inline(never)]
fn submit_shared(
    groups: &mut Groups,
    given: &GivenStep,
    reply: &mut Reply,
    told: &mut ToldReply,
) -> Outcome
    ensures { StepTold (made_in OpNumber.SubmitShared given.now) groups.old groups.new told.old told.new result }
{
    let key = match text_in::<32>(&given.key, given.key_length) {
        Ok(key) => key,
        Err(outcome) => return outcome,
    };
    match text_in::<64>(&given.text, given.text_length) {
        Ok(arg) => {
            let request = Request {
                command: given.command,
                cache: Some((given.context, key)),
                arg,
            };
            make(groups, given, &Op::Submit(request), reply, told)
        }
        Err(outcome) => outcome,
    }
}

/// The end of a run with a body.
#[inline(never)]
fn finish(
    groups: &mut Groups,
    given: &GivenStep,
    reply: &mut Reply,
    told: &mut ToldReply,
) -> Outcome
    ensures { StepTold (made_in OpNumber.Finish given.now) groups.old groups.new told.old told.new result }
{
    let serial = given.ticket;
    match text_in::<256>(&given.text, given.text_length) {
        Ok(body) => make(groups, given, &Op::Finish { serial, body }, reply, told),
        Err(outcome) => outcome,
    }
}

/// The end of a fallback with a body.
#[inline(never)]
fn fallback_value(
    groups: &mut Groups,
    given: &GivenStep,
    reply: &mut Reply,
    told: &mut ToldReply,
) -> Outcome
    ensures { StepTold (made_in OpNumber.FallbackValue given.now) groups.old groups.new told.old told.new result }
{
    match text_in::<256>(&given.text, given.text_length) {
        Ok(body) => end_fallback(groups, given, FallbackEnd::Success(body), reply, told),
        Err(outcome) => outcome,
    }
}

/// The end of a fallback.
#[inline(never)]
fn end_fallback(
    groups: &mut Groups,
    given: &GivenStep,
    end: FallbackEnd,
    reply: &mut Reply,
    told: &mut ToldReply,
) -> Outcome
    ensures { StepTold (Ok (step_of given.now (Op.FallbackDone given.now.ticket end))) groups.old groups.new told.old told.new result }
{
    let serial = given.ticket;
    make(
        groups,
        given,
        &Op::FallbackDone { serial, end },
        reply,
        told,
    )
}

/// Makes a step, and tells its reply.
#[inline(never)]
fn make(
    groups: &mut Groups,
    given: &GivenStep,
    op: &Op,
    reply: &mut Reply,
    told: &mut ToldReply,
) -> Outcome
    ensures { StepTold (Ok (step_of given.now op.now)) groups.old groups.new told.old told.new result }
{
    groups.apply_to(GroupId(given.group), given.moment, op, reply);
    told.show(reply);
    Outcome::Done
}
