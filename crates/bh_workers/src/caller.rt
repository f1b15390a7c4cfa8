//! One call: a request, from its Submit to its answer.

ghost use Rattle.std.specs.Prelude.{◌≡◌, ◌↔◌, ◌+◌, ◌<◌, ◌≤◌, true, Ok, Err, IfErr, MatchResult, OnOk};
ghost use Rattle.bh_base.specs.declared.reply.Answer.{Answer};
ghost use Rattle.bh_base.specs.declared.reply.CallError.TheVariants.{PassFull};
ghost use Rattle.bh_base.specs.declared.reply.Reply.TheVariants as replies;
ghost use Rattle.bh_workers.specs.Calls.{CallAdds, IsCall, IsFallenBack, IsRunInline, IsSettled, result_of};
ghost use Rattle.bh_workers.specs.Collecting.{IsCollectMade, IsFallbackRun};

use crate::dependency::Dependency;
use crate::environment::Environment;
use crate::worker::end_op;
use bh_audit::{Clock, Pass, Progress, Shared};
use bh_base::{Answer, CallError, Cause, Op, Reply, Request, Serial};
use std::sync::Wait;

/// The most receipts that a call adds.
pub const MOST_RECEIPTS: u64 = 5;

/// Submits the request to the pass's group and waits for its answer, in at most five steps.
///
/// Where the ticket is `Inline` the caller runs the dependency itself, and it runs the fallback where it is the one
/// that is told to. The errors:
///
/// - `PassFull` where the service is audited and fewer than five receipts are free: before any step, with the pass
///   unchanged;
/// - `NoCommand` where the group lacks the request's command, with nothing added to the pass;
/// - `GroupFull` where the group has no free slot;
/// - `Worn` and `NoGroup` where a step was refused so;
/// - `Taken` where another pass collected the ticket;
/// - `Stopped` where the service was stopped before there was an answer, or where the last Collect asks for a
///   fallback once more.
///
/// After `Worn` and `Stopped` in the middle the ticket stays held.
pub fn call<D: Dependency, C: Clock, R: Wait>(
    rt: &R,
    shared: &Shared,
    pass: &mut Pass,
    dependency: &D,
    clock: &C,
    request: Request,
) -> Result<Answer, CallError>
    ensures call { CallAdds shared.now.audited pass.old result pass.new (IsCall D.ends D.fallback_ends C.moments pass.old.group request result) }
    ensures full { (result ≡ Err PassFull) ↔ ((shared.now.audited ≡ true) × (pass.old.room < 5)) }
    ensures unchanged { result ≡ Err PassFull → pass.new ≡ pass.old }
{
    let mut reply = Reply::Idle;
    call_to(rt, shared, pass, dependency, clock, &request, &mut reply)?;
    match reply {
        Reply::Answered(answer) => Ok(answer),
        _ => unreachable!(),
    }
}

/// Makes a call as `call` does, and writes an answer where the caller keeps it, as the reply that tells it: it is too long
/// to be copied at each return. Where there is an error, what lies there means nothing.
pub fn call_to<D: Dependency, C: Clock, R: Wait>(
    rt: &R,
    shared: &Shared,
    pass: &mut Pass,
    dependency: &D,
    clock: &C,
    request: &Request,
    reply: &mut Reply,
) -> Result<(), CallError>
    ensures call { MatchResult result (λ done. (answer : Answer) × (reply.new ≡ replies.Answered answer) × CallAdds shared.now.audited pass.old (Ok answer) pass.new (IsCall D.ends D.fallback_ends C.moments pass.old.group request.now (Ok answer))) (λ error. CallAdds shared.now.audited pass.old (Err error) pass.new (IsCall D.ends D.fallback_ends C.moments pass.old.group request.now (Err error))) }
    ensures full { (result ≡ Err PassFull) ↔ ((shared.now.audited ≡ true) × (pass.old.room < 5)) }
    ensures unchanged { result ≡ Err PassFull → pass.new ≡ pass.old }
{
    let environment = Environment {
        rt,
        shared,
        dependency,
        clock,
    };
    environment.call(pass, request, reply)
}

/// The steps of a call write their replies into one place, which the caller keeps: a reply is too long to be copied at each
/// return. The last of them tells the result.
impl<'e, D: Dependency, C: Clock, R: Wait> Environment<'e, D, C, R> {
    /// Submits the request and waits for its answer, as the public `call_to` says.
    pub(crate) fn call(
        &self,
        pass: &mut Pass,
        request: &Request,
        reply: &mut Reply,
    ) -> Result<(), CallError>
        ensures call { MatchResult result (λ done. (answer : Answer) × (reply.new ≡ replies.Answered answer) × CallAdds self.now.shared.now.audited pass.old (Ok answer) pass.new (IsCall D.ends D.fallback_ends C.moments pass.old.group request.now (Ok answer))) (λ error. CallAdds self.now.shared.now.audited pass.old (Err error) pass.new (IsCall D.ends D.fallback_ends C.moments pass.old.group request.now (Err error))) }
        ensures full { (result ≡ Err PassFull) ↔ ((self.now.shared.now.audited ≡ true) × (pass.old.room < 5)) }
        ensures unchanged { result ≡ Err PassFull → pass.new ≡ pass.old }
    {
        if self.shared.audited() && pass.room_left() < MOST_RECEIPTS {
            return Err(CallError::PassFull);
        }
        self.submit(pass, request, reply);
        told_in(reply)
    }

    /// Submits the request, and goes on as the reply says.
    fn submit(&self, pass: &mut Pass, request: &Request, reply: &mut Reply)
        requires { self.now.shared.now.audited ≡ true → 5 ≤ pass.old.room }
        ensures { CallAdds self.now.shared.now.audited pass.old (result_of reply.new) pass.new (IsCall D.ends D.fallback_ends C.moments pass.old.group request.now (result_of reply.new)) }
    {
        self.make_step(pass, &Op::Submit(*request), reply);
        match &*reply {
            Reply::Queued(serial) | Reply::Joined(serial) | Reply::FallbackDue { serial, .. } => {
                self.settle(pass, *serial, request, reply)
            }
            Reply::Inline(serial) => self.run_inline(pass, *serial, request, reply),
            Reply::GroupFull | Reply::Worn | Reply::NoGroup | Reply::NoCommand => {}
            _ => unreachable!(),
        }
    }

    /// Runs the ticket, tells its end and collects the answer in the same turn of the lock, or waits for it.
    fn run_inline(&self, pass: &mut Pass, serial: Serial, request: &Request, reply: &mut Reply)
        requires { self.now.shared.now.audited ≡ true → 4 ≤ pass.old.room }
        ensures { CallAdds self.now.shared.now.audited pass.old (result_of reply.new) pass.new (IsRunInline D.ends D.fallback_ends C.moments pass.old.group serial request.now (result_of reply.new)) }
    {
        let end = self
            .dependency
            .run(pass.group(), request.command, &request.arg);
        match self.step_and_collect(pass, &end_op(serial, end), serial, reply) {
            Progress::Refused => {}
            Progress::Stepped => self.settle(pass, serial, request, reply),
            Progress::Collected => self.fall_back_where_due(pass, serial, request, reply),
        }
    }

    /// Waits for the answer of the ticket, and runs its fallback where that is due.
    fn settle(&self, pass: &mut Pass, serial: Serial, request: &Request, reply: &mut Reply)
        requires { self.now.shared.now.audited ≡ true → 3 ≤ pass.old.room }
        ensures { CallAdds self.now.shared.now.audited pass.old (result_of reply.new) pass.new (IsSettled D.fallback_ends C.moments pass.old.group serial request.now (result_of reply.new)) }
    {
        self.collect(pass, serial, reply);
        self.fall_back_where_due(pass, serial, request, reply);
    }

    /// Runs the fallback of the ticket where the reply to its Collect says so.
    fn fall_back_where_due(
        &self,
        pass: &mut Pass,
        serial: Serial,
        request: &Request,
        reply: &mut Reply,
    )
        requires { self.now.shared.now.audited ≡ true → 2 ≤ pass.old.room }
        ensures { IsFallbackRun D.fallback_ends C.moments self.now.shared.now.audited pass.old serial request.now reply.old reply.new pass.new }
    {
        match *reply {
            Reply::RunFallback(cause) => self.fall_back(pass, serial, cause, request, reply),
            _ => {}
        }
    }

    /// Runs the fallback of the ticket, tells its end and collects for the last time: where a fallback is due once more, the
    /// call is over.
    fn fall_back(
        &self,
        pass: &mut Pass,
        serial: Serial,
        cause: Cause,
        request: &Request,
        reply: &mut Reply,
    )
        requires { self.now.shared.now.audited ≡ true → 2 ≤ pass.old.room }
        ensures { CallAdds self.now.shared.now.audited pass.old (result_of reply.new) pass.new (IsFallenBack D.fallback_ends C.moments pass.old.group serial cause request.now (result_of reply.new)) }
    {
        let end = self
            .dependency
            .fallback(pass.group(), request.command, cause, &request.arg);
        match self.step_and_collect(pass, &Op::FallbackDone { serial, end }, serial, reply) {
            Progress::Refused | Progress::Collected => {}
            Progress::Stepped => self.collect(pass, serial, reply),
        }
    }

    /// Waits until the ticket can be collected, or the service is stopped, and collects it.
    fn collect(&self, pass: &mut Pass, serial: Serial, reply: &mut Reply)
        requires { self.now.shared.now.audited ≡ true → 1 ≤ pass.old.room }
        ensures made { IsCollectMade C.moments self.now.shared.now.audited pass.old serial reply.new pass.new }
        ensures room { pass.old.room ≤ pass.new.room + 1 }
    {
        let Ok(()) = self
            .shared
            .await_answer_to(self.rt, pass, serial, self.clock, reply)
        else {
            unreachable!()
        };
    }
}

/// Whether a call of which this is the last reply has an answer, or why it has none.
fn told_in(reply: &Reply) -> Result<(), CallError>
    ensures answered { OnOk result ((answer : Answer) × (reply.now ≡ replies.Answered answer)) }
    ensures refused { IfErr result (λ error. result_of reply.now ≡ Err error) }
{
    let error = match reply {
        Reply::Answered(_) => return Ok(()),
        Reply::NoTicket => CallError::Taken,
        Reply::GroupFull => CallError::GroupFull,
        Reply::Worn => CallError::Worn,
        Reply::NoGroup => CallError::NoGroup,
        Reply::NoCommand => CallError::NoCommand,
        _ => CallError::Stopped,
    };
    Err(error)
}
