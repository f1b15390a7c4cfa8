//! Control lines, asked of a service that threads share.

ghost use Rattle.std.specs.Prelude.{◌≡◌, Ok, Err, MatchResult, None, true};
ghost use Rattle.bh_base.specs.declared.reply.Answer.{Answer};
ghost use Rattle.bh_base.specs.declared.reply.CallError.TheVariants.{PassFull};
ghost use Rattle.bh_base.specs.declared.reply.Reply.TheVariants as replies;
ghost use Rattle.bh_base.specs.declared.step.Op.TheVariants as op;
ghost use Rattle.bh_base.specs.Replies.{can_reply};
ghost use Rattle.bh_audit.specs.Calls.{CanBeMissing};
ghost use Rattle.bh_serve.specs.Served.{IsCalled, IsStepped, MayAnswer, MayClose, MayShow, MayTotal, MayTune};

use crate::names::GroupNames;
use bh_audit::{Clock, Pass, Shared};
use bh_base::{Answer, CallError, GroupId, Op, Reply, Request, Step, Text, Tuning};
use bh_control::Control;
use bh_in_force::InForce;
use bh_workers::{Dependency, MOST_RECEIPTS, call_to};
use std::alloc::Global;
use std::marker::Model;
use std::sync::Wait;

/// The control of a service, for one connection.
///
/// Its calls wait, by the runtime that it keeps. Each takes a new pass, and the control keeps the last one: in an
/// audited service it has the receipts of what was done. In another service a pass takes no memory.
#[derive(Drop)]
pub struct ServiceControl<'e, R, D, C> {
    rt: &'e R,
    alloc: Global,
    shared: &'e Shared,
    names: &'e GroupNames<'e>,
    dependency: &'e D,
    clock: &'e C,
    last: Option<Pass>,
}

impl<'e, R, D, C> Model for ServiceControl<'e, R, D, C> {
    ghost use Rattle.bh_serve.specs.ServiceControlView.{ServiceControlView};

    ghost Value = { ServiceControlView };

    ghost view = { λ c. record { service = c.shared.now; names = c.names.now; last = c.last } };
}

impl<'e, R, D, C> ServiceControl<'e, R, D, C> {
    /// The control of a service whose groups and commands have these names.
    pub fn new(
        rt: &'e R,
        alloc: Global,
        shared: &'e Shared,
        names: &'e GroupNames<'e>,
        dependency: &'e D,
        clock: &'e C,
    ) -> ServiceControl<'e, R, D, C>
        ensures { result ≡ record { service = shared.now; names = names.now; last = None } }
    {
        ServiceControl {
            rt,
            alloc,
            shared,
            names,
            dependency,
            clock,
            last: None,
        }
    }
}

impl<'e, R: Wait, D: Dependency, C: Clock> ServiceControl<'e, R, D, C> {
    /// Makes one step of the group, now, with a new pass. Where there is none, since memory for the receipt of an audited
    /// service was refused, the reply is `NoGroup`.
    fn step(&mut self, group: GroupId, op: Op) -> Reply
        requires { can_reply op Reply.NoGroup ≡ true }
        ensures kinds { can_reply op result ≡ true }
        ensures missing { result ≡ Reply.NoCommand → CanBeMissing op }
        ensures names { self.new.names ≡ self.old.names }
        ensures made { IsStepped C.moments self.old.service group op result self.new.last }
    {
        let now = self.clock.now();
        let Ok(mut pass) = self.shared.blank_pass(self.alloc, group, 1) else {
            self.last = None;
            return Reply::NoGroup;
        };
        let Ok(reply) = self
            .shared
            .step(self.rt, &mut pass, Step { group, now, op })
        else {
            unreachable!()
        };
        self.last = Some(pass);
        reply
    }
}

impl<'e, R: Wait, D: Dependency, C: Clock> Control for ServiceControl<'e, R, D, C> {
    ghost use Rattle.bh_serve.specs.Served.{MayShow, MayAnswer, MayClose, MayTotal, MayTune};

    ghost names = { λ control. control.names };

    ghost may_show = { MayShow };

    ghost may_answer = { MayAnswer D.ends D.fallback_ends C.moments };

    ghost may_close = { MayClose };

    ghost may_total = { MayTotal };

    ghost may_tune = { MayTune };

    ghost may_force = { λ _ _ _. Unit {0} };

    fn groups(&self) -> &[Text<32>] {
        self.names.as_slice()
    }

    fn group(&self, name: &str) -> Option<GroupId> {
        let number = self.names.number(name)?;
        Some(GroupId(number))
    }

    fn command(&self, group: GroupId, name: &str) -> Option<u8> {
        self.names.command(group, name)
    }

    fn metrics(&mut self, group: GroupId, command: u8) -> Reply
        ensures reply { MayShow group command result }
        ensures groups { self.new.names ≡ self.old.names }
        ensures made { IsStepped C.moments self.old.service group (op.Read command) result self.new.last }
    {
        self.step(group, Op::Read { command })
    }

    fn call(&mut self, group: GroupId, request: Request) -> Result<Answer, CallError>
        ensures answer { MayAnswer D.ends D.fallback_ends C.moments group request result }
        ensures groups { self.new.names ≡ self.old.names }
        ensures made { IsCalled D.ends D.fallback_ends C.moments self.old.service group request result self.new.last }
        ensures full { result ≡ Err PassFull → self.old.service.audited ≡ true }
    {
        let mut reply = Reply::Idle;
        self.call_to(group, &request, &mut reply)?;
        match reply {
            Reply::Answered(answer) => Ok(answer),
            _ => unreachable!(),
        }
    }

    fn call_to(
        &mut self,
        group: GroupId,
        request: &Request,
        reply: &mut Reply,
    ) -> Result<(), CallError>
        ensures answer { MatchResult result (λ done. (answer : Answer) × (reply.new ≡ replies.Answered answer) × MayAnswer D.ends D.fallback_ends C.moments group request.now (Ok answer)) (λ error. MayAnswer D.ends D.fallback_ends C.moments group request.now (Err error)) }
        ensures groups { self.new.names ≡ self.old.names }
        ensures made { MatchResult result (λ done. (answer : Answer) × (reply.new ≡ replies.Answered answer) × IsCalled D.ends D.fallback_ends C.moments self.old.service group request.now (Ok answer) self.new.last) (λ error. IsCalled D.ends D.fallback_ends C.moments self.old.service group request.now (Err error) self.new.last) }
        ensures full { result ≡ Err PassFull → self.old.service.audited ≡ true }
    {
        let Ok(mut pass) = self.shared.blank_pass(self.alloc, group, MOST_RECEIPTS) else {
            self.last = None;
            return Err(CallError::PassFull);
        };
        let told = call_to(
            self.rt,
            self.shared,
            &mut pass,
            self.dependency,
            self.clock,
            request,
            reply,
        );
        self.last = Some(pass);
        told
    }

    fn close(&mut self, group: GroupId, context: u64) -> Reply
        ensures reply { MayClose group context result }
        ensures groups { self.new.names ≡ self.old.names }
        ensures made { IsStepped C.moments self.old.service group (op.Close context) result self.new.last }
    {
        self.step(group, Op::Close { context })
    }

    fn totals(&mut self, group: GroupId, command: u8) -> Reply
        ensures reply { MayTotal group command result }
        ensures groups { self.new.names ≡ self.old.names }
        ensures made { IsStepped C.moments self.old.service group (op.Totals command) result self.new.last }
    {
        self.step(group, Op::Totals { command })
    }

    fn tune(&mut self, group: GroupId, command: u8, tuning: Tuning) -> Reply
        ensures reply { MayTune group command tuning result }
        ensures groups { self.new.names ≡ self.old.names }
        ensures made { IsStepped C.moments self.old.service group (op.Tune command tuning) result self.new.last }
    {
        self.step(group, Op::Tune { command, tuning })
    }

    fn in_force(&self, group: GroupId, command: u8) -> Option<InForce> {
        self.shared.in_force(self.rt, group, command)
    }
}
