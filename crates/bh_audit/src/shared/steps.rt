//! The calls that make a given step.

ghost use Rattle.std.specs.Prelude.{◌≡◌, ◌≢◌, ◌↔◌, ◌<◌, ◌≤◌, IfOk, OnErr, OnOk, Err, true};
ghost use Rattle.bh_base.specs.declared.reply.Reply.TheVariants as replies;
ghost use Rattle.bh_base.specs.Replies.{can_reply};
ghost use Rattle.bh_journal.specs.Passes.{Adds};
ghost use Rattle.bh_audit.specs.declared.next.StepError.TheVariants.{OtherGroup, PassFull};
ghost use Rattle.bh_audit.specs.Calls.{AddsProgress, CanBeMissing};

use super::Shared;
use crate::asks::{Ask, Said};
use crate::clock::{Clock, NoClock};
use crate::next::{Progress, StepError};
use crate::pass::Pass;
use bh_base::{Reply, Serial, Step};
use std::sync::Wait;

impl Shared {
    /// Makes one step. Its receipt is added to the pass in an audited service, save where it is refused: `Worn` and
    /// `NoGroup` set their marks, and `NoCommand` leaves the pass as it is.
    ///
    /// The errors are, in this order, `OtherGroup` where the step is of another group than the pass, and `PassFull`
    /// where the service is audited and no receipt is free. Both come before any step, with nothing changed.
    pub fn step<R: Wait>(&self, rt: &R, pass: &mut Pass, step: Step) -> Result<Reply, StepError>
        ensures adds { IfOk result (λ r. Adds self.now.audited pass.old step r pass.new) }
        ensures kinds { IfOk result (λ r. can_reply step.op r ≡ true) }
        ensures missing { IfOk result (λ r. r ≡ replies.NoCommand → CanBeMissing step.op) }
        ensures group { IfOk result (λ r. step.group ≡ pass.old.group) }
        ensures room { IfOk result (λ r. self.now.audited ≡ true → 1 ≤ pass.old.room) }
        ensures other { (result ≡ Err OtherGroup) ↔ (step.group ≢ pass.old.group) }
        ensures full { (result ≡ Err PassFull) ↔ ((step.group ≡ pass.old.group) × (self.now.audited ≡ true) × (pass.old.room ≡ 0)) }
        ensures err { OnErr result (pass.new ≡ pass.old) }
    {
        let mut reply = Reply::Idle;
        self.step_to(rt, pass, &step, &mut reply)?;
        Ok(reply)
    }

    /// Makes one step as `step` does, and writes its reply where the caller keeps it, since a reply is too long to be copied
    /// at each return. What is there stays where there is an error.
    pub fn step_to<R: Wait>(
        &self,
        rt: &R,
        pass: &mut Pass,
        step: &Step,
        reply: &mut Reply,
    ) -> Result<(), StepError>
        ensures adds { OnOk result (Adds self.now.audited pass.old step.entry.now reply.new pass.new) }
        ensures kinds { OnOk result (can_reply step.entry.now.op reply.new ≡ true) }
        ensures missing { OnOk result (reply.new ≡ replies.NoCommand → CanBeMissing step.entry.now.op) }
        ensures group { OnOk result (step.entry.now.group ≡ pass.old.group) }
        ensures room { OnOk result (self.now.audited ≡ true → 1 ≤ pass.old.room) }
        ensures other { (result ≡ Err OtherGroup) ↔ (step.entry.now.group ≢ pass.old.group) }
        ensures full { (result ≡ Err PassFull) ↔ ((step.entry.now.group ≡ pass.old.group) × (self.now.audited ≡ true) × (pass.old.room ≡ 0)) }
        ensures err { OnErr result (pass.new ≡ pass.old) }
        ensures kept { OnErr result (reply.new ≡ reply.old) }
    {
        self.admits(pass, step, 1)?;
        self.ask(rt, pass.group(), &Ask::Step(step), &NoClock, pass, reply);
        Ok(())
    }

    /// Makes one step as `step_to` does and, where it was not refused, a Collect of the serial behind it as
    /// `await_answer_to` does, both in one turn of the lock: nobody comes between them. It does not wait. Where the Collect
    /// would have to, it is not made. The moment of the Collect is read under the lock.
    ///
    /// - `Refused`: the step was answered `Worn` or `NoGroup`, which set their marks, or `NoCommand`, which leaves the pass
    ///   as it is. No receipt is added, and the reply is that to the step.
    /// - `Stepped`: the receipt of the step is added alone, and the reply is that to the step.
    /// - `Collected`: the receipt of the step is added, and behind it that of the Collect, or the mark of its refusal. The
    ///   reply is that to the Collect; what was answered to the step is in its receipt alone.
    ///
    /// The errors are, in this order, `OtherGroup` where the step is of another group than the pass, and `PassFull`
    /// where the service is audited and fewer than two receipts are free. Both come before any step: nothing has changed
    /// then, and the reply that is there stays.
    pub fn step_and_collect_to<R: Wait, C: Clock>(
        &self,
        rt: &R,
        pass: &mut Pass,
        step: &Step,
        serial: Serial,
        clock: &C,
        reply: &mut Reply,
    ) -> Result<Progress, StepError>
        ensures adds { IfOk result (λ progress. AddsProgress C.moments self.now.audited pass.old step.entry.now serial progress reply.new pass.new) }
        ensures group { OnOk result (step.entry.now.group ≡ pass.old.group) }
        ensures room { OnOk result (self.now.audited ≡ true → 2 ≤ pass.old.room) }
        ensures other { (result ≡ Err OtherGroup) ↔ (step.entry.now.group ≢ pass.old.group) }
        ensures full { (result ≡ Err PassFull) ↔ ((step.entry.now.group ≡ pass.old.group) × (self.now.audited ≡ true) × (pass.old.room < 2)) }
        ensures err { OnErr result (pass.new ≡ pass.old) }
        ensures kept { OnErr result (reply.new ≡ reply.old) }
    {
        self.admits(pass, step, 2)?;
        let ask = Ask::StepAndCollect(step, serial);
        match self.ask(rt, pass.group(), &ask, clock, pass, reply) {
            Said::Progress(progress) => Ok(progress),
            _ => unreachable!(),
        }
    }
}

impl Shared {
    /// Whether the step is of the pass's group, and the pass has room for so many receipts where the service is audited.
    fn admits(&self, pass: &Pass, step: &Step, receipts: u64) -> Result<(), StepError>
        ensures group { OnOk result (step.entry.now.group ≡ pass.now.group) }
        ensures room { OnOk result (self.now.audited ≡ true → receipts ≤ pass.now.room) }
        ensures other { (result ≡ Err OtherGroup) ↔ (step.entry.now.group ≢ pass.now.group) }
        ensures full { (result ≡ Err PassFull) ↔ ((step.entry.now.group ≡ pass.now.group) × (self.now.audited ≡ true) × (pass.now.room < receipts)) }
    {
        let group = pass.group();
        if step.group != group {
            return Err(StepError::OtherGroup);
        }
        if self.lacks_room(pass, receipts) {
            return Err(StepError::PassFull);
        }
        Ok(())
    }
}
