//! What the calls, the workers and the timer of a service have at hand, and one step by it, or a step and a Collect.

ghost use Rattle.std.specs.Prelude.{◌≡◌, ◌+◌, ◌≤◌, ℕ, true};
ghost use Rattle.bh_base.specs.declared.reply.Reply.TheVariants.{NoCommand};
ghost use Rattle.bh_base.specs.Replies.{can_reply};
ghost use Rattle.bh_audit.specs.Calls.{CanBeMissing, step_at};
ghost use Rattle.bh_workers.specs.Collecting.{ProgressAdds, receipts_of};
ghost use Rattle.bh_workers.specs.Receipts.{StepAdds};

use bh_audit::{Clock, Pass, Progress, Shared};
use bh_base::{Op, Reply, Serial, Step};
use std::sync::Wait;

/// A service with all that its steps and runs need: the runtime to wait by, what is run for its requests, and where
/// moments come from. Threads may share it.
#[derive(Drop)]
pub(crate) struct Environment<'e, D, C, R> {
    pub(crate) rt: &'e R,
    pub(crate) shared: &'e Shared,
    pub(crate) dependency: &'e D,
    pub(crate) clock: &'e C,
}

impl<'e, D, C: Clock, R: Wait> Environment<'e, D, C, R> {
    /// Makes one step of the pass's own group, at the moment that the clock gives, and writes its reply where the caller
    /// keeps it. The moment is read before the lock is taken.
    #[inline(always)]
    pub(crate) fn make_step(&self, pass: &mut Pass, op: &Op, reply: &mut Reply)
        requires { self.now.shared.now.audited ≡ true → 1 ≤ pass.old.room }
        ensures adds { StepAdds C.moments self.now.shared.now.audited pass.old op.now reply.new pass.new }
        ensures kinds { can_reply op.now reply.new ≡ true }
        ensures missing { reply.new ≡ NoCommand → CanBeMissing op.now }
        ensures room { pass.old.room ≤ pass.new.room + 1 }
    {
        let step = self.step_now(pass, op);
        let Ok(()) = self.shared.step_to(self.rt, pass, &step, reply) else {
            unreachable!()
        };
    }

    /// Makes such a step and collects the ticket behind it in the same turn of the lock, unless the step is refused or the
    /// Collect has to wait. The reply is that to the last of them.
    #[inline(always)]
    pub(crate) fn step_and_collect(
        &self,
        pass: &mut Pass,
        op: &Op,
        serial: Serial,
        reply: &mut Reply,
    ) -> Progress
        requires { self.now.shared.now.audited ≡ true → 2 ≤ pass.old.room }
        ensures adds { ProgressAdds C.moments self.now.shared.now.audited pass.old op.now serial result reply.new pass.new }
        ensures room { pass.old.room ≤ pass.new.room + receipts_of result }
    {
        let step = self.step_now(pass, op);
        let shared = self.shared;
        match shared.step_and_collect_to(self.rt, pass, &step, serial, self.clock, reply) {
            Ok(progress) => progress,
            Err(_) => unreachable!(),
        }
    }

    /// The step of the pass's own group at the moment that the clock gives.
    #[inline(always)]
    fn step_now(&self, pass: &Pass, op: &Op) -> Step
        ensures { (moment : ℕ) × C.moments moment × (result ≡ step_at pass.now.group moment op.now) }
    {
        let group = pass.group();
        let now = self.clock.now();
        Step {
            group,
            now,
            op: *op,
        }
    }
}
