//! A worker: it starts tickets of its pass's group, runs them and tells their ends.

ghost use Rattle.std.specs.Prelude.{◌≡◌, ℕ, ◌+◌, ◌<◌, ◌≤◌, List, true, false, not};
ghost use Rattle.bh_base.specs.Replies.{is_refusal};
ghost use Rattle.bh_journal.specs.declared.pass.Receipt.{Receipt};
ghost use Rattle.bh_workers.specs.Receipts.{Gains, IsRunEnd, end_op};
ghost use Rattle.bh_workers.specs.Work.{HasReasonToEnd, IsEnding, IsTurn, IsWork};

use crate::dependency::Dependency;
use crate::environment::Environment;
use bh_audit::{Clock, Next, Pass, Shared};
use bh_base::{Op, Reply, RunEnd, Serial, Text};
use std::sync::Wait;

/// Starts the tickets of the pass's group one after another, runs each outside the lock and tells its end, until the
/// service is stopped, the group is worn or not registered, or the pass has no room for one more run. The pass's
/// marks and its room tell which.
pub fn worker_loop<D: Dependency, C: Clock, R: Wait>(
    rt: &R,
    shared: &Shared,
    pass: &mut Pass,
    dependency: &D,
    clock: &C,
)
    ensures work { (made : List Receipt) × Gains shared.now.audited pass.old pass.new made × IsWork D.ends C.moments pass.old.group made }
    ensures ended { HasReasonToEnd shared.now.audited pass.new }
{
    let environment = Environment {
        rt,
        shared,
        dependency,
        clock,
    };
    environment.work(pass);
}

impl<'e, D: Dependency, C: Clock, R: Wait> Environment<'e, D, C, R> {
    /// Makes runs one after another, as the public `worker_loop` says.
    pub(crate) fn work(&self, pass: &mut Pass)
        ensures work { (made : List Receipt) × Gains self.now.shared.now.audited pass.old pass.new made × IsWork D.ends C.moments pass.old.group made }
        ensures ended { HasReasonToEnd self.now.shared.now.audited pass.new }
    {
        for _ in self.rt.forever() {
            if !self.turn(pass) {
                return;
            }
        }
        unreachable!()
    }

    /// Starts a ticket, runs it and tells its end. False where the worker is to end.
    fn turn(&self, pass: &mut Pass) -> bool
        ensures adds { (made : List Receipt) × Gains self.now.shared.now.audited pass.old pass.new made × IsTurn D.ends C.moments pass.old.group result made }
        ensures ended { result ≡ false → HasReasonToEnd self.now.shared.now.audited pass.new }
    {
        let Ok(next) = self.shared.next(self.rt, pass, self.clock) else {
            return false;
        };
        match &next {
            Next::Assigned {
                serial,
                command,
                arg,
            } => self.run_to_end(pass, *serial, *command, arg),
            _ => false,
        }
    }

    /// Runs the ticket and tells its end. False where the group is worn or not registered.
    fn run_to_end(&self, pass: &mut Pass, serial: Serial, command: u8, arg: &Text<64>) -> bool
        requires { self.now.shared.now.audited ≡ true → 0 < pass.old.room }
        ensures adds { (made : List Receipt) × Gains self.now.shared.now.audited pass.old pass.new made × IsEnding D.ends C.moments pass.old.group serial command arg.now result made }
        ensures ended { result ≡ false → HasReasonToEnd self.now.shared.now.audited pass.new }
    {
        let end = self.dependency.run(pass.group(), command, arg);
        let mut reply = Reply::Idle;
        self.make_step(pass, &end_op(serial, end), &mut reply);
        was_taken(&reply)
    }
}

/// The operation that tells how the run of the ticket ended.
#[inline(always)]
pub(crate) fn end_op(serial: Serial, end: RunEnd) -> Op
    ensures { result ≡ end_op serial end }
{
    match end {
        RunEnd::Success(body) => Op::Finish { serial, body },
        RunEnd::Failure => Op::Fail { serial, bad: false },
        RunEnd::BadRequest => Op::Fail { serial, bad: true },
    }
}

/// Whether the step was made.
fn was_taken(reply: &Reply) -> bool
    ensures { result ≡ not (is_refusal reply.now) }
{
    match reply {
        Reply::Worn | Reply::NoGroup | Reply::NoCommand => false,
        _ => true,
    }
}
