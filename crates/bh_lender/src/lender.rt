//! The groups, the steps of connections, and what is left of connections that are gone.

ghost use Rattle.std.specs.Prelude.{◌≡◌, ◌↔◌, [], Err, Some, None, OnErr, OnOk, OnSome, IfSome, List, true};
ghost use Rattle.bh_base.specs.declared.step.Op.TheVariants as op;
ghost use Rattle.bh_base.specs.declared.reply.Reply.TheVariants as replies;
ghost use Rattle.bh_lease.specs.Leases.{LeasesView, cleared, leases_after, refusal};
ghost use Rattle.bh_audit.specs.Books.{IsAudited};
ghost use Rattle.bh_lender.specs.Recorded.{book_of, log_or, recorded_of, with_log_of};
ghost use Rattle.bh_lender.specs.Lender.{DoesStep, IsExpired, IsGivenBack};
ghost use Rattle.bh_lender.specs.Looks.{in_force_at};

use crate::recorded::Recorded;
use crate::returning::{close_each, end_each, leave_each};
use crate::settling::settle;
use crate::step_log::StepLog;
use bh_audit::Book;
use bh_base::{GroupId, Moment, Op, Reply, Serial, Step};
use bh_core::Core;
use bh_in_force::InForce;
use bh_lease::{Leases, Part, Refusal};
use std::alloc::{AllocError, Global};
use std::marker::Model;

/// Holders of one ticket whose connections are gone. The service collects in the place of each, once there is something to
/// collect.
#[derive(Clone, Copy, Debug, PartialEq, Eq)]
pub struct Left {
    /// The group of the ticket.
    pub group: GroupId,
    /// The number of the ticket in its group.
    pub serial: Serial,
    /// How many holders these are, at most 4,294,967,295: what is above that has a further entry.
    pub number: u64,
}

/// All groups, and the holders that connections left behind.
///
/// Each call is one turn: it makes its steps, and then collects for each holder that is left and need not wait any more. So
/// between turns a Collect of each of them would be answered `Pending`.
#[derive(Drop)]
pub struct Lender {
    pub(crate) core: Recorded,
    pub(crate) left: Vec<Left>,
}

impl Model for Lender {
    ghost use Rattle.bh_lender.specs.Settling.{AreWaiting};
    ghost use Rattle.bh_lender.specs.Lender.{LenderView};

    ghost Value = { LenderView };

    ghost view = { λ l. record { recorded = l.core; left = l.left.items } };

    ghost invariant = { λ l. AreWaiting l.core.groups l.left.items };
}

impl Lender {
    /// The groups of a book, of which nobody has tickets. Each step is in the account of the book, where that is audited, and
    /// is put into the log, where one is given.
    pub fn new(alloc: Global, book: Book, log: Option<StepLog>) -> Lender
        ensures { result ≡ record { recorded = recorded_of book log; left = [] } }
    {
        Lender {
            core: Recorded::new(book, log),
            left: Vec::new(alloc),
        }
    }

    /// The groups as the steps so far left them.
    pub fn core(&self) -> &Core
        ensures { result.now ≡ self.now.recorded.groups }
    {
        self.core.core()
    }

    /// The book, with the groups and the account as the steps so far left them. No step is made for the holders
    /// that are left.
    pub fn into_book(self) -> Book
        ensures { result ≡ book_of self.recorded }
    {
        let Lender { core, left: _ } = self;
        core.into_book()
    }

    /// Where journals are kept, that of each group agrees with what the group shows.
    pub fn journals_agree(&self)
        ensures { self.now.recorded.audited ≡ true → IsAudited self.now.recorded.groups self.now.recorded.journals }
    {
        self.core.journals_agree();
    }

    /// Exchanges the steps that were put into the log, in the order in which they were made, with those of another log, where
    /// there is a log. No step is made.
    pub fn swap_log(&mut self, other: &mut StepLog)
        ensures this { self.new ≡ record self.old { recorded = with_log_of other.old self.old.recorded } }
        ensures that { other.new ≡ log_or other.old self.old.recorded }
    {
        self.core.swap_log(other);
    }

    /// No further step is put into a log.
    pub fn end_log(&mut self)
        ensures { self.new ≡ record self.old { recorded = record self.old.recorded { log = None } } }
    {
        self.core.end_log();
    }

    /// The holders that are left, by their tickets, in the order in which the first holder of each was left.
    pub fn left(&self) -> &[Left]
        ensures { result.now ≡ self.now.left }
    {
        self.left.as_slice()
    }

    /// What is in force of the group's command of the number, with each change that was made since its registration; None where
    /// the group is not registered, or lacks the command. No step is made.
    pub fn in_force(&self, group: GroupId, command: u8) -> Option<InForce>
        ensures { result ≡ in_force_at self.now.recorded.groups group.0 command }
    {
        self.core.in_force(group, command)
    }

    /// Makes one step for the connection that has the leases, writes its reply where the caller keeps it, and notes what the
    /// connection has then.
    ///
    /// The error says why it may not make this step: nothing is done then, and what is at `reply` stays.
    pub fn step(
        &mut self,
        leases: &mut Leases,
        step: &Step,
        reply: &mut Reply,
    ) -> Result<(), Refusal>
        ensures refused { (why : Refusal) → (result ≡ Err why) ↔ (refusal step.entry.now.group step.entry.now.op leases.old ≡ Some why) }
        ensures does { OnOk result (DoesStep step.entry.now reply.new self.old self.new) }
        ensures noted { OnOk result (leases.new ≡ leases_after step.entry.now.group step.entry.now.op reply.new leases.old) }
        ensures err { OnErr result ((self.new ≡ self.old) × (leases.new ≡ leases.old) × (reply.new ≡ reply.old)) }
    {
        if let Some(refusal) = leases.refusal(step.group, &step.op) {
            return Err(refusal);
        }
        self.core.apply_to(step, reply);
        leases.note(step.group, &step.op, reply);
        settle(&mut self.core, &mut self.left, step.now);
        Ok(())
    }

    /// Times out the tickets of the group that are due, and says how many there were; None where none was due, with nothing
    /// done. A group that is worn or not registered has none.
    pub fn expire_due(&mut self, group: GroupId, now: Moment) -> Option<u64>
        ensures { IsExpired group now result self.old self.new }
    {
        if !self.core.due(group, now) {
            return None;
        }
        let op = Op::Expire;
        let mut reply = Reply::Idle;
        self.core.apply_to(&Step { group, now, op }, &mut reply);
        settle(&mut self.core, &mut self.left, now);
        match reply {
            Reply::Expired(number) => Some(number),
            _ => unreachable!(),
        }
    }

    /// Gives back all that a connection has which ends: its runs have failed, and its fallbacks too. Then the request contexts
    /// that it is within are closed, and its holders are left with the service, which collects at once for those that need not
    /// wait. It has no lease then, and is within no context.
    ///
    /// The error comes where memory for the holders was refused: nothing has changed then, and it may be tried again.
    pub fn give_back(&mut self, leases: &mut Leases, now: Moment) -> Result<(), AllocError>
        ensures given { OnOk result (IsGivenBack now leases.old self.old self.new) }
        ensures none { OnOk result (leases.new ≡ cleared leases.old) }
        ensures err { OnErr result ((self.new ≡ self.old) × (leases.new ≡ leases.old)) }
    {
        let listed = leases.as_slice();
        self.left.reserve(listed.len())?;
        end_each(&mut self.core, listed, Part::Run, now);
        end_each(&mut self.core, listed, Part::Fallback, now);
        close_each(&mut self.core, leases.contexts(), now);
        leave_each(&mut self.left, listed);
        settle(&mut self.core, &mut self.left, now);
        leases.clear();
        Ok(())
    }
}
