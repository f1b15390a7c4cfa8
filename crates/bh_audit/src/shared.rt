//! One service, which threads share.

ghost use Rattle.std.specs.Prelude.{◌≡◌, ◌≢◌, ◌↔◌, ◌<◌, ◌≤◌, ◌^◌, ◌&&◌, length, nat_lt, IfOk, IfErr, IfSome, IsErr, OnErr, OnOk, Err, true, false, if◌then◌else◌};
ghost use Rattle.bh_base.specs.declared.reply.Reply.TheVariants as replies;
ghost use Rattle.bh_base.specs.declared.step.Op.TheVariants as op;
ghost use Rattle.bh_base.specs.Ranges.{IsInRange};
ghost use Rattle.bh_base.specs.Replies.{can_reply};
ghost use Rattle.bh_base.specs.declared.reply.Reply.{Reply};
ghost use Rattle.bh_journal.specs.Passes.{PassView, blank};
ghost use Rattle.bh_audit.specs.declared.error.AuditError.TheVariants.{NotAudited};
ghost use Rattle.bh_audit.specs.declared.next.PassError.TheVariants.{Memory};
ghost use Rattle.bh_audit.specs.declared.next.StepError.TheVariants.{OtherGroup, PassFull};
ghost use Rattle.bh_audit.specs.Calls.{AddsCollect, AddsExpire, AddsNext};
ghost use Rattle.bh_audit.specs.Finish.{FinishSays};
ghost use Rattle.bh_audit.specs.Service.{is_audited};
ghost use Rattle.bh_audit.specs.Turns.{Did, IsAllowed, most_steps};
ghost use Rattle.bh_audit.specs.declared.freed.Freed.{Freed};

mod steps;

use crate::asks::{Answer, Ask, Said};
use crate::book::Book;
use crate::clock::{Clock, NoClock};
use crate::error::AuditError;
use crate::freed::Freed;
use crate::guarded::Guarded;
use crate::next::{Next, PassError, StepError, told_by};
use crate::pass::Pass;
use crate::waiting::{Place, Waiting, all_waiting};
use bh_base::{GroupId, GroupProps, Reply, Serial};
use bh_core::{RegisterError, RetireError};
use bh_in_force::InForce;
use bh_journal::AuditReport;
use std::alloc::{AllocError, Global};
use std::marker::Model;
use std::sync::Wait;

/// Looks that are of no group in particular name this one.
const NO_GROUP: GroupId = GroupId(0);

/// The lock of an audited book, or of another.
#[derive(Drop)]
enum Lock {
    Audited(Guarded<1>),
    Plain(Guarded<0>),
}

/// One service, which threads share: a book under one lock. Contracts see whether it is audited, and nothing of its
/// groups, which come and go under the lock.
///
/// In an audited service every step is in its group's journal, and a receipt of it in the pass of the call that made
/// it. A call that may wait takes the runtime, and its contract holds if it returns. No call but `register` takes
/// memory while it has the lock.
///
/// A group is registered from its registration until it is retired; its number is never given again. A pass of another
/// service may be handed in. Where the group of a pass is not registered here, or not any more, the calls answer
/// `NoGroup`.
#[derive(Drop)]
pub struct Shared {
    lock: Lock,
    /// One for each group of the book that the service was made of.
    waiting: Vec<Waiting>,
    /// One for all groups that are registered later: places that were made later could be found under the lock alone.
    later: Waiting,
}

impl Model for Shared {
    ghost use Rattle.std.specs.Prelude.{vec_len};
    ghost use Rattle.bh_audit.specs.Service.{ServiceView, is_audited};

    ghost Value = { ServiceView };

    ghost view = { λ s. record { audited = is_audited s.lock; begun = vec_len s.waiting } };
}

impl Shared {
    /// A service over a book, which is handed back where memory was refused.
    pub fn new(alloc: Global, book: Book) -> Result<Shared, (Book, AllocError)>
        ensures audited { IfOk result (λ s. s.audited ≡ book.audited) }
        ensures begun { IfOk result (λ s. s.begun ≡ length book.groups.lives) }
        ensures err { IfErr result (λ e. e.0 ≡ book) }
    {
        match all_waiting(alloc, book.core().groups()) {
            Ok(waiting) => Ok(Shared {
                lock: lock_of(book),
                waiting,
                later: Waiting::new(),
            }),
            Err(error) => Err((book, error)),
        }
    }

    /// Whether the service was made of an audited book. It takes no lock.
    pub fn audited(&self) -> bool
        ensures { result ≡ self.now.audited }
    {
        match &self.lock {
            Lock::Audited(_) => true,
            Lock::Plain(_) => false,
        }
    }

    /// A pass of a group, with room for so many receipts in an audited service, and with none in another.
    ///
    /// The errors are, in this order, `NoGroup` where the group is not registered, or was retired, and `Memory` where
    /// memory for the receipts of an audited service was refused; nothing has changed then. It takes memory once it has
    /// given back the lock. A group may be retired before its pass is used: the calls then answer `NoGroup`.
    pub fn pass<R: Wait>(
        &self,
        rt: &R,
        alloc: Global,
        group: GroupId,
        room: u64,
    ) -> Result<Pass, PassError>
        ensures blank { IfOk result (λ p. p ≡ blank group (if self.now.audited then room else 0)) }
        ensures memory { result ≡ Err Memory → self.now.audited ≡ true }
    {
        if !self.is_registered(rt, group) {
            return Err(PassError::NoGroup);
        }
        Ok(self.blank_pass(alloc, group, room)?)
    }

    /// A pass as `pass` gives it, of a group that may be registered or not: it takes no lock, and memory in an audited
    /// service alone. Where the group is not registered, the calls answer `NoGroup`. The error comes where memory for the
    /// receipts of an audited service was refused; nothing has changed then.
    pub fn blank_pass(&self, alloc: Global, group: GroupId, room: u64) -> Result<Pass, AllocError>
        ensures blank { IfOk result (λ p. p ≡ blank group (if self.now.audited then room else 0)) }
        ensures memory { IsErr result → self.now.audited ≡ true }
    {
        if !self.audited() {
            return Ok(Pass::without_room(alloc, group));
        }
        Pass::new(alloc, group, room)
    }

    /// Registers a group, which may do so many steps, 1 to 2^40. The other groups go on meanwhile, save that the lock is
    /// held while memory for the group is taken. The room of an audited group's journal is for as many entries. A
    /// service that was stopped registers groups too.
    ///
    /// The errors are, in this order, `TooManyGroups` where 2^40 groups were registered in all, `TooManySlots` where
    /// the slots of all groups that are not retired would be more than the core may have, and `Memory` where a growth was
    /// refused; nothing has changed then.
    pub fn register<R: Wait>(
        &self,
        rt: &R,
        alloc: Global,
        props: &GroupProps,
        step_limit: u64,
    ) -> Result<GroupId, RegisterError>
        requires props { IsInRange props.now }
        requires some_steps { 1 ≤ step_limit }
        requires few_steps { step_limit ≤ 2 ^ 40 }
    {
        let ask = Ask::Register {
            alloc,
            props,
            step_limit,
        };
        let Said::Registered(registered) = self.look(rt, NO_GROUP, &ask, &NoClock) else {
            unreachable!()
        };
        registered
    }

    /// Retires a group that nobody uses: its slots are there for groups that come later, and its journal stays for the
    /// account. Workers that wait in it go on, and are told `NoGroup`. It makes no step, and takes no memory. A group
    /// that is worn, or whose service was stopped, can be retired too.
    ///
    /// The errors are, in this order, `NoGroup` where the group is not registered, or was retired before, and `Busy`
    /// where a run of it has not ended, or someone has still to collect an answer; nothing has changed then.
    pub fn retire<R: Wait>(&self, rt: &R, group: GroupId) -> Result<(), RetireError> {
        let Said::Retired(retired) = self.look(rt, group, &Ask::Retire(group), &NoClock) else {
            unreachable!()
        };
        retired
    }

    /// Waits until a worker of the pass's group has something to do, and makes the Start that says what: it waits
    /// until a ticket can be started, the group is worn or not registered, or the service is stopped. The moment of
    /// the Start is read under the lock.
    ///
    /// `Assigned` has its receipt in an audited service; `Worn`, `NoGroup` and `Stopped` set their marks, and with
    /// `Stopped` no step is made. `PassFull` comes where the service is audited and fewer than two receipts are
    /// free, so that there is room for the end of the run too; nothing has changed then.
    pub fn next<R: Wait, C: Clock>(
        &self,
        rt: &R,
        pass: &mut Pass,
        clock: &C,
    ) -> Result<Next, StepError>
        ensures adds { IfOk result (λ n. AddsNext C.moments self.now.audited pass.old n pass.new) }
        ensures room { IfOk result (λ n. self.now.audited ≡ true → 2 ≤ pass.old.room) }
        ensures other { result ≢ Err OtherGroup }
        ensures full { (result ≡ Err PassFull) ↔ ((self.now.audited ≡ true) × (pass.old.room < 2)) }
        ensures err { OnErr result (pass.new ≡ pass.old) }
    {
        if self.lacks_room(pass, 2) {
            return Err(StepError::PassFull);
        }
        let mut reply = Reply::Idle;
        match self.ask(rt, pass.group(), &Ask::Next, clock, pass, &mut reply) {
            Said::Done => Ok(told_by(&reply)),
            Said::Stopped => Ok(Next::Stopped),
            _ => unreachable!(),
        }
    }

    /// Waits while a Collect of the serial would be answered `Pending` and the service is not stopped, and then makes
    /// one such Collect. The moment of it is read under the lock.
    ///
    /// Its receipt and marks are those of `step`; a reply `Pending`, which comes only where the service is stopped,
    /// sets the stop mark too. A Collect names no command, so `NoCommand` is no reply to it. `PassFull` comes where the
    /// service is audited and no receipt is free; nothing has changed then.
    pub fn await_answer<R: Wait, C: Clock>(
        &self,
        rt: &R,
        pass: &mut Pass,
        serial: Serial,
        clock: &C,
    ) -> Result<Reply, StepError>
        ensures adds { IfOk result (λ r. AddsCollect C.moments self.now.audited pass.old serial r pass.new) }
        ensures kinds { IfOk result (λ r. can_reply (op.Collect serial) r ≡ true) }
        ensures known { IfOk result (λ r. r ≢ replies.NoCommand) }
        ensures room { IfOk result (λ r. self.now.audited ≡ true → 1 ≤ pass.old.room) }
        ensures other { result ≢ Err OtherGroup }
        ensures full { (result ≡ Err PassFull) ↔ ((self.now.audited ≡ true) × (pass.old.room ≡ 0)) }
        ensures err { OnErr result (pass.new ≡ pass.old) }
    {
        let mut reply = Reply::Idle;
        self.await_answer_to(rt, pass, serial, clock, &mut reply)?;
        Ok(reply)
    }

    /// Waits and collects as `await_answer` does, and writes the reply where the caller keeps it. What is there stays where
    /// there is an error.
    pub fn await_answer_to<R: Wait, C: Clock>(
        &self,
        rt: &R,
        pass: &mut Pass,
        serial: Serial,
        clock: &C,
        reply: &mut Reply,
    ) -> Result<(), StepError>
        ensures adds { OnOk result (AddsCollect C.moments self.now.audited pass.old serial reply.new pass.new) }
        ensures kinds { OnOk result (can_reply (op.Collect serial) reply.new ≡ true) }
        ensures known { OnOk result (reply.new ≢ replies.NoCommand) }
        ensures room { OnOk result (self.now.audited ≡ true → 1 ≤ pass.old.room) }
        ensures other { result ≢ Err OtherGroup }
        ensures full { (result ≡ Err PassFull) ↔ ((self.now.audited ≡ true) × (pass.old.room ≡ 0)) }
        ensures err { OnErr result (pass.new ≡ pass.old) }
        ensures kept { OnErr result (reply.new ≡ reply.old) }
    {
        if self.lacks_room(pass, 1) {
            return Err(StepError::PassFull);
        }
        let ask = Ask::Collect(serial);
        self.ask(rt, pass.group(), &ask, clock, pass, reply);
        Ok(())
    }

    /// Makes an Expire where a ticket of the pass's group is due and the group is not worn, and says how many tickets
    /// timed out, which are not none. Else it makes no step, and gives None. The moment is read under the lock.
    ///
    /// It sets no mark. `PassFull` comes where the service is audited and no receipt is free; nothing has changed
    /// then.
    pub fn expire_due<R: Wait, C: Clock>(
        &self,
        rt: &R,
        pass: &mut Pass,
        clock: &C,
    ) -> Result<Option<u64>, StepError>
        ensures adds { IfOk result (λ number. AddsExpire C.moments self.now.audited pass.old number pass.new) }
        ensures room { IfOk result (λ number. self.now.audited ≡ true → 1 ≤ pass.old.room) }
        ensures other { result ≢ Err OtherGroup }
        ensures full { (result ≡ Err PassFull) ↔ ((self.now.audited ≡ true) × (pass.old.room ≡ 0)) }
        ensures err { OnErr result (pass.new ≡ pass.old) }
    {
        if self.lacks_room(pass, 1) {
            return Err(StepError::PassFull);
        }
        let mut reply = Reply::Idle;
        match self.ask(rt, pass.group(), &Ask::Expire, clock, pass, &mut reply) {
            Said::Expired(number) => Ok(number),
            _ => unreachable!(),
        }
    }

    /// The place of the first of the passes in whose group a ticket is due; None where there is none. All groups are
    /// asked in one turn of the lock, at one moment that is read in it.
    ///
    /// It makes no step. A group that is worn or not registered has no ticket that is due.
    pub fn first_due<R: Wait, C: Clock>(&self, rt: &R, passes: &[Pass], clock: &C) -> Option<usize>
        ensures { IfSome result (λ place. place < length passes.now) }
    {
        let Said::Due(place) = self.look(rt, NO_GROUP, &Ask::FirstDue(passes), clock) else {
            unreachable!()
        };
        place
    }

    /// How many calls wait in the group: idle workers, and callers whose ticket has no answer. It takes no lock. A call
    /// that is counted has looked in vain, and a step that is made after it was seen here finds it waiting.
    ///
    /// Groups that were registered after the service was made share one place, and the calls that wait in any of them
    /// are counted for each, and for a number that was not given.
    pub fn waiting(&self, group: GroupId) -> u64 {
        self.waiting_at(group).count()
    }

    /// Stops the service: workers and callers that wait go on at once, and later ones do not wait.
    pub fn stop<R: Wait>(&self, rt: &R) {
        self.look(rt, NO_GROUP, &Ask::Stop, &NoClock);
    }

    /// Whether the service was stopped.
    pub fn stopped<R: Wait>(&self, rt: &R) -> bool {
        let Said::Is(stopped) = self.look(rt, NO_GROUP, &Ask::IsStopped, &NoClock) else {
            unreachable!()
        };
        stopped
    }

    /// How many groups were registered in all, retired ones included. The next one gets that number.
    pub fn groups<R: Wait>(&self, rt: &R) -> u64
        ensures { self.now.begun ≤ result }
    {
        let Said::Count(groups) = self.look(rt, NO_GROUP, &Ask::Groups, &NoClock) else {
            unreachable!()
        };
        groups.max(self.waiting.len() as u64)
    }

    /// How many workers the group wants: as many as its pool has where a command of the group runs in that pool, else
    /// 0; 0 where it is not registered, or was retired.
    pub fn workers<R: Wait>(&self, rt: &R, group: GroupId) -> u64 {
        let Said::Count(workers) = self.look(rt, group, &Ask::Workers(group), &NoClock) else {
            unreachable!()
        };
        workers
    }

    /// The properties that are in force of the group's command of the number, with each change that was made since its
    /// registration; None where the group is not registered, or was retired, or has no such command. It makes no step.
    pub fn in_force<R: Wait>(&self, rt: &R, group: GroupId, command: u8) -> Option<InForce> {
        let ask = Ask::InForce { group, command };
        let Said::InForce(found) = self.look(rt, group, &ask, &NoClock) else {
            unreachable!()
        };
        found
    }

    /// The account of the service, where the passes agree with it. It takes no lock, and gives up the service and the
    /// passes whatever it answers. It holds retired groups too, by number.
    ///
    /// The errors are, in this order, `NotAudited`, `Memory` where a growth was refused, and then, by group and
    /// rising place, the first `PassMissing` or `Mismatch`.
    pub fn finish(self, alloc: Global, passes: Vec<Pass>) -> Result<AuditReport, AuditError>
        ensures not_audited { (result ≡ Err NotAudited) ↔ (self.audited ≡ false) }
        ensures says { FinishSays passes.items result }
    {
        let Shared {
            lock,
            waiting: _,
            later: _,
        } = self;
        match lock {
            Lock::Audited(lock) => lock.finish(alloc, &passes),
            Lock::Plain(_) => Err(AuditError::NotAudited),
        }
    }
}

impl Shared {
    /// Whether the service is audited and the pass has room for fewer receipts than that.
    fn lacks_room(&self, pass: &Pass, receipts: u64) -> bool
        ensures { result ≡ (self.now.audited && nat_lt pass.now.room receipts) }
    {
        self.audited() && pass.room_left() < receipts
    }

    /// Has done what is asked for in one turn of the lock, and then notifies whom that lets go on. The group is that of
    /// the pass; of a retirement, the one that is retired.
    ///
    /// Each call that makes steps gets code of its own, in which no case but its own is left.
    #[inline(always)]
    fn ask<R: Wait, C: Clock>(
        &self,
        rt: &R,
        group: GroupId,
        ask: &Ask,
        clock: &C,
        pass: &mut Pass,
        reply: &mut Reply,
    ) -> Said
        requires room { self.now.audited ≡ true → most_steps ask.now ≤ pass.old.room }
        requires allowed { IsAllowed ask.now }
        ensures { (freed : Freed) × Did C.moments self.now.audited ask.now pass.old pass.new reply.new result freed }
    {
        let place = self.place_of(group, ask);
        let Answer { said, freed } = match &self.lock {
            Lock::Audited(lock) => lock.ask(rt, place, ask, clock, pass, reply),
            Lock::Plain(lock) => lock.ask(rt, place, ask, clock, pass, reply),
        };
        match ask {
            Ask::Stop => freed.tell_all(self.waiting.as_slice(), &self.later),
            _ => self.tell(group, freed),
        }
        said
    }

    /// Asks for what makes no step, with a pass that has no room for a receipt.
    #[inline(never)]
    fn look<R: Wait, C: Clock>(&self, rt: &R, group: GroupId, ask: &Ask, clock: &C) -> Said
        requires steps { most_steps ask.now ≡ 0 }
        requires allowed { IsAllowed ask.now }
        ensures { (pass : PassView) × (pass' : PassView) × (reply : Reply) × (freed : Freed) × Did C.moments self.now.audited ask.now pass pass' reply result freed }
    {
        let mut pass = Pass::without_room(*self.waiting.allocator(), group);
        let mut reply = Reply::Idle;
        self.ask(rt, group, ask, clock, &mut pass, &mut reply)
    }

    /// Whether the group is registered, and not retired.
    fn is_registered<R: Wait>(&self, rt: &R, group: GroupId) -> bool {
        let Said::Is(registered) = self.look(rt, group, &Ask::IsRegistered(group), &NoClock) else {
            unreachable!()
        };
        registered
    }

    /// Where whoever asks waits, if it has to.
    fn place_of(&self, group: GroupId, ask: &Ask) -> &Place {
        let waiting = self.waiting_at(group);
        match ask {
            Ask::Collect(serial) => waiting.callers_of(*serial),
            _ => waiting.workers(),
        }
    }

    /// Where calls of the group wait.
    fn waiting_at(&self, group: GroupId) -> &Waiting {
        self.waiting.get(group.0 as usize).unwrap_or(&self.later)
    }

    /// Notifies those of the group whom a step lets go on, where they wait.
    fn tell(&self, group: GroupId, freed: Freed) {
        match self.waiting.get(group.0 as usize) {
            Some(waiting) => freed.tell(waiting),
            None => freed.among_several_groups().tell(&self.later),
        }
    }
}

/// The lock round a book, of the kind that the book is.
fn lock_of(book: Book) -> Lock
    ensures { is_audited result ≡ book.audited }
{
    if book.audited() {
        Lock::Audited(Guarded::new(book))
    } else {
        Lock::Plain(Guarded::new(book))
    }
}
