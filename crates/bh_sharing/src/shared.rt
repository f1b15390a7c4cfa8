//! The groups that connections share, under one lock.

ghost use Rattle.std.specs.Prelude.{◌≡◌, true};
ghost use Rattle.bh_base.specs.declared.reply.Reply.{Reply};
ghost use Rattle.bh_audit.specs.Books.{IsAudited};
ghost use Rattle.bh_lease.specs.Leases.{LeasesView};
ghost use Rattle.bh_sharing.specs.Locked.{IsEntry};
ghost use Rattle.bh_sharing.specs.Service.{IsOf};
ghost use Rattle.bh_sharing.specs.Shared.{IsInForce, IsReturned, IsShared};
ghost use Rattle.bh_sharing.specs.Turns.{Did};

use crate::asks::{Answer, Ask, Said};
use crate::guarded::Guarded;
use crate::opening::Opening;
use crate::service::Service;
use crate::waiters::{MOST_WAITERS, Waiter};
use bh_audit::Book;
use bh_base::{GroupId, Op, Reply};
use bh_desk::Turn;
use bh_in_force::InForce;
use bh_lease::{Leases, Refusal};
use bh_lender::StepLog;
use bh_share::Directory;
use bh_turns::put_answer;
use std::alloc::{AllocError, Global};
use std::rt::Clock;
use std::sync::Wait;
use std::thread;
use std::time::Duration;

/// How many groups are asked in one turn of the lock whether a ticket is due: while it lasts, no other step is made.
const GROUPS_A_TURN: u64 = 32;

/// Between two tries to give back what a connection had, in milliseconds.
const RETRY: u64 = 10;

/// The groups that connections share. Each call is one turn of the lock, or says how many; nobody holds it meanwhile.
///
/// Connections have numbers, from 0 on, and one thread each.
#[derive(Drop)]
pub struct SharedGroups<S: Service> {
    alloc: Global,
    guarded: Guarded<S>,
}

impl<S: Service + Drop> SharedGroups<S> {
    /// The groups that a service is opened with, for so many connections, `MOST_WAITERS` at most. Each step is in the account of
    /// the book, where that is audited, and is put into the log, where one is given. It fails only for want of memory.
    pub fn new(
        alloc: Global,
        service: S,
        opening: Opening<S>,
        connections: u32,
    ) -> Result<SharedGroups<S>, AllocError> {
        let connections = connections.min(MOST_WAITERS);
        let guarded = Guarded::new(alloc, service, opening, connections)?;
        Ok(SharedGroups { alloc, guarded })
    }

    /// The book, with the groups and the account as all turns left them. It takes no lock: nobody shares the groups any more.
    ///
    /// Its groups are what steps made of some with which such a service may be opened. In an audited one the journal of each
    /// group agrees with what the group shows, whoever made its steps.
    pub fn into_book(self) -> Book
        ensures of { IsOf S.facts result.groups }
        ensures audited { result.audited ≡ true → IsAudited result.groups result.journals }
    {
        let SharedGroups { alloc: _, guarded } = self;
        let book = guarded.into_book();
        book.journals_agree();
        book
    }
}

impl<S: Service> SharedGroups<S> {
    /// What the service stands on.
    pub fn service(&self) -> &S {
        self.guarded.service()
    }

    /// Makes the step of the group for the connection that has the leases, at the moment of the turn, and puts the line that
    /// answers it behind the bytes; or does nothing, where it is to wait and has to. Nobody has to in a service that was
    /// stopped. The line is made once the lock is given back.
    ///
    /// The error comes where memory for the line was refused: the bytes are as they were then, and what was done stays done.
    pub fn answer<R: Wait + Clock, D: Directory>(
        &self,
        rt: &R,
        directory: &D,
        leases: &mut Leases,
        group: GroupId,
        op: &Op,
        wait: bool,
        out: &mut Vec<u8>,
    ) -> Result<Turn, AllocError>
        ensures { IsShared S.facts (D.names directory.now) group op.now wait leases.old out.old.items result leases.new out.new.items }
    {
        let mut reply = Reply::Idle;
        match self.ask(rt, Ask::Step { group, op, wait }, leases, &mut reply) {
            Said::Told(refused) => {
                match put_answer(self.alloc, directory, group, refused, &reply, out) {
                    Ok(()) => Ok(Turn::Answered),
                    Err(refused) => Err(refused),
                }
            }
            Said::Waits => Ok(Turn::Waits),
            _ => unreachable!(),
        }
    }

    /// The connection is within the request context of the group from now on, until a `Close` of it is made for the connection, or
    /// the connection ends; or it is said why it may not enter it. No step is made.
    pub fn enter<R: Wait + Clock>(
        &self,
        rt: &R,
        leases: &mut Leases,
        group: GroupId,
        context: u64,
    ) -> Option<Refusal>
        ensures { IsEntry group context leases.old result leases.new }
    {
        let mut reply = Reply::Idle;
        match self.ask(rt, Ask::Enter { group, context }, leases, &mut reply) {
            Said::Told(refused) => refused,
            _ => unreachable!(),
        }
    }

    /// What is in force of the group's command of the number, in one turn; None where the group is not registered, or lacks the
    /// command. No step is made.
    pub fn in_force<R: Wait + Clock>(&self, rt: &R, group: GroupId, command: u8) -> Option<InForce>
        ensures { IsInForce S.facts group command result }
    {
        match self.look(rt, Ask::Properties { group, command }) {
            Said::Properties(found) => found,
            _ => unreachable!(),
        }
    }

    /// Gives back all that a connection has which ends. Where memory for that is refused, it is tried again a while later.
    pub fn give_back<R: Wait + Clock>(&self, rt: &R, leases: &mut Leases)
        ensures { IsReturned S.facts leases.old leases.new }
    {
        for _ in rt.forever() {
            let mut reply = Reply::Idle;
            if let Said::Done = self.ask(rt, Ask::GiveBack, leases, &mut reply) {
                return;
            }
            thread::sleep(rt, Duration::from_millis(RETRY));
        }
        unreachable!()
    }

    /// Times out what is due in the groups of the numbers below this. It takes a turn of the lock for every 32 groups.
    pub fn expire<R: Wait + Clock>(&self, rt: &R, groups: u64) {
        let mut from = 0;
        while from < groups {
            let to = groups.min(from.saturating_add(GROUPS_A_TURN));
            self.look(rt, Ask::Expire { from, to });
            from = to;
        }
    }

    /// The connection waits for this from now on.
    pub fn begin_wait<R: Wait + Clock>(&self, rt: &R, number: usize, waiter: Waiter) {
        self.look(rt, Ask::BeginWait { number, waiter });
    }

    /// Sleeps until the connection is told to look again, everybody is, or so many milliseconds have passed; perhaps for less.
    pub fn sleep<R: Wait + Clock>(&self, rt: &R, number: usize, millis: u64) {
        self.look(rt, Ask::Sleep { number, millis });
    }

    /// The connection waits no more. What it was told is told to another one that waits in the group.
    pub fn end_wait<R: Wait + Clock>(&self, rt: &R, number: usize, group: GroupId) {
        self.look(rt, Ask::EndWait { number, group });
    }

    /// Wakes everybody who waits: each finds, in a turn behind this one, that the service was stopped.
    pub fn wake_all<R: Wait + Clock>(&self, rt: &R) {
        self.look(rt, Ask::WakeAll);
        self.guarded.wake_all();
    }

    /// Whether no connection waits.
    pub fn is_quiet<R: Wait + Clock>(&self, rt: &R) -> bool {
        let Said::Is(quiet) = self.look(rt, Ask::IsQuiet) else {
            unreachable!()
        };
        quiet
    }

    /// The steps that were put into the log, in the order in which they were made, in exchange for those of another log.
    pub fn swap_log<R: Wait + Clock>(&self, rt: &R, other: StepLog) -> StepLog {
        let Said::Log(log) = self.look(rt, Ask::SwapLog(other)) else {
            unreachable!()
        };
        log
    }

    /// No further step is put into the log.
    pub fn end_record<R: Wait + Clock>(&self, rt: &R) {
        self.look(rt, Ask::EndRecord);
    }

    /// Says that all connections have ended.
    pub fn end<R: Wait + Clock>(&self, rt: &R) {
        self.look(rt, Ask::End);
    }

    /// Whether all connections have ended.
    pub fn has_ended<R: Wait + Clock>(&self, rt: &R) -> bool {
        let Said::Is(ended) = self.look(rt, Ask::HasEnded) else {
            unreachable!()
        };
        ended
    }
}

impl<S: Service> SharedGroups<S> {
    /// Has done what is asked for in one turn of the lock, and then wakes whom that lets go on.
    fn ask<R: Wait + Clock>(
        &self,
        rt: &R,
        ask: Ask<'_>,
        leases: &mut Leases,
        reply: &mut Reply,
    ) -> Said
        ensures { Did S.facts ask.entry leases.old reply.new leases.new result }
    {
        let Answer { said, told } = self.guarded.ask(rt, ask, leases, reply);
        self.guarded.wake(told);
        said
    }

    /// Asks for what is of no connection in particular.
    fn look<R: Wait + Clock>(&self, rt: &R, ask: Ask<'_>) -> Said
        ensures { (had : LeasesView) × (has : LeasesView) × (reply : Reply) × Did S.facts ask.entry had reply has result }
    {
        let mut leases = Leases::none(self.alloc);
        let mut reply = Reply::Idle;
        self.ask(rt, ask, &mut leases, &mut reply)
    }
}
