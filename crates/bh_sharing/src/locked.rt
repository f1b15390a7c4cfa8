//! What stands under the lock of a service that connections share, and its turns.

ghost use Rattle.std.specs.Prelude.{◌≡◌, ◌-◌, [], IfOk, None};
ghost use Rattle.bh_base.specs.declared.reply.Reply.{Reply};
ghost use Rattle.bh_lender.specs.Looks.{in_force_at};
ghost use Rattle.bh_lender.specs.Recorded.{book_of, log_or, recorded_of, with_log_of};
ghost use Rattle.bh_sharing.specs.Locked.{AreExpiredAt, IsEntry, IsExpiredAt, IsReadAfter, IsTurnAt};
ghost use Rattle.bh_sharing.specs.declared.asks.Ask.TheVariants as ask;
ghost use Rattle.bh_sharing.specs.declared.asks.Said.TheVariants as said;
ghost use Rattle.bh_sharing.specs.Service.{IsOf};
ghost use Rattle.bh_sharing.specs.Turns.{Does};

use crate::asks::{Answer, Ask, Said};
use crate::opening::Opening;
use crate::service::Service;
use crate::waiters::{Numbers, Waiter, Waiters};
use bh_audit::Book;
use bh_base::{GroupId, Moment, Op, Reply, Step};
use bh_in_force::InForce;
use bh_lease::{Leases, Refusal};
use bh_lender::{Lender, StepLog};
use bh_turns::{has_to_wait, make_step};
use std::alloc::{AllocError, Global};
use std::marker::{Model, PhantomData};

/// The groups, who waits for them, and the moment of the last turn: no turn is earlier than one before it.
///
/// The groups are what steps made of some with which such a service may be opened.
#[derive(Drop)]
pub struct Locked<S: Service> {
    lender: Lender,
    latest: Moment,
    waiters: Waiters,
    ended: bool,
    of: PhantomData<S>,
}

impl<S: Service> Model for Locked<S> {
    ghost use Rattle.bh_sharing.specs.Locked.{LockedView};
    ghost use Rattle.bh_sharing.specs.Service.{IsOf};

    ghost Value = { LockedView };

    ghost view = { λ l. record { lender = l.lender; latest = l.latest } };

    ghost invariant = { λ l. IsOf S.facts l.lender.recorded.groups };
}

impl<S: Service> Locked<S> {
    /// The groups that a service is opened with, for so many connections. Each step is in the account of the book, where that
    /// is audited, and is put into the log, where one is given. It fails only for want of memory.
    pub fn new(
        alloc: Global,
        opening: Opening<S>,
        connections: u32,
    ) -> Result<Locked<S>, AllocError>
        ensures { IfOk result (λ made. made ≡ record { lender = record { recorded = recorded_of opening.book opening.log; left = [] }; latest = 0 }) }
    {
        let waiters = Waiters::new(alloc, connections)?;
        let Opening { book, log, of: _ } = opening;
        Ok(Locked {
            lender: Lender::new(alloc, book, log),
            latest: 0,
            waiters,
            ended: false,
            of: PhantomData,
        })
    }

    /// The book, with the groups and the account as the turns so far left them.
    pub fn into_book(self) -> Book
        ensures book { result ≡ book_of self.lender.recorded }
        ensures of { IsOf S.facts result.groups }
    {
        let Locked {
            lender,
            latest: _,
            waiters: _,
            ended: _,
            of: _,
        } = self;
        lender.into_book()
    }

    /// The moment of the turn that begins.
    fn moment(&mut self, service: &S) -> Moment
        ensures is { result ≡ self.new.latest }
        ensures read { IsReadAfter S.facts.moments self.old.latest self.new.latest }
        ensures groups { self.new.lender ≡ self.old.lender }
    {
        self.latest = self.latest.max(service.now());
        self.latest
    }

    /// Has done what is asked for, in one turn, and answers what is said to it and who may go on.
    pub fn turn(
        &mut self,
        service: &S,
        ask: Ask<'_>,
        leases: &mut Leases,
        reply: &mut Reply,
    ) -> Answer
        ensures does { Does S.facts ask.entry self.old leases.old reply.new self.new leases.new result.said }
        ensures of { IsOf S.facts self.old.lender.recorded.groups }
    {
        self.are_of_service();
        match ask {
            Ask::Step { group, op, wait } => {
                let said = self.step(service, leases, group, op, wait, reply);
                Answer::telling(said, self.tell(group))
            }
            Ask::Enter { group, context } => {
                Answer::quiet(Said::Told(enter(leases, group, context)))
            }
            Ask::Properties { group, command } => {
                Answer::quiet(Said::Properties(self.in_force(group, command)))
            }
            Ask::GiveBack => self.give_back(service, leases),
            Ask::Expire { from, to } => {
                Answer::telling(Said::Done, self.expire_each(service, from, to))
            }
            Ask::BeginWait { number, waiter } => self.set_waiter(number, Some(waiter)),
            Ask::Sleep { number, .. } => self.looked(number),
            Ask::EndWait { number, group } => {
                self.set_waiter(number, None);
                Answer::telling(Said::Done, self.tell(group))
            }
            Ask::WakeAll => Answer::quiet(Said::Done),
            Ask::IsQuiet => Answer::quiet(Said::Is(self.waiters.is_empty())),
            Ask::End => self.end(),
            Ask::HasEnded => Answer::quiet(Said::Is(self.ended)),
            Ask::SwapLog(log) => Answer::quiet(Said::Log(self.swap_log(log))),
            Ask::EndRecord => self.end_record(),
        }
    }

    /// The groups are what steps made of some with which such a service may be opened.
    pub fn are_of_service(&self)
        ensures { IsOf S.facts self.now.lender.recorded.groups }
    {
        let _ = &self.lender;
    }

    /// Makes the step of the group for the connection that has the leases, at the moment that the clock says now, and writes
    /// its reply where the caller keeps it; or does nothing, where the connection may not ask for it, or where it is to wait
    /// and has to. Nobody has to in a service that was stopped.
    pub fn step(
        &mut self,
        service: &S,
        leases: &mut Leases,
        group: GroupId,
        op: &Op,
        wait: bool,
        reply: &mut Reply,
    ) -> Said
        ensures { IsTurnAt S.facts group op.now wait self.old leases.old reply.new self.new leases.new result }
    {
        if wait && has_to_wait(&self.lender, leases, group, op) && !service.is_stopped() {
            return Said::Waits;
        }
        let now = self.moment(service);
        let step = Step {
            group,
            now,
            op: *op,
        };
        Said::Told(make_step(&mut self.lender, leases, &step, reply))
    }

    /// What is in force of the group's command of the number. No step is made, so nothing goes into the log.
    pub fn in_force(&self, group: GroupId, command: u8) -> Option<InForce>
        ensures { result ≡ in_force_at self.now.lender.recorded.groups group.0 command }
    {
        self.lender.in_force(group, command)
    }

    /// Gives back all that a connection has which ends, unless memory is refused for that: nothing is done then.
    pub fn give_back(&mut self, service: &S, leases: &mut Leases) -> Answer
        ensures { (reply : Reply) → Does S.facts ask.GiveBack self.old leases.old reply self.new leases.new result.said }
    {
        let now = self.moment(service);
        match self.lender.give_back(leases, now) {
            Ok(()) => Answer::telling(Said::Done, self.waiters.tell_all(self.lender.core())),
            Err(AllocError) => Answer::quiet(Said::NoMemory),
        }
    }

    /// Times out what is due in the groups of the numbers from one on and below another, and answers who may go on.
    pub fn expire_each(&mut self, service: &S, from: u64, to: u64) -> Numbers
        ensures { AreExpiredAt S.facts.moments from (to - from) self.old self.new }
    {
        let mut told = Numbers::none();
        for number in from..to {
            told = told.and(self.expire(service, GroupId(number)));
        }
        told
    }

    /// Times out what is due in the group, and answers who may go on.
    pub fn expire(&mut self, service: &S, group: GroupId) -> Numbers
        ensures { IsExpiredAt S.facts.moments group self.old self.new }
    {
        let now = self.moment(service);
        match self.lender.expire_due(group, now) {
            Some(_) => self.tell(group),
            None => Numbers::none(),
        }
    }

    /// Notes what the connection waits for from now on, if it does.
    fn set_waiter(&mut self, number: usize, waiter: Option<Waiter>) -> Answer
        ensures said { result.said ≡ said.Done }
        ensures same { self.new ≡ self.old }
    {
        self.waiters.set(number, waiter);
        Answer::quiet(Said::Done)
    }

    /// The connection has looked again.
    fn looked(&mut self, number: usize) -> Answer
        ensures said { result.said ≡ said.Done }
        ensures same { self.new ≡ self.old }
    {
        self.waiters.looked(number);
        Answer::quiet(Said::Done)
    }

    /// All connections have ended.
    fn end(&mut self) -> Answer
        ensures said { result.said ≡ said.Done }
        ensures same { self.new ≡ self.old }
    {
        self.ended = true;
        Answer::quiet(Said::Done)
    }

    /// Tells those to look again whom a step of the group lets go on, and answers who they are. What was told to a connection
    /// that waits no more is told to another one that waits in the group.
    fn tell(&mut self, group: GroupId) -> Numbers
        ensures { self.new ≡ self.old }
    {
        self.waiters.tell(self.lender.core(), group)
    }

    /// The steps that were put into the log, in exchange for those of another log; that one, where there is none.
    pub fn swap_log(&mut self, other: StepLog) -> StepLog
        ensures this { self.new ≡ record self.old { lender = record self.old.lender { recorded = with_log_of other self.old.lender.recorded } } }
        ensures that { result ≡ log_or other self.old.lender.recorded }
    {
        let mut log = other;
        self.lender.swap_log(&mut log);
        log
    }

    /// No further step is put into the log.
    pub fn end_record(&mut self) -> Answer
        ensures said { result.said ≡ said.Done }
        ensures ended { self.new ≡ record self.old { lender = record self.old.lender { recorded = record self.old.lender.recorded { log = None } } } }
    {
        self.lender.end_log();
        Answer::quiet(Said::Done)
    }

    /// Whether the connection of the number sleeps on: it waits, and was not told to look again.
    pub fn sleeps(&self, number: usize) -> bool {
        self.waiters.sleeps(number)
    }
}

/// The connection is within the request context of the group from now on, or it is said why it may not be.
fn enter(leases: &mut Leases, group: GroupId, context: u64) -> Option<Refusal>
    ensures { IsEntry group context leases.old result leases.new }
{
    match leases.enter(group, context) {
        Ok(()) => None,
        Err(refusal) => Some(refusal),
    }
}
