//! The lock, and the only two functions that reach what it guards.

ghost use Rattle.std.specs.Prelude.{◌≡◌, ◌≢◌, ◌==◌, ◌≤◌, Bool, Err, true};
ghost use Rattle.bh_audit.specs.declared.error.AuditError.TheVariants.{NotAudited};
ghost use Rattle.bh_audit.specs.Accounts.{IsAccountOf};
ghost use Rattle.bh_audit.specs.Books.{BookView};
ghost use Rattle.bh_audit.specs.Finish.{FinishSays, OfReport};
ghost use Rattle.bh_audit.specs.Turns.{Did, IsAllowed, most_steps};

use crate::account::audit;
use crate::asks::{Answer, Ask};
use crate::book::Book;
use crate::clock::Clock;
use crate::error::AuditError;
use crate::locked::Locked;
use crate::pass::Pass;
use crate::waiting::Place;
use bh_base::Reply;
use bh_journal::AuditReport;
use crossbeam_utils::CachePadded;
use std::alloc::Global;
use std::hint::spin_loop;
use std::sync::{Mutex, MutexGuard, Wait};

/// How often a thread tries to take the lock before it sleeps until the lock is free: for about as long as a few turns take.
/// Each try takes the lock's line of the cache from whoever has the lock, so more of them hold up the turn that all wait for.
const TRIES: u32 = 30;

/// A book and its stop mark under a lock.
///
/// No contract can name what lies under it, so none can say that `ask` does no more than to hand it to `Locked::answer`,
/// nor that `finish` tells of what the lock gives up. These two are to be read, and `take`, by which the first gets the lock;
/// nothing else reaches a guard.
///
/// Threads that try for the lock write to its line of the cache again and again. On that line must be nothing that others
/// read: neither what lies under the lock, nor what lies beside it.
#[derive(Drop)]
pub(crate) struct Guarded<const A: u32> {
    lock: CachePadded<Mutex<CachePadded<Locked<A>>>>,
}

impl<const A: u32> Guarded<A> {
    /// A book that is not stopped, under a lock that nobody has.
    pub(crate) fn new(book: Book) -> Guarded<A>
        requires { book.audited ≡ (A == 1) }
    {
        let locked = Locked {
            book,
            stopped: false,
        };
        Guarded {
            lock: CachePadded::new(Mutex::new(CachePadded::new(locked))),
        }
    }

    /// Takes the lock. A turn is over soon, so a thread tries for a while before it sleeps until the lock is free: whoever
    /// sleeps has to be woken, and meanwhile others sleep too.
    fn take<R: Wait>(&self, rt: &R) -> MutexGuard<'_, CachePadded<Locked<A>>> {
        for _ in 0..TRIES {
            if let Some(guard) = self.lock.try_lock() {
                return guard;
            }
            spin_loop();
        }
        self.lock.lock(rt)
    }

    /// Has done what is asked for, in one turn of the lock. Whoever has to wait gives up the lock, waits at the place,
    /// and asks again.
    #[inline(always)]
    pub(crate) fn ask<R: Wait, C: Clock>(
        &self,
        rt: &R,
        place: &Place,
        ask: &Ask,
        clock: &C,
        pass: &mut Pass,
        reply: &mut Reply,
    ) -> Answer
        requires room { (A == 1) ≡ true → most_steps ask.now ≤ pass.old.room }
        requires allowed { IsAllowed ask.now }
        ensures { Did C.moments (A == 1) ask.now pass.old pass.new reply.new result.said result.freed }
    {
        let mut guard = self.take(rt);
        for _ in rt.forever() {
            match guard.answer(ask, clock, pass, reply) {
                Some(answer) => return answer,
                None => guard = place.wait(rt, guard),
            }
        }
        unreachable!()
    }

    /// The account of what the lock guards, where the passes agree with it.
    pub(crate) fn finish(self, alloc: Global, passes: &[Pass]) -> Result<AuditReport, AuditError>
        requires { (A == 1) ≡ true }
        ensures says { FinishSays passes.now result }
        ensures account { (book : BookView) × (stopped : Bool) × OfReport (IsAccountOf book stopped) result }
        ensures audited { result ≢ Err NotAudited }
    {
        let Guarded { lock } = self;
        let locked = lock.into_inner().into_inner().into_inner();
        audit(alloc, locked, passes)
    }
}
