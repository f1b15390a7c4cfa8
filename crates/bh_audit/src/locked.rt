//! What the lock guards, and what a thread that has it does there.

ghost use Rattle.std.specs.Prelude.{◌≡◌, ◌≢◌, ◌==◌, ◌<◌, ◌≤◌, ◌||◌, ℕ, Bool, IfSome, IsNone, OnSome, None, Some, true, false, is_some, length};
ghost use Rattle.bh_base.specs.declared.reply.Reply.{Reply};
ghost use Rattle.bh_base.specs.declared.step.Op.TheVariants as op;
ghost use Rattle.bh_base.specs.declared.step.Step.{Step};
ghost use Rattle.bh_base.specs.Replies.{is_refusal};
ghost use Rattle.bh_base.specs.Runs.{View, is_worn};
ghost use Rattle.bh_base.specs.Seen.{view_reply};
ghost use Rattle.bh_core.specs.CoreView.{view_at};
ghost use Rattle.bh_core.specs.Looks.{is_assigned};
ghost use Rattle.bh_core.specs.Step.{IsStep};
ghost use Rattle.std.specs.List.{position_from};
ghost use Rattle.bh_in_force.specs.Properties.{in_force_found};
ghost use Rattle.bh_journal.specs.Passes.{Adds, PassView, added, receipt_of};
ghost use Rattle.bh_audit.specs.Books.{IsAudited, IsWritten};
ghost use Rattle.bh_audit.specs.Calls.{NeedsNoWait, is_due, workers_of};
ghost use Rattle.bh_audit.specs.Waking.{IsEverybody, KeepsWakeUps, frees_by, frees_one, is_told_again};
ghost use Rattle.bh_audit.specs.declared.asks.Ask.TheVariants as ask;
ghost use Rattle.bh_audit.specs.Turns.{CallerWaits, Does, HasToWait, IsAllowed, IsMade, IsProgress, IsStarted, IsUnchanged, WorkerWaits, held, most_steps};

use crate::asks::{Answer, Ask, Said};
use crate::book::{Book, is_refused};
use crate::clock::Clock;
use crate::freed::{Freed, FreedCallers, Notice, is_told_again};
use crate::next::Progress;
use crate::pass::Pass;
use bh_base::{GroupId, GroupProps, Moment, Op, Reply, Serial, Step, Strategy};
use bh_in_force::InForce;

/// What the lock guards. The book is audited where `A` is 1.
#[derive(Drop)]
pub struct Locked<const A: u32> {
    pub(crate) book: Book,
    pub(crate) stopped: bool,
    ghost kind: { book.audited ≡ (A == 1) },
}

impl<const A: u32> Locked<A> {
    /// Whenever the lock of an audited service is got, the journal of each group agrees with what the group shows.
    pub(crate) fn journals_agree(&self)
        ensures { (A == 1) ≡ true → IsAudited self.now.book.groups self.now.book.journals }
    {
        self.book.journals_agree();
    }

    /// Makes one step, writes its reply where the caller keeps it, and what comes of it in the pass. It says whom the step
    /// lets go on.
    fn step(&mut self, pass: &mut Pass, step: &Step, reply: &mut Reply) -> Freed
        requires { (A == 1) ≡ true → 0 < pass.old.room }
        ensures { IsMade (A == 1) step.entry.now reply.new (held self.old.book self.old.stopped pass.old) (held self.new.book self.new.stopped pass.new) result }
    {
        self.make(pass, step, reply)
    }

    /// Makes the step: what `step` says of it, by parts.
    fn make(&mut self, pass: &mut Pass, step: &Step, reply: &mut Reply) -> Freed
        requires { (A == 1) ≡ true → 0 < pass.old.room }
        ensures adds { Adds (A == 1) pass.old step.entry.now reply.new pass.new }
        ensures groups { IsStep self.old.book.groups step.entry.now reply.new self.new.book.groups }
        ensures refused { is_refusal reply.new ≡ true → self.new.book ≡ self.old.book }
        ensures written { (A == 1) ≡ true → is_refusal reply.new ≡ false → IsWritten self.old.book.journals step.entry.now.group.0 step.entry.now reply.new self.new.book.journals }
        ensures unwritten { (A == 1) ≡ false → self.new.book.journals ≡ self.old.book.journals }
        ensures place { (A == 1) ≡ true → is_refusal reply.new ≡ false → (v : View) × (view_at self.new.book.groups step.entry.now.group.0 ≡ Some v) × (pass.new ≡ added pass.old (receipt_of v.present.steps step.entry.now reply.new)) }
        ensures stopped { self.new.stopped ≡ self.old.stopped }
        ensures told { KeepsWakeUps self.old.book.groups step.entry.now.group step.entry.now.op self.new.book.groups result }
    {
        let was_startable = self.book.core().startable(step.group);
        let place = self.book.apply_to(step, reply);
        let freed = self.freed(step, was_startable);
        let Some(place) = place else {
            mark(pass, reply);
            return freed;
        };
        if self.book.audited() {
            pass.add(place, step, reply);
        }
        freed
    }

    /// Whom the step that was just made lets go on. `was_startable` says whether a Start would have been answered with
    /// a run before it.
    fn freed(&self, step: &Step, was_startable: bool) -> Freed
        ensures worker { (v : View) (moment : ℕ) → view_at self.now.book.groups step.entry.now.group.0 ≡ Some v → was_startable ≡ false → is_assigned (view_reply v op.Start moment) ≡ true → frees_one result.workers ≡ true }
        ensures next_worker { (v : View) (moment : ℕ) → view_at self.now.book.groups step.entry.now.group.0 ≡ Some v → is_told_again step.entry.now.op ≡ true → is_assigned (view_reply v op.Start moment) ≡ true → frees_one result.workers ≡ true }
        ensures worn { (v : View) → view_at self.now.book.groups step.entry.now.group.0 ≡ Some v → is_worn v.present ≡ true → IsEverybody result }
        ensures fresh { (v : View) → view_at self.now.book.groups step.entry.now.group.0 ≡ Some v → is_worn v.present ≡ false → result.callers ≡ frees_by step.entry.now.op }
    {
        if self.book.core().worn(step.group) {
            return Freed::everybody();
        }
        let callers = FreedCallers::after(&step.op);
        if !self.book.core().startable(step.group) {
            return Freed::new(Notice::Nobody, callers);
        }
        if was_startable && !is_told_again(&step.op) {
            return Freed::new(Notice::Nobody, callers);
        }
        Freed::new(Notice::One, callers)
    }
}

impl<const A: u32> Locked<A> {
    /// Does what is asked for, in the turn of the lock that the caller has, and nothing else; None where whoever asks has
    /// to wait. Then nothing has changed.
    #[inline(always)]
    pub(crate) fn answer<C: Clock>(
        &mut self,
        ask: &Ask,
        clock: &C,
        pass: &mut Pass,
        reply: &mut Reply,
    ) -> Option<Answer>
        requires room { (A == 1) ≡ true → most_steps ask.now ≤ pass.old.room }
        requires allowed { IsAllowed ask.now }
        ensures does { IfSome result (λ answer. Does C.moments (A == 1) ask.now (held self.old.book self.old.stopped pass.old) (held self.new.book self.new.stopped pass.new) reply.new answer.said answer.freed) }
        ensures waits { IsNone result → HasToWait ask.now (held self.old.book self.old.stopped pass.old) }
        ensures same { IsNone result → IsUnchanged (held self.old.book self.old.stopped pass.old) (held self.new.book self.new.stopped pass.new) }
        ensures reply { IsNone result → reply.new ≡ reply.old }
    {
        match ask {
            Ask::Step(step) => Some(Answer {
                said: Said::Done,
                freed: self.step(pass, step, reply),
            }),
            Ask::StepAndCollect(step, serial) => {
                let (progress, freed) = self.step_and_collect(pass, step, *serial, clock, reply);
                let said = Said::Progress(progress);
                Some(Answer { said, freed })
            }
            Ask::Next => self.try_next(pass, clock, reply),
            Ask::Collect(serial) => self.try_collect(pass, *serial, clock, reply),
            Ask::Expire => Some(self.expire(pass, clock)),
            Ask::FirstDue(passes) => Some(Answer::look(Said::Due(self.first_due(
                passes,
                clock.now(),
            )))),
            Ask::Stop => Some(Answer {
                said: Said::Done,
                freed: self.stop(),
            }),
            Ask::IsStopped => Some(Answer::look(Said::Is(self.stopped))),
            Ask::Register {
                alloc,
                props,
                step_limit,
            } => {
                let registered = self.register(*alloc, props, *step_limit);
                Some(Answer::look(Said::Registered(registered)))
            }
            Ask::Retire(group) => {
                let (retired, freed) = self.retire(*group);
                let said = Said::Retired(retired);
                Some(Answer { said, freed })
            }
            Ask::IsRegistered(group) => Some(Answer::look(Said::Is(self.is_registered(*group)))),
            Ask::Groups => Some(Answer::look(Said::Count(self.groups()))),
            Ask::Workers(group) => Some(Answer::look(Said::Count(self.workers(*group)))),
            Ask::InForce { group, command } => {
                let found = self.in_force(*group, *command);
                Some(Answer::look(Said::InForce(found)))
            }
        }
    }
}

impl<const A: u32> Locked<A> {
    /// What a worker of the pass's group is told now; None where it has to wait. Then nothing has changed. Where it is not
    /// told to stop, the reply to its Start is written where the caller keeps it.
    fn try_next<C: Clock>(
        &mut self,
        pass: &mut Pass,
        clock: &C,
        reply: &mut Reply,
    ) -> Option<Answer>
        requires { (A == 1) ≡ true → 0 < pass.old.room }
        ensures does { IfSome result (λ answer. Does C.moments (A == 1) ask.Next (held self.old.book self.old.stopped pass.old) (held self.new.book self.new.stopped pass.new) reply.new answer.said answer.freed) }
        ensures waits { IsNone result → WorkerWaits (held self.old.book self.old.stopped pass.old) }
        ensures same { IsNone result → IsUnchanged (held self.old.book self.old.stopped pass.old) (held self.new.book self.new.stopped pass.new) }
        ensures reply { IsNone result → reply.new ≡ reply.old }
    {
        let group = pass.group();
        if self.stopped && self.book.is_registered(group) {
            pass.mark_stopped();
            return Some(Answer {
                said: Said::Stopped,
                freed: Freed::nobody(),
            });
        }
        if self.book.must_wait(group) {
            return None;
        }
        Some(Answer {
            said: Said::Done,
            freed: self.start(pass, clock, reply),
        })
    }

    /// Makes a Start that is answered with a run, or refused.
    fn start<C: Clock>(&mut self, pass: &mut Pass, clock: &C, reply: &mut Reply) -> Freed
        requires room { (A == 1) ≡ true → 0 < pass.old.room }
        requires ready { (v : View) → view_at self.old.book.groups pass.old.group.0 ≡ Some v → NeedsNoWait v }
        ensures { IsStarted C.moments (A == 1) reply.new (held self.old.book self.old.stopped pass.old) (held self.new.book self.new.stopped pass.new) result }
    {
        let group = pass.group();
        let now = clock.now();
        let op = Op::Start;
        let start = Step { group, now, op };
        self.step(pass, &start, reply)
    }

    /// Makes a Collect of the serial, unless it would be answered `Pending` and the service is not stopped, and writes its
    /// reply where the caller keeps it; or it gives None, and nothing has changed.
    fn try_collect<C: Clock>(
        &mut self,
        pass: &mut Pass,
        serial: Serial,
        clock: &C,
        reply: &mut Reply,
    ) -> Option<Answer>
        requires { (A == 1) ≡ true → 0 < pass.old.room }
        ensures does { IfSome result (λ answer. Does C.moments (A == 1) (ask.Collect serial) (held self.old.book self.old.stopped pass.old) (held self.new.book self.new.stopped pass.new) reply.new answer.said answer.freed) }
        ensures waits { IsNone result → CallerWaits serial (held self.old.book self.old.stopped pass.old) }
        ensures same { IsNone result → IsUnchanged (held self.old.book self.old.stopped pass.old) (held self.new.book self.new.stopped pass.new) }
        ensures reply { IsNone result → reply.new ≡ reply.old }
    {
        let group = pass.group();
        if !self.stopped && self.book.core().pending(group, serial) {
            return None;
        }
        let now = clock.now();
        let op = Op::Collect { serial };
        let freed = self.step(pass, &Step { group, now, op }, reply);
        if matches!(reply, Reply::Pending) {
            pass.mark_stopped();
        }
        Some(Answer {
            said: Said::Done,
            freed,
        })
    }

    /// Makes the step and, where it was not refused and a Collect of the serial has not to wait, that Collect too. The reply
    /// is that to the last of them, and who goes on is told of both.
    fn step_and_collect<C: Clock>(
        &mut self,
        pass: &mut Pass,
        step: &Step,
        serial: Serial,
        clock: &C,
        reply: &mut Reply,
    ) -> (Progress, Freed)
        requires { (A == 1) ≡ true → 2 ≤ pass.old.room }
        ensures { IsProgress C.moments (A == 1) step.entry.now serial result.0 reply.new (held self.old.book self.old.stopped pass.old) (held self.new.book self.new.stopped pass.new) result.1 }
    {
        let freed = self.step(pass, step, reply);
        if is_refused(reply) {
            return (Progress::Refused, freed);
        }
        let Some(answer) = self.try_collect(pass, serial, clock, reply) else {
            return (Progress::Stepped, freed);
        };
        let Answer {
            said: _,
            freed: others,
        } = answer;
        (Progress::Collected, freed.and(others))
    }

    /// Makes an Expire where a ticket is due, and says how many timed out.
    fn expire<C: Clock>(&mut self, pass: &mut Pass, clock: &C) -> Answer
        requires { (A == 1) ≡ true → 0 < pass.old.room }
        ensures { (reply : Reply) → Does C.moments (A == 1) ask.Expire (held self.old.book self.old.stopped pass.old) (held self.new.book self.new.stopped pass.new) reply result.said result.freed }
    {
        let group = pass.group();
        let now = clock.now();
        if !self.book.core().due(group, now) {
            return Answer::look(Said::Expired(None));
        }
        let op = Op::Expire;
        let mut reply = Reply::Idle;
        let freed = self.step(pass, &Step { group, now, op }, &mut reply);
        match &reply {
            Reply::Expired(number) => Answer {
                said: Said::Expired(Some(*number)),
                freed,
            },
            _ => unreachable!(),
        }
    }

    /// The place of the first of the passes in whose group a ticket is due at the moment; None where there is none.
    fn first_due(&mut self, passes: &[Pass], now: Moment) -> Option<usize>
        ensures first { result ≡ position_from (λ (p : PassView). is_due self.old.book.groups p.group now) 0 passes.now }
        ensures book { self.new.book ≡ self.old.book }
        ensures stopped { self.new.stopped ≡ self.old.stopped }
    {
        for (place, pass) in passes.iter().enumerate() {
            if self.book.is_due(pass.group(), now) {
                return Some(place);
            }
        }
        None
    }

    /// Sets the stop mark. Everybody goes on that waits in any group.
    fn stop(&mut self) -> Freed
        ensures stopped { self.new.stopped ≡ true }
        ensures everybody { IsEverybody result }
        ensures book { self.new.book ≡ self.old.book }
    {
        self.stopped = true;
        Freed::everybody()
    }

    /// How many workers the group wants; 0 where it is not registered.
    fn workers(&self, group: GroupId) -> u64
        ensures known { (v : View) → view_at self.now.book.groups group.0 ≡ Some v → result ≡ workers_of v.present.props }
        ensures unknown { view_at self.now.book.groups group.0 ≡ None → result ≡ 0 }
    {
        match self.book.core().props(group) {
            Some((props, _)) if self.book.is_registered(group) => workers_of(props),
            _ => 0,
        }
    }

    /// What is in force of the group's command of the number; None where the group is not registered, or has no such
    /// command.
    fn in_force(&self, group: GroupId, command: u8) -> Option<InForce>
        ensures known { (v : View) → view_at self.now.book.groups group.0 ≡ Some v → result ≡ in_force_found command v.present.props }
        ensures unknown { view_at self.now.book.groups group.0 ≡ None → result ≡ None }
    {
        match self.book.core().props(group) {
            Some((props, _)) if self.book.is_registered(group) => InForce::find(props, command),
            _ => None,
        }
    }
}

/// How many workers a group of these properties wants: none where callers run the requests of each command.
fn workers_of(props: &GroupProps) -> u64
    ensures { result ≡ workers_of props.now }
{
    for command in &props.commands {
        if command.strategy == Strategy::Thread {
            return props.core;
        }
    }
    0
}

/// Sets the mark of a refusal. `NoCommand` has none.
fn mark(pass: &mut Pass, reply: &Reply)
    requires { is_refusal reply.now ≡ true }
    ensures { (audited : Bool) (step : Step) → Adds audited pass.old step reply.now pass.new }
{
    match reply {
        Reply::Worn => pass.mark_worn(),
        Reply::NoGroup => pass.mark_no_group(),
        Reply::NoCommand => {}
        _ => unreachable!(),
    }
}
