//! The leases of one connection, and which operations are allowed to it.

ghost use Rattle.std.specs.Prelude.{◌≡◌, ◌↔◌, ◌<◌, ◌≤◌, ◌++◌, ◌∷◌, [], Err, None, Some, true, false, filter, length, not, IfOk, IfSome, IfNone, OnErr, OnOk, if◌then◌else◌, vec_capacity, vec_len};
ghost use Rattle.std.specs.List.{list_any};
ghost use Rattle.bh_base.specs.declared.step.Op.TheVariants as op;
ghost use Rattle.bh_base.specs.Replies.{is_refusal};
ghost use Rattle.bh_lease.specs.Lease.{begun, has_at, is_within};
ghost use Rattle.bh_lease.specs.Leases.{IsFirst, after, after_collect, after_end, after_start, after_submit, cleared, contexts_after, entered, entry_refusal, given_up, has_room, leases_after, no_leases, refusal, told_to_fall_back, unless_had};

use crate::lease::{Lease, Part, Within};
use bh_base::{GroupId, Op, Reply, Serial, push_within};
use std::alloc::{AllocError, Global};
use std::marker::Model;

/// Why an operation of a connection makes no step, or a connection does not enter a context.
#[derive(Clone, Copy, Debug, PartialEq, Eq)]
pub enum Refusal {
    /// The connection has as many leases as it may, or is within as many contexts as it may.
    Full,
    /// No run of the ticket is under way that the connection began.
    NotRunning,
    /// The connection holds no such ticket.
    NoTicket,
    /// The connection was not told to run a fallback of the ticket, or has told how that ended.
    NotInFallback,
    /// The connection may not change properties.
    NotTunable,
}

/// The leases of one connection, in the order in which they began, and how many it may have.
///
/// A submit and a start begin one each. Beside these it is within the request contexts that it entered; so many it may be
/// within at once. The room for both is taken when this is made, so noting a step takes no memory.
#[derive(Drop)]
pub struct Leases {
    listed: Vec<Lease>,
    contexts: Vec<Within>,
    limit: u64,
    most_contexts: u64,
    may_tune: bool,
}

impl Model for Leases {
    ghost use Rattle.std.specs.Prelude.{◌≤◌, vec_len, vec_capacity};
    ghost use Rattle.bh_lease.specs.Leases.{LeasesView};

    ghost Value = { LeasesView };

    ghost view = { λ l. record { listed = l.listed.items; contexts = l.contexts.items; limit = l.limit; most_contexts = l.most_contexts; may_tune = l.may_tune } };

    ghost invariant = { λ l. (vec_len l.listed ≤ l.limit) × (l.limit ≤ vec_capacity l.listed) × (vec_len l.contexts ≤ l.most_contexts) × (l.most_contexts ≤ vec_capacity l.contexts) };
}

impl Leases {
    /// The leases of a connection that has none and is within no context. It may have `limit` leases, be within `contexts`
    /// contexts, and change properties where `may_tune` says so.
    ///
    /// The error comes where memory for the leases and the contexts was refused.
    pub fn new(
        alloc: Global,
        limit: u32,
        contexts: u32,
        may_tune: bool,
    ) -> Result<Leases, AllocError>
        ensures { IfOk result (λ made. made ≡ no_leases limit contexts may_tune) }
    {
        Ok(Leases {
            listed: Vec::with_capacity(alloc, limit as usize)?,
            contexts: Vec::with_capacity(alloc, contexts as usize)?,
            limit: u64::from(limit),
            most_contexts: u64::from(contexts),
            may_tune,
        })
    }

    /// The leases of nobody: there is none, none may begin, no context is entered, and no property changed. It takes no memory.
    pub fn none(alloc: Global) -> Leases
        ensures { result ≡ no_leases 0 0 false }
    {
        Leases {
            listed: Vec::new(alloc),
            contexts: Vec::new(alloc),
            limit: 0,
            most_contexts: 0,
            may_tune: false,
        }
    }

    /// The leases, in the order in which they began.
    pub fn as_slice(&self) -> &[Lease]
        ensures { result.now ≡ self.now.listed }
    {
        self.listed.as_slice()
    }

    /// The request contexts that the connection is within, in the order in which it entered them.
    pub fn contexts(&self) -> &[Within]
        ensures { result.now ≡ self.now.contexts }
    {
        self.contexts.as_slice()
    }

    /// From now on the connection is within the request context of the group, until a `Close` of it or the end of the
    /// connection. One that it is within already it may enter again, which changes nothing. No step is made.
    ///
    /// The error is `Full` where the connection is within as many contexts as it may: nothing has changed then.
    pub fn enter(&mut self, group: GroupId, context: u64) -> Result<(), Refusal>
        ensures refused { (why : Refusal) → (result ≡ Err why) ↔ (entry_refusal group context self.old ≡ Some why) }
        ensures entered { OnOk result (self.new ≡ record self.old { contexts = entered group context self.old.contexts }) }
        ensures err { OnErr result (self.new ≡ self.old) }
    {
        if self.is_within(group, context) {
            return Ok(());
        }
        if self.contexts.len() as u64 >= self.most_contexts {
            return Err(Refusal::Full);
        }
        push_within(&mut self.contexts, Within { group, context });
        Ok(())
    }

    /// Why the operation in the group makes no step for this connection; None where it may be made.
    pub fn refusal(&self, group: GroupId, op: &Op) -> Option<Refusal>
        ensures { result ≡ refusal group op.now self.now }
    {
        match op {
            Op::Submit(_) | Op::Start => self.unless_room(),
            Op::Finish { serial, .. } | Op::Fail { serial, .. } => {
                self.unless_had(group, *serial, Part::Run, Refusal::NotRunning)
            }
            Op::Collect { serial } => {
                self.unless_had(group, *serial, Part::Holder, Refusal::NoTicket)
            }
            Op::FallbackDone { serial, .. } => {
                self.unless_had(group, *serial, Part::Fallback, Refusal::NotInFallback)
            }
            Op::Tune { .. } => self.unless_tunable(),
            Op::Expire | Op::Close { .. } | Op::Read { .. } | Op::Totals { .. } => None,
        }
    }

    /// Notes a step that was made in the group for this connection, and its reply.
    pub fn note(&mut self, group: GroupId, op: &Op, reply: &Reply)
        requires { refusal group op.now self.old ≡ None }
        ensures { self.new ≡ leases_after group op.now reply.now self.old }
    {
        match op {
            Op::Submit(_) => self.note_submit(group, reply),
            Op::Start => self.note_start(group, reply),
            Op::Finish { serial, .. } | Op::Fail { serial, .. } => {
                self.note_end(group, *serial, Part::Run, reply)
            }
            Op::Collect { serial } => self.note_collect(group, *serial, reply),
            Op::FallbackDone { serial, .. } => {
                self.note_end(group, *serial, Part::Fallback, reply)
            }
            Op::Close { context } => self.note_close(group, *context, reply),
            Op::Expire | Op::Read { .. } | Op::Totals { .. } | Op::Tune { .. } => {}
        }
    }

    /// Takes every lease off the list, and every context.
    pub fn clear(&mut self)
        ensures { self.new ≡ cleared self.old }
    {
        self.listed.clear();
        self.contexts.clear();
    }
}

impl Leases {
    /// `Full` where no further lease may begin.
    fn unless_room(&self) -> Option<Refusal>
        ensures { result ≡ (if has_room self.now then None else Some Refusal.Full) }
    {
        if (self.listed.len() as u64) < self.limit {
            None
        } else {
            Some(Refusal::Full)
        }
    }

    /// `NotTunable` where the connection may not change properties.
    fn unless_tunable(&self) -> Option<Refusal>
        ensures { result ≡ (if self.now.may_tune then None else Some Refusal.NotTunable) }
    {
        if self.may_tune {
            None
        } else {
            Some(Refusal::NotTunable)
        }
    }

    /// The refusal where the connection has no such part of the ticket.
    fn unless_had(
        &self,
        group: GroupId,
        serial: Serial,
        part: Part,
        refusal: Refusal,
    ) -> Option<Refusal>
        ensures { result ≡ unless_had group serial part refusal self.now.listed }
    {
        match self.find(group, serial, part) {
            Some(_) => None,
            None => Some(refusal),
        }
    }

    /// The place of the first lease that has the part of the ticket.
    fn find(&self, group: GroupId, serial: Serial, part: Part) -> Option<usize>
        ensures first { IfSome result (λ place. IsFirst (has_at group serial part) self.now.listed place) }
        ensures within { IfSome result (λ place. place < length self.now.listed) }
        ensures none { IfNone result (list_any (has_at group serial part) self.now.listed ≡ false) }
    {
        for (place, lease) in self.listed.iter().enumerate() {
            if lease.has_at(group, serial, part) {
                return Some(place);
            }
        }
        None
    }

    /// Whether the connection is within the context.
    fn is_within(&self, group: GroupId, context: u64) -> bool
        ensures { result ≡ list_any (is_within group context) self.now.contexts }
    {
        self.contexts.iter().any(|within| within.is(group, context))
    }

    /// Notes the reply to a close: where it was made, the connection is within the context no more.
    fn note_close(&mut self, group: GroupId, context: u64, reply: &Reply)
        ensures { self.new ≡ record self.old { contexts = contexts_after group (op.Close context) reply.now self.old.contexts } }
    {
        if !is_refusal(reply) {
            leave(&mut self.contexts, group, context);
        }
    }

    /// Notes the reply to a submit.
    fn note_submit(&mut self, group: GroupId, reply: &Reply)
        requires { has_room self.old ≡ true }
        ensures { self.new ≡ record self.old { listed = after_submit group reply.now self.old.listed } }
    {
        match reply {
            Reply::Queued(serial) | Reply::Joined(serial) | Reply::FallbackDue { serial, .. } => {
                self.begin(group, *serial, true, false)
            }
            Reply::Inline(serial) => self.begin(group, *serial, true, true),
            _ => {}
        }
    }

    /// Notes the reply to a start.
    fn note_start(&mut self, group: GroupId, reply: &Reply)
        requires { has_room self.old ≡ true }
        ensures { self.new ≡ record self.old { listed = after_start group reply.now self.old.listed } }
    {
        match reply {
            Reply::Assigned { serial, .. } => self.begin(group, *serial, false, true),
            _ => {}
        }
    }

    /// Notes that the end of a run or a fallback was told.
    fn note_end(&mut self, group: GroupId, serial: Serial, part: Part, reply: &Reply)
        ensures { self.new ≡ record self.old { listed = after_end group serial part reply.now self.old.listed } }
    {
        if !is_refusal(reply) {
            self.give_up(group, serial, part);
        }
    }

    /// Notes the reply to a collect.
    fn note_collect(&mut self, group: GroupId, serial: Serial, reply: &Reply)
        ensures { self.new ≡ record self.old { listed = after_collect group serial reply.now self.old.listed } }
    {
        match reply {
            Reply::Answered(_) | Reply::NoTicket => self.give_up(group, serial, Part::Holder),
            Reply::RunFallback(_) => self.fall_back(group, serial),
            _ => {}
        }
    }

    /// Begins a lease.
    fn begin(&mut self, group: GroupId, serial: Serial, holds: bool, runs: bool)
        requires { has_room self.old ≡ true }
        ensures { self.new ≡ record self.old { listed = self.old.listed ++ begun group serial holds runs ∷ [] } }
    {
        let lease = Lease {
            group,
            serial,
            holds,
            runs,
            falls_back: false,
        };
        push_within(&mut self.listed, lease);
    }

    /// Gives up the part of the first lease that has it.
    fn give_up(&mut self, group: GroupId, serial: Serial, part: Part)
        ensures { self.new ≡ record self.old { listed = given_up group serial part self.old.listed } }
    {
        let Some(place) = self.find(group, serial, part) else {
            return;
        };
        let lease = self.listed[place].with(part, false);
        if lease.is_over() {
            self.listed.remove(place);
        } else {
            self.listed[place] = lease;
        }
    }

    /// Notes with the first lease that holds the ticket that its fallback is to be run.
    fn fall_back(&mut self, group: GroupId, serial: Serial)
        ensures { self.new ≡ record self.old { listed = told_to_fall_back group serial self.old.listed } }
    {
        let Some(place) = self.find(group, serial, Part::Holder) else {
            return;
        };
        self.listed[place] = self.listed[place].with(Part::Fallback, true);
    }
}

/// Whether the step was refused: then it changed nothing, and gives nothing up.
fn is_refusal(reply: &Reply) -> bool
    ensures { result ≡ is_refusal reply.now }
{
    match reply {
        Reply::Worn | Reply::NoGroup | Reply::NoCommand => true,
        _ => false,
    }
}

/// The context is none of them any more.
fn leave(contexts: &mut Vec<Within>, group: GroupId, context: u64)
    ensures items { contexts.new.items ≡ filter (λ w. not (is_within group context w)) contexts.old.items }
    ensures len { vec_len contexts.new ≤ vec_len contexts.old }
    ensures capacity { vec_capacity contexts.new ≡ vec_capacity contexts.old }
{
    contexts.retain(|within| !within.is(group, context));
}
