//! All groups, and in an audited book a journal of each.

ghost use Rattle.std.specs.Prelude.{◌≡◌, ◌↔◌, ◌+◌, ◌<◌, ◌≤◌, ◌^◌, ℕ, List, [], ◌∷◌, ◌++◌, length, map, replicate, slice_set, is_some, vec_len, vec_capacity, Err, IfOk, IfErr, IfSome, OnErr, OnOk, None, Some, true, false, if◌then◌else◌};
ghost use Rattle.bh_base.specs.Replies.{is_refusal};
ghost use Rattle.bh_base.specs.Runs.{View};
ghost use Rattle.bh_base.specs.declared.step.Op.TheVariants as op;
ghost use Rattle.bh_base.specs.Seen.{view_reply};
ghost use Rattle.bh_base.specs.Ranges.{IsInRange};
ghost use Rattle.bh_core.specs.Acts.{with_opened};
ghost use Rattle.bh_core.specs.CoreView.{in_force, most_groups, slots_in, view_at, with_retired};
ghost use Rattle.bh_core.specs.Looks.{is_assigned, is_in_use, is_worn_out};
ghost use Rattle.bh_core.specs.Step.{IsStep};
ghost use Rattle.bh_audit.specs.Calls.{NeedsNoWait, is_due};
ghost use Rattle.bh_journal.specs.Replay.{empty_journal};
ghost use Rattle.bh_audit.specs.Books.{AreEmpty, AreNew, BookView, IsAudited, IsWritten, first_journals};

use bh_base::{GroupId, GroupProps, Moment, Reply, Step};
use bh_core::{Core, RegisterError, RetireError};
use bh_journal::Journal;
use std::alloc::{AllocError, Global};
use std::marker::Model;

/// How far ahead is looked for tickets that are due, in milliseconds.
const AHEAD: u64 = 500;

/// All groups, and in an audited book a journal of each, with room for every step that the group may do.
#[derive(Drop)]
pub struct Book {
    core: Core,
    /// For each group a moment before which no ticket of it is due. They lie close together, so that groups which are at
    /// rest are passed over without a look at them.
    quiet_until: Vec<Moment>,
    journals: Vec<Journal>,
    audited: bool,
}

impl Model for Book {
    ghost use Rattle.std.specs.Prelude.{◌≡◌, true};
    ghost use Rattle.bh_audit.specs.Calls.{NeedsNoWait};
    ghost use Rattle.bh_audit.specs.Books.{BookView, IsAudited};
    ghost use Rattle.bh_audit.specs.Quiet.{AreQuiet};

    ghost Value = { BookView };

    ghost view = { λ b. record { groups = b.core; journals = b.journals.items; audited = b.audited } };

    ghost invariant = { λ b. (b.audited ≡ true → IsAudited b.core b.journals.items) × AreQuiet b.core b.quiet_until.items };
}

impl Book {
    /// A book over the groups of a core, with an audit of so many steps a group, or without one.
    ///
    /// With an audit no group may have done a step, and each may do just as many as the audit has room for. Where
    /// memory was refused, the core is handed back.
    pub fn new(alloc: Global, core: Core, audit: Option<u64>) -> Result<Book, (Core, AllocError)>
        requires { IfSome audit (λ limit. AreNew limit core) }
        ensures groups { IfOk result (λ b. b.groups ≡ core) }
        ensures audited { IfOk result (λ b. b.audited ≡ is_some audit) }
        ensures journals { IfOk result (λ b. AreEmpty b.journals) }
        ensures err { IfErr result (λ e. e.0 ≡ core) }
    {
        let (quiet_until, journals) = match open_lists(alloc, &core, audit) {
            Ok(lists) => lists,
            Err(error) => return Err((core, error)),
        };
        Ok(Book {
            core,
            quiet_until,
            journals,
            audited: audit.is_some(),
        })
    }

    /// Applies a step, writes its reply where the caller keeps it, and in an audited book writes both in the journal of the
    /// step's group. It takes no memory.
    ///
    /// The place is the number of the step in its group, from 1. A step that is answered `Worn`, `NoGroup` or
    /// `NoCommand` has no place, and changes nothing.
    pub fn apply_to(&mut self, step: &Step, reply: &mut Reply) -> Option<u64>
        // The groups go as in the core.
        ensures groups { IsStep self.old.groups step.entry.now reply.new self.new.groups }

        // Where it was refused there is no place, and nothing has changed.
        ensures refused { is_refusal reply.new ≡ true → (result ≡ None) × (self.new ≡ self.old) }

        // Else the place is the new step number, and an audited book has the step and its reply at the end of the group's journal.
        ensures place { is_refusal reply.new ≡ false → (v : View) × (view_at self.new.groups step.entry.now.group.0 ≡ Some v) × (result ≡ Some v.present.steps) }
        ensures written { self.old.audited ≡ true → is_refusal reply.new ≡ false → IsWritten self.old.journals step.entry.now.group.0 step.entry.now reply.new self.new.journals }
        ensures unwritten { self.old.audited ≡ false → self.new.journals ≡ self.old.journals }
        ensures audited { self.new.audited ≡ self.old.audited }
    {
        let group = step.group;
        end_quiet(&mut self.quiet_until, group);
        self.core.apply_to(group, step.now, &step.op, reply);
        if is_refused(reply) {
            return None;
        }
        let place = self.core.steps(group);
        if !self.audited {
            return Some(place);
        }
        let journal = &mut self.journals[group.0 as usize];
        journal.write(step, reply);
        Some(place)
    }

    /// Registers a group, as the core does. An audited book takes the memory for the group's journal too, with room for as
    /// many entries as the group may do steps.
    ///
    /// It is refused with `TooManyGroups`, `TooManySlots` or `Memory`, in this order, as by the core; nothing has changed
    /// then.
    pub fn register(
        &mut self,
        alloc: Global,
        props: &GroupProps,
        step_limit: u64,
    ) -> Result<GroupId, RegisterError>
        requires props { IsInRange props.now }
        requires some_steps { 1 ≤ step_limit }
        requires few_steps { step_limit ≤ 2 ^ 40 }
        ensures number { IfOk result (λ id. id.0 ≡ length self.old.groups.lives) }
        ensures added { OnOk result (self.new.groups ≡ with_opened props.now step_limit self.old.groups) }
        ensures many { (result ≡ Err RegisterError.TooManyGroups) ↔ (most_groups ≤ length self.old.groups.lives) }
        ensures room { (result ≡ Err RegisterError.TooManySlots) ↔ ((length self.old.groups.lives < most_groups) × (self.old.groups.slot_limit < slots_in self.old.groups.lives + props.now.slots)) }
        ensures journals { OnOk result (self.new.journals ≡ (if self.old.audited then self.old.journals ++ empty_journal props.now step_limit ∷ [] else self.old.journals)) }
        ensures audited { self.new.audited ≡ self.old.audited }
        ensures err { OnErr result (self.new ≡ self.old) }
    {
        if let Some(error) = self.core.refusal(props) {
            return Err(error);
        }
        if self.quiet_until.reserve(1).is_err() {
            return Err(RegisterError::Memory);
        }
        if !self.audited {
            let id = self.core.register(props, step_limit)?;
            self.quiet_until.push_reserved(0);
            return Ok(id);
        }
        let Ok(journal) = journal_behind(&mut self.journals, alloc, props, step_limit) else {
            return Err(RegisterError::Memory);
        };
        let id = self.core.register(props, step_limit)?;
        self.quiet_until.push_reserved(0);
        self.journals.push_reserved(journal);
        Ok(id)
    }

    /// Retires a group that nobody uses, as the core does. Its journal stays for the account. It takes no memory.
    ///
    /// It is refused with `NoGroup` or `Busy`, as by the core; nothing has changed then.
    pub fn retire(&mut self, group: GroupId) -> Result<(), RetireError>
        ensures ended { OnOk result ((v : View) × (view_at self.old.groups group.0 ≡ Some v) × (self.new.groups ≡ with_retired group.0 v self.old.groups)) }
        ensures no_group { (result ≡ Err RetireError.NoGroup) ↔ (view_at self.old.groups group.0 ≡ None) }
        ensures busy { (v : View) → view_at self.old.groups group.0 ≡ Some v → ((result ≡ Err RetireError.Busy) ↔ (is_in_use v ≡ true)) }
        ensures journals { self.new.journals ≡ self.old.journals }
        ensures audited { self.new.audited ≡ self.old.audited }
        ensures err { OnErr result (self.new ≡ self.old) }
    {
        self.core.retire(group)
    }

    /// In an audited book the journal of each group agrees with what the group shows.
    pub fn journals_agree(&self)
        ensures { self.now.audited ≡ true → IsAudited self.now.groups self.now.journals }
    {
        let _ = &self.audited;
    }

    /// Whether the book was made with an audit.
    pub fn audited(&self) -> bool
        ensures { result ≡ self.now.audited }
    {
        self.audited
    }

    /// The groups as the steps so far left them.
    pub fn core(&self) -> &Core
        ensures { result.now ≡ self.now.groups }
    {
        &self.core
    }

    /// Whether the group is registered.
    pub(crate) fn is_registered(&self, group: GroupId) -> bool
        ensures { result ≡ is_some (view_at self.now.groups group.0) }
    {
        self.core.is_registered(group)
    }

    /// Whether a worker of the group has to wait: else a Start would be answered with a run, or refused.
    pub(crate) fn must_wait(&self, group: GroupId) -> bool
        ensures goes_on { result ≡ false → (v : View) → view_at self.now.groups group.0 ≡ Some v → NeedsNoWait v }
        ensures waits { result ≡ true → (v : View) (moment : ℕ) → view_at self.now.groups group.0 ≡ Some v → is_assigned (view_reply v op.Start moment) ≡ false }
        ensures fresh { result ≡ true → (v : View) (moment : ℕ) → view_at self.now.groups group.0 ≡ Some v → is_worn_out (view_reply v op.Start moment) ≡ false }
        ensures there { result ≡ true → is_some (view_at self.now.groups group.0) ≡ true }
    {
        if !self.is_registered(group) {
            return false;
        }
        if self.core.worn(group) {
            return false;
        }
        !self.core.startable(group)
    }

    /// Whether a ticket of the group is due at the moment.
    ///
    /// It looks somewhat ahead. Where no ticket is due by then either, the group is not looked at again until then, unless
    /// it makes a step.
    pub(crate) fn is_due(&mut self, group: GroupId, now: Moment) -> bool
        ensures due { result ≡ is_due self.old.groups group now }
        ensures same { self.new ≡ self.old }
    {
        let place = group.0;
        if place >= self.quiet_until.len() as u64 {
            return false;
        }
        if now < self.quiet_until[place as usize] {
            return false;
        }
        let ahead = now.saturating_add(AHEAD);
        if self.core.due(group, ahead) {
            return self.core.due(group, now);
        }
        self.quiet_until[place as usize] = ahead;
        false
    }

    /// The groups and the journals.
    pub fn into_parts(self) -> (Core, Vec<Journal>)
        ensures groups { result.0 ≡ self.groups }
        ensures journals { result.1.items ≡ self.journals }
        ensures agree { self.audited ≡ true → IsAudited self.groups self.journals }
    {
        let Book {
            core,
            quiet_until: _,
            journals,
            audited: _,
        } = self;
        (core, journals)
    }
}

/// Whether no step was made.
pub(crate) fn is_refused(reply: &Reply) -> bool
    ensures { result ≡ is_refusal reply.now }
{
    matches!(reply, Reply::Worn | Reply::NoGroup | Reply::NoCommand)
}

/// A journal with room for so many entries, for which there is a place behind the others.
fn journal_behind(
    journals: &mut Vec<Journal>,
    alloc: Global,
    props: &GroupProps,
    steps: u64,
) -> Result<Journal, AllocError>
    ensures made { IfOk result (λ journal. journal ≡ empty_journal props.now steps) }
    ensures place { OnOk result (vec_len journals.new < vec_capacity journals.new) }
    ensures same { journals.new.items ≡ journals.old.items }
{
    journals.reserve(1)?;
    Journal::new(alloc, props, steps)
}

/// The group makes a step, so a ticket of it may be due at any moment. Where that is known nothing is written: the moments of
/// several groups lie on one line of the cache, which a write takes from all other processors.
fn end_quiet(quiet_until: &mut Vec<Moment>, group: GroupId)
    ensures { quiet_until.new.items ≡ slice_set quiet_until.old.items group.0 0 }
{
    let place = group.0;
    if place < quiet_until.len() as u64 && quiet_until[place as usize] != 0 {
        quiet_until[place as usize] = 0;
    }
}

/// For each of the groups a moment before which it is quiet, which is 0, and with an audit of so many steps a journal.
fn open_lists(
    alloc: Global,
    core: &Core,
    audit: Option<u64>,
) -> Result<(Vec<Moment>, Vec<Journal>), AllocError>
    ensures quiet { IfOk result (λ lists. lists.0.items ≡ replicate (length core.now.lives) 0) }
    ensures journals { IfOk result (λ lists. lists.1.items ≡ first_journals audit core.now) }
{
    let quiet_until = vec![in alloc; 0; core.groups() as usize]?;
    let journals = match audit {
        Some(steps) => open_journals(alloc, core, steps)?,
        None => Vec::new(alloc),
    };
    Ok((quiet_until, journals))
}

/// A journal of each group, opened with the properties that it has, with room for so many entries.
fn open_journals(alloc: Global, core: &Core, steps: u64) -> Result<Vec<Journal>, AllocError>
    ensures { IfOk result (λ journals. journals.items ≡ map (λ l. empty_journal (in_force l).0 steps) core.now.lives) }
{
    let mut journals = Vec::new(alloc);
    for number in 0..core.groups() {
        let Some((props, _limit)) = core.props(GroupId(number)) else {
            unreachable!()
        };
        journals.push(Journal::new(alloc, props, steps)?)?;
    }
    Ok(journals)
}
