//! How groups come and go under the lock.

ghost use Rattle.std.specs.Prelude.{◌≡◌, ◌↔◌, ◌==◌, ◌+◌, ◌<◌, ◌≤◌, ◌^◌, ℕ, [], ◌∷◌, ◌++◌, length, is_some, IfOk, OnErr, OnOk, Err, if◌then◌else◌};
ghost use Rattle.bh_base.specs.Ranges.{IsInRange};
ghost use Rattle.bh_core.specs.Acts.{with_opened};
ghost use Rattle.bh_core.specs.CoreView.{most_groups, slots_in, view_at};
ghost use Rattle.bh_journal.specs.Passes.{PassView};
ghost use Rattle.bh_journal.specs.Replay.{empty_journal};
ghost use Rattle.bh_audit.specs.Waking.{IsEverybody};
ghost use Rattle.bh_audit.specs.Turns.{IsRetirement, held};

use crate::freed::Freed;
use crate::locked::Locked;
use bh_base::{GroupId, GroupProps};
use bh_core::{RegisterError, RetireError};
use std::alloc::Global;

impl<const A: u32> Locked<A> {
    /// Registers a group, as the book does, also where the service is stopped. Nobody waits in it yet.
    pub(crate) fn register(
        &mut self,
        alloc: Global,
        props: &GroupProps,
        step_limit: u64,
    ) -> Result<GroupId, RegisterError>
        requires props { IsInRange props.now }
        requires some_steps { 1 ≤ step_limit }
        requires few_steps { step_limit ≤ 2 ^ 40 }
        ensures number { IfOk result (λ id. id.0 ≡ length self.old.book.groups.lives) }
        ensures added { OnOk result (self.new.book.groups ≡ with_opened props.now step_limit self.old.book.groups) }
        ensures many { (result ≡ Err RegisterError.TooManyGroups) ↔ (most_groups ≤ length self.old.book.groups.lives) }
        ensures room { (result ≡ Err RegisterError.TooManySlots) ↔ ((length self.old.book.groups.lives < most_groups) × (self.old.book.groups.slot_limit < slots_in self.old.book.groups.lives + props.now.slots)) }
        ensures journals { OnOk result (self.new.book.journals ≡ (if self.old.book.audited then self.old.book.journals ++ empty_journal props.now step_limit ∷ [] else self.old.book.journals)) }
        ensures audited { self.new.book.audited ≡ self.old.book.audited }
        ensures stopped { self.new.stopped ≡ self.old.stopped }
        ensures err { OnErr result (self.new ≡ self.old) }
    {
        self.book.register(alloc, props, step_limit)
    }

    /// Retires a group that nobody uses, as the book does, also where the service is stopped. It says that everybody
    /// goes on who waits in the group: idle workers.
    pub(crate) fn retire(&mut self, group: GroupId) -> (Result<(), RetireError>, Freed)
        ensures { (pass : PassView) → IsRetirement group result.0 (held self.old.book self.old.stopped pass) (held self.new.book self.new.stopped pass) result.1 }
    {
        let retired = self.book.retire(group);
        let freed = freed_by(&retired);
        (retired, freed)
    }

    /// Whether the group is registered, and not retired.
    pub(crate) fn is_registered(&self, group: GroupId) -> bool
        ensures { result ≡ is_some (view_at self.now.book.groups group.0) }
    {
        self.book.is_registered(group)
    }

    /// How many groups were registered in all.
    pub(crate) fn groups(&self) -> u64
        ensures { result ≡ length self.now.book.groups.lives }
    {
        self.book.core().groups()
    }
}

/// Whom a retirement lets go on: everybody that waits in the group, unless it was refused.
fn freed_by(retired: &Result<(), RetireError>) -> Freed
    ensures { OnOk retired.now (IsEverybody result) }
{
    match retired {
        Ok(()) => Freed::everybody(),
        Err(_) => Freed::nobody(),
    }
}
