//! Steps, registrations and retirements in one list.

ghost use Rattle.std.specs.Prelude.{◌≡◌, ◌<◌, ◌≤◌, ◌^◌, ℕ, false, length, IfOk, OnErr};
ghost use Rattle.std.specs.List.{AllByRecursion, list_any};
ghost use Rattle.bh_base.specs.Ranges.{IsInRange};
ghost use Rattle.bh_base.specs.Runs.{State, replies, state_after};
ghost use Rattle.bh_core.specs.CoreView.{Shows};
ghost use Rattle.bh_core.specs.Acts.{AreActs, IsAct, IsActOf};
ghost use Rattle.bh_core.specs.Lives.{AreOutside, IsBegun, calls_of, ends, told_in_life, steps_in_life};

use super::{Core, RegisterError, RetireError};
use bh_base::{GroupId, GroupProps, Reply, Step, push_within};
use std::alloc::AllocError;

/// What is done to all groups: one of them makes a step, or one comes or goes.
#[derive(Clone, Copy, Debug, PartialEq, Eq)]
pub enum Act {
    Step(Step),
    /// A group of the properties that stand at the place of a list, from 0, which may do so many steps, 1 to 2^40.
    Register { place: usize, step_limit: u64 },
    Retire(GroupId),
}

/// What an act was told.
#[derive(Clone, Copy, Debug, PartialEq, Eq)]
pub enum Outcome {
    Replied(Reply),
    Registered(GroupId),
    NotRegistered(RegisterError),
    Retired,
    NotRetired(RetireError),
}

impl Core {
    /// Steps, registrations and retirements in any interleaving, with one outcome for each.
    ///
    /// The life of a group is the part of the list after its registration and before its retirement. In it the group's
    /// replies are those of its machine for its own steps alone, and at the end it shows the machine's state, unless it
    /// was retired; outside of it each step of the group is answered `NoGroup`. Room for the outcomes is taken first;
    /// where that is refused, nothing has changed. A registration that is refused for want of memory is an outcome, and
    /// the acts go on.
    pub fn run_acts(
        &mut self,
        props: &[GroupProps],
        acts: &[Act],
    ) -> Result<Vec<Outcome>, AllocError>
        requires props { AllByRecursion IsInRange props.now }
        requires acts { AllByRecursion (IsActOf (length props.now)) acts.now }
        ensures replies { IfOk result (λ outs. (group : ℕ) (s : State) → IsBegun props.now self.old (calls_of acts.now outs.items) group s →
            told_in_life self.old (calls_of acts.now outs.items) group ≡ replies s (steps_in_life self.old (calls_of acts.now outs.items) group)) }
        ensures views { IfOk result (λ outs. (group : ℕ) (s : State) → IsBegun props.now self.old (calls_of acts.now outs.items) group s →
            list_any (ends group) (calls_of acts.now outs.items) ≡ false → Shows self.new group (state_after s (steps_in_life self.old (calls_of acts.now outs.items) group))) }
        ensures outside { IfOk result (λ outs. AreOutside self.old (calls_of acts.now outs.items)) }

        // What each act did.
        ensures acts { IfOk result (λ outs. AreActs props.now self.old (calls_of acts.now outs.items) self.new) }
        ensures count { IfOk result (λ outs. length outs.items ≡ length acts.now) }
        ensures err { OnErr result (self.new ≡ self.old) }
    {
        let mut outcomes = Vec::with_capacity(self.alloc, acts.len())?;
        for act in acts {
            let outcome = self.act(props, act);
            push_within(&mut outcomes, outcome);
        }
        Ok(outcomes)
    }

    /// One act.
    fn act(&mut self, props: &[GroupProps], act: &Act) -> Outcome
        requires props { AllByRecursion IsInRange props.now }
        requires act { IsActOf (length props.now) act.now }
        ensures { IsAct props.now self.old (act.now, result) self.new }
    {
        match act {
            Act::Step(step) => Outcome::Replied(self.apply(*step)),
            Act::Register { place, step_limit } => {
                match self.register(&props[*place], *step_limit) {
                    Ok(id) => Outcome::Registered(id),
                    Err(error) => Outcome::NotRegistered(error),
                }
            }
            Act::Retire(group) => match self.retire(*group) {
                Ok(()) => Outcome::Retired,
                Err(error) => Outcome::NotRetired(error),
            },
        }
    }
}
