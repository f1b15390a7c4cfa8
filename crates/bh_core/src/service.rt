//! All groups: each step goes to its own group and leaves the others as they are.

ghost use Rattle.std.specs.Prelude.{◌≡◌, ◌↔◌, ℕ, ◌+◌, ◌<◌, ◌≤◌, ◌^◌, [], ◌∷◌, ◌++◌, length, map, slice_get, IfOk, OnOk, OnErr, Err, None, Some, true};
ghost use Rattle.bh_base.specs.declared.reply.Reply.{Reply};
ghost use Rattle.bh_base.specs.Ranges.{IsInRange};
ghost use Rattle.bh_base.specs.Runs.{State, View, own, replies, state_after, opened, view};
ghost use Rattle.bh_core.specs.CoreView.{CoreView, Shows, living, most_groups, own_replies, slots_in, view_at, with_retired};
ghost use Rattle.bh_core.specs.Looks.{is_in_use};
ghost use Rattle.bh_core.specs.Step.{IsStep};

pub mod acts;
pub(crate) mod entry;
mod looks;

use crate::command::new_commands;
use crate::group::Group;
use bh_base::{GroupId, GroupProps, Moment, Op, Reply, Step, push_within};
use bh_tickets::Tickets;
use entry::Entry;
use std::alloc::{AllocError, Global};
use std::marker::Model;
use thiserror::Error;

/// How many groups may be registered in all, retired ones included.
pub const MOST_GROUPS: u64 = 1 << 40;

/// All groups, by their numbers, and the tickets of them all.
#[derive(Drop)]
pub struct Core {
    alloc: Global,
    groups: Vec<Entry>,
    tickets: Tickets,
}

/// Why a group was not registered.
#[derive(Clone, Copy, Debug, PartialEq, Eq, Error)]
pub enum RegisterError {
    /// 2^40 groups were registered already, retired ones included.
    #[error("too many groups")]
    TooManyGroups,
    /// The slots of all groups that are not retired would be more than the core may have.
    #[error("too many slots")]
    TooManySlots,
    /// There is not enough memory for all that the group's steps can bring.
    #[error("out of memory")]
    Memory,
}

/// Why a group was not retired.
#[derive(Clone, Copy, Debug, PartialEq, Eq, Error)]
pub enum RetireError {
    /// The group is not registered, or was retired before.
    #[error("no such group")]
    NoGroup,
    /// A run of the group has not ended, or someone has still to collect an answer.
    #[error("the group is in use")]
    Busy,
}

impl Model for Core {
    ghost use Rattle.bh_core.specs.CoreView.{CoreView};
    ghost use Rattle.bh_core.specs.Whole.{IsWhole, groups_view};

    ghost Value = { CoreView };

    ghost view = { groups_view };

    ghost invariant = { IsWhole };
}

impl Core {
    /// A core without groups, whose groups may have so many slots in all.
    pub fn new(alloc: Global, slot_limit: u32) -> Self
        ensures { result ≡ record { slot_limit = slot_limit; lives = [] } }
    {
        Core {
            alloc,
            groups: Vec::new(alloc),
            tickets: Tickets::new(alloc, slot_limit),
        }
    }

    /// Adds a group that may do so many steps, 1 to 2^40, and takes the memory for all that they can bring. The slots of
    /// retired groups are taken first, and nothing of what lay in them is seen.
    ///
    /// It is refused with `TooManyGroups` where 2^40 groups were registered in all, then with `TooManySlots` where the
    /// slots of all groups that are not retired would be more than the core may have, and else with `Memory` where a
    /// growth was refused; nothing has changed then.
    pub fn register(
        &mut self,
        props: &GroupProps,
        step_limit: u64,
    ) -> Result<GroupId, RegisterError>
        requires props { IsInRange props.now }
        requires some_steps { 1 ≤ step_limit }
        requires few_steps { step_limit ≤ 2 ^ 40 }
        ensures number { IfOk result (λ id. id.0 ≡ length self.old.lives) }
        ensures added { OnOk result (self.new ≡ record self.old { lives = self.old.lives ++ living (view (opened props.now step_limit)) ∷ [] }) }
        ensures many { (result ≡ Err RegisterError.TooManyGroups) ↔ (most_groups ≤ length self.old.lives) }
        ensures room { (result ≡ Err RegisterError.TooManySlots) ↔ ((length self.old.lives < most_groups) × (self.old.slot_limit < slots_in self.old.lives + props.now.slots)) }
        ensures err { OnErr result (self.new ≡ self.old) }
    {
        if let Some(error) = self.refusal(props) {
            return Err(error);
        }
        let number = self.groups.len() as u64;
        if self.add_group(props, step_limit).is_err() {
            return Err(RegisterError::Memory);
        }
        Ok(GroupId(number))
    }

    /// A group more, where its slots are within the limit. Its slots come last, when nothing more can be refused.
    fn add_group(&mut self, props: &GroupProps, step_limit: u64) -> Result<(), AllocError>
        requires props { IsInRange props.now }
        requires few_steps { step_limit ≤ 2 ^ 40 }
        requires within { slots_in self.old.lives + props.now.slots ≤ self.old.slot_limit }
        ensures added { OnOk result (self.new ≡ record self.old { lives = self.old.lives ++ living (view (opened props.now step_limit)) ∷ [] }) }
        ensures err { OnErr result (self.new ≡ self.old) }
    {
        let commands = new_commands(self.alloc, props)?;
        let own = props.copied()?;
        self.groups.reserve(1)?;
        let place = self.tickets.add_group(props.slots)?;
        let group = Group::new(place, own, step_limit, commands);
        self.groups.push_reserved(Entry::Live(group));
        Ok(())
    }

    /// Retires a group that nobody uses: its slots are there for others, and its number is not used again. It takes no
    /// memory.
    ///
    /// It is refused with `NoGroup` where the group is not registered, or was retired before, and with `Busy` where a
    /// ticket of the group is busy or has a holder; nothing has changed then. Tickets that are only cached go with the
    /// group. Whether the group is worn is of no matter.
    pub fn retire(&mut self, group: GroupId) -> Result<(), RetireError>
        ensures ended { OnOk result ((v : View) × (view_at self.old group.0 ≡ Some v) × (self.new ≡ with_retired group.0 v self.old)) }
        ensures no_group { (result ≡ Err RetireError.NoGroup) ↔ (view_at self.old group.0 ≡ None) }
        ensures busy { (v : View) → view_at self.old group.0 ≡ Some v → ((result ≡ Err RetireError.Busy) ↔ (is_in_use v ≡ true)) }
        ensures err { OnErr result (self.new ≡ self.old) }
    {
        if group.0 >= self.groups.len() as u64 {
            return Err(RetireError::NoGroup);
        }
        let place = match &self.groups[group.0 as usize] {
            Entry::Live(found) => found.place(),
            Entry::Retired(_) => return Err(RetireError::NoGroup),
        };
        if self.tickets.any_used(place) {
            return Err(RetireError::Busy);
        }
        self.tickets.retire_group(place);
        self.groups[group.0 as usize].retire(self.alloc);
        Ok(())
    }

    /// One step of its group: the reply is that of the one-group machine, whatever other groups did.
    ///
    /// A step of a group that is not registered, or is retired, is answered `NoGroup` and changes nothing.
    pub fn apply(&mut self, step: Step) -> Reply
        ensures { IsStep self.old step result self.new }
    {
        let mut reply = Reply::NoGroup;
        self.apply_to(step.group, step.now, &step.op, &mut reply);
        reply
    }

    /// One step of the group, as `apply` makes it, whose reply is written where the caller keeps it: so neither the
    /// operation nor the reply, of some 300 bytes each, is copied on the way.
    pub fn apply_to(&mut self, group: GroupId, now: Moment, op: &Op, reply: &mut Reply)
        ensures { IsStep self.old (record { group = group; now = now; op = op.now }) reply.new self.new }
    {
        let place = group.0;
        if place >= self.groups.len() as u64 {
            *reply = Reply::NoGroup;
            return;
        }
        match &mut self.groups[place as usize] {
            Entry::Live(group) => group.apply(&mut self.tickets, op, now, reply),
            Entry::Retired(_) => *reply = Reply::NoGroup,
        }
    }

    /// Steps of all groups in any interleaving, with one reply for each.
    ///
    /// Each group's own replies are those of its machine for its own steps alone, and it shows the machine's last
    /// state then: every other group's steps could be left out. Room for the replies is taken first; where that is
    /// refused, nothing has changed.
    pub fn run(&mut self, steps: &[Step]) -> Result<Vec<Reply>, AllocError>
        // Isolation of runs, for all groups at once and from every state.
        ensures replies { IfOk result (λ rs. (group : ℕ) (s : State) → Shows self.old group s →
            own_replies group steps.now rs.items ≡ replies s (own group steps.now)) }
        ensures views { OnOk result ((group : ℕ) (s : State) → Shows self.old group s →
            Shows self.new group (state_after s (own group steps.now))) }

        // Steps of groups that are not registered, or are retired.
        ensures unknown { IfOk result (λ rs. (group : ℕ) → view_at self.old group ≡ None →
            own_replies group steps.now rs.items ≡ map (λ x. Reply.NoGroup) (own group steps.now)) }
        ensures unregistered { (group : ℕ) → view_at self.old group ≡ None → slice_get self.new.lives group ≡ slice_get self.old.lives group }

        ensures count { IfOk result (λ rs. length rs.items ≡ length steps.now) }
        ensures groups { length self.new.lives ≡ length self.old.lives }
        ensures limit { self.new.slot_limit ≡ self.old.slot_limit }
        ensures err { OnErr result (self.new ≡ self.old) }
    {
        let mut replies = Vec::with_capacity(self.alloc, steps.len())?;
        for step in steps {
            let reply = self.apply(*step);
            push_within(&mut replies, reply);
        }
        Ok(replies)
    }
}
