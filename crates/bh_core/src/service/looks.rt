//! Looks at the groups that change nothing, by what a step would be answered.

ghost use Rattle.std.specs.Prelude.{◌≡◌, ◌≢◌, ◌↔◌, ◌+◌, ◌<◌, ◌≤◌, ℕ, length, slice_get, is_some, option_copied, IfSome, IsNone, IsSomeAnd, None, Some, false, true};
ghost use Rattle.bh_base.specs.declared.step.Op.{Op};
ghost use Rattle.bh_base.specs.declared.step.Op.TheVariants as op;
ghost use Rattle.bh_base.specs.Commands.{is_known};
ghost use Rattle.bh_base.specs.Runs.{View, is_worn};
ghost use Rattle.bh_base.specs.Seen.{view_reply};
ghost use Rattle.bh_core.specs.CoreView.{Life, is_retired, most_groups, in_force, slots_in, view_at};
ghost use Rattle.bh_core.specs.GroupView.{GroupView};
ghost use Rattle.bh_core.specs.declared.service.entry.Entry.TheVariants as entry;
ghost use Rattle.bh_core.specs.Looks.{circuit_shown, expires_some, is_assigned, is_pending, is_worn_out, metrics_shown, metrics_told, ticket_meant, totals_shown};

use super::entry::Entry;
use super::{Core, MOST_GROUPS, RegisterError};
use crate::group::Group;
use bh_base::{CircuitState, Counts, GroupId, GroupProps, Metrics, Moment, Op, Serial, Ticket};

impl Core {
    /// How many groups were registered, retired ones included. Their numbers are those below it.
    pub fn groups(&self) -> u64
        ensures { result ≡ length self.now.lives }
    {
        self.groups.len() as u64
    }

    /// Whether the group is registered and not retired.
    pub fn is_registered(&self, group: GroupId) -> bool
        ensures { result ≡ is_some (view_at self.now group.0) }
    {
        find(&self.groups, group).is_some()
    }

    /// Whether the group was retired. False where no group of the number was registered.
    pub fn is_retired(&self, group: GroupId) -> bool
        ensures known { (life : Life) → slice_get self.now.lives group.0 ≡ Some life → result ≡ is_retired life }
        ensures unknown { slice_get self.now.lives group.0 ≡ None → result ≡ false }
    {
        let place = group.0;
        if place >= self.groups.len() as u64 {
            return false;
        }
        matches!(&self.groups[place as usize], Entry::Retired(_))
    }

    /// The properties that are in force in the group, and the step limit with which it was registered; of a retired one those
    /// that were in force when it was retired. None where no group of the number was registered.
    pub fn props(&self, group: GroupId) -> Option<(&GroupProps, u64)>
        ensures known { (life : Life) → slice_get self.now.lives group.0 ≡ Some life → IsSomeAnd result (λ shown. (shown.0.now ≡ (in_force life).0) × (shown.1 ≡ (in_force life).1)) }
        ensures unknown { slice_get self.now.lives group.0 ≡ None → IsNone result }
    {
        let place = group.0;
        if place >= self.groups.len() as u64 {
            return None;
        }
        match &self.groups[place as usize] {
            Entry::Live(found) => Some((found.props(), found.step_limit())),
            Entry::Retired(registration) => Some((&registration.props, registration.limit)),
        }
    }

    /// Why a group of the properties would not be registered, as far as that does not rest on memory; None where it
    /// would be, if there is memory for it.
    pub fn refusal(&self, props: &GroupProps) -> Option<RegisterError>
        requires { props.now.slots ≤ 4096 }
        ensures many { (result ≡ Some RegisterError.TooManyGroups) ↔ (most_groups ≤ length self.now.lives) }
        ensures room { (result ≡ Some RegisterError.TooManySlots) ↔ ((length self.now.lives < most_groups) × (self.now.slot_limit < slots_in self.now.lives + props.now.slots)) }
        ensures memory { result ≢ Some RegisterError.Memory }
    {
        if self.groups.len() as u64 >= MOST_GROUPS {
            return Some(RegisterError::TooManyGroups);
        }
        if !self.tickets.has_slots_for(props.slots) {
            return Some(RegisterError::TooManySlots);
        }
        None
    }

    /// How many steps the group has done, of those that it may; 0 where it is not registered.
    pub fn steps(&self, group: GroupId) -> u64
        ensures known { (v : View) → view_at self.now group.0 ≡ Some v → result ≡ v.present.steps }
        ensures unknown { view_at self.now group.0 ≡ None → result ≡ 0 }
    {
        match find(&self.groups, group) {
            Some(found) => found.steps(),
            None => 0,
        }
    }

    /// The moment of the group's last step, before which none of its steps counts; 0 where it did none, or is not
    /// registered.
    pub fn latest(&self, group: GroupId) -> Moment
        ensures known { (v : View) → view_at self.now group.0 ≡ Some v → result ≡ v.present.latest }
        ensures unknown { view_at self.now group.0 ≡ None → result ≡ 0 }
    {
        match find(&self.groups, group) {
            Some(found) => found.latest(),
            None => 0,
        }
    }

    /// The state of the command's circuit breaker, as the group's last step left it: what `Metrics` say of it, and shown
    /// of a worn group too. None where the group is not registered, or lacks the command.
    pub fn circuit(&self, group: GroupId, command: u8) -> Option<CircuitState>
        ensures known { (v : View) → view_at self.now group.0 ≡ Some v → result ≡ circuit_shown command v }
        ensures unknown { view_at self.now group.0 ≡ None → result ≡ None }
    {
        match find(&self.groups, group) {
            Some(found) => found.circuit(command),
            None => None,
        }
    }

    /// The metrics of the command at the moment: those that a `Read` would be answered. A moment before that of the group's
    /// last step counts as that one, as in every step. A worn group shows them too. None where the group is not
    /// registered, or lacks the command.
    pub fn metrics(&self, group: GroupId, command: u8, now: Moment) -> Option<Metrics>
        ensures known { (v : View) → view_at self.now group.0 ≡ Some v → result ≡ metrics_shown command now v }
        ensures read { (v : View) → view_at self.now group.0 ≡ Some v → is_worn v.present ≡ false → result ≡ metrics_told (view_reply v (op.Read command) now) }
        ensures unknown { view_at self.now group.0 ≡ None → result ≡ None }
    {
        match find(&self.groups, group) {
            Some(found) => found.metrics(&self.tickets, command, now),
            None => None,
        }
    }

    /// How many events of each kind the command had since the group was registered: what a `Totals` would be answered, and shown
    /// of a worn group too. None where the group is not registered, or lacks the command.
    pub fn totals(&self, group: GroupId, command: u8) -> Option<Counts>
        ensures known { (v : View) → view_at self.now group.0 ≡ Some v → result ≡ totals_shown command v }
        ensures unknown { view_at self.now group.0 ≡ None → result ≡ None }
    {
        match find(&self.groups, group) {
            Some(found) => found.totals(command),
            None => None,
        }
    }

    /// The ticket that a step of the operation would go by, as it is before the step: of a `Finish` or a `Fail` the one
    /// whose run ends, of a `Collect` the one whose answer is asked for, of a `FallbackDone` the one whose fallback ends.
    /// So it is known whose step it is, of which command, and when that was submitted.
    ///
    /// None where there is no such ticket, the operation says no serial, or the group is not registered.
    pub fn ticket(&self, group: GroupId, op: &Op) -> Option<&Ticket>
        ensures known { (v : View) → view_at self.now group.0 ≡ Some v → option_copied result ≡ ticket_meant op.now v.present.tickets }
        ensures unknown { view_at self.now group.0 ≡ None → IsNone result }
    {
        match find(&self.groups, group) {
            Some(found) => found.ticket(&self.tickets, op),
            None => None,
        }
    }

    /// Whether the group has done all the steps that it may: every further one would be answered `Worn`, unless it names
    /// a command that the group lacks.
    /// False where the group is not registered.
    pub fn worn(&self, group: GroupId) -> bool
        ensures known { (v : View) (o : Op) (moment : ℕ) → view_at self.now group.0 ≡ Some v → is_known o v.present.props ≡ true → result ≡ is_worn_out (view_reply v o moment) }
        ensures unknown { view_at self.now group.0 ≡ None → result ≡ false }
    {
        match find(&self.groups, group) {
            Some(found) => found.is_worn(),
            None => false,
        }
    }

    /// Whether a `Start` would be answered `Assigned`, at whatever moment: a ticket is queued, and a worker is free.
    /// False where the group is worn or not registered.
    pub fn startable(&self, group: GroupId) -> bool
        ensures known { (v : View) (moment : ℕ) → view_at self.now group.0 ≡ Some v → result ≡ is_assigned (view_reply v op.Start moment) }
        ensures unknown { view_at self.now group.0 ≡ None → result ≡ false }
    {
        match find(&self.groups, group) {
            Some(found) => found.is_startable(&self.tickets),
            None => false,
        }
    }

    /// Whether a `Collect` of the serial would be answered `Pending`, at whatever moment: someone holds the ticket,
    /// and its run or its fallback has still to end. False where the group is worn or not registered.
    pub fn pending(&self, group: GroupId, serial: Serial) -> bool
        ensures known { (v : View) (moment : ℕ) → view_at self.now group.0 ≡ Some v → result ≡ is_pending (view_reply v (op.Collect serial) moment) }
        ensures unknown { view_at self.now group.0 ≡ None → result ≡ false }
    {
        match find(&self.groups, group) {
            Some(found) => found.is_pending(&self.tickets, serial),
            None => false,
        }
    }

    /// Whether an `Expire` at the moment would be answered `Expired` of more than 0: a ticket's time is up. A moment
    /// before that of the group's last step counts as that one, as in every step. False where the group is worn or
    /// not registered.
    pub fn due(&self, group: GroupId, now: Moment) -> bool
        ensures known { (v : View) → view_at self.now group.0 ≡ Some v → result ≡ expires_some (view_reply v op.Expire now) }
        ensures unknown { view_at self.now group.0 ≡ None → result ≡ false }
    {
        match find(&self.groups, group) {
            Some(found) => found.has_tickets(&self.tickets) && found.is_due(&self.tickets, now),
            None => false,
        }
    }
}

/// The group of the number, where it is registered and not retired.
fn find(groups: &[Entry], group: GroupId) -> Option<&Group>
    ensures found { IfSome result (λ found. slice_get groups.now group.0 ≡ Some (entry.Live found.now)) }
    ensures missing { IsNone result → (g : GroupView) → slice_get groups.now group.0 ≢ Some (entry.Live g) }
{
    let place = group.0;
    if place >= groups.len() as u64 {
        return None;
    }
    match &groups[place as usize] {
        Entry::Live(found) => Some(found),
        Entry::Retired(_) => None,
    }
}
