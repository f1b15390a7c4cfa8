//! The groups of a run by name and number: those of the settings, and those that lines registered.

ghost use Rattle.std.specs.Prelude.{◌≡◌, ℕ, ◌<◌, ◌++◌, List, ◌∷◌, [], false, true, length, slice_get, is_some, option_copied, IfErr, IfOk, IfSome, IsSome, OnErr, OnOk, Some, string_bytes, vec_capacity, vec_len};
ghost use Rattle.std.specs.HashMap.{IsUnchanged, spare};
ghost use Rattle.bh_base.specs.Props.{GroupProps};
ghost use Rattle.bh_base.specs.Runs.{View, view};
ghost use Rattle.bh_core.specs.Acts.{with_opened};
ghost use Rattle.bh_core.specs.CoreView.{most_groups, view_at, with_retired};
ghost use Rattle.bh_core.specs.Looks.{is_in_use};
ghost use Rattle.bh_core.specs.Step.{IsStep};
ghost use Rattle.bh_props.specs.Shown.{settings_view};
ghost use Rattle.bh_port.specs.Course.{new_course, step_limit};
ghost use Rattle.bh_port.specs.Entries.{entry_at, last_named, new_entry, number_of, without};
ghost use Rattle.bh_port.specs.Kept.{AreNumbered};
ghost use Rattle.bh_port.specs.Latest.{AreLatest};
ghost use Rattle.bh_port.specs.Script.{GroupsShow};

use crate::latest::LatestNumbers;
use crate::script::{open, step_limit};
use bh_base::{GroupId, Moment, Op, Reply, Step, Text};
use bh_core::{Core, RegisterError, RetireError};
use bh_lines::PortError;
use bh_props::Settings;
use indexmap::IndexMap;
use std::alloc::{AllocError, Global};
use std::marker::Model;

/// A group of a run.
#[derive(Clone, Copy, Debug)]
pub struct Entry {
    /// The name of the group, and of its own command.
    pub name: Text<32>,
    /// The place in the settings, from 0, of the group with whose properties it began, and whose further commands it has: its
    /// own, unless a line registered it.
    pub like: u64,
    /// Whether it is there: it was not retired.
    pub live: bool,
}

/// The groups of a run by name and number, with all that they do.
#[derive(Drop)]
pub struct Groups {
    core: Core,
    /// The groups by their numbers, retired ones included.
    entries: Vec<Entry>,
    /// From each name to the number that was given last under it.
    numbers: IndexMap<String, u64>,
    /// The numbers of most names, without a look into the map.
    latest: LatestNumbers,
}

impl Model for Groups {
    ghost use Rattle.bh_port.specs.GroupsView.{GroupsView};
    ghost use Rattle.bh_port.specs.Kept.{AreNumbered, AreOf};
    ghost use Rattle.bh_port.specs.Latest.{AreLatest};

    ghost Value = { GroupsView };

    ghost view = { λ groups. record { entries = groups.entries.items; core = groups.core } };

    ghost invariant = { λ groups. AreNumbered groups.entries.items groups.numbers × AreOf groups.core groups.entries.items
        × AreLatest groups.entries.items groups.latest };
}

impl Groups {
    /// The groups of the settings, all new, each with its own properties and the steps that it may do.
    ///
    /// It fails only for want of memory, as `Memory`.
    pub fn open(alloc: Global, settings: &Settings) -> Result<Groups, PortError>
        ensures agrees { IfOk result (λ groups. GroupsShow (settings_view settings.now) groups (new_course (settings_view settings.now))) }
        ensures err { IfErr result (λ e. e ≡ PortError.Memory) }
    {
        let core = open(alloc, settings)?;
        let mut entries = Vec::new(alloc);
        let mut numbers = IndexMap::new(alloc);
        let mut latest = LatestNumbers::new(alloc)?;
        for (place, name) in settings.groups.keys().enumerate() {
            let key = String::from_str(alloc, name.as_str())?;
            make_room(&mut entries, &mut numbers)?;
            list(
                &mut entries,
                &mut numbers,
                &mut latest,
                key,
                *name,
                place as u64,
            );
        }
        Ok(Groups {
            core,
            entries,
            numbers,
            latest,
        })
    }

    /// How many groups there were so far, retired ones included.
    pub fn count(&self) -> usize
        ensures { result ≡ length self.now.entries }
    {
        self.entries.len()
    }

    /// The groups by their numbers, retired ones included.
    pub fn entries(&self) -> &[Entry]
        ensures { result.now ≡ self.now.entries }
    {
        self.entries.as_slice()
    }

    /// The groups as the core has them, to be looked at: each that is there is registered.
    pub fn core(&self) -> &Core
        ensures core { result.now ≡ self.now.core }
        ensures there { (number : ℕ) → is_some (view_at self.now.core number) ≡ is_some (entry_at self.now.entries number) }
    {
        &self.core
    }

    /// The number of the group of the name, where it is there. It is found by the hash of the name.
    pub fn number(&self, name: &str) -> Option<u64>
        ensures number { result ≡ number_of self.now.entries name.now }
        ensures there { IfSome result (λ number. IsSome (entry_at self.now.entries number)) }
    {
        let number = match self.latest_number(name) {
            Some(number) => number,
            None => *self.numbers.get(name)?,
        };
        if self.entry(GroupId(number)).is_some() {
            Some(number)
        } else {
            None
        }
    }

    /// The number that was given last under the name, where it is the one that was noted last at the name's place.
    #[inline(always)]
    fn latest_number(&self, name: &str) -> Option<u64>
        ensures { IfSome result (λ number. last_named name.now self.now.entries 0 None ≡ Some number) }
    {
        let number = self.latest.number(name)?;
        if number >= self.entries.len() as u64 {
            return None;
        }
        let entry = &self.entries[number as usize];
        if entry.name.as_str() == name {
            Some(number)
        } else {
            None
        }
    }

    /// The group of the number, where it is there.
    pub fn entry(&self, group: GroupId) -> Option<&Entry>
        ensures { option_copied result ≡ entry_at self.now.entries group.0 }
    {
        let place = group.0;
        if place >= self.entries.len() as u64 {
            return None;
        }
        let entry = &self.entries[place as usize];
        if entry.live { Some(entry) } else { None }
    }

    /// Looks at what the step will look at first, the ticket that it goes by or the front of the queue, and tells something
    /// of it.
    #[inline(always)]
    pub(crate) fn look_at(&self, step: &Step) -> u64 {
        match self.core.ticket(step.group, &step.op) {
            Some(ticket) => ticket.holders,
            None => u64::from(self.core.startable(step.group)),
        }
    }

    /// One step of the group, as `Core::apply_to` makes it. A step of a group that is not there is answered `NoGroup` and
    /// changes nothing.
    pub fn apply_to(&mut self, group: GroupId, now: Moment, op: &Op, reply: &mut Reply)
        ensures step { IsStep self.old.core (record { group = group; now = now; op = op.now }) reply.new self.new.core }
        ensures entries { self.new.entries ≡ self.old.entries }
    {
        self.core.apply_to(group, now, op, reply);
    }

    /// Registers a group of the name, with the properties that the settings have for the group at the place, whatever steps
    /// changed in that group. It fails only for want of memory, and nothing has changed then: more slots than the core may have
    /// would be terabytes.
    pub(crate) fn register(
        &mut self,
        settings: &Settings,
        name: Text<32>,
        like: u64,
    ) -> Result<(), AllocError>
        requires place { like < length settings.now.groups.entries }
        requires few { length self.old.entries < most_groups }
        ensures entries { OnOk result (self.new.entries ≡ self.old.entries ++ new_entry name like ∷ []) }
        ensures core { OnOk result ((group : List ℕ × GroupProps) → slice_get settings.now.groups.entries like ≡ Some group →
            self.new.core ≡ with_opened group.1 (step_limit settings.now.audit_steps) self.old.core) }
        ensures err { OnErr result (self.new ≡ self.old) }
    {
        let Some((_name, props)) = settings.groups.get_index(like as usize) else {
            unreachable!()
        };
        let key = String::from_str(*self.entries.allocator(), name.as_str())?;
        make_room(&mut self.entries, &mut self.numbers)?;
        match self.core.register(props, step_limit(settings.audit_steps)) {
            Ok(_group) => list(
                &mut self.entries,
                &mut self.numbers,
                &mut self.latest,
                key,
                name,
                like,
            ),
            Err(RegisterError::Memory | RegisterError::TooManySlots) => return Err(AllocError),
            Err(RegisterError::TooManyGroups) => unreachable!(),
        }
        Ok(())
    }

    /// Retires the group, and says whether it did: it does not where the group is in use, and nothing has changed then.
    pub(crate) fn retire(&mut self, group: GroupId) -> bool
        requires { IsSome (entry_at self.old.entries group.0) }
        ensures ended { result ≡ true → (v : View) × (view_at self.old.core group.0 ≡ Some v) × (is_in_use v ≡ false)
            × (self.new.core ≡ with_retired group.0 v self.old.core) × (self.new.entries ≡ without group.0 self.old.entries) }
        ensures held { result ≡ false → (v : View) × (view_at self.old.core group.0 ≡ Some v) × (is_in_use v ≡ true) × (self.new ≡ self.old) }
    {
        match self.core.retire(group) {
            Ok(()) => {
                self.entries[group.0 as usize].live = false;
                true
            }
            Err(RetireError::Busy) => false,
            Err(RetireError::NoGroup) => unreachable!(),
        }
    }
}

/// Makes room for one group more.
fn make_room(
    entries: &mut Vec<Entry>,
    numbers: &mut IndexMap<String, u64>,
) -> Result<(), AllocError>
    ensures entries { entries.new.items ≡ entries.old.items }
    ensures numbers { IsUnchanged numbers.old numbers.new }
    ensures place { OnOk result (vec_len entries.new < vec_capacity entries.new) }
    ensures key { OnOk result (0 < spare numbers.new) }
{
    entries.reserve(1)?;
    numbers.reserve(1)
}

/// Puts a group behind the others, within the room that is there, and its name as a key: this takes no memory and cannot fail.
fn list(
    entries: &mut Vec<Entry>,
    numbers: &mut IndexMap<String, u64>,
    latest: &mut LatestNumbers,
    key: String,
    name: Text<32>,
    like: u64,
)
    requires numbered { AreNumbered entries.old.items numbers.old }
    requires latest { AreLatest entries.old.items latest.old }
    requires place { vec_len entries.old < vec_capacity entries.old }
    requires key { 0 < spare numbers.old }
    requires name { string_bytes key ≡ name }
    ensures entries { entries.new.items ≡ entries.old.items ++ new_entry name like ∷ [] }
    ensures numbered { AreNumbered entries.new.items numbers.new }
    ensures latest { AreLatest entries.new.items latest.new }
{
    let number = entries.len() as u64;
    latest.note(name.as_str(), number);
    let _before = numbers.insert(key, number).unwrap();
    entries.push_reserved(Entry {
        name,
        like,
        live: true,
    });
}
