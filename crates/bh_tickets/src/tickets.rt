//! The tickets of all groups.

ghost use Rattle.std.specs.List.{list_any};
ghost use Rattle.std.specs.Prelude.{◌≡◌, ◌≢◌, ℕ, ◌+◌, ◌-◌, ◌^◌, ◌<◌, ◌≤◌, ◌==◌, ◌&&◌, Bool, [], ◌∷◌, ◌++◌, count_by, filter, find, false, length, map, nat_le, slice_get, slice_set, vec_capacity, vec_len, IfOk, IfSome, IsSome, None, OnErr, Some};
ghost use Rattle.bh_base.specs.declared.ticket.Ticket.{Ticket};
ghost use Rattle.bh_base.specs.declared.ticket.TicketState.TheVariants as ticket;
ghost use Rattle.bh_base.specs.Machine.{released_by_one};
ghost use Rattle.bh_base.specs.Tickets.{changed_first, in_state, is_busy_at, is_cached_as, is_cached_in, is_held_at, is_in_fallback, is_in_fallback_at, is_kept, is_of, is_queued};
ghost use Rattle.bh_cache.specs.Cache.{uncached_in};
ghost use Rattle.bh_tickets.specs.Changes.{answered, fallback_started, is_due_by, joined, run_settled, run_started, run_stopped, state_after, timed_out_by};
ghost use Rattle.bh_tickets.specs.NewTicket.{ticket_of};
ghost use Rattle.bh_tickets.specs.TicketsView.{CanPush, ChangesOnly, HasPlace, IsFirstAt, IsThere, group_at, in_slot, is_used, no_tickets_in, slots_of};
ghost use Rattle.bh_serials.specs.TableView.{TableView, with_entry};
ghost use Rattle.bh_tickets.specs.Whole.{CanChange, IsChanged, IsSerialAt};

use crate::changes::{RunEnd, TicketChange};
use crate::group_slots::{self, GroupSlots, add, drop_cached, may_be_due};
use crate::growth::new_arena;
use crate::names::NameLists;
use crate::new_ticket::NewTicket;
use crate::spare::{
    give_slots, ready_slot, ready_spare, take_place, take_slots, unmade_of, vacant,
};
use crate::states::{DueRule, is_due, is_held, is_in_fallback};
use crate::sweeps::{release, time_out};
use crate::walks::{any_due_on, any_used_on};
use bh_base::{Answer, Cause, Serial, Text, Ticket};
use bh_serials::SerialTable;
use bh_slot_arena::Arena;
use std::alloc::{AllocError, Global};
use std::marker::Model;

/// The tickets of all groups, by the numbers of the groups.
#[derive(Drop)]
pub struct Tickets {
    arena: Arena<Ticket, 3>,
    /// The slots of retired groups, as those of a group without tickets.
    spare: Option<GroupSlots>,
    groups: Vec<GroupSlots>,
    /// No place before it was left by a retired group, so that a registration need not look there.
    first_left: usize,
    /// Chains by cache name and by request context that retired groups left, and that no group has.
    names: Vec<NameLists>,
    /// Where the tickets of each group lie, by their serials.
    tables: Vec<SerialTable>,
}

impl Model for Tickets {
    ghost use Rattle.bh_tickets.specs.TicketsView.{TicketsView};
    ghost use Rattle.bh_tickets.specs.Whole.{view_of, AreTickets};

    ghost Value = { TicketsView };

    ghost view = { λ ts. view_of ts.arena ts.groups.items };

    ghost invariant = { λ ts. AreTickets ts.arena ts.spare ts.groups.items ts.names.items ts.tables.items };
}

impl Tickets {
    /// No group. There may be so many slots in all.
    pub fn new(alloc: Global, limit: u32) -> Self
        ensures { result ≡ record { limit = limit; groups = [] } }
    {
        Tickets {
            arena: new_arena(alloc, limit),
            spare: None,
            groups: Vec::new(alloc),
            first_left: 0,
            names: Vec::new(alloc),
            tables: Vec::new(alloc),
        }
    }

    /// Whether so many slots more are within the limit. Slots of retired groups do not count.
    pub fn has_slots_for(&self, slots: u64) -> bool
        requires { slots ≤ 4096 }
        ensures { result ≡ nat_le (slots_of self.now + slots) self.now.limit }
    {
        let spare = match &self.spare {
            Some(part) => self.arena.len_of(0, part.lists.free) as u64 + part.unmade,
            None => 0,
        };
        self.arena.partition(0);
        slots <= spare || self.arena.has_room_for((slots - spare) as u32)
    }

    /// A place for a group with so many slots and no ticket: one that a retired group left, else a new one behind the
    /// others. Slots of retired groups are taken first; others are made as they are first needed, in memory that is taken
    /// here, as is all that the group's tickets will need. Refused, nothing has changed.
    pub fn add_group(&mut self, slots: u64) -> Result<usize, AllocError>
        requires few { slots ≤ 4096 }
        requires within { slots_of self.old + slots ≤ self.old.limit }
        ensures ok { IfOk result (λ place. HasPlace place slots self.old self.new) }
        ensures err { OnErr result (self.new ≡ self.old) }
    {
        let table = SerialTable::new(*self.tables.allocator(), slots)?;
        self.tables.reserve(1)?;
        let left = self.first_left;
        let from = ready_spare(&mut self.arena, &mut self.spare, slots)?;
        let names = &mut self.names;
        let place = take_place(&mut self.arena, &mut self.groups, names, left, slots)?;
        self.first_left = place;
        let to = self.groups[place].lists;
        let made = slots.min(self.arena.len_of(0, from.free) as u64);
        let unmade = slots - made;
        let left_unmade = unmade_of(&self.spare) - unmade;
        take_slots(&mut self.arena, &from, &to, made);
        self.arena.partition(0);
        self.spare = Some(vacant(&self.arena, &from, left_unmade));
        self.groups[place] = vacant(&self.arena, &to, unmade);
        put_table(&mut self.tables, place, table);
        Ok(place)
    }

    /// The group at the place is retired: its tickets are gone, its slots are there for others, and the place is left. It
    /// takes no memory.
    pub fn retire_group(&mut self, place: usize)
        requires { place < length self.old.groups }
        ensures { self.new ≡ record self.old { groups = slice_set self.old.groups place (no_tickets_in 0) } }
    {
        let Some(spare) = self.spare else {
            return;
        };
        let group = self.groups[place];
        give_slots(&mut self.arena, &group, &spare.lists);
        self.arena.partition(0);
        self.spare = Some(vacant(&self.arena, &spare.lists, spare.unmade + group.unmade));
        self.groups[place] = vacant(&self.arena, &group.lists, 0);
        self.tables[place].clear();
        self.first_left = self.first_left.min(place);
    }

    /// How many tickets a group has.
    pub fn len(&self, group: usize) -> u64
        requires { group < length self.now.groups }
        ensures { result ≡ length (group_at self.now group).items }
    {
        self.groups[group].slots.taken()
    }

    /// How many runs of the command are under way, timed out ones included.
    pub fn busy_count(&self, group: usize, command: u8) -> u64
        requires group { group < length self.now.groups }
        requires command { command < 16 }
        ensures { result ≡ count_by (λ t. is_of command t && t.busy) (group_at self.now group).items }
    {
        self.groups[group].commands[command as usize].busy
    }

    /// How many of the command's tickets wait for a worker.
    pub fn queued_count(&self, group: usize, command: u8) -> u64
        requires group { group < length self.now.groups }
        requires command { command < 16 }
        ensures { result ≡ count_by (λ t. is_of command t && is_queued t) (group_at self.now group).items }
    {
        self.groups[group].commands[command as usize].queued
    }

    /// How many of the command's tickets have their fallback running.
    pub fn in_fallback_count(&self, group: usize, command: u8) -> u64
        requires group { group < length self.now.groups }
        requires command { command < 16 }
        ensures { result ≡ count_by (λ t. is_of command t && is_in_fallback t) (group_at self.now group).items }
    {
        self.groups[group].commands[command as usize].in_fallback
    }

    /// How many of the group's tickets wait for a worker, of whatever command.
    pub fn waiting_count(&self, group: usize) -> u64
        requires { group < length self.now.groups }
        ensures { result ≡ count_by is_queued (group_at self.now group).items }
    {
        self.groups[group].queued
    }

    /// The next ticket's serial.
    pub fn next_serial(&self, group: usize) -> Serial
        requires { group < length self.now.groups }
        ensures { result ≡ (group_at self.now group).next }
    {
        self.groups[group].next
    }

    /// The slot of the queued ticket of least serial.
    pub fn first_queued(&self, group: usize) -> Option<u32>
        requires { group < length self.now.groups }
        ensures found { IfSome result (λ slot. IsFirstAt is_queued (group_at self.now group) slot) }
        ensures none { result ≡ None → find is_queued (group_at self.now group).items ≡ None }
    {
        let entry = &self.groups[group];
        self.arena.front(0, entry.lists.queued)
    }

    /// The slot of the ticket of the serial.
    fn find_serial(&self, group: usize, serial: Serial) -> Option<u32>
        requires { group < length self.now.groups }
        ensures found { IfSome result (λ slot. IsSerialAt serial (group_at self.now group) slot) }
        ensures none { result ≡ None → (q : Ticket → Bool) → find (λ t. t.serial == serial && q t) (group_at self.now group).items ≡ None }
    {
        self.tables[group].find(serial)
    }

    /// The slot of the ticket of the serial, where its run is under way.
    pub fn find_busy(&self, group: usize, serial: Serial) -> Option<u32>
        requires { group < length self.now.groups }
        ensures found { IfSome result (λ slot. IsFirstAt (is_busy_at serial) (group_at self.now group) slot) }
        ensures none { result ≡ None → find (is_busy_at serial) (group_at self.now group).items ≡ None }
    {
        let slot = self.find_serial(group, serial)?;
        if !self.get(group, slot).busy {
            return None;
        }
        Some(slot)
    }

    /// The slot of the ticket of the serial, where someone holds it.
    pub fn find_held(&self, group: usize, serial: Serial) -> Option<u32>
        requires { group < length self.now.groups }
        ensures found { IfSome result (λ slot. IsFirstAt (is_held_at serial) (group_at self.now group) slot) }
        ensures none { result ≡ None → find (is_held_at serial) (group_at self.now group).items ≡ None }
    {
        let slot = self.find_serial(group, serial)?;
        if !is_held(self.get(group, slot)) {
            return None;
        }
        Some(slot)
    }

    /// The slot of the ticket of the serial, where a holder runs its fallback.
    pub fn find_in_fallback(&self, group: usize, serial: Serial) -> Option<u32>
        requires { group < length self.now.groups }
        ensures found { IfSome result (λ slot. IsFirstAt (is_in_fallback_at serial) (group_at self.now group) slot) }
        ensures none { result ≡ None → find (is_in_fallback_at serial) (group_at self.now group).items ≡ None }
    {
        let slot = self.find_serial(group, serial)?;
        if !is_in_fallback(self.get(group, slot)) {
            return None;
        }
        Some(slot)
    }

    /// The slot of the ticket that is cached under the context and the key.
    pub fn find_cached(
        &self,
        group: usize,
        command: u8,
        context: u64,
        key: &Text<32>,
    ) -> Option<u32>
        requires { group < length self.now.groups }
        ensures found { IfSome result (λ slot. IsFirstAt (is_cached_as command (context, key.now)) (group_at self.now group) slot) }
        ensures none { result ≡ None → find (is_cached_as command (context, key.now)) (group_at self.now group).items ≡ None }
    {
        let entry = &self.groups[group];
        bh_cache::find(&self.arena, &entry.lists, command, context, key)
    }

    /// Whether a ticket waits for a worker.
    pub fn any_queued(&self, group: usize) -> bool
        requires { group < length self.now.groups }
        ensures { result ≡ list_any is_queued (group_at self.now group).items }
    {
        self.first_queued(group).is_some()
    }

    /// Whether the ticket of the serial has timed out: it is queued or running, and was submitted so many
    /// milliseconds before the moment.
    pub fn is_due(&self, group: usize, serial: Serial, due: &DueRule) -> bool
        requires { group < length self.now.groups }
        ensures { result ≡ list_any (λ t. t.serial == serial) (filter (is_due_by due.now) (group_at self.now group).items) }
    {
        let Some(slot) = self.find_serial(group, serial) else {
            return false;
        };
        is_due(self.get(group, slot), due)
    }

    /// Whether a ticket has timed out. It takes no walk where what is counted of the command shows that none has.
    pub fn any_due(&self, group: usize, due: &DueRule) -> bool
        requires { group < length self.now.groups }
        ensures { result ≡ list_any (is_due_by due.now) (group_at self.now group).items }
    {
        let entry = &self.groups[group];
        if !may_be_due(entry, due) {
            return false;
        }
        any_due_on(&self.arena, entry.lists.queued, entry.order.in_time, due)
            || any_due_on(
                &self.arena,
                entry.lists.running,
                entry.order.running_rises(),
                due,
            )
    }

    /// Whether a run of a ticket has not ended, or someone has still to collect an answer.
    pub fn any_used(&self, group: usize) -> bool
        requires { group < length self.now.groups }
        ensures { result ≡ list_any is_used (group_at self.now group).items }
    {
        let entry = &self.groups[group];
        any_used_on(&self.arena, entry.lists.queued)
            || any_used_on(&self.arena, entry.lists.running)
            || any_used_on(&self.arena, entry.lists.settled)
    }

    /// The ticket in the slot.
    pub fn get(&self, group: usize, slot: u32) -> &Ticket
        requires group { group < length self.now.groups }
        requires there { IsThere (group_at self.now group) slot }
        ensures { in_slot (group_at self.now group) slot ≡ Some result.now }
    {
        self.arena.get(slot)
    }

    /// That happens to the ticket in the slot.
    #[inline(always)]
    fn change(&mut self, group: usize, slot: u32, change: &TicketChange)
        requires group { group < length self.old.groups }
        requires allowed { CanChange (group_at self.old group) slot change.now }
        ensures { IsChanged group slot change.now self.old self.new }
    {
        let entry = &mut self.groups[group];
        group_slots::change(&mut self.arena, entry, slot, change);
    }

    /// A worker begins with the run of the ticket, the first that is queued.
    pub fn start_run(&mut self, group: usize, slot: u32)
        requires group { group < length self.old.groups }
        requires first { IsFirstAt is_queued (group_at self.old group) slot }
        ensures items { (p : Ticket → Bool) → IsFirstAt p (group_at self.old group) slot → (group_at self.new group).items ≡ changed_first p run_started (group_at self.old group).items }
        ensures left { ChangesOnly group self.old self.new }
    {
        self.change(group, slot, &TicketChange::StartRun);
    }

    /// The run of the ticket has ended in time.
    #[inline(always)]
    pub fn end_run(&mut self, group: usize, slot: u32, end: RunEnd)
        requires group { group < length self.old.groups }
        requires there { IsThere (group_at self.old group) slot }
        ensures items { (p : Ticket → Bool) → IsFirstAt p (group_at self.old group) slot → (group_at self.new group).items ≡ changed_first p (run_settled (state_after end.entry)) (group_at self.old group).items }
        ensures left { ChangesOnly group self.old self.new }
    {
        self.change(group, slot, &TicketChange::EndRun(end));
    }

    /// The run of the ticket has ended, too late.
    pub fn stop_run(&mut self, group: usize, slot: u32)
        requires group { group < length self.old.groups }
        requires there { IsThere (group_at self.old group) slot }
        ensures items { (p : Ticket → Bool) → IsFirstAt p (group_at self.old group) slot → (group_at self.new group).items ≡ changed_first p run_stopped (group_at self.old group).items }
        ensures left { ChangesOnly group self.old self.new }
    {
        self.change(group, slot, &TicketChange::StopRun);
    }

    /// One holder has collected the answer.
    pub fn release_holder(&mut self, group: usize, slot: u32)
        requires group { group < length self.old.groups }
        requires there { IsThere (group_at self.old group) slot }
        requires held { (t : Ticket) → in_slot (group_at self.old group) slot ≡ Some t → 0 < t.holders }
        ensures items { (p : Ticket → Bool) → IsFirstAt p (group_at self.old group) slot → (group_at self.new group).items ≡ changed_first p released_by_one (group_at self.old group).items }
        ensures left { ChangesOnly group self.old self.new }
    {
        self.change(group, slot, &TicketChange::ReleaseHolder);
    }

    /// The ticket is answered, and one holder has collected that.
    pub fn answer_holder(&mut self, group: usize, slot: u32, answer: &Answer)
        requires group { group < length self.old.groups }
        requires there { IsThere (group_at self.old group) slot }
        requires held { (t : Ticket) → in_slot (group_at self.old group) slot ≡ Some t → 0 < t.holders }
        ensures items { (p : Ticket → Bool) → IsFirstAt p (group_at self.old group) slot → (group_at self.new group).items ≡ changed_first p (answered answer.now) (group_at self.old group).items }
        ensures left { ChangesOnly group self.old self.new }
    {
        self.change(group, slot, &TicketChange::AnswerHolder(answer));
    }

    /// The ticket is answered.
    pub fn answer(&mut self, group: usize, slot: u32, answer: &Answer)
        requires group { group < length self.old.groups }
        requires there { IsThere (group_at self.old group) slot }
        ensures items { (p : Ticket → Bool) → IsFirstAt p (group_at self.old group) slot → (group_at self.new group).items ≡ changed_first p (in_state (ticket.Answered answer.now)) (group_at self.old group).items }
        ensures left { ChangesOnly group self.old self.new }
    {
        self.change(group, slot, &TicketChange::Answer(answer));
    }

    /// A holder begins with the fallback of the ticket.
    pub fn start_fallback(&mut self, group: usize, slot: u32, cause: Cause)
        requires group { group < length self.old.groups }
        requires there { IsThere (group_at self.old group) slot }
        ensures items { (p : Ticket → Bool) → IsFirstAt p (group_at self.old group) slot → (group_at self.new group).items ≡ changed_first p (fallback_started cause) (group_at self.old group).items }
        ensures left { ChangesOnly group self.old self.new }
    {
        self.change(group, slot, &TicketChange::StartFallback(cause));
    }

    /// One more holder waits for the answer of the ticket.
    pub fn add_holder(&mut self, group: usize, slot: u32)
        requires group { group < length self.old.groups }
        requires there { IsThere (group_at self.old group) slot }
        requires few { (t : Ticket) → in_slot (group_at self.old group) slot ≡ Some t → t.holders < 2 ^ 64 - 1 }
        ensures items { (p : Ticket → Bool) → IsFirstAt p (group_at self.old group) slot → (group_at self.new group).items ≡ changed_first p joined (group_at self.old group).items }
        ensures left { ChangesOnly group self.old self.new }
    {
        self.change(group, slot, &TicketChange::AddHolder);
    }

    /// A new ticket, which gets the next serial and comes behind the others.
    #[inline(always)]
    pub fn push(&mut self, group: usize, new: &NewTicket)
        requires group { group < length self.old.groups }
        requires ticket { CanPush (group_at self.old group) new.now }
        ensures items { (group_at self.new group).items ≡ (group_at self.old group).items ++ ticket_of new.now (group_at self.old group).next ∷ [] }
        ensures next { (group_at self.new group).next ≡ (group_at self.old group).next + 1 }
        ensures room { (group_at self.new group).room ≡ (group_at self.old group).room }
        ensures others { (g : ℕ) → g ≢ group → slice_get self.new.groups g ≡ slice_get self.old.groups g }
        ensures count { length self.new.groups ≡ length self.old.groups }
        ensures limit { self.new.limit ≡ self.old.limit }
    {
        let entry = &mut self.groups[group];
        ready_slot(&mut self.arena, entry);
        let slot = self.arena.back(0, entry.lists.free);
        put_slot(&mut self.tables[group], entry.next, slot);
        add(&mut self.arena, entry, new);
    }

    /// No ticket of the context is cached any more; answers how many were.
    pub fn close(&mut self, group: usize, context: u64) -> u64
        requires group { group < length self.old.groups }
        ensures items { (group_at self.new group).items ≡ map (uncached_in context) (group_at self.old group).items }
        ensures count { result ≡ count_by (is_cached_in context) (group_at self.old group).items }
        ensures left { ChangesOnly group self.old self.new }
    {
        let entry = &mut self.groups[group];
        drop_cached(&mut self.arena, entry, context)
    }

    /// Each ticket that is due has timed out; answers how many did.
    pub fn time_out(&mut self, group: usize, due: &DueRule) -> u64
        requires group { group < length self.old.groups }
        ensures items { (group_at self.new group).items ≡ map (timed_out_by due.now) (group_at self.old group).items }
        ensures count { result ≡ length (filter (is_due_by due.now) (group_at self.old group).items) }
        ensures left { ChangesOnly group self.old self.new }
    {
        let entry = &mut self.groups[group];
        time_out(&mut self.arena, entry, due)
    }

    /// Leaves the tickets out that nobody needs. It takes no walk where few tickets became needless.
    pub fn release(&mut self, group: usize)
        requires group { group < length self.old.groups }
        ensures items { (group_at self.new group).items ≡ filter is_kept (group_at self.old group).items }
        ensures few { length (group_at self.new group).items ≤ (group_at self.new group).room }
        ensures left { ChangesOnly group self.old self.new }
    {
        let entry = &mut self.groups[group];
        release(&mut self.arena, entry, &mut self.tables[group]);
    }
}

/// The ticket of the serial has come into the slot, where there is one.
fn put_slot(table: &mut SerialTable, serial: Serial, slot: Option<u32>)
    requires later { IsSome slot → table.old.latest < serial }
    requires room { IsSome slot → length table.old.entries < table.old.room }
    ensures { (x : ℕ) → slot ≡ Some x → table.new ≡ with_entry serial x table.old }
{
    if let Some(slot) = slot {
        table.add(serial, slot);
    }
}

/// The table is that of the group at the place.
fn put_table(tables: &mut Vec<SerialTable>, place: usize, table: SerialTable)
    requires place { place ≤ vec_len tables.old }
    requires memory { vec_len tables.old < vec_capacity tables.old }
    ensures here { slice_get tables.new.items place ≡ Some table }
    ensures others { (g : ℕ) → g ≢ place → slice_get tables.new.items g ≡ slice_get tables.old.items g }
{
    if place < tables.len() {
        tables[place] = table;
    } else {
        tables.push_reserved(table);
    }
}
