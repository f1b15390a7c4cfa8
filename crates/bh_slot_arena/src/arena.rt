//! Slots with a payload each, on lists of several families.

ghost use Rattle.std.specs.Prelude.{◌≡◌, ℕ, ◌+◌, ◌-◌, ◌<◌, ◌≤◌, ◌↔◌, ◌≢◌, ◌^◌, [], ◌++◌, Contains, length, nat_le, replicate, reverse, slice_get, slice_index, vec_len, vec_capacity, IfOk, OnOk, OnErr, Err, Some};
ghost use Rattle.bh_slot_arena.specs.Lists.{IsPartition};
ghost use Rattle.bh_slot_arena.specs.Slots.{lists_in, slots_on, with_appended, with_moved, with_new_lists, with_new_slots, with_payload, with_reserved};
ghost use Rattle.bh_slot_arena.specs.Family.{AddsSlots, CanAddSlots, but_room, family_at, no_lists};
ghost use Rattle.std.specs.Borrow.{Lends, sem};
ghost use Rattle.bh_slot_arena.specs.contracts.arena.Arena.{the_row};

use crate::family::Family;
use std::alloc::{AllocError, Global};
use std::array;
use std::marker::Model;
use thiserror::Error;

/// Slots with a payload each. In each of `K` families every slot is on exactly one list.
///
/// Families, lists and slots go by their numbers, from 0, and the calls take numbers of those that are there.
#[derive(Drop)]
pub struct Arena<T: Copy, const K: usize> {
    /// How many slots there may be.
    limit: u32,
    /// How many slots more there may be without more memory.
    reserved: u32,
    payloads: Vec<T>,
    families: [Family; K],
}

/// Why no slot was added.
#[derive(Clone, Copy, Debug, PartialEq, Eq, Error)]
pub enum SlotsError {
    /// There would be more slots than the arena may have.
    #[error("too many slots")]
    TooManySlots,
    /// There is not enough memory for them.
    #[error("out of memory")]
    Memory,
}

impl<T: Copy, const K: usize> Model for Arena<T, K> {
    ghost use Rattle.bh_slot_arena.specs.Slots.{ArenaView};
    ghost use Rattle.std.specs.Prelude.{map, length, vec_capacity};
    ghost use Rattle.bh_slot_arena.specs.Whole.{HasFamilies};

    ghost Value = { ArenaView T };

    ghost view = { λ a. record { limit = a.limit; reserved = a.reserved; payloads = a.payloads.items; families = map (λ f. f.lists) a.families } };

    ghost invariant = { λ a. HasFamilies a.limit a.reserved (length a.payloads.items) (vec_capacity a.payloads) K a.families };
}

impl<T: Copy, const K: usize> Arena<T, K> {
    /// An arena without lists and slots, which may have so many slots.
    pub fn new(alloc: Global, limit: u32) -> Self
        ensures { result ≡ record { limit = limit; reserved = 0; payloads = []; families = replicate K [] } }
    {
        Arena {
            limit,
            reserved: 0,
            payloads: Vec::new(alloc),
            families: array::from_fn(
                |_| -> Family
                    ensures { but_room result ≡ no_lists }
                { Family::new(alloc) },
            ),
        }
    }

    /// How many slots there are.
    pub fn slot_count(&self) -> u32
        ensures { result ≡ length self.now.payloads }
    {
        let count = self.payloads.len();
        count as u32
    }

    /// Whether so many slots more are within what the arena may have, beside those that are reserved.
    pub fn has_room_for(&self, count: u32) -> bool
        ensures { result ≡ nat_le (length self.now.payloads + self.now.reserved + count) self.now.limit }
    {
        let slots = self.payloads.len() as u32;
        count <= self.limit - slots - self.reserved
    }

    /// Adds empty lists to a family, and answers the number of the first. Where memory is refused, nothing has changed.
    pub fn add_lists(&mut self, family: usize, count: usize) -> Result<usize, AllocError>
        requires { family < K }
        ensures first { IfOk result (λ n. n ≡ length (lists_in self.old family)) }
        ensures few { IfOk result (λ n. n + count < 2 ^ 64) }
        ensures ok { OnOk result (self.new ≡ with_new_lists family count self.old) }
        ensures err { OnErr result (self.new ≡ self.old) }
    {
        self.families[family].add_lists(count)
    }

    /// Takes the memory for so many slots more, which `add_reserved` adds.
    ///
    /// It is refused with `TooManySlots` where there would be more slots than the arena may have, those among them that were
    /// reserved before, and else with `Memory` where memory is refused; nothing has changed then.
    pub fn reserve_slots(&mut self, count: u32) -> Result<(), SlotsError>
        ensures ok { OnOk result (self.new ≡ with_reserved (self.old.reserved + count) self.old) }
        ensures limit { (result ≡ Err SlotsError.TooManySlots) ↔ (self.old.limit < length self.old.payloads + self.old.reserved + count) }
        ensures err { OnErr result (self.new ≡ self.old) }
    {
        if !self.has_room_for(count) {
            return Err(SlotsError::TooManySlots);
        }
        let reserved = self.reserved + count;
        if reserve_all(&mut self.families, reserved as usize).is_err() {
            return Err(SlotsError::Memory);
        }
        if self.payloads.reserve(reserved as usize).is_err() {
            return Err(SlotsError::Memory);
        }
        self.reserved = reserved;
        Ok(())
    }

    /// Adds so many of the reserved slots, each with the payload `blank`, and answers the number of the first. They go to
    /// the end of one list of each family, that of the number in `lists`, in the order of their numbers. It takes no memory.
    pub fn add_reserved(&mut self, count: u32, lists: [usize; K], blank: T) -> u32
        requires reserved { count ≤ self.old.reserved }
        requires lists { (f : ℕ) → f < K → slice_index lists f < length (lists_in self.old f) }
        ensures first { result ≡ length self.old.payloads }
        ensures added { self.new ≡ with_reserved (self.old.reserved - count) (with_new_slots count lists.entry blank self.old) }
    {
        let first = self.payloads.len() as u32;
        self.reserved -= count;
        push_copies(&mut self.payloads, blank, count);
        add_to_all(&mut self.families, first, count, &lists);
        first
    }

    /// Adds slots, each with the payload `blank`, and answers the number of the first. They go to the end of one list
    /// of each family, that of the number in `lists`, in the order of their numbers.
    ///
    /// It is refused with `TooManySlots` where there would be more slots than the arena may have, those among them that are
    /// reserved, and else with `Memory` where memory is refused; nothing has changed then.
    pub fn add_slots(&mut self, count: u32, lists: [usize; K], blank: T) -> Result<u32, SlotsError>
        requires { (f : ℕ) → f < K → slice_index lists f < length (lists_in self.old f) }
        ensures first { IfOk result (λ n. n ≡ length self.old.payloads) }
        ensures ok { OnOk result (self.new ≡ with_new_slots count lists.entry blank self.old) }
        ensures limit { (result ≡ Err SlotsError.TooManySlots) ↔ (self.old.limit < length self.old.payloads + self.old.reserved + count) }
        ensures err { OnErr result (self.new ≡ self.old) }
    {
        self.reserve_slots(count)?;
        Ok(self.add_reserved(count, lists, blank))
    }

    /// Takes a slot off its list of a family, and puts it last on the list `to`, which may be the same one.
    pub fn move_to_back(&mut self, family: usize, slot: u32, to: usize)
        requires family { family < K }
        requires slot { slot < length self.old.payloads }
        requires list { to < length (lists_in self.old family) }
        ensures moved { self.new ≡ with_moved family slot to self.old }

        // Every list but these two stays.
        ensures others { (l : ℕ) → l ≢ to → ¬ (Contains (slots_on self.old family l) slot) → slots_on self.new family l ≡ slots_on self.old family l }
    {
        self.families[family].move_to_back(slot, to);
    }

    /// Puts the slots of the list `from` at the end of another list of the family, in their order. No slot is on `from`
    /// then, and all else stays.
    pub fn append(&mut self, family: usize, from: usize, to: usize)
        requires family { family < K }
        requires from { from < length (lists_in self.old family) }
        requires to { to < length (lists_in self.old family) }
        requires differ { from ≢ to }
        ensures { self.new ≡ with_appended family from to self.old }
    {
        self.families[family].append(from, to);
    }

    /// The first slot of a list; None where the list is empty.
    pub fn front(&self, family: usize, list: usize) -> Option<u32>
        requires family { family < K }
        requires list { list < length (lists_in self.now family) }
        ensures { result ≡ slice_get (slots_on self.now family list) 0 }
    {
        self.families[family].front(list)
    }

    /// The slot behind a slot in its list of a family; None behind the last.
    pub fn next(&self, family: usize, slot: u32) -> Option<u32>
        requires family { family < K }
        requires slot { slot < length self.now.payloads }
        ensures { (l k : ℕ) → slice_get (slots_on self.now family l) k ≡ Some slot → result ≡ slice_get (slots_on self.now family l) (k + 1) }
    {
        self.families[family].next(slot)
    }

    /// The last slot of a list; None where the list is empty.
    pub fn back(&self, family: usize, list: usize) -> Option<u32>
        requires family { family < K }
        requires list { list < length (lists_in self.now family) }
        ensures { result ≡ slice_get (reverse (slots_on self.now family list)) 0 }
    {
        self.families[family].back(list)
    }

    /// The slot before a slot in its list of a family; None before the first.
    pub fn previous(&self, family: usize, slot: u32) -> Option<u32>
        requires family { family < K }
        requires slot { slot < length self.now.payloads }
        ensures { (l k : ℕ) → slice_get (reverse (slots_on self.now family l)) k ≡ Some slot → result ≡ slice_get (reverse (slots_on self.now family l)) (k + 1) }
    {
        self.families[family].previous(slot)
    }

    /// The number of the list of a family that a slot is on.
    pub fn list_holding(&self, family: usize, slot: u32) -> usize
        requires family { family < K }
        requires slot { slot < length self.now.payloads }
        ensures there { result < length (lists_in self.now family) }
        ensures on { Contains (slots_on self.now family result) slot }
    {
        self.families[family].list_holding(slot)
    }

    /// How many slots a list has.
    pub fn len_of(&self, family: usize, list: usize) -> usize
        requires family { family < K }
        requires list { list < length (lists_in self.now family) }
        ensures { result ≡ length (slots_on self.now family list) }
    {
        self.families[family].len_of(list)
    }

    /// The payload of a slot.
    pub fn get(&self, slot: u32) -> &T
        requires { slot < length self.now.payloads }
        ensures { Some result.now ≡ slice_get self.now.payloads slot }
    {
        &self.payloads[slot as usize]
    }

    /// The payload of a slot, to be changed in place.
    pub fn get_mut(&mut self, slot: u32) -> &mut T
        requires { slot < length self.old.payloads }
        ensures* writes_back { sem 𝓛 (Lends (the_row T.row K.row) T.row self.entry result (λ payload. with_payload slot payload self.old)) }
        ensures value { Some result.now ≡ slice_get self.old.payloads slot }
    {
        &mut self.payloads[slot as usize]
    }

    /// Gives a slot another payload.
    pub fn set(&mut self, slot: u32, payload: T)
        requires { slot < length self.old.payloads }
        ensures { self.new ≡ with_payload slot payload self.old }
    {
        self.payloads[slot as usize] = payload;
    }

    /// The law of the lists: in each family every slot is on exactly one list, and there once. The call does nothing;
    /// its contract is the law.
    pub fn partition(&self, family: usize)
        requires { family < K }
        ensures lists { IsPartition (length self.now.payloads) (lists_in self.now family) }
        ensures families { length self.now.families ≡ K }
        ensures limit { length self.now.payloads + self.now.reserved ≤ self.now.limit }
        ensures few { self.now.limit < 2 ^ 32 }
    {
        self.families[family].partition();
    }
}

/// Takes the memory for so many slots more in each family. None has room for fewer than before, also where it is refused.
fn reserve_all(families: &mut [Family], count: usize) -> Result<(), AllocError>
    ensures same { (f : ℕ) → but_room (family_at families.new f) ≡ but_room (family_at families.old f) }
    ensures room { (f : ℕ) → (family_at families.old f).room ≤ (family_at families.new f).room }
    ensures ok { OnOk result ((f : ℕ) → f < length families.old → count ≤ (family_at families.new f).room) }
{
    for family in families.iter_mut() {
        family.reserve(count)?;
    }
    Ok(())
}

/// Adds so many copies of the payload within the room that is there.
fn push_copies<T: Copy>(payloads: &mut Vec<T>, payload: T, count: u32)
    requires { vec_len payloads.old + count ≤ vec_capacity payloads.old }
    ensures items { payloads.new.items ≡ payloads.old.items ++ replicate count payload }
    ensures room { vec_capacity payloads.new ≡ vec_capacity payloads.old }
{
    for _ in 0..count {
        payloads.push_reserved(payload);
    }
}

/// Puts the slots from `first` on at the end of one list of each family, that of the number in `lists`.
fn add_to_all(families: &mut [Family], first: u32, count: u32, lists: &[usize])
    requires lists { length lists.now ≡ length families.old }
    requires few { first + count < 2 ^ 32 }
    requires ready { (f : ℕ) → f < length families.old → CanAddSlots first count (slice_index lists.now f) (family_at families.old f) }
    ensures { (f : ℕ) → f < length families.old → AddsSlots first count (slice_index lists.now f) (family_at families.old f) (family_at families.new f) }
{
    for f in 0..families.len() {
        families[f].add_slots(first, count, lists[f]);
    }
}
