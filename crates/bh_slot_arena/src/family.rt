//! One family of lists over the slots.

ghost use Rattle.std.specs.Prelude.{◌≡◌, ◌≢◌, ℕ, ◌+◌, ◌<◌, ◌≤◌, ◌^◌, List, [], ◌∷◌, ◌++◌, Contains, length, map, replicate, reverse, slice_get, IfOk, OnOk, OnErr, Some, vec_len, vec_capacity};
ghost use Rattle.std.specs.List.{range_with_len};
ghost use Rattle.bh_index_lists.specs.Lists.{list_of, no_list, without};
ghost use Rattle.bh_slot_arena.specs.Lists.{IsPartition, appended, list_at, moved, put_last};
ghost use Rattle.bh_slot_arena.specs.Family.{AddsSlots, CanAddSlots, but_room, no_lists};
ghost use Rattle.bh_slot_arena.specs.Nodes.{AreLinked, links_of};

use crate::nodes::{Node, push_back, set_number, unlink};
use bh_index_lists::{Link, ListHead};
use std::alloc::{AllocError, Global};
use std::marker::Model;

/// The lists of a family, by number: each slot is on exactly one of them.
#[derive(Drop)]
pub struct Family {
    /// The neighbours of each slot, and the number of its list.
    nodes: Vec<Node>,
    heads: Vec<ListHead>,
}

impl Model for Family {
    ghost use Rattle.bh_slot_arena.specs.Family.{FamilyView};

    ghost Value = { FamilyView };

    ghost use Rattle.bh_slot_arena.specs.Fields.{family_of, IsFamily};

    ghost view = { family_of };

    ghost invariant = { IsFamily };
}

impl Family {
    /// No list and no slot.
    pub fn new(alloc: Global) -> Self
        ensures { but_room result ≡ no_lists }
    {
        Family {
            nodes: Vec::new(alloc),
            heads: Vec::new(alloc),
        }
    }

    /// Adds empty lists, and answers the number of the first.
    pub fn add_lists(&mut self, count: usize) -> Result<usize, AllocError>
        ensures first { IfOk result (λ n. n ≡ length self.old.lists) }
        ensures few { IfOk result (λ n. n + count < 2 ^ 64) }
        ensures slots { self.new.slots ≡ self.old.slots }
        ensures room { self.new.room ≡ self.old.room }
        ensures ok { OnOk result (self.new.lists ≡ self.old.lists ++ replicate count []) }
        ensures err { OnErr result (self.new.lists ≡ self.old.lists) }
    {
        let first = self.heads.len();
        add_heads(&mut self.heads, count)?;
        Ok(first)
    }

    /// Takes the memory for so many slots more.
    pub fn reserve(&mut self, count: usize) -> Result<(), AllocError>
        ensures same { but_room self.new ≡ but_room self.old }
        ensures room { self.old.room ≤ self.new.room }
        ensures ok { OnOk result (count ≤ self.new.room) }
    {
        self.nodes.reserve(count)
    }

    /// Puts so many new slots, from the number `first` on, at the end of a list.
    pub fn add_slots(&mut self, first: u32, count: u32, list: usize)
        requires ready { CanAddSlots first count list self.old }
        requires few { first + count < 2 ^ 32 }
        ensures { AddsSlots first count list self.old self.new }
    {
        put_slots(&mut self.nodes, &mut self.heads, first, count, list);
    }

    /// Takes a slot off its list, and puts it last on the list `to`.
    pub fn move_to_back(&mut self, slot: u32, to: usize)
        requires slot { slot < self.old.slots }
        requires list { to < length self.old.lists }
        ensures slots { self.new.slots ≡ self.old.slots }
        ensures room { self.new.room ≡ self.old.room }
        ensures lists { self.new.lists ≡ moved slot to self.old.lists }
    {
        move_slot(&mut self.nodes, &mut self.heads, slot, to);
    }

    /// Puts the slots of the list `from` at the end of another, in their order.
    pub fn append(&mut self, from: usize, to: usize)
        requires from { from < length self.old.lists }
        requires to { to < length self.old.lists }
        requires differ { from ≢ to }
        ensures slots { self.new.slots ≡ self.old.slots }
        ensures room { self.new.room ≡ self.old.room }
        ensures lists { self.new.lists ≡ appended from to self.old.lists }
    {
        for _ in 0..self.len_of(from) {
            self.move_front(from, to);
        }
    }

    /// Puts the first slot of the list `from`, which has one, at the end of another.
    fn move_front(&mut self, from: usize, to: usize)
        requires from { from < length self.old.lists }
        requires to { to < length self.old.lists }
        requires some { 0 < length (list_at self.old.lists from) }
        ensures slots { self.new.slots ≡ self.old.slots }
        ensures room { self.new.room ≡ self.old.room }
        ensures lists { (x : ℕ) → slice_get (list_at self.old.lists from) 0 ≡ Some x → self.new.lists ≡ moved x to self.old.lists }
        ensures parted { IsPartition self.old.slots self.old.lists }
    {
        self.partition();
        if let Some(slot) = self.front(from) {
            self.move_to_back(slot, to);
        }
    }

    /// The first slot of a list.
    pub fn front(&self, list: usize) -> Option<u32>
        requires { list < length self.now.lists }
        ensures { result ≡ slice_get (list_at self.now.lists list) 0 }
    {
        self.heads[list].first
    }

    /// The slot behind a slot in its list.
    pub fn next(&self, slot: u32) -> Option<u32>
        requires { slot < self.now.slots }
        ensures { (l k : ℕ) → slice_get (list_at self.now.lists l) k ≡ Some slot → result ≡ slice_get (list_at self.now.lists l) (k + 1) }
    {
        self.nodes[slot as usize].link.next
    }

    /// The last slot of a list.
    pub fn back(&self, list: usize) -> Option<u32>
        requires { list < length self.now.lists }
        ensures { result ≡ slice_get (reverse (list_at self.now.lists list)) 0 }
    {
        self.heads[list].last
    }

    /// The slot before a slot in its list.
    pub fn previous(&self, slot: u32) -> Option<u32>
        requires { slot < self.now.slots }
        ensures { (l k : ℕ) → slice_get (reverse (list_at self.now.lists l)) k ≡ Some slot → result ≡ slice_get (reverse (list_at self.now.lists l)) (k + 1) }
    {
        self.nodes[slot as usize].link.prev
    }

    /// The number of the list that a slot is on.
    pub fn list_holding(&self, slot: u32) -> usize
        requires { slot < self.now.slots }
        ensures there { result < length self.now.lists }
        ensures on { Contains (list_at self.now.lists result) slot }
    {
        self.nodes[slot as usize].list
    }

    /// How many slots a list has.
    pub fn len_of(&self, list: usize) -> usize
        requires { list < length self.now.lists }
        ensures { result ≡ length (list_at self.now.lists list) }
    {
        self.heads[list].len
    }

    /// The lists part the slots among them.
    pub fn partition(&self)
        ensures { IsPartition self.now.slots self.now.lists }
    {
        let _ = &self.nodes;
    }
}

/// Adds empty lists.
fn add_heads(heads: &mut Vec<ListHead>, count: usize) -> Result<(), AllocError>
    ensures ok { OnOk result (heads.new.items ≡ heads.old.items ++ replicate count no_list) }
    ensures err { OnErr result (heads.new.items ≡ heads.old.items) }
{
    heads.reserve(count)?;
    for _ in 0..count {
        heads.push_reserved(ListHead::default());
    }
    Ok(())
}

/// Puts so many new slots, from the number `first` on, at the end of a list.
fn put_slots(nodes: &mut Vec<Node>, heads: &mut [ListHead], first: u32, count: u32, list: usize)
    requires sound { AreLinked nodes.old.items heads.old }
    requires first { length nodes.old.items ≡ first }
    requires few { first + count < 2 ^ 32 }
    requires list { list < length heads.old }
    requires room { vec_len nodes.old + count ≤ vec_capacity nodes.old }
    ensures sound { AreLinked nodes.new.items heads.new }
    ensures slots { length nodes.new.items ≡ first + count }
    ensures room { vec_capacity nodes.new ≡ vec_capacity nodes.old }
    ensures lists { map (list_of (links_of nodes.new.items)) heads.new ≡ put_last (range_with_len first count) list (map (list_of (links_of nodes.old.items)) heads.old) }
{
    for slot in first..first + count {
        put_slot(nodes, heads, slot, list);
    }
}

/// Puts a new slot at the end of a list.
fn put_slot(nodes: &mut Vec<Node>, heads: &mut [ListHead], slot: u32, list: usize)
    requires sound { AreLinked nodes.old.items heads.old }
    requires slot { length nodes.old.items ≡ slot }
    requires few { slot + 1 < 2 ^ 32 }
    requires list { list < length heads.old }
    requires room { vec_len nodes.old < vec_capacity nodes.old }
    ensures sound { AreLinked nodes.new.items heads.new }
    ensures slots { length nodes.new.items ≡ slot + 1 }
    ensures room { vec_capacity nodes.new ≡ vec_capacity nodes.old }
    ensures lists { map (list_of (links_of nodes.new.items)) heads.new ≡ put_last (slot ∷ []) list (map (list_of (links_of nodes.old.items)) heads.old) }
{
    nodes.push_reserved(Node {
        link: Link::default(),
        list,
    });
    push_back(nodes, &mut heads[list], slot);
}

/// Takes a slot off its list, and puts it last on the list `to`.
fn move_slot(nodes: &mut [Node], heads: &mut [ListHead], slot: u32, to: usize)
    requires sound { AreLinked nodes.old heads.old }
    requires slot { slot < length nodes.old }
    requires list { to < length heads.old }
    ensures sound { AreLinked nodes.new heads.new }
    ensures lists { map (list_of (links_of nodes.new)) heads.new ≡ moved slot to (map (list_of (links_of nodes.old)) heads.old) }
{
    let from = nodes[slot as usize].list;
    unlink(nodes, &mut heads[from], slot);
    push_back(nodes, &mut heads[to], slot);
    set_number(nodes, slot, to);
}
