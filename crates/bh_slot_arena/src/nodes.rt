//! What is kept of each slot in a family, and how a slot is put on a list and taken off it.

ghost use Rattle.std.specs.Prelude.{◌≡◌, ℕ, ◌<◌, length, [], ◌∷◌, ◌++◌, Contains, Option, slice_set};
ghost use Rattle.bh_index_lists.specs.Lists.{IsList, link_at, list_of, without};
ghost use Rattle.bh_index_lists.specs.Ties.{IsWithin, tied, tied_ends};
ghost use Rattle.bh_slot_arena.specs.Nodes.{links_of, numbers_of};

use bh_index_lists::{Link, ListHead};

/// The neighbours of a slot, and the number of its list. They lie beside one another, since a move needs both.
#[derive(Clone, Copy)]
pub struct Node {
    pub link: Link,
    pub list: usize,
}

/// Puts a slot that is not on the list at its end. The slots' list numbers stay.
pub fn push_back(nodes: &mut [Node], head: &mut ListHead, slot: u32)
    requires list { IsList (links_of nodes.old) head.old }
    requires within { slot < length nodes.old }
    requires apart { ¬ (Contains (list_of (links_of nodes.old) head.old) slot) }
    ensures list { IsList (links_of nodes.new) head.new }
    ensures added { list_of (links_of nodes.new) head.new ≡ list_of (links_of nodes.old) head.old ++ slot ∷ [] }
    ensures outside { (x : ℕ) → ¬ (Contains (list_of (links_of nodes.new) head.new) x) → link_at (links_of nodes.new) x ≡ link_at (links_of nodes.old) x }
    ensures numbers { numbers_of nodes.new ≡ numbers_of nodes.old }
{
    tie(nodes, head, head.last, Some(slot));
    tie(nodes, head, Some(slot), None);
    head.len += 1;
}

/// Takes a slot of the list off it. The slots' list numbers stay.
pub fn unlink(nodes: &mut [Node], head: &mut ListHead, slot: u32)
    requires list { IsList (links_of nodes.old) head.old }
    requires there { Contains (list_of (links_of nodes.old) head.old) slot }
    ensures list { IsList (links_of nodes.new) head.new }
    ensures taken { list_of (links_of nodes.new) head.new ≡ without slot (list_of (links_of nodes.old) head.old) }
    ensures outside { (x : ℕ) → ¬ (Contains (list_of (links_of nodes.old) head.old) x) → link_at (links_of nodes.new) x ≡ link_at (links_of nodes.old) x }
    ensures numbers { numbers_of nodes.new ≡ numbers_of nodes.old }
{
    let link = nodes[slot as usize].link;
    tie(nodes, head, link.prev, link.next);
    set_link(nodes, slot, Link::default());
    head.len -= 1;
}

/// Makes `after` the slot that follows `before`; the list begins with `after` where `before` is None, and ends with
/// `before` where `after` is None.
fn tie(nodes: &mut [Node], head: &mut ListHead, before: Option<u32>, after: Option<u32>)
    requires before { IsWithin (links_of nodes.old) before }
    requires after { IsWithin (links_of nodes.old) after }
    ensures links { links_of nodes.new ≡ tied before after (links_of nodes.old) }
    ensures numbers { numbers_of nodes.new ≡ numbers_of nodes.old }
    ensures head { head.new ≡ tied_ends before after head.old }
{
    match before {
        Some(slot) => set_next(nodes, slot, after),
        None => head.first = after,
    }
    match after {
        Some(slot) => set_prev(nodes, slot, before),
        None => head.last = before,
    }
}

/// What follows a slot is written.
fn set_next(nodes: &mut [Node], slot: u32, next: Option<u32>)
    requires { slot < length nodes.old }
    ensures links { links_of nodes.new ≡ slice_set (links_of nodes.old) slot (record { prev = (link_at (links_of nodes.old) slot).prev; next = next }) }
    ensures numbers { numbers_of nodes.new ≡ numbers_of nodes.old }
{
    let prev = nodes[slot as usize].link.prev;
    set_link(nodes, slot, Link { prev, next });
}

/// What goes before a slot is written.
fn set_prev(nodes: &mut [Node], slot: u32, prev: Option<u32>)
    requires { slot < length nodes.old }
    ensures links { links_of nodes.new ≡ slice_set (links_of nodes.old) slot (record { prev = prev; next = (link_at (links_of nodes.old) slot).next }) }
    ensures numbers { numbers_of nodes.new ≡ numbers_of nodes.old }
{
    let next = nodes[slot as usize].link.next;
    set_link(nodes, slot, Link { prev, next });
}

/// The neighbours of a slot are written.
fn set_link(nodes: &mut [Node], slot: u32, link: Link)
    requires { slot < length nodes.old }
    ensures links { links_of nodes.new ≡ slice_set (links_of nodes.old) slot link }
    ensures numbers { numbers_of nodes.new ≡ numbers_of nodes.old }
{
    nodes[slot as usize].link = link;
}

/// The number of a slot's list is written.
pub fn set_number(nodes: &mut [Node], slot: u32, list: usize)
    requires { slot < length nodes.old }
    ensures links { links_of nodes.new ≡ links_of nodes.old }
    ensures numbers { numbers_of nodes.new ≡ slice_set (numbers_of nodes.old) slot list }
{
    nodes[slot as usize].list = list;
}
