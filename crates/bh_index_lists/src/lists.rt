//! A place put on a list, and taken off it, in a fixed number of steps and without memory.

ghost use Rattle.std.specs.Prelude.{◌≡◌, ℕ, ◌<◌, length, [], ◌∷◌, ◌++◌, Contains, IfSome, slice_get, drop};
ghost use Rattle.bh_index_lists.specs.Lists.{IsList, link_at, list_of, no_link, without};
ghost use Rattle.bh_index_lists.specs.Ties.{IsWithin, tied, tied_ends};

/// The neighbours of a place in its list; a place that is on no list has none.
#[derive(Clone, Copy, Debug, Default, PartialEq, Eq)]
pub struct Link {
    /// The place before it; None at the first place.
    pub prev: Option<u32>,
    /// The place behind it; None at the last place.
    pub next: Option<u32>,
}

/// The ends of a list, and how many places it has. The default is the empty list.
#[derive(Clone, Copy, Debug, Default, PartialEq, Eq)]
pub struct ListHead {
    /// The first place; None of the empty list.
    pub first: Option<u32>,
    /// The last place; None of the empty list.
    pub last: Option<u32>,
    /// How many places there are.
    pub len: usize,
}

/// Puts a place that is not on the list at its end.
pub fn push_back(links: &mut [Link], head: &mut ListHead, place: u32)
    requires list { IsList links.old head.old }
    requires within { place < length links.old }
    requires apart { ¬ (Contains (list_of links.old head.old) place) }
    ensures list { IsList links.new head.new }
    ensures added { list_of links.new head.new ≡ list_of links.old head.old ++ place ∷ [] }
    ensures outside { (x : ℕ) → ¬ (Contains (list_of links.new head.new) x) → link_at links.new x ≡ link_at links.old x }
{
    tie(links, head, head.last, Some(place));
    tie(links, head, Some(place), None);
    head.len += 1;
}

/// Takes the first place off the list, and answers it; None, and nothing changed, where the list is empty.
pub fn pop_front(links: &mut [Link], head: &mut ListHead) -> Option<u32>
    requires { IsList links.old head.old }
    ensures first { result ≡ slice_get (list_of links.old head.old) 0 }
    ensures list { IsList links.new head.new }
    ensures rest { list_of links.new head.new ≡ drop 1 (list_of links.old head.old) }
    ensures cleared { IfSome result (λ place. link_at links.new place ≡ no_link) }
    ensures outside { (x : ℕ) → ¬ (Contains (list_of links.old head.old) x) → link_at links.new x ≡ link_at links.old x }
{
    let place = head.first?;
    unlink(links, head, place);
    Some(place)
}

/// Takes a place of the list off it.
pub fn unlink(links: &mut [Link], head: &mut ListHead, place: u32)
    requires list { IsList links.old head.old }
    requires there { Contains (list_of links.old head.old) place }
    ensures list { IsList links.new head.new }
    ensures taken { list_of links.new head.new ≡ without place (list_of links.old head.old) }
    ensures cleared { link_at links.new place ≡ no_link }
    ensures outside { (x : ℕ) → ¬ (Contains (list_of links.old head.old) x) → link_at links.new x ≡ link_at links.old x }
{
    let link = links[place as usize];
    tie(links, head, link.prev, link.next);
    links[place as usize] = Link::default();
    head.len -= 1;
}

/// Makes `after` the place that follows `before`; the list begins with `after` where `before` is None, and ends with
/// `before` where `after` is None.
fn tie(links: &mut [Link], head: &mut ListHead, before: Option<u32>, after: Option<u32>)
    requires before { IsWithin links.old before }
    requires after { IsWithin links.old after }
    ensures links { links.new ≡ tied before after links.old }
    ensures head { head.new ≡ tied_ends before after head.old }
{
    match before {
        Some(place) => links[place as usize].next = after,
        None => head.first = after,
    }
    match after {
        Some(place) => links[place as usize].prev = before,
        None => head.last = before,
    }
}
