//! The lists of a group in the arena that holds the tickets of all groups.

/// The list of the second and of the third family on which all slots without a cached ticket lie, of whatever group and of
/// none: the first of the family.
pub const UNCHAINED: usize = 0;

/// The numbers of one group's lists in each family of the arena: the first has its tickets by state, the second by cache
/// name, and the third by request context. Of chains it has the number of the first, on which the others follow.
#[derive(Clone, Copy, Debug)]
pub struct GroupLists {
    /// Slots that have no ticket.
    pub free: usize,
    /// Tickets that wait for a worker of the thread pool.
    pub queued: usize,
    /// Tickets whose run is under way and has not timed out.
    pub running: usize,
    /// All other tickets.
    pub settled: usize,
    /// Of the second family: chains of cached tickets, by request context and cache key.
    pub names: usize,
    /// Behind the last of these chains.
    pub names_end: usize,
    /// Of the third family: chains of cached tickets, by request context alone.
    pub contexts: usize,
    /// Behind the last of these chains.
    pub contexts_end: usize,
}
