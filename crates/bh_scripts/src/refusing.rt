//! Allocations that are refused on order.
//!
//! A test cannot refuse memory by itself. `bench/refuse.c` can: loaded before the C library, it takes a request for more
//! bytes than any machine has as an order to refuse an allocation that follows. Where it is not loaded, such a request
//! is refused like any other, nothing follows from it, and a test shows that its call succeeds at once.

use std::alloc::Global;

/// A request for so many bytes and N more is an order to refuse the Nth allocation behind it.
const ORDER: usize = 1 << 62;

/// No call of a test makes as many allocations.
pub const MANY: usize = 10_000;

/// Whether so many bytes are given. They are given back at once.
fn is_given(alloc: Global, bytes: usize) -> bool {
    Vec::<u8>::with_capacity(alloc, bytes).is_ok()
}

/// Orders that the nth allocation from here on be refused.
pub fn refuse(alloc: Global, nth: usize) {
    let _refused = is_given(alloc, ORDER.saturating_add(nth));
}

/// Whether orders are followed at all.
fn follows_orders(alloc: Global) -> bool {
    refuse(alloc, 1);
    !is_given(alloc, 1)
}

/// Whether the order for the nth allocation still stands. It is carried out then.
fn still_stands(alloc: Global, nth: usize) -> bool {
    (0..nth).any(|_| !is_given(alloc, 1))
}

/// Whether no allocation was refused in a call whose nth was to be.
pub fn none_refused(alloc: Global, nth: usize) -> bool {
    still_stands(alloc, nth) || !follows_orders(alloc)
}
