//! How many allocations a call makes, where orders to refuse one are followed.

use bh_scripts::refusing::refuse;
use std::alloc::Global;

/// As many allocations as can be counted.
const MOST_COUNTED: u64 = 1_000_000;

/// Counts allocations from here on.
pub(crate) fn count_requests(alloc: Global) {
    refuse(alloc, MOST_COUNTED as usize);
}

/// How many allocations were made since then; 0 where no orders are followed.
pub(crate) fn requests_counted(alloc: Global) -> u64 {
    for left in 1..MOST_COUNTED {
        if Vec::<u8>::with_capacity(alloc, 1).is_err() {
            return MOST_COUNTED - left;
        }
    }
    0
}
