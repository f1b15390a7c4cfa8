//! What is asserted of a call one of whose allocations was to be refused.

use bh_scripts::refusing::{MANY, none_refused};
use std::process::Abort;

/// Asserts that a call whose nth allocation was to be refused succeeded exactly where no allocation was refused in it:
/// that no refusal is passed over, and no want of memory made up.
pub(crate) fn assert_told<R: Abort + AllocGlobal>(rt: &R, nth: usize, success: bool) {
    assert_eq!(rt; success, none_refused(rt.alloc(), nth), "allocation {nth}");
}

/// Ends a test whose call did not succeed in that many turns.
pub(crate) fn give_up(rt: &impl Abort) {
    assert!(rt; false, "no success with {MANY} allocations");
}
