//! What the tests assert.

use std::alloc::AllocError;
use std::process::Abort;

/// Asserts that the text was made, and is the other.
pub(crate) fn assert_text<R: Abort>(
    rt: &R,
    told: Result<String, AllocError>,
    want: &str,
    at: &str,
) {
    let told = told.expect(rt, "memory");
    assert_eq!(rt; told.as_str(), want, "at {at}");
}
