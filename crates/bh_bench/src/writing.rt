//! Texts that a workload makes for itself.

use itoa::Buffer;
use std::alloc::AllocError;

/// Puts a text behind the bytes.
pub(crate) fn put(out: &mut Vec<u8>, text: &str) -> Result<(), AllocError> {
    out.extend_from_slice(text.as_bytes())
}

/// Puts the digits of a number behind the bytes.
pub(crate) fn put_number(out: &mut Vec<u8>, number: u64) -> Result<(), AllocError> {
    let mut buffer = Buffer::new();
    out.extend_from_slice(buffer.format(number).as_bytes())
}

/// Puts a text behind the bytes, and a number behind it.
pub(crate) fn put_numbered(out: &mut Vec<u8>, text: &str, number: u64) -> Result<(), AllocError> {
    put(out, text)?;
    put_number(out, number)
}
