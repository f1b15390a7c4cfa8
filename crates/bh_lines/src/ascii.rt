//! Where the line in front ends, if it is ASCII: its bytes are looked at once, sixteen at a time.

ghost use Rattle.std.specs.Prelude.{◌≡◌, ◌<◌, ◌≤◌, length, map, IfSome};
ghost use Rattle.std.specs.List.{prefix_len};
ghost use Rattle.std.specs.Simd.Lanes.{mask_l};
ghost use Rattle.bh_lines.specs.Ascii.{IsAsciiEnd, is_mark, is_unmarked};

use crate::lines::LINE_LIMIT;
use std::simd::prelude::*;

/// The place of the first line feed, where only ASCII stands before it.
///
/// The first `LINE_LIMIT` bytes are looked at, in whole sixteens: nothing comes where the line ends behind these.
#[inline(always)]
pub(crate) fn ascii_end(bytes: &[u8]) -> Option<usize>
    ensures { IfSome result (λ feed. IsAsciiEnd bytes.now feed) }
{
    let mark = first_mark(bytes, bytes.len().min(LINE_LIMIT))?;
    if bytes[mark] != b'\n' {
        return None;
    }
    Some(mark)
}

/// The place of the first mark: a line feed, or a byte that is not ASCII.
///
/// So many bytes are looked at, as far as they make up whole sixteens.
#[inline(always)]
fn first_mark(bytes: &[u8], most: usize) -> Option<usize>
    requires { most ≤ length bytes.now }
    ensures value { IfSome result (λ mark. mark ≡ prefix_len is_unmarked bytes.now) }
    ensures within { IfSome result (λ mark. mark < most) }
{
    let mut place = 0;
    while most - place >= 16 {
        let marks = marks_in(u8x16::from_slice(&bytes[place..]));
        if marks != 0 {
            return Some(place + marks.trailing_zeros() as usize);
        }
        place += 16;
    }
    None
}

/// A bit for each of the bytes that is a mark.
#[inline(always)]
fn marks_in(bytes: u8x16) -> u64
    ensures { result ≡ mask_l (map is_mark bytes) }
{
    let feeds = bytes.simd_eq(u8x16::splat(b'\n'));
    let others = bytes.simd_ge(u8x16::splat(128));
    (feeds | others).to_bitmask()
}
