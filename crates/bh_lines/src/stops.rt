//! Where the plain bytes of a text stop: at a quote, a backslash or a control byte.
//!
//! There a text that is read ends or has an escape.

ghost use Rattle.std.specs.Prelude.{◌≡◌, ◌+◌, ◌<◌, ◌≤◌, length, drop, map, MatchOption, IfSome};
ghost use Rattle.std.specs.List.{prefix_len};
ghost use Rattle.std.specs.Simd.Lanes.{mask_l};
ghost use Rattle.json.specs.Run.{is_plain, is_stop};

use std::simd::prelude::*;

/// The place of the first stop from a place on, or the length where there is none.
///
/// Most texts end within the first sixteen bytes, so the look at these alone stands in the caller.
#[inline(always)]
pub(crate) fn plain_end(bytes: &[u8], from: usize) -> usize
    requires { from ≤ length bytes.now }
    ensures value { result ≡ from + prefix_len is_plain (drop from bytes.now) }
    ensures within { result ≤ length bytes.now }
{
    if bytes.len() - from < 16 {
        return plain_end_of_few(bytes, from);
    }
    match stop_among_sixteen(bytes, from) {
        Some(stop) => stop,
        None => plain_end_of_many(bytes, from + 16),
    }
}

/// The same for a long text: by sixteen while so many bytes are left, and then one by one.
#[inline(never)]
fn plain_end_of_many(bytes: &[u8], from: usize) -> usize
    requires { from ≤ length bytes.now }
    ensures value { result ≡ from + prefix_len is_plain (drop from bytes.now) }
    ensures within { result ≤ length bytes.now }
{
    let mut place = from;
    while bytes.len() - place >= 16 {
        if let Some(stop) = stop_among_sixteen(bytes, place) {
            return stop;
        }
        place += 16;
    }
    plain_end_of_few(bytes, place)
}

/// The same, where fewer than sixteen bytes are left: of sixteen bytes or more the last sixteen are looked at together.
fn plain_end_of_few(bytes: &[u8], from: usize) -> usize
    requires within { from ≤ length bytes.now }
    requires few { length bytes.now < from + 16 }
    ensures value { result ≡ from + prefix_len is_plain (drop from bytes.now) }
    ensures within { result ≤ length bytes.now }
{
    if bytes.len() < 16 {
        return plain_end_one_by_one(bytes, from);
    }
    let first = bytes.len() - 16;
    let stops = stops_in(u8x16::from_slice(&bytes[first..])) >> (from - first);
    if stops == 0 {
        return bytes.len();
    }
    from + stops.trailing_zeros() as usize
}

/// The same, one byte after the other.
fn plain_end_one_by_one(bytes: &[u8], from: usize) -> usize
    requires { from ≤ length bytes.now }
    ensures value { result ≡ from + prefix_len is_plain (drop from bytes.now) }
    ensures within { result ≤ length bytes.now }
{
    let mut end = from;
    while end < bytes.len() && !is_stop(bytes[end]) {
        end += 1;
    }
    end
}

/// The place of the first stop among the sixteen bytes at a place, which are looked at together.
#[inline(always)]
fn stop_among_sixteen(bytes: &[u8], place: usize) -> Option<usize>
    requires { place + 16 ≤ length bytes.now }
    ensures value { MatchOption result (prefix_len is_plain (drop place bytes.now) ≡ 16 + prefix_len is_plain (drop (place + 16) bytes.now)) (λ stop. stop ≡ place + prefix_len is_plain (drop place bytes.now)) }
    ensures within { IfSome result (λ stop. stop ≤ length bytes.now) }
{
    let stops = stops_in(u8x16::from_slice(&bytes[place..]));
    if stops == 0 {
        return None;
    }
    Some(place + stops.trailing_zeros() as usize)
}

/// A bit for each of the bytes that is a stop.
#[inline(always)]
fn stops_in(bytes: u8x16) -> u64
    ensures { result ≡ mask_l (map is_stop bytes) }
{
    let quotes = bytes.simd_eq(u8x16::splat(b'"'));
    let backslashes = bytes.simd_eq(u8x16::splat(b'\\'));
    let controls = bytes.simd_lt(u8x16::splat(b' '));
    (quotes | backslashes | controls).to_bitmask()
}

/// Whether the byte is a stop. Most are letters, which stand behind the backslash.
#[inline(always)]
fn is_stop(byte: u8) -> bool
    ensures { result ≡ is_stop byte }
{
    byte <= b'\\' && ((byte == b'"') | (byte == b'\\') | (byte < b' '))
}
