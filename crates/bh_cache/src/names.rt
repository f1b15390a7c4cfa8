//! How request contexts and cache names are spread.

ghost use Rattle.std.specs.Prelude.{◌≡◌, ◌<◌, ◌^◌};
ghost use Rattle.bh_cache.specs.Names.{place_of_name, upper_half};

use bh_base::Text;

/// An odd multiplier that carries each byte upwards (FNV).
const BYTE_SPREAD: u64 = 1099511628211;

/// An odd multiplier near 2^64 divided by the golden ratio, which brings neighbours far apart (Knuth).
const HALF_SPREAD: u64 = 11400714819323198485;

/// The place of a request context and a cache key, among 2^32.
pub fn place_of_name(context: u64, key: &Text<32>) -> usize
    ensures { result ≡ place_of_name (context, key.now) }
{
    let mut hash = context;
    for byte in key.as_str().as_bytes() {
        hash = hash
            .wrapping_add(u64::from(*byte))
            .wrapping_mul(BYTE_SPREAD);
    }
    upper_half(hash)
}

/// The upper half of a number that is folded and spread: neighbours get halves that are far apart.
pub(crate) fn upper_half(number: u64) -> usize
    ensures half { result ≡ upper_half number }
    ensures few { result < 2 ^ 32 }
{
    let folded = number.wrapping_add(number >> 32);
    (folded.wrapping_mul(HALF_SPREAD) >> 32) as usize
}
