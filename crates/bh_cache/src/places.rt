//! How cache names and request contexts are spread over the chains of a group.
//!
//! Chains are a power of two, so that no look-up takes a division: of another number some would be left out.

ghost use Rattle.std.specs.Prelude.{◌≡◌, ◌<◌};
ghost use Rattle.bh_cache.specs.Places.{place_among, place_of_context};

use crate::names::{place_of_name, upper_half};
use bh_base::Text;

/// The place of a request context and a cache key among so many chains by name. The names of one context are spread over
/// all of them.
pub fn place_among(count: usize, context: u64, key: &Text<32>) -> usize
    requires { 0 < count }
    ensures { result ≡ place_among count (context, key.now) }
{
    place_of_name(context, key) & (count - 1)
}

/// The place of a request context among so many chains by context: neighbours lie far apart.
pub fn place_of_context(count: usize, context: u64) -> usize
    requires { 0 < count }
    ensures { result ≡ place_of_context count context }
{
    upper_half(context) & (count - 1)
}
