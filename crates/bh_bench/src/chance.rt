//! Chance that is the same for the same seed.

ghost use Rattle.std.specs.Prelude.{◌<◌, ◌≤◌, ◌^◌};

use rand_core::{Rng, SeedableRng};
use rand_xoshiro::Xoshiro256PlusPlus;

/// Numbers by chance.
#[derive(Drop)]
pub struct Chance {
    source: Xoshiro256PlusPlus,
}

impl Chance {
    /// The numbers that the seed gives.
    pub(crate) fn new(seed: u64) -> Chance {
        Chance {
            source: Xoshiro256PlusPlus::seed_from_u64(seed),
        }
    }

    /// A number below the limit.
    pub(crate) fn below(&mut self, limit: u64) -> u64
        requires some { 0 < limit }
        ensures { result < limit }
    {
        self.source.next_u64() % limit
    }

    /// One of the items, or the blank where there is none.
    pub(crate) fn one_of<T: Copy>(&mut self, items: &[T], blank: T) -> T {
        let place = self.source.next_u64() % (items.len() as u64).max(1);
        items.get(place as usize).copied().unwrap_or(blank)
    }
}
