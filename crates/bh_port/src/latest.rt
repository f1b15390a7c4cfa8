//! A short way from a name to a number, in front of the map that has all names.

ghost use Rattle.std.specs.Prelude.{◌≡◌, ◌<◌, length, IfOk, slice_set};
ghost use Rattle.bh_port.specs.Latest.{latest_at, no_numbers, noted, place_of};

use std::alloc::{AllocError, Global};
use std::hash::{FoldHasher, Hasher};
use std::marker::Model;

/// So many places there are for the numbers of names.
const PLACES: usize = 4096;

/// Stands where no number was noted, and for each that is no lower.
const UNKNOWN: u16 = u16::MAX;

/// At the place that each name has by its hash, the number that was noted last for a name of that place: eight kilobytes, which
/// the processor has at hand where the map and its keys would have to be waited for.
#[derive(Drop)]
pub(crate) struct LatestNumbers {
    numbers: Vec<u16>,
}

impl Model for LatestNumbers {
    ghost use Rattle.std.specs.Prelude.{◌≡◌, ℕ, List, length};

    ghost Value = { List ℕ };

    ghost view = { λ latest. latest.numbers.items };

    ghost invariant = { λ latest. length latest.numbers.items ≡ 4096 };
}

impl LatestNumbers {
    /// Nothing was noted. It fails only for want of memory.
    pub(crate) fn new(alloc: Global) -> Result<LatestNumbers, AllocError>
        ensures { IfOk result (λ latest. latest ≡ no_numbers) }
    {
        Ok(LatestNumbers {
            numbers: vec![in alloc; UNKNOWN; PLACES]?,
        })
    }

    /// Notes the number at the name's place.
    pub(crate) fn note(&mut self, name: &str, number: u64)
        ensures noted { self.new ≡ slice_set self.old (place_of name.now) (noted number) }
        ensures within { place_of name.now < length self.old }
    {
        self.numbers[place_of(name)] = if number < u64::from(UNKNOWN) {
            number as u16
        } else {
            UNKNOWN
        };
    }

    /// The number that was noted last at the name's place. None where nothing was noted there, or a number that is too high.
    pub(crate) fn number(&self, name: &str) -> Option<u64>
        ensures { result ≡ latest_at self.now name.now }
    {
        let number = self.numbers[place_of(name)];
        if number == UNKNOWN {
            None
        } else {
            Some(u64::from(number))
        }
    }
}

/// The place of the name, by its hash.
fn place_of(name: &str) -> usize
    ensures { result ≡ place_of name.now }
{
    let mut hasher = FoldHasher::default();
    hasher.write(name.as_bytes());
    hasher.finish() as usize % PLACES
}
