//! What of a run is kept.

ghost use Rattle.std.specs.Prelude.{◌≡◌};
ghost use Rattle.std.specs.List.{list_any};
ghost use Rattle.std.specs.Str.{bytes_eq};
ghost use Rattle.bh_columns.specs.Layouts.{keeps};

use bh_base::{Moment, Text};
use std::alloc::Global;

/// The most columns that may be asked for.
pub const MOST_COLUMNS: u64 = 200;

/// What of a run is kept: of which groups, of which moments, and how fine.
#[derive(Drop)]
pub struct Selection {
    /// Only groups of these names, in whatever order; where there is none, all.
    pub groups: Vec<Text<32>>,
    /// Moments from this one on, in milliseconds.
    pub from: Moment,
    /// Moments before this one, in milliseconds.
    pub to: Moment,
    /// How many columns a chart may have: 2 to `MOST_COLUMNS`, and a number beyond counts as the nearer of these. Ten times
    /// as many are kept.
    pub columns: u64,
}

impl Selection {
    /// All groups at all moments before 2^64 - 1, in 80 columns.
    pub fn all(alloc: Global) -> Selection {
        Selection {
            groups: Vec::new(alloc),
            from: 0,
            to: u64::MAX,
            columns: 80,
        }
    }

    /// Whether groups of the name are kept.
    pub fn keeps_group(&self, name: &Text<32>) -> bool
        ensures { result ≡ keeps self.now name.now }
    {
        self.groups.len() == 0 || is_among(self.groups.as_slice(), name)
    }
}

/// Whether the name is one of these.
fn is_among(names: &[Text<32>], name: &Text<32>) -> bool
    ensures { result ≡ list_any (λ g. bytes_eq g name.now) names.now }
{
    for other in names {
        if *other == *name {
            return true;
        }
    }
    false
}
