//! Which columns a chart has, and how wide they are.

ghost use Rattle.std.specs.Prelude.{◌≡◌, ◌*◌, ◌/◌, ◌+◌, ◌-◌, ◌<◌, ◌≤◌, ◌^◌, MatchOption};
ghost use Rattle.bh_columns.specs.Charts.{IsFitted, IsNarrowest, IsNarrowestOf, NoneFits, count_in};

use crate::grid::Grid;

/// So many powers of ten are so small that ten times as much is a number, too.
const POWERS: u32 = 19;

/// The columns of a chart: of those that are kept so many are one.
#[derive(Clone, Copy, Debug)]
pub struct Drawn {
    pub many: u64,
    /// The index of the first.
    pub first: u64,
    /// The index behind that of the last.
    pub end: u64,
}

impl Drawn {
    /// The narrowest columns of which there are at most so many, at least 2.
    pub fn of(grid: &Grid, columns: u64) -> Drawn
        requires { 2 ≤ columns }
        ensures { IsFitted grid.now.extent columns result.many result.first result.end }
    {
        let Some((least, greatest)) = grid.extent else {
            return Drawn {
                many: 1,
                first: 0,
                end: 0,
            };
        };
        let many = narrowest(least, greatest, columns);
        Drawn {
            many,
            first: least / many,
            end: (greatest / many).saturating_add(1),
        }
    }

    /// How many there are.
    pub fn count(&self) -> u64
        ensures { result ≡ self.now.end - self.now.first }
    {
        self.end.saturating_sub(self.first)
    }
}

/// The least of 1, 2 and 5 times the powers of ten with which there are at most so many columns, at least 2, where so many of
/// the columns from the least index to the greatest are one.
fn narrowest(least: u64, greatest: u64, columns: u64) -> u64
    requires { 2 ≤ columns }
    ensures narrowest { IsNarrowest (least, greatest) columns result }
    ensures some { 0 < result }
{
    let mut power = 1u64;
    for _ in 0..POWERS {
        match narrowest_of(least, greatest, columns, power) {
            Some(many) => return many,
            None => power *= 10,
        }
    }
    power
}

/// The same of 1, 2 and 5 times the power alone, if one suffices.
fn narrowest_of(least: u64, greatest: u64, columns: u64, power: u64) -> Option<u64>
    requires some { 0 < power }
    requires fits { 5 * power < 2 ^ 64 }
    ensures { MatchOption result (NoneFits (least, greatest) columns power) (IsNarrowestOf (least, greatest) columns power) }
{
    if count_in(least, greatest, power) <= columns {
        return Some(power);
    }
    let twice = 2 * power;
    if count_in(least, greatest, twice) <= columns {
        return Some(twice);
    }
    let five_times = 5 * power;
    if count_in(least, greatest, five_times) <= columns {
        return Some(five_times);
    }
    None
}

/// How many columns there are from the least index to the greatest, where so many are one.
fn count_in(least: u64, greatest: u64, many: u64) -> u64
    requires { 0 < many }
    ensures { result ≡ count_in (least, greatest) many }
{
    (greatest / many)
        .saturating_add(1)
        .saturating_sub(least / many)
}
