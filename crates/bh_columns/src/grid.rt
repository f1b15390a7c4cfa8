//! How wide columns are, and which of them there are.

ghost use Rattle.std.specs.Prelude.{◌≡◌, ◌*◌, ◌/◌, ◌-◌, ◌+◌, ◌<◌, ◌≤◌, ℕ, Some, true, false};
ghost use Rattle.bh_columns.specs.Spans.{Fill, IsFill};
ghost use Rattle.bh_columns.specs.Tracks.{IsIn, IsReach, IsWithin, tenth};

use crate::track::{JOINED, Reach};
use bh_base::Moment;

/// How wide the columns of all tracks are, and from which index to which there are any.
#[derive(Clone, Copy, Debug)]
pub struct Grid {
    /// A power of ten, in milliseconds.
    pub width: u64,
    /// The least and the greatest index that there was, where there was one.
    pub extent: Option<(u64, u64)>,
    /// How many columns there may be, from the least index to the greatest.
    pub limit: u64,
    /// The index of a column in which moments lay that were taken in: those that follow mostly lie in it, too, and then
    /// nothing has to be divided.
    pub latest: u64,
    /// The moment at which that column begins.
    pub begin: Moment,
    /// A column has a moment.
    pub ghost some_width: { 0 < width },
    /// It is the column of the index.
    pub ghost begins: { begin ≡ latest * width },
}

impl Grid {
    /// Columns of a millisecond, of which there may be so many.
    pub fn new(limit: u64) -> Grid
        ensures { result.width ≡ 1 }
    {
        Grid {
            width: 1,
            extent: None,
            limit,
            latest: 0,
            begin: 0,
        }
    }

    /// The index of the column of the moment.
    pub fn index(&self, moment: Moment) -> u64
        ensures { result ≡ moment / self.now.width }
    {
        if self.is_latest(moment) {
            return self.latest;
        }
        moment / self.width
    }

    /// Whether the moment lies in the column whose beginning is known.
    fn is_latest(&self, moment: Moment) -> bool
        ensures { result ≡ true → (self.now.begin ≤ moment) × (moment < self.now.begin + self.now.width) }
    {
        self.begin <= moment && moment - self.begin < self.width
    }

    /// Where the time from one moment on and before another, which is later, lies.
    pub fn reach(&self, since: Moment, until: Moment) -> Reach
        ensures width { result.width ≡ self.now.width }
        ensures reach { since < until → IsReach result since until }
    {
        Reach {
            width: self.width,
            first: self.index(since),
            end: self.index(until.saturating_sub(1)).saturating_add(1),
        }
    }

    /// The extent with the columns of the indexes from the one to the other.
    fn extended(&self, first: u64, last: u64) -> (u64, u64)
        ensures covers { (index : ℕ) → IsIn self.now.extent index → IsIn (Some result) index }
        ensures first { first ≤ last → IsIn (Some result) first }
        ensures last { first ≤ last → IsIn (Some result) last }
    {
        match self.extent {
            Some((least, greatest)) => (least.min(first), greatest.max(last)),
            None => (first, last),
        }
    }

    /// Takes in the moments from the one to the other, if there are not too many columns then, and says whether it did.
    pub fn takes(&mut self, from: Moment, to: Moment) -> bool
        ensures width { self.new.width ≡ self.old.width }
        ensures within { (f : Fill) → IsWithin self.old.extent self.old.width f → IsWithin self.new.extent self.new.width f }
        ensures taken { result ≡ true → from ≤ to → IsIn self.new.extent (from / self.new.width) × IsIn self.new.extent (to / self.new.width) }
    {
        let (least, greatest) = self.extended(self.index(from), self.index(to));
        if greatest.saturating_sub(least) >= self.limit {
            return false;
        }
        self.take_in(from, to);
        true
    }

    /// Takes in the moments from the one to the other.
    pub fn take_in(&mut self, from: Moment, to: Moment)
        ensures width { self.new.width ≡ self.old.width }
        ensures within { (f : Fill) → IsWithin self.old.extent self.old.width f → IsWithin self.new.extent self.new.width f }
        ensures taken { from ≤ to → IsIn self.new.extent (from / self.new.width) × IsIn self.new.extent (to / self.new.width) }
    {
        let first = self.index(from);
        let last = self.index(to);
        let extent = self.extended(first, last);
        self.extent = Some(extent);
        self.latest = last;
        self.begin = last * self.width;
    }

    /// Makes columns ten times as wide, and says whether it did: it does not where no moment would lie behind the first.
    pub fn widen(&mut self) -> bool
        ensures wider { result ≡ true → self.new.width ≡ self.old.width * 10 }
        ensures same { result ≡ false → self.new ≡ self.old }
        ensures within { (f : Fill) → IsFill f → IsWithin self.old.extent self.old.width f → IsWithin self.new.extent self.new.width f }
    {
        let Some(width) = self.width.checked_mul(JOINED) else {
            return false;
        };
        self.latest = 0;
        self.begin = 0;
        self.width = width;
        self.extent = tenth(self.extent);
        true
    }
}

/// The extent where ten columns are one.
fn tenth(extent: Option<(u64, u64)>) -> Option<(u64, u64)>
    ensures { result ≡ tenth extent }
{
    match extent {
        Some((least, greatest)) => Some((least / JOINED, greatest / JOINED)),
        None => None,
    }
}
