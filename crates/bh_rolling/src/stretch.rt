//! The stretch of moments that one bucket counts.

ghost use Rattle.std.specs.Prelude.{◌≡◌, ◌<◌, ◌≤◌};
ghost use Rattle.bh_rolling.specs.Stretches.{stretch_at, IsStretchOf};

use bh_base::{Moment, Window};

/// A stretch of moments: those of one bucket of a window.
#[derive(Clone, Copy, Debug)]
pub struct Stretch {
    /// The number of the bucket: each of the moments divided by the width.
    pub number: u64,
    /// The first of the moments.
    pub begin: Moment,
    /// The place of the bucket: its number modulo how many there are.
    pub place: usize,
}

impl Stretch {
    /// The stretch that the moment lies in.
    pub fn at(window: &Window, moment: Moment) -> Stretch
        requires buckets { 0 < window.now.buckets }
        requires width { 0 < window.now.width }
        ensures { result ≡ stretch_at window.now moment }
    {
        let number = moment / window.width;
        Stretch {
            number,
            begin: number * window.width,
            place: (number % window.buckets) as usize,
        }
    }

    /// The stretch of the moment, which is no earlier than this stretch. Most often that is the same one, and it takes no
    /// division to see it.
    pub fn later(self, window: &Window, moment: Moment) -> Stretch
        requires buckets { 0 < window.now.buckets }
        requires width { 0 < window.now.width }
        requires one { IsStretchOf window.now self }
        requires later { self.begin ≤ moment }
        ensures { result ≡ stretch_at window.now moment }
    {
        if moment - self.begin < window.width {
            self
        } else {
            Stretch::at(window, moment)
        }
    }
}
