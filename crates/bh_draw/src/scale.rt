//! Lengths in tenths of a pixel, from numbers and moments.

ghost use Rattle.std.specs.Prelude.{◌≡◌, ◌+◌, ◌*◌, ◌/◌, ◌^◌, ◌<◌, ◌≤◌};
ghost use Rattle.bh_draw.specs.Lengths.{drawn_height, rounded_part};

/// Wholes from here on are divided before they are multiplied.
const LARGE: u64 = 1 << 48;

/// By so much.
const SHRINK: u64 = 1 << 16;

/// That part of the length which `part` is of `whole`, rounded to the nearest; all of it where `part` is more. The length
/// is below 2^14.
#[tactic(auto, using(crate::proofs::Lengths::part_within, crate::proofs::Lengths::part_fits, crate::proofs::Lengths::part_nothing))]
pub(crate) fn share(part: u64, whole: u64, length: u64) -> u64
    ensures none { part ≡ 0 → result ≡ 0 }
    ensures all { 0 < whole → whole ≤ part → result ≡ length }
    ensures rounded { part < whole → whole < 2 ^ 48 → length < 2 ^ 14 → result ≡ (part * length + whole / 2) / whole }
    ensures within { result ≤ length }
{
    if whole == 0 {
        return 0;
    }
    if part >= whole {
        return length;
    }
    if whole < LARGE {
        rounded_share(part, whole, length)
    } else {
        rounded_share(part / SHRINK, whole / SHRINK, length)
    }
}

/// The same where the product fits.
fn rounded_share(part: u64, whole: u64, length: u64) -> u64
    ensures { result ≡ rounded_part part whole length }
{
    if whole == 0 {
        return 0;
    }
    part.saturating_mul(length).saturating_add(whole / 2) / whole
}

/// How high a number is drawn: `most` of them are `height` high.
#[derive(Clone, Copy)]
pub(crate) struct Scale {
    pub most: u64,
    pub height: u64,
}

impl Scale {
    /// The height of so many, and `least` where that would be less and there are any.
    pub(crate) fn height_of(self, number: u64, least: u64) -> u64
        ensures { result ≡ drawn_height self number least }
    {
        if number == 0 {
            return 0;
        }
        rounded_share(number, self.most, self.height).max(least)
    }
}

/// The one scale for two stacks at a line: with `most` above within the height `up`, and with `worst` below within `down`.
pub(crate) fn common_scale(most: u64, up: u64, worst: u64, down: u64) -> Scale
    ensures above { most < 2 ^ 48 → worst < 2 ^ 48 → up < 2 ^ 14 → down < 2 ^ 14 → result.height * most ≤ up * result.most }
    ensures below { most < 2 ^ 48 → worst < 2 ^ 48 → up < 2 ^ 14 → down < 2 ^ 14 → result.height * worst ≤ down * result.most }
{
    let most = most.max(1);
    if up.saturating_mul(worst) <= down.saturating_mul(most) {
        return Scale { most, height: up };
    }
    Scale {
        most: worst.max(1),
        height: down,
    }
}
