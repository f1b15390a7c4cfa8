//! Moments and spans of time in words.

ghost use Rattle.std.specs.Prelude.{◌≡◌, ◌+◌, ◌-◌, ◌*◌, ◌/◌, ◌%◌, ◌^◌, ◌<◌, ◌≤◌, ◌≢◌, min};

use crate::canvas::Canvas;
use std::alloc::AllocError;

/// How the moments of a picture are written.
#[derive(Clone, Copy)]
pub enum Clock {
    /// In milliseconds.
    Milliseconds,
    /// In seconds, rounded to so many milliseconds, 1, 10 or 100.
    Seconds(u64),
}

impl Clock {
    /// That of a picture over so many milliseconds, in columns of so many: seconds tell the columns apart, and have a
    /// decimal at least where they want one.
    pub(crate) fn of(span: u64, width: u64) -> Clock
        ensures short { span < 1000 → result ≡ Clock.Milliseconds }
        ensures tenths { 1000 ≤ span → width % 100 ≡ 0 → result ≡ Clock.Seconds 100 }
        ensures hundredths { 1000 ≤ span → width % 100 ≢ 0 → width % 10 ≡ 0 → result ≡ Clock.Seconds 10 }
        ensures thousandths { 1000 ≤ span → width % 10 ≢ 0 → result ≡ Clock.Seconds 1 }
    {
        if span < 1000 {
            Clock::Milliseconds
        } else if width % 100 == 0 {
            Clock::Seconds(100)
        } else if width % 10 == 0 {
            Clock::Seconds(10)
        } else {
            Clock::Seconds(1)
        }
    }

    /// Adds a moment, given in milliseconds.
    pub fn put(self, canvas: &mut Canvas, moment: u64) -> Result<(), AllocError> {
        match self {
            Clock::Milliseconds => put_milliseconds(canvas, moment),
            Clock::Seconds(step) => put_seconds(canvas, rounded(moment, step)),
        }
    }
}

/// The moment, rounded to a whole number of steps.
fn rounded(moment: u64, step: u64) -> u64
    ensures { 0 < step → result ≡ min (min (moment + step / 2) (2 ^ 64 - 1) / step * step) (2 ^ 64 - 1) }
{
    if step == 0 {
        return moment;
    }
    let steps = moment.saturating_add(step / 2) / step;
    steps.saturating_mul(step)
}

/// Adds a span of time: in milliseconds below a second, and else in seconds.
pub(crate) fn put_span(canvas: &mut Canvas, milliseconds: u64) -> Result<(), AllocError> {
    if milliseconds < 1000 {
        put_milliseconds(canvas, milliseconds)
    } else {
        put_seconds(canvas, milliseconds)
    }
}

/// Adds a number of milliseconds.
fn put_milliseconds(canvas: &mut Canvas, milliseconds: u64) -> Result<(), AllocError> {
    canvas.put_grouped(milliseconds)?;
    canvas.put(" ms")
}

/// Adds milliseconds as seconds, with the decimals that they have.
fn put_seconds(canvas: &mut Canvas, milliseconds: u64) -> Result<(), AllocError> {
    canvas.put_grouped(milliseconds / 1000)?;
    put_thousandths(canvas, milliseconds % 1000)?;
    canvas.put(" s")
}

/// Adds thousandths behind a point, without zeros at their end; nothing where there are none.
pub(crate) fn put_thousandths(canvas: &mut Canvas, thousandths: u64) -> Result<(), AllocError> {
    if thousandths == 0 {
        return Ok(());
    }
    canvas.put(".")?;
    canvas.put_number(thousandths / 100)?;
    if thousandths % 100 == 0 {
        return Ok(());
    }
    canvas.put_number(thousandths / 10 % 10)?;
    if thousandths % 10 == 0 {
        return Ok(());
    }
    canvas.put_number(thousandths % 10)
}
