//! Where moments stand from left to right, and the marks that tell them.

ghost use Rattle.std.specs.Prelude.{◌≡◌, ◌+◌, ◌-◌, ◌*◌, ◌/◌, ◌^◌, ◌<◌, ◌≤◌, min, vec_len, ℕ, IfOk};

use crate::canvas::{Canvas, PIXEL, Path};
use crate::scale::share;
use crate::time::Clock;
use std::alloc::{AllocError, Global};

/// The left end of all columns.
pub(crate) const LEFT: u64 = 40 * PIXEL;

/// How wide they are together.
pub(crate) const PLOT: u64 = 936 * PIXEL;

/// Texts lie between these ends.
const FIRST: u64 = 4 * PIXEL;

const LAST: u64 = 996 * PIXEL;

/// A bar is so wide at most.
const WIDEST: u64 = 80 * PIXEL;

/// A letter of the smallest text is about so wide, in tenths of a pixel.
pub(crate) const LETTER: u64 = 65;

/// The columns: the moment at which the first begins, how many milliseconds each has, and how many there are, of which
/// there is one at least.
#[derive(Clone, Copy)]
pub(crate) struct Axis {
    pub begin: u64,
    pub width: u64,
    pub count: u64,
}

impl Axis {
    /// How many milliseconds it has.
    fn span(self) -> u64
        ensures { result ≡ min (self.width * self.count) (2 ^ 64 - 1) }
    {
        self.width.saturating_mul(self.count)
    }

    /// The moment at which the last column ends.
    pub(crate) fn end(self) -> u64
        ensures { self.begin + self.width * self.count < 2 ^ 64 → result ≡ self.begin + self.width * self.count }
    {
        self.begin.saturating_add(self.span())
    }

    /// Where the column begins.
    pub(crate) fn left(self, number: usize) -> u64
        ensures inside { number < self.count → self.count < 2 ^ 48 → result ≡ LEFT + (number * PLOT + self.count / 2) / self.count }
        ensures last { 0 < self.count → self.count ≤ number → result ≡ LEFT + PLOT }
        ensures within { (LEFT ≤ result) × (result ≤ LEFT + PLOT) }
    {
        LEFT.saturating_add(share(number as u64, self.count, PLOT))
    }

    /// The middle of the column.
    pub(crate) fn middle(self, number: usize) -> u64
        ensures inside { number < self.count → self.count < 2 ^ 47 → result ≡ LEFT + ((number * 2 + 1) * PLOT + self.count) / (self.count * 2) }
        ensures within { (LEFT ≤ result) × (result ≤ LEFT + PLOT) }
    {
        let halves = (number as u64).saturating_mul(2).saturating_add(1);
        LEFT.saturating_add(share(halves, self.count.saturating_mul(2), PLOT))
    }

    /// How wide a column is.
    pub(crate) fn step(self) -> u64
        ensures exact { 1 < self.count → self.count < 2 ^ 48 → result ≡ (PLOT + self.count / 2) / self.count }
        ensures within { result ≤ PLOT }
    {
        share(1, self.count, PLOT)
    }

    /// How much of a column its means fill: a little less than all.
    pub(crate) fn filled(self) -> u64 {
        self.step().saturating_sub((self.step() / 5).min(PIXEL))
    }

    /// How wide a bar is: as much, but no wider than a bar that is alone should be.
    pub(crate) fn bar_width(self) -> u64
        ensures { result ≤ WIDEST }
    {
        self.filled().min(WIDEST)
    }

    /// The place so many milliseconds behind the begin of the column, at most its end.
    pub(crate) fn within(self, number: usize, milliseconds: u64) -> u64
        ensures first { milliseconds ≡ 0 → number < self.count → self.count < 2 ^ 48 → result ≡ LEFT + (number * PLOT + self.count / 2) / self.count }
        ensures within { (LEFT ≤ result) × (result ≤ LEFT + PLOT) }
    {
        let left = self.left(number);
        let wide = self.left(number.saturating_add(1)).saturating_sub(left);
        left.saturating_add(share(milliseconds, self.width, wide))
    }

    /// Where the moment stands, the left or the right end where it lies before or behind all columns.
    pub(crate) fn place(self, moment: u64) -> u64
        ensures before { moment ≤ self.begin → result ≡ LEFT }
        ensures behind { 0 < self.width * self.count → self.begin + self.width * self.count ≤ moment → result ≡ LEFT + PLOT }
        ensures within { (LEFT ≤ result) × (result ≤ LEFT + PLOT) }
    {
        LEFT.saturating_add(share(moment.saturating_sub(self.begin), self.span(), PLOT))
    }

    /// The moment at which the column begins.
    pub(crate) fn moment(self, number: usize) -> u64
        ensures { self.begin + number * self.width < 2 ^ 64 → result ≡ self.begin + number * self.width }
    {
        self.begin
            .saturating_add((number as u64).saturating_mul(self.width))
    }

    /// How the moments are written.
    pub(crate) fn clock(self) -> Clock {
        Clock::of(self.span(), self.width)
    }
}

/// The moments that are marked.
#[derive(Drop)]
pub(crate) struct Marks {
    pub moments: Vec<u64>,
}

impl Marks {
    /// Moments that are round in the sense of columns, of which as many as have room: 14 at most. It fails only for want
    /// of memory.
    pub(crate) fn new(alloc: Global, axis: Axis) -> Result<Marks, AllocError>
        ensures { IfOk result (λ marks. vec_len marks.moments ≤ MOST_MARKS) }
    {
        let step = mark_step(axis, most_marks(alloc, axis)?);
        let mut moments = Vec::new(alloc);
        let mut moment = first_mark(axis.begin, step);
        for _ in 0..MOST_MARKS {
            if moment > axis.end() {
                break;
            }
            moments.push(moment)?;
            moment = moment.saturating_add(step);
        }
        Ok(Marks { moments })
    }
}

/// So many marks there are at most, with one at either end.
const MOST_MARKS: u64 = 14;

/// How many steps between marks have room: a mark is as wide as the last moment in words.
fn most_marks(alloc: Global, axis: Axis) -> Result<u64, AllocError> {
    let mut words = Canvas::new(alloc);
    axis.clock().put(&mut words, axis.end())?;
    let wide = (words.len() as u64)
        .saturating_mul(LETTER)
        .saturating_add(20 * PIXEL);
    Ok((PLOT / wide.max(1)).clamp(1, MOST_MARKS - 1))
}

/// How many milliseconds lie between marks: 1, 2 or 5 times a power of ten, no fewer than a column has.
fn mark_step(axis: Axis, most: u64) -> u64 {
    let mut ten = 1u64;
    for _ in 0..20 {
        for times in [1, 2, 5] {
            let step = ten.saturating_mul(times);
            if step >= axis.width && step.saturating_mul(most) >= axis.span() {
                return step;
            }
        }
        ten = ten.saturating_mul(10);
    }
    axis.span().max(1)
}

/// The first multiple of the step from the moment on.
fn first_mark(begin: u64, step: u64) -> u64
    ensures multiple { 0 < step → begin + step < 2 ^ 64 → (k : ℕ) × (result ≡ k * step) }
    ensures first { 0 < step → begin + step < 2 ^ 64 → (begin ≤ result) × (result < begin + step) }
{
    if step == 0 {
        return begin;
    }
    let before = begin / step;
    let mark = before.saturating_mul(step);
    if mark < begin {
        mark.saturating_add(step)
    } else {
        mark
    }
}

/// Writes the moments of the marks along that base line.
pub(crate) fn draw_moments(
    alloc: Global,
    canvas: &mut Canvas,
    axis: Axis,
    marks: &Marks,
    y: u64,
) -> Result<(), AllocError> {
    for moment in marks.moments.iter() {
        let mut words = Canvas::new(alloc);
        axis.clock().put(&mut words, *moment)?;
        let half = (words.len() as u64).saturating_mul(LETTER) / 2;
        let (x, class) = label_at(axis.place(*moment), half);
        canvas.put_text(x, y, class, words.as_str())?;
    }
    Ok(())
}

/// Where a text of that half width stands whose middle is to be there, so that the picture has room for it, and in which
/// class.
fn label_at(middle: u64, half: u64) -> (u64, &'static str) {
    if middle < FIRST.saturating_add(half) {
        (FIRST, "t s")
    } else if middle.saturating_add(half) > LAST {
        (LAST, "t s e")
    } else {
        (middle, "t s m")
    }
}

/// Draws a line at each mark from one height to the other.
pub(crate) fn draw_grid(
    path: &mut Path,
    axis: Axis,
    marks: &Marks,
    top: u64,
    bottom: u64,
) -> Result<(), AllocError> {
    for moment in marks.moments.iter() {
        path.move_to(axis.place(*moment), top)?;
        path.down_to(bottom)?;
    }
    Ok(())
}
