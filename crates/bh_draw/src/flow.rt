//! Words from left to right, in lines that end where the picture does.

ghost use Rattle.std.specs.Prelude.{◌≡◌, ◌-◌, ◌*◌, ◌^◌, length, min};

use crate::canvas::{Canvas, PIXEL};
use std::alloc::{AllocError, Global};

/// A line of words is so wide at most.
pub(crate) const LINE_WIDTH: u64 = 964 * PIXEL;

/// Lines lie so far apart.
const LINE_HEIGHT: u64 = 22 * PIXEL;

/// How wide words are, at so many tenths of a pixel a letter. They have one byte a letter.
pub(crate) fn width_of(words: &str, letter: u64) -> u64
    ensures { result ≡ min (length words.now * letter) (2 ^ 64 - 1) }
{
    (words.len() as u64).saturating_mul(letter)
}

/// Words that grow, line below line.
#[derive(Drop)]
pub(crate) struct Flow {
    line: Canvas,
    class: &'static str,
    letter: u64,
    indent: u64,
    /// The base line of what was written last.
    pub y: u64,
}

impl Flow {
    /// No words, in a class whose letters are so wide, below that base line.
    pub(crate) fn new(alloc: Global, class: &'static str, letter: u64, y: u64) -> Flow {
        Flow {
            line: Canvas::new(alloc),
            class,
            letter,
            indent: 0,
            y,
        }
    }

    /// Adds words that stay together, a space behind those that are there where the line has room, and else on a line below.
    pub(crate) fn add(
        &mut self,
        alloc: Global,
        canvas: &mut Canvas,
        words: &str,
    ) -> Result<(), AllocError> {
        if self.line.is_empty() {
            return self.line.put(words);
        }
        let there = width_of(self.line.as_str(), self.letter);
        let more = width_of(words, self.letter);
        let all = there.saturating_add(more).saturating_add(self.indent);
        if all > LINE_WIDTH {
            self.end(alloc, canvas)?;
            self.indent = 12 * PIXEL;
        } else {
            self.line.put(" ")?;
        }
        self.line.put(words)
    }

    /// Writes the line at hand, if it has words. What comes behind it is no part of it.
    pub(crate) fn end(&mut self, alloc: Global, canvas: &mut Canvas) -> Result<(), AllocError> {
        if self.line.is_empty() {
            return Ok(());
        }
        self.y = self.y.saturating_add(LINE_HEIGHT);
        let x = self.indent.saturating_add(12 * PIXEL);
        canvas.put_text(x, self.y, self.class, self.line.as_str())?;
        self.line = Canvas::new(alloc);
        self.indent = 0;
        Ok(())
    }
}
