//! The text of a picture as it grows: words, numbers, and elements of SVG.

ghost use Rattle.std.specs.Prelude.{◌≡◌, ◌++◌, ◌==◌, [], decimal, length, OnOk};

use itoa::Buffer;
use std::alloc::{AllocError, Global};
use std::marker::Model;

/// A pixel of the view box in tenths, the unit of all lengths and places here.
pub(crate) const PIXEL: u64 = 10;

/// A text that grows at its end. Each call fails only for want of memory.
#[derive(Drop)]
pub struct Canvas {
    text: String,
}

impl Model for Canvas {
    ghost use Rattle.std.specs.Prelude.{ℕ, List, string_bytes};

    ghost Value = { List ℕ };

    ghost view = { λ canvas. string_bytes canvas.text };
}

impl Canvas {
    /// An empty text.
    pub fn new(alloc: Global) -> Canvas
        ensures { result ≡ [] }
    {
        Canvas {
            text: String::new(alloc),
        }
    }

    /// The text so far.
    pub fn as_str(&self) -> &str
        ensures { result.now ≡ self.now }
    {
        self.text.as_str()
    }

    /// How many bytes it has.
    pub(crate) fn len(&self) -> usize
        ensures { result ≡ length self.now }
    {
        self.text.len()
    }

    /// Whether it has none.
    pub(crate) fn is_empty(&self) -> bool
        ensures { result ≡ (length self.now == 0) }
    {
        self.text.is_empty()
    }

    /// Adds a text as it stands.
    pub(crate) fn put(&mut self, text: &str) -> Result<(), AllocError>
        ensures { OnOk result (self.new ≡ self.old ++ text.now) }
    {
        self.text.push_str(text)
    }

    /// Adds a text with what XML would read as its own written out, and a sign of replacement for what it may not have.
    pub fn put_escaped(&mut self, text: &str) -> Result<(), AllocError> {
        for letter in text.chars() {
            match letter {
                '&' => self.put("&amp;")?,
                '<' => self.put("&lt;")?,
                '>' => self.put("&gt;")?,
                '"' => self.put("&quot;")?,
                '\0'..='\x1f' => self.put("\u{fffd}")?,
                _ => self.text.push(letter)?,
            }
        }
        Ok(())
    }

    /// Adds a number.
    pub(crate) fn put_number(&mut self, number: u64) -> Result<(), AllocError>
        ensures { OnOk result (self.new ≡ self.old ++ decimal number) }
    {
        self.put(Buffer::new().format(number))
    }

    /// Adds a number with a comma before each three digits.
    pub fn put_grouped(&mut self, number: u64) -> Result<(), AllocError> {
        if number < 1000 {
            return self.put_number(number);
        }
        let mut buffer = Buffer::new();
        let digits = buffer.format(number);
        let mut left = digits.len();
        for digit in digits.chars() {
            if left % 3 == 0 && left < digits.len() {
                self.put(",")?;
            }
            self.text.push(digit)?;
            left = left.saturating_sub(1);
        }
        Ok(())
    }

    /// Adds a length or a place, given in tenths of a pixel, in pixels.
    pub(crate) fn put_tenths(&mut self, tenths: u64) -> Result<(), AllocError> {
        self.put_number(tenths / PIXEL)?;
        if tenths % PIXEL == 0 {
            return Ok(());
        }
        self.put(".")?;
        self.put_number(tenths % PIXEL)
    }

    /// Adds a number and the word for what is counted, with an `s` behind it unless it is one.
    pub(crate) fn put_counted(&mut self, number: u64, word: &str) -> Result<(), AllocError> {
        self.put_grouped(number)?;
        self.put(" ")?;
        self.put(word)?;
        if number == 1 {
            return Ok(());
        }
        self.put("s")
    }

    /// Begins a text of the class at the place, the left end of its base line unless the class says else.
    pub(crate) fn open_text(&mut self, x: u64, y: u64, class: &str) -> Result<(), AllocError> {
        self.put("<text x=\"")?;
        self.put_tenths(x)?;
        self.put("\" y=\"")?;
        self.put_tenths(y)?;
        if !class.is_empty() {
            self.put("\" class=\"")?;
            self.put(class)?;
        }
        self.put("\">")
    }

    /// Ends a text.
    pub(crate) fn close_text(&mut self) -> Result<(), AllocError> {
        self.put("</text>\n")
    }

    /// Adds a whole text of the class at the place.
    pub(crate) fn put_text(
        &mut self,
        x: u64,
        y: u64,
        class: &str,
        words: &str,
    ) -> Result<(), AllocError> {
        self.open_text(x, y, class)?;
        self.put_escaped(words)?;
        self.close_text()
    }

    /// Adds a path of the class, its strokes of that width in tenths of a pixel, unless it has no points.
    pub(crate) fn put_path(
        &mut self,
        class: &str,
        width: u64,
        path: &Path,
    ) -> Result<(), AllocError> {
        if path.is_empty() {
            return Ok(());
        }
        self.put("<path class=\"")?;
        self.put(class)?;
        self.put("\" stroke-width=\"")?;
        self.put_tenths(width)?;
        self.put("\" d=\"")?;
        self.put(path.as_str())?;
        self.put("\"/>\n")
    }
}

/// The points of a path, as its attribute `d` has them. Places and lengths are in tenths of a pixel.
#[derive(Drop)]
pub(crate) struct Path {
    points: Canvas,
}

impl Path {
    /// No points.
    pub(crate) fn new(alloc: Global) -> Path {
        Path {
            points: Canvas::new(alloc),
        }
    }

    /// Whether it has no points.
    fn is_empty(&self) -> bool {
        self.points.is_empty()
    }

    /// The points so far.
    pub(crate) fn as_str(&self) -> &str {
        self.points.as_str()
    }

    /// Goes to a place, and draws nothing on the way.
    pub(crate) fn move_to(&mut self, x: u64, y: u64) -> Result<(), AllocError> {
        self.put_pair("M", x, y)
    }

    /// Draws a line so far to the right.
    pub(crate) fn right(&mut self, length: u64) -> Result<(), AllocError> {
        self.put_one("h", length)
    }

    /// Draws a line so far to the left.
    pub(crate) fn left(&mut self, length: u64) -> Result<(), AllocError> {
        self.put_one("h-", length)
    }

    /// Draws a line so far down.
    pub(crate) fn down(&mut self, length: u64) -> Result<(), AllocError> {
        self.put_one("v", length)
    }

    /// Draws a line so far up.
    pub(crate) fn up(&mut self, length: u64) -> Result<(), AllocError> {
        self.put_one("v-", length)
    }

    /// Draws a line down to that height.
    pub(crate) fn down_to(&mut self, y: u64) -> Result<(), AllocError> {
        self.put_one("V", y)
    }

    /// Adds points as they stand, and the end of an outline.
    pub(crate) fn put(&mut self, points: &str) -> Result<(), AllocError> {
        self.points.put(points)
    }

    /// Adds a command with two numbers.
    fn put_pair(&mut self, command: &str, x: u64, y: u64) -> Result<(), AllocError> {
        self.put_one(command, x)?;
        self.points.put(" ")?;
        self.points.put_tenths(y)
    }

    /// Adds a command with a number.
    fn put_one(&mut self, command: &str, number: u64) -> Result<(), AllocError> {
        self.points.put(command)?;
        self.points.put_tenths(number)
    }
}
