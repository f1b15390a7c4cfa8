//! The legend, which stands above the lanes: below twenty of them nobody finds it.

use crate::band::draw_trip;
use crate::bar::{ANSWERS, Bar, REASONS};
use crate::canvas::{Canvas, PIXEL, Path};
use crate::flow::width_of;
use std::alloc::{AllocError, Global};

/// Rows lie so far apart.
const ROW: u64 = 21 * PIXEL;

/// A sign is so wide, and so far stands its word from it, and the next sign from the word.
const SIGN: u64 = 22 * PIXEL;

const WORD: u64 = 28 * PIXEL;

const NEXT: u64 = 20 * PIXEL;

/// A letter has so much room.
const LETTER: u64 = 72;

/// A sign of the legend.
#[derive(Clone, Copy)]
struct Sign {
    class: &'static str,
    words: &'static str,
    shape: Shape,
}

/// What a sign is drawn as.
#[derive(Clone, Copy)]
enum Shape {
    /// A stroke so thick.
    Stroke(u64),
    /// An outline.
    Hollow,
    /// A triangle.
    Triangle,
    /// The mark of the begin of a life, and that of its end.
    Begin,
    End,
}

const BAR: Shape = Shape::Stroke(13 * PIXEL);

const LINE: Shape = Shape::Stroke(PIXEL);

/// A label has so much room.
const LABEL: u64 = 92 * PIXEL;

const SHORT_LABEL: u64 = 46 * PIXEL;

/// The signs of a circuit breaker.
const CIRCUIT: [Sign; 4] = [
    Sign {
        class: "open",
        words: "open",
        shape: BAR,
    },
    Sign {
        class: "half",
        words: "half-open",
        shape: BAR,
    },
    Sign {
        class: "closed",
        words: "closed",
        shape: Shape::Stroke(4 * PIXEL),
    },
    Sign {
        class: "open open-g",
        words: "trip",
        shape: Shape::Triangle,
    },
];

/// The signs of a pool.
const POOL: [Sign; 4] = [
    Sign {
        class: "busy",
        words: "busy",
        shape: BAR,
    },
    Sign {
        class: "queued",
        words: "queued",
        shape: BAR,
    },
    Sign {
        class: "peak",
        words: "most at once",
        shape: LINE,
    },
    Sign {
        class: "limit",
        words: "limit",
        shape: LINE,
    },
];

/// The signs of the lives of a group.
const LIVES: [Sign; 2] = [
    Sign {
        class: "life",
        words: "first step",
        shape: Shape::Begin,
    },
    Sign {
        class: "life",
        words: "retired",
        shape: Shape::End,
    },
];

/// Draws the legend below that height, with the marks of lives where the picture has any, and tells its last base line.
pub(crate) fn draw_legend(
    alloc: Global,
    canvas: &mut Canvas,
    top: u64,
    has_lives: bool,
) -> Result<u64, AllocError> {
    let mut row = Row::new(top);
    row.add_label(canvas, "Callers got", LABEL)?;
    row.add_bars(alloc, canvas, &ANSWERS)?;
    row.begin();
    row.add_label(canvas, "because of", LABEL)?;
    row.add_bars(alloc, canvas, &REASONS)?;
    row.begin();
    row.add_label(canvas, "Circuit", LABEL)?;
    row.add_all(alloc, canvas, &CIRCUIT)?;
    row.add_label(canvas, "Pool", SHORT_LABEL)?;
    row.add_all(alloc, canvas, &POOL)?;
    if has_lives {
        row.begin();
        row.add_label(canvas, "Group", LABEL)?;
        row.add_all(alloc, canvas, &LIVES)?;
    }
    Ok(row.line)
}

/// A row of signs that grows to the right.
#[derive(Drop)]
struct Row {
    x: u64,
    line: u64,
}

impl Row {
    /// The first row, below that height.
    fn new(top: u64) -> Row {
        Row {
            x: 12 * PIXEL,
            line: top.saturating_add(ROW),
        }
    }

    /// Begins a row below.
    fn begin(&mut self) {
        self.x = 12 * PIXEL;
        self.line = self.line.saturating_add(ROW);
    }

    /// Adds what the signs behind it are of, with so much room.
    fn add_label(&mut self, canvas: &mut Canvas, words: &str, room: u64) -> Result<(), AllocError> {
        canvas.put_text(self.x, self.line, "t b", words)?;
        self.x = self.x.saturating_add(room);
        Ok(())
    }

    /// Adds the signs of bars.
    fn add_bars(
        &mut self,
        alloc: Global,
        canvas: &mut Canvas,
        bars: &[Bar],
    ) -> Result<(), AllocError> {
        for bar in bars {
            let sign = Sign {
                class: bar.class(),
                words: bar.words(),
                shape: shape_of(*bar),
            };
            self.add(alloc, canvas, sign)?;
        }
        Ok(())
    }

    /// Adds signs.
    fn add_all(
        &mut self,
        alloc: Global,
        canvas: &mut Canvas,
        signs: &[Sign],
    ) -> Result<(), AllocError> {
        for sign in signs {
            self.add(alloc, canvas, *sign)?;
        }
        Ok(())
    }

    /// Adds a sign and its word.
    fn add(&mut self, alloc: Global, canvas: &mut Canvas, sign: Sign) -> Result<(), AllocError> {
        let mut path = Path::new(alloc);
        let width = draw_shape(&mut path, sign.shape, self.x, self.line)?;
        canvas.put_path(sign.class, width, &path)?;
        let word = self.x.saturating_add(WORD);
        canvas.put_text(word, self.line, "t", sign.words)?;
        self.x = word
            .saturating_add(width_of(sign.words, LETTER))
            .saturating_add(NEXT);
        Ok(())
    }
}

/// What the sign of a bar is drawn as.
fn shape_of(bar: Bar) -> Shape {
    match bar {
        Bar::Late => Shape::Hollow,
        _ => BAR,
    }
}

/// Draws the shape of a sign whose word stands on that base line, and tells how thick its strokes are.
fn draw_shape(path: &mut Path, shape: Shape, x: u64, line: u64) -> Result<u64, AllocError> {
    let top = line.saturating_sub(11 * PIXEL);
    match shape {
        Shape::Stroke(width) => {
            path.move_to(x, line.saturating_sub(45))?;
            path.right(SIGN)?;
            Ok(width)
        }
        Shape::Hollow => {
            path.move_to(x, top)?;
            path.put("h22v12h-22z")?;
            Ok(PIXEL)
        }
        Shape::Triangle => {
            draw_trip(path, x.saturating_add(SIGN / 2), line)?;
            Ok(2 * PIXEL)
        }
        Shape::Begin => {
            path.move_to(x.saturating_add(SIGN / 2).saturating_add(5 * PIXEL), top)?;
            path.put("h-5v13")?;
            Ok(PIXEL)
        }
        Shape::End => {
            path.move_to(x.saturating_add(SIGN / 2).saturating_sub(5 * PIXEL), top)?;
            path.put("h5v13")?;
            Ok(PIXEL)
        }
    }
}
