//! The band of a circuit breaker: in which states it was, and when it opened.

use crate::axis::Axis;
use crate::canvas::{Canvas, PIXEL, Path};
use crate::scale::share;
use bh_base::CircuitState;
use bh_columns::column::Column;
use std::alloc::{AllocError, Global};

/// How high the band is.
pub(crate) const BAND: u64 = 14 * PIXEL;

/// The line of a closed circuit breaker is so thick.
const CLOSED: u64 = 4 * PIXEL;

/// A state that is not closed is so wide at least, else a short test call is not seen.
const LEAST_WIDTH: u64 = PIXEL;

/// From this width on a time in which it was open is named, on a base line so far below the top of the band.
const NAMED: u64 = 44 * PIXEL;

const BASE_LINE: u64 = 115;

/// The state of a circuit breaker, without what is kept in it.
#[derive(Clone, Copy, PartialEq, Eq)]
enum State {
    Closed,
    Open,
    HalfOpen,
}

impl State {
    /// That of the machine.
    fn of(circuit: CircuitState) -> State {
        match circuit {
            CircuitState::Closed => State::Closed,
            CircuitState::Open(_) => State::Open,
            CircuitState::HalfOpen(_, _) => State::HalfOpen,
        }
    }

    /// All states, this one first, and then as they follow on one another.
    fn and_next(self) -> [State; 3] {
        match self {
            State::Closed => [State::Closed, State::Open, State::HalfOpen],
            State::Open => [State::Open, State::HalfOpen, State::Closed],
            State::HalfOpen => [State::HalfOpen, State::Closed, State::Open],
        }
    }

    /// The milliseconds of the column in which it was so.
    fn milliseconds(self, column: &Column) -> u64 {
        match self {
            State::Closed => column.closed_ms,
            State::Open => column.tally.open_ms,
            State::HalfOpen => column.tally.half_open_ms,
        }
    }

    /// The least width of it that is drawn.
    fn least_width(self) -> u64 {
        match self {
            State::Closed => 0,
            _ => LEAST_WIDTH,
        }
    }
}

/// Draws the band of the columns below that height, and a triangle at the first trip of each.
pub(crate) fn draw_band(
    alloc: Global,
    canvas: &mut Canvas,
    axis: Axis,
    columns: &[Column],
    top: u64,
) -> Result<(), AllocError> {
    let band = Band::of(alloc, axis, columns, top)?;
    band.draw(canvas)?;
    draw_trips(alloc, canvas, axis, columns, top)
}

/// A band as it grows to the right: a path for each state, and the run that may go on.
#[derive(Drop)]
struct Band {
    top: u64,
    closed: Path,
    open: Path,
    half_open: Path,
    names: Canvas,
    run: Option<Run>,
}

/// A time in one state, from left to right.
#[derive(Clone, Copy)]
struct Run {
    state: State,
    left: u64,
    right: u64,
}

impl Band {
    /// The band of the columns below that height.
    fn of(alloc: Global, axis: Axis, columns: &[Column], top: u64) -> Result<Band, AllocError> {
        let mut band = Band::new(alloc, top);
        for (number, column) in columns.iter().enumerate() {
            band.add_column(axis, number, column)?;
        }
        band.end_run()?;
        Ok(band)
    }

    /// Draws its paths, and the names over them.
    fn draw(&self, canvas: &mut Canvas) -> Result<(), AllocError> {
        canvas.put_path("closed", CLOSED, &self.closed)?;
        canvas.put_path("open", BAND, &self.open)?;
        canvas.put_path("half", BAND, &self.half_open)?;
        canvas.put(self.names.as_str())
    }

    /// A band without a state.
    fn new(alloc: Global, top: u64) -> Band {
        Band {
            top,
            closed: Path::new(alloc),
            open: Path::new(alloc),
            half_open: Path::new(alloc),
            names: Canvas::new(alloc),
            run: None,
        }
    }

    /// Adds the states of a column by their shares of its width, that with which it began first, from where it began.
    fn add_column(&mut self, axis: Axis, number: usize, column: &Column) -> Result<(), AllocError> {
        let Some(began) = column.began else {
            return Ok(());
        };
        let before = began.moment.saturating_sub(axis.moment(number));
        let mut left = axis.within(number, before);
        let end = axis.left(number.saturating_add(1));
        let states = State::of(began.circuit).and_next();
        let wide = end.saturating_sub(axis.left(number));
        let mut widths = widths_of(axis, column, states, wide);
        squeeze(&mut widths, end.saturating_sub(left));
        for (state, width) in states.iter().zip(widths.iter()) {
            if *width > 0 {
                let right = left.saturating_add(*width);
                self.add(*state, left, right)?;
                left = right;
            }
        }
        Ok(())
    }

    /// Adds a time in the state, which goes on where the last one was in the same state and ended there.
    fn add(&mut self, state: State, left: u64, right: u64) -> Result<(), AllocError> {
        if let Some(run) = self.run {
            if run.state == state && run.right == left {
                self.run = Some(Run { right, ..run });
                return Ok(());
            }
        }
        self.end_run()?;
        self.run = Some(Run { state, left, right });
        Ok(())
    }

    /// Draws the run at hand, and names it where it is open and has room.
    fn end_run(&mut self) -> Result<(), AllocError> {
        let Some(run) = self.run else {
            return Ok(());
        };
        self.run = None;
        let middle = self.top.saturating_add(BAND / 2);
        match run.state {
            State::Closed => draw_run(&mut self.closed, run, middle),
            State::HalfOpen => draw_run(&mut self.half_open, run, middle),
            State::Open => {
                draw_run(&mut self.open, run, middle)?;
                self.name_open(run)
            }
        }
    }

    /// Writes `open` in the middle of a run that has room for it.
    fn name_open(&mut self, run: Run) -> Result<(), AllocError> {
        if run.width() < NAMED {
            return Ok(());
        }
        let middle = run.left.saturating_add(run.width() / 2);
        let line = self.top.saturating_add(BASE_LINE);
        self.names.put_text(middle, line, "t b m on", "open")
    }
}

impl Run {
    /// How wide it is.
    fn width(self) -> u64 {
        self.right.saturating_sub(self.left)
    }
}

/// Draws a run at that height.
fn draw_run(path: &mut Path, run: Run, middle: u64) -> Result<(), AllocError> {
    path.move_to(run.left, middle)?;
    path.right(run.width())
}

/// How wide each of the states is in a column that is so wide.
fn widths_of(axis: Axis, column: &Column, states: [State; 3], wide: u64) -> [u64; 3] {
    let mut widths = [0u64; 3];
    for (width, state) in widths.iter_mut().zip(states.iter()) {
        let milliseconds = state.milliseconds(column);
        if milliseconds > 0 {
            *width = share(milliseconds, axis.width, wide).max(state.least_width());
        }
    }
    widths
}

/// Takes from the widest what there is no room for.
fn squeeze(widths: &mut [u64; 3], room: u64) {
    let mut total = 0u64;
    let mut widest = 0;
    for width in widths.iter() {
        total = total.saturating_add(*width);
        widest = widest.max(*width);
    }
    let mut excess = total.saturating_sub(room);
    for width in widths.iter_mut() {
        if *width == widest {
            *width = width.saturating_sub(excess);
            excess = 0;
        }
    }
}

/// Draws a triangle over the band at the exact moment of the first trip of each column.
fn draw_trips(
    alloc: Global,
    canvas: &mut Canvas,
    axis: Axis,
    columns: &[Column],
    top: u64,
) -> Result<(), AllocError> {
    let mut path = Path::new(alloc);
    for column in columns {
        if let Some(moment) = column.first_trip {
            draw_trip(&mut path, axis.place(moment), top)?;
        }
    }
    canvas.put_path("open open-g", 2 * PIXEL, &path)
}

/// Draws a triangle that points down to the band.
pub(crate) fn draw_trip(path: &mut Path, x: u64, top: u64) -> Result<(), AllocError> {
    path.move_to(x.saturating_sub(4 * PIXEL), top.saturating_sub(9 * PIXEL))?;
    path.put("h8l-4 6z")
}
