//! Columns side by side, from a first index on.

ghost use Rattle.std.specs.Prelude.{◌≡◌, ◌+◌, ◌*◌, ◌/◌, ◌<◌, ◌≤◌, ℕ, OnOk, length, true};
ghost use Rattle.bh_columns.specs.Columns.{no_column};
ghost use Rattle.bh_columns.specs.Panels.{KeepsRoom};
ghost use Rattle.bh_columns.specs.Spans.{with_told_within};
ghost use Rattle.bh_columns.specs.Tracks.{HasRoom, IsReach, IsSpentAt, IsToldAt, SameColumns, column_at, joined_run, place_at, with_stay_in};

use crate::column::Column;
use crate::stay::Stay;
use bh_base::Moment;
use bh_look::tally::Tally;
use std::alloc::{AllocError, Global};

/// As many columns are joined to one where there would be too many.
pub const JOINED: u64 = 10;

/// Columns side by side, all of one width. The column of an index has the moments from the index times the width on; where
/// none is kept, it would be empty.
#[derive(Drop)]
pub struct Track {
    /// The index of the first that is kept.
    pub first: u64,
    pub columns: Vec<Column>,
}

/// Where some time lies in columns of one width.
#[derive(Clone, Copy, Debug, PartialEq, Eq)]
pub struct Reach {
    /// How many milliseconds wide a column is.
    pub width: u64,
    /// The index of the column of its first moment.
    pub first: u64,
    /// The index behind that of its last moment.
    pub end: u64,
}

impl Track {
    /// No column.
    pub fn new(alloc: Global) -> Track
        ensures { (index : ℕ) → column_at result index ≡ no_column }
    {
        Track {
            first: 0,
            columns: Vec::new(alloc),
        }
    }

    /// The place of the column of the index, where one is kept.
    pub fn place(&self, index: u64) -> Option<usize>
        ensures { result ≡ place_at self.now index }
    {
        if index < self.first {
            return None;
        }
        let place = index - self.first;
        if place >= self.columns.len() as u64 {
            return None;
        }
        Some(place as usize)
    }

    /// The column of the index.
    pub fn at(&self, index: u64) -> Column
        ensures { result ≡ column_at self.now index }
    {
        match self.place(index) {
            Some(place) => self.columns[place],
            None => Column::new(),
        }
    }

    /// Whether there is room for the columns of the indexes from the one on and before the other.
    fn has_room(&self, from: u64, to: u64) -> bool
        ensures { result ≡ true → HasRoom self.now from to }
    {
        self.first <= from && to <= self.first.saturating_add(self.columns.len() as u64)
    }

    /// Makes room for the columns of the indexes from the one on and before the other, with nothing in those that are new.
    /// It fails only for want of memory, and what is kept is the same then, too.
    pub fn make_room(&mut self, alloc: Global, from: u64, to: u64) -> Result<(), AllocError>
        ensures same { SameColumns self.old self.new }
        ensures room { OnOk result (from < to → HasRoom self.new from to) }
    {
        // Mostly there is room.
        if self.has_room(from, to) {
            return Ok(());
        }
        self.make_new_room(alloc, from, to)
    }

    /// The same where there is none.
    #[inline(never)]
    fn make_new_room(&mut self, alloc: Global, from: u64, to: u64) -> Result<(), AllocError>
        ensures same { SameColumns self.old self.new }
        ensures room { OnOk result (from < to → HasRoom self.new from to) }
    {
        if from >= to {
            return Ok(());
        }
        if self.columns.is_empty() {
            self.first = from;
        }
        if from < self.first {
            self.lead(alloc, from)?;
        }
        self.follow(to)
    }

    /// Puts empty columns before the others, so that the first has the index, which is less. It fails only for want of
    /// memory, and nothing has changed then.
    fn lead(&mut self, alloc: Global, first: u64) -> Result<(), AllocError>
        requires { first ≤ self.old.first }
        ensures same { SameColumns self.old self.new }
        ensures first { OnOk result (self.new.first ≡ first) }
    {
        let mut columns = Vec::new(alloc);
        for _ in first..self.first {
            columns.push(Column::new())?;
        }
        columns.extend_from_slice(self.columns.as_slice())?;
        self.columns = columns;
        self.first = first;
        Ok(())
    }

    /// Puts empty columns behind the others, so that there is one for each index before the one that is given. It fails only
    /// for want of memory, and what is kept is the same then, too.
    fn follow(&mut self, to: u64) -> Result<(), AllocError>
        ensures same { SameColumns self.old self.new }
        ensures first { self.new.first ≡ self.old.first }
        ensures room { OnOk result (to ≤ self.new.first + length self.new.columns.items) }
    {
        let end = self.first.saturating_add(self.columns.len() as u64);
        for _ in end..to {
            self.columns.push(Column::new())?;
        }
        Ok(())
    }

    /// Adds the time of the stay to the columns in which it lies, where there is room for them.
    pub fn spend(&mut self, reach: &Reach, stay: &Stay)
        ensures columns { IsReach reach.now stay.now.since stay.now.until → HasRoom self.old reach.now.first reach.now.end → (index : ℕ) →
            column_at self.new index ≡ with_stay_in reach.now.width index stay.now (column_at self.old index) }
        ensures room { KeepsRoom self.old self.new }
    {
        for index in reach.first..reach.end {
            let begin = index.saturating_mul(reach.width);
            let part = stay.within(begin, begin.saturating_add(reach.width));
            self.spend_at(index, &part);
        }
    }

    /// Adds the time of the stay to the column of the index, where there is room for it.
    fn spend_at(&mut self, index: u64, stay: &Stay)
        ensures columns { HasRoom self.old index (index + 1) → IsSpentAt index stay.now self.old self.new }
        ensures room { KeepsRoom self.old self.new }
    {
        if let Some(place) = self.place(index) {
            self.columns[place].spend(stay);
        }
    }

    /// Adds what a step told at the moment to the column of the index, where there is room for it, and whether it closed the
    /// circuit breaker.
    pub fn note(&mut self, index: u64, moment: Moment, told: &Tally, closes: bool)
        ensures columns { (width : ℕ) → 0 < width → index ≡ moment / width → HasRoom self.old index (index + 1) → (i : ℕ) →
            column_at self.new i ≡ with_told_within (i * width) (i * width + width) moment told.now closes (column_at self.old i) }
        ensures room { KeepsRoom self.old self.new }
    {
        self.note_at(index, moment, told, closes);
    }

    /// The same, by the index alone.
    fn note_at(&mut self, index: u64, moment: Moment, told: &Tally, closes: bool)
        ensures columns { HasRoom self.old index (index + 1) → IsToldAt index moment told.now closes self.old self.new }
        ensures room { KeepsRoom self.old self.new }
    {
        if let Some(place) = self.place(index) {
            self.columns[place].note(moment, told, closes);
        }
    }

    /// So many columns as one: those from the index times their number on.
    pub fn joined(&self, index: u64, many: u64) -> Column
        ensures { result ≡ joined_run (column_at self.now) (index * many) many }
    {
        match index.checked_mul(many) {
            Some(from) => self.joined_from(from, many),
            None => Column::new(),
        }
    }

    /// So many columns from the index on as one.
    fn joined_from(&self, from: u64, many: u64) -> Column
        ensures { result ≡ joined_run (column_at self.now) from many }
    {
        let mut joined = Column::new();
        for step in 0..many {
            joined.join(&self.behind(from, step));
        }
        joined
    }

    /// The column that lies so many behind that of the index.
    fn behind(&self, index: u64, step: u64) -> Column
        ensures { result ≡ column_at self.now (index + step) }
    {
        match index.checked_add(step) {
            Some(index) => self.at(index),
            None => Column::new(),
        }
    }

    /// How many columns there are where ten are one.
    fn joined_count(&self) -> usize
        ensures within { result ≤ length self.now.columns.items }
        ensures all { (index step : ℕ) → self.now.first / 10 + result ≤ index → column_at self.now (index * 10 + step) ≡ no_column }
    {
        let len = self.columns.len();
        if len == 0 {
            return 0;
        }
        let last = self.first.saturating_add(len as u64 - 1);
        (last / JOINED - self.first / JOINED + 1) as usize
    }

    /// Joins the columns ten by ten: the width of each is ten times what it was.
    pub fn join(&mut self)
        ensures { (index : ℕ) → column_at self.new index ≡ joined_run (column_at self.old) (index * 10) 10 }
    {
        let first = self.first / JOINED;
        let count = self.joined_count();
        for place in 0..count {
            let joined = self.joined(first + place as u64, JOINED);
            self.columns[place] = joined;
        }
        self.columns.truncate(count);
        self.first = first;
    }
}
