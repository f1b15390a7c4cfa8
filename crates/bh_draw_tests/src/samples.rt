//! Charts that are made by hand, and what tests look for in pictures.

use bh_base::{CircuitState, Text};
use bh_columns::chart::{Chart, Lane, Life, Panel};
use bh_columns::column::{Column, Standing, Usage};
use bh_look::tally::Tally;
use std::process::Abort;

/// Nothing in progress.
pub(crate) fn no_usage() -> Usage {
    Usage {
        busy_ms: 0,
        queued_ms: 0,
        most: 0,
    }
}

/// A column that was closed for so long from that moment on, and had so many values.
pub(crate) fn column(moment: u64, closed_ms: u64, values: u64) -> Column {
    let mut tally = Tally::new();
    tally.admitted = values;
    tally.values = values;
    Column {
        tally,
        closed_ms,
        began: Some(Standing {
            moment,
            circuit: CircuitState::Closed,
        }),
        first_trip: None,
        last_trip: None,
        last_close: None,
        usage: no_usage(),
    }
}

/// A name.
pub(crate) fn name<R: Abort>(rt: &R, words: &str) -> Text<32> {
    Text::new(words).expect(rt, "a short name")
}

/// A lane of the command over columns of a second each, all of them alike.
pub(crate) fn lane<R: Abort + AllocGlobal>(rt: &R, command: &str, count: u64, values: u64) -> Lane {
    let mut columns = Vec::new(rt.alloc());
    for number in 0..count {
        let made = column(number.saturating_mul(1000), 1000, values);
        columns.push(made).expect(rt, "memory");
    }
    Lane {
        command: name(rt, command),
        pooled: true,
        columns,
        total: column(0, count.saturating_mul(1000), count.saturating_mul(values)),
    }
}

/// A panel of the group with these lanes and a pool without use.
pub(crate) fn panel<R: Abort + AllocGlobal>(
    rt: &R,
    group: &str,
    count: u64,
    lanes: Vec<Lane>,
) -> Panel {
    let mut pool = Vec::new(rt.alloc());
    for _ in 0..count {
        pool.push(no_usage()).expect(rt, "memory");
    }
    let mut lives = Vec::new(rt.alloc());
    let life = Life {
        begin: 0,
        end: count.saturating_mul(1000),
        retired: false,
        changes: 0,
    };
    lives.push(life).expect(rt, "memory");
    Panel {
        group: name(rt, group),
        like: 0,
        lanes,
        pool,
        lives,
    }
}

/// A chart of these panels over so many columns of a second.
pub(crate) fn chart(count: u64, panels: Vec<Panel>) -> Chart {
    Chart {
        begin: 0,
        width: 1000,
        count: count as usize,
        panels,
        left_out: 0,
        lines: 1234,
        faults: 0,
    }
}

/// How often the part stands in the text.
pub(crate) fn count_of(text: &str, part: &str) -> usize {
    text.split(part).count().saturating_sub(1)
}

/// Asserts that each element of the picture ends, in the order in which XML wants it.
pub(crate) fn assert_well_formed<R: Abort + AllocGlobal>(rt: &R, text: &str) {
    let mut open: Vec<&str> = Vec::new(rt.alloc());
    for piece in text.split('<').skip(1) {
        let Some((tag, _words)) = piece.split_once('>') else {
            panic!(rt; "no end of a tag: {piece}");
        };
        if let Some(ended) = tag.strip_prefix("/") {
            assert_eq!(rt; open.pop(), Some(ended), "in {piece}");
        } else if !tag.ends_with('/') {
            let (name, _rest) = tag.split_once(' ').unwrap_or((tag, ""));
            open.push(name).expect(rt, "memory");
        }
    }
    assert!(rt; open.is_empty(), "an element does not end");
}
