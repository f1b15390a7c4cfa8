//! The rows as a text: a table for a terminal, or an object of JSON for each.

ghost use Rattle.std.specs.Prelude.{◌≡◌, ◌<◌, ◌++◌, ℕ, List, [], codes, decimal, length, map, slice_index_or, IfOk, OnOk};
ghost use Rattle.std.specs.List.{flat_map, zip};
ghost use Rattle.bh_look.specs.Objects.{member_text, members_of, number_or_null, numbers_text, object_of, objects_of};
ghost use Rattle.bh_look.specs.Rows.{row_said};
ghost use Rattle.bh_look.specs.Tables.{all_cells, at_left, at_right, cell_text, cells_of, heads, lines_line, name_of, name_width, row_line, spaces, table_line, table_of, table_with, width_of, widths_of};
ghost use Rattle.bh_look.specs.Times.{AreTimes, TellsTimes};

use crate::rows::Row;
use crate::tally::Tally;
use crate::times::Times;
use crate::watch::Watch;
use itoa::Buffer;
use std::alloc::{AllocError, Global};

/// The heads of the columns behind the names, in their order.
const HEADS: [&str; 18] = [
    "requests",
    "values",
    "fallbacks",
    "errors",
    "bad",
    "joined",
    "full",
    "short",
    "rejected",
    "timeouts",
    "failures",
    "late",
    "least",
    "median",
    "99th",
    "most",
    "open",
    "trips",
];

/// What is told of the times of a row's requests, in milliseconds.
#[derive(Clone, Copy)]
pub struct TimesTold {
    pub least: Option<u64>,
    pub median: Option<u64>,
    pub percentile_99: Option<u64>,
    pub most: Option<u64>,
}

/// A number of a row, or none, behind its name.
type Member = (&'static str, Option<u64>);

/// What is told of the times.
fn times_told(times: &Times) -> TimesTold
    ensures { (ts : List ℕ) → AreTimes ts times.now → TellsTimes ts result }
{
    TimesTold {
        least: times.least(),
        median: times.median(),
        percentile_99: times.percentile_99(),
        most: times.most(),
    }
}

/// The members of the object of a row behind its names, in their order.
fn members(tally: &Tally, times: &TimesTold) -> [Member; 20]
    ensures { map (λ m. (m.0.now, m.1)) result ≡ members_of tally.now times.now }
{
    [
        ("requests", Some(tally.requests())),
        ("values", Some(tally.values)),
        ("fallback_values", Some(tally.fallback_values)),
        ("errors", Some(tally.errors)),
        ("bad_requests", Some(tally.bad_requests)),
        ("joined", Some(tally.joined)),
        ("group_full", Some(tally.group_full)),
        ("short_circuited", Some(tally.short_circuited)),
        ("rejected", Some(tally.rejected)),
        ("timeouts", Some(tally.timeouts)),
        ("failures", Some(tally.failures)),
        ("late", Some(tally.late)),
        ("least_ms", times.least),
        ("median_ms", times.median),
        ("percentile_99_ms", times.percentile_99),
        ("most_ms", times.most),
        ("open_ms", Some(tally.open_ms)),
        ("trips", Some(tally.trips)),
        ("half_open_ms", Some(tally.half_open_ms)),
        ("worn", Some(tally.worn)),
    ]
}

/// The numbers of a row, in the order of the members of its object. The last two have no column.
type Cells = [Option<u64>; 20];

/// The numbers of a row.
fn cells(tally: &Tally, times: &TimesTold) -> Cells
    ensures { result ≡ cells_of tally.now times.now }
{
    let members = members(tally, times);
    let mut cells = [None; 20];
    for (column, member) in members.iter().enumerate() {
        cells[column] = member.1;
    }
    cells
}

/// The numbers of all rows.
fn all_cells(alloc: Global, rows: &[Row]) -> Result<Vec<Cells>, AllocError>
    ensures { IfOk result (λ lines. (times : List TimesTold) × (length times ≡ length rows.now)
        × (lines.items ≡ all_cells (map row_said rows.now) times)) }
{
    let mut lines = Vec::with_capacity(alloc, rows.len())?;
    for row in rows {
        let times = times_told(&row.times);
        lines.push(cells(&row.tally, &times))?;
    }
    Ok(lines)
}

/// Puts the rows as a table behind what is there: a line of heads, one for each row, and one that says how many lines there
/// were. Times are in milliseconds; a row without a time has `-` in its place. It fails only for want of memory.
pub fn put_table(
    alloc: Global,
    out: &mut Vec<u8>,
    rows: &[Row],
    watch: &Watch,
) -> Result<(), AllocError>
    ensures { OnOk result ((times : List TimesTold) × (length times ≡ length rows.now)
        × (out.new.items ≡ out.old.items ++ table_of (map row_said rows.now) times watch.now.lines watch.now.faults)) }
{
    let lines = all_cells(alloc, rows)?;
    put_table_with(out, rows, lines.as_slice(), watch.lines, watch.faults)
}

/// Puts the table of rows with these numbers.
fn put_table_with(
    out: &mut Vec<u8>,
    rows: &[Row],
    cells: &[Cells],
    lines: u64,
    faults: u64,
) -> Result<(), AllocError>
    requires { length cells.now ≡ length rows.now }
    ensures { OnOk result (out.new.items ≡ out.old.items ++ table_with (map row_said rows.now) cells.now lines faults) }
{
    let named = name_width(rows);
    let widths = widths(cells);
    put_head(out, named, &widths)?;
    put_rows(out, rows, cells, named, &widths)?;
    put_lines(out, lines, faults)
}

/// Puts the line of heads.
fn put_head(out: &mut Vec<u8>, named: usize, widths: &Widths) -> Result<(), AllocError>
    ensures { OnOk result (out.new.items ≡ out.old.items ++ table_line named widths.now (codes "command") heads) }
{
    put_left(out, "command", named)?;
    put_heads(out, widths)?;
    out.push(b'\n')?;
    Ok(())
}

/// Puts the heads of the columns of numbers.
fn put_heads(out: &mut Vec<u8>, widths: &Widths) -> Result<(), AllocError>
    ensures { OnOk result (out.new.items ≡ out.old.items ++ flat_map at_right (zip widths.now heads)) }
{
    for (column, width) in widths.iter().enumerate() {
        put_right(out, head(column), *width)?;
    }
    Ok(())
}

/// Puts the lines of rows.
fn put_rows(
    out: &mut Vec<u8>,
    rows: &[Row],
    cells: &[Cells],
    named: usize,
    widths: &Widths,
) -> Result<(), AllocError>
    requires { length cells.now ≡ length rows.now }
    ensures { OnOk result (out.new.items ≡ out.old.items ++ flat_map (row_line named widths.now) (zip (map row_said rows.now) cells.now)) }
{
    for (number, row) in rows.iter().enumerate() {
        put_row(out, row, &cells[number], named, widths)?;
    }
    Ok(())
}

/// Puts the line of a row.
fn put_row(
    out: &mut Vec<u8>,
    row: &Row,
    cells: &Cells,
    named: usize,
    widths: &Widths,
) -> Result<(), AllocError>
    ensures { OnOk result (out.new.items ≡ out.old.items ++ row_line named widths.now (row_said row.now, cells.now)) }
{
    put_name(out, row)?;
    put_spaces(out, named.saturating_sub(name_len(row)))?;
    put_cells(out, cells, widths)?;
    out.push(b'\n')?;
    Ok(())
}

/// Puts the numbers of a row, each at the right of its column.
fn put_cells(out: &mut Vec<u8>, cells: &Cells, widths: &Widths) -> Result<(), AllocError>
    ensures { OnOk result (out.new.items ≡ out.old.items ++ flat_map at_right (zip widths.now (map cell_text cells.now))) }
{
    for (column, width) in widths.iter().enumerate() {
        put_cell(out, cells[column], *width)?;
    }
    Ok(())
}

/// Puts the name of a row: that of the group, and behind a stroke that of a further command.
fn put_name(out: &mut Vec<u8>, row: &Row) -> Result<(), AllocError>
    ensures { OnOk result (out.new.items ≡ out.old.items ++ name_of (row_said row.now)) }
{
    out.extend_from_slice(row.group.as_str().as_bytes())?;
    if row.command == row.group {
        return Ok(());
    }
    out.push(b'/')?;
    out.extend_from_slice(row.command.as_str().as_bytes())
}

/// How wide the column of the names is.
fn name_width(rows: &[Row]) -> usize
    ensures { result ≡ name_width (map row_said rows.now) }
{
    let mut widest = "command".len();
    for row in rows {
        widest = widest.max(name_len(row));
    }
    widest
}

/// How long the name of a row is.
fn name_len(row: &Row) -> usize
    ensures { result ≡ length (name_of (row_said row.now)) }
{
    let own = row.group.as_str().len();
    if row.command == row.group {
        return own;
    }
    own + 1 + row.command.as_str().len()
}

/// How wide each column of numbers is.
type Widths = [usize; 18];

/// How wide each column of numbers is.
fn widths(lines: &[Cells]) -> Widths
    ensures { result ≡ widths_of lines.now }
{
    let mut widths = [0usize; 18];
    for column in 0..18 {
        widths[column] = width(lines, column);
    }
    widths
}

/// How wide the column of numbers is: as its longest text.
fn width(lines: &[Cells], column: usize) -> usize
    requires { column < 18 }
    ensures { result ≡ width_of lines.now column }
{
    let mut widest = head(column).len();
    for cells in lines {
        widest = widest.max(cell_len(cells[column]));
    }
    widest
}

/// The head of a column of numbers.
fn head(column: usize) -> &'static str
    requires { column < 18 }
    ensures { result.now ≡ slice_index_or heads column [] }
{
    HEADS[column]
}

/// How long the text of a cell is.
fn cell_len(cell: Option<u64>) -> usize
    ensures { result ≡ length (cell_text cell) }
{
    match cell {
        Some(number) => Buffer::new().format(number).len(),
        None => 1,
    }
}

/// Puts a cell at the right of its column.
fn put_cell(out: &mut Vec<u8>, cell: Option<u64>, width: usize) -> Result<(), AllocError>
    ensures { OnOk result (out.new.items ≡ out.old.items ++ at_right (width, cell_text cell)) }
{
    match cell {
        Some(number) => put_right(out, Buffer::new().format(number), width),
        None => put_right(out, "-", width),
    }
}

/// Puts a text at the right of its column, behind two spaces.
fn put_right(out: &mut Vec<u8>, text: &str, width: usize) -> Result<(), AllocError>
    ensures { OnOk result (out.new.items ≡ out.old.items ++ at_right (width, text.now)) }
{
    out.extend_from_slice(b"  ")?;
    put_spaces(out, width.saturating_sub(text.len()))?;
    out.extend_from_slice(text.as_bytes())
}

/// Puts a text at the left of its column.
fn put_left(out: &mut Vec<u8>, text: &str, width: usize) -> Result<(), AllocError>
    ensures { OnOk result (out.new.items ≡ out.old.items ++ at_left width text.now) }
{
    out.extend_from_slice(text.as_bytes())?;
    put_spaces(out, width.saturating_sub(text.len()))
}

/// Puts so many spaces.
fn put_spaces(out: &mut Vec<u8>, count: usize) -> Result<(), AllocError>
    ensures { OnOk result (out.new.items ≡ out.old.items ++ spaces count) }
{
    for _ in 0..count {
        out.push(b' ')?;
    }
    Ok(())
}

/// Puts how many lines there were, and how many of them were at fault.
fn put_lines(out: &mut Vec<u8>, lines: u64, faults: u64) -> Result<(), AllocError>
    ensures { OnOk result (out.new.items ≡ out.old.items ++ lines_line lines faults) }
{
    out.extend_from_slice(b"lines: ")?;
    put_number(out, lines)?;
    out.extend_from_slice(b", at fault: ")?;
    put_number(out, faults)?;
    out.push(b'\n')?;
    Ok(())
}

/// Puts a number.
fn put_number(out: &mut Vec<u8>, number: u64) -> Result<(), AllocError>
    ensures { OnOk result (out.new.items ≡ out.old.items ++ decimal number) }
{
    out.extend_from_slice(Buffer::new().format(number).as_bytes())
}

/// Puts an object for each row behind what is there, a line each. A time that there is not is `null`. It fails only for want
/// of memory.
pub fn put_objects(out: &mut Vec<u8>, rows: &[Row]) -> Result<(), AllocError>
    ensures { OnOk result ((times : List TimesTold) × (length times ≡ length rows.now)
        × (out.new.items ≡ out.old.items ++ objects_of (map row_said rows.now) times)) }
{
    for row in rows {
        let times = times_told(&row.times);
        put_object(out, row, &times)?;
    }
    Ok(())
}

/// Puts the object of a row. No name has a letter that needs an escape.
fn put_object(out: &mut Vec<u8>, row: &Row, times: &TimesTold) -> Result<(), AllocError>
    ensures { OnOk result (out.new.items ≡ out.old.items ++ object_of (row_said row.now) times.now) }
{
    out.extend_from_slice(b"{\"group\":\"")?;
    out.extend_from_slice(row.group.as_str().as_bytes())?;
    out.extend_from_slice(b"\",\"command\":\"")?;
    out.extend_from_slice(row.command.as_str().as_bytes())?;
    out.push(b'"')?;
    put_numbers(out, &row.tally, times)?;
    out.extend_from_slice(b"}\n")
}

/// Puts the members behind the names.
fn put_numbers(out: &mut Vec<u8>, tally: &Tally, times: &TimesTold) -> Result<(), AllocError>
    ensures { OnOk result (out.new.items ≡ out.old.items ++ numbers_text tally.now times.now) }
{
    put_members(out, &members(tally, times))
}

/// Puts members behind another.
fn put_members(out: &mut Vec<u8>, members: &[Member]) -> Result<(), AllocError>
    ensures { OnOk result (out.new.items ≡ out.old.items ++ flat_map (λ m. member_text (m.0.now, m.1)) members.now) }
{
    for (name, number) in members {
        put_member(out, name, *number)?;
    }
    Ok(())
}

/// Puts a member behind another.
fn put_member(out: &mut Vec<u8>, name: &str, number: Option<u64>) -> Result<(), AllocError>
    ensures { OnOk result (out.new.items ≡ out.old.items ++ member_text (name.now, number)) }
{
    out.extend_from_slice(b",\"")?;
    out.extend_from_slice(name.as_bytes())?;
    out.extend_from_slice(b"\":")?;
    put_number_or_null(out, number)
}

/// Puts a number, or that there is none.
fn put_number_or_null(out: &mut Vec<u8>, number: Option<u64>) -> Result<(), AllocError>
    ensures { OnOk result (out.new.items ≡ out.old.items ++ number_or_null number) }
{
    match number {
        Some(number) => put_number(out, number),
        None => out.extend_from_slice(b"null"),
    }
}
