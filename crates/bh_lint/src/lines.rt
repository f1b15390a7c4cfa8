//! The lines that tell findings.

ghost use Rattle.std.specs.Prelude.{◌≡◌, ◌++◌, codes, decimal, OnOk, string_bytes, false};
ghost use Rattle.std.specs.List.{flat_map};
ghost use Rattle.bh_lint.specs.Lines.{place_text, severity, nearest_text, reason_text, said, back_of, line_of, coloured_line_of, line_in, lines_of, lines_in, more_text, message, bold, no_colour, colour};

use crate::messages::put_message;
use crate::put::{put, put_around, put_number};
use crate::told::Told;
use std::alloc::AllocError;

/// What makes a terminal write bold.
const BOLD: &str = "\x1b[1m";

/// What makes it write as it does by itself.
const NO_COLOUR: &str = "\x1b[0m";

/// Adds the lines of the findings of the file, and how many more there are.
pub fn put_lines(out: &mut Vec<u8>, file: &str, told: &[Told], more: u64) -> Result<(), AllocError>
    ensures { OnOk result (out.new.items ≡ out.old.items ++ lines_of file.now told.now more) }
{
    put_lines_in(out, false, file, told, more)
}

/// Adds the same lines, with colours for a terminal where they are wanted.
pub(crate) fn put_lines_in(
    out: &mut Vec<u8>,
    coloured: bool,
    file: &str,
    told: &[Told],
    more: u64,
) -> Result<(), AllocError>
    ensures { OnOk result (out.new.items ≡ out.old.items ++ lines_in coloured file.now told.now more) }
{
    let mut text = String::new(*out.allocator());
    put_each(&mut text, coloured, file, told)?;
    put_more(&mut text, file, more)?;
    out.extend_from_slice(text.as_str().as_bytes())
}

/// Adds the lines of the findings.
fn put_each(out: &mut String, coloured: bool, file: &str, told: &[Told]) -> Result<(), AllocError>
    ensures { OnOk result (string_bytes out.new ≡ string_bytes out.old ++ flat_map (line_in coloured file.now) told.now) }
{
    for one in told {
        put_line(out, coloured, file, one)?;
    }
    Ok(())
}

/// Adds the line of a finding, with colours where they are wanted.
fn put_line(out: &mut String, coloured: bool, file: &str, told: &Told) -> Result<(), AllocError>
    ensures { OnOk result (string_bytes out.new ≡ string_bytes out.old ++ line_in coloured file.now told.now) }
{
    if coloured {
        put_coloured_line(out, file, told)
    } else {
        put_plain_line(out, file, told)
    }
}

/// Adds the line of a finding.
fn put_plain_line(out: &mut String, file: &str, told: &Told) -> Result<(), AllocError>
    ensures { OnOk result (string_bytes out.new ≡ string_bytes out.old ++ line_of file.now told.now) }
{
    put_place(out, file, told.line, told.column)?;
    put(out, told.finding.severity())?;
    put_back(out, told)
}

/// Adds the line of a finding, the place bold and its word in a colour.
fn put_coloured_line(out: &mut String, file: &str, told: &Told) -> Result<(), AllocError>
    ensures { OnOk result (string_bytes out.new ≡ string_bytes out.old ++ coloured_line_of file.now told.now) }
{
    put(out, BOLD)?;
    put_place(out, file, told.line, told.column)?;
    put(out, told.finding.colour())?;
    put(out, told.finding.severity())?;
    put(out, NO_COLOUR)?;
    put_back(out, told)
}

/// Adds what stands behind the word of a finding.
fn put_back(out: &mut String, told: &Told) -> Result<(), AllocError>
    ensures { OnOk result (string_bytes out.new ≡ string_bytes out.old ++ back_of told.now) }
{
    put_message(out, &told.finding)?;
    put_nearest(out, told.nearest.as_str())?;
    put_reason(out, told.reason.as_str())?;
    put(out, "\n")
}

/// Adds where a finding stands.
fn put_place(out: &mut String, file: &str, line: u64, column: u64) -> Result<(), AllocError>
    ensures { OnOk result (string_bytes out.new ≡ string_bytes out.old ++ place_text file.now line column) }
{
    put(out, file)?;
    put(out, ":")?;
    put_number(out, line)?;
    put(out, ":")?;
    put_number(out, column)?;
    put(out, ": ")
}

/// Adds the nearest name, if there is one.
fn put_nearest(out: &mut String, name: &str) -> Result<(), AllocError>
    ensures { OnOk result (string_bytes out.new ≡ string_bytes out.old ++ nearest_text name.now) }
{
    if name.is_empty() {
        return Ok(());
    }
    put_around(out, "; the nearest that is looked up is `", name, "`")
}

/// Adds what a finding says, and what the reader of TOML does.
pub(crate) fn put_said(out: &mut String, told: &Told) -> Result<(), AllocError>
    ensures { OnOk result (string_bytes out.new ≡ string_bytes out.old ++ said told.now) }
{
    put_message(out, &told.finding)?;
    put_reason(out, told.reason.as_str())
}

/// Adds what the reader of TOML says, if it says anything.
fn put_reason(out: &mut String, reason: &str) -> Result<(), AllocError>
    ensures { OnOk result (string_bytes out.new ≡ string_bytes out.old ++ reason_text reason.now) }
{
    if reason.is_empty() {
        return Ok(());
    }
    put(out, ": ")?;
    put(out, reason)
}

/// Adds how many more findings there are, if there are any.
fn put_more(out: &mut String, file: &str, more: u64) -> Result<(), AllocError>
    ensures { OnOk result (string_bytes out.new ≡ string_bytes out.old ++ more_text file.now more) }
{
    if more == 0 {
        return Ok(());
    }
    put(out, file)?;
    put(out, ": ")?;
    put_number(out, more)?;
    put(out, " more\n")
}
