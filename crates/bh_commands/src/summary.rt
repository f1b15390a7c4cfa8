//! What a script came to, command by command.

ghost use Rattle.std.specs.Prelude.{◌≡◌, ◌⊎◌, IfOk, IfSome, IsErr, OnOk, map};
ghost use Rattle.bh_lines.specs.Lines.{cut};
ghost use Rattle.bh_look.specs.Rows.{row_said};
ghost use Rattle.bh_props.specs.SettingsFile.{settings_in};
ghost use Rattle.bh_props.specs.Shown.{settings_view};
ghost use Rattle.bh_commands.specs.Status.{IsWhole, WritesText};
ghost use Rattle.bh_commands.specs.Summary.{HasRows, WritesSummary};

use crate::report;
use bh_lines::PortError;
use bh_look::rows::{Row, rows};
use bh_look::summary::watch_script;
use bh_look::table::{put_objects, put_table};
use bh_look::watch::Watch;
use bh_props::{Settings, settings_in};
use bh_streams::{WatchedReader, WatchedWriter, write};
use std::alloc::{AllocError, Global};
use std::io::{Read, Write};

/// How a summary is written.
#[derive(Clone, Copy, Debug, PartialEq, Eq)]
pub enum SummaryForm {
    /// A table, aligned for a terminal.
    Table,
    /// An object of JSON for each command.
    Objects,
}

/// Runs the lines of the reader under the settings as `run_file` does, without an answer to each, and writes what the
/// requests of each command came to. Answers the exit status.
///
/// - 0: the summary of all lines was written, faulty ones among them.
/// - 1: the settings are refused, and nothing was read or written.
/// - 3: a fault, as `PortError` has them, or memory was refused. Where the reader failed, or a line was too long or not
///   UTF-8, the summary of the lines before it was written.
///
/// With 1 and 3 a line on `errors` says why.
pub fn summary_file<R: Read, W: Write, E: Write>(
    alloc: Global,
    settings: &[u8],
    form: SummaryForm,
    reader: &mut R,
    writer: &mut W,
    errors: &mut E,
) -> u8
    ensures status { (result ≡ 0) ⊎ ((result ≡ 1) ⊎ (result ≡ 3)) }
    ensures refused_only { result ≡ 1 → IsErr (settings_in settings.now) }
    ensures refused { IsErr (settings_in settings.now) → ((result ≡ 1) ⊎ (result ≡ 3)) × (reader.new ≡ reader.old) × (writer.new ≡ writer.old) }
    ensures quiet { result ≡ 0 → errors.new ≡ errors.old }
    ensures written { result ≡ 0 → WritesText (W.contents writer.old) (W.contents writer.new) }
    ensures summary { result ≡ 0 → IfOk (settings_in settings.now) (λ service. IfSome (R.remaining reader.old) (λ input.
        WritesSummary form service (cut input) (W.contents writer.old) (W.contents writer.new))) }
    ensures whole { result ≡ 0 → IsWhole (R.remaining reader.old) }
{
    match settings_in(alloc, settings) {
        Ok(settings) => summarize(alloc, &settings, form, reader, writer, errors),
        Err(error) => report::settings(errors, error),
    }
}

/// Writes the summary of the lines of the reader, and answers the exit status.
fn summarize<R: Read, W: Write, E: Write>(
    alloc: Global,
    settings: &Settings,
    form: SummaryForm,
    reader: &mut R,
    writer: &mut W,
    errors: &mut E,
) -> u8
    ensures status { (result ≡ 0) ⊎ (result ≡ 3) }
    ensures quiet { result ≡ 0 → errors.new ≡ errors.old }
    ensures written { result ≡ 0 → WritesText (W.contents writer.old) (W.contents writer.new) }
    ensures summary { result ≡ 0 → IfSome (R.remaining reader.old) (λ input.
        WritesSummary form (settings_view settings.now) (cut input) (W.contents writer.old) (W.contents writer.new)) }
    ensures whole { result ≡ 0 → IsWhole (R.remaining reader.old) }
{
    match write_summary(alloc, settings, form, reader, writer) {
        Ok(()) => 0,
        Err(error) => report::port(errors, error),
    }
}

/// Writes the summary of the lines of the reader, also where they end at a fault.
fn write_summary<R: Read, W: Write>(
    alloc: Global,
    settings: &Settings,
    form: SummaryForm,
    reader: &mut R,
    writer: &mut W,
) -> Result<(), PortError>
    ensures written { OnOk result (WritesText (W.contents writer.old) (W.contents writer.new)) }
    ensures summary { OnOk result (IfSome (R.remaining reader.old) (λ input.
        WritesSummary form (settings_view settings.now) (cut input) (W.contents writer.old) (W.contents writer.new))) }
    ensures whole { OnOk result (IsWhole (R.remaining reader.old)) }
{
    let mut watch = Watch::open(alloc, settings)?;
    let mut reader = WatchedReader::new(reader);
    let ended = watch_script(alloc, &mut reader, settings, &mut watch);
    let rows = rows(alloc, settings, &watch)?;
    let text = summary_text(alloc, form, rows.as_slice(), &watch)?;
    let mut writer = WatchedWriter::new(writer);
    write(&mut writer, text.as_slice())?;
    ended
}

/// The rows in the form.
fn summary_text(
    alloc: Global,
    form: SummaryForm,
    rows: &[Row],
    watch: &Watch,
) -> Result<Vec<u8>, AllocError>
    ensures { IfOk result (λ text. HasRows form (map row_said rows.now) text.items) }
{
    let mut text = Vec::new(alloc);
    match form {
        SummaryForm::Table => put_table(alloc, &mut text, rows, watch)?,
        SummaryForm::Objects => put_objects(&mut text, rows)?,
    }
    Ok(text)
}
