//! A run of the service over a script.

ghost use Rattle.std.specs.Prelude.{◌≡◌, ◌⊎◌, IfSome, IfOk, IsErr};
ghost use Rattle.bh_props.specs.Shown.{settings_view};
ghost use Rattle.bh_props.specs.SettingsFile.{settings_in};
ghost use Rattle.bh_lines.specs.Lines.{cut};
ghost use Rattle.bh_port.specs.Course.{new_course};
ghost use Rattle.bh_port.specs.Script.{ScriptOutcome};
ghost use Rattle.bh_commands.specs.Status.{RunStatus};

use crate::explain::notes::{NotedReader, NotedWriter, Notes};
use crate::{explain, report};
use bh_lines::PortError;
use bh_port::script::script;
use bh_props::{Settings, settings_in};
use bh_streams::{WatchedReader, WatchedWriter};
use std::alloc::Global;
use std::cell::RefCell;
use std::io::{Read, Write};

/// Runs the lines of the reader under the settings, and answers the exit status.
///
/// - 0: each line was answered, a faulty one by its fault.
/// - 1: the settings are refused, and nothing was read or written.
/// - 3: a fault, as `PortError` has them, or memory was refused. Each line before it may have been answered.
///
/// With 1 and 3 a line on `errors` says why.
pub fn run_file<R: Read, W: Write, E: Write>(
    alloc: Global,
    settings: &[u8],
    reader: &mut R,
    writer: &mut W,
    errors: &mut E,
) -> u8
    ensures status { (result ≡ 0) ⊎ ((result ≡ 1) ⊎ (result ≡ 3)) }
    ensures refused_only { result ≡ 1 → IsErr (settings_in settings.now) }
    ensures refused { IsErr (settings_in settings.now) → ((result ≡ 1) ⊎ (result ≡ 3)) × (reader.new ≡ reader.old) × (writer.new ≡ writer.old) }
    ensures quiet { result ≡ 0 → errors.new ≡ errors.old }
    ensures run { IfOk (settings_in settings.now) (λ service. IfSome (R.remaining reader.old) (λ input.
        RunStatus service (cut input) (W.contents writer.old) (W.contents writer.new) result)) }
{
    match settings_in(alloc, settings) {
        Ok(settings) => run_script(alloc, &settings, reader, writer, errors),
        Err(error) => report::settings(errors, error),
    }
}

/// What a run that is explained comes to.
#[derive(Drop)]
pub struct Explained<R, W, E> {
    /// The exit status, as `run_file` has it.
    pub status: u8,
    /// The reader, as the run left it.
    pub reader: R,
    /// The writer, as the run left it.
    pub writer: W,
    /// The writer of the texts, as the run left it.
    pub errors: E,
}

/// The same, with lines on `errors` that say more: a second one where the settings are refused or a fault ended the run,
/// and one for each faulty line, once its answer was written: the number of the line, and what is amiss with it.
pub fn run_explained<R: Read, W: Write, E: Write>(
    alloc: Global,
    settings: &[u8],
    reader: R,
    writer: W,
    mut errors: E,
) -> Explained<R, W, E>
    ensures status { (result.status ≡ 0) ⊎ ((result.status ≡ 1) ⊎ (result.status ≡ 3)) }
    ensures refused_only { result.status ≡ 1 → IsErr (settings_in settings.now) }
    ensures refused { IsErr (settings_in settings.now) → ((result.status ≡ 1) ⊎ (result.status ≡ 3)) × (result.reader ≡ reader) × (result.writer ≡ writer) }
    ensures run { IfOk (settings_in settings.now) (λ service. IfSome (R.remaining reader) (λ input.
        RunStatus service (cut input) (W.contents writer) (W.contents result.writer) result.status)) }
{
    match settings_in(alloc, settings) {
        Ok(settings) => run_noted(alloc, &settings, reader, writer, errors),
        Err(error) => {
            let status = report::settings(&mut errors, error);
            explain::refused_settings(&mut errors, alloc, settings);
            Explained {
                status,
                reader,
                writer,
                errors,
            }
        }
    }
}

/// Runs the lines of the reader for the groups of the settings, and explains each that is at fault.
fn run_noted<R: Read, W: Write, E: Write>(
    alloc: Global,
    settings: &Settings,
    reader: R,
    writer: W,
    errors: E,
) -> Explained<R, W, E>
    ensures status { (result.status ≡ 0) ⊎ (result.status ≡ 3) }
    ensures run { IfSome (R.remaining reader) (λ input.
        RunStatus (settings_view settings.now) (cut input) (W.contents writer) (W.contents result.writer) result.status) }
{
    let notes = RefCell::new(Notes::new(alloc, errors));
    let mut noted_reader = NotedReader {
        reader,
        notes: &notes,
    };
    let mut noted_writer = NotedWriter {
        writer,
        notes: &notes,
    };
    let ended = run_lines(alloc, settings, &mut noted_reader, &mut noted_writer);
    let NotedReader { reader, notes: _ } = noted_reader;
    let NotedWriter { writer, notes: _ } = noted_writer;
    let mut notes = notes.into_inner();
    let status = notes.status_of(ended);
    let Notes { errors, .. } = notes;
    Explained {
        status,
        reader,
        writer,
        errors,
    }
}

/// Runs the lines of the reader for the groups of the settings, and answers the exit status.
fn run_script<R: Read, W: Write, E: Write>(
    alloc: Global,
    settings: &Settings,
    reader: &mut R,
    writer: &mut W,
    errors: &mut E,
) -> u8
    ensures status { (result ≡ 0) ⊎ (result ≡ 3) }
    ensures quiet { result ≡ 0 → errors.new ≡ errors.old }
    ensures run { IfSome (R.remaining reader.old) (λ input.
        RunStatus (settings_view settings.now) (cut input) (W.contents writer.old) (W.contents writer.new) result) }
{
    match run_lines(alloc, settings, reader, writer) {
        Ok(()) => 0,
        Err(error) => report::port(errors, error),
    }
}

/// Runs the lines of the reader for the groups of the settings.
fn run_lines<R: Read, W: Write>(
    alloc: Global,
    settings: &Settings,
    reader: &mut R,
    writer: &mut W,
) -> Result<(), PortError>
    ensures { IfSome (R.remaining reader.old) (λ input.
        ScriptOutcome (W.contents writer.old) (W.contents writer.new) (settings_view settings.now) (new_course (settings_view settings.now)) (cut input) result) }
{
    let mut reader = WatchedReader::new(reader);
    let mut writer = WatchedWriter::new(writer);
    script(alloc, &mut reader, &mut writer, settings)
}
