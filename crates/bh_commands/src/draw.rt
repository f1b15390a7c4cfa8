//! The picture of a script.

ghost use Rattle.std.specs.Prelude.{◌≡◌, ◌⊎◌, IsErr, IsOk, OnOk};
ghost use Rattle.bh_props.specs.SettingsFile.{settings_in};
ghost use Rattle.bh_commands.specs.Status.{IsWhole, WritesPicture};

use crate::report;
use bh_base::{Moment, Text};
use bh_columns::record::{Recording, record_script};
use bh_columns::selection::Selection;
use bh_draw::picture::picture;
use bh_lines::PortError;
use bh_props::{Settings, settings_in};
use bh_streams::{WatchedReader, WatchedWriter, write};
use std::alloc::{AllocError, Global};
use std::io::{Read, Write};

/// What of a run is drawn, and how.
#[derive(Clone, Copy, Debug)]
pub struct Drawing<'a> {
    /// The names of the groups; all groups where there is none.
    pub groups: &'a [&'a str],
    /// Moments from `from` on and before `to`, in milliseconds.
    pub from: Moment,
    pub to: Moment,
    /// The most columns, 2 to 200.
    pub columns: u64,
}

/// Runs the lines of the reader under the settings as `run_file` does, without an answer to each, and writes a picture of
/// what came of them, an SVG. Answers the exit status.
///
/// - 0: the picture of all lines was written, faulty ones among them.
/// - 1: the settings are refused, and nothing was read or written.
/// - 3: a fault, as `PortError` has them, or memory was refused. Where the reader failed, or a line was too long or not
///   UTF-8, the picture of the lines before it was written, and says so. Or a name of `drawing` is that of no group that
///   there ever was, and nothing was written.
///
/// With 1 and 3 a line on `errors` says why.
pub fn draw_file<R: Read, W: Write, E: Write>(
    alloc: Global,
    settings: &[u8],
    drawing: Drawing<'_>,
    reader: &mut R,
    writer: &mut W,
    errors: &mut E,
) -> u8
    ensures status { (result ≡ 0) ⊎ ((result ≡ 1) ⊎ (result ≡ 3)) }
    ensures refused_only { result ≡ 1 → IsErr (settings_in settings.now) }
    ensures refused { IsErr (settings_in settings.now) → ((result ≡ 1) ⊎ (result ≡ 3)) × (reader.new ≡ reader.old) × (writer.new ≡ writer.old) }
    ensures quiet { result ≡ 0 → errors.new ≡ errors.old }
    ensures drawn { result ≡ 0 → WritesPicture (W.contents writer.old) (W.contents writer.new) }
    ensures whole { result ≡ 0 → IsWhole (R.remaining reader.old) }
{
    match settings_in(alloc, settings) {
        Ok(settings) => draw_script(alloc, &settings, drawing, reader, writer, errors),
        Err(error) => report::settings(errors, error),
    }
}

/// Draws the lines of the reader, and answers the exit status.
fn draw_script<R: Read, W: Write, E: Write>(
    alloc: Global,
    settings: &Settings,
    drawing: Drawing<'_>,
    reader: &mut R,
    writer: &mut W,
    errors: &mut E,
) -> u8
    ensures status { (result ≡ 0) ⊎ (result ≡ 3) }
    ensures quiet { result ≡ 0 → errors.new ≡ errors.old }
    ensures drawn { result ≡ 0 → WritesPicture (W.contents writer.old) (W.contents writer.new) }
    ensures whole { result ≡ 0 → IsWhole (R.remaining reader.old) }
{
    match write_picture(alloc, settings, drawing, reader, writer) {
        Ok(()) => 0,
        Err(DrawError::Port(error)) => report::port(errors, error),
        Err(DrawError::NoGroup(place)) => {
            report::group(errors, drawing.groups.get(place).copied().unwrap_or(""))
        }
    }
}

/// Why there is no whole picture.
#[derive(Clone, Copy, Debug)]
enum DrawError {
    Port(PortError),
    /// No group ever had the name at that place.
    NoGroup(usize),
}

impl From<PortError> for DrawError {
    ghost use Rattle.std.specs.Prelude.{◌≡◌};
    ghost use Rattle.bh_commands.specs.declared.draw.DrawError.TheVariants.{Port};

    ghost from_gives = { λ error made. made ≡ Port error };

    fn from(error: PortError) -> DrawError {
        DrawError::Port(error)
    }
}

impl From<AllocError> for DrawError {
    fn from(_refused: AllocError) -> DrawError {
        DrawError::Port(PortError::Memory)
    }
}

/// Writes the picture of the lines of the reader, also where they end at a fault.
fn write_picture<R: Read, W: Write>(
    alloc: Global,
    settings: &Settings,
    drawing: Drawing<'_>,
    reader: &mut R,
    writer: &mut W,
) -> Result<(), DrawError>
    ensures drawn { OnOk result (WritesPicture (W.contents writer.old) (W.contents writer.new)) }
    ensures whole { OnOk result (IsWhole (R.remaining reader.old)) }
{
    let selection = selection_of(alloc, drawing)?;
    let mut recording = Recording::new(alloc, settings, selection)?;
    let mut reader = WatchedReader::new(reader);
    let ended = record_script(alloc, &mut reader, settings, &mut recording);
    write_recorded(alloc, settings, drawing, &recording, ended, writer)
}

/// Writes the picture of what was recorded until the lines ended so.
fn write_recorded<W: Write>(
    alloc: Global,
    settings: &Settings,
    drawing: Drawing<'_>,
    recording: &Recording,
    ended: Result<(), PortError>,
    writer: &mut W,
) -> Result<(), DrawError>
    ensures drawn { OnOk result (WritesPicture (W.contents writer.old) (W.contents writer.new)) }
    ensures whole { OnOk result (IsOk ended) }
{
    if ended.is_ok() {
        find_groups(recording, drawing.groups)?;
    }
    let drawn = picture(alloc, settings, recording, drawing.columns, ended.err())?;
    let mut writer = WatchedWriter::new(writer);
    write(&mut writer, drawn.as_str().as_bytes())?;
    Ok(ended?)
}

/// What of the run is kept. A name that is too long for a group is refused.
fn selection_of(alloc: Global, drawing: Drawing<'_>) -> Result<Selection, DrawError> {
    let mut groups = Vec::with_capacity(alloc, drawing.groups.len())?;
    for (place, name) in drawing.groups.iter().enumerate() {
        let Ok(name) = Text::new(name) else {
            return Err(DrawError::NoGroup(place));
        };
        groups.push(name).map_err(AllocError::from)?;
    }
    Ok(Selection {
        groups,
        from: drawing.from,
        to: drawing.to,
        columns: drawing.columns,
    })
}

/// Refuses a name that no group of the run ever had, by its place.
fn find_groups(recording: &Recording, names: &[&str]) -> Result<(), DrawError> {
    for (place, name) in names.iter().enumerate() {
        if !was_there(recording, name) {
            return Err(DrawError::NoGroup(place));
        }
    }
    Ok(())
}

/// Whether a group of the run had the name.
fn was_there(recording: &Recording, name: &str) -> bool {
    let Ok(name) = Text::new(name) else {
        return false;
    };
    for entry in recording.groups.entries().iter() {
        if entry.name == name {
            return true;
        }
    }
    false
}
