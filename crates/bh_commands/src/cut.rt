//! The lines of some groups, cut out of a script.

ghost use Rattle.std.specs.Prelude.{◌≡◌, ◌⊎◌, ℕ, List, IfSome, IfOk, IsErr};
ghost use Rattle.bh_props.specs.SettingsFile.{settings_in};
ghost use Rattle.bh_cut.specs.Alike.{IsAnsweredAlike};
ghost use Rattle.bh_cut.specs.Named.{texts};
ghost use Rattle.bh_commands.specs.Status.{CutStatus};

use crate::report;
use bh_cut::cut_groups;
use bh_props::settings_in;
use bh_streams::{WatchedReader, WatchedWriter};
use std::alloc::Global;
use std::io::{Read, Write};

/// Writes those lines of the reader that name one of the groups, as `cut_groups` does, and answers the exit status. A run of
/// what was written answers these lines as a run of the whole does, under the same settings.
///
/// - 0: all of these lines were written. There may be none: a name that no line says is no fault.
/// - 1: the settings are refused, and nothing was read or written.
/// - 3: a fault, as `PortError` has them, or memory was refused. What is kept of the lines before it may have been written.
///
/// With 1 and 3 a line on `errors` says why.
pub fn cut_file<R: Read, W: Write, E: Write>(
    alloc: Global,
    settings: &[u8],
    names: &[&str],
    reader: &mut R,
    writer: &mut W,
    errors: &mut E,
) -> u8
    ensures status { (result ≡ 0) ⊎ ((result ≡ 1) ⊎ (result ≡ 3)) }
    ensures refused_only { result ≡ 1 → IsErr (settings_in settings.now) }
    ensures refused { IsErr (settings_in settings.now) → ((result ≡ 1) ⊎ (result ≡ 3)) × (reader.new ≡ reader.old) × (writer.new ≡ writer.old) }
    ensures quiet { result ≡ 0 → errors.new ≡ errors.old }
    ensures kept { IfOk (settings_in settings.now) (λ service. IfSome (R.remaining reader.old) (λ input.
        CutStatus (texts names.now) input (W.contents writer.old) (W.contents writer.new) result)) }
    ensures alike { IfOk (settings_in settings.now) (λ service. (input : List ℕ) → IsAnsweredAlike service (texts names.now) input) }
{
    match settings_in(alloc, settings) {
        Ok(_settings) => cut_script(alloc, names, reader, writer, errors),
        Err(error) => report::settings(errors, error),
    }
}

/// Writes the lines that are kept.
fn cut_script<R: Read, W: Write, E: Write>(
    alloc: Global,
    names: &[&str],
    reader: &mut R,
    writer: &mut W,
    errors: &mut E,
) -> u8
    ensures status { (result ≡ 0) ⊎ (result ≡ 3) }
    ensures quiet { result ≡ 0 → errors.new ≡ errors.old }
    ensures kept { IfSome (R.remaining reader.old) (λ input.
        CutStatus (texts names.now) input (W.contents writer.old) (W.contents writer.new) result) }
{
    let mut reader = WatchedReader::new(reader);
    let mut writer = WatchedWriter::new(writer);
    match cut_groups(alloc, &mut reader, &mut writer, names) {
        Ok(()) => 0,
        Err(error) => report::port(errors, error),
    }
}
