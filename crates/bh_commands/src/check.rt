//! What is in force under a settings file, shown line by line.

ghost use Rattle.std.specs.Prelude.{◌≡◌, ◌⊎◌, IfOk, IsErr};
ghost use Rattle.bh_props.specs.Shown.{settings_view};
ghost use Rattle.bh_props.specs.SettingsFile.{settings_in};
ghost use Rattle.bh_commands.specs.Status.{CheckStatus};

use crate::{explain, report};
use bh_lines::PortError;
use bh_props::{Settings, settings_in};
use bh_streams::{WatchedWriter, write};
use std::alloc::Global;
use std::io::Write;

/// Writes a line for each group and property, in listed order: the group, the property and the value in force. Behind a
/// group's lines stand those of its further commands, each with the command's name first. Answers the exit status.
///
/// - 0: all lines were written.
/// - 1: the settings are refused, and nothing was written.
/// - 3: the writer failed or took no byte, or memory was refused. A front of the lines may have been written.
///
/// With 1 and 3 a line on `errors` says why.
pub fn check_file<W: Write, E: Write>(
    alloc: Global,
    settings: &[u8],
    writer: &mut W,
    errors: &mut E,
) -> u8
    ensures status { (result ≡ 0) ⊎ ((result ≡ 1) ⊎ (result ≡ 3)) }
    ensures refused_only { result ≡ 1 → IsErr (settings_in settings.now) }
    ensures refused { IsErr (settings_in settings.now) → ((result ≡ 1) ⊎ (result ≡ 3)) × (writer.new ≡ writer.old) }
    ensures quiet { result ≡ 0 → errors.new ≡ errors.old }
    ensures shown { IfOk (settings_in settings.now) (λ service. CheckStatus service (W.contents writer.old) (W.contents writer.new) result) }
{
    match settings_in(alloc, settings) {
        Ok(settings) => show(alloc, &settings, writer, errors),
        Err(error) => report::settings(errors, error),
    }
}

/// The same, with a second line on `errors` for settings that are refused, which says what stands in the way.
pub fn check_explained<W: Write, E: Write>(
    alloc: Global,
    settings: &[u8],
    writer: &mut W,
    errors: &mut E,
) -> u8
    ensures status { (result ≡ 0) ⊎ ((result ≡ 1) ⊎ (result ≡ 3)) }
    ensures refused_only { result ≡ 1 → IsErr (settings_in settings.now) }
    ensures refused { IsErr (settings_in settings.now) → ((result ≡ 1) ⊎ (result ≡ 3)) × (writer.new ≡ writer.old) }
    ensures quiet { result ≡ 0 → errors.new ≡ errors.old }
    ensures shown { IfOk (settings_in settings.now) (λ service. CheckStatus service (W.contents writer.old) (W.contents writer.new) result) }
{
    let status = check_file(alloc, settings, writer, errors);
    if status == 1 {
        explain::refused_settings(errors, alloc, settings);
    }
    status
}

/// Writes the lines of the settings, made whole before the first write.
fn show<W: Write, E: Write>(
    alloc: Global,
    settings: &Settings,
    writer: &mut W,
    errors: &mut E,
) -> u8
    ensures status { (result ≡ 0) ⊎ (result ≡ 3) }
    ensures quiet { result ≡ 0 → errors.new ≡ errors.old }
    ensures shown { CheckStatus (settings_view settings.now) (W.contents writer.old) (W.contents writer.new) result }
{
    let Ok(lines) = settings.to_string(alloc) else {
        return report::port(errors, PortError::Memory);
    };
    let mut writer = WatchedWriter::new(writer);
    match write(&mut writer, lines.as_str().as_bytes()) {
        Ok(()) => 0,
        Err(error) => report::port(errors, error),
    }
}
