//! All that is amiss in a settings file, in the form of compilers.

ghost use Rattle.std.specs.Prelude.{◌≡◌, ◌≢◌, ◌⊎◌, ℕ, List, IsErr};
ghost use Rattle.bh_props.specs.SettingsFile.{settings_in};
ghost use Rattle.bh_lint.specs.Report.{errors_in, warnings_in, lint_status};
ghost use Rattle.bh_lint.specs.Reports.{Reports};
ghost use Rattle.bh_commands.specs.Linted.{LintStatus};

use crate::report;
use bh_lint::{Form, Report, lint, put_findings};
use bh_props::SettingsError;
use bh_streams::{WatchedWriter, write};
use std::alloc::{AllocError, Global};
use std::io::Write;

/// How a lint tells what it finds, and what counts as an error.
#[derive(Clone, Copy, Debug)]
pub struct Linting {
    /// How findings are written.
    pub form: Form,
    /// Whether a warning counts as an error.
    pub denies_warnings: bool,
}

/// Writes a line for each finding in the settings of the file of the name, in the form that is asked for, the errors
/// first, at most 1,000, and then how many more there are. Answers the exit status.
///
/// - 0: nothing is amiss, or there are warnings alone that are not denied.
/// - 1: there is an error, or a warning and warnings are denied.
/// - 3: the writer failed or took no byte, or memory was refused. A front of the lines may have been written, and a line
///   on `errors` says why.
pub fn lint_file<W: Write, E: Write>(
    alloc: Global,
    file: &str,
    settings: &[u8],
    linting: Linting,
    writer: &mut W,
    errors: &mut E,
) -> u8
    ensures status { (result ≡ 0) ⊎ ((result ≡ 1) ⊎ (result ≡ 3)) }
    ensures refused { IsErr (settings_in settings.now) → (result ≡ 1) ⊎ (result ≡ 3) }
    ensures quiet { result ≢ 3 → errors.new ≡ errors.old }
    ensures told { result ≢ 3 → LintStatus linting file.now settings.now (W.contents writer.old) (W.contents writer.new) result }
{
    match lint(alloc, settings) {
        Ok(found) => tell(alloc, file, &found, linting, writer, errors),
        Err(AllocError) => report::settings(errors, SettingsError::Memory),
    }
}

/// Writes the lines of the report, made whole before the first write, and answers the exit status.
fn tell<W: Write, E: Write>(
    alloc: Global,
    file: &str,
    found: &Report,
    linting: Linting,
    writer: &mut W,
    errors: &mut E,
) -> u8
    ensures status { (result ≡ 0) ⊎ ((result ≡ 1) ⊎ (result ≡ 3)) }
    ensures quiet { result ≢ 3 → errors.new ≡ errors.old }
    ensures told { result ≢ 3 → (bytes : List ℕ) → Reports (errors_in bytes) (warnings_in bytes) found.now
        → LintStatus linting file.now bytes (W.contents writer.old) (W.contents writer.new) result }
{
    let mut lines = Vec::new(alloc);
    if put_findings(&mut lines, linting.form, file, &found.told, found.more).is_err() {
        return report::settings(errors, SettingsError::Memory);
    }
    let mut writer = WatchedWriter::new(writer);
    match write(&mut writer, lines.as_slice()) {
        Ok(()) => found.status(linting.denies_warnings),
        Err(error) => report::port(errors, error),
    }
}
