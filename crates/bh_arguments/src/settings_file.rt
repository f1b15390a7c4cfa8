//! Commands over a settings file and the standard streams.

ghost use Rattle.std.specs.Prelude.{◌≡◌, ◌≤◌, ◌⊎◌, ◌↔◌};

use crate::invocation::{
    CutArguments, DrawArguments, LintArguments, SettingsFile, SummaryArguments,
};
use crate::run::BAD_ARGUMENTS;
use bh_commands::{
    Linting, Unread, check_explained, check_file, cut_file, draw_file, explain, lint_file,
    read_file, report, run_explained, run_file, summary_file,
};
use bh_lint::Form;
use std::env::VarError;
use std::fs::File;
use std::io::{IsTerminal, Write};
use std::{env, io};

/// Prints what is in force under the settings of the file.
pub(crate) fn check_path(rt: &HostRuntime, file: SettingsFile<'_>) -> u8
    ensures { (result ≡ 0) ⊎ ((result ≡ 1) ⊎ (result ≡ 3)) }
{
    let (alloc, mut errors) = (rt.alloc(), rt.stderr());
    let settings = match read_path(rt, file.path) {
        Ok(settings) => settings,
        Err(unread) => return refuse_file(&mut errors, file, &unread),
    };
    let (mut writer, settings) = (io::writer(rt), settings.as_slice());
    if file.explains {
        return check_explained(alloc, settings, &mut writer, &mut errors);
    }
    check_file(alloc, settings, &mut writer, &mut errors)
}

/// Tells what is amiss in the settings of the file.
pub(crate) fn lint_path(rt: &HostRuntime, arguments: LintArguments<'_>) -> u8
    ensures { (result ≡ 0) ⊎ ((result ≡ 1) ⊎ (result ≡ 3)) }
{
    let mut errors = rt.stderr();
    match read_path(rt, arguments.path) {
        Ok(settings) => lint_file(
            rt.alloc(),
            arguments.path,
            settings.as_slice(),
            linting_of(rt, arguments),
            &mut io::writer(rt),
            &mut errors,
        ),
        Err(unread) => report::unreadable(&mut errors, unread.error),
    }
}

/// How a lint tells what it finds. Lines have colours where standard output is a terminal.
fn linting_of(rt: &HostRuntime, arguments: LintArguments<'_>) -> Linting {
    let form = if arguments.tells_objects {
        Form::Objects
    } else if rt.stdout().is_terminal() && !refuses_colours(rt) {
        Form::Coloured
    } else {
        Form::Lines
    };
    Linting {
        form,
        denies_warnings: arguments.denies_warnings,
    }
}

/// Whether the user wants no colours: the variable `NO_COLOR` is set, and not to an empty text.
fn refuses_colours(rt: &HostRuntime) -> bool {
    match env::var(rt, "NO_COLOR") {
        Ok(text) => !text.is_empty(),
        Err(VarError::NotPresent) => false,
        Err(_) => true,
    }
}

/// Runs standard input under the settings of the file.
pub(crate) fn run_path(rt: &HostRuntime, file: SettingsFile<'_>) -> u8
    ensures { (result ≡ 0) ⊎ ((result ≡ 1) ⊎ (result ≡ 3)) }
{
    let (alloc, mut errors) = (rt.alloc(), rt.stderr());
    let settings = match read_path(rt, file.path) {
        Ok(settings) => settings,
        Err(unread) => return refuse_file(&mut errors, file, &unread),
    };
    let (mut reader, mut writer, settings) = (rt.reader(), io::writer(rt), settings.as_slice());
    if file.explains {
        return run_explained(alloc, settings, reader, writer, errors).status;
    }
    run_file(alloc, settings, &mut reader, &mut writer, &mut errors)
}

/// Cuts the lines of the groups out of standard input.
pub(crate) fn cut_path(rt: &HostRuntime, arguments: CutArguments<'_>) -> u8
    ensures { (result ≡ 0) ⊎ ((result ≡ 1) ⊎ (result ≡ 3)) }
{
    let mut errors = rt.stderr();
    match read_path(rt, arguments.path) {
        Ok(settings) => cut_file(
            rt.alloc(),
            settings.as_slice(),
            arguments.groups,
            &mut rt.reader(),
            &mut io::writer(rt),
            &mut errors,
        ),
        Err(unread) => report::unreadable(&mut errors, unread.error),
    }
}

/// Draws standard input under the settings of the file.
pub(crate) fn draw_path(rt: &HostRuntime, arguments: DrawArguments<'_>) -> u8
    ensures status { result ≤ 3 }
    ensures refused { (result ≡ 2) ↔ (arguments.entry.drawing.to ≤ arguments.entry.drawing.from) }
{
    let (mut errors, drawing) = (rt.stderr(), arguments.drawing);
    if drawing.from >= drawing.to {
        let _ = writeln!(errors, "error: --to has to be a moment behind --from");
        return BAD_ARGUMENTS;
    }
    match read_path(rt, arguments.path) {
        Ok(settings) => draw_file(
            rt.alloc(),
            settings.as_slice(),
            drawing,
            &mut rt.reader(),
            &mut io::writer(rt),
            &mut errors,
        ),
        Err(unread) => report::unreadable(&mut errors, unread.error),
    }
}

/// Tells what standard input comes to under the settings of the file.
pub(crate) fn summary_path(rt: &HostRuntime, arguments: SummaryArguments<'_>) -> u8
    ensures { (result ≡ 0) ⊎ ((result ≡ 1) ⊎ (result ≡ 3)) }
{
    let mut errors = rt.stderr();
    match read_path(rt, arguments.path) {
        Ok(settings) => summary_file(
            rt.alloc(),
            settings.as_slice(),
            arguments.form,
            &mut rt.reader(),
            &mut io::writer(rt),
            &mut errors,
        ),
        Err(unread) => report::unreadable(&mut errors, unread.error),
    }
}

/// Says that the settings file gave no bytes, and answers the exit status.
pub(crate) fn refuse_file<E: Write>(errors: &mut E, file: SettingsFile<'_>, unread: &Unread) -> u8
    ensures { result ≡ 3 }
{
    let status = report::unreadable(errors, unread.error);
    if file.explains {
        explain::unread_file(errors, file.path, unread);
    }
    status
}

/// The bytes of the settings file.
pub(crate) fn read_path(rt: &HostRuntime, path: &str) -> Result<Vec<u8>, Unread> {
    let file = File::open(rt, path)?;
    read_file(rt.alloc(), file)
}
