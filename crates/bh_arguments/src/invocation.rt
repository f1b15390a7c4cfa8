//! What the arguments ask for.

ghost use Rattle.std.specs.Prelude.{◌≡◌, IfSome, List, None, Some, map, option_map, unwrap_or, codes};
ghost use Rattle.clap.specs.Words.{all_of, first_of, found_of, rows_of, subcommand_name_of, subcommand_rows_of};
ghost use Rattle.clap.specs.Walk.{Row};
ghost use Rattle.bh_arguments.specs.Invocations.{Asks, IsCut, IsDraw, IsFile, IsFlag, IsLint, IsNumber, IsPlace, IsServe, IsService, IsShare, IsSharing, IsSummary, IsText, name_of};
ghost use Rattle.bh_arguments.specs.declared.invocation.Invocation.{Invocation};

use crate::values::{flag_in, groups_in, path_in, u16_in, u32_in, u64_in};
use bh_commands::{Drawing, Place, Serving, SummaryForm};
use bh_serve::Limits;
use bh_share_serve::Sharing;
use clap::ArgMatches;

/// A call of the program, of which the arguments were taken.
#[derive(Clone, Copy)]
pub enum Invocation<'a> {
    /// Shows what is in force under settings.
    Check(SettingsFile<'a>),
    /// Cuts groups out of a script.
    Cut(CutArguments<'a>),
    /// Draws a script.
    Draw(DrawArguments<'a>),
    /// Tells what is amiss in settings.
    Lint(LintArguments<'a>),
    /// Answers a script.
    Run(SettingsFile<'a>),
    /// Serves connections.
    Serve(ServeArguments<'a>),
    /// Serves connections that share groups.
    Share(ShareArguments<'a>),
    /// Tells what a script came to.
    Summary(SummaryArguments<'a>),
}

/// A settings file, and whether more is said of what is refused or at fault.
#[derive(Clone, Copy, Debug)]
pub struct SettingsFile<'a> {
    pub path: &'a str,
    pub explains: bool,
}

/// A cut under a settings file.
#[derive(Clone, Copy, Debug)]
pub struct CutArguments<'a> {
    pub path: &'a str,
    /// The names of the groups whose lines are kept.
    pub groups: &'a [&'a str],
}

/// A picture under a settings file.
#[derive(Clone, Copy, Debug)]
pub struct DrawArguments<'a> {
    pub path: &'a str,
    /// What is drawn. Its moments are as they were given: `to` may be before `from`.
    pub drawing: Drawing<'a>,
}

/// A lint of a settings file.
#[derive(Clone, Copy, Debug)]
pub struct LintArguments<'a> {
    pub path: &'a str,
    /// Whether findings are objects of JSON, not lines.
    pub tells_objects: bool,
    /// Whether a warning counts as an error.
    pub denies_warnings: bool,
}

/// A summary under a settings file.
#[derive(Clone, Copy, Debug)]
pub struct SummaryArguments<'a> {
    pub path: &'a str,
    pub form: SummaryForm,
}

/// A service under a settings file.
#[derive(Clone, Copy)]
pub struct ServeArguments<'a> {
    pub file: SettingsFile<'a>,
    pub serving: Serving<'a>,
    /// Whether the end of standard input ends it.
    pub ends_with_input: bool,
}

/// A service that connections share.
#[derive(Clone, Copy)]
pub struct ShareArguments<'a> {
    pub service: ServeArguments<'a>,
    pub sharing: Sharing,
    /// The file that each step is written to.
    pub record: Option<&'a str>,
}

/// What was asked for, by the matches of `command`; nothing where they have none of its commands.
pub fn invocation_in<'a>(matches: &'a ArgMatches<'_>) -> Option<Invocation<'a>>
    ensures named { IfSome result (λ asked. subcommand_name_of matches.now ≡ Some (name_of asked)) }
    ensures asks { IfSome result (λ asked. (rows : List Row) × (option_map (λ p. p.1) (subcommand_rows_of matches.now) ≡ Some rows) × Asks rows asked) }
    ensures none { result ≡ None → (asked : Invocation) → subcommand_name_of matches.now ≡ Some (name_of asked) → ⊥ }
{
    if let Some(found) = matches.subcommand_matches("check") {
        return Some(Invocation::Check(file_in(found)));
    }
    if let Some(found) = matches.subcommand_matches("cut") {
        return Some(Invocation::Cut(cut_in(found)));
    }
    if let Some(found) = matches.subcommand_matches("draw") {
        return Some(Invocation::Draw(draw_in(found)));
    }
    if let Some(found) = matches.subcommand_matches("lint") {
        return Some(Invocation::Lint(lint_in(found)));
    }
    if let Some(found) = matches.subcommand_matches("run") {
        return Some(Invocation::Run(file_in(found)));
    }
    if let Some(found) = matches.subcommand_matches("serve") {
        return Some(Invocation::Serve(serve_in(found)));
    }
    if let Some(found) = matches.subcommand_matches("share") {
        return Some(Invocation::Share(share_in(found)));
    }
    if let Some(found) = matches.subcommand_matches("summary") {
        return Some(Invocation::Summary(summary_in(found)));
    }
    None
}

/// The settings file of a command that can explain.
fn file_in<'a>(found: &ArgMatches<'a>) -> SettingsFile<'a>
    ensures { IsFile (rows_of (found_of found.now)) result }
{
    SettingsFile {
        path: path_in(found),
        explains: flag_in(found, "explain"),
    }
}

/// The arguments of `cut`.
fn cut_in<'a>(found: &'a ArgMatches<'_>) -> CutArguments<'a>
    ensures { IsCut (rows_of (found_of found.now)) result }
{
    CutArguments {
        path: path_in(found),
        groups: groups_in(found),
    }
}

/// The arguments of `draw`.
fn draw_in<'a>(found: &'a ArgMatches<'_>) -> DrawArguments<'a>
    ensures { IsDraw (rows_of (found_of found.now)) result }
{
    DrawArguments {
        path: path_in(found),
        drawing: Drawing {
            groups: groups_in(found),
            from: u64_in(found, "from", 0),
            to: u64_in(found, "to", u64::MAX),
            columns: u64_in(found, "columns", 80),
        },
    }
}

/// The arguments of `lint`.
fn lint_in<'a>(found: &ArgMatches<'a>) -> LintArguments<'a>
    ensures { IsLint (rows_of (found_of found.now)) result }
{
    LintArguments {
        path: path_in(found),
        tells_objects: flag_in(found, "json"),
        denies_warnings: flag_in(found, "deny-warnings"),
    }
}

/// The arguments of `summary`.
fn summary_in<'a>(found: &ArgMatches<'a>) -> SummaryArguments<'a>
    ensures { IsSummary (rows_of (found_of found.now)) result }
{
    SummaryArguments {
        path: path_in(found),
        form: match flag_in(found, "json") {
            true => SummaryForm::Objects,
            false => SummaryForm::Table,
        },
    }
}

/// The arguments of `serve`. Without `--keep-serving` and `--forever` it ends by itself.
fn serve_in<'a>(found: &ArgMatches<'a>) -> ServeArguments<'a>
    ensures { IsServe (rows_of (found_of found.now)) result }
{
    let (keeps, forever) = (flag_in(found, "keep-serving"), flag_in(found, "forever"));
    service_in(found, keeps | forever, keeps & !forever)
}

/// The arguments of `share`.
fn share_in<'a>(found: &ArgMatches<'a>) -> ShareArguments<'a>
    ensures { IsShare (rows_of (found_of found.now)) result }
{
    ShareArguments {
        service: service_in(found, true, !flag_in(found, "forever")),
        sharing: sharing_in(found),
        record: found.get_str("record"),
    }
}

/// What connections that share a service may have. At a socket they may change properties; at a port where they were allowed to.
fn sharing_in(found: &ArgMatches<'_>) -> Sharing
    ensures { IsSharing (rows_of (found_of found.now)) result }
{
    Sharing {
        tickets: u32_in(found, "tickets", 1),
        contexts: u32_in(found, "contexts", 0),
        may_tune: found.get_str("socket").is_some() | flag_in(found, "tunable"),
    }
}

/// The service that listens where the arguments say.
fn service_in<'a>(
    found: &ArgMatches<'a>,
    keep_serving: bool,
    ends_with_input: bool,
) -> ServeArguments<'a>
    ensures { IsService (rows_of (found_of found.now)) keep_serving ends_with_input result }
{
    let file = file_in(found);
    ServeArguments {
        file,
        serving: Serving {
            place: place_in(found),
            limits: Limits {
                connections: u32_in(found, "connections", 1),
                keep_serving,
                idle_seconds: u32_in(found, "idle", 0),
            },
            explains: file.explains,
        },
        ends_with_input,
    }
}

/// Where a service listens.
fn place_in<'a>(found: &ArgMatches<'a>) -> Place<'a>
    ensures { IsPlace (rows_of (found_of found.now)) result }
{
    match found.get_str("socket") {
        Some(path) => Place::Socket(path),
        None => Place::Port(u16_in(found, "port", 0)),
    }
}
