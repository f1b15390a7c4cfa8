//! The report on the bytes of a settings file.

ghost use Rattle.std.specs.Prelude.{◌≡◌, ◌⊎◌, ℕ, List, ◌∷◌, [], IfOk};
ghost use Rattle.toml.specs.Parse.{parse_document};
ghost use Rattle.toml.specs.View.{view};
ghost use Rattle.bh_props.specs.Names.{names_of};
ghost use Rattle.bh_props.specs.SettingsFile.{settings_in};
ghost use Rattle.bh_lint.specs.Findings.{errors_of, warnings_of, errors_of_named, warnings_of_named};
ghost use Rattle.bh_lint.specs.Refuses.{RefusesAs};
ghost use Rattle.bh_lint.specs.Finding.{refused};
ghost use Rattle.bh_lint.specs.Report.{errors_in, warnings_in, lint_status, are_some};
ghost use Rattle.bh_lint.specs.Reports.{Reports};

use crate::finding::{Finding, Refusal, shown};
use crate::linting::lint_tree;
use crate::place::{Cursor, Place};
use crate::telling::{first_of, tell};
use crate::told::Told;
use bh_base::Text;
use std::alloc::{AllocError, Global};
use std::str;
use toml::Value;

/// What is told of a settings file.
#[derive(Drop)]
pub struct Report {
    /// The first findings, the errors first.
    pub told: Vec<Told>,
    /// How many findings there are beyond.
    pub more: u64,
    /// Whether there is an error.
    pub has_errors: bool,
    /// Whether there is a warning.
    pub has_warnings: bool,
}

impl Report {
    /// The exit status: 1 with an error, and where warnings are denied with a warning; else 0.
    pub fn status(&self, denies_warnings: bool) -> u8
        ensures range { (result ≡ 0) ⊎ (result ≡ 1) }
        ensures answers { (bytes : List ℕ) → Reports (errors_in bytes) (warnings_in bytes) self.now → result ≡ lint_status denies_warnings bytes }
    {
        if self.has_errors || (denies_warnings && self.has_warnings) {
            1
        } else {
            0
        }
    }
}

/// The report on the bytes of a settings file. Bytes that are not UTF-8 are no TOML.
///
/// There is an error exactly where a check refuses the file, and the first error is that refusal.
#[tactic(auto, using(crate::proofs::InBytes::in_refused))]
pub fn lint(alloc: Global, bytes: &[u8]) -> Result<Report, AllocError>
    ensures told { IfOk result (Reports (errors_in bytes.now) (warnings_in bytes.now)) }
    ensures refuses { RefusesAs (errors_in bytes.now) (settings_in bytes.now) }
{
    match str::from_utf8(bytes) {
        Ok(text) => report_text(alloc, text),
        Err(error) => refused_at(alloc, bytes, error.valid_up_to(), "the bytes are not UTF-8"),
    }
}

/// The report on a text.
fn report_text(alloc: Global, text: &str) -> Result<Report, AllocError>
    ensures { IfOk result (Reports (errors_of text.now) (warnings_of text.now)) }
{
    match toml::table_from_str(alloc, text) {
        Ok(table) => report_tree(alloc, text, &Value::Table(table)),
        Err(error) => match error.span() {
            Some(span) => refused_at(alloc, text.as_bytes(), span.start, error.message()),
            None => Err(AllocError),
        },
    }
}

/// The report on a parsed text.
fn report_tree(alloc: Global, text: &str, root: &Value) -> Result<Report, AllocError>
    ensures { IfOk result (Reports (errors_of_named (view root.now) (names_of (view root.now))) (warnings_of_named (view root.now) (names_of (view root.now)))) }
{
    let found = lint_tree(alloc, root)?;
    let (first, more) = first_of(alloc, &found)?;
    let told = tell(alloc, text, root, &first)?;
    let has_errors = are_some(&found.errors);
    let has_warnings = are_some(&found.warnings);
    Ok(Report {
        told,
        more: more as u64,
        has_errors,
        has_warnings,
    })
}

/// Whether there are some.
fn are_some(findings: &[Finding]) -> bool
    ensures { result ≡ are_some findings.now }
{
    !findings.is_empty()
}

/// The report on bytes that are no TOML from the offset on, for the reason.
fn refused_at(
    alloc: Global,
    bytes: &[u8],
    offset: usize,
    reason: &str,
) -> Result<Report, AllocError>
    ensures { IfOk result (Reports (Finding.Refused Refusal.Syntax ∷ []) []) }
{
    let Place { line, column } = Cursor::new(bytes).place_at(offset);
    let reason = match Text::new(reason) {
        Ok(text) => text,
        Err(_) => Text::new("").unwrap(),
    };
    let told = Told {
        finding: Finding::Refused(Refusal::Syntax),
        line,
        column,
        nearest: shown(""),
        reason,
    };
    Ok(Report {
        told: vec![in alloc; told]?,
        more: 0,
        has_errors: true,
        has_warnings: false,
    })
}
