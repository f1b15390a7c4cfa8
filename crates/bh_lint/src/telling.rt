//! What is told of findings: the first thousand, each with its place.

ghost use Rattle.std.specs.Prelude.{◌≡◌, ◌++◌, [], map, IfOk, length};
ghost use Rattle.bh_props.specs.Found.{AreFound};
ghost use Rattle.bh_lint.specs.Lines.{first_of, more_of};

use crate::finding::{Finding, shown};
use crate::linting::Findings;
use crate::nearest::nearest;
use crate::path::{Path, path_of};
use crate::place::Place;
use crate::scan::{Sought, find_places};
use crate::told::Told;
use bh_base::Text;
use bh_props::{Commands, Names, Sections, further_commands, group_names};
use indexmap::IndexMap;
use std::alloc::{AllocError, Global};
use toml::Value;

/// The most findings that are told of a file.
pub const MOST_TOLD: usize = 1000;

/// The first errors and warnings, the errors first, and how many are left out.
pub(crate) fn first_of(alloc: Global, found: &Findings) -> Result<(Vec<Finding>, usize), AllocError>
    ensures first { IfOk result (λ r. r.0.items ≡ first_of (found.now.errors.items ++ found.now.warnings.items)) }
    ensures more { IfOk result (λ r. r.1 ≡ more_of (found.now.errors.items ++ found.now.warnings.items)) }
{
    let mut first = Vec::new(alloc);
    first.extend_from_slice(&found.errors)?;
    first.extend_from_slice(&found.warnings)?;
    let more = first.len().saturating_sub(MOST_TOLD);
    first.truncate(MOST_TOLD);
    Ok((first, more))
}

/// The findings of the parsed text, each with its place and what is said beside it.
pub(crate) fn tell(
    alloc: Global,
    text: &str,
    root: &Value,
    findings: &[Finding],
) -> Result<Vec<Told>, AllocError>
    ensures { IfOk result (λ told. map (λ t. t.finding) told.items ≡ findings.now) }
{
    let sections = Sections::of(root);
    let sought = places_of(alloc, text, &sections, findings)?;
    told_in(alloc, root, &sections, &sought, findings)
}

/// The same, where the places are found.
fn told_in(
    alloc: Global,
    root: &Value,
    sections: &Sections,
    sought: &Sought,
    findings: &[Finding],
) -> Result<Vec<Told>, AllocError>
    requires { AreFound sections.now }
    ensures { IfOk result (λ told. map (λ t. t.finding) told.items ≡ findings.now) }
{
    let known = Known::of(alloc, root)?;
    told_of(alloc, sections, sought, &known, findings)
}

/// The same, where the names are known too.
fn told_of(
    alloc: Global,
    sections: &Sections,
    sought: &Sought,
    known: &Known,
    findings: &[Finding],
) -> Result<Vec<Told>, AllocError>
    requires { AreFound sections.now }
    ensures { IfOk result (λ told. map (λ t. t.finding) told.items ≡ findings.now) }
{
    let mut told = Vec::new(alloc);
    for finding in findings {
        told.push(told_at(alloc, sections, sought, known, finding)?)?;
    }
    Ok(told)
}

/// The places of the findings' names, where the text has them.
fn places_of(
    alloc: Global,
    text: &str,
    sections: &Sections,
    findings: &[Finding],
) -> Result<Sought, AllocError>
    requires { AreFound sections.now }
{
    let mut sought = sought_for(alloc, sections, findings)?;
    find_places(alloc, text, &mut sought)?;
    Ok(sought)
}

/// The paths of the findings' names.
fn sought_for(
    alloc: Global,
    sections: &Sections,
    findings: &[Finding],
) -> Result<Sought, AllocError>
    requires { AreFound sections.now }
{
    let mut sought = IndexMap::new(alloc);
    for finding in findings {
        let path = path_of(alloc, sections, finding)?;
        sought.insert(path, None)?;
    }
    Ok(sought)
}

/// The groups and the further commands, as far as they are not refused.
#[derive(Drop)]
struct Known {
    /// The groups; none where their names are refused.
    names: Option<Names>,
    /// The further commands.
    commands: Commands,
}

impl Known {
    /// Those of a parsed file.
    fn of(alloc: Global, root: &Value) -> Result<Known, AllocError> {
        let Ok(names) = group_names(alloc, root) else {
            return Ok(Known {
                names: None,
                commands: IndexMap::new(alloc),
            });
        };
        let commands = match further_commands(alloc, root, &names) {
            Ok(commands) => commands,
            Err(_) => IndexMap::new(alloc),
        };
        Ok(Known {
            names: Some(names),
            commands,
        })
    }
}

/// The finding with its place and what is said beside it.
fn told_at(
    alloc: Global,
    sections: &Sections,
    sought: &Sought,
    known: &Known,
    finding: &Finding,
) -> Result<Told, AllocError>
    requires { AreFound sections.now }
    ensures { IfOk result (λ told. told.finding ≡ finding.now) }
{
    let path: Path = path_of(alloc, sections, finding)?;
    let place = match sought.get(&path) {
        Some(Some(place)) => *place,
        _ => Place::FIRST,
    };
    Ok(Told {
        finding: *finding,
        line: place.line,
        column: place.column,
        nearest: nearest_to(alloc, known, finding)?,
        reason: Text::new("").unwrap(),
    })
}

/// The name that is nearest to one that nothing looks up; empty where none is near.
fn nearest_to(alloc: Global, known: &Known, finding: &Finding) -> Result<Text<64>, AllocError> {
    match (finding, &known.names) {
        (
            Finding::Unknown {
                table,
                name: _,
                key,
            },
            Some(names),
        ) => { nearest(alloc, *table, names, &known.commands, key.as_str()) }
        _ => Ok(shown("")),
    }
}
