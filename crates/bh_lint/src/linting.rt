//! All that is amiss in a settings file.

ghost use Rattle.std.specs.Prelude.{◌≡◌, ◌≢◌, ◌≤◌, ◌++◌, ◌∷◌, [], length, IfOk, Ok, Err};
ghost use Rattle.toml.specs.View.{view};
ghost use Rattle.bh_props.specs.Names.{names_of};
ghost use Rattle.bh_props.specs.Commands.{commands_of};
ghost use Rattle.bh_lint.specs.Findings.{errors_of_named, warnings_of_named, errors_with, warnings_with, commands_or_none, command_errors, service_errors, subject_errors, unknown_names, doubts_in};
ghost use Rattle.bh_lint.specs.Table.{knows_in};
ghost use Rattle.bh_props.specs.Found.{AreFound};
ghost use Rattle.bh_props.specs.Subjects.{subjects};

use crate::errors::subject_errors;
use crate::finding::Finding;
use crate::unknown::add_of_service;
use crate::warnings::{add_doubts, unknown_names};
use bh_props::{
    Commands, Names, Sections, SettingsError, Subject, all_subjects, commands_by_group,
    further_commands, group_names,
};
use std::alloc::{AllocError, Global};
use toml::Value;

/// All that is amiss in a settings file.
#[derive(Drop)]
pub struct Findings {
    /// What a check refuses, in the order of the checks.
    pub errors: Vec<Finding>,
    /// What is there to no purpose, or can hardly be meant.
    pub warnings: Vec<Finding>,
}

/// All that is amiss in a parsed file.
///
/// Where the names of the groups are refused, nothing else is looked at. Where a further command is refused, no further
/// command is.
pub fn lint_tree(alloc: Global, root: &Value) -> Result<Findings, AllocError>
    ensures errors { IfOk result (λ found. found.errors.items ≡ errors_of_named (view root.now) (names_of (view root.now))) }
    ensures warnings { IfOk result (λ found. found.warnings.items ≡ warnings_of_named (view root.now) (names_of (view root.now))) }
{
    match group_names(alloc, root) {
        Ok(names) => lint_named(alloc, root, &names),
        Err(SettingsError::Memory) => Err(AllocError),
        Err(refusal) => Ok(Findings {
            errors: vec![in alloc; Finding::of_refusal(refusal)]?,
            warnings: Vec::new(alloc),
        }),
    }
}

/// All that is amiss in a parsed file with these groups.
fn lint_named(alloc: Global, root: &Value, names: &Names) -> Result<Findings, AllocError>
    requires few { length names.now.texts.keys ≤ 1000 }
    requires listed { names_of (view root.now) ≡ Ok names.now.texts.keys }
    ensures errors { IfOk result (λ found. found.errors.items
        ≡ errors_with names.now.texts.keys (commands_of names.now.texts.keys (view root.now)) (view root.now)) }
    ensures warnings { IfOk result (λ found. found.warnings.items
        ≡ warnings_with names.now.texts.keys (commands_or_none (commands_of names.now.texts.keys (view root.now))) (view root.now)) }
{
    match further_commands(alloc, root, names) {
        Ok(commands) => lint_with(alloc, root, names, &commands, &[]),
        Err(SettingsError::Memory) => Err(AllocError),
        Err(refusal) => lint_refused(alloc, root, names, refusal),
    }
}

/// The findings in a parsed file with these groups, where the further commands are refused.
fn lint_refused(
    alloc: Global,
    root: &Value,
    names: &Names,
    refusal: SettingsError,
) -> Result<Findings, AllocError>
    requires few { length names.now.texts.keys ≤ 1000 }
    requires listed { names_of (view root.now) ≡ Ok names.now.texts.keys }
    ensures errors { IfOk result (λ found. found.errors.items ≡ errors_with names.now.texts.keys (Err refusal) (view root.now)) }
    ensures warnings { IfOk result (λ found. found.warnings.items ≡ warnings_with names.now.texts.keys [] (view root.now)) }
{
    let none = Commands::new(alloc);
    let refused = Finding::of_refusal(refusal);
    lint_with(alloc, root, names, &none, &[refused])
}

/// The findings in a parsed file with these groups and further commands, where so much was refused of those.
fn lint_with(
    alloc: Global,
    root: &Value,
    names: &Names,
    commands: &Commands,
    refused: &[Finding],
) -> Result<Findings, AllocError>
    requires { length names.now.texts.keys ≤ 1000 }
    ensures errors { IfOk result (λ found. found.errors.items
        ≡ service_errors names.now.texts.keys (view root.now)
        ++ (refused.now ++ subject_errors (view root.now) (subjects names.now.texts.keys commands.now.entries))) }
    ensures warnings { IfOk result (λ found. found.warnings.items
        ≡ unknown_names (knows_in names.now.texts.keys commands.now.entries) (view root.now) (subjects names.now.texts.keys commands.now.entries)
        ++ doubts_in (view root.now) (subjects names.now.texts.keys commands.now.entries)) }
{
    let further = commands_by_group(alloc, names.texts.len(), commands)?;
    let subjects = all_subjects(alloc, names.texts.as_slice(), &further)?;
    let sections = Sections::of(root);
    let errors = errors_with(alloc, &sections, names, refused, &subjects)?;
    let warnings = warnings_with(alloc, &sections, names, commands, &subjects)?;
    Ok(Findings { errors, warnings })
}

/// The errors in a file with these groups and subjects, where so much was refused of the further commands.
fn errors_with(
    alloc: Global,
    sections: &Sections,
    names: &Names,
    refused: &[Finding],
    subjects: &[Subject],
) -> Result<Vec<Finding>, AllocError>
    requires { AreFound sections.now }
    ensures { IfOk result (λ errors. errors.items ≡ service_errors names.now.texts.keys (view sections.now.root.now)
        ++ (refused.now ++ subject_errors (view sections.now.root.now) subjects.now)) }
{
    let values = subject_errors(alloc, sections, subjects)?;
    let mut errors = Vec::new(alloc);
    add_of_service(&mut errors, alloc, sections.root, names)?;
    errors.extend_from_slice(refused)?;
    errors.extend_from_slice(&values)?;
    Ok(errors)
}

/// The warnings in a file with these groups, further commands and subjects.
fn warnings_with(
    alloc: Global,
    sections: &Sections,
    names: &Names,
    commands: &Commands,
    subjects: &[Subject],
) -> Result<Vec<Finding>, AllocError>
    requires { AreFound sections.now }
    ensures { IfOk result (λ warnings. warnings.items
        ≡ unknown_names (knows_in names.now.texts.keys commands.now.entries) (view sections.now.root.now) subjects.now
        ++ doubts_in (view sections.now.root.now) subjects.now) }
{
    let mut warnings = unknown_names(alloc, sections.root, names, commands, subjects)?;
    add_doubts(&mut warnings, sections, subjects)?;
    Ok(warnings)
}
