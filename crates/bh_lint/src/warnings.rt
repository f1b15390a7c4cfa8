//! What is in a settings file to no purpose, or can hardly be meant.

ghost use Rattle.std.specs.Prelude.{◌≡◌, ◌++◌, IfOk, OnOk};
ghost use Rattle.std.specs.List.{flat_map};
ghost use Rattle.toml.specs.View.{view};
ghost use Rattle.bh_props.specs.Found.{AreFound, IsFound};
ghost use Rattle.bh_lint.specs.Table.{knows_in};
ghost use Rattle.bh_lint.specs.Findings.{by_default, doubt_at, doubts_at, doubts_in, unknown_names, unknown_of};

use crate::doubt::Doubt;
use crate::finding::Finding;
use crate::unknown::{add_of_file, add_of_subject};
use bh_base::Text;
use bh_props::{Commands, Given, Names, Scope, Sections, Subject};
use std::alloc::{AllocError, Global};
use toml::Value;

/// What all groups have where they have nothing of their own.
#[tactic(auto, unfolding(crate::specs::Findings::by_default))]
fn by_default() -> Subject
    ensures { result ≡ by_default }
{
    Subject {
        name: Text::new("default").unwrap(),
        scope: Scope::Group,
    }
}

/// The names that nothing looks up, where these are the groups and the further commands.
#[tactic(auto, unfolding(crate::specs::Findings::unknown_names))]
pub(crate) fn unknown_names(
    alloc: Global,
    root: &Value,
    names: &Names,
    commands: &Commands,
    subjects: &[Subject],
) -> Result<Vec<Finding>, AllocError>
    ensures { IfOk result (λ warnings. warnings.items
        ≡ unknown_names (knows_in names.now.texts.keys commands.now.entries) (view root.now) subjects.now) }
{
    let mut warnings = Vec::new(alloc);
    add_of_file(&mut warnings, root, names, commands)?;
    add_of_subject(&mut warnings, root, names, commands, &by_default())?;
    add_of_subjects(&mut warnings, root, names, commands, subjects)?;
    Ok(warnings)
}

/// Adds those in the tables of the subjects.
fn add_of_subjects(
    warnings: &mut Vec<Finding>,
    root: &Value,
    names: &Names,
    commands: &Commands,
    subjects: &[Subject],
) -> Result<(), AllocError>
    ensures { OnOk result (warnings.new.items ≡ warnings.old.items
        ++ flat_map (unknown_of (knows_in names.now.texts.keys commands.now.entries) (view root.now)) subjects.now) }
{
    for subject in subjects {
        add_of_subject(warnings, root, names, commands, subject)?;
    }
    Ok(())
}

/// Adds the doubts about `default` and the subjects.
#[tactic(auto, unfolding(crate::specs::Findings::doubts_in))]
pub(crate) fn add_doubts(
    warnings: &mut Vec<Finding>,
    sections: &Sections,
    subjects: &[Subject],
) -> Result<(), AllocError>
    requires { AreFound sections.now }
    ensures { OnOk result (warnings.new.items ≡ warnings.old.items ++ doubts_in (view sections.now.root.now) subjects.now) }
{
    let default = by_default();
    add_doubts_at(warnings, sections, &default, default.name.as_str())?;
    add_doubts_of(warnings, sections, subjects)
}

/// Adds the doubts about the subjects.
fn add_doubts_of(
    warnings: &mut Vec<Finding>,
    sections: &Sections,
    subjects: &[Subject],
) -> Result<(), AllocError>
    requires { AreFound sections.now }
    ensures { OnOk result (warnings.new.items ≡ warnings.old.items
        ++ flat_map (doubts_at (view sections.now.root.now)) subjects.now) }
{
    for subject in subjects {
        add_doubts_at(warnings, sections, subject, subject.name.as_str())?;
    }
    Ok(())
}

/// Adds those about a subject of the name.
fn add_doubts_at(
    warnings: &mut Vec<Finding>,
    sections: &Sections,
    subject: &Subject,
    name: &str,
) -> Result<(), AllocError>
    requires found { AreFound sections.now }
    requires name { name.now ≡ subject.now.name }
    ensures { OnOk result (warnings.new.items ≡ warnings.old.items ++ doubts_at (view sections.now.root.now) subject.now) }
{
    let given = sections.named(name);
    add_doubts_in(
        warnings,
        &given,
        &subject.name,
        Doubt::of_scope(subject.scope),
    )
}

/// Adds those of these doubts that are told.
fn add_doubts_in(
    warnings: &mut Vec<Finding>,
    given: &Given,
    name: &Text<32>,
    doubts: &[Doubt],
) -> Result<(), AllocError>
    requires found { IsFound given.now }
    requires name { given.now.name.now ≡ name.now }
    ensures { OnOk result (warnings.new.items ≡ warnings.old.items
        ++ flat_map (doubt_at (view given.now.sections.root.now) name.now) doubts.now) }
{
    for doubt in doubts {
        add_doubt(warnings, given, name, *doubt)?;
    }
    Ok(())
}

/// Adds the doubt, where it is told.
fn add_doubt(
    warnings: &mut Vec<Finding>,
    given: &Given,
    name: &Text<32>,
    doubt: Doubt,
) -> Result<(), AllocError>
    requires found { IsFound given.now }
    requires name { given.now.name.now ≡ name.now }
    ensures { OnOk result (warnings.new.items ≡ warnings.old.items
        ++ doubt_at (view given.now.sections.root.now) name.now doubt) }
{
    if doubt.is_told(given) {
        warnings.push(Finding::Doubtful { name: *name, doubt })?;
    }
    Ok(())
}
