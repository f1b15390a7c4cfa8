//! What a check refuses of values in force: all of it, in the order of the checks.

ghost use Rattle.std.specs.Prelude.{◌≡◌, ◌++◌, IfOk, OnOk};
ghost use Rattle.std.specs.List.{flat_map};
ghost use Rattle.toml.specs.View.{view};
ghost use Rattle.bh_props.specs.Found.{AreFound, IsFound};
ghost use Rattle.bh_lint.specs.Findings.{bad_value, bad_values_of, bad_values, bad_window, subject_errors};

use crate::finding::{Finding, Stands, words_at};
use bh_base::Text;
use bh_props::{Fault, Given, Property, Sections, Subject, has_whole_buckets, is_at_fault};
use std::alloc::{AllocError, Global};

/// What is refused of the subjects: values of another type, then those out of their ranges; where there are none,
/// windows that are not multiples of their buckets.
#[tactic(auto, unfolding(crate::specs::Findings::subject_errors))]
pub(crate) fn subject_errors(
    alloc: Global,
    sections: &Sections,
    subjects: &[Subject],
) -> Result<Vec<Finding>, AllocError>
    requires { AreFound sections.now }
    ensures { IfOk result (λ errors. errors.items ≡ subject_errors (view sections.now.root.now) subjects.now) }
{
    let mut errors = Vec::new(alloc);
    add_bad_values(&mut errors, sections, Fault::WrongType, subjects)?;
    add_bad_values(&mut errors, sections, Fault::OutOfRange, subjects)?;
    if errors.is_empty() {
        add_bad_windows(&mut errors, sections, subjects)?;
    }
    Ok(errors)
}

/// Adds the values in force that have the fault.
fn add_bad_values(
    errors: &mut Vec<Finding>,
    sections: &Sections,
    fault: Fault,
    subjects: &[Subject],
) -> Result<(), AllocError>
    requires { AreFound sections.now }
    ensures { OnOk result (errors.new.items ≡ errors.old.items ++ bad_values fault (view sections.now.root.now) subjects.now) }
{
    for subject in subjects {
        add_bad_values_of(errors, sections, fault, subject, subject.name.as_str())?;
    }
    Ok(())
}

/// Adds those of a subject of the name.
fn add_bad_values_of(
    errors: &mut Vec<Finding>,
    sections: &Sections,
    fault: Fault,
    subject: &Subject,
    name: &str,
) -> Result<(), AllocError>
    requires found { AreFound sections.now }
    requires name { name.now ≡ subject.now.name }
    ensures { OnOk result (errors.new.items ≡ errors.old.items ++ bad_values_of fault (view sections.now.root.now) subject.now) }
{
    let given = sections.named(name);
    add_bad_values_in(
        errors,
        &given,
        fault,
        &subject.name,
        subject.scope.properties(),
    )
}

/// Adds those of some properties.
fn add_bad_values_in(
    errors: &mut Vec<Finding>,
    given: &Given,
    fault: Fault,
    name: &Text<32>,
    properties: &[Property],
) -> Result<(), AllocError>
    requires found { IsFound given.now }
    requires name { given.now.name.now ≡ name.now }
    ensures { OnOk result (errors.new.items ≡ errors.old.items
        ++ flat_map (bad_value fault (view given.now.sections.root.now) name.now) properties.now) }
{
    for property in properties {
        add_bad_value(errors, given, fault, name, *property)?;
    }
    Ok(())
}

/// Adds the property, where its value in force has the fault.
fn add_bad_value(
    errors: &mut Vec<Finding>,
    given: &Given,
    fault: Fault,
    name: &Text<32>,
    property: Property,
) -> Result<(), AllocError>
    requires found { IsFound given.now }
    requires name { given.now.name.now ≡ name.now }
    ensures { OnOk result (errors.new.items ≡ errors.old.items
        ++ bad_value fault (view given.now.sections.root.now) name.now property) }
{
    if is_at_fault(given, fault, property) {
        errors.push(Finding::BadValue {
            fault,
            name: *name,
            property,
            stands: Stands::at(given.value(property)),
            words: words_at(given.value(property)),
        })?;
    }
    Ok(())
}

/// Adds the subjects whose windows are not multiples of their buckets.
fn add_bad_windows(
    errors: &mut Vec<Finding>,
    sections: &Sections,
    subjects: &[Subject],
) -> Result<(), AllocError>
    requires { AreFound sections.now }
    ensures { OnOk result (errors.new.items ≡ errors.old.items ++ flat_map (bad_window (view sections.now.root.now)) subjects.now) }
{
    for subject in subjects {
        add_bad_window(errors, sections, subject)?;
    }
    Ok(())
}

/// Adds the subject, where its window is not a multiple of its buckets.
fn add_bad_window(
    errors: &mut Vec<Finding>,
    sections: &Sections,
    subject: &Subject,
) -> Result<(), AllocError>
    requires { AreFound sections.now }
    ensures { OnOk result (errors.new.items ≡ errors.old.items ++ bad_window (view sections.now.root.now) subject.now) }
{
    if !has_whole_buckets(sections, subject.name.as_str()) {
        errors.push(Finding::NotMultiple { name: subject.name })?;
    }
    Ok(())
}
