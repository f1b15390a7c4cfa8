//! The checks of the values in force.

ghost use Rattle.std.specs.Prelude.{◌≡◌, true, None, Ok};
ghost use Rattle.std.specs.Result.{result_and};
ghost use Rattle.std.specs.List.{find};
ghost use Rattle.toml.specs.View.{view};
ghost use Rattle.bh_props.specs.InForce.{in_force};
ghost use Rattle.bh_props.specs.Found.{AreFound, IsFound};
ghost use Rattle.bh_props.specs.Subjects.{properties_of};
ghost use Rattle.bh_props.specs.Refusals.{is_at_fault, has_whole_buckets, refusal, checked_values, checked_windows, number};

use crate::error::SettingsError;
use crate::in_force::{Given, Sections};
use crate::property::Property;
use crate::subject::{Scope, Subject};
use crate::value::{Fault, PropertyValue};
use bh_base::Text;

/// Refuses the first value in force that is of another type, else the first that is out of its range.
pub(crate) fn check_types_and_ranges(
    sections: &Sections,
    subjects: &[Subject],
) -> Result<(), SettingsError>
    requires { AreFound sections.now }
    ensures { result ≡ result_and (checked_values Fault.WrongType (view sections.now.root.now) subjects.now)
        (checked_values Fault.OutOfRange (view sections.now.root.now) subjects.now) }
{
    // Where nothing is at fault, one look at each value says so for both faults.
    if are_sound(sections, subjects) {
        return Ok(());
    }
    check_values(sections, Fault::WrongType, subjects)?;
    check_values(sections, Fault::OutOfRange, subjects)
}

/// Whether no value in force has a fault.
fn are_sound(sections: &Sections, subjects: &[Subject]) -> bool
    requires { AreFound sections.now }
    ensures { result ≡ true → (fault : Fault) → checked_values fault (view sections.now.root.now) subjects.now ≡ Ok tt }
{
    for subject in subjects {
        if !is_sound(sections, subject.name.as_str(), subject.scope) {
            return false;
        }
    }
    true
}

/// Whether no value in force of a subject of the name and the scope has a fault.
fn is_sound(sections: &Sections, name: &str, scope: Scope) -> bool
    requires { AreFound sections.now }
    ensures { result ≡ true → (fault : Fault)
        → find (is_at_fault fault name.now (view sections.now.root.now)) (properties_of scope) ≡ None }
{
    let given = sections.named(name);
    have_no_fault(&given, scope.properties())
}

/// Whether none of the properties has a value in force with a fault.
fn have_no_fault(given: &Given, properties: &[Property]) -> bool
    requires { IsFound given.now }
    ensures { result ≡ true → (fault : Fault)
        → find (is_at_fault fault given.now.name.now (view given.now.sections.root.now)) properties.now ≡ None }
{
    for property in properties {
        if given.in_force(*property).is_err() {
            return false;
        }
    }
    true
}

/// Refuses the first value in force that has the fault: by subjects in their order, then by properties.
fn check_values(
    sections: &Sections,
    fault: Fault,
    subjects: &[Subject],
) -> Result<(), SettingsError>
    requires { AreFound sections.now }
    ensures { result ≡ checked_values fault (view sections.now.root.now) subjects.now }
{
    for subject in subjects {
        if let Some(property) = first_at_fault(
            sections,
            fault,
            subject.name.as_str(),
            subject.scope,
        ) {
            return Err(refusal(fault, subject.name, property));
        }
    }
    Ok(())
}

/// The first property of a subject of the name and the scope whose value in force has the fault.
fn first_at_fault(sections: &Sections, fault: Fault, name: &str, scope: Scope) -> Option<Property>
    requires { AreFound sections.now }
    ensures { result ≡ find (is_at_fault fault name.now (view sections.now.root.now)) (properties_of scope) }
{
    let given = sections.named(name);
    first_of(&given, fault, scope.properties())
}

/// The first of the properties whose value in force has the fault.
fn first_of(given: &Given, fault: Fault, properties: &[Property]) -> Option<Property>
    requires { IsFound given.now }
    ensures { result ≡ find (is_at_fault fault given.now.name.now (view given.now.sections.root.now)) properties.now }
{
    for property in properties {
        if is_at_fault(given, fault, *property) {
            return Some(*property);
        }
    }
    None
}

/// Whether the property's value in force has the fault.
pub fn is_at_fault(given: &Given, fault: Fault, property: Property) -> bool
    requires { IsFound given.now }
    ensures { result ≡ is_at_fault fault given.now.name.now (view given.now.sections.root.now) property }
{
    matches!(
        (given.in_force(property), fault),
        (Err(Fault::WrongType), Fault::WrongType) | (Err(Fault::OutOfRange), Fault::OutOfRange)
    )
}

/// The refusal of a value that has the fault.
fn refusal(fault: Fault, name: Text<32>, property: Property) -> SettingsError
    ensures { result ≡ refusal fault name property }
{
    match fault {
        Fault::WrongType => SettingsError::WrongType { name, property },
        Fault::OutOfRange => SettingsError::OutOfRange { name, property },
    }
}

/// Refuses the first subject whose window is not a multiple of its buckets.
pub(crate) fn check_windows(sections: &Sections, subjects: &[Subject]) -> Result<(), SettingsError>
    requires { AreFound sections.now }
    ensures { result ≡ checked_windows (view sections.now.root.now) subjects.now }
{
    for subject in subjects {
        if !has_whole_buckets(sections, subject.name.as_str()) {
            return Err(SettingsError::NotMultiple { name: subject.name });
        }
    }
    Ok(())
}

/// Whether the window in force is a multiple of the buckets.
pub fn has_whole_buckets(sections: &Sections, name: &str) -> bool
    requires { AreFound sections.now }
    ensures { result ≡ has_whole_buckets name.now (view sections.now.root.now) }
{
    let given = sections.named(name);
    let window = given.number(Property::Window);
    let buckets = given.number(Property::Buckets);
    window.is_multiple_of(buckets)
}

impl Given<'_> {
    /// The number in force of a property that is a number and has no fault.
    pub fn number(&self, property: Property) -> u64
        requires { IsFound self.now }
        ensures { result ≡ number (in_force property self.now.name.now (view self.now.sections.root.now)) }
    {
        match self.in_force(property) {
            Ok(PropertyValue::Number(n)) => n,
            _ => 0,
        }
    }
}
