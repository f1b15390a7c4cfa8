//! Whose properties are checked and shown: each group, and behind it its further commands.

ghost use Rattle.std.specs.Prelude.{◌≡◌, ◌≤◌, ◌^◌, ◌++◌, length, map, IfOk, OnOk};
ghost use Rattle.bh_props.specs.Commands.{Commands};
ghost use Rattle.bh_props.specs.ByGroup.{AreByGroup};
ghost use Rattle.bh_props.specs.Subjects.{properties_of, a_group, a_command, subjects};

use crate::by_group::Further;
use crate::property::Property;
use bh_base::Text;
use std::alloc::{AllocError, Global};

/// Which properties a subject has.
#[derive(Clone, Copy, Debug, PartialEq, Eq)]
pub enum Scope {
    /// All of them: a group has its own and those of its own command.
    Group,
    /// Those of a command.
    Command,
}

impl Scope {
    /// The properties in the order of the table.
    pub fn properties(self) -> &'static [Property]
        ensures { result.now ≡ properties_of self }
    {
        match self {
            Scope::Group => &Property::ALL,
            Scope::Command => &Property::ALL[2..18],
        }
    }
}

/// A group or a further command.
#[derive(Clone, Copy, Debug)]
pub struct Subject {
    /// Its name.
    pub name: Text<32>,
    /// Which properties it has.
    pub scope: Scope,
}

/// The groups in listed order, each with its further commands, which stand by groups, behind it.
pub fn subjects(
    alloc: Global,
    names: &[Text<32>],
    further: &[Vec<Further>],
) -> Result<Vec<Subject>, AllocError>
    requires { length further.now ≡ length names.now }
    ensures { IfOk result (λ made. (commands : Commands) → AreByGroup commands further.now → made.items ≡ subjects names.now commands) }
{
    let mut subjects = Vec::new(alloc);
    for (place, name) in names.iter().enumerate() {
        subjects.push(Subject {
            name: *name,
            scope: Scope::Group,
        })?;
        push_further(&mut subjects, &further[place])?;
    }
    Ok(subjects)
}

/// Adds the further commands of a group.
fn push_further(subjects: &mut Vec<Subject>, further: &[Further]) -> Result<(), AllocError>
    ensures { OnOk result (subjects.new.items ≡ subjects.old.items ++ map (λ c. a_command c.0) further.now) }
{
    for command in further {
        subjects.push(Subject {
            name: command.0,
            scope: Scope::Command,
        })?;
    }
    Ok(())
}
