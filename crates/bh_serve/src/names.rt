//! The names of the groups and of their commands, by number and by name.

ghost use Rattle.std.specs.Prelude.{◌≡◌, ◌<◌, ◌∷◌, ◌++◌, [], length, IfOk, IfSome, OnOk};
ghost use Rattle.bh_lines.specs.Names.{command_number};
ghost use Rattle.bh_lines.specs.StepLine.{group_number};
ghost use Rattle.bh_port.specs.Course.{names_in};
ghost use Rattle.bh_props.specs.Shown.{settings_view};

use bh_base::{GroupId, Text};
use bh_port::commands::command_number;
use bh_port::steps::group_number;
use bh_props::Settings;
use std::alloc::{AllocError, Global};
use std::marker::Model;

/// The names of the groups of the settings, each at the place that is its group's number, and those of their commands. A
/// number is found by the hash of its name.
#[derive(Drop)]
pub struct GroupNames<'s> {
    listed: Vec<Text<32>>,
    settings: &'s Settings,
}

impl<'s> Model for GroupNames<'s> {
    ghost use Rattle.std.specs.Prelude.{◌≡◌};
    ghost use Rattle.bh_lines.specs.Names.{Names};
    ghost use Rattle.bh_port.specs.Course.{names_in};
    ghost use Rattle.bh_props.specs.Shown.{settings_view};

    ghost Value = { Names };

    ghost view = { λ names. names_in (settings_view names.settings.now) };

    ghost invariant = { λ names. names.listed.items ≡ (names_in (settings_view names.settings.now)).groups };
}

impl<'s> GroupNames<'s> {
    /// The names of the groups of the settings and of their commands. It fails only for want of memory.
    pub fn of(alloc: Global, settings: &'s Settings) -> Result<GroupNames<'s>, AllocError>
        ensures { IfOk result (λ names. names ≡ names_in (settings_view settings.now)) }
    {
        let mut listed = Vec::new(alloc);
        for name in settings.groups.keys() {
            put(&mut listed, *name)?;
        }
        Ok(GroupNames { listed, settings })
    }

    /// The names of the groups, in the order of the numbers.
    pub fn as_slice(&self) -> &[Text<32>]
        ensures { result.now ≡ self.now.groups }
    {
        self.listed.as_slice()
    }

    /// How many groups there are.
    pub fn len(&self) -> usize
        ensures { result ≡ length self.now.groups }
    {
        self.listed.len()
    }

    /// The number of the group of the name, if there is one.
    pub fn number(&self, name: &str) -> Option<u64>
        ensures number { result ≡ group_number self.now.groups name.now }
        ensures within { IfSome result (λ number. number < length self.now.groups) }
    {
        group_number(&self.settings.groups, name)
    }

    /// The number of the group's command of the name, if it has one: 0 where the name is the group's own.
    pub fn command(&self, group: GroupId, name: &str) -> Option<u8>
        ensures { result ≡ command_number self.now group.0 name.now }
    {
        command_number(self.settings, group, name)
    }
}

/// Puts an item behind the others.
fn put<T: Drop>(list: &mut Vec<T>, item: T) -> Result<(), AllocError>
    ensures { OnOk result (list.new.items ≡ list.old.items ++ item ∷ []) }
{
    list.push(item)?;
    Ok(())
}
