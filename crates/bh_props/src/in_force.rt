//! The value that is in force for a group or a further command: its own, else the default one, else the built-in one.

ghost use Rattle.std.specs.Prelude.{◌≡◌, ◌∷◌, ◌++◌, [], codes, map, option_map, option_and_then};
ghost use Rattle.toml.specs.Data.{get};
ghost use Rattle.toml.specs.View.{view};
ghost use Rattle.bh_props.specs.Tree.{keys_of, look_up};
ghost use Rattle.bh_props.specs.Table.{path_of};
ghost use Rattle.bh_props.specs.InForce.{given, in_force};
ghost use Rattle.bh_props.specs.Found.{seen, AreFound, IsFound};

use crate::look_up::{look_up, look_up_keys};
use crate::property::{Place, Property};
use crate::value::{Fault, PropertyValue};
use toml::Value;

/// What a file has for all names, found once.
#[derive(Clone, Copy)]
pub struct Sections<'a> {
    /// The whole file.
    pub root: &'a Value,
    /// What stands under `service.slots`.
    slots: Option<&'a Value>,
    /// What stands under `hystrix.command`.
    commands: Option<&'a Value>,
    /// What stands under `hystrix.threadpool`.
    pools: Option<&'a Value>,
    /// What stands under `hystrix.command.default`.
    default_command: Option<&'a Value>,
}

/// What a file has for a group or a further command.
#[derive(Clone, Copy)]
pub struct Given<'a> {
    /// What it has for all names.
    pub sections: Sections<'a>,
    /// The name of the group or the command.
    pub name: &'a str,
    /// What stands under `hystrix.command` and the name.
    command: Option<&'a Value>,
}

impl<'a> Sections<'a> {
    /// What the file has for all names.
    pub fn of(root: &'a Value) -> Sections<'a>
        ensures found { AreFound result }
        ensures root { result.root.now ≡ root.now }
    {
        let commands = look_up(root, "hystrix.command");
        Sections {
            root,
            slots: look_up(root, "service.slots"),
            commands,
            pools: look_up(root, "hystrix.threadpool"),
            default_command: under(commands, "default"),
        }
    }

    /// What the file has for the name.
    pub fn named(&self, name: &'a str) -> Given<'a>
        requires { AreFound self.now }
        ensures found { IsFound result }
        ensures root { result.sections.root.now ≡ self.now.root.now }
        ensures name { result.name.now ≡ name.now }
    {
        Given {
            sections: *self,
            name,
            command: under(self.commands, name),
        }
    }
}

impl Given<'_> {
    /// The value in force of a property, or why the file's value is refused.
    pub fn in_force(&self, property: Property) -> Result<PropertyValue, Fault>
        requires { IsFound self.now }
        ensures { result ≡ in_force property self.now.name.now (view self.now.sections.root.now) }
    {
        let row = property.row();
        match self.value(property) {
            Some(value) => row.kind.read(value),
            None => Ok(row.built_in),
        }
    }

    /// The value that the file has for a property under the name itself.
    pub fn own(&self, property: Property) -> Option<&Value>
        requires { IsFound self.now }
        ensures { seen result ≡ look_up (path_of property self.now.name.now) (view self.now.sections.root.now) }
    {
        value_under(&self.sections, property, self.name, self.command)
    }

    /// The value that the file has for a property: the name's own, else the default one.
    pub fn value(&self, property: Property) -> Option<&Value>
        requires { IsFound self.now }
        ensures { seen result ≡ given property self.now.name.now (view self.now.sections.root.now) }
    {
        match self.own(property) {
            Some(value) => Some(value),
            None => value_under(
                &self.sections,
                property,
                "default",
                self.sections.default_command,
            ),
        }
    }
}

/// The value that the file has for a property under a key, where `command` is what stands under `hystrix.command` and
/// the key.
fn value_under<'a>(
    sections: &Sections<'a>,
    property: Property,
    key: &str,
    command: Option<&'a Value>,
) -> Option<&'a Value>
    requires found { AreFound sections.now }
    requires command { seen command ≡ look_up (keys_of (codes "hystrix.command") ++ key.now ∷ []) (view sections.now.root.now) }
    ensures { seen result ≡ look_up (path_of property key.now) (view sections.now.root.now) }
{
    let keys = property.name().keys;
    match property.row().place {
        Place::Service => look_up_keys(sections.root, keys),
        Place::ServiceGroup => under(sections.slots, key),
        Place::Command => look_up_keys(command?, keys),
        Place::ThreadPool => look_up_keys(under(sections.pools, key)?, keys),
    }
}

/// The value under the key.
fn under<'a>(value: Option<&'a Value>, key: &str) -> Option<&'a Value>
    ensures { seen result ≡ option_and_then (get key.now) (seen value.entry) }
{
    value?.get(key)
}
