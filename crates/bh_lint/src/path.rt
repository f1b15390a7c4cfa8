//! Paths of names, as they are sought in a text.

ghost use Rattle.bh_props.specs.Found.{AreFound, IsFound};

use crate::finding::{Finding, Refusal, shown};
use crate::table::Table;
use bh_props::{Given, Place, Property, Sections, value_at};
use std::alloc::{AllocError, Global};
use toml::Value;

/// The keys of a path, each behind a line feed, which no shown text has.
pub(crate) type Path = Vec<u8>;

/// Adds a key to a path.
pub(crate) fn push_key(path: &mut Path, key: &str) -> Result<(), AllocError> {
    path.push(b'\n')?;
    path.extend_from_slice(shown(key).as_str().as_bytes())
}

/// Adds some keys.
fn push_keys(path: &mut Path, keys: &[&str]) -> Result<(), AllocError> {
    for key in keys {
        push_key(path, *key)?;
    }
    Ok(())
}

/// Adds the keys of a dotted name.
fn push_name(path: &mut Path, name: &str) -> Result<(), AllocError> {
    for key in name.split('.') {
        push_key(path, key)?;
    }
    Ok(())
}

/// Adds where a property of a group or a further command stands.
fn push_property(path: &mut Path, property: Property, name: &str) -> Result<(), AllocError> {
    let keys = property.name().keys;
    match property.row().place {
        Place::Service => push_keys(path, keys),
        Place::ServiceGroup => {
            push_keys(path, keys)?;
            push_key(path, name)
        }
        Place::Command => {
            push_keys(path, &["hystrix", "command", name])?;
            push_keys(path, keys)
        }
        Place::ThreadPool => {
            push_keys(path, &["hystrix", "threadpool", name])?;
            push_keys(path, keys)
        }
    }
}

/// Adds where a table stands, for the name where it is of one.
fn push_table(path: &mut Path, table: Table, name: &str) -> Result<(), AllocError> {
    match table {
        Table::Root => Ok(()),
        Table::Service => push_keys(path, &["service"]),
        Table::Hystrix => push_keys(path, &["hystrix"]),
        Table::Commands => push_keys(path, &["hystrix", "command"]),
        Table::Pools => push_keys(path, &["hystrix", "threadpool"]),
        Table::Command(part) => {
            push_keys(path, &["hystrix", "command", name])?;
            match part.name() {
                Some(part) => push_name(path, part),
                None => Ok(()),
            }
        }
        Table::Pool => push_keys(path, &["hystrix", "threadpool", name]),
    }
}

/// Adds where the first of the properties stands that the name itself gives, else the first that `default` gives.
fn push_given(path: &mut Path, given: &Given, properties: &[Property]) -> Result<(), AllocError>
    requires { IsFound given.now }
{
    for property in properties {
        if given.own(*property).is_some() {
            return push_property(path, *property, given.name);
        }
    }
    for property in properties {
        if given.value(*property).is_some() {
            return push_property(path, *property, "default");
        }
    }
    Ok(())
}

/// Adds where the further command of the number stands, from 1 in the order of the names.
fn push_command(path: &mut Path, root: &Value, number: usize) -> Result<(), AllocError> {
    push_name(path, "service.command")?;
    if let Some(Value::Table(commands)) = value_at(root, "service.command") {
        for (place, (key, _)) in commands.iter().enumerate() {
            if place + 1 == number {
                return push_key(path, key.as_str());
            }
        }
    }
    Ok(())
}

/// Adds where the names of the groups stand, or else the table that lacks them.
fn push_groups(path: &mut Path, root: &Value) -> Result<(), AllocError> {
    push_name(path, "service")?;
    if value_at(root, "service.groups").is_some() {
        push_name(path, "groups")?;
    }
    Ok(())
}

/// Adds where a refusal stands.
fn push_refusal(path: &mut Path, root: &Value, refusal: Refusal) -> Result<(), AllocError> {
    match refusal {
        Refusal::NoGroups | Refusal::BadName(_) | Refusal::TwiceNamed(_) => {
            push_groups(path, root)
        }
        Refusal::UnknownService => push_name(path, "service"),
        Refusal::BadCommand(number) => push_command(path, root, number),
        Refusal::Syntax | Refusal::Memory => Ok(()),
    }
}

/// Adds where the first of the properties stands that is given for the name.
fn push_first(
    path: &mut Path,
    sections: &Sections,
    name: &str,
    properties: &[Property],
) -> Result<(), AllocError>
    requires { AreFound sections.now }
{
    let given = sections.named(name);
    push_given(path, &given, properties)
}

/// The path of the name that a finding is about.
pub(crate) fn path_of(
    alloc: Global,
    sections: &Sections,
    finding: &Finding,
) -> Result<Path, AllocError>
    requires { AreFound sections.now }
{
    let mut path = Vec::new(alloc);
    match finding {
        Finding::Refused(refusal) => push_refusal(&mut path, sections.root, *refusal)?,
        Finding::BadValue {
            fault: _,
            name,
            property,
            stands: _,
            words: _,
        } => {
            push_first(&mut path, sections, name.as_str(), &[*property])?;
        }
        Finding::NotMultiple { name } => push_first(
            &mut path,
            sections,
            name.as_str(),
            &[Property::Window, Property::Buckets],
        )?,
        Finding::Unknown { table, name, key } => {
            push_table(&mut path, *table, name.as_str())?;
            push_key(&mut path, key.as_str())?;
        }
        Finding::Doubtful { name, doubt } => {
            push_first(&mut path, sections, name.as_str(), doubt.concerns())?;
        }
    }
    Ok(path)
}
