//! Why settings are refused: where the text is no TOML, or which value stands in the way and what it has to be.

use crate::explain::shown::{NAME_RULE, Quoted, ShownValue, Wanted};
use bh_props::{
    Names, Place, Property, PropertyValue, Sections, SettingsError, group_names, is_name,
    read_tree, value_at,
};
use std::alloc::Global;
use std::io::Write;
use std::{fmt, io, str};
use toml::{Table, Value};

/// Says more of settings that are refused, and nothing of others. It reads them anew, and where memory is refused says
/// nothing.
pub fn refused_settings<E: Write>(errors: &mut E, alloc: Global, settings: &[u8]) {
    let _ = match str::from_utf8(settings) {
        Ok(text) => refused_text(errors, alloc, text),
        Err(error) => {
            let place = place_in(settings, error.valid_up_to());
            writeln!(errors, "explain: {place}: a byte that is not UTF-8")
        }
    };
}

/// A place in a text, of which line and column are counted from 1, and a column is a character.
#[derive(Clone, Copy)]
struct TextPlace {
    line: usize,
    column: usize,
}

impl fmt::Display for TextPlace {
    fn fmt<W: fmt::Write>(&self, f: &mut fmt::Formatter<W>) -> fmt::Result {
        let (line, column) = (self.line, self.column);
        write!(f, "line {line}, column {column}")
    }
}

/// The place behind so many bytes.
fn place_in(bytes: &[u8], count: usize) -> TextPlace {
    let mut place = TextPlace { line: 1, column: 1 };
    for byte in bytes.iter().take(count) {
        if *byte == b'\n' {
            place.line = place.line.saturating_add(1);
            place.column = 1;
        } else if *byte & 0xC0 != 0x80 {
            place.column = place.column.saturating_add(1);
        }
    }
    place
}

/// Of a text that is no TOML, or whose settings are refused.
fn refused_text<E: Write>(errors: &mut E, alloc: Global, text: &str) -> io::Result<()> {
    match toml::table_from_str(alloc, text) {
        Ok(table) => refused_tree(errors, alloc, &Value::Table(table)),
        Err(error) => match error.span() {
            Some(span) => {
                let place = place_in(text.as_bytes(), span.start);
                let message = error.message();
                writeln!(errors, "explain: {place}: {message}")
            }
            None => Ok(()),
        },
    }
}

/// Of settings that are refused though they are TOML.
fn refused_tree<E: Write>(errors: &mut E, alloc: Global, root: &Value) -> io::Result<()> {
    let Err(error) = read_tree(alloc, root) else {
        return Ok(());
    };
    match error {
        SettingsError::Syntax | SettingsError::Memory => Ok(()),
        SettingsError::NoGroups => no_groups(errors, value_at(root, "service.groups")),
        SettingsError::BadName(place) => bad_name(errors, root, place),
        SettingsError::TwiceNamed(place) => twice_named(errors, root, place),
        SettingsError::UnknownService => unknown_service(errors, alloc, root),
        SettingsError::BadCommand(place) => bad_command(errors, alloc, root, place),
        SettingsError::WrongType { name, property }
        | SettingsError::OutOfRange { name, property } => {
            bad_value(errors, root, name.as_str(), property)
        }
        SettingsError::NotMultiple { name } => not_multiple(errors, root, name.as_str()),
    }
}

/// Of what stands as the list of groups.
fn no_groups<E: Write>(errors: &mut E, groups: Option<&Value>) -> io::Result<()> {
    let wanted = "it has to be an array of 1 to 1000 names";
    let Some(groups) = groups else {
        return writeln!(errors, "explain: service.groups is missing; {wanted}");
    };
    let Some(items) = groups.as_array() else {
        let shown = ShownValue(groups);
        return writeln!(errors, "explain: service.groups is {shown}; {wanted}");
    };
    for (place, item) in items.iter().enumerate() {
        if !item.is_str() {
            let (place, shown) = (place.saturating_add(1), ShownValue(item));
            return writeln!(
                errors,
                "explain: service.groups has {shown} at {place}; {wanted}"
            );
        }
    }
    let count = items.len();
    writeln!(
        errors,
        "explain: service.groups has {count} names; {wanted}"
    )
}

/// The name that is listed at the place, from 1.
fn listed_at(root: &Value, place: usize) -> &str {
    value_at(root, "service.groups")
        .and_then(Value::as_array)
        .and_then(|names| names.get(place.saturating_sub(1)))
        .and_then(Value::as_str)
        .unwrap_or("")
}

/// Of a listed name that breaks the rule for names.
fn bad_name<E: Write>(errors: &mut E, root: &Value, place: usize) -> io::Result<()> {
    let name = Quoted(listed_at(root, place));
    writeln!(
        errors,
        "explain: service.groups has {name} at {place}; {NAME_RULE}"
    )
}

/// Of a name that is listed before, too.
fn twice_named<E: Write>(errors: &mut E, root: &Value, place: usize) -> io::Result<()> {
    let name = listed_at(root, place);
    let shown = Quoted(name);
    for first in 1..place {
        if listed_at(root, first) == name {
            return writeln!(
                errors,
                "explain: service.groups has {shown} at {first} and at {place}"
            );
        }
    }
    Ok(())
}

/// Of what stands under `service` and may not.
fn unknown_service<E: Write>(errors: &mut E, alloc: Global, root: &Value) -> io::Result<()> {
    let Some(service) = root.get("service").and_then(Value::as_table) else {
        return Ok(());
    };
    for (key, value) in service.iter() {
        match (key.as_str(), value) {
            ("groups" | "auditSteps", _) | ("command", Value::Table(_)) => {}
            ("slots", Value::Table(slots)) => unknown_slots(errors, alloc, root, slots)?,
            ("slots" | "command", other) => {
                let (key, shown) = (key.as_str(), ShownValue(other));
                return writeln!(
                    errors,
                    "explain: service.{key} is {shown}; it has to be a table"
                );
            }
            (unknown, _) => {
                let key = Quoted(unknown);
                return writeln!(
                    errors,
                    "explain: service has {key}; it may have groups, auditSteps, slots and command"
                );
            }
        }
    }
    Ok(())
}

/// Of a key under `service.slots` that names no group.
fn unknown_slots<E: Write>(
    errors: &mut E,
    alloc: Global,
    root: &Value,
    slots: &Table,
) -> io::Result<()> {
    let Ok(names) = group_names(alloc, root) else {
        return Ok(());
    };
    for (key, _value) in slots.iter() {
        let key = key.as_str();
        if key != "default" && !names.is_listed(key) {
            let key = Quoted(key);
            return writeln!(
                errors,
                "explain: service.slots has {key}, which service.groups has not"
            );
        }
    }
    Ok(())
}

/// Of the further command at the place, from 1 in the order of the names' bytes.
fn bad_command<E: Write>(
    errors: &mut E,
    alloc: Global,
    root: &Value,
    place: usize,
) -> io::Result<()> {
    let Ok(names) = group_names(alloc, root) else {
        return Ok(());
    };
    let Some(Value::Table(commands)) = value_at(root, "service.command") else {
        return Ok(());
    };
    for (at, (name, value)) in commands.iter().enumerate() {
        if at.saturating_add(1) == place {
            let why = why_bad(&names, name.as_str(), value);
            let name = Quoted(name.as_str());
            return writeln!(errors, "explain: service.command has {name}: {why}");
        }
    }
    Ok(())
}

/// Why the table of a further command is refused.
fn why_bad(names: &Names, name: &str, command: &Value) -> &'static str {
    if !is_name(name) {
        return NAME_RULE;
    }
    if names.is_listed(name) {
        return "a group has this name";
    }
    match (command.get("group"), command.as_table()) {
        (Some(Value::String(group)), Some(table)) if table.len() == 1 => {
            match names.is_listed(group.as_str()) {
                true => "its group has 16 commands without it, the most that it may have",
                false => "its group is not in service.groups",
            }
        }
        _ => "it has to be a table with the one key group, the name of a group",
    }
}

/// The dotted path at which a property stands for a key.
#[derive(Clone, Copy)]
struct Path<'a> {
    property: Property,
    key: &'a str,
}

impl fmt::Display for Path<'_> {
    fn fmt<W: fmt::Write>(&self, f: &mut fmt::Formatter<W>) -> fmt::Result {
        let (property, key) = (self.property, self.key);
        match property.row().place {
            Place::Service => write!(f, "{property}"),
            Place::ServiceGroup => write!(f, "{property}.{key}"),
            Place::Command => write!(f, "hystrix.command.{key}.{property}"),
            Place::ThreadPool => write!(f, "hystrix.threadpool.{key}.{property}"),
        }
    }
}

/// Of a value in force that is of another type or out of its range.
fn bad_value<'a, E: Write>(
    errors: &mut E,
    root: &'a Value,
    name: &'a str,
    property: Property,
) -> io::Result<()> {
    let sections = Sections::of(root);
    let given = sections.named(name);
    let Some(value) = given.value(property) else {
        return Ok(());
    };
    let key = match given.own(property) {
        Some(_) => name,
        None => "default",
    };
    let (path, shown, wanted) = (
        Path { property, key },
        ShownValue(value),
        Wanted(property.row().kind),
    );
    writeln!(errors, "explain: {path} is {shown}; it has to be {wanted}")
}

/// Of a window that is not a multiple of its number of buckets.
fn not_multiple<'a, E: Write>(errors: &mut E, root: &'a Value, name: &'a str) -> io::Result<()> {
    let sections = Sections::of(root);
    let given = sections.named(name);
    let window = given.in_force(Property::Window);
    let buckets = given.in_force(Property::Buckets);
    let (Ok(PropertyValue::Number(window)), Ok(PropertyValue::Number(buckets))) = (window, buckets)
    else {
        return Ok(());
    };
    let (time, number) = (Property::Window, Property::Buckets);
    writeln!(
        errors,
        "explain: of {name} {time} is {window} and {number} {buckets}; the first has to be a multiple of the second"
    )
}
