//! The commands of the groups, by name and by number.

ghost use Rattle.std.specs.Prelude.{◌≡◌, IfSome, find, option_map, option_copied};
ghost use Rattle.std.specs.Str.{bytes_eq};
ghost use Rattle.bh_lines.specs.Names.{command_number, command_name, further_number, is_own_name};
ghost use Rattle.bh_props.specs.Shown.{settings_view};
ghost use Rattle.bh_port.specs.CommandPlaces.{AreCommandPlaces};
ghost use Rattle.bh_port.specs.Course.{command_at, command_of, names_in};
ghost use Rattle.bh_port.specs.Text.{told_name};

use crate::groups::{Entry, Groups};
use crate::places::CommandPlaces;
use bh_base::{GroupId, Reply, Text};
use bh_props::Settings;
use indexmap::IndexMap;

/// The number of the command of the name in the group of the settings, if it has one: 0 where the name is the group's own.
/// A further command is looked up by the hash of its name.
pub fn command_number(settings: &Settings, group: GroupId, name: &str) -> Option<u8>
    ensures { result ≡ command_number (names_in (settings_view settings.now)) group.0 name.now }
{
    if is_own_name(settings, group, name) {
        return Some(0);
    }
    further_number(settings, group.0, name)
}

/// The number of the command of the name in the group of a run, if that is there and has one: 0 where the name is the
/// group's own.
pub fn command_at(settings: &Settings, groups: &Groups, group: GroupId, name: &str) -> Option<u8>
    ensures { result ≡ command_at (settings_view settings.now) groups.now.entries group.0 name.now }
{
    let entry = groups.entry(group)?;
    command_of(settings, entry, name)
}

/// The number of the group's command of the name, if it has one: 0 where the name is the group's own.
fn command_of(settings: &Settings, entry: &Entry, name: &str) -> Option<u8>
    ensures { result ≡ command_of (settings_view settings.now) entry.now name.now }
{
    if entry.name.as_str() == name {
        return Some(0);
    }
    further_number(settings, entry.like, name)
}

/// The number of the further command of the name, where it is one of the group at the place.
fn further_number(settings: &Settings, group: u64, name: &str) -> Option<u8>
    ensures { result ≡ further_number (names_in (settings_view settings.now)) group name.now }
{
    let (place, number) = further_command(&settings.commands, name)?;
    if u64::from(place) == group {
        Some(number)
    } else {
        None
    }
}

/// The name of the further command of the number in the group of the settings, if there is one: its own command, number 0,
/// is none.
pub fn command_name(settings: &Settings, group: GroupId, command: u8) -> Option<&Text<32>>
    ensures { option_copied result ≡ command_name (names_in (settings_view settings.now)) group.0 command }
{
    if command == 0 {
        return None;
    }
    for (name, (place, number)) in settings.commands.iter() {
        if u64::from(*place) == group.0 && *number == command {
            return Some(name);
        }
    }
    None
}

/// The name of the further command whose run the reply of the group of a run assigns, if it does.
pub fn told_command(
    settings: &Settings,
    groups: &Groups,
    group: GroupId,
    reply: &Reply,
) -> Option<Text<32>>
    ensures { result ≡ told_name (settings_view settings.now) groups.now.entries group.0 reply.now }
{
    assigned_command(settings, None, groups, group, reply).copied()
}

/// The same name where the settings have it, so that it can be told without a copy. It takes no walk along the commands
/// where their places are known.
pub(crate) fn assigned_command<'a>(
    settings: &'a Settings,
    places: Option<&CommandPlaces>,
    groups: &Groups,
    group: GroupId,
    reply: &Reply,
) -> Option<&'a Text<32>>
    requires { IfSome places (λ places. AreCommandPlaces (settings_view settings.now).commands places.now) }
    ensures { option_copied result ≡ told_name (settings_view settings.now) groups.now.entries group.0 reply.now }
{
    match reply {
        Reply::Assigned { command, .. } => {
            let entry = groups.entry(group)?;
            listed_name(settings, places, GroupId(entry.like), *command)
        }
        _ => None,
    }
}

/// The name of the further command of the number in the group of the settings, as `command_name` tells it.
fn listed_name<'a>(
    settings: &'a Settings,
    places: Option<&CommandPlaces>,
    group: GroupId,
    command: u8,
) -> Option<&'a Text<32>>
    requires { IfSome places (λ places. AreCommandPlaces (settings_view settings.now).commands places.now) }
    ensures { option_copied result ≡ command_name (names_in (settings_view settings.now)) group.0 command }
{
    match places {
        Some(places) => places.name(settings, group, command),
        None => command_name(settings, group, command),
    }
}

/// Whether this is the group's own name.
fn is_own_name(settings: &Settings, group: GroupId, name: &str) -> bool
    ensures { result ≡ is_own_name (names_in (settings_view settings.now)) group.0 name.now }
{
    match settings.groups.get_index(group.0 as usize) {
        Some((own, _props)) => own.as_str() == name,
        None => false,
    }
}

/// The place of the group and the number of the further command of the name, if there is one.
pub(crate) fn further_command(
    commands: &IndexMap<Text<32>, (u32, u8)>,
    name: &str,
) -> Option<(u32, u8)>
    ensures { result ≡ option_map (λ c. c.1) (find (λ c. bytes_eq c.0 name.now) commands.now.entries) }
{
    match Text::new(name) {
        Ok(key) => commands.get(&key).copied(),
        Err(_) => listed_command(commands, name),
    }
}

/// The same of a name that is too long for a key.
fn listed_command(commands: &IndexMap<Text<32>, (u32, u8)>, name: &str) -> Option<(u32, u8)>
    ensures { result ≡ option_map (λ c. c.1) (find (λ c. bytes_eq c.0 name.now) commands.now.entries) }
{
    for (other, command) in commands.iter() {
        if other.as_str() == name {
            return Some(*command);
        }
    }
    None
}
