//! The further commands of the groups.

ghost use Rattle.std.specs.Prelude.{◌≡◌, ◌≢◌, ◌<◌, ◌≤◌, ◌+◌, ◌++◌, ℕ, List, [], ◌∷◌, false, None, Some, Ok, Err, map, option_map, length, position, IfSome, IfOk, IfErr, OnOk};
ghost use Rattle.std.specs.List.{list_any};
ghost use Rattle.std.specs.Map.{keys_of};
ghost use Rattle.std.specs.Str.{bytes_eq};
ghost use Rattle.toml.specs.View.{view, table_view};
ghost use Rattle.bh_props.specs.Gathered.{AreCounted};
ghost use Rattle.std.proofs.Props.{props};
ghost use Rattle.bh_props.specs.Commands.{in_order, entries_of, is_single, group_named, place_named, commands_in, numbered, is_free, next_command, commands_from, commands_of};

use crate::error::SettingsError;
use crate::look_up::look_up;
use crate::names::{Names, is_name};
use bh_base::Text;
use indexmap::IndexMap;
use std::alloc::{AllocError, Global};
use toml::{Table, Value};

/// From each further command's name to its group's place, from 0, and its number there.
pub type Commands = IndexMap<Text<32>, (u32, u8)>;

/// The most further commands of a group.
const MOST_FURTHER: u8 = 15;

/// The further commands in the order of their names' bytes, or why they are refused.
pub fn further_commands(
    alloc: Global,
    root: &Value,
    names: &Names,
) -> Result<Commands, SettingsError>
    requires { length names.now.texts.keys ≤ 1000 }
    ensures ok { IfOk result (λ commands. commands_of names.now.texts.keys (view root.now) ≡ Ok commands.entries) }
    ensures refused { IfErr result (λ e. e ≢ SettingsError.Memory → commands_of names.now.texts.keys (view root.now) ≡ Err e) }
{
    match look_up(root, "service.command") {
        Some(value) => commands_of_value(alloc, value, names),
        None => Ok(IndexMap::new(alloc)),
    }
}

/// The further commands that stand in the value under `service.command`.
fn commands_of_value(alloc: Global, value: &Value, names: &Names) -> Result<Commands, SettingsError>
    requires { length names.now.texts.keys ≤ 1000 }
    ensures ok { IfOk result (λ commands.
        commands_from names.now.texts.keys [] (entries_of (Some (view value.now))) ≡ Ok commands.entries) }
    ensures refused { IfErr result (λ e. e ≢ SettingsError.Memory
        → commands_from names.now.texts.keys [] (entries_of (Some (view value.now))) ≡ Err e) }
{
    match value {
        Value::Table(table) => commands_of_table(alloc, table, names),
        _ => Ok(IndexMap::new(alloc)),
    }
}

/// The further commands that the members of the table are.
fn commands_of_table(alloc: Global, table: &Table, names: &Names) -> Result<Commands, SettingsError>
    requires { length names.now.texts.keys ≤ 1000 }
    ensures ok { IfOk result (λ commands. commands_from names.now.texts.keys [] (in_order (table_view table.now)) ≡ Ok commands.entries) }
    ensures refused { IfErr result (λ e. e ≢ SettingsError.Memory
        → commands_from names.now.texts.keys [] (in_order (table_view table.now)) ≡ Err e) }
{
    let mut gathered = Gathered::new(alloc, names.texts.len())?;
    for (name, value) in table.iter() {
        let Some(command) = gathered.next_command(names, name.as_str(), value) else {
            return Err(SettingsError::BadCommand(gathered.commands.len() + 1));
        };
        gathered.keep(name.as_str(), command)?;
    }
    Ok(gathered.into_commands())
}

/// The further commands so far, and how many of them each group has.
#[derive(Drop)]
struct Gathered {
    /// The commands.
    commands: Commands,
    /// The number of those of each group, by the groups' places.
    counts: Vec<u8>,
    /// They are counted.
    ghost counted: { AreCounted commands.entries counts.items } by { Prim.hlevel props },
}

impl Gathered {
    /// No commands yet, of so many groups.
    fn new(alloc: Global, groups: usize) -> Result<Gathered, AllocError>
        ensures none { IfOk result (λ made. made.commands.entries ≡ []) }
        ensures groups { IfOk result (λ made. length made.counts.items ≡ groups) }
    {
        Ok(Gathered {
            commands: IndexMap::new(alloc),
            counts: vec![in alloc; 0; groups]?,
        })
    }

    /// The group's place and the number of a command behind these; none where it is bad.
    fn next_command(&self, names: &Names, name: &str, value: &Value) -> Option<(u32, u8)>
        requires few { length names.now.texts.keys ≤ 1000 }
        requires groups { length self.now.counts.items ≡ length names.now.texts.keys }
        ensures { result ≡ next_command names.now.texts.keys self.now.commands.entries name.now (view value.now) }
    {
        if !is_name(name) || names.is_listed(name) {
            return None;
        }
        self.numbered(place_named(names, value)?)
    }

    /// The place, and the number of the next command of the group there, where it may have one more.
    fn numbered(&self, place: u32) -> Option<(u32, u8)>
        requires { place < length self.now.counts.items }
        ensures { result ≡ numbered self.now.commands.entries place }
    {
        let count = self.counts[place as usize];
        if count < MOST_FURTHER {
            Some((place, count + 1))
        } else {
            None
        }
    }

    /// Adds a command of a new name behind the others, with the next number of its group.
    fn keep(&mut self, name: &str, command: (u32, u8)) -> Result<(), AllocError>
        requires fits { length name.now ≤ 32 }
        requires fresh { list_any (λ t. bytes_eq t name.now) (keys_of self.old.commands.entries) ≡ false }
        requires within { command.0 < length self.old.counts.items }
        requires numbered { command.1 ≡ length (commands_in command.0 self.old.commands.entries) + 1 }
        ensures kept { OnOk result (self.new.commands.entries ≡ self.old.commands.entries ++ (name.now, command) ∷ []) }
        ensures groups { length self.new.counts.items ≡ length self.old.counts.items }
    {
        self.commands.insert(Text::new(name).unwrap(), command)?;
        self.counts[command.0 as usize] = command.1;
        Ok(())
    }

    /// The commands.
    fn into_commands(self) -> Commands
        ensures { result ≡ self.commands }
    {
        let Gathered {
            commands,
            counts: _,
        } = self;
        commands
    }
}

/// The place of the group that the table of a command names.
fn place_named(names: &Names, value: &Value) -> Option<u32>
    requires { length names.now.texts.keys ≤ 1000 }
    ensures value { result ≡ place_named names.now.texts.keys (view value.now) }
    ensures within { IfSome result (λ place. place < length names.now.texts.keys) }
{
    let place = names.place_of(group_named(value)?)?;
    Some(place as u32)
}

/// The group that the table of a command names: it has the one key `group`, a text.
fn group_named(value: &Value) -> Option<&str>
    ensures { option_map (λ s. s.now) result ≡ group_named (view value.now) }
{
    if is_single(value) {
        value.get("group")?.as_str()
    } else {
        None
    }
}

/// Whether it is a table of one key.
fn is_single(value: &Value) -> bool
    ensures { result ≡ is_single (view value.now) }
{
    match value {
        Value::Table(table) => table.len() == 1,
        _ => false,
    }
}
