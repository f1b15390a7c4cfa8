//! Reading a settings file.

ghost use Rattle.std.specs.Prelude.{◌≡◌, ◌≢◌, ◌≤◌, [], length, Ok, Err, None, IfOk, IfErr};
ghost use Rattle.toml.specs.View.{view};
ghost use Rattle.bh_props.specs.Settings.{settings_of, settings_of_named, settings_of_groups};
ghost use Rattle.bh_props.specs.Names.{names_of, first_twice};
ghost use Rattle.bh_props.specs.Shown.{settings_view};

use crate::by_group::by_group;
use crate::check::{check_types_and_ranges, check_windows};
use crate::commands::further_commands;
use crate::error::SettingsError;
use crate::in_force::Sections;
use crate::names::{Names, group_names};
use crate::service::check_service;
use crate::settings::{Settings, audit_steps_in_force, groups_in_force};
use crate::subject::subjects;
use std::alloc::Global;
use toml::Value;

/// The settings that a text gives, or the first refusal (see `SettingsError` for the order of the checks).
///
/// A property is found by its dotted name, however TOML spells it. The value in force is the group's or
/// the further command's own, else the one under `default`, else the built-in one; only values in force are checked. Each field of the settings is in its
/// range. `SettingsError::Memory` comes wherever memory was refused, in place of every other answer.
pub fn read(alloc: Global, text: &str) -> Result<Settings, SettingsError>
    ensures ok { IfOk result (λ s. settings_of text.now ≡ Ok (settings_view s)) }
    ensures refused { IfErr result (λ e. e ≢ SettingsError.Memory → settings_of text.now ≡ Err e) }
{
    match toml::table_from_str(alloc, text) {
        Ok(table) => read_tree(alloc, &Value::Table(table)),
        Err(error) if error.is_memory() => Err(SettingsError::Memory),
        Err(_) => Err(SettingsError::Syntax),
    }
}

/// The settings of a parsed file, or the first refusal, as `read` gives them.
pub fn read_tree(alloc: Global, root: &Value) -> Result<Settings, SettingsError>
    ensures ok { IfOk result (λ s. settings_of_named (view root.now) (names_of (view root.now)) ≡ Ok (settings_view s)) }
    ensures refused { IfErr result (λ e. e ≢ SettingsError.Memory
        → settings_of_named (view root.now) (names_of (view root.now)) ≡ Err e) }
{
    let names = group_names(alloc, root)?;
    read_groups(alloc, root, &names)
}

/// The settings of a parsed file whose groups are known.
fn read_groups(alloc: Global, root: &Value, names: &Names) -> Result<Settings, SettingsError>
    requires distinct { first_twice [] 1 names.now.texts.keys ≡ None }
    requires few { length names.now.texts.keys ≤ 1000 }
    ensures ok { IfOk result (λ s. settings_of_groups (view root.now) names.now.texts.keys ≡ Ok (settings_view s)) }
    ensures refused { IfErr result (λ e. e ≢ SettingsError.Memory
        → settings_of_groups (view root.now) names.now.texts.keys ≡ Err e) }
{
    check_service(root, names)?;
    let commands = further_commands(alloc, root, names)?;
    let further = by_group(alloc, names.texts.len(), &commands)?;
    let subjects = subjects(alloc, names.texts.as_slice(), &further)?;
    let sections = Sections::of(root);
    check_types_and_ranges(&sections, &subjects)?;
    check_windows(&sections, &subjects)?;
    Ok(Settings {
        groups: groups_in_force(alloc, &sections, names.texts.as_slice(), &further)?,
        audit_steps: audit_steps_in_force(&sections),
        commands,
    })
}
