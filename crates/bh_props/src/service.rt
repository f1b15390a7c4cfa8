//! What stands under `service`.

ghost use Rattle.std.specs.Prelude.{◌≡◌, string_bytes};
ghost use Rattle.toml.specs.View.{view, table_view};
ghost use Rattle.bh_props.specs.Tree.{all_members};
ghost use Rattle.bh_props.specs.Refusals.{is_key, has_keys, is_table, is_service_member, checked_service};

use crate::error::SettingsError;
use crate::names::Names;
use toml::{Table, Value};

/// Refuses a key under `service` that is not known, slots of something else than `default` or a group, and a `command`
/// that is no table.
pub(crate) fn check_service(root: &Value, names: &Names) -> Result<(), SettingsError>
    ensures { result ≡ checked_service names.now.texts.keys (view root.now) }
{
    match root.get("service") {
        Some(Value::Table(service)) if has_known_members(service, names) => Ok(()),
        _ => Err(SettingsError::UnknownService),
    }
}

/// Whether each member of `service` is known.
fn has_known_members(service: &Table, names: &Names) -> bool
    ensures { result ≡ all_members (is_service_member names.now.texts.keys) (table_view service.now) }
{
    for (key, value) in service.iter() {
        if !is_known_member(key.as_str(), value, names) {
            return false;
        }
    }
    true
}

/// Whether the member may stand under `service`.
pub fn is_known_member(key: &str, value: &Value, names: &Names) -> bool
    ensures { result ≡ is_service_member names.now.texts.keys key.now (view value.now) }
{
    match key {
        "groups" | "auditSteps" => true,
        "slots" => has_group_keys(value, names),
        "command" => value.is_table(),
        _ => false,
    }
}

/// Whether it is a table of slots by `default` and groups.
fn has_group_keys(slots: &Value, names: &Names) -> bool
    ensures { result ≡ has_keys names.now.texts.keys (view slots.now) }
{
    match slots {
        Value::Table(table) => are_group_keys(table, names),
        _ => false,
    }
}

/// Whether each key is `default` or a group.
fn are_group_keys(table: &Table, names: &Names) -> bool
    ensures { result ≡ all_members (λ key d. is_key names.now.texts.keys key) (table_view table.now) }
{
    for (key, _value) in table.iter() {
        if !is_group_key(key.as_str(), names) {
            return false;
        }
    }
    true
}

/// Whether the key is `default` or a group.
pub fn is_group_key(key: &str, names: &Names) -> bool
    ensures { result ≡ is_key names.now.texts.keys key.now }
{
    match key {
        "default" => true,
        _ => names.is_listed(key),
    }
}
