//! Names of a file that nothing looks up.

ghost use Rattle.std.specs.Prelude.{◌≡◌, ◌++◌, [], ◌∷◌, OnOk};
ghost use Rattle.bh_lint.specs.Finding.{shown};
ghost use Rattle.bh_props.specs.Refusals.{is_key};
ghost use Rattle.std.specs.List.{flat_map, list_any};
ghost use Rattle.std.specs.Str.{bytes_eq};
ghost use Rattle.toml.specs.View.{view, table_view};
ghost use Rattle.bh_lint.specs.Table.{knows, knows_in, is_further};
ghost use Rattle.bh_lint.specs.Findings.{unknown_member, unknown_members, unknown_at, unknown_in, unknown_of, file_tables, service_errors};

use crate::finding::{Finding, shown};
use crate::table::Table;
use bh_base::Text;
use bh_props::{Commands, Names, SettingsError, Subject, is_group_key, is_known_member};
use std::alloc::{AllocError, Global};
use toml::Value;

/// No name: the tables of the file itself are of none.
fn no_name() -> Text<32>
    ensures { result ≡ [] }
{
    Text::new("").unwrap()
}

/// Adds what stands under `service`, where it may not.
#[tactic(auto, unfolding(crate::specs::Findings::service_errors))]
pub(crate) fn add_of_service(
    findings: &mut Vec<Finding>,
    alloc: Global,
    root: &Value,
    names: &Names,
) -> Result<(), AllocError>
    ensures { OnOk result (findings.new.items ≡ findings.old.items ++ service_errors names.now.texts.keys (view root.now)) }
{
    match root.get("service") {
        Some(Value::Table(members)) => {
            let none = Commands::new(alloc);
            add_members(findings, members, names, &none, Table::Service, &no_name())
        }
        _ => add_one(findings, Finding::of_refusal(SettingsError::UnknownService)),
    }
}

/// Adds a finding.
fn add_one(findings: &mut Vec<Finding>, finding: Finding) -> Result<(), AllocError>
    ensures { OnOk result (findings.new.items ≡ findings.old.items ++ finding ∷ []) }
{
    findings.push(finding)?;
    Ok(())
}

/// Adds the names in the tables of the file itself that nothing looks up.
pub(crate) fn add_of_file(
    findings: &mut Vec<Finding>,
    root: &Value,
    names: &Names,
    commands: &Commands,
) -> Result<(), AllocError>
    ensures { OnOk result (findings.new.items ≡ findings.old.items
        ++ flat_map (unknown_in (knows_in names.now.texts.keys commands.now.entries) (view root.now) []) file_tables) }
{
    add_in_each(
        findings,
        root,
        names,
        commands,
        Table::of_file(),
        &no_name(),
    )
}

/// Adds those in the tables of a group, of a further command or of `default`.
pub(crate) fn add_of_subject(
    findings: &mut Vec<Finding>,
    root: &Value,
    names: &Names,
    commands: &Commands,
    subject: &Subject,
) -> Result<(), AllocError>
    ensures { OnOk result (findings.new.items ≡ findings.old.items
        ++ unknown_of (knows_in names.now.texts.keys commands.now.entries) (view root.now) subject.now) }
{
    add_in_each(
        findings,
        root,
        names,
        commands,
        Table::of_scope(subject.scope),
        &subject.name,
    )
}

/// Adds those in each of the tables, for the name where they are of one.
fn add_in_each(
    findings: &mut Vec<Finding>,
    root: &Value,
    names: &Names,
    commands: &Commands,
    tables: &[Table],
    name: &Text<32>,
) -> Result<(), AllocError>
    ensures { OnOk result (findings.new.items ≡ findings.old.items
        ++ flat_map (unknown_in (knows_in names.now.texts.keys commands.now.entries) (view root.now) name.now) tables.now) }
{
    for table in tables {
        add_in(findings, root, names, commands, *table, name)?;
    }
    Ok(())
}

/// Adds those in a table, for the name where it is of one.
fn add_in(
    findings: &mut Vec<Finding>,
    root: &Value,
    names: &Names,
    commands: &Commands,
    table: Table,
    name: &Text<32>,
) -> Result<(), AllocError>
    ensures { OnOk result (findings.new.items ≡ findings.old.items
        ++ unknown_in (knows_in names.now.texts.keys commands.now.entries) (view root.now) name.now table) }
{
    match table.value_in(root, name.as_str()) {
        Some(Value::Table(members)) => {
            add_members(findings, members, names, commands, table, name)
        }
        _ => Ok(()),
    }
}

/// Adds those among the members of a table.
fn add_members(
    findings: &mut Vec<Finding>,
    members: &toml::Table,
    names: &Names,
    commands: &Commands,
    table: Table,
    name: &Text<32>,
) -> Result<(), AllocError>
    ensures { OnOk result (findings.new.items ≡ findings.old.items
        ++ unknown_members (knows names.now.texts.keys commands.now.entries table) table name.now (table_view members.now)) }
{
    for (key, value) in members.iter() {
        if !knows(names, commands, table, key.as_str(), value) {
            add(findings, table, name, key.as_str())?;
        }
    }
    Ok(())
}

/// Adds a name that nothing looks up.
fn add(
    findings: &mut Vec<Finding>,
    table: Table,
    name: &Text<32>,
    key: &str,
) -> Result<(), AllocError>
    ensures { OnOk result (findings.new.items ≡ findings.old.items ++ Finding.Unknown table name.now (shown key.now) ∷ []) }
{
    findings.push(Finding::Unknown {
        table,
        name: *name,
        key: shown(key),
    })?;
    Ok(())
}

/// Whether a member of the table may be looked up.
fn knows(names: &Names, commands: &Commands, table: Table, key: &str, value: &Value) -> bool
    ensures { result ≡ knows names.now.texts.keys commands.now.entries table key.now (view value.now) }
{
    match table {
        Table::Service => is_known_member(key, value, names),
        Table::Commands => is_group_key(key, names) || is_further(commands, key),
        Table::Pools => is_group_key(key, names),
        _ => is_among(table.children(), key),
    }
}

/// Whether the key is one of these.
fn is_among(children: &[&str], key: &str) -> bool
    ensures { result ≡ list_any (λ child. bytes_eq child.now key.now) children.now }
{
    children.iter().any(|child| *child == key)
}

/// Whether a further command has the name.
fn is_further(commands: &Commands, key: &str) -> bool
    ensures { result ≡ is_further commands.now.entries key.now }
{
    match Text::new(key) {
        Ok(text) => commands.contains_key(&text),
        Err(_) => false,
    }
}
