//! The names of the groups.

ghost use Rattle.std.specs.Prelude.{◌≡◌, ◌≢◌, ◌<◌, ◌≤◌, ◌^◌, ◌+◌, ℕ, List, [], ◌∷◌, ◌++◌, Ok, Err, None, Some, All, map, not, option_map, length, position, IfOk, IfSome, IfErr, OnOk, IsTrue};
ghost use Rattle.std.proofs.Props.{props};
ghost use Rattle.std.specs.List.{list_all, list_any};
ghost use Rattle.std.specs.Str.{bytes_eq};
ghost use Rattle.toml.specs.View.{view, items_view};
ghost use Rattle.bh_props.specs.Names.{texts, listed, is_name_byte, is_name, first_bad, first_twice, unless_twice, names_of};

use crate::error::SettingsError;
use crate::look_up::look_up;
use bh_base::Text;
use indexmap::IndexSet;
use std::alloc::{AllocError, Global};
use toml::Value;

/// The names of the groups, found by their texts.
#[derive(Drop)]
pub struct Names {
    /// The names in listed order.
    pub texts: IndexSet<Text<32>>,
    /// Each is of at most 32 bytes.
    pub ghost short: { All (λ name. length name ≤ 32) texts.keys } by { Prim.hlevel props },
}

impl Names {
    /// The place of the group of the name, from 0.
    pub fn place_of(&self, name: &str) -> Option<usize>
        ensures value { result ≡ position (λ group. bytes_eq group name.now) self.now.texts.keys }
        ensures within { IfSome result (λ place. place < length self.now.texts.keys) }
    {
        match Text::new(name) {
            Ok(text) => self.texts.get_index_of(&text),
            Err(_) => None,
        }
    }

    /// Whether a group has the name.
    pub fn is_listed(&self, name: &str) -> bool
        ensures { result ≡ list_any (λ group. bytes_eq group name.now) self.now.texts.keys }
    {
        match Text::new(name) {
            Ok(text) => self.texts.contains(&text),
            Err(_) => false,
        }
    }
}

/// The names of the groups in listed order, or why they are refused.
pub fn group_names(alloc: Global, root: &Value) -> Result<Names, SettingsError>
    ensures ok { IfOk result (λ names. names_of (view root.now) ≡ Ok names.texts.keys) }
    ensures refused { IfErr result (λ e. e ≢ SettingsError.Memory → names_of (view root.now) ≡ Err e) }
{
    let Some(names) = listed(alloc, root)? else {
        return Err(SettingsError::NoGroups);
    };
    if let Some(place) = first_bad(&names) {
        return Err(SettingsError::BadName(place));
    }
    distinct(alloc, &names)
}

/// The texts that are listed as groups, where there are 1 to 1,000 and nothing else is listed.
fn listed(alloc: Global, root: &Value) -> Result<Option<Vec<&str>>, AllocError>
    ensures { IfOk result (λ found. option_map (λ v. map (λ s. s.now) v.items) found ≡ listed (view root.now)) }
{
    let Some(groups) = look_up(root, "service.groups") else {
        return Ok(None);
    };
    let Some(values) = groups.as_array() else {
        return Ok(None);
    };
    match texts(alloc, values.as_slice())? {
        Some(names) if names.len() >= 1 && names.len() <= 1000 => Ok(Some(names)),
        _ => Ok(None),
    }
}

/// The values as texts; none where one is something else.
fn texts(alloc: Global, values: &[Value]) -> Result<Option<Vec<&str>>, AllocError>
    ensures { IfOk result (λ found. option_map (λ v. map (λ s. s.now) v.items) found ≡ texts (items_view values.now)) }
{
    let mut texts = Vec::new(alloc);
    for value in values {
        let Some(text) = value.as_str() else {
            return Ok(None);
        };
        texts.push(text)?;
    }
    Ok(Some(texts))
}

/// Whether the byte is a letter, a digit, `_` or `-`.
fn is_name_byte(b: u8) -> bool
    ensures { result ≡ is_name_byte b }
{
    matches!(b, b'A'..=b'Z' | b'a'..=b'z' | b'0'..=b'9' | b'_' | b'-')
}

/// Whether each byte is one of a name.
fn has_name_bytes(bytes: &[u8]) -> bool
    ensures { result ≡ list_all is_name_byte bytes.now }
{
    bytes.iter().all(|b| is_name_byte(*b))
}

/// Whether the text may name a group: 1 to 32 letters, digits, `_` and `-`, and not `default`.
pub fn is_name(name: &str) -> bool
    ensures { result ≡ is_name name.now }
{
    let bytes = name.as_bytes();
    bytes.len() >= 1 && bytes.len() <= 32 && has_name_bytes(bytes) && name != "default"
}

/// The place, from 1, of the first text that is no name.
fn first_bad(names: &[&str]) -> Option<usize>
    requires { length names.now < 2 ^ 32 }
    ensures { result ≡ first_bad 1 (map (λ s. s.now) names.now) }
{
    for (i, name) in names.iter().enumerate() {
        if !is_name(*name) {
            return Some(i + 1);
        }
    }
    None
}

/// The names, each kept in a text of its own, or the place, from 1, of the first that stands before it too.
fn distinct(alloc: Global, names: &[&str]) -> Result<Names, SettingsError>
    requires good { first_bad 1 (map (λ s. s.now) names.now) ≡ None }
    requires few { length names.now < 2 ^ 32 }
    ensures ok { IfOk result (λ made. unless_twice (map (λ s. s.now) names.now) (first_twice [] 1 (map (λ s. s.now) names.now)) ≡ Ok made.texts.keys) }
    ensures refused { IfErr result (λ e. e ≢ SettingsError.Memory
        → unless_twice (map (λ s. s.now) names.now) (first_twice [] 1 (map (λ s. s.now) names.now)) ≡ Err e) }
{
    let mut kept = IndexSet::new(alloc);
    for (i, name) in names.iter().enumerate() {
        if !add(&mut kept, *name)? {
            return Err(SettingsError::TwiceNamed(i + 1));
        }
    }
    Ok(Names { texts: kept })
}

/// Adds the name behind the others, where it is not one of them: it answers whether it is not.
fn add(kept: &mut IndexSet<Text<32>>, name: &str) -> Result<bool, AllocError>
    requires { length name.now ≤ 32 }
    ensures is_new { IfOk result (λ is_new. is_new ≡ not (list_any (λ t. bytes_eq t name.now) kept.old.keys)) }
    ensures added { IfOk result (λ is_new. IsTrue is_new → kept.new.keys ≡ kept.old.keys ++ name.now ∷ []) }
{
    let is_new = kept.insert(Text::new(name).unwrap())?;
    Ok(is_new)
}
