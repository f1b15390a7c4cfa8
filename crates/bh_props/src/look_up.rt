//! Values of a TOML tree, found by dotted names.

ghost use Rattle.std.specs.Prelude.{◌≡◌, map, option_map};
ghost use Rattle.toml.specs.View.{view};
ghost use Rattle.bh_props.specs.Tree.{keys_of, look_up};

use toml::Value;

/// The value under a dotted name; none where a part of the name is missing or not in a table.
pub fn look_up<'a>(value: &'a Value, name: &str) -> Option<&'a Value>
    ensures { option_map (λ v. view v.now) result ≡ look_up (keys_of name.now) (view value.now) }
{
    match name.split_once('.') {
        Some((key, rest)) => look_up(value.get(key)?, rest),
        None => value.get(name),
    }
}

/// The value at a path of keys; none where a part of the path is missing or not in a table.
pub(crate) fn look_up_keys<'a>(value: &'a Value, keys: &[&str]) -> Option<&'a Value>
    ensures { option_map (λ v. view v.now) result ≡ look_up (map (λ s. s.now) keys.now) (view value.now) }
{
    let mut found = value;
    for key in keys {
        found = found.get(*key)?;
    }
    Some(found)
}
