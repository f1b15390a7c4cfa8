//! Names of groups as a made-up service has them.

ghost use Rattle.std.specs.Prelude.{◌≡◌, []};
ghost use Rattle.bh_lines.specs.Names.{command_number, is_own_name};

use bh_base::{GroupId, Text};

/// Whether the group, one of those with these names, has the name.
pub(crate) fn is_own_name(groups: &[Text<32>], group: GroupId, name: &str) -> bool
    ensures { result ≡ is_own_name (record { groups = groups.now; commands = [] }) group.0 name.now }
{
    match groups.get(group.0 as usize) {
        Some(own) => own.as_str() == name,
        None => false,
    }
}

/// The number of the command of the name where groups of these names have their own commands alone.
pub(crate) fn own_command(groups: &[Text<32>], group: GroupId, name: &str) -> Option<u8>
    ensures { result ≡ command_number (record { groups = groups.now; commands = [] }) group.0 name.now }
{
    if is_own_name(groups, group, name) {
        Some(0)
    } else {
        None
    }
}
