//! The names that lines are of.

ghost use Rattle.std.specs.Prelude.{◌≡◌, ◌<◌, length, IfSome, option_copied, option_map};
ghost use Rattle.bh_lines.specs.Names.{Names, command_name, command_number};
ghost use Rattle.bh_lines.specs.StepLine.{group_number};

use bh_base::{GroupId, Text};

/// The groups and commands of a service, by their names. A group is meant by its place, and a command by its number in its
/// group, 0 for the group's own.
pub trait Directory {
    // The names of the groups and of their commands.
    ghost names: { Self → Names };

    /// The names of the groups, in the order of their numbers.
    fn groups(&self) -> &[Text<32>]
        ensures { result.now ≡ (names self.now).groups };

    /// The group of the name, if there is one: the first that has it.
    fn group(&self, name: &str) -> Option<GroupId>
        ensures number { option_map (λ group. group.0) result ≡ group_number (names self.now).groups name.now }
        ensures within { IfSome result (λ group. group.0 < length (names self.now).groups) };

    /// The number of the group's command of the name, if it has one: 0 for the name of the group.
    fn command(&self, group: GroupId, name: &str) -> Option<u8>
        ensures { result ≡ command_number (names self.now) group.0 name.now };

    /// The name of the group's further command of the number, if there is one: its own command, number 0, is none.
    fn command_name(&self, group: GroupId, command: u8) -> Option<&Text<32>>
        ensures { option_copied result ≡ command_name (names self.now) group.0 command };
}
