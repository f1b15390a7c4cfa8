//! Where the further commands of each group stand in the settings, so that their names are found without a walk.

ghost use Rattle.std.specs.Prelude.{◌≡◌, ◌+◌, ◌*◌, ◌<◌, ◌≤◌, IfErr, IfOk, option_copied, replicate, slice_set};
ghost use Rattle.bh_lines.specs.Names.{command_name};
ghost use Rattle.bh_props.specs.Shown.{settings_view};
ghost use Rattle.bh_port.specs.CommandPlaces.{AreCommandPlaces};
ghost use Rattle.bh_port.specs.Course.{names_in};

use crate::commands::command_name;
use bh_base::{GroupId, Text};
use bh_lines::PortError;
use bh_props::Settings;
use std::alloc::{AllocError, Global};
use std::marker::Model;

/// A group has at most so many commands, its own one among them.
const MOST_COMMANDS: usize = 16;

/// Where the further commands of each group of the settings stand in their list, by their numbers.
#[derive(Drop)]
pub struct CommandPlaces {
    /// Sixteen for each group; past the end of the list where the group has no such command. None where the settings have no
    /// further command at all.
    places: Vec<usize>,
}

impl Model for CommandPlaces {
    ghost use Rattle.std.specs.Prelude.{ℕ, List};

    ghost Value = { List ℕ };

    ghost view = { λ p. p.places.items };
}

impl CommandPlaces {
    /// Those of the settings, found in one walk along their further commands. It fails only for want of memory, as `Memory`.
    pub fn of(alloc: Global, settings: &Settings) -> Result<CommandPlaces, PortError>
        ensures places { IfOk result (λ places. AreCommandPlaces (settings_view settings.now).commands places) }
        ensures err { IfErr result (λ e. e ≡ PortError.Memory) }
    {
        let past = settings.commands.len();
        let groups = if past == 0 { 0 } else { settings.groups.len() };
        let mut places = past_all(alloc, groups.saturating_mul(MOST_COMMANDS), past)?;
        let mut at = past;
        'commands: while at > 0 {
            at -= 1;
            if let Some((_name, command)) = settings.commands.get_index(at) {
                put_place(&mut places, *command, at);
            }
        }
        Ok(CommandPlaces { places })
    }

    /// The name of the further command of the number in the group of the settings, as `command_name` tells it.
    pub fn name<'a>(
        &self,
        settings: &'a Settings,
        group: GroupId,
        command: u8,
    ) -> Option<&'a Text<32>>
        requires { AreCommandPlaces (settings_view settings.now).commands self.now }
        ensures { option_copied result ≡ command_name (names_in (settings_view settings.now)) group.0 command }
    {
        let number = command as usize;
        let groups = self.places.len() / MOST_COMMANDS;
        if number == 0 || number >= MOST_COMMANDS || group.0 >= groups as u64 {
            return command_name(settings, group, command);
        }
        let place = self.places[group.0 as usize * MOST_COMMANDS + number];
        let (name, _command) = settings.commands.get_index(place)?;
        Some(name)
    }
}

/// So many places, each of them past the end.
fn past_all(alloc: Global, count: usize, past: usize) -> Result<Vec<usize>, AllocError>
    ensures { IfOk result (λ places. places.items ≡ replicate count past) }
{
    vec![in alloc; past; count]
}

/// The command of the group and the number stands at the place.
fn put_place(places: &mut Vec<usize>, command: (u32, u8), place: usize)
    ensures put { command.1 < 16 → places.new.items ≡ slice_set places.old.items (command.0 * 16 + command.1) place }
    ensures kept { 16 ≤ command.1 → places.new.items ≡ places.old.items }
{
    let (group, number) = command;
    let entry = group as usize * MOST_COMMANDS + number as usize;
    if number as usize >= MOST_COMMANDS || entry >= places.len() {
        return;
    }
    places[entry] = place;
}
