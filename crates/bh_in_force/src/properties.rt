//! What is in force of a command of a group.

ghost use Rattle.std.specs.Prelude.{◌≡◌, ◌<◌};
ghost use Rattle.bh_base.specs.Commands.{command_count};
ghost use Rattle.bh_in_force.specs.Properties.{in_force_found, in_force_of};

use bh_base::{CommandProps, GroupProps};

/// The properties of a command, and those that its group's commands share.
#[derive(Clone, Copy, Debug, PartialEq, Eq)]
pub struct InForce {
    /// `GroupProps::slots`.
    pub slots: u64,
    /// `GroupProps::core`.
    pub core: u64,
    /// `GroupProps::max_queue`: None, where there is no queue.
    pub max_queue: Option<u64>,
    /// `GroupProps::queue_threshold`.
    pub queue_threshold: u64,
    /// The command's own.
    pub command: CommandProps,
}

impl InForce {
    /// What is in force of the command of the number, in a group of the properties.
    pub fn of(props: &GroupProps, command: u8) -> InForce
        requires { command < command_count props.now }
        ensures { result ≡ in_force_of command props.now }
    {
        InForce {
            slots: props.slots,
            core: props.core,
            max_queue: props.max_queue,
            queue_threshold: props.queue_threshold,
            command: *props.command(command),
        }
    }

    /// The same, where the group may lack the command: None then.
    pub fn find(props: &GroupProps, command: u8) -> Option<InForce>
        ensures { result ≡ in_force_found command props.now }
    {
        if (command as usize) < props.commands.len() {
            Some(InForce::of(props, command))
        } else {
            None
        }
    }
}
