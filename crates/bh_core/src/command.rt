//! What a group keeps of each of its commands.

ghost use Rattle.std.specs.Prelude.{◌≡◌, ◌/◌, ◌<◌, IfOk, map};
ghost use Rattle.bh_core.specs.Command.{new_command};
ghost use Rattle.bh_core.specs.Stepping.{IsServed};

use crate::history::History;
use bh_base::{CommandProps, GroupProps};
use bh_circuit::Circuit;
use std::alloc::{AllocError, Global};

/// A command of a group, with storage for all that its steps can bring.
#[derive(Drop)]
pub struct Command {
    pub circuit: Circuit,
    pub history: History,
}

impl Command {
    /// A command of a new group.
    pub fn new(alloc: Global, props: &CommandProps) -> Result<Self, AllocError>
        requires buckets { 0 < props.now.buckets }
        requires width { 0 < props.now.window_ms / props.now.buckets }
        ensures { IfOk result (λ command. command ≡ new_command props.now) }
    {
        let history = History::new(alloc, props)?;
        Ok(Command {
            circuit: Circuit::new(),
            history,
        })
    }
}

/// The commands of a new group, by their numbers.
pub fn new_commands(alloc: Global, props: &GroupProps) -> Result<Vec<Command>, AllocError>
    requires { IsServed props.now }
    ensures { IfOk result (λ commands. commands.items ≡ map new_command props.now.commands) }
{
    let mut commands = Vec::with_capacity(alloc, props.commands.len())?;
    for own in &props.commands {
        commands.push_reserved(Command::new(alloc, own)?);
    }
    Ok(commands)
}
