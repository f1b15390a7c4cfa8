//! What a service runs for its requests, and how long its timer goes on.

ghost use Rattle.std.specs.Prelude.{ℕ, List};
ghost use Rattle.bh_base.specs.declared.reply.Cause.{Cause};
ghost use Rattle.bh_base.specs.declared.step.FallbackEnd.{FallbackEnd};
ghost use Rattle.bh_base.specs.declared.step.GroupId.{GroupId};
ghost use Rattle.bh_base.specs.declared.step.RunEnd.{RunEnd};

use bh_base::{Cause, FallbackEnd, GroupId, RunEnd, Text};

/// What is run for the requests of the groups. Threads share it, and nobody holds the lock of the service while it
/// runs.
pub trait Dependency {
    /// The ends that `run` may give for a group, a command and an argument, whatever the value of the type.
    ghost ends: { GroupId → ℕ → List ℕ → RunEnd → Type 0 };

    /// The ends that `fallback` may give for a group, a command, a cause and an argument, whatever the value of the
    /// type.
    ghost fallback_ends: { GroupId → ℕ → Cause → List ℕ → FallbackEnd → Type 0 };

    /// Runs the dependency of the group's command with the argument.
    fn run(&self, group: GroupId, command: u8, arg: &Text<64>) -> RunEnd
        ensures named { ends group command arg.now result };

    /// Runs the fallback of the group's command for the cause, with the argument of the request.
    fn fallback(&self, group: GroupId, command: u8, cause: Cause, arg: &Text<64>) -> FallbackEnd
        ensures named { fallback_ends group command cause arg.now result };
}

/// How long a timer goes on.
pub trait Pace {
    /// Whether to look once more for tickets that are due. It may take its time before it answers.
    fn go_on(&mut self) -> bool;
}
