//! Steps of a command that the group lacks.

use crate::groups::core_of_one;
use crate::script::play;
use bh_base::{Op, Reply};
use bh_core::Core;
use bh_scripts::samples::step;

/// What the group's own command shows of itself.
fn metrics(core: &mut Core) -> Reply {
    core.apply(step(0, 0, &Op::Read { command: 0 }))
}

// Behind a step at 2000, that at 500 would find the ticket due.
const UNKNOWN: &str = "steps 0 = 2
0 2000 submit-of 1 y = NoCommand
0 2000 read-of 9 = NoCommand
1 2000 read-of 9 = NoGroup
steps 0 = 2
0 500 expire = Expired(0)
";

#[test]
fn a_step_of_an_unknown_command_changes_nothing(rt: HostRuntime) {
    let mut core = core_of_one(&rt, 10);
    play(&rt, &mut core, "0 0 submit x = Queued(1)");
    let before = metrics(&mut core);
    assert!(rt; matches!(before, Reply::Metrics(_)));
    play(&rt, &mut core, UNKNOWN);
    assert!(rt; metrics(&mut core) == before);
}

const WORN: &str = "0 0 start = Idle
0 0 submit-of 1 y = NoCommand
worn 0 = 1
0 0 start = Worn
0 0 submit-of 1 y = NoCommand
0 0 read-of 9 = NoCommand
0 0 read = Worn
";

#[test]
fn an_unknown_command_is_told_before_worn(rt: HostRuntime) {
    let mut core = core_of_one(&rt, 1);
    play(&rt, &mut core, WORN);
}
