//! The settings of groups as the tests want them.

ghost use Rattle.bh_base.specs.Ranges.{IsCommandInRange, IsInRange};

use bh_base::{CommandProps, GroupProps};
use bh_scripts::samples::{command, props_of};
use std::process::Abort;

/// The settings of a group that are built in, with those of its own command.
pub(crate) fn props_with<R: Abort + AllocGlobal>(rt: &R, own: CommandProps) -> GroupProps
    requires own { IsCommandInRange own }
    ensures { IsInRange result }
{
    props_of(vec![in rt.alloc(); own].expect(rt, "memory"))
}

/// The settings of a group that are built in, with those of its own command and of a further one.
pub(crate) fn props_with_two<R: Abort + AllocGlobal>(
    rt: &R,
    own: CommandProps,
    further: CommandProps,
) -> GroupProps
    requires own { IsCommandInRange own }
    requires further { IsCommandInRange further }
    ensures { IsInRange result }
{
    props_of(vec![in rt.alloc(); own, further].expect(rt, "memory"))
}

/// The settings that are built in.
pub(crate) fn props<R: Abort + AllocGlobal>(rt: &R) -> GroupProps
    ensures { IsInRange result }
{
    props_with(rt, command())
}
