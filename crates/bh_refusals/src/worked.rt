//! Two groups that answer a worked run as new ones do.

ghost use Rattle.std.specs.Prelude.{◌≤◌, ◌^◌, OnOk, length};
ghost use Rattle.std.specs.List.{AllByRecursion};
ghost use Rattle.bh_base.specs.Ranges.{IsCommandInRange, IsInRange};
ghost use Rattle.bh_audit.specs.Books.{AreNew};

use bh_base::{CommandProps, GroupId, GroupProps};
use bh_core::{Core, RegisterError};
use bh_scripts::samples::{command, command_by_callers, props_of};
use bh_scripts::worked::{replies, steps};
use std::process::Abort;

/// How many slots a group has.
pub(crate) const SLOTS: u64 = 4;

/// The settings of a group that are built in, with a pool of one worker and few slots, and those of its commands.
fn small(commands: Vec<CommandProps>) -> GroupProps
    requires some { 1 ≤ length commands.items }
    requires few { length commands.items ≤ 16 }
    requires commands { AllByRecursion IsCommandInRange commands.items }
    ensures { IsInRange result }
{
    GroupProps {
        slots: SLOTS,
        core: 1,
        ..props_of(commands)
    }
}

/// A group with its own command alone.
fn props<R: Abort + AllocGlobal>(rt: &R) -> GroupProps
    ensures { IsInRange result }
{
    small(vec![in rt.alloc(); command()].expect(rt, "memory"))
}

/// A group with a further command, which its callers run themselves.
pub(crate) fn props_of_two<R: Abort + AllocGlobal>(rt: &R) -> GroupProps
    ensures { IsInRange result }
{
    small(vec![in rt.alloc(); command(), command_by_callers()].expect(rt, "memory"))
}

/// Adds a group that did no step.
fn add<R: Abort + AllocGlobal>(
    rt: &R,
    core: &mut Core,
    steps: u64,
) -> Result<GroupId, RegisterError>
    requires some { 1 ≤ steps }
    requires few { steps ≤ 2 ^ 40 }
    requires new { AreNew steps core.old }
    ensures { OnOk result (AreNew steps core.new) }
{
    core.register(&props(rt), steps)
}

/// A core of the two groups, each of which may do so many steps, with slots for a third.
pub(crate) fn two_groups<R: Abort + AllocGlobal>(rt: &R, steps: u64) -> Core
    requires some { 1 ≤ steps }
    requires few { steps ≤ 2 ^ 40 }
    ensures { AreNew steps result }
{
    let mut core = Core::new(rt.alloc(), 12);
    add(rt, &mut core, steps).expect(rt, "memory");
    add(rt, &mut core, steps).expect(rt, "memory");
    core
}

/// Asserts that the groups answer the worked run as new ones do.
pub(crate) fn assert_new(rt: &impl Abort, core: &mut Core) {
    assert!(rt; core.groups() == 2);
    for (step, reply) in steps().iter().zip(replies(SLOTS).iter()) {
        assert!(rt; core.apply(*step) == *reply, "{step:?}");
    }
}
