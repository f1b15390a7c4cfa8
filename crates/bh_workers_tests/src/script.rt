//! Scripts of a service: each line begins with the number of a pass, asks something by it, and says behind ` = ` what is
//! answered.

ghost use Rattle.std.specs.Prelude.{◌≤◌, ◌^◌};

use crate::asking::ask;
use crate::driving::assert_text;
use crate::samples::props;
use bh_audit::{Pass, Shared};
use bh_base::GroupId;
use bh_scripts::words::{number, split_line, split_word};
use bh_services::services::{add, service_of, two_groups};
use std::process::Abort;
use std::sync::Wait;

/// An audited service of three groups.
pub(crate) fn three_groups<R: Abort + AllocGlobal>(rt: &R, steps: u64) -> Shared
    requires some { 1 ≤ steps }
    requires few { steps ≤ 2 ^ 40 }
{
    let mut core = two_groups(rt.alloc(), props(rt), props(rt), steps).expect(rt, "memory");
    add(&mut core, &props(rt), steps).expect(rt, "memory");
    service_of(rt.alloc(), core, Some(steps)).expect(rt, "memory")
}

/// The passes of these groups, with room for so many receipts.
pub(crate) fn take_passes<R: Wait + Abort + AllocGlobal>(
    rt: &R,
    shared: &Shared,
    wanted: &[(GroupId, u64)],
) -> Vec<Pass> {
    let mut passes = Vec::new(rt.alloc());
    for (group, room) in wanted {
        let pass = shared
            .pass(rt, rt.alloc(), *group, *room)
            .expect(rt, "a pass");
        passes.push(pass).expect(rt, "memory");
    }
    passes
}

/// Asserts what is said to each line, which begins with the number of a pass.
pub(crate) fn play<R: Abort + Wait + AllocGlobal>(
    rt: &R,
    shared: &Shared,
    passes: &mut Vec<Pass>,
    script: &str,
) {
    for line in script.lines() {
        let (asked, want) = split_line(line);
        let (at, words) = split_word(asked);
        let pass = passes.get_mut(number(at) as usize).expect(rt, "a pass");
        assert_text(rt, ask(rt, rt.alloc(), shared, pass, words), want, line);
    }
}
