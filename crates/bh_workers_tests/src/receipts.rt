//! Receipts of another service: what the end of a service says of them.

use crate::driving::assert_end;
use crate::samples::props;
use crate::script::{play, take_passes};
use bh_audit::{Pass, Shared};
use bh_core::Core;
use bh_services::services::{A, add, service_of};
use std::process::Abort;
use std::sync::Wait;

/// An audited service of one group.
fn one_group<R: Abort + AllocGlobal>(rt: &R) -> Shared {
    let mut core = Core::new(rt.alloc(), 100);
    add(&mut core, &props(rt), 10).expect(rt, "memory");
    service_of(rt.alloc(), core, Some(10)).expect(rt, "memory")
}

/// The service after the script, and the one pass by which it was played.
fn played<R: Abort + Wait + AllocGlobal>(rt: &R, script: &str) -> (Shared, Vec<Pass>) {
    let shared = one_group(rt);
    let mut passes = take_passes(rt, &shared, &[(A, 10)]);
    play(rt, &shared, &mut passes, script);
    (shared, passes)
}

const X: &str = "0 0 0 submit x = Queued(1)";

const Y: &str = "0 0 0 submit y = Queued(1)";

const X_AND_Y: &str = "0 0 0 submit x = Queued(1)\n0 0 0 submit y = Queued(2)";

/// Asserts what the end of a service that was asked for x says: of its own pass, if it is handed in, and of one of
/// another service by the script.
fn assert_foreign<R: Abort + Wait + AllocGlobal>(rt: &R, own: bool, foreign: &str, want: &str) {
    let (shared, mut passes) = played(rt, X);
    if !own {
        passes.clear();
    }
    if !foreign.is_empty() {
        let (_, mut others) = played(rt, foreign);
        passes.append(&mut others).expect(rt, "memory");
    }
    assert_end(rt, shared, passes, want);
}

#[test]
fn foreign_receipts(rt: HostRuntime) {
    assert_foreign(&rt, true, "", "1 of 10, running");
    assert_foreign(&rt, false, Y, "mismatch at 0 1: 1 of 10, running");
    assert_foreign(&rt, false, "", "missing at 0 1: 1 of 10, running");
    assert_foreign(&rt, true, X, "mismatch at 0 1: 1 of 10, running");
    assert_foreign(&rt, false, X_AND_Y, "mismatch at 0 2: 1 of 10, running");
}
