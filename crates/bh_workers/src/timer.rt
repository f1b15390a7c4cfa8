//! The timer: it times out tickets that are due, in all groups.

ghost use Rattle.std.specs.Prelude.{◌<◌, ◌≤◌, IfSome, length};
ghost use Rattle.bh_workers.specs.Timing.{AreTimed, IsTimed};

use crate::dependency::Pace;
use bh_audit::{Clock, Pass, Shared};
use std::sync::Wait;

/// Times out, for each pass in turn, the tickets of its group that are due, again and again while the pace goes on
/// and nobody has stopped the service. A pass that is full is passed over.
pub fn timer_loop<C: Clock, P: Pace, R: Wait>(
    rt: &R,
    shared: &Shared,
    passes: &mut [Pass],
    clock: &C,
    pace: &mut P,
)
    ensures { AreTimed C.moments shared.now.audited passes.old passes.new }
{
    for _ in rt.forever() {
        if !pace.go_on() || shared.stopped(rt) {
            return;
        }
        expire_all(rt, shared, passes, clock);
    }
    unreachable!()
}

/// Goes over the passes once.
fn expire_all<C: Clock, R: Wait>(rt: &R, shared: &Shared, passes: &mut [Pass], clock: &C)
    ensures { AreTimed C.moments shared.now.audited passes.old passes.new }
{
    let mut place = 0;
    while place < passes.len() {
        place = expire_next(rt, shared, passes, place, clock);
    }
}

/// How many groups are asked in one turn of the lock whether a ticket is due: while it lasts, no step is made.
const GROUPS_A_TURN: usize = 32;

/// Asks some groups, from that of the pass at the place on, and times out what is due in the first that has a ticket
/// which is due. The result is the place behind the last group that was dealt with.
fn expire_next<C: Clock, R: Wait>(
    rt: &R,
    shared: &Shared,
    passes: &mut [Pass],
    place: usize,
    clock: &C,
) -> usize
    requires { place < length passes.old }
    ensures timed { AreTimed C.moments shared.now.audited passes.old passes.new }
    ensures goes_on { (place < result) × (result ≤ length passes.old) }
{
    let behind = passes.len().min(place.saturating_add(GROUPS_A_TURN));
    match first_due(rt, shared, passes, place, behind, clock) {
        Some(due) => {
            expire(rt, shared, &mut passes[due], clock);
            due + 1
        }
        None => behind,
    }
}

/// The place of the first pass, from the one place on and before the other, in whose group a ticket is due.
fn first_due<C: Clock, R: Wait>(
    rt: &R,
    shared: &Shared,
    passes: &[Pass],
    place: usize,
    behind: usize,
    clock: &C,
) -> Option<usize>
    requires { (place ≤ behind) × (behind ≤ length passes.now) }
    ensures { IfSome result (λ due. (place ≤ due) × (due < behind) × (due < length passes.now)) }
{
    let found = shared.first_due(rt, &passes[place..behind], clock)?;
    Some(place + found)
}

/// Times out what is due in the group of the pass, unless the pass is full.
fn expire<C: Clock, R: Wait>(rt: &R, shared: &Shared, pass: &mut Pass, clock: &C)
    ensures { IsTimed C.moments shared.now.audited pass.old pass.new }
{
    let _ = shared.expire_due(rt, pass, clock);
}
