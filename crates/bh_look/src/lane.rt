//! What is kept of a command: its tally, its times, and what it showed before the step at hand.

ghost use Rattle.std.specs.Prelude.{◌≡◌, [], All, length, IfOk};
ghost use Rattle.bh_look.specs.Tallies.{no_tally};
ghost use Rattle.bh_look.specs.Times.{AreTimes};

use crate::tally::Tally;
use crate::times::Times;
use bh_base::CircuitState;
use std::alloc::{AllocError, Global};

/// What is kept of a command of a group.
#[derive(Drop)]
pub struct Lane {
    pub tally: Tally,
    pub times: Times,
    /// What it showed before the step at hand.
    pub before: Shown,
}

/// What a command shows of itself between steps, as far as a step changes it.
#[derive(Clone, Copy, Debug)]
pub struct Shown {
    pub circuit: CircuitState,
    /// The timeouts in the window, where they were asked for.
    pub timeouts: u64,
}

/// Lanes for so many commands, with nothing in them. It fails only for want of memory.
pub fn new_lanes(alloc: Global, count: usize) -> Result<Vec<Lane>, AllocError>
    ensures count { IfOk result (λ lanes. length lanes.items ≡ count) }
    ensures none { IfOk result (λ lanes. All (λ lane. lane.tally ≡ no_tally) lanes.items) }
    ensures times { IfOk result (λ lanes. All (λ lane. AreTimes [] lane.times) lanes.items) }
{
    let mut lanes = Vec::with_capacity(alloc, count)?;
    for _ in 0..count {
        lanes.push(Lane {
            tally: Tally::new(),
            times: Times::new(alloc),
            before: Shown {
                circuit: CircuitState::Closed,
                timeouts: 0,
            },
        })?;
    }
    Ok(lanes)
}
