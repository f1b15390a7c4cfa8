//! The steps that were made, for whoever keeps a record of them.

ghost use Rattle.std.specs.Prelude.{◌≡◌, [], false, IfOk};
ghost use Rattle.bh_lender.specs.StepLog.{logged};

use bh_base::{Step, push_within};
use std::alloc::{AllocError, Global};
use std::marker::Model;
use std::mem;

/// Steps in the order in which they were made, a bounded number of them. Once one finds no room, the log has ended: neither
/// that one nor a later one is in it. So what it has is always a front of what was made.
#[derive(Drop)]
pub struct StepLog {
    steps: Vec<Step>,
    limit: u64,
    lost: bool,
}

impl Model for StepLog {
    ghost use Rattle.std.specs.Prelude.{◌≤◌, vec_len, vec_capacity};
    ghost use Rattle.bh_lender.specs.StepLog.{StepLogView};

    ghost Value = { StepLogView };

    ghost view = { λ l. record { steps = l.steps.items; limit = l.limit; lost = l.lost } };

    ghost invariant = { λ l. (vec_len l.steps ≤ l.limit) × (l.limit ≤ vec_capacity l.steps) };
}

impl StepLog {
    /// A log of no steps that has room for so many. The error comes where memory for them was refused.
    pub fn new(alloc: Global, limit: u32) -> Result<StepLog, AllocError>
        ensures { IfOk result (λ made. made ≡ record { steps = []; limit = limit; lost = false }) }
    {
        let steps = Vec::with_capacity(alloc, limit as usize)?;
        Ok(StepLog {
            steps,
            limit: u64::from(limit),
            lost: false,
        })
    }

    /// The steps, in the order in which they were made.
    pub fn as_slice(&self) -> &[Step]
        ensures { result.now ≡ self.now.steps }
    {
        self.steps.as_slice()
    }

    /// Whether a step found no room.
    pub fn has_lost(&self) -> bool
        ensures { result ≡ self.now.lost }
    {
        self.lost
    }

    /// Puts a step behind those before it, where there is room.
    pub fn put(&mut self, step: Step)
        ensures { self.new ≡ logged step self.old }
    {
        if self.lost {
            return;
        }
        if (self.steps.len() as u64) < self.limit {
            push_within(&mut self.steps, step);
        } else {
            self.lost = true;
        }
    }

    /// Exchanges the steps and the room of two logs; what was lost by this one is known of both then.
    pub fn swap(&mut self, other: &mut StepLog)
        ensures this { self.new ≡ record other.old { lost = self.old.lost } }
        ensures that { other.new ≡ self.old }
    {
        mem::swap(&mut self.steps, &mut other.steps);
        mem::swap(&mut self.limit, &mut other.limit);
        other.lost = self.lost;
    }

    /// Takes every step out.
    pub fn clear(&mut self)
        ensures { self.new ≡ record self.old { steps = [] } }
    {
        self.steps.clear();
    }
}
