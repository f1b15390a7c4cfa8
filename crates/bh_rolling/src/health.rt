//! Health, added up over counts.

ghost use Rattle.std.specs.Prelude.{◌≡◌, ◌+◌, ◌<◌, ◌≤◌, ◌^◌};
ghost use Rattle.bh_base.specs.History.{count_in, health_by};
ghost use Rattle.bh_rolling.specs.Healths.{healths_summed};

use bh_base::{Counts, Health};

/// No run at all.
pub fn no_health() -> Health
    ensures { result ≡ health_by (λ k. 0) }
{
    Health {
        errors: 0,
        total: 0,
    }
}

/// Adds what the counts have of the kinds that health looks at.
pub fn add_health(health: &mut Health, counts: &Counts)
    requires errors { health.old.errors ≤ health.old.total }
    requires few { health.old.total + (health_by (count_in counts.now)).total < 2 ^ 64 }
    ensures { health.new ≡ healths_summed health.old (health_by (count_in counts.now)) }
{
    let errors = counts.failure
        + counts.timeout
        + counts.thread_pool_rejected
        + counts.semaphore_rejected;
    health.errors += errors;
    health.total += errors + counts.success;
}
