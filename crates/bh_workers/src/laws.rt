//! Laws of the definitions. Each function carries one as its contract, and does nothing when it runs.

ghost use Rattle.bh_workers.specs.CallLaw.{CallLaw};

use crate::dependency::Dependency;
use bh_audit::Clock;

/// What the receipts of a call tell, whichever way it went: they are at most five, all of the pass's group and at
/// moments that the clock names; with an answer, and with `Taken`, the first is a Submit of the request and the last a
/// Collect of the ticket that its reply names; with `GroupFull` there is the Submit alone, with `PassFull` and
/// `NoCommand` nothing.
pub fn calls_collect_their_own_tickets<D: Dependency, C: Clock>()
    ensures { CallLaw D.ends D.fallback_ends C.moments }
{}
