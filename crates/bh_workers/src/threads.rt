//! What the threads of a drive have in common: a pass each, and why they cannot begin or go on.

ghost use Rattle.std.specs.Prelude.{◌≡◌, IfOk, IfSome, if◌then◌else◌};
ghost use Rattle.bh_journal.specs.Passes.{blank};

use bh_audit::{Pass, PassError, Shared};
use bh_base::GroupId;
use std::alloc::{AllocError, AllocFailed, Global};
use std::sync::Wait;

/// Why a thread of a drive cannot begin, or cannot go on. That a group is not registered any more is no reason: its
/// threads are left out, or end.
#[derive(Clone, Copy, Debug, PartialEq, Eq)]
pub(crate) enum ThreadError {
    /// There is not enough memory.
    Memory,
    /// A thread could not be started.
    Spawn,
}

impl From<AllocError> for ThreadError {
    ghost use Rattle.std.specs.Prelude.{◌≡◌};
    ghost use Rattle.bh_workers.specs.declared.threads.ThreadError.TheVariants.{Memory};

    ghost from_gives = { λ _ error. error ≡ Memory };

    fn from(_: AllocError) -> ThreadError {
        ThreadError::Memory
    }
}

impl<T: Drop> From<AllocFailed<T>> for ThreadError {
    ghost use Rattle.std.specs.Prelude.{◌≡◌};
    ghost use Rattle.bh_workers.specs.declared.threads.ThreadError.TheVariants.{Memory};

    ghost from_gives = { λ _ error. error ≡ Memory };

    fn from(_: AllocFailed<T>) -> ThreadError {
        ThreadError::Memory
    }
}

/// A pass of the group for a worker or the timer; None where the group was retired meanwhile.
pub(crate) fn pass_of<R: Wait>(
    rt: &R,
    shared: &Shared,
    alloc: Global,
    group: GroupId,
    room: u64,
) -> Result<Option<Pass>, ThreadError>
    ensures { IfOk result (λ told. IfSome told (λ p. p ≡ blank group (if shared.now.audited then room else 0))) }
{
    match shared.pass(rt, alloc, group, room) {
        Ok(pass) => Ok(Some(pass)),
        Err(error) => match error {
            PassError::NoGroup => Ok(None),
            PassError::Memory => Err(ThreadError::Memory),
        },
    }
}
