//! What may be asked for in one turn of the lock, and what is said to it.

ghost use Rattle.std.specs.Prelude.{◌≡◌};

use crate::freed::Freed;
use crate::next::Progress;
use crate::pass::Pass;
use bh_base::{GroupId, GroupProps, Serial, Step};
use bh_core::{RegisterError, RetireError};
use bh_in_force::InForce;
use std::alloc::Global;

/// What may be asked for in one turn of the lock. Steps are of the group of the pass that is handed in with it.
#[derive(Clone, Copy)]
pub(crate) enum Ask<'a> {
    /// That this step is made.
    Step(&'a Step),
    /// That this step is made and, where it was, a Collect of the serial, unless that has to wait.
    StepAndCollect(&'a Step, Serial),
    /// What a worker is to do: it waits until there is something.
    Next,
    /// What the ticket of the serial was answered: it waits until there is an answer.
    Collect(Serial),
    /// That tickets are timed out which are due.
    Expire,
    /// The place of the first of the passes in whose group a ticket is due.
    FirstDue(&'a [Pass]),
    /// That the service is stopped.
    Stop,
    /// Whether it was.
    IsStopped,
    /// That a group is registered, which may do so many steps.
    Register {
        alloc: Global,
        props: &'a GroupProps,
        step_limit: u64,
    },
    /// That the group is retired.
    Retire(GroupId),
    /// Whether the group is registered, and not retired.
    IsRegistered(GroupId),
    /// How many groups were registered in all.
    Groups,
    /// How many workers the group wants.
    Workers(GroupId),
    /// What is in force of the group's command of the number.
    InForce {
        group: GroupId,
        command: u8,
    },
}

/// What is said to it. The reply to the last step is written where the caller keeps it.
#[derive(Clone, Copy)]
pub(crate) enum Said {
    Done,
    /// How far the step and the Collect behind it came.
    Progress(Progress),
    /// To a worker: the service was stopped.
    Stopped,
    /// How many tickets timed out; None where none was due.
    Expired(Option<u64>),
    Due(Option<usize>),
    Is(bool),
    Count(u64),
    Registered(Result<GroupId, RegisterError>),
    Retired(Result<(), RetireError>),
    /// None where there is no such group or command.
    InForce(Option<InForce>),
}

/// What is said, and who goes on because of it.
pub(crate) struct Answer {
    pub(crate) said: Said,
    pub(crate) freed: Freed,
}

impl Answer {
    /// What is said where nobody goes on because of it.
    pub(crate) fn look(said: Said) -> Answer
        ensures { result.said ≡ said }
    {
        Answer {
            said,
            freed: Freed::nobody(),
        }
    }
}
