//! A drive: all threads of a service, from the first request to the last answer.

ghost use Rattle.std.specs.Prelude.{◌≡◌, ◌≤◌, ◌++◌, Err, IfOk, length, map, vec_items};
ghost use Rattle.std.specs.List.{AllByRecursion};
ghost use Rattle.bh_workers.specs.Callers.{first_pass};
ghost use Rattle.bh_workers.specs.Driving.{FindRoom, IsDriven, IsWorked, IsWorkerPass};
ghost use Rattle.bh_workers.specs.declared.caller_threads.Called.{Called};
ghost use Rattle.bh_workers.specs.declared.driving.DriveError.TheVariants.{NoGroup};

use crate::caller_threads::{Called, caller_passes, start_callers};
use crate::dependency::{Dependency, Pace};
use crate::environment::Environment;
use crate::service_threads::{Worked, start_timer, start_workers};
use crate::threads::ThreadError;
use bh_audit::{Clock, Pass, PassError, Shared};
use bh_base::{Answer, CallError, GroupId, Request};
use std::alloc::{AllocError, Global};
use std::sync::Wait;
use std::thread;
use std::thread::{Scope, Threads};
use thiserror::Error;

/// The requests that one caller makes, one after another, to one group.
#[derive(Drop)]
pub struct RequestList {
    pub group: GroupId,
    pub requests: Vec<Request>,
}

/// What all threads of a drive give back.
#[derive(Drop)]
pub struct Driven {
    /// For each list, the answers to its requests, in their order.
    pub answers: Vec<Vec<Result<Answer, CallError>>>,
    /// The passes of the callers in the order of the lists, then those of the workers, then those of the timer.
    pub passes: Vec<Pass>,
}

/// Why a drive gives nothing back.
#[derive(Clone, Copy, Debug, PartialEq, Eq, Error)]
pub enum DriveError {
    /// The group of a list is not registered, or was retired; no thread was started.
    #[error("no such group")]
    NoGroup,
    /// There is not enough memory for the passes and answers.
    #[error("out of memory")]
    Memory,
    /// A thread could not be started.
    #[error("a thread could not be started")]
    Spawn,
}

impl From<ThreadError> for DriveError {
    ghost use Rattle.std.specs.Prelude.{◌≡◌};
    ghost use Rattle.bh_workers.specs.Driving.{told_as};

    ghost from_gives = { λ cause error. error ≡ told_as cause };

    fn from(cause: ThreadError) -> DriveError {
        match cause {
            ThreadError::Memory => DriveError::Memory,
            ThreadError::Spawn => DriveError::Spawn,
        }
    }
}

/// Runs the service with threads of its own: for each group as many workers as it wants, one timer for all groups,
/// and for each list one caller, which makes the list's requests one after another. Once all callers have ended it
/// stops the service, and gives back the answers and all passes, each of which had room for so many receipts.
///
/// A group that is registered after the drive began has no workers and no timer of it: nobody starts what is queued
/// there, and nothing there times out, unless threads of others see to it. The workers of a group that is retired
/// meanwhile end, and its requests are answered `NoGroup`.
///
/// No request is answered `PassFull` where that is room for five receipts for each request of its list. One whose
/// command the group lacks is answered `NoCommand`, and those after it are made.
///
/// The passes of the callers are made before a thread starts. Where the group of a list is not registered then, the
/// answer is `NoGroup`, and the service is as it was. With `Memory` and `Spawn` the service is stopped, the threads have
/// ended, and their passes are given up.
pub fn drive<
    D: Dependency + Sync,
    C: Clock + Sync,
    P: Pace + Send + Drop,
    R: Threads + Wait + Sync,
>(
    rt: &R,
    alloc: Global,
    shared: &Shared,
    dependency: &D,
    clock: &C,
    pace: P,
    lists: &[RequestList],
    room: u64,
) -> Result<Driven, DriveError>
    ensures driven { IfOk result (λ d. IsDriven D.ends D.fallback_ends C.moments shared.now.audited lists.now d) }
    ensures unrefused { IfOk result (λ d. FindRoom shared.now.audited room lists.now (map vec_items d.answers.items)) }
    ensures listed { result ≡ Err NoGroup → 1 ≤ length lists.now }
{
    let environment = Environment {
        rt,
        shared,
        dependency,
        clock,
    };
    match caller_passes(rt, shared, alloc, lists, room) {
        Ok(passes) => Ok(run(&environment, alloc, pace, lists, passes, room)?),
        Err(PassError::NoGroup) => Err(DriveError::NoGroup),
        Err(PassError::Memory) => {
            shared.stop(rt);
            Err(DriveError::Memory)
        }
    }
}

/// Runs all threads in one scope. Where they give nothing back, the service is stopped.
fn run<D: Dependency + Sync, C: Clock + Sync, P: Pace + Send + Drop, R: Threads + Wait + Sync>(
    environment: &Environment<'_, D, C, R>,
    alloc: Global,
    pace: P,
    lists: &[RequestList],
    passes: Vec<Pass>,
    room: u64,
) -> Result<Driven, ThreadError>
    requires { passes.items ≡ map (first_pass environment.now.shared.now.audited room) lists.now }
    ensures driven { IfOk result (λ d. IsDriven D.ends D.fallback_ends C.moments environment.now.shared.now.audited lists.now d) }
    ensures unrefused { IfOk result (λ d. FindRoom environment.now.shared.now.audited room lists.now (map vec_items d.answers.items)) }
{
    thread::scope(
        thread::scope_env(),
        environment.rt,
        |scope| -> Result<Driven, ThreadError>
            requires { passes.items ≡ map (first_pass environment.now.shared.now.audited room) lists.now }
            ensures driven { IfOk result (λ d. IsDriven D.ends D.fallback_ends C.moments environment.entry.now.shared.now.audited lists.entry.now d) }
            ensures unrefused { IfOk result (λ d. FindRoom environment.entry.now.shared.now.audited room lists.entry.now (map vec_items d.answers.items)) }
        {
            let driven = run_all(environment, scope, alloc, pace, lists, passes, room);
            if driven.is_err() {
                environment.shared.stop(environment.rt);
            }
            driven
        },
    )
}

/// Starts all threads, and joins them.
fn run_all<
    's,
    'e,
    D: Dependency + Sync,
    C: Clock + Sync,
    P: Pace + Send + Drop + 'e,
    R: Threads + Wait + Sync,
>(
    environment: &'e Environment<'e, D, C, R>,
    scope: &'s Scope<'s, &'e ()>,
    alloc: Global,
    pace: P,
    lists: &'e [RequestList],
    passes: Vec<Pass>,
    room: u64,
) -> Result<Driven, ThreadError>
    requires { passes.items ≡ map (first_pass environment.now.shared.now.audited room) lists.now }
    ensures driven { IfOk result (λ d. IsDriven D.ends D.fallback_ends C.moments environment.now.shared.now.audited lists.now d) }
    ensures unrefused { IfOk result (λ d. FindRoom environment.now.shared.now.audited room lists.now (map vec_items d.answers.items)) }
{
    let rt = environment.rt;
    let timer = start_timer(environment, scope, alloc, pace, room)?;
    let workers = start_workers(environment, scope, alloc, room)?;
    let callers = start_callers(environment, scope, alloc, lists, passes)?;
    let called = thread::join_promised(rt, callers)?;
    environment.shared.stop(rt);
    let worked = thread::join_promised(rt, workers)?;
    let timed = timer.join(rt);
    gather(alloc, called, passes_of::<D, C>(alloc, worked)?, timed)
}

/// The passes of all workers. The error is that of one that could not go on.
fn passes_of<D: Dependency, C: Clock>(
    alloc: Global,
    worked: Vec<Worked>,
) -> Result<Vec<Pass>, ThreadError>
    requires { AllByRecursion (IsWorked D.ends C.moments) worked.items }
    ensures { IfOk result (λ all. AllByRecursion (IsWorkerPass D.ends C.moments) all.items) }
{
    let mut all = Vec::new(alloc);
    for passes in worked {
        all.append(&mut passes?)?;
    }
    Ok(all)
}

/// What all threads gave back.
fn gather(
    alloc: Global,
    called: Vec<Called>,
    mut worked: Vec<Pass>,
    mut timed: Vec<Pass>,
) -> Result<Driven, ThreadError>
    ensures answers { IfOk result (λ d. d.answers.items ≡ map (λ (r : Called). r.answers) called.items) }
    ensures passes { IfOk result (λ d. d.passes.items ≡ map (λ (r : Called). r.pass) called.items ++ (worked.items ++ timed.items)) }
{
    let Driven {
        answers,
        mut passes,
    } = answers_and_passes(alloc, called)?;
    worked.append(&mut timed)?;
    passes.append(&mut worked)?;
    Ok(Driven { answers, passes })
}

/// The answers of the callers, and their passes.
fn answers_and_passes(alloc: Global, called: Vec<Called>) -> Result<Driven, AllocError>
    ensures answers { IfOk result (λ d. d.answers.items ≡ map (λ (r : Called). r.answers) called.items) }
    ensures passes { IfOk result (λ d. d.passes.items ≡ map (λ (r : Called). r.pass) called.items) }
{
    let mut all_answers = Vec::new(alloc);
    let mut passes = Vec::new(alloc);
    for Called { answers, pass } in called {
        all_answers.push(answers)?;
        passes.push(pass)?;
    }
    Ok(Driven {
        answers: all_answers,
        passes,
    })
}
