//! The threads that a service needs beside its callers: workers and a timer.

ghost use Rattle.std.specs.Prelude.{◌≡◌, [], IfOk};
ghost use Rattle.std.specs.List.{AllByRecursion};
ghost use Rattle.bh_workers.specs.Driving.{IsTimerPass, IsWorked, IsWorkerPass};
ghost use Rattle.bh_journal.specs.Passes.{PassView};

use crate::dependency::{Dependency, Pace};
use crate::environment::Environment;
use crate::threads::{ThreadError, pass_of};
use crate::timer::timer_loop;
use crate::worker::worker_loop;
use bh_audit::{Clock, Pass, Shared};
use bh_base::GroupId;
use std::alloc::Global;
use std::marker::PhantomData;
use std::sync::Wait;
use std::thread::{Promise, PromisedHandle, Scope, Threads};

/// The promise of a worker.
#[derive(Drop)]
pub(crate) struct WorkerOf<D, C> {
    of: PhantomData<(D, C)>,
}

impl<D: Dependency, C: Clock> Promise<Worked> for WorkerOf<D, C> {
    ghost kept_by = { λ p r. IsWorked D.ends C.moments r };
}

/// What a worker gives back: its passes, of which all but the last are full, or why it could not go on.
pub(crate) type Worked = Result<Vec<Pass>, ThreadError>;

/// Starts the workers of the groups that are registered now.
pub(crate) fn start_workers<
    's,
    'e,
    D: Dependency + Sync,
    C: Clock + Sync,
    R: Threads + Wait + Sync,
>(
    environment: &'e Environment<'e, D, C, R>,
    scope: &'s Scope<'s, &'e ()>,
    alloc: Global,
    room: u64,
) -> Result<Vec<PromisedHandle<Worked, WorkerOf<D, C>>>, ThreadError> {
    let mut handles = Vec::new(alloc);
    for number in 0..environment.shared.groups(environment.rt) {
        start_workers_of(
            environment,
            scope,
            alloc,
            GroupId(number),
            room,
            &mut handles,
        )?;
    }
    Ok(handles)
}

/// Starts the workers of one group. One that was retired meanwhile gets no more.
fn start_workers_of<'s, 'e, D: Dependency + Sync, C: Clock + Sync, R: Threads + Wait + Sync>(
    environment: &'e Environment<'e, D, C, R>,
    scope: &'s Scope<'s, &'e ()>,
    alloc: Global,
    group: GroupId,
    room: u64,
    handles: &mut Vec<PromisedHandle<Worked, WorkerOf<D, C>>>,
) -> Result<(), ThreadError> {
    let (rt, shared) = (environment.rt, environment.shared);
    for _ in 0..shared.workers(rt, group) {
        let Some(pass) = pass_of(rt, shared, alloc, group, room)? else {
            break;
        };
        handles.push(start_worker(environment, scope, alloc, pass)?)?;
    }
    Ok(())
}

/// Starts one worker with an empty pass.
fn start_worker<'s, 'e, D: Dependency + Sync, C: Clock + Sync, R: Threads + Wait + Sync>(
    environment: &'e Environment<'e, D, C, R>,
    scope: &'s Scope<'s, &'e ()>,
    alloc: Global,
    pass: Pass,
) -> Result<PromisedHandle<Worked, WorkerOf<D, C>>, ThreadError>
    requires { pass.receipts ≡ [] }
{
    let (rt, shared) = (environment.rt, environment.shared);
    let (dependency, clock) = (environment.dependency, environment.clock);
    let promise: WorkerOf<D, C> = WorkerOf { of: PhantomData };
    let spawned = scope.spawn_with(
        promise,
        move || -> Worked
            requires { pass.receipts ≡ [] }
            ensures { IsWorked D.ends C.moments result }
        { work(rt, shared, alloc, pass, dependency, clock) },
    );
    spawned.map_err(|_| ThreadError::Spawn)
}

/// Works until there is a reason to end. Where the worker cannot go on, it stops the service: whoever waits for a run
/// is told so, and does not wait for ever.
fn work<D: Dependency, C: Clock, R: Wait>(
    rt: &R,
    shared: &Shared,
    alloc: Global,
    pass: Pass,
    dependency: &D,
    clock: &C,
) -> Worked
    requires { pass.receipts ≡ [] }
    ensures { IsWorked D.ends C.moments result }
{
    let worked = work_on(rt, shared, alloc, pass, dependency, clock);
    if worked.is_err() {
        shared.stop(rt);
    }
    worked
}

/// Works with one pass after another, each with the room of the first, until there is another reason to end than a full
/// pass, or the group was retired. The error comes where memory for a pass was refused.
fn work_on<D: Dependency, C: Clock, R: Wait>(
    rt: &R,
    shared: &Shared,
    alloc: Global,
    mut pass: Pass,
    dependency: &D,
    clock: &C,
) -> Worked
    requires { pass.receipts ≡ [] }
    ensures { IsWorked D.ends C.moments result }
{
    let room = pass.room_left();
    let mut passes = Vec::new(alloc);
    for _ in rt.forever() {
        let filled = fill(rt, shared, pass, dependency, clock);
        let group = filled.group();
        let is_last = room < 2 || is_marked(&filled);
        passes.push(filled)?;
        if is_last {
            return Ok(passes);
        }
        let Some(next) = pass_of(rt, shared, alloc, group, room)? else {
            return Ok(passes);
        };
        pass = next;
    }
    unreachable!()
}

/// Works until there is a reason to end, and gives back the pass.
fn fill<D: Dependency, C: Clock, R: Wait>(
    rt: &R,
    shared: &Shared,
    mut pass: Pass,
    dependency: &D,
    clock: &C,
) -> Pass
    requires { pass.receipts ≡ [] }
    ensures work { IsWorkerPass D.ends C.moments result }
    ensures group { result.group ≡ pass.group }
{
    worker_loop(rt, shared, &mut pass, dependency, clock);
    pass
}

/// Whether the pass tells that its worker was stopped, or its group is worn or not registered.
fn is_marked(pass: &Pass) -> bool {
    let marks = pass.marks();
    marks.stopped || marks.worn || marks.no_group
}

/// The promise of the timer.
#[derive(Drop)]
pub(crate) struct TimerOf<C> {
    of: PhantomData<C>,
}

impl<C: Clock> Promise<Vec<Pass>> for TimerOf<C> {
    ghost kept_by = { λ p r. AllByRecursion (IsTimerPass C.moments) r.items };
}

/// Starts the timer of the groups that are registered now.
pub(crate) fn start_timer<
    's,
    'e,
    D: Dependency + Sync,
    C: Clock + Sync,
    P: Pace + Send + Drop + 'e,
    R: Threads + Wait + Sync,
>(
    environment: &'e Environment<'e, D, C, R>,
    scope: &'s Scope<'s, &'e ()>,
    alloc: Global,
    pace: P,
    room: u64,
) -> Result<PromisedHandle<Vec<Pass>, TimerOf<C>>, ThreadError> {
    let passes = timer_passes(environment.rt, environment.shared, alloc, room)?;
    let promise: TimerOf<C> = TimerOf { of: PhantomData };
    let spawned = scope.spawn_with(
        promise,
        move || -> Vec<Pass>
            requires { AllByRecursion (λ (p : PassView). p.receipts ≡ []) passes.items }
            ensures { AllByRecursion (IsTimerPass C.moments) result.items }
        { keep_time(environment, passes, pace) },
    );
    spawned.map_err(|_| ThreadError::Spawn)
}

/// A pass of each group that is registered.
fn timer_passes<R: Wait>(
    rt: &R,
    shared: &Shared,
    alloc: Global,
    room: u64,
) -> Result<Vec<Pass>, ThreadError>
    ensures { IfOk result (λ v. AllByRecursion (λ (p : PassView). p.receipts ≡ []) v.items) }
{
    let mut passes = Vec::new(alloc);
    for number in 0..shared.groups(rt) {
        if let Some(pass) = pass_of(rt, shared, alloc, GroupId(number), room)? {
            passes.push(pass)?;
        }
    }
    Ok(passes)
}

/// Keeps the time of all groups while the pace goes on, and gives back the passes.
fn keep_time<D, C: Clock, P: Pace + Drop, R: Wait>(
    environment: &Environment<'_, D, C, R>,
    mut passes: Vec<Pass>,
    mut pace: P,
) -> Vec<Pass>
    requires { AllByRecursion (λ (p : PassView). p.receipts ≡ []) passes.items }
    ensures { AllByRecursion (IsTimerPass C.moments) result.items }
{
    let Environment {
        rt,
        shared,
        clock,
        ..
    } = environment;
    timer_loop(*rt, *shared, passes.as_mut_slice(), *clock, &mut pace);
    drop(pace);
    passes
}
