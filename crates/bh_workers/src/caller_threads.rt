//! The threads of callers: each makes the requests of one list.

ghost use Rattle.std.specs.Prelude.{◌≡◌, ◌≤◌, [], Err, IfOk, length, map, vec_capacity, vec_len};
ghost use Rattle.bh_audit.specs.declared.next.PassError.TheVariants.{NoGroup};
ghost use Rattle.bh_workers.specs.Callers.{AllCallers, ArePassesOf, CalledAs, first_pass};

use crate::caller::call;
use crate::dependency::Dependency;
use crate::driving::RequestList;
use crate::environment::Environment;
use crate::threads::ThreadError;
use bh_audit::{Clock, Pass, PassError, Shared};
use bh_base::{Answer, CallError, GroupId, Request, push_within};
use std::alloc::Global;
use std::marker::PhantomData;
use std::sync::Wait;
use std::thread::{Promise, PromisedHandle, Scope, Threads};

/// What a caller gives back.
#[derive(Drop)]
pub(crate) struct Called {
    pub(crate) answers: Vec<Result<Answer, CallError>>,
    pub(crate) pass: Pass,
}

/// The promise of a caller: its requests were made, in a service of this kind, with a pass of this group and room.
#[derive(Drop)]
pub(crate) struct CallerOf<'a, D, C> {
    audited: bool,
    group: GroupId,
    room: u64,
    requests: &'a [Request],
    of: PhantomData<(D, C)>,
}

impl<'a, D: Dependency, C: Clock> Promise<Called> for CallerOf<'a, D, C> {
    ghost kept_by = { λ p r. CalledAs D.ends D.fallback_ends C.moments p.audited p.group p.room p.requests.now r };
}

/// The passes of the callers, one for each list. The error is that of the first pass that was refused: `NoGroup` where
/// the group of its list is not registered, else `Memory`.
pub(crate) fn caller_passes<R: Wait>(
    rt: &R,
    shared: &Shared,
    alloc: Global,
    lists: &[RequestList],
    room: u64,
) -> Result<Vec<Pass>, PassError>
    ensures passes { IfOk result (λ v. v.items ≡ map (first_pass shared.now.audited room) lists.now) }
    ensures listed { result ≡ Err NoGroup → 1 ≤ length lists.now }
{
    let mut passes = Vec::with_capacity(alloc, lists.len())?;
    for list in lists {
        let pass = shared.pass(rt, alloc, list.group, room)?;
        passes.push_reserved(pass);
    }
    Ok(passes)
}

/// Starts a caller for each list, with its pass.
pub(crate) fn start_callers<
    's,
    'e,
    D: Dependency + Sync,
    C: Clock + Sync,
    R: Threads + Wait + Sync,
>(
    environment: &'e Environment<'e, D, C, R>,
    scope: &'s Scope<'s, &'e ()>,
    alloc: Global,
    lists: &'e [RequestList],
    passes: Vec<Pass>,
) -> Result<Vec<PromisedHandle<Called, CallerOf<'e, D, C>>>, ThreadError>
    requires { ArePassesOf lists.now passes.items }
    ensures len { IfOk result (λ v. vec_len v ≡ length lists.now) }
    ensures each { IfOk result (λ v. AllCallers environment.now.shared.now.audited lists.now passes.items v.items) }
{
    let mut handles = Vec::with_capacity(alloc, lists.len())?;
    let (rt, shared) = (environment.rt, environment.shared);
    let (dependency, clock) = (environment.dependency, environment.clock);
    let audited = shared.audited();
    for (list, pass) in lists.iter().zip(passes) {
        let group = list.group;
        let requests = list.requests.as_slice();
        let answers = Vec::with_capacity(alloc, requests.len())?;
        let promise: CallerOf<'e, D, C> = CallerOf {
            audited,
            group,
            room: pass.room_left(),
            requests,
            of: PhantomData,
        };
        let spawned = scope.spawn_with(
            promise,
            move || -> Called
                requires { (pass.receipts ≡ []) × (answers.items ≡ []) × (length requests.now ≤ vec_capacity answers) }
                ensures { CalledAs D.ends D.fallback_ends C.moments shared.entry.now.audited pass.group pass.room requests.entry.now result }
            { make_calls(rt, shared, pass, answers, dependency, clock, requests) },
        );
        let Ok(handle) = spawned else {
            return Err(ThreadError::Spawn);
        };
        handles.push_reserved(handle);
    }
    Ok(handles)
}

/// Makes the requests one after another.
fn make_calls<D: Dependency, C: Clock, R: Wait>(
    rt: &R,
    shared: &Shared,
    mut pass: Pass,
    mut answers: Vec<Result<Answer, CallError>>,
    dependency: &D,
    clock: &C,
    requests: &[Request],
) -> Called
    requires empty { (pass.receipts ≡ []) × (answers.items ≡ []) }
    requires room { length requests.now ≤ vec_capacity answers }
    ensures { CalledAs D.ends D.fallback_ends C.moments shared.now.audited pass.group pass.room requests.now result }
{
    for request in requests {
        let answer = call(rt, shared, &mut pass, dependency, clock, *request);
        push_within(&mut answers, answer);
    }
    Called { answers, pass }
}
