//! Threads that sleep, and the step that lets them go on. Each is known to wait before the step is made. One that the step
//! does not wake is got out by other means, and its case fails by its name.

ghost use Rattle.bh_base.specs.Ranges.{IsInRange};

use crate::asking::ask;
use crate::driving::{assert_end, assert_text, service};
use crate::gates::{Gate, are_asleep};
use crate::samples::props;
use crate::script::{play, take_passes};
use bh_audit::{Pass, Shared};
use bh_base::{GroupId, GroupProps, Op, Reply};
use bh_scripts::samples::{step, submit};
use bh_services::services::A;
use std::alloc::AllocError;
use std::process::Abort;
use std::sync::Wait;
use std::thread::Threads;
use std::{rt, thread};

/// What is played, by the passes of a script: `before`, then so many threads that ask the same and sleep, then `steps`,
/// after which each of them is told this, and the account says that.
struct Case {
    name: &'static str,
    limit: u64,
    before: &'static str,
    sleepers: usize,
    asked: &'static str,
    steps: &'static str,
    told: &'static str,
    account: &'static str,
}

/// What a thread was told that slept, and its pass.
type Woken = (Result<String, AllocError>, Pass);

/// Asks what has to wait.
fn sleep<R: Wait + rt::Clock + AllocGlobal>(
    rt: &R,
    shared: &Shared,
    mut pass: Pass,
    asked: &str,
    gone_on: &Gate<'_, R>,
) -> Woken {
    let told = ask(rt, rt.alloc(), shared, &mut pass, asked);
    gone_on.come();
    (told, pass)
}

/// Makes the steps once all sleep. Where not all go on, the service is stopped and the group worn out, so that they do.
fn wake<R: Wait + rt::Clock + Abort + AllocGlobal>(
    rt: &R,
    shared: &Shared,
    own: &mut Vec<Pass>,
    case: &Case,
    gone_on: &Gate<'_, R>,
) {
    assert_asleep(rt, shared, A, case.sleepers as u64);
    play(rt, shared, own, case.steps);
    if gone_on.wait(case.sleepers as u64) {
        return;
    }
    shared.stop(rt);
    let pass = own.get_mut(0).expect(rt, "a pass");
    for _ in 0..case.limit {
        let _ = shared.step(rt, pass, step(0, 0, &Op::Read { command: 0 }));
    }
}

/// The passes of the threads that are to sleep.
fn sleepers<R: Wait + Abort + AllocGlobal>(rt: &R, shared: &Shared, number: usize) -> Vec<Pass> {
    let mut all = Vec::new(rt.alloc());
    for _ in 0..number {
        let pass = shared.pass(rt, rt.alloc(), A, 10).expect(rt, "a pass");
        all.push(pass).expect(rt, "memory");
    }
    all
}

/// A group of one worker, whose queue has room for five.
fn one_worker<R: Abort + AllocGlobal>(rt: &R) -> GroupProps
    ensures { IsInRange result }
{
    GroupProps {
        core: 1,
        max_queue: Some(5),
        ..props(rt)
    }
}

/// Asserts that nobody gave up at the gate.
fn assert_passed<R: rt::Clock + Abort>(rt: &R, gate: &Gate<'_, R>) {
    assert!(rt;
        gate.given_up() == 0,
        "gave up waiting, {} have come: {}",
        gate.count(),
        gate.name()
    );
}

/// Asserts that so many calls come to wait in the group.
fn assert_asleep<R: rt::Clock + Abort>(rt: &R, shared: &Shared, group: GroupId, calls: u64) {
    assert!(rt;
        are_asleep(rt, shared, group, calls),
        "{calls} calls never wait"
    );
}

/// Asserts that the steps wake all that sleep.
fn assert_woken<R: Threads + Wait + Sync + rt::Clock + Abort + AllocGlobal>(rt: &R, case: &Case) {
    let limit = case.limit.clamp(1, 100);
    let shared = service(rt, one_worker(rt), props(rt), limit);
    let mut own = take_passes(rt, &shared, &[(A, 20)]);
    play(rt, &shared, &mut own, case.before);
    let gone_on = Gate::new(rt, case.name);
    let passes = sleepers(rt, &shared, case.sleepers);
    let (woken, ()) = thread::join(
        rt,
        || thread::map_vec(
            rt,
            passes,
            &|pass| sleep(rt, &shared, pass, case.asked, &gone_on),
        ),
        || wake(rt, &shared, &mut own, case, &gone_on),
    );
    assert_passed(rt, &gone_on);
    for (told, pass) in woken.expect(rt, "memory") {
        assert_text(rt, told, case.told, case.name);
        own.push(pass).expect(rt, "memory");
    }
    assert_end(rt, shared, own, case.account);
}

/// Each in a group of one worker, whose queue has room for five.
const CASES: [Case; 12] = [
    Case {
        name: "three holders of one ticket",
        limit: 20,
        before: "0 cached x = Queued(1)\n0 cached x = Joined(1)\n0 cached x = Joined(1)\n0 next 0 = Assigned(1 x)",
        sleepers: 3,
        asked: "await 1 0",
        steps: "0 0 0 finish 1 r = Done",
        told: "Value(r)",
        account: "8 of 20 changed, 0 of 20, running",
    },
    Case {
        name: "a caller of a service that is stopped",
        limit: 20,
        before: "0 0 0 submit x = Queued(1)",
        sleepers: 1,
        asked: "await 1 0",
        steps: "0 stop = stopped",
        told: "Pending",
        account: "2 of 20 changed, 0 of 20, stopped",
    },
    Case {
        name: "a worker of a service that is stopped",
        limit: 20,
        before: "",
        sleepers: 1,
        asked: "next 0",
        steps: "0 stop = stopped",
        told: "Stopped",
        account: "0 of 20 changed, 0 of 20, stopped",
    },
    Case {
        name: "two workers of a group that is retired",
        limit: 20,
        before: "",
        sleepers: 2,
        asked: "next 0",
        steps: "0 retire = Ok(())",
        told: "NoGroup",
        account: "0 of 20 changed, 0 of 20, running",
    },
    Case {
        name: "a caller of a group that wears out",
        limit: 3,
        before: "0 0 0 submit x = Queued(1)",
        sleepers: 1,
        asked: "await 1 0",
        steps: "0 0 0 start = Assigned(1 x)\n0 0 0 start = Idle",
        told: "Worn",
        account: "3 of 3 changed, 0 of 3, running",
    },
    Case {
        name: "two workers of a group that wears out",
        limit: 2,
        before: "",
        sleepers: 2,
        asked: "next 0",
        steps: "0 0 0 start = Idle\n0 0 0 start = Idle",
        told: "Worn",
        account: "2 of 2 changed, 0 of 2, running",
    },
    Case {
        name: "a caller whose ticket times out in the queue",
        limit: 20,
        before: "0 0 0 submit x = Queued(1)",
        sleepers: 1,
        asked: "await 1 0",
        steps: "0 due 1000 = Ok(Some(1))",
        told: "RunFallback(Timeout)",
        account: "3 of 20 changed, 0 of 20, running",
    },
    Case {
        name: "a caller whose run times out",
        limit: 20,
        before: "0 0 0 submit x = Queued(1)\n0 next 0 = Assigned(1 x)",
        sleepers: 1,
        asked: "await 1 0",
        steps: "0 due 1000 = Ok(Some(1))",
        told: "RunFallback(Timeout)",
        account: "4 of 20 changed, 0 of 20, running",
    },
    Case {
        name: "a worker as a request comes",
        limit: 20,
        before: "",
        sleepers: 1,
        asked: "next 0",
        steps: "0 0 0 submit x = Queued(1)",
        told: "Assigned(1 x)",
        account: "2 of 20 changed, 0 of 20, running",
    },
    Case {
        name: "a worker as another run ends",
        limit: 20,
        before: "0 0 0 submit x = Queued(1)\n0 0 0 submit y = Queued(2)\n0 next 0 = Assigned(1 x)",
        sleepers: 1,
        asked: "next 0",
        steps: "0 0 0 finish 1 r = Done",
        told: "Assigned(2 y)",
        account: "5 of 20 changed, 0 of 20, running",
    },
    Case {
        name: "a worker as the pool grows",
        limit: 20,
        before: "0 0 0 submit x = Queued(1)\n0 0 0 submit y = Queued(2)\n0 next 0 = Assigned(1 x)",
        sleepers: 1,
        asked: "next 0",
        steps: "0 0 0 tune core-size 2 = Tuned",
        told: "Assigned(2 y)",
        account: "5 of 20 changed, 0 of 20, running",
    },
    Case {
        name: "a caller whose timeout comes to be shorter",
        limit: 20,
        before: "0 0 0 submit x = Queued(1)",
        sleepers: 1,
        asked: "await 1 0",
        steps: "0 due 500 = Ok(None)\n0 0 500 tune timeout 500 = Tuned\n0 due 500 = Ok(Some(1))",
        told: "RunFallback(Timeout)",
        account: "4 of 20 changed, 0 of 20, running",
    },
];

#[test]
fn each_step_wakes_those_that_it_lets_go_on(rt: HostRuntime) {
    for case in &CASES {
        assert_woken(&rt, case);
    }
}

/// Two groups that come once the service was made, so that those that wait in them wait in one place.
const C: GroupId = GroupId(2);

const D: GroupId = GroupId(3);

/// How many workers of the other group sleep beside the one that is to go on.
const OTHERS: usize = 15;

fn assert_registered<R: Wait + Abort + AllocGlobal>(rt: &R, shared: &Shared, number: GroupId) {
    let told = shared.register(rt, rt.alloc(), &props(rt), 20);
    assert!(rt; told == Ok(number), "{told:?}");
}

/// The passes of a worker of the third group, and behind it those of the fourth.
fn workers_of_both<R: Wait + Abort + AllocGlobal>(rt: &R, shared: &Shared) -> Vec<Pass> {
    let mut all = take_passes(rt, shared, &[(C, 20)]);
    for _ in 0..OTHERS {
        let mut other = take_passes(rt, shared, &[(D, 20)]);
        all.append(&mut other).expect(rt, "memory");
    }
    all
}

/// Waits for something to do, as a worker of either group.
fn work<R: Wait + rt::Clock + AllocGlobal>(
    rt: &R,
    shared: &Shared,
    mut pass: Pass,
    third: &Gate<'_, R>,
) -> Woken {
    let told = ask(rt, rt.alloc(), shared, &mut pass, "next 0");
    if pass.group() == C {
        third.come();
    }
    (told, pass)
}

/// Once all sleep, asks for a run of the third group, and retires the fourth when that run was taken. Where it is not, a
/// stop gets all out.
fn submit_and_retire<R: Wait + rt::Clock + Abort + AllocGlobal>(
    rt: &R,
    shared: &Shared,
    own: &mut Vec<Pass>,
    third: &Gate<'_, R>,
) {
    assert_asleep(rt, shared, C, OTHERS as u64 + 1);
    let caller = own.get_mut(0).expect(rt, "a pass");
    let told = shared.step(rt, caller, step(C.0, 0, &submit("x")));
    assert!(rt; told == Ok(Reply::Queued(1)), "{told:?}");
    if !third.wait(1) {
        shared.stop(rt);
    }
    let told = shared.retire(rt, D);
    assert!(rt; told == Ok(()), "{told:?}");
}

/// Asserts what a worker of either group was told.
fn assert_worker<R: Abort>(rt: &R, told: Result<String, AllocError>, pass: &Pass) {
    let want = if pass.group() == C {
        "Assigned(1 x)"
    } else {
        "NoGroup"
    };
    assert_text(rt, told, want, "a worker of two groups that came later");
}

/// Asserts that a worker of the third group is told of a request among those of the fourth.
fn assert_told<R: Threads + Wait + Sync + rt::Clock + Abort + AllocGlobal>(rt: &R) {
    let shared = service(rt, props(rt), props(rt), 20);
    assert_registered(rt, &shared, C);
    assert_registered(rt, &shared, D);
    let mut own = take_passes(rt, &shared, &[(C, 20)]);
    let workers = workers_of_both(rt, &shared);
    let third = Gate::new(rt, "the worker of the group that was asked");
    let (woken, ()) = thread::join(
        rt,
        || thread::map_vec(rt, workers, &|pass| work(rt, &shared, pass, &third)),
        || submit_and_retire(rt, &shared, &mut own, &third),
    );
    assert_passed(rt, &third);
    for (told, pass) in woken.expect(rt, "memory") {
        assert_worker(rt, told, &pass);
        own.push(pass).expect(rt, "memory");
    }
    assert!(rt; shared.finish(rt.alloc(), own).is_ok());
}

/// Were one of those that sleep told of the request, it would most likely be one of the other group, and the request
/// stay where it is.
#[test]
fn a_request_is_told_to_the_workers_of_all_groups_that_came_later(rt: HostRuntime) {
    assert_told(&rt);
}
