//! Threads that wait for one another: groups beside each other, workers of one group, and the timer.

use crate::driving::{
    Still, assert_agreed, assert_drive, assert_passed, assert_text, report_of, service,
    success_after,
};
use crate::gates::Gate;
use crate::samples::props;
use bh_audit::{AuditReport, Clock};
use bh_base::{Cause, FallbackEnd, GroupId, GroupProps, Moment, Reply, RunEnd, Text};
use bh_services::services::A;
use bh_workers::Dependency;
use std::alloc::{AllocError, Global};
use std::process::Abort;
use std::rt;
use std::sync::atomic::{AtomicU64, Ordering};

/// Holds the run of the first group until the second request of the other runs, whose first is answered by then. Each
/// run of the other waits until that of the first has begun.
#[derive(Drop)]
struct HoldsFirst<'a, R> {
    begun: Gate<'a, R>,
    answered: Gate<'a, R>,
}

impl<'a, R: rt::Clock> Dependency for HoldsFirst<'a, R> {
    ghost ends = { λ group command arg end. Unit {0} };

    ghost fallback_ends = { λ group command cause arg end. Unit {0} };

    fn run(&self, group: GroupId, _command: u8, arg: &Text<64>) -> RunEnd {
        if group == A {
            self.begun.come();
            return success_after(&self.answered, 1, arg);
        }
        if arg.as_str() == "second" {
            self.answered.come();
        }
        success_after(&self.begun, 1, arg)
    }

    fn fallback(
        &self,
        _group: GroupId,
        _command: u8,
        _cause: Cause,
        _arg: &Text<64>,
    ) -> FallbackEnd {
        FallbackEnd::Missing
    }
}

#[test]
fn slow_a_does_not_hold_b(rt: HostRuntime) {
    let shared = service(&rt, props(&rt), props(&rt), 100);
    let held = HoldsFirst {
        begun: Gate::new(&rt, "the run of the first group"),
        answered: Gate::new(&rt, "an answer of the second group"),
    };
    let asked = "0 slow\n1 first second";
    let passes = assert_drive(
        &rt,
        &shared,
        &held,
        &Still,
        100,
        asked,
        "slow\nfirst second\n",
    );
    assert_passed(&rt, &held.begun);
    assert_passed(&rt, &held.answered);
    assert_agreed(&rt, shared, passes);
}

/// Holds each run until two have begun.
#[derive(Drop)]
struct Meets<'a, R> {
    begun: Gate<'a, R>,
}

impl<'a, R: rt::Clock> Dependency for Meets<'a, R> {
    ghost ends = { λ group command arg end. Unit {0} };

    ghost fallback_ends = { λ group command cause arg end. Unit {0} };

    fn run(&self, _group: GroupId, _command: u8, arg: &Text<64>) -> RunEnd {
        self.begun.come();
        success_after(&self.begun, 2, arg)
    }

    fn fallback(
        &self,
        _group: GroupId,
        _command: u8,
        _cause: Cause,
        _arg: &Text<64>,
    ) -> FallbackEnd {
        FallbackEnd::Missing
    }
}

#[test]
fn two_workers_meet(rt: HostRuntime) {
    let two = GroupProps {
        core: 2,
        ..props(&rt)
    };
    let shared = service(&rt, two, props(&rt), 100);
    let meets = Meets {
        begun: Gate::new(&rt, "two runs of one group"),
    };
    let asked = "0 one\n0 other";
    let passes = assert_drive(&rt, &shared, &meets, &Still, 100, asked, "one\nother\n");
    assert_passed(&rt, &meets.begun);
    assert_agreed(&rt, shared, passes);
}

/// 0 until a run has begun, and from then on a second later at each reading.
#[derive(Drop)]
struct RisesOnceBegun<'a, R> {
    begun: &'a Gate<'a, R>,
    next: AtomicU64,
}

impl<'a, R: rt::Clock> Clock for RisesOnceBegun<'a, R> {
    ghost moments = { λ moment. Unit {0} };

    fn now(&self) -> Moment {
        if self.begun.count() == 0 {
            return 0;
        }
        self.next.fetch_add(1000, Ordering::SeqCst)
    }
}

/// Holds each run until a fallback was called.
#[derive(Drop)]
struct HoldsRuns<'a, R> {
    begun: &'a Gate<'a, R>,
    fallen_back: Gate<'a, R>,
}

impl<'a, R: rt::Clock> Dependency for HoldsRuns<'a, R> {
    ghost ends = { λ group command arg end. Unit {0} };

    ghost fallback_ends = { λ group command cause arg end. Unit {0} };

    fn run(&self, _group: GroupId, _command: u8, arg: &Text<64>) -> RunEnd {
        self.begun.come();
        success_after(&self.fallen_back, 1, arg)
    }

    fn fallback(
        &self,
        _group: GroupId,
        _command: u8,
        _cause: Cause,
        _arg: &Text<64>,
    ) -> FallbackEnd {
        self.fallen_back.come();
        instead()
    }
}

/// The end of a fallback that gives a body.
fn instead() -> FallbackEnd {
    match Text::new("instead") {
        Ok(body) => FallbackEnd::Success(body),
        Err(_) => FallbackEnd::Missing,
    }
}

/// The first three replies of the second group.
fn first_replies(alloc: Global, report: &AuditReport) -> Result<String, AllocError> {
    let mut text = String::new(alloc);
    for (_, reply) in report.journal(GroupId(1)).iter().take(3) {
        text.push_str(match reply {
            Reply::Queued(_) => "queued ",
            Reply::Assigned { .. } => "assigned ",
            Reply::Expired(1) => "expired ",
            _ => "other ",
        })?;
    }
    Ok(text)
}

#[test]
fn timer_frees_caller(rt: HostRuntime) {
    let shared = service(&rt, props(&rt), props(&rt), 100);
    let begun = Gate::new(&rt, "the run");
    let held = HoldsRuns {
        begun: &begun,
        fallen_back: Gate::new(&rt, "the fallback"),
    };
    let rises = RisesOnceBegun {
        begun: &begun,
        next: AtomicU64::new(1000),
    };
    let passes = assert_drive(&rt, &shared, &held, &rises, 100, "1 x", "Timeout:instead\n");
    assert_passed(&rt, &held.fallen_back);
    let report = report_of(&rt, shared, passes);
    let replies = first_replies(rt.alloc(), &report);
    assert_text(
        &rt,
        replies,
        "queued assigned expired ",
        "a run that was timed out",
    );
}
