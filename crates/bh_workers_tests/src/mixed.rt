//! Runs whose dependency fails, is slow or refuses by chance: each call has an answer, the account agrees with all passes,
//! and each journal is what a core tells that has the group alone.

ghost use Rattle.bh_base.specs.Ranges.{IsCommandInRange, IsInRange};

use crate::driving::{assert_number, drive_lists, report_of, service, success};
use crate::samples::props_with_two;
use bh_audit::Clock;
use bh_base::{
    CallError, Cause, CommandProps, FallbackEnd, GroupId, GroupProps, Moment, Reply, Request,
    RunEnd, Step, Strategy, Text,
};
use bh_core::Core;
use bh_scripts::samples::{command, text};
use bh_services::services::{A, B};
use bh_workers::{Dependency, Driven, RequestList};
use rand_core::{Rng, SeedableRng};
use rand_xoshiro::Xoshiro256PlusPlus;
use std::alloc::Global;
use std::process::Abort;
use std::sync::Wait;
use std::sync::atomic::{AtomicU64, Ordering};
use std::thread;
use std::thread::Threads;

/// The seeds of the runs.
const SEEDS: u64 = 20;

/// Ends each run by chance: a success, perhaps after a while, a failure or a bad request; and so each fallback.
#[derive(Drop)]
struct Chance {
    next: AtomicU64,
}

impl Chance {
    /// One of so many, by the seed that is next.
    fn draw(&self, of: u64) -> u64 {
        let seed = self.next.fetch_add(1, Ordering::SeqCst);
        let drawn = Xoshiro256PlusPlus::seed_from_u64(seed).next_u64();
        drawn.checked_rem(of).unwrap_or(0)
    }
}

/// Success with the argument, after a while.
fn slow_success(arg: &Text<64>) -> RunEnd {
    for _ in 0..50_u32 {
        thread::yield_now();
    }
    success(arg)
}

impl Dependency for Chance {
    ghost ends = { λ group command arg end. Unit {0} };

    ghost fallback_ends = { λ group command cause arg end. Unit {0} };

    fn run(&self, _group: GroupId, _command: u8, arg: &Text<64>) -> RunEnd {
        match self.draw(6) {
            0 => RunEnd::Failure,
            1 => RunEnd::BadRequest,
            2 => slow_success(arg),
            _ => success(arg),
        }
    }

    fn fallback(
        &self,
        _group: GroupId,
        _command: u8,
        _cause: Cause,
        _arg: &Text<64>,
    ) -> FallbackEnd {
        match self.draw(3) {
            0 => FallbackEnd::Success(text("instead")),
            1 => FallbackEnd::Failure,
            _ => FallbackEnd::Missing,
        }
    }
}

/// A moment that rises by a millisecond at each reading.
#[derive(Drop)]
struct Rises {
    next: AtomicU64,
}

impl Clock for Rises {
    ghost moments = { λ moment. Unit {0} };

    fn now(&self) -> Moment {
        self.next.fetch_add(1, Ordering::SeqCst)
    }
}

/// A command with limits so small that each is met now and then.
fn tight() -> CommandProps
    ensures { IsCommandInRange result }
{
    CommandProps {
        timeout_ms: 30,
        fallback_permits: 1,
        volume: 5,
        sleep_ms: 20,
        window_ms: 100,
        buckets: 4,
        health_ms: 3,
        ..command()
    }
}

/// The same, whose callers run their requests themselves.
fn tight_by_callers() -> CommandProps
    ensures { IsCommandInRange result }
{
    CommandProps {
        strategy: Strategy::Semaphore,
        semaphore: 2,
        ..tight()
    }
}

/// A group of the two commands, with limits as small. Its slots are enough for a ticket of each context, caller and worker,
/// so that it is never full.
fn small_with<R: Abort + AllocGlobal>(
    rt: &R,
    own: CommandProps,
    further: CommandProps,
) -> GroupProps
    requires own { IsCommandInRange own }
    requires further { IsCommandInRange further }
    ensures { IsInRange result }
{
    GroupProps {
        slots: 20,
        core: 2,
        max_queue: Some(1),
        queue_threshold: 1,
        ..props_with_two(rt, own, further)
    }
}

/// A group whose workers run its own command.
fn small<R: Abort + AllocGlobal>(rt: &R) -> GroupProps
    ensures { IsInRange result }
{
    small_with(rt, tight(), tight_by_callers())
}

/// A group whose callers run its own command.
fn small_by_callers<R: Abort + AllocGlobal>(rt: &R) -> GroupProps
    ensures { IsInRange result }
{
    small_with(rt, tight_by_callers(), tight())
}

/// Requests of both commands by turns, of which every third may join another.
fn requests_of(alloc: Global, number: u64) -> Option<Vec<Request>> {
    let mut requests = Vec::new(alloc);
    for place in 0..number {
        let cache = if place % 3 == 0 {
            Some((place, text("key")))
        } else {
            None
        };
        let request = Request {
            command: u8::from(place % 2 == 1),
            cache,
            arg: text("x"),
        };
        requests.push(request).ok()?;
    }
    Some(requests)
}

/// Four lists of so many requests to each group.
fn lists_of(alloc: Global, number: u64) -> Option<Vec<RequestList>> {
    let mut lists = Vec::new(alloc);
    for place in 0..8_u64 {
        let group = if place % 2 == 0 { A } else { B };
        let requests = requests_of(alloc, number)?;
        lists.push(RequestList { group, requests }).ok()?;
    }
    Some(lists)
}

/// Asserts that each call has an answer.
fn assert_answers<R: Abort>(rt: &R, driven: &Driven, seed: u64) {
    for own in driven.answers.iter() {
        assert_number(rt, own.len() as u64, 40);
        for answer in own.iter() {
            assert!(rt; answer.is_ok(), "seed {seed}: {answer:?}");
        }
    }
}

/// How often something came that the limits and the chance are there for.
#[derive(Debug, Drop)]
struct Seen {
    joined: u64,
    timeouts: u64,
    short_circuits: u64,
    rejections: u64,
}

impl Seen {
    /// One reply more.
    fn note(&mut self, reply: &Reply) {
        match reply {
            Reply::Joined(_) => self.joined = self.joined.saturating_add(1),
            Reply::Expired(number) => self.timeouts = self.timeouts.saturating_add(*number),
            Reply::FallbackDue { cause, .. } => self.note_refusal(*cause),
            _ => {}
        }
    }

    /// A request that is not run, for this cause.
    fn note_refusal(&mut self, cause: Cause) {
        if cause == Cause::ShortCircuited {
            self.short_circuits = self.short_circuits.saturating_add(1);
        } else {
            self.rejections = self.rejections.saturating_add(1);
        }
    }
}

/// Asserts that a core that has the group alone tells the same, and notes what was told.
fn assert_replays<R: Abort + AllocGlobal>(
    rt: &R,
    group: &GroupProps,
    journal: &[(Step, Reply)],
    seed: u64,
    seen: &mut Seen,
)
    requires { IsInRange group.now }
{
    let mut alone = Core::new(rt.alloc(), 100);
    alone.register(group, 10_000).expect(rt, "memory");
    for (place, (step, reply)) in journal.iter().enumerate() {
        let told = alone.apply(Step {
            group: GroupId(0),
            ..*step
        });
        assert!(rt; told == *reply, "seed {seed}, place {place}: {step:?}");
        seen.note(reply);
    }
}

/// One run by the seed.
fn assert_run<R: Threads + Wait + Sync + Abort + AllocGlobal>(rt: &R, seed: u64, seen: &mut Seen) {
    let shared = service(rt, small(rt), small_by_callers(rt), 10_000);
    let chance = Chance {
        next: AtomicU64::new(seed.saturating_mul(1 << 32)),
    };
    let rises = Rises {
        next: AtomicU64::new(0),
    };
    let lists = lists_of(rt.alloc(), 40).expect(rt, "memory");
    let driven = drive_lists(rt, &shared, &chance, &rises, lists.as_slice(), 1000);
    assert_answers(rt, &driven, seed);
    let report = report_of(rt, shared, driven.passes);
    assert_replays(rt, &small(rt), report.journal(A), seed, seen);
    assert_replays(rt, &small_by_callers(rt), report.journal(B), seed, seen);
}

#[test]
fn mixed_runs_are_replayed_by_a_core_alone(rt: HostRuntime) {
    let mut seen = Seen {
        joined: 0,
        timeouts: 0,
        short_circuits: 0,
        rejections: 0,
    };
    for seed in 0..SEEDS {
        assert_run(&rt, seed, &mut seen);
    }
    // Of each context all callers but the first join its ticket, in both groups.
    assert_number(&rt, seen.joined, SEEDS * 2 * 14 * 3);
    let all_seen = seen.timeouts > 0 && seen.short_circuits > 0 && seen.rejections > 0;
    assert!(rt; all_seen, "{seen:?}");
}
