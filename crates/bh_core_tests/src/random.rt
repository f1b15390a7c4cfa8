//! Random steps of three groups of two commands each, changes of properties among them: each group is told what a core tells it
//! in which it stands alone.

ghost use Rattle.std.specs.Prelude.{◌<◌, ◌≤◌};
ghost use Rattle.bh_base.specs.Ranges.{IsCommandInRange, IsInRange};

use crate::samples::props_with_two;
use bh_base::{
    CommandProps, FallbackEnd, GroupProps, Moment, Op, Reply, Request, Serial, Strategy, Tuning,
};
use bh_core::Core;
use bh_scripts::samples::{command, step, text};
use rand_core::{Rng, SeedableRng};
use rand_xoshiro::Xoshiro256PlusPlus;
use std::process::Abort;

/// A command with limits so small that each of them is met every few steps.
fn tight() -> CommandProps
    ensures { IsCommandInRange result }
{
    CommandProps {
        timeout_ms: 4,
        semaphore: 2,
        fallback_permits: 1,
        volume: 3,
        sleep_ms: 6,
        percent: 40,
        window_ms: 20,
        buckets: 4,
        health_ms: 3,
        ..command()
    }
}

/// A command whose callers run their requests themselves, with other limits, as small.
fn tight_by_callers() -> CommandProps
    ensures { IsCommandInRange result }
{
    CommandProps {
        strategy: Strategy::Semaphore,
        timeout_ms: 9,
        fallback_permits: 2,
        volume: 4,
        window_ms: 30,
        buckets: 3,
        ..tight()
    }
}

/// The group with so many slots, and limits as small.
fn tightened(props: GroupProps, slots: u64) -> GroupProps
    requires props { IsInRange props }
    requires some { 1 ≤ slots }
    requires few { slots ≤ 4096 }
    ensures { IsInRange result }
{
    GroupProps {
        slots,
        core: 2,
        max_queue: Some(2),
        queue_threshold: 1,
        ..props
    }
}

/// A group of one slot, whose two commands are run by workers.
pub(crate) fn one_slot<R: Abort + AllocGlobal>(rt: &R) -> GroupProps
    ensures { IsInRange result }
{
    tightened(props_with_two(rt, tight(), tight()), 1)
}

/// A group of three slots, whose own command is run under permits, and a further one by workers.
pub(crate) fn three_slots<R: Abort + AllocGlobal>(rt: &R) -> GroupProps
    ensures { IsInRange result }
{
    tightened(props_with_two(rt, tight_by_callers(), tight()), 3)
}

/// A group of forty slots, whose own command is run by workers, and a further one under permits.
pub(crate) fn forty_slots<R: Abort + AllocGlobal>(rt: &R) -> GroupProps
    ensures { IsInRange result }
{
    tightened(props_with_two(rt, tight(), tight_by_callers()), 40)
}

/// A number below the limit.
pub(crate) fn below(rng: &mut Xoshiro256PlusPlus, limit: u64) -> u64
    requires some { 0 < limit }
    ensures { result < limit }
{
    rng.next_u64() % limit
}

/// A context: now and then one of forty, else one of two.
fn context(rng: &mut Xoshiro256PlusPlus) -> u64 {
    match below(rng, 8) {
        0 => below(rng, 40),
        _ => below(rng, 2),
    }
}

/// The number of a command: often the group's own, else that of a second, now and then one that each group lacks.
fn command_number(rng: &mut Xoshiro256PlusPlus) -> u8 {
    match below(rng, 16) {
        0 => 2,
        1..=5 => 1,
        _ => 0,
    }
}

/// A request, cached in a context under one key or, now and then, another, or not at all.
fn request(rng: &mut Xoshiro256PlusPlus) -> Request {
    let cache = match below(rng, 16) {
        0 => Some((context(rng), text("other key"))),
        1..=7 => Some((context(rng), text("key"))),
        _ => None,
    };
    Request {
        command: command_number(rng),
        cache,
        arg: text("arg"),
    }
}

/// How a fallback ends, each way about as often.
fn fallback_end(rng: &mut Xoshiro256PlusPlus) -> FallbackEnd {
    match below(rng, 3) {
        0 => FallbackEnd::Success(text("instead")),
        1 => FallbackEnd::Failure,
        _ => FallbackEnd::Missing,
    }
}

/// The ticket that has one holder more by the step.
fn held(told: &Reply) -> Option<Serial> {
    match told {
        Reply::Queued(serial)
        | Reply::Inline(serial)
        | Reply::FallbackDue { serial, .. }
        | Reply::Joined(serial) => Some(*serial),
        _ => None,
    }
}

/// An operation, on the ticket where it is about one.
fn operation(rng: &mut Xoshiro256PlusPlus, serial: u64) -> Op {
    match below(rng, 12) {
        0..=2 => Op::Submit(request(rng)),
        3..=4 => Op::Start,
        5 => Op::Finish {
            serial,
            body: text("body"),
        },
        6 => Op::Fail {
            serial,
            bad: below(rng, 2) == 0,
        },
        7 => Op::Expire,
        8..=9 => Op::Collect { serial },
        10 => Op::FallbackDone {
            serial,
            end: fallback_end(rng),
        },
        _ => rare_operation(rng),
    }
}

/// An operation of those that are asked for now and then.
fn rare_operation(rng: &mut Xoshiro256PlusPlus) -> Op {
    match below(rng, 8) {
        0..=3 => Op::Close {
            context: context(rng),
        },
        4..=5 => Op::Read {
            command: command_number(rng),
        },
        6 => Op::Totals {
            command: command_number(rng),
        },
        _ => Op::Tune {
            command: command_number(rng),
            tuning: tuning(rng),
        },
    }
}

/// A truth value that is more often this one.
fn mostly(rng: &mut Xoshiro256PlusPlus, usual: bool) -> bool {
    match below(rng, 4) {
        0 => !usual,
        _ => usual,
    }
}

/// A change to limits as small as those of the groups; now and then to one that is out of its range.
fn tuning(rng: &mut Xoshiro256PlusPlus) -> Tuning {
    match below(rng, 16) {
        0 => Tuning::TimeoutOn(mostly(rng, true)),
        1 => Tuning::FallbackOn(mostly(rng, true)),
        2 => Tuning::CircuitOn(mostly(rng, true)),
        3 => Tuning::ForceOpen(mostly(rng, false)),
        4 => Tuning::ForceClosed(mostly(rng, false)),
        5 => Tuning::CacheOn(mostly(rng, true)),
        6 => Tuning::CoreSize(below(rng, 4)),
        7 => Tuning::Timeout(below(rng, 12)),
        8 => Tuning::Semaphore(below(rng, 4)),
        9 => Tuning::FallbackPermits(below(rng, 3)),
        10 => Tuning::Volume(below(rng, 5)),
        11 => Tuning::SleepWindow(below(rng, 8)),
        12 => Tuning::ErrorPercent(below(rng, 101)),
        13 => Tuning::HealthInterval(below(rng, 5)),
        14 => Tuning::QueueThreshold(below(rng, 3)),
        _ => Tuning::Volume(1 << 32),
    }
}

/// A group that stands alone, the serial of its ticket for each holder that has no answer yet, and its last serial.
#[derive(Drop)]
pub(crate) struct Alone {
    pub(crate) core: Core,
    pub(crate) holders: Vec<Serial>,
    pub(crate) last: Serial,
}

/// A holder, by its place, and its ticket; now and then one that there is not.
fn holder(rng: &mut Xoshiro256PlusPlus, holders: &[Serial]) -> (usize, Serial) {
    let place = below(rng, 64) as usize;
    let count = holders.len().max(1);
    match holders.get(place % count) {
        Some(serial) if place != 63 => (place % count, *serial),
        _ => (usize::MAX, place as u64),
    }
}

/// A step of the group in the core of all groups, and of the same group where it stands alone. What both were told.
pub(crate) fn apply_both<R: Abort>(
    rt: &R,
    all: &mut Core,
    alone: &mut Core,
    group: u64,
    now: u64,
    op: &Op,
) -> Reply {
    let told = all.apply(step(group, now, op));
    let told_alone = alone.apply(step(0, now, op));
    assert!(rt; told == told_alone, "{op:?} at {now}");
    told
}

/// A random step of the group in the core of all groups, and of the same group where it stands alone. What both were
/// told.
pub(crate) fn step_both<R: Abort>(
    rt: &R,
    rng: &mut Xoshiro256PlusPlus,
    all: &mut Core,
    alone: &mut Alone,
    group: u64,
    now: u64,
) -> Reply {
    let (place, serial) = holder(rng, &alone.holders);
    let op = operation(rng, serial);
    let told = apply_both(rt, all, &mut alone.core, group, now, &op);
    if let Some(serial) = held(&told) {
        alone.holders.push(serial).expect(rt, "memory");
        alone.last = alone.last.max(serial);
    }
    if matches!(told, Reply::Answered(_)) && place < alone.holders.len() {
        alone.holders.swap_remove(place);
    }
    told
}

/// The group in a core of its own.
pub(crate) fn stand_alone<R: Abort + AllocGlobal>(rt: &R, props: &GroupProps) -> Alone
    requires props { IsInRange props.now }
{
    let mut core = Core::new(rt.alloc(), 100);
    core.register(props, 1 << 40).expect(rt, "memory");
    Alone {
        core,
        holders: Vec::new(rt.alloc()),
        last: 0,
    }
}

/// Adds the group to the core of all groups. The same group in a core of its own.
fn add<R: Abort + AllocGlobal>(rt: &R, all: &mut Core, props: &GroupProps) -> Alone
    requires props { IsInRange props.now }
{
    all.register(props, 1 << 40).expect(rt, "memory");
    stand_alone(rt, props)
}

/// Adds the three groups to the core. Each of them in a core of its own.
fn three_alone<R: Abort + AllocGlobal>(rt: &R, all: &mut Core) -> Vec<Alone> {
    let first = add(rt, all, &one_slot(rt));
    let second = add(rt, all, &three_slots(rt));
    let third = add(rt, all, &forty_slots(rt));
    vec![in rt.alloc(); first, second, third].expect(rt, "memory")
}

/// The moment of a step: soon after the step before, or one of 0, far ahead and the last that there is.
pub(crate) fn moment(rng: &mut Xoshiro256PlusPlus, i: u64, steps: u64) -> Moment {
    if i >= steps / 100 * 99 {
        return u64::MAX;
    }
    match below(rng, 500) {
        0 => 0,
        1 => i.saturating_add(100),
        _ => i.saturating_add(below(rng, 6)),
    }
}

/// How many steps were told an answer, how many that the group lacks the command, that a property has another value, and that
/// a value is out of its range.
#[derive(Clone, Copy, Debug)]
struct Told {
    answers: u64,
    unknown: u64,
    tuned: u64,
    out_of_range: u64,
}

impl Told {
    /// One step more, which was told this.
    fn count(&mut self, told: &Reply) {
        match told {
            Reply::Answered(_) => self.answers = self.answers.saturating_add(1),
            Reply::NoCommand => self.unknown = self.unknown.saturating_add(1),
            Reply::Tuned => self.tuned = self.tuned.saturating_add(1),
            Reply::OutOfRange => self.out_of_range = self.out_of_range.saturating_add(1),
            _ => {}
        }
    }
}

/// What so many random steps were told.
fn make_steps<R: Abort>(rt: &R, all: &mut Core, three: &mut Vec<Alone>, steps: u64) -> Told {
    let mut rng = Xoshiro256PlusPlus::seed_from_u64(7);
    let mut told = Told {
        answers: 0,
        unknown: 0,
        tuned: 0,
        out_of_range: 0,
    };
    for i in 0..steps {
        let group = below(&mut rng, 3);
        let now = moment(&mut rng, i, steps);
        let alone = three.get_mut(group as usize).expect(rt, "a group");
        told.count(&step_both(rt, &mut rng, all, alone, group, now));
    }
    told
}

#[test]
fn three_groups_are_told_what_each_is_told_alone(rt: HostRuntime) {
    let mut all = Core::new(rt.alloc(), 100);
    let mut three = three_alone(&rt, &mut all);
    let told = make_steps(&rt, &mut all, &mut three, 150_000);
    assert!(rt; told.answers > 5000 && told.unknown > 1000, "{told:?}");
    assert!(rt; told.tuned > 1000 && told.out_of_range > 100, "{told:?}");
}
