//! Random lives of groups in one core: each group is told what a core tells it in which it stands alone.

ghost use Rattle.bh_base.specs.Ranges.{IsInRange};

use crate::random::{
    Alone, apply_both, below, forty_slots, moment, one_slot, stand_alone, step_both, three_slots,
};
use bh_base::{FallbackEnd, GroupId, GroupProps, Moment, Op, Reply, Serial};
use bh_core::{Core, RegisterError, RetireError};
use bh_scripts::samples::{step, text};
use rand_core::SeedableRng;
use rand_xoshiro::Xoshiro256PlusPlus;
use std::mem;
use std::process::Abort;

/// So many slots have all groups together: one of forty, and a few small ones.
const SLOTS: u32 = 46;

/// So many groups live at once at most.
const MOST_LIVES: usize = 4;

/// A group by its number in the core of all groups, and the same group where it stands alone.
#[derive(Drop)]
struct Life {
    number: u64,
    alone: Alone,
}

/// A core whose groups come and go, and how often a registration or a retirement was done or refused.
#[derive(Drop)]
struct Lives {
    all: Core,
    living: Vec<Life>,
    registered: u64,
    too_many_slots: u64,
    retired: u64,
    busy: u64,
}

/// One of three groups.
fn kind<R: Abort + AllocGlobal>(rt: &R, rng: &mut Xoshiro256PlusPlus) -> GroupProps
    ensures { IsInRange result }
{
    match below(rng, 3) {
        0 => one_slot(rt),
        1 => three_slots(rt),
        _ => forty_slots(rt),
    }
}

/// Registers the group, or is refused for want of slots.
fn register<R: Abort + AllocGlobal>(rt: &R, lives: &mut Lives, props: &GroupProps)
    requires props { IsInRange props.now }
{
    match lives.all.register(props, 1 << 40) {
        Ok(id) => {
            assert!(rt; id == GroupId(lives.registered), "{id:?}");
            lives.registered = lives.registered.saturating_add(1);
            let alone = stand_alone(rt, props);
            let life = Life {
                number: id.0,
                alone,
            };
            lives.living.push(life).expect(rt, "memory");
        }
        Err(error) => {
            assert!(rt; error == RegisterError::TooManySlots, "{error:?}");
            lives.too_many_slots = lives.too_many_slots.saturating_add(1);
        }
    }
}

/// Asserts that slots are refused exactly where those of the living groups leave too few.
fn register_one<R: Abort + AllocGlobal>(rt: &R, lives: &mut Lives, props: &GroupProps)
    requires props { IsInRange props.now }
{
    let refused = lives.too_many_slots;
    let used = slots_in(&lives.living);
    register(rt, lives, props);
    let fits = used.saturating_add(props.slots) <= u64::from(SLOTS);
    assert!(rt; fits == (lives.too_many_slots == refused), "{used}");
}

/// The slots of the living groups.
fn slots_in(living: &[Life]) -> u64 {
    let mut sum = 0u64;
    for life in living {
        if let Some((props, _limit)) = life.alone.core.props(GroupId(0)) {
            sum = sum.saturating_add(props.slots);
        }
    }
    sum
}

/// Starts what waits, and ends the run and the fallback of the serial, if there are such.
fn end<R: Abort>(rt: &R, all: &mut Core, life: &mut Life, now: Moment, serial: Serial) {
    let ends = [
        Op::Start,
        Op::Finish {
            serial,
            body: text("body"),
        },
        Op::FallbackDone {
            serial,
            end: FallbackEnd::Missing,
        },
    ];
    for op in &ends {
        apply_both(rt, all, &mut life.alone.core, life.number, now, op);
    }
}

/// Collects what each holder of a ticket is owed; who is told to wait, or to run a fallback, is a holder still.
fn collect<R: Abort + AllocGlobal>(rt: &R, all: &mut Core, life: &mut Life, now: Moment) {
    let holders = mem::replace(&mut life.alone.holders, Vec::new(rt.alloc()));
    for serial in holders {
        let op = Op::Collect { serial };
        let told = apply_both(rt, all, &mut life.alone.core, life.number, now, &op);
        if matches!(told, Reply::Pending | Reply::RunFallback(_)) {
            life.alone.holders.push(serial).expect(rt, "memory");
        }
    }
}

/// Ends each run and each fallback of the group that has begun, and collects each answer.
fn end_all<R: Abort + AllocGlobal>(rt: &R, all: &mut Core, life: &mut Life, now: Moment) {
    for serial in 0..life.alone.last.saturating_add(1) {
        end(rt, all, life, now, serial);
    }
    collect(rt, all, life, now);
}

/// The same until nothing goes on: what waits is started, and a fallback is due once its run has ended.
fn settle<R: Abort + AllocGlobal>(rt: &R, all: &mut Core, life: &mut Life, now: Moment) {
    for _ in 0..4 {
        end_all(rt, all, life, now);
    }
}

/// Retires the group of the place in both cores, or is refused in both as it is in use. Whether it is gone.
fn retire_both<R: Abort>(rt: &R, all: &mut Core, life: &mut Life) -> bool {
    let told = all.retire(GroupId(life.number));
    let told_alone = life.alone.core.retire(GroupId(0));
    assert!(rt; told == told_alone, "{told:?}");
    assert!(rt; told != Err(RetireError::NoGroup));
    told.is_ok()
}

/// Asserts that the group of the number is no more.
fn assert_gone<R: Abort>(rt: &R, all: &mut Core, number: u64, now: Moment) {
    let told = all.apply(step(number, now, &Op::Start));
    assert!(rt; told == Reply::NoGroup, "{told:?}");
    assert!(rt; all.retire(GroupId(number)) == Err(RetireError::NoGroup));
}

/// Retires one of the living groups, now and then without ending its runs before.
fn retire_one<R: Abort + AllocGlobal>(
    rt: &R,
    rng: &mut Xoshiro256PlusPlus,
    lives: &mut Lives,
    now: Moment,
) {
    let place = below(rng, 4) as usize;
    let Some(life) = lives.living.get_mut(place) else {
        return;
    };
    if below(rng, 4) != 0 {
        settle(rt, &mut lives.all, life, now);
    }
    if !retire_both(rt, &mut lives.all, life) {
        lives.busy = lives.busy.saturating_add(1);
        return;
    }
    let number = life.number;
    lives.living.swap_remove(place);
    lives.retired = lives.retired.saturating_add(1);
    assert_gone(rt, &mut lives.all, number, now);
}

/// So many random steps of the living groups.
fn make_steps<R: Abort>(rt: &R, rng: &mut Xoshiro256PlusPlus, lives: &mut Lives, turn: u64) {
    for i in 0..100 {
        let place = below(rng, 4) as usize;
        let now = moment(rng, turn.saturating_mul(100).saturating_add(i), 1 << 40);
        if let Some(life) = lives.living.get_mut(place) {
            step_both(rt, rng, &mut lives.all, &mut life.alone, life.number, now);
        }
    }
}

/// A hundred steps, after which a group may go and another may come.
fn turn<R: Abort + AllocGlobal>(
    rt: &R,
    rng: &mut Xoshiro256PlusPlus,
    lives: &mut Lives,
    number: u64,
) {
    make_steps(rt, rng, lives, number);
    retire_one(rt, rng, lives, number.saturating_mul(100));
    if lives.living.len() < MOST_LIVES {
        let props = kind(rt, rng);
        register_one(rt, lives, &props);
    }
}

#[test]
fn each_life_is_told_what_it_is_told_alone(rt: HostRuntime) {
    let mut rng = Xoshiro256PlusPlus::seed_from_u64(11);
    let mut lives = Lives {
        all: Core::new(rt.alloc(), SLOTS),
        living: Vec::new(rt.alloc()),
        registered: 0,
        too_many_slots: 0,
        retired: 0,
        busy: 0,
    };
    for number in 0..600 {
        turn(&rt, &mut rng, &mut lives, number);
    }
    let counts = (
        lives.registered,
        lives.too_many_slots,
        lives.retired,
        lives.busy,
    );
    let enough = counts.0 > 60 && counts.1 > 50 && counts.2 > 60 && counts.3 > 50;
    assert!(rt; enough, "{counts:?}");
}
