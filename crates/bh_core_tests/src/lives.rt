//! Groups that come and go: a number is given once, slots go to others, and nobody loses an answer by it.

ghost use Rattle.std.specs.Prelude.{◌≤◌};
ghost use Rattle.bh_base.specs.Ranges.{IsCommandInRange, IsInRange};

use crate::samples::{props, props_with};
use crate::script::{assert_number, play};
use bh_base::{CircuitState, CommandProps, GroupId, GroupProps, Metrics, Op, Reply};
use bh_core::{Act, Core, Outcome, RegisterError, RetireError};
use bh_scripts::samples::{NO_EVENTS, are_built_in, command, step, submit};
use std::process::Abort;

/// The settings with so many slots.
fn slots_of(props: GroupProps, slots: u64) -> GroupProps
    requires props { IsInRange props }
    requires some { 1 ≤ slots }
    requires few { slots ≤ 4096 }
    ensures { IsInRange result }
{
    GroupProps { slots, ..props }
}

/// Asserts what the registration of a group with so many slots is answered.
pub(crate) fn assert_registered<R: Abort + AllocGlobal>(
    rt: &R,
    core: &mut Core,
    slots: u64,
    want: Result<GroupId, RegisterError>,
)
    requires some { 1 ≤ slots }
    requires few { slots ≤ 4096 }
{
    let told = core.register(&slots_of(props(rt), slots), 1024);
    assert!(rt; told == want, "{told:?}");
}

/// Asserts what the retirement of the group is answered.
pub(crate) fn assert_retired<R: Abort>(
    rt: &R,
    core: &mut Core,
    group: u64,
    want: Result<(), RetireError>,
) {
    let told = core.retire(GroupId(group));
    assert!(rt; told == want, "{told:?}");
}

const SECOND_OF_TWO: &str = "groups = 2
0 0 submit x = NoGroup
0 0 start = NoGroup
0 0 read = NoGroup
0 0 read-of 9 = NoGroup
1 0 submit x = Queued(1)
steps 0 = 0
steps 1 = 1
startable 0 = 0
startable 1 = 1
";

#[test]
fn slots_of_a_retired_group_are_there_for_others(rt: HostRuntime) {
    let mut core = Core::new(rt.alloc(), 10);
    assert_registered(&rt, &mut core, 10, Ok(GroupId(0)));
    assert_registered(&rt, &mut core, 1, Err(RegisterError::TooManySlots));
    assert_retired(&rt, &mut core, 0, Ok(()));
    assert_registered(&rt, &mut core, 10, Ok(GroupId(1)));
    assert_retired(&rt, &mut core, 0, Err(RetireError::NoGroup));
    assert_retired(&rt, &mut core, 2, Err(RetireError::NoGroup));
    play(&rt, &mut core, SECOND_OF_TWO);
}

const THREE_SLOTS: &str = "2 0 submit x = Queued(1)
2 0 submit x = Queued(2)
2 0 submit x = Queued(3)
2 0 submit x = GroupFull
3 0 submit x = Queued(1)
3 0 submit x = GroupFull
";

#[test]
fn slots_of_two_groups_go_to_two_others(rt: HostRuntime) {
    let mut core = Core::new(rt.alloc(), 4);
    assert_registered(&rt, &mut core, 2, Ok(GroupId(0)));
    assert_registered(&rt, &mut core, 2, Ok(GroupId(1)));
    assert_retired(&rt, &mut core, 1, Ok(()));
    assert_retired(&rt, &mut core, 0, Ok(()));
    assert_registered(&rt, &mut core, 3, Ok(GroupId(2)));
    assert_registered(&rt, &mut core, 2, Err(RegisterError::TooManySlots));
    assert_registered(&rt, &mut core, 1, Ok(GroupId(3)));
    play(&rt, &mut core, THREE_SLOTS);
}

/// One slot of three is ever used.
const ONE_USED: &str = "0 0 submit x = Queued(1)
0 0 start = Assigned(1 x)
0 0 finish 1 one = Done
0 0 collect 1 = Value(one)
";

const FOUR_SLOTS: &str = "1 0 submit x = Queued(1)
1 0 submit x = Queued(2)
1 0 submit x = Queued(3)
1 0 submit x = Queued(4)
1 0 submit x = GroupFull
2 0 submit x = Queued(1)
2 0 submit x = GroupFull
";

#[test]
fn slots_that_a_retired_group_never_used_are_there_for_others(rt: HostRuntime) {
    let mut core = Core::new(rt.alloc(), 5);
    assert_registered(&rt, &mut core, 3, Ok(GroupId(0)));
    assert_registered(&rt, &mut core, 3, Err(RegisterError::TooManySlots));
    play(&rt, &mut core, ONE_USED);
    assert_retired(&rt, &mut core, 0, Ok(()));
    assert_registered(&rt, &mut core, 6, Err(RegisterError::TooManySlots));
    assert_registered(&rt, &mut core, 4, Ok(GroupId(1)));
    assert_registered(&rt, &mut core, 2, Err(RegisterError::TooManySlots));
    assert_registered(&rt, &mut core, 1, Ok(GroupId(2)));
    play(&rt, &mut core, FOUR_SLOTS);
}

/// Asserts that a group of one slot gets the number, and is retired.
fn assert_comes_and_goes<R: Abort + AllocGlobal>(rt: &R, core: &mut Core, number: u64) {
    assert_registered(rt, core, 1, Ok(GroupId(number)));
    assert_retired(rt, core, number, Ok(()));
}

/// More groups than a table of numbers with sixteen bits could have.
const MANY: u64 = 70_000;

#[test]
fn a_number_is_given_once_however_many_groups_come(rt: HostRuntime) {
    let mut core = Core::new(rt.alloc(), 1);
    for number in 0..MANY {
        assert_comes_and_goes(&rt, &mut core, number);
    }
    assert_registered(&rt, &mut core, 2, Err(RegisterError::TooManySlots));
    assert_registered(&rt, &mut core, 1, Ok(GroupId(MANY)));
    assert_number(&rt, core.groups(), 70_001);
    play(
        &rt,
        &mut core,
        "0 0 start = NoGroup\n69999 0 start = NoGroup\n70000 0 start = Idle",
    );
}

/// A command without fallbacks, whose circuit is opened by a single failure.
fn frail() -> CommandProps
    ensures { IsCommandInRange result }
{
    CommandProps {
        volume: 1,
        health_ms: 0,
        fallback_on: false,
        ..command()
    }
}

/// A core with room for one group, which is there: it has two slots, and its one command is frail.
fn core_of_frail<R: Abort + AllocGlobal>(rt: &R) -> Core {
    let mut core = Core::new(rt.alloc(), 2);
    register_frail(rt, &mut core, 0);
    core
}

/// Registers a group of two slots whose one command is frail, and asserts its number.
fn register_frail<R: Abort + AllocGlobal>(rt: &R, core: &mut Core, number: u64) {
    let own = slots_of(props_with(rt, frail()), 2);
    let told = core.register(&own, 100);
    assert!(rt; told == Ok(GroupId(number)), "{told:?}");
}

const A_FAILURE: &str = "0 5 cached-of 0 1/k x = Queued(1)
0 5 start = Assigned(1 x)
0 6 fail 1 = Done
0 6 collect 1 = Answered(Error { cause: Failure, fallback: Disabled })
0 7 submit y = FallbackDue { serial: 2, cause: ShortCircuited }
0 7 collect 2 = Answered(Error { cause: ShortCircuited, fallback: Disabled })
0 8 cached-of 0 1/k z = Joined(1)
0 8 collect 1 = Answered(Error { cause: Failure, fallback: Disabled })
";

/// What the group's own command shows of itself at the moment.
fn metrics(core: &mut Core, group: u64, now: u64) -> Reply {
    core.apply(step(group, now, &Op::Read { command: 0 }))
}

/// Asserts that the circuit of the first group is open, and that one slot of two is free.
fn assert_open<R: Abort>(rt: &R, core: &mut Core) {
    let seen = metrics(core, 0, 8);
    let is_open = matches!(
        seen,
        Reply::Metrics(Metrics {
            circuit: CircuitState::Open(_),
            free: 1,
            ..
        })
    );
    assert!(rt; is_open, "{seen:?}");
}

/// What a group of two slots shows that nobody has asked for anything.
const NOTHING_SEEN: Metrics = Metrics {
    circuit: CircuitState::Closed,
    counts: NO_EVENTS,
    errors: 0,
    total: 0,
    percent: 0,
    busy: 0,
    queued: 0,
    free: 2,
};

const NEWCOMER: &str = "0 9 start = NoGroup
steps 1 = 0
worn 1 = 0
startable 1 = 0
pending 1 1 = 0
due 1 100000 = 0
";

const FIRST_STEPS: &str = "1 0 collect 1 = NoTicket
1 0 cached-of 0 1/k x = Queued(1)
1 0 cached-of 0 1/k x = Joined(1)
1 0 start = Assigned(1 x)
1 0 close 1 = Closed(1)
";

#[test]
fn a_newcomer_sees_nothing_of_the_group_before_it(rt: HostRuntime) {
    let mut core = core_of_frail(&rt);
    play(&rt, &mut core, A_FAILURE);
    assert_open(&rt, &mut core);
    assert_retired(&rt, &mut core, 0, Ok(()));
    register_frail(&rt, &mut core, 1);
    play(&rt, &mut core, NEWCOMER);
    assert!(rt; metrics(&mut core, 1, 0) == Reply::Metrics(NOTHING_SEEN));
    play(&rt, &mut core, FIRST_STEPS);
}

/// Plays each part of the script, between two of which the first group is in use.
fn play_in_use<R: Abort + AllocGlobal>(rt: &R, core: &mut Core, parts: &[&str]) {
    for part in parts {
        play(rt, core, part);
        assert_retired(rt, core, 0, Err(RetireError::Busy));
    }
}

#[test]
fn a_group_is_in_use_until_its_answers_are_collected(rt: HostRuntime) {
    let mut core = core_of_frail(&rt);
    let waits = "0 0 submit x = Queued(1)";
    let runs = "0 0 start = Assigned(1 x)";
    let ended = "0 0 finish 1 one = Done";
    play_in_use(&rt, &mut core, &[waits, runs, ended]);
    play(&rt, &mut core, "0 0 collect 1 = Value(one)");
    assert_retired(&rt, &mut core, 0, Ok(()));
}

const TIMED_OUT: &str = "0 0 cached-of 0 1/k x = Queued(1)
0 0 start = Assigned(1 x)
0 1000 expire = Expired(1)
0 1000 collect 1 = Answered(Error { cause: Timeout, fallback: Disabled })
0 1000 collect 1 = NoTicket
";

/// What is left is a ticket that further requests may join, and that nobody holds.
const CACHED_ALONE: &str = "0 1001 finish 1 late = Late
0 1001 collect 1 = NoTicket
";

#[test]
fn a_group_is_in_use_until_its_runs_have_ended(rt: HostRuntime) {
    let mut core = core_of_frail(&rt);
    play_in_use(&rt, &mut core, &[TIMED_OUT]);
    play(&rt, &mut core, CACHED_ALONE);
    let seen = metrics(&mut core, 0, 1001);
    assert!(rt;
        matches!(seen, Reply::Metrics(Metrics { free: 1, .. })),
        "{seen:?}"
    );
    assert_retired(&rt, &mut core, 0, Ok(()));
}

/// Asserts whether the group is registered, and whether it was retired.
fn assert_life<R: Abort>(rt: &R, core: &Core, group: u64, want: (bool, bool)) {
    let group = GroupId(group);
    let seen = (core.is_registered(group), core.is_retired(group));
    assert!(rt; seen == want, "{group:?}: {seen:?}");
}

/// Asserts with what step limit a group with the settings that are built in was registered, or that none was.
fn assert_limit<R: Abort>(rt: &R, core: &Core, group: u64, want: Option<u64>) {
    let shown = core.props(GroupId(group));
    let limit = match shown {
        Some((props, limit)) if are_built_in(props, &[command()]) => Some(limit),
        _ => None,
    };
    assert!(rt; limit == want, "{limit:?}");
}

#[test]
fn a_worn_group_is_retired_and_still_known(rt: HostRuntime) {
    let mut core = Core::new(rt.alloc(), 64);
    core.register(&props(&rt), 1).expect(&rt, "memory");
    assert_life(&rt, &core, 0, (true, false));
    assert!(rt; core.refusal(&props(&rt)) == Some(RegisterError::TooManySlots));
    play(&rt, &mut core, "0 0 start = Idle\nworn 0 = 1");
    assert_retired(&rt, &mut core, 0, Ok(()));
    play(&rt, &mut core, "0 0 start = NoGroup\nworn 0 = 0");
    assert!(rt; core.refusal(&props(&rt)).is_none());
    assert_life(&rt, &core, 0, (false, true));
    assert_limit(&rt, &core, 0, Some(1));
    assert_life(&rt, &core, 1, (false, false));
    assert_limit(&rt, &core, 1, None);
}

const FIRST_KIND: Act = Act::Register {
    place: 0,
    step_limit: 1024,
};

const SECOND_KIND: Act = Act::Register {
    place: 1,
    step_limit: 1024,
};

const FIRST_GOES: Act = Act::Retire(GroupId(0));

const SECOND_GOES: Act = Act::Retire(GroupId(1));

const UNKNOWN: Outcome = Outcome::Replied(Reply::NoGroup);

const FULL: Outcome = Outcome::NotRegistered(RegisterError::TooManySlots);

const GONE: Outcome = Outcome::NotRetired(RetireError::NoGroup);

const USED: Outcome = Outcome::NotRetired(RetireError::Busy);

#[test]
fn acts_have_their_outcomes(rt: HostRuntime) {
    let mut core = Core::new(rt.alloc(), 10);
    let kinds = [slots_of(props(&rt), 10), slots_of(props(&rt), 1)];
    let waits = step(1, 0, &Op::Start);
    let acts = [
        FIRST_KIND,
        SECOND_KIND,
        FIRST_GOES,
        FIRST_KIND,
        FIRST_GOES,
        Act::Step(waits),
    ];
    let want = [
        Outcome::Registered(GroupId(0)),
        FULL,
        Outcome::Retired,
        Outcome::Registered(GroupId(1)),
        GONE,
        Outcome::Replied(Reply::Idle),
    ];
    let told = core.run_acts(&kinds, &acts).expect(&rt, "memory");
    assert!(rt; told.as_slice() == want.as_slice(), "{told:?}");
}

#[test]
fn a_life_ends_for_steps_too(rt: HostRuntime) {
    let mut core = Core::new(rt.alloc(), 10);
    let kinds = [slots_of(props(&rt), 10)];
    let read = Act::Step(step(0, 0, &Op::Start));
    let acts = [
        Act::Step(step(0, 0, &submit("x"))),
        FIRST_KIND,
        FIRST_GOES,
        read,
        FIRST_KIND,
        Act::Step(step(1, 0, &submit("x"))),
        SECOND_GOES,
    ];
    let want = [
        UNKNOWN,
        Outcome::Registered(GroupId(0)),
        Outcome::Retired,
        UNKNOWN,
        Outcome::Registered(GroupId(1)),
        Outcome::Replied(Reply::Queued(1)),
        USED,
    ];
    let told = core.run_acts(&kinds, &acts).expect(&rt, "memory");
    assert!(rt; told.as_slice() == want.as_slice(), "{told:?}");
}
