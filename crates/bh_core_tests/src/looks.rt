//! Looks at a command: its circuit breaker, its metrics, and the ticket that a step would go by.

use crate::groups::core_of_one;
use bh_base::{CircuitState, GroupId, Metrics, Op, Reply, Text};
use bh_core::Core;
use bh_scripts::samples::{step, submit};
use std::process::Abort;

/// The group that is registered, and one that is not.
const GROUP: GroupId = GroupId(0);

const NO_GROUP: GroupId = GroupId(1);

/// Asserts that a Read at the moment is answered what the look told before it.
fn assert_read(rt: &impl Abort, core: &mut Core, moment: u64, looked: Option<Metrics>) {
    let read = core.apply(step(0, moment, &Op::Read { command: 0 }));
    assert!(rt; looked.map(Reply::Metrics) == Some(read));
}

#[test]
fn metrics_are_those_of_a_read(rt: HostRuntime) {
    let mut core = core_of_one(&rt, 4);
    core.apply(step(0, 7, &submit("x")));
    core.apply(step(0, 5000, &Op::Expire));
    let looked = core.metrics(GROUP, 0, 12);
    assert!(rt; looked.map(|shown| shown.counts.timeout) == Some(1));
    assert_read(&rt, &mut core, 12, looked);
    let later = core.metrics(GROUP, 0, 20_000);
    assert!(rt; later.map(|shown| shown.counts.timeout) == Some(0));
    assert_read(&rt, &mut core, 20_000, later);
    assert!(rt; core.worn(GROUP));
    assert!(rt; core.metrics(GROUP, 0, 20_000) == later);
}

#[test]
fn nothing_is_shown_of_what_is_not_there(rt: HostRuntime) {
    let core = core_of_one(&rt, 4);
    assert!(rt; core.circuit(GROUP, 0) == Some(CircuitState::Closed));
    assert!(rt; core.circuit(GROUP, 1).is_none());
    assert!(rt; core.circuit(NO_GROUP, 0).is_none());
    assert!(rt; core.metrics(GROUP, 1, 0).is_none());
    assert!(rt; core.metrics(NO_GROUP, 0, 0).is_none());
    assert!(rt; core.latest(NO_GROUP) == 0);
    assert!(rt; core.ticket(NO_GROUP, &Op::Collect { serial: 1 }).is_none());
}

#[test]
fn the_ticket_of_a_step_is_shown(rt: HostRuntime) {
    let mut core = core_of_one(&rt, 4);
    let body = Text::new("v").expect(&rt, "a short text");
    let finish = Op::Finish { serial: 1, body };
    core.apply(step(0, 7, &submit("x")));
    assert!(rt; core.ticket(GROUP, &finish).is_none());
    core.apply(step(0, 9, &Op::Start));
    assert!(rt; core.latest(GROUP) == 9);
    let running = core.ticket(GROUP, &finish).expect(&rt, "a run");
    assert!(rt; (running.serial, running.command, running.submitted) == (1, 0, 7));
    assert!(rt;
        core.ticket(
            GROUP,
            &Op::Fail {
                serial: 2,
                bad: false
            }
        )
        .is_none()
    );
    core.apply(step(0, 11, &finish));
    assert!(rt; core.ticket(GROUP, &finish).is_none());
    assert!(rt; core.ticket(GROUP, &Op::Collect { serial: 1 }).is_some());
    assert!(rt; core.ticket(GROUP, &Op::Start).is_none());
}
