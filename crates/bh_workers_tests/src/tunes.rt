//! Properties that change while a service runs, and the numbers of all events: what the calls of a service say then.

use crate::driving::{assert_end, assert_number, service};
use crate::samples::props;
use crate::script::{play, take_passes};
use bh_base::{Counts, Op, Reply};
use bh_scripts::samples::{NO_EVENTS, step};
use bh_services::services::{A, B};

/// A circuit is held open and let go again, and a value that is out of range changes nothing; each that is made is a step.
const CHANGED: &str = "0 0 0 submit x = Queued(1)
0 0 0 start = Assigned(1 x)
0 0 1 tune force-open 1 = Tuned
0 0 1 submit y = FallbackDue { serial: 2, cause: ShortCircuited }
0 0 1 finish 1 r = Done
0 0 2 tune core-size 0 = OutOfRange
0 0 2 tune-of 1 force-open 0 = NoCommand
0 0 2 totals-of 1 = NoCommand
0 0 2 tune force-open 0 = Tuned
0 0 2 tune core-size 3 = Tuned
0 0 2 submit z = Queued(3)
0 receipts = 9
1 1 2 submit y = Queued(1)
";

#[test]
fn the_account_has_the_settings_of_the_registration(rt: HostRuntime) {
    let shared = service(&rt, props(&rt), props(&rt), 20);
    let mut passes = take_passes(&rt, &shared, &[(A, 20), (B, 20)]);
    play(&rt, &shared, &mut passes, CHANGED);
    assert_number(&rt, shared.workers(&rt, A), 3);
    assert_number(&rt, shared.workers(&rt, B), 10);
    assert_end(&rt, shared, passes, "9 of 20, 1 of 20, running");
}

/// Two runs, the second of which begins long after the first one left the window.
const TWO_RUNS: &str = "0 0 0 submit x = Queued(1)
0 0 0 start = Assigned(1 x)
0 0 0 finish 1 r = Done
0 0 100000 submit y = Queued(2)
0 0 100000 start = Assigned(2 y)
0 0 100000 fail 2 = Done
";

#[test]
fn totals_have_what_has_left_the_window(rt: HostRuntime) {
    let shared = service(&rt, props(&rt), props(&rt), 20);
    let mut passes = take_passes(&rt, &shared, &[(A, 20)]);
    play(&rt, &shared, &mut passes, TWO_RUNS);
    let pass = passes.get_mut(0).expect(&rt, "a pass");
    let told = shared.step(&rt, pass, step(0, 100_000, &Op::Totals { command: 0 }));
    let counts = Counts {
        failure: 1,
        success: 1,
        ..NO_EVENTS
    };
    assert!(rt; told == Ok(Reply::Totals(counts)), "{told:?}");
    assert_end(&rt, shared, passes, "7 of 20, 0 of 20, running");
}
