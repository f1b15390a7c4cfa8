//! The circuit breaker.

use bh_base::CommandProps;
use bh_circuit::{Admit, Circuit, CircuitState, End, Health, percent};
use bh_scripts::samples::command;
use std::process::Abort;

/// Settings under which a single error opens the circuit breaker, for 5,000 ms.
fn props() -> CommandProps {
    CommandProps {
        volume: 1,
        ..command()
    }
}

fn assert_admit<R: Abort>(rt: &R, told: Admit, want: Admit) {
    assert_eq!(rt; told, want);
}

fn assert_state<R: Abort>(rt: &R, circuit: &Circuit, want: CircuitState) {
    assert_eq!(rt; circuit.state(), want);
}

#[test]
fn a_sleep_window_admits_one_test(rt: HostRuntime) {
    let props = props();
    let failing = Health {
        errors: 1,
        total: 1,
    };
    let healthy = Health {
        errors: 0,
        total: 0,
    };
    let mut circuit = Circuit::new();
    assert_admit(&rt, circuit.admit(100, &props, failing, 2), Admit::Short);
    assert_state(&rt, &circuit, CircuitState::Open(100));
    assert_admit(&rt, circuit.admit(5099, &props, failing, 3), Admit::Short);
    assert_admit(&rt, circuit.admit(5100, &props, failing, 4), Admit::Test);
    assert_admit(&rt, circuit.admit(5100, &props, failing, 5), Admit::Short);
    assert!(rt; !circuit.ended(3, End::Success, 5101));
    assert_state(&rt, &circuit, CircuitState::HalfOpen(100, 4));
    assert!(rt; circuit.ended(4, End::Success, 5102));
    assert_state(&rt, &circuit, CircuitState::Closed);
    assert_admit(&rt, circuit.admit(5104, &props, healthy, 6), Admit::Pass);
}

#[test]
fn the_percentage_is_rounded_down(rt: HostRuntime) {
    let cases = [(0, 0, 0), (1, 3, 33), (2, 3, 66), (u64::MAX, u64::MAX, 100)];
    for (errors, total, want) in cases {
        assert!(rt; errors <= total);
        assert_eq!(rt; percent(Health { errors, total }), want);
    }
}
