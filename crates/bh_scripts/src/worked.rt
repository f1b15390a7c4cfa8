//! A worked run of two groups with a ticket each, which shows that groups are as new ones are to be.

ghost use Rattle.std.specs.Prelude.{◌≤◌, length};

use crate::samples::{NO_EVENTS, step, submit, text};
use bh_base::{Answer, CircuitState, Counts, Metrics, Op, Reply, Step};

fn finish(body: &str) -> Op
    requires fits { length body.now ≤ 256 }
{
    let body = text(body);
    Op::Finish { serial: 1, body }
}

/// The steps of the run, of the groups 0 and 1 by turns: each submits, starts, finishes and collects its first ticket, and
/// reads its metrics.
pub fn steps() -> [Step; 10] {
    let collect = Op::Collect { serial: 1 };
    let read = Op::Read { command: 0 };
    [
        step(0, 0, &submit("x")),
        step(1, 0, &submit("y")),
        step(0, 1, &Op::Start),
        step(1, 1, &Op::Start),
        step(0, 2, &finish("one")),
        step(1, 2, &finish("two")),
        step(0, 3, &collect),
        step(1, 3, &collect),
        step(0, 3, &read),
        step(1, 3, &read),
    ]
}

fn assigned(arg: &str) -> Reply
    requires fits { length arg.now ≤ 64 }
{
    Reply::Assigned {
        serial: 1,
        command: 0,
        arg: text(arg),
    }
}

fn value(body: &str) -> Reply
    requires fits { length body.now ≤ 256 }
{
    Reply::Answered(Answer::Value(text(body)))
}

/// What a group of so many slots shows after its one success.
fn one_success(slots: u64) -> Reply {
    Reply::Metrics(Metrics {
        circuit: CircuitState::Closed,
        counts: Counts {
            success: 1,
            ..NO_EVENTS
        },
        errors: 0,
        total: 1,
        percent: 0,
        busy: 0,
        queued: 0,
        free: slots,
    })
}

/// What is replied to the steps of the run by new groups of so many slots each.
pub fn replies(slots: u64) -> [Reply; 10] {
    [
        Reply::Queued(1),
        Reply::Queued(1),
        assigned("x"),
        assigned("y"),
        Reply::Done,
        Reply::Done,
        value("one"),
        value("two"),
        one_success(slots),
        one_success(slots),
    ]
}
