//! Calls of a service as words, and what they say as texts.

use bh_audit::{Clock, Next, Pass, Shared, StepError};
use bh_base::{Op, Reply, Text};
use bh_scripts::replies::{assigned_text, reply_text};
use bh_scripts::samples::{own_request, step, text};
use bh_scripts::steps::step_of;
use bh_scripts::words::{number, split_word};
use std::alloc::{AllocError, Global};
use std::sync::Wait;

/// Always says the same moment.
#[derive(Drop)]
struct Always(u64);

impl Clock for Always {
    ghost moments = { λ moment. Unit {0} };

    fn now(&self) -> u64 {
        self.0
    }
}

/// What a call said that makes a step.
fn told_text(alloc: Global, told: &Result<Reply, StepError>) -> Result<String, AllocError> {
    match told {
        Ok(reply) => reply_text(alloc, reply),
        Err(error) => format!(in alloc; "{error:?}"),
    }
}

fn next_text(alloc: Global, told: &Result<Next, StepError>) -> Result<String, AllocError> {
    match told {
        Ok(
            Next::Assigned {
                serial,
                command,
                arg,
            },
        ) => assigned_text(alloc, *serial, *command, arg),
        Ok(other) => format!(in alloc; "{other:?}"),
        Err(error) => format!(in alloc; "{error:?}"),
    }
}

fn await_text<R: Wait>(
    rt: &R,
    alloc: Global,
    shared: &Shared,
    pass: &mut Pass,
    words: &str,
) -> Result<String, AllocError> {
    let (serial, now) = split_word(words);
    let told = shared.await_answer(rt, pass, number(serial), &Always(number(now)));
    told_text(alloc, &told)
}

fn due_text(alloc: Global, told: &Result<Option<u64>, StepError>) -> Result<String, AllocError> {
    format!(in alloc; "{told:?}")
}

/// What a look at the pass says.
fn look_text(alloc: Global, pass: &Pass, name: &str) -> Result<String, AllocError> {
    match name {
        "receipts" => format!(in alloc; "{}", pass.receipts().len()),
        "room" => format!(in alloc; "{}", pass.room_left()),
        "marks" => format!(in alloc; "{:?}", pass.marks()),
        _ => first_step_text(alloc, pass),
    }
}

fn first_step_text(alloc: Global, pass: &Pass) -> Result<String, AllocError> {
    match pass.receipts().get(0) {
        Some(receipt) => format!(in alloc; "{:?}", receipt.step),
        None => format!(in alloc; "none"),
    }
}

/// Stops the service.
fn stop_text<R: Wait>(rt: &R, alloc: Global, shared: &Shared) -> Result<String, AllocError> {
    shared.stop(rt);
    format!(in alloc; "stopped")
}

/// Retires the pass's group.
fn retire_text<R: Wait>(
    rt: &R,
    alloc: Global,
    shared: &Shared,
    pass: &Pass,
) -> Result<String, AllocError> {
    format!(in alloc; "{:?}", shared.retire(rt, pass.group()))
}

/// What a request is answered that may join another of its argument.
fn cached_text<R: Wait>(
    rt: &R,
    alloc: Global,
    shared: &Shared,
    pass: &mut Pass,
    arg: &str,
) -> Result<String, AllocError> {
    let key = Text::new(arg).unwrap_or(text("x"));
    let arg = Text::new(arg).unwrap_or(text("x"));
    let request = own_request(Some((0, key)), arg);
    let asked = step(pass.group().0, 0, &Op::Submit(request));
    told_text(alloc, &shared.step(rt, pass, asked))
}

/// What a call says that is no step of the pass's own making.
fn ask_shared<R: Wait>(
    rt: &R,
    alloc: Global,
    shared: &Shared,
    pass: &mut Pass,
    words: &str,
) -> Result<String, AllocError> {
    let (name, rest) = split_word(words);
    match name {
        "next" => next_text(alloc, &shared.next(rt, pass, &Always(number(rest)))),
        "due" => due_text(alloc, &shared.expire_due(rt, pass, &Always(number(rest)))),
        "await" => await_text(rt, alloc, shared, pass, rest),
        "cached" => cached_text(rt, alloc, shared, pass, rest),
        "stop" => stop_text(rt, alloc, shared),
        "retire" => retire_text(rt, alloc, shared, pass),
        _ => look_text(alloc, pass, name),
    }
}

/// What the call of the words says: of a step (`bh_scripts::steps`), or of another call of the pass's group.
///
/// The other calls are `next NOW`, `due NOW`, `await SERIAL NOW`, `cached ARG`, `stop` and `retire`; `receipts`, `room`,
/// `marks` and `first step` look at the pass.
pub(crate) fn ask<R: Wait>(
    rt: &R,
    alloc: Global,
    shared: &Shared,
    pass: &mut Pass,
    words: &str,
) -> Result<String, AllocError> {
    match step_of(words) {
        Some(step) => told_text(alloc, &shared.step(rt, pass, step)),
        None => ask_shared(rt, alloc, shared, pass, words),
    }
}
