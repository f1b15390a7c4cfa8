//! Steps as texts: the group, the moment and the operation.

use crate::words::{number, split_word};
use bh_base::{FallbackEnd, GroupId, Op, Request, Step, Text, Tuning};

/// The number of a command, or the last that there may be.
fn command(word: &str) -> u8 {
    word.parse::<u8>().unwrap_or(u8::MAX)
}

fn submit(command: u8, arg: &str) -> Option<Op> {
    let arg = Text::new(arg).ok()?;
    let request = Request {
        command,
        cache: None,
        arg,
    };
    Some(Op::Submit(request))
}

/// Asks for a run that others may join: the context and the key, and the argument.
fn submit_cached(command: u8, words: &str) -> Option<Op> {
    let (name, arg) = split_word(words);
    let (context, key) = name.split_once('/')?;
    let request = Request {
        command,
        cache: Some((number(context), Text::new(key).ok()?)),
        arg: Text::new(arg).ok()?,
    };
    Some(Op::Submit(request))
}

fn finish(serial: u64, body: &str) -> Option<Op> {
    let body = Text::new(body).ok()?;
    Some(Op::Finish { serial, body })
}

/// Ends a fallback with a body.
fn fall_back(serial: u64, body: &str) -> Option<Op> {
    let end = FallbackEnd::Success(Text::new(body).ok()?);
    Some(Op::FallbackDone { serial, end })
}

/// The property of the name, by the name of its variant in lower case, with the number, or the truth of a number above 0.
fn tuning(name: &str, value: u64) -> Option<Tuning> {
    let truth = value > 0;
    Some(match name {
        "timeout" => Tuning::Timeout(value),
        "timeout-on" => Tuning::TimeoutOn(truth),
        "semaphore" => Tuning::Semaphore(value),
        "fallback-permits" => Tuning::FallbackPermits(value),
        "fallback-on" => Tuning::FallbackOn(truth),
        "circuit-on" => Tuning::CircuitOn(truth),
        "volume" => Tuning::Volume(value),
        "sleep-window" => Tuning::SleepWindow(value),
        "error-percent" => Tuning::ErrorPercent(value),
        "force-open" => Tuning::ForceOpen(truth),
        "force-closed" => Tuning::ForceClosed(truth),
        "health-interval" => Tuning::HealthInterval(value),
        "cache-on" => Tuning::CacheOn(truth),
        "core-size" => Tuning::CoreSize(value),
        "queue-threshold" => Tuning::QueueThreshold(value),
        _ => return None,
    })
}

/// Changes a property of the command: its name, and the value.
fn tune(command: u8, words: &str) -> Option<Op> {
    let (name, value) = split_word(words);
    let tuning = tuning(name, number(value))?;
    Some(Op::Tune { command, tuning })
}

/// An operation that says more than its name.
fn operation_of(name: &str, rest: &str) -> Option<Op> {
    match name {
        "submit" => submit(0, rest),
        "submit-of" => {
            let (of, arg) = split_word(rest);
            submit(command(of), arg)
        }
        "cached-of" => {
            let (of, rest) = split_word(rest);
            submit_cached(command(of), rest)
        }
        "read-of" => Some(Op::Read {
            command: command(rest),
        }),
        "totals-of" => Some(Op::Totals {
            command: command(rest),
        }),
        "tune" => tune(0, rest),
        "tune-of" => {
            let (of, rest) = split_word(rest);
            tune(command(of), rest)
        }
        "collect" => Some(Op::Collect {
            serial: number(rest),
        }),
        "close" => Some(Op::Close {
            context: number(rest),
        }),
        "fail" => Some(Op::Fail {
            serial: number(rest),
            bad: false,
        }),
        "finish" => {
            let (serial, body) = split_word(rest);
            finish(number(serial), body)
        }
        "fall-back" => {
            let (serial, body) = split_word(rest);
            fall_back(number(serial), body)
        }
        _ => None,
    }
}

fn operation(words: &str) -> Option<Op> {
    match words {
        "start" => Some(Op::Start),
        "expire" => Some(Op::Expire),
        "read" => Some(Op::Read { command: 0 }),
        "totals" => Some(Op::Totals { command: 0 }),
        _ => {
            let (name, rest) = split_word(words);
            operation_of(name, rest)
        }
    }
}

/// The step of the words: the group, the moment and the operation. None where no operation has that name.
///
/// The operations are `start`, `expire`, `read`, `read-of COMMAND`, `submit ARG`, `submit-of COMMAND ARG`,
/// `cached-of COMMAND CONTEXT/KEY ARG`, `finish SERIAL BODY`, `fail SERIAL`,
/// `fall-back SERIAL BODY`, `collect SERIAL`, `close CONTEXT`, `totals`, `totals-of COMMAND`, `tune PROPERTY VALUE` and
/// `tune-of COMMAND PROPERTY VALUE`.
pub fn step_of(words: &str) -> Option<Step> {
    let (group, rest) = split_word(words);
    let (now, rest) = split_word(rest);
    let op = operation(rest)?;
    Some(Step {
        group: GroupId(number(group)),
        now: number(now),
        op,
    })
}
