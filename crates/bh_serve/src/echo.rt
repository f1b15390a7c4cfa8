//! The dependency of a service that is tried out: it gives each argument back, save a few that fail or take their time.

ghost use Rattle.std.specs.Prelude.{◌≡◌, codes};
ghost use Rattle.bh_serve.specs.Echo.{run_end, fallback_end};

use bh_base::{Cause, FallbackEnd, GroupId, RunEnd, Text};
use bh_workers::Dependency;
use std::rt::Clock;
use std::sync::{Condvar, Mutex, Wait};
use std::time::Duration;

/// The dependency of every group and command: a run gives its argument back.
///
/// | Argument | Run | Fallback |
/// |-|-|-|
/// | `fail` | fails | gives `fallback` |
/// | `fail twice` | fails | fails |
/// | `fail bare` | fails | there is none |
/// | `bad` | a bad request | is not asked for |
/// | `sleep N`, N of one to four decimal digits | waits N milliseconds, or until it is woken, then gives the argument | gives `fallback` |
/// | any other | gives the argument | gives `fallback` |
#[derive(Drop)]
pub struct Echo<'e, R> {
    rt: &'e R,
    woken: Mutex<bool>,
    changed: Condvar,
}

impl<'e, R: Wait + Clock> Echo<'e, R> {
    /// An echo that sleeps by the clock of the machine.
    pub fn new(rt: &'e R) -> Echo<'e, R> {
        Echo {
            rt,
            woken: Mutex::new(false),
            changed: Condvar::new(),
        }
    }

    /// Ends each sleep that goes on, and lets none begin any more.
    pub fn wake(&self) {
        *self.woken.lock(self.rt) = true;
        self.changed.notify_all();
    }

    /// Waits so many milliseconds, or until it is woken.
    fn sleep(&self, millis: u64) {
        let _ = self.changed.wait_timeout_while(
            self.rt,
            self.woken.lock(self.rt),
            Duration::from_millis(millis),
            |woken| !*woken,
        );
    }
}

impl<'e, R: Wait + Clock> Dependency for Echo<'e, R> {
    ghost use Rattle.std.specs.Prelude.{◌≡◌};
    ghost use Rattle.bh_serve.specs.Echo.{run_end, fallback_end};

    ghost ends = { λ group command arg end. end ≡ run_end arg };

    ghost fallback_ends = { λ group command cause arg end. end ≡ fallback_end arg };

    fn run(&self, _group: GroupId, _command: u8, arg: &Text<64>) -> RunEnd {
        let arg = arg.as_str();
        if let Some(millis) = sleep_of(arg) {
            self.sleep(millis);
        }
        run_end(arg)
    }

    fn fallback(
        &self,
        _group: GroupId,
        _command: u8,
        _cause: Cause,
        arg: &Text<64>,
    ) -> FallbackEnd {
        fallback_end(arg.as_str())
    }
}

/// The milliseconds of `sleep N`, with N of one to four decimal digits.
fn sleep_of(arg: &str) -> Option<u64> {
    let digits = arg.strip_prefix("sleep ")?;
    if digits.len() > 4 || !digits.bytes().all(|byte| byte.is_ascii_digit()) {
        return None;
    }
    digits.parse().ok()
}

/// How a run of the argument ends: every argument is short enough for a body. It returns from where it knows, since the ends
/// of a `match` would be copied once more behind it.
fn run_end(arg: &str) -> RunEnd
    ensures { result ≡ run_end arg.now }
{
    match arg {
        "fail" | "fail twice" | "fail bare" => return RunEnd::Failure,
        "bad" => return RunEnd::BadRequest,
        _ => {}
    }
    let Ok(body) = Text::new(arg) else {
        return RunEnd::Failure;
    };
    RunEnd::Success(body)
}

/// How the fallback of the argument ends.
fn fallback_end(arg: &str) -> FallbackEnd
    ensures { result ≡ fallback_end arg.now }
{
    match arg {
        "fail twice" => FallbackEnd::Failure,
        "fail bare" => FallbackEnd::Missing,
        _ => fallback_value(),
    }
}

/// The value of every fallback that gives one.
fn fallback_value() -> FallbackEnd
    ensures { result ≡ FallbackEnd.Success (codes "fallback") }
{
    match Text::new("fallback") {
        Ok(body) => FallbackEnd::Success(body),
        Err(_) => unreachable!(),
    }
}
