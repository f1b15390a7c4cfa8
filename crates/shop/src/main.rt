//! An example of the library: a shop whose payments fail, with workers, callers and a timer as threads. It prints what
//! each request was answered.
#![tactic(auto)]

use bh_audit::{Book, Shared};
use bh_base::{Answer, CallError, Cause, FallbackEnd, GroupId, Request, RunEnd, Text};
use bh_core::Core;
use bh_props::Settings;
use bh_serve::clock::{MachineClock, Ticks};
use bh_workers::{Dependency, Driven, RequestList, drive};
use std::alloc::Global;
use std::rt::Clock;
use std::sync::Wait;
use std::thread::Threads;

/// The groups: a run may take as long as it likes, so that what is printed is the same on every machine.
const SETTINGS: &str =
    "service.groups = [\"catalog\", \"payment\"]\nhystrix.command.default.execution.timeout.enabled = false";

const CATALOG: GroupId = GroupId(0);

const PAYMENT: GroupId = GroupId(1);

/// The steps that each group may do.
const MOST_STEPS: u64 = 1_000;

/// The slots of all groups.
const MOST_SLOTS: u32 = 1_000;

/// What the shop depends on. Payments fail, and have a fallback.
#[derive(Drop)]
struct Shop;

impl Dependency for Shop {
    ghost ends = { λ group command arg end. Unit {0} };

    ghost fallback_ends = { λ group command cause arg end. Unit {0} };

    fn run(&self, group: GroupId, _command: u8, arg: &Text<64>) -> RunEnd {
        if group == PAYMENT {
            return RunEnd::Failure;
        }
        Text::new(arg.as_str()).map_or(RunEnd::Failure, RunEnd::Success)
    }

    fn fallback(
        &self,
        _group: GroupId,
        _command: u8,
        _cause: Cause,
        _arg: &Text<64>,
    ) -> FallbackEnd {
        Text::new("pay on delivery").map_or(FallbackEnd::Failure, FallbackEnd::Success)
    }
}

fn main(rt: HostRuntime) {
    let Some(driven) = serve(&rt, rt.alloc()) else {
        let _ = println!(&rt; "out of memory");
        return;
    };
    for answers in driven.answers.iter() {
        for answer in answers.iter() {
            print_answer(&rt, answer);
        }
    }
}

/// Makes the requests of the shop.
fn serve<R: Threads + Wait + Clock + Sync>(rt: &R, alloc: Global) -> Option<Driven> {
    let settings = bh_props::read(alloc, SETTINGS).ok()?;
    let book = Book::new(alloc, core_of(alloc, &settings)?, None).ok()?;
    let shared = Shared::new(alloc, book).ok()?;
    let mut lists = Vec::new(alloc);
    lists.push(list_of(alloc, CATALOG, "item-7 item-8")?).ok()?;
    lists.push(list_of(alloc, PAYMENT, "order-3")?).ok()?;
    let clock = MachineClock::start(rt);
    drive(
        rt,
        alloc,
        &shared,
        &Shop,
        &clock,
        Ticks::new(rt),
        lists.as_slice(),
        0,
    )
    .ok()
}

/// A core with the groups of the settings.
fn core_of(alloc: Global, settings: &Settings) -> Option<Core> {
    let mut core = Core::new(alloc, MOST_SLOTS);
    for (_name, props) in settings.groups.iter() {
        core.register(props, MOST_STEPS).ok()?;
    }
    Some(core)
}

/// The requests of these arguments to the group.
fn list_of(alloc: Global, group: GroupId, words: &str) -> Option<RequestList> {
    let mut requests = Vec::new(alloc);
    for word in words.split_whitespace() {
        let arg = Text::new(word).ok()?;
        let request = Request {
            command: 0,
            cache: None,
            arg,
        };
        requests.push(request).ok()?;
    }
    Some(RequestList { group, requests })
}

/// Prints what a request was answered.
fn print_answer<R: Print>(rt: &R, answer: &Result<Answer, CallError>) {
    let _ = match answer {
        Ok(Answer::Value(body)) => println!(rt; "{}", body.as_str()),
        Ok(Answer::FallbackValue { cause, body }) => println!(rt; "{} ({cause:?})", body.as_str()),
        other => println!(rt; "{other:?}"),
    };
}
