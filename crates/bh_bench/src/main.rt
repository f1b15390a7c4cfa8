//! The workloads of the benchmark: jobs that users wait for, each through the public calls of the library crates, over
//! input that a seed gives.
//!
//!   bh_bench NAME SEED [small | quarter | input]
//!
//! NAME is `script`, `tenants`, `busy`, `settings`, `conversation` or `account`, or `all` for one after another. With
//! `small` there is so little of each that it is done at once, and with `quarter` a fourth of the lines, files and services;
//! `busy`, whose groups have to fill first, stays whole then. `input` makes the lines and files of a quarter, and does
//! nothing with them. A workload prints its name and a digest of all that it was told, the same for the same seed. The
//! status is 1 where an argument is no such word or number, or where a workload did not go as it should.
#![tactic(auto)]

mod account;
mod busy;
mod chance;
mod client;
mod conversation;
mod digest;
mod reply;
mod script;
mod settings;
mod traffic;
mod writing;

use crate::digest::Digest;
use std::alloc::Global;
use std::env;
use std::process::ExitCode;
use std::rt::Clock;
use std::sync::Wait;

/// The workloads.
const NAMES: [&str; 6] = [
    "script",
    "tenants",
    "busy",
    "settings",
    "conversation",
    "account",
];

/// How much of a workload is done.
#[derive(Clone, Copy)]
enum Amount {
    Whole,
    Quarter,
    Small,
    /// The lines and files of a quarter are made, and nothing is done with them.
    Input,
}

impl Amount {
    /// The amount of a word.
    fn of(word: &str) -> Option<Amount> {
        match word {
            "quarter" => Some(Amount::Quarter),
            "small" => Some(Amount::Small),
            "input" => Some(Amount::Input),
            _ => None,
        }
    }

    /// So many lines, files or services.
    fn many(self, whole: u64, small: u64) -> u64 {
        match self {
            Amount::Whole => whole,
            Amount::Quarter | Amount::Input => whole / 4,
            Amount::Small => small,
        }
    }

    /// So many of what a quarter has as many of.
    fn few(self, whole: u64, small: u64) -> u64 {
        match self {
            Amount::Small => small,
            _ => whole,
        }
    }
}

/// What the arguments say.
#[derive(Clone, Copy)]
struct Words {
    seed: u64,
    amount: Amount,
}

fn main(rt: HostRuntime) -> ExitCode {
    match run_arguments(&rt, &rt) {
        Some(()) => ExitCode::from(0),
        None => ExitCode::from(1),
    }
}

/// Runs the workloads that the arguments name.
fn run_arguments<R: Wait + Clock>(rt: &HostRuntime, handles: &R) -> Option<()> {
    let arguments: Vec<String> = env::args(rt).ok()?.collect(rt.alloc()).ok()?;
    let named = arguments.get(1)?.as_str();
    let words = Words {
        seed: arguments.get(2)?.as_str().parse().ok()?,
        amount: match arguments.get(3) {
            Some(word) => Amount::of(word.as_str())?,
            None => Amount::Whole,
        },
    };
    for name in NAMES {
        if named == name || named == "all" {
            let value = match words.amount {
                Amount::Input => make_input(rt.alloc(), name, words)?,
                _ => run(rt, handles, name, words)?,
            };
            println!(rt; "{name} {value:016x}").ok()?;
        }
    }
    Some(())
}

/// Runs a workload, and answers its digest.
fn run<R: Wait + Clock>(rt: &HostRuntime, handles: &R, name: &str, words: Words) -> Option<u64> {
    let alloc = rt.alloc();
    let Words { seed, amount } = words;
    let mut digest = Digest::new();
    match name {
        "script" => script::run(alloc, script_plan(amount), seed, &mut digest)?,
        "tenants" => script::run(alloc, tenants_plan(amount), seed, &mut digest)?,
        "busy" => busy::run(alloc, amount.few(12_000, 20), seed, &mut digest)?,
        "settings" => settings::run(alloc, settings_plan(amount), seed, &mut digest)?,
        "conversation" => conversation::run(handles, alloc, talk_plan(amount), seed, &mut digest)?,
        "account" => {
            let (services, requests) = (amount.many(8, 1), amount.few(300, 3));
            account::run(handles, alloc, services, requests, seed, &mut digest)?;
        }
        _ => return None,
    }
    Some(digest.value())
}

/// Makes the lines or the files of a workload that has any, and answers a digest of how long they are.
fn make_input(alloc: Global, name: &str, words: Words) -> Option<u64> {
    let Words { seed, amount } = words;
    let mut digest = Digest::new();
    match name {
        "script" => script::make_input(alloc, script_plan(amount), seed, &mut digest)?,
        "tenants" => script::make_input(alloc, tenants_plan(amount), seed, &mut digest)?,
        "settings" => settings::make_input(alloc, settings_plan(amount), seed, &mut digest)?,
        "conversation" => conversation::make_input(alloc, talk_plan(amount), seed, &mut digest)?,
        _ => {}
    }
    Some(digest.value())
}

fn script_plan(amount: Amount) -> traffic::Plan {
    traffic::Plan {
        groups: 16,
        tenants: 0,
        lines: amount.many(2_000_000, 2_000),
        pace: 16,
    }
}

fn tenants_plan(amount: Amount) -> traffic::Plan {
    traffic::Plan {
        groups: amount.few(1_000, 20),
        tenants: amount.few(500, 10),
        lines: amount.many(1_200_000, 3_000),
        pace: 64,
    }
}

fn settings_plan(amount: Amount) -> settings::Plan {
    settings::Plan {
        files: amount.many(4, 1),
        groups: amount.few(1_000, 5),
    }
}

fn talk_plan(amount: Amount) -> conversation::Plan {
    conversation::Plan {
        groups: amount.few(1_000, 20),
        lines: amount.many(600_000, 300),
    }
}
