//! Settings files: read, and shown line by line, as `bulkhead check` does.

use crate::chance::Chance;
use crate::digest::Digest;
use crate::writing::{put, put_number, put_numbered};
use bh_props::settings_in;
use std::alloc::{AllocError, Global};

/// Properties of a command with values that they may have.
const OF_COMMANDS: [(&str, &str); 16] = [
    ("execution.isolation.strategy", "\"SEMAPHORE\""),
    ("execution.isolation.thread.timeoutInMilliseconds", "750"),
    ("execution.timeout.enabled", "false"),
    ("execution.isolation.semaphore.maxConcurrentRequests", "24"),
    ("fallback.isolation.semaphore.maxConcurrentRequests", "12"),
    ("fallback.enabled", "false"),
    ("circuitBreaker.enabled", "true"),
    ("circuitBreaker.requestVolumeThreshold", "40"),
    ("circuitBreaker.sleepWindowInMilliseconds", "8000"),
    ("circuitBreaker.errorThresholdPercentage", "35"),
    ("circuitBreaker.forceOpen", "false"),
    ("circuitBreaker.forceClosed", "true"),
    ("metrics.rollingStats.timeInMilliseconds", "60000"),
    ("metrics.rollingStats.numBuckets", "20"),
    ("metrics.healthSnapshot.intervalInMilliseconds", "100"),
    ("requestCache.enabled", "false"),
];

/// Of a thread pool.
const OF_POOLS: [(&str, &str); 3] = [
    ("coreSize", "16"),
    ("maxQueueSize", "100"),
    ("queueSizeRejectionThreshold", "50"),
];

/// Words that names are made of.
const WORDS: [&str; 8] = [
    "catalog",
    "pay",
    "stock",
    "mail",
    "geo",
    "user",
    "ad",
    "search-index",
];

/// What a file is like.
#[derive(Clone, Copy)]
enum Kind {
    /// Groups with properties of their own.
    Groups,
    /// Groups with further commands.
    Commands,
    /// The same as the first, with a value at its end that is refused.
    Refused,
}

/// So many files of each kind, each of so many groups.
#[derive(Clone, Copy)]
pub struct Plan {
    pub files: u64,
    pub groups: u64,
}

/// Reads and shows the files of the plan. None where memory is refused.
pub(crate) fn run(alloc: Global, plan: Plan, seed: u64, digest: &mut Digest) -> Option<()> {
    let mut chance = Chance::new(seed);
    for _ in 0..plan.files {
        for kind in [Kind::Groups, Kind::Commands, Kind::Refused] {
            let text = text_of(alloc, kind, plan.groups, &mut chance).ok()?;
            check(alloc, text.as_slice(), digest)?;
        }
    }
    Some(())
}

/// Makes the same files, and adds how long they are.
pub(crate) fn make_input(alloc: Global, plan: Plan, seed: u64, digest: &mut Digest) -> Option<()> {
    let mut chance = Chance::new(seed);
    for _ in 0..plan.files {
        for kind in [Kind::Groups, Kind::Commands, Kind::Refused] {
            let text = text_of(alloc, kind, plan.groups, &mut chance).ok()?;
            digest.number(text.len() as u64);
        }
    }
    Some(())
}

/// Adds what is in force under the file, or why it is refused.
fn check(alloc: Global, text: &[u8], digest: &mut Digest) -> Option<()> {
    let shown = match settings_in(alloc, text) {
        Ok(settings) => settings.to_string(alloc).ok()?,
        Err(error) => error.to_string(alloc).ok()?,
    };
    digest.bytes(shown.as_str().as_bytes());
    Some(())
}

/// The text of a file.
fn text_of(
    alloc: Global,
    kind: Kind,
    groups: u64,
    chance: &mut Chance,
) -> Result<Vec<u8>, AllocError> {
    let mut text = Vec::new(alloc);
    put(&mut text, "[service]\ngroups = [")?;
    for number in 0..groups {
        put(&mut text, if number == 0 { "\"" } else { ", \"" })?;
        put_name(&mut text, number)?;
        put(&mut text, "\"")?;
    }
    put(&mut text, "]\n")?;
    match kind {
        Kind::Groups => put_groups(&mut text, groups, chance)?,
        Kind::Commands => put_commands(&mut text, groups, chance)?,
        Kind::Refused => {
            put_groups(&mut text, groups, chance)?;
            put(&mut text, "[hystrix.threadpool.")?;
            put_name(&mut text, groups.saturating_sub(1))?;
            put(&mut text, "]\ncoreSize = 65\n")?;
        }
    }
    Ok(text)
}

/// The name of a group.
fn put_name(text: &mut Vec<u8>, number: u64) -> Result<(), AllocError> {
    let word = WORDS.get((number % 8) as usize).copied();
    put(text, word.unwrap_or(""))?;
    put_numbered(text, "-", number)
}

/// Some properties of each group: with a table for each, or with their whole dotted names.
fn put_groups(text: &mut Vec<u8>, groups: u64, chance: &mut Chance) -> Result<(), AllocError> {
    for number in 0..groups.saturating_sub(1) {
        put(text, "[hystrix.command.")?;
        put_name(text, number)?;
        put(text, "]\n")?;
        put_properties(text, &OF_COMMANDS, chance)?;
        if chance.below(2) == 0 {
            put(text, "[hystrix.threadpool.")?;
            put_name(text, number)?;
            put(text, "]\n")?;
            put_properties(text, &OF_POOLS, chance)?;
        }
    }
    Ok(())
}

/// Puts about two in three of the properties, each on a line. The window goes with any of the numbers of buckets.
fn put_properties(
    text: &mut Vec<u8>,
    properties: &[(&str, &str)],
    chance: &mut Chance,
) -> Result<(), AllocError> {
    for (name, value) in properties {
        if chance.below(3) < 2 {
            put(text, *name)?;
            put(text, " = ")?;
            put(text, *value)?;
            put(
                text,
                if chance.below(8) == 0 {
                    "  # as agreed\n"
                } else {
                    "\n"
                },
            )?;
        }
    }
    Ok(())
}

/// Fifteen further commands of each group, each with a property of its own now and then.
fn put_commands(text: &mut Vec<u8>, groups: u64, chance: &mut Chance) -> Result<(), AllocError> {
    for number in 0..groups {
        for command in 0..15u64 {
            put(text, "command.")?;
            put_command_name(text, number, command)?;
            put(text, ".group = \"")?;
            put_name(text, number)?;
            put(text, "\"\n")?;
        }
    }
    put(text, "[hystrix.command]\n")?;
    for number in 0..groups {
        let command = chance.below(15);
        put_command_name(text, number, command)?;
        put(text, ".circuitBreaker.requestVolumeThreshold = ")?;
        put_number(text, chance.below(1_000))?;
        put(text, "\n")?;
    }
    Ok(())
}

/// The name of a further command: those of a group do not stand together in the order of names.
fn put_command_name(text: &mut Vec<u8>, number: u64, command: u64) -> Result<(), AllocError> {
    put_numbered(text, "c", command)?;
    put_numbered(text, "-of-", number)
}
