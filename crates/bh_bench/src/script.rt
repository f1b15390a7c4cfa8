//! A script: lines of clients, answered as `bulkhead run` answers them.

use crate::digest::Digest;
use crate::traffic::{Plan, Traffic};
use crate::writing::{put, put_numbered};
use bh_port::script::script;
use bh_props::settings_in;
use bh_streams::{WatchedReader, WatchedWriter};
use std::alloc::{AllocError, Global};

/// Answers the lines of the plan. None where it does not go as it should.
pub(crate) fn run(alloc: Global, plan: Plan, seed: u64, digest: &mut Digest) -> Option<()> {
    let text = settings_text(alloc, plan.groups).ok()?;
    let settings = settings_in(alloc, text.as_slice()).ok()?;
    let mut traffic = Traffic::new(alloc, plan, seed).ok()?;
    let mut reader = WatchedReader::new(&mut traffic);
    let mut writer = WatchedWriter::new(digest);
    script(alloc, &mut reader, &mut writer, &settings).ok()
}

/// Makes the lines of the plan, and answers none.
pub(crate) fn make_input(alloc: Global, plan: Plan, seed: u64, digest: &mut Digest) -> Option<()> {
    let text = settings_text(alloc, plan.groups).ok()?;
    digest.number(text.len() as u64);
    let mut traffic = Traffic::new(alloc, plan, seed).ok()?;
    traffic.make_all(digest).ok()
}

/// The settings of so many groups. Of four, one has a further command, and in one the callers run their requests.
fn settings_text(alloc: Global, groups: u64) -> Result<Vec<u8>, AllocError> {
    let mut text = Vec::new(alloc);
    put(&mut text, "service.groups = [")?;
    for number in 0..groups {
        put(
            &mut text,
            if number == 0 {
                "\"group-"
            } else {
                ", \"group-"
            },
        )?;
        put_numbered(&mut text, "", number)?;
        put(&mut text, "\"")?;
    }
    put(&mut text, "]\n")?;
    for number in 0..groups {
        put_own(&mut text, number)?;
    }
    Ok(text)
}

/// What one group has of its own.
fn put_own(text: &mut Vec<u8>, number: u64) -> Result<(), AllocError> {
    match number % 4 {
        1 => {
            put_numbered(text, "service.command.group-", number)?;
            put_numbered(text, "-b.group = \"group-", number)?;
            put(text, "\"\n")
        }
        3 => {
            put_numbered(text, "hystrix.command.group-", number)?;
            put(text, ".execution.isolation.strategy = \"SEMAPHORE\"\n")
        }
        _ => Ok(()),
    }
}
