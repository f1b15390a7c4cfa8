//! Audited services: steps of many passes, and the account of them all at the end.

ghost use Rattle.std.specs.Prelude.{◌≤◌, ◌^◌};

use crate::chance::Chance;
use crate::digest::Digest;
use crate::reply::add_reply;
use bh_audit::{AuditReport, Book, Pass, Shared};
use bh_base::{GroupId, Op, Reply, Request, Step, Text};
use bh_core::Core;
use bh_props::{Settings, settings_in};
use std::alloc::Global;
use std::sync::Wait;

/// Passes of each group.
const PASSES: u64 = 6;

/// Each request is five steps.
const STEPS: u64 = 5;

const SETTINGS: &str =
    "service.groups = [\"a\", \"b\", \"c\", \"d\", \"e\", \"f\", \"g\", \"h\", \"i\", \"j\", \"k\", \"l\", \"m\", \"n\", \"o\", \"p\"]";

/// Has so many services in turn, each with so many requests for each pass. None where it does not go as it should.
pub(crate) fn run<R: Wait>(
    rt: &R,
    alloc: Global,
    services: u64,
    requests: u64,
    seed: u64,
    digest: &mut Digest,
) -> Option<()> {
    let settings = settings_in(alloc, SETTINGS.as_bytes()).ok()?;
    let mut chance = Chance::new(seed);
    for _ in 0..services {
        serve(
            rt,
            alloc,
            &settings,
            requests.min(1_000),
            &mut chance,
            digest,
        )?;
    }
    Some(())
}

/// One service: its requests, and its account.
fn serve<R: Wait>(
    rt: &R,
    alloc: Global,
    settings: &Settings,
    requests: u64,
    chance: &mut Chance,
    digest: &mut Digest,
) -> Option<()> {
    let steps = requests.saturating_mul(STEPS);
    let limit = steps.saturating_mul(2 * PASSES).saturating_add(1);
    let shared = open(rt, alloc, settings, limit)?;
    let mut passes = Vec::new(alloc);
    for number in 0..(settings.groups.len() as u64).saturating_mul(PASSES) {
        let group = GroupId(number / PASSES);
        passes
            .push(shared.blank_pass(alloc, group, steps).ok()?)
            .ok()?;
    }
    for request in 0..requests {
        for pass in passes.iter_mut() {
            make_request(rt, &shared, pass, request, chance, digest)?;
        }
    }
    add_report(digest, &shared.finish(alloc, passes).ok()?);
    Some(())
}

/// An audited service of the groups of the settings, each of which may do so many steps.
fn open<R: Wait>(rt: &R, alloc: Global, settings: &Settings, limit: u64) -> Option<Shared> {
    if limit < 1 || limit > 1_000_000 {
        return None;
    }
    let book = Book::new(alloc, Core::new(alloc, u32::MAX), Some(limit)).ok()?;
    let shared = Shared::new(alloc, book).ok()?;
    register_all(rt, alloc, &shared, settings, limit)?;
    Some(shared)
}

/// Registers the groups of the settings, each of which may do so many steps.
fn register_all<R: Wait>(
    rt: &R,
    alloc: Global,
    shared: &Shared,
    settings: &Settings,
    limit: u64,
) -> Option<()>
    requires some { 1 ≤ limit }
    requires few { limit ≤ 2 ^ 40 }
{
    for (_name, props) in settings.groups.iter() {
        shared.register(rt, alloc, props, limit).ok()?;
    }
    Some(())
}

/// The steps of a request, from its submit until its answer is collected.
fn make_request<R: Wait>(
    rt: &R,
    shared: &Shared,
    pass: &mut Pass,
    request: u64,
    chance: &mut Chance,
    digest: &mut Digest,
) -> Option<()> {
    let mut step = Step {
        group: pass.group(),
        now: request.saturating_mul(4),
        op: Op::Submit(Request {
            command: 0,
            cache: None,
            arg: Text::new("order of two parcels, express").ok()?,
        }),
    };
    let mut reply = Reply::NoGroup;
    shared.step_to(rt, pass, &step, &mut reply).ok()?;
    let Reply::Queued(serial) = reply else {
        return None;
    };
    let end = if chance.below(16) == 0 {
        Op::Fail { serial, bad: true }
    } else {
        Op::Finish {
            serial,
            body: Text::new("packed, and leaves by the evening train").ok()?,
        }
    };
    for op in [
        Op::Start,
        end,
        Op::Collect { serial },
        Op::Read { command: 0 },
    ] {
        step.op = op;
        shared.step_to(rt, pass, &step, &mut reply).ok()?;
        add_reply(digest, &reply);
    }
    Some(())
}

/// Adds each entry of each journal.
fn add_report(digest: &mut Digest, report: &AuditReport) {
    for journal in report.journals.iter() {
        digest.number(journal.len() as u64);
        for (step, reply) in journal.iter() {
            digest.number(step.now);
            add_reply(digest, reply);
        }
    }
}
