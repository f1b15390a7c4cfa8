//! Busy groups: thousands of tickets each, in sixteen commands, by calls of `Core::apply_to`.
//!
//! A request context asks ten times for one answer, of which nine requests share the first one's ticket; its run ends
//! while some 1,500 further contexts are open, and the context itself ends while its answer lies in a cache of some
//! thousands. Now and then tickets expire, and metrics are read.

use crate::chance::Chance;
use crate::digest::Digest;
use crate::reply::add_reply;
use crate::writing::{put, put_numbered};
use bh_base::{FallbackEnd, GroupId, Op, Reply, Request, Text};
use bh_core::Core;
use bh_port::script::open;
use bh_props::settings_in;
use std::alloc::{AllocError, Global};

const GROUPS: u64 = 4;

/// The group in which many requests share a context.
const LAST: u64 = 3;

/// So many contexts of a group are open at a time, and after half as many the run of one ends.
const WINDOW: u64 = 3_000;

/// So many requests of a context ask for one answer.
const SHARERS: u64 = 10;

/// The service, and the clients of its groups.
#[derive(Drop)]
struct Busy<'d> {
    core: Core,
    chance: Chance,
    digest: &'d mut Digest,
    reply: Reply,
    /// The ticket of each of the contexts that are open, group by group.
    tickets: Vec<u64>,
}

/// Makes so many contexts in each group. None where it does not go as it should.
pub(crate) fn run(alloc: Global, rounds: u64, seed: u64, digest: &mut Digest) -> Option<()> {
    let text = settings_text(alloc).ok()?;
    let settings = settings_in(alloc, text.as_slice()).ok()?;
    let mut busy = Busy {
        core: open(alloc, &settings).ok()?,
        chance: Chance::new(seed),
        digest,
        reply: Reply::NoGroup,
        tickets: vec![in alloc; 0; (GROUPS * WINDOW) as usize].ok()?,
    };
    for round in 0..rounds {
        for group in 0..GROUPS {
            busy.make_round(group, round)?;
        }
    }
    Some(())
}

impl Busy<'_> {
    /// A context begins, the run of an older one ends, and one still older is over.
    fn make_round(&mut self, group: u64, round: u64) -> Option<()> {
        let now = (round / 4).saturating_add(1_000);
        self.begin(group, round, now)?;
        if let Some(older) = round.checked_sub(WINDOW / 2) {
            self.end(group, older, now)?;
        }
        if let Some(oldest) = round.checked_sub(WINDOW - 1) {
            let context = context_of(group, oldest);
            if context != context_of(group, oldest.saturating_add(1)) {
                self.step(group, now, &Op::Close { context });
            }
        }
        if round % 16 == 15 {
            self.step(group, now, &Op::Expire);
        }
        if round % 32 == 31 {
            let command = self.chance.below(16) as u8;
            self.step(group, now, &Op::Read { command });
        }
        Some(())
    }

    /// The requests of a context.
    fn begin(&mut self, group: u64, round: u64, now: u64) -> Option<()> {
        let number = self.chance.below(90_000);
        let op = Op::Submit(Request {
            command: (round % 16) as u8,
            cache: Some((
                context_of(group, round),
                text_of("customer ", round % 1_000)?,
            )),
            arg: text_of("order of two parcels, express, ", number)?,
        });
        for _ in 0..SHARERS {
            self.step(group, now, &op);
            let serial = match &self.reply {
                Reply::Queued(serial) | Reply::Inline(serial) => *serial,
                Reply::FallbackDue { serial, .. } => *serial,
                _ => continue,
            };
            let place = place_of(group, round);
            if let Some(ticket) = self.tickets.get_mut(place) {
                *ticket = serial;
            }
        }
        Some(())
    }

    /// The run of a context's ticket ends, and its answer is collected.
    fn end(&mut self, group: u64, round: u64, now: u64) -> Option<()> {
        let place = place_of(group, round);
        let serial = *self.tickets.get(place)?;
        if round % 2 == 0 {
            self.step(group, now, &Op::Start);
        }
        let op = if self.chance.below(16) == 0 {
            Op::Fail { serial, bad: false }
        } else {
            Op::Finish {
                serial,
                body: text_of("packed, and leaves by the evening train as parcel ", serial)?,
            }
        };
        self.step(group, now, &op);
        for _ in 0..SHARERS {
            self.step(group, now, &Op::Collect { serial });
            if let Reply::RunFallback(_) = &self.reply {
                let end = FallbackEnd::Success(text_of("try again later, ", serial)?);
                self.step(group, now, &Op::FallbackDone { serial, end });
                self.step(group, now, &Op::Collect { serial });
            }
        }
        Some(())
    }

    fn step(&mut self, group: u64, now: u64, op: &Op) {
        self.core.apply_to(GroupId(group), now, op, &mut self.reply);
        add_reply(self.digest, &self.reply);
    }
}

/// The context of the round: in the last group 64 of them are one.
fn context_of(group: u64, round: u64) -> u64 {
    if group == LAST { round / 64 } else { round }
}

/// Where the ticket of the round's context is kept.
fn place_of(group: u64, round: u64) -> usize {
    group.saturating_mul(WINDOW).saturating_add(round % WINDOW) as usize
}

/// A text with a number behind it.
fn text_of<const N: usize>(text: &str, number: u64) -> Option<Text<N>> {
    let mut buffer = [0u8; 64];
    let mut digits = itoa::Buffer::new();
    let mut length = 0usize;
    for byte in text.bytes().chain(digits.format(number).bytes()) {
        *buffer.get_mut(length)? = byte;
        length = length.saturating_add(1);
    }
    let bytes = buffer.get(..length)?;
    Text::new(std::str::from_utf8(bytes).ok()?).ok()
}

/// Groups of 4,096 slots and sixteen commands, every other one of which is run by its callers; some time out early, and
/// some look at their health at each submit.
fn settings_text(alloc: Global) -> Result<Vec<u8>, AllocError> {
    let mut text = Vec::new(alloc);
    put(
        &mut text,
        "service.groups = [\"group-0\", \"group-1\", \"group-2\", \"group-3\"]\n",
    )?;
    put(&mut text, "service.slots.default = 4096\n")?;
    put(&mut text, "hystrix.threadpool.default.coreSize = 64\n")?;
    put(
        &mut text,
        "hystrix.threadpool.default.maxQueueSize = 4096\n",
    )?;
    put(
        &mut text,
        "hystrix.threadpool.default.queueSizeRejectionThreshold = 4096\n",
    )?;
    put(
        &mut text,
        "hystrix.command.default.execution.isolation.semaphore.maxConcurrentRequests = 4096\n",
    )?;
    put(
        &mut text,
        "hystrix.command.default.fallback.isolation.semaphore.maxConcurrentRequests = 4096\n",
    )?;
    for group in 0..GROUPS {
        for command in 1..16 {
            put_command(&mut text, group, command)?;
        }
    }
    Ok(text)
}

/// What a further command has of its own. The numbers of further commands are those of the order of their names.
fn put_command(text: &mut Vec<u8>, group: u64, command: u64) -> Result<(), AllocError> {
    let number = command.saturating_add(100);
    put_numbered(text, "service.command.c-", group)?;
    put_numbered(text, "-", number)?;
    put_numbered(text, ".group = \"group-", group)?;
    put(text, "\"\n")?;
    if command % 2 == 1 {
        put_own(
            text,
            group,
            number,
            ".execution.isolation.strategy = \"SEMAPHORE\"\n",
        )?;
    }
    if command == 5 {
        put_own(
            text,
            group,
            number,
            ".execution.isolation.thread.timeoutInMilliseconds = 200\n",
        )?;
    }
    if command % 4 == 2 {
        put_own(
            text,
            group,
            number,
            ".metrics.healthSnapshot.intervalInMilliseconds = 0\n",
        )?;
        put_own(
            text,
            group,
            number,
            ".metrics.rollingStats.numBuckets = 50\n",
        )?;
    }
    Ok(())
}

/// Puts a property of a command.
fn put_own(text: &mut Vec<u8>, group: u64, number: u64, rest: &str) -> Result<(), AllocError> {
    put_numbered(text, "hystrix.command.c-", group)?;
    put_numbered(text, "-", number)?;
    put(text, rest)
}
