//! A conversation of control lines with a service of many groups, whose callers run their requests.

use crate::chance::Chance;
use crate::digest::Digest;
use crate::writing::{put, put_number, put_numbered};
use bh_audit::{Book, Clock, Shared};
use bh_base::Moment;
use bh_control::converse;
use bh_port::script::open;
use bh_props::{Settings, settings_in};
use bh_serve::control::ServiceControl;
use bh_serve::echo::Echo;
use bh_serve::names::GroupNames;
use bh_streams::{WatchedReader, WatchedWriter};
use std::alloc::{AllocError, Global};
use std::cell::Cell;
use std::io::Read;
use std::sync::Wait;
use std::{io, rt};

/// So many lines are made at a time.
const PIECE: u64 = 100;

/// Arguments, as JSON writes them. The echo fails for some of them.
const ARGS: [&str; 8] = [
    "item 7",
    "order 2231 of customer 88114, two parcels, express",
    "fail",
    "x",
    "caf\\u00e9 au lait",
    "fail twice",
    "bad",
    "stra\u{df}e 12, \u{65e5}\u{672c}",
];

/// What is said in the conversation.
#[derive(Clone, Copy)]
pub struct Plan {
    pub groups: u64,
    pub lines: u64,
}

/// A clock that goes on by a millisecond each time that it is asked for the eighth time.
#[derive(Drop)]
struct Paced {
    asked: Cell<u64>,
}

impl Clock for Paced {
    ghost moments = { λ moment. Unit {0} };

    fn now(&self) -> Moment {
        let asked = self.asked.get();
        self.asked.set(asked.wrapping_add(1));
        asked / 8
    }
}

/// Has the conversation. None where it does not go as it should.
pub(crate) fn run<R: Wait + rt::Clock>(
    rt: &R,
    alloc: Global,
    plan: Plan,
    seed: u64,
    digest: &mut Digest,
) -> Option<()> {
    let text = settings_text(alloc, plan.groups).ok()?;
    let settings = settings_in(alloc, text.as_slice()).ok()?;
    let names = GroupNames::of(alloc, &settings).ok()?;
    let shared = service(alloc, &settings)?;
    let echo = Echo::new(rt);
    let clock = Paced {
        asked: Cell::new(0),
    };
    let mut control = ServiceControl::new(rt, alloc, &shared, &names, &echo, &clock);
    let mut talk = Talk::new(alloc, plan, seed);
    let mut reader = WatchedReader::new(&mut talk);
    let mut writer = WatchedWriter::new(digest);
    converse(alloc, &mut reader, &mut writer, &mut control).ok()
}

/// Makes the lines of the plan, and says none.
pub(crate) fn make_input(alloc: Global, plan: Plan, seed: u64, digest: &mut Digest) -> Option<()> {
    let text = settings_text(alloc, plan.groups).ok()?;
    digest.number(text.len() as u64);
    let mut talk = Talk::new(alloc, plan, seed);
    for _ in 0..(plan.lines / PIECE).saturating_add(1) {
        talk.refill().ok()?;
        digest.number(talk.piece.len() as u64);
    }
    Some(())
}

/// The service of the groups of the settings.
fn service(alloc: Global, settings: &Settings) -> Option<Shared> {
    let core = open(alloc, settings).ok()?;
    let book = Book::new(alloc, core, None).ok()?;
    Shared::new(alloc, book).ok()
}

/// The settings of so many groups, whose callers run their requests.
fn settings_text(alloc: Global, groups: u64) -> Result<Vec<u8>, AllocError> {
    let mut text = Vec::new(alloc);
    put(
        &mut text,
        "hystrix.command.default.execution.isolation.strategy = \"SEMAPHORE\"\n",
    )?;
    put(&mut text, "service.groups = [")?;
    for number in 0..groups {
        put(&mut text, if number == 0 { "\"" } else { ", \"" })?;
        put_numbered(&mut text, "group-", number)?;
        put(&mut text, "\"")?;
    }
    put(&mut text, "]\n")?;
    Ok(text)
}

/// A reader of control lines that are made as they are read.
#[derive(Drop)]
struct Talk {
    chance: Chance,
    plan: Plan,
    made: u64,
    piece: Vec<u8>,
    given: usize,
}

impl Talk {
    fn new(alloc: Global, plan: Plan, seed: u64) -> Talk {
        Talk {
            chance: Chance::new(seed),
            plan,
            made: 0,
            piece: Vec::new(alloc),
            given: 0,
        }
    }

    /// Makes further lines, unless all are made.
    fn refill(&mut self) -> Result<(), AllocError> {
        self.piece.clear();
        self.given = 0;
        for _ in 0..PIECE {
            if self.made >= self.plan.lines {
                return Ok(());
            }
            self.made += 1;
            let group = self.chance.below(self.plan.groups.max(1));
            self.put_lines(group)?;
        }
        Ok(())
    }

    /// Makes a line, or all of a context.
    fn put_lines(&mut self, group: u64) -> Result<(), AllocError> {
        match self.chance.below(1_024) {
            0 => put(&mut self.piece, "{\"op\":\"groups\"}\n"),
            1..=50 => {
                put_numbered(
                    &mut self.piece,
                    "{\"op\":\"metrics\",\"group\":\"group-",
                    group,
                )?;
                put(&mut self.piece, "\"}\n")
            }
            51..=60 => put(
                &mut self.piece,
                "{\"op\":\"call\",\"group\":\"nobody\",\"arg\":\"x\"}\n",
            ),
            61..=130 => self.put_context(group),
            _ => {
                self.put_call(group)?;
                put(&mut self.piece, "}\n")
            }
        }
    }

    /// Two calls for one answer, and the end of their context.
    fn put_context(&mut self, group: u64) -> Result<(), AllocError> {
        for _ in 0..2 {
            self.put_call(group)?;
            put_numbered(&mut self.piece, ",\"context\":", self.made)?;
            put(&mut self.piece, ",\"key\":\"price list\"}\n")?;
        }
        put_numbered(
            &mut self.piece,
            "{\"op\":\"close\",\"group\":\"group-",
            group,
        )?;
        put_numbered(&mut self.piece, "\",\"context\":", self.made)?;
        put(&mut self.piece, "}\n")
    }

    /// A call without the end of its line.
    fn put_call(&mut self, group: u64) -> Result<(), AllocError> {
        put_numbered(
            &mut self.piece,
            "{\"op\":\"call\",\"group\":\"group-",
            group,
        )?;
        put(&mut self.piece, "\",\"arg\":\"")?;
        if self.chance.below(4) == 0 {
            put(&mut self.piece, self.chance.one_of(&ARGS, ""))?;
        } else {
            put(&mut self.piece, "item ")?;
            put_number(&mut self.piece, self.made)?;
        }
        put(&mut self.piece, "\"")
    }
}

impl Read for Talk {
    fn read(&mut self, buf: &mut [u8]) -> io::Result<usize> {
        if self.given >= self.piece.len() {
            self.refill()?;
        }
        let mut rest = self.piece.as_slice().get(self.given..).unwrap_or(&[]);
        let count = rest.read(buf)?;
        self.given = self.given.saturating_add(count);
        Ok(count)
    }
}
