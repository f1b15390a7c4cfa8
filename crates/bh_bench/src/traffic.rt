//! Lines of a script, as clients of many groups send them.

use crate::chance::Chance;
use crate::client::{Act, Client, is_cached};
use crate::digest::Digest;
use crate::writing::{put, put_number, put_numbered};
use std::alloc::{AllocError, Global};
use std::io;
use std::io::Read;

/// So many lines are made at a time.
const PIECE: u64 = 600;

/// How many groups may be registered in all.
const MOST_GROUPS: u64 = 10_000;

/// Arguments and bodies, as JSON writes them.
const TEXTS: [&str; 8] = [
    "item 7 ",
    "order of customer 88114, two parcels, express ",
    "x",
    "caf\\u00e9 au lait, table ",
    "stra\u{df}e 12, \u{65e5}\u{672c} ",
    "a \\\"quoted\\\" name, and a\\ttab ",
    "invoice ",
    "lamp, 40 W, warm white, box of ",
];

const KEYS: [&str; 4] = ["customer", "price list", "stock of warehouse", "k"];

/// Lines at fault.
const FAULTS: [&str; 6] = [
    "{\"op\":\"submit\",\"group\":\"nobody\",\"now\":12,\"arg\":\"x\"}\n",
    "{\"op\":\"submit\",\"group\":\"group-0\",\"now\":12}\n",
    "{\"op\":\"halt\",\"group\":\"group-0\",\"now\":12}\n",
    "{\"op\":\"collect\",\"group\":\"group-0\",\"now\":\"12\",\"ticket\":3}\n",
    "{\"op\":\"start\",\"group\":\"group-0\",\"no\n",
    "{\"op\":\"submit\",\"group\":\"group-0\",\"now\":12,\"command\":\"none\",\"arg\":{\"a\":[1,2]}}\n",
];

/// What traffic there is.
#[derive(Clone, Copy)]
pub struct Plan {
    /// The groups of the settings.
    pub groups: u64,
    /// The tenants at a time, each a group that lines register and retire.
    pub tenants: u64,
    pub lines: u64,
    /// How many lines come in a millisecond.
    pub pace: u64,
}

/// A reader of lines that are made as they are read.
#[derive(Drop)]
pub struct Traffic {
    chance: Chance,
    plan: Plan,
    clients: Vec<Client>,
    /// How many groups were registered.
    registered: u64,
    made: u64,
    piece: Vec<u8>,
    given: usize,
}

impl Traffic {
    /// The traffic of the plan for the seed.
    pub(crate) fn new(alloc: Global, plan: Plan, seed: u64) -> Result<Traffic, AllocError> {
        let mut clients = Vec::new(alloc);
        for number in 0..plan.groups {
            clients.push(Client::of_group(number))?;
        }
        for _ in 0..plan.tenants {
            clients.push(Client::of_tenant())?;
        }
        Ok(Traffic {
            chance: Chance::new(seed),
            plan,
            clients,
            registered: plan.groups,
            made: 0,
            piece: Vec::new(alloc),
            given: 0,
        })
    }

    /// Makes further lines, unless all are made.
    fn refill(&mut self) -> Result<(), AllocError> {
        self.piece.clear();
        self.given = 0;
        for _ in 0..PIECE {
            if self.made >= self.plan.lines {
                return Ok(());
            }
            self.made += 1;
            self.put_line()?;
        }
        Ok(())
    }

    /// Makes all lines, and adds how long they are.
    pub(crate) fn make_all(&mut self, digest: &mut Digest) -> Result<(), AllocError> {
        for _ in 0..(self.plan.lines / PIECE).saturating_add(1) {
            self.refill()?;
            digest.number(self.piece.len() as u64);
        }
        Ok(())
    }

    /// Makes a line.
    fn put_line(&mut self) -> Result<(), AllocError> {
        if self.chance.below(128) == 0 {
            return put(&mut self.piece, self.chance.one_of(&FAULTS, ""));
        }
        let place = self.chance.below((self.clients.len() as u64).max(1));
        let Some(client) = self.clients.get_mut(place as usize) else {
            return Ok(());
        };
        let act = if client.is_gone() {
            let number = self.registered;
            self.registered = number.saturating_add(1);
            client.come(number, number % self.plan.groups.max(1) % 4 == 3)
        } else {
            client.act(&mut self.chance, self.registered < MOST_GROUPS)
        };
        let now = 1_700_000_000_000 + self.made / self.plan.pace.max(1) % 1_000_000_000;
        let line = Line {
            client: *client,
            act,
            now,
            like: client.number % self.plan.groups.max(1),
        };
        line.put(&mut self.piece, self.chance.below(4) == 0)
    }
}

impl Read for Traffic {
    fn read(&mut self, buf: &mut [u8]) -> io::Result<usize> {
        if self.given >= self.piece.len() {
            self.refill()?;
        }
        let mut rest = self.piece.as_slice().get(self.given..).unwrap_or(&[]);
        let count = rest.read(buf)?;
        self.given = self.given.saturating_add(count);
        Ok(count)
    }
}

/// A line before it is written.
#[derive(Clone, Copy)]
struct Line {
    client: Client,
    act: Act,
    now: u64,
    /// The group of the settings that a new one is like.
    like: u64,
}

impl Line {
    /// Puts the line behind the bytes, with its members in the usual order or another one.
    fn put(&self, out: &mut Vec<u8>, is_unusual: bool) -> Result<(), AllocError> {
        put(out, "{")?;
        if is_unusual {
            put_numbered(out, "\"now\":", self.now)?;
            self.put_members(out)?;
            put(out, ",")?;
            self.put_group(out)?;
            put(out, ",\"op\":\"")?;
            put(out, word_of(&self.act))?;
            return put(out, "\"}\n");
        }
        put(out, "\"op\":\"")?;
        put(out, word_of(&self.act))?;
        put(out, "\",")?;
        self.put_group(out)?;
        put_numbered(out, ",\"now\":", self.now)?;
        self.put_members(out)?;
        put(out, "}\n")
    }

    fn put_group(&self, out: &mut Vec<u8>) -> Result<(), AllocError> {
        put(out, "\"group\":\"")?;
        self.put_name(out)?;
        put(out, "\"")
    }

    fn put_name(&self, out: &mut Vec<u8>) -> Result<(), AllocError> {
        let kind = if self.client.is_tenant {
            "tenant-"
        } else {
            "group-"
        };
        put_numbered(out, kind, self.client.number)
    }

    /// What the line says beside its word, its group and its moment.
    fn put_members(&self, out: &mut Vec<u8>) -> Result<(), AllocError> {
        match self.act {
            Act::Register => {
                put_numbered(out, ",\"like\":\"group-", self.like)?;
                put(out, "\"")
            }
            Act::Submit(ticket) => self.put_request(out, ticket),
            Act::Finish(ticket) => {
                put_numbered(out, ",\"ticket\":", ticket)?;
                put_text(out, ",\"body\":\"", ticket / 2)
            }
            Act::Fail { ticket, bad } => {
                put_numbered(out, ",\"ticket\":", ticket)?;
                put(
                    out,
                    if bad {
                        ",\"bad\":true"
                    } else {
                        ",\"bad\":false"
                    },
                )
            }
            Act::Collect(ticket) => put_numbered(out, ",\"ticket\":", ticket),
            Act::Fallback(ticket) => {
                put_numbered(out, ",\"ticket\":", ticket)?;
                put_text(out, ",\"end\":\"success\",\"body\":\"", ticket)
            }
            Act::Close(context) => put_numbered(out, ",\"context\":", context),
            Act::Read => self.put_command(out, self.now),
            Act::Retire | Act::Start | Act::Expire => Ok(()),
        }
    }

    fn put_request(&self, out: &mut Vec<u8>, ticket: u64) -> Result<(), AllocError> {
        put_text(out, ",\"arg\":\"", ticket)?;
        if is_cached(ticket) {
            put_numbered(out, ",\"context\":", ticket)?;
            put(out, ",\"key\":\"")?;
            let key = KEYS.get((ticket / 4 % 4) as usize).copied();
            put_numbered(out, key.unwrap_or(""), ticket % 1_000)?;
            put(out, "\"")?;
        }
        self.put_command(out, ticket)
    }

    /// One request in three is of the further command, where the group has one.
    fn put_command(&self, out: &mut Vec<u8>, number: u64) -> Result<(), AllocError> {
        if self.client.is_tenant || self.client.number % 4 != 1 || number % 3 != 2 {
            return Ok(());
        }
        put_numbered(out, ",\"command\":\"group-", self.client.number)?;
        put(out, "-b\"")
    }
}

/// Puts a member with a text of the number.
fn put_text(out: &mut Vec<u8>, member: &str, number: u64) -> Result<(), AllocError> {
    put(out, member)?;
    let text = TEXTS.get((number % 8) as usize).copied();
    put(out, text.unwrap_or(""))?;
    put_number(out, number % 100_000)?;
    put(out, "\"")
}

fn word_of(act: &Act) -> &'static str {
    match act {
        Act::Register => "register",
        Act::Retire => "retire",
        Act::Submit(_) => "submit",
        Act::Start => "start",
        Act::Finish(_) => "finish",
        Act::Fail { .. } => "fail",
        Act::Collect(_) => "collect",
        Act::Fallback(_) => "fallback",
        Act::Close(_) => "close",
        Act::Read => "read",
        Act::Expire => "expire",
    }
}
