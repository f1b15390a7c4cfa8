//! Random steps of connections that come and go: each that was made is in the account, once and with its reply.

use crate::accounts::{account_of, is_refused, lender_of_two};
use crate::samples::leases_of;
use bh_base::{FallbackEnd, GroupId, Moment, Op, Reply, Step};
use bh_lease::{Lease, Leases};
use bh_lender::Lender;
use bh_scripts::samples::{own_request, text};
use rand_core::{Rng, SeedableRng};
use rand_xoshiro::Xoshiro256PlusPlus;
use std::process::Abort;

/// So many turns are made.
const TURNS: u64 = 30_000;

/// An operation on a ticket that a connection has. Now and then it has not the part that this is about.
fn on_ticket(rng: &mut Xoshiro256PlusPlus, lease: &Lease) -> Op {
    let serial = lease.serial;
    match rng.next_u64() % 4 {
        0 if lease.runs => Op::Fail { serial, bad: false },
        1 if lease.runs => Op::Finish {
            serial,
            body: text("body"),
        },
        2 if lease.falls_back => Op::FallbackDone {
            serial,
            end: FallbackEnd::Success(text("instead")),
        },
        _ => Op::Collect { serial },
    }
}

/// An operation on no ticket in particular. Now and then it is of a command that is missing.
fn on_group(rng: &mut Xoshiro256PlusPlus) -> Op {
    let context = rng.next_u64() % 2;
    match rng.next_u64() % 16 {
        0..=3 => Op::Submit(own_request(None, text("arg"))),
        4..=7 => Op::Submit(own_request(Some((context, text("key"))), text("arg"))),
        8..=12 => Op::Start,
        13 => Op::Close { context },
        14 => Op::Read { command: 0 },
        _ => Op::Read { command: 1 },
    }
}

/// A step of the connection. Now and then it is of a group that is missing.
fn random_step(rng: &mut Xoshiro256PlusPlus, leases: &Leases, now: Moment) -> Step {
    let place = rng.next_u64() % 6;
    if let Some(lease) = leases.as_slice().get(place as usize) {
        let group = lease.group;
        let op = on_ticket(rng, lease);
        return Step { group, now, op };
    }
    let group = match rng.next_u64() % 20 {
        0 => GroupId(2),
        number => GroupId(number % 2),
    };
    let op = on_group(rng);
    Step { group, now, op }
}

/// Makes turns: steps of the connections, of the timer, and ends of connections in whose places others come. How many steps
/// of the connections were refused by the groups.
fn make_turns<R: Abort>(rt: &R, lender: &mut Lender, connections: &mut Vec<Leases>) -> u64 {
    let mut rng = Xoshiro256PlusPlus::seed_from_u64(23);
    let mut refused = 0u64;
    for turn in 0..TURNS {
        let now = turn / 4;
        let place = rng.next_u64() % 5;
        let leases = connections
            .get_mut(place as usize)
            .expect(rt, "a connection");
        match rng.next_u64() % 50 {
            0 => lender.give_back(leases, now).expect(rt, "memory"),
            1..=4 => {
                let _due = lender.expire_due(GroupId(place % 2), now);
            }
            _ => {
                let step = random_step(&mut rng, leases, now);
                let mut reply = Reply::Idle;
                if lender.step(leases, &step, &mut reply).is_ok() && is_refused(&reply) {
                    refused = refused.saturating_add(1);
                }
            }
        }
    }
    refused
}

#[test]
fn an_account_has_each_of_many_steps(rt: HostRuntime) {
    let mut lender = lender_of_two(&rt, true);
    let mut connections = Vec::new(rt.alloc());
    for _ in 0..5 {
        connections.push(leases_of(&rt, 6)).expect(&rt, "memory");
    }
    let refused = make_turns(&rt, &mut lender, &mut connections);
    let (journals, made) = account_of(&rt, lender);
    let mut entries = 0u64;
    for journal in &journals {
        entries = entries.saturating_add(journal.len());
    }
    assert!(&rt; refused > 200 && entries > 20_000, "{refused} {entries}");
    assert!(&rt; entries.saturating_add(refused) == made as u64, "{made}");
}
