//! Each name and each serial of a group whose slots are all taken is found as a walk over all tickets finds it.

ghost use Rattle.bh_base.specs.Ranges.{IsInRange};

use crate::samples::props_with;
use crate::script::assert_number;
use bh_base::{CommandProps, GroupProps, Op, Reply, Serial, Text};
use bh_core::Core;
use bh_scripts::samples::{command, own_request, step, text};
use std::process::Abort;

/// How many slots the group has, and how many names there are.
const TICKETS: u64 = 4096;

/// The name of a cached ticket: a context and a key, which has a number.
#[derive(Clone, Copy)]
struct Name {
    context: u64,
    number: u64,
    key: Text<32>,
}

/// A group whose tickets never run, and have no fallback: each collect of a ticket that is held is answered.
fn never_running<R: Abort + AllocGlobal>(rt: &R) -> GroupProps
    ensures { IsInRange result }
{
    let command = CommandProps {
        force_open: true,
        fallback_on: false,
        ..command()
    };
    GroupProps {
        slots: 4096,
        ..props_with(rt, command)
    }
}

/// All names of so many contexts and keys.
fn names<R: Abort + AllocGlobal>(rt: &R, contexts: u64, keys: u64) -> Vec<Name> {
    let mut names = Vec::new(rt.alloc());
    for context in 0..contexts {
        for number in 0..keys {
            let key = format!(in rt.alloc(); "key-{number}").expect(rt, "memory");
            let key = Text::new(key.as_str()).expect(rt, "a short text");
            let name = Name {
                context,
                number,
                key,
            };
            names.push(name).expect(rt, "memory");
        }
    }
    names
}

/// The serial of the name's ticket by a walk over all names, which have had their tickets one after the other.
fn walk(names: &[Name], name: &Name) -> Option<Serial> {
    let is_same = |other: &Name| other.context == name.context && other.number == name.number;
    let place = names.iter().position(is_same)?;
    (place as u64).checked_add(1)
}

/// What the group is told for a request of the name.
fn ask(core: &mut Core, name: &Name) -> Reply {
    let request = own_request(Some((name.context, name.key)), text("x"));
    core.apply(step(0, 0, &Op::Submit(request)))
}

/// Asserts that a request of each name gets a ticket of its own, from the serial `first` on.
fn assert_made<R: Abort>(rt: &R, core: &mut Core, names: &[Name], first: Serial) {
    let mut next = first;
    for name in names {
        let made = match ask(core, name) {
            Reply::FallbackDue { serial, .. } => serial,
            _ => 0,
        };
        assert_number(rt, made, next);
        next = next.saturating_add(1);
    }
}

/// Asserts that a request of each name joins the ticket that a walk finds for it.
fn assert_joined<R: Abort>(rt: &R, core: &mut Core, names: &[Name]) {
    for name in names {
        let joined = match ask(core, name) {
            Reply::Joined(serial) => Some(serial),
            _ => None,
        };
        assert_eq!(rt; joined, walk(names, name));
    }
}

/// Asserts that each of the serials up to that of the last ticket gives an answer once, and the next one none.
fn assert_collected<R: Abort>(rt: &R, core: &mut Core) {
    for serial in 1..TICKETS + 1 {
        let told = core.apply(step(0, 0, &Op::Collect { serial }));
        assert!(rt; matches!(told, Reply::Answered(_)), "{serial}");
    }
    assert_no_ticket(rt, core, TICKETS + 1);
}

/// Asserts that nobody holds a ticket of those serials.
fn assert_none_held<R: Abort>(rt: &R, core: &mut Core) {
    for serial in 1..TICKETS + 1 {
        assert_no_ticket(rt, core, serial);
    }
}

fn assert_no_ticket<R: Abort>(rt: &R, core: &mut Core, serial: Serial) {
    let told = core.apply(step(0, 0, &Op::Collect { serial }));
    assert!(rt; told == Reply::NoTicket, "{serial}");
}

/// Ends so many contexts. The number of tickets that are cached no longer.
fn close_all(core: &mut Core, contexts: u64) -> u64 {
    let mut closed = 0_u64;
    for context in 0..contexts {
        if let Reply::Closed(count) = core.apply(step(0, 0, &Op::Close { context })) {
            closed = closed.saturating_add(count);
        }
    }
    closed
}

/// Asserts it for the names of so many contexts and keys.
fn assert_chains<R: Abort + AllocGlobal>(rt: &R, contexts: u64, keys: u64) {
    let names = names(rt, contexts, keys);
    let mut core = Core::new(rt.alloc(), 4096);
    core.register(&never_running(rt), 1 << 40)
        .expect(rt, "memory");
    assert_made(rt, &mut core, names.as_slice(), 1);
    assert_collected(rt, &mut core);
    // Nobody holds a ticket now, but each is cached.
    assert_none_held(rt, &mut core);
    assert_joined(rt, &mut core, names.as_slice());
    assert_collected(rt, &mut core);
    assert_number(rt, close_all(&mut core, contexts), TICKETS);
    assert_none_held(rt, &mut core);
    assert_made(rt, &mut core, names.as_slice(), TICKETS + 1);
}

#[test]
fn chains_equal_walk(rt: HostRuntime) {
    assert_chains(&rt, 1024, 4);
}

#[test]
fn chains_equal_walk_in_few_contexts(rt: HostRuntime) {
    assert_chains(&rt, 4, 1024);
}
