//! Random scripts of several groups, which come and go: the lines of some of them are answered by themselves as they were
//! among all others.

use crate::runs::{assert_bytes, assert_end};
use bh_commands::{cut_file, run_file};
use rand_core::{Rng, SeedableRng};
use rand_xoshiro::Xoshiro256PlusPlus;
use std::process::Abort;

/// Two groups, one of them with a further command, which trip, time out and fill at once.
const SETTINGS: &str = r#"service.groups = ["a", "b"]
service.slots.a = 3
service.slots.b = 5
service.command.r.group = "b"
hystrix.threadpool.b.coreSize = 1
hystrix.command.r.circuitBreaker.requestVolumeThreshold = 2
hystrix.command.a.circuitBreaker.requestVolumeThreshold = 2
hystrix.command.a.execution.isolation.strategy = "SEMAPHORE"
"#;

/// The names that lines say: those of the settings, and those of groups that lines register.
const NAMES: [&str; 5] = ["a", "b", "t1", "t2", "t3"];

/// What lines ask for, with a hole for the name, the moment and the ticket.
const SHAPES: [&str; 14] = [
    r#"{"op":"submit","group":"NAME","now":MOMENT,"arg":"x"}"#,
    r#"{"op":"submit","group":"NAME","now":MOMENT,"arg":"x","context":1,"key":"k"}"#,
    r#"{"op":"submit","group":"NAME","command":"r","now":MOMENT,"arg":"y"}"#,
    r#"{"op":"start","group":"NAME","now":MOMENT}"#,
    r#"{"op":"finish","group":"NAME","now":MOMENT,"ticket":TICKET,"body":"z"}"#,
    r#"{"op":"fail","group":"NAME","now":MOMENT,"ticket":TICKET,"bad":false}"#,
    r#"{"op":"expire","group":"NAME","now":MOMENT}"#,
    r#"{"op":"collect","group":"NAME","now":MOMENT,"ticket":TICKET}"#,
    r#"{"op":"fallback","group":"NAME","now":MOMENT,"ticket":TICKET,"end":"success","body":"w"}"#,
    r#"{"op":"close","group":"NAME","now":MOMENT,"context":1}"#,
    r#"{"op":"read","group":"NAME","now":MOMENT}"#,
    r#"{"op":"retire","group":"NAME"}"#,
    r#"{"op":"register","group":"NAME","like":"a"}"#,
    r#"{"op":"register","group":"NAME","like":"b"}"#,
];

/// So many scripts, and so many lines in each.
const SCRIPTS: u64 = 24;

const LINES: u64 = 300;

/// A number below the limit.
fn below(rng: &mut Xoshiro256PlusPlus, limit: u64) -> u64 {
    rng.next_u64() % limit.max(1)
}

/// One of the texts.
fn one_of<'a>(rng: &mut Xoshiro256PlusPlus, texts: &[&'a str]) -> &'a str {
    match texts.get(below(rng, texts.len() as u64) as usize) {
        Some(text) => text,
        None => "",
    }
}

/// A random line for the group of the name, with its line feed.
fn line_of<R: Abort + AllocGlobal>(
    rt: &R,
    rng: &mut Xoshiro256PlusPlus,
    name: &str,
    moment: u64,
) -> String {
    let moment = format!(in rt.alloc(); "{moment}").expect(rt, "memory");
    let ticket = below(rng, 6);
    let ticket = format!(in rt.alloc(); "{ticket}").expect(rt, "memory");
    let shape = one_of(rng, &SHAPES);
    let named = shape.replace(rt.alloc(), "NAME", name).expect(rt, "memory");
    let timed = named
        .as_str()
        .replace(rt.alloc(), "MOMENT", moment.as_str())
        .expect(rt, "memory");
    let mut line = timed
        .as_str()
        .replace(rt.alloc(), "TICKET", ticket.as_str())
        .expect(rt, "memory");
    line.push_str("\n").expect(rt, "memory");
    line
}

/// A script, and by line whether it is one of the groups that are cut out.
#[derive(Drop)]
struct Mixed {
    input: String,
    own: Vec<bool>,
    kept: String,
}

/// A random script of all groups.
fn mix<R: Abort + AllocGlobal>(rt: &R, rng: &mut Xoshiro256PlusPlus, names: &[&str]) -> Mixed {
    let mut mixed = Mixed {
        input: String::new(rt.alloc()),
        own: Vec::new(rt.alloc()),
        kept: String::new(rt.alloc()),
    };
    let mut moment = 0u64;
    for _ in 0..LINES {
        moment = moment.saturating_add(below(rng, 400));
        let name = one_of(rng, &NAMES);
        let line = line_of(rt, rng, name, moment);
        let is_own = names.contains(&name);
        mixed.input.push_str(line.as_str()).expect(rt, "memory");
        mixed.own.push(is_own).expect(rt, "memory");
        if is_own {
            mixed.kept.push_str(line.as_str()).expect(rt, "memory");
        }
    }
    mixed
}

/// The answers that a run gives to the lines.
fn answers_to<R: Abort + AllocGlobal>(rt: &R, input: &[u8]) -> Vec<u8> {
    let mut reader = input;
    let mut written = Vec::new(rt.alloc());
    let mut reported = Vec::new(rt.alloc());
    let answered = run_file(
        rt.alloc(),
        SETTINGS.as_bytes(),
        &mut reader,
        &mut written,
        &mut reported,
    );
    assert_end(rt, answered, 0);
    written
}

/// The answers to the lines that are cut out, of the answers to all.
fn own_answers<R: Abort + AllocGlobal>(rt: &R, answers: &Vec<u8>, own: &Vec<bool>) -> String {
    let mut picked = String::new(rt.alloc());
    let answers = std::str::from_utf8(answers.as_slice()).expect(rt, "UTF-8");
    for (answer, is_own) in answers.lines().zip(own.iter()) {
        if *is_own {
            picked.push_str(answer).expect(rt, "memory");
            picked.push_str("\n").expect(rt, "memory");
        }
    }
    picked
}

/// Cuts the groups out of a random script, and asserts that what is kept is answered as it was in the whole.
fn assert_alike<R: Abort + AllocGlobal>(rt: &R, rng: &mut Xoshiro256PlusPlus, names: &[&str]) {
    let mixed = mix(rt, rng, names);
    let whole = answers_to(rt, mixed.input.as_str().as_bytes());
    let mut reader: &[u8] = mixed.input.as_str().as_bytes();
    let mut written = Vec::new(rt.alloc());
    let mut reported = Vec::new(rt.alloc());
    let answered = cut_file(
        rt.alloc(),
        SETTINGS.as_bytes(),
        names,
        &mut reader,
        &mut written,
        &mut reported,
    );
    assert_end(rt, answered, 0);
    assert_bytes(rt, &written, mixed.kept.as_str(), "what is kept");
    let alone = answers_to(rt, written.as_slice());
    let own = own_answers(rt, &whole, &mixed.own);
    assert_bytes(rt, &alone, own.as_str(), "the answers to what is kept");
}

#[test]
fn what_is_kept_is_answered_as_among_all_others(rt: HostRuntime) {
    let mut rng = Xoshiro256PlusPlus::seed_from_u64(58);
    for _ in 0..SCRIPTS {
        assert_alike(&rt, &mut rng, &["t1"]);
        assert_alike(&rt, &mut rng, &["t2", "a"]);
        assert_alike(&rt, &mut rng, &["b", "t1", "t3"]);
    }
}
