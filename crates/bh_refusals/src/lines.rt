//! Scripts, cuts and conversations.

ghost use Rattle.std.specs.Prelude.{◌≡◌, []};
ghost use Rattle.bh_lines.specs.Names.{command_number, is_own_name};

use crate::refusing::{assert_told, give_up};
use bh_base::{Answer, CallError, GroupId, Reply, Request, Text, Tuning};
use bh_control::{Control, Conversation};
use bh_cut::cut_groups;
use bh_in_force::InForce;
use bh_lines::PortError;
use bh_port::script::script;
use bh_props::{Settings, read};
use bh_scripts::refusing::{MANY, refuse};
use bh_scripts::samples::{command, text};
use bh_streams::{WatchedReader, WatchedWriter};
use std::alloc::{AllocError, Global};
use std::process::Abort;

/// Each line with its answer.
const CACHE: &str =
    r#"{"op":"submit","group":"a","now":0,"arg":"x","context":7,"key":"k"} -> {"reply":"queued","ticket":1}
{"op":"submit","group":"a","now":0,"arg":"x","context":7,"key":"k"} -> {"reply":"joined","ticket":1}
{"op":"submit","group":"a","now":0,"arg":"x","context":8,"key":"k"} -> {"reply":"queued","ticket":2}
{"op":"start","group":"a","now":1} -> {"arg":"x","reply":"assigned","ticket":1}
{"op":"finish","group":"a","now":2,"ticket":1,"body":"r"} -> {"reply":"done"}
{"op":"collect","group":"a","now":3,"ticket":1} -> {"body":"r","reply":"value"}
{"op":"collect","group":"a","now":3,"ticket":1} -> {"body":"r","reply":"value"}
{"op":"collect","group":"a","now":3,"ticket":1} -> {"reply":"no-ticket"}
{"op":"submit","group":"a","now":4,"arg":"x","context":7,"key":"k"} -> {"reply":"joined","ticket":1}
{"op":"collect","group":"a","now":4,"ticket":1} -> {"body":"r","reply":"value"}
{"op":"close","group":"a","now":5,"context":7} -> {"released":1,"reply":"closed"}
{"op":"close","group":"a","now":5,"context":7} -> {"released":0,"reply":"closed"}
{"op":"submit","group":"a","now":6,"arg":"x","context":7,"key":"k"} -> {"reply":"queued","ticket":3}
{"op":"read","group":"a","now":6} -> {"busy":0,"circuit":"closed","errors":0,"events":{"RESPONSE_FROM_CACHE":2,"SUCCESS":1},"free":62,"percent":0,"queued":2,"reply":"metrics","total":1}
{"op":"start","group":"a","now":6,"more":{"is read":["as",{"a":"tree"}]}} -> {"arg":"x","reply":"assigned","ticket":2}
{"op":"jump","group":"a","now":6} -> {"error":"op"}"#;

/// The lines that are asked, and their answers.
fn both_sides(alloc: Global, lines: &str) -> Result<(String, String), AllocError> {
    let mut asked = String::new(alloc);
    let mut told = String::new(alloc);
    for line in lines.lines() {
        let (left, right) = line.split_once(" -> ").unwrap_or((line, ""));
        asked.push_str(left)?;
        asked.push_str("\n")?;
        told.push_str(right)?;
        told.push_str("\n")?;
    }
    Ok((asked, told))
}

/// Whether the bytes are a front of the text that ends with a whole line.
fn is_front(bytes: &[u8], text: &str) -> bool {
    text.as_bytes().starts_with(bytes) && bytes.last().is_none_or(|last| *last == b'\n')
}

/// Runs the lines, with the writer's memory taken before, and gives what was written.
fn run(
    alloc: Global,
    nth: usize,
    settings: &Settings,
    mut input: &[u8],
) -> Result<(Result<(), PortError>, Vec<u8>), AllocError> {
    let mut written = Vec::with_capacity(alloc, 10_000)?;
    let mut reader = WatchedReader::new(&mut input);
    let mut writer = WatchedWriter::new(&mut written);
    refuse(alloc, nth);
    let told = script(alloc, &mut reader, &mut writer, settings);
    Ok((told, written))
}

#[test]
fn a_script_is_answered_whole_or_in_part(rt: HostRuntime) {
    let settings = read(rt.alloc(), "service.groups = [\"a\"]\n").expect(&rt, "settings");
    let (asked, want) = both_sides(rt.alloc(), CACHE).expect(&rt, "memory");
    for nth in 1..MANY {
        let (told, written) = run(rt.alloc(), nth, &settings, asked.as_bytes()).expect(
            &rt, "memory",
        );
        assert_told(&rt, nth, told.is_ok());
        if told.is_ok() {
            return assert_eq!(rt; written.as_slice(), want.as_bytes());
        }
        assert_eq!(rt; told, Err(PortError::Memory));
        assert!(rt; is_front(&written, want.as_str()), "allocation {nth}");
    }
    give_up(&rt);
}

/// Cuts the group out of the lines, with the writer's memory taken before, and gives what was written.
fn cut(
    alloc: Global,
    nth: usize,
    mut input: &[u8],
) -> Result<(Result<(), PortError>, Vec<u8>), AllocError> {
    let mut written = Vec::with_capacity(alloc, 10_000)?;
    let mut reader = WatchedReader::new(&mut input);
    let mut writer = WatchedWriter::new(&mut written);
    refuse(alloc, nth);
    let told = cut_groups(alloc, &mut reader, &mut writer, &["a"]);
    Ok((told, written))
}

#[test]
fn a_cut_is_written_whole_or_in_part(rt: HostRuntime) {
    let (asked, _answers) = both_sides(rt.alloc(), CACHE).expect(&rt, "memory");
    // The last line has no operation that there is.
    let (want, _last) = asked
        .as_str()
        .split_once("{\"op\":\"jump\"")
        .unwrap_or(("", ""));
    for nth in 1..MANY {
        let (told, written) = cut(rt.alloc(), nth, asked.as_bytes()).expect(&rt, "memory");
        assert_told(&rt, nth, told.is_ok());
        if told.is_ok() {
            return assert_eq!(rt; written.as_slice(), want.as_bytes());
        }
        assert_eq!(rt; told, Err(PortError::Memory));
        assert!(rt; is_front(&written, want), "allocation {nth}");
    }
    give_up(&rt);
}

/// Whether the group, one of those with these names, has the name.
fn is_own_name(groups: &[Text<32>], group: GroupId, name: &str) -> bool
    ensures { result ≡ is_own_name (record { groups = groups.now; commands = [] }) group.0 name.now }
{
    match groups.get(group.0 as usize) {
        Some(own) => own.as_str() == name,
        None => false,
    }
}

/// The number of the command of the name where groups of these names have their own commands alone.
fn own_command(groups: &[Text<32>], group: GroupId, name: &str) -> Option<u8>
    ensures { result ≡ command_number (record { groups = groups.now; commands = [] }) group.0 name.now }
{
    if is_own_name(groups, group, name) {
        Some(0)
    } else {
        None
    }
}

/// A service of the groups a and b whose answers are made up.
#[derive(Drop)]
struct MadeUp {
    names: [Text<32>; 2],
}

impl Control for MadeUp {
    ghost names = { λ control. record { groups = control.names; commands = [] } };

    ghost may_show = { λ _ _ _. Unit {0} };

    ghost may_answer = { λ _ _ _. Unit {0} };

    ghost may_close = { λ _ _ _. Unit {0} };

    ghost may_total = { λ _ _ _. Unit {0} };

    ghost may_tune = { λ _ _ _ _. Unit {0} };

    ghost may_force = { λ _ _ _. Unit {0} };

    fn groups(&self) -> &[Text<32>] {
        &self.names
    }

    fn command(&self, group: GroupId, name: &str) -> Option<u8> {
        own_command(&self.names, group, name)
    }

    fn metrics(&mut self, _group: GroupId, _command: u8) -> Reply {
        Reply::Worn
    }

    fn call(&mut self, _group: GroupId, request: Request) -> Result<Answer, CallError> {
        Ok(Answer::Value(Text::new(request.arg.as_str()).unwrap_or(text(""))))
    }

    fn close(&mut self, group: GroupId, _context: u64) -> Reply {
        Reply::Closed(group.0)
    }

    fn totals(&mut self, _group: GroupId, _command: u8) -> Reply {
        Reply::Worn
    }

    fn tune(&mut self, _group: GroupId, _command: u8, _tuning: Tuning) -> Reply {
        Reply::Tuned
    }

    fn in_force(&self, _group: GroupId, _command: u8) -> Option<InForce> {
        Some(InForce {
            slots: 64,
            core: 10,
            max_queue: None,
            queue_threshold: 5,
            command: command(),
        })
    }
}

fn made_up() -> MadeUp {
    MadeUp {
        names: [text("a"), text("b")],
    }
}

/// Control lines of all kinds, a faulty one among them, each with its answer.
const CONTROL: &str = r#"{"op":"groups"} -> {"groups":["a","b"],"reply":"groups"}
{"op":"metrics","group":"b"} -> {"reply":"worn"}
{"op":"call","group":"a","arg":"x","context":1,"key":"k"} -> {"body":"x","reply":"value"}
{"op":"close","group":"b","context":1} -> {"released":1,"reply":"closed"}
{"op":"totals","group":"b"} -> {"reply":"worn"}
{"op":"tune","group":"b","property":"coreSize","value":2} -> {"reply":"tuned"}
{"op":"properties","group":"b"} -> {"properties":{"circuitBreaker.enabled":true,"circuitBreaker.errorThresholdPercentage":50,"circuitBreaker.forceClosed":false,"circuitBreaker.forceOpen":false,"circuitBreaker.requestVolumeThreshold":20,"circuitBreaker.sleepWindowInMilliseconds":5000,"coreSize":10,"execution.isolation.semaphore.maxConcurrentRequests":10,"execution.isolation.strategy":"THREAD","execution.isolation.thread.timeoutInMilliseconds":1000,"execution.timeout.enabled":true,"fallback.enabled":true,"fallback.isolation.semaphore.maxConcurrentRequests":10,"maxQueueSize":-1,"metrics.healthSnapshot.intervalInMilliseconds":500,"metrics.rollingStats.numBuckets":10,"metrics.rollingStats.timeInMilliseconds":10000,"queueSizeRejectionThreshold":5,"requestCache.enabled":true,"service.slots":64},"reply":"properties"}
{"op":"groups","more":{"is read":["as",{"a":"tree"}]}} -> {"groups":["a","b"],"reply":"groups"}
{"op":"jump"} -> {"error":"op"}"#;

/// Asserts that the conversation answers want of memory, to whatever it is asked.
fn assert_failed(rt: &impl Abort, conversation: &mut Conversation) {
    let mut control = made_up();
    assert_eq!(rt; conversation.fault(), Some(PortError::Memory));
    let fed = conversation.feed(b"{\"op\":\"groups\"}\n", &mut control);
    assert_eq!(rt; fed.err(), Some(PortError::Memory));
    assert_eq!(rt;
        conversation.end(&mut control).err(),
        Some(PortError::Memory)
    );
    assert_eq!(rt; conversation.fault(), Some(PortError::Memory));
}

#[test]
fn a_piece_is_answered_or_the_conversation_fails(rt: HostRuntime) {
    let (asked, want) = both_sides(rt.alloc(), CONTROL).expect(&rt, "memory");
    for nth in 1..MANY {
        let mut conversation = Conversation::new(rt.alloc());
        refuse(rt.alloc(), nth);
        let told = conversation.feed(asked.as_bytes(), &mut made_up());
        assert_told(&rt, nth, told.is_ok());
        match told {
            Ok(lines) => return assert_eq!(rt; lines.as_slice(), want.as_bytes()),
            Err(error) => assert_eq!(rt; error, PortError::Memory),
        }
        assert_failed(&rt, &mut conversation);
    }
    give_up(&rt);
}

#[test]
fn a_second_piece_is_answered_or_the_conversation_fails(rt: HostRuntime) {
    let (asked, want) = both_sides(rt.alloc(), CONTROL).expect(&rt, "memory");
    for nth in 1..MANY {
        let mut conversation = Conversation::new(rt.alloc());
        let first = conversation.feed(b"{\"op\":\"gro", &mut made_up());
        assert!(rt; first.is_ok_and(|lines| lines.is_empty()));
        refuse(rt.alloc(), nth);
        let told = conversation.feed(b"ups\"}\n", &mut made_up());
        assert_told(&rt, nth, told.is_ok());
        match told {
            Ok(lines) => return assert_eq!(rt; lines.as_slice(), GROUPS.as_bytes()),
            Err(error) => assert_eq!(rt; error, PortError::Memory),
        }
        assert_failed(&rt, &mut conversation);
    }
    give_up(&rt);
}

const GROUPS: &str = "{\"groups\":[\"a\",\"b\"],\"reply\":\"groups\"}\n";

#[test]
fn the_end_is_answered_or_the_conversation_fails(rt: HostRuntime) {
    for nth in 1..MANY {
        let mut conversation = Conversation::new(rt.alloc());
        let first = conversation.feed(b"{\"op\":\"groups\"}", &mut made_up());
        assert!(rt; first.is_ok_and(|lines| lines.is_empty()));
        refuse(rt.alloc(), nth);
        let told = conversation.end(&mut made_up());
        assert_told(&rt, nth, told.is_ok());
        match told {
            Ok(lines) => return assert_eq!(rt; lines.as_slice(), GROUPS.as_bytes()),
            Err(error) => assert_eq!(rt; error, PortError::Memory),
        }
        assert_failed(&rt, &mut conversation);
    }
    give_up(&rt);
}
