//! Conversations, without a socket.

ghost use Rattle.std.specs.Prelude.{◌∷◌, []};

use crate::names::is_own_name;
use bh_base::{
    Answer, CallError, CircuitState, CommandProps, Counts, GroupId, Metrics, Reply, Request,
    Strategy, Text, Tuning,
};
use bh_control::{Control, Conversation};
use bh_in_force::InForce;
use bh_lines::PortError;
use bh_scripts::samples::{NO_EVENTS, text};
use bh_scripts::words::split_line;
use std::alloc::Global;
use std::process::Abort;

/// A service of the groups a and b, of which b has a further command, whose answers are made up: a call of an own command
/// is answered by its argument, or by the reason that the argument names, one of the further command as a bad request, a
/// close by the number of the group, metrics as of a group with no command, a worn one, or a command with a failure, and
/// totals as of one with no event or one. A change of group a is answered as of a worn group; one of group b by the value of
/// `coreSize`, by the number of the command that is forced open, or as made. Properties are in force in group b alone.
#[derive(Drop)]
struct MadeUp {
    names: [Text<32>; 2],
    further: Text<32>,
}

impl Control for MadeUp {
    ghost names = { λ control. record { groups = control.names; commands = (control.further, (1, 1)) ∷ [] } };

    ghost may_show = { λ _ _ _. Unit {0} };

    ghost may_answer = { λ _ _ _. Unit {0} };

    ghost may_close = { λ _ _ _. Unit {0} };

    ghost may_total = { λ _ _ _. Unit {0} };

    ghost may_tune = { λ _ _ _ _. Unit {0} };

    ghost may_force = { λ _ _ _. Unit {0} };

    fn groups(&self) -> &[Text<32>] {
        &self.names
    }

    fn command(&self, group: GroupId, name: &str) -> Option<u8> {
        if is_own_name(&self.names, group, name) {
            return Some(0);
        }
        if group.0 == 1 && self.further.as_str() == name {
            Some(1)
        } else {
            None
        }
    }

    fn metrics(&mut self, group: GroupId, command: u8) -> Reply {
        match (group.0, command) {
            (0, _) => Reply::NoCommand,
            (_, 0) => Reply::Worn,
            _ => Reply::Metrics(ONE_FAILURE),
        }
    }

    fn call(&mut self, _group: GroupId, request: Request) -> Result<Answer, CallError> {
        if request.command != 0 {
            return Ok(Answer::BadRequest);
        }
        match request.arg.as_str() {
            "group full" => Err(CallError::GroupFull),
            "worn" => Err(CallError::Worn),
            "full" => Err(CallError::PassFull),
            "stopped" => Err(CallError::Stopped),
            "taken" => Err(CallError::Taken),
            "no group" => Err(CallError::NoGroup),
            "no command" => Err(CallError::NoCommand),
            arg => Ok(Answer::Value(Text::new(arg).unwrap_or(text("")))),
        }
    }

    fn close(&mut self, group: GroupId, _context: u64) -> Reply {
        Reply::Closed(group.0)
    }

    fn totals(&mut self, group: GroupId, command: u8) -> Reply {
        match (group.0, command) {
            (0, _) => Reply::NoCommand,
            (_, 0) => Reply::Totals(NO_EVENTS),
            _ => Reply::Totals(ONE_FAILURE.counts),
        }
    }

    fn tune(&mut self, group: GroupId, command: u8, tuning: Tuning) -> Reply {
        match (group.0, tuning) {
            (0, _) => Reply::Worn,
            (_, Tuning::CoreSize(number)) => Reply::Closed(number),
            (_, Tuning::ForceOpen(true)) => Reply::Expired(u64::from(command)),
            _ => Reply::Tuned,
        }
    }

    fn in_force(&self, group: GroupId, command: u8) -> Option<InForce> {
        match (group.0, command) {
            (0, _) => None,
            (_, 0) => Some(BUILT_IN),
            _ => Some(OWN),
        }
    }
}

fn made_up() -> MadeUp {
    MadeUp {
        names: [text("a"), text("b")],
        further: text("c"),
    }
}

/// What the further command shows of itself.
const ONE_FAILURE: Metrics = Metrics {
    circuit: CircuitState::Closed,
    counts: Counts {
        failure: 1,
        ..NO_EVENTS
    },
    errors: 1,
    total: 1,
    percent: 100,
    busy: 0,
    queued: 0,
    free: 64,
};

/// What is in force of an own command: what is built in.
const BUILT_IN: InForce = InForce {
    slots: 64,
    core: 10,
    max_queue: None,
    queue_threshold: 5,
    command: CommandProps {
        strategy: Strategy::Thread,
        timeout_ms: 1000,
        timeout_on: true,
        semaphore: 10,
        fallback_permits: 10,
        fallback_on: true,
        circuit_on: true,
        volume: 20,
        sleep_ms: 5000,
        percent: 50,
        force_open: false,
        force_closed: false,
        window_ms: 10_000,
        buckets: 10,
        health_ms: 500,
        cache_on: true,
    },
};

/// What is in force of the further command: no two numbers are the same.
const OWN: InForce = InForce {
    slots: 1,
    core: 2,
    max_queue: Some(3),
    queue_threshold: 13,
    command: CommandProps {
        strategy: Strategy::Semaphore,
        timeout_ms: 11,
        timeout_on: false,
        semaphore: 9,
        fallback_permits: 8,
        fallback_on: true,
        circuit_on: false,
        volume: 6,
        sleep_ms: 5,
        percent: 7,
        force_open: false,
        force_closed: true,
        window_ms: 1000,
        buckets: 4,
        health_ms: 12,
        cache_on: false,
    },
};

const GROUPS: &str = "{\"op\":\"groups\"}\n";

const GROUPS_REPLY: &str = "{\"groups\":[\"a\",\"b\"],\"reply\":\"groups\"}\n";

/// A line of groups, and behind it one of so many letters.
fn groups_then<R: Abort + AllocGlobal>(rt: &R, letters: usize) -> String {
    let mut piece = String::new(rt.alloc());
    piece.push_str(GROUPS).expect(rt, "memory");
    for _ in 0..letters {
        piece.push('x').expect(rt, "memory");
    }
    piece
}

/// A conversation and what it is answered by.
#[derive(Drop)]
struct Talk {
    conversation: Conversation,
    control: MadeUp,
}

impl Talk {
    fn new(alloc: Global) -> Talk {
        Talk {
            conversation: Conversation::new(alloc),
            control: made_up(),
        }
    }

    /// Asserts what a piece is answered.
    fn assert_fed<R: Abort>(&mut self, rt: &R, piece: &[u8], want: &str) {
        let told = self.conversation.feed(piece, &mut self.control);
        assert_told(rt, told, want);
    }

    /// Asserts what the end of the stream is answered.
    fn assert_ended<R: Abort>(&mut self, rt: &R, want: &str) {
        let told = self.conversation.end(&mut self.control);
        assert_told(rt, told, want);
    }
}

/// Asserts what was answered: the lines, or the text of the fault.
fn assert_told<R: Abort>(rt: &R, told: Result<Vec<u8>, PortError>, want: &str) {
    match told {
        Ok(lines) => assert_eq!(rt; lines.as_slice(), want.as_bytes()),
        Err(PortError::Line) => assert_eq!(rt; "fault: line", want),
        Err(_) => assert_eq!(rt; "another fault", want),
    }
}

#[test]
fn a_line_in_two_pieces_is_answered_at_its_end(rt: HostRuntime) {
    let mut talk = Talk::new(rt.alloc());
    talk.assert_fed(&rt, b"{\"op\":\"gro", "");
    talk.assert_fed(&rt, b"ups\"}\n", GROUPS_REPLY);
    talk.assert_ended(&rt, "");
}

#[test]
fn a_line_is_answered_at_its_last_byte(rt: HostRuntime) {
    let mut talk = Talk::new(rt.alloc());
    for byte in GROUPS.bytes() {
        let want = if byte == b'\n' { GROUPS_REPLY } else { "" };
        talk.assert_fed(&rt, &[byte], want);
    }
    talk.assert_ended(&rt, "");
}

#[test]
fn lines_before_a_refused_line_are_answered(rt: HostRuntime) {
    let mut talk = Talk::new(rt.alloc());
    let piece = groups_then(&rt, 1025);
    talk.assert_fed(&rt, piece.as_str().as_bytes(), GROUPS_REPLY);
    talk.assert_fed(&rt, GROUPS.as_bytes(), "fault: line");
    talk.assert_ended(&rt, "fault: line");
}

#[test]
fn a_refused_line_ends_the_conversation_at_once(rt: HostRuntime) {
    let mut talk = Talk::new(rt.alloc());
    talk.assert_fed(&rt, GROUPS.as_bytes(), GROUPS_REPLY);
    talk.assert_fed(&rt, b"\xff\n", "fault: line");
    talk.assert_fed(&rt, GROUPS.as_bytes(), "fault: line");
}

#[test]
fn the_end_answers_the_rest_and_keeps_none(rt: HostRuntime) {
    let mut talk = Talk::new(rt.alloc());
    talk.assert_fed(&rt, b"{\"op\":\"metrics\",\"group\":\"b\"}\r", "");
    talk.assert_ended(&rt, "{\"reply\":\"worn\"}\n");
    talk.assert_ended(&rt, "");
}

// Each line with its reply.
const LINES: &str = r#"{"op":"close","group":"a","context":7} = {"released":0,"reply":"closed"}
{"op":"close","group":"b","context":7} = {"released":1,"reply":"closed"}
{"op":"call","group":"a","arg":"hi"} = {"body":"hi","reply":"value"}
{"op":"call","group":"a","arg":"hi","context":7,"key":"k"} = {"body":"hi","reply":"value"}
{"op":"call","group":"a","arg":"group full"} = {"reply":"group-full"}
{"op":"call","group":"a","arg":"worn"} = {"reply":"worn"}
{"op":"call","group":"a","arg":"full"} = {"error":"full"}
{"op":"call","group":"a","arg":"stopped"} = {"error":"stopped"}
{"op":"call","group":"a","arg":"taken"} = {"error":"taken"}
{"op":"call","group":"a","arg":"no group"} = {"error":"group"}
{"op":"call","group":"a","arg":"no command"} = {"error":"command"}
{"op":"metrics","group":"a"} = {"reply":"no-command"}
{"op":"metrics","group":"b"} = {"reply":"worn"}
{"op":"call","group":"z","arg":"hi"} = {"error":"group"}
{"op":"call","group":"a","arg":"hi","key":"k"} = {"error":"field"}
{"op":"submit","group":"a","now":0,"arg":"hi"} = {"error":"op"}
groups = {"error":"syntax"}
"#;

/// Asserts what each line is answered.
fn assert_lines<R: Abort + AllocGlobal>(rt: &R, lines: &str) {
    let mut talk = Talk::new(rt.alloc());
    for line in lines.lines() {
        let (asked, reply) = split_line(line);
        let piece = format!(in rt.alloc(); "{asked}\n").expect(rt, "memory");
        let want = format!(in rt.alloc(); "{reply}\n").expect(rt, "memory");
        talk.assert_fed(rt, piece.as_str().as_bytes(), want.as_str());
    }
}

#[test]
fn each_line_has_its_reply(rt: HostRuntime) {
    assert_lines(&rt, LINES);
}

/// Each line with its reply, as `LINES`. The name c is that of a further command of b.
const COMMANDS: &str =
    r#"{"op":"call","group":"b","command":"c","arg":"hi"} = {"reply":"bad-request"}
{"op":"call","group":"b","command":"\u0063","arg":"hi","context":7,"key":"k","m":{}} = {"reply":"bad-request"}
{"op":"call","group":"b","command":"b","arg":"hi"} = {"body":"hi","reply":"value"}
{"op":"call","group":"a","command":"a","arg":"hi"} = {"body":"hi","reply":"value"}
{"op":"call","group":"a","command":"c","arg":"hi"} = {"error":"command"}
{"op":"call","group":"b","command":"a","arg":"hi"} = {"error":"command"}
{"op":"call","group":"b","command":"","arg":"hi"} = {"error":"command"}
{"op":"call","group":"b","command":1,"arg":"hi"} = {"error":"field"}
{"op":"call","group":"b","command":null,"arg":"hi"} = {"error":"field"}
{"op":"call","group":"b","command":"d"} = {"error":"field"}
{"op":"call","group":"z","command":1,"arg":"hi"} = {"error":"field"}
{"op":"call","group":"z","command":"c","arg":"hi"} = {"error":"group"}
{"op":"call","group":"b","command":"d","arg":"hi","context":7,"key":"0123456789012345678901234567890-_"} = {"error":"command"}
{"op":"call","group":"b","command":"c","arg":"hi","context":7,"key":"0123456789012345678901234567890-_"} = {"error":"long"}
{"op":"call","group":"b","command":"0123456789012345678901234567890-_","arg":"hi"} = {"error":"command"}
{"op":"metrics","group":"b","command":"c"} = {"busy":0,"circuit":"closed","errors":1,"events":{"FAILURE":1},"free":64,"percent":100,"queued":0,"reply":"metrics","total":1}
{"op":"metrics","group":"b","command":"b"} = {"reply":"worn"}
{"op":"metrics","group":"a","command":"c"} = {"error":"command"}
{"op":"metrics","group":"z","command":"c"} = {"error":"group"}
{"op":"metrics","group":"b","command":["c"]} = {"error":"field"}
{"op":"close","group":"b","context":7,"command":1} = {"released":1,"reply":"closed"}
{"op":"groups","command":1} = {"groups":["a","b"],"reply":"groups"}
"#;

#[test]
fn calls_and_metrics_name_their_command(rt: HostRuntime) {
    assert_lines(&rt, COMMANDS);
}

/// Each line with its reply, as `LINES`.
const CHANGES: &str = r#"{"op":"totals","group":"a"} = {"reply":"no-command"}
{"op":"totals","group":"b"} = {"events":{},"reply":"totals"}
{"op":"totals","group":"b","command":"b"} = {"events":{},"reply":"totals"}
{"op":"totals","group":"b","command":"c"} = {"events":{"FAILURE":1},"reply":"totals"}
{"op":"totals","group":"b","command":"d"} = {"error":"command"}
{"op":"totals","group":"z","command":"c"} = {"error":"group"}
{"op":"totals","group":"z","command":1} = {"error":"field"}
{"op":"totals","command":"c"} = {"error":"field"}
{"op":"tune","group":"a","property":"coreSize","value":3} = {"reply":"worn"}
{"op":"tune","group":"b","property":"coreSize","value":3} = {"released":3,"reply":"closed"}
{"op":"tune","group":"b","command":"c","property":"coreSize","value":4} = {"released":4,"reply":"closed"}
{"op":"tune","group":"b","property":"circuitBreaker.forceOpen","value":true} = {"count":0,"reply":"expired"}
{"op":"tune","group":"b","command":"c","property":"circuitBreaker.forceOpen","value":true} = {"count":1,"reply":"expired"}
{"op":"tune","group":"b","command":"c","property":"circuitBreaker.forceOpen","value":false} = {"reply":"tuned"}
{"op":"tune","group":"b","now":7,"property":"execution.timeout.enabled","value":false} = {"reply":"tuned"}
{"op":"tune","property":"nothing","value":1} = {"error":"field"}
{"op":"tune","group":"z","command":1,"property":"nothing","value":1} = {"error":"field"}
{"op":"tune","group":"z","command":"d","property":"nothing"} = {"error":"field"}
{"op":"tune","group":"z","command":"d","property":"nothing","value":"1"} = {"error":"field"}
{"op":"tune","group":"z","command":"d","property":"nothing","value":1} = {"error":"property"}
{"op":"tune","group":"z","command":"d","property":"coreSize","value":true} = {"error":"field"}
{"op":"tune","group":"z","command":"d","property":"coreSize","value":65} = {"error":"range"}
{"op":"tune","group":"z","command":"d","property":"coreSize","value":64} = {"error":"group"}
{"op":"tune","group":"b","command":"d","property":"coreSize","value":64} = {"error":"command"}
"#;

#[test]
fn totals_and_changes_have_their_replies(rt: HostRuntime) {
    assert_lines(&rt, CHANGES);
}

/// Each line with its reply, as `LINES`.
const PROPERTIES: &str =
    r#"{"op":"properties","group":"b"} = {"properties":{"circuitBreaker.enabled":true,"circuitBreaker.errorThresholdPercentage":50,"circuitBreaker.forceClosed":false,"circuitBreaker.forceOpen":false,"circuitBreaker.requestVolumeThreshold":20,"circuitBreaker.sleepWindowInMilliseconds":5000,"coreSize":10,"execution.isolation.semaphore.maxConcurrentRequests":10,"execution.isolation.strategy":"THREAD","execution.isolation.thread.timeoutInMilliseconds":1000,"execution.timeout.enabled":true,"fallback.enabled":true,"fallback.isolation.semaphore.maxConcurrentRequests":10,"maxQueueSize":-1,"metrics.healthSnapshot.intervalInMilliseconds":500,"metrics.rollingStats.numBuckets":10,"metrics.rollingStats.timeInMilliseconds":10000,"queueSizeRejectionThreshold":5,"requestCache.enabled":true,"service.slots":64},"reply":"properties"}
{"op":"properties","group":"b","command":"b"} = {"properties":{"circuitBreaker.enabled":true,"circuitBreaker.errorThresholdPercentage":50,"circuitBreaker.forceClosed":false,"circuitBreaker.forceOpen":false,"circuitBreaker.requestVolumeThreshold":20,"circuitBreaker.sleepWindowInMilliseconds":5000,"coreSize":10,"execution.isolation.semaphore.maxConcurrentRequests":10,"execution.isolation.strategy":"THREAD","execution.isolation.thread.timeoutInMilliseconds":1000,"execution.timeout.enabled":true,"fallback.enabled":true,"fallback.isolation.semaphore.maxConcurrentRequests":10,"maxQueueSize":-1,"metrics.healthSnapshot.intervalInMilliseconds":500,"metrics.rollingStats.numBuckets":10,"metrics.rollingStats.timeInMilliseconds":10000,"queueSizeRejectionThreshold":5,"requestCache.enabled":true,"service.slots":64},"reply":"properties"}
{"op":"properties","group":"b","command":"c"} = {"properties":{"circuitBreaker.enabled":false,"circuitBreaker.errorThresholdPercentage":7,"circuitBreaker.forceClosed":true,"circuitBreaker.forceOpen":false,"circuitBreaker.requestVolumeThreshold":6,"circuitBreaker.sleepWindowInMilliseconds":5,"coreSize":2,"execution.isolation.semaphore.maxConcurrentRequests":9,"execution.isolation.strategy":"SEMAPHORE","execution.isolation.thread.timeoutInMilliseconds":11,"execution.timeout.enabled":false,"fallback.enabled":true,"fallback.isolation.semaphore.maxConcurrentRequests":8,"maxQueueSize":3,"metrics.healthSnapshot.intervalInMilliseconds":12,"metrics.rollingStats.numBuckets":4,"metrics.rollingStats.timeInMilliseconds":1000,"queueSizeRejectionThreshold":13,"requestCache.enabled":false,"service.slots":1},"reply":"properties"}
{"op":"properties","group":"a"} = {"reply":"no-group"}
{"op":"properties","group":"b","command":"d"} = {"error":"command"}
{"op":"properties","group":"z","command":"c"} = {"error":"group"}
{"op":"properties","group":"z","command":1} = {"error":"field"}
{"op":"properties","command":"c"} = {"error":"field"}
"#;

#[test]
fn properties_in_force_are_told_by_their_names(rt: HostRuntime) {
    assert_lines(&rt, PROPERTIES);
}
