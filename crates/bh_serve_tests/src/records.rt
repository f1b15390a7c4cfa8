//! A record is a script that is answered as the connections were.

use crate::scene::{Scene, TWO_GROUPS, USUAL, Visit, visit_service};
use bh_commands::run_file;
use std::net::{Net, TcpListener, TcpStream};
use std::process::Abort;
use std::rt::Clock;
use std::str;
use std::sync::{Mutex, Wait};

/// What a client says, each line of which makes a step.
const LINES: [&str; 14] = [
    r#"{"op":"tune","group":"web","property":"execution.isolation.semaphore.maxConcurrentRequests","value":1}"#,
    r#"{"op":"submit","group":"web","arg":"x \"y\" ü","context":7,"key":"k"}"#,
    r#"{"op":"submit","group":"web","arg":"z","context":7,"key":"k"}"#,
    r#"{"op":"submit","group":"web","arg":"refused"}"#,
    r#"{"op":"tune","group":"web","command":"web","property":"requestCache.enabled","value":false}"#,
    r#"{"op":"tune","group":"pool","property":"coreSize","value":1}"#,
    r#"{"op":"start","group":"pool"}"#,
    r#"{"op":"fail","group":"web","ticket":1,"bad":false}"#,
    r#"{"op":"collect","group":"web","ticket":1}"#,
    r#"{"op":"fallback","group":"web","ticket":1,"end":"success","body":"b"}"#,
    r#"{"op":"collect","group":"web","ticket":1}"#,
    r#"{"op":"close","group":"web","context":7}"#,
    r#"{"op":"metrics","group":"pool"}"#,
    r#"{"op":"totals","group":"web","command":"web"}"#,
];

/// What a service says of a record that ends before it does, since no script has the next line.
pub(crate) const TOO_LONG: &str =
    "record: it ends here, since the line of the next step is too long for a script\n";

impl<
    'e,
    R: Net<Listener = TcpListener, Stream = TcpStream> + Wait + Clock + Abort + AllocGlobal,
> Scene<'e, R> {
    /// A client says all lines, and what it hears is kept.
    pub(crate) fn record(&self) {
        let stream = self.connect();
        for line in LINES {
            self.say(&stream, line);
            self.say(&stream, "\n");
            let answer = self.hear(&stream);
            let mut heard = self.heard.lock(self.rt);
            heard
                .extend_from_slice(answer.as_str().as_bytes())
                .expect(self.rt, "memory");
            heard.push(b'\n').expect(self.rt, "memory");
        }
    }

    /// A client says a line of 1,022 bytes, which is longer with its moment, and goes on.
    pub(crate) fn say_too_much(&self) {
        let mut finish = String::new(self.rt.alloc());
        finish
            .push_str(r#"{"op":"finish","group":"web","ticket":1,"body":""#)
            .expect(self.rt, "memory");
        for _ in 0..162 {
            finish.push_str("\\u0001").expect(self.rt, "memory");
        }
        finish.push_str("\"}").expect(self.rt, "memory");
        let submit = r#"{"op":"submit","group":"web","arg":"x"}"#;
        let stream = self.connect();
        self.assert_answer(&stream, submit, r#"{"reply":"inline","ticket":1}"#);
        self.assert_answer(&stream, finish.as_str(), r#"{"reply":"done"}"#);
        self.assert_answer(&stream, submit, r#"{"reply":"inline","ticket":2}"#);
    }
}

#[test]
fn a_record_is_answered_as_its_clients_were(rt: HostRuntime) {
    let alloc = rt.alloc();
    let heard = Mutex::new(Vec::new(alloc));
    let record = visit_service(&rt, USUAL, Visit::Record, &heard);
    let heard = heard.into_inner();
    let (mut answers, mut errors) = (Vec::new(alloc), Vec::new(alloc));
    let status = run_file(
        alloc,
        TWO_GROUPS.as_bytes(),
        &mut record.as_slice(),
        &mut answers,
        &mut errors,
    );
    assert_eq!(&rt; status, 0);
    assert!(&rt; answers.as_slice().starts_with(heard.as_slice()));
    let record = str::from_utf8(record.as_slice()).expect(&rt, "a text");
    let last = record.lines().last().expect(&rt, "a line");
    assert!(&rt;
        last.starts_with("{\"end\":true,\"group\":\"pool\","),
        "{last}"
    );
}

#[test]
fn a_record_ends_before_a_step_that_no_script_can_say(rt: HostRuntime) {
    let heard = Mutex::new(Vec::new(rt.alloc()));
    let record = visit_service(&rt, USUAL, Visit::SayTooMuch, &heard);
    let record = str::from_utf8(record.as_slice()).expect(&rt, "a text");
    assert!(&rt; record.starts_with("{\"arg\":\"x\","), "{record}");
    assert!(&rt; record.ends_with(",\"op\":\"submit\"}\n"), "{record}");
    assert_eq!(&rt; record.lines().count(), 1);
}
