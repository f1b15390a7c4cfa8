//! A line that is to wait is answered once there is something to tell, its client is gone or the service is stopped.

use crate::scene::{Scene, USUAL, Visit, pay_visit, visit_service};
use std::net::{Net, TcpListener, TcpStream};
use std::process::Abort;
use std::rt::Clock;
use std::sync::{Mutex, Wait};
use std::time::Duration;
use std::{str, thread};

const SUBMIT: &str = r#"{"op":"submit","group":"pool","arg":"x"}"#;

const START: &str = r#"{"op":"start","group":"pool","wait":true}"#;

const COLLECT: &str = r#"{"op":"collect","group":"pool","ticket":1,"wait":true}"#;

const QUEUED: &str = r#"{"reply":"queued","ticket":1}"#;

const ASSIGNED: &str = r#"{"arg":"x","reply":"assigned","ticket":1}"#;

impl<
    'e,
    R: Net<Listener = TcpListener, Stream = TcpStream> + Wait + Clock + Abort + AllocGlobal,
> Scene<'e, R> {
    /// Sends a line whose answer is to wait.
    fn ask_late(&self, stream: &TcpStream, line: &str) {
        self.say(stream, line);
        self.say(stream, "\n");
    }

    /// Two workers wait, and one of them gets the run.
    pub(crate) fn wait_for_work(&self) {
        let (first, client) = (self.connect(), self.connect());
        self.ask_late(&first, START);
        self.assert_answer(&client, SUBMIT, QUEUED);
        self.assert_heard(&first, ASSIGNED);
    }

    /// A holder waits until the worker has finished.
    pub(crate) fn wait_for_answer(&self) {
        let (worker, client) = (self.connect(), self.connect());
        self.assert_answer(&client, SUBMIT, QUEUED);
        self.ask_late(&client, COLLECT);
        self.assert_answer(&worker, START, ASSIGNED);
        let finish = r#"{"op":"finish","group":"pool","ticket":1,"body":"y"}"#;
        self.assert_answer(&worker, finish, r#"{"reply":"done"}"#);
        self.assert_heard(&client, r#"{"body":"y","reply":"value"}"#);
    }

    /// A worker that has a run waits for an answer when it ends.
    pub(crate) fn die_waiting(&self) {
        let (worker, client) = (self.connect(), self.connect());
        self.assert_answer(&client, SUBMIT, QUEUED);
        self.assert_answer(&worker, START, ASSIGNED);
        self.ask_late(&worker, START);
        drop(worker);
        let failed = r#"{"cause":"failure","reply":"run-fallback"}"#;
        self.assert_answer(&client, COLLECT, failed);
    }

    /// A worker waits for a run that comes a while later.
    pub(crate) fn wait_a_while(&self) {
        let (worker, client) = (self.connect(), self.connect());
        self.ask_late(&worker, START);
        thread::sleep(self.rt, Duration::from_millis(20));
        self.assert_answer(&client, SUBMIT, QUEUED);
        self.assert_heard(&worker, ASSIGNED);
    }

    /// A worker and a caller wait when the service is stopped. The caller's run is its own: what another connection has of runs
    /// is given back as that one ends, before or after the caller looks.
    pub(crate) fn stop_waiting(&self) {
        let (worker, caller) = (self.connect(), self.connect());
        let submit = r#"{"op":"submit","group":"web","arg":"x"}"#;
        self.assert_answer(&caller, submit, r#"{"reply":"inline","ticket":1}"#);
        self.ask_late(
            &caller,
            r#"{"op":"collect","group":"web","ticket":1,"wait":true}"#,
        );
        self.ask_late(&worker, START);
        self.stop();
        self.assert_heard(&worker, r#"{"reply":"idle"}"#);
        self.assert_heard(&caller, r#"{"reply":"pending"}"#);
    }
}

#[test]
fn a_worker_that_waits_gets_the_next_run(rt: HostRuntime) {
    pay_visit(&rt, Visit::WaitForWork);
}

#[test]
fn a_holder_that_waits_gets_its_answer(rt: HostRuntime) {
    pay_visit(&rt, Visit::WaitForAnswer);
}

#[test]
fn a_worker_that_is_gone_while_it_waits_keeps_no_run(rt: HostRuntime) {
    pay_visit(&rt, Visit::DieWaiting);
}

/// The moment of the one step of a record that has the operation.
fn moment_of<R: Abort + AllocGlobal>(rt: &R, record: &str, op: &str) -> u64 {
    let mut found = None;
    for line in record.lines() {
        if line.contains(op) {
            assert!(rt; found.is_none(), "{op} stands there once");
            let (_, behind) = line.split_once("\"now\":").expect(rt, "a moment");
            let (digits, _) = behind.split_once(",").expect(rt, "a member behind it");
            found = digits.parse::<u64>().ok();
        }
    }
    found.expect(rt, "a number")
}

#[test]
fn a_line_that_waits_has_the_moment_at_which_it_goes_on(rt: HostRuntime) {
    let heard = Mutex::new(Vec::new(rt.alloc()));
    let record = visit_service(&rt, USUAL, Visit::WaitAWhile, &heard);
    let record = str::from_utf8(record.as_slice()).expect(&rt, "a text");
    let submitted = moment_of(&rt, record, "\"op\":\"submit\"");
    let started = moment_of(&rt, record, "\"op\":\"start\"");
    assert!(&rt; submitted <= started, "{submitted} is later than {started}");
}

#[test]
fn whoever_waits_is_answered_when_the_service_stops(rt: HostRuntime) {
    pay_visit(&rt, Visit::StopWaiting);
}
