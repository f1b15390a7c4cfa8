//! A property that changes while the service runs, and request contexts that end with their connection.

use crate::scene::{Scene, USUAL, Visit, pay_visit, visit_service};
use bh_share_serve::Sharing;
use std::net::{Net, TcpListener, TcpStream};
use std::process::Abort;
use std::rt::Clock;
use std::str;
use std::sync::{Mutex, Wait};

const SUBMIT: &str = r#"{"op":"submit","group":"web","arg":"x"}"#;

const ONE_PERMIT: &str =
    r#"{"op":"tune","group":"web","property":"execution.isolation.semaphore.maxConcurrentRequests","value":1}"#;

const PROPERTIES: &str = r#"{"op":"properties","group":"web"}"#;

const TEN_PERMITS_IN_FORCE: &str =
    r#"{"properties":{"circuitBreaker.enabled":false,"circuitBreaker.errorThresholdPercentage":50,"circuitBreaker.forceClosed":false,"circuitBreaker.forceOpen":false,"circuitBreaker.requestVolumeThreshold":20,"circuitBreaker.sleepWindowInMilliseconds":5000,"coreSize":10,"execution.isolation.semaphore.maxConcurrentRequests":10,"execution.isolation.strategy":"SEMAPHORE","execution.isolation.thread.timeoutInMilliseconds":1000,"execution.timeout.enabled":false,"fallback.enabled":true,"fallback.isolation.semaphore.maxConcurrentRequests":10,"maxQueueSize":-1,"metrics.healthSnapshot.intervalInMilliseconds":500,"metrics.rollingStats.numBuckets":10,"metrics.rollingStats.timeInMilliseconds":3600000,"queueSizeRejectionThreshold":5,"requestCache.enabled":true,"service.slots":64},"reply":"properties"}"#;

const ONE_PERMIT_IN_FORCE: &str =
    r#"{"properties":{"circuitBreaker.enabled":false,"circuitBreaker.errorThresholdPercentage":50,"circuitBreaker.forceClosed":false,"circuitBreaker.forceOpen":false,"circuitBreaker.requestVolumeThreshold":20,"circuitBreaker.sleepWindowInMilliseconds":5000,"coreSize":10,"execution.isolation.semaphore.maxConcurrentRequests":1,"execution.isolation.strategy":"SEMAPHORE","execution.isolation.thread.timeoutInMilliseconds":1000,"execution.timeout.enabled":false,"fallback.enabled":true,"fallback.isolation.semaphore.maxConcurrentRequests":10,"maxQueueSize":-1,"metrics.healthSnapshot.intervalInMilliseconds":500,"metrics.rollingStats.numBuckets":10,"metrics.rollingStats.timeInMilliseconds":3600000,"queueSizeRejectionThreshold":5,"requestCache.enabled":true,"service.slots":64},"reply":"properties"}"#;

const METRICS: &str = r#"{"op":"metrics","group":"web"}"#;

const ENTER: &str = r#"{"op":"enter","group":"web","context":7}"#;

const ENTERED: &str = r#"{"reply":"entered"}"#;

const FULL: &str = r#"{"error":"full"}"#;

const KEYED: &str = r#"{"op":"submit","group":"web","arg":"x","context":7,"key":"k"}"#;

impl<
    'e,
    R: Net<Listener = TcpListener, Stream = TcpStream> + Wait + Clock + Abort + AllocGlobal,
> Scene<'e, R> {
    /// What one client changes is in force for the next line of another one. A line that changes nothing says why.
    pub(crate) fn tune_for_all(&self) {
        let (one, other) = (self.connect(), self.connect());
        self.assert_answer(&other, SUBMIT, r#"{"reply":"inline","ticket":1}"#);
        self.assert_answer(&one, ONE_PERMIT, r#"{"reply":"tuned"}"#);
        let rejected = r#"{"cause":"semaphore-rejected","reply":"fallback-due","ticket":2}"#;
        self.assert_answer(&other, SUBMIT, rejected);
        self.assert_answer(
            &other,
            r#"{"op":"tune","group":"web","property":"queue","value":1}"#,
            r#"{"error":"property"}"#,
        );
        self.assert_answer(
            &other,
            r#"{"op":"tune","group":"web","property":"coreSize","value":65}"#,
            r#"{"error":"range"}"#,
        );
        let totals = r#"{"events":{"SEMAPHORE_REJECTED":1},"reply":"totals"}"#;
        self.assert_answer(&one, r#"{"op":"totals","group":"web"}"#, totals);
    }

    /// What is in force is told to every client, before and after one changes it. A look makes no step: the first ticket is 1.
    pub(crate) fn look_at_properties(&self) {
        let (one, other) = (self.connect(), self.connect());
        self.assert_answer(&other, PROPERTIES, TEN_PERMITS_IN_FORCE);
        self.assert_answer(&one, ONE_PERMIT, r#"{"reply":"tuned"}"#);
        self.assert_answer(&other, PROPERTIES, ONE_PERMIT_IN_FORCE);
        let own = r#"{"op":"properties","group":"web","command":"web"}"#;
        self.assert_answer(&other, own, ONE_PERMIT_IN_FORCE);
        self.assert_answer(&other, r#"{"op":"properties"}"#, r#"{"error":"field"}"#);
        self.assert_answer(
            &other,
            r#"{"op":"properties","group":"nope"}"#,
            r#"{"error":"group"}"#,
        );
        self.assert_answer(
            &other,
            r#"{"op":"properties","group":"web","command":"nope"}"#,
            r#"{"error":"command"}"#,
        );
        self.assert_answer(&other, SUBMIT, r#"{"reply":"inline","ticket":1}"#);
    }

    /// A client that may not change properties changes none, and makes no step by its line.
    pub(crate) fn tune_in_vain(&self) {
        let stream = self.connect();
        self.assert_answer(&stream, ONE_PERMIT, r#"{"error":"tune"}"#);
        self.assert_answer(&stream, SUBMIT, r#"{"reply":"inline","ticket":1}"#);
        self.assert_answer(&stream, SUBMIT, r#"{"reply":"inline","ticket":2}"#);
    }

    /// A client dies within a context, of which an answer is kept: the slot of that is free then. A context that nobody entered
    /// stays.
    pub(crate) fn die_within(&self) {
        let (dead, other) = (self.connect(), self.connect());
        self.assert_answer(&dead, ENTER, ENTERED);
        self.answer_keyed(&dead, KEYED, 1);
        self.answer_keyed(
            &dead,
            r#"{"op":"submit","group":"web","arg":"x","context":8,"key":"k"}"#,
            2,
        );
        self.await_metrics(&other, METRICS, "\"free\":62,");
        drop(dead);
        self.await_metrics(&other, METRICS, "\"free\":63,");
        self.assert_answer(&other, KEYED, r#"{"reply":"inline","ticket":3}"#);
        let close = r#"{"op":"close","group":"web","context":8}"#;
        self.assert_answer(&other, close, r#"{"released":1,"reply":"closed"}"#);
    }

    /// A request that is answered and kept.
    fn answer_keyed(&self, stream: &TcpStream, submit: &str, ticket: u64) {
        let alloc = self.rt.alloc();
        let inline = format!(in alloc; "{{\"reply\":\"inline\",\"ticket\":{ticket}}}");
        self.assert_answer(stream, submit, inline.expect(self.rt, "memory").as_str());
        let finish = format!(in alloc;
            "{{\"op\":\"finish\",\"group\":\"web\",\"ticket\":{ticket},\"body\":\"\"}}"
        );
        let finish = finish.expect(self.rt, "memory");
        self.assert_answer(stream, finish.as_str(), r#"{"reply":"done"}"#);
        let collect = format!(in alloc;
            "{{\"op\":\"collect\",\"group\":\"web\",\"ticket\":{ticket}}}"
        );
        let collect = collect.expect(self.rt, "memory");
        self.assert_answer(stream, collect.as_str(), r#"{"body":"","reply":"value"}"#);
    }

    /// A connection is within as many contexts as it may, and within one more once it has closed one.
    pub(crate) fn fill_contexts(&self) {
        let stream = self.connect();
        let another = r#"{"op":"enter","group":"pool","context":7}"#;
        self.assert_answer(&stream, ENTER, ENTERED);
        self.assert_answer(&stream, another, FULL);
        self.assert_answer(&stream, ENTER, ENTERED);
        let close = r#"{"op":"close","group":"web","context":7}"#;
        self.assert_answer(&stream, close, r#"{"released":0,"reply":"closed"}"#);
        self.assert_answer(&stream, another, ENTERED);
        self.assert_answer(&stream, ENTER, FULL);
    }
}

#[test]
fn what_one_connection_changes_is_in_force_for_all(rt: HostRuntime) {
    pay_visit(&rt, Visit::TuneForAll);
}

#[test]
fn the_properties_in_force_are_told_with_no_step(rt: HostRuntime) {
    let heard = Mutex::new(Vec::new(rt.alloc()));
    let record = visit_service(&rt, USUAL, Visit::LookAtProperties, &heard);
    let record = str::from_utf8(record.as_slice()).expect(&rt, "a text");
    assert!(&rt;
        record.contains("tune") && !record.contains("properties"),
        "{record}"
    );
}

#[test]
fn a_connection_that_may_not_changes_nothing(rt: HostRuntime) {
    let heard = Mutex::new(Vec::new(rt.alloc()));
    let fixed = Sharing {
        may_tune: false,
        ..USUAL
    };
    let record = visit_service(&rt, fixed, Visit::TuneInVain, &heard);
    let record = str::from_utf8(record.as_slice()).expect(&rt, "a text");
    assert!(&rt; !record.contains("tune"), "{record}");
}

#[test]
fn a_client_that_dies_within_a_context_keeps_no_answer_of_it(rt: HostRuntime) {
    pay_visit(&rt, Visit::DieWithin);
}

#[test]
fn a_connection_is_within_no_more_contexts_than_it_may_be(rt: HostRuntime) {
    let heard = Mutex::new(Vec::new(rt.alloc()));
    let one = Sharing {
        contexts: 1,
        ..USUAL
    };
    visit_service(&rt, one, Visit::FillContexts, &heard);
}
