//! What a connection had is free once it has ended, and no other one has it.

use crate::scene::{Scene, USUAL, Visit, pay_visit, visit_service};
use bh_share_serve::Sharing;
use std::net::{Net, TcpListener, TcpStream};
use std::process::Abort;
use std::rt::Clock;
use std::sync::{Mutex, Wait};

const SUBMIT: &str = r#"{"op":"submit","group":"web","arg":"x"}"#;

impl<
    'e,
    R: Net<Listener = TcpListener, Stream = TcpStream> + Wait + Clock + Abort + AllocGlobal,
> Scene<'e, R> {
    /// A client with all permits in its hands ends, and another one gets one.
    pub(crate) fn kill_holder(&self) {
        let (dead, other) = (self.connect(), self.connect());
        for _ in 0..10 {
            self.say(&dead, SUBMIT);
            self.say(&dead, "\n");
            assert!(self.rt; self.hear(&dead).as_str().contains("inline"));
        }
        self.assert_answer(
            &other,
            SUBMIT,
            r#"{"cause":"semaphore-rejected","reply":"fallback-due","ticket":11}"#,
        );
        drop(dead);
        self.await_metrics(&other, r#"{"op":"metrics","group":"web"}"#, "\"busy\":0,");
        self.assert_answer(&other, SUBMIT, r#"{"reply":"inline","ticket":12}"#);
    }

    /// A client can neither end nor collect what another one began.
    pub(crate) fn end_anothers(&self) {
        let (mine, other) = (self.connect(), self.connect());
        self.assert_answer(&mine, SUBMIT, r#"{"reply":"inline","ticket":1}"#);
        let finish = r#"{"op":"finish","group":"web","ticket":1,"body":"y"}"#;
        let collect = r#"{"op":"collect","group":"web","ticket":1}"#;
        self.assert_answer(&other, finish, r#"{"reply":"not-running"}"#);
        self.assert_answer(&other, collect, r#"{"reply":"no-ticket"}"#);
        self.assert_answer(
            &other,
            r#"{"op":"fallback","group":"web","ticket":1,"end":"failure"}"#,
            r#"{"reply":"not-in-fallback"}"#,
        );
        self.assert_answer(&mine, finish, r#"{"reply":"done"}"#);
        self.assert_answer(&mine, collect, r#"{"body":"y","reply":"value"}"#);
    }

    /// A connection has as many tickets as it may, and one more once it has given one back.
    pub(crate) fn fill_tickets(&self) {
        let stream = self.connect();
        self.assert_answer(&stream, SUBMIT, r#"{"reply":"inline","ticket":1}"#);
        self.assert_answer(&stream, SUBMIT, r#"{"reply":"inline","ticket":2}"#);
        self.assert_answer(&stream, SUBMIT, r#"{"error":"full"}"#);
        let start = r#"{"op":"start","group":"pool","wait":true}"#;
        self.assert_answer(&stream, start, r#"{"error":"full"}"#);
        let finish = r#"{"op":"finish","group":"web","ticket":1,"body":""}"#;
        self.assert_answer(&stream, finish, r#"{"reply":"done"}"#);
        let collect = r#"{"op":"collect","group":"web","ticket":1}"#;
        self.assert_answer(&stream, collect, r#"{"body":"","reply":"value"}"#);
        self.assert_answer(&stream, SUBMIT, r#"{"reply":"inline","ticket":3}"#);
    }
}

#[test]
fn a_client_that_is_gone_keeps_no_permit(rt: HostRuntime) {
    pay_visit(&rt, Visit::KillHolder);
}

#[test]
fn a_client_ends_and_collects_nothing_that_another_began(rt: HostRuntime) {
    pay_visit(&rt, Visit::EndAnothers);
}

#[test]
fn a_connection_has_no_more_tickets_than_it_may(rt: HostRuntime) {
    let heard = Mutex::new(Vec::new(rt.alloc()));
    let few = Sharing {
        tickets: 2,
        ..USUAL
    };
    visit_service(&rt, few, Visit::FillTickets, &heard);
}
