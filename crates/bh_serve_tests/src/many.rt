//! Many connections at a time.

use crate::scene::{Scene, Visit, pay_visit};
use std::net::{Net, TcpListener, TcpStream};
use std::process::Abort;
use std::rt::Clock;
use std::sync::Wait;
use std::thread;
use std::thread::Threads;

/// So many clients but one are there at a time.
const CLIENTS: usize = 63;

/// So many requests each of them makes.
const ROUNDS: usize = 10;

impl<
    'e,
    R: Net<Listener = TcpListener, Stream = TcpStream> + Wait + Clock + Abort + AllocGlobal,
> Scene<'e, R> {
    /// A client makes its requests, and works for whoever's are first.
    fn work(&self) {
        let stream = self.connect();
        for _ in 0..ROUNDS {
            self.work_once(&stream);
        }
    }

    /// One request, and one run.
    fn work_once(&self, stream: &TcpStream) {
        self.say(
            stream,
            "{\"op\":\"submit\",\"group\":\"pool\",\"arg\":\"x\"}\n{\"op\":\"start\",\"group\":\"pool\",\"wait\":true}\n",
        );
        let queued = self.hear(stream);
        let assigned = self.hear(stream);
        self.say(
            stream,
            "{\"op\":\"finish\",\"group\":\"pool\",\"body\":\"y\",",
        );
        self.say_ticket(stream, assigned.as_str());
        self.assert_heard(stream, r#"{"reply":"done"}"#);
        self.say(
            stream,
            "{\"op\":\"collect\",\"group\":\"pool\",\"wait\":true,",
        );
        self.say_ticket(stream, queued.as_str());
        self.assert_heard(stream, r#"{"body":"y","reply":"value"}"#);
    }

    /// Ends a line by the ticket that the reply names.
    fn say_ticket(&self, stream: &TcpStream, reply: &str) {
        let found = reply.find("\"ticket\"");
        let at = found.expect(self.rt, "a ticket");
        self.say(stream, &reply[at..]);
        self.say(stream, "\n");
    }
}

impl<
    'e,
    R: Threads
        + Net<Listener = TcpListener, Stream = TcpStream>
        + Wait
        + Clock
        + Abort
        + AllocGlobal
        + Sync,
> Scene<'e, R> {
    /// Many clients make requests at a time, and each request is answered.
    pub(crate) fn many_clients(&self) {
        let last = self.connect();
        let done = thread::map_indices(self.rt, self.rt.alloc(), CLIENTS, &|_client| self.work());
        assert!(self.rt; done.is_ok());
        self.await_metrics(
            &last,
            r#"{"op":"metrics","group":"pool"}"#,
            r#""events":{"SUCCESS":630},"free":64,"#,
        );
    }
}

#[test]
fn the_requests_of_many_connections_are_all_answered(rt: HostRuntime) {
    pay_visit(&rt, Visit::ManyClients);
}
