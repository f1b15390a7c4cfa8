//! The way of a service's texts to standard error: whoever has one puts it into a queue, and one thread writes them.

use crate::report::{Report, ReportQueue};
use std::io::Write;
use std::rt::Clock;
use std::sync::{Condvar, Mutex, Wait};
use std::time::Duration;

/// How long a service that has ended waits for its texts to be written, in milliseconds.
const LINGER: u64 = 750;

/// The texts of one service. Whoever puts one there waits for no reader of standard error.
#[derive(Drop)]
pub struct Reports {
    inside: Mutex<Inside>,
    changed: Condvar,
}

/// What is known of the texts.
#[derive(Drop)]
struct Inside {
    queue: ReportQueue,
    /// No further text comes.
    closed: bool,
    /// All texts were written.
    over: bool,
}

impl Inside {
    /// Whether there is nothing to write yet.
    fn is_quiet(&self) -> bool {
        self.queue.is_empty() && !self.closed
    }
}

impl Reports {
    /// No text has come.
    pub fn new() -> Reports {
        Reports {
            inside: Mutex::new(Inside {
                queue: ReportQueue::new(),
                closed: false,
                over: false,
            }),
            changed: Condvar::new(),
        }
    }

    /// Puts a text behind the others, or counts it where too many wait.
    pub fn put<R: Wait>(&self, rt: &R, report: Report) {
        let mut inside = self.inside.lock(rt);
        inside.queue.put(report);
        self.changed.notify_all();
    }

    /// Writes the texts as they come, a line each, until the queue is closed and empty. What cannot be written is given up.
    pub fn write_to<R: Wait, E: Write>(&self, rt: &R, errors: &Mutex<E>) {
        for _ in rt.forever() {
            let Some(report) = self.next(rt) else {
                break;
            };
            let mut errors = errors.lock(rt);
            let _ = writeln!(&mut *errors, "{report}");
        }
        self.inside.lock(rt).over = true;
        self.changed.notify_all();
    }

    /// Waits for the next text. None where no further one comes.
    fn next<R: Wait>(&self, rt: &R) -> Option<Report> {
        let mut inside = self
            .changed
            .wait_while(rt, self.inside.lock(rt), |inside| inside.is_quiet());
        inside.queue.take()
    }

    /// Says that no further text comes.
    pub fn close<R: Wait>(&self, rt: &R) {
        self.inside.lock(rt).closed = true;
        self.changed.notify_all();
    }

    /// Says that no further text comes, and waits a while for the others to be written: three quarters of a second at most.
    /// Whether they were.
    pub fn finish<R: Wait + Clock>(&self, rt: &R) -> bool {
        self.close(rt);
        let (inside, _) = self.changed.wait_timeout_while(
            rt,
            self.inside.lock(rt),
            Duration::from_millis(LINGER),
            |inside| !inside.over,
        );
        inside.over
    }
}
