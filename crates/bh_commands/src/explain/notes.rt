//! A run that is explained: what its reader gives and its writer takes is noted, so that each faulty line can be told by its
//! number.

ghost use Rattle.std.specs.Prelude.{◌≡◌, MatchResult};

use crate::explain::faulty_line::faulty_line;
use crate::report;
use bh_lines::lines::LINE_LIMIT;
use bh_lines::{PortError, last_line, next_line};
use bytes::BytesMut;
use std::alloc::Global;
use std::cell::RefCell;
use std::io::{Read, Write};
use std::{io, str};

/// The most bytes of an answer that are kept: more than the line of any fault has.
const MOST_KEPT: usize = 64;

/// What is noted of a run: the bytes that were read of lines without an answer, the front of the answer that is being
/// written, how many lines were answered, and what the system said of the first read or write that failed.
///
/// Where memory is refused for a note, no further line is explained.
#[derive(Drop)]
pub(crate) struct Notes<E> {
    pub(crate) errors: E,
    alloc: Global,
    waiting: BytesMut,
    answer: Vec<u8>,
    answered: u64,
    failure: Option<io::Error>,
    are_whole: bool,
}

impl<E: Write> Notes<E> {
    /// Notes of a run that has not begun. Explanations go to `errors`.
    pub(crate) fn new(alloc: Global, errors: E) -> Notes<E> {
        Notes {
            errors,
            alloc,
            waiting: BytesMut::new(alloc),
            answer: Vec::new(alloc),
            answered: 0,
            failure: None,
            are_whole: true,
        }
    }

    /// Notes what a read gave.
    fn note_read(&mut self, bytes: &[u8]) {
        if self.are_whole && self.waiting.extend_from_slice(bytes).is_err() {
            self.are_whole = false;
        }
    }

    /// Notes what a write took, and explains each line of which the answer ends in it where that is a fault.
    fn note_written(&mut self, bytes: &[u8]) {
        for byte in bytes {
            self.note_byte(*byte);
        }
    }

    /// Notes the first failure.
    fn note_failure(&mut self, error: io::Error) {
        if self.failure.is_none() {
            self.failure = Some(error);
        }
    }

    /// Notes a byte of an answer.
    fn note_byte(&mut self, byte: u8) {
        if byte == b'\n' {
            self.end_answer();
            self.answer.clear();
        } else if self.answer.len() < MOST_KEPT && self.answer.push(byte).is_err() {
            self.are_whole = false;
        }
    }

    /// Takes the line whose answer has ended, and explains it where it is at fault.
    fn end_answer(&mut self) {
        self.answered = self.answered.saturating_add(1);
        if !self.are_whole {
            return;
        }
        let line = match next_line(&mut self.waiting) {
            Ok(None) => last_line(&mut self.waiting),
            line => line,
        };
        let Ok(Some(line)) = line else {
            self.are_whole = false;
            return;
        };
        if let Some(fault) = fault_in(self.answer.as_slice()) {
            let _ = faulty_line(
                &mut self.errors,
                self.alloc,
                self.answered,
                line.as_str(),
                fault,
            );
        }
    }

    /// The exit status of a run that ended so. A fault is reported, and more is said of it.
    pub(crate) fn status_of(&mut self, ended: Result<(), PortError>) -> u8
        ensures { MatchResult ended (λ _. result ≡ 0) (λ _. result ≡ 3) }
    {
        match ended {
            Ok(()) => 0,
            Err(error) => self.end(error),
        }
    }

    /// Reports the fault that ended the run, says more of it, and answers the exit status.
    fn end(&mut self, error: PortError) -> u8
        ensures { result ≡ 3 }
    {
        let status = report::port(&mut self.errors, error);
        let _ = match (error, self.failure) {
            (PortError::Line, _) => self.explain_line(),
            (PortError::Read, Some(reason)) => {
                writeln!(&mut self.errors, "explain: standard input: {reason}")
            }
            (PortError::Write, Some(reason)) => {
                writeln!(&mut self.errors, "explain: standard output: {reason}")
            }
            (PortError::Write, None) => {
                writeln!(
                    &mut self.errors,
                    "explain: standard output: it takes no byte"
                )
            }
            _ => Ok(()),
        };
        status
    }

    /// Says what is amiss with the line that ended the run.
    fn explain_line(&mut self) -> io::Result<()> {
        if !self.are_whole {
            return Ok(());
        }
        let number = self.answered.saturating_add(1);
        let front = self.waiting.as_slice().iter();
        let length = front.take_while(|byte| **byte != b'\n').count();
        if length > LINE_LIMIT {
            writeln!(
                &mut self.errors,
                "explain: line {number}: more than {LINE_LIMIT} bytes, the most that a line may have"
            )
        } else {
            writeln!(
                &mut self.errors,
                "explain: line {number}: a byte that is not UTF-8"
            )
        }
    }
}

/// The word of the fault that the answer tells, without its line feed.
fn fault_in(answer: &[u8]) -> Option<&str> {
    str::from_utf8(answer)
        .ok()?
        .strip_prefix("{\"error\":\"")?
        .strip_suffix("\"}")
}

/// A reader of which each read is noted.
#[derive(Drop)]
pub(crate) struct NotedReader<'a, R, E> {
    /// The reader.
    pub(crate) reader: R,
    /// The notes.
    pub(crate) notes: &'a RefCell<Notes<E>>,
}

impl<R: Read, E: Write> Read for NotedReader<'_, R, E> {
    ghost remaining = { λ noted. R.remaining noted.reader };

    fn read(&mut self, buf: &mut [u8]) -> io::Result<usize> {
        let result = self.reader.read(buf);
        if let Ok(mut notes) = self.notes.try_borrow_mut() {
            match result {
                Ok(count) => notes.note_read(&buf[..count]),
                Err(error) => notes.note_failure(error),
            }
        }
        result
    }
}

/// A writer of which each write is noted.
#[derive(Drop)]
pub(crate) struct NotedWriter<'a, W, E> {
    /// The writer.
    pub(crate) writer: W,
    /// The notes.
    pub(crate) notes: &'a RefCell<Notes<E>>,
}

impl<W: Write, E: Write> Write for NotedWriter<'_, W, E> {
    ghost contents = { λ noted. W.contents noted.writer };

    fn write(&mut self, buf: &[u8]) -> io::Result<usize> {
        let result = self.writer.write(buf);
        if let Ok(mut notes) = self.notes.try_borrow_mut() {
            match result {
                Ok(count) => notes.note_written(&buf[..count]),
                Err(error) => notes.note_failure(error),
            }
        }
        result
    }

    fn flush(&mut self) -> io::Result<()> {
        self.writer.flush()
    }
}
