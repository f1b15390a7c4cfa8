//! Readers that give little at a time or fail, and writers that take little, fail or take none.

use crate::operations::CACHE;
use crate::runs::{assert_bytes, assert_end};
use crate::scripts::{Texts, script_of, texts_of};
use bh_commands::run_file;
use std::io;
use std::io::{ErrorKind, Read, Write};
use std::process::Abort;

/// A reader that gives so many bytes at a time, and fails at a call where one is given.
#[derive(Drop)]
pub(crate) struct PieceReader<'a> {
    rest: &'a [u8],
    size: usize,
    calls: usize,
    fails_at: Option<usize>,
}

impl Read for PieceReader<'_> {
    fn read(&mut self, buf: &mut [u8]) -> io::Result<usize> {
        self.calls = self.calls.saturating_add(1);
        if self.fails_at == Some(self.calls) {
            return Err(io::Error::from(ErrorKind::Other));
        }
        let size = self.size.min(buf.len());
        self.rest.read(&mut buf[..size])
    }
}

/// A writer that keeps what it takes, so many bytes at a time, and at a call where one is given fails or takes none.
#[derive(Drop)]
pub(crate) struct PieceWriter {
    pub(crate) written: Vec<u8>,
    size: usize,
    calls: usize,
    stuck_at: Option<usize>,
    fails: bool,
}

impl Write for PieceWriter {
    fn write(&mut self, buf: &[u8]) -> io::Result<usize> {
        self.calls = self.calls.saturating_add(1);
        if self.stuck_at == Some(self.calls) {
            return if self.fails {
                Err(io::Error::from(ErrorKind::Other))
            } else {
                Ok(0)
            };
        }
        let taken = self.size.min(buf.len());
        match self.written.extend_from_slice(&buf[..taken]) {
            Ok(()) => Ok(taken),
            Err(_) => Err(io::Error::from(ErrorKind::OutOfMemory)),
        }
    }

    fn flush(&mut self) -> io::Result<()> {
        Ok(())
    }
}

/// How many line feeds there are.
fn feeds(bytes: &[u8]) -> usize {
    bytes.iter().filter(|byte| **byte == b'\n').count()
}

/// A reader of the input.
pub(crate) fn pieces(input: &str, size: usize, fails_at: Option<usize>) -> PieceReader<'_> {
    PieceReader {
        rest: input.as_bytes(),
        size,
        calls: 0,
        fails_at,
    }
}

/// A writer that has taken nothing.
pub(crate) fn writer<R: AllocGlobal>(
    rt: &R,
    size: usize,
    stuck_at: Option<usize>,
    fails: bool,
) -> PieceWriter {
    PieceWriter {
        written: Vec::new(rt.alloc()),
        size,
        calls: 0,
        stuck_at,
        fails,
    }
}

/// Runs the input under the settings of the script of the cache, and asserts how it ends.
fn assert_piecewise<R: Abort + AllocGlobal>(
    rt: &R,
    reader: &mut PieceReader<'_>,
    writer: &mut PieceWriter,
    status: u8,
    errors: &str,
) {
    let mut reported = Vec::new(rt.alloc());
    let answered = run_file(
        rt.alloc(),
        script_of(CACHE).settings.as_bytes(),
        reader,
        writer,
        &mut reported,
    );
    assert_end(rt, answered, status);
    assert_bytes(rt, &reported, errors, "the errors");
}

#[test]
fn the_answers_to_one_piece_are_one_write(rt: HostRuntime) {
    let cache = texts_of(&rt, script_of(CACHE).lines);
    let mut reader = pieces(cache.input.as_str(), cache.input.len(), None);
    let mut writer = writer(&rt, cache.output.len(), None, false);
    assert_piecewise(&rt, &mut reader, &mut writer, 0, "");
    assert_eq!(rt; writer.calls, 1);
    assert_bytes(&rt, &writer.written, cache.output.as_str(), "the output");
}

/// Runs the script by pieces of such a size, and asserts that it is answered as ever.
fn assert_pieces<R: Abort + AllocGlobal>(rt: &R, cache: &Texts, size: usize) {
    let mut reader = pieces(cache.input.as_str(), size, None);
    let mut writer = writer(rt, size, None, false);
    assert_piecewise(rt, &mut reader, &mut writer, 0, "");
    assert_bytes(rt, &writer.written, cache.output.as_str(), "the output");
}

#[test]
fn pieces_of_any_length_give_the_same_bytes(rt: HostRuntime) {
    let cache = texts_of(&rt, script_of(CACHE).lines);
    for size in 1..41 {
        assert_pieces(&rt, &cache, size);
    }
}

/// How many lines had come whole before the call of a reader of 40 bytes at a time.
fn lines_before(input: &str, call: usize) -> usize {
    let given = input.len().min(call.saturating_sub(1).saturating_mul(40));
    feeds(&input.as_bytes()[..given])
}

/// Asserts that the lines that had come whole were answered before the read that failed.
fn assert_failed_read<R: Abort + AllocGlobal>(rt: &R, cache: &Texts, call: usize) {
    let mut reader = pieces(cache.input.as_str(), 40, Some(call));
    let mut writer = writer(rt, cache.output.len(), None, false);
    assert_piecewise(rt, &mut reader, &mut writer, 3, "fault: read\n");
    let written = writer.written.as_slice();
    assert_eq!(rt; feeds(written), lines_before(cache.input.as_str(), call));
    assert!(rt; cache.output.as_str().as_bytes().starts_with(written));
}

#[test]
fn a_reader_that_fails_at_any_call(rt: HostRuntime) {
    let cache = texts_of(&rt, script_of(CACHE).lines);
    // One for each piece of 40 bytes, and one that finds the end.
    let calls = cache.input.len() / 40 + 2;
    for call in 1..calls + 1 {
        assert_failed_read(&rt, &cache, call);
    }
}

/// Asserts that what was written before the call that failed or took nothing stays written.
fn assert_stuck<R: Abort + AllocGlobal>(rt: &R, cache: &Texts, call: usize, fails: bool) {
    let mut reader = pieces(cache.input.as_str(), cache.input.len(), None);
    let mut writer = writer(rt, 40, Some(call), fails);
    assert_piecewise(rt, &mut reader, &mut writer, 3, "fault: write\n");
    let written = writer.written.as_slice();
    assert_eq!(rt; written.len(), call.saturating_sub(1).saturating_mul(40));
    assert!(rt; cache.output.as_str().as_bytes().starts_with(written));
}

#[test]
fn a_writer_that_fails_or_takes_no_byte_at_any_call(rt: HostRuntime) {
    let cache = texts_of(&rt, script_of(CACHE).lines);
    for call in 1..cache.output.len() / 40 + 1 {
        assert_stuck(&rt, &cache, call, true);
        assert_stuck(&rt, &cache, call, false);
    }
}
