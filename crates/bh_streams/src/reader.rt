//! A reader, and what was seen of it.

ghost use Rattle.std.specs.Prelude.{◌≡◌, OnOk, OnErr};
ghost use Rattle.std.specs.Io.{ReadsAtMost};
ghost use Rattle.std.specs.Io.KnownBytes.{ReadConsumes};
ghost use Rattle.bh_streams.specs.Watched.{saturating_count, reader_of, reads_of, failures_of, bytes_left, OneFailed, NoneFailed};

use std::io;
use std::io::Read;

/// A reader of which is counted how many reads were made, and how many of them failed. Only reads change the counts,
/// and each stops at 2^64 - 1.
#[derive(Drop)]
pub struct WatchedReader<'a, R> {
    reader: &'a mut R,
    reads: u64,
    failures: u64,
}

impl<'a, R: Read> WatchedReader<'a, R> {
    /// The reader, of which nothing was seen yet.
    pub fn new(reader: &'a mut R) -> WatchedReader<'a, R>
        ensures same_reader { (reader_of result).ghost_name ≡ reader.entry.ghost_name }
        ensures same { (reader_of result).now ≡ reader.old }
        ensures no_reads { reads_of result ≡ 0 }
        ensures no_failures { failures_of result ≡ 0 }
    {
        WatchedReader {
            reader,
            reads: 0,
            failures: 0,
        }
    }

    /// How many reads were made.
    pub fn reads(&self) -> u64
        ensures { result ≡ reads_of self.now }
    {
        self.reads
    }

    /// How many reads failed.
    pub fn failures(&self) -> u64
        ensures { result ≡ failures_of self.now }
    {
        self.failures
    }

    /// One read.
    pub fn read(&mut self, buf: &mut [u8]) -> io::Result<usize>
        ensures same_reader { (reader_of self.new).ghost_name ≡ (reader_of self.old).ghost_name }
        ensures bound { ReadsAtMost result buf.new }
        ensures bytes { ReadConsumes (bytes_left R.remaining self.old) (bytes_left R.remaining self.new) result buf.new }
        ensures one { reads_of self.new ≡ saturating_count (reads_of self.old) 1 }
        ensures ok { OnOk result (NoneFailed self.old self.new) }
        ensures err { OnErr result (OneFailed self.old self.new) }
    {
        self.reads = self.reads.saturating_add(1);
        let result = self.reader.read(buf);
        if result.is_err() {
            self.failures = self.failures.saturating_add(1);
        }
        result
    }
}
