//! A writer, and what was seen of it.

ghost use Rattle.std.specs.Prelude.{◌≡◌, true, false};
ghost use Rattle.std.specs.Io.{WritesAtMost};
ghost use Rattle.std.specs.Io.KnownBytes.{WriteAppends};
ghost use Rattle.bh_streams.specs.Watched.{writer_of, refusals_of, bytes_held, OneRefused, NoneRefused, is_refused_write};

use std::io;
use std::io::Write;

/// A writer of which is counted how many writes it refused: those that failed, or took none of the bytes that they were
/// given. Only writes change the count, which stops at 2^64 - 1.
#[derive(Drop)]
pub struct WatchedWriter<'a, W> {
    writer: &'a mut W,
    refusals: u64,
}

impl<'a, W: Write> WatchedWriter<'a, W> {
    /// The writer, of which nothing was seen yet.
    pub fn new(writer: &'a mut W) -> WatchedWriter<'a, W>
        ensures same_writer { (writer_of result).ghost_name ≡ writer.entry.ghost_name }
        ensures same { (writer_of result).now ≡ writer.old }
        ensures no_refusals { refusals_of result ≡ 0 }
    {
        WatchedWriter {
            writer,
            refusals: 0,
        }
    }

    /// How many writes failed, or took none of the bytes that they were given.
    pub fn refusals(&self) -> u64
        ensures { result ≡ refusals_of self.now }
    {
        self.refusals
    }

    /// One write.
    pub fn write(&mut self, buf: &[u8]) -> io::Result<usize>
        ensures same_writer { (writer_of self.new).ghost_name ≡ (writer_of self.old).ghost_name }
        ensures bound { WritesAtMost result buf.now }
        ensures bytes { WriteAppends (bytes_held W.contents self.old) (bytes_held W.contents self.new) result buf.now }
        ensures refused { is_refused_write result buf.now ≡ true → OneRefused self.old self.new }
        ensures took { is_refused_write result buf.now ≡ false → NoneRefused self.old self.new }
    {
        let result = self.writer.write(buf);
        let refused = match result {
            Ok(0) => !buf.is_empty(),
            Ok(_) => false,
            Err(_) => true,
        };
        if refused {
            self.refusals = self.refusals.saturating_add(1);
        }
        result
    }
}
