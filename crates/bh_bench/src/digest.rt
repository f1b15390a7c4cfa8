//! A digest of what a workload was told.

use std::io;
use std::io::Write;

/// An odd multiplier near 2^64 divided by the golden ratio, which brings neighbours far apart (Knuth).
const SPREAD: u64 = 11400714819323198485;

/// A number for the results so far, in their order. How a text was cut into pieces plays no part.
#[derive(Drop)]
pub struct Digest {
    state: u64,
    /// The bytes that do not make eight yet, the last ones uppermost.
    word: u64,
    /// How many they are.
    held: u8,
}

impl Digest {
    /// Of no result.
    pub(crate) fn new() -> Digest {
        Digest {
            state: 0,
            word: 0,
            held: 0,
        }
    }

    /// The number for all results so far.
    pub(crate) fn value(&self) -> u64 {
        self.state ^ self.word ^ u64::from(self.held)
    }

    /// A number more.
    pub(crate) fn number(&mut self, number: u64) {
        let mixed = (self.state ^ number).wrapping_mul(SPREAD);
        self.state = mixed ^ (mixed >> 29);
    }

    /// Bytes more.
    pub(crate) fn bytes(&mut self, bytes: &[u8]) {
        let mut rest = bytes;
        for byte in bytes.iter().take(usize::from(8 - self.held.min(8)) % 8) {
            self.byte(*byte);
            rest = rest.get(1..).unwrap_or(&[]);
        }
        for word in rest.chunks_exact(8) {
            self.number(word_of(word));
        }
        for byte in rest.get(rest.len() / 8 * 8..).unwrap_or(&[]) {
            self.byte(*byte);
        }
    }

    /// A byte more.
    fn byte(&mut self, byte: u8) {
        self.word = (self.word >> 8) | (u64::from(byte) << 56);
        if self.held < 7 {
            self.held += 1;
            return;
        }
        self.held = 0;
        self.number(self.word);
    }
}

/// The number that eight bytes make, the first ones lowest.
fn word_of(bytes: &[u8]) -> u64 {
    match bytes {
        [a, b, c, d, e, f, g, h] => u64::from_le_bytes([*a, *b, *c, *d, *e, *f, *g, *h]),
        _ => 0,
    }
}

impl Write for Digest {
    fn write(&mut self, buf: &[u8]) -> io::Result<usize> {
        self.bytes(buf);
        Ok(buf.len())
    }

    fn flush(&mut self) -> io::Result<()> {
        Ok(())
    }
}
