//! How long a connection may keep the service waiting for a line.

ghost use Rattle.std.specs.Prelude.{◌≡◌, None, false};
ghost use Rattle.bh_serve.specs.Idle.{after_read, fault_in, left, new_clock, waited_after};

use crate::connection::ConnectionFault;
use std::marker::Model;

/// The clock of a connection whose client has to send each line whole within a limit, and to send something within it.
///
/// It counts what a read waits for bytes, in microseconds, and nothing else: so a call that is made for the client, and the
/// writing of its answers, take as long as they take. What was waited since the first byte of a line counts until the
/// line is whole, whatever comes of it meanwhile.
#[derive(Drop)]
pub struct IdleClock {
    limit: Option<u64>,
    half_line: bool,
    waited: u64,
}

impl Model for IdleClock {
    ghost use Rattle.bh_serve.specs.Idle.{ClockView};

    ghost Value = { ClockView };

    ghost view = { λ c. record { limit = c.limit; half_line = c.half_line; waited = c.waited } };
}

impl IdleClock {
    /// The clock of a connection that has sent nothing. Without a limit it may do nothing for any time.
    pub fn new(limit: Option<u64>) -> IdleClock
        ensures { result ≡ new_clock limit }
    {
        IdleClock {
            limit,
            half_line: false,
            waited: 0,
        }
    }

    /// How long the next read may wait, where there is a limit.
    pub fn left(&self) -> Option<u64>
        ensures { result ≡ left self.now }
    {
        let limit = self.limit?;
        Some(limit.saturating_sub(self.waited))
    }

    /// Why the connection ends where the next read waits so long in vain.
    pub fn fault(&self) -> ConnectionFault
        ensures { result ≡ fault_in self.now }
    {
        if self.waited == 0 {
            ConnectionFault::Idle
        } else {
            ConnectionFault::Slow
        }
    }

    /// A read that waited so long gave these bytes.
    pub fn note(&mut self, bytes: &[u8], waited: u64)
        ensures { self.new ≡ after_read bytes.now waited self.old }
    {
        let Some(last) = bytes.last() else {
            return;
        };
        self.waited = self.waited_after(bytes, waited);
        self.half_line = *last != b'\n';
    }

    /// How long was waited for the line that is not whole behind these bytes, up to them.
    fn waited_after(&self, bytes: &[u8], waited: u64) -> u64
        ensures { result ≡ waited_after bytes.now waited self.now }
    {
        if self.half_line && !bytes.contains(&b'\n') {
            self.waited.saturating_add(waited)
        } else {
            0
        }
    }
}
