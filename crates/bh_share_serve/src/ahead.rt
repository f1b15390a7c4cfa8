//! What a client sends, of which a part may be read before it is asked for.

ghost use Rattle.std.specs.Prelude.{◌≤◌, length};

use bh_serve::connection::{ConnectionFault, Incoming};
use bh_sharing::Presence;
use std::alloc::Global;
use std::io;
use std::io::{ErrorKind, Read};
use std::rt::Clock;
use std::sync::{Mutex, Wait};

/// So many bytes are asked for at a time.
const PIECE: usize = 1024;

/// Where so many bytes were read before they were asked for, no more are.
const MOST_AHEAD: usize = 65_536;

/// What a client sends. While a line of it waits, what comes is read and kept, so that it is known when the client is gone.
#[derive(Drop)]
pub struct Ahead<'e, R> {
    rt: &'e R,
    inside: Mutex<Inside<'e, R>>,
}

/// The bytes that were read and not asked for yet, and those that come.
#[derive(Drop)]
struct Inside<'e, R> {
    incoming: Incoming<'e, R>,
    read: Vec<u8>,
    taken: usize,
    gone: bool,
}

impl<'e, R: Wait + Clock> Ahead<'e, R> {
    /// What comes, of which nothing was read yet.
    pub fn new(rt: &'e R, alloc: Global, incoming: Incoming<'e, R>) -> Ahead<'e, R> {
        Ahead {
            rt,
            inside: Mutex::new(Inside {
                incoming,
                read: Vec::new(alloc),
                taken: 0,
                gone: false,
            }),
        }
    }

    /// Why a read waited in vain, where one did.
    pub fn fault(&self) -> Option<ConnectionFault> {
        self.inside.lock(self.rt).incoming.fault()
    }

    /// Whether the client was seen to be gone while a line of it waited.
    pub fn was_gone(&self) -> bool {
        self.inside.lock(self.rt).gone
    }
}

impl<R: Wait + Clock> Presence for Ahead<'_, R> {
    ghost use Rattle.std.specs.Prelude.{⊤};

    ghost gone = { ⊤ };

    /// A client that sent more than 65,536 bytes behind the line that waits is not seen to be gone.
    fn is_gone(&self) -> bool {
        let mut inside = self.inside.lock(self.rt);
        let inside = &mut *inside;
        if !inside.gone {
            inside.gone = inside.look_ahead();
        }
        inside.gone
    }
}

impl<R: Wait + Clock> Inside<'_, R> {
    /// Reads what has come, and whether the client sends nothing more.
    fn look_ahead(&mut self) -> bool {
        if self.read.len() >= MOST_AHEAD || self.read.reserve(PIECE).is_err() {
            return false;
        }
        let mut piece = [0u8; PIECE];
        match self.incoming.read_now(&mut piece) {
            None => false,
            Some(Ok(0)) => true,
            Some(Ok(count)) => self.read.extend_from_slice(&piece[..count]).is_err(),
            Some(Err(error)) => error.kind() != ErrorKind::Interrupted,
        }
    }

    /// Takes bytes that were read before they were asked for, as many as there is room for.
    fn take(&mut self, buf: &mut [u8]) -> usize
        ensures { result ≤ length buf.new }
    {
        let left = &self.read[self.taken.min(self.read.len())..];
        let count = left.len().min(buf.len());
        buf[..count].copy_from_slice(&left[..count]);
        self.taken += count;
        if self.taken >= self.read.len() {
            self.read.clear();
            self.taken = 0;
        }
        count
    }
}

impl<R: Wait + Clock> Read for &Ahead<'_, R> {
    fn read(&mut self, buf: &mut [u8]) -> io::Result<usize> {
        let mut inside = self.inside.lock(self.rt);
        let inside = &mut *inside;
        if !inside.read.is_empty() {
            return Ok(inside.take(buf));
        }
        inside.incoming.read(buf)
    }
}
