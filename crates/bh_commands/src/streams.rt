//! The standard streams of the program.

use std::fs::{File, Files, OpenOptions};
use std::os::fd::AsRawFd;

/// The descriptor of the last of the standard streams.
const LAST_STREAM: i32 = 2;

/// What stands in for standard streams that were closed when the program began.
#[derive(Drop)]
pub struct StandIns {
    files: [Option<File>; 3],
}

impl StandIns {
    /// Opens `/dev/null` in the place of each standard stream that is closed, before any file or socket gets its descriptor:
    /// texts for a reader would go into a record, or to a client. They are closed with what this gives, so it is kept to the
    /// end. Where the system has no `/dev/null`, the streams stay closed.
    pub fn open<R: Files<File = File>>(rt: &R) -> StandIns {
        StandIns {
            files: [stand_in(rt), stand_in(rt), stand_in(rt)],
        }
    }
}

/// What stands in for the first stream that is closed, since a file gets the least descriptor that is free; None where none is
/// closed.
fn stand_in<R: Files<File = File>>(rt: &R) -> Option<File> {
    let null = OpenOptions::new()
        .read(true)
        .write(true)
        .open(rt, "/dev/null")
        .ok()?;
    if null.as_raw_fd() <= LAST_STREAM {
        Some(null)
    } else {
        None
    }
}
