//! The file of a record, which has the arguments and the answers of calls.

ghost use Rattle.std.specs.Prelude.{◌≤◌, length};

use crate::folder::make_folder;
use std::alloc::Global;
use std::fs::{File, Files, OpenOptions, Permissions};
use std::io::{ErrorKind, Read, Write};
use std::os::unix::fs::PermissionsExt;
use std::{fs, io};

/// The rights of a new record: its owner alone may read it.
const RECORD_MODE: u32 = 0o600;

/// Where the system tells what a process may have.
const LIMITS: &str = "/proc/self/limits";

/// More bytes than the system tells of them.
const MOST_LIMITS: u64 = 1 << 16;

/// The file of a record. It gets no more bytes than a file of the process may have, since the system ends a process that writes
/// more. Where a write fails, the file is cut behind its last whole line, so that what is there can be replayed.
#[derive(Drop)]
pub struct RecordFile {
    file: File,
    /// How many bytes it may have.
    limit: u64,
    /// How many bytes were written.
    written: u64,
    /// How many bytes stand before the end of the last whole line.
    whole: u64,
}

impl RecordFile {
    /// The file, of which nothing was written, and which may have so many bytes.
    fn new(file: File, limit: u64) -> RecordFile {
        RecordFile {
            file,
            limit,
            written: 0,
            whole: 0,
        }
    }

    /// The bytes that there is room for: all of them, or else the whole lines among those that fit.
    fn fitting<'b>(&self, bytes: &'b [u8]) -> &'b [u8]
        ensures { length result.now ≤ length bytes.now }
    {
        let room = self.limit.saturating_sub(self.written) as usize;
        if bytes.len() <= room {
            return bytes;
        }
        whole_lines(&bytes[..room.min(bytes.len())])
    }

    /// Notes bytes that were written.
    fn note(&mut self, bytes: &[u8]) {
        let lines = whole_lines(bytes);
        if !lines.is_empty() {
            self.whole = self.written.saturating_add(lines.len() as u64);
        }
        self.written = self.written.saturating_add(bytes.len() as u64);
    }

    /// Takes off what stands behind the last whole line. What is no file, as a pipe, stays as it is.
    fn cut(&mut self) {
        let _ = self.file.set_len(self.whole);
    }
}

impl Write for RecordFile {
    fn write(&mut self, buf: &[u8]) -> io::Result<usize> {
        let bytes = self.fitting(buf);
        if bytes.is_empty() && !buf.is_empty() {
            self.cut();
            return Err(io::Error::from(ErrorKind::WriteZero));
        }
        match self.file.write(bytes) {
            Ok(count) => {
                self.note(&bytes[..count]);
                Ok(count)
            }
            Err(error) if error.kind() == ErrorKind::Interrupted => Err(error),
            Err(error) => {
                self.cut();
                Err(error)
            }
        }
    }

    fn flush(&mut self) -> io::Result<()> {
        self.file.flush()
    }
}

/// The whole lines at the front of the bytes.
fn whole_lines(bytes: &[u8]) -> &[u8]
    ensures { length result.now ≤ length bytes.now }
{
    let mut count = 0;
    for (place, byte) in bytes.iter().enumerate() {
        if *byte == b'\n' {
            count = place.saturating_add(1);
        }
    }
    &bytes[..count.min(bytes.len())]
}

/// How many bytes a file of the process may have, as the system tells it: any number where it tells none.
fn file_limit<R: Files<File = File>>(rt: &R, alloc: Global) -> u64 {
    let mut text = String::new(alloc);
    let told = match File::open(rt, LIMITS) {
        Ok(file) => file.take(MOST_LIMITS).read_to_string(&mut text).is_ok(),
        Err(_) => false,
    };
    if told {
        limit_in(text.as_str()).unwrap_or(u64::MAX)
    } else {
        u64::MAX
    }
}

/// The number of bytes in the line of the limits that tells of files, where it has one.
fn limit_in(text: &str) -> Option<u64> {
    for line in text.lines() {
        if let Some(rest) = line.strip_prefix("Max file size") {
            let (soft, _) = rest.trim_start().split_once(' ')?;
            return soft.parse::<u64>().ok();
        }
    }
    None
}

/// Opens the file of a record. One that is there is emptied, and keeps its rights. A new one has mode 0600 from the beginning on.
///
/// Where a symbolic link stands at the path that leads to no file, none is made, and the error is `AlreadyExists`.
pub(crate) fn open_record<R: Files<File = File>>(
    rt: &R,
    alloc: Global,
    path: &str,
) -> io::Result<RecordFile> {
    let file = match OpenOptions::new().write(true).truncate(true).open(rt, path) {
        Err(error) if error.kind() == ErrorKind::NotFound => make_record(rt, alloc, path)?,
        opened => opened?,
    };
    Ok(RecordFile::new(file, file_limit(rt, alloc)))
}

/// Makes the file in a folder that nobody else may look into, and gives it its path.
fn make_record<R: Files<File = File>>(rt: &R, alloc: Global, path: &str) -> io::Result<File> {
    let folder = make_folder(rt, alloc, path)?;
    let made = make_in(rt, alloc, folder.as_str(), path);
    let _ = fs::remove_dir(rt, folder.as_str());
    made
}

/// Makes the file in the folder, with its rights, and gives it the path too. Nothing is left in the folder then.
fn make_in<R: Files<File = File>>(
    rt: &R,
    alloc: Global,
    folder: &str,
    path: &str,
) -> io::Result<File> {
    let name = format!(in alloc; "{folder}/r")?;
    let file = OpenOptions::new()
        .write(true)
        .create_new(true)
        .open(rt, name.as_str())?;
    let placed = match fs::set_permissions(rt, name.as_str(), Permissions::from_mode(RECORD_MODE)) {
        Ok(()) => fs::hard_link(rt, name.as_str(), path),
        Err(error) => Err(error),
    };
    let _ = fs::remove_file(rt, name.as_str());
    placed?;
    Ok(file)
}
