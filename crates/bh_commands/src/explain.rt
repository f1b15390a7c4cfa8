//! What `--explain` adds on standard error: a line that says more than a fixed text, or than the answer to a faulty line.
//!
//! Each line begins with `explain: `. Whether it could be written changes nothing, and where memory is refused it is left
//! out.

mod faulty_line;
pub(crate) mod notes;
mod settings;
mod shown;

use crate::file::{FileError, Unread};
pub use settings::refused_settings;
use std::io;
use std::io::Write;

/// Of a settings file of this name that gave no bytes: what the system says of it, or that it is too long.
pub fn unread_file<E: Write>(errors: &mut E, name: &str, unread: &Unread) {
    let _ = match (unread.error, &unread.reason) {
        (FileError::Memory, _) => Ok(()),
        (FileError::TooLong, _) => writeln!(
            errors,
            "explain: {name}: more than 4194304 bytes, the most that a settings file may have"
        ),
        (FileError::Unreadable, Some(reason)) => writeln!(errors, "explain: {name}: {reason}"),
        (FileError::Unreadable, None) => Ok(()),
    };
}

/// Of a port that can't be bound: what the system says of it.
pub fn unbound_port<E: Write>(errors: &mut E, port: u16, reason: &io::Error) {
    let _ = writeln!(errors, "explain: port {port} of 127.0.0.1: {reason}");
}

/// Of a record that can't be begun: what the system says of it.
pub fn unopened_record<E: Write>(errors: &mut E, path: &str, reason: &io::Error) {
    let _ = writeln!(errors, "explain: record {path}: {reason}");
}

/// Of a socket that can't be made: what the system says of it.
pub fn unbound_socket<E: Write>(errors: &mut E, path: &str, reason: &io::Error) {
    let _ = writeln!(errors, "explain: socket {path}: {reason}");
}
