//! The line on standard error for a run that was refused or ended by a fault, and its status.
//!
//! Whether the line could be written changes nothing: there is nowhere left to say so.

ghost use Rattle.std.specs.Prelude.{◌≡◌};
ghost use Rattle.bh_commands.specs.Status.{settings_status};

use crate::file::FileError;
use crate::socket::SocketFault;
use bh_lines::PortError;
use bh_props::SettingsError;
use std::io::Write;

/// The status where the settings are refused.
const REFUSED: u8 = 1;

/// The status where a fault ended the run.
pub(crate) const FAULT: u8 = 3;

/// Of settings that are refused.
pub fn settings<E: Write>(errors: &mut E, error: SettingsError) -> u8
    ensures { result ≡ settings_status error }
{
    let _ = writeln!(errors, "{error}");
    match error {
        SettingsError::Memory => FAULT,
        _ => REFUSED,
    }
}

/// Of a script that ended early.
pub fn port<E: Write>(errors: &mut E, error: PortError) -> u8
    ensures { result ≡ 3 }
{
    let _ = writeln!(errors, "{error}");
    FAULT
}

/// Of help, or of a version, that can't be printed.
pub fn output<E: Write>(errors: &mut E) -> u8
    ensures { result ≡ 3 }
{
    let _ = writeln!(errors, "fault: write");
    FAULT
}

/// Of a script without a group of the name.
pub fn group<E: Write>(errors: &mut E, name: &str) -> u8
    ensures { result ≡ 3 }
{
    let _ = writeln!(errors, "fault: group {name}");
    FAULT
}

/// Of a settings file that can't be read, or is too long.
pub fn unreadable<E: Write>(errors: &mut E, error: FileError) -> u8
    ensures { result ≡ 3 }
{
    match error {
        FileError::Memory => settings(errors, SettingsError::Memory),
        FileError::Unreadable | FileError::TooLong => {
            let _ = writeln!(errors, "fault: file");
            FAULT
        }
    }
}

/// Of a port that can't be bound.
pub fn network<E: Write>(errors: &mut E) -> u8
    ensures { result ≡ 3 }
{
    let _ = writeln!(errors, "fault: network");
    FAULT
}

/// Of a socket that can't be made at the path.
pub fn socket<E: Write>(errors: &mut E, path: &str, fault: &SocketFault) -> u8
    ensures { result ≡ 3 }
{
    let _ = match fault {
        SocketFault::LongPath => {
            writeln!(errors, "fault: socket: the path has more than 96 bytes")
        }
        SocketFault::InUse => writeln!(errors, "fault: socket: a service listens at {path}"),
        SocketFault::NoSocket => {
            writeln!(errors, "fault: socket: what is at {path} is no socket")
        }
        SocketFault::Memory => writeln!(errors, "fault: memory"),
        SocketFault::System(_) => writeln!(errors, "fault: network"),
    };
    FAULT
}

/// Of a record that can't be begun.
pub fn record<E: Write>(errors: &mut E) -> u8
    ensures { result ≡ 3 }
{
    let _ = writeln!(errors, "fault: record");
    FAULT
}

/// Of a thread that can't be started.
pub fn thread<E: Write>(errors: &mut E) -> u8
    ensures { result ≡ 3 }
{
    let _ = writeln!(errors, "fault: thread");
    FAULT
}
