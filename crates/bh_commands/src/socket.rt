//! The file of a Unix socket that only its owner may open.

use crate::folder::make_folder;
use bh_serve::SocketListener;
use std::alloc::{AllocError, Global};
use std::fs::{Files, Permissions};
use std::io::ErrorKind;
use std::net::Net;
use std::os::unix::fs::{FileTypeExt, MetadataExt, PermissionsExt};
use std::os::unix::net::{UnixListener, UnixStream};
use std::{fs, io};

/// A path has so many bytes at most: the system takes 107, and the socket is made in a folder beside it.
const LONGEST_PATH: usize = 96;

/// The rights of the socket: its owner alone may connect.
const SOCKET_MODE: u32 = 0o600;

/// Why there is no socket.
#[derive(Debug, Drop)]
pub enum SocketFault {
    /// The path has more than 96 bytes.
    LongPath,
    /// A service listens there.
    InUse,
    /// Something is there that is no socket.
    NoSocket,
    /// Memory was refused.
    Memory,
    /// What the system says.
    System(io::Error),
}

impl From<io::Error> for SocketFault {
    fn from(error: io::Error) -> SocketFault {
        match error.kind() {
            ErrorKind::OutOfMemory => SocketFault::Memory,
            _ => SocketFault::System(error),
        }
    }
}

impl From<AllocError> for SocketFault {
    fn from(_refused: AllocError) -> SocketFault {
        SocketFault::Memory
    }
}

/// Makes a Unix socket at the path, which only its owner may open, and listens to it. A socket there to which nobody listens
/// any more is replaced; where somebody listens, or where something else is there, nothing is changed.
///
/// The socket is made in a new folder that nobody else may look into, and has its rights before it comes to the path. So
/// nobody else connects in between.
pub fn bind_socket<R: Net + Files>(
    rt: &R,
    alloc: Global,
    path: &str,
) -> Result<SocketListener, SocketFault> {
    if path.len() > LONGEST_PATH {
        return Err(SocketFault::LongPath);
    }
    let folder = make_folder(rt, alloc, path)?;
    let bound = bind_in(rt, alloc, folder.as_str(), path);
    let _ = fs::remove_dir(rt, folder.as_str());
    bound
}

/// Which file it is: its device, and its number there.
#[derive(Clone, Copy, Debug, PartialEq, Eq)]
pub struct FileId {
    device: u64,
    number: u64,
}

/// The file that stands at the path; None where the system tells of none.
pub fn file_at<R: Files>(rt: &R, path: &str) -> Option<FileId> {
    let found = fs::symlink_metadata(rt, path).ok()?;
    Some(FileId {
        device: found.dev(),
        number: found.ino(),
    })
}

/// Takes the socket of a service that has ended away from the path.
pub fn remove_socket<R: Files>(rt: &R, path: &str) {
    let _ = fs::remove_file(rt, path);
}

/// Makes the socket in the folder, and moves it to the path. Nothing is left in the folder then.
fn bind_in<R: Net + Files>(
    rt: &R,
    alloc: Global,
    folder: &str,
    path: &str,
) -> Result<SocketListener, SocketFault> {
    let made = format!(in alloc; "{folder}/s")?;
    let listener = UnixListener::bind(rt, made.as_str())?;
    // Whoever waits for a connection looks up now and then, so that the end of the service is seen where nobody can knock: the
    // path may be gone by then, or another service's.
    let placed = match listener.set_nonblocking(true) {
        Ok(()) => place_at(rt, alloc, folder, made.as_str(), path),
        Err(error) => Err(SocketFault::System(error)),
    };
    let _ = fs::remove_file(rt, made.as_str());
    placed?;
    Ok(SocketListener::new(listener))
}

/// Gives the socket its rights, and the path beside its own.
fn place_at<R: Net + Files>(
    rt: &R,
    alloc: Global,
    folder: &str,
    made: &str,
    path: &str,
) -> Result<(), SocketFault> {
    fs::set_permissions(rt, made, Permissions::from_mode(SOCKET_MODE))?;
    match fs::hard_link(rt, made, path) {
        Err(error) if error.kind() == ErrorKind::AlreadyExists => {
            let old = format!(in alloc; "{folder}/o")?;
            take_away(rt, old.as_str(), path)?;
            match fs::hard_link(rt, made, path) {
                Err(error) if error.kind() == ErrorKind::AlreadyExists => Err(SocketFault::InUse),
                placed => Ok(placed?),
            }
        }
        placed => Ok(placed?),
    }
}

/// Takes the socket at the path away, where nobody listens to it.
///
/// It is moved to where nobody else comes before it is removed, and looked at again there: another service may have put its
/// own in its place meanwhile, which is put back.
fn take_away<R: Net + Files>(rt: &R, old: &str, path: &str) -> Result<(), SocketFault> {
    if !fs::symlink_metadata(rt, path)?.file_type().is_socket() {
        return Err(SocketFault::NoSocket);
    }
    if is_heard(rt, path) {
        return Err(SocketFault::InUse);
    }
    fs::rename(rt, path, old)?;
    let is_heard = is_heard(rt, old);
    if is_heard {
        let _ = fs::hard_link(rt, old, path);
    }
    let _ = fs::remove_file(rt, old);
    if is_heard {
        return Err(SocketFault::InUse);
    }
    Ok(())
}

/// Whether somebody listens to the socket, or it can't be known.
fn is_heard<R: Net>(rt: &R, path: &str) -> bool {
    match UnixStream::connect(rt, path) {
        Ok(_) => true,
        Err(error) => error.kind() != ErrorKind::ConnectionRefused,
    }
}
