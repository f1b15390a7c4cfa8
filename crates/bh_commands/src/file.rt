//! The bytes of a settings file.

ghost use Rattle.std.specs.Prelude.{◌≡◌, ◌≤◌, ◌<◌, IfErr, IfOk, IfSome, length, vec_len};

use std::alloc::Global;
use std::io;
use std::io::{ErrorKind, Read};

/// The most bytes of a settings file, over twice what a thousand groups with every property spelled out take. The tree of a
/// file may take some 500 bytes of memory for each of its bytes.
pub const FILE_LIMIT: usize = 4 << 20;

/// Why a settings file gave no bytes.
#[derive(Clone, Copy, Debug, PartialEq, Eq)]
pub enum FileError {
    /// It is not there, or a read failed.
    Unreadable,
    /// It is of more than `FILE_LIMIT` bytes.
    TooLong,
    /// Memory was refused.
    Memory,
}

impl From<io::Error> for FileError {
    ghost use Rattle.std.specs.Prelude.{◌≡◌, ◌⊎◌};
    ghost use Rattle.bh_commands.specs.declared.file.FileError.TheVariants.{Unreadable, Memory};

    ghost from_gives = { λ _ error. (error ≡ Unreadable) ⊎ (error ≡ Memory) };

    fn from(error: io::Error) -> FileError {
        match error.kind() {
            ErrorKind::OutOfMemory => FileError::Memory,
            _ => FileError::Unreadable,
        }
    }
}

/// Why a settings file gave no bytes, and what the system said where it said something.
#[derive(Clone, Copy, Debug)]
pub struct Unread {
    pub error: FileError,
    pub reason: Option<io::Error>,
}

impl From<io::Error> for Unread {
    ghost use Rattle.std.specs.Prelude.{◌≡◌, ◌⊎◌};
    ghost use Rattle.bh_commands.specs.declared.file.FileError.TheVariants.{Unreadable, Memory};

    ghost from_gives = { λ _ unread. (unread.error ≡ Unreadable) ⊎ (unread.error ≡ Memory) };

    fn from(error: io::Error) -> Unread {
        Unread {
            error: FileError::from(error),
            reason: Some(error),
        }
    }
}

impl From<Unread> for FileError {
    ghost use Rattle.std.specs.Prelude.{◌≡◌};

    ghost from_gives = { λ unread error. error ≡ unread.error };

    fn from(unread: Unread) -> FileError {
        unread.error
    }
}

/// All bytes of the reader, of which no more are read than one beyond `FILE_LIMIT`: so a stream that never ends is too
/// long, too.
pub fn read_file<R: Read + Drop>(alloc: Global, reader: R) -> Result<Vec<u8>, Unread>
    ensures whole { IfOk result (λ bytes. IfSome (R.remaining reader) (λ input. bytes.items ≡ input)) }
    ensures fits { IfOk result (λ bytes. vec_len bytes ≤ FILE_LIMIT) }
    ensures too_long { IfErr result (λ unread. unread.error ≡ FileError.TooLong → IfSome (R.remaining reader) (λ input. FILE_LIMIT < length input)) }
{
    let mut bytes = Vec::new(alloc);
    reader.take(FILE_LIMIT as u64 + 1).read_to_end(&mut bytes)?;
    if bytes.len() > FILE_LIMIT {
        return Err(Unread {
            error: FileError::TooLong,
            reason: None,
        });
    }
    Ok(bytes)
}
