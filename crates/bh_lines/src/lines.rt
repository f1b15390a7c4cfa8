//! The lines of the bytes that have come, whatever they are: nearly all are plain, and `front_line` tells of these.
//!
//! A codec is made for each line, and only where one is known to stand in front: so the bytes in hand are all that
//! is kept, and it does not matter in which pieces they came.

ghost use Rattle.std.specs.Prelude.{◌≡◌, ◌↔◌, ℕ, false, Err};
ghost use Rattle.tokio_util.specs.Codec.Lines.{IsOutOfMemory};
ghost use Rattle.bh_lines.specs.Lines.{has_line};
ghost use Rattle.bh_lines.specs.Taken.{TakesLine, IsLast, IsMemoryOrLine};

use crate::port_error::PortError;
use bytes::BytesMut;
use std::io::ErrorKind;
use tokio_util::codec::{Decoder, LinesCodec, LinesCodecError};

/// The most bytes of a line, its carriage return counted.
pub const LINE_LIMIT: usize = 1024;

/// Whether a line, good or refused, stands in front.
fn has_line(bytes: &[u8]) -> bool
    ensures { result ≡ has_line bytes.now }
{
    bytes.len() > LINE_LIMIT || bytes.contains(&b'\n')
}

/// Takes the line in front, less its line feed and a carriage return before that, or nothing where none has ended yet.
///
/// `Line` comes where the line in front is of over `LINE_LIMIT` bytes, ended or not, or is not UTF-8; `Memory` where
/// memory is refused. After an error nothing is to be taken.
pub fn next_line(buffer: &mut BytesMut) -> Result<Option<String>, PortError>
    ensures { TakesLine buffer.old.items result buffer.new.items }
{
    if !has_line(buffer.as_slice()) {
        return Ok(None);
    }
    let mut codec = LinesCodec::new_with_max_length(LINE_LIMIT);
    Ok(codec.decode(buffer)?)
}

/// The line that stands at the end of the input with no line feed behind it, less a carriage return at its end, if any
/// byte is left then. No line has ended before it.
///
/// `Line` comes where it is not UTF-8; `Memory` where memory is refused.
pub fn last_line(buffer: &mut BytesMut) -> Result<Option<String>, PortError>
    requires { has_line buffer.old.items ≡ false }
    ensures { IsLast buffer.old.items result }
{
    let mut codec = LinesCodec::new_with_max_length(LINE_LIMIT);
    Ok(codec.decode_eof(buffer)?)
}

impl From<LinesCodecError> for PortError {
    ghost use Rattle.std.specs.Prelude.{◌≡◌, ◌↔◌, ℕ, Err};
    ghost use Rattle.tokio_util.specs.Codec.Lines.{IsOutOfMemory};
    ghost use Rattle.bh_lines.specs.declared.port_error.PortError.TheVariants.{Memory};
    ghost use Rattle.bh_lines.specs.Taken.{IsMemoryOrLine};

    ghost from_gives = { λ error refused. (refused ≡ Memory ↔ IsOutOfMemory {T = ℕ} (Err error)) × IsMemoryOrLine refused };

    fn from(error: LinesCodecError) -> PortError {
        match error {
            LinesCodecError::MaxLineLengthExceeded => PortError::Line,
            LinesCodecError::Io(error) => match error.kind() {
                ErrorKind::OutOfMemory => PortError::Memory,
                _ => PortError::Line,
            },
        }
    }
}
