//! Reading a piece at a time.

ghost use Rattle.std.specs.Prelude.{◌≡◌, ◌⊎◌, ◌<◌, ◌++◌, ℕ, List, length, true, false, Err, OnOk, IfOk, IfErr};
ghost use Rattle.std.specs.Io.KnownBytes.{Keeps, Consumes, IsAtEnd};
ghost use Rattle.bh_streams.specs.Watched.{saturating_count, reader_of, reads_of, bytes_left, OneFailed, NoneFailed};
ghost use Rattle.bh_port.specs.Script.{IsMemoryOrRead};

use bh_lines::PortError;
use bh_streams::WatchedReader;
use bytes::BytesMut;
use std::io::Read;

/// Makes one read by way of the piece, puts the bytes behind those of the buffer, and says whether the input goes on.
///
/// `Read` comes where that read fails, and `Memory` where memory is refused.
pub fn fill<R: Read>(
    reader: &mut WatchedReader<'_, R>,
    piece: &mut [u8],
    buffer: &mut BytesMut,
) -> Result<bool, PortError>
    requires { 0 < length piece.old }
    ensures same_reader { (reader_of reader.new).ghost_name ≡ (reader_of reader.old).ghost_name }
    ensures more { OnOk result ((bytes : List ℕ) × Consumes (bytes_left R.remaining reader.old) (bytes_left R.remaining reader.new) bytes
        × (buffer.new.items ≡ buffer.old.items ++ bytes)) }
    ensures grows { IfOk result (λ goes_on. goes_on ≡ true → length buffer.old.items < length buffer.new.items) }
    ensures end { IfOk result (λ goes_on. goes_on ≡ false → IsAtEnd (bytes_left R.remaining reader.new) × (buffer.new ≡ buffer.old)) }
    ensures err { IfErr result IsMemoryOrRead }
    ensures failed { result ≡ Err PortError.Read → OneFailed reader.old reader.new }
    ensures kept { result ≡ Err PortError.Read → Keeps (bytes_left R.remaining reader.old) (bytes_left R.remaining reader.new) × (buffer.new ≡ buffer.old) }
    ensures not_failed { (result ≡ Err PortError.Read) ⊎ NoneFailed reader.old reader.new }
    ensures one { reads_of reader.new ≡ saturating_count (reads_of reader.old) 1 }
{
    match reader.read(piece) {
        Ok(0) => Ok(false),
        Ok(n) => {
            buffer.extend_from_slice(&piece[..n])?;
            Ok(true)
        }
        Err(_) => Err(PortError::Read),
    }
}
