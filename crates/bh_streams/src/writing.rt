//! Writing to the end.

ghost use Rattle.std.specs.Prelude.{◌≡◌, OnOk, IfErr};
ghost use Rattle.std.specs.Io.KnownBytes.{Appends};
ghost use Rattle.bh_streams.specs.Watched.{writer_of, bytes_held, OneRefused, NoneRefused, WritesFront};

use crate::writer::WatchedWriter;
use bh_lines::PortError;
use std::io::Write;

/// Writes the bytes, or a front of them and `Write` where the writer fails or takes none.
pub fn write<W: Write>(writer: &mut WatchedWriter<'_, W>, bytes: &[u8]) -> Result<(), PortError>
    ensures same_writer { (writer_of writer.new).ghost_name ≡ (writer_of writer.old).ghost_name }
    ensures ok { OnOk result (Appends (bytes_held W.contents writer.old) (bytes_held W.contents writer.new) bytes.now) }
    ensures none_refused { OnOk result (NoneRefused writer.old writer.new) }
    ensures err { IfErr result (λ e. (e ≡ PortError.Write) × OneRefused writer.old writer.new) }
    ensures front { WritesFront (bytes_held W.contents writer.old) (bytes_held W.contents writer.new) bytes.now }
{
    let mut at = 0;
    while at < bytes.len() {
        match writer.write(&bytes[at..]) {
            Ok(0) | Err(_) => return Err(PortError::Write),
            Ok(n) => at += n,
        }
    }
    Ok(())
}
