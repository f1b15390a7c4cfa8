//! A script of some groups alone, cut out of a script as its lines come.

ghost use Rattle.std.specs.Prelude.{◌≡◌, ◌≤◌, ◌+◌, ◌^◌, ◌⊎◌, ℕ, List, Err, IfSome};
ghost use Rattle.bh_props.specs.SettingsView.{SettingsView};
ghost use Rattle.bh_streams.specs.Watched.{reader_of, reads_of, bytes_left, HasRead, OneFailed, NoneFailed, writer_of, bytes_held, OneRefused, NoneRefused};
ghost use Rattle.bh_cut.specs.Alike.{IsAnsweredAlike};
ghost use Rattle.bh_cut.specs.Named.{texts};
ghost use Rattle.bh_cut.specs.Outcome.{CutOutcome, HasCut};

use crate::keeping::Keeping;
use bh_lines::PortError;
use bh_port::reader::fill;
use bh_streams::{WatchedReader, WatchedWriter};
use bytes::BytesMut;
use json::Scratch;
use std::alloc::Global;
use std::io::{Read, Write};

/// So many bytes are asked of the reader at a time.
const READ_SIZE: usize = 65_536;

/// So many reads are made at most.
const MOST_READS: u64 = 1 << 40;

/// Writes those lines of the reader that name one of the groups, byte for byte and in their order: steps of the group,
/// its registrations and its retirements. A line that asks for nothing, since it is no JSON, has no such operation, or
/// lacks a member or has one of the wrong type, names no group and is left out; one that is at fault for another reason
/// is kept.
///
/// A script of what was written is answered as these lines are among all others, under any settings. A registration that
/// is refused there, since as many groups were registered as may be, can be accepted here: so each group is answered the
/// same up to its own first line that was told so, and to the end where none was.
///
/// The lines that one read brought to an end are looked at, and those that are kept written together, before the next
/// read.
///
/// `Line` comes at the first line that is of over 1,024 bytes or not UTF-8, with what is kept before it written; `Read`
/// where the reader fails in this call, with each line looked at whose end was read, or 2^40 reads were made in it;
/// `Write` where the writer fails in this call or takes no byte; `Memory` where memory is refused. The cut ends at the
/// first read or write that fails.
pub fn cut_groups<R: Read, W: Write>(
    alloc: Global,
    reader: &mut WatchedReader<'_, R>,
    writer: &mut WatchedWriter<'_, W>,
    names: &[&str],
) -> Result<(), PortError>
    ensures same_reader { (reader_of reader.new).ghost_name ≡ (reader_of reader.old).ghost_name }
    ensures same_writer { (writer_of writer.new).ghost_name ≡ (writer_of writer.old).ghost_name }
    ensures read { result ≡ Err PortError.Read → OneFailed reader.old reader.new ⊎ HasRead (2 ^ 40) reader.old reader.new }
    ensures not_failed { (result ≡ Err PortError.Read) ⊎ NoneFailed reader.old reader.new }
    ensures looked { result ≡ Err PortError.Read → HasRead (2 ^ 40) reader.old reader.new ⊎ HasCut (bytes_left R.remaining reader.old) (bytes_left R.remaining reader.new)
        (bytes_held W.contents writer.old) (bytes_held W.contents writer.new) (texts names.now) }
    ensures reads { reads_of reader.new ≤ reads_of reader.old + 2 ^ 40 }
    ensures write { result ≡ Err PortError.Write → OneRefused writer.old writer.new }
    ensures not_refused { (result ≡ Err PortError.Write) ⊎ NoneRefused writer.old writer.new }
    ensures kept { IfSome (bytes_left R.remaining reader.old) (λ input.
        CutOutcome (bytes_held W.contents writer.old) (bytes_held W.contents writer.new) (texts names.now) input result) }
    ensures alike { (service : SettingsView) (input : List ℕ) → IsAnsweredAlike service (texts names.now) input }
{
    let mut keeping = Keeping {
        alloc,
        out: Vec::new(alloc),
        scratch: Scratch::new(alloc),
    };
    let mut buffer = BytesMut::new(alloc);
    let mut bytes = [0u8; READ_SIZE];
    for _ in 0..MOST_READS {
        keeping.write_kept(names, &mut buffer, writer)?;
        if !fill(reader, &mut bytes, &mut buffer)? {
            return keeping.write_last(names, &mut buffer, writer);
        }
    }
    Err(PortError::Read)
}
