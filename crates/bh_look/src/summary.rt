//! A run over a script that keeps what it came to, and writes no answer.

ghost use Rattle.std.specs.Prelude.{◌≡◌, ◌≤◌, ◌+◌, ◌^◌, ◌⊎◌, Err, IfSome, OnOk};
ghost use Rattle.bh_lines.specs.Lines.{cut};
ghost use Rattle.bh_port.specs.Course.{Course};
ghost use Rattle.bh_props.specs.Shown.{settings_view};
ghost use Rattle.bh_streams.specs.Watched.{bytes_left, reader_of, reads_of, HasRead, OneFailed, NoneFailed};
ghost use Rattle.bh_look.specs.Scripts.{course_after};
ghost use Rattle.bh_look.specs.Watched.{HasWatched, IsWatched, WatchOutcome};

use crate::watch::Watch;
use bh_lines::PortError;
use bh_port::reader::fill;
use bh_props::Settings;
use bh_streams::WatchedReader;
use bytes::BytesMut;
use std::alloc::Global;
use std::io::Read;

/// So many bytes are asked of the reader at a time.
const READ_SIZE: usize = 65_536;

/// So many reads are made at most.
const MOST_READS: u64 = 1 << 40;

/// Does what each line of the reader asks for, in order, as a run of the script does, and keeps in `watch` what came of it.
///
/// `Line` comes at the first line that is of over 1,024 bytes or not UTF-8, with what came of the lines before it kept; `Read`
/// where the reader fails in this call, with what came of each line kept whose end was read, or 2^40 reads were made in it;
/// `Memory` where memory is refused. The run ends at the first read that fails.
pub fn watch_script<R: Read>(
    alloc: Global,
    reader: &mut WatchedReader<'_, R>,
    settings: &Settings,
    watch: &mut Watch,
) -> Result<(), PortError>
    ensures reader { (reader_of reader.new).ghost_name ≡ (reader_of reader.old).ghost_name }
    ensures read { result ≡ Err PortError.Read → OneFailed reader.old reader.new ⊎ HasRead (2 ^ 40) reader.old reader.new }
    ensures not_failed { (result ≡ Err PortError.Read) ⊎ NoneFailed reader.old reader.new }
    ensures taken { result ≡ Err PortError.Read → HasRead (2 ^ 40) reader.old reader.new ⊎ ((before : Course) → IsWatched (settings_view settings.now) watch.old.groups watch.old.lanes.items before →
        HasWatched (bytes_left R.remaining reader.old) (bytes_left R.remaining reader.new) (settings_view settings.now) before watch.new.groups watch.old.lanes.items watch.new.lanes.items) }
    ensures reads { reads_of reader.new ≤ reads_of reader.old + 2 ^ 40 }
    ensures watched { OnOk result ((before : Course) → IsWatched (settings_view settings.now) watch.old.groups watch.old.lanes.items before → IfSome (bytes_left R.remaining reader.old) (λ input.
        IsWatched (settings_view settings.now) watch.new.groups watch.new.lanes.items (course_after (settings_view settings.now) before (cut input)))) }
    ensures outcome { (before : Course) → IsWatched (settings_view settings.now) watch.old.groups watch.old.lanes.items before → IfSome (bytes_left R.remaining reader.old) (λ input.
        WatchOutcome (settings_view settings.now) before (cut input) watch.old.lanes.items watch.new.lanes.items result) }
{
    let mut buffer = BytesMut::new(alloc);
    let mut piece = [0u8; READ_SIZE];
    for _ in 0..MOST_READS {
        watch.take_lines(settings, &mut buffer)?;
        if !fill(reader, &mut piece, &mut buffer)? {
            return watch.take_last(settings, &mut buffer);
        }
    }
    Err(PortError::Read)
}
