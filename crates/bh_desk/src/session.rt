//! A session: a whole conversation, from the first byte of a reader to its last, answered to a writer.

ghost use Rattle.std.specs.Prelude.{◌≡◌, ◌⊎◌, ◌-◌, ◌^◌, [], false, Err, IfSome, OnOk};
ghost use Rattle.bh_lines.specs.Lines.{cut, has_line};
ghost use Rattle.bh_streams.specs.Watched.{reader_of, bytes_left, HasRead, OneFailed, NoneFailed, writer_of, bytes_held, OneRefused, NoneRefused};
ghost use Rattle.bh_desk.specs.Answers.{responder, HasAnsweredSome};
ghost use Rattle.bh_desk.specs.Session.{LinesOutcome, PieceOutcome, LastOutcome, SessionOutcome, HasAnswered};

use crate::answer::{answer_line, write_held, write_many};
use crate::desk::Desk;
use crate::received::Received;
use bh_lines::PortError;
use bh_share::Directory;
use bh_streams::{WatchedReader, WatchedWriter};
use std::alloc::Global;
use std::io::{Read, Write};

/// So many bytes are asked of the reader at a time.
const READ_SIZE: usize = 4096;

/// What a conversation keeps of bytes: those that have come and were not taken, and the answers that are held.
///
/// It keeps the memory that it has taken, so whoever has one conversation after the other in the same buffers takes more only
/// for longer lines or answers than there were in any before.
#[derive(Drop)]
pub struct Buffers {
    received: Received,
    answers: Vec<u8>,
}

impl Buffers {
    /// Buffers of which no conversation was had. They take no memory yet.
    pub fn new(alloc: Global) -> Buffers {
        Buffers {
            received: Received::new(alloc),
            answers: Vec::new(alloc),
        }
    }
}

/// Answers the lines of the reader to the writer, as they come, to the end of the input. Groups and commands are looked up
/// in the directory. What another conversation left in the buffers is forgotten.
///
/// Answers are written together, but none waits with a line that has to wait: before, the answers to all lines before it
/// are written. They are written too once there are many bytes of them, so that the memory which they take is bounded,
/// and where the lines that one read brought to an end are over.
///
/// `Line` comes where a line is of over 1,024 bytes or is not UTF-8, and `Memory` where memory is refused, once the lines
/// before are answered; `Read` where the reader fails in this call or 2^64 - 1 reads were made, with each line answered
/// whose end was read; `Write` where the writer fails in this call or takes no byte. The conversation ends at the first
/// read or write that fails.
pub fn converse<R: Read, W: Write, N: Directory, D: Desk>(
    buffers: &mut Buffers,
    alloc: Global,
    directory: &N,
    reader: &mut WatchedReader<'_, R>,
    writer: &mut WatchedWriter<'_, W>,
    desk: &mut D,
) -> Result<(), PortError>
    ensures same_reader { (reader_of reader.new).ghost_name ≡ (reader_of reader.old).ghost_name }
    ensures same_writer { (writer_of writer.new).ghost_name ≡ (writer_of writer.old).ghost_name }
    ensures read { result ≡ Err PortError.Read → OneFailed reader.old reader.new ⊎ HasRead (2 ^ 64 - 1) reader.old reader.new }
    ensures not_failed { (result ≡ Err PortError.Read) ⊎ NoneFailed reader.old reader.new }
    ensures answered { result ≡ Err PortError.Read → HasAnswered (responder (N.names directory.now) D.may) desk.old desk.new (bytes_held W.contents writer.old) (bytes_held W.contents writer.new) (bytes_left R.remaining reader.old) (bytes_left R.remaining reader.new) }
    ensures write { result ≡ Err PortError.Write → OneRefused writer.old writer.new }
    ensures not_refused { (result ≡ Err PortError.Write) ⊎ NoneRefused writer.old writer.new }
    ensures answers { IfSome (bytes_left R.remaining reader.old) (λ input. SessionOutcome (responder (N.names directory.now) D.may) desk.old desk.new (bytes_held W.contents writer.old) (bytes_held W.contents writer.new) (cut input) result) }
    ensures turns { HasAnsweredSome (responder (N.names directory.now) D.may) desk.old desk.new }
{
    let mut piece = [0u8; READ_SIZE];
    let Buffers { received, answers } = buffers;
    received.clear();
    answers.clear();
    for _ in 0..u64::MAX {
        let Ok(count) = reader.read(&mut piece) else {
            return Err(PortError::Read);
        };
        if count == 0 {
            return answer_last(alloc, directory, received, desk, answers, writer);
        }
        received.push(&piece[..count])?;
        answer_piece(alloc, directory, received, desk, answers, writer)?;
    }
    Err(PortError::Read)
}

/// Answers the lines that have ended. No answer is held before or after.
fn answer_piece<W: Write, N: Directory, D: Desk>(
    alloc: Global,
    directory: &N,
    received: &mut Received,
    desk: &mut D,
    answers: &mut Vec<u8>,
    writer: &mut WatchedWriter<'_, W>,
) -> Result<(), PortError>
    requires { answers.old.items ≡ [] }
    ensures same_writer { (writer_of writer.new).ghost_name ≡ (writer_of writer.old).ghost_name }
    ensures refused { result ≡ Err PortError.Write → OneRefused writer.old writer.new }
    ensures not_refused { (result ≡ Err PortError.Write) ⊎ NoneRefused writer.old writer.new }
    ensures none_held { OnOk result (answers.new.items ≡ []) }
    ensures outcome { PieceOutcome (responder (N.names directory.now) D.may) desk.old desk.new (bytes_held W.contents writer.old) (bytes_held W.contents writer.new) received.old result received.new }
{
    match answer_lines(alloc, directory, received, desk, answers, writer) {
        Ok(()) => write_held(answers, writer),
        Err(PortError::Write) => Err(PortError::Write),
        Err(fault) => {
            write_held(answers, writer)?;
            Err(fault)
        }
    }
}

/// Answers the lines that have ended; the last answers may be held then.
fn answer_lines<W: Write, N: Directory, D: Desk>(
    alloc: Global,
    directory: &N,
    received: &mut Received,
    desk: &mut D,
    answers: &mut Vec<u8>,
    writer: &mut WatchedWriter<'_, W>,
) -> Result<(), PortError>
    requires { answers.old.items ≡ [] }
    ensures same_writer { (writer_of writer.new).ghost_name ≡ (writer_of writer.old).ghost_name }
    ensures refused { result ≡ Err PortError.Write → OneRefused writer.old writer.new }
    ensures not_refused { (result ≡ Err PortError.Write) ⊎ NoneRefused writer.old writer.new }
    ensures outcome { LinesOutcome (responder (N.names directory.now) D.may) desk.old desk.new (bytes_held W.contents writer.old) (bytes_held W.contents writer.new) received.old result received.new answers.new.items }
{
    while let Some(asked) = received.next(directory)? {
        answer_line(alloc, desk, &asked, answers, writer)?;
        write_many(answers, writer)?;
    }
    Ok(())
}

/// Answers the line that no line feed ended, if there is one. No answer is held before.
fn answer_last<W: Write, N: Directory, D: Desk>(
    alloc: Global,
    directory: &N,
    received: &mut Received,
    desk: &mut D,
    answers: &mut Vec<u8>,
    writer: &mut WatchedWriter<'_, W>,
) -> Result<(), PortError>
    requires line { has_line received.old ≡ false }
    requires held { answers.old.items ≡ [] }
    ensures same_writer { (writer_of writer.new).ghost_name ≡ (writer_of writer.old).ghost_name }
    ensures refused { result ≡ Err PortError.Write → OneRefused writer.old writer.new }
    ensures not_refused { (result ≡ Err PortError.Write) ⊎ NoneRefused writer.old writer.new }
    ensures outcome { LastOutcome (responder (N.names directory.now) D.may) desk.old desk.new (bytes_held W.contents writer.old) (bytes_held W.contents writer.new) received.old result }
{
    let Some(asked) = received.last(directory)? else {
        return Ok(());
    };
    answer_line(alloc, desk, &asked, answers, writer)?;
    write_held(answers, writer)
}
