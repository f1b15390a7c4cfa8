//! A session: a whole conversation, from the first byte of a reader to its last, answered to a writer.

ghost use Rattle.std.specs.Prelude.{◌≡◌, ◌⊎◌, ◌-◌, ◌^◌, ◌++◌, [], false, Err, true, IfErr, IfSome, OnErr, OnOk};
ghost use Rattle.std.specs.Io.KnownBytes.{Appends};
ghost use Rattle.bh_lines.specs.Lines.{cut, has_line};
ghost use Rattle.bh_streams.specs.Watched.{reader_of, bytes_left, HasRead, OneFailed, NoneFailed, writer_of, bytes_held, OneRefused, NoneRefused, WritesFront};
ghost use Rattle.bh_control.specs.AnswerLine.{responder, may_wait};
ghost use Rattle.bh_control.specs.Session.{Moves, LinesOutcome, PieceOutcome, LastOutcome, SessionOutcome, HasAnswered};

use crate::answer_line::{may_wait, put_answer};
use crate::control::Control;
use crate::control_line::Asked;
use crate::received::Received;
use bh_lines::PortError;
use bh_streams::{WatchedReader, WatchedWriter, write};
use std::alloc::{AllocError, Global};
use std::io::{Read, Write};

/// So many bytes are asked of the reader at a time.
const READ_SIZE: usize = 4096;

/// Once so many bytes of answers are held, they are written before the next line is answered.
const MOST_HELD: usize = 8192;

/// What a session has at most of bytes that were not taken: a line that has not ended, and what one read brings.
const LINES_ROOM: usize = 2 * READ_SIZE;

/// What it has at most of answers, as long as none has more than 2,048 bytes: that of the names of many groups alone has.
const ANSWERS_ROOM: usize = MOST_HELD + 2048;

/// What a session keeps of bytes: those that have come and were not taken, and the answers that are held.
///
/// It keeps the memory that it has taken, so whoever has one session after the other in the same buffers takes more only for
/// longer lines or answers than there were in any session before.
#[derive(Drop)]
pub struct Buffers {
    received: Received,
    answers: Vec<u8>,
}

impl Buffers {
    /// Buffers of which no session was had. They take no memory yet.
    pub fn new(alloc: Global) -> Buffers {
        Buffers {
            received: Received::new(alloc),
            answers: Vec::new(alloc),
        }
    }

    /// The same, with some 19 KiB that are taken and written to at once, so that a system that gives memory as it is written
    /// to gives no more of it later: what a session takes beside is that of lines with escapes, or of many names of groups.
    /// It fails only for want of memory.
    pub fn with_room(alloc: Global) -> Result<Buffers, AllocError> {
        Ok(Buffers {
            received: Received::with_room(alloc, LINES_ROOM)?,
            answers: written_to(alloc, ANSWERS_ROOM)?,
        })
    }
}

/// No bytes, with room for so many that was written to.
fn written_to(alloc: Global, room: usize) -> Result<Vec<u8>, AllocError> {
    let mut bytes = Vec::with_capacity(alloc, room)?;
    bytes.resize(room, b' ')?;
    bytes.clear();
    Ok(bytes)
}

/// Answers the control lines of the reader to the writer, as they come, to the end of the input.
///
/// Answers are written together, but none waits for a call: before a line asks for one, the answers to all lines before
/// it are written. They are written too once there are many bytes of them, so that the memory which they take is bounded,
/// and where the lines that one read brought to an end are over.
///
/// `Line` and `Memory` come as in a `Conversation`, once the lines before are answered; `Read` where the reader fails in
/// this call or 2^64 - 1 reads were made, with each line answered whose end was read; `Write` where the writer fails in
/// this call or takes no byte. The conversation ends at the first read or write that fails.
pub fn converse<R: Read, W: Write, C: Control>(
    alloc: Global,
    reader: &mut WatchedReader<'_, R>,
    writer: &mut WatchedWriter<'_, W>,
    control: &mut C,
) -> Result<(), PortError>
    ensures same_reader { (reader_of reader.new).ghost_name ≡ (reader_of reader.old).ghost_name }
    ensures same_writer { (writer_of writer.new).ghost_name ≡ (writer_of writer.old).ghost_name }
    ensures groups { C.names control.new ≡ C.names control.old }
    ensures read { result ≡ Err PortError.Read → OneFailed reader.old reader.new ⊎ HasRead (2 ^ 64 - 1) reader.old reader.new }
    ensures not_failed { (result ≡ Err PortError.Read) ⊎ NoneFailed reader.old reader.new }
    ensures answered { result ≡ Err PortError.Read → HasAnswered (responder (C.names control.old) C.may_show C.may_answer C.may_close C.may_total C.may_tune C.may_force)
        (bytes_held W.contents writer.old) (bytes_held W.contents writer.new) (bytes_left R.remaining reader.old) (bytes_left R.remaining reader.new) }
    ensures write { result ≡ Err PortError.Write → OneRefused writer.old writer.new }
    ensures not_refused { (result ≡ Err PortError.Write) ⊎ NoneRefused writer.old writer.new }
    ensures answers { IfSome (bytes_left R.remaining reader.old) (λ input.
        SessionOutcome (responder (C.names control.old) C.may_show C.may_answer C.may_close C.may_total C.may_tune C.may_force) (bytes_held W.contents writer.old) (bytes_held W.contents writer.new) (cut input) result) }
{
    converse_in(&mut Buffers::new(alloc), alloc, reader, writer, control)
}

/// The same, in buffers that further sessions may be had in: what was left in them is forgotten.
pub fn converse_in<R: Read, W: Write, C: Control>(
    buffers: &mut Buffers,
    alloc: Global,
    reader: &mut WatchedReader<'_, R>,
    writer: &mut WatchedWriter<'_, W>,
    control: &mut C,
) -> Result<(), PortError>
    ensures same_reader { (reader_of reader.new).ghost_name ≡ (reader_of reader.old).ghost_name }
    ensures same_writer { (writer_of writer.new).ghost_name ≡ (writer_of writer.old).ghost_name }
    ensures groups { C.names control.new ≡ C.names control.old }
    ensures read { result ≡ Err PortError.Read → OneFailed reader.old reader.new ⊎ HasRead (2 ^ 64 - 1) reader.old reader.new }
    ensures not_failed { (result ≡ Err PortError.Read) ⊎ NoneFailed reader.old reader.new }
    ensures answered { result ≡ Err PortError.Read → HasAnswered (responder (C.names control.old) C.may_show C.may_answer C.may_close C.may_total C.may_tune C.may_force)
        (bytes_held W.contents writer.old) (bytes_held W.contents writer.new) (bytes_left R.remaining reader.old) (bytes_left R.remaining reader.new) }
    ensures write { result ≡ Err PortError.Write → OneRefused writer.old writer.new }
    ensures not_refused { (result ≡ Err PortError.Write) ⊎ NoneRefused writer.old writer.new }
    ensures answers { IfSome (bytes_left R.remaining reader.old) (λ input.
        SessionOutcome (responder (C.names control.old) C.may_show C.may_answer C.may_close C.may_total C.may_tune C.may_force) (bytes_held W.contents writer.old) (bytes_held W.contents writer.new) (cut input) result) }
{
    let mut piece = [0u8; READ_SIZE];
    let Buffers { received, answers } = buffers;
    received.clear();
    answers.clear();
    for _ in 0..u64::MAX {
        let Ok(count) = reader.read(&mut piece) else {
            return Err(PortError::Read);
        };
        if count == 0 {
            return answer_last(alloc, received, control, answers, writer);
        }
        received.push(&piece[..count])?;
        answer_piece(alloc, received, control, answers, writer)?;
    }
    Err(PortError::Read)
}

/// Answers the lines that have ended. No answer is held before or after.
fn answer_piece<W: Write, C: Control>(
    alloc: Global,
    received: &mut Received,
    control: &mut C,
    answers: &mut Vec<u8>,
    writer: &mut WatchedWriter<'_, W>,
) -> Result<(), PortError>
    requires { answers.old.items ≡ [] }
    ensures same_writer { (writer_of writer.new).ghost_name ≡ (writer_of writer.old).ghost_name }
    ensures groups { C.names control.new ≡ C.names control.old }
    ensures refused { result ≡ Err PortError.Write → OneRefused writer.old writer.new }
    ensures not_refused { (result ≡ Err PortError.Write) ⊎ NoneRefused writer.old writer.new }
    ensures none_held { OnOk result (answers.new.items ≡ []) }
    ensures outcome { PieceOutcome (responder (C.names control.old) C.may_show C.may_answer C.may_close C.may_total C.may_tune C.may_force) (bytes_held W.contents writer.old) (bytes_held W.contents writer.new)
        received.old result received.new }
{
    match answer_lines(alloc, received, control, answers, writer) {
        Ok(()) => write_held(answers, writer),
        Err(PortError::Write) => Err(PortError::Write),
        Err(fault) => {
            write_held(answers, writer)?;
            Err(fault)
        }
    }
}

/// Answers the lines that have ended; the last answers may be held then.
fn answer_lines<W: Write, C: Control>(
    alloc: Global,
    received: &mut Received,
    control: &mut C,
    answers: &mut Vec<u8>,
    writer: &mut WatchedWriter<'_, W>,
) -> Result<(), PortError>
    requires { answers.old.items ≡ [] }
    ensures same_writer { (writer_of writer.new).ghost_name ≡ (writer_of writer.old).ghost_name }
    ensures groups { C.names control.new ≡ C.names control.old }
    ensures refused { result ≡ Err PortError.Write → OneRefused writer.old writer.new }
    ensures not_refused { (result ≡ Err PortError.Write) ⊎ NoneRefused writer.old writer.new }
    ensures outcome { LinesOutcome (responder (C.names control.old) C.may_show C.may_answer C.may_close C.may_total C.may_tune C.may_force) (bytes_held W.contents writer.old) (bytes_held W.contents writer.new)
        received.old result received.new answers.new.items }
{
    while let Some(asked) = received.next(control)? {
        write_before(&asked, answers, writer)?;
        put_answer(alloc, control, &asked, answers)?;
    }
    Ok(())
}

/// Answers the line that no line feed ended, if there is one. No answer is held before.
fn answer_last<W: Write, C: Control>(
    alloc: Global,
    received: &mut Received,
    control: &mut C,
    answers: &mut Vec<u8>,
    writer: &mut WatchedWriter<'_, W>,
) -> Result<(), PortError>
    requires line { has_line received.old ≡ false }
    requires held { answers.old.items ≡ [] }
    ensures same_writer { (writer_of writer.new).ghost_name ≡ (writer_of writer.old).ghost_name }
    ensures groups { C.names control.new ≡ C.names control.old }
    ensures refused { result ≡ Err PortError.Write → OneRefused writer.old writer.new }
    ensures not_refused { (result ≡ Err PortError.Write) ⊎ NoneRefused writer.old writer.new }
    ensures outcome { LastOutcome (responder (C.names control.old) C.may_show C.may_answer C.may_close C.may_total C.may_tune C.may_force) (bytes_held W.contents writer.old) (bytes_held W.contents writer.new) received.old result }
{
    let Some(asked) = received.last(control)? else {
        return Ok(());
    };
    put_answer(alloc, control, &asked, answers)?;
    write_held(answers, writer)
}

/// Writes the answers that are held, where what is asked may wait or they are many: none of them waits for a call.
fn write_before<W: Write>(
    asked: &Asked,
    answers: &mut Vec<u8>,
    writer: &mut WatchedWriter<'_, W>,
) -> Result<(), PortError>
    ensures same_writer { (writer_of writer.new).ghost_name ≡ (writer_of writer.old).ghost_name }
    ensures none_held { OnOk result (may_wait asked.now ≡ true → answers.new.items ≡ []) }
    ensures ok { OnOk result (Moves (bytes_held W.contents writer.old) (bytes_held W.contents writer.new) answers.old.items answers.new.items) }
    ensures none_refused { OnOk result (NoneRefused writer.old writer.new) }
    ensures err { IfErr result (λ e. (e ≡ PortError.Write) × OneRefused writer.old writer.new) }
    ensures front { OnErr result (WritesFront (bytes_held W.contents writer.old) (bytes_held W.contents writer.new) answers.old.items) }
{
    if may_wait(asked) {
        return write_held(answers, writer);
    }
    if answers.len() >= MOST_HELD {
        return write_held(answers, writer);
    }
    Ok(())
}

/// Writes the answers that are held, and holds none then; or writes a front of them, and `Write` where the writer fails
/// or takes none.
fn write_held<W: Write>(
    answers: &mut Vec<u8>,
    writer: &mut WatchedWriter<'_, W>,
) -> Result<(), PortError>
    ensures same_writer { (writer_of writer.new).ghost_name ≡ (writer_of writer.old).ghost_name }
    ensures ok { OnOk result (Appends (bytes_held W.contents writer.old) (bytes_held W.contents writer.new) answers.old.items) }
    ensures none_held { OnOk result (answers.new.items ≡ []) }
    ensures none_refused { OnOk result (NoneRefused writer.old writer.new) }
    ensures err { IfErr result (λ e. (e ≡ PortError.Write) × OneRefused writer.old writer.new) }
    ensures front { WritesFront (bytes_held W.contents writer.old) (bytes_held W.contents writer.new) answers.old.items }
{
    write(writer, answers.as_slice())?;
    answers.clear();
    Ok(())
}
