//! The answer to one line, and the answers that are held meanwhile.

ghost use Rattle.std.specs.Prelude.{◌≡◌, ◌⊎◌, [], Err, IfErr, Ok, OnErr, OnOk};
ghost use Rattle.std.specs.Io.KnownBytes.{Appends};
ghost use Rattle.bh_streams.specs.Watched.{writer_of, bytes_held, OneRefused, NoneRefused, WritesFront};
ghost use Rattle.bh_desk.specs.Session.{LineOutcome, Moves};

use crate::desk::{Desk, Turn};
use bh_lines::PortError;
use bh_replies::put_fault;
use bh_share::ShareLine;
use bh_share::share_line::Asked;
use bh_streams::{WatchedWriter, write};
use std::alloc::Global;
use std::io::Write;

/// Once so many bytes of answers are held, they are written before the next line is answered.
const MOST_HELD: usize = 8192;

/// Answers what a line asks, or its fault, behind the answers that are held. Where the line has to wait, these are written
/// first.
pub fn answer_line<W: Write, D: Desk>(
    alloc: Global,
    desk: &mut D,
    asked: &Asked,
    answers: &mut Vec<u8>,
    writer: &mut WatchedWriter<'_, W>,
) -> Result<(), PortError>
    ensures same_writer { (writer_of writer.new).ghost_name ≡ (writer_of writer.old).ghost_name }
    ensures refused { result ≡ Err PortError.Write → OneRefused writer.old writer.new }
    ensures not_refused { (result ≡ Err PortError.Write) ⊎ NoneRefused writer.old writer.new }
    ensures outcome { LineOutcome D.may desk.old desk.new (bytes_held W.contents writer.old) (bytes_held W.contents writer.new) asked.now answers.old.items result answers.new.items }
{
    match asked {
        Ok(line) => answer_asked(desk, line, answers, writer),
        Err(fault) => {
            put_fault(alloc, answers, *fault)?;
            Ok(())
        }
    }
}

/// Answers what is asked.
fn answer_asked<W: Write, D: Desk>(
    desk: &mut D,
    line: &ShareLine,
    answers: &mut Vec<u8>,
    writer: &mut WatchedWriter<'_, W>,
) -> Result<(), PortError>
    ensures same_writer { (writer_of writer.new).ghost_name ≡ (writer_of writer.old).ghost_name }
    ensures refused { result ≡ Err PortError.Write → OneRefused writer.old writer.new }
    ensures not_refused { (result ≡ Err PortError.Write) ⊎ NoneRefused writer.old writer.new }
    ensures outcome { LineOutcome D.may desk.old desk.new (bytes_held W.contents writer.old) (bytes_held W.contents writer.new) (Ok line.now) answers.old.items result answers.new.items }
{
    match desk.answer(line, answers)? {
        Turn::Answered => {}
        Turn::Waits => {
            write_held(answers, writer)?;
            desk.answer_late(line, answers)?;
        }
    }
    Ok(())
}

/// Writes the answers that are held, where they are many.
pub fn write_many<W: Write>(
    answers: &mut Vec<u8>,
    writer: &mut WatchedWriter<'_, W>,
) -> Result<(), PortError>
    ensures same_writer { (writer_of writer.new).ghost_name ≡ (writer_of writer.old).ghost_name }
    ensures ok { OnOk result (Moves (bytes_held W.contents writer.old) (bytes_held W.contents writer.new) answers.old.items answers.new.items) }
    ensures none_refused { OnOk result (NoneRefused writer.old writer.new) }
    ensures err { IfErr result (λ e. (e ≡ PortError.Write) × OneRefused writer.old writer.new) }
    ensures front { OnErr result (WritesFront (bytes_held W.contents writer.old) (bytes_held W.contents writer.new) answers.old.items) }
{
    if answers.len() >= MOST_HELD {
        return write_held(answers, writer);
    }
    Ok(())
}

/// Writes the answers that are held, and holds none then; or writes a front of them, and `Write` where the writer fails
/// or takes none.
pub fn write_held<W: Write>(
    answers: &mut Vec<u8>,
    writer: &mut WatchedWriter<'_, W>,
) -> Result<(), PortError>
    ensures same_writer { (writer_of writer.new).ghost_name ≡ (writer_of writer.old).ghost_name }
    ensures ok { OnOk result (Appends (bytes_held W.contents writer.old) (bytes_held W.contents writer.new) answers.old.items) }
    ensures none_held { OnOk result (answers.new.items ≡ []) }
    ensures none_refused { OnOk result (NoneRefused writer.old writer.new) }
    ensures err { IfErr result (λ e. (e ≡ PortError.Write) × OneRefused writer.old writer.new) }
    ensures front { WritesFront (bytes_held W.contents writer.old) (bytes_held W.contents writer.new) answers.old.items }
{
    write(writer, answers.as_slice())?;
    answers.clear();
    Ok(())
}
