//! The lines that have come, each kept or left out.

ghost use Rattle.std.specs.Prelude.{◌≡◌, ◌⊎◌, ◌<◌, ◌++◌, ℕ, List, true, false, length, Some, Err, OnOk, OnErr, IfErr, IfOk};
ghost use Rattle.bh_lines.specs.Lines.{cut, has_line, stopped};
ghost use Rattle.bh_lines.specs.Taken.{IsMemoryOrLine};
ghost use Rattle.bh_port.specs.Script.{IsNotRead};
ghost use Rattle.bh_streams.specs.Watched.{writer_of, bytes_held, OneRefused, NoneRefused};
ghost use Rattle.bh_cut.specs.Kept.{KeepsPiece, own_piece};
ghost use Rattle.bh_cut.specs.Named.{texts};
ghost use Rattle.bh_cut.specs.Outcome.{CutOutcome, IsCutUpTo};

use crate::named::names_one;
use bh_lines::lines::LINE_LIMIT;
use bh_lines::{PortError, front_line, last_line};
use bh_streams::{WatchedWriter, write};
use bytes::BytesMut;
use json::Scratch;
use memchr::memchr;
use std::alloc::{AllocError, Global};
use std::io::Write;

/// The lines of some groups, as they come: what is to be written at once, and what reading a line takes in memory. The bytes
/// that have come stand elsewhere, so that each line is looked at where it stands in them.
#[derive(Drop)]
pub struct Keeping {
    pub alloc: Global,
    pub out: Vec<u8>,
    pub scratch: Scratch,
}

impl Keeping {
    /// Looks at each line of the buffer that has ended, and writes those that are kept at once; also where the next line is
    /// refused. The buffer then begins behind the last of them.
    pub fn write_kept<W: Write>(
        &mut self,
        names: &[&str],
        buffer: &mut BytesMut,
        writer: &mut WatchedWriter<'_, W>,
    ) -> Result<(), PortError>
        ensures cut_up { OnOk result (IsCutUpTo (bytes_held W.contents writer.old) (bytes_held W.contents writer.new) (texts names.now) buffer.old.items buffer.new.items) }
        ensures none_left { OnOk result (has_line buffer.new.items ≡ false) }
        ensures no_read { IfErr result IsNotRead }
        ensures same_writer { (writer_of writer.new).ghost_name ≡ (writer_of writer.old).ghost_name }
        ensures refused { result ≡ Err PortError.Write → OneRefused writer.old writer.new }
        ensures not_refused { (result ≡ Err PortError.Write) ⊎ NoneRefused writer.old writer.new }
        ensures stopped { IfErr result (λ e. (more : List ℕ) →
            CutOutcome (bytes_held W.contents writer.old) (bytes_held W.contents writer.new) (texts names.now) (buffer.old.items ++ more) (Err e)) }
    {
        self.out.clear();
        let kept = self.keep_lines(names, buffer);
        write(writer, self.out.as_slice())?;
        kept
    }

    /// Looks at the line at the end of the input that no line feed ended, if any, and writes it where it is kept.
    pub fn write_last<W: Write>(
        &mut self,
        names: &[&str],
        rest: &mut BytesMut,
        writer: &mut WatchedWriter<'_, W>,
    ) -> Result<(), PortError>
        requires { has_line rest.old.items ≡ false }
        ensures no_read { IfErr result IsNotRead }
        ensures same_writer { (writer_of writer.new).ghost_name ≡ (writer_of writer.old).ghost_name }
        ensures refused { result ≡ Err PortError.Write → OneRefused writer.old writer.new }
        ensures not_refused { (result ≡ Err PortError.Write) ⊎ NoneRefused writer.old writer.new }
        ensures outcome { CutOutcome (bytes_held W.contents writer.old) (bytes_held W.contents writer.new) (texts names.now) rest.old.items result }
    {
        self.out.clear();
        let kept = self.keep_last(names, rest);
        write(writer, self.out.as_slice())?;
        kept
    }

    /// Looks at each line of the buffer that has ended, and puts those that are kept behind what is to be written. The buffer
    /// then begins behind the last of them.
    fn keep_lines(&mut self, names: &[&str], buffer: &mut BytesMut) -> Result<(), PortError>
        ensures cut_up { OnOk result (IsCutUpTo (Some self.old.out.items) (Some self.new.out.items) (texts names.now) buffer.old.items buffer.new.items) }
        ensures none_left { OnOk result (has_line buffer.new.items ≡ false) }
        ensures kinds { IfErr result IsMemoryOrLine }
        ensures stopped { IfErr result (λ e. (more : List ℕ) →
            CutOutcome (Some self.old.out.items) (Some self.new.out.items) (texts names.now) (buffer.old.items ++ more) (Err e)) }
    {
        while self.keep_next(names, buffer)? {}
        Ok(())
    }

    /// Looks at the line in front, and says whether one had ended. The buffer then begins behind it.
    ///
    /// `Line` comes where the line is of over `LINE_LIMIT` bytes, ended or not, or is not UTF-8.
    fn keep_next(&mut self, names: &[&str], buffer: &mut BytesMut) -> Result<bool, PortError>
        ensures cut_up { OnOk result (IsCutUpTo (Some self.old.out.items) (Some self.new.out.items) (texts names.now) buffer.old.items buffer.new.items) }
        ensures shorter { IfOk result (λ ended. ended ≡ true → length buffer.new.items < length buffer.old.items) }
        ensures none_left { IfOk result (λ ended. ended ≡ false → has_line buffer.new.items ≡ false) }
        ensures kinds { IfErr result IsMemoryOrLine }
        ensures stopped { IfErr result (λ e. (more : List ℕ) →
            CutOutcome (Some self.old.out.items) (Some self.new.out.items) (texts names.now) (buffer.old.items ++ more) (Err e)) }
    {
        let bytes = buffer.as_slice();
        let Some(feed) = memchr(b'\n', bytes) else {
            if bytes.len() > LINE_LIMIT {
                return Err(PortError::Line);
            }
            return Ok(false);
        };
        let taken = feed + 1;
        self.keep_piece(names, &bytes[..taken])?;
        buffer.advance(taken);
        Ok(true)
    }

    /// Looks at a line with its line feed, and puts it behind what is to be written where it is kept.
    fn keep_piece(&mut self, names: &[&str], piece: &[u8]) -> Result<(), PortError>
        requires { has_line piece.now ≡ true }
        ensures keeps { OnOk result (KeepsPiece (texts names.now) piece.now self.old.out.items self.new.out.items) }
        ensures kinds { IfErr result IsMemoryOrLine }
        ensures refused { result ≡ Err PortError.Line → cut piece.now ≡ stopped }
        ensures err { OnErr result (self.new.out.items ≡ self.old.out.items) }
    {
        let Some(front) = front_line(piece) else {
            return Err(PortError::Line);
        };
        self.keep_if_named(names, front.text, piece)?;
        Ok(())
    }

    /// Looks at the line at the end of the input that no line feed ended, if any, and puts it behind what is to be written
    /// where it is kept.
    fn keep_last(&mut self, names: &[&str], rest: &mut BytesMut) -> Result<(), PortError>
        requires { has_line rest.old.items ≡ false }
        ensures kinds { IfErr result IsMemoryOrLine }
        ensures outcome { CutOutcome (Some self.old.out.items) (Some self.new.out.items) (texts names.now) rest.old.items result }
    {
        let mut piece = Vec::new(self.alloc);
        piece.extend_from_slice(rest.as_slice())?;
        let Some(line) = last_line(rest)? else {
            return Ok(());
        };
        self.keep_if_named(names, line.as_str(), piece.as_slice())?;
        Ok(())
    }

    /// Puts the piece of a line behind what is to be written, where the line names one of the groups.
    fn keep_if_named(&mut self, names: &[&str], line: &str, piece: &[u8]) -> Result<(), AllocError>
        ensures keeps { OnOk result (self.new.out.items ≡ self.old.out.items ++ own_piece (texts names.now) line.now piece.now) }
        ensures err { OnErr result (self.new.out.items ≡ self.old.out.items) }
    {
        if names_one(self.alloc, &mut self.scratch, names, line)? {
            self.out.extend_from_slice(piece)?;
        }
        Ok(())
    }
}
