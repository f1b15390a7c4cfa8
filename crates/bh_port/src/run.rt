//! A run of a script: lines are answered as they come, each by the line of what it is told or of its fault.

ghost use Rattle.std.specs.Prelude.{◌≡◌, ◌⊎◌, ◌++◌, ◌<◌, ◌≤◌, ℕ, List, true, false, drop, length, option_copied, Some, Err, OnOk, OnErr, IfErr, IfOk};
ghost use Rattle.bh_props.specs.Shown.{settings_view};
ghost use Rattle.bh_lines.specs.Front.{IsFront};
ghost use Rattle.bh_lines.specs.Lines.{cut, has_line};
ghost use Rattle.bh_lines.specs.Plain.{IsFrontOf};
ghost use Rattle.bh_lines.specs.Taken.{IsMemoryOrLine};
ghost use Rattle.bh_replies.specs.FaultLine.{fault_line};
ghost use Rattle.bh_replies.specs.ReplyLine.{reply_line};
ghost use Rattle.bh_replies.specs.ToldLine.{told_line};
ghost use Rattle.bh_streams.specs.Watched.{writer_of, bytes_held, OneRefused, NoneRefused};
ghost use Rattle.bh_port.specs.CommandPlaces.{AreCommandPlaces};
ghost use Rattle.bh_port.specs.Course.{Course, IsActOf};
ghost use Rattle.bh_port.specs.Text.{told_by, with_act};
ghost use Rattle.bh_port.specs.Script.{AnswersFront, StopsShort, GroupsShow, AnswersLine, ScriptAnswered, ScriptOutcome, IsNotRead, IsSaid};

use crate::act::{LineAct, line_act, other_act, plain_act};
use crate::groups::Groups;
use crate::places::CommandPlaces;
use bh_base::{Reply, Text};
use bh_faults::Fault;
use bh_lines::flat::FlatObject;
use bh_lines::{FrontLine, PortError, front_line, last_line, next_line};
use bh_props::Settings;
use bh_replies::{put_fault, put_reply, put_told};
use bh_streams::{WatchedWriter, write};
use bytes::BytesMut;
use json::Scratch;
use std::alloc::{AllocError, Global};
use std::io::Write;

/// So few groups stay in the processor's cache, and no line is read ahead.
const FEW_GROUPS: usize = 256;

/// Bytes for the texts with escapes of the plain lines that are answered in one go.
const ESCAPED_ROOM: usize = 4_096;

/// A run of a script: the groups, what the last line asked for, the reply to the last step, the answers that are to be
/// written at once, and what putting and reading a line takes in memory. The bytes that have come stand elsewhere, so that
/// each line is answered from where it stands in them.
#[derive(Drop)]
pub struct Run {
    pub alloc: Global,
    pub groups: Groups,
    pub act: LineAct,
    pub reply: Reply,
    pub out: Vec<u8>,
    /// Room for one line.
    pub line: Vec<u8>,
    /// What looks ahead added up to. It tells nothing.
    pub looked: u64,
    pub scratch: Scratch,
}

impl Run {
    /// Answers each line of the buffer that has ended, and writes the answers at once; also where the next line is refused.
    /// The buffer then begins behind the last of them.
    pub fn write_answers<W: Write>(
        &mut self,
        settings: &Settings,
        places: &CommandPlaces,
        buffer: &mut BytesMut,
        writer: &mut WatchedWriter<'_, W>,
    ) -> Result<(), PortError>
        requires { AreCommandPlaces (settings_view settings.now).commands places.now }
        ensures answered { OnOk result ((before : Course) → GroupsShow (settings_view settings.now) self.old.groups before →
            ScriptAnswered (bytes_held W.contents writer.old) (bytes_held W.contents writer.new) (settings_view settings.now) before self.new.groups buffer.old.items buffer.new.items) }
        ensures none_left { OnOk result (has_line buffer.new.items ≡ false) }
        ensures no_read { IfErr result IsNotRead }
        ensures same_writer { (writer_of writer.new).ghost_name ≡ (writer_of writer.old).ghost_name }
        ensures refused { result ≡ Err PortError.Write → OneRefused writer.old writer.new }
        ensures not_refused { (result ≡ Err PortError.Write) ⊎ NoneRefused writer.old writer.new }
        ensures stopped { IfErr result (λ e. (before : Course) (more : List ℕ) → GroupsShow (settings_view settings.now) self.old.groups before →
            ScriptOutcome (bytes_held W.contents writer.old) (bytes_held W.contents writer.new) (settings_view settings.now) before (cut (buffer.old.items ++ more)) (Err e)) }
    {
        self.out.clear();
        let answered = self.answer_lines(settings, places, buffer);
        write(writer, self.out.as_slice())?;
        answered
    }

    /// Answers the line at the end of the input that no line feed ended, if any, and writes the answer.
    pub fn write_last<W: Write>(
        &mut self,
        settings: &Settings,
        places: &CommandPlaces,
        rest: &mut BytesMut,
        writer: &mut WatchedWriter<'_, W>,
    ) -> Result<(), PortError>
        requires places { AreCommandPlaces (settings_view settings.now).commands places.now }
        requires last { has_line rest.old.items ≡ false }
        ensures no_read { IfErr result IsNotRead }
        ensures same_writer { (writer_of writer.new).ghost_name ≡ (writer_of writer.old).ghost_name }
        ensures refused { result ≡ Err PortError.Write → OneRefused writer.old writer.new }
        ensures not_refused { (result ≡ Err PortError.Write) ⊎ NoneRefused writer.old writer.new }
        ensures outcome { (before : Course) → GroupsShow (settings_view settings.now) self.old.groups before →
            ScriptOutcome (bytes_held W.contents writer.old) (bytes_held W.contents writer.new) (settings_view settings.now) before (cut rest.old.items) result }
    {
        self.out.clear();
        let answered = self.answer_last(settings, places, rest);
        write(writer, self.out.as_slice())?;
        answered
    }

    /// Answers each line of the buffer that has ended, behind what is to be written. The buffer then begins behind the last of
    /// them.
    fn answer_lines(
        &mut self,
        settings: &Settings,
        places: &CommandPlaces,
        buffer: &mut BytesMut,
    ) -> Result<(), PortError>
        requires { AreCommandPlaces (settings_view settings.now).commands places.now }
        ensures answered { OnOk result ((before : Course) → GroupsShow (settings_view settings.now) self.old.groups before →
            ScriptAnswered (Some self.old.out.items) (Some self.new.out.items) (settings_view settings.now) before self.new.groups buffer.old.items buffer.new.items) }
        ensures none_left { OnOk result (has_line buffer.new.items ≡ false) }
        ensures kinds { IfErr result IsMemoryOrLine }
        ensures stopped { IfErr result (λ e. (before : Course) (more : List ℕ) → GroupsShow (settings_view settings.now) self.old.groups before →
            ScriptOutcome (Some self.old.out.items) (Some self.new.out.items) (settings_view settings.now) before (cut (buffer.old.items ++ more)) (Err e)) }
    {
        while self.answer_next(settings, places, buffer)? {}
        Ok(())
    }

    /// Answers the plain lines in front and the line behind them, behind what is to be written, and says whether that had
    /// ended. The buffer then begins behind the last of them.
    fn answer_next(
        &mut self,
        settings: &Settings,
        places: &CommandPlaces,
        buffer: &mut BytesMut,
    ) -> Result<bool, PortError>
        requires { AreCommandPlaces (settings_view settings.now).commands places.now }
        ensures answered { OnOk result ((before : Course) → GroupsShow (settings_view settings.now) self.old.groups before →
            ScriptAnswered (Some self.old.out.items) (Some self.new.out.items) (settings_view settings.now) before self.new.groups buffer.old.items buffer.new.items) }
        ensures shorter { IfOk result (λ ended. ended ≡ true → length buffer.new.items < length buffer.old.items) }
        ensures none_left { IfOk result (λ ended. ended ≡ false → has_line buffer.new.items ≡ false) }
        ensures kinds { IfErr result IsMemoryOrLine }
        ensures stopped { IfErr result (λ e. (before : Course) (more : List ℕ) → GroupsShow (settings_view settings.now) self.old.groups before →
            ScriptOutcome (Some self.old.out.items) (Some self.new.out.items) (settings_view settings.now) before (cut (buffer.old.items ++ more)) (Err e)) }
    {
        self.answer_front(settings, places, buffer)?;
        self.answer_cut(settings, places, buffer)
    }

    /// Answers the plain lines in front, behind what is to be written. The buffer then begins behind them; where memory is
    /// refused for an answer, it stays as it is.
    fn answer_front(
        &mut self,
        settings: &Settings,
        places: &CommandPlaces,
        buffer: &mut BytesMut,
    ) -> Result<(), AllocError>
        requires { AreCommandPlaces (settings_view settings.now).commands places.now }
        ensures answered { OnOk result ((before : Course) → GroupsShow (settings_view settings.now) self.old.groups before →
            ScriptAnswered (Some self.old.out.items) (Some self.new.out.items) (settings_view settings.now) before self.new.groups buffer.old.items buffer.new.items) }
        ensures no_longer { length buffer.new.items ≤ length buffer.old.items }
        ensures stopped { OnErr result ((before : Course) (more : List ℕ) → GroupsShow (settings_view settings.now) self.old.groups before →
            ScriptOutcome (Some self.old.out.items) (Some self.new.out.items) (settings_view settings.now) before (cut (buffer.old.items ++ more)) (Err PortError.Memory)) }
    {
        let mut room = [0; ESCAPED_ROOM];
        let mut object = FlatObject::with_room(&mut room);
        let bytes = buffer.as_slice();
        let taken = if self.groups.count() > FEW_GROUPS {
            self.answer_ahead(settings, places, &mut object, bytes)?
        } else {
            self.answer_one_by_one(settings, places, &mut object, bytes)?
        };
        buffer.advance(taken);
        Ok(())
    }

    /// Answers the plain lines that the bytes begin with, each as it is read and by the same object, and says how many bytes
    /// they take.
    fn answer_one_by_one<'a>(
        &mut self,
        settings: &Settings,
        places: &CommandPlaces,
        object: &mut FlatObject<'a>,
        bytes: &'a [u8],
    ) -> Result<usize, AllocError>
        requires { AreCommandPlaces (settings_view settings.now).commands places.now }
        ensures answered { IfOk result (AnswersFront (settings_view settings.now) self.old.groups self.old.out.items self.new.groups self.new.out.items bytes.now) }
        ensures within { IfOk result (λ taken. taken ≤ length bytes.now) }
        ensures stopped { OnErr result (StopsShort (settings_view settings.now) self.old.groups self.old.out.items self.new.out.items bytes.now) }
    {
        let mut taken = 0;
        while let Some(line) = front_line_at(bytes, taken) {
            self.answer_plain(settings, places, object, line.text)?;
            taken += line.taken;
        }
        Ok(taken)
    }

    /// Answers the line in front, which is not plain, behind what is to be written, and says whether one had ended. The buffer
    /// then begins behind it.
    #[cold]
    #[inline(never)]
    fn answer_cut(
        &mut self,
        settings: &Settings,
        places: &CommandPlaces,
        buffer: &mut BytesMut,
    ) -> Result<bool, PortError>
        requires { AreCommandPlaces (settings_view settings.now).commands places.now }
        ensures answered { OnOk result ((before : Course) → GroupsShow (settings_view settings.now) self.old.groups before →
            ScriptAnswered (Some self.old.out.items) (Some self.new.out.items) (settings_view settings.now) before self.new.groups buffer.old.items buffer.new.items) }
        ensures shorter { IfOk result (λ ended. ended ≡ true → length buffer.new.items < length buffer.old.items) }
        ensures none_left { IfOk result (λ ended. ended ≡ false → has_line buffer.new.items ≡ false) }
        ensures kinds { IfErr result IsMemoryOrLine }
        ensures stopped { IfErr result (λ e. (before : Course) (more : List ℕ) → GroupsShow (settings_view settings.now) self.old.groups before →
            ScriptOutcome (Some self.old.out.items) (Some self.new.out.items) (settings_view settings.now) before (cut (buffer.old.items ++ more)) (Err e)) }
    {
        let Some(line) = next_line(buffer)? else {
            return Ok(false);
        };
        self.answer_line(settings, places, line.as_str())?;
        Ok(true)
    }

    /// Answers the line at the end of the input that no line feed ended, if any.
    fn answer_last(
        &mut self,
        settings: &Settings,
        places: &CommandPlaces,
        rest: &mut BytesMut,
    ) -> Result<(), PortError>
        requires places { AreCommandPlaces (settings_view settings.now).commands places.now }
        requires last { has_line rest.old.items ≡ false }
        ensures kinds { IfErr result IsMemoryOrLine }
        ensures outcome { (before : Course) → GroupsShow (settings_view settings.now) self.old.groups before →
            ScriptOutcome (Some self.old.out.items) (Some self.new.out.items) (settings_view settings.now) before (cut rest.old.items) result }
    {
        let Some(line) = last_line(rest)? else {
            return Ok(());
        };
        self.answer_line(settings, places, line.as_str())?;
        Ok(())
    }

    /// Answers a line, behind what is to be written.
    fn answer_line(
        &mut self,
        settings: &Settings,
        places: &CommandPlaces,
        line: &str,
    ) -> Result<(), AllocError>
        requires { AreCommandPlaces (settings_view settings.now).commands places.now }
        ensures answers { OnOk result ((before : Course) → GroupsShow (settings_view settings.now) self.old.groups before →
            AnswersLine (settings_view settings.now) before line.now self.new.groups self.old.out.items self.new.out.items) }
        ensures kept { OnErr result (self.new.out.items ≡ self.old.out.items) }
    {
        let said = line_act(
            self.alloc,
            settings,
            &self.groups,
            &mut self.scratch,
            line,
            &mut self.act,
        )?;
        self.answer_said(settings, places, said)
    }

    /// The same of a line in front, by an object that serves for all of them. What is left of a line that is not plain is read
    /// in a function of its own.
    #[inline(always)]
    fn answer_plain<'a>(
        &mut self,
        settings: &Settings,
        places: &CommandPlaces,
        object: &mut FlatObject<'a>,
        line: &'a str,
    ) -> Result<(), AllocError>
        requires { AreCommandPlaces (settings_view settings.now).commands places.now }
        ensures answers { OnOk result ((before : Course) → GroupsShow (settings_view settings.now) self.old.groups before →
            AnswersLine (settings_view settings.now) before line.now self.new.groups self.old.out.items self.new.out.items) }
        ensures kept { OnErr result (self.new.out.items ≡ self.old.out.items) }
    {
        match plain_act(settings, &self.groups, object, line, &mut self.act) {
            Some(said) => self.answer_said(settings, places, said),
            None => self.answer_other(settings, places, object, line),
        }
    }

    /// The same of any line, of which the front was read.
    #[inline(never)]
    pub fn answer_other(
        &mut self,
        settings: &Settings,
        places: &CommandPlaces,
        front: &FlatObject<'_>,
        line: &str,
    ) -> Result<(), AllocError>
        requires places { AreCommandPlaces (settings_view settings.now).commands places.now }
        requires front { IsFrontOf line.now front.now }
        ensures answers { OnOk result ((before : Course) → GroupsShow (settings_view settings.now) self.old.groups before →
            AnswersLine (settings_view settings.now) before line.now self.new.groups self.old.out.items self.new.out.items) }
        ensures kept { OnErr result (self.new.out.items ≡ self.old.out.items) }
    {
        let said = other_act(
            self.alloc,
            settings,
            &self.groups,
            &mut self.scratch,
            front,
            line,
            &mut self.act,
        )?;
        self.answer_said(settings, places, said)
    }

    /// Answers a line of which it is said what it asks for, or its fault, behind what is to be written.
    fn answer_said(
        &mut self,
        settings: &Settings,
        places: &CommandPlaces,
        said: Result<(), Fault>,
    ) -> Result<(), AllocError>
        requires act { OnOk said (IsActOf (settings_view settings.now) self.old.groups.entries self.old.act) }
        requires places { AreCommandPlaces (settings_view settings.now).commands places.now }
        ensures answers { OnOk result ((before : Course) (bytes : List ℕ) → GroupsShow (settings_view settings.now) self.old.groups before →
            IsSaid (settings_view settings.now) self.old.groups.entries bytes self.old.act said →
            AnswersLine (settings_view settings.now) before bytes self.new.groups self.old.out.items self.new.out.items) }
        ensures kept { OnErr result (self.new.out.items ≡ self.old.out.items) }
    {
        match said {
            Ok(()) => self.answer_act(settings, places),
            Err(fault) => self.answer_fault(fault),
        }
    }

    /// Does what the last line asked for, and puts the line of what is told behind what is to be written.
    fn answer_act(&mut self, settings: &Settings, places: &CommandPlaces) -> Result<(), AllocError>
        requires act { IsActOf (settings_view settings.now) self.old.groups.entries self.old.act }
        requires places { AreCommandPlaces (settings_view settings.now).commands places.now }
        ensures wrote { OnOk result ((before : Course) → GroupsShow (settings_view settings.now) self.old.groups before →
            self.new.out.items ≡ self.old.out.items ++ told_line (told_by (settings_view settings.now) before self.old.act)) }
        ensures agrees { OnOk result ((before : Course) → GroupsShow (settings_view settings.now) self.old.groups before →
            GroupsShow (settings_view settings.now) self.new.groups (with_act (settings_view settings.now) before self.old.act)) }
        ensures kept { OnErr result (self.new.out.items ≡ self.old.out.items) }
    {
        if let LineAct::Step(step) = &self.act {
            let command = self
                .groups
                .make_step(settings, Some(places), step, &mut self.reply);
            return self.put_step_reply(command);
        }
        self.answer_change(settings)
    }

    /// Puts the line of the reply to the last step behind what is to be written. One that has a text is put by itself
    /// first: where a text needs an escape, the writer of the JSON library clears as many bytes as stand before it.
    pub fn put_step_reply(&mut self, command: Option<&Text<32>>) -> Result<(), AllocError>
        ensures ok { OnOk result (self.new.out.items ≡ self.old.out.items ++ reply_line (option_copied command.entry) self.old.reply) }
        ensures same { self.new.groups ≡ self.old.groups }
        ensures err { OnErr result (self.new.out.items ≡ self.old.out.items) }
    {
        match &self.reply {
            Reply::Assigned { .. } | Reply::Answered(_) => {
                self.line.clear();
                put_reply(self.alloc, &mut self.line, &self.reply, command)?;
                self.out.extend_from_slice(self.line.as_slice())
            }
            _ => put_reply(self.alloc, &mut self.out, &self.reply, command),
        }
    }

    /// Does what the last line asked for, as `answer_act` says, of a line that registers or retires a group. It stands by
    /// itself, since a function clears the room of all its locals as it begins: few lines are to pay for these.
    fn answer_change(&mut self, settings: &Settings) -> Result<(), AllocError>
        requires { IsActOf (settings_view settings.now) self.old.groups.entries self.old.act }
        ensures wrote { OnOk result ((before : Course) → GroupsShow (settings_view settings.now) self.old.groups before →
            self.new.out.items ≡ self.old.out.items ++ told_line (told_by (settings_view settings.now) before self.old.act)) }
        ensures agrees { OnOk result ((before : Course) → GroupsShow (settings_view settings.now) self.old.groups before →
            GroupsShow (settings_view settings.now) self.new.groups (with_act (settings_view settings.now) before self.old.act)) }
        ensures kept { OnErr result (self.new.out.items ≡ self.old.out.items) }
    {
        let Ok(told) = self.groups.act(settings, &self.act) else {
            return Err(AllocError);
        };
        put_told(self.alloc, &mut self.out, &told)
    }

    /// Puts the line of a fault behind what is to be written.
    pub fn answer_fault(&mut self, fault: Fault) -> Result<(), AllocError>
        ensures wrote { OnOk result (self.new.out.items ≡ self.old.out.items ++ fault_line fault) }
        ensures same { self.new.groups ≡ self.old.groups }
        ensures kept { OnErr result (self.new.out.items ≡ self.old.out.items) }
    {
        put_fault(self.alloc, &mut self.out, fault)
    }
}

/// The plain line in front of what stands behind so many bytes.
#[inline(always)]
pub fn front_line_at(bytes: &[u8], place: usize) -> Option<FrontLine<'_>>
    requires { place ≤ length bytes.now }
    ensures { IsFront (drop place bytes.now) result }
{
    front_line(&bytes[place..])
}
