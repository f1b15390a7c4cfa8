//! A conversation: lines that come in pieces, each answered as soon as it has ended.

ghost use Rattle.std.specs.Prelude.{◌≡◌, ◌++◌, ℕ, List, [], false, None, Some, Err, IfSome, OnOk};
ghost use Rattle.bh_lines.specs.Lines.{has_line};
ghost use Rattle.bh_control.specs.AnswerLine.{responder};
ghost use Rattle.bh_control.specs.Pieces.{Each, EachLast, UnlessEmpty, Fed, Ended};

use crate::answer_line::put_answer;
use crate::control::Control;
use crate::received::Received;
use bh_lines::PortError;
use std::alloc::Global;
use std::marker::Model;

/// A stream of control lines that comes in pieces, and is answered piece by piece. It does not matter how the stream
/// is cut into pieces.
///
/// A line of over 1,024 bytes, or one that is not UTF-8, is a fault: the conversation answers `Line` from then on. It
/// answers `Memory` from then on where memory was refused.
#[derive(Drop)]
pub struct Conversation {
    alloc: Global,
    received: Received,
    fault: Option<PortError>,
}

impl Model for Conversation {
    ghost use Rattle.bh_control.specs.ConversationView.{ConversationView, IsKept};

    ghost Value = { ConversationView };

    ghost view = { λ c. record { rest = c.received; fault = c.fault } };

    ghost invariant = { λ c. IsKept c.received c.fault };
}

impl Conversation {
    /// A conversation in which nothing was said. It takes no memory yet.
    pub fn new(alloc: Global) -> Conversation
        ensures { result ≡ record { rest = []; fault = None } }
    {
        Conversation {
            alloc,
            received: Received::new(alloc),
            fault: None,
        }
    }

    /// The fault that is answered to every call from now on, if there is one.
    pub fn fault(&self) -> Option<PortError>
        ensures { result ≡ self.now.fault }
    {
        self.fault
    }

    /// Answers each line that the piece ends, in order, and keeps what follows its last line feed.
    ///
    /// `Line` comes where the next line is refused, at once if no line was answered in this call, and else from the
    /// next call on; `Memory` where memory is refused: the answers of this call are lost then. After either the same
    /// is answered to every call.
    pub fn feed<C: Control>(&mut self, piece: &[u8], control: &mut C) -> Result<Vec<u8>, PortError>
        ensures failed { IfSome self.old.fault (λ fault. (result ≡ Err fault) × (self.new ≡ self.old) × (control.new ≡ control.old)) }
        ensures fed { self.old.fault ≡ None →
            Fed (responder (C.names control.old) C.may_show C.may_answer C.may_close C.may_total C.may_tune C.may_force) (self.old.rest ++ piece.now) result self.new.rest self.new.fault }
        ensures groups { C.names control.new ≡ C.names control.old }
    {
        if let Some(fault) = self.fault {
            return Err(fault);
        }
        if self.received.push(piece).is_err() {
            self.fault = Some(PortError::Memory);
            return Err(PortError::Memory);
        }
        let mut out = Vec::new(self.alloc);
        match answer_each(self.alloc, &mut self.received, control, &mut out) {
            Ok(()) => Ok(out),
            Err(PortError::Line) => {
                self.fault = Some(PortError::Line);
                unless_empty(out)
            }
            Err(fault) => {
                self.fault = Some(fault);
                Err(fault)
            }
        }
    }

    /// Answers the line at the end of the stream that no line feed ended, if there is one, and keeps nothing.
    ///
    /// `Line` and `Memory` come as at `feed`.
    pub fn end<C: Control>(&mut self, control: &mut C) -> Result<Vec<u8>, PortError>
        ensures failed { IfSome self.old.fault (λ fault. (result ≡ Err fault) × (self.new.fault ≡ Some fault) × (control.new ≡ control.old)) }
        ensures ended { self.old.fault ≡ None →
            Ended (responder (C.names control.old) C.may_show C.may_answer C.may_close C.may_total C.may_tune C.may_force) self.old.rest result self.new.fault }
        ensures kept { self.new.rest ≡ [] }
        ensures groups { C.names control.new ≡ C.names control.old }
    {
        if let Some(fault) = self.fault {
            self.received.clear();
            return Err(fault);
        }
        let mut out = Vec::new(self.alloc);
        let answered = answer_last(self.alloc, &mut self.received, control, &mut out);
        self.received.clear();
        match answered {
            Ok(()) => Ok(out),
            Err(fault) => {
                self.fault = Some(fault);
                Err(fault)
            }
        }
    }
}

/// Answers each line that has ended, behind what is in `out`, and keeps the bytes that follow the last of them.
fn answer_each<C: Control>(
    alloc: Global,
    received: &mut Received,
    control: &mut C,
    out: &mut Vec<u8>,
) -> Result<(), PortError>
    ensures each { Each (responder (C.names control.old) C.may_show C.may_answer C.may_close C.may_total C.may_tune C.may_force) received.old out.old.items result received.new out.new.items }
    ensures groups { C.names control.new ≡ C.names control.old }
{
    let mut answer = Vec::new(alloc);
    while let Some(asked) = received.next(control)? {
        answer.clear();
        put_answer(alloc, control, &asked, &mut answer)?;
        out.extend_from_slice(answer.as_slice())?;
    }
    Ok(())
}

/// The answers before a line that is refused, or its fault at once where there are none.
fn unless_empty(answers: Vec<u8>) -> Result<Vec<u8>, PortError>
    ensures { UnlessEmpty answers result }
{
    if answers.is_empty() {
        Err(PortError::Line)
    } else {
        Ok(answers)
    }
}

/// Answers the line that no line feed ended, if there is one.
fn answer_last<C: Control>(
    alloc: Global,
    received: &mut Received,
    control: &mut C,
    out: &mut Vec<u8>,
) -> Result<(), PortError>
    requires line { has_line received.old ≡ false }
    requires held { out.old.items ≡ [] }
    ensures last { EachLast (responder (C.names control.old) C.may_show C.may_answer C.may_close C.may_total C.may_tune C.may_force) received.old out.old.items result out.new.items }
    ensures groups { C.names control.new ≡ C.names control.old }
{
    let Some(asked) = received.last(control)? else {
        return Ok(());
    };
    put_answer(alloc, control, &asked, out)?;
    Ok(())
}
