//! Plain lines of which several are read before the first is answered, for scripts of many groups.
//!
//! What a step looks at first is mostly not in the processor's cache there. It is looked at for all these lines before the
//! first step is made, so that these waits go on at the same time and not one behind the other.

ghost use Rattle.std.specs.Prelude.{◌≡◌, ◌⊎◌, ◌+◌, ◌++◌, ◌<◌, ◌≤◌, ℕ, List, true, take, drop, length, Some, Err, OnOk, OnErr, IfOk, IfSome, IsSome};
ghost use Rattle.bh_props.specs.Shown.{settings_view};
ghost use Rattle.bh_lines.specs.Front.{IsFront};
ghost use Rattle.bh_lines.specs.Lines.{cut};
ghost use Rattle.bh_lines.specs.Plain.{IsFrontOf};
ghost use Rattle.bh_replies.specs.ToldLine.{told_line};
ghost use Rattle.bh_port.specs.Ahead.{AreRead, AreReady, IsReady, IsStep};
ghost use Rattle.bh_port.specs.CommandPlaces.{AreCommandPlaces};
ghost use Rattle.bh_port.specs.Course.{Course};
ghost use Rattle.bh_port.specs.Text.{told_by, with_act};
ghost use Rattle.bh_port.specs.Script.{AnswersFront, StopsShort, GroupsShow, AnswersLine, ScriptAnswered, ScriptOutcome, IsSaid};

use crate::act::{LineAct, plain_act};
use crate::groups::Groups;
use crate::places::CommandPlaces;
use crate::run::{Run, front_line_at};
use bh_base::GroupId;
use bh_faults::Fault;
use bh_lines::flat::FlatObject;
use bh_lines::{FrontLine, PortError};
use bh_props::Settings;
use std::alloc::AllocError;

/// How many lines are read before the first of them is answered.
const MOST_AHEAD: usize = 8;

/// A plain line that asks for a step or is at fault, and is not answered yet. No step changes a name, so what the line asks for
/// stays while those before it are answered.
#[derive(Clone, Copy, Debug)]
pub struct ReadLine {
    /// What it asks for, where it is not at fault.
    pub act: LineAct,
    /// Its fault, where it is at fault.
    pub said: Result<(), Fault>,
}

/// How many such lines stand in front, how many bytes they take, and a line behind them that is none.
#[derive(Clone, Copy, Debug)]
pub struct Ahead<'a> {
    pub lines: usize,
    pub taken: usize,
    pub other: Option<FrontLine<'a>>,
}

impl ReadLine {
    /// No line was read.
    fn none() -> ReadLine {
        ReadLine {
            act: LineAct::Retire(GroupId(0)),
            said: Ok(()),
        }
    }

    /// Reads the line, and says whether it is such a one.
    #[inline(always)]
    fn read<'a>(
        &mut self,
        settings: &Settings,
        groups: &Groups,
        object: &mut FlatObject<'a>,
        line: &'a str,
    ) -> bool
        ensures said { result ≡ true → IsSaid (settings_view settings.now) groups.now.entries line.now self.new.act self.new.said }
        ensures ready { result ≡ true → IsReady groups.now.entries self.new }
        ensures front { IsFrontOf line.now object.new }
    {
        let Some(said) = plain_act(settings, groups, object, line, &mut self.act) else {
            return false;
        };
        self.said = said;
        match said {
            Ok(()) => matches!(&self.act, LineAct::Step(_)),
            Err(_) => true,
        }
    }
}

/// Reads such lines from the front of the bytes, as many as there is place for; None where no line has ended there, or it is
/// refused. Of a line that is none of these the object is what was read.
fn read_ahead<'a>(
    settings: &Settings,
    groups: &Groups,
    object: &mut FlatObject<'a>,
    bytes: &'a [u8],
    lines: &mut [ReadLine],
) -> Option<Ahead<'a>>
    ensures count { IfSome result (λ ahead. ahead.lines ≤ length lines.new) }
    ensures read { IfSome result (λ ahead. AreRead (settings_view settings.now) groups.now.entries (take ahead.lines lines.new) bytes.now (drop ahead.taken bytes.now)) }
    ensures ready { IfSome result (λ ahead. AreReady groups.now.entries (take ahead.lines lines.new)) }
    ensures within { IfSome result (λ ahead. ahead.taken ≤ length bytes.now) }
    ensures other { IfSome result (λ ahead. IfSome ahead.other (λ front. IsFront (drop ahead.taken bytes.now) (Some front))) }
    ensures front { IfSome result (λ ahead. IfSome ahead.other (λ line. IsFrontOf line.text.now object.new)) }
    ensures more { IfSome result (λ ahead. (0 < ahead.taken) ⊎ IsSome ahead.other) }
{
    let mut count = 0;
    let mut taken = 0;
    while count < lines.len() {
        let Some(line) = front_line_at(bytes, taken) else {
            break;
        };
        if !lines[count].read(settings, groups, object, line.text) {
            return Some(Ahead {
                lines: count,
                taken,
                other: Some(line),
            });
        }
        count += 1;
        taken += line.taken;
    }
    if taken == 0 {
        return None;
    }
    Some(Ahead {
        lines: count,
        taken,
        other: None,
    })
}

/// What stands behind so many bytes.
#[inline(always)]
fn behind(bytes: &[u8], place: usize) -> &[u8]
    requires { place ≤ length bytes.now }
    ensures { result.now ≡ drop place bytes.now }
{
    &bytes[place..]
}

/// Looks at what the steps of the lines look at first. What is found there tells nothing: it is added up and kept, so that the
/// compiler leaves no look out.
#[inline(never)]
fn look_ahead(groups: &Groups, lines: &[ReadLine], before: u64) -> u64 {
    let mut seen = before;
    for line in lines {
        if let LineAct::Step(step) = &line.act {
            seen = seen.wrapping_add(groups.look_at(step));
        }
    }
    seen
}

impl Run {
    /// Answers the plain lines that the bytes begin with, as `answer_one_by_one` does, but several at a time.
    #[inline(never)]
    pub fn answer_ahead<'a>(
        &mut self,
        settings: &Settings,
        places: &CommandPlaces,
        object: &mut FlatObject<'a>,
        bytes: &'a [u8],
    ) -> Result<usize, AllocError>
        requires { AreCommandPlaces (settings_view settings.now).commands places.now }
        ensures answered { IfOk result (AnswersFront (settings_view settings.now) self.old.groups self.old.out.items self.new.groups self.new.out.items bytes.now) }
        ensures within { IfOk result (λ taken. taken ≤ length bytes.now) }
        ensures stopped { OnErr result (StopsShort (settings_view settings.now) self.old.groups self.old.out.items self.new.out.items bytes.now) }
    {
        let mut lines = [ReadLine::none(); MOST_AHEAD];
        let mut taken = 0;
        while let Some(ahead) = read_ahead(
            settings,
            &self.groups,
            object,
            behind(bytes, taken),
            &mut lines,
        ) {
            self.answer_read(settings, places, &lines[..ahead.lines])?;
            taken += ahead.taken;
            if let Some(front) = ahead.other {
                self.answer_other(settings, places, object, front.text)?;
                taken += front.taken;
            }
        }
        Ok(taken)
    }

    /// Answers lines that were read, behind what is to be written.
    fn answer_read(
        &mut self,
        settings: &Settings,
        places: &CommandPlaces,
        lines: &[ReadLine],
    ) -> Result<(), AllocError>
        requires places { AreCommandPlaces (settings_view settings.now).commands places.now }
        requires ready { AreReady self.old.groups.entries lines.now }
        ensures answered { OnOk result ((before : Course) (bytes left : List ℕ) → GroupsShow (settings_view settings.now) self.old.groups before →
            AreRead (settings_view settings.now) self.old.groups.entries lines.now bytes left →
            ScriptAnswered (Some self.old.out.items) (Some self.new.out.items) (settings_view settings.now) before self.new.groups bytes left) }
        ensures stopped { OnErr result ((before : Course) (bytes left more : List ℕ) → GroupsShow (settings_view settings.now) self.old.groups before →
            AreRead (settings_view settings.now) self.old.groups.entries lines.now bytes left →
            ScriptOutcome (Some self.old.out.items) (Some self.new.out.items) (settings_view settings.now) before (cut (bytes ++ more)) (Err PortError.Memory)) }
    {
        self.looked = look_ahead(&self.groups, lines, self.looked);
        for line in lines {
            self.answer_ready(settings, places, line)?;
        }
        Ok(())
    }

    /// Answers a line that was read, behind what is to be written.
    #[inline(always)]
    fn answer_ready(
        &mut self,
        settings: &Settings,
        places: &CommandPlaces,
        line: &ReadLine,
    ) -> Result<(), AllocError>
        requires places { AreCommandPlaces (settings_view settings.now).commands places.now }
        requires ready { IsReady self.old.groups.entries line.now }
        ensures answers { OnOk result ((before : Course) (bytes : List ℕ) → GroupsShow (settings_view settings.now) self.old.groups before →
            IsSaid (settings_view settings.now) self.old.groups.entries bytes line.now.act line.now.said →
            AnswersLine (settings_view settings.now) before bytes self.new.groups self.old.out.items self.new.out.items) }
        ensures entries { self.new.groups.entries ≡ self.old.groups.entries }
        ensures kept { OnErr result (self.new.out.items ≡ self.old.out.items) }
    {
        match line.said {
            Ok(()) => self.answer_step(settings, places, &line.act),
            Err(fault) => self.answer_fault(fault),
        }
    }

    /// Makes a step that a line asks for, and puts the line of its reply behind what is to be written.
    #[inline(always)]
    fn answer_step(
        &mut self,
        settings: &Settings,
        places: &CommandPlaces,
        act: &LineAct,
    ) -> Result<(), AllocError>
        requires places { AreCommandPlaces (settings_view settings.now).commands places.now }
        requires step { IsStep self.old.groups.entries act.now }
        ensures wrote { OnOk result ((before : Course) → GroupsShow (settings_view settings.now) self.old.groups before →
            self.new.out.items ≡ self.old.out.items ++ told_line (told_by (settings_view settings.now) before act.now)) }
        ensures agrees { OnOk result ((before : Course) → GroupsShow (settings_view settings.now) self.old.groups before →
            GroupsShow (settings_view settings.now) self.new.groups (with_act (settings_view settings.now) before act.now)) }
        ensures entries { self.new.groups.entries ≡ self.old.groups.entries }
        ensures kept { OnErr result (self.new.out.items ≡ self.old.out.items) }
    {
        let LineAct::Step(step) = act else {
            unreachable!()
        };
        let command = self
            .groups
            .make_step(settings, Some(places), step, &mut self.reply);
        self.put_step_reply(command)
    }
}
