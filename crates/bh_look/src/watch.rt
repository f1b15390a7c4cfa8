//! The groups of a run, and what came of the lines so far.

ghost use Rattle.std.specs.Prelude.{◌≡◌, ◌<◌, ◌++◌, ℕ, List, [], ◌∷◌, true, false, length, slice_get, Err, IfErr, IfOk, OnOk, Some};
ghost use Rattle.bh_base.specs.Commands.{command_count};
ghost use Rattle.bh_base.specs.Props.{GroupProps};
ghost use Rattle.bh_lines.specs.Lines.{cut, has_line};
ghost use Rattle.bh_lines.specs.Taken.{IsMemoryOrLine};
ghost use Rattle.bh_port.specs.Course.{Course, IsActOf, new_course};
ghost use Rattle.bh_port.specs.Script.{GroupsShow};
ghost use Rattle.bh_port.specs.Text.{with_act};
ghost use Rattle.bh_props.specs.Shown.{settings_view};
ghost use Rattle.bh_look.specs.Scripts.{course_after, tally_done};
ghost use Rattle.bh_look.specs.Tallies.{no_tally};
ghost use Rattle.bh_look.specs.Watched.{AreNewLanes, IsWatched, TakenUpTo, TakesLine, WatchOutcome, tally_at};

use crate::lane::{Lane, new_lanes};
use crate::making::make_step;
use bh_base::{GroupId, Reply};
use bh_lines::{PortError, front_line, last_line, next_line};
use bh_port::act::{LineAct, line_act};
use bh_port::groups::Groups;
use bh_props::Settings;
use bytes::BytesMut;
use json::Scratch;
use std::alloc::{AllocError, Global};

/// The groups of a run, what came of the lines so far, and what reading a line takes in memory. The bytes that have come
/// stand elsewhere.
#[derive(Drop)]
pub struct Watch {
    pub alloc: Global,
    pub groups: Groups,
    /// By the numbers of the groups, and of each by those of its commands.
    pub lanes: Vec<Vec<Lane>>,
    /// How many lines there were.
    pub lines: u64,
    /// How many of them were at fault.
    pub faults: u64,
    /// What the last line asked for, and the reply to the last step.
    pub act: LineAct,
    pub reply: Reply,
    pub scratch: Scratch,
}

impl Watch {
    /// The groups of the settings, all new, and no line. It fails only for want of memory, as `Memory`.
    pub fn open(alloc: Global, settings: &Settings) -> Result<Watch, PortError>
        ensures watched { IfOk result (λ watch. IsWatched (settings_view settings.now) watch.groups watch.lanes.items (new_course (settings_view settings.now))) }
        ensures none { IfOk result (λ watch. (group command : ℕ) → tally_at watch.lanes.items group command ≡ no_tally) }
        ensures err { IfErr result (λ e. e ≡ PortError.Memory) }
    {
        let groups = Groups::open(alloc, settings)?;
        let lanes = all_lanes(alloc, settings)?;
        Ok(Watch {
            alloc,
            groups,
            lanes,
            lines: 0,
            faults: 0,
            act: LineAct::Retire(GroupId(0)),
            reply: Reply::NoGroup,
            scratch: Scratch::new(alloc),
        })
    }

    /// Does what each line of the buffer that has ended asks for. The buffer then begins behind the last of them.
    pub fn take_lines(
        &mut self,
        settings: &Settings,
        buffer: &mut BytesMut,
    ) -> Result<(), PortError>
        ensures taken { OnOk result ((before : Course) → IsWatched (settings_view settings.now) self.old.groups self.old.lanes.items before →
            TakenUpTo (settings_view settings.now) before self.new.groups self.old.lanes.items self.new.lanes.items buffer.old.items buffer.new.items) }
        ensures none_left { OnOk result (has_line buffer.new.items ≡ false) }
        ensures kinds { IfErr result IsMemoryOrLine }
        ensures stopped { IfErr result (λ e. (before : Course) (more : List ℕ) → IsWatched (settings_view settings.now) self.old.groups self.old.lanes.items before →
            WatchOutcome (settings_view settings.now) before (cut (buffer.old.items ++ more)) self.old.lanes.items self.new.lanes.items (Err e)) }
    {
        while self.take_next(settings, buffer)? {}
        Ok(())
    }

    /// Does what the line at the end of the input asks for that no line feed ended, if any.
    pub fn take_last(&mut self, settings: &Settings, rest: &mut BytesMut) -> Result<(), PortError>
        requires { has_line rest.old.items ≡ false }
        ensures kinds { IfErr result IsMemoryOrLine }
        ensures watched { OnOk result ((before : Course) → IsWatched (settings_view settings.now) self.old.groups self.old.lanes.items before →
            IsWatched (settings_view settings.now) self.new.groups self.new.lanes.items (course_after (settings_view settings.now) before (cut rest.old.items))) }
        ensures outcome { (before : Course) → IsWatched (settings_view settings.now) self.old.groups self.old.lanes.items before →
            WatchOutcome (settings_view settings.now) before (cut rest.old.items) self.old.lanes.items self.new.lanes.items result }
    {
        let Some(line) = last_line(rest)? else {
            return Ok(());
        };
        self.take_line(settings, line.as_str())?;
        Ok(())
    }

    /// Does what the line in front asks for, and says whether one had ended. The buffer then begins behind it.
    fn take_next(&mut self, settings: &Settings, buffer: &mut BytesMut) -> Result<bool, PortError>
        ensures taken { OnOk result ((before : Course) → IsWatched (settings_view settings.now) self.old.groups self.old.lanes.items before →
            TakenUpTo (settings_view settings.now) before self.new.groups self.old.lanes.items self.new.lanes.items buffer.old.items buffer.new.items) }
        ensures shorter { IfOk result (λ ended. ended ≡ true → length buffer.new.items < length buffer.old.items) }
        ensures none_left { IfOk result (λ ended. ended ≡ false → has_line buffer.new.items ≡ false) }
        ensures kinds { IfErr result IsMemoryOrLine }
        ensures stopped { IfErr result (λ e. (before : Course) (more : List ℕ) → IsWatched (settings_view settings.now) self.old.groups self.old.lanes.items before →
            WatchOutcome (settings_view settings.now) before (cut (buffer.old.items ++ more)) self.old.lanes.items self.new.lanes.items (Err e)) }
    {
        let Some(line) = front_line(buffer.as_slice()) else {
            return self.take_cut(settings, buffer);
        };
        self.take_line(settings, line.text)?;
        let taken = line.taken;
        buffer.advance(taken);
        Ok(true)
    }

    /// The same where no plain line stands in front.
    fn take_cut(&mut self, settings: &Settings, buffer: &mut BytesMut) -> Result<bool, PortError>
        ensures taken { OnOk result ((before : Course) → IsWatched (settings_view settings.now) self.old.groups self.old.lanes.items before →
            TakenUpTo (settings_view settings.now) before self.new.groups self.old.lanes.items self.new.lanes.items buffer.old.items buffer.new.items) }
        ensures shorter { IfOk result (λ ended. ended ≡ true → length buffer.new.items < length buffer.old.items) }
        ensures none_left { IfOk result (λ ended. ended ≡ false → has_line buffer.new.items ≡ false) }
        ensures kinds { IfErr result IsMemoryOrLine }
        ensures stopped { IfErr result (λ e. (before : Course) (more : List ℕ) → IsWatched (settings_view settings.now) self.old.groups self.old.lanes.items before →
            WatchOutcome (settings_view settings.now) before (cut (buffer.old.items ++ more)) self.old.lanes.items self.new.lanes.items (Err e)) }
    {
        let Some(line) = next_line(buffer)? else {
            return Ok(false);
        };
        self.take_line(settings, line.as_str())?;
        Ok(true)
    }

    /// Does what the line asks for, and counts a faulty one.
    fn take_line(&mut self, settings: &Settings, line: &str) -> Result<(), AllocError>
        ensures { OnOk result ((before : Course) → IsWatched (settings_view settings.now) self.old.groups self.old.lanes.items before →
            TakesLine (settings_view settings.now) before line.now self.new.groups self.old.lanes.items self.new.lanes.items) }
    {
        let said = line_act(
            self.alloc,
            settings,
            &self.groups,
            &mut self.scratch,
            line,
            &mut self.act,
        )?;
        self.lines = self.lines.saturating_add(1);
        match said {
            Ok(()) => self.take_act(settings),
            Err(_fault) => {
                self.faults = self.faults.saturating_add(1);
                Ok(())
            }
        }
    }

    /// Does what the last line asked for.
    fn take_act(&mut self, settings: &Settings) -> Result<(), AllocError>
        requires { IsActOf (settings_view settings.now) self.old.groups.entries self.old.act }
        ensures watched { OnOk result ((before : Course) → IsWatched (settings_view settings.now) self.old.groups self.old.lanes.items before →
            IsWatched (settings_view settings.now) self.new.groups self.new.lanes.items (with_act (settings_view settings.now) before self.old.act)) }
        ensures tallies { OnOk result ((before : Course) → IsWatched (settings_view settings.now) self.old.groups self.old.lanes.items before →
            (group command : ℕ) → tally_at self.new.lanes.items group command ≡ tally_done (settings_view settings.now) before self.old.act group command (tally_at self.old.lanes.items group command)) }
    {
        match &self.act {
            LineAct::Step(step) => {
                let place = step.group.0 as usize;
                if place >= self.lanes.len() {
                    return Ok(());
                }
                make_step(
                    &mut self.groups,
                    &mut self.lanes[place],
                    step,
                    &mut self.reply,
                )
            }
            LineAct::Register { like, .. } => {
                let own = new_lanes(self.alloc, command_count(settings, *like))?;
                self.register(settings, own)
            }
            LineAct::Retire(_) => self.retire(settings),
        }
    }

    /// Registers the group that the last line named, with lanes for its commands.
    fn register(&mut self, settings: &Settings, own: Vec<Lane>) -> Result<(), AllocError>
        requires { IsActOf (settings_view settings.now) self.old.groups.entries self.old.act }
        ensures shows { OnOk result ((before : Course) → IsWatched (settings_view settings.now) self.old.groups self.old.lanes.items before →
            GroupsShow (settings_view settings.now) self.new.groups (with_act (settings_view settings.now) before self.old.act)) }
        ensures lanes { OnOk result (self.new.lanes.items ≡ self.old.lanes.items ++ own ∷ []) }
    {
        self.lanes.reserve(1)?;
        let Ok(_told) = self.groups.act(settings, &self.act) else {
            return Err(AllocError);
        };
        self.lanes.push_reserved(own);
        Ok(())
    }

    /// Retires the group that the last line named.
    fn retire(&mut self, settings: &Settings) -> Result<(), AllocError>
        requires { IsActOf (settings_view settings.now) self.old.groups.entries self.old.act }
        ensures shows { OnOk result ((before : Course) → IsWatched (settings_view settings.now) self.old.groups self.old.lanes.items before →
            GroupsShow (settings_view settings.now) self.new.groups (with_act (settings_view settings.now) before self.old.act)) }
        ensures lanes { OnOk result (self.new.lanes ≡ self.old.lanes) }
    {
        let Ok(_told) = self.groups.act(settings, &self.act) else {
            return Err(AllocError);
        };
        Ok(())
    }
}

/// Lanes for all groups of the settings, in their order. It fails only for want of memory.
fn all_lanes(alloc: Global, settings: &Settings) -> Result<Vec<Vec<Lane>>, AllocError>
    ensures { IfOk result (λ lanes. AreNewLanes (settings_view settings.now).groups lanes.items) }
{
    let mut lanes = Vec::with_capacity(alloc, settings.groups.len())?;
    for (_name, props) in settings.groups.iter() {
        lanes.push(new_lanes(alloc, props.commands.len())?)?;
    }
    Ok(lanes)
}

/// How many commands the group of the settings at the place has.
fn command_count(settings: &Settings, place: u64) -> usize
    ensures { (like : List ℕ × GroupProps) → slice_get (settings_view settings.now).groups place ≡ Some like → result ≡ command_count like.1 }
{
    match settings.groups.get_index(place as usize) {
        Some((_name, props)) => props.commands.len(),
        None => 0,
    }
}
