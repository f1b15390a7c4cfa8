//! A service with all that its calls take in memory.

ghost use Rattle.std.specs.Prelude.{◌≡◌, ◌≢◌, ◌+◌, ◌≤◌, [], length, option_map, vec_capacity, vec_len, Ok, Err, IfOk, IfErr};
ghost use Rattle.bh_port.specs.Course.{IsActOf, new_course};
ghost use Rattle.bh_port.specs.Script.{GroupsShow};
ghost use Rattle.bh_props.specs.Printed.{lines_of};
ghost use Rattle.bh_props.specs.Shown.{settings_view};
ghost use Rattle.bh_c.specs.Calls.{ActTold, CheckTold, NumberTold, LineTold, StepTold, FaultWritten};
ghost use Rattle.bh_c.specs.Given.{step_in};
ghost use Rattle.bh_c.specs.Lines.{line_text};
ghost use Rattle.bh_c.specs.Names.{command_in, group_in};
ghost use Rattle.bh_props.specs.SettingsFile.{settings_in};

use crate::buffers::{put_front, put_line};
use crate::given::GivenStep;
use crate::outcome::Outcome;
use crate::steps::make_given;
use crate::told::ToldReply;
use bh_base::{GroupId, Reply};
use bh_faults::Fault;
use bh_lines::lines::LINE_LIMIT;
use bh_port::act::{LineAct, line_act};
use bh_port::commands::command_at;
use bh_port::groups::Groups;
use bh_props::{Settings, SettingsError, settings_in};
use bh_replies::{put_fault, put_told_within};
use json::Scratch;
use std::alloc::Global;
use std::str;

/// So many bytes of room for an answer always suffice, its line feed counted.
pub const ANSWER_ROOM: usize = 2_048;

/// A service: its settings, its groups, and what reading and answering a line, and the reply to a step, take in memory.
#[derive(Drop)]
pub struct Service {
    pub alloc: Global,
    pub settings: Settings,
    pub groups: Groups,
    pub scratch: Scratch,
    pub answer: Vec<u8>,
    pub reply: Reply,
}

impl Service {
    /// A service of new groups, by the bytes of a settings file, or why they are refused. `Memory` can come in place
    /// of any answer.
    pub fn open(alloc: Global, bytes: &[u8]) -> Result<Service, SettingsError>
        ensures settings { IfOk result (λ s. settings_in bytes.now ≡ Ok (settings_view s.settings)) }
        ensures groups { IfOk result (λ s. GroupsShow (settings_view s.settings) s.groups (new_course (settings_view s.settings))) }
        ensures refused { IfErr result (λ e. e ≢ SettingsError.Memory → settings_in bytes.now ≡ Err e) }
    {
        let settings = settings_in(alloc, bytes)?;
        let Ok(groups) = Groups::open(alloc, &settings) else {
            return Err(SettingsError::Memory);
        };
        Ok(Service {
            alloc,
            settings,
            groups,
            scratch: Scratch::new(alloc),
            answer: Vec::new(alloc),
            reply: Reply::Idle,
        })
    }

    /// Tells the number of the group of the name that is there, or says why there is none.
    pub fn group(&self, name: &[u8], number: &mut u64) -> Outcome
        ensures { NumberTold (group_in self.now.groups.entries name.now) number.old number.new result }
    {
        match self.group_number(name) {
            Ok(of_name) => {
                *number = of_name;
                Outcome::Done
            }
            Err(outcome) => outcome,
        }
    }

    /// The number of the group of the name, or why there is none.
    fn group_number(&self, name: &[u8]) -> Result<u64, Outcome>
        ensures { result ≡ group_in self.now.groups.entries name.now }
    {
        let Ok(text) = str::from_utf8(name) else {
            return Err(Outcome::NotText);
        };
        match self.groups.number(text) {
            Some(number) => Ok(number),
            None => Err(Outcome::NoSuchGroup),
        }
    }

    /// Tells the number of the group's command of the name, or says why there is none.
    pub fn command(&self, group: u64, name: &[u8], number: &mut u8) -> Outcome
        ensures { NumberTold (command_in (settings_view self.now.settings) self.now.groups.entries group name.now) number.old number.new result }
    {
        match self.command_number(group, name) {
            Ok(of_command) => {
                *number = of_command;
                Outcome::Done
            }
            Err(outcome) => outcome,
        }
    }

    /// The number of the group's command of the name, or why there is none.
    fn command_number(&self, group: u64, name: &[u8]) -> Result<u8, Outcome>
        ensures { result ≡ command_in (settings_view self.now.settings) self.now.groups.entries group name.now }
    {
        let Ok(text) = str::from_utf8(name) else {
            return Err(Outcome::NotText);
        };
        match command_at(&self.settings, &self.groups, GroupId(group), text) {
            Some(number) => Ok(number),
            None => Err(Outcome::NoSuchCommand),
        }
    }

    /// Makes the step that is given, and tells its reply; or says why none is given, and does nothing.
    pub fn step(&mut self, given: &GivenStep, told: &mut ToldReply) -> Outcome
        ensures told { StepTold (step_in given.now) self.old.groups self.new.groups told.old told.new result }
        ensures settings { self.new.settings ≡ self.old.settings }
    {
        make_given(&mut self.groups, given, &mut self.reply, told)
    }

    /// Answers a line, which has no line feed, in front of the buffer, and tells the length of the answer or, where the
    /// buffer is too short, the length that suffices. The line may ask for a step, or for a group to come or go.
    pub fn line(&mut self, line: &[u8], buffer: &mut [u8], needed: &mut usize) -> Outcome
        ensures told { LineTold (settings_view self.old.settings) line.now self.old.groups self.new.groups buffer.old buffer.new needed.new result }
        ensures settings { self.new.settings ≡ self.old.settings }
    {
        let Some(text) = line_text(line) else {
            return Outcome::BadLine;
        };
        if buffer.len() < ANSWER_ROOM {
            *needed = ANSWER_ROOM;
            return Outcome::NoRoom;
        }
        self.answer.clear();
        if self.answer.reserve(ANSWER_ROOM).is_err() {
            return Outcome::NoMemory;
        }
        let mut act = LineAct::Retire(GroupId(0));
        let Ok(said) = line_act(
            self.alloc,
            &self.settings,
            &self.groups,
            &mut self.scratch,
            text,
            &mut act,
        ) else {
            return Outcome::NoMemory;
        };
        match said {
            Ok(()) => self.line_of_act(&act, buffer, needed),
            Err(fault) => self.line_of_fault(fault, buffer, needed),
        }
    }

    /// Does what a line asks for, and writes the line of what is told in front of the buffer.
    fn line_of_act(&mut self, act: &LineAct, buffer: &mut [u8], needed: &mut usize) -> Outcome
        requires act { IsActOf (settings_view self.old.settings) self.old.groups.entries act.now }
        requires empty { self.old.answer.items ≡ [] }
        requires room { vec_len self.old.answer + 2048 ≤ vec_capacity self.old.answer }
        requires buffer { 2048 ≤ length buffer.old }
        ensures told { ActTold (settings_view self.old.settings) act.now self.old.groups self.new.groups buffer.old buffer.new needed.new result }
        ensures settings { self.new.settings ≡ self.old.settings }
    {
        let Ok(told) = self.groups.act(&self.settings, act) else {
            return Outcome::NoMemory;
        };
        put_told_within(self.alloc, &mut self.answer, &told);
        put_line(self.answer.as_slice(), buffer, needed);
        Outcome::Done
    }

    /// Writes the line of a fault in front of the buffer.
    fn line_of_fault(&mut self, fault: Fault, buffer: &mut [u8], needed: &mut usize) -> Outcome
        requires { self.old.answer.items ≡ [] }
        ensures told { FaultWritten fault buffer.old buffer.new needed.new result }
        ensures settings { self.new.settings ≡ self.old.settings }
        ensures groups { self.new.groups ≡ self.old.groups }
    {
        match put_fault(self.alloc, &mut self.answer, fault) {
            Ok(()) if self.answer.len() <= buffer.len() => {
                put_front(self.answer.as_slice(), buffer, needed);
                Outcome::Done
            }
            _ => Outcome::NoMemory,
        }
    }

    /// Writes what is in force in front of the buffer, or where the buffer is too short tells the length that suffices.
    pub fn check(&self, buffer: &mut [u8], needed: &mut usize) -> Outcome
        ensures { CheckTold (lines_of (settings_view self.now.settings)) buffer.old buffer.new needed.new result }
    {
        let Ok(lines) = self.settings.to_string(self.alloc) else {
            return Outcome::NoMemory;
        };
        let bytes = lines.as_str().as_bytes();
        if buffer.len() < bytes.len() {
            *needed = bytes.len();
            return Outcome::NoRoom;
        }
        put_front(bytes, buffer, needed);
        Outcome::Done
    }
}

/// The text of a line, which is of at most 1,024 bytes.
fn line_text(line: &[u8]) -> Option<&str>
    ensures { option_map (λ text. text.now) result ≡ line_text line.now }
{
    if line.len() > LINE_LIMIT {
        return None;
    }
    match str::from_utf8(line) {
        Ok(text) => Some(text),
        Err(_) => None,
    }
}
