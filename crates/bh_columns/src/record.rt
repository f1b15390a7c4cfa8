//! A run whose columns are kept.

ghost use Rattle.std.specs.Prelude.{◌≡◌, ◌<◌, ◌≤◌, ◌+◌, ◌++◌, ◌^◌, ◌⊎◌, ℕ, List, true, false, length, Err, IfErr, IfOk, IfSome, Ok, OnOk};
ghost use Rattle.bh_lines.specs.Lines.{cut, has_line};
ghost use Rattle.bh_lines.specs.Taken.{IsMemoryOrLine};
ghost use Rattle.bh_props.specs.Shown.{settings_view};
ghost use Rattle.bh_streams.specs.Watched.{bytes_left, reader_of, reads_of, HasRead, OneFailed, NoneFailed};
ghost use Rattle.bh_port.specs.declared.act.LineAct.TheVariants as act;
ghost use Rattle.bh_port.specs.Course.{IsActOf};
ghost use Rattle.bh_columns.specs.Named.{KeptRun, run_begun, run_said, run_with};
ghost use Rattle.bh_columns.specs.Placed.{IsAsked};
ghost use Rattle.bh_columns.specs.Recorded.{HasRecorded, IsRecorded, RecordOutcome, RecordedUpTo};
ghost use Rattle.bh_columns.specs.declared.selection.Selection.{Selection as SelectionView};

use crate::kept::Kept;
use crate::selection::Selection;
use bh_base::{GroupId, Reply, Text};
use bh_lines::{PortError, front_line, last_line, next_line};
use bh_port::act::{LineAct, line_act};
use bh_port::groups::Groups;
use bh_port::reader::fill;
use bh_props::Settings;
use bh_streams::WatchedReader;
use bytes::BytesMut;
use json::Scratch;
use std::alloc::{AllocError, Global};
use std::io::Read;

/// So many bytes are asked of the reader at a time.
const READ_SIZE: usize = 65_536;

/// So many reads are made at most.
const MOST_READS: u64 = 1 << 40;

/// The groups of a run, and the columns of what they did so far.
#[derive(Drop)]
pub struct Recording {
    pub alloc: Global,
    pub groups: Groups,
    /// The columns that are kept of them.
    pub kept: Kept,
    /// How many lines there were.
    pub lines: u64,
    /// How many of them were at fault.
    pub faults: u64,
    /// What the last line asked for, and the reply to the last step.
    pub act: LineAct,
    pub reply: Reply,
    pub scratch: Scratch,
}

impl Recording {
    /// The groups of the settings, all new, and no line. It fails only for want of memory, as `Memory`.
    pub fn new(
        alloc: Global,
        settings: &Settings,
        selection: Selection,
    ) -> Result<Recording, PortError>
        ensures recorded { IfOk result (λ recording. IsRecorded (settings_view settings.now) selection recording.groups recording.kept (run_begun (settings_view settings.now))) }
        ensures err { IfErr result (λ e. e ≡ PortError.Memory) }
    {
        Ok(Recording {
            alloc,
            groups: Groups::open(alloc, settings)?,
            kept: Kept::new(alloc, settings, selection)?,
            lines: 0,
            faults: 0,
            act: LineAct::Retire(GroupId(0)),
            reply: Reply::NoGroup,
            scratch: Scratch::new(alloc),
        })
    }

    /// How many lines there were.
    pub fn lines(&self) -> u64 {
        self.lines
    }

    /// How many of them were at fault.
    pub fn faults(&self) -> u64 {
        self.faults
    }

    /// Does what each line of the buffer that has ended asks for. The buffer then begins behind the last of them.
    fn take_lines(&mut self, settings: &Settings, buffer: &mut BytesMut) -> Result<(), PortError>
        ensures taken { OnOk result ((sel : SelectionView) (run : KeptRun) → IsRecorded (settings_view settings.now) sel self.old.groups self.old.kept run →
            RecordedUpTo (settings_view settings.now) sel run self.new.groups self.new.kept buffer.old.items buffer.new.items) }
        ensures none_left { OnOk result (has_line buffer.new.items ≡ false) }
        ensures kinds { IfErr result IsMemoryOrLine }
        ensures stopped { IfErr result (λ e. (sel : SelectionView) (run : KeptRun) (more : List ℕ) → IsRecorded (settings_view settings.now) sel self.old.groups self.old.kept run →
            RecordOutcome (settings_view settings.now) sel run (cut (buffer.old.items ++ more)) self.new.groups self.new.kept (Err e)) }
    {
        while self.take_next(settings, buffer)? {}
        Ok(())
    }

    /// Does what the line at the end of the input asks for that no line feed ended, if any.
    fn take_last(&mut self, settings: &Settings, rest: &mut BytesMut) -> Result<(), PortError>
        requires { has_line rest.old.items ≡ false }
        ensures kinds { IfErr result IsMemoryOrLine }
        ensures outcome { (sel : SelectionView) (run : KeptRun) → IsRecorded (settings_view settings.now) sel self.old.groups self.old.kept run →
            RecordOutcome (settings_view settings.now) sel run (cut rest.old.items) self.new.groups self.new.kept result }
    {
        let Some(line) = last_line(rest)? else {
            return Ok(());
        };
        self.take_line(settings, line.as_str())?;
        Ok(())
    }

    /// Does what the line in front asks for, and says whether one had ended. The buffer then begins behind it.
    fn take_next(&mut self, settings: &Settings, buffer: &mut BytesMut) -> Result<bool, PortError>
        ensures taken { OnOk result ((sel : SelectionView) (run : KeptRun) → IsRecorded (settings_view settings.now) sel self.old.groups self.old.kept run →
            RecordedUpTo (settings_view settings.now) sel run self.new.groups self.new.kept buffer.old.items buffer.new.items) }
        ensures shorter { IfOk result (λ ended. ended ≡ true → length buffer.new.items < length buffer.old.items) }
        ensures none_left { IfOk result (λ ended. ended ≡ false → has_line buffer.new.items ≡ false) }
        ensures kinds { IfErr result IsMemoryOrLine }
        ensures stopped { IfErr result (λ e. (sel : SelectionView) (run : KeptRun) (more : List ℕ) → IsRecorded (settings_view settings.now) sel self.old.groups self.old.kept run →
            RecordOutcome (settings_view settings.now) sel run (cut (buffer.old.items ++ more)) self.new.groups self.new.kept (Err e)) }
    {
        let Some(line) = front_line(buffer.as_slice()) else {
            return self.take_cut(settings, buffer);
        };
        self.take_line(settings, line.text)?;
        let taken = line.taken;
        buffer.advance(taken);
        Ok(true)
    }

    /// The same where no plain line stands in front.
    fn take_cut(&mut self, settings: &Settings, buffer: &mut BytesMut) -> Result<bool, PortError>
        ensures taken { OnOk result ((sel : SelectionView) (run : KeptRun) → IsRecorded (settings_view settings.now) sel self.old.groups self.old.kept run →
            RecordedUpTo (settings_view settings.now) sel run self.new.groups self.new.kept buffer.old.items buffer.new.items) }
        ensures shorter { IfOk result (λ ended. ended ≡ true → length buffer.new.items < length buffer.old.items) }
        ensures none_left { IfOk result (λ ended. ended ≡ false → has_line buffer.new.items ≡ false) }
        ensures kinds { IfErr result IsMemoryOrLine }
        ensures stopped { IfErr result (λ e. (sel : SelectionView) (run : KeptRun) (more : List ℕ) → IsRecorded (settings_view settings.now) sel self.old.groups self.old.kept run →
            RecordOutcome (settings_view settings.now) sel run (cut (buffer.old.items ++ more)) self.new.groups self.new.kept (Err e)) }
    {
        let Some(line) = next_line(buffer)? else {
            return Ok(false);
        };
        self.take_line(settings, line.as_str())?;
        Ok(true)
    }

    /// Does what the line asks for, and counts a faulty one.
    fn take_line(&mut self, settings: &Settings, line: &str) -> Result<(), AllocError>
        ensures { OnOk result ((sel : SelectionView) (run : KeptRun) → IsRecorded (settings_view settings.now) sel self.old.groups self.old.kept run →
            IsRecorded (settings_view settings.now) sel self.new.groups self.new.kept (run_with (settings_view settings.now) sel.from sel.to line.now run)) }
    {
        let said = line_act(
            self.alloc,
            settings,
            &self.groups,
            &mut self.scratch,
            line,
            &mut self.act,
        )?;
        self.lines = self.lines.saturating_add(1);
        match said {
            Ok(()) => self.take_act(settings),
            Err(_fault) => {
                self.faults = self.faults.saturating_add(1);
                Ok(())
            }
        }
    }

    /// Does what the last line asked for.
    fn take_act(&mut self, settings: &Settings) -> Result<(), AllocError>
        requires { IsActOf (settings_view settings.now) self.old.groups.entries self.old.act }
        ensures { OnOk result ((sel : SelectionView) (run : KeptRun) → IsRecorded (settings_view settings.now) sel self.old.groups self.old.kept run → IsAsked self.old.groups.entries self.old.act →
            IsRecorded (settings_view settings.now) sel self.new.groups self.new.kept (run_said (settings_view settings.now) sel.from sel.to (Ok self.old.act) run)) }
    {
        match &self.act {
            LineAct::Step(step) => { self.kept.take_step(&mut self.groups, step, &mut self.reply) }
            LineAct::Register { name, like } => {
                let (name, like) = (*name, *like);
                self.register(settings, name, like)
            }
            LineAct::Retire(group) => {
                let group = *group;
                self.retire(settings, group)
            }
        }
    }

    /// Registers the group that the last line named.
    fn register(&mut self, settings: &Settings, name: Text<32>, like: u64) -> Result<(), AllocError>
        requires act { IsActOf (settings_view settings.now) self.old.groups.entries self.old.act }
        requires own { self.old.act ≡ act.Register name like }
        ensures { OnOk result ((sel : SelectionView) (run : KeptRun) → IsRecorded (settings_view settings.now) sel self.old.groups self.old.kept run → IsAsked self.old.groups.entries self.old.act →
            IsRecorded (settings_view settings.now) sel self.new.groups self.new.kept (run_said (settings_view settings.now) sel.from sel.to (Ok self.old.act) run)) }
    {
        let Ok(_told) = self.groups.act(settings, &self.act) else {
            return Err(AllocError);
        };
        self.kept.add_group(settings, name, like)
    }

    /// Retires the group that the last line named, unless it is in use.
    fn retire(&mut self, settings: &Settings, group: GroupId) -> Result<(), AllocError>
        requires act { IsActOf (settings_view settings.now) self.old.groups.entries self.old.act }
        requires own { self.old.act ≡ act.Retire group }
        ensures { OnOk result ((sel : SelectionView) (run : KeptRun) → IsRecorded (settings_view settings.now) sel self.old.groups self.old.kept run → IsAsked self.old.groups.entries self.old.act →
            IsRecorded (settings_view settings.now) sel self.new.groups self.new.kept (run_said (settings_view settings.now) sel.from sel.to (Ok self.old.act) run)) }
    {
        let begun = self.groups.core().steps(group) > 0;
        let Ok(_told) = self.groups.act(settings, &self.act) else {
            return Err(AllocError);
        };
        if begun && self.groups.entry(group).is_none() {
            self.kept.end_life(group);
        }
        Ok(())
    }
}

/// Does what each line of the reader asks for, in order, as a run of the script does, and keeps the columns of what came of
/// it.
///
/// `Line` comes at the first line that is of over 1,024 bytes or not UTF-8, with what came of the lines before it kept; `Read`
/// where the reader fails in this call, with what came of each line kept whose end was read, or 2^40 reads were made in it;
/// `Memory` where memory is refused. The run ends at the first read that fails.
pub fn record_script<R: Read>(
    alloc: Global,
    reader: &mut WatchedReader<'_, R>,
    settings: &Settings,
    recording: &mut Recording,
) -> Result<(), PortError>
    ensures reader { (reader_of reader.new).ghost_name ≡ (reader_of reader.old).ghost_name }
    ensures read { result ≡ Err PortError.Read → OneFailed reader.old reader.new ⊎ HasRead (2 ^ 40) reader.old reader.new }
    ensures not_failed { (result ≡ Err PortError.Read) ⊎ NoneFailed reader.old reader.new }
    ensures taken { result ≡ Err PortError.Read → HasRead (2 ^ 40) reader.old reader.new ⊎ ((sel : SelectionView) (run : KeptRun) → IsRecorded (settings_view settings.now) sel recording.old.groups recording.old.kept run →
        HasRecorded (bytes_left R.remaining reader.old) (bytes_left R.remaining reader.new) (settings_view settings.now) sel run recording.new.groups recording.new.kept) }
    ensures reads { reads_of reader.new ≤ reads_of reader.old + 2 ^ 40 }
    ensures outcome { (sel : SelectionView) (run : KeptRun) → IsRecorded (settings_view settings.now) sel recording.old.groups recording.old.kept run → IfSome (bytes_left R.remaining reader.old) (λ input.
        RecordOutcome (settings_view settings.now) sel run (cut input) recording.new.groups recording.new.kept result) }
{
    let mut buffer = BytesMut::new(alloc);
    let mut piece = [0u8; READ_SIZE];
    for _ in 0..MOST_READS {
        recording.take_lines(settings, &mut buffer)?;
        if !fill(reader, &mut piece, &mut buffer)? {
            return recording.take_last(settings, &mut buffer);
        }
    }
    Err(PortError::Read)
}
