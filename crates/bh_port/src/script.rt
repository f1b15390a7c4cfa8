//! A script: each line of a reader is answered by a line to a writer, as the lines come.

ghost use Rattle.std.specs.Prelude.{◌≡◌, ◌≤◌, ◌+◌, ◌^◌, ◌⊎◌, [], Err, IfErr, IfOk, IfSome};
ghost use Rattle.bh_props.specs.Shown.{settings_view};
ghost use Rattle.bh_port.specs.Course.{new_course, opened_core, step_limit};
ghost use Rattle.bh_lines.specs.Lines.{cut};
ghost use Rattle.bh_streams.specs.Watched.{reader_of, reads_of, bytes_left, HasRead, OneFailed, NoneFailed, writer_of, bytes_held, OneRefused, NoneRefused};
ghost use Rattle.bh_port.specs.CommandPlaces.{AreCommandPlaces};
ghost use Rattle.bh_port.specs.Script.{GroupsShow, ScriptHasAnswered, ScriptOutcome};

use crate::act::LineAct;
use crate::groups::Groups;
use crate::places::CommandPlaces;
use crate::reader::fill;
use crate::run::Run;
use bh_base::{GroupId, Reply};
use bh_core::Core;
use bh_lines::PortError;
use bh_props::Settings;
use bh_streams::{WatchedReader, WatchedWriter};
use bytes::BytesMut;
use json::Scratch;
use std::alloc::Global;
use std::io::{Read, Write};

/// The most steps that a group may do, where an audit allows no fewer; a further one is answered as worn.
pub const MOST_STEPS: u64 = 1 << 40;

/// So many bytes are asked of the reader at a time.
const READ_SIZE: usize = 65_536;

/// So many reads are made at most.
const MOST_READS: u64 = 1 << 40;

/// Answers each line of the reader by one line to the writer, in order, for the groups of the settings, all new.
///
/// A line that says a step is answered by the line of the step's reply. One that registers or retires a group is answered
/// by whether it did; a name then means the group that was registered last under it, as long as it was not retired. A
/// faulty line is answered by the line of its fault; it changes nothing, and the run goes on. Each group begins with its own
/// properties, or those of the group of the settings that it is like, and may do `MOST_STEPS` steps, or fewer where fewer
/// may be audited.
///
/// The lines that one read brought to an end are answered, and the answers written together, before the next read.
///
/// `Line` comes at the first line that is of over 1,024 bytes or not UTF-8, with the lines before it answered; `Read`
/// where the reader fails in this call, with each line answered whose end was read, or 2^40 reads were made in it;
/// `Write` where the writer fails in this call or takes no byte; `Memory` where memory is refused. The run ends at the
/// first read or write that fails.
pub fn script<R: Read, W: Write>(
    alloc: Global,
    reader: &mut WatchedReader<'_, R>,
    writer: &mut WatchedWriter<'_, W>,
    settings: &Settings,
) -> Result<(), PortError>
    ensures same_reader { (reader_of reader.new).ghost_name ≡ (reader_of reader.old).ghost_name }
    ensures same_writer { (writer_of writer.new).ghost_name ≡ (writer_of writer.old).ghost_name }
    ensures read { result ≡ Err PortError.Read → OneFailed reader.old reader.new ⊎ HasRead (2 ^ 40) reader.old reader.new }
    ensures not_failed { (result ≡ Err PortError.Read) ⊎ NoneFailed reader.old reader.new }
    ensures answered { result ≡ Err PortError.Read → HasRead (2 ^ 40) reader.old reader.new ⊎ ScriptHasAnswered (bytes_left R.remaining reader.old) (bytes_left R.remaining reader.new)
        (bytes_held W.contents writer.old) (bytes_held W.contents writer.new) (settings_view settings.now) }
    ensures reads { reads_of reader.new ≤ reads_of reader.old + 2 ^ 40 }
    ensures write { result ≡ Err PortError.Write → OneRefused writer.old writer.new }
    ensures not_refused { (result ≡ Err PortError.Write) ⊎ NoneRefused writer.old writer.new }
    ensures text { IfSome (bytes_left R.remaining reader.old) (λ input.
        ScriptOutcome (bytes_held W.contents writer.old) (bytes_held W.contents writer.new) (settings_view settings.now) (new_course (settings_view settings.now)) (cut input) result) }
{
    let mut opened = OpenScript::begin(alloc, settings)?;
    let mut piece = [0u8; READ_SIZE];
    for _ in 0..MOST_READS {
        let OpenScript {
            run,
            places,
            buffer,
        } = &mut opened;
        run.write_answers(settings, places, buffer, writer)?;
        if !fill(reader, &mut piece, buffer)? {
            return run.write_last(settings, places, buffer, writer);
        }
    }
    Err(PortError::Read)
}

/// A script that is being answered.
#[derive(Drop)]
struct OpenScript {
    run: Run,
    places: CommandPlaces,
    /// What was read, and is not answered yet.
    buffer: BytesMut,
}

impl OpenScript {
    /// The groups are those of the settings, all new, and nothing was read yet. It fails only for want of memory, as `Memory`.
    fn begin(alloc: Global, settings: &Settings) -> Result<OpenScript, PortError>
        ensures agrees { IfOk result (λ opened. GroupsShow (settings_view settings.now) opened.run.groups (new_course (settings_view settings.now))) }
        ensures places { IfOk result (λ opened. AreCommandPlaces (settings_view settings.now).commands opened.places) }
        ensures empty { IfOk result (λ opened. opened.buffer.items ≡ []) }
        ensures err { IfErr result (λ e. e ≡ PortError.Memory) }
    {
        let groups = Groups::open(alloc, settings)?;
        let places = CommandPlaces::of(alloc, settings)?;
        let run = Run {
            alloc,
            groups,
            act: LineAct::Retire(GroupId(0)),
            reply: Reply::NoGroup,
            out: Vec::new(alloc),
            line: Vec::new(alloc),
            looked: 0,
            scratch: Scratch::new(alloc),
        };
        Ok(OpenScript {
            run,
            places,
            buffer: BytesMut::new(alloc),
        })
    }
}

/// The groups of the settings, all new, each with its own properties and the steps that it may do.
///
/// It fails only for want of memory, as `Memory`.
pub fn open(alloc: Global, settings: &Settings) -> Result<Core, PortError>
    ensures opened { IfOk result (λ core. core ≡ opened_core (settings_view settings.now)) }
    ensures err { IfErr result (λ e. e ≡ PortError.Memory) }
{
    let limit = step_limit(settings.audit_steps);
    let mut core = Core::new(alloc, u32::MAX);
    for (_name, props) in settings.groups.iter() {
        // So few groups have far fewer slots than may be, so this can only be want of memory.
        let Ok(_group) = core.register(props, limit) else {
            return Err(PortError::Memory);
        };
    }
    Ok(core)
}

/// The steps that each group may do, no more than may be audited.
pub(crate) fn step_limit(audit_steps: Option<u64>) -> u64
    ensures { result ≡ step_limit audit_steps }
{
    match audit_steps {
        Some(steps) => steps.min(MOST_STEPS),
        None => MOST_STEPS,
    }
}
