//! What C calls. `include/bulkhead.h` has these functions for people who write C.

ghost use Rattle.std.specs.Prelude.{◌≡◌, ◌≢◌, ◌⊎◌, IfErr, IfOk, None, Some, Err};
ghost use Rattle.bh_props.specs.Printed.{lines_of};
ghost use Rattle.bh_props.specs.Shown.{settings_view};
ghost use Rattle.bh_c.specs.Calls.{CheckTold, LineTold, NumberTold, StepTold};
ghost use Rattle.bh_c.specs.Exports.{Answers, CloseTold, Keeps, OpenTold, Works};
ghost use Rattle.bh_c.specs.Given.{step_in};
ghost use Rattle.bh_c.specs.Names.{command_in, group_in};
ghost use Rattle.bh_props.specs.SettingsFile.{settings_in};

use crate::buffers::put_cut;
use crate::given::GivenStep;
use crate::handle::{Handle, put, take};
use crate::outcome::Outcome;
use crate::service::Service;
use crate::told::ToldReply;
use bh_props::SettingsError;
use std::alloc::Global;

/// The version of the interface.
const VERSION: u32 = 4;

/// The version of the interface.
#[unsafe(no_mangle)]
pub extern "C" fn bulkhead_version() -> u32
    ensures { result ≡ 4 }
{
    VERSION
}

/// Opens a service by the bytes of a settings file, or writes why they are refused in front of the buffer, as far as it
/// goes, and the length of all of it.
#[unsafe(no_mangle)]
pub extern "C" fn bulkhead_open(
    alloc: Global,
    service: &mut Handle,
    settings: &[u8],
    why: &mut [u8],
    why_length: &mut usize,
) -> u32
    ensures { Answers result (OpenTold (settings_in settings.now) service.old.held service.new.held) }
{
    match opened(alloc, settings) {
        Ok(opened) => {
            put(service, opened);
            Outcome::Done.code()
        }
        Err(error) => refused(alloc, error, why, why_length).code(),
    }
}

/// Closes a service, and gives all of its memory back. The handle is empty then.
#[unsafe(no_mangle)]
pub extern "C" fn bulkhead_close(alloc: Global, service: &mut Handle) -> u32
    ensures told { Answers result (CloseTold service.old.held) }
    ensures emptied { service.new.held ≡ None }
{
    match take(service, alloc) {
        Some(_held) => Outcome::Done.code(),
        None => Outcome::NotOpen.code(),
    }
}

/// The number of the group of a name: of those that had it, the last, where that was not retired.
#[unsafe(no_mangle)]
pub extern "C" fn bulkhead_group(
    alloc: Global,
    service: &mut Handle,
    name: &[u8],
    number: &mut u64,
) -> u32
    ensures { Answers result (λ outcome. Keeps service.old.held service.new.held outcome (number.new ≡ number.old) (λ held.
        NumberTold (group_in held.groups.entries name.now) number.old number.new outcome)) }
{
    let Some(held) = take(service, alloc) else {
        return Outcome::NotOpen.code();
    };
    let outcome = held.group(name, number);
    put(service, held);
    outcome.code()
}

/// The number of the command of a name in a group that was not retired.
#[unsafe(no_mangle)]
pub extern "C" fn bulkhead_command(
    alloc: Global,
    service: &mut Handle,
    group: u64,
    name: &[u8],
    number: &mut u8,
) -> u32
    ensures { Answers result (λ outcome. Keeps service.old.held service.new.held outcome (number.new ≡ number.old) (λ held.
        NumberTold (command_in (settings_view held.settings) held.groups.entries group name.now) number.old number.new outcome)) }
{
    let Some(held) = take(service, alloc) else {
        return Outcome::NotOpen.code();
    };
    let outcome = held.command(group, name, number);
    put(service, held);
    outcome.code()
}

/// Makes a step, and tells its reply.
#[unsafe(no_mangle)]
pub extern "C" fn bulkhead_make_step(
    alloc: Global,
    service: &mut Handle,
    step: &GivenStep,
    reply: &mut ToldReply,
) -> u32
    ensures { Answers result (λ outcome. Works service.old.held service.new.held outcome (reply.new ≡ reply.old) (λ was is.
        StepTold (step_in step.now) was.groups is.groups reply.old reply.new outcome)) }
{
    let Some(mut held) = take(service, alloc) else {
        return Outcome::NotOpen.code();
    };
    let outcome = held.step(step, reply);
    put(service, held);
    outcome.code()
}

/// Answers a line, which has no line feed, in front of the buffer. The line may also register or retire a group.
#[unsafe(no_mangle)]
pub extern "C" fn bulkhead_line(
    alloc: Global,
    service: &mut Handle,
    line: &[u8],
    answer: &mut [u8],
    length: &mut usize,
) -> u32
    ensures { Answers result (λ outcome. Works service.old.held service.new.held outcome ((answer.new ≡ answer.old) × (length.new ≡ length.old)) (λ was is.
        LineTold (settings_view was.settings) line.now was.groups is.groups answer.old answer.new length.new outcome)) }
{
    let Some(mut held) = take(service, alloc) else {
        return Outcome::NotOpen.code();
    };
    let outcome = held.line(line, answer, length);
    put(service, held);
    outcome.code()
}

/// Writes what is in force in front of the buffer.
#[unsafe(no_mangle)]
pub extern "C" fn bulkhead_check(
    alloc: Global,
    service: &mut Handle,
    text: &mut [u8],
    length: &mut usize,
) -> u32
    ensures { Answers result (λ outcome. Keeps service.old.held service.new.held outcome ((text.new ≡ text.old) × (length.new ≡ length.old)) (λ held.
        CheckTold (lines_of (settings_view held.settings)) text.old text.new length.new outcome)) }
{
    let Some(held) = take(service, alloc) else {
        return Outcome::NotOpen.code();
    };
    let outcome = held.check(text, length);
    put(service, held);
    outcome.code()
}

/// A service on the heap, by the bytes of a settings file.
fn opened(alloc: Global, settings: &[u8]) -> Result<Box<Service>, SettingsError>
    ensures opened { IfOk result (λ held. OpenTold (settings_in settings.now) None (Some held.value) Outcome.Done) }
    ensures refused { IfErr result (λ e. e ≢ SettingsError.Memory → settings_in settings.now ≡ Err e) }
{
    let service = Service::open(alloc, settings)?;
    match Box::new(alloc, service) {
        Ok(held) => Ok(held),
        Err(_) => Err(SettingsError::Memory),
    }
}

/// Writes the text of a refusal, as far as the buffer goes, and its length.
fn refused(alloc: Global, error: SettingsError, why: &mut [u8], why_length: &mut usize) -> Outcome
    ensures codes { (result ≡ Outcome.Refused) ⊎ (result ≡ Outcome.NoMemory) }
    ensures memory { error ≡ SettingsError.Memory → result ≡ Outcome.NoMemory }
{
    if error == SettingsError::Memory {
        return Outcome::NoMemory;
    }
    let Ok(text) = error.to_string(alloc) else {
        return Outcome::NoMemory;
    };
    put_cut(text.as_str().as_bytes(), why, why_length);
    Outcome::Refused
}
