//! The lines that show what is in force.

ghost use Rattle.std.specs.Prelude.{◌≡◌, ◌<◌, ◌++◌, codes, All, Some, IfSome};
ghost use Rattle.std.specs.List.{flat_map};
ghost use Rattle.std.specs.Fmt.{WritesOnOk};
ghost use Rattle.bh_base.specs.Commands.{command_count};
ghost use Rattle.bh_props.specs.Commands.{commands_in};
ghost use Rattle.bh_props.specs.ByGroup.{AreByGroup};
ghost use Rattle.bh_props.specs.Printed.{word_of, value_of, property_line, lines_of, subject_lines, further_lines, number_or};
ghost use Rattle.bh_props.specs.Shown.{settings_view};

use crate::by_group::{Further, by_group};
use crate::commands::Commands;
use crate::property::Property;
use crate::settings::Settings;
use crate::subject::Scope;
use crate::value::PropertyValue;
use bh_base::{CommandProps, GroupProps, Strategy};
use itoa::Buffer;
use std::fmt;

/// One line for each group and property, in their orders: the group, the property's name and the value in force. Behind
/// a group's lines stand those of each of its further commands, with the command's name first.
impl fmt::Display for Settings {
    ghost output = { λ s. Some (lines_of (settings_view s)) };

    fn fmt<W: fmt::Write>(&self, f: &mut fmt::Formatter<W>) -> fmt::Result {
        let mut lists = None;
        let mut place = 0;
        for (name, props) in self.groups.iter() {
            write_subject(f, Scope::Group, name.as_str(), props, 0, self.audit_steps)?;
            if place == 0 {
                lists = gathered(self);
            }
            write_commands(f, place, props, &self.commands, &lists, self.audit_steps)?;
            place += 1;
        }
        Ok(())
    }
}

/// The further commands by their groups, where there are any, and memory for such lists.
fn gathered(settings: &Settings) -> Option<Vec<Vec<Further>>>
    ensures { IfSome result (λ lists. AreByGroup settings.now.commands.entries lists.items) }
{
    if settings.commands.is_empty() {
        return None;
    }
    let alloc = *settings.groups.allocator();
    match by_group(alloc, settings.groups.len(), &settings.commands) {
        Ok(lists) => Some(lists),
        Err(_) => None,
    }
}

/// Writes the lines of the further commands of the group at the place. Where they are not gathered, they are sought
/// among all.
fn write_commands<W: fmt::Write>(
    f: &mut fmt::Formatter<W>,
    place: usize,
    props: &GroupProps,
    commands: &Commands,
    gathered: &Option<Vec<Vec<Further>>>,
    audit_steps: Option<u64>,
) -> fmt::Result
    requires known { All (λ c. c.1.0 ≡ place → c.1.1 < command_count props.now) commands.now.entries }
    requires gathered { IfSome gathered.now (λ lists. AreByGroup commands.now.entries lists.items) }
    ensures { WritesOnOk W.write_str_gives f.old result
        (further_lines audit_steps props.now (commands_in place commands.now.entries)) f.new }
{
    match gathered {
        Some(lists) if place < lists.len() => write_listed(f, props, &lists[place], audit_steps),
        _ => write_further(f, place, props, commands, audit_steps),
    }
}

/// Writes the lines of the further commands of a group.
fn write_listed<W: fmt::Write>(
    f: &mut fmt::Formatter<W>,
    props: &GroupProps,
    further: &[Further],
    audit_steps: Option<u64>,
) -> fmt::Result
    requires { All (λ c. c.1.1 < command_count props.now) further.now }
    ensures { WritesOnOk W.write_str_gives f.old result (further_lines audit_steps props.now further.now) f.new }
{
    for command in further {
        write_subject(
            f,
            Scope::Command,
            command.0.as_str(),
            props,
            command.1.1,
            audit_steps,
        )?;
    }
    Ok(())
}

/// Writes the lines of the further commands of the group at the place.
fn write_further<W: fmt::Write>(
    f: &mut fmt::Formatter<W>,
    place: usize,
    props: &GroupProps,
    commands: &Commands,
    audit_steps: Option<u64>,
) -> fmt::Result
    requires { All (λ c. c.1.0 ≡ place → c.1.1 < command_count props.now) commands.now.entries }
    ensures { WritesOnOk W.write_str_gives f.old result
        (further_lines audit_steps props.now (commands_in place commands.now.entries)) f.new }
{
    for (name, command) in commands.iter() {
        if command.0 as usize == place {
            write_subject(
                f,
                Scope::Command,
                name.as_str(),
                props,
                command.1,
                audit_steps,
            )?;
        }
    }
    Ok(())
}

/// Writes the lines of a group, or of one of its commands.
fn write_subject<W: fmt::Write>(
    f: &mut fmt::Formatter<W>,
    scope: Scope,
    name: &str,
    props: &GroupProps,
    number: u8,
    audit_steps: Option<u64>,
) -> fmt::Result
    requires { number < command_count props.now }
    ensures { WritesOnOk W.write_str_gives f.old result (subject_lines audit_steps scope name.now props.now number) f.new }
{
    write_lines(
        f,
        name,
        props,
        props.command(number),
        audit_steps,
        scope.properties(),
    )
}

/// Writes the lines of some properties of a group and one of its commands.
fn write_lines<W: fmt::Write>(
    f: &mut fmt::Formatter<W>,
    name: &str,
    props: &GroupProps,
    command: &CommandProps,
    audit_steps: Option<u64>,
    properties: &[Property],
) -> fmt::Result
    ensures { WritesOnOk W.write_str_gives f.old result
        (flat_map (property_line name.now (value_of audit_steps props.now command.now)) properties.now) f.new }
{
    for property in properties {
        let value = property.value_in(props, command, audit_steps);
        f.write_str(name)?;
        write_between_spaces(f, property.name().text)?;
        write_end(f, value)?;
    }
    Ok(())
}

/// Writes the text with a space before it and one behind it.
fn write_between_spaces<W: fmt::Write>(f: &mut fmt::Formatter<W>, text: &str) -> fmt::Result
    ensures { WritesOnOk W.write_str_gives f.old result (codes " " ++ text.now ++ codes " ") f.new }
{
    f.write_str(" ")?;
    f.write_str(text)?;
    f.write_str(" ")
}

/// Writes what ends a line: the value and the line feed.
fn write_end<W: fmt::Write>(f: &mut fmt::Formatter<W>, value: PropertyValue) -> fmt::Result
    ensures { WritesOnOk W.write_str_gives f.old result (word_of value ++ codes "\n") f.new }
{
    write_value(f, value)?;
    f.write_str("\n")
}

/// Writes a value.
fn write_value<W: fmt::Write>(f: &mut fmt::Formatter<W>, value: PropertyValue) -> fmt::Result
    ensures { WritesOnOk W.write_str_gives f.old result (word_of value) f.new }
{
    match value {
        PropertyValue::Number(n) => f.write_str(Buffer::new().format(n)),
        PropertyValue::Truth(true) => f.write_str("true"),
        PropertyValue::Truth(false) => f.write_str("false"),
        PropertyValue::Strategy(Strategy::Thread) => f.write_str("THREAD"),
        PropertyValue::Strategy(Strategy::Semaphore) => f.write_str("SEMAPHORE"),
        PropertyValue::NoQueue => f.write_str("-1"),
        PropertyValue::Absent => f.write_str("none"),
    }
}

impl Property {
    /// The value of this property, of a group and a command with these properties in a service with this limit of
    /// audited steps.
    pub(crate) fn value_in(
        self,
        props: &GroupProps,
        command: &CommandProps,
        audit_steps: Option<u64>,
    ) -> PropertyValue
        ensures { result ≡ value_of audit_steps props.now command.now self }
    {
        match self {
            Property::AuditSteps => number_or(PropertyValue::Absent, audit_steps),
            Property::Slots => PropertyValue::Number(props.slots),
            Property::Strategy => PropertyValue::Strategy(command.strategy),
            Property::Timeout => PropertyValue::Number(command.timeout_ms),
            Property::TimeoutOn => PropertyValue::Truth(command.timeout_on),
            Property::Semaphore => PropertyValue::Number(command.semaphore),
            Property::FallbackPermits => PropertyValue::Number(command.fallback_permits),
            Property::FallbackOn => PropertyValue::Truth(command.fallback_on),
            Property::CircuitOn => PropertyValue::Truth(command.circuit_on),
            Property::Volume => PropertyValue::Number(command.volume),
            Property::SleepWindow => PropertyValue::Number(command.sleep_ms),
            Property::ErrorPercent => PropertyValue::Number(command.percent),
            Property::ForceOpen => PropertyValue::Truth(command.force_open),
            Property::ForceClosed => PropertyValue::Truth(command.force_closed),
            Property::Window => PropertyValue::Number(command.window_ms),
            Property::Buckets => PropertyValue::Number(command.buckets),
            Property::HealthInterval => PropertyValue::Number(command.health_ms),
            Property::CacheOn => PropertyValue::Truth(command.cache_on),
            Property::CoreSize => PropertyValue::Number(props.core),
            Property::MaxQueue => number_or(PropertyValue::NoQueue, props.max_queue),
            Property::QueueThreshold => PropertyValue::Number(props.queue_threshold),
        }
    }
}

/// The number, or what stands for none.
fn number_or(none: PropertyValue, number: Option<u64>) -> PropertyValue
    ensures { result ≡ number_or none number }
{
    match number {
        Some(n) => PropertyValue::Number(n),
        None => none,
    }
}
