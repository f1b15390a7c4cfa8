//! What findings say.

ghost use Rattle.std.specs.Prelude.{◌≡◌, ◌++◌, codes, decimal, OnOk, string_bytes};
ghost use Rattle.bh_lint.specs.Table.{part_name};
ghost use Rattle.bh_lint.specs.Lines.{message, named_text, part_text, stands_text, kind_text, fault_text, bad_value_text, refusal_text, range_text, command_text, table_text, unknown_text, doubt_text, severity, severity_word, colour, is_error};

use crate::doubt::Doubt;
use crate::finding::{Finding, Refusal, Stands};
use crate::put::{put, put_around, put_between, put_number};
use crate::table::{Part, Table};
use bh_props::{Fault, Kind, Property};
use std::alloc::AllocError;

/// Adds what the finding says.
pub(crate) fn put_message(out: &mut String, finding: &Finding) -> Result<(), AllocError>
    ensures { OnOk result (string_bytes out.new ≡ string_bytes out.old ++ message finding.now) }
{
    match finding {
        Finding::Refused(refusal) => put_refusal(out, *refusal),
        Finding::BadValue {
            fault,
            name,
            property,
            stands,
            words,
        } => {
            put_bad_value(
                out,
                *fault,
                name.as_str(),
                *property,
                *stands,
                words.as_str(),
            )
        }
        Finding::NotMultiple { name } => put_around(
            out,
            "8 not a multiple: ",
            name.as_str(),
            ": the rolling window is no multiple of its number of buckets",
        ),
        Finding::Unknown { table, name, key } => {
            put_unknown(out, *table, name.as_str(), key.as_str())
        }
        Finding::Doubtful { name, doubt } => put_around(out, name.as_str(), ": ", doubt.text()),
    }
}

/// Adds a refusal that is told without more.
fn put_refusal(out: &mut String, refusal: Refusal) -> Result<(), AllocError>
    ensures { OnOk result (string_bytes out.new ≡ string_bytes out.old ++ refusal_text refusal) }
{
    match refusal {
        Refusal::Syntax => put(out, "1 syntax"),
        Refusal::NoGroups => {
            put(
                out,
                "2 no groups: `service.groups` is no list of 1 to 1000 texts",
            )
        }
        Refusal::BadName(place) => put_between(
            out,
            "3 bad name at ",
            place as u64,
            ": it is not 1 to 32 letters, digits, `_` and `-`, or is `default`",
        ),
        Refusal::TwiceNamed(place) => put_between(
            out,
            "4 twice named at ",
            place as u64,
            ": it stands before",
        ),
        Refusal::UnknownService => put(out, "5 unknown service property"),
        Refusal::BadCommand(place) => put_between(
            out,
            "10 bad command at ",
            place as u64,
            ", in the order of the names: its name may not name a group, or names one; or it is no table of one key, `group`, the name of a group; or that group has 16 commands before it",
        ),
        Refusal::Memory => put(out, "memory"),
    }
}

/// Adds the fault, the name and the property.
fn put_named(
    out: &mut String,
    fault: Fault,
    name: &str,
    property: Property,
) -> Result<(), AllocError>
    ensures { OnOk result (string_bytes out.new ≡ string_bytes out.old ++ named_text fault name.now property) }
{
    put(out, fault_text(fault))?;
    put(out, name)?;
    put(out, " ")?;
    put(out, property.name().text)
}

/// Adds a value that is refused.
fn put_bad_value(
    out: &mut String,
    fault: Fault,
    name: &str,
    property: Property,
    stands: Stands,
    words: &str,
) -> Result<(), AllocError>
    ensures { OnOk result (string_bytes out.new ≡ string_bytes out.old ++ bad_value_text fault name.now property stands words.now) }
{
    put_named(out, fault, name, property)?;
    put(out, " is ")?;
    put_stands(out, stands, words)?;
    put(out, ", not ")?;
    put_kind(out, property.row().kind)
}

/// The number and the words of a fault.
fn fault_text(fault: Fault) -> &'static str
    ensures { result.now ≡ fault_text fault }
{
    match fault {
        Fault::WrongType => "6 wrong type: ",
        Fault::OutOfRange => "7 out of range: ",
    }
}

/// Adds what stands where a property is given.
fn put_stands(out: &mut String, stands: Stands, words: &str) -> Result<(), AllocError>
    ensures { OnOk result (string_bytes out.new ≡ string_bytes out.old ++ stands_text stands words.now) }
{
    match stands {
        Stands::Nothing => put(out, "nothing"),
        Stands::Plain => put(out, words),
        Stands::Text => put_around(out, "`", words, "`"),
        Stands::Float => put(out, "a number with a fraction"),
        Stands::Datetime => put(out, "a date or a time"),
        Stands::Array => put(out, "a list"),
        Stands::Table => put(out, "a table"),
    }
}

/// Adds what a property may be.
fn put_kind(out: &mut String, kind: Kind) -> Result<(), AllocError>
    ensures { OnOk result (string_bytes out.new ≡ string_bytes out.old ++ kind_text kind) }
{
    match kind {
        Kind::Number { least, most } => put_range(out, least, most),
        Kind::QueueSize => put(out, "a whole number from -1 to 4294967295"),
        Kind::Truth => put(out, "true or false"),
        Kind::Strategy => put(out, "`THREAD` or `SEMAPHORE`"),
    }
}

/// Adds the range of a number.
fn put_range(out: &mut String, least: u64, most: u64) -> Result<(), AllocError>
    ensures { OnOk result (string_bytes out.new ≡ string_bytes out.old ++ range_text least most) }
{
    put_between(out, "a whole number from ", least, " to ")?;
    put_number(out, most)
}

/// Adds a name that nothing looks up.
fn put_unknown(out: &mut String, table: Table, name: &str, key: &str) -> Result<(), AllocError>
    ensures { OnOk result (string_bytes out.new ≡ string_bytes out.old ++ unknown_text table name.now key.now) }
{
    match table {
        Table::Service => put_around(
            out,
            "5 unknown service property: `",
            key,
            "` is none, or holds what it may not",
        ),
        _ => {
            put_around(out, "nothing looks up `", key, "` in ")?;
            put_table(out, table, name)
        }
    }
}

/// Adds the table that a name stands in.
fn put_table(out: &mut String, table: Table, name: &str) -> Result<(), AllocError>
    ensures { OnOk result (string_bytes out.new ≡ string_bytes out.old ++ table_text table name.now) }
{
    match table {
        Table::Root => put(out, "the file"),
        Table::Service => put(out, "`service`"),
        Table::Hystrix => put(out, "`hystrix`"),
        Table::Commands => put(out, "`hystrix.command`"),
        Table::Pools => put(out, "`hystrix.threadpool`"),
        Table::Command(part) => put_command(out, name, part),
        Table::Pool => put_around(out, "`hystrix.threadpool.", name, "`"),
    }
}

/// Adds the part of the properties of a command of the name.
fn put_command(out: &mut String, name: &str, part: Part) -> Result<(), AllocError>
    ensures { OnOk result (string_bytes out.new ≡ string_bytes out.old ++ command_text name.now part) }
{
    put(out, "`hystrix.command.")?;
    put(out, name)?;
    put_part(out, part)
}

/// Adds the part of a command's properties, behind a dot, and the accent behind it.
fn put_part(out: &mut String, part: Part) -> Result<(), AllocError>
    ensures { OnOk result (string_bytes out.new ≡ string_bytes out.old ++ part_text (part_name part)) }
{
    match part.name() {
        Some(name) => put_around(out, ".", name, "`"),
        None => put(out, "`"),
    }
}

impl Doubt {
    /// What it says.
    pub fn text(self) -> &'static str
        ensures { result.now ≡ doubt_text self }
    {
        match self {
            Doubt::PercentOver100 => "circuitBreaker.errorThresholdPercentage is over 100",
            Doubt::BothForces => {
                "circuitBreaker.forceOpen and circuitBreaker.forceClosed are both true"
            }
            Doubt::ThresholdOverQueue => "queueSizeRejectionThreshold is over maxQueueSize",
            Doubt::NoTime => "execution.isolation.thread.timeoutInMilliseconds is 0",
            Doubt::NoPermit => {
                "no call can run: execution.isolation.semaphore.maxConcurrentRequests is 0, and execution.isolation.strategy is SEMAPHORE"
            }
            Doubt::IdleTimeout => {
                "execution.isolation.thread.timeoutInMilliseconds is idle, since execution.timeout.enabled is false"
            }
            Doubt::IdleFallback => {
                "fallback.isolation.semaphore.maxConcurrentRequests is idle, since fallback.enabled is false"
            }
            Doubt::IdleCircuit => {
                "what is given of the circuit is idle, since circuitBreaker.enabled is false"
            }
        }
    }
}

impl Finding {
    /// Whether it is what a check refuses.
    pub fn is_error(&self) -> bool
        ensures { result ≡ is_error self.now }
    {
        match self {
            Finding::Refused(_) => true,
            Finding::BadValue {
                fault: _,
                name: _,
                property: _,
                stands: _,
                words: _,
            } => true,
            Finding::NotMultiple { name: _ } => true,
            Finding::Unknown {
                table,
                name: _,
                key: _,
            } => matches!(table, Table::Service),
            Finding::Doubtful { name: _, doubt: _ } => false,
        }
    }

    /// The word before what it says, with what stands between.
    pub(crate) fn severity(&self) -> &'static str
        ensures { result.now ≡ severity self.now }
    {
        if self.is_error() {
            "error: "
        } else {
            "warning: "
        }
    }

    /// The word alone.
    pub(crate) fn severity_word(&self) -> &'static str
        ensures { result.now ≡ severity_word self.now }
    {
        if self.is_error() { "error" } else { "warning" }
    }

    /// What makes a terminal write red or yellow.
    pub(crate) fn colour(&self) -> &'static str
        ensures { result.now ≡ colour self.now }
    {
        if self.is_error() {
            "\x1b[31m"
        } else {
            "\x1b[33m"
        }
    }
}
