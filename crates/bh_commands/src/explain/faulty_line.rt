//! Why a line of a script is at fault: which member, what stands there, and what it has to be.

use crate::explain::shown::{NAME_RULE, Quoted, ShownMember};
use bh_props::is_name;
use bh_tuning::{Given, tuning_named};
use serde_json::Value;
use std::alloc::Global;
use std::io::Write;
use std::{fmt, io};

/// What a member has to be.
#[derive(Clone, Copy)]
enum Kind {
    /// A text of at most so many bytes.
    Text { most: usize },
    /// A text of any length, which is looked up.
    Name,
    /// A whole number of 64 bits.
    Number,
    /// A whole number in a range.
    Whole { least: u64, most: u64 },
    /// A whole number, `true` or `false`.
    Value,
    /// `true` or `false`.
    Truth,
    /// The end of a fallback.
    End,
}

impl Kind {
    /// Whether the value is of the kind, whatever its length.
    fn fits(self, value: &Value) -> bool {
        match self {
            Kind::Text { .. } | Kind::Name => value.as_str().is_some(),
            Kind::Number | Kind::Whole { .. } => value.as_u64().is_some(),
            Kind::Value => value.as_u64().is_some() || value.as_bool().is_some(),
            Kind::Truth => value.as_bool().is_some(),
            Kind::End => matches!(value.as_str(), Some("success" | "failure" | "missing")),
        }
    }
}

impl fmt::Display for Kind {
    fn fmt<W: fmt::Write>(&self, f: &mut fmt::Formatter<W>) -> fmt::Result {
        match self {
            Kind::Text { most } => write!(f, "a text of at most {most} bytes"),
            Kind::Name => f.write_str("a text"),
            Kind::Number => f.write_str("a whole number from 0 to 18446744073709551615"),
            Kind::Whole { least, most } => write!(f, "a whole number from {least} to {most}"),
            Kind::Value => f.write_str("a whole number, true or false"),
            Kind::Truth => f.write_str("true or false"),
            Kind::End => f.write_str("\"success\", \"failure\" or \"missing\""),
        }
    }
}

/// A member that a line has, or may have.
#[derive(Clone, Copy)]
struct Member {
    name: &'static str,
    kind: Kind,
    may_lack: bool,
}

/// The name of a group.
const GROUP: Member = Member {
    name: "group",
    kind: Kind::Name,
    may_lack: false,
};

/// The name of a group of the settings.
const LIKE: Member = Member {
    name: "like",
    kind: Kind::Name,
    may_lack: false,
};

/// A moment.
const NOW: Member = Member {
    name: "now",
    kind: Kind::Number,
    may_lack: false,
};

/// The name of a command.
const COMMAND: Member = Member {
    name: "command",
    kind: Kind::Name,
    may_lack: true,
};

/// The number of a request context, beside a key.
const CONTEXT: Member = Member {
    name: "context",
    kind: Kind::Number,
    may_lack: true,
};

/// The number of a request context that ends.
const ENDED: Member = Member {
    name: "context",
    kind: Kind::Number,
    may_lack: false,
};

/// The key of an answer.
const KEY: Member = Member {
    name: "key",
    kind: Kind::Text { most: 32 },
    may_lack: true,
};

/// An argument.
const ARG: Member = Member {
    name: "arg",
    kind: Kind::Text { most: 64 },
    may_lack: false,
};

/// The number of a ticket.
const TICKET: Member = Member {
    name: "ticket",
    kind: Kind::Number,
    may_lack: false,
};

/// What a run gave.
const BODY: Member = Member {
    name: "body",
    kind: Kind::Text { most: 256 },
    may_lack: false,
};

/// Whether the request was bad.
const BAD: Member = Member {
    name: "bad",
    kind: Kind::Truth,
    may_lack: false,
};

/// The name of a property.
const PROPERTY: Member = Member {
    name: "property",
    kind: Kind::Name,
    may_lack: false,
};

/// The value that a property gets.
const VALUE: Member = Member {
    name: "value",
    kind: Kind::Value,
    may_lack: false,
};

/// How a fallback ended.
const END: Member = Member {
    name: "end",
    kind: Kind::End,
    may_lack: false,
};

/// The members of a line of the operation, in the order in which they are looked at; none where there is no such operation.
fn members_of(op: &str) -> &'static [Member] {
    match op {
        "submit" => &[GROUP, NOW, COMMAND, CONTEXT, KEY, ARG],
        "start" | "expire" => &[GROUP, NOW],
        "finish" => &[GROUP, NOW, TICKET, BODY],
        "fail" => &[GROUP, NOW, TICKET, BAD],
        "collect" => &[GROUP, NOW, TICKET],
        "fallback" => &[GROUP, NOW, TICKET, END],
        "close" => &[GROUP, NOW, ENDED],
        "read" | "totals" => &[GROUP, NOW, COMMAND],
        "tune" => &[GROUP, NOW, COMMAND, PROPERTY, VALUE],
        "register" => &[GROUP, LIKE],
        "retire" => &[GROUP],
        _ => &[],
    }
}

/// Says why a line, which was answered by the fault of this word, is at fault. Where memory is refused it says nothing.
pub(crate) fn faulty_line<E: Write>(
    errors: &mut E,
    alloc: Global,
    number: u64,
    line: &str,
    fault: &str,
) -> io::Result<()> {
    match Value::from_str(alloc, line) {
        Ok(value) => {
            let op = text_of(&value, "op");
            let faulty = FaultyLine { value: &value, op };
            match fault {
                "field" => faulty.field(errors, number),
                "long" => faulty.long(errors, number),
                "range" => faulty.value(errors, number),
                _ => faulty.unknown(errors, number, fault),
            }
        }
        Err(error) if error.is_memory() => Ok(()),
        Err(error) => {
            let column = error.column().max(1);
            writeln!(
                errors,
                "explain: line {number}: no JSON from column {column} on"
            )
        }
    }
}

/// The member of the name where it is a text, else the empty text.
fn text_of<'a>(value: &'a Value, name: &str) -> &'a str {
    value.get(name).and_then(Value::as_str).unwrap_or("")
}

/// A line that is JSON, and its operation where it names one.
#[derive(Clone, Copy)]
struct FaultyLine<'a> {
    value: &'a Value,
    op: &'a str,
}

impl FaultyLine<'_> {
    /// Of a member that is missing or of another type.
    fn field<E: Write>(&self, errors: &mut E, number: u64) -> io::Result<()> {
        if !self.value.is_object() {
            return writeln!(errors, "explain: line {number}: it has to be an object");
        }
        if self.value.get("op").and_then(Value::as_str).is_none() {
            return writeln!(errors, "explain: line {number}: op is missing or no text");
        }
        for member in members_of(self.op) {
            let (name, kind) = (member.name, member.kind);
            match self.value.get(name) {
                Some(value) if !kind.fits(value) => {
                    let shown = ShownMember(value);
                    return writeln!(
                        errors,
                        "explain: line {number}: {name} is {shown}; it has to be {kind}"
                    );
                }
                None if !member.may_lack => {
                    return writeln!(
                        errors,
                        "explain: line {number}: {name} is missing; it has to be {kind}"
                    );
                }
                _ => {}
            }
        }
        self.half(errors, number)
    }

    /// Of a member that another one asks for.
    fn half<E: Write>(&self, errors: &mut E, number: u64) -> io::Result<()> {
        match self.op {
            "tune" => self.value(errors, number),
            "fallback" => writeln!(
                errors,
                "explain: line {number}: with the end \"success\" body has to be a text of at most 256 bytes"
            ),
            _ => writeln!(
                errors,
                "explain: line {number}: context and key have to stand there both, or neither"
            ),
        }
    }

    /// Of a value that its property cannot have.
    fn value<E: Write>(&self, errors: &mut E, number: u64) -> io::Result<()> {
        let property = text_of(self.value, "property");
        let kind = kind_of(property);
        match self.value.get("value") {
            Some(value) => {
                let shown = ShownMember(value);
                writeln!(
                    errors,
                    "explain: line {number}: value is {shown}; for {property} it has to be {kind}"
                )
            }
            None => Ok(()),
        }
    }

    /// Of a text that is too long.
    fn long<E: Write>(&self, errors: &mut E, number: u64) -> io::Result<()> {
        let members: &[Member] = match self.op {
            "fallback" => &[BODY],
            op => members_of(op),
        };
        for member in members {
            let (name, length) = (member.name, text_of(self.value, member.name).len());
            match member.kind {
                Kind::Text { most } if length > most => {
                    return writeln!(
                        errors,
                        "explain: line {number}: {name} has {length} bytes; it may have {most}"
                    );
                }
                _ => {}
            }
        }
        Ok(())
    }

    /// Of a name that means nothing, or that a new group cannot have.
    fn unknown<E: Write>(&self, errors: &mut E, number: u64, fault: &str) -> io::Result<()> {
        let op = Quoted(self.op);
        let group = Quoted(text_of(self.value, "group"));
        let command = Quoted(text_of(self.value, "command"));
        let like = Quoted(text_of(self.value, "like"));
        let property = Quoted(text_of(self.value, "property"));
        match fault {
            "op" => writeln!(errors, "explain: line {number}: there is no op {op}"),
            "group" => writeln!(errors, "explain: line {number}: there is no group {group}"),
            "command" => writeln!(
                errors,
                "explain: line {number}: there is no command {command} of the group {group}"
            ),
            "property" => writeln!(
                errors,
                "explain: line {number}: there is no property {property} that may change while a group runs"
            ),
            "like" => writeln!(
                errors,
                "explain: line {number}: service.groups has no {like} for the new group to be like"
            ),
            "name" => {
                let why = why_taken(text_of(self.value, "group"));
                writeln!(
                    errors,
                    "explain: line {number}: no group can be registered as {group}: {why}"
                )
            }
            _ => writeln!(
                errors,
                "explain: line {number}: 2^40 groups were registered, the most that may be"
            ),
        }
    }
}

/// What the value of a property has to be that may change.
fn kind_of(property: &str) -> Kind {
    if property == "coreSize" {
        return Kind::Whole { least: 1, most: 64 };
    }
    match tuning_named(property, Given::Truth(true)) {
        Ok(_) => Kind::Truth,
        Err(_) => Kind::Whole {
            least: 0,
            most: 4_294_967_295,
        },
    }
}

/// Why no group can be registered under the name.
fn why_taken(name: &str) -> &'static str {
    if is_name(name) {
        "a group or a command of service.command has this name"
    } else {
        NAME_RULE
    }
}
