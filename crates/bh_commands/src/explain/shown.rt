//! Texts and values of a user's, as explanations show them.

use bh_props::Kind;
use std::fmt;

/// What a name has to be.
pub(crate) const NAME_RULE: &str =
    "a name has 1 to 32 of A-Z, a-z, 0-9, _ and -, and is not default";

/// The most bytes of a text that are shown.
const MOST_SHOWN: usize = 64;

/// A text between quotes, with what does not print escaped. Of a long one its front is shown.
#[derive(Clone, Copy)]
pub(crate) struct Quoted<'a>(pub &'a str);

impl fmt::Display for Quoted<'_> {
    fn fmt<W: fmt::Write>(&self, f: &mut fmt::Formatter<W>) -> fmt::Result {
        let text = self.0;
        if text.len() <= MOST_SHOWN {
            return write!(f, "{text:?}");
        }
        let front = &text[..text.floor_char_boundary(MOST_SHOWN)];
        write!(f, "{front:?} ..")
    }
}

/// A value of a settings file: a scalar by itself, anything else by its type.
#[derive(Clone, Copy)]
pub(crate) struct ShownValue<'a>(pub &'a toml::Value);

impl fmt::Display for ShownValue<'_> {
    fn fmt<W: fmt::Write>(&self, f: &mut fmt::Formatter<W>) -> fmt::Result {
        match self.0 {
            toml::Value::String(text) => {
                let quoted = Quoted(text.as_str());
                write!(f, "{quoted}")
            }
            toml::Value::Integer(number) => write!(f, "{number}"),
            toml::Value::Boolean(truth) => write!(f, "{truth}"),
            toml::Value::Float(_) => f.write_str("a number with a point"),
            toml::Value::Datetime(_) => f.write_str("a date or time"),
            toml::Value::Array(_) => f.write_str("an array"),
            toml::Value::Table(_) => f.write_str("a table"),
        }
    }
}

/// A member of a line: a text or a whole number by itself, anything else by its type.
#[derive(Clone, Copy)]
pub(crate) struct ShownMember<'a>(pub &'a serde_json::Value);

impl fmt::Display for ShownMember<'_> {
    fn fmt<W: fmt::Write>(&self, f: &mut fmt::Formatter<W>) -> fmt::Result {
        if let Some(text) = self.0.as_str() {
            let quoted = Quoted(text);
            return write!(f, "{quoted}");
        }
        if let Some(number) = self.0.as_i64() {
            return write!(f, "{number}");
        }
        f.write_str(match self.0 {
            serde_json::Value::Null => "null",
            serde_json::Value::Bool(true) => "true",
            serde_json::Value::Bool(false) => "false",
            serde_json::Value::Number(_) => "a number with a point, or beyond 64 bits",
            serde_json::Value::Array(_) => "an array",
            _ => "an object",
        })
    }
}

/// What a property has to be.
#[derive(Clone, Copy)]
pub(crate) struct Wanted(pub Kind);

impl fmt::Display for Wanted {
    fn fmt<W: fmt::Write>(&self, f: &mut fmt::Formatter<W>) -> fmt::Result {
        match self.0 {
            Kind::Number { least, most } => write!(f, "an integer from {least} to {most}"),
            Kind::QueueSize => f.write_str("an integer from -1 to 4294967295"),
            Kind::Truth => f.write_str("true or false"),
            Kind::Strategy => f.write_str("\"THREAD\" or \"SEMAPHORE\""),
        }
    }
}
