//! What is amiss in a settings file.

ghost use Rattle.std.specs.Prelude.{◌≡◌, ◌≤◌, [], length};
ghost use Rattle.std.specs.List.{list_all};
ghost use Rattle.toml.specs.View.{view};
ghost use Rattle.bh_props.specs.Found.{seen};
ghost use Rattle.bh_lint.specs.Finding.{is_shown_byte, is_plain, shown, stands_in, stands_at, words_in, words_at, refused};

use crate::doubt::Doubt;
use crate::table::Table;
use bh_base::Text;
use bh_props::{Fault, Property, SettingsError};
use itoa::Buffer;
use toml::Value;

/// The most bytes of a text of the file that is told.
pub const MOST_SHOWN: usize = 64;

/// What stands where a property is given.
#[derive(Clone, Copy)]
pub enum Stands {
    /// Nothing.
    Nothing,
    /// A whole number, or `true` or `false`.
    Plain,
    /// A text.
    Text,
    /// A number with a fraction.
    Float,
    /// A date or a time.
    Datetime,
    /// A list.
    Array,
    /// A table.
    Table,
}

/// Why a check refuses something else than values in force.
#[derive(Clone, Copy)]
pub enum Refusal {
    /// The text is no TOML document.
    Syntax,
    /// `service.groups` is not a list of 1 to 1,000 texts.
    NoGroups,
    /// The text at the place, from 1, may not name a group.
    BadName(usize),
    /// The name at the place, from 1, stands before it too.
    TwiceNamed(usize),
    /// `service` is no table.
    UnknownService,
    /// The further command at the place, from 1 in the order of the names' bytes, is bad.
    BadCommand(usize),
    /// Memory was refused. A refusal of a check may be this, and no finding in a file is.
    Memory,
}

/// What is amiss. Those that a check refuses are errors, and the others are warnings.
///
/// A text of the file is told as `shown` gives it.
#[derive(Clone, Copy)]
pub enum Finding {
    /// The refusal of something else than a value in force.
    Refused(Refusal),
    /// The value in force of a property of a group or a further command is of another type, or out of its range.
    BadValue {
        /// Which of the two.
        fault: Fault,
        /// The name of the group or the further command.
        name: Text<32>,
        /// The property.
        property: Property,
        /// What stands there.
        stands: Stands,
        /// A plain value or a text, as it is told.
        words: Text<64>,
    },
    /// The window of the group or the further command is not a multiple of its buckets.
    NotMultiple {
        /// Its name.
        name: Text<32>,
    },
    /// A name in one of the tables that are looked into, that nothing looks up. In the table `service` it is an error.
    Unknown {
        /// The table.
        table: Table,
        /// The name of the group or the further command, or `default`, that the table is of, if it is of one.
        name: Text<32>,
        /// The name that nothing looks up, as it is told.
        key: Text<64>,
    },
    /// Values in force that can hardly be meant.
    Doubtful {
        /// The name of the group or the further command, or `default`.
        name: Text<32>,
        /// Why.
        doubt: Doubt,
    },
}

/// A text of the file, as it is told: a text of more than 64 bytes or with control characters is not.
pub(crate) fn shown(text: &str) -> Text<64>
    ensures { result ≡ shown text.now }
{
    if is_plain(text) {
        short(text)
    } else {
        short("(not shown)")
    }
}

/// The text, which is short.
fn short(text: &str) -> Text<64>
    requires { length text.now ≤ 64 }
    ensures { result ≡ text.now }
{
    Text::new(text).unwrap()
}

/// Whether the byte is part of a text that is told: no control character.
fn is_shown_byte(b: u8) -> bool
    ensures { result ≡ is_shown_byte b }
{
    b >= 32 && b != 127
}

/// Whether each byte is.
fn has_shown_bytes(bytes: &[u8]) -> bool
    ensures { result ≡ list_all is_shown_byte bytes.now }
{
    bytes.iter().all(|b| is_shown_byte(*b))
}

/// Whether the text is told as it is.
fn is_plain(text: &str) -> bool
    ensures { result ≡ is_plain text.now }
{
    let bytes = text.as_bytes();
    bytes.len() <= MOST_SHOWN && has_shown_bytes(bytes)
}

impl Finding {
    /// The error that a refusal is, with nothing more to tell.
    pub(crate) fn of_refusal(error: SettingsError) -> Finding
        ensures { result ≡ refused error }
    {
        match error {
            SettingsError::Syntax => Finding::Refused(Refusal::Syntax),
            SettingsError::NoGroups => Finding::Refused(Refusal::NoGroups),
            SettingsError::BadName(place) => Finding::Refused(Refusal::BadName(place)),
            SettingsError::TwiceNamed(place) => Finding::Refused(Refusal::TwiceNamed(place)),
            SettingsError::UnknownService => Finding::Refused(Refusal::UnknownService),
            SettingsError::BadCommand(place) => Finding::Refused(Refusal::BadCommand(place)),
            SettingsError::WrongType { name, property } => {
                bare_value(Fault::WrongType, name, property)
            }
            SettingsError::OutOfRange { name, property } => {
                bare_value(Fault::OutOfRange, name, property)
            }
            SettingsError::NotMultiple { name } => Finding::NotMultiple { name },
            SettingsError::Memory => Finding::Refused(Refusal::Memory),
        }
    }
}

/// A value that is refused, where nothing is known of it.
fn bare_value(fault: Fault, name: Text<32>, property: Property) -> Finding
    ensures { result ≡ Finding.BadValue fault name property Stands.Nothing [] }
{
    Finding::BadValue {
        fault,
        name,
        property,
        stands: Stands::Nothing,
        words: short(""),
    }
}

impl Stands {
    /// What the value is.
    fn in_value(value: &Value) -> Stands
        ensures { result ≡ stands_in (view value.now) }
    {
        match value {
            Value::Integer(_) | Value::Boolean(_) => Stands::Plain,
            Value::String(_) => Stands::Text,
            Value::Float(_) => Stands::Float,
            Value::Datetime(_) => Stands::Datetime,
            Value::Array(_) => Stands::Array,
            Value::Table(_) => Stands::Table,
        }
    }

    /// What stands where there may be a value.
    pub(crate) fn at(value: Option<&Value>) -> Stands
        ensures { result ≡ stands_at (seen value.entry) }
    {
        match value {
            Some(value) => Stands::in_value(value),
            None => Stands::Nothing,
        }
    }
}

/// The words of a plain value or a text.
fn words_in(value: &Value) -> Text<64>
    ensures { result ≡ words_in (view value.now) }
{
    match value {
        Value::Integer(n) => short(Buffer::new().format(*n)),
        Value::Boolean(true) => short("true"),
        Value::Boolean(false) => short("false"),
        Value::String(text) => shown(text.as_str()),
        _ => short(""),
    }
}

/// The words of what stands where there may be a value.
pub(crate) fn words_at(value: Option<&Value>) -> Text<64>
    ensures { result ≡ words_at (seen value.entry) }
{
    match value {
        Some(value) => words_in(value),
        None => short(""),
    }
}
