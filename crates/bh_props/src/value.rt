//! What a property may be, and what it is.

ghost use Rattle.std.specs.Prelude.{◌≡◌};
ghost use Rattle.toml.specs.View.{view};
ghost use Rattle.bh_props.specs.InForce.{within, queue_size, strategy_of, read_as};

use bh_base::Strategy;
use toml::Value;

/// What a property may be.
#[derive(Clone, Copy, Debug, PartialEq, Eq)]
pub enum Kind {
    /// A whole number from the least to the most.
    Number { least: u64, most: u64 },
    /// A whole number from -1 to 4,294,967,295, where -1 and 0 are no queue.
    QueueSize,
    /// `true` or `false`.
    Truth,
    /// `THREAD` or `SEMAPHORE`.
    Strategy,
}

/// What a property is.
#[derive(Clone, Copy, Debug, PartialEq, Eq)]
pub enum PropertyValue {
    /// A whole number.
    Number(u64),
    /// `true` or `false`.
    Truth(bool),
    /// `THREAD` or `SEMAPHORE`.
    Strategy(Strategy),
    /// No queue: `-1`.
    NoQueue,
    /// A property that may be left out is not there: `none`.
    Absent,
}

/// Why a value of a file is not one of its property's kind.
#[derive(Clone, Copy, Debug, PartialEq, Eq)]
pub enum Fault {
    /// It is of another TOML type.
    WrongType,
    /// It is of the type, and none of the values allowed.
    OutOfRange,
}

/// The most that a number without a range of its own may be.
pub(crate) const MOST: u64 = 4_294_967_295;

impl Kind {
    /// The value, read as one of this kind.
    pub(crate) fn read(self, value: &Value) -> Result<PropertyValue, Fault>
        ensures { result ≡ read_as self (view value.now) }
    {
        match (self, value) {
            (Kind::Number { least, most }, Value::Integer(n)) => within(least, most, *n),
            (Kind::QueueSize, Value::Integer(n)) => queue_size(*n),
            (Kind::Truth, Value::Boolean(b)) => Ok(PropertyValue::Truth(*b)),
            (Kind::Strategy, Value::String(word)) => strategy(word.as_str()),
            _ => Err(Fault::WrongType),
        }
    }
}

/// The number, where it is in the range.
fn within(least: u64, most: u64, n: i64) -> Result<PropertyValue, Fault>
    ensures { result ≡ within least most n }
{
    match u64::try_from(n) {
        Ok(number) if least <= number && number <= most => Ok(PropertyValue::Number(number)),
        _ => Err(Fault::OutOfRange),
    }
}

/// The size of a queue, where it is one; 0 and -1 are no queue.
fn queue_size(n: i64) -> Result<PropertyValue, Fault>
    ensures { result ≡ queue_size n }
{
    match n {
        0 | -1 => Ok(PropertyValue::NoQueue),
        _ => within(1, MOST, n),
    }
}

/// The strategy of the word.
fn strategy(word: &str) -> Result<PropertyValue, Fault>
    ensures { result ≡ strategy_of word.now }
{
    match word {
        "THREAD" => Ok(PropertyValue::Strategy(Strategy::Thread)),
        "SEMAPHORE" => Ok(PropertyValue::Strategy(Strategy::Semaphore)),
        _ => Err(Fault::OutOfRange),
    }
}
