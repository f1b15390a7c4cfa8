//! A step as C gives it.

ghost use Rattle.std.specs.Prelude.{◌≡◌, ◌≤◌, length};
ghost use Rattle.bh_c.specs.Given.{op_number, refusal, text_in, truth_in, tuning_in};

use crate::outcome::Outcome;
use bh_base::{Text, Tuning};
use bh_tuning::{Given, Untunable, tuning_named};
use std::str;

/// A step as C gives it. Which of the fields count depends on the operation.
#[repr(C)]
#[derive(Clone, Copy)]
pub struct GivenStep {
    /// The number of the group.
    pub group: u64,
    /// The moment in milliseconds.
    pub moment: u64,
    /// The ticket that a finish, a fail, a collect or the end of a fallback is about.
    pub ticket: u64,
    /// The request context of a submit that may be shared, or of a close; the value of a tune, 0 or 1 for a truth value.
    pub context: u64,
    /// What the step does, 1 to 15.
    pub operation: u32,
    /// How many bytes of the key count, at most 32.
    pub key_length: u32,
    /// How many bytes of the text count: at most 64 of a submit's argument and of a property's name, and 256 of a body.
    pub text_length: u32,
    /// The cache key of a submit that may be shared.
    pub key: [u8; 32],
    /// The argument of a submit, a body, or the name of the property that a tune changes.
    pub text: [u8; 256],
    /// The number of the command that a submit, a read, a tune or totals are of; 0 is the group's own one.
    pub command: u8,
}

/// The operations that C can name by a number.
#[derive(Clone, Copy, Debug, PartialEq, Eq)]
pub enum OpNumber {
    Submit,
    SubmitShared,
    Start,
    Finish,
    Fail,
    BadRequest,
    Expire,
    Collect,
    FallbackValue,
    FallbackFailed,
    FallbackMissing,
    Close,
    Read,
    Tune,
    Totals,
}

/// The operation of a number.
pub fn op_number(number: u32) -> Option<OpNumber>
    ensures { result ≡ op_number number }
{
    match number {
        1 => Some(OpNumber::Submit),
        2 => Some(OpNumber::SubmitShared),
        3 => Some(OpNumber::Start),
        4 => Some(OpNumber::Finish),
        5 => Some(OpNumber::Fail),
        6 => Some(OpNumber::BadRequest),
        7 => Some(OpNumber::Expire),
        8 => Some(OpNumber::Collect),
        9 => Some(OpNumber::FallbackValue),
        10 => Some(OpNumber::FallbackFailed),
        11 => Some(OpNumber::FallbackMissing),
        12 => Some(OpNumber::Close),
        13 => Some(OpNumber::Read),
        14 => Some(OpNumber::Tune),
        15 => Some(OpNumber::Totals),
        _ => None,
    }
}

/// The text of so many bytes in front, of at most `N`.
pub fn text_in<const N: usize>(bytes: &[u8], count: u32) -> Result<Text<N>, Outcome>
    requires { N ≤ length bytes.now }
    ensures { result ≡ text_in N count bytes.now }
{
    let count = count as usize;
    if count > N {
        return Err(Outcome::TooLong);
    }
    let Ok(text) = str::from_utf8(&bytes[..count]) else {
        return Err(Outcome::NotText);
    };
    match Text::new(text) {
        Ok(text) => Ok(text),
        Err(_) => Err(Outcome::TooLong),
    }
}

/// The change that the name of a property and a number say: the number where the property is one, and else a truth value,
/// which is 0 or 1. The errors are `NoSuchProperty`, and then `OutOfRange`.
pub fn tuning_in(name: &str, value: u64) -> Result<Tuning, Outcome>
    ensures { result ≡ tuning_in name.now value }
{
    match tuning_named(name, Given::Number(value)) {
        Ok(tuning) => Ok(tuning),
        Err(Untunable::WrongType) => truth_in(name, value),
        Err(why) => Err(refusal(why)),
    }
}

/// The change of a property that is a truth value.
fn truth_in(name: &str, value: u64) -> Result<Tuning, Outcome>
    ensures { result ≡ truth_in name.now value }
{
    if value > 1 {
        return Err(Outcome::OutOfRange);
    }
    match tuning_named(name, Given::Truth(value == 1)) {
        Ok(tuning) => Ok(tuning),
        Err(why) => Err(refusal(why)),
    }
}

/// What C is told where a property does not get a value. A number that is no value of a truth value's type is out of range.
fn refusal(why: Untunable) -> Outcome
    ensures { result ≡ refusal why }
{
    match why {
        Untunable::NoProperty => Outcome::NoSuchProperty,
        Untunable::WrongType | Untunable::OutOfRange => Outcome::OutOfRange,
    }
}
