//! The members of what a line says, by name and type.

ghost use Rattle.std.specs.Prelude.{◌≡◌, false, None, option_map, option_and_then, is_some, IfOk};
ghost use Rattle.serde_json.specs.View.{view};
ghost use Rattle.serde_json.specs.Find.{get, as_str, as_number, as_u64, as_bool};
ghost use Rattle.serde_json.specs.Read.{read};
ghost use Rattle.bh_lines.specs.Flat.{scalar_data, members_data};
ghost use Rattle.bh_lines.specs.StepLine.{text_at, number_at, truth_at, command_of, number_if_any, found_command};

use crate::flat::{FlatObject, Scalar};
use bh_faults::Fault;
use json::{Reader, Scratch};
use serde_json::Value;
use std::alloc::{AllocError, Global};

/// As deep as values nest that `serde_json` reads.
const MOST_DEPTH: usize = 127;

/// The value of a line, where it is JSON. It fails only for want of memory.
pub fn value_of(alloc: Global, line: &str) -> Result<Option<Value>, AllocError>
    ensures { IfOk result (λ v. option_map view v ≡ read line.now) }
{
    match Value::from_str(alloc, line) {
        Ok(value) => Ok(Some(value)),
        Err(error) if error.is_memory() => Err(AllocError),
        Err(_) => Ok(None),
    }
}

/// The same of a line that may well be no JSON: its tokens are looked at first, and no tree is begun where they are no value,
/// which takes an eighth of the time.
pub fn value_if_json(
    alloc: Global,
    scratch: &mut Scratch,
    line: &str,
) -> Result<Option<Value>, AllocError>
    ensures { IfOk result (λ v. option_map view v ≡ read line.now) }
{
    if !may_be_json(line, scratch)? {
        return Ok(None);
    }
    value_of(alloc, line)
}

/// Whether the tokens of the line are one value, whatever numbers it has.
fn may_be_json(line: &str, scratch: &mut Scratch) -> Result<bool, AllocError>
    ensures { IfOk result (λ may. may ≡ false → read line.now ≡ None) }
{
    let mut reader = Reader::new(line, scratch)?;
    Ok(reader.skip_value(MOST_DEPTH).is_ok() && reader.next().is_none())
}

/// What a line says, to be looked into by the names of members: a flat object, or the tree of any value.
#[derive(Clone, Copy)]
pub enum Members<'a> {
    Flat(&'a FlatObject<'a>),
    Tree(&'a Value),
}

impl<'a> Members<'a> {
    /// Whether there is such a member, of whatever type.
    #[inline(always)]
    pub fn has(self, name: &str) -> bool
        ensures { result ≡ is_some (get name.now (members_data self.entry)) }
    {
        match self {
            Members::Flat(object) => object.get(name).is_some(),
            Members::Tree(value) => value.get(name).is_some(),
        }
    }

    /// The member, where it is a text.
    #[inline(always)]
    pub fn text(self, name: &str) -> Option<&'a str>
        ensures { option_map (λ s. s.now) result ≡ text_at name.now (members_data self.entry) }
    {
        match self {
            Members::Flat(object) => scalar_text(object.get(name)?),
            Members::Tree(value) => value.get(name)?.as_str(),
        }
    }

    /// The member, where it is a whole number of 64 bits.
    #[inline(always)]
    pub fn number(self, name: &str) -> Option<u64>
        ensures { result ≡ number_at name.now (members_data self.entry) }
    {
        match self {
            Members::Flat(object) => scalar_number(object.get(name)?),
            Members::Tree(value) => value.get(name)?.as_u64(),
        }
    }

    /// The member, where there is one. `Field` comes where it is no text.
    #[inline(always)]
    pub(crate) fn text_if_any(self, name: &str) -> Result<Option<&'a str>, Fault>
        ensures { found_command result ≡ command_of (get name.now (members_data self.entry)) }
    {
        let text = match self {
            Members::Flat(object) => match object.get(name) {
                Some(scalar) => scalar_text(scalar),
                None => return Ok(None),
            },
            Members::Tree(value) => match value.get(name) {
                Some(value) => value.as_str(),
                None => return Ok(None),
            },
        };
        match text {
            Some(text) => Ok(Some(text)),
            None => Err(Fault::Field),
        }
    }

    /// The member, where there is one. `Field` comes where it is no whole number of 64 bits.
    #[inline(always)]
    pub(crate) fn number_if_any(self, name: &str) -> Result<Option<u64>, Fault>
        ensures { result ≡ number_if_any (get name.now (members_data self.entry)) }
    {
        let number = match self {
            Members::Flat(object) => match object.get(name) {
                Some(scalar) => scalar_number(scalar),
                None => return Ok(None),
            },
            Members::Tree(value) => match value.get(name) {
                Some(value) => value.as_u64(),
                None => return Ok(None),
            },
        };
        match number {
            Some(number) => Ok(Some(number)),
            None => Err(Fault::Field),
        }
    }

    /// The member, where it is a truth value.
    #[inline(always)]
    pub fn truth(self, name: &str) -> Option<bool>
        ensures { result ≡ truth_at name.now (members_data self.entry) }
    {
        match self {
            Members::Flat(object) => scalar_truth(object.get(name)?),
            Members::Tree(value) => value.get(name)?.as_bool(),
        }
    }
}

/// The value, where it is a text.
fn scalar_text(scalar: Scalar<'_>) -> Option<&str>
    ensures { option_map (λ s. s.now) result ≡ as_str (scalar_data scalar.entry) }
{
    match scalar {
        Scalar::Text(text) => Some(text),
        _ => None,
    }
}

/// The value, where it is a number.
fn scalar_number(scalar: Scalar<'_>) -> Option<u64>
    ensures { result ≡ option_and_then as_u64 (as_number (scalar_data scalar.entry)) }
{
    match scalar {
        Scalar::Number(n) => Some(n),
        _ => None,
    }
}

/// The value, where it is a truth value.
fn scalar_truth(scalar: Scalar<'_>) -> Option<bool>
    ensures { result ≡ as_bool (scalar_data scalar.entry) }
{
    match scalar {
        Scalar::Truth(truth) => Some(truth),
        _ => None,
    }
}
