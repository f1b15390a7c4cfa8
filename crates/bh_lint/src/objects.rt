//! The objects that tell findings, for editors and other programs.

ghost use Rattle.std.specs.Prelude.{◌≡◌, ◌++◌, codes, false, IfOk, OnOk, string_bytes};
ghost use Rattle.std.specs.List.{flat_map};
ghost use Rattle.serde_json.specs.View.{view};
ghost use Rattle.serde_json.specs.Written.{compact_text, has_float};
ghost use Rattle.bh_lint.specs.Lines.{said};
ghost use Rattle.bh_lint.specs.Objects.{text_or_null, range_of, range_data, object_data, object_line, more_data, more_line, objects_of};

use crate::finding::Finding;
use crate::lines::put_said;
use crate::told::Told;
use bh_props::Kind;
use serde_json::{Value, json};
use std::alloc::{AllocError, Global};

/// Adds an object of JSON for each finding of the file, a line each, and one that says how many more there are.
pub(crate) fn put_objects(
    out: &mut Vec<u8>,
    file: &str,
    told: &[Told],
    more: u64,
) -> Result<(), AllocError>
    ensures { OnOk result (out.new.items ≡ out.old.items ++ objects_of file.now told.now more) }
{
    put_each_object(out, file, told)?;
    put_more_object(out, file, more)
}

/// Adds the objects of the findings.
fn put_each_object(out: &mut Vec<u8>, file: &str, told: &[Told]) -> Result<(), AllocError>
    ensures { OnOk result (out.new.items ≡ out.old.items ++ flat_map (object_line file.now) told.now) }
{
    for one in told {
        put_object(out, file, one)?;
    }
    Ok(())
}

/// Adds the object of a finding.
fn put_object(out: &mut Vec<u8>, file: &str, told: &Told) -> Result<(), AllocError>
    ensures { OnOk result (out.new.items ≡ out.old.items ++ object_line file.now told.now) }
{
    let value = object_value(*out.allocator(), file, told)?;
    put_value(out, &value)
}

/// Adds how many more findings there are, if there are any.
fn put_more_object(out: &mut Vec<u8>, file: &str, more: u64) -> Result<(), AllocError>
    ensures { OnOk result (out.new.items ≡ out.old.items ++ more_line file.now more) }
{
    if more == 0 {
        return Ok(());
    }
    let value = more_value(*out.allocator(), file, more)?;
    put_value(out, &value)
}

/// Adds a value as a line.
fn put_value(out: &mut Vec<u8>, value: &Value) -> Result<(), AllocError>
    requires { has_float (view value.now) ≡ false }
    ensures { OnOk result (out.new.items ≡ out.old.items ++ (compact_text (view value.now) ++ codes "\n")) }
{
    let line = value.to_string(*out.allocator())?;
    out.extend_from_slice(line.as_str().as_bytes())?;
    out.extend_from_slice("\n".as_bytes())
}

/// The object of a finding.
fn object_value(alloc: Global, file: &str, told: &Told) -> Result<Value, AllocError>
    ensures { IfOk result (λ v. view v ≡ object_data file.now told.now) }
{
    let message = said(alloc, told)?;
    let nearest = text_or_null(alloc, told.nearest.as_str())?;
    let range = range_value(alloc, &told.finding)?;
    json!(in alloc; {
        "column": told.column,
        "file": file,
        "line": told.line,
        "message": message.as_str(),
        "nearest": nearest,
        "range": range,
        "severity": told.finding.severity_word(),
    })
}

/// The object that says how many more there are.
fn more_value(alloc: Global, file: &str, more: u64) -> Result<Value, AllocError>
    ensures { IfOk result (λ v. view v ≡ more_data file.now more) }
{
    json!(in alloc; {"file": file, "more": more})
}

/// What a finding says.
fn said(alloc: Global, told: &Told) -> Result<String, AllocError>
    ensures { IfOk result (λ s. string_bytes s ≡ said told.now) }
{
    let mut text = String::new(alloc);
    put_said(&mut text, told)?;
    Ok(text)
}

/// A text, or null where it is empty.
fn text_or_null(alloc: Global, text: &str) -> Result<Value, AllocError>
    ensures { IfOk result (λ v. view v ≡ text_or_null text.now) }
{
    if text.is_empty() {
        return Ok(Value::Null);
    }
    Value::try_from_str(alloc, text)
}

/// The range of the property of which a value is refused, or null.
fn range_value(alloc: Global, finding: &Finding) -> Result<Value, AllocError>
    ensures { IfOk result (λ v. view v ≡ range_data finding.now) }
{
    match finding {
        Finding::BadValue {
            fault: _,
            name: _,
            property,
            stands: _,
            words: _,
        } => range_of(alloc, property.row().kind),
        _ => Ok(Value::Null),
    }
}

/// The least and the greatest number of a kind, or null where it is none of numbers.
fn range_of(alloc: Global, kind: Kind) -> Result<Value, AllocError>
    ensures { IfOk result (λ v. view v ≡ range_of kind) }
{
    match kind {
        Kind::Number { least, most } => json!(in alloc; [least, most]),
        Kind::QueueSize => json!(in alloc; [-1i64, 4294967295u64]),
        Kind::Truth | Kind::Strategy => Ok(Value::Null),
    }
}
