//! Texts and numbers at the end of a text.

ghost use Rattle.std.specs.Prelude.{◌≡◌, ◌++◌, decimal, OnOk, string_bytes};

use itoa::Buffer;
use std::alloc::AllocError;

/// Adds a text.
pub(crate) fn put(out: &mut String, text: &str) -> Result<(), AllocError>
    ensures { OnOk result (string_bytes out.new ≡ string_bytes out.old ++ text.now) }
{
    out.push_str(text)
}

/// Adds a number.
pub(crate) fn put_number(out: &mut String, number: u64) -> Result<(), AllocError>
    ensures { OnOk result (string_bytes out.new ≡ string_bytes out.old ++ decimal number) }
{
    put(out, Buffer::new().format(number))
}

/// Adds a number between two texts.
pub(crate) fn put_between(
    out: &mut String,
    before: &str,
    number: u64,
    after: &str,
) -> Result<(), AllocError>
    ensures { OnOk result (string_bytes out.new ≡ string_bytes out.old ++ (before.now ++ decimal number ++ after.now)) }
{
    put(out, before)?;
    put_number(out, number)?;
    put(out, after)
}

/// Adds a text between two others.
pub(crate) fn put_around(
    out: &mut String,
    before: &str,
    text: &str,
    after: &str,
) -> Result<(), AllocError>
    ensures { OnOk result (string_bytes out.new ≡ string_bytes out.old ++ (before.now ++ text.now ++ after.now)) }
{
    put(out, before)?;
    put(out, text)?;
    put(out, after)
}
