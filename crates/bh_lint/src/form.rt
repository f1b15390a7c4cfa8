//! How findings are written.

ghost use Rattle.std.specs.Prelude.{◌≡◌, ◌++◌, OnOk};
ghost use Rattle.bh_lint.specs.Form.{text_in};

use crate::lines::put_lines_in;
use crate::objects::put_objects;
use crate::told::Told;
use std::alloc::AllocError;

/// How findings are written.
#[derive(Clone, Copy, Debug, PartialEq, Eq)]
pub enum Form {
    /// A line each, in the form of compilers.
    Lines,
    /// The same lines with colours for a terminal: the place bold, `error` red and `warning` yellow.
    Coloured,
    /// An object of JSON each, a line each, for editors and other programs.
    Objects,
}

/// Adds the findings of the file in the form, and how many more there are.
pub fn put_findings(
    out: &mut Vec<u8>,
    form: Form,
    file: &str,
    told: &[Told],
    more: u64,
) -> Result<(), AllocError>
    ensures { OnOk result (out.new.items ≡ out.old.items ++ text_in form file.now told.now more) }
{
    match form {
        Form::Lines => put_lines_in(out, false, file, told, more),
        Form::Coloured => put_lines_in(out, true, file, told, more),
        Form::Objects => put_objects(out, file, told, more),
    }
}
