//! A run over memory, and what comes of it.

use bh_commands::run_file;
use std::process::Abort;

/// The settings of a service of the one group a.
pub(crate) const ONE_GROUP: &str = "service.groups = [\"a\"]\n";

/// Runs the input under the settings, and asserts what comes of it.
pub(crate) fn assert_run<R: Abort + AllocGlobal>(
    rt: &R,
    settings: &[u8],
    input: &[u8],
    status: u8,
    output: &str,
    errors: &str,
) {
    let mut reader: &[u8] = input;
    let mut written = Vec::new(rt.alloc());
    let mut reported = Vec::new(rt.alloc());
    let answered = run_file(
        rt.alloc(),
        settings,
        &mut reader,
        &mut written,
        &mut reported,
    );
    assert_end(rt, answered, status);
    assert_bytes(rt, &written, output, "the output");
    assert_bytes(rt, &reported, errors, "the errors");
}

/// Asserts the exit status.
pub(crate) fn assert_end<R: Abort>(rt: &R, answered: u8, status: u8) {
    assert_eq!(rt; answered, status);
}

/// Asserts the bytes that were written; what they are is told where they differ.
pub(crate) fn assert_bytes<R: Abort>(rt: &R, written: &Vec<u8>, want: &str, what: &str) {
    assert_eq!(rt; written.as_slice(), want.as_bytes(), "{what}");
}

/// Runs the lines under the settings, and asserts that it is their answers that are written.
pub(crate) fn assert_answers<R: Abort + AllocGlobal>(
    rt: &R,
    settings: &str,
    input: &str,
    output: &str,
) {
    assert_run(rt, settings.as_bytes(), input.as_bytes(), 0, output, "");
}
