//! Scripts of a core: each line asks something, and says behind ` = ` what is answered. A test of many steps is then one
//! text and one loop.

use bh_base::GroupId;
use bh_core::Core;
use bh_scripts::replies::reply_text;
use bh_scripts::steps::step_of;
use bh_scripts::words::{number, split_line, split_word};
use std::alloc::{AllocError, Global};
use std::process::Abort;

/// What a look at the core says.
fn look(core: &Core, name: &str, group: GroupId, number: u64) -> u64 {
    match name {
        "groups" => core.groups(),
        "steps" => core.steps(group),
        "worn" => u64::from(core.worn(group)),
        "startable" => u64::from(core.startable(group)),
        "pending" => u64::from(core.pending(group, number)),
        "due" => u64::from(core.due(group, number)),
        _ => u64::MAX,
    }
}

fn look_text(alloc: Global, core: &Core, words: &str) -> Result<String, AllocError> {
    let (name, rest) = split_word(words);
    let (group, rest) = split_word(rest);
    let seen = look(core, name, GroupId(number(group)), number(rest));
    format!(in alloc; "{seen}")
}

/// What the core answers: to a step, or to a look.
fn ask(alloc: Global, core: &mut Core, words: &str) -> Result<String, AllocError> {
    match step_of(words) {
        Some(step) => reply_text(alloc, &core.apply(step)),
        None => look_text(alloc, core, words),
    }
}

/// Asserts that the text was made, and is the other.
pub(crate) fn assert_text<R: Abort>(
    rt: &R,
    told: Result<String, AllocError>,
    want: &str,
    at: &str,
) {
    let told = told.expect(rt, "memory");
    assert_eq!(rt; told.as_str(), want, "at {at}");
}

/// Asserts that the numbers are the same.
pub(crate) fn assert_number<R: Abort>(rt: &R, told: u64, want: u64) {
    assert_eq!(rt; told, want);
}

/// Asserts what the core answers to each line.
pub(crate) fn play(rt: &(impl Abort + AllocGlobal), core: &mut Core, script: &str) {
    for line in script.lines() {
        let (asked, want) = split_line(line);
        assert_text(rt, ask(rt.alloc(), core, asked), want, line);
    }
}
