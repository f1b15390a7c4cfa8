//! Which lines name one of the groups.

ghost use Rattle.std.specs.Prelude.{◌≡◌, IfOk};
ghost use Rattle.bh_lines.specs.Flat.{members_data};
ghost use Rattle.bh_lines.specs.ScriptLine.{asked_at, asked_view};
ghost use Rattle.bh_cut.specs.Named.{group_of, is_among, is_asked_of, names_one, texts};

use bh_lines::flat::FlatObject;
use bh_lines::members::{Members, value_if_json};
use bh_lines::script_line::{ScriptLine, asked_at};
use json::Scratch;
use std::alloc::{AllocError, Global};

/// Whether the line asks for a step, a registration or a retirement of one of the groups. One that asks for nothing,
/// since it is at fault whatever groups there are, names none.
///
/// It fails only for want of memory.
#[tactic(auto, unfolding(bh_lines::specs::ScriptLine::line_asked, crate::specs::Named::names_one))]
pub fn names_one(
    alloc: Global,
    scratch: &mut Scratch,
    names: &[&str],
    line: &str,
) -> Result<bool, AllocError>
    ensures { IfOk result (λ named. named ≡ names_one (texts names.now) line.now) }
{
    let mut object = FlatObject::new();
    if object.read(line, scratch)? {
        return Ok(asks_of_one(names, Members::Flat(&object)));
    }
    match value_if_json(alloc, scratch, line)? {
        Some(value) => Ok(asks_of_one(names, Members::Tree(&value))),
        None => Ok(false),
    }
}

/// Whether the members ask for something of one of the groups.
fn asks_of_one(names: &[&str], members: Members<'_>) -> bool
    ensures { result ≡ is_asked_of (texts names.now) (asked_at (members_data members.entry)) }
{
    match asked_at(members) {
        Ok(asked) => is_among(names, group_of(&asked)),
        Err(_) => false,
    }
}

/// The name of the group of which something is asked: for a registration, that of the new group.
fn group_of<'a>(asked: &ScriptLine<'a>) -> &'a str
    ensures { result.now ≡ group_of (asked_view asked.now) }
{
    match asked {
        ScriptLine::Step(said) => said.group,
        ScriptLine::Register { group, .. } => group,
        ScriptLine::Retire { group } => group,
    }
}

/// Whether the name is one of these.
fn is_among(names: &[&str], name: &str) -> bool
    ensures { result ≡ is_among (texts names.now) name.now }
{
    for other in names {
        if *other == name {
            return true;
        }
    }
    false
}
