//! Objects whose members are listed.

ghost use Rattle.std.specs.Prelude.{◌≡◌, IfOk, OnOk};
ghost use Rattle.serde_json.specs.Data.{no_members, object};
ghost use Rattle.serde_json.specs.View.{members_view, view};
ghost use Rattle.bh_sharing.specs.LineObject.{with_each, with_one};

use serde_json::{Map, Value, put};
use std::alloc::{AllocError, Global};

/// A member of an object: its name, and a text, a number or a truth value.
#[derive(Clone, Copy, Debug)]
pub(crate) enum Member<'a> {
    Text(&'a str, &'a str),
    Number(&'a str, u64),
    Truth(&'a str, bool),
}

/// The object of the members.
pub(crate) fn object_of(alloc: Global, members: &[Member<'_>]) -> Result<Value, AllocError>
    ensures { IfOk result (λ v. view v ≡ object (with_each members.now no_members)) }
{
    let mut object = Map::new(alloc);
    for member in members {
        put_member(alloc, &mut object, *member)?;
    }
    Ok(Value::Object(object))
}

/// Puts the member into the object.
fn put_member(
    alloc: Global,
    object: &mut Map<String, Value>,
    member: Member<'_>,
) -> Result<(), AllocError>
    ensures { OnOk result (members_view object.new.entries ≡ with_one member.entry (members_view object.old.entries)) }
{
    match member {
        Member::Text(name, text) => {
            let value = Value::try_from_str(alloc, text)?;
            put(object, alloc, name, value)
        }
        Member::Number(name, number) => put(object, alloc, name, Value::from(number)),
        Member::Truth(name, truth) => put(object, alloc, name, Value::from(truth)),
    }
}
