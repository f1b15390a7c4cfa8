//! The object that tells the properties, put by the JSON library's writer.

ghost use Rattle.std.specs.Prelude.{◌∷◌, ◌++◌, [], decimal};
ghost use Rattle.serde_json.specs.Written.{number_text};
ghost use Rattle.json.specs.Token.{boolean, end_object, key, number, string};
ghost use Rattle.json.specs.Print.{print};
ghost use Rattle.bh_in_force.specs.PropertiesLine.{queue_number};
ghost use Rattle.bh_in_force.specs.Sent.{PutsObject, Sends, inner_tokens, member_tokens, object_tokens};

use json::Writer;
use std::alloc::AllocError;
use std::mem;

/// A member of an object: its name, and its value.
#[derive(Clone, Copy, Debug)]
pub(crate) enum Member {
    Number(&'static str, u64),
    Truth(&'static str, bool),
    Word(&'static str, &'static str),
    /// The size of something that may be missing: -1, where it is.
    Size(&'static str, Option<u64>),
}

/// The object that has the members in their order as its properties.
pub(crate) fn write_object(bytes: &mut Vec<u8>, members: &[Member]) -> Result<(), AllocError>
    ensures { PutsObject result bytes.old bytes.new (print (object_tokens members.now)) }
{
    let alloc = *bytes.allocator();
    let mut writer = Writer::new(mem::replace(bytes, Vec::new(alloc)));
    let sent = send_object(&mut writer, members);
    *bytes = writer.into_inner();
    sent
}

/// The whole object.
fn send_object(writer: &mut Writer, members: &[Member]) -> Result<(), AllocError>
    ensures { Sends result writer.old writer.new (object_tokens members.now) }
{
    writer.begin_object()?;
    writer.key("properties")?;
    send_inner(writer, members)?;
    send_word(writer, "reply", "properties")?;
    writer.end_object()
}

/// The members between the brackets of their object.
fn send_inner(writer: &mut Writer, members: &[Member]) -> Result<(), AllocError>
    ensures { Sends result writer.old writer.new (inner_tokens members.now) }
{
    writer.begin_object()?;
    send_members(writer, members)?;
    writer.end_object()
}

/// The members, in their order.
fn send_members(writer: &mut Writer, members: &[Member]) -> Result<(), AllocError>
    ensures { Sends result writer.old writer.new (member_tokens members.now) }
{
    for member in members {
        send_member(writer, *member)?;
    }
    Ok(())
}

/// A member: its name, and its value.
fn send_member(writer: &mut Writer, member: Member) -> Result<(), AllocError>
    ensures { Sends result writer.old writer.new (member_tokens (member ∷ [])) }
{
    match member {
        Member::Number(name, n) => send_number(writer, name, n),
        Member::Truth(name, truth) => send_truth(writer, name, truth),
        Member::Word(name, word) => send_word(writer, name, word),
        Member::Size(name, size) => send_size(writer, name, size),
    }
}

/// A member that is a number.
fn send_number(writer: &mut Writer, name: &str, n: u64) -> Result<(), AllocError>
    ensures { Sends result writer.old writer.new (key name.now ∷ number (decimal n) ∷ []) }
{
    writer.key(name)?;
    writer.u64(n)
}

/// A member that is a truth value.
fn send_truth(writer: &mut Writer, name: &str, truth: bool) -> Result<(), AllocError>
    ensures { Sends result writer.old writer.new (key name.now ∷ boolean truth ∷ []) }
{
    writer.key(name)?;
    writer.boolean(truth)
}

/// A member that is a word.
fn send_word(writer: &mut Writer, name: &str, word: &str) -> Result<(), AllocError>
    ensures { Sends result writer.old writer.new (key name.now ∷ string word.now ∷ []) }
{
    writer.key(name)?;
    writer.string(word)
}

/// A member that is the size of something that may be missing.
fn send_size(writer: &mut Writer, name: &str, size: Option<u64>) -> Result<(), AllocError>
    ensures { Sends result writer.old writer.new (key name.now ∷ number (number_text (queue_number size)) ∷ []) }
{
    writer.key(name)?;
    match size {
        Some(n) => writer.u64(n),
        None => writer.i64(-1),
    }
}
