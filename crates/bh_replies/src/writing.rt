//! Objects of which a text needs an escape: they are put by the JSON library's writer.

ghost use Rattle.std.specs.Prelude.{◌∷◌, ◌++◌, [], decimal};
ghost use Rattle.json.specs.Token.{end_object, key, string, number};
ghost use Rattle.json.specs.Print.{print};
ghost use Rattle.json.specs.Tree.{room};
ghost use Rattle.bh_replies.specs.Puts.{PutsObject};
ghost use Rattle.bh_replies.specs.Sent.{Sends, member_tokens, object_tokens};

use json::Writer;
use std::alloc::AllocError;
use std::mem;

/// A member of an object: its name, and a text or a number.
#[derive(Clone, Copy, Debug)]
pub(crate) enum Member<'a> {
    Text(&'a str, &'a str),
    Number(&'a str, u64),
}

/// The object of the members, in their order.
#[cold]
#[inline(never)]
pub(crate) fn write_object(bytes: &mut Vec<u8>, members: &[Member<'_>]) -> Result<(), AllocError>
    ensures { PutsObject result bytes.old bytes.new (print (object_tokens members.now)) (room (object_tokens members.now)) }
{
    let alloc = *bytes.allocator();
    let mut writer = Writer::new(mem::replace(bytes, Vec::new(alloc)));
    let sent = send_object(&mut writer, members);
    *bytes = writer.into_inner();
    sent
}

/// The members between the brackets of their object.
fn send_object(writer: &mut Writer, members: &[Member<'_>]) -> Result<(), AllocError>
    ensures { Sends result writer.old writer.new (object_tokens members.now) }
{
    writer.begin_object()?;
    send_members(writer, members)?;
    writer.end_object()
}

/// The members, in their order.
fn send_members(writer: &mut Writer, members: &[Member<'_>]) -> Result<(), AllocError>
    ensures { Sends result writer.old writer.new (member_tokens members.now) }
{
    for member in members {
        send_member(writer, *member)?;
    }
    Ok(())
}

/// A member: its name, and its value.
fn send_member(writer: &mut Writer, member: Member<'_>) -> Result<(), AllocError>
    ensures { Sends result writer.old writer.new (member_tokens (member.entry ∷ [])) }
{
    match member {
        Member::Text(name, text) => send_text(writer, name, text),
        Member::Number(name, n) => send_number(writer, name, n),
    }
}

/// A member that is a text.
fn send_text(writer: &mut Writer, name: &str, text: &str) -> Result<(), AllocError>
    ensures { Sends result writer.old writer.new (key name.now ∷ string text.now ∷ []) }
{
    writer.key(name)?;
    writer.string(text)
}

/// A member that is a number.
fn send_number(writer: &mut Writer, name: &str, n: u64) -> Result<(), AllocError>
    ensures { Sends result writer.old writer.new (key name.now ∷ number (decimal n) ∷ []) }
{
    writer.key(name)?;
    writer.u64(n)
}
