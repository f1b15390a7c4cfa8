//! What a line of a script is told, printed as a line of compact JSON with its members in the order of their names.

ghost use Rattle.std.specs.Prelude.{◌≡◌, ◌+◌, ◌*◌, ◌≤◌, ◌++◌, ◌∷◌, [], length, OnErr, OnOk, vec_capacity, vec_len};
ghost use Rattle.serde_json.specs.Written.{compact_text};
ghost use Rattle.bh_replies.specs.Puts.{PutsObject};
ghost use Rattle.bh_replies.specs.ToldLine.{registered_data, told_data, told_line};

use crate::pieces::{is_plain, put_around_string, put_text};
use crate::replies::{end_line, put_reply_object};
use crate::writing::{Member, write_object};
use bh_base::{Reply, Text};
use std::alloc::{AllocError, Global};

/// What a line of a script is told, where it is not at fault.
#[derive(Clone, Copy, Debug, PartialEq, Eq)]
pub enum Told {
    /// The reply to a step. `command` is the name of the further command whose run is assigned: it stands in the line of
    /// `Assigned`, and in no other. `None` is the group's own command, whose name does not stand there.
    Reply {
        reply: Reply,
        command: Option<Text<32>>,
    },
    /// There is a new group of the name.
    Registered(Text<32>),
    /// The group is in use, and does not go.
    Held,
    /// The group is there no longer.
    Retired,
}

/// Puts the line of what is told, with its line feed, behind the bytes. It fails only for want of memory, and leaves the
/// bytes as they were then.
pub fn put_told(alloc: Global, bytes: &mut Vec<u8>, told: &Told) -> Result<(), AllocError>
    ensures ok { OnOk result (bytes.new.items ≡ bytes.old.items ++ told_line told.now) }
    ensures err { OnErr result (bytes.new.items ≡ bytes.old.items) }
{
    let start = bytes.len();
    let put = put_object(bytes, told);
    end_line(bytes, start, put)
}

/// Puts the line of what is told, without its line feed, behind the bytes, within the room that is there: this takes no
/// memory and cannot fail.
pub fn put_told_within(alloc: Global, bytes: &mut Vec<u8>, told: &Told)
    requires { vec_len bytes.old + 2047 ≤ vec_capacity bytes.old }
    ensures line { bytes.new.items ++ 10 ∷ [] ≡ bytes.old.items ++ told_line told.now }
    ensures length { length (told_line told.now) ≤ 2048 }
{
    put_object(bytes, told).unwrap();
}

/// The object of what is told. It fails only for want of memory, and not where there is room for 2,047
/// bytes more; some of the object may be there then.
#[tactic(auto, unfolding(json::specs::Print::escape_byte))]
fn put_object(bytes: &mut Vec<u8>, told: &Told) -> Result<(), AllocError>
    ensures { PutsObject result bytes.old bytes.new (compact_text (told_data told.now)) 2047 }
{
    match told {
        Told::Reply { reply, command } => put_reply_object(bytes, reply, command.as_ref()),
        Told::Registered(name) => put_registered(bytes, name.as_str()),
        Told::Held => put_text(bytes, r#"{"reply":"held"}"#),
        Told::Retired => put_text(bytes, r#"{"reply":"retired"}"#),
    }
}

/// The object that tells of a new group of the name.
fn put_registered(bytes: &mut Vec<u8>, name: &str) -> Result<(), AllocError>
    ensures { PutsObject result bytes.old bytes.new (compact_text (registered_data name.now)) (100 + 6 * length name.now) }
{
    if !is_plain(name) {
        return write_registered(bytes, name);
    }
    put_around_string(bytes, r#"{"group":""#, name, r#"","reply":"registered"}"#)
}

/// The same, where the name needs an escape.
#[cold]
#[inline(never)]
fn write_registered(bytes: &mut Vec<u8>, name: &str) -> Result<(), AllocError>
    ensures { PutsObject result bytes.old bytes.new (compact_text (registered_data name.now)) (100 + 6 * length name.now) }
{
    let members = [
        Member::Text("group", name),
        Member::Text("reply", "registered"),
    ];
    write_object(bytes, &members)
}
