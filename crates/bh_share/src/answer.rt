//! The lines that answer operations which make no step.

ghost use Rattle.std.specs.Prelude.{◌≡◌, ◌++◌, OnErr, OnOk};
ghost use Rattle.bh_share.specs.Answer.{entered_line, entry_line, refusal_line};

use bh_base::Reply;
use bh_lease::Refusal;
use bh_replies::{put_error, put_reply};
use std::alloc::{AllocError, Global};

/// Puts the line behind the bytes that answers an operation which made no step: that of the reply which a ticket gets that
/// nobody has, or the error `full` or `tune`. It fails only for want of memory, and leaves the bytes as they were then.
#[tactic(auto, unfolding(crate::specs::Answer::refusal_line))]
pub fn put_refusal(alloc: Global, out: &mut Vec<u8>, refusal: Refusal) -> Result<(), AllocError>
    ensures ok { OnOk result (out.new.items ≡ out.old.items ++ refusal_line refusal) }
    ensures err { OnErr result (out.new.items ≡ out.old.items) }
{
    match refusal {
        Refusal::Full => put_error(alloc, out, "full"),
        Refusal::NotRunning => put_reply(alloc, out, &Reply::NotRunning, None),
        Refusal::NoTicket => put_reply(alloc, out, &Reply::NoTicket, None),
        Refusal::NotInFallback => put_reply(alloc, out, &Reply::NotInFallback, None),
        Refusal::NotTunable => put_error(alloc, out, "tune"),
    }
}

/// Puts the line behind the bytes that answers a connection which asked to be within a request context: that it is, or why not.
/// It fails only for want of memory, and leaves the bytes as they were then.
pub fn put_entry(
    alloc: Global,
    out: &mut Vec<u8>,
    refused: Option<Refusal>,
) -> Result<(), AllocError>
    ensures ok { OnOk result (out.new.items ≡ out.old.items ++ entry_line refused) }
    ensures err { OnErr result (out.new.items ≡ out.old.items) }
{
    match refused {
        None => out.extend_from_slice(entered_text().as_bytes()),
        Some(refusal) => put_refusal(alloc, out, refusal),
    }
}

/// The line that says that the connection is within the context.
#[tactic(auto, unfolding(crate::specs::Answer::entered_line, json::specs::Print::escape_byte))]
fn entered_text() -> &'static str
    ensures { result.now ≡ entered_line }
{
    "{\"reply\":\"entered\"}\n"
}
