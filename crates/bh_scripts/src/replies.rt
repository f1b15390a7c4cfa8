//! Replies as texts.

use bh_base::{Answer, Reply, Serial, Text};
use std::alloc::{AllocError, Global};

/// The ticket and its argument, and the number of its command where that is not the group's own.
pub fn assigned_text(
    alloc: Global,
    serial: Serial,
    command: u8,
    arg: &Text<64>,
) -> Result<String, AllocError> {
    let arg = arg.as_str();
    match command {
        0 => format!(in alloc; "Assigned({serial} {arg})"),
        _ => format!(in alloc; "Assigned({serial} {arg} @{command})"),
    }
}

/// The reply, with its texts as texts.
pub fn reply_text(alloc: Global, reply: &Reply) -> Result<String, AllocError> {
    match reply {
        Reply::Assigned {
            serial,
            command,
            arg,
        } => assigned_text(alloc, *serial, *command, arg),
        Reply::Answered(Answer::Value(body)) => format!(in alloc; "Value({})", body.as_str()),
        Reply::Answered(Answer::FallbackValue { cause, body }) => format!(in alloc;
            "FallbackValue({cause:?} {})",
            body.as_str()
        ),
        other => format!(in alloc; "{other:?}"),
    }
}
