//! Replies that are written where they are kept, each by a function of its own: one that makes several replies clears the
//! room for each as it begins, and copies whole what it made.

ghost use Rattle.std.specs.Prelude.{◌≡◌};

use bh_base::{Answer, Reply, Serial, Ticket};

/// The caller is to run the dependency.
pub(super) fn write_inline(serial: Serial, reply: &mut Reply)
    ensures { reply.new ≡ Reply.Inline serial }
{
    *reply = Reply::Inline(serial);
}

/// The request waits for a worker.
pub(super) fn write_queued(serial: Serial, reply: &mut Reply)
    ensures { reply.new ≡ Reply.Queued serial }
{
    *reply = Reply::Queued(serial);
}

/// The run of the ticket is the worker's.
pub(super) fn write_assigned(ticket: &Ticket, reply: &mut Reply)
    ensures { reply.new ≡ Reply.Assigned ticket.now.serial ticket.now.command ticket.now.arg }
{
    *reply = Reply::Assigned {
        serial: ticket.serial,
        command: ticket.command,
        arg: ticket.arg,
    };
}

/// The end of the run was told.
pub(super) fn write_done(reply: &mut Reply)
    ensures { reply.new ≡ Reply.Done }
{
    *reply = Reply::Done;
}

/// The ticket was answered so.
pub(super) fn write_answered(answer: &Answer, reply: &mut Reply)
    ensures { reply.new ≡ Reply.Answered answer.now }
{
    *reply = Reply::Answered(*answer);
}
