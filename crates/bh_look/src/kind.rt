//! What the reply to a step tells of one request.

ghost use Rattle.std.specs.Prelude.{◌≡◌};
ghost use Rattle.bh_look.specs.Kinds.{answer_kind, kind_told, refusal_kind};

use bh_base::{Answer, Cause, Op, Reply};

/// What becomes of a request, as the reply to one step tells.
#[derive(Clone, Copy, Debug, PartialEq, Eq)]
pub enum Kind {
    /// It was let in, to be run.
    Admitted,
    /// It shares the run of an earlier one.
    Joined,
    /// No slot was free for it.
    GroupFull,
    /// Its group had done all the steps that it may.
    Worn,
    /// The circuit breaker let it not pass.
    ShortCircuited,
    /// Neither a worker nor a place in the queue was free, or no permit.
    Rejected,
    /// Its run failed.
    Failure,
    /// Its run ended after it had timed out.
    Late,
    /// Its caller got the value of the run.
    Value,
    /// Its caller got the value of the fallback.
    FallbackValue,
    /// Its caller got an error.
    Error,
    /// Its caller was told that the request was bad.
    BadRequest,
}

/// What the reply to the operation tells of a request, if anything. Timeouts are told by no reply.
pub fn kind_told(op: &Op, reply: &Reply) -> Option<Kind>
    ensures { result ≡ kind_told op.now reply.now }
{
    match reply {
        Reply::Queued(_) => Some(Kind::Admitted),
        Reply::Inline(_) => Some(Kind::Admitted),
        Reply::Joined(_) => Some(Kind::Joined),
        Reply::GroupFull => Some(Kind::GroupFull),
        Reply::FallbackDue { cause, .. } => Some(refusal_kind(*cause)),
        Reply::Late => Some(Kind::Late),
        Reply::Answered(answer) => Some(answer_kind(answer)),
        Reply::Done => match op {
            Op::Fail { bad: false, .. } => Some(Kind::Failure),
            _ => None,
        },
        Reply::Worn => match op {
            Op::Submit(_) => Some(Kind::Worn),
            _ => None,
        },
        _ => None,
    }
}

/// Why a request does not run.
fn refusal_kind(cause: Cause) -> Kind
    ensures { result ≡ refusal_kind cause }
{
    match cause {
        Cause::ShortCircuited => Kind::ShortCircuited,
        _ => Kind::Rejected,
    }
}

/// What a caller got.
fn answer_kind(answer: &Answer) -> Kind
    ensures { result ≡ answer_kind answer.now }
{
    match answer {
        Answer::Value(_) => Kind::Value,
        Answer::FallbackValue { .. } => Kind::FallbackValue,
        Answer::Error { .. } => Kind::Error,
        Answer::BadRequest => Kind::BadRequest,
    }
}
