//! The kinds of replies as C is told them.

ghost use Rattle.std.specs.Prelude.{◌≡◌};
ghost use Rattle.bh_c.specs.Kinds.{kind_number};

/// Which reply C is told; of an answer to a request, which answer.
#[derive(Clone, Copy, Debug, PartialEq, Eq)]
pub enum ReplyKind {
    Queued,
    Inline,
    FallbackDue,
    Joined,
    GroupFull,
    Assigned,
    Idle,
    Done,
    Late,
    NotRunning,
    Expired,
    Pending,
    RunFallback,
    Value,
    FallbackValue,
    Error,
    BadRequest,
    NoTicket,
    NotInFallback,
    Closed,
    Metrics,
    Worn,
    NoGroup,
    NoCommand,
    Tuned,
    OutOfRange,
    Totals,
}

impl ReplyKind {
    /// The number that C sees, 1 to 27.
    pub fn number(self) -> u32
        ensures { result ≡ kind_number self }
    {
        match self {
            ReplyKind::Queued => 1,
            ReplyKind::Inline => 2,
            ReplyKind::FallbackDue => 3,
            ReplyKind::Joined => 4,
            ReplyKind::GroupFull => 5,
            ReplyKind::Assigned => 6,
            ReplyKind::Idle => 7,
            ReplyKind::Done => 8,
            ReplyKind::Late => 9,
            ReplyKind::NotRunning => 10,
            ReplyKind::Expired => 11,
            ReplyKind::Pending => 12,
            ReplyKind::RunFallback => 13,
            ReplyKind::Value => 14,
            ReplyKind::FallbackValue => 15,
            ReplyKind::Error => 16,
            ReplyKind::BadRequest => 17,
            ReplyKind::NoTicket => 18,
            ReplyKind::NotInFallback => 19,
            ReplyKind::Closed => 20,
            ReplyKind::Metrics => 21,
            ReplyKind::Worn => 22,
            ReplyKind::NoGroup => 23,
            ReplyKind::NoCommand => 24,
            ReplyKind::Tuned => 25,
            ReplyKind::OutOfRange => 26,
            ReplyKind::Totals => 27,
        }
    }
}
