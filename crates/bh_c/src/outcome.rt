//! What a call comes to.

ghost use Rattle.std.specs.Prelude.{◌≡◌};
ghost use Rattle.bh_c.specs.Outcomes.{code_of};

/// What a call comes to. Wherever it is not `Done`, nothing was done.
#[derive(Clone, Copy, Debug, PartialEq, Eq)]
pub enum Outcome {
    /// The call did what it is for.
    Done,
    /// The settings are refused.
    Refused,
    /// Memory was refused.
    NoMemory,
    /// The buffer is too short.
    NoRoom,
    /// The line is of more than 1,024 bytes, or not UTF-8.
    BadLine,
    /// No group has the name.
    NoSuchGroup,
    /// A text is not UTF-8.
    NotText,
    /// A text is longer than it may be.
    TooLong,
    /// No operation has the number.
    NoSuchOperation,
    /// No command of the group has the name.
    NoSuchCommand,
    /// The handle holds no service.
    NotOpen,
    /// No property of the name may change.
    NoSuchProperty,
    /// The value is out of the range of its property.
    OutOfRange,
}

impl Outcome {
    /// The number that C sees, 0 to 12.
    pub fn code(self) -> u32
        ensures { result ≡ code_of self }
    {
        match self {
            Outcome::Done => 0,
            Outcome::Refused => 1,
            Outcome::NoMemory => 2,
            Outcome::NoRoom => 3,
            Outcome::BadLine => 4,
            Outcome::NoSuchGroup => 5,
            Outcome::NotText => 6,
            Outcome::TooLong => 7,
            Outcome::NoSuchOperation => 8,
            Outcome::NoSuchCommand => 9,
            Outcome::NotOpen => 10,
            Outcome::NoSuchProperty => 11,
            Outcome::OutOfRange => 12,
        }
    }
}
