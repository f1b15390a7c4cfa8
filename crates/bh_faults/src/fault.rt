//! Why nothing is done for a line, as a value.

/// Why nothing is done for a line: the first that holds.
#[derive(Clone, Copy, Debug, PartialEq, Eq)]
pub enum Fault {
    /// The line is no JSON.
    Syntax,
    /// The line is no object, a member is missing or of another type, a context stands without a key or a key
    /// without a context, or a fallback has an end of no known name.
    Field,
    /// No operation has this name.
    Op,
    /// No group has this name.
    Group,
    /// The group has no command of this name.
    Command,
    /// An argument of over 64 bytes, a key of over 32 or a body of over 256.
    Long,
    /// No property of this name may change while a group runs.
    Property,
    /// The value is out of the range of its property.
    Range,
    /// A group cannot be registered under this name: it breaks the rule for names, or is that of a group which is there
    /// or of a further command of the settings.
    Name,
    /// The settings list no group of the name that a new group is to be like.
    Like,
    /// As many groups were registered as may be.
    Groups,
}
