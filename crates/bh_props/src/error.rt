//! Why a settings file is refused.

ghost use Rattle.std.specs.Prelude.{◌≡◌};
ghost use Rattle.bh_props.specs.declared.error.SettingsError.TheVariants as refusals;

use crate::property::Property;
use bh_base::Text;
use std::alloc::AllocError;
use thiserror::Error;

/// Why a settings file is refused. Shown, it is the whole line for standard error, without a line feed.
///
/// The checks are made in the order of the variants, each for the whole file before the next.
#[derive(Clone, Copy, Debug, PartialEq, Eq, Error)]
pub enum SettingsError {
    /// The text is no TOML document.
    #[error("settings refused: 1 syntax")]
    Syntax,
    /// `service.groups` is not a list of 1 to 1,000 texts.
    #[error("settings refused: 2 no groups")]
    NoGroups,
    /// The text at the place, from 1, is not 1 to 32 letters, digits, `_` and `-`, or is `default`.
    #[error("settings refused: 3 bad name at {0}")]
    BadName(usize),
    /// The name at the place, from 1, stands before it too.
    #[error("settings refused: 4 twice named at {0}")]
    TwiceNamed(usize),
    /// Something else than `groups`, `auditSteps`, `slots` and `command` stands under `service`, or `slots` is not a
    /// table whose keys are `default` or groups, or `command` is not a table.
    #[error("settings refused: 5 unknown service property")]
    UnknownService,
    /// The further command at the place, from 1 in the order of the names' bytes, has a name that may not name a group
    /// or that names one, has something else than a table whose one key `group` is the name of a group, or is its
    /// group's seventeenth.
    #[error("settings refused: 10 bad command at {0}")]
    BadCommand(usize),
    /// The value in force for the group or the further command is of another type.
    #[error("settings refused: 6 wrong type: {} {property}", .name.as_str())]
    WrongType { name: Text<32>, property: Property },
    /// The value in force is outside the property's range.
    #[error("settings refused: 7 out of range: {} {property}", .name.as_str())]
    OutOfRange { name: Text<32>, property: Property },
    /// The rolling window is not a multiple of the number of buckets.
    #[error("settings refused: 8 not a multiple: {}", .name.as_str())]
    NotMultiple { name: Text<32> },
    /// Memory was refused.
    #[error("fault: memory")]
    Memory,
}

impl From<AllocError> for SettingsError {
    ghost from_gives = { λ _ e. e ≡ refusals.Memory };

    fn from(_error: AllocError) -> SettingsError {
        SettingsError::Memory
    }
}
