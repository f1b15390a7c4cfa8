//! Why a script ended before its input did.

use std::alloc::AllocError;
use thiserror::Error;

/// Why a script ended before its input did.
#[derive(Clone, Copy, Debug, PartialEq, Eq, Error)]
pub enum PortError {
    /// The reader failed, or as many reads as may were made.
    #[error("fault: read")]
    Read,
    /// The writer failed, or took no byte.
    #[error("fault: write")]
    Write,
    /// A line is of over 1,024 bytes or is not UTF-8.
    #[error("fault: line")]
    Line,
    /// Memory was refused.
    #[error("fault: memory")]
    Memory,
}

impl From<AllocError> for PortError {
    ghost use Rattle.std.specs.Prelude.{◌≡◌};
    ghost use Rattle.bh_lines.specs.declared.port_error.PortError.TheVariants.{Memory};

    ghost from_gives = { λ _ error. error ≡ Memory };

    fn from(_refused: AllocError) -> PortError {
        PortError::Memory
    }
}
