//! Which failures to accept a connection pass by themselves.

ghost use Rattle.std.specs.Prelude.{◌≡◌, ◌↔◌, IsErr, false};
ghost use Rattle.std.specs.IoError.{raw_os_error};
ghost use Rattle.bh_serve.specs.Accepting.{number_passes, passes};

use std::io;

/// A failure to accept that will not pass: the listener gives no connection any more.
#[derive(Drop)]
pub struct AcceptFault {
    pub(crate) error: io::Error,
    ghost lasts: { passes (raw_os_error error) ≡ false },
}

/// Nothing where the failure passes by itself, so that the next try is worth making.
pub(crate) fn if_passing(error: io::Error) -> Result<(), AcceptFault>
    ensures { IsErr result ↔ (passes (raw_os_error error) ≡ false) }
{
    if passes(&error) {
        Ok(())
    } else {
        Err(AcceptFault { error })
    }
}

/// Whether the failure passes by itself.
fn passes(error: &io::Error) -> bool
    ensures { result ≡ passes (raw_os_error error.now) }
{
    match error.raw_os_error() {
        Some(number) if number >= 0 => number_passes(number.unsigned_abs()),
        _ => false,
    }
}

/// Whether a failure of this number passes by itself.
fn number_passes(number: u32) -> bool
    ensures { result ≡ number_passes number }
{
    match number {
        // The connection is gone, or may not be had.
        1 | 64 | 71 | 92 | 100 | 101 | 103 | 104 | 110 | 112 | 113 => true,
        // No memory or no descriptor is free just now.
        12 | 23 | 24 | 105 => true,
        // There is none yet.
        4 | 11 => true,
        _ => false,
    }
}
