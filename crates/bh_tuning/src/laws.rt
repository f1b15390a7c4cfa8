//! Laws of the names. Each function carries one as its contract, and does nothing when it runs.

ghost use Rattle.bh_tuning.specs.Named.{IsSaidByName};

/// A change is read again from its name and its value.
pub fn is_said_by_name()
    ensures { IsSaidByName }
{}
