//! Laws of what is told. Each function carries one as its contract, and does nothing when it runs.

ghost use Rattle.bh_lint.specs.Unused.{UnusedChangesNothing, UsedCanChange};

/// Whatever stands at a name that is told as not looked up, the settings are the same, or the first refusal is.
pub fn unused_changes_nothing()
    ensures { UnusedChangesNothing }
{}

/// What stands at a name that is looked up can change a value in force of a group or a further command.
pub fn used_can_change()
    ensures { UsedCanChange }
{}
