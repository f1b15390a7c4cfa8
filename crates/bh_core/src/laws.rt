//! What follows from the contract of a run, for all runs. The functions here do nothing: their contracts are the laws.

ghost use Rattle.bh_core.specs.Runs.{TwoWorlds};

/// Two runs in which a group begins alike and has the same steps of its own: it is told the same and looks the same
/// in both, whatever other groups there are and do.
pub fn two_worlds()
    ensures { TwoWorlds }
{}
