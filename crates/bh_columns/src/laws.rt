//! Laws of what is kept of moments. Each function carries one as its contract, and does nothing when it runs.

ghost use Rattle.bh_columns.specs.Laws.{FillsStayFills, JoinedAreWider};

/// What is kept of moments side by side, joined, is what is kept of all of them: it is so of nothing, and stays so with each
/// step. So nothing is lost or counted twice where columns are joined.
pub fn fills_stay_fills()
    ensures { FillsStayFills }
{}

/// So many columns, joined, are one that is so many times as wide.
pub fn joined_are_wider()
    ensures { JoinedAreWider }
{}
