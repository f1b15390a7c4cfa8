//! What the picture of a run is drawn from: column by column, what the requests of each command came to, how its circuit
//! breaker stood, and how many runs were under way.
#![tactic(auto)]

pub mod chart;
pub mod column;
mod drawn;
pub mod grid;
pub mod kept;
pub mod lane;
pub mod laws;
mod making;
pub mod panel;
pub mod record;
pub mod selection;
pub mod stay;
pub mod track;
