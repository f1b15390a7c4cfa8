//! The lines of some groups, cut out of a script: what is kept is answered as it was in the whole.
#![tactic(auto)]

mod cut;
mod keeping;
pub mod laws;
mod named;

pub use cut::cut_groups;
