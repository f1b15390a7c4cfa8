//! The properties that are in force of a command and of its group, and the line that tells them.
#![tactic(auto)]

pub mod line;
pub mod properties;
mod writing;

pub use line::put_properties;
pub use properties::InForce;
