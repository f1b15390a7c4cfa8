//! What may be changed of a group while it runs, by the names that the settings have for it.
#![tactic(auto)]

pub mod laws;
pub mod named;

pub use laws::is_said_by_name;
pub use named::{Given, Untunable, name_of, tuning_named, value_of};
