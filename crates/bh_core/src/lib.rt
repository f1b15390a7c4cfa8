//! All groups of the service: each step changes its own group alone.
#![tactic(auto)]

mod command;
mod group;
mod history;
pub mod laws;
pub mod service;

pub use service::acts::{Act, Outcome};
pub use service::{Core, MOST_GROUPS, RegisterError, RetireError};
