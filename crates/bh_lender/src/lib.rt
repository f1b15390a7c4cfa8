//! All groups, of which connections have tickets: what a connection does not give back, the service gives back for it.
#![tactic(auto)]

pub mod laws;
pub mod lender;
mod recorded;
mod returning;
mod settling;
pub mod step_log;

pub use lender::{Left, Lender};
pub use step_log::StepLog;
