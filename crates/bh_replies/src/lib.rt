//! The lines that answer: replies, faults, and what a line of a script is told, each put behind bytes.
#![tactic(auto)]

pub mod fault;
mod pieces;
pub mod replies;
pub mod told;
mod writing;

pub use fault::put_fault;
pub use replies::{json_line, put_error, put_reply};
pub use told::{Told, put_told, put_told_within};
