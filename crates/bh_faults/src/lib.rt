//! The faults of a line: why nothing is done for it.
#![tactic(auto)]

pub mod fault;

pub use fault::Fault;
