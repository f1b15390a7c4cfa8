//! The groups that connections share: one lock, who waits, and one connection.
#![tactic(auto)]

pub mod asks;
pub mod client;
mod guarded;
mod line_object;
pub mod locked;
pub mod opening;
pub mod service;
pub mod shared;
pub mod step_line;
pub mod waiters;

pub use client::{Client, Presence, attend};
pub use opening::Opening;
pub use service::Service;
pub use shared::SharedGroups;
pub use step_line::{StepLineError, put_end, put_step};
