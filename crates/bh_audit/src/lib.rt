//! A service that threads share: all groups under one lock, and an account of every step.
#![tactic(auto)]

mod account;
mod asks;
pub mod book;
pub mod clock;
pub mod error;
mod freed;
mod guarded;
mod locked;
pub mod next;
pub mod pass;
mod registering;
pub mod shared;
mod waiting;

pub use bh_journal::{AuditReport, Marks, Receipt};
pub use book::Book;
pub use clock::Clock;
pub use error::AuditError;
pub use next::{Next, PassError, Progress, StepError};
pub use pass::Pass;
pub use shared::Shared;
