//! The conversation of a connection that shares a service with others: its lines, each answered once and in order.
#![tactic(auto)]

mod answer;
pub mod desk;
mod received;
pub mod session;

pub use desk::{Desk, Turn};
pub use session::{Buffers, converse};
