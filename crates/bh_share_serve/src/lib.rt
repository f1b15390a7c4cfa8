//! The service that connections share, behind a port or a socket: a thread for each connection, a timer, and a record.
#![tactic(auto)]

mod ahead;
mod host;
mod names;
mod recorder;
mod share;
mod threads;

pub use share::{Sharing, share_through};
