//! A service behind a port: connections that talk to groups over control lines, each with a thread of its own.
#![tactic(auto)]

pub mod accepting;
pub mod acceptor;
pub mod clock;
pub mod connection;
pub mod connections;
pub mod control;
pub mod door;
pub mod echo;
pub mod ending;
pub mod idle_clock;
pub mod names;
pub mod report;
pub mod reporter;
pub mod serve;
pub mod socket;
mod threads;

pub use acceptor::{Acceptor, Limits};
pub use door::Door;
pub use reporter::Reports;
pub use serve::{serve_on, serve_through};
pub use socket::SocketListener;
