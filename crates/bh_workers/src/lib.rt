//! Workers, callers and a timer of a service that threads share.
#![tactic(auto)]

pub mod caller;
mod caller_threads;
pub mod dependency;
pub mod driving;
mod environment;
pub mod laws;
mod service_threads;
mod threads;
pub mod timer;
pub mod worker;

pub use caller::{MOST_RECEIPTS, call, call_to};
pub use dependency::{Dependency, Pace};
pub use driving::{DriveError, Driven, RequestList, drive};
pub use laws::calls_collect_their_own_tickets;
pub use timer::timer_loop;
pub use worker::worker_loop;
