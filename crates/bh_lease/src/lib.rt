//! Whose a ticket and a request context are: what a connection has of those that other connections can see too.
#![tactic(auto)]

pub mod lease;
pub mod leases;

pub use lease::{Lease, Part, Within};
pub use leases::{Leases, Refusal};
