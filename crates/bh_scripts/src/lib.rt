//! What the test crates share: scripts of steps and replies as texts, samples of settings and requests, a worked run
//! of two groups, and allocations that are refused on order.
#![tactic(auto)]

pub mod refusing;
pub mod replies;
pub mod samples;
pub mod steps;
pub mod words;
pub mod worked;
