//! What the test crates of services share: cores and services of two groups or more.
#![tactic(auto)]

pub mod services;
