//! The service for programs in other languages: a static library whose functions C calls.
#![tactic(auto)]

pub mod buffers;
pub mod exports;
pub mod given;
pub mod handle;
pub mod kind;
pub mod loose;
pub mod outcome;
pub mod service;
mod steps;
pub mod told;
