//! A script over any reader and writer: each line is answered by a line, by the groups of a service, which lines may
//! register and retire.
#![tactic(auto)]

pub mod act;
mod ahead;
pub mod commands;
pub mod groups;
mod latest;
mod places;
pub mod reader;
mod run;
pub mod script;
pub mod steps;
