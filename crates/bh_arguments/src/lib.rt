//! The arguments of the program: which may be given, what they ask for, and the run of that.
#![tactic(auto)]

pub mod commands;
pub mod invocation;
mod options;
pub mod parsed;
pub mod run;
mod services;
mod settings_file;
mod values;

pub use commands::command;
pub use invocation::{Invocation, invocation_in};
pub use parsed::parse;
pub use run::{run_arguments, run_program};
