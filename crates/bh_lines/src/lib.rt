//! Lines: bytes cut into lines, and what a line of JSON asks for or its fault.
#![tactic(auto)]

mod ascii;
mod escaped;
pub mod flat;
pub mod front;
pub mod lines;
pub mod members;
mod plain;
pub mod port_error;
pub mod script_line;
pub mod step_line;
mod stops;

pub use front::{FrontLine, front_line};
pub use lines::{last_line, next_line};
pub use port_error::PortError;
