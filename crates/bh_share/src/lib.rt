//! The lines that connections send to a service which they share, and the lines that answer them.
#![tactic(auto)]

pub mod answer;
pub mod directory;
pub mod share_line;

pub use answer::{put_entry, put_refusal};
pub use directory::Directory;
pub use share_line::ShareLine;
