//! Readers and writers of which is counted what they did, and writing to the end.
#![tactic(auto)]

mod reader;
mod writer;
mod writing;

pub use reader::WatchedReader;
pub use writer::WatchedWriter;
pub use writing::write;
