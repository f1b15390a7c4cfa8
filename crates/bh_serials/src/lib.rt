//! The slots of the tickets of one group, by their serials.
#![tactic(auto)]

mod entries;
mod table;

pub use table::SerialTable;
