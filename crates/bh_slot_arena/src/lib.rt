//! Slots with a payload each, on lists of several families: in each family every slot is on exactly one list. Moving a
//! slot takes a fixed number of steps and no memory.
#![tactic(auto)]

pub mod arena;
mod family;
mod nodes;

pub use arena::{Arena, SlotsError};
