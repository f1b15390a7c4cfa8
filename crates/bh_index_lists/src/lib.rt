//! Doubly linked lists of the places of a slice. Each place has one link, so it can be on one list at a time, and many
//! lists share one slice of links.
#![tactic(auto)]

pub mod lists;

pub use lists::{Link, ListHead, pop_front, push_back, unlink};
