//! Findings, each with its place in the file and what is said beside it.

use crate::finding::Finding;
use bh_base::Text;

/// A finding that is told.
#[derive(Clone, Copy)]
pub struct Told {
    /// What is amiss.
    pub finding: Finding,
    /// The line of the file, from 1.
    pub line: u64,
    /// The column there, from 1, in characters.
    pub column: u64,
    /// The name that is looked up and nearest to one that is not; empty where none is near.
    pub nearest: Text<64>,
    /// What the reader of TOML says, of a text that is none; else empty.
    pub reason: Text<128>,
}
