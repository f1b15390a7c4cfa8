//! Tests of pictures: what they are drawn from, and how.
#![tactic(auto)]

#[cfg(test)]
mod charts;
#[cfg(test)]
mod columns;
#[cfg(test)]
mod draws;
#[cfg(test)]
mod samples;
#[cfg(test)]
mod scripts;
#[cfg(test)]
mod tunes;
