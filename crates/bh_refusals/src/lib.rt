//! Tests of what a refused allocation leaves, for every call of the libraries that takes memory, and for the threads that
//! drive a service. They stand apart from the other tests, as they are run under an allocator that refuses
//! (`bench/refused.sh`).
#![tactic(auto)]

#[cfg(test)]
mod counting;
#[cfg(test)]
mod groups;
#[cfg(test)]
mod lines;
#[cfg(test)]
mod parts;
#[cfg(test)]
mod places;
#[cfg(test)]
mod refusing;
#[cfg(test)]
mod services;
#[cfg(test)]
mod worked;
