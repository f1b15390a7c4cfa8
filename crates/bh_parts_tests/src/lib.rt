//! Tests of the lowest crates: permits and pools, rings, the circuit breaker, accounts, lists, slots and tables of serials.
#![tactic(auto)]

#[cfg(test)]
mod account;
#[cfg(test)]
mod admission;
#[cfg(test)]
mod arena;
#[cfg(test)]
mod asserts;
#[cfg(test)]
mod circuit;
#[cfg(test)]
mod rolling;
#[cfg(test)]
mod serials;
