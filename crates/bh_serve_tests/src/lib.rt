//! Tests of a service over the loopback interface, and of one that connections share, with its clients in threads beside it.
#![tactic(auto)]

#[cfg(test)]
mod acceptor;
#[cfg(test)]
mod clients;
#[cfg(test)]
mod leaving;
#[cfg(test)]
mod lines;
#[cfg(test)]
mod many;
#[cfg(test)]
mod records;
#[cfg(test)]
mod reports;
#[cfg(test)]
mod scene;
#[cfg(test)]
mod shared_changes;
#[cfg(test)]
mod talks;
#[cfg(test)]
mod tunes;
#[cfg(test)]
mod waiting;
