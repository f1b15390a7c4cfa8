//! Tests of connections that share groups: whose tickets are, and what a connection that ends gives back.
#![tactic(auto)]

#[cfg(test)]
mod accounts;
#[cfg(test)]
mod contexts;
#[cfg(test)]
mod lending;
#[cfg(test)]
mod random_accounts;
#[cfg(test)]
mod returns;
#[cfg(test)]
mod samples;
#[cfg(test)]
mod shared_books;
#[cfg(test)]
mod tuning;
