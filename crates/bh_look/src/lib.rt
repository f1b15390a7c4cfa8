//! What a script did: for each command, what its requests came to, in what time, and how its circuit breaker stood.
#![tactic(auto)]

pub mod kind;
pub mod lane;
pub mod making;
pub mod rows;
pub mod summary;
pub mod table;
pub mod tally;
pub mod times;
pub mod watch;
