//! Rolling counts of events: the buckets of one window, which are used again as time goes on, so that what no window looks
//! at any more takes no room (Hystrix wiki, "Configuration", `metrics.rollingStats`).
#![tactic(auto)]

mod counts;
mod health;
pub mod ring;
mod stretch;

pub use counts::{no_counts, raise};
pub use ring::Ring;
