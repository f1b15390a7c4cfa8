//! Whether a run may be taken on, by the isolation strategy of a group: a pool of workers with a queue, or permits
//! (Hystrix wiki, "How It Works", isolation).
#![tactic(auto)]

pub mod permits;
pub mod pool;

pub use permits::Permits;
pub use pool::pool_admits;
