//! What a step that a connection asks for is answered, in one turn of a service that connections share.
#![tactic(auto)]

pub mod turn;

pub use turn::{has_to_wait, is_idle, make_step, put_answer, put_in_force};
