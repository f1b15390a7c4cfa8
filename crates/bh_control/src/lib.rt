//! The control conversation: lines of JSON that ask a service for its groups, for metrics, for an answer to a request,
//! or to close a request context, each answered by a line.
#![tactic(auto)]

mod answer_line;
pub mod control;
pub mod control_line;
pub mod conversation;
mod groups_line;
mod received;
pub mod session;

pub use control::Control;
pub use control_line::ControlLine;
pub use conversation::Conversation;
pub use groups_line::put_groups;
pub use session::converse;
