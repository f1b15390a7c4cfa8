//! The tickets of all groups, in the slots of one arena: a group's tickets lie on lists of its own, and what is counted
//! of them is kept as they change, so that a call takes no walk over other groups, and most take none over the group's.
#![tactic(auto)]

mod changes;
mod counts;
mod group_slots;
mod growth;
mod names;
mod new_ticket;
mod order;
mod spare;
mod states;
mod sweeps;
mod tickets;
mod walks;

pub use changes::RunEnd;
pub use new_ticket::{NewTicket, TicketStart};
pub use states::{DueRule, is_running, is_unanswered};
pub use tickets::Tickets;
