//! The types of the command service, and the definition of the machine that one group is.
#![tactic(auto)]

pub mod circuit;
pub mod event;
pub mod laws;
pub mod props;
pub mod reply;
pub mod room;
pub mod step;
pub mod text;
pub mod ticket;

pub use circuit::{Admit, CircuitState, End, Snapshot};
pub use event::{Counts, Event, EventKind, Health, Rolling, Window};
pub use laws::{
    commands_stay_known, props_keep_shape, serials_rise, states_stay_sound,
    totals_are_of_the_history, view_law,
};
pub use props::{CommandProps, GroupProps, Strategy, Tuning};
pub use reply::{Answer, CallError, Cause, FallbackFault, Metrics, Reply};
pub use room::push_within;
pub use step::{FallbackEnd, GroupId, Moment, Op, Request, RunEnd, Serial, Step};
pub use text::{Text, TooLong};
pub use ticket::{Ticket, TicketState};
