//! What is known of the order in which a group's tickets were submitted and started.

ghost use Rattle.std.specs.Prelude.{◌≡◌, ◌&&◌};
ghost use Rattle.bh_tickets.specs.GroupSlots.{no_order};

use bh_base::{Moment, Serial};

/// What is known of the order in which a group's tickets were submitted and started: a walk along them may end early where
/// they lie in the order of their submits.
#[derive(Clone, Copy, Debug)]
pub struct TicketOrder {
    /// No ticket was submitted later.
    pub latest: Moment,
    /// Surely no ticket was submitted before one of an earlier serial.
    pub in_time: bool,
    /// No running ticket has a greater serial.
    pub last_started: Serial,
    /// Surely the running tickets lie in the order of their serials.
    pub in_turn: bool,
}

impl TicketOrder {
    /// That of no tickets.
    pub fn new() -> Self
        ensures { result ≡ no_order }
    {
        TicketOrder {
            latest: 0,
            in_time: true,
            last_started: 0,
            in_turn: true,
        }
    }

    /// Whether the running tickets surely lie in the order of their submits.
    pub fn running_rises(&self) -> bool
        ensures { result ≡ (self.now.in_time && self.now.in_turn) }
    {
        self.in_time && self.in_turn
    }
}
