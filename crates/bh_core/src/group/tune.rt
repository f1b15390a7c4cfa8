//! Tune: a property gets another value.

ghost use Rattle.std.specs.Prelude.{◌≡◌, ◌<◌, true};
ghost use Rattle.bh_base.specs.declared.step.Op.TheVariants as op;
ghost use Rattle.bh_base.specs.Commands.{command_count};
ghost use Rattle.bh_base.specs.Tunings.{group_tuned, is_within};
ghost use Rattle.bh_core.specs.GroupView.{LeavesRoom, view_in};
ghost use Rattle.bh_core.specs.Stepping.{IsDone};
ghost use Rattle.bh_tickets.specs.TicketsView.{TicketsView};

use super::Group;
use bh_base::{Reply, Tuning};

impl Group {
    /// The property of the command, or of the pool, gets the value, unless that is out of its range. No ticket, no event and no
    /// circuit breaker changes: what comes next goes by the new value, and nothing is kept by the old one.
    pub fn tune(&mut self, command: u8, tuning: &Tuning, reply: &mut Reply)
        requires known { command < command_count self.old.props }
        ensures done { (ts : TicketsView) → IsDone (view_in ts self.old) (op.Tune command tuning.now) reply.new (view_in ts self.new) }
        ensures left { (ts : TicketsView) → LeavesRoom ts self.old ts self.new }
    {
        if !tuning.is_within() {
            *reply = Reply::OutOfRange;
            return;
        }
        self.set_property(command, tuning);
        *reply = Reply::Tuned;
    }

    /// The property has the value, which is within its range: so the storage of the group is what its properties want still.
    fn set_property(&mut self, command: u8, tuning: &Tuning)
        requires known { command < command_count self.old.props }
        requires within { is_within tuning.now ≡ true }
        ensures { self.new ≡ record self.old { props = group_tuned tuning.now command self.old.props } }
    {
        self.props.tune(command, tuning);
    }
}
