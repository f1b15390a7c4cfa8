//! One step, and what it did to the columns of its group's commands.

ghost use Rattle.std.specs.Prelude.{◌≡◌, ◌==◌, ◌<◌, ℕ, All, is_some, length, slice_get, None, Ok, OnOk, Some, if◌then◌else◌};
ghost use Rattle.bh_base.specs.Ranges.{IsInRange};
ghost use Rattle.bh_base.specs.Runs.{State, View, view};
ghost use Rattle.bh_base.specs.Seen.{view_after};
ghost use Rattle.bh_core.specs.CoreView.{Shows, view_at};
ghost use Rattle.bh_core.specs.Step.{IsStep};
ghost use Rattle.bh_props.specs.SettingsView.{SettingsView};
ghost use Rattle.bh_port.specs.declared.act.LineAct.TheVariants as act;
ghost use Rattle.bh_port.specs.Entries.{entry_at};
ghost use Rattle.bh_columns.specs.Filled.{AreFilled, AreFills, AreWithin, Fills, Stands, fills_with};
ghost use Rattle.bh_columns.specs.Named.{KeptRun, run_said};
ghost use Rattle.bh_columns.specs.Panels.{EachAt};
ghost use Rattle.bh_columns.specs.Placed.{IsAsked, IsStepped};
ghost use Rattle.bh_columns.specs.Recorded.{IsRecorded};
ghost use Rattle.bh_columns.specs.declared.panel.KeptPanel.{KeptPanel};
ghost use Rattle.bh_columns.specs.declared.selection.Selection.{Selection as SelectionView};

use crate::kept::Kept;
use crate::lane::Touched;
use crate::panel::When;
use bh_base::{GroupId, Moment, Op, Reply, Step};
use bh_core::Core;
use bh_port::groups::Groups;
use std::alloc::AllocError;

impl Kept {
    /// Makes the step, and adds what it did to the columns of the group's commands, where they are kept. It fails only for
    /// want of memory, and the step is made then.
    pub fn take_step(
        &mut self,
        groups: &mut Groups,
        step: &Step,
        reply: &mut Reply,
    ) -> Result<(), AllocError>
        ensures { OnOk result ((service : SettingsView) (sel : SelectionView) (run : KeptRun) → All (λ group. IsInRange group.1) service.groups → IsAsked groups.old.entries (act.Step step.entry.now)
            → IsRecorded service sel groups.old self.old run → IsRecorded service sel groups.new self.new (run_said service sel.from sel.to (Ok (act.Step step.entry.now)) run)) }
    {
        match self.place_of(step.group) {
            Some(panel) => self.record_step(panel, groups, step, reply),
            None => {
                // That each group that is there is registered is known where they are looked at.
                let _core = groups.core();
                groups.apply_to(step.group, step.now, &step.op, reply);
                Ok(())
            }
        }
    }

    /// The same for a group that has the panel: what is kept of its commands, whatever the moments and however wide the
    /// columns, is what was kept with what the step did; of all others it is as it was. The panel then stands as the group does.
    pub fn record_step(
        &mut self,
        panel: usize,
        groups: &mut Groups,
        step: &Step,
        reply: &mut Reply,
    ) -> Result<(), AllocError>
        requires { panel < length self.old.panels.items }
        ensures step { IsStep groups.old.core step.entry.now reply.new groups.new.core }
        ensures entries { groups.new.entries ≡ groups.old.entries }
        ensures there { (number : ℕ) → is_some (view_at groups.old.core number) ≡ is_some (entry_at groups.old.entries number) }
        ensures panels { OnOk result (EachAt self.old.panels.items self.new.panels.items (λ place own next. IsStepped panel place own next)) }
        ensures places { self.new.places ≡ self.old.places }
        ensures selection { self.new.selection ≡ self.old.selection }
        ensures lanes { self.new.lanes ≡ self.old.lanes }
        ensures left_out { self.new.left_out ≡ self.old.left_out }
        ensures filled { OnOk result ((s : State) (fs : Fills) (own : KeptPanel) → Shows groups.old.core step.entry.now.group.0 s → IsInRange s.present.props → slice_get self.old.panels.items panel ≡ Some own → Stands (view s) own
            → AreFills fs → AreFilled self.old.panels.items self.old.grid.width fs
            → AreFilled self.new.panels.items self.new.grid.width (fills_with self.old.selection.from self.old.selection.to panel (view s) step.entry.now.op step.entry.now.now fs)
            × ((next : KeptPanel) × (slice_get self.new.panels.items panel ≡ Some next) × Stands (view_after (view s) step.entry.now.op step.entry.now.now) next)) }
        ensures within { OnOk result ((s : State) (fs : Fills) → Shows groups.old.core step.entry.now.group.0 s → AreFills fs → AreWithin self.old.grid.extent self.old.grid.width fs
            → AreWithin self.new.grid.extent self.new.grid.width (fills_with self.old.selection.from self.old.selection.to panel (view s) step.entry.now.op step.entry.now.now fs)) }
    {
        let began = clock(groups.core(), step.group);
        let run_of = run_of(groups.core(), step.group, &step.op);
        self.panels[panel].make_step(groups, step, reply)?;
        let moment = groups.core().latest(step.group);
        let since = began.unwrap_or(moment);
        self.panels[panel].note_life(began.is_some(), moment, is_tuned(reply))?;
        let when = When {
            since,
            moment,
            from: self.selection.from,
            to: self.selection.to,
        };
        self.make_room(panel, &when)?;
        self.panels[panel].add(&self.grid, &when, groups.core(), step.group);
        let touched = touched(&step.op, reply, run_of);
        self.panels[panel].look(groups.core(), step.group, step.now, touched);
        Ok(())
    }
}

/// The moment of the group's last step, where it made one.
fn clock(core: &Core, group: GroupId) -> Option<Moment>
    ensures { (v : View) → view_at core.now group.0 ≡ Some v → result ≡ (if v.present.steps == 0 then None else Some v.present.latest) }
{
    if core.steps(group) == 0 {
        return None;
    }
    Some(core.latest(group))
}

/// Whether the step changed a property.
fn is_tuned(reply: &Reply) -> bool {
    matches!(reply, Reply::Tuned)
}

/// The command of the run that the operation ends, if it is under way.
fn run_of(core: &Core, group: GroupId, op: &Op) -> Option<u8> {
    match op {
        Op::Finish { .. } | Op::Fail { .. } => Some(core.ticket(group, op)?.command),
        _ => None,
    }
}

/// Whose runs the step may have begun, ended or let wait.
fn touched(op: &Op, reply: &Reply, run_of: Option<u8>) -> Touched {
    match reply {
        Reply::Queued(_) | Reply::Inline(_) => match op {
            Op::Submit(request) => Touched::Command(request.command),
            _ => Touched::None,
        },
        Reply::Assigned { command, .. } => Touched::Command(*command),
        Reply::Expired(0) => Touched::None,
        Reply::Expired(_) => Touched::All,
        _ => match run_of {
            Some(command) => Touched::Command(command),
            None => Touched::None,
        },
    }
}
