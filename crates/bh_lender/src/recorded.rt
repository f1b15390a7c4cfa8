//! All groups, with an account and a log of the steps that are made in them.

ghost use Rattle.std.specs.Prelude.{◌≡◌, ℕ, false, true, None, Option, Some};
ghost use Rattle.bh_base.specs.Runs.{View};
ghost use Rattle.bh_base.specs.Seen.{view_reply};
ghost use Rattle.bh_base.specs.declared.step.Op.TheVariants as op;
ghost use Rattle.bh_core.specs.CoreView.{view_at};
ghost use Rattle.bh_core.specs.Looks.{is_pending};
ghost use Rattle.bh_audit.specs.Books.{IsAudited};
ghost use Rattle.bh_audit.specs.Calls.{is_due};
ghost use Rattle.bh_in_force.specs.Properties.{in_force_found};
ghost use Rattle.bh_lender.specs.Recorded.{IsMade, book_of, log_or, recorded_of, with_log_of};

use crate::step_log::StepLog;
use bh_audit::Book;
use bh_base::{GroupId, Moment, Reply, Serial, Step};
use bh_core::Core;
use bh_in_force::InForce;
use std::marker::Model;

/// All groups. What is done in them is a step: an audited book has each step in its journals, and each is put into the log,
/// where there is one.
#[derive(Drop)]
pub struct Recorded {
    book: Book,
    log: Option<StepLog>,
}

impl Model for Recorded {
    ghost use Rattle.bh_lender.specs.Recorded.{RecordedView};

    ghost Value = { RecordedView };

    ghost view = { λ r. record { groups = r.book.groups; log = r.log; journals = r.book.journals; audited = r.book.audited } };
}

impl Recorded {
    /// The groups of a book, with a log or without one.
    pub fn new(book: Book, log: Option<StepLog>) -> Recorded
        ensures { result ≡ recorded_of book log }
    {
        Recorded { book, log }
    }

    /// The groups.
    pub fn core(&self) -> &Core
        ensures { result.now ≡ self.now.groups }
    {
        self.book.core()
    }

    /// The groups with their account.
    pub fn into_book(self) -> Book
        ensures { result ≡ book_of self }
    {
        let Recorded { book, log: _ } = self;
        book
    }

    /// Where journals are kept, that of each group agrees with what the group shows.
    pub fn journals_agree(&self)
        ensures { self.now.audited ≡ true → IsAudited self.now.groups self.now.journals }
    {
        self.book.journals_agree();
    }

    /// Makes one step, whose reply is written where the caller keeps it. The step is in the account and in the log then.
    pub fn apply_to(&mut self, step: &Step, reply: &mut Reply)
        ensures { IsMade self.old step.entry.now reply.new self.new }
    {
        self.book.apply_to(step, reply);
        if let Some(log) = &mut self.log {
            log.put(*step);
        }
    }

    /// Exchanges the steps of the log with those of another one, where there is a log.
    pub fn swap_log(&mut self, other: &mut StepLog)
        ensures this { self.new ≡ with_log_of other.old self.old }
        ensures that { other.new ≡ log_or other.old self.old }
    {
        if let Some(log) = &mut self.log {
            log.swap(other);
        }
    }

    /// No further step is put into a log.
    pub fn end_log(&mut self)
        ensures { self.new ≡ record self.old { log = None } }
    {
        self.log = None;
    }

    /// Whether a `Collect` of the serial would be answered `Pending`, as `Core::pending` says.
    pub fn pending(&self, group: GroupId, serial: Serial) -> bool
        ensures known { (v : View) (moment : ℕ) → view_at self.now.groups group.0 ≡ Some v → result ≡ is_pending (view_reply v (op.Collect serial) moment) }
        ensures unknown { view_at self.now.groups group.0 ≡ None → result ≡ false }
    {
        self.book.core().pending(group, serial)
    }

    /// Whether a ticket of the group is due, as `Core::due` says.
    pub fn due(&self, group: GroupId, now: Moment) -> bool
        ensures { result ≡ is_due self.now.groups group now }
    {
        self.book.core().due(group, now)
    }

    /// What is in force of the group's command of the number; None where the group is not registered, or lacks the command.
    pub fn in_force(&self, group: GroupId, command: u8) -> Option<InForce>
        ensures known { (v : View) → view_at self.now.groups group.0 ≡ Some v → result ≡ in_force_found command v.present.props }
        ensures unknown { view_at self.now.groups group.0 ≡ None → result ≡ None }
    {
        let core = self.book.core();
        match core.props(group) {
            Some((props, _)) if core.is_registered(group) => InForce::find(props, command),
            _ => None,
        }
    }
}
