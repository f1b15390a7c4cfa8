//! What a caller keeps of its steps, to which only the service adds.

ghost use Rattle.std.specs.Prelude.{◌≡◌, ◌<◌, IfOk, IsOk};
ghost use Rattle.bh_journal.specs.Passes.{added, blank, marked_no_group, marked_stopped, marked_worn, receipt_of};

use bh_base::{GroupId, Reply, Step, push_within};
use bh_journal::{Marks, PassRead, Receipt};
use std::alloc::{AllocError, Global};
use std::marker::Model;

/// The receipts of one caller or worker of one group, with room for more, and its marks.
///
/// `Shared::pass` gives an empty one, and the calls of a service add to it; whoever else holds it can only read it.
/// The room is taken when the pass is made, so that adding a receipt takes no memory.
#[derive(Drop)]
pub struct Pass {
    group: GroupId,
    receipts: Vec<Receipt>,
    limit: u64,
    marks: Marks,
}

impl Model for Pass {
    ghost use Rattle.std.specs.Prelude.{◌≤◌, ◌-◌, vec_len, vec_capacity};
    ghost use Rattle.bh_journal.specs.Passes.{PassView};

    ghost Value = { PassView };

    ghost view = { λ p. record { group = p.group; receipts = p.receipts.items; room = p.limit - vec_len p.receipts; marks = p.marks } };

    ghost invariant = { λ p. (vec_len p.receipts ≤ p.limit) × (p.limit ≤ vec_capacity p.receipts) };
}

impl Pass {
    /// The group that the pass is of.
    pub fn group(&self) -> GroupId
        ensures { result ≡ self.now.group }
    {
        self.group
    }

    /// The receipts, in the order in which they were added.
    pub fn receipts(&self) -> &[Receipt]
        ensures { result.now ≡ self.now.receipts }
    {
        self.receipts.as_slice()
    }

    /// How many more receipts there is room for.
    pub fn room_left(&self) -> u64
        ensures { result ≡ self.now.room }
    {
        self.limit - self.receipts.len() as u64
    }

    /// What the pass was told without a receipt.
    pub fn marks(&self) -> Marks
        ensures { result ≡ self.now.marks }
    {
        self.marks
    }
}

impl Pass {
    /// A pass of the group without receipts and marks, with room for so many receipts. The error comes where
    /// memory for them was refused.
    pub(crate) fn new(alloc: Global, group: GroupId, room: u64) -> Result<Pass, AllocError>
        ensures blank { IfOk result (λ p. p ≡ blank group room) }
        ensures succeeds { room ≡ 0 → IsOk result }
    {
        let receipts = Vec::with_capacity(alloc, room as usize)?;
        let marks = Marks {
            worn: false,
            no_group: false,
            stopped: false,
        };
        Ok(Pass {
            group,
            receipts,
            limit: room,
            marks,
        })
    }

    /// A pass of the group that has no room for a receipt, so that it takes no memory.
    pub(crate) fn without_room(alloc: Global, group: GroupId) -> Pass
        ensures { result ≡ blank group 0 }
    {
        Pass {
            group,
            receipts: Vec::new(alloc),
            limit: 0,
            marks: Marks {
                worn: false,
                no_group: false,
                stopped: false,
            },
        }
    }

    /// Adds the receipt of a step and its reply behind those that are there. This takes no memory and cannot fail.
    #[inline(always)]
    pub(crate) fn add(&mut self, place: u64, step: &Step, reply: &Reply)
        requires { 0 < self.old.room }
        ensures { self.new ≡ added self.old (receipt_of place step.entry.now reply.now) }
    {
        let receipt = Receipt {
            place,
            step: *step,
            reply: *reply,
        };
        push_within(&mut self.receipts, receipt);
    }

    /// Notes that the group had done all the steps that it may.
    pub(crate) fn mark_worn(&mut self)
        ensures { self.new ≡ marked_worn self.old }
    {
        self.marks.worn = true;
    }

    /// Notes that the group was not registered in the service, or was retired.
    pub(crate) fn mark_no_group(&mut self)
        ensures { self.new ≡ marked_no_group self.old }
    {
        self.marks.no_group = true;
    }

    /// Notes that the service was stopped.
    pub(crate) fn mark_stopped(&mut self)
        ensures { self.new ≡ marked_stopped self.old }
    {
        self.marks.stopped = true;
    }
}

impl PassRead for Pass {
    ghost seen = { λ p. p };

    fn group(&self) -> GroupId {
        Pass::group(self)
    }

    fn receipts(&self) -> &[Receipt] {
        Pass::receipts(self)
    }

    fn marks(&self) -> Marks {
        Pass::marks(self)
    }
}
