//! What a connection that ends gives back.

ghost use Rattle.std.specs.Prelude.{◌≡◌, ◌≤◌, ◌<◌, ◌+◌, List, IfNone, IfSome, false, filter, length, map, slice_index_or, vec_len, vec_capacity};
ghost use Rattle.std.specs.List.{list_any};
ghost use Rattle.bh_lease.specs.Lease.{has};
ghost use Rattle.bh_lease.specs.Leases.{IsFirst};
ghost use Rattle.bh_lender.specs.Lender.{close_step, end_of, end_step, left_with};
ghost use Rattle.bh_lender.specs.Settling.{counts_more, most_counted, with_holder};
ghost use Rattle.bh_lender.specs.Steps.{AreSteps, Made, steps_of};

use crate::lender::Left;
use crate::recorded::Recorded;
use bh_base::{FallbackEnd, GroupId, Moment, Op, Reply, Serial, Step, push_within};
use bh_lease::{Lease, Part, Within};

/// How many holders one entry counts at most.
const MOST_COUNTED: u64 = 4_294_967_295;

/// Ends each run, or each fallback, that the leases have: it has failed.
pub(crate) fn end_each(core: &mut Recorded, leases: &[Lease], part: Part, now: Moment)
    ensures { (made : List Made) × AreSteps core.old made core.new × (steps_of made ≡ map (end_step now part) (filter (has part) leases.now)) }
{
    let mut reply = Reply::Idle;
    for lease in leases {
        if lease.has(part) {
            let group = lease.group;
            let op = end_of(part, lease.serial);
            core.apply_to(&Step { group, now, op }, &mut reply);
        }
    }
}

/// The operation that ends the part of the ticket.
fn end_of(part: Part, serial: Serial) -> Op
    ensures { result ≡ end_of part serial }
{
    match part {
        Part::Holder => Op::Collect { serial },
        Part::Run => Op::Fail { serial, bad: false },
        Part::Fallback => Op::FallbackDone {
            serial,
            end: FallbackEnd::Failure,
        },
    }
}

/// Closes each of the request contexts.
pub(crate) fn close_each(core: &mut Recorded, contexts: &[Within], now: Moment)
    ensures { (made : List Made) × AreSteps core.old made core.new × (steps_of made ≡ map (close_step now) contexts.now) }
{
    let mut reply = Reply::Idle;
    for within in contexts {
        let Within { group, context } = *within;
        let op = Op::Close { context };
        let close = Step { group, now, op };
        core.apply_to(&close, &mut reply);
    }
}

/// Leaves each holder of the leases with the service, with those that are left. There is room for them.
pub(crate) fn leave_each(left: &mut Vec<Left>, leases: &[Lease])
    requires { vec_len left.old + length leases.now ≤ vec_capacity left.old }
    ensures { left.new.items ≡ left_with (filter (has Part.Holder) leases.now) left.old.items }
{
    for lease in leases {
        if lease.has(Part::Holder) {
            leave(left, lease.group, lease.serial);
        }
    }
}

/// Leaves one holder of the ticket with the service. There is room for an entry.
fn leave(left: &mut Vec<Left>, group: GroupId, serial: Serial)
    requires { vec_len left.old < vec_capacity left.old }
    ensures items { left.new.items ≡ with_holder group serial left.old.items }
    ensures len { vec_len left.new ≤ vec_len left.old + 1 }
    ensures capacity { vec_capacity left.new ≡ vec_capacity left.old }
{
    if let Some(place) = place_of(left.as_slice(), group, serial) {
        let entry = left[place];
        let number = entry.number + 1;
        left[place] = Left { number, ..entry };
    } else {
        let number = 1;
        push_within(
            left,
            Left {
                group,
                serial,
                number,
            },
        );
    }
}

/// The place of the first entry of the ticket that counts one holder more.
fn place_of(left: &[Left], group: GroupId, serial: Serial) -> Option<usize>
    ensures first { IfSome result (λ place. IsFirst (counts_more group serial) left.now place) }
    ensures within { IfSome result (λ place. place < length left.now) }
    ensures counts { (entry : Left) → IfSome result (λ place. (slice_index_or left.now place entry).number < most_counted) }
    ensures none { IfNone result (list_any (counts_more group serial) left.now ≡ false) }
{
    for (place, entry) in left.iter().enumerate() {
        if counts_more(entry, group, serial) {
            return Some(place);
        }
    }
    None
}

/// Whether the entry is of the ticket, and counts one holder more.
fn counts_more(entry: &Left, group: GroupId, serial: Serial) -> bool
    ensures { result ≡ counts_more group serial entry.now }
{
    entry.group.0 == group.0 && entry.serial == serial && entry.number < MOST_COUNTED
}
