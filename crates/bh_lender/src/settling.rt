//! The holders that are left: the service collects for each that need not wait any more.

ghost use Rattle.std.specs.Prelude.{◌≡◌, ◌<◌, List, [], ◌∷◌, false, true, IfNone, IfSome, length, slice_get, slice_index_or, Some, vec_len};
ghost use Rattle.bh_lender.specs.Steps.{AreSteps, Made};
ghost use Rattle.bh_lender.specs.Settling.{AreWaiting, IsCollected, Settles, is_waiting, without_holder};

use crate::lender::Left;
use crate::recorded::Recorded;
use bh_base::{FallbackEnd, Moment, Op, Reply, Step};

/// Collects for each holder that is left and need not wait, until all that are left have to wait.
pub(crate) fn settle(core: &mut Recorded, left: &mut Vec<Left>, now: Moment)
    ensures { (chunks : List (List Made)) × Settles now core.old left.old.items chunks core.new left.new.items × AreWaiting core.new.groups left.new.items }
{
    let mut from = 0;
    while let Some(place) = next_ready(core, left.as_slice(), from) {
        let holder = take_one(left, place);
        collect(core, &holder, now);
        from = place;
    }
}

/// A place whose holders need not wait: the first at or behind this one, or else the first of all. So holders that go on one
/// after the other are found without a look at those before them.
fn next_ready(core: &Recorded, left: &[Left], from: usize) -> Option<usize>
    ensures within { IfSome result (λ place. place < length left.now) }
    ensures ready { (holder : Left) → IfSome result (λ place. is_waiting core.now.groups (slice_index_or left.now place holder) ≡ false) }
    ensures none { IfNone result (AreWaiting core.now.groups left.now) }
{
    match ready_from(core, left, from) {
        Some(place) => Some(place),
        None => ready_from(core, left, 0),
    }
}

/// The first place at or behind this one whose holders need not wait.
fn ready_from(core: &Recorded, left: &[Left], from: usize) -> Option<usize>
    ensures within { IfSome result (λ place. place < length left.now) }
    ensures ready { (holder : Left) → IfSome result (λ place. is_waiting core.now.groups (slice_index_or left.now place holder) ≡ false) }
    ensures none { from ≡ 0 → IfNone result (AreWaiting core.now.groups left.now) }
{
    let mut place = from;
    while place < left.len() {
        let holder = left[place];
        if !core.pending(holder.group, holder.serial) {
            return Some(place);
        }
        place += 1;
    }
    None
}

/// Takes one of the holders at the place, and leaves the others.
fn take_one(left: &mut Vec<Left>, place: usize) -> Left
    requires { place < vec_len left.old }
    ensures value { result ≡ slice_index_or left.old.items place result }
    ensures items { left.new.items ≡ without_holder result left.old.items place }
{
    let holder = left[place];
    if holder.number > 1 {
        let number = holder.number - 1;
        left[place] = Left { number, ..holder };
    } else {
        left.remove(place);
    }
    holder
}

/// Collects in the place of a holder that is gone. Where it is told to run the fallback, it has none.
fn collect(core: &mut Recorded, holder: &Left, now: Moment)
    ensures { (made : List Made) × AreSteps core.old made core.new × IsCollected now holder.now made }
{
    let Left { group, serial, .. } = *holder;
    let op = Op::Collect { serial };
    let collect = Step { group, now, op };
    let mut reply = Reply::Idle;
    core.apply_to(&collect, &mut reply);
    if let Reply::RunFallback(_) = reply {
        let end = FallbackEnd::Missing;
        let op = Op::FallbackDone { serial, end };
        core.apply_to(&Step { group, now, op }, &mut reply);
        core.apply_to(&collect, &mut reply);
    }
}
