//! Cores and services of two groups or more.

ghost use Rattle.std.specs.Prelude.{◌≡◌, ◌↔◌, ◌<◌, ◌≤◌, ◌+◌, ◌^◌, ◌∷◌, [], Err, IfOk, IfSome, OnErr, OnOk, is_some, length, true};
ghost use Rattle.bh_base.specs.Ranges.{IsInRange};
ghost use Rattle.bh_base.specs.Runs.{opened, view};
ghost use Rattle.bh_core.specs.Acts.{with_opened};
ghost use Rattle.bh_core.specs.CoreView.{living, most_groups, slots_in};
ghost use Rattle.bh_audit.specs.Books.{AreNew};

use bh_audit::{Book, Shared};
use bh_base::{GroupId, GroupProps};
use bh_core::{Core, RegisterError};
use std::alloc::Global;

pub const A: GroupId = GroupId(0);

pub const B: GroupId = GroupId(1);

/// Adds a group that did no step, and says its number. The core is as it was where that is refused.
pub fn add(core: &mut Core, props: &GroupProps, steps: u64) -> Result<GroupId, RegisterError>
    requires props { IsInRange props.now }
    requires some { 1 ≤ steps }
    requires few { steps ≤ 2 ^ 40 }
    requires new { AreNew steps core.old }
    ensures new { OnOk result (AreNew steps core.new) }
    ensures added { OnOk result (core.new ≡ with_opened props.now steps core.old) }
    ensures number { IfOk result (λ id. id.0 ≡ length core.old.lives) }
    ensures many { (result ≡ Err RegisterError.TooManyGroups) ↔ (most_groups ≤ length core.old.lives) }
    ensures room { (result ≡ Err RegisterError.TooManySlots) ↔ ((length core.old.lives < most_groups) × (core.old.slot_limit < slots_in core.old.lives + props.now.slots)) }
    ensures err { OnErr result (core.new ≡ core.old) }
{
    core.register(props, steps)
}

/// A core of two groups that did no step: `A` and `B`.
pub fn two_groups(
    alloc: Global,
    first: GroupProps,
    second: GroupProps,
    steps: u64,
) -> Result<Core, RegisterError>
    requires first { IsInRange first }
    requires second { IsInRange second }
    requires some { 1 ≤ steps }
    requires few { steps ≤ 2 ^ 40 }
    ensures new { IfOk result (λ core. AreNew steps core) }
    ensures groups { IfOk result (λ core. core.lives ≡ living (view (opened first steps)) ∷ living (view (opened second steps)) ∷ []) }
    ensures many { result ≡ Err RegisterError.TooManyGroups → ⊥ }
    ensures room { result ≡ Err RegisterError.TooManySlots → 1000 < first.slots + second.slots }
    ensures fits { IfOk result (λ core. first.slots + second.slots ≤ 1000) }
{
    let mut core = Core::new(alloc, 1000);
    add(&mut core, &first, steps)?;
    add(&mut core, &second, steps)?;
    Ok(core)
}

/// An audited service of two groups that may do so many steps each. None for want of memory.
pub fn service_of_two(
    alloc: Global,
    first: GroupProps,
    second: GroupProps,
    steps: u64,
) -> Option<Shared>
    requires first { IsInRange first }
    requires second { IsInRange second }
    requires some { 1 ≤ steps }
    requires few { steps ≤ 2 ^ 40 }
    ensures audited { IfSome result (λ shared. shared.audited ≡ true) }
    ensures begun { IfSome result (λ shared. shared.begun ≡ 2) }
{
    let core = two_groups(alloc, first, second, steps).ok()?;
    service_of(alloc, core, Some(steps))
}

/// A service of the groups of the core, audited where the steps of its journals are told. None for want of memory.
pub fn service_of(alloc: Global, core: Core, audit: Option<u64>) -> Option<Shared>
    requires { IfSome audit (λ steps. AreNew steps core) }
    ensures audited { IfSome result (λ shared. shared.audited ≡ is_some audit) }
    ensures begun { IfSome result (λ shared. shared.begun ≡ length core.lives) }
{
    let book = Book::new(alloc, core, audit).ok()?;
    Shared::new(alloc, book).ok()
}
