//! Which connections wait for what, and which of them a step lets go on.

ghost use Rattle.std.specs.Prelude.{◌≡◌, ◌==◌, ◌&&◌, ◌||◌, ℕ, IfOk, None, false, nat_lt, not, replicate, slice_set, true};
ghost use Rattle.bh_sharing.specs.Waiters.{has_number, is_of, is_ready, is_ready_in, is_told, is_told_anyhow, may_go_on, sleeps_at, wants_run, with_told};

use bh_base::{GroupId, Serial};
use bh_core::Core;
use bh_turns::is_idle;
use std::alloc::{AllocError, Global};
use std::marker::Model;

/// So many connections at most may wait at a time.
pub const MOST_WAITERS: u32 = 64;

/// What a connection waits for.
#[derive(Clone, Copy, Debug, PartialEq, Eq)]
pub struct Waiter {
    /// The group of the step that waits.
    pub group: GroupId,
    /// The ticket whose answer it waits for; of a start none: it waits for a run.
    pub ticket: Option<Serial>,
    /// Whether it was told to look again.
    pub told: bool,
}

impl Waiter {
    /// Whether its step would not be answered `Pending` or `Idle`.
    fn may_go_on(&self, core: &Core) -> bool
        ensures { result ≡ may_go_on core.now self.now }
    {
        match self.ticket {
            Some(serial) => !core.pending(self.group, serial),
            None => !is_idle(core, self.group),
        }
    }
}

/// Connections by their numbers, each below `MOST_WAITERS`.
#[derive(Drop)]
pub struct Numbers(u64);

impl Model for Numbers {
    ghost use Rattle.std.specs.Prelude.{ℕ};

    ghost Value = { ℕ };

    ghost view = { λ numbers. numbers.0 };
}

impl Numbers {
    /// None.
    pub fn none() -> Numbers
        ensures { (k : ℕ) → has_number result k ≡ false }
    {
        Numbers(0)
    }

    /// Whether there is none.
    pub fn is_empty(&self) -> bool
        ensures { result ≡ true → (k : ℕ) → has_number self.now k ≡ false }
    {
        self.0 == 0
    }

    /// Whether the number is one of them.
    pub fn has(&self, number: usize) -> bool
        ensures { result ≡ has_number self.now number }
    {
        number < MOST_WAITERS as usize && self.0 >> number & 1 == 1
    }

    /// These and those.
    pub fn and(self, others: Numbers) -> Numbers
        ensures { (k : ℕ) → has_number result k ≡ (has_number self k || has_number others k) }
    {
        Numbers(self.0 | others.0)
    }

    /// These and the number, which is below `MOST_WAITERS`; else these alone.
    fn with(self, number: usize) -> Numbers
        ensures { (k : ℕ) → has_number result k ≡ (has_number self k || (nat_lt k 64 && (k == number))) }
    {
        if number < MOST_WAITERS as usize {
            Numbers(self.0 | 1 << number)
        } else {
            self
        }
    }
}

/// What each connection waits for, by the numbers of the connections.
#[derive(Drop)]
pub struct Waiters {
    places: Vec<Option<Waiter>>,
}

impl Model for Waiters {
    ghost use Rattle.std.specs.Prelude.{List, Option};
    ghost use Rattle.bh_sharing.specs.declared.waiters.Waiter.{Waiter as WaiterView};

    ghost Value = { List (Option WaiterView) };

    ghost view = { λ waiters. waiters.places.items };
}

impl Waiters {
    /// So many connections, of which none waits.
    pub fn new(alloc: Global, connections: u32) -> Result<Waiters, AllocError>
        ensures { IfOk result (λ made. made ≡ replicate connections None) }
    {
        let mut places = Vec::new(alloc);
        while places.len() < connections as usize {
            places.push(None)?;
        }
        Ok(Waiters { places })
    }

    /// Whether no connection waits.
    pub fn is_empty(&self) -> bool {
        for place in &self.places {
            if place.is_some() {
                return false;
            }
        }
        true
    }

    /// The connection waits for this from now on, or for nothing any more. One that there is no place for is left out.
    pub fn set(&mut self, number: usize, waiter: Option<Waiter>)
        ensures { self.new ≡ slice_set self.old number waiter }
    {
        if let Some(place) = self.places.get_mut(number) {
            *place = waiter;
        }
    }

    /// Whether the connection sleeps on: it waits, and was not told to look again.
    pub fn sleeps(&self, number: usize) -> bool
        ensures { result ≡ sleeps_at self.now number }
    {
        match self.places.get(number) {
            Some(Some(waiter)) => !waiter.told,
            _ => false,
        }
    }

    /// The connection has looked again.
    pub fn looked(&mut self, number: usize)
        ensures { self.new ≡ with_told false number self.old }
    {
        self.set_told(number, false);
    }

    /// Tells those to look again whom a step of the group lets go on, and answers who they are: each that waits for a ticket
    /// which need not be waited for any more, and one of those that wait for a run, where there is one. Whoever takes that
    /// run makes a step, which tells the next.
    pub fn tell(&mut self, core: &Core, group: GroupId) -> Numbers
        ensures { (k : ℕ) → has_number result k ≡ (nat_lt k 64 && is_told core.now group self.old k) }
    {
        let ready = self.ready_in(core, group);
        self.mark(&ready);
        ready
    }

    /// Tells everybody to look again who may go on, whatever the group, and answers who they are.
    pub fn tell_all(&mut self, core: &Core) -> Numbers
        ensures { (k : ℕ) → has_number result k ≡ (nat_lt k 64 && is_told_anyhow core.now self.old k) }
    {
        let ready = self.ready(core);
        self.mark(&ready);
        ready
    }

    /// Those whom a step of the group lets go on.
    fn ready_in(&self, core: &Core, group: GroupId) -> Numbers
        ensures { (k : ℕ) → has_number result k ≡ (nat_lt k 64 && is_told core.now group self.now k) }
    {
        let mut ready = Numbers::none();
        let mut has_run = false;
        for (number, place) in self.places.iter().enumerate() {
            let is_ready = is_ready_in(place, core, group);
            let wants_run = wants_run(place);
            let is_told = is_told_behind(is_ready, wants_run, has_run);
            if is_told {
                ready = ready.with(number);
            }
            has_run = has_run_then(is_ready, wants_run, has_run);
        }
        ready
    }

    /// All that are ready.
    fn ready(&self, core: &Core) -> Numbers
        ensures { (k : ℕ) → has_number result k ≡ (nat_lt k 64 && is_told_anyhow core.now self.now k) }
    {
        let mut ready = Numbers::none();
        for (number, place) in self.places.iter().enumerate() {
            if is_ready(place, core) {
                ready = ready.with(number);
            }
        }
        ready
    }

    /// Tells these to look again.
    fn mark(&mut self, told: &Numbers) {
        for number in 0..self.places.len() {
            if told.has(number) {
                self.set_told(number, true);
            }
        }
    }

    /// Notes whether the connection, if it waits, was told to look again.
    fn set_told(&mut self, number: usize, told: bool)
        ensures { self.new ≡ with_told told number self.old }
    {
        match self.places.get(number) {
            Some(Some(waiter)) => {
                let waiter = Waiter { told, ..*waiter };
                self.set(number, Some(waiter));
            }
            _ => {}
        }
    }
}

/// Whether what stands at a place waits in the group.
fn is_of(place: &Option<Waiter>, group: GroupId) -> bool
    ensures { result ≡ is_of group place.now }
{
    match place {
        Some(waiter) => waiter.group == group,
        None => false,
    }
}

/// Whether it waits in the group and is ready.
fn is_ready_in(place: &Option<Waiter>, core: &Core, group: GroupId) -> bool
    ensures { result ≡ is_ready_in core.now group place.now }
{
    is_of(place, group) && is_ready(place, core)
}

/// Whether who is ready is told, behind others of whom one was ready for a run, or none.
fn is_told_behind(is_ready: bool, wants_run: bool, has_run: bool) -> bool
    ensures { result ≡ (is_ready && not (wants_run && has_run)) }
{
    is_ready && !(wants_run && has_run)
}

/// Whether one of them is ready for a run then.
fn has_run_then(is_ready: bool, wants_run: bool, has_run: bool) -> bool
    ensures { result ≡ (has_run || (is_ready && wants_run)) }
{
    has_run || is_ready && wants_run
}

/// Whether it waits, was not told yet, and may go on.
fn is_ready(place: &Option<Waiter>, core: &Core) -> bool
    ensures { result ≡ is_ready core.now place.now }
{
    match place {
        Some(waiter) => !waiter.told && waiter.may_go_on(core),
        None => false,
    }
}

/// Whether it waits for a run.
fn wants_run(place: &Option<Waiter>) -> bool
    ensures { result ≡ wants_run place.now }
{
    match place {
        Some(waiter) => waiter.ticket.is_none(),
        None => false,
    }
}
