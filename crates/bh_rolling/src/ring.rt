//! A ring of buckets.

ghost use Rattle.std.specs.Prelude.{◌≡◌, ℕ, ◌+◌, ◌<◌, ◌≤◌, ◌^◌, List, [], ◌∷◌, ◌++◌, IfOk, map};
ghost use Rattle.bh_base.specs.declared.event.Event.{Event};
ghost use Rattle.bh_base.specs.declared.event.EventKind.{EventKind};
ghost use Rattle.bh_base.specs.History.{count, count_in, counts_by, health_by};
ghost use Rattle.std.specs.List.{range_with_len};
ghost use Rattle.bh_rolling.specs.Buckets.{cleared, fresh, is_within, renewed, part_within, within_count};
ghost use Rattle.bh_rolling.specs.Healths.{health_part, healths_summed};
ghost use Rattle.bh_rolling.specs.RingView.{IsTableOf, empty_ring, ring_count, ring_recorded};

use crate::counts::{add, count_in, no_counts, raise};
use crate::health::{add_health, no_health};
use crate::stretch::Stretch;
use bh_base::{Counts, EventKind, Health, Moment, Window};
use std::alloc::{AllocError, Global};
use std::marker::Model;

/// The events of one bucket of the window, which is the one of this number: its moments divided by the width.
#[derive(Clone, Copy, Debug)]
struct Bucket {
    /// The moments of the bucket, divided by the width.
    number: u64,
    /// Its events, by kind.
    counts: Counts,
}

/// The counts of the events in one rolling window.
///
/// A bucket's place is its number modulo the number of buckets. Whoever records an event in a bucket of a later number at
/// that place begins it anew, so a step costs the same however long it was since the one before.
#[derive(Drop)]
pub struct Ring {
    /// How many buckets there are, and how long each is.
    window: Window,
    /// The moment of the latest event, 0 where there is none.
    latest: Moment,
    /// The stretch that the latest moment lies in.
    newest: Stretch,
    /// The buckets, each at its number modulo how many there are.
    buckets: Vec<Bucket>,
}

impl Model for Ring {
    ghost use Rattle.bh_rolling.specs.RingView.{RingView};
    ghost use Rattle.bh_rolling.specs.Inside.{ring_view, IsRing};

    ghost Value = { RingView };

    ghost view = { ring_view };

    ghost invariant = { IsRing };
}

impl Ring {
    /// A ring of so many buckets, each of so many milliseconds, without events. The error comes where memory for the
    /// buckets was refused.
    pub fn new(alloc: Global, buckets: u64, width: u64) -> Result<Ring, AllocError>
        requires buckets { 0 < buckets }
        requires width { 0 < width }
        ensures empty { IfOk result (λ ring. ring ≡ empty_ring (record { buckets = buckets; width = width })) }
        ensures events { IfOk result (λ ring. IsTableOf ring []) }
    {
        let window = Window { buckets, width };
        Ok(Ring {
            window,
            latest: 0,
            newest: Stretch::at(&window, 0),
            buckets: new_buckets(alloc, buckets)?,
        })
    }

    /// Records an event of the kind at the moment, which is no earlier than any recorded before.
    ///
    /// The window at that moment has fewer than 2^60 events of the kind, as it has wherever fewer were recorded at all.
    pub fn record(&mut self, now: Moment, kind: EventKind)
        requires later { self.old.latest ≤ now }
        requires few { ring_count self.old now kind < 2 ^ 60 }
        ensures recorded { self.new ≡ ring_recorded now kind self.old }
        ensures events { (events : List Event) → IsTableOf self.old events → IsTableOf self.new (events ++ record { moment = now; kind = kind } ∷ []) }
    {
        let newest = self.newest.later(&self.window, now);
        let bucket = &mut self.buckets[newest.place];
        renew(bucket, newest.number);
        raise(&mut bucket.counts, kind);
        self.newest = newest;
        self.latest = now;
    }

    /// How many events of each kind lie in the window at the moment, which is no earlier than any recorded.
    pub fn counts(&self, now: Moment) -> Counts
        requires { self.now.latest ≤ now }
        ensures counts { result ≡ counts_by (ring_count self.now now) }
        ensures bound { (k : EventKind) → count_in result k ≤ 2 ^ 60 }
    {
        let end = self.newest.later(&self.window, now);
        sum_within(&self.buckets, self.window.buckets, end.number)
    }

    /// Health in the window at the moment, which is no earlier than any recorded: the counts of health's kinds alone.
    pub fn health(&self, now: Moment) -> Health
        requires { self.now.latest ≤ now }
        ensures { result ≡ health_by (ring_count self.now now) }
    {
        let end = self.newest.later(&self.window, now);
        health_within(&self.buckets, self.window.buckets, end.number)
    }

    /// How many events of the kind lie in the window at the moment, which is no earlier than any recorded.
    pub fn sum(&self, now: Moment, kind: EventKind) -> u64
        requires { self.now.latest ≤ now }
        ensures count { result ≡ ring_count self.now now kind }
        ensures events { (events : List Event) → IsTableOf self.now events → result ≡ count self.now.window events now kind }
    {
        count_in(&self.counts(now), kind)
    }

    /// Forgets every event.
    pub fn clear(&mut self)
        ensures empty { self.new ≡ empty_ring self.old.window }
        ensures events { IsTableOf self.new [] }
    {
        clear_buckets(&mut self.buckets);
        self.newest = Stretch::at(&self.window, 0);
        self.latest = 0;
    }
}

/// Empty buckets, the first so many by their numbers.
fn new_buckets(alloc: Global, count: u64) -> Result<Vec<Bucket>, AllocError>
    ensures { IfOk result (λ buckets. buckets.items ≡ map fresh (range_with_len 0 count)) }
{
    let mut buckets = Vec::with_capacity(alloc, count as usize)?;
    for number in 0..count {
        buckets.push(Bucket {
            number,
            counts: no_counts(),
        })?;
    }
    Ok(buckets)
}

/// Makes the bucket the one of the number: one that had another number is empty from now on.
fn renew(bucket: &mut Bucket, number: u64)
    ensures { bucket.new ≡ renewed number bucket.old }
{
    if bucket.number != number {
        bucket.number = number;
        bucket.counts = no_counts();
    }
}

/// No bucket has an event any more.
fn clear_buckets(buckets: &mut [Bucket])
    ensures { buckets.new ≡ map cleared buckets.old }
{
    for bucket in buckets.iter_mut() {
        bucket.counts = no_counts();
    }
}

/// Whether the bucket has one of the `count` numbers up to `last`.
fn is_within(bucket: &Bucket, count: u64, last: u64) -> bool
    ensures { result ≡ is_within count last bucket.now }
{
    bucket.number <= last && last - bucket.number < count
}

/// Adds what the bucket has, where it has one of the `count` numbers up to `last`.
fn add_within(sums: &mut Counts, bucket: &Bucket, count: u64, last: u64)
    requires { (k : EventKind) → count_in sums.old k + part_within count last k bucket.now < 2 ^ 64 }
    ensures { sums.new ≡ counts_by (λ k. count_in sums.old k + part_within count last k bucket.now) }
{
    if is_within(bucket, count, last) {
        add(sums, &bucket.counts);
    }
}

/// The sums over the buckets that have one of the `count` numbers up to `last`.
fn sum_within(buckets: &[Bucket], count: u64, last: u64) -> Counts
    requires { (k : EventKind) → within_count count last k buckets.now ≤ 2 ^ 60 }
    ensures { result ≡ counts_by (λ k. within_count count last k buckets.now) }
{
    let mut sums = no_counts();
    for bucket in buckets {
        add_within(&mut sums, bucket, count, last);
    }
    sums
}

/// Adds what the bucket has of health, where it has one of the `count` numbers up to `last`.
fn add_health_within(health: &mut Health, bucket: &Bucket, count: u64, last: u64)
    requires errors { health.old.errors ≤ health.old.total }
    requires few { health.old.total + (health_part count last bucket.now).total < 2 ^ 64 }
    ensures { health.new ≡ healths_summed health.old (health_part count last bucket.now) }
{
    if is_within(bucket, count, last) {
        add_health(health, &bucket.counts);
    }
}

/// Health over the buckets that have one of the `count` numbers up to `last`.
fn health_within(buckets: &[Bucket], count: u64, last: u64) -> Health
    requires { (k : EventKind) → within_count count last k buckets.now ≤ 2 ^ 60 }
    ensures { result ≡ health_by (λ k. within_count count last k buckets.now) }
{
    let mut health = no_health();
    for bucket in buckets {
        add_health_within(&mut health, bucket, count, last);
    }
    health
}
