//! Counts of each kind of event: raised, added up and read.

ghost use Rattle.std.specs.Prelude.{◌≡◌, ◌+◌, ◌<◌, ◌^◌};
ghost use Rattle.bh_base.specs.declared.event.EventKind.{EventKind};
ghost use Rattle.bh_base.specs.History.{count_in};
ghost use Rattle.bh_base.specs.Tables.{no_counts};
ghost use Rattle.bh_rolling.specs.Buckets.{summed, raised};

use bh_base::{Counts, EventKind};

/// No event of any kind.
pub fn no_counts() -> Counts
    ensures { result ≡ no_counts }
{
    Counts {
        bad_request: 0,
        exception_thrown: 0,
        failure: 0,
        fallback_failure: 0,
        fallback_missing: 0,
        fallback_rejection: 0,
        fallback_success: 0,
        response_from_cache: 0,
        semaphore_rejected: 0,
        short_circuited: 0,
        success: 0,
        thread_pool_rejected: 0,
        timeout: 0,
    }
}

/// One more event of the kind.
pub fn raise(counts: &mut Counts, kind: EventKind)
    requires { count_in counts.old kind + 1 < 2 ^ 64 }
    ensures { counts.new ≡ raised kind counts.old }
{
    match kind {
        EventKind::BadRequest => counts.bad_request += 1,
        EventKind::ExceptionThrown => counts.exception_thrown += 1,
        EventKind::Failure => counts.failure += 1,
        EventKind::FallbackFailure => counts.fallback_failure += 1,
        EventKind::FallbackMissing => counts.fallback_missing += 1,
        EventKind::FallbackRejection => counts.fallback_rejection += 1,
        EventKind::FallbackSuccess => counts.fallback_success += 1,
        EventKind::ResponseFromCache => counts.response_from_cache += 1,
        EventKind::SemaphoreRejected => counts.semaphore_rejected += 1,
        EventKind::ShortCircuited => counts.short_circuited += 1,
        EventKind::Success => counts.success += 1,
        EventKind::ThreadPoolRejected => counts.thread_pool_rejected += 1,
        EventKind::Timeout => counts.timeout += 1,
    }
}

/// Adds the counts of each kind.
pub fn add(total: &mut Counts, counts: &Counts)
    requires { (k : EventKind) → count_in total.old k + count_in counts.now k < 2 ^ 64 }
    ensures { total.new ≡ summed total.old counts.now }
{
    total.bad_request += counts.bad_request;
    total.exception_thrown += counts.exception_thrown;
    total.failure += counts.failure;
    total.fallback_failure += counts.fallback_failure;
    total.fallback_missing += counts.fallback_missing;
    total.fallback_rejection += counts.fallback_rejection;
    total.fallback_success += counts.fallback_success;
    total.response_from_cache += counts.response_from_cache;
    total.semaphore_rejected += counts.semaphore_rejected;
    total.short_circuited += counts.short_circuited;
    total.success += counts.success;
    total.thread_pool_rejected += counts.thread_pool_rejected;
    total.timeout += counts.timeout;
}

/// The count of the kind.
pub fn count_in(counts: &Counts, kind: EventKind) -> u64
    ensures { result ≡ count_in counts.now kind }
{
    match kind {
        EventKind::BadRequest => counts.bad_request,
        EventKind::ExceptionThrown => counts.exception_thrown,
        EventKind::Failure => counts.failure,
        EventKind::FallbackFailure => counts.fallback_failure,
        EventKind::FallbackMissing => counts.fallback_missing,
        EventKind::FallbackRejection => counts.fallback_rejection,
        EventKind::FallbackSuccess => counts.fallback_success,
        EventKind::ResponseFromCache => counts.response_from_cache,
        EventKind::SemaphoreRejected => counts.semaphore_rejected,
        EventKind::ShortCircuited => counts.short_circuited,
        EventKind::Success => counts.success,
        EventKind::ThreadPoolRejected => counts.thread_pool_rejected,
        EventKind::Timeout => counts.timeout,
    }
}
