//! What a reply adds to a digest.

use crate::digest::Digest;
use bh_base::{Answer, Cause, Counts, FallbackFault, Metrics, Reply};

/// Adds a reply.
pub(crate) fn add_reply(digest: &mut Digest, reply: &Reply) {
    match reply {
        Reply::Queued(serial) => add(digest, 1, *serial),
        Reply::Inline(serial) => add(digest, 2, *serial),
        Reply::FallbackDue { serial, cause } => {
            add(digest, 3, *serial);
            digest.number(number_of(*cause));
        }
        Reply::Joined(serial) => add(digest, 4, *serial),
        Reply::GroupFull => digest.number(5),
        Reply::Assigned {
            serial,
            command,
            arg,
        } => {
            add(digest, 6, *serial);
            digest.number(u64::from(*command));
            digest.bytes(arg.as_str().as_bytes());
        }
        Reply::Expired(count) => add(digest, 7, *count),
        Reply::RunFallback(cause) => add(digest, 8, number_of(*cause)),
        Reply::Answered(answer) => add_answer(digest, answer),
        Reply::Closed(count) => add(digest, 10, *count),
        Reply::Metrics(metrics) => add_metrics(digest, metrics),
        Reply::Totals(counts) => {
            digest.number(51);
            add_counts(digest, counts);
        }
        other => digest.number(plain_number(other)),
    }
}

/// A number for a reply that says no more.
fn plain_number(reply: &Reply) -> u64 {
    match reply {
        Reply::Idle => 20,
        Reply::Done => 21,
        Reply::Late => 22,
        Reply::NotRunning => 23,
        Reply::Pending => 24,
        Reply::NoTicket => 25,
        Reply::NotInFallback => 26,
        Reply::Worn => 27,
        Reply::NoCommand => 28,
        Reply::NoGroup => 29,
        Reply::Tuned => 31,
        Reply::OutOfRange => 32,
        _ => 30,
    }
}

fn add(digest: &mut Digest, kind: u64, number: u64) {
    digest.number(kind);
    digest.number(number);
}

/// Adds an answer.
pub(crate) fn add_answer(digest: &mut Digest, answer: &Answer) {
    match answer {
        Answer::Value(body) => {
            digest.number(40);
            digest.bytes(body.as_str().as_bytes());
        }
        Answer::FallbackValue { cause, body } => {
            add(digest, 41, number_of(*cause));
            digest.bytes(body.as_str().as_bytes());
        }
        Answer::Error { cause, fallback } => {
            add(digest, 42, number_of(*cause));
            digest.number(fault_number(*fallback));
        }
        Answer::BadRequest => digest.number(43),
    }
}

fn add_metrics(digest: &mut Digest, metrics: &Metrics) {
    add(digest, 50, metrics.errors);
    add(digest, metrics.total, metrics.percent);
    add(digest, metrics.busy, metrics.queued);
    digest.number(metrics.free);
    add_counts(digest, &metrics.counts);
}

fn add_counts(digest: &mut Digest, counts: &Counts) {
    add(digest, counts.bad_request, counts.exception_thrown);
    add(digest, counts.failure, counts.fallback_failure);
    add(digest, counts.fallback_missing, counts.fallback_rejection);
    add(digest, counts.fallback_success, counts.response_from_cache);
    add(digest, counts.semaphore_rejected, counts.short_circuited);
    add(digest, counts.success, counts.thread_pool_rejected);
    digest.number(counts.timeout);
}

fn number_of(cause: Cause) -> u64 {
    match cause {
        Cause::ShortCircuited => 0,
        Cause::PoolRejected => 1,
        Cause::SemaphoreRejected => 2,
        Cause::Failure => 3,
        Cause::Timeout => 4,
    }
}

fn fault_number(fault: FallbackFault) -> u64 {
    match fault {
        FallbackFault::Failed => 0,
        FallbackFault::Rejected => 1,
        FallbackFault::Missing => 2,
        FallbackFault::Disabled => 3,
    }
}
