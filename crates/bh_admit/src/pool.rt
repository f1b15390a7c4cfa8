//! When a thread pool takes a run on (Hystrix wiki, "Configuration", `coreSize`, `maxQueueSize` and
//! `queueSizeRejectionThreshold`).

ghost use Rattle.std.specs.Prelude.{◌≡◌};
ghost use Rattle.bh_base.specs.Machine.{pool_admits as is_admitted_by, queue_limit as queue_limit_of};

/// Whether a thread pool takes one more run on: fewer are busy or queued than it has workers, `core`, and places in
/// its queue.
///
/// The queue has `max_queue` places or `queue_threshold`, whichever is fewer, and none where `max_queue` is None.
pub fn pool_admits(
    busy: u64,
    queued: u64,
    core: u64,
    max_queue: Option<u64>,
    queue_threshold: u64,
) -> bool
    ensures { result ≡ is_admitted_by busy queued core max_queue queue_threshold }
{
    let places = queue_limit(max_queue, queue_threshold);
    // Neither sum need fit 64 bits.
    u128::from(busy) + u128::from(queued) < u128::from(core) + u128::from(places)
}

/// How many runs may wait: as many as `max_queue` or `queue_threshold` says, whichever is fewer; none without a queue.
fn queue_limit(max_queue: Option<u64>, queue_threshold: u64) -> u64
    ensures { result ≡ queue_limit_of max_queue queue_threshold }
{
    match max_queue {
        None => 0,
        Some(most) => most.min(queue_threshold),
    }
}
