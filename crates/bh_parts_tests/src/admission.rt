//! The pool and the permits.

use crate::asserts::assert_number;
use bh_admit::{Permits, pool_admits};
use bh_scripts::words::{number, split_line, split_word};

// Of each line: the runs under way, the queued tickets, the workers, the queue's size, and its rejection threshold.
const POOLS: &str = "0 0 1 4 1 = true
1 0 1 4 1 = true
1 1 1 4 1 = false
1 0 1 none 1 = false
18446744073709551615 18446744073709551614 18446744073709551615 18446744073709551615 18446744073709551615 = true
";

fn admits(words: &str) -> bool {
    let (busy, rest) = split_word(words);
    let (queued, rest) = split_word(rest);
    let (core, rest) = split_word(rest);
    let (max_queue, threshold) = split_word(rest);
    let max_queue = max_queue.parse::<u64>().ok();
    pool_admits(
        number(busy),
        number(queued),
        number(core),
        max_queue,
        number(threshold),
    )
}

#[test]
fn a_pool_of_one_worker_and_one_place_takes_two(rt: HostRuntime) {
    for line in POOLS.lines() {
        let (words, want) = split_line(line);
        let wanted = want == "true";
        assert!(rt; admits(words) == wanted, "{line}");
    }
}

#[test]
fn a_permit_that_is_given_back_is_free_again(rt: HostRuntime) {
    let mut permits = Permits::new(1);
    assert!(rt; permits.try_take());
    assert!(rt; !permits.try_take());
    assert_number(&rt, permits.taken(), 1);
    permits.give();
    assert_number(&rt, permits.taken(), 0);
    assert!(rt; permits.try_take());
}
