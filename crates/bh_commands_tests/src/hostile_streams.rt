//! Runs in which one call of the reader or the writer goes wrong: the first, the second and so on, until a run makes
//! fewer calls.

use crate::operations::CACHE;
use crate::runs::{assert_bytes, assert_end};
use crate::scripts::{Texts, script_of, texts_of};
use crate::streams::{PieceReader, PieceWriter, pieces, writer};
use bh_commands::run_file;
use std::process::Abort;

/// More calls than any run here makes.
const MOST_CALLS: usize = 10_000;

/// Runs the script of the cache, and asserts that it ends well with all of its output, or by the fault with a front of
/// it. Whether it ended by the fault.
fn ends_early<R: Abort + AllocGlobal>(
    rt: &R,
    cache: &Texts,
    reader: &mut PieceReader<'_>,
    writer: &mut PieceWriter,
    fault: &str,
) -> bool {
    let settings = script_of(CACHE).settings.as_bytes();
    let mut reported = Vec::new(rt.alloc());
    let status = run_file(rt.alloc(), settings, reader, writer, &mut reported);
    if status == 0 {
        assert_bytes(rt, &reported, "", "the errors");
        assert_bytes(rt, &writer.written, cache.output.as_str(), "the output");
        return false;
    }
    assert_end(rt, status, 3);
    assert_bytes(rt, &reported, fault, "the errors");
    assert!(rt;
        cache
            .output
            .as_str()
            .as_bytes()
            .starts_with(writer.written.as_slice())
    );
    true
}

/// How many runs end by a failed read of so many bytes.
fn failed_reads<R: Abort + AllocGlobal>(rt: &R, cache: &Texts, size: usize) -> usize {
    for call in 1..MOST_CALLS {
        let mut reader = pieces(cache.input.as_str(), size, Some(call));
        let mut writer = writer(rt, cache.output.len(), None, false);
        if !ends_early(rt, cache, &mut reader, &mut writer, "fault: read\n") {
            return call - 1;
        }
    }
    MOST_CALLS
}

#[test]
fn each_read_that_a_run_makes_can_fail(rt: HostRuntime) {
    let cache = texts_of(&rt, script_of(CACHE).lines);
    for size in [1, 64, 1000, 100_000] {
        // One for each piece, and one that finds the end.
        let reads = cache.input.len().div_ceil(size.max(1)).saturating_add(1);
        assert_eq!(rt; failed_reads(&rt, &cache, size), reads);
    }
}

/// How many runs end by a write of so many bytes that fails or takes none.
fn refused_writes<R: Abort + AllocGlobal>(
    rt: &R,
    cache: &Texts,
    size: usize,
    fails: bool,
) -> usize {
    for call in 1..MOST_CALLS {
        let mut reader = pieces(cache.input.as_str(), cache.input.len(), None);
        let mut writer = writer(rt, size, Some(call), fails);
        if !ends_early(rt, cache, &mut reader, &mut writer, "fault: write\n") {
            return call - 1;
        }
    }
    MOST_CALLS
}

#[test]
fn each_write_that_a_run_makes_can_fail_or_take_no_byte(rt: HostRuntime) {
    let cache = texts_of(&rt, script_of(CACHE).lines);
    for size in [1, 64, 1000, 100_000] {
        let writes = cache.output.len().div_ceil(size.max(1));
        assert_eq!(rt; refused_writes(&rt, &cache, size, true), writes);
        assert_eq!(rt; refused_writes(&rt, &cache, size, false), writes);
    }
}
