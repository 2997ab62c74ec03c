//! The entries that the walk of an address reads.

use crate::bytes::map_then_resolve;
use nr_explain::{TableEntry, entries_read};
use nr_trace::read;
use vs_types::Depth;

/// The entries on the way to 0x400123, a root's first.
static STEPS: [TableEntry; 4] = [
    TableEntry {
        level: 4,
        frame: 1,
        index: 0,
        word: 0x2007,
    },
    TableEntry {
        level: 3,
        frame: 2,
        index: 0,
        word: 0x3007,
    },
    TableEntry {
        level: 2,
        frame: 3,
        index: 2,
        word: 0x4007,
    },
    TableEntry {
        level: 1,
        frame: 4,
        index: 0,
        word: 0x1007,
    },
];

#[test]
fn entries_that_a_walk_reads(rt: HostRuntime) {
    let alloc = rt.alloc();
    let bytes = map_then_resolve(&rt, alloc);
    let trace = read(alloc, &bytes).expect(&rt, "a trace");
    for dump in trace.dumps() {
        let steps = entries_read(alloc, dump, Depth::Four, 0x400123);
        let steps = steps.expect(&rt, "memory");
        assert!(rt; steps.as_slice() == STEPS.as_slice());
    }
}
