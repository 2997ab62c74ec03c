//! The words of entries of the log.

use std::process::Abort;
use vs_types::{BadOp, CALLS, Depth, LogEntry, Op, Rights, Size, entry_of, pack, unpack};

/// The entry of a call is written as these words, and read from them.
fn is_both_ways(rt: &impl Abort, depth: Depth, call: u32, op: Result<Op, BadOp>, words: [u64; 2]) {
    let op = op.expect(rt, "a well-formed operation");
    assert!(rt; call < CALLS);
    assert_eq!(rt; pack(LogEntry { call, op }), words);
    let entry = unpack(depth, words).expect(rt, "an entry");
    assert_eq!(rt; entry, LogEntry { call, op });
    assert_eq!(rt; entry_of(words), entry);
}

#[test]
fn words_of_entries(rt: HostRuntime) {
    let four = Depth::Four;
    let map = Op::map(four, 0x400000, Size::K4, 0x1000, Rights::ALL);
    is_both_ways(&rt, four, 0, map, [0x400070, 0x1]);
    let unmap = Op::unmap(four, 0xFFFF800000000000);
    is_both_ways(&rt, four, 3, unmap, [0xFFFF800000000001, 0x18000000000]);
    let read_only = Rights {
        write: false,
        ..Rights::ALL
    };
    let protect = Op::protect(four, 0x1000, read_only);
    is_both_ways(&rt, four, CALLS - 1, protect, [0x1062, 0xFFFF8000000000]);
    let five = Depth::Five;
    let unmap = Op::unmap(five, 0xFF00000000000000);
    is_both_ways(&rt, five, 3, unmap, [0xFF00000000000001, 0x18000000000]);
}

static NO_ENTRIES: [[u64; 2]; 10] = [
    // bit 7, which is reserved
    [0x4000F0, 0x1],
    // bit 11, which is reserved
    [0x400870, 0x1],
    // the kind 3
    [0x400003, 0],
    // the size 3
    [0x40007C, 0x1],
    // an unmap with a size, with rights, with a physical address
    [0x400005, 0],
    [0x400011, 0],
    [0x400001, 0x1],
    // a base that is not canonical
    [0x800000000001, 0],
    // one that is canonical with five levels alone
    [0xFF00000000000001, 0x18000000000],
    // the call 131,072
    [0x400001, 0x100000000000000],
];

#[test]
fn words_that_spell_no_entry(rt: HostRuntime) {
    for words in &NO_ENTRIES {
        assert!(rt; unpack(Depth::Four, *words).is_none());
    }
}
