//! Traces as they are read.

use crate::bytes::{EMPTY, MAPPED, ROOT, TABLES, Words, bytes_of, changed, map_then_resolve};
use crate::events::{ACCESS_EVENTS, Item, RESOLVE_EVENTS, events_of};
use nr_trace::{Format, Trace, TraceLayout, Version, read, write};
use std::alloc::Global;
use std::process::Abort;
use vs_types::{Config, Depth};
use vs_walk::{Dump, Frames};

/// Bytes at indexes.
type Changes = &'static [(usize, u8)];

/// The bytes of a trace, and what they say.
#[derive(Clone, Copy)]
struct Example {
    front: &'static [u8],
    changes: Changes,
    len: usize,
    version: Version,
    depth: Depth,
    tables: u16,
    log: &'static [u32],
    events: &'static [Item],
    /// How many entries the dump has applied.
    applied: u8,
    words: Words,
}

const NOTHING: Example = Example {
    front: &EMPTY,
    changes: &[],
    len: 4140,
    version: Version::V1,
    depth: Depth::Four,
    tables: 1,
    log: &[],
    events: &[],
    applied: 0,
    words: ROOT,
};

const RESOLVE: Example = Example {
    front: &MAPPED,
    len: 16_552,
    tables: 4,
    log: &[0],
    events: RESOLVE_EVENTS,
    applied: 1,
    words: TABLES,
    ..NOTHING
};

/// What makes of map-then-resolve one of version 2 whose second call is a user's write, which is allowed.
const ACCESS: Changes = &[(5, 2), (76, 4), (77, 1), (78, 1), (97, 8), (99, 0)];

static EXAMPLES: [Example; 5] = [
    NOTHING,
    RESOLVE,
    Example {
        changes: &[(5, 2)],
        version: Version::V2,
        ..RESOLVE
    },
    Example {
        changes: ACCESS,
        version: Version::V2,
        events: ACCESS_EVENTS,
        ..RESOLVE
    },
    Example {
        changes: &[(5, 2), (6, 5)],
        version: Version::V2,
        depth: Depth::Five,
        ..NOTHING
    },
];

/// Whether the trace is spelled by these bytes.
pub fn is_spelled(rt: &impl Abort, alloc: Global, trace: &Trace, bytes: &[u8]) -> bool {
    write(alloc, trace).expect(rt, "memory").as_slice() == bytes
}

/// Whether the frame of this number has this word at the index, and no other that is not 0.
fn has_word(dump: &Dump, number: u64, index: u64, word: u64) -> bool {
    let Some(words) = dump.words(number) else {
        return false;
    };
    for place in 0..512usize {
        let wanted = if place as u64 == index { word } else { 0 };
        if words.word(place) != wanted {
            return false;
        }
    }
    true
}

/// The dump is what the example says, with no other frame.
fn assert_dump(rt: &impl Abort, dump: &Dump, example: &Example) {
    assert_eq!(rt; dump.applied(), u32::from(example.applied));
    assert_eq!(rt; dump.root(), 1);
    assert_eq!(rt; dump.count(), example.words.len());
    let mut number = 0u64;
    for (index, word) in example.words {
        number = number.wrapping_add(1);
        assert!(rt; has_word(dump, number, *index, *word));
    }
    assert!(rt; dump.words(number.wrapping_add(1)).is_none());
}

/// The trace is what the example says.
fn assert_trace(rt: &impl Abort, alloc: Global, trace: &Trace, example: &Example) {
    let config = Config::new(example.depth, 1, 1, example.tables);
    assert!(rt; trace.version() == example.version);
    assert!(rt; Ok(trace.layout()) == config.map(TraceLayout::of));
    assert!(rt; trace.log() == example.log);
    assert!(rt; trace.events() == events_of(rt, alloc, example.events).as_slice());
    assert_eq!(rt; trace.dumps().len(), 1);
    for dump in trace.dumps() {
        assert_dump(rt, dump, example);
    }
}

/// Its bytes are read as what it says, and written again.
fn run(rt: &impl Abort, alloc: Global, example: &Example) {
    let first = bytes_of(rt, alloc, example.front, example.applied, example.words);
    let bytes = changed(rt, alloc, &first, example.changes);
    assert_eq!(rt; bytes.len(), example.len);
    let trace = read(alloc, &bytes).expect(rt, "a trace");
    assert_trace(rt, alloc, &trace, example);
    assert!(rt; is_spelled(rt, alloc, &trace, &bytes));
}

#[test]
fn examples(rt: HostRuntime) {
    for example in &EXAMPLES {
        run(&rt, rt.alloc(), example);
    }
}

/// Changes of the trace without calls, and the fault of each.
static CHANGES_OF_EMPTY: [(Changes, Format); 8] = [
    (&[(13, 1), (15, 1)], Format::BadCount),
    (&[(5, 0)], Format::BadVersion),
    (&[(5, 3)], Format::BadVersion),
    (&[(3, b'X')], Format::BadMagic),
    (&[(5, 1), (6, 5)], Format::BadCount),
    (&[(5, 1), (6, 3)], Format::BadCount),
    (&[(5, 2), (6, 6)], Format::BadCount),
    (&[(5, 2), (6, 3)], Format::BadCount),
];

/// Changes of map-then-resolve, and the fault of each.
static CHANGES: [(Changes, Format); 4] = [
    (&[(31, 1)], Format::BadEvent(0)),
    (&[(4247, 1)], Format::BadFrame(0, 1)),
    (&[(97, 8), (99, 0)], Format::BadEvent(3)),
    (&[(97, 9), (99, 0)], Format::BadEvent(3)),
];

/// Changes of the user's write, and the fault of each.
static CHANGES_OF_ACCESS: [(Changes, Format); 10] = [
    (&[(5, 1)], Format::BadEvent(2)),
    (&[(76, 5)], Format::BadEvent(2)),
    (&[(77, 3)], Format::BadEvent(2)),
    (&[(78, 2)], Format::BadEvent(2)),
    (&[(79, 1)], Format::BadEvent(2)),
    (&[(94, 16)], Format::BadEvent(2)),
    (&[(97, 10)], Format::BadEvent(3)),
    (&[(98, 1)], Format::BadEvent(3)),
    (&[(99, 1)], Format::BadEvent(3)),
    (&[(111, 2)], Format::BadEvent(3)),
];

/// The bytes are refused with the fault.
pub fn assert_refused(rt: &impl Abort, alloc: Global, bytes: &[u8], fault: Format) {
    let told = read(alloc, bytes).err();
    assert!(rt; told == Some(vs_types::Fail::Refused(fault)), "{fault:?}");
}

/// The bytes with each of these changes are refused with its fault.
fn refuse_all(rt: &impl Abort, alloc: Global, bytes: &[u8], cases: &[(Changes, Format)]) {
    for (changes, fault) in cases {
        assert_refused(rt, alloc, &changed(rt, alloc, bytes, *changes), *fault);
    }
}

#[test]
fn malformed_bytes(rt: HostRuntime) {
    let alloc = rt.alloc();
    let empty = bytes_of(&rt, alloc, &EMPTY, 0, ROOT);
    let first = map_then_resolve(&rt, alloc);
    let access = changed(&rt, alloc, &first, ACCESS);
    refuse_all(&rt, alloc, &empty, &CHANGES_OF_EMPTY);
    refuse_all(&rt, alloc, &first, &CHANGES);
    refuse_all(&rt, alloc, &access, &CHANGES_OF_ACCESS);
}

/// A byte too many, one too few, none, and events that are promised and do not come.
#[test]
fn lengths(rt: HostRuntime) {
    let alloc = rt.alloc();
    let mut bytes = bytes_of(&rt, alloc, &EMPTY, 0, ROOT);
    bytes.push(0).expect(&rt, "memory");
    assert_refused(&rt, alloc, &bytes, Format::Trailing);
    bytes.truncate(4139);
    assert_refused(&rt, alloc, &bytes, Format::Truncated);
    assert_refused(&rt, alloc, &[], Format::Truncated);
    let promised = changed(&rt, alloc, &EMPTY, &[(13, 1), (17, 2)]);
    assert_refused(&rt, alloc, &promised, Format::Truncated);
}

#[test]
fn bytes_cut_short_are_truncated(rt: HostRuntime) {
    let alloc = rt.alloc();
    let bytes = map_then_resolve(&rt, alloc);
    for len in 0..bytes.len() {
        if len < 200 || len % 97 == 0 {
            assert_refused(&rt, alloc, &bytes[..len], Format::Truncated);
        }
    }
}
