//! Traces as bytes, each with the order or the fault that an audit finds.

use nr_trace::{Fault, Format};

/// The bytes of an event, but for others at some indexes.
#[derive(Clone, Copy)]
pub struct Event(pub [u8; 24], pub &'static [(usize, u8)]);

/// A dump: how many entries it has applied, its root, and of each frame, numbered from 1, the one word that is not 0.
#[derive(Clone, Copy)]
pub struct Table {
    pub applied: u8,
    pub root: u64,
    pub words: &'static [(u64, u64)],
}

/// A trace of 3 threads, and the order or the fault that an audit finds.
#[derive(Clone, Copy)]
pub struct Case {
    pub name: &'static str,
    /// The version, the levels and the limit of tables.
    pub config: [u8; 3],
    pub log: &'static [u8],
    pub events: &'static [Event],
    pub dumps: &'static [Table],
    pub verdict: Result<&'static [u32], Fault>,
}

/// Thread 0 maps 4,096 bytes at 0x400000 to 0x1000 with all rights.
const MAP: [u8; 24] = [
    0, 0, 0, 0, 0, 0, 7, 0, 0, 0, 0, 0, 0, 0x40, 0, 0, 0, 0, 0, 0, 0, 0, 0x10, 0,
];

/// Call 0 is done, at place 0.
const DONE: [u8; 24] = [
    1, 0, 0, 0, 0, 0, 0, 0, 0, 0, 0, 0, 0, 0, 0, 0, 0, 0, 0, 0, 0, 0, 0, 0,
];

/// Thread 0 asks for 0x400123.
pub const RESOLVE: [u8; 24] = [
    0, 0, 0, 0, 3, 0, 0, 0, 0, 0, 0, 0, 0, 0x40, 0x01, 0x23, 0, 0, 0, 0, 0, 0, 0, 0,
];

/// Thread 0 asks whether a user may write to 0x400123.
const ACCESS: [u8; 24] = [
    0, 0, 0, 0, 4, 1, 1, 0, 0, 0, 0, 0, 0, 0x40, 0x01, 0x23, 0, 0, 0, 0, 0, 0, 0, 0,
];

/// Call 2 saw one entry, and found its address mapped to 0x1123.
pub const MAPPED: [u8; 24] = [
    1, 7, 0, 7, 0, 0, 0, 2, 0, 0, 0, 1, 0, 0, 0, 0, 0, 0, 0, 0, 0, 0, 0x11, 0x23,
];

/// Call 2 saw one entry, and is allowed at 0x1123.
const ALLOWED: [u8; 24] = [
    1, 8, 0, 0, 0, 0, 0, 2, 0, 0, 0, 1, 0, 0, 0, 0, 0, 0, 0, 0, 0, 0, 0x11, 0x23,
];

/// Call 2 saw one entry, and has the page fault of a user's write to a page that is present.
const FAULT: [u8; 24] = [
    1, 9, 0, 0, 0, 0, 0, 2, 0, 0, 0, 1, 0, 0, 0, 0, 0, 0, 0, 0, 0, 0, 0, 7,
];

/// Call 2 saw no entry, and found its address not mapped.
pub const NOT_MAPPED: [u8; 24] = [
    1, 4, 0, 0, 0, 0, 0, 2, 0, 0, 0, 0, 0, 0, 0, 0, 0, 0, 0, 0, 0, 0, 0, 0,
];

/// Thread 2 unmaps 0x400000.
pub const UNMAP: [u8; 24] = [
    0, 0, 0, 2, 1, 0, 0, 0, 0, 0, 0, 0, 0, 0x40, 0, 0, 0, 0, 0, 0, 0, 0, 0, 0,
];

/// Thread 1 unmaps 0x500000.
const UNMAP_OTHER: [u8; 24] = [
    0, 0, 0, 1, 1, 0, 0, 0, 0, 0, 0, 0, 0, 0x50, 0, 0, 0, 0, 0, 0, 0, 0, 0, 0,
];

/// The page table without pages.
pub const EMPTY: Table = Table {
    applied: 0,
    root: 1,
    words: &[(0, 0)],
};

/// The page table with the page of `MAP`.
const ONE_PAGE: Table = Table {
    applied: 1,
    root: 1,
    words: &[(0, 0x2007), (0, 0x3007), (2, 0x4007), (0, 0x1007)],
};

/// The same with other numbers of applied entries.
pub const EMPTY_LATE: Table = Table {
    applied: 1,
    ..EMPTY
};

pub const PAGE_EARLY: Table = Table {
    applied: 0,
    ..ONE_PAGE
};

/// A map, and a resolve that sees its page.
const MAP_THEN_RESOLVE: &[Event] = &[
    Event(MAP, &[]),
    Event(DONE, &[]),
    Event(RESOLVE, &[]),
    Event(MAPPED, &[]),
];

/// The same with a user's write in place of the resolve.
const MAP_THEN_ACCESS: &[Event] = &[
    Event(MAP, &[]),
    Event(DONE, &[]),
    Event(ACCESS, &[]),
    Event(ALLOWED, &[]),
];

/// A map without an answer, and a resolve of thread 1 that sees its page.
const MAP_UNANSWERED: &[Event] = &[
    Event(MAP, &[]),
    Event(RESOLVE, &[(3, 1)]),
    Event(MAPPED, &[(7, 1)]),
];

const NO_CALLS: Case = Case {
    name: "no calls",
    config: [1, 4, 4],
    log: &[],
    events: &[],
    dumps: &[EMPTY],
    verdict: Ok(&[]),
};

pub const RIGHT: Case = Case {
    name: "map then resolve",
    config: [1, 4, 4],
    log: &[0],
    events: MAP_THEN_RESOLVE,
    dumps: &[ONE_PAGE],
    verdict: Ok(&[0, 2]),
};

/// Orders, and calls that came too early.
pub static ORDERS: [Case; 7] = [
    NO_CALLS,
    RIGHT,
    Case {
        name: "two tables too many",
        config: [1, 4, 3],
        verdict: Err(Fault::WrongAnswer(0)),
        ..RIGHT
    },
    Case {
        name: "reads before and after an update",
        events: &[
            Event(MAP, &[]),
            Event(RESOLVE, &[(3, 1)]),
            Event(RESOLVE, &[(3, 2)]),
            Event(DONE, &[]),
            Event(MAPPED, &[(7, 1)]),
            Event(NOT_MAPPED, &[]),
        ],
        verdict: Ok(&[2, 0, 1]),
        ..RIGHT
    },
    Case {
        name: "a stale read is early",
        events: &[
            Event(MAP, &[]),
            Event(RESOLVE, &[(3, 1)]),
            Event(MAPPED, &[(7, 1)]),
            Event(RESOLVE, &[(3, 2), (1, 1)]),
            Event(NOT_MAPPED, &[(7, 3)]),
        ],
        dumps: &[EMPTY, EMPTY],
        verdict: Err(Fault::Early(3)),
        ..RIGHT
    },
    Case {
        name: "an unanswered update is left out",
        events: &[
            Event(MAP, &[]),
            Event(RESOLVE, &[(3, 1)]),
            Event(UNMAP, &[]),
            Event(MAPPED, &[(7, 1)]),
        ],
        verdict: Ok(&[0, 1]),
        ..RIGHT
    },
    Case {
        name: "an unanswered update is early",
        log: &[2, 0],
        events: &[
            Event(MAP, &[]),
            Event(DONE, &[(11, 1)]),
            Event(UNMAP_OTHER, &[]),
        ],
        dumps: &[EMPTY],
        verdict: Err(Fault::Early(2)),
        ..RIGHT
    },
];

/// The versions of the format and their levels.
pub static FORMATS: [Case; 7] = [
    Case {
        name: "map then resolve in version 2",
        config: [2, 4, 4],
        verdict: Ok(&[0, 2]),
        ..RIGHT
    },
    Case {
        name: "an access is allowed",
        config: [2, 4, 4],
        events: MAP_THEN_ACCESS,
        verdict: Ok(&[0, 2]),
        ..RIGHT
    },
    Case {
        name: "an access in version 1",
        events: MAP_THEN_ACCESS,
        verdict: Err(Fault::Format(Format::BadEvent(2))),
        ..RIGHT
    },
    Case {
        name: "an access has a fault",
        config: [2, 4, 4],
        events: &[
            Event(MAP, &[]),
            Event(DONE, &[]),
            Event(ACCESS, &[]),
            Event(FAULT, &[]),
        ],
        verdict: Err(Fault::WrongAnswer(2)),
        ..RIGHT
    },
    Case {
        name: "no calls at five levels",
        config: [2, 5, 4],
        verdict: Ok(&[]),
        ..NO_CALLS
    },
    Case {
        name: "a large page in the root of five levels",
        config: [2, 5, 4],
        dumps: &[Table {
            words: &[(0, 0x87)],
            ..EMPTY
        }],
        verdict: Err(Fault::ReservedBit(0, 1, 0)),
        ..NO_CALLS
    },
    Case {
        name: "an event of another kind",
        events: &[Event(MAP, &[(7, 1)])],
        verdict: Err(Fault::Format(Format::BadEvent(0))),
        ..NO_CALLS
    },
];

/// One fault each of the calls and of the log.
pub static CALLS: [Case; 10] = [
    Case {
        name: "a thread's call is open",
        events: &[
            Event(MAP, &[]),
            Event(RESOLVE, &[]),
            Event(MAPPED, &[(7, 1)]),
        ],
        verdict: Err(Fault::ThreadOpen(1)),
        ..RIGHT
    },
    Case {
        name: "a reply to a reply",
        events: &[
            Event(MAP, &[]),
            Event(DONE, &[]),
            Event(RESOLVE, &[]),
            Event(MAPPED, &[(7, 1)]),
        ],
        verdict: Err(Fault::NoSuchCall(3)),
        ..RIGHT
    },
    Case {
        name: "a second reply",
        events: &[
            Event(MAP, &[]),
            Event(DONE, &[]),
            Event(RESOLVE, &[]),
            Event(MAPPED, &[(7, 0)]),
        ],
        verdict: Err(Fault::AnsweredTwice(3)),
        ..RIGHT
    },
    Case {
        name: "a right trace, and a second reply with another answer",
        events: &[
            Event(MAP, &[]),
            Event(DONE, &[]),
            Event(RESOLVE, &[]),
            Event(MAPPED, &[]),
            Event(NOT_MAPPED, &[(11, 1)]),
        ],
        verdict: Err(Fault::AnsweredTwice(4)),
        ..RIGHT
    },
    Case {
        name: "a reply before its call",
        events: &[
            Event(MAP, &[]),
            Event(DONE, &[]),
            Event(MAPPED, &[(7, 3)]),
            Event(RESOLVE, &[]),
        ],
        verdict: Err(Fault::NoSuchCall(2)),
        ..RIGHT
    },
    Case {
        name: "another place",
        events: &[
            Event(MAP, &[]),
            Event(DONE, &[(11, 1)]),
            Event(RESOLVE, &[]),
            Event(MAPPED, &[]),
        ],
        verdict: Err(Fault::NotPlaced(1)),
        ..RIGHT
    },
    Case {
        name: "a read past the log",
        events: &[
            Event(MAP, &[]),
            Event(DONE, &[]),
            Event(RESOLVE, &[]),
            Event(MAPPED, &[(11, 2)]),
        ],
        verdict: Err(Fault::PastLog(3)),
        ..RIGHT
    },
    Case {
        name: "another physical address",
        events: &[
            Event(MAP, &[]),
            Event(DONE, &[]),
            Event(RESOLVE, &[]),
            Event(MAPPED, &[(23, 0x24)]),
        ],
        verdict: Err(Fault::WrongAnswer(2)),
        ..RIGHT
    },
    Case {
        name: "a read in the log",
        log: &[2],
        verdict: Err(Fault::NotAnUpdate(0)),
        ..RIGHT
    },
    Case {
        name: "an update twice in the log",
        log: &[0, 0],
        verdict: Err(Fault::PlacedTwice(1)),
        ..RIGHT
    },
];

/// Dumps with a fault or without.
pub static DUMPS: [Case; 14] = [
    Case {
        name: "a prefix past the log",
        dumps: &[Table {
            applied: 2,
            ..ONE_PAGE
        }],
        verdict: Err(Fault::PrefixPastLog(0)),
        ..RIGHT
    },
    Case {
        name: "a prefix too short",
        dumps: &[Table {
            applied: 0,
            ..ONE_PAGE
        }],
        verdict: Err(Fault::PrefixShort(0)),
        ..RIGHT
    },
    Case {
        name: "ignored bits",
        dumps: &[Table {
            applied: 1,
            words: &[
                (0, 0x2007),
                (0, 0x3007),
                (2, 0x4007),
                (0, 0x7ff0_0000_0000_1fff),
            ],
            ..EMPTY
        }],
        verdict: Ok(&[0, 2]),
        ..RIGHT
    },
    Case {
        name: "fewer rights",
        dumps: &[Table {
            applied: 1,
            words: &[(0, 0x2007), (0, 0x3007), (2, 0x4003), (0, 0x1007)],
            ..EMPTY
        }],
        verdict: Err(Fault::Differs(0, 0x400000)),
        ..RIGHT
    },
    Case {
        name: "a reserved bit",
        dumps: &[Table {
            words: &[(0, 0x2007), (0, 0x3007), (1, 0x202087)],
            ..EMPTY
        }],
        verdict: Err(Fault::ReservedBit(0, 3, 1)),
        ..NO_CALLS
    },
    Case {
        name: "a large page",
        dumps: &[Table {
            words: &[(0, 0x2007), (0, 0x3007), (1, 0x201087)],
            ..EMPTY
        }],
        verdict: Err(Fault::Differs(0, 0x200000)),
        ..NO_CALLS
    },
    Case {
        name: "a frame reached twice",
        dumps: &[Table {
            words: &[(0, 0x1007)],
            ..EMPTY
        }],
        verdict: Err(Fault::SharedFrame(0, 1)),
        ..NO_CALLS
    },
    Case {
        name: "a frame that is not there",
        dumps: &[Table {
            words: &[(0, 0x2007)],
            ..EMPTY
        }],
        verdict: Err(Fault::MissingFrame(0, 2)),
        ..NO_CALLS
    },
    Case {
        name: "a frame that is not reached",
        dumps: &[Table {
            words: &[(0, 0), (0, 0)],
            ..EMPTY
        }],
        verdict: Err(Fault::StrayFrame(0, 2)),
        ..NO_CALLS
    },
    Case {
        name: "a root that is not there",
        dumps: &[Table {
            root: 5,
            words: &[(0, 0)],
            ..EMPTY
        }],
        verdict: Err(Fault::MissingFrame(0, 5)),
        ..NO_CALLS
    },
    // of two faulty dumps the one of the lower replica is reported, whichever has applied more
    Case {
        name: "a page before the map, none after it",
        events: MAP_UNANSWERED,
        dumps: &[ONE_PAGE, PAGE_EARLY, EMPTY_LATE],
        verdict: Err(Fault::Differs(1, 0x400000)),
        ..RIGHT
    },
    Case {
        name: "no page after the map, one before it",
        events: MAP_UNANSWERED,
        dumps: &[ONE_PAGE, EMPTY_LATE, PAGE_EARLY],
        verdict: Err(Fault::Differs(1, 0x400000)),
        ..RIGHT
    },
    // a later replica's dump may have applied fewer entries
    Case {
        name: "a shorter prefix",
        events: MAP_UNANSWERED,
        dumps: &[ONE_PAGE, EMPTY],
        verdict: Ok(&[0, 1]),
        ..RIGHT
    },
    Case {
        name: "a shorter prefix between",
        events: MAP_UNANSWERED,
        dumps: &[ONE_PAGE, EMPTY, ONE_PAGE],
        verdict: Ok(&[0, 1]),
        ..RIGHT
    },
];
