//! The worked chains.

use nr_trace::{Fault, Format};
use std::alloc::{AllocError, Global};
use std::process::Abort;

/// For each frame of a page table, numbered from 1, the index of the one word that is not 0, and the word.
pub type Words = &'static [(usize, u64)];

/// A part of the bytes of a chain: some bytes, or the frames of a start or a dump.
#[derive(Clone, Copy)]
enum Part {
    Bytes(&'static [u8]),
    Frames(Words),
}

use Part::{Bytes, Frames};

/// A chain: its parts, the order of each segment that is right, and the fault of the one after those.
pub struct Case {
    pub name: &'static str,
    parts: &'static [Part],
    pub orders: &'static [&'static [u32]],
    pub fault: Option<Fault>,
}

/// A root without a page.
const ROOT: Words = &[(0, 0)];

/// The page table with the page at 0x400000, mapped to 0x1000; and with it mapped to 0x2000.
pub const TABLES: Words = &[(0, 0x2007), (0, 0x3007), (2, 0x4007), (0, 0x1007)];

const OTHER_TABLES: Words = &[(0, 0x2007), (0, 0x3007), (2, 0x4007), (0, 0x2007)];

/// One replica, one thread and four tables: a map of the page, done, and a resolve of 0x400123; and a dump.
const MAPS: Part = Bytes(&[
    0x4e, 0x52, 0x56, 0x53, 0, 1, 4, 1, 0, 1, 0, 4, 0, 0, 0, 1, 0, 0, 0, 4, 0, 0, 0, 0, // counts
    0, 0, 0, 0, // place
    0, 0, 0, 0, 0, 0, 7, 0, 0, 0, 0, 0, 0, 0x40, 0, 0, 0, 0, 0, 0, 0, 0, 0x10, 0, // call
    1, 0, 0, 0, 0, 0, 0, 0, 0, 0, 0, 0, 0, 0, 0, 0, 0, 0, 0, 0, 0, 0, 0, 0, // reply
    0, 0, 0, 0, 3, 0, 0, 0, 0, 0, 0, 0, 0, 0x40, 1, 0x23, 0, 0, 0, 0, 0, 0, 0, 0, // call
    1, 7, 0, 7, 0, 0, 0, 2, 0, 0, 0, 1, 0, 0, 0, 0, 0, 0, 0, 0, 0, 0, 0x11, 0x23, // reply
    0, 0, 0, 1, 0, 0, 0, 4, 0, 0, 0, 0, 0, 0, 0, 1, // dump
]);

/// Laid out alike: an unmap of the page, and a dump.
const UNMAPS: Part = Bytes(&[
    0x4e, 0x52, 0x56, 0x53, 0, 1, 4, 1, 0, 1, 0, 4, 0, 0, 0, 1, 0, 0, 0, 2, 0, 0, 0, 0, // counts
    0, 0, 0, 0, // place
    0, 0, 0, 0, 1, 0, 0, 0, 0, 0, 0, 0, 0, 0x40, 0, 0, 0, 0, 0, 0, 0, 0, 0, 0, // call
    1, 3, 0, 7, 0, 0, 0, 0, 0, 0, 0, 0, 0, 0, 0, 0, 0, 0, 0, 0, 0, 0, 0x10, 0, // reply
    0, 0, 0, 1, 0, 0, 0, 1, 0, 0, 0, 0, 0, 0, 0, 1, // dump
]);

/// A resolve of 0x400123 finds no page.
const FINDS_NOTHING: Part = Bytes(&[
    0x4e, 0x52, 0x56, 0x53, 0, 1, 4, 1, 0, 1, 0, 4, 0, 0, 0, 0, 0, 0, 0, 2, 0, 0, 0, 0, // counts
    0, 0, 0, 0, 3, 0, 0, 0, 0, 0, 0, 0, 0, 0x40, 1, 0x23, 0, 0, 0, 0, 0, 0, 0, 0, // call
    1, 4, 0, 0, 0, 0, 0, 0, 0, 0, 0, 0, 0, 0, 0, 0, 0, 0, 0, 0, 0, 0, 0, 0, // reply
    0, 0, 0, 0, 0, 0, 0, 0, 0, 0, 0, 0, 0, 0, 0, 0, // no dump
]);

/// A start of four frames, and a resolve of 0x400123 that finds the page.
const STARTS: Part = Bytes(&[
    0x4e, 0x52, 0x56, 0x53, 0, 1, 4, 1, 0, 1, 0, 4, 0, 0, 0, 0, 0, 0, 0, 2, 0, 0, 0, 4, // counts
    0, 0, 0, 0, 0, 0, 0, 1, // root
]);

const FINDS_THE_PAGE: Part = Bytes(&[
    0, 0, 0, 0, 3, 0, 0, 0, 0, 0, 0, 0, 0, 0x40, 1, 0x23, 0, 0, 0, 0, 0, 0, 0, 0, // call
    1, 7, 0, 7, 0, 0, 0, 0, 0, 0, 0, 0, 0, 0, 0, 0, 0, 0, 0, 0, 0, 0, 0x11, 0x23, // reply
    0, 0, 0, 0, 0, 0, 0, 0, 0, 0, 0, 0, 0, 0, 0, 0, // no dump
]);

/// One replica, one thread and four tables: nothing is recorded.
pub const NOTHING_RECORDED: [u8; 40] = [
    0x4e, 0x52, 0x56, 0x53, 0, 1, 4, 1, 0, 1, 0, 4, 0, 0, 0, 0, 0, 0, 0, 0, // counts
    0, 0, 0, 0, 0, 0, 0, 0, 0, 0, 0, 0, 0, 0, 0, 0, 0, 0, 0, 0, // no start, no dump
];

const NOTHING: Part = Bytes(&NOTHING_RECORDED);

/// All but the last byte of that.
const NOTHING_CUT: Part = Bytes(&[
    0x4e, 0x52, 0x56, 0x53, 0, 1, 4, 1, 0, 1, 0, 4, 0, 0, 0, 0, 0, 0, 0, 0, 0, 0, 0, 0, 0, 0, 0, 0,
    0, 0, 0, 0, 0, 0, 0, 0, 0, 0, 0,
]);

/// Nine tables in place of four.
const OTHER_LIMIT: Part = Bytes(&[
    0x4e, 0x52, 0x56, 0x53, 0, 1, 4, 1, 0, 1, 0, 9, 0, 0, 0, 0, 0, 0, 0, 0, 0, 0, 0, 0, 0, 0, 0, 0,
    0, 0, 0, 0, 0, 0, 0, 0, 0, 0, 0, 0,
]);

/// A reply to call 0, which this segment doesn't have.
const REPLIES: Part = Bytes(&[
    0x4e, 0x52, 0x56, 0x53, 0, 1, 4, 1, 0, 1, 0, 4, 0, 0, 0, 0, 0, 0, 0, 1, 0, 0, 0, 0, // counts
    1, 0, 0, 0, 0, 0, 0, 0, 0, 0, 0, 0, 0, 0, 0, 0, 0, 0, 0, 0, 0, 0, 0, 0, // reply
    0, 0, 0, 0, 0, 0, 0, 0, 0, 0, 0, 0, 0, 0, 0, 0, // no dump
]);

/// A user's write of 0x400123 through a TLB by thread 9 finds no page.
const TOUCHES_NOTHING: Part = Bytes(&[
    0x4e, 0x52, 0x56, 0x53, 0, 1, 4, 1, 0xff, 0xff, 0xff, 0xff, 0, 0, 0, 0, 0, 0, 0, 2, 0, 0, 0, 0, // counts
    0, 0, 0, 9, 5, 1, 1, 0, 0, 0, 0, 0, 0, 0x40, 1, 0x23, 0, 0, 0, 0, 0, 0, 0, 0, // call
    1, 9, 0, 0, 0, 0, 0, 0, 0, 0, 0, 0, 0, 0, 0, 0, 0, 0, 0, 0, 0, 0, 0, 6, // reply
    0, 0, 0, 0, 0, 0, 0, 0, 0, 0, 0, 0, 0, 0, 0, 0, // no dump
]);

/// A read of it was allowed, and the page was mapped later.
const FORESEES_A_MAP: Part = Bytes(&[
    0x4e, 0x52, 0x56, 0x53, 0, 1, 4, 1, 0xff, 0xff, 0xff, 0xff, 0, 0, 0, 1, 0, 0, 0, 4, 0, 0, 0, 0, // counts
    0, 0, 0, 2, // place
    0, 0, 0, 1, 5, 0, 0, 0, 0, 0, 0, 0, 0, 0x40, 1, 0x23, 0, 0, 0, 0, 0, 0, 0, 0, // call
    1, 8, 0, 0, 0, 0, 0, 0, 0, 0, 0, 0, 0, 0, 0, 0, 0, 0, 0, 0, 0, 0, 0x11, 0x23, // reply
    0, 0, 0, 0, 0, 0, 7, 0, 0, 0, 0, 0, 0, 0x40, 0, 0, 0, 0, 0, 0, 0, 0, 0x10, 0, // call
    1, 0, 0, 0, 0, 0, 0, 2, 0, 0, 0, 0, 0, 0, 0, 0, 0, 0, 0, 0, 0, 0, 0, 0, // reply
    0, 0, 0, 0, 0, 0, 0, 0, 0, 0, 0, 0, 0, 0, 0, 0, // no dump
]);

/// Nobody answers a map of the page to 0x1000, its unmap, another map to 0x2000 and its unmap; and a read through a TLB.
const OPEN_UPDATES: Part = Bytes(&[
    0x4e, 0x52, 0x56, 0x53, 0, 1, 4, 1, 0xff, 0xff, 0xff, 0xff, 0, 0, 0, 4, 0, 0, 0, 6, 0, 0, 0, 0, // counts
    0, 0, 0, 0, 0, 0, 0, 1, 0, 0, 0, 2, 0, 0, 0, 3, // places
    0, 0, 0, 0, 0, 0, 7, 0, 0, 0, 0, 0, 0, 0x40, 0, 0, 0, 0, 0, 0, 0, 0, 0x10, 0, // call
    0, 0, 0, 1, 1, 0, 0, 0, 0, 0, 0, 0, 0, 0x40, 0, 0, 0, 0, 0, 0, 0, 0, 0, 0, // call
    0, 0, 0, 2, 0, 0, 7, 0, 0, 0, 0, 0, 0, 0x40, 0, 0, 0, 0, 0, 0, 0, 0, 0x20, 0, // call
    0, 0, 0, 3, 1, 0, 0, 0, 0, 0, 0, 0, 0, 0x40, 0, 0, 0, 0, 0, 0, 0, 0, 0, 0, // call
    0, 0, 0, 4, 5, 0, 0, 0, 0, 0, 0, 0, 0, 0x40, 1, 0x23, 0, 0, 0, 0, 0, 0, 0, 0, // call
]);

const FINDS_THE_SECOND: Part = Bytes(&[
    1, 8, 0, 0, 0, 0, 0, 4, 0, 0, 0, 0, 0, 0, 0, 0, 0, 0, 0, 0, 0, 0, 0x21, 0x23, // reply
    0, 0, 0, 0, 0, 0, 0, 0, 0, 0, 0, 0, 0, 0, 0, 0, // no dump
]);

const FINDS_A_THIRD: Part = Bytes(&[
    1, 8, 0, 0, 0, 0, 0, 4, 0, 0, 0, 0, 0, 0, 0, 0, 0, 0, 0, 0, 0, 0, 0x31, 0x23, // reply
    0, 0, 0, 0, 0, 0, 0, 0, 0, 0, 0, 0, 0, 0, 0, 0, // no dump
]);

/// Laid out as the map: the page's memory is given to somebody else.
const RELEASES_THE_PAGE: Part = Bytes(&[
    0x4e, 0x52, 0x56, 0x53, 0, 1, 4, 1, 0, 1, 0, 4, 0, 0, 0, 0, 0, 0, 0, 2, 0, 0, 0, 0, // counts
    0, 0, 0, 0, 6, 0, 0, 0, 0, 0, 0, 0, 0, 0, 0, 0, 0, 0, 0, 0, 0, 0, 0x10, 0, // call
    1, 0, 0, 0, 0, 0, 0, 0, 0, 0, 0, 0, 0, 0, 0, 0, 0, 0, 0, 0, 0, 0, 0, 0, // reply
    0, 0, 0, 0, 0, 0, 0, 0, 0, 0, 0, 0, 0, 0, 0, 0, // no dump
]);

/// The memory behind it, and the reply isn't done.
const RELEASE_IS_FULL: Part = Bytes(&[
    0x4e, 0x52, 0x56, 0x53, 0, 1, 4, 1, 0, 1, 0, 4, 0, 0, 0, 0, 0, 0, 0, 2, 0, 0, 0, 0, // counts
    0, 0, 0, 0, 6, 0, 0, 0, 0, 0, 0, 0, 0, 0, 0, 0, 0, 0, 0, 0, 0, 0, 0x20, 0, // call
    1, 4, 0, 0, 0, 0, 0, 0, 0, 0, 0, 0, 0, 0, 0, 0, 0, 0, 0, 0, 0, 0, 0, 0, // reply
    0, 0, 0, 0, 0, 0, 0, 0, 0, 0, 0, 0, 0, 0, 0, 0, // no dump
]);

/// Two replicas: a map of the page at the first one, done; and a read of it through a TLB.
const MAPS_AT_THE_FIRST: Part = Bytes(&[
    0x4e, 0x52, 0x56, 0x53, 0, 1, 4, 2, 0, 2, 0, 4, 0, 0, 0, 1, 0, 0, 0, 4, 0, 0, 0, 0, // counts
    0, 0, 0, 0, // place
    0, 0, 0, 0, 0, 0, 7, 0, 0, 0, 0, 0, 0, 0x40, 0, 0, 0, 0, 0, 0, 0, 0, 0x10, 0, // call
    1, 0, 0, 0, 0, 0, 0, 0, 0, 0, 0, 0, 0, 0, 0, 0, 0, 0, 0, 0, 0, 0, 0, 0, // reply
]);

const TOUCHES_AT_THE_FIRST: Part = Bytes(&[
    0, 0, 0, 1, 5, 0, 0, 0, 0, 0, 0, 0, 0, 0x40, 1, 0x23, 0, 0, 0, 0, 0, 0, 0, 0, // call
]);

const TOUCHES_AT_THE_SECOND: Part = Bytes(&[
    0, 1, 0, 1, 5, 0, 0, 0, 0, 0, 0, 0, 0, 0x40, 1, 0x23, 0, 0, 0, 0, 0, 0, 0, 0, // call
]);

/// It finds no page.
const FAULTS: Part = Bytes(&[
    1, 9, 0, 0, 0, 0, 0, 2, 0, 0, 0, 0, 0, 0, 0, 0, 0, 0, 0, 0, 0, 0, 0, 0, // reply
    0, 0, 0, 0, 0, 0, 0, 0, 0, 0, 0, 0, 0, 0, 0, 0, // no dump
    0, 0, 0, 0, 0, 0, 0, 0, 0, 0, 0, 0, 0, 0, 0, 0, // no dump
]);

const TRUNCATED: Fault = Fault::Format(Format::Truncated);

const BAD_MAGIC: Fault = Fault::Format(Format::BadMagic);

const BAD_VERSION: Fault = Fault::Format(Format::BadVersion);

const BAD_CHAIN: Fault = Fault::Format(Format::BadChain);

/// Each chain.
pub static CASES: [Case; 22] = [
    Case {
        name: "two segments",
        parts: &[MAPS, Frames(TABLES), UNMAPS, Frames(ROOT)],
        orders: &[&[0, 2], &[0]],
        fault: None,
    },
    Case {
        name: "the second begins where the first ended",
        parts: &[MAPS, Frames(TABLES), STARTS, Frames(TABLES), FINDS_THE_PAGE],
        orders: &[&[0, 2], &[0]],
        fault: None,
    },
    Case {
        name: "the second begins anew",
        parts: &[MAPS, Frames(TABLES), FINDS_NOTHING],
        orders: &[&[0, 2]],
        fault: Some(Fault::WrongAnswer(0)),
    },
    Case {
        name: "the second begins elsewhere",
        parts: &[
            MAPS,
            Frames(TABLES),
            STARTS,
            Frames(OTHER_TABLES),
            FINDS_THE_PAGE,
        ],
        orders: &[&[0, 2]],
        fault: Some(Fault::StartDiffers(0x400000)),
    },
    Case {
        name: "begins with a page",
        parts: &[STARTS, Frames(TABLES), FINDS_THE_PAGE],
        orders: &[&[0]],
        fault: None,
    },
    Case {
        name: "a reply to a call of the segment before",
        parts: &[MAPS, Frames(TABLES), REPLIES],
        orders: &[&[0, 2]],
        fault: Some(Fault::NoSuchCall(0)),
    },
    Case {
        name: "other tables",
        parts: &[MAPS, Frames(TABLES), OTHER_LIMIT],
        orders: &[&[0, 2]],
        fault: Some(BAD_CHAIN),
    },
    Case {
        name: "cut in the second",
        parts: &[MAPS, Frames(TABLES), NOTHING_CUT],
        orders: &[&[0, 2]],
        fault: Some(TRUNCATED),
    },
    Case {
        name: "nothing at all",
        parts: &[NOTHING],
        orders: &[&[]],
        fault: None,
    },
    Case {
        name: "a byte behind it",
        parts: &[NOTHING, Bytes(&[0])],
        orders: &[&[]],
        fault: Some(TRUNCATED),
    },
    Case {
        name: "no bytes",
        parts: &[],
        orders: &[],
        fault: Some(TRUNCATED),
    },
    Case {
        name: "a touch of nothing",
        parts: &[TOUCHES_NOTHING],
        orders: &[&[]],
        fault: None,
    },
    Case {
        name: "a touch that foresees a map",
        parts: &[FORESEES_A_MAP],
        orders: &[],
        fault: Some(Fault::Stale(0)),
    },
    Case {
        name: "a touch of a page between open updates",
        parts: &[OPEN_UPDATES, FINDS_THE_SECOND],
        orders: &[&[0, 1, 2, 3]],
        fault: None,
    },
    Case {
        name: "a touch of a page that there never was",
        parts: &[OPEN_UPDATES, FINDS_A_THIRD],
        orders: &[],
        fault: Some(Fault::Stale(4)),
    },
    Case {
        name: "a release of a page that is there",
        parts: &[MAPS, Frames(TABLES), RELEASES_THE_PAGE],
        orders: &[&[0, 2]],
        fault: Some(Fault::Reachable(0)),
    },
    Case {
        name: "a release of a page that is gone",
        parts: &[
            MAPS,
            Frames(TABLES),
            UNMAPS,
            Frames(ROOT),
            RELEASES_THE_PAGE,
        ],
        orders: &[&[0, 2], &[0], &[]],
        fault: None,
    },
    Case {
        name: "a release of other memory, answered otherwise",
        parts: &[MAPS, Frames(TABLES), RELEASE_IS_FULL],
        orders: &[&[0, 2]],
        fault: Some(Fault::Reachable(0)),
    },
    Case {
        name: "a fault by a table that lags",
        parts: &[MAPS_AT_THE_FIRST, TOUCHES_AT_THE_SECOND, FAULTS],
        orders: &[&[0]],
        fault: None,
    },
    Case {
        name: "a fault at the replica that has the page",
        parts: &[MAPS_AT_THE_FIRST, TOUCHES_AT_THE_FIRST, FAULTS],
        orders: &[],
        fault: Some(Fault::Stale(2)),
    },
    Case {
        name: "version 2",
        parts: &[Bytes(&[0x4e, 0x52, 0x56, 0x53, 0, 2, 4, 1, 0, 1, 0, 4])],
        orders: &[],
        fault: Some(BAD_VERSION),
    },
    Case {
        name: "a fault before what is cut",
        parts: &[MAPS, Frames(TABLES), Bytes(b"NRVT")],
        orders: &[&[0, 2]],
        fault: Some(BAD_MAGIC),
    },
];

/// Adds a frame whose words are 0, but for one.
fn push_frame(bytes: &mut Vec<u8>, number: u64, index: usize, word: u64) -> Result<(), AllocError> {
    bytes.extend_from_slice(&number.to_be_bytes())?;
    for place in 0..512usize {
        let own = if place == index { word } else { 0 };
        bytes.extend_from_slice(&own.to_be_bytes())?;
    }
    Ok(())
}

/// Adds the frames, numbered from 1.
pub fn push_frames(bytes: &mut Vec<u8>, words: Words) -> Result<(), AllocError> {
    let mut number = 0u64;
    for (index, word) in words {
        number = number.wrapping_add(1);
        push_frame(bytes, number, *index, *word)?;
    }
    Ok(())
}

/// The bytes of a chain.
pub fn bytes_of(rt: &impl Abort, alloc: Global, case: &Case) -> Vec<u8> {
    let mut bytes = Vec::new(alloc);
    for part in case.parts {
        let added = match part {
            Bytes(some) => bytes.extend_from_slice(some),
            Frames(words) => push_frames(&mut bytes, *words),
        };
        added.expect(rt, "memory");
    }
    bytes
}
