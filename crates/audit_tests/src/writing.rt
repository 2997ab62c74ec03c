//! Traces as they are made and written.

use crate::bytes::{EMPTY, MAPPED, ROOT, bytes_of};
use crate::events::{Asks, DONE, Item, MAP, RESOLVE, RESOLVE_EVENTS, RESOLVED, events_of};
use nr_trace::{Format, Trace, TraceLayout, Version, write};
use std::alloc::Global;
use std::process::Abort;
use vs_types::{Config, Depth};
use vs_walk::Dump;

/// The dumps of a trace.
#[derive(Clone, Copy)]
enum Dumps {
    None,
    /// One without frames.
    NoFrame,
    /// One of a root without a page.
    Root,
}

/// The parts of a trace of version 1, of one replica and one thread; and what comes before its dump, or why there is no such trace.
#[derive(Clone, Copy)]
struct Case {
    depth: Depth,
    tables: u16,
    log: &'static [u32],
    events: &'static [Item],
    dumps: Dumps,
    /// How many entries the dump has applied.
    applied: u8,
    told: Result<&'static [u8], Format>,
}

const NOTHING: Case = Case {
    depth: Depth::Four,
    tables: 1,
    log: &[],
    events: &[],
    dumps: Dumps::Root,
    applied: 0,
    told: Ok(&EMPTY),
};

/// A reply to a call that is not there.
const REPLY: Item = Item::Reply(7, 9, vs_types::Answer::Done);

/// The counts, and that reply.
const REPLIED: [u8; 44] = [
    0x4e, 0x52, 0x56, 0x54, 0, 1, 4, 1, 0, 1, 0, 1, 0, 0, 0, 0, 0, 0, 0, 1, // counts
    1, 0, 0, 0, 0, 0, 0, 7, 0, 0, 0, 9, 0, 0, 0, 0, 0, 0, 0, 0, 0, 0, 0, 0, // reply
];

static TRACES: [Case; 3] = [
    NOTHING,
    Case {
        tables: 4,
        log: &[0],
        events: RESOLVE_EVENTS,
        applied: 1,
        told: Ok(&MAPPED),
        ..NOTHING
    },
    Case {
        events: &[REPLY],
        told: Ok(&REPLIED),
        ..NOTHING
    },
];

/// A dump without frames comes after the events.
static OUT_OF_RANGE: [Case; 5] = [
    Case {
        depth: Depth::Five,
        told: Err(Format::BadCount),
        ..NOTHING
    },
    Case {
        events: &[REPLY],
        dumps: Dumps::None,
        told: Err(Format::BadCount),
        ..NOTHING
    },
    Case {
        events: &[REPLY, Item::Call(0, 1, Asks::Resolve(0))],
        told: Err(Format::BadEvent(1)),
        ..NOTHING
    },
    Case {
        events: &[
            MAP,
            DONE,
            RESOLVE,
            RESOLVED,
            Item::Call(1, 0, Asks::Resolve(0)),
        ],
        dumps: Dumps::NoFrame,
        told: Err(Format::BadEvent(4)),
        ..NOTHING
    },
    Case {
        dumps: Dumps::NoFrame,
        told: Err(Format::BadCount),
        ..NOTHING
    },
];

fn dumps_of(rt: &impl Abort, alloc: Global, dumps: Dumps, applied: u8) -> Vec<Dump> {
    let mut dump = Dump::new(alloc, u32::from(applied), 1);
    if let Dumps::Root = dumps {
        dump.push(1, &[0; 512]).expect(rt, "memory");
    }
    let mut all = Vec::new(alloc);
    if let Dumps::Root | Dumps::NoFrame = dumps {
        all.push(dump).expect(rt, "memory");
    }
    all
}

/// The trace of the parts, or why there is none.
fn made(rt: &impl Abort, alloc: Global, case: &Case) -> Result<Trace, Format> {
    let config = Config::new(case.depth, 1, 1, case.tables).expect(rt, "a configuration");
    let log = Vec::from_slice(alloc, case.log).expect(rt, "memory");
    let events = events_of(rt, alloc, case.events);
    let dumps = dumps_of(rt, alloc, case.dumps, case.applied);
    Trace::new(
        Version::V1,
        TraceLayout::of(config),
        None,
        log,
        events,
        dumps,
    )
}

/// The bytes of the trace of the parts, or why there is none.
fn written(rt: &impl Abort, alloc: Global, case: &Case) -> Result<Vec<u8>, Format> {
    let trace = made(rt, alloc, case)?;
    Ok(write(alloc, &trace).expect(rt, "memory"))
}

/// What comes of the case.
fn told(rt: &impl Abort, alloc: Global, case: &Case) -> Result<Vec<u8>, Format> {
    let front = case.told?;
    Ok(bytes_of(rt, alloc, front, case.applied, ROOT))
}

fn run(rt: &impl Abort, alloc: Global, cases: &[Case]) {
    for case in cases {
        assert!(rt; written(rt, alloc, case) == told(rt, alloc, case));
    }
}

#[test]
fn traces(rt: HostRuntime) {
    run(&rt, rt.alloc(), &TRACES);
}

#[test]
fn parts_out_of_range(rt: HostRuntime) {
    run(&rt, rt.alloc(), &OUT_OF_RANGE);
}
