//! Operations, requests, entries and configurations: which are well formed, and what is said of them.

use crate::cases::Call;
use crate::values::{EXEC, WRITE};
use std::alloc::{AllocError, AllocFailed};
use std::process::Abort;
use vs_types::{
    Access, Action, Answer, BadConfig, BadOp, Config, Depth, Entry, Fail, LogEntry, Meaning,
    Memory, Mode, Op, Query, Request, Rights, Size, index_at,
};

const FOUR: Depth = Depth::Four;

const FIVE: Depth = Depth::Five;

/// Calls that are not well formed, and why.
static REFUSED: [(Depth, Call, BadOp); 11] = [
    (
        FOUR,
        Call::Map(0x800000000001, Size::K4, 1, WRITE),
        BadOp::NotCanonical,
    ),
    (
        FOUR,
        Call::Map(0x1000, Size::M2, 0, WRITE),
        BadOp::Unaligned,
    ),
    (
        FOUR,
        Call::Map(0x200000, Size::M2, 0x1000, WRITE),
        BadOp::PhysUnaligned,
    ),
    (
        FOUR,
        Call::Map(0, Size::K4, 0x8000000000000, WRITE),
        BadOp::PhysRange,
    ),
    (FOUR, Call::Unmap(0x800000000000), BadOp::NotCanonical),
    (FOUR, Call::Unmap(0xFFF), BadOp::Unaligned),
    (FIVE, Call::Unmap(0x100000000000000), BadOp::NotCanonical),
    (
        FOUR,
        Call::Protect(0xFFFF7FFFFFFFF000, WRITE),
        BadOp::NotCanonical,
    ),
    (FOUR, Call::Protect(0x1001, WRITE), BadOp::Unaligned),
    (FOUR, Call::Resolve(0x800000000000), BadOp::NotCanonical),
    (
        FIVE,
        Call::Access(0x100000000000000, Mode::User, Access::Write),
        BadOp::NotCanonical,
    ),
];

/// Calls that are well formed at a depth, and whether they are with four levels.
static UPDATES: [(Depth, Call, bool); 6] = [
    (
        FOUR,
        Call::Map(0, Size::K4, 0x7FFFFFFFFF000, Rights::NONE),
        true,
    ),
    (FOUR, Call::Unmap(0xFFFF800000000000), true),
    (FOUR, Call::Protect(0x1000, WRITE), true),
    (
        FIVE,
        Call::Map(0x400000, Size::K4, 0x1000, Rights::ALL),
        true,
    ),
    (FIVE, Call::Unmap(0xFF00000000000000), false),
    (FIVE, Call::Protect(0x1000, WRITE), true),
];

static READS: [(Depth, Call, bool); 3] = [
    (FOUR, Call::Resolve(0x7FFFFFFFFFFF), true),
    (FIVE, Call::Resolve(0xFFFFFFFFFFFFFF), false),
    (
        FIVE,
        Call::Access(0x400123, Mode::User, Access::Fetch),
        true,
    ),
];

#[test]
fn operations_not_well_formed(rt: HostRuntime) {
    for (depth, call, why) in &REFUSED {
        assert!(rt; call.request(*depth) == Err(*why));
    }
}

/// The call that an operation makes, and whether it fits four levels and five.
fn told(op: Op) -> (Call, bool, bool) {
    let call = match op.action() {
        Action::Map(page) => Call::Map(page.base, page.size, page.phys, page.rights),
        Action::Unmap(base) => Call::Unmap(base),
        Action::Protect(base, rights) => Call::Protect(base, rights),
    };
    (call, op.fits(FOUR), op.fits(FIVE))
}

/// A call is well formed, and is asked for as it was made. It has the fields that make it.
fn is_asked(rt: &impl Abort, depth: Depth, call: Call, fits_four: bool) {
    let request = call.request(depth).expect(rt, "a well-formed call");
    let asked = match request.query() {
        Query::Update(op) => told(op),
        Query::Resolve(address) => (Call::Resolve(address), fits_four, true),
        Query::Access(address, mode, access) => {
            (Call::Access(address, mode, access), fits_four, true)
        }
    };
    assert!(rt; asked == (call, fits_four, true));
    assert!(rt; request.fits(FOUR) == fits_four && request.fits(FIVE));
    assert!(rt; Request::of_fields(FIVE, request.fields()) == Some(request));
}

#[test]
fn operations(rt: HostRuntime) {
    for (depth, call, fits_four) in &UPDATES {
        is_asked(&rt, *depth, *call, *fits_four);
    }
}

#[test]
fn requests(rt: HostRuntime) {
    for (depth, call, fits_four) in &READS {
        is_asked(&rt, *depth, *call, *fits_four);
    }
}

const WRITTEN: Answer = Answer::Mapped(0x1123, Size::K4, WRITE);

const RUN: Answer = Answer::Mapped(0x1123, Size::K4, EXEC);

const ALLOWED: Answer = Answer::Allowed(0x1123);

/// What a resolve answered, an access, and its answer.
static ACCESSES: [(Answer, Mode, Access, Answer); 10] = [
    (WRITTEN, Mode::Supervisor, Access::Write, ALLOWED),
    (WRITTEN, Mode::User, Access::Read, Answer::Fault(5)),
    (WRITTEN, Mode::User, Access::Write, Answer::Fault(7)),
    (WRITTEN, Mode::Supervisor, Access::Fetch, Answer::Fault(17)),
    (WRITTEN, Mode::User, Access::Fetch, Answer::Fault(21)),
    (
        Answer::NotMapped,
        Mode::Supervisor,
        Access::Read,
        Answer::Fault(0),
    ),
    (
        Answer::NotMapped,
        Mode::User,
        Access::Write,
        Answer::Fault(6),
    ),
    (
        Answer::NotMapped,
        Mode::User,
        Access::Fetch,
        Answer::Fault(20),
    ),
    (RUN, Mode::Supervisor, Access::Write, Answer::Fault(3)),
    (RUN, Mode::Supervisor, Access::Fetch, ALLOWED),
];

#[test]
fn accesses(rt: HostRuntime) {
    for (resolved, mode, access, answer) in &ACCESSES {
        assert!(rt; resolved.accessed(*mode, *access) == *answer);
    }
}

#[test]
fn unused_entries(rt: HostRuntime) {
    let unused = LogEntry::default();
    assert!(rt; unused.call == 0);
    assert!(rt; unused.op.action() == Action::Unmap(0));
}

/// A depth, replicas, threads and tables, and why they are no configuration, if so.
static CONFIGURATIONS: [(Depth, u8, u16, u16, Option<BadConfig>); 7] = [
    (FOUR, 0, 0, 0, Some(BadConfig::Replicas)),
    (FIVE, 5, 1, 1, Some(BadConfig::Replicas)),
    (FOUR, 1, 0, 1, Some(BadConfig::Threads)),
    (FOUR, 1, 65, 1, Some(BadConfig::Threads)),
    (FOUR, 1, 1, 4097, Some(BadConfig::Tables)),
    (FOUR, 1, 1, 0, Some(BadConfig::Tables)),
    (FOUR, 4, 64, 4096, None),
];

#[test]
fn configurations(rt: HostRuntime) {
    for (depth, replicas, threads, tables, why) in CONFIGURATIONS {
        match Config::new(depth, replicas, threads, tables) {
            Err(refused) => assert!(rt; why == Some(refused)),
            Ok(config) => {
                let read = (config.depth(), config.replicas());
                assert!(rt; why.is_none() && read == (depth, replicas));
                assert!(rt; (config.threads(), config.tables()) == (threads, tables));
            }
        }
    }
    assert!(rt; (FOUR.levels(), FIVE.levels()) == (4, 5));
    assert!(rt; index_at(5, 0xFF00000000000000) == 256);
}

/// A word of an entry, a level, and what it means there.
static MEANINGS: [(u64, u8, Meaning); 6] = [
    (0, 1, Meaning::Absent),
    (0x202087, 2, Meaning::Reserved),
    (0x8000000040000083, 3, Meaning::Leaf(0x40000000, WRITE)),
    (0x2007, 4, Meaning::Table(2, Rights::ALL)),
    (0x2007, 5, Meaning::Table(2, Rights::ALL)),
    (0x87, 5, Meaning::Reserved),
];

#[test]
fn entries(rt: HostRuntime) {
    let words = [
        (Entry::leaf(Size::G1, 0x40000000, WRITE), 0x8000000040000083),
        (
            Entry::leaf(Size::K4, 0x7FFFFFFFFF000, Rights::NONE),
            0x8007FFFFFFFFF001,
        ),
        (Entry::table(2), 0x2007),
    ];
    for (entry, word) in words {
        assert!(rt; (entry.word(), Entry::new(word)) == (word, entry));
    }
    for (word, level, meaning) in MEANINGS {
        assert!(rt; 1 <= level && level <= 5);
        assert!(rt; Entry::new(word).read(level) == meaning);
    }
}

#[test]
fn memory_refused(rt: HostRuntime) {
    for refused in [AllocError.into(), AllocFailed { value: 7u8 }.into()] {
        let refused: Memory = refused;
        assert!(rt; refused == Memory);
    }
    for refused in [
        AllocError.into(),
        AllocFailed { value: 7u8 }.into(),
        Memory.into(),
    ] {
        let refused: Fail<BadOp> = refused;
        assert!(rt; refused == Fail::Memory);
    }
}
