//! Lists of steps, each with what its recording says.

use nr_core::Act;
use nr_trace::Version;
use std::process::Abort;
use vs_types::{Answer, Config, Depth, Rights, Size};

/// What a call asks.
#[derive(Clone, Copy)]
pub enum Asks {
    /// The page of 4 KiB at 0x400000 is mapped to 0x1000, with all rights.
    Map,
    /// 0x400123 is resolved.
    Resolve,
    /// Whether a user may write to 0x400123.
    Write,
    /// Whether a user may fetch from 0x401000.
    Fetch,
}

/// An event.
#[derive(Clone, Copy)]
pub enum Item {
    /// A call of a thread at a replica.
    Call(u8, u16, Asks),
    /// A call is answered at a place, or after so many entries.
    Reply(u32, u32, Answer),
}

/// A step of a thread, and whether it is enabled.
#[derive(Clone, Copy)]
pub struct Row(pub u16, pub Act, pub bool);

/// A list of steps, and what is recorded.
#[derive(Clone, Copy)]
pub struct Case {
    pub name: &'static str,
    pub depth: Depth,
    pub replicas: u8,
    pub threads: u16,
    pub tables: u16,
    /// By thread.
    pub scripts: &'static [&'static [Asks]],
    /// Rows, each list as often as it says.
    pub steps: &'static [(u32, &'static [Row])],
    pub version: Version,
    /// The call at each place.
    pub log: &'static [u32],
    /// None is looked at where there is none here.
    pub events: Option<&'static [Item]>,
    /// The calls of the order with which the auditor says yes.
    pub order: &'static [u32],
    /// How many entries each replica has applied, and how many tables it has.
    pub dumps: &'static [(u32, usize)],
}

impl Case {
    pub fn config(&self, rt: &impl Abort) -> Config {
        let config = Config::new(self.depth, self.replicas, self.threads, self.tables);
        config.expect(rt, "a configuration")
    }
}

/// How a resolve of 0x400123 finds the page.
const MAPPED: Answer = Answer::Mapped(0x1123, Size::K4, Rights::ALL);

/// Thread 0 maps a page and thread 1 resolves an address in it. The last step is not enabled.
const FIFTEEN: Case = Case {
    name: "fifteen steps",
    depth: Depth::Four,
    replicas: 1,
    threads: 2,
    tables: 4096,
    scripts: &[&[Asks::Map], &[Asks::Resolve]],
    steps: &[(1, &FIRST_SIX), (1, &LAST_NINE)],
    version: Version::V1,
    log: &[0],
    events: Some(&[
        Item::Call(0, 0, Asks::Map),
        Item::Call(0, 1, Asks::Resolve),
        Item::Reply(0, 0, Answer::Done),
        Item::Reply(1, 1, MAPPED),
    ]),
    order: &[0, 1],
    dumps: &[(1, 4)],
};

const FIRST_SIX: [Row; 6] = [
    Row(0, Act::Call, true),
    Row(1, Act::Call, true),
    Row(0, Act::Post, true),
    Row(0, Act::Take(0), true),
    Row(0, Act::Collect(0), true),
    Row(0, Act::Append, true),
];

const LAST_NINE: [Row; 9] = [
    Row(0, Act::Advance, true),
    Row(0, Act::Apply, true),
    Row(0, Act::Answer(0), true),
    Row(0, Act::Release, true),
    Row(1, Act::Look, true),
    Row(1, Act::Read, true),
    Row(0, Act::Reply, true),
    Row(1, Act::Reply, true),
    Row(1, Act::Reply, false),
];

/// Without the last nine steps, of which the first is the advance.
const SIX: Case = Case {
    name: "six steps",
    steps: &[(1, &FIRST_SIX)],
    events: Some(&[Item::Call(0, 0, Asks::Map), Item::Call(0, 1, Asks::Resolve)]),
    order: &[0],
    dumps: &[(0, 1)],
    ..FIFTEEN
};

/// Five levels are recorded in version 2, also where no access is.
const FIFTEEN_AT_FIVE_LEVELS: Case = Case {
    name: "fifteen steps at five levels",
    depth: Depth::Five,
    tables: 5,
    version: Version::V2,
    dumps: &[(1, 5)],
    ..FIFTEEN
};

/// Two replicas: a read at the second waits for what a read at the first has shown.
const STALE_READ: Case = Case {
    name: "no stale read",
    replicas: 2,
    threads: 3,
    scripts: &[&[Asks::Map], &[Asks::Resolve], &[Asks::Resolve]],
    steps: &[(1, &READ_FIRST), (1, &READ_LATE)],
    events: Some(&[
        Item::Call(0, 0, Asks::Map),
        Item::Call(0, 2, Asks::Resolve),
        Item::Reply(1, 1, MAPPED),
        Item::Call(1, 1, Asks::Resolve),
        Item::Reply(3, 1, MAPPED),
        Item::Reply(0, 0, Answer::Done),
    ]),
    order: &[0, 1, 3],
    dumps: &[(1, 4), (1, 4)],
    ..FIFTEEN
};

const READ_FIRST: [Row; 13] = [
    Row(0, Act::Call, true),
    Row(0, Act::Post, true),
    Row(0, Act::Take(0), true),
    Row(0, Act::Collect(0), true),
    Row(0, Act::Append, true),
    Row(0, Act::Advance, true),
    Row(0, Act::Apply, true),
    Row(0, Act::Answer(0), true),
    Row(0, Act::Release, true),
    Row(2, Act::Call, true),
    Row(2, Act::Look, true),
    Row(2, Act::Read, true),
    Row(2, Act::Reply, true),
];

const READ_LATE: [Row; 10] = [
    Row(1, Act::Call, true),
    Row(1, Act::Look, true),
    Row(1, Act::Read, false),
    Row(1, Act::Take(1), true),
    Row(1, Act::Advance, true),
    Row(1, Act::Apply, true),
    Row(1, Act::Release, true),
    Row(1, Act::Read, true),
    Row(1, Act::Reply, true),
    Row(0, Act::Reply, true),
];

/// Steps that name nothing that is there.
const NOTHING: Case = Case {
    name: "names nothing that is there",
    tables: 4,
    steps: &[(1, &NAMELESS)],
    log: &[],
    events: Some(&[]),
    order: &[],
    dumps: &[(0, 1)],
    ..FIFTEEN
};

const NAMELESS: [Row; 4] = [
    Row(63, Act::Take(9), false),
    Row(0, Act::Release, false),
    Row(2, Act::Call, false),
    Row(0, Act::Take(1), false),
];

/// Thread 0 maps, and thread 1 asks at the other replica whether a user may write there, and fetch beside it.
const ACCESSES: Case = Case {
    name: "accesses",
    replicas: 2,
    tables: 8,
    scripts: &[&[Asks::Map], &[Asks::Write, Asks::Fetch]],
    steps: &[(1, &UPDATE), (1, &CATCH_UP), (2, &READ)],
    version: Version::V2,
    events: Some(&[
        Item::Call(0, 0, Asks::Map),
        Item::Reply(0, 0, Answer::Done),
        Item::Call(1, 1, Asks::Write),
        Item::Reply(2, 1, Answer::Allowed(0x1123)),
        Item::Call(1, 1, Asks::Fetch),
        Item::Reply(4, 1, Answer::Fault(20)),
    ]),
    order: &[0, 2, 4],
    dumps: &[(1, 4), (1, 4)],
    ..FIFTEEN
};

const ACCESSES_AT_FIVE_LEVELS: Case = Case {
    name: "accesses at five levels",
    depth: Depth::Five,
    dumps: &[(1, 5), (1, 5)],
    ..ACCESSES
};

const CATCH_UP: [Row; 4] = [
    Row(1, Act::Take(1), true),
    Row(1, Act::Advance, true),
    Row(1, Act::Apply, true),
    Row(1, Act::Release, true),
];

const READ: [Row; 4] = [
    Row(1, Act::Call, true),
    Row(1, Act::Look, true),
    Row(1, Act::Read, true),
    Row(1, Act::Reply, true),
];

/// A whole update of thread 0.
const UPDATE: [Row; 10] = [
    Row(0, Act::Call, true),
    Row(0, Act::Post, true),
    Row(0, Act::Take(0), true),
    Row(0, Act::Collect(0), true),
    Row(0, Act::Append, true),
    Row(0, Act::Advance, true),
    Row(0, Act::Apply, true),
    Row(0, Act::Answer(0), true),
    Row(0, Act::Release, true),
    Row(0, Act::Reply, true),
];

/// The same where the ring is full; and what makes room in it.
const REFUSED_UPDATE: [Row; 14] = [
    Row(0, Act::Call, true),
    Row(0, Act::Post, true),
    Row(0, Act::Take(0), true),
    Row(0, Act::Collect(0), true),
    Row(0, Act::Append, false),
    Row(0, Act::Advance, false),
    Row(0, Act::Apply, false),
    Row(0, Act::Answer(0), false),
    Row(0, Act::Release, true),
    Row(0, Act::Reply, false),
    Row(1, Act::Take(1), true),
    Row(1, Act::Advance, true),
    Row(0, Act::Take(0), true),
    Row(0, Act::Append, true),
];

const SEVENTEEN: [u32; 17] = [
    0, 2, 4, 6, 8, 10, 12, 14, 16, 18, 20, 22, 24, 26, 28, 30, 32,
];

/// After 16 updates of replica 0 nothing is appended until replica 1 has fetched.
const FULL_RING: Case = Case {
    name: "a full ring",
    replicas: 2,
    tables: 4,
    scripts: &[&[Asks::Map; 17], &[]],
    steps: &[(16, &UPDATE), (1, &REFUSED_UPDATE)],
    log: &SEVENTEEN,
    events: None,
    order: &SEVENTEEN,
    dumps: &[(16, 4), (0, 1)],
    ..FIFTEEN
};

/// Each list of steps.
pub static CASES: [Case; 8] = [
    FIFTEEN,
    SIX,
    STALE_READ,
    NOTHING,
    ACCESSES,
    ACCESSES_AT_FIVE_LEVELS,
    FIFTEEN_AT_FIVE_LEVELS,
    FULL_RING,
];

/// The fifteen steps with just the tables that the page takes.
pub static FIFTEEN_WITH_FEW_TABLES: Case = Case {
    tables: 4,
    ..FIFTEEN
};
