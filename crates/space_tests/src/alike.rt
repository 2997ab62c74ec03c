//! A page table and a plain space answer alike, over both stores.

ghost use Rattle.std.specs.Prelude.{◌≡◌};
ghost use Rattle.std.specs.FinMap as finite;

use crate::both::{Both, Told};
use crate::cases::{
    ACCESS, BOTH_HALVES, BOTH_HALVES_OF_FIVE, Call, FULL, FULL_OF_FIVE, GIGABYTE, LAST_PAGE,
    OVERLAP, PROTECT, Row, UNMAP,
};
use std::alloc::Global;
use std::process::Abort;
use vs_arena::{FrameStore, RawArena, VecArena};
use vs_types::{Answer, Depth, Query};

/// Calls one after another, from no pages on: a name, the limit of tables, how many tables more there are than a row says, where
/// there is a page, and the rows.
#[derive(Clone, Copy)]
struct Case<'a>(&'a str, u16, usize, &'a [Row]);

/// What both answer to a call.
fn answers<S: FrameStore>(rt: &impl Abort, both: &mut Both<S>, call: Call) -> Told<Answer> {
    let depth = both.plain().depth();
    match call.request(depth).expect(rt, "a request").query() {
        Query::Update(op) => {
            assert!(rt; op.fits(depth));
            both.apply(op).expect(rt, "memory")
        }
        Query::Resolve(address) => {
            assert!(rt; depth.is_canonical(address));
            both.resolve(address)
        }
        Query::Access(address, mode, access) => {
            assert!(rt; depth.is_canonical(address));
            both.access(address, mode, access)
        }
    }
}

/// Whether both answer a call so, and then have so many tables.
fn is_so<S: FrameStore>(
    rt: &impl Abort,
    both: &mut Both<S>,
    call: Call,
    answer: Answer,
    tables: usize,
) -> bool {
    let told = answers(rt, both, call);
    let counts = both.tables();
    (told.table, told.plain) == (answer, answer)
        && (counts.table, counts.plain) == (tables, tables)
        && both.table().tables() == tables
}

/// Runs a case on both kinds of address space, the page table over this store, and holds each answer and each count against
/// what is expected.
fn run<S: FrameStore + Drop>(rt: &impl Abort, alloc: Global, store: S, depth: Depth, case: Case)
    requires { S.frames store ≡ finite.empty }
{
    let Case(name, _, more, rows) = case;
    let mut both = Both::new(alloc, store, depth).expect(rt, "memory");
    assert!(rt; both.plain().pages().expect(rt, "memory").is_empty());
    for (place, Row(call, answer, tables)) in rows.iter().enumerate() {
        let tables = if *tables > 1 {
            tables.saturating_add(more)
        } else {
            1
        };
        let is_so = is_so(rt, &mut both, *call, *answer, tables);
        assert!(rt; is_so, "{name}, row {place}");
    }
}

/// Runs each case over both stores.
fn run_all(rt: &impl Abort, alloc: Global, depth: Depth, cases: &[Case]) {
    for case in cases {
        let limit = usize::from(case.1);
        assert!(rt; limit <= 4096);
        let store = VecArena::new(alloc, 1 << 39, limit).expect(rt, "memory");
        run(rt, alloc, store, depth, *case);
        let store = RawArena::new(alloc, 1 << 39, limit).expect(rt, "memory");
        run(rt, alloc, store, depth, *case);
    }
}

#[test]
fn worked_examples(rt: HostRuntime) {
    let cases = [
        Case("both halves", 4096, 0, &BOTH_HALVES),
        Case("overlap names the least base", 4096, 0, &OVERLAP),
        Case("gigabyte page", 4096, 0, &GIGABYTE),
        Case("last page", 4096, 0, &LAST_PAGE),
        Case("full names its need", 3, 0, &FULL),
        Case("unmap frees tables", 4096, 0, &UNMAP),
        Case("protect changes rights", 4096, 0, &PROTECT),
        Case("accesses by rights", 4096, 0, &ACCESS),
    ];
    run_all(&rt, rt.alloc(), Depth::Four, &cases);
}

// The same calls as at four levels take one table more, below the root.
#[test]
fn worked_examples_at_five_levels(rt: HostRuntime) {
    let cases = [
        Case("overlap", 4096, 1, &OVERLAP),
        Case("gigabyte page", 4096, 1, &GIGABYTE),
        Case("last page", 4096, 1, &LAST_PAGE),
        Case("unmap", 4096, 1, &UNMAP),
        Case("protect", 4096, 1, &PROTECT),
        Case("accesses", 4096, 1, &ACCESS),
        Case("both halves of five", 4096, 0, &BOTH_HALVES_OF_FIVE),
        Case("full", 4, 0, &FULL_OF_FIVE),
    ];
    run_all(&rt, rt.alloc(), Depth::Five, &cases);
}
