//! Pages that are mapped, protected and unmapped: what each plan says, and the words that it leaves.

use crate::plan::carried::{TARGET, carried};
use crate::plan::memory::{FIRST, Memory};
use std::alloc::Global;
use std::process::Abort;
use vs_plan::{Flush, Plan, Reply, Request, Store, Target};
use vs_types::{Answer, Depth, Page, Rights, Size};

const ALL: Rights = Rights::ALL;

pub const WRITE: Rights = Rights {
    write: true,
    ..Rights::NONE
};

/// A page of this size.
pub const fn page(base: u64, size: Size, phys: u64, rights: Rights) -> Page {
    Page {
        base,
        size,
        phys,
        rights,
    }
}

/// A store: frame, index, old word, new word.
#[derive(Clone, Copy)]
pub struct Row(pub u64, pub usize, pub u64, pub u64);

/// What a plan says: the answer, the bits, the flush, the stores, the frames that are unlinked.
#[derive(Clone, Copy)]
pub struct Said<'a>(pub Reply, pub u64, pub Flush, pub &'a [Row], pub &'a [u64]);

/// Whether the stores are these.
fn are_stores(stores: &[Store], rows: &[Row]) -> bool {
    stores.len() == rows.len()
        && stores.iter().zip(rows).all(|(store, row)| {
            (store.frame, store.index, store.old, store.new) == (row.0, row.1, row.2, row.3)
        })
}

/// Whether a plan says this.
pub fn is_so(plan: &Plan, said: Said) -> bool {
    plan.reply == said.0
        && plan.bits == said.1
        && plan.flush == said.2
        && are_stores(plan.stores.as_slice(), said.3)
        && plan.unlinked.as_slice() == said.4
}

/// The frames that are taken, in their order.
pub const A: u64 = FIRST + 1;

pub const B: u64 = FIRST + 2;

pub const C: u64 = FIRST + 3;

pub const D: u64 = FIRST + 4;

/// A page of 4 KiB at 4 MiB, in a memory without tables: its entry, and three links, from the lowest up.
static FIRST_PAGE: [Row; 4] = [
    Row(A, 0, 0, 0x1007),
    Row(B, 2, 0, 0x1_0000_1007),
    Row(C, 0, 0, 0x1_0000_2007),
    Row(FIRST, 0, 0, 0x1_0000_3007),
];

/// It is removed, and with it the three tables.
static LAST_PAGE: [Row; 4] = [
    Row(A, 0, 0x2007, 0),
    Row(B, 2, 0x1_0000_1007, 0),
    Row(C, 0, 0x1_0000_2007, 0),
    Row(FIRST, 0, 0x1_0000_3007, 0),
];

static NARROWED: [Row; 1] = [Row(A, 0, 0x1007, 0x8000_0000_0000_1003)];

static LED_ELSEWHERE: [Row; 1] = [Row(A, 0, 0x8000_0000_0000_1003, 0x2007)];

static UNLINKED: [u64; 3] = [A, B, C];

// One page is mapped, protected, translated, remapped and removed.
#[test]
fn one_page(rt: HostRuntime) {
    let mut memory = Memory::new(&rt, rt.alloc(), 8);
    let base = 0x400000;
    let flush = Flush::Page(base, Size::K4);
    let none = Flush::Nothing;
    let done = Reply::Answer(Answer::Done);
    let wide = Reply::Answer(Answer::Changed(ALL));
    let here = Reply::Answer(Answer::Mapped(0x1123, Size::K4, WRITE));
    let narrow = Reply::Answer(Answer::Changed(WRITE));
    let removed = Reply::Answer(Answer::Removed(0x2000, Size::K4, ALL));
    let tables = Flush::PageAndTables(base, Size::K4);
    let steps = [
        (
            Request::Map(page(base, Size::K4, 0x1000, ALL), 0),
            Said(done, 0, none, &FIRST_PAGE, &[]),
        ),
        (
            Request::Protect(base, WRITE),
            Said(wide, 0, flush, &NARROWED, &[]),
        ),
        (Request::Ask(0x400123), Said(here, 0, none, &[], &[])),
        (
            Request::Remap(base, 0x2000, ALL),
            Said(narrow, 0, flush, &LED_ELSEWHERE, &[]),
        ),
        (
            Request::Unmap(base),
            Said(removed, 0, tables, &LAST_PAGE, &UNLINKED),
        ),
    ];
    for (place, (request, said)) in steps.iter().enumerate() {
        let plan = carried(&rt, &mut memory, TARGET, *request);
        assert!(rt; is_so(&plan, *said), "step {place}");
    }
    assert!(rt; memory.free() == 7);
}

/// What an unmap of the first page says where tables are pinned from this level on: so many of the stores, and one unlinked frame less.
fn unmapped(rt: &impl Abort, alloc: Global, pinned: u8, count: usize, flush: Flush) {
    let mut memory = Memory::new(rt, alloc, 8);
    let target = Target { pinned, ..TARGET };
    let map = Request::Map(page(0x400000, Size::K4, 0x1000, ALL), 0);
    let _plan = carried(rt, &mut memory, target, map);
    let plan = carried(rt, &mut memory, target, Request::Unmap(0x400000));
    let removed = Reply::Answer(Answer::Removed(0x1000, Size::K4, ALL));
    let rows = [
        Row(A, 0, 0x1007, 0),
        Row(B, 2, 0x1_0000_1007, 0),
        Row(C, 0, 0x1_0000_2007, 0),
        Row(FIRST, 0, 0x1_0000_3007, 0),
    ];
    let rows = rows.get(..count).expect(rt, "at most four stores");
    let gone = UNLINKED.get(..rows.len().saturating_sub(1));
    let gone = gone.expect(rt, "at most three frames");
    assert!(rt;
        is_so(&plan, Said(removed, 0, flush, rows, gone)),
        "pinned {pinned}"
    );
}

// Tables to which entries of a level and above lead stay where that is pinned: of the root's level, of each below it, of none.
#[test]
fn pinned_tables(rt: HostRuntime) {
    let tables = Flush::PageAndTables(0x400000, Size::K4);
    let page = Flush::Page(0x400000, Size::K4);
    for (pinned, count, flush) in [
        (0, 4, tables),
        (1, 1, page),
        (2, 1, page),
        (3, 2, tables),
        (4, 3, tables),
        (5, 4, tables),
        (255, 4, tables),
    ] {
        unmapped(&rt, rt.alloc(), pinned, count, flush);
    }
}

// At five levels: the first page of the high half, under index 256 of the root; and a page of 1 GiB takes two tables.
#[test]
fn five_levels(rt: HostRuntime) {
    let mut memory = Memory::new(&rt, rt.alloc(), 8);
    let target = Target {
        depth: Depth::Five,
        ..TARGET
    };
    let high = page(0xFF00000000000000, Size::K4, 0x3000, ALL);
    let plan = carried(&rt, &mut memory, target, Request::Map(high, 0x20));
    let rows = [
        Row(A, 0, 0, 0x3027),
        Row(B, 0, 0, 0x1_0000_1007),
        Row(C, 0, 0, 0x1_0000_2007),
        Row(D, 0, 0, 0x1_0000_3007),
        Row(FIRST, 256, 0, 0x1_0000_4007),
    ];
    let done = Reply::Answer(Answer::Done);
    assert!(rt; is_so(&plan, Said(done, 0, Flush::Nothing, &rows, &[])));
    let gigabyte = page(0x40000000, Size::G1, 0x40000000, WRITE);
    let plan = carried(&rt, &mut memory, target, Request::Map(gigabyte, 0));
    let rows = [
        Row(FIRST + 5, 1, 0, 0x8000_0000_4000_0083),
        Row(FIRST + 6, 0, 0, 0x1_0000_5007),
        Row(FIRST, 0, 0, 0x1_0000_6007),
    ];
    assert!(rt; is_so(&plan, Said(done, 0, Flush::Nothing, &rows, &[])));
    let plan = carried(&rt, &mut memory, target, Request::Unmap(0x40001000));
    let inside = Reply::Answer(Answer::Inside(0x40000000));
    assert!(rt; is_so(&plan, Said(inside, 0, Flush::Nothing, &[], &[])));
}
