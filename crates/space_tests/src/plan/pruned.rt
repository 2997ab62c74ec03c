//! Tables without a present entry that are unlinked, and those that stay.

use crate::plan::carried::{TARGET, carried, plan_for};
use crate::plan::memory::Memory;
use crate::plan::worked::{A, B, C, Row, Said, WRITE, is_so, page};
use std::alloc::Global;
use std::process::Abort;
use vs_plan::{Flush, Reply, Request, Target};
use vs_types::{Answer, Page, Rights, Size};

const DONE: Reply = Reply::Answer(Answer::Done);

/// A page of 2 MiB, where the tables lead.
const LARGE: Request = Request::Map(
    Page {
        base: 0x400000,
        size: Size::M2,
        phys: 0x600000,
        rights: WRITE,
    },
    0,
);

/// A word that is not present, as of a page that was written to disk.
const SWAPPED: u64 = 0x1234_5678;

/// A memory with tables of three levels, the lowest of which has such a word alone.
fn with_swapped(rt: &impl Abort, alloc: Global) -> Memory {
    let mut memory = Memory::new(rt, alloc, 8);
    let map = Request::Map(page(0x400000, Size::K4, 0x1000, Rights::ALL), 0);
    let plan = carried(rt, &mut memory, TARGET, map);
    assert!(rt; plan.reply == DONE);
    memory.write(rt, A, 0, 0);
    memory.write(rt, A, 9, SWAPPED);
    memory
}

/// A request that finds nothing to do.
fn stays(rt: &impl Abort, memory: &mut Memory, target: Target, request: Request) {
    let plan = plan_for(rt, memory, target, request);
    assert!(rt; is_so(&plan, Said(DONE, 0, Flush::Nothing, &[], &[])));
}

// A map over it is answered with the table and an address, of which a prune unlinks it.
#[test]
fn one_table(rt: HostRuntime) {
    let mut memory = with_swapped(&rt, rt.alloc());
    let plan = plan_for(&rt, &mut memory, TARGET, LARGE);
    let empty = Reply::Empty(A, 0x400000);
    assert!(rt; is_so(&plan, Said(empty, 0, Flush::Nothing, &[], &[])));
    let plan = plan_for(&rt, &mut memory, TARGET, Request::Prune(0x400000));
    let rows = [Row(B, 2, 0x1_0000_1007, 0)];
    let flush = Flush::PageAndTables(0x400000, Size::K4);
    assert!(rt; is_so(&plan, Said(DONE, 0, flush, &rows, &[A])));
}

// After that store the map is done.
#[test]
fn map_in_its_place(rt: HostRuntime) {
    let mut memory = with_swapped(&rt, rt.alloc());
    memory.write(&rt, B, 2, 0);
    let plan = carried(&rt, &mut memory, TARGET, LARGE);
    let rows = [Row(B, 2, 0, 0x8000_0000_0060_0083)];
    assert!(rt; is_so(&plan, Said(DONE, 0, Flush::Nothing, &rows, &[])));
}

// Table after table, up to the root, which stays.
#[test]
fn each_table(rt: HostRuntime) {
    let mut memory = with_swapped(&rt, rt.alloc());
    for gone in [A, B, C] {
        let plan = carried(&rt, &mut memory, TARGET, Request::Prune(0x409123));
        assert!(rt; plan.reply == DONE && plan.unlinked.as_slice() == [gone].as_slice());
    }
    stays(&rt, &mut memory, TARGET, Request::Prune(0x409123));
}

// A table with a present entry stays, whether the address is that of the page or another.
#[test]
fn used_table(rt: HostRuntime) {
    let mut memory = with_swapped(&rt, rt.alloc());
    memory.write(&rt, A, 511, 0x1007);
    for address in [0x400000, 0x409000, 0x5FF000] {
        stays(&rt, &mut memory, TARGET, Request::Prune(address));
    }
    memory.write(&rt, B, 3, 0x600087);
    stays(&rt, &mut memory, TARGET, Request::Prune(0x600000));
}

// Tables that are pinned stay, and the pages of one aren't joined.
#[test]
fn pinned_table(rt: HostRuntime) {
    let mut memory = with_swapped(&rt, rt.alloc());
    for pinned in [1, 2] {
        let target = Target { pinned, ..TARGET };
        stays(&rt, &mut memory, target, Request::Prune(0x400000));
    }
    let target = Target {
        pinned: 3,
        ..TARGET
    };
    let plan = plan_for(&rt, &mut memory, target, Request::Prune(0x400000));
    assert!(rt; plan.unlinked.as_slice() == [A].as_slice());
    let map = Request::Map(page(0x600000, Size::M2, 0x600000, WRITE), 0);
    for request in [map, Request::Split(0x600000)] {
        let plan = carried(&rt, &mut memory, target, request);
        assert!(rt; plan.stores.len() == 1);
    }
    let plan = plan_for(&rt, &mut memory, target, Request::Join(0x600000));
    assert!(rt; plan.stores.len() == 1 && plan.unlinked.len() == 1);
    let target = Target {
        pinned: 2,
        ..target
    };
    let plan = plan_for(&rt, &mut memory, target, Request::Join(0x600000));
    assert!(rt; is_so(&plan, Said(Reply::Pinned, 0, Flush::Nothing, &[], &[])));
}

// The link was used meanwhile: it is cleared all the same, and no bits are answered.
#[test]
fn link_with_flags(rt: HostRuntime) {
    let mut memory = with_swapped(&rt, rt.alloc());
    let mut plan = plan_for(&rt, &mut memory, TARGET, Request::Prune(0x400000));
    assert!(rt; !plan.again(0, 0x1_0000_2007) && plan.again(0, 0x1_0000_1027));
    let rows = [Row(B, 2, 0x1_0000_1027, 0)];
    let flush = Flush::PageAndTables(0x400000, Size::K4);
    assert!(rt; is_so(&plan, Said(DONE, 0, flush, &rows, &[A])));
}
