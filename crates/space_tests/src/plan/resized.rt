//! Pages that are split and joined, unmapped in part and replaced by one, and what the page itself refuses.

use crate::plan::carried::{TARGET, carried};
use crate::plan::memory::Memory;
use crate::plan::worked::{A, B, C, Row, Said, WRITE, is_so, page};
use std::alloc::Global;
use std::process::Abort;
use vs_plan::{Fill, Flush, Reply, Request};
use vs_types::{Answer, Rights, Size};

/// PCD, PAT, G and 1 as the protection key, at the places of an entry of 4 KiB.
const BITS: u64 = 0x0800_0000_0000_0190;

/// The entry of a page of 2 MiB at 6 MiB that can be written alone, with these bits: PAT is bit 12.
const LARGE: u64 = 0x8800_0000_0060_1193;

/// The entries of its parts begin so: PAT is bit 7.
const PART: u64 = 0x8800_0000_0060_0193;

/// A memory in which that page lies at 2 MiB: its entry is in frame A.
fn with_large(rt: &impl Abort, alloc: Global, count: u32) -> Memory {
    let mut memory = Memory::new(rt, alloc, count);
    let large = page(0x200000, Size::M2, 0x600000, WRITE);
    let plan = carried(rt, &mut memory, TARGET, Request::Map(large, BITS));
    assert!(rt; plan.reply == Reply::Answer(Answer::Done));
    assert!(rt; memory.word(rt, A, 1) == LARGE);
    memory
}

// A page of 2 MiB becomes 512 of 4 KiB, which become one again, with both flags.
#[test]
fn split_and_joined(rt: HostRuntime) {
    let mut memory = with_large(&rt, rt.alloc(), 8);
    let plan = carried(&rt, &mut memory, TARGET, Request::Split(0x200000));
    let was = Reply::Answer(Answer::Changed(WRITE));
    let flush = Flush::Range(0x200000, Size::M2);
    let rows = [Row(A, 1, LARGE, 0x1_0000_3007)];
    assert!(rt; is_so(&plan, Said(was, BITS, flush, &rows, &[])));
    let fill = Fill {
        frame: C,
        first: PART,
        step: 0x1000,
        ..Fill::default()
    };
    assert!(rt; plan.fill == Some(fill));
    assert!(rt; memory.word(&rt, C, 511) == PART + 0x1FF000);
    let plan = carried(&rt, &mut memory, TARGET, Request::Ask(0x3FFFFF));
    let last = Reply::Answer(Answer::Mapped(0x7FFFFF, Size::K4, WRITE));
    assert!(rt; is_so(&plan, Said(last, BITS, Flush::Nothing, &[], &[])));
    memory.write(&rt, C, 7, PART + 0x7060);
    let plan = carried(&rt, &mut memory, TARGET, Request::Join(0x200000));
    let rows = [Row(A, 1, 0x1_0000_3007, LARGE + 0x60)];
    assert!(rt; is_so(&plan, Said(was, BITS, flush, &rows, &[C])));
    assert!(rt; plan.fill.is_none());
}

// The parts 5 to 7 of a page of 2 MiB are removed, by one link to a table without them.
#[test]
fn unmapped_in_part(rt: HostRuntime) {
    let mut memory = with_large(&rt, rt.alloc(), 8);
    let request = Request::UnmapPart(0x200000, 5, 3);
    let plan = carried(&rt, &mut memory, TARGET, request);
    let was = Reply::Answer(Answer::Changed(WRITE));
    let rows = [Row(A, 1, LARGE, 0x1_0000_3007)];
    let flush = Flush::Range(0x200000, Size::M2);
    assert!(rt; is_so(&plan, Said(was, BITS, flush, &rows, &[])));
    let fill = Fill {
        frame: C,
        first: PART,
        step: 0x1000,
        gap: 5,
        gap_count: 3,
    };
    assert!(rt; plan.fill == Some(fill));
    let words = [(4, PART + 0x4000), (5, 0), (7, 0), (8, PART + 0x8000)];
    for (index, word) in words {
        assert!(rt; memory.word(&rt, C, index) == word);
    }
    let plan = carried(&rt, &mut memory, TARGET, Request::Ask(0x205000));
    assert!(rt; plan.reply == MISSING);
    let plan = carried(&rt, &mut memory, TARGET, Request::Join(0x200000));
    assert!(rt; plan.reply == Reply::Apart(5));
}

// The parts of a page, one of which was led elsewhere, are replaced by a page elsewhere that can be read alone, with both flags.
#[test]
fn collapsed(rt: HostRuntime) {
    let mut memory = with_large(&rt, rt.alloc(), 8);
    let remap = Request::Remap(0x209000, 0x7654000, WRITE);
    for request in [Request::Split(0x200000), remap] {
        let _plan = carried(&rt, &mut memory, TARGET, request);
    }
    let plan = carried(&rt, &mut memory, TARGET, Request::Join(0x200000));
    assert!(rt; plan.reply == Reply::Apart(9));
    let request = Request::Collapse(0x200000, 0xA00000, Rights::NONE);
    let plan = carried(&rt, &mut memory, TARGET, request);
    let was = Reply::Answer(Answer::Changed(WRITE));
    let rows = [Row(A, 1, 0x1_0000_3007, 0x8800_0000_00A0_11F1)];
    let flush = Flush::Range(0x200000, Size::M2);
    assert!(rt; is_so(&plan, Said(was, BITS, flush, &rows, &[C])));
    let plan = carried(&rt, &mut memory, TARGET, Request::Ask(0x209123));
    let last = Reply::Answer(Answer::Mapped(0xA09123, Size::M2, Rights::NONE));
    assert!(rt; is_so(&plan, Said(last, BITS + 0x60, Flush::Nothing, &[], &[])));
}

/// The page at 2 MiB is split, one of its parts is narrowed; beside it are a page of 4 KiB at 4 MiB and one of 1 GiB at 1 GiB.
fn with_pages(rt: &impl Abort, alloc: Global) -> Memory {
    let mut memory = with_large(rt, alloc, 16);
    let split = carried(rt, &mut memory, TARGET, Request::Split(0x200000));
    assert!(rt; split.fill.is_some());
    let small = page(0x400000, Size::K4, 0x1000, Rights::ALL);
    let gigabyte = page(0x40000000, Size::G1, 0x40000000, Rights::ALL);
    for map in [Request::Map(small, 0), Request::Map(gigabyte, 0)] {
        let plan = carried(rt, &mut memory, TARGET, map);
        assert!(rt; plan.reply == Reply::Answer(Answer::Done));
    }
    let narrow = Request::Protect(0x205000, Rights::NONE);
    let plan = carried(rt, &mut memory, TARGET, narrow);
    assert!(rt; plan.reply == Reply::Answer(Answer::Changed(WRITE)));
    memory
}

const MISSING: Reply = Reply::Answer(Answer::NotMapped);

const INSIDE: Reply = Reply::Answer(Answer::Inside(0x40000000));

/// Requests there, and why pages can't be split, joined or led elsewhere.
static REFUSED: [(Request, Reply); 18] = [
    (Request::UnmapPart(0x200000, 0, 1), Reply::Smallest),
    (Request::UnmapPart(0x40001000, 0, 1), INSIDE),
    (Request::Collapse(0x200000, 0, WRITE), Reply::Apart(5)),
    (Request::Collapse(0x201000, 0, WRITE), Reply::Unaligned),
    (
        Request::Collapse(0x400000, 0x1000, WRITE),
        Reply::PhysUnaligned,
    ),
    (
        Request::Collapse(0x400000, 1 << 40, WRITE),
        Reply::PhysRange,
    ),
    (Request::Collapse(0x40000000, 0, WRITE), Reply::Largest),
    (Request::Split(0x200000), Reply::Smallest),
    (Request::Split(0x800000), MISSING),
    (Request::Split(0x40001000), INSIDE),
    (Request::Join(0x200000), Reply::Apart(5)),
    (Request::Join(0x201000), Reply::Unaligned),
    (Request::Join(0x400000), Reply::PhysUnaligned),
    (Request::Join(0x40000000), Reply::Largest),
    (Request::Join(0x800000), MISSING),
    (
        Request::Remap(0x40000000, 0x200000, WRITE),
        Reply::PhysUnaligned,
    ),
    (Request::Remap(0x200000, 1 << 40, WRITE), Reply::PhysRange),
    (Request::Remap(0x40001000, 0, WRITE), INSIDE),
];

#[test]
fn refused_by_the_page(rt: HostRuntime) {
    let mut memory = with_pages(&rt, rt.alloc());
    for (place, (request, reply)) in REFUSED.iter().enumerate() {
        let plan = carried(&rt, &mut memory, TARGET, *request);
        let said = Said(*reply, 0, Flush::Nothing, &[], &[]);
        assert!(rt; is_so(&plan, said), "row {place}");
    }
    assert!(rt; memory.word(&rt, B, 1) == 0x4000_0087);
}
