//! The words that a page table has after each call, and the ends of its stores.

use crate::cases::{Call, Row};
use crate::values::{BASE, WRITE};
use std::alloc::Global;
use std::process::Abort;
use vs_arena::{FrameStore, VecArena};
use vs_space::{NoRoot, Space};
use vs_types::{Answer, Depth, Query, Rights, Size};
use vs_walk::Frames;

const ALL: Rights = Rights::ALL;

/// A row, and after it the word at the end of a path: so many of these indexes, from the root down.
#[derive(Clone, Copy)]
struct Step(Row, usize, [u16; 5], u64);

static AT_FOUR_LEVELS: [Step; 7] = [
    Step(
        Row(
            Call::Map(0x7FFFFFFFF000, Size::K4, 0x2000, ALL),
            Answer::Done,
            4,
        ),
        4,
        [255, 511, 511, 511, 0],
        0x2007,
    ),
    Step(
        Row(
            Call::Map(0xFFFF800000000000, Size::K4, 0x3000, ALL),
            Answer::Done,
            7,
        ),
        4,
        [256, 0, 0, 0, 0],
        0x3007,
    ),
    Step(
        Row(
            Call::Map(0x40000000, Size::G1, 0x40000000, WRITE),
            Answer::Done,
            8,
        ),
        2,
        [0, 1, 0, 0, 0],
        0x8000000040000083,
    ),
    Step(
        Row(Call::Map(0x400000, Size::K4, 0x1000, ALL), Answer::Done, 10),
        4,
        [0, 0, 2, 0, 0],
        0x1007,
    ),
    Step(
        Row(
            Call::Unmap(0x400000),
            Answer::Removed(0x1000, Size::K4, ALL),
            8,
        ),
        2,
        [0, 0, 0, 0, 0],
        0,
    ),
    Step(
        Row(
            Call::Map(0x400000, Size::M2, 0x200000, ALL),
            Answer::Done,
            9,
        ),
        3,
        [0, 0, 2, 0, 0],
        0x200087,
    ),
    Step(
        Row(
            Call::Map(0, Size::K4, 0x7FFFFFFFFF000, Rights::NONE),
            Answer::Done,
            10,
        ),
        4,
        [0, 0, 0, 0, 0],
        0x8007FFFFFFFFF001,
    ),
];

/// The first address past 47 bits, the last page of the low half and the first of the high one.
static AT_FIVE_LEVELS: [Step; 5] = [
    Step(
        Row(
            Call::Map(0x800000000000, Size::K4, 0x1000, ALL),
            Answer::Done,
            5,
        ),
        5,
        [0, 256, 0, 0, 0],
        0x1007,
    ),
    Step(
        Row(
            Call::Map(0xFFFFFFFFFFF000, Size::K4, 0x2000, ALL),
            Answer::Done,
            9,
        ),
        5,
        [255, 511, 511, 511, 511],
        0x2007,
    ),
    Step(
        Row(
            Call::Map(0xFF00000000000000, Size::K4, 0x3000, ALL),
            Answer::Done,
            13,
        ),
        5,
        [256, 0, 0, 0, 0],
        0x3007,
    ),
    Step(
        Row(
            Call::Unmap(0xFF00000000000000),
            Answer::Removed(0x3000, Size::K4, ALL),
            9,
        ),
        1,
        [256, 0, 0, 0, 0],
        0,
    ),
    Step(
        Row(
            Call::Map(0x40000000, Size::G1, 0x40000000, WRITE),
            Answer::Done,
            10,
        ),
        3,
        [0, 0, 1, 0, 0],
        0x8000000040000083,
    ),
];

// The answer of an update or a resolve, which must be well formed.
pub fn answer<S: FrameStore>(rt: &impl Abort, space: &mut Space<S>, call: Call) -> Answer {
    let depth = space.depth();
    let request = call.request(depth).expect(rt, "a well-formed call");
    match request.query() {
        Query::Update(op) => {
            assert!(rt; op.fits(depth));
            space.apply(op)
        }
        Query::Resolve(address) => {
            assert!(rt; depth.is_canonical(address));
            space.resolve(address)
        }
        Query::Access(..) => panic!(rt; "an access"),
    }
}

// The word at the end of a path.
fn word<S: FrameStore>(rt: &impl Abort, space: &Space<S>, path: &[u16]) -> u64 {
    let mut number = space.root();
    let mut last = 0;
    for index in path {
        let words = space.words(number).expect(rt, "a frame is missing");
        last = words.word(usize::from(*index % 512));
        number = (last >> 12) % (1 << 40);
    }
    last
}

// Whether the call of a step is answered so, and the table then has so many tables and this word.
fn is_so<S: FrameStore>(rt: &impl Abort, space: &mut Space<S>, step: Step) -> bool {
    let Step(Row(call, told, tables), count, path, last) = step;
    let path = path.get(..count).expect(rt, "a path of five words or less");
    answer(rt, space, call) == told && space.tables() == tables && word(rt, space, path) == last
}

fn take_all(rt: &impl Abort, alloc: Global, depth: Depth, steps: &[Step]) {
    let store = VecArena::new(alloc, BASE, 16).expect(rt, "memory");
    let mut space = Space::new(store, depth).expect(rt, "a root");
    assert!(rt; space.depth() == depth && space.tables() == 1);
    for (place, step) in steps.iter().enumerate() {
        assert!(rt; is_so(rt, &mut space, *step), "row {place}");
    }
    assert!(rt; word(rt, &space, &[255]) % 4096 == 7);
}

#[test]
fn words_of_pages(rt: HostRuntime) {
    take_all(&rt, rt.alloc(), Depth::Four, &AT_FOUR_LEVELS);
    take_all(&rt, rt.alloc(), Depth::Five, &AT_FIVE_LEVELS);
}

#[test]
fn arena_of_two(rt: HostRuntime) {
    let arena = VecArena::new(rt.alloc(), BASE, 0).expect(&rt, "memory");
    assert!(rt; Space::new(arena, Depth::Four).err() == Some(NoRoot));
    let arena = VecArena::new(rt.alloc(), BASE, 2).expect(&rt, "memory");
    let mut space = Space::new(arena, Depth::Four).expect(&rt, "a root");
    let map = Call::Map(0x1000, Size::K4, 0x5000, ALL);
    assert!(rt; answer(&rt, &mut space, map) == Answer::Full(4));
    assert!(rt; space.tables() == 1);
}

// A page in each of a thousand gibibytes: so many tables.
fn use_thousand<S: FrameStore>(rt: &impl Abort, space: &mut Space<S>, tables: usize) {
    for number in 0..1000u64 {
        let map = Call::Map(number << 30, Size::K4, number << 12, ALL);
        assert!(rt; answer(rt, space, map) == Answer::Done);
    }
    assert!(rt; space.tables() == tables);
    for number in 0..1000u64 {
        let here = Answer::Mapped(number << 12, Size::K4, ALL);
        let base = number << 30;
        assert!(rt; answer(rt, space, Call::Resolve(base)) == here);
        assert!(rt; answer(rt, space, Call::Resolve(base + 4096)) == Answer::NotMapped);
    }
    for number in 0..1000u64 {
        let removed = Answer::Removed(number << 12, Size::K4, ALL);
        assert!(rt; answer(rt, space, Call::Unmap(number << 30)) == removed);
    }
    assert!(rt; space.tables() == 1);
}

// A table for each page, two of the level above, and at five levels one more below the root.
#[test]
fn two_thousand_tables(rt: HostRuntime) {
    let arena = VecArena::new(rt.alloc(), BASE, 2004).expect(&rt, "memory");
    let mut space = Space::new(arena, Depth::Four).expect(&rt, "a root");
    use_thousand(&rt, &mut space, 2003);
    let arena = VecArena::new(rt.alloc(), BASE, 2004).expect(&rt, "memory");
    let mut space = Space::new(arena, Depth::Five).expect(&rt, "a root");
    use_thousand(&rt, &mut space, 2004);
}
