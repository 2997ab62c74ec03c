//! A page table in lent memory, taken apart and opened between calls.

use crate::cases::{BOTH_HALVES, OVERLAP, Row};
use crate::space::answer;
use crate::values::BASE;
use std::process::Abort;
use vs_arena::{FRAME_WORDS, FrameMark, FrameStore, LentArena};
use vs_space::{Space, SpaceParts};
use vs_types::Depth;
use vs_walk::Frames;

/// What is in the memory before it is lent.
const DIRT: u64 = 0xABAB_ABAB_ABAB_ABAB;

// The same page table, after it and its store were taken apart and opened again.
fn reopened<'a, 'b>(space: Space<LentArena<'a, 'b>>) -> Space<LentArena<'a, 'b>> {
    let SpaceParts { store, depth, root } = space.into_parts();
    let store = LentArena::from_parts(store.into_parts());
    Space::from_parts(SpaceParts { store, depth, root })
}

// Rows on a page table in lent memory, which is opened again before each of them.
fn answers_rows(
    rt: &impl Abort,
    words: &mut [[u64; FRAME_WORDS]],
    marks: &mut [FrameMark],
    rows: &[Row],
) {
    assert!(rt; words.len() <= 4096 && words.len() <= marks.len());
    let store = LentArena::new(BASE, words, marks);
    let mut space = Space::new(store, Depth::Four).expect(rt, "a root");
    for Row(call, told, tables) in rows.iter().copied() {
        space = reopened(space);
        assert!(rt; answer(rt, &mut space, call) == told);
        assert!(rt; space.tables() == tables);
    }
    assert!(rt; space.words(space.root()).is_some());
}

#[test]
fn lent_table_is_kept_between_calls(rt: HostRuntime) {
    let mut words = vec![in rt.alloc(); [DIRT; FRAME_WORDS]; 16].expect(&rt, "memory");
    let mut marks = vec![in rt.alloc(); FrameMark::default(); 16].expect(&rt, "memory");
    answers_rows(&rt, &mut words, &mut marks, BOTH_HALVES.as_slice());
    answers_rows(&rt, &mut words, &mut marks, OVERLAP.as_slice());
}
