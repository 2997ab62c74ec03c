//! Dumps that are checked against the pages of a space.

ghost use Rattle.std.specs.Prelude.{◌<◌, All, IsTrue};
ghost use Rattle.std.specs.FinMap as finite;

use crate::dump_cases::{AT_BOTH_DEPTHS, AT_FIVE_LEVELS, AT_FOUR_LEVELS, BIG, Case, Frame};
use nr_dump::{DumpFault, check};
use std::alloc::Global;
use std::process::Abort;
use vs_plain::PlainSpace;
use vs_types::{Answer, Depth, FRAME_WORDS, Fail, Op, Page, Rights, Size};
use vs_walk::{Dump, WalkFault, leaves};

fn words(frame: Frame) -> [u64; FRAME_WORDS] {
    let mut words = [0; FRAME_WORDS];
    for (index, count, first) in frame {
        let mut word = *first;
        for nth in 0..*count {
            words[index.wrapping_add(nth) % FRAME_WORDS] = word;
            word = word.wrapping_add(4096);
        }
    }
    words
}

/// Whether the number is above those of all frames.
fn is_above(dump: &Dump, number: u64) -> bool
    ensures { IsTrue result → All (λ held. held < number) (finite.keys dump.now.frames) }
{
    let count = dump.count();
    if count == 0 {
        return true;
    }
    let last = dump.number(count - 1);
    last < number
}

/// Adds a frame; where memory is refused, at a second try.
fn push(rt: &impl Abort, dump: &mut Dump, number: u64, words: &[u64; FRAME_WORDS]) {
    for _ in 0..2 {
        assert!(rt; dump.count() < 4096);
        assert!(rt; number < 1 << 40);
        assert!(rt; is_above(dump, number));
        if dump.push(number, words).is_ok() {
            return;
        }
    }
    panic!(rt; "memory")
}

/// A dump of these frames, numbered from 1.
fn dump_of(rt: &impl Abort, alloc: Global, root: u64, frames: &[Frame]) -> Dump {
    let mut dump = Dump::new(alloc, 0, root);
    let mut number = 0u64;
    for frame in frames {
        number = number.wrapping_add(1);
        push(rt, &mut dump, number, &words(*frame));
    }
    dump
}

/// Maps a page with all rights; where memory is refused, at a second try.
fn map(rt: &impl Abort, space: &mut PlainSpace, base: u64, size: Size, phys: u64) {
    let depth = space.depth();
    let op = Op::map(depth, base, size, phys, Rights::ALL).expect(rt, "an operation");
    for _ in 0..2 {
        assert!(rt; op.fits(space.depth()));
        if let Ok(answer) = space.apply(op) {
            assert!(rt; answer == Answer::Done);
            return;
        }
    }
    panic!(rt; "memory")
}

/// The check answers this; where memory is refused, at a second try.
fn assert_told(
    rt: &impl Abort,
    alloc: Global,
    dump: &Dump,
    space: &PlainSpace,
    wanted: Result<(), DumpFault>,
) {
    let wanted = wanted.map_err(Fail::Refused);
    for _ in 0..2 {
        let told = check(alloc, dump, space);
        if told != Err(Fail::Memory) {
            assert!(rt; told == wanted);
            return;
        }
    }
    panic!(rt; "memory")
}

/// Checks the dump of a case against its space, and compares what is answered with what is expected.
fn run(rt: &impl Abort, alloc: Global, depth: Depth, case: &Case) {
    let dump = dump_of(rt, alloc, case.root, case.frames);
    let mut space = PlainSpace::new(alloc, 4096, depth);
    for (base, size, phys) in case.pages {
        map(rt, &mut space, *base, *size, *phys);
    }
    assert_told(rt, alloc, &dump, &space, case.told);
}

#[test]
fn dumps_at_both_depths(rt: HostRuntime) {
    for case in &AT_BOTH_DEPTHS {
        run(&rt, rt.alloc(), Depth::Four, case);
        run(&rt, rt.alloc(), Depth::Five, case);
    }
}

#[test]
fn dumps_at_one_depth(rt: HostRuntime) {
    for case in &AT_FOUR_LEVELS {
        run(&rt, rt.alloc(), case.depth, case);
    }
    for case in &AT_FIVE_LEVELS {
        run(&rt, rt.alloc(), case.depth, case);
    }
}

/// How many pages are found, of 4 KiB one after another and each mapped to its own base, and how many frames are reached.
fn found(alloc: Global, dump: &Dump) -> Result<(usize, usize), Fail<WalkFault>> {
    let listed = leaves(alloc, dump, 1, Depth::Four)?;
    let mut next = 0u64;
    let mut count = 0usize;
    for page in listed.pages.as_slice() {
        let wanted = Page {
            base: next,
            size: Size::K4,
            phys: next,
            rights: Rights::ALL,
        };
        if *page != wanted {
            break;
        }
        next = next.wrapping_add(4096);
        count = count.wrapping_add(1);
    }
    Ok((count, listed.reached.len()))
}

/// 4,096 pages of 4 KiB.
#[test]
fn big_dump(rt: HostRuntime) {
    let alloc = rt.alloc();
    let dump = dump_of(&rt, alloc, 1, &BIG);
    let listed = match found(alloc, &dump) {
        Err(Fail::Memory) => found(alloc, &dump),
        told => told,
    };
    assert!(rt; listed == Ok((4096, 11)));
    let mut space = PlainSpace::new(alloc, 4096, Depth::Four);
    for place in 0..4096u64 {
        map(&rt, &mut space, place << 12, Size::K4, place << 12);
    }
    assert_told(&rt, alloc, &dump, &space, Ok(()));
    map(&rt, &mut space, 4096 << 12, Size::K4, 0);
    assert_told(
        &rt,
        alloc,
        &dump,
        &space,
        Err(DumpFault::Differs(4096 << 12)),
    );
}
