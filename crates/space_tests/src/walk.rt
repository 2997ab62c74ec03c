//! Dumps: the walk of an address, what the traversal of the tables finds, and frames that come word by word.

ghost use Rattle.std.specs.Prelude.{◌<◌};
ghost use Rattle.vs_walk.specs.Dump.{IsDump};

use crate::values::USER_AND_EXEC;
use std::alloc::Global;
use std::process::Abort;
use vs_types::{Depth, Page, Rights, Size};
use vs_walk::{Dump, Frames, Walk, WalkFault, are_zero, leaves, translate};

const ALL: Rights = Rights::ALL;

/// A word and its index.
type Word = (usize, u64);

/// The pages, with how many of the first frames are reached, or the fault.
type Found = Result<([Option<Page>; 2], usize), WalkFault>;

/// The tables of a case.
#[derive(Clone, Copy)]
enum Tables {
    /// A root alone, with this word.
    One(Word),
    /// Three tables, of which the lowest has this word.
    Three(Word),
    /// Those of a page in either half.
    Halves,
    /// Those of one page under index 256 of a root at level 5, where the high half begins; those below it are tables of four levels.
    High,
}

/// Two words of the first table and one of each other.
fn words_of(tables: Tables) -> [Word; 6] {
    match tables {
        Tables::One(word) => [word, word, (0, 0), (0, 0), (0, 0), (0, 0)],
        Tables::Three(word) => [
            (0, 0x2007),
            (0, 0x2007),
            (0, 0x3007),
            word,
            (0, 0x1007),
            (0, 0),
        ],
        Tables::Halves => [
            (255, 0x3007),
            (256, 0x2007),
            (0, 0x40000087),
            (511, 0x80000085),
            (0, 0),
            (0, 0),
        ],
        Tables::High => [
            (256, 0x2007),
            (256, 0x2007),
            (0, 0x3007),
            (0, 0x4007),
            (0, 0x5007),
            (0, 0x3007),
        ],
    }
}

fn one_word(word: Word) -> [u64; 512] {
    let mut words = [0; 512];
    words[word.0 % 512] = word.1;
    words
}

/// A dump of five frames, numbered from 1, which are these tables.
fn dump_of(rt: &impl Abort, alloc: Global, tables: Tables) -> Dump
    ensures { IsDump result }
{
    let words = words_of(tables);
    let mut root = one_word(words[0]);
    root[words[1].0 % 512] = words[1].1;
    let mut dump = Dump::new(alloc, 7, 1);
    dump.make_room(5).expect(rt, "memory");
    dump.push(1, &root).expect(rt, "memory");
    dump.push(2, &one_word(words[2])).expect(rt, "memory");
    dump.push(3, &one_word(words[3])).expect(rt, "memory");
    dump.push(4, &one_word(words[4])).expect(rt, "memory");
    dump.push(5, &one_word(words[5])).expect(rt, "memory");
    let _frames = dump.count();
    dump
}

/// Tables from a root on, an address, its translation, and what is found of all.
#[derive(Clone, Copy)]
struct Case(Tables, u64, u64, Walk, Found);

const FEWER: Rights = Rights {
    write: true,
    user: false,
    exec: true,
};

const SMALL: Page = Page {
    base: 0x400000,
    size: Size::K4,
    phys: 0x1000,
    rights: FEWER,
};

const LOW: Page = Page {
    base: 0x7FFFC0000000,
    size: Size::G1,
    phys: 0x80000000,
    rights: USER_AND_EXEC,
};

const HIGH: Page = Page {
    base: 0xFFFF800000000000,
    size: Size::G1,
    phys: 0x40000000,
    rights: ALL,
};

const LARGE: Page = Page {
    base: 0x200000,
    size: Size::M2,
    phys: 0x200000,
    rights: ALL,
};

const FIRST: Page = Page {
    base: 0xFFFF800000000000,
    size: Size::K4,
    phys: 0x5000,
    rights: ALL,
};

const FIRST_OF_FIVE: Page = Page {
    base: 0xFF00000000000000,
    size: Size::K4,
    phys: 0x3000,
    rights: ALL,
};

const OF_FOUR_LEVELS: [Case; 5] = [
    Case(
        Tables::Three((2, 0x4003)),
        1,
        0x400123,
        Walk::Mapped(0x1123, Size::K4, FEWER),
        Ok(([Some(SMALL), None], 4)),
    ),
    Case(
        Tables::Halves,
        1,
        0xFFFF800000000000,
        Walk::Mapped(0x40000000, Size::G1, ALL),
        Ok(([Some(LOW), Some(HIGH)], 3)),
    ),
    Case(
        Tables::Three((1, 0x201087)),
        1,
        0x200000,
        Walk::Mapped(0x200000, Size::M2, ALL),
        Ok(([Some(LARGE), None], 3)),
    ),
    Case(
        Tables::One((0, 0)),
        1,
        0,
        Walk::NotMapped,
        Ok(([None, None], 1)),
    ),
    Case(
        Tables::High,
        1,
        0xFFFF800000000123,
        Walk::Mapped(0x5123, Size::K4, ALL),
        Ok(([Some(FIRST), None], 4)),
    ),
];

const FAULTY: [Case; 3] = [
    Case(
        Tables::Three((1, 0x202087)),
        1,
        0x200000,
        Walk::Reserved,
        Err(WalkFault::Reserved(3, 1)),
    ),
    Case(
        Tables::One((0, 0x1007)),
        1,
        0,
        Walk::Mapped(0x1000, Size::K4, ALL),
        Err(WalkFault::Shared(1)),
    ),
    Case(
        Tables::One((0, 0x9007)),
        1,
        0,
        Walk::Missing,
        Err(WalkFault::Missing(9)),
    ),
];

const OF_FIVE_LEVELS: [Case; 4] = [
    Case(
        Tables::High,
        1,
        0xFF00000000000123,
        Walk::Mapped(0x3123, Size::K4, ALL),
        Ok(([Some(FIRST_OF_FIVE), None], 5)),
    ),
    Case(
        Tables::One((0, 0x87)),
        1,
        0,
        Walk::Reserved,
        Err(WalkFault::Reserved(1, 0)),
    ),
    Case(
        Tables::One((0, 0)),
        1,
        0xFFFFFFFFFFFFFF,
        Walk::NotMapped,
        Ok(([None, None], 1)),
    ),
    Case(
        Tables::High,
        9,
        0,
        Walk::Missing,
        Err(WalkFault::Missing(9)),
    ),
];

/// What is found of all tables from a root on. The frames that are reached are the first.
fn found(rt: &impl Abort, alloc: Global, dump: &Dump, root: u64, depth: Depth) -> Found
    requires { IsDump dump.now }
{
    match leaves(alloc, dump, root, depth) {
        Ok(found) => {
            let pages = found.pages.as_slice();
            assert!(rt; pages.len() <= 2);
            let count = found.reached.len();
            assert!(rt; Some(found.reached.as_slice()) == [1, 2, 3, 4, 5].get(..count));
            assert!(rt; found.reached.contains(1) && !found.reached.contains(6));
            let pages = [pages.first().copied(), pages.get(1).copied()];
            Ok((pages, count))
        }
        Err(vs_types::Fail::Refused(fault)) => Err(fault),
        Err(vs_types::Fail::Memory) => panic!(rt; "memory: Memory"),
    }
}

fn run(rt: &impl Abort, alloc: Global, depth: Depth, cases: &[Case]) {
    for Case(tables, root, address, walk, all) in cases.iter().copied() {
        let dump = dump_of(rt, alloc, tables);
        assert!(rt; depth.is_canonical(address));
        assert!(rt; translate(&dump, root, depth, address) == walk);
        assert!(rt; found(rt, alloc, &dump, root, depth) == all);
    }
}

#[test]
fn dumps_of_four_levels(rt: HostRuntime) {
    let cases = OF_FOUR_LEVELS;
    run(&rt, rt.alloc(), Depth::Four, &cases);
}

#[test]
fn faulty_dumps(rt: HostRuntime) {
    let cases = FAULTY;
    run(&rt, rt.alloc(), Depth::Four, &cases);
}

#[test]
fn dumps_of_five_levels(rt: HostRuntime) {
    let cases = OF_FIVE_LEVELS;
    run(&rt, rt.alloc(), Depth::Five, &cases);
}

/// The tables from the root, and those of four levels below it, of which the root is no part.
#[test]
fn gathered(rt: HostRuntime) {
    let dump = dump_of(&rt, rt.alloc(), Tables::High);
    assert!(rt; (dump.applied(), dump.root(), dump.count()) == (7, 1, 5));
    let gathered = Dump::gather(rt.alloc(), &dump, 1, Depth::Five, 3).expect(&rt, "memory");
    assert!(rt; (gathered.applied(), gathered.root(), gathered.count()) == (3, 1, 5));
    let gathered = Dump::gather(rt.alloc(), &dump, 2, Depth::Four, 1).expect(&rt, "memory");
    assert!(rt; gathered.root() == 2);
    assert!(rt; gathered.count() == 4);
    assert!(rt; gathered.number(3) == 5);
    assert!(rt; gathered.words(1).is_none());
    assert!(rt; has_words(&gathered, 4, [0x5007, 0, 0]));
}

/// Whether the frame of this number has these words, at the indexes 0, 1 and 511.
fn has_words(dump: &Dump, number: u64, wanted: [u64; 3]) -> bool {
    match dump.words(number) {
        Some(words) => [words.word(0), words.word(1), words.word(511)] == wanted,
        None => false,
    }
}

/// Eight words in a row, of which one or none is not 0.
#[test]
fn eight_zeros(rt: HostRuntime) {
    let words = one_word((300, 5));
    for (at, zeros) in [
        (0, true),
        (292, true),
        (293, false),
        (300, false),
        (301, true),
        (504, true),
    ] {
        assert!(rt; at <= 504);
        assert!(rt; are_zero(&words, at) == zeros);
    }
}

/// A frame that comes to a dump word by word.
#[test]
fn frame_by_words(rt: HostRuntime) {
    let mut dump = Dump::new(rt.alloc(), 7, 1);
    dump.push(1, &one_word((0, 0x2007))).expect(&rt, "memory");
    let mut dump = dump.begin_frame(2).expect(&rt, "memory");
    for word in 0..512 {
        if dump.words_come() < 512 {
            dump.push(word);
        }
    }
    assert!(rt; (dump.number(), dump.words_come()) == (2, 512));
    assert!(rt; dump.words_come() >= 512);
    let dump = dump.end_frame();
    assert!(rt; (dump.applied(), dump.root(), dump.count()) == (7, 1, 2));
    assert!(rt; has_words(&dump, 1, [0x2007, 0, 0]));
    assert!(rt; has_words(&dump, 2, [0, 1, 511]));
    let words = dump.words(2).expect(&rt, "frame 2");
    assert!(rt; (words.next_nonzero(0), words.next_nonzero(512)) == (1, 512));
}
