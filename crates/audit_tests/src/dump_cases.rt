//! Dumps, the pages beside them, and what a check of the two answers.

use nr_dump::DumpFault;
use vs_types::{Depth, Size};

/// 512 words, 0 but for runs of them. Of a run this has the index of the first, how many there are, and the first. Each other has
/// 4,096 more than the one before, so that tables or pages of 4 KiB come one after another.
pub type Frame = &'static [(usize, usize, u64)];

/// A dump of frames 1, 2, 3 and so on, pages of a space, each with all rights, and what a check of the two answers.
#[derive(Clone, Copy)]
pub struct Case {
    pub name: &'static str,
    pub depth: Depth,
    pub root: u64,
    pub frames: &'static [Frame],
    /// The base of each page, the size and the physical address.
    pub pages: &'static [(u64, Size, u64)],
    pub told: Result<(), DumpFault>,
}

/// A root without a page, beside no page.
const EMPTY: Case = Case {
    name: "an empty root",
    depth: Depth::Four,
    root: 1,
    frames: &[NONE],
    pages: &[],
    told: Ok(()),
};

const NONE: Frame = &[];

const TO_FIRST: Frame = &[(0, 1, 0x1007)];

const TO_SECOND: Frame = &[(0, 1, 0x2007)];

const TO_THIRD: Frame = &[(0, 1, 0x3007)];

const LARGE: Frame = &[(0, 1, 0x87)];

/// A small page.
const SMALL: &[(u64, Size, u64)] = &[(0x400000, Size::K4, 0x1000)];

/// The tables of one page under a root of five levels, whose index 256 begins the high half.
const HIGH: &[Frame] = &[
    &[(256, 1, 0x2007)],
    TO_THIRD,
    &[(0, 1, 0x4007)],
    &[(0, 1, 0x5007)],
    TO_THIRD,
];

/// The tables of 4,096 pages of 4 KiB.
pub static BIG: [Frame; 11] = [
    TO_SECOND,
    TO_THIRD,
    &[(0, 8, 0x4007)],
    &[(0, 512, 0x000007)],
    &[(0, 512, 0x200007)],
    &[(0, 512, 0x400007)],
    &[(0, 512, 0x600007)],
    &[(0, 512, 0x800007)],
    &[(0, 512, 0xa00007)],
    &[(0, 512, 0xc00007)],
    &[(0, 512, 0xe00007)],
];

/// Whatever the depth.
pub static AT_BOTH_DEPTHS: [Case; 9] = [
    Case {
        name: "a root that reaches itself",
        frames: &[TO_FIRST],
        told: Err(DumpFault::SharedFrame(1)),
        ..EMPTY
    },
    Case {
        name: "a frame that is not there",
        frames: &[TO_SECOND],
        told: Err(DumpFault::MissingFrame(2)),
        ..EMPTY
    },
    Case {
        name: "a frame that is not reached",
        frames: &[NONE, NONE],
        told: Err(DumpFault::StrayFrame(2)),
        ..EMPTY
    },
    Case {
        name: "a root that is not there",
        root: 5,
        told: Err(DumpFault::MissingFrame(5)),
        ..EMPTY
    },
    Case {
        name: "a missing frame, then a reserved bit",
        frames: &[&[(0, 1, 0x2007), (1, 1, 0x87)]],
        told: Err(DumpFault::MissingFrame(2)),
        ..EMPTY
    },
    Case {
        name: "a reserved bit in the root",
        frames: &[&[(0, 1, 0x2007), (1, 1, 0x87)], NONE],
        told: Err(DumpFault::ReservedBit(1, 1)),
        ..EMPTY
    },
    Case {
        name: "a frame reached twice",
        frames: &[&[(0, 1, 0x2007), (1, 1, 0x2007)], NONE],
        told: Err(DumpFault::SharedFrame(2)),
        ..EMPTY
    },
    Case {
        name: "a table that reaches the root",
        frames: &[TO_SECOND, TO_FIRST],
        told: Err(DumpFault::SharedFrame(1)),
        ..EMPTY
    },
    Case {
        name: "a table without a page",
        frames: &[TO_SECOND, NONE],
        told: Ok(()),
        ..EMPTY
    },
];

pub static AT_FOUR_LEVELS: [Case; 11] = [
    // bit 13 of a page of 2 MiB is reserved, and bit 12 is ignored
    Case {
        name: "bit 13 of a page of 2 MiB",
        frames: &[TO_SECOND, TO_THIRD, &[(1, 1, 0x202087)]],
        told: Err(DumpFault::ReservedBit(3, 1)),
        ..EMPTY
    },
    Case {
        name: "bit 12 of a page of 2 MiB",
        frames: &[TO_SECOND, TO_THIRD, &[(1, 1, 0x201087)]],
        told: Err(DumpFault::Differs(0x200000)),
        ..EMPTY
    },
    Case {
        name: "a page of 1 GiB at four levels",
        frames: &[TO_SECOND, LARGE],
        told: Err(DumpFault::Differs(0)),
        ..EMPTY
    },
    Case {
        name: "all rights",
        frames: &[TO_SECOND, TO_THIRD, &[(2, 1, 0x4007)], TO_FIRST],
        pages: SMALL,
        told: Ok(()),
        ..EMPTY
    },
    Case {
        name: "fewer rights in a table",
        frames: &[TO_SECOND, TO_THIRD, &[(2, 1, 0x4003)], TO_FIRST],
        pages: SMALL,
        told: Err(DumpFault::Differs(0x400000)),
        ..EMPTY
    },
    Case {
        name: "fewer rights in a page",
        frames: &[TO_SECOND, TO_THIRD, &[(2, 1, 0x4007)], &[(0, 1, 0x1006)]],
        pages: SMALL,
        told: Err(DumpFault::Differs(0x400000)),
        ..EMPTY
    },
    Case {
        name: "a page of 2 MiB",
        frames: &[TO_SECOND, TO_THIRD, &[(2, 1, 0x600087)]],
        pages: &[(0x400000, Size::M2, 0x600000)],
        told: Ok(()),
        ..EMPTY
    },
    Case {
        name: "the same bytes in small pages",
        frames: &[
            TO_SECOND,
            TO_THIRD,
            &[(2, 1, 0x4007)],
            &[(0, 512, 0x600007)],
        ],
        pages: &[(0x400000, Size::M2, 0x600000)],
        told: Err(DumpFault::Differs(0x400000)),
        ..EMPTY
    },
    // addresses are compared as numbers, so the low half comes before the high half
    Case {
        name: "a page in the high half",
        frames: &[&[(256, 1, 0x2007)], &[(0, 1, 0x83)]],
        told: Err(DumpFault::Differs(0xFFFF800000000000)),
        ..EMPTY
    },
    Case {
        name: "another in the low half",
        frames: &[&[(256, 1, 0x2007)], &[(0, 1, 0x83)]],
        pages: &[(0x7FFFFFFFF000, Size::K4, 0x2000)],
        told: Err(DumpFault::Differs(0x7FFFFFFFF000)),
        ..EMPTY
    },
    Case {
        name: "a root of five levels at four",
        frames: HIGH,
        pages: &[(0xFFFF800000000000, Size::K4, 0x5000)],
        told: Err(DumpFault::StrayFrame(5)),
        ..EMPTY
    },
];

pub static AT_FIVE_LEVELS: [Case; 6] = [
    Case {
        name: "an empty root of five levels",
        depth: Depth::Five,
        told: Ok(()),
        ..EMPTY
    },
    Case {
        name: "a large page in the root",
        depth: Depth::Five,
        frames: &[LARGE],
        told: Err(DumpFault::ReservedBit(1, 0)),
        ..EMPTY
    },
    Case {
        name: "a page of 1 GiB at five levels",
        depth: Depth::Five,
        frames: &[TO_SECOND, LARGE],
        told: Err(DumpFault::ReservedBit(2, 0)),
        ..EMPTY
    },
    Case {
        name: "a page in the high half of five",
        depth: Depth::Five,
        frames: HIGH,
        told: Err(DumpFault::Differs(0xFF00000000000000)),
        ..EMPTY
    },
    Case {
        name: "the page in both",
        depth: Depth::Five,
        frames: HIGH,
        pages: &[(0xFF00000000000000, Size::K4, 0x3000)],
        told: Ok(()),
        ..EMPTY
    },
    Case {
        name: "one more in the low half",
        depth: Depth::Five,
        frames: HIGH,
        pages: &[
            (0xFF00000000000000, Size::K4, 0x3000),
            (0xFFFFFFFFFFF000, Size::K4, 0x2000),
        ],
        told: Err(DumpFault::Differs(0xFFFFFFFFFFF000)),
        ..EMPTY
    },
];
