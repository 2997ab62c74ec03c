//! Tables in memory: the walk of an address, and what the traversal finds, worked by hand.

use crate::guest::{Ept, EptRights, GuestPage};
use std::alloc::Global;
use std::process::Abort;
use vs_types::{EntryFormat, Fail, Size};
use vs_walk::{Dump, WalkFault, WalkOf, leaves_in, translate_in};

const EPT: Ept = Ept { by_mode: true };

const ALL: EptRights = EptRights {
    read: true,
    write: true,
    execute: true,
    user_execute: true,
};

/// What the root's second entry allows.
const FEWER: EptRights = EptRights {
    read: true,
    write: false,
    execute: false,
    user_execute: true,
};

/// A word of a frame, and its index.
type Word = (usize, u64);

/// The frame with these words.
fn frame_of(words: [Word; 3]) -> [u64; 512] {
    let mut frame = [0; 512];
    for (index, word) in words {
        frame[index % 512] = word;
    }
    frame
}

/// A root at 1 with two tables of the third level, 2 and 3; below 2 a directory, 4, and a page table, 5.
fn dump_of(rt: &impl Abort, alloc: Global, last: Word) -> Dump {
    let mut dump = Dump::new(alloc, 0, 1);
    let root = frame_of([(0, 0x2407), (256, 0x3401), (511, 0)]);
    let pages_of_1_gib = frame_of([(0, 0x4407), (3, 0x2000004B7), (511, 0x9407)]);
    let high = frame_of([(0, 0x1C00004B7), (1, 0x407), (1, 0)]);
    let directory = frame_of([(0, 0x5407), (1, 0xA006B7), (2, 0)]);
    let pages = frame_of([(0, 0x12345737), (7, 0x6407), last]);
    dump.push(1, &root).expect(rt, "memory");
    dump.push(2, &pages_of_1_gib).expect(rt, "memory");
    dump.push(3, &high).expect(rt, "memory");
    dump.push(4, &directory).expect(rt, "memory");
    dump.push(5, &pages).expect(rt, "memory");
    dump
}

/// The walk of an address from a frame on.
fn walk(rt: &impl Abort, dump: &Dump, root: u64, address: u64) -> WalkOf<EptRights> {
    assert!(rt; EPT.is_address(address));
    translate_in(dump, root, EPT, address)
}

#[test]
fn addresses_are_walked(rt: HostRuntime) {
    let dump = dump_of(&rt, rt.alloc(), (9, 0x7402));
    for (address, end) in [
        (0x123, WalkOf::Mapped(0x12345123, Size::K4, ALL)),
        (0x7FFF, WalkOf::Mapped(0x6FFF, Size::K4, ALL)),
        (0x1000, WalkOf::NotMapped),
        (0x9000, WalkOf::Reserved),
        (0x212345, WalkOf::Mapped(0xA12345, Size::M2, ALL)),
        (0xC0000001, WalkOf::Mapped(0x200000001, Size::G1, ALL)),
        (0x7FC0000000, WalkOf::Missing),
        (0x8000000000, WalkOf::NotMapped),
        (0x800000000123, WalkOf::Mapped(0x1C0000123, Size::G1, FEWER)),
        (0xFFFFFFFFFFFF, WalkOf::NotMapped),
    ] {
        assert!(rt; walk(&rt, &dump, 1, address) == end);
    }
    assert!(rt; walk(&rt, &dump, 8, 0) == WalkOf::Missing);
}

const FOUND: [GuestPage; 4] = [
    GuestPage {
        base: 0,
        size: Size::K4,
        phys: 0x12345000,
        rights: ALL,
    },
    GuestPage {
        base: 0x7000,
        size: Size::K4,
        phys: 0x6000,
        rights: ALL,
    },
    GuestPage {
        base: 0x200000,
        size: Size::M2,
        phys: 0xA00000,
        rights: ALL,
    },
    GuestPage {
        base: 0xC0000000,
        size: Size::G1,
        phys: 0x200000000,
        rights: ALL,
    },
];

/// A frame that is missing ends the traversal, and so does a word that allows writes alone.
#[test]
fn faults_are_found(rt: HostRuntime) {
    let dump = dump_of(&rt, rt.alloc(), (9, 0));
    assert!(rt; fault_of(&rt, rt.alloc(), &dump, 1) == Some(WalkFault::Missing(9)));
    let dump = dump_of(&rt, rt.alloc(), (9, 0x7402));
    assert!(rt; fault_of(&rt, rt.alloc(), &dump, 1) == Some(WalkFault::Reserved(5, 9)));
}

fn fault_of(rt: &impl Abort, alloc: Global, dump: &Dump, root: u64) -> Option<WalkFault> {
    match leaves_in(alloc, dump, root, EPT) {
        Ok(_) => None,
        Err(Fail::Refused(fault)) => Some(fault),
        Err(Fail::Memory) => panic!(rt; "memory: Memory"),
    }
}

/// All pages, those of the high half too: their addresses begin at 2^47.
#[test]
fn pages_are_found(rt: HostRuntime) {
    let mut dump = Dump::new(rt.alloc(), 0, 1);
    let root = frame_of([(0, 0x2407), (256, 0x3401), (511, 0)]);
    let low = frame_of([(0, 0x4407), (3, 0x2000004B7), (511, 0)]);
    let high = frame_of([(0, 0x1C00004B7), (1, 0), (1, 0)]);
    let directory = frame_of([(0, 0x5407), (1, 0xA006B7), (2, 0)]);
    let pages = frame_of([(0, 0x12345737), (7, 0x6407), (9, 0)]);
    dump.push(1, &root).expect(&rt, "memory");
    dump.push(2, &low).expect(&rt, "memory");
    dump.push(3, &high).expect(&rt, "memory");
    dump.push(4, &directory).expect(&rt, "memory");
    dump.push(5, &pages).expect(&rt, "memory");
    let Ok(found) = leaves_in(rt.alloc(), &dump, 1, EPT) else {
        panic!(rt; "a fault");
    };
    assert!(rt; found.pages.len() == 5);
    assert!(rt; found.pages.as_slice().get(..4) == Some(&FOUND[..]));
    assert!(rt;
        found.pages.last()
            == Some(&GuestPage {
                base: 0x800000000000,
                size: Size::G1,
                phys: 0x1C0000000,
                rights: FEWER
            })
    );
    assert!(rt; found.reached.as_slice() == [1, 2, 3, 4, 5].as_slice());
}
