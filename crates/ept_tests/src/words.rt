//! Words of entries, and what each is by the manual's tables of formats.

use crate::guest::{Ept, EptRights};
use std::process::Abort;
use vs_types::{EntryFormat, EntryKind, Size};

/// Modes have one bit to execute.
const ONE_BIT: Ept = Ept { by_mode: false };

/// Each mode has its own.
const BY_MODE: Ept = Ept { by_mode: true };

fn rights(read: bool, write: bool, execute: bool, user_execute: bool) -> EptRights {
    EptRights {
        read,
        write,
        execute,
        user_execute,
    }
}

const ALL: EptRights = EptRights {
    read: true,
    write: true,
    execute: true,
    user_execute: true,
};

const READ: EptRights = EptRights {
    read: true,
    write: false,
    execute: false,
    user_execute: false,
};

const EXECUTE: EptRights = EptRights {
    read: false,
    write: false,
    execute: true,
    user_execute: true,
};

/// A word, and what it is.
type Case = (u64, EntryKind<EptRights>);

/// Entries of page tables: the fields of one after another, and bits that are ignored.
const LOWEST: [Case; 18] = [
    (0, EntryKind::Absent),
    (0x1, EntryKind::Leaf(0, READ)),
    (0x12345007, EntryKind::Leaf(0x12345000, ALL)),
    // write-back memory, the memory type of the guest ignored, accessed and dirty
    (0x12345037, EntryKind::Leaf(0x12345000, ALL)),
    (0x12345077, EntryKind::Leaf(0x12345000, ALL)),
    (0x12345377, EntryKind::Leaf(0x12345000, ALL)),
    // bits 7, 11 and 63:52
    (0x12345037 + 0x880, EntryKind::Leaf(0x12345000, ALL)),
    (0xFFF0000012345037, EntryKind::Leaf(0x12345000, ALL)),
    // nothing is allowed: no other bit counts
    (0x12345030, EntryKind::Absent),
    (0xFFFFFFFFFFFFFBF8, EntryKind::Absent),
    // writes alone
    (0x12345002, EntryKind::Reserved),
    (0x12345006, EntryKind::Reserved),
    // no writes
    (0x12345004, EntryKind::Leaf(0x12345000, EXECUTE)),
    (0x12345001, EntryKind::Leaf(0x12345000, READ)),
    // the highest bit of a physical address, and those above
    (0x200000000037, EntryKind::Leaf(0x200000000000, ALL)),
    (0x400000000037, EntryKind::Reserved),
    (0x8000000000037, EntryKind::Reserved),
    (0x10000000000037, EntryKind::Leaf(0, ALL)),
];

/// Entries of page directories.
const SECOND: [Case; 9] = [
    (0x6000B7, EntryKind::Leaf(0x600000, ALL)),
    (0x6010B7, EntryKind::Reserved),
    (0x7000B7, EntryKind::Reserved),
    (0x5007, EntryKind::Table(5, ALL)),
    // accessed, and bits 9 and 11
    (0x5B07, EntryKind::Table(5, ALL)),
    // bits 3 and 6
    (0x500F, EntryKind::Reserved),
    (0x5047, EntryKind::Reserved),
    (0x5001, EntryKind::Table(5, READ)),
    (0x5002, EntryKind::Reserved),
];

/// Entries of the tables above page directories.
const THIRD: [Case; 5] = [
    (0x400000B7, EntryKind::Leaf(0x40000000, ALL)),
    (0x400010B7, EntryKind::Reserved),
    (0x600000B7, EntryKind::Reserved),
    (0x200000000007, EntryKind::Table(0x200000000, ALL)),
    (0x5017, EntryKind::Reserved),
];

/// Entries of roots: bit 7 is reserved there.
const FOURTH: [Case; 4] = [
    (0x5007, EntryKind::Table(5, ALL)),
    (0x5087, EntryKind::Reserved),
    (0x400000B7, EntryKind::Reserved),
    (0x5080, EntryKind::Absent),
];

#[test]
fn words_of_each_level(rt: HostRuntime) {
    for (word, kind) in LOWEST {
        assert!(rt; ONE_BIT.kind(1, word) == kind);
    }
    for (word, kind) in SECOND {
        assert!(rt; ONE_BIT.kind(2, word) == kind);
    }
    for (word, kind) in THIRD {
        assert!(rt; ONE_BIT.kind(3, word) == kind);
    }
    for (word, kind) in FOURTH {
        assert!(rt; ONE_BIT.kind(4, word) == kind);
    }
}

/// Bit 10 counts where each mode has its own bit, and nowhere else.
#[test]
fn modes_execute(rt: HostRuntime) {
    for (word, one, own) in [
        (0x400, None, Some(rights(false, false, false, true))),
        (0x404, Some(EXECUTE), Some(EXECUTE)),
        (
            0x004,
            Some(EXECUTE),
            Some(rights(false, false, true, false)),
        ),
        (0x401, Some(READ), Some(rights(true, false, false, true))),
        (0x407, Some(ALL), Some(ALL)),
        (0x007, Some(ALL), Some(rights(true, true, true, false))),
    ] {
        assert!(rt; ONE_BIT.kind(1, word) == leaf_with(one));
        assert!(rt; BY_MODE.kind(1, word) == leaf_with(own));
    }
}

fn leaf_with(rights: Option<EptRights>) -> EntryKind<EptRights> {
    match rights {
        Some(rights) => EntryKind::Leaf(0, rights),
        None => EntryKind::Absent,
    }
}

/// The lowest bit that is reserved and set.
#[test]
fn reserved_bits(rt: HostRuntime) {
    for (word, bit) in [
        (0x12345002, 1),
        (0x400000000037, 46),
        (0xC000000000037, 50),
        (0x8000000000002, 1),
    ] {
        assert!(rt; ONE_BIT.kind(1, word) == EntryKind::Reserved);
        assert!(rt; ONE_BIT.reserved_bit(1, word) == bit);
    }
    for (word, bit) in [
        (0x6010B7, 12),
        (0x7000B7, 20),
        (0x500F, 3),
        (0x5047, 6),
        (0x40000000004F, 3),
    ] {
        assert!(rt; ONE_BIT.kind(2, word) == EntryKind::Reserved);
        assert!(rt; ONE_BIT.reserved_bit(2, word) == bit);
    }
    for (word, bit) in [(0x5087, 7), (0x400000005087, 7), (0x800000005007, 47)] {
        assert!(rt; ONE_BIT.kind(4, word) == EntryKind::Reserved);
        assert!(rt; ONE_BIT.reserved_bit(4, word) == bit);
    }
}

/// The words that are written, and that they read back.
#[test]
fn words_that_are_written(rt: HostRuntime) {
    assert!(rt; ONE_BIT.leaf(Size::K4, 0x12345000, ALL) == 0x12345007);
    assert!(rt; BY_MODE.leaf(Size::K4, 0x12345000, ALL) == 0x12345407);
    assert!(rt; BY_MODE.leaf(Size::M2, 0x600000, READ) == 0x600081);
    assert!(rt; ONE_BIT.leaf(Size::G1, 0x40000000, EXECUTE) == 0x40000084);
    assert!(rt; (ONE_BIT.table(5), BY_MODE.table(5)) == (0x5007, 0x5407));
}

/// Addresses end at 2^48, and are not sign-extended.
#[test]
fn addresses(rt: HostRuntime) {
    assert!(rt; ONE_BIT.is_address(0) && ONE_BIT.is_address(0xFFFFFFFFFFFF));
    assert!(rt; !ONE_BIT.is_address(0x1000000000000) && !ONE_BIT.is_address(0xFFFF800000000000));
    assert!(rt; ONE_BIT.address_at(0x800000000000) == 0x800000000000);
}
