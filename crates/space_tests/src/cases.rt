//! Calls one after another, with their answers and how many tables there are then.

use crate::values::{EXEC, USER_AND_EXEC, WRITE};
use vs_types::{Access, Answer, BadOp, Depth, Mode, Op, Request, Rights, Size};

/// A call, by the numbers that it is made of.
#[derive(Clone, Copy, PartialEq)]
pub enum Call {
    /// A map of the page at this base, of this size, to this physical address, with these rights.
    Map(u64, Size, u64, Rights),
    Unmap(u64),
    Protect(u64, Rights),
    Resolve(u64),
    Access(u64, Mode, Access),
}

impl Call {
    /// What it asks, if it is well formed.
    pub fn request(self, depth: Depth) -> Result<Request, BadOp> {
        let op = match self {
            Call::Map(base, size, phys, rights) => Op::map(depth, base, size, phys, rights)?,
            Call::Unmap(base) => Op::unmap(depth, base)?,
            Call::Protect(base, rights) => Op::protect(depth, base, rights)?,
            Call::Resolve(address) => return Request::resolve(depth, address),
            Call::Access(address, mode, access) => {
                return Request::access(depth, address, mode, access);
            }
        };
        Ok(Request::update(op))
    }
}

/// A call, what it must be answered, and how many tables there must be after it.
#[derive(Clone, Copy)]
pub struct Row(pub Call, pub Answer, pub usize);

const ALL: Rights = Rights::ALL;

/// The last page of the low half and the first of the high one, with the entries 255 and 256 of the root.
pub static BOTH_HALVES: [Row; 6] = [
    Row(Call::Resolve(0x7FFFFFFFFFFF), Answer::NotMapped, 1),
    Row(
        Call::Map(0x7FFFFFFFF000, Size::K4, 0x2000, ALL),
        Answer::Done,
        4,
    ),
    Row(
        Call::Map(0xFFFF800000000000, Size::K4, 0x3000, ALL),
        Answer::Done,
        7,
    ),
    Row(
        Call::Resolve(0x7FFFFFFFFFFF),
        Answer::Mapped(0x2FFF, Size::K4, ALL),
        7,
    ),
    Row(
        Call::Resolve(0xFFFF800000000000),
        Answer::Mapped(0x3000, Size::K4, ALL),
        7,
    ),
    Row(Call::Resolve(0xFFFF800000001000), Answer::NotMapped, 7),
];

pub static OVERLAP: [Row; 4] = [
    Row(
        Call::Map(0x40200000, Size::K4, 0x1000, ALL),
        Answer::Done,
        4,
    ),
    Row(
        Call::Map(0x40001000, Size::K4, 0x2000, ALL),
        Answer::Done,
        5,
    ),
    Row(
        Call::Map(0x40000000, Size::G1, 0x40000000, ALL),
        Answer::Overlap(0x40001000),
        5,
    ),
    Row(Call::Resolve(0x40000000), Answer::NotMapped, 5),
];

pub static GIGABYTE: [Row; 4] = [
    Row(
        Call::Map(0x40000000, Size::G1, 0x40000000, WRITE),
        Answer::Done,
        2,
    ),
    Row(Call::Unmap(0x40001000), Answer::Inside(0x40000000), 2),
    Row(
        Call::Protect(0x40001000, ALL),
        Answer::Inside(0x40000000),
        2,
    ),
    Row(
        Call::Resolve(0x40001234),
        Answer::Mapped(0x40001234, Size::G1, WRITE),
        2,
    ),
];

/// The last page of the address space.
pub static LAST_PAGE: [Row; 3] = [
    Row(
        Call::Map(0xFFFFFFFFC0000000, Size::G1, 0, ALL),
        Answer::Done,
        2,
    ),
    Row(
        Call::Resolve(u64::MAX),
        Answer::Mapped(0x3FFFFFFF, Size::G1, ALL),
        2,
    ),
    Row(
        Call::Map(0xFFFFFFFFFFFFF000, Size::K4, 0, ALL),
        Answer::Overlap(0xFFFFFFFFC0000000),
        2,
    ),
];

/// Under a limit of 3 tables.
pub static FULL: [Row; 4] = [
    Row(
        Call::Map(0x200000, Size::M2, 0x200000, ALL),
        Answer::Done,
        3,
    ),
    Row(
        Call::Map(0x400000, Size::K4, 0x1000, ALL),
        Answer::Full(4),
        3,
    ),
    Row(
        Call::Map(0x200000, Size::K4, 0x1000, ALL),
        Answer::Overlap(0x200000),
        3,
    ),
    Row(Call::Resolve(0x400000), Answer::NotMapped, 3),
];

pub static UNMAP: [Row; 6] = [
    Row(Call::Map(0x400000, Size::K4, 0x1000, ALL), Answer::Done, 4),
    Row(
        Call::Unmap(0x400000),
        Answer::Removed(0x1000, Size::K4, ALL),
        1,
    ),
    Row(Call::Unmap(0x400000), Answer::NotMapped, 1),
    Row(Call::Resolve(0x400123), Answer::NotMapped, 1),
    Row(
        Call::Map(0x400000, Size::M2, 0x200000, ALL),
        Answer::Done,
        3,
    ),
    Row(
        Call::Resolve(0x400123),
        Answer::Mapped(0x200123, Size::M2, ALL),
        3,
    ),
];

pub static PROTECT: [Row; 4] = [
    Row(Call::Map(0x1000, Size::K4, 0x5000, WRITE), Answer::Done, 4),
    Row(
        Call::Protect(0x1000, USER_AND_EXEC),
        Answer::Changed(WRITE),
        4,
    ),
    Row(
        Call::Resolve(0x1000),
        Answer::Mapped(0x5000, Size::K4, USER_AND_EXEC),
        4,
    ),
    Row(Call::Protect(0x2000, ALL), Answer::NotMapped, 4),
];

/// A page that can only be written, and then only be fetched from.
pub static ACCESS: [Row; 12] = [
    Row(
        Call::Map(0x400000, Size::K4, 0x1000, WRITE),
        Answer::Done,
        4,
    ),
    Row(
        Call::Access(0x400123, Mode::Supervisor, Access::Write),
        Answer::Allowed(0x1123),
        4,
    ),
    Row(
        Call::Access(0x400123, Mode::User, Access::Read),
        Answer::Fault(5),
        4,
    ),
    Row(
        Call::Access(0x400123, Mode::User, Access::Write),
        Answer::Fault(7),
        4,
    ),
    Row(
        Call::Access(0x400123, Mode::Supervisor, Access::Fetch),
        Answer::Fault(17),
        4,
    ),
    Row(
        Call::Access(0x400123, Mode::User, Access::Fetch),
        Answer::Fault(21),
        4,
    ),
    Row(
        Call::Access(0x401000, Mode::Supervisor, Access::Read),
        Answer::Fault(0),
        4,
    ),
    Row(
        Call::Access(0x401000, Mode::User, Access::Write),
        Answer::Fault(6),
        4,
    ),
    Row(
        Call::Access(0x401000, Mode::User, Access::Fetch),
        Answer::Fault(20),
        4,
    ),
    Row(Call::Protect(0x400000, EXEC), Answer::Changed(WRITE), 4),
    Row(
        Call::Access(0x400123, Mode::Supervisor, Access::Write),
        Answer::Fault(3),
        4,
    ),
    Row(
        Call::Access(0x400123, Mode::Supervisor, Access::Fetch),
        Answer::Allowed(0x1123),
        4,
    ),
];

/// At five levels: the first address past 47 bits, the last page of the low half and the first of the high one.
pub static BOTH_HALVES_OF_FIVE: [Row; 6] = [
    Row(
        Call::Map(0x800000000000, Size::K4, 0x1000, ALL),
        Answer::Done,
        5,
    ),
    Row(
        Call::Map(0xFFFFFFFFFFF000, Size::K4, 0x2000, ALL),
        Answer::Done,
        9,
    ),
    Row(
        Call::Map(0xFF00000000000000, Size::K4, 0x3000, ALL),
        Answer::Done,
        13,
    ),
    Row(
        Call::Resolve(0xFFFFFFFFFFFFFF),
        Answer::Mapped(0x2FFF, Size::K4, ALL),
        13,
    ),
    Row(
        Call::Access(0xFF00000000000FFF, Mode::User, Access::Fetch),
        Answer::Allowed(0x3FFF),
        13,
    ),
    Row(
        Call::Unmap(0x800000000000),
        Answer::Removed(0x1000, Size::K4, ALL),
        9,
    ),
];

/// At five levels, under a limit of 4 tables.
pub static FULL_OF_FIVE: [Row; 3] = [
    Row(Call::Map(0, Size::K4, 0x1000, ALL), Answer::Full(5), 1),
    Row(Call::Map(0, Size::G1, 0, ALL), Answer::Done, 3),
    Row(Call::Map(0, Size::K4, 0x1000, ALL), Answer::Overlap(0), 3),
];
