//! The bytes of traces.

use std::alloc::{AllocError, Global};
use std::process::Abort;

/// The counts of a trace of one replica, one thread and one table with nothing recorded.
pub const EMPTY: [u8; 20] = [
    0x4e, 0x52, 0x56, 0x54, 0, 1, 4, 1, 0, 1, 0, 1, 0, 0, 0, 0, 0, 0, 0, 0,
];

/// A map of the page at 0x400000, done, and a resolve of 0x400123; four tables.
pub const MAPPED: [u8; 120] = [
    0x4e, 0x52, 0x56, 0x54, 0, 1, 4, 1, 0, 1, 0, 4, 0, 0, 0, 1, 0, 0, 0, 4, // counts
    0, 0, 0, 0, // place
    0, 0, 0, 0, 0, 0, 7, 0, 0, 0, 0, 0, 0, 0x40, 0, 0, 0, 0, 0, 0, 0, 0, 0x10, 0, // call
    1, 0, 0, 0, 0, 0, 0, 0, 0, 0, 0, 0, 0, 0, 0, 0, 0, 0, 0, 0, 0, 0, 0, 0, // reply
    0, 0, 0, 0, 3, 0, 0, 0, 0, 0, 0, 0, 0, 0x40, 1, 0x23, 0, 0, 0, 0, 0, 0, 0, 0, // call
    1, 7, 0, 7, 0, 0, 0, 2, 0, 0, 0, 1, 0, 0, 0, 0, 0, 0, 0, 0, 0, 0, 0x11, 0x23, // reply
];

/// For each frame of a dump, numbered from 1, the index of the one word that is not 0, and the word.
pub type Words = &'static [(u64, u64)];

/// A root without a page.
pub const ROOT: Words = &[(0, 0)];

/// The page table with the page that is mapped.
pub const TABLES: Words = &[(0, 0x2007), (0, 0x3007), (2, 0x4007), (0, 0x1007)];

/// A frame whose words are 0, but for so many from an index on: the first of them, and then each 4,096 more than the one before.
pub fn push_frame(
    bytes: &mut Vec<u8>,
    number: u64,
    index: u64,
    count: u64,
    first: u64,
) -> Result<(), AllocError> {
    bytes.extend_from_slice(&number.to_be_bytes())?;
    for place in 0..512u64 {
        let nth = place.wrapping_sub(index);
        let word = if nth < count {
            first.wrapping_add(nth.wrapping_mul(4096))
        } else {
            0
        };
        bytes.extend_from_slice(&word.to_be_bytes())?;
    }
    Ok(())
}

/// A dump.
pub fn push_dump(
    bytes: &mut Vec<u8>,
    applied: u8,
    root: u64,
    words: &[(u64, u64)],
) -> Result<(), AllocError> {
    let count = words.len().min(255) as u8;
    bytes.extend_from_slice(&[0, 0, 0, applied, 0, 0, 0, count])?;
    bytes.extend_from_slice(&root.to_be_bytes())?;
    let mut number = 0u64;
    for (index, word) in words {
        number = number.wrapping_add(1);
        push_frame(bytes, number, *index, 1, *word)?;
    }
    Ok(())
}

/// The bytes of a trace: what comes before its one dump, and the dump.
pub fn bytes_of(
    rt: &impl Abort,
    alloc: Global,
    front: &[u8],
    applied: u8,
    words: &[(u64, u64)],
) -> Vec<u8> {
    let mut bytes = Vec::from_slice(alloc, front).expect(rt, "memory");
    push_dump(&mut bytes, applied, 1, words).expect(rt, "memory");
    bytes
}

/// The trace with the map and the resolve.
pub fn map_then_resolve(rt: &impl Abort, alloc: Global) -> Vec<u8> {
    bytes_of(rt, alloc, &MAPPED, 1, TABLES)
}

/// The bytes with others at some indexes.
pub fn changed(rt: &impl Abort, alloc: Global, bytes: &[u8], changes: &[(usize, u8)]) -> Vec<u8> {
    let mut changed = Vec::from_slice(alloc, bytes).expect(rt, "memory");
    for (index, other) in changes {
        if let Some(byte) = changed.get_mut(*index) {
            *byte = *other;
        }
    }
    changed
}
