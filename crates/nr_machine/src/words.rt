//! The words that nodes share, and the operations on one of them.

/// The most nodes.
pub const NODES: u64 = 64;

/// The length of a node's ring, and so the most updates of a call.
pub const RING: usize = 16;

/// A word that nodes share. A node is named by its number: 0 to 63.
#[derive(Clone, Copy, Debug, PartialEq, Eq)]
pub enum Word {
    /// The tail of the log and the number of the node that appended the last entry: 128 times the tail, plus the number.
    Head,
    /// How many entries are completed: some node has applied them, and each read that begins from now on sees all of them.
    Completed,
    /// How many entries a node has taken: it has copied their words.
    Local(u64),
    /// How many entries a node has applied and flushed.
    Done(u64),
    /// The first word of the entry at this index of a node's ring.
    First(u64, u64),
    /// The second word of the entry at this index of a node's ring: 128 times its number, plus the node that appended the entry before it.
    Second(u64, u64),
}

/// One atomic operation on one word. Each is sequentially consistent.
#[derive(Clone, Copy, Debug, PartialEq, Eq)]
pub enum Operation {
    /// Loads the word.
    Load(Word),
    /// Stores a value.
    Store(Word, u64),
    /// Compares the word with the first value and, if they are equal, stores the second.
    Exchange(Word, u64, u64),
    /// Stores the greater of the word and a value.
    Max(Word, u64),
}

/// An update: two numbers, whose meaning is the caller's. The second is below 2^57.
#[repr(C)]
#[derive(Clone, Copy, Debug, Default, PartialEq, Eq)]
pub struct Update {
    pub first: u64,
    pub second: u64,
}
