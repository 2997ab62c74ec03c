//! How much a ring holds, and where each thing is among the words of a log. Clauses cite these.
use vs_types::{REPLICAS, RING};

/// The most passes of a log that own no replica.
pub const OTHERS: u8 = 64;

/// The words of a log: the tails, the number of replicas, and the last 16 entries.
pub const CELL_WORDS: usize = ENTRY_WORDS + 2 * RING;

/// The first of the words of the entries: two for each.
pub const ENTRY_WORDS: usize = COUNT_WORD + 1;

/// The words of the ring that each pass has: two for each entry.
pub const RING_WORDS: usize = 2 * RING;

/// The most rings of a log: an entry names the ring of the one before it in 7 bits.
pub const RINGS: u64 = 128;

/// The most places of a log: 15 times 2^30. The code of its cell has 34 bits for the tail.
pub const MOST_PLACES: u64 = 16_106_127_360;

/// The word of the tail.
pub const TAIL_WORD: usize = 0;

/// The word of the completed tail.
pub const COMPLETED_WORD: usize = 1;

/// The first of the words of the local tails, of which there are as many as a service may have replicas.
pub const LOCAL_WORDS: usize = 2;

/// The word of the number of replicas.
pub const COUNT_WORD: usize = LOCAL_WORDS + REPLICAS as usize;

/// The place of the ring of the last entry, among what the code of the cell says: the words before it are those of the log.
pub const LAST_WORD: usize = COUNT_WORD + 1;

/// How many things the code says.
pub const HEAD_WORDS: usize = LAST_WORD + 1;
