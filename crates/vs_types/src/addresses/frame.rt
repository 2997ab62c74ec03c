//! The size of a frame.

/// How many words of 64 bits a frame has: the entries of a page table (Intel SDM volume 3A, chapter "Paging").
pub const FRAME_WORDS: usize = 512;
