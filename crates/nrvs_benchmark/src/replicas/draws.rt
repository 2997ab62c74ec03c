//! The calls of a thread, which are drawn from its number alone.

/// How many pages of 4 KiB are read and protected.
pub const PAGES: u64 = 16_384;

/// A row of drawn numbers.
#[derive(Clone, Copy, Debug)]
pub struct Draws {
    state: u64,
    thread: u16,
}

/// What a thread calls.
#[derive(Clone, Copy, Debug)]
pub struct Drawn {
    /// In one of the pages.
    pub address: u64,
    /// Whether it is a read.
    pub reads: bool,
    /// The rights that a protect gives, as three bits.
    pub rights: u8,
    /// The base of a page that is the thread's own, which it may map and unmap.
    pub own: u64,
}

impl Draws {
    /// The row of a thread.
    pub fn new(thread: u16) -> Draws {
        Draws {
            state: 0x9E37_79B9_7F4A_7C15u64.wrapping_mul(u64::from(thread) + 1),
            thread,
        }
    }

    /// The next call, of which so many in a hundred read.
    pub fn next(&mut self, reads: u8) -> Drawn {
        self.state = self
            .state
            .wrapping_mul(6_364_136_223_846_793_005)
            .wrapping_add(1_442_695_040_888_963_407);
        let drawn = self.state >> 33;
        Drawn {
            address: drawn % PAGES * 4096 + drawn % 4096,
            reads: drawn / PAGES % 100 < u64::from(reads),
            rights: (drawn / 7 % 8) as u8,
            own: (PAGES + drawn % 128 * 128 + 1 + u64::from(self.thread)) * 4096,
        }
    }
}
