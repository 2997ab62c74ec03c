//! A memory of frames, in which plans are carried out.

use std::alloc::Global;
use std::process::Abort;
use vs_plan::{Fill, Plan, Store};
use vs_types::FRAME_WORDS;

/// The number of the first frame, whose address is 2^32.
pub const FIRST: u64 = 1 << 20;

/// A frame of zeros.
const ZEROS: [u64; FRAME_WORDS] = [0; FRAME_WORDS];

/// Frames one after another, and the numbers of those that are free: the last is taken first.
#[derive(Drop)]
pub struct Memory {
    frames: Vec<[u64; FRAME_WORDS]>,
    free: Vec<u64>,
}

impl Memory {
    /// So many frames of zeros, all but the first of which are free; the lowest is taken first.
    pub fn new(rt: &impl Abort, alloc: Global, count: u32) -> Memory {
        let mut frames = Vec::new(alloc);
        let mut free = Vec::new(alloc);
        for _ in 0..count {
            frames.push(ZEROS).expect(rt, "memory");
        }
        for index in (1..count).rev() {
            free.push(FIRST + u64::from(index)).expect(rt, "memory");
        }
        Memory { frames, free }
    }

    /// Whether there is a frame of this number.
    pub fn has(&self, number: u64) -> bool {
        match number.checked_sub(FIRST) {
            Some(place) => place < self.frames.len() as u64,
            None => false,
        }
    }

    /// The words of a frame.
    pub fn words(&self, rt: &impl Abort, number: u64) -> &[u64; FRAME_WORDS] {
        let place = place(rt, number);
        self.frames.get(place).expect(rt, "a frame of the memory")
    }

    /// The word of a frame at an index.
    pub fn word(&self, rt: &impl Abort, number: u64, index: usize) -> u64 {
        *self
            .words(rt, number)
            .get(index)
            .expect(rt, "an index in a frame")
    }

    /// Writes a word.
    pub fn write(&mut self, rt: &impl Abort, number: u64, index: usize, word: u64) {
        let place = place(rt, number);
        let words = self
            .frames
            .get_mut(place)
            .expect(rt, "a frame of the memory");
        let place = words.get_mut(index).expect(rt, "an index in a frame");
        *place = word;
    }

    /// Takes a frame of zeros, if one is free.
    pub fn take(&mut self) -> Option<u64> {
        self.free.pop()
    }

    /// Offers a frame of this number, which is taken next.
    pub fn offer(&mut self, rt: &impl Abort, number: u64) {
        self.free.push(number).expect(rt, "memory");
    }

    /// How many frames are free.
    pub fn free(&self) -> usize {
        self.free.len()
    }

    /// Clears a frame, which is free then.
    pub fn release(&mut self, rt: &impl Abort, number: u64) {
        for index in 0..FRAME_WORDS {
            self.write(rt, number, index, 0);
        }
        self.offer(rt, number);
    }

    /// Makes a store, which must find its old word.
    pub fn store(&mut self, rt: &impl Abort, store: Store) {
        assert!(rt; self.word(rt, store.frame, store.index) == store.old);
        self.write(rt, store.frame, store.index, store.new);
    }

    /// Fills a table, whose words must be 0, but for its gap.
    pub fn fill(&mut self, rt: &impl Abort, fill: Fill) {
        let mut word = fill.first;
        for index in 0..FRAME_WORDS {
            assert!(rt; self.word(rt, fill.frame, index) == 0);
            if (index as u64).wrapping_sub(fill.gap) >= fill.gap_count {
                self.write(rt, fill.frame, index, word);
            }
            word = word.wrapping_add(fill.step);
        }
    }

    /// Carries a plan out: the fill, the stores in their order; then the frames that are unlinked are free.
    pub fn carry_out(&mut self, rt: &impl Abort, plan: &Plan) {
        if let Some(fill) = plan.fill {
            self.fill(rt, fill);
        }
        for store in plan.stores.as_slice() {
            self.store(rt, *store);
        }
        for number in plan.unlinked.as_slice() {
            self.release(rt, *number);
        }
    }
}

/// The index of a frame.
fn place(rt: &impl Abort, number: u64) -> usize {
    let place = number.checked_sub(FIRST).expect(rt, "a frame's number");
    usize::try_from(place).ok().expect(rt, "a place")
}
