//! A store whose frames are one block of memory of their own.
ghost use Rattle.std.specs.Prelude.{◌≡◌, ◌+◌, ◌^◌, ◌≤◌, IfOk, []};
ghost use Rattle.std.specs.FinMap as finite;
ghost use Rattle.vs_types.specs.declared.limits.TheConstants.{TABLES};

use crate::frame::{Frame, cleared_words, marked_at};
use crate::region::{Lease, Region, allocate, deallocate};
use crate::store::FrameStore;
use std::alloc::Global;
use std::marker::Model;
use vs_types::{FRAME_WORDS, Memory};

/// A store of frames that lie in one block of memory. `new` allocates all its memory, 4,101 bytes a frame, and writes none of it.
///
/// The block is aligned to 8 bytes, as its words are. A frame is cleared as it is first taken, and after that as it is freed,
/// when its words have often just been read.
pub struct RawArena {
    base: u64,
    /// How many frames there can be.
    size: usize,
    /// The frames that were ever taken have the first places. The words of one that isn't in use are 0.
    region: Region<[u64; FRAME_WORDS]>,
    lease: Lease<[u64; FRAME_WORDS], Global>,
    alloc: Global,
    /// Whether each of these frames is in use.
    marks: Vec<bool>,
    /// The note of each of them that is in use.
    notes: Vec<u16>,
    /// Those that were freed. The last one is taken next.
    free: Vec<u16>,
}

impl Model for RawArena {
    ghost use Rattle.std.specs.Prelude.{◌≡◌, length, vec_capacity};
    ghost use Rattle.vs_arena.specs.Arena.{Arena};
    ghost use Rattle.vs_arena.specs.Marked.{arena_code, marked_frames, marked_notes, HasRoom};
    ghost use Rattle.vs_arena.specs.inside.RawArena.{values, IsRawArena};

    ghost Value = { Arena };

    ghost coded = { arena_code };

    ghost view = { λ a. record {
      base = a.base;
      size = a.size;
      frames = marked_frames a.marks.items (values a.region.places);
      notes = marked_notes a.marks.items a.notes.items;
    } };

    ghost invariant = { λ a.
        IsRawArena a.base a.size a.region.places a.marks.items a.notes.items a.free.items
        × HasRoom a.size (vec_capacity a.marks) (vec_capacity a.notes) (vec_capacity a.free)
        × (length a.region.places ≡ a.size) × (a.lease.first ≡ a.region.first)
        × (a.lease.len ≡ a.size) × (a.lease.alloc ≡ a.alloc) };
}

impl Drop for RawArena {
    fn drop(self) {
        let RawArena {
            base: _,
            size,
            region,
            lease,
            alloc,
            marks: _,
            notes: _,
            free: _,
        } = self;
        deallocate(&alloc, region, size, lease);
    }
}

impl RawArena {
    /// A store of `n` frames of which none is in use; frame 0 has the number `base`.
    ///
    /// # Errors
    ///
    /// Out of memory.
    pub fn new(alloc: Global, base: u64, n: usize) -> Result<RawArena, Memory>
        requires few { n ≤ TABLES }
        requires in_range { base + n ≤ 2 ^ 40 }
        ensures { IfOk result
            (λ a. a
            ≡ record { base = base; size = n; frames = finite.empty; notes = finite.empty }) }
    {
        let marks = Vec::with_capacity(alloc, n)?;
        let notes = Vec::with_capacity(alloc, n)?;
        let free = Vec::with_capacity(alloc, n)?;
        let (region, lease) = allocate(&alloc, n)?;
        Ok(RawArena {
            base,
            size: n,
            region,
            lease,
            alloc,
            marks,
            notes,
            free,
        })
    }
}

impl FrameStore for RawArena {
    ghost frames = { λ a. a.frames };

    ghost notes = { λ a. a.notes };

    ghost place = { λ a. record { base = a.base; size = a.size; lenders = [] } };

    fn capacity(&self) -> usize {
        self.size
    }

    fn used(&self) -> usize {
        self.marks.len() - self.free.len()
    }

    fn take(&mut self) -> Option<Frame> {
        if let Some(index) = self.free.pop() {
            let index = index as usize;
            self.marks[index] = true;
            self.notes[index] = 0;
            return Some(Frame::at_index(index));
        }
        let index = self.marks.len();
        if index == self.size {
            return None;
        }
        self.region.write(index, cleared_words());
        self.marks.push_reserved(true);
        self.notes.push_reserved(0);
        Some(Frame::at_index(index))
    }

    fn give(&mut self, frame: Frame) {
        let words = self.region.get_mut(frame.index());
        *words = cleared_words();
        self.give_zeroed(frame);
    }

    fn give_zeroed(&mut self, frame: Frame) {
        let index = frame.index();
        self.marks[index] = false;
        self.free.push_reserved(index as u16);
    }

    fn get(&self, frame: Frame, index: usize) -> u64 {
        self.frame(frame)[index]
    }

    fn set(&mut self, frame: Frame, index: usize, word: u64) {
        let words = self.region.get_mut(frame.index());
        words[index] = word;
    }

    fn note(&self, frame: Frame) -> u16 {
        self.notes[frame.index()]
    }

    fn set_note(&mut self, frame: Frame, note: u16) {
        self.notes[frame.index()] = note;
    }

    fn frame(&self, frame: Frame) -> &[u64; FRAME_WORDS] {
        self.region.get(frame.index())
    }

    fn number(&self, frame: Frame) -> u64 {
        self.base + frame.index() as u64
    }

    fn at(&self, number: u64) -> Option<Frame> {
        marked_at(self.base, &self.marks, number)
    }

    fn in_use(&self, number: u64) -> Frame {
        Frame::at_index((number - self.base) as usize)
    }
}
