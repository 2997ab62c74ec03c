//! A store over memory that is lent: frames and their marks.
ghost use Rattle.std.specs.Prelude.{◌≡◌, ◌+◌, ◌^◌, ◌≤◌, length, [], ◌∷◌};
ghost use Rattle.std.specs.FinMap as finite;
ghost use Rattle.vs_types.specs.declared.limits.TheConstants.{TABLES};
ghost use Rattle.vs_arena.specs.Lent.{lent_frames};
ghost use Rattle.vs_arena.specs.LentMarks.{IsLentArena};

use crate::frame::{Frame, cleared_words};
use crate::mark::{FrameMark, IN_USE};
use crate::store::FrameStore;
use std::marker::Model;
use vs_types::FRAME_WORDS;

/// A store of frames in memory that its caller lends. It allocates nothing, and returns all of it as it ends, with the
/// words that then are there.
///
/// Frame i is the i-th array of words: where the first lies at the physical address `base * 4096`, a processor reads what is
/// written here. A frame is cleared as it is first taken, and after that as it is freed.
#[derive(Debug, Drop)]
pub struct LentArena<'a, 'b> {
    base: u64,
    /// The words of a frame that was ever taken and isn't in use are 0; those of others are as they were lent.
    words: &'a mut [[u64; FRAME_WORDS]],
    /// One for each frame at least.
    marks: &'b mut [FrameMark],
    /// How many frames were ever taken. They have the first places.
    taken: usize,
    /// How many of them were freed.
    given: usize,
    /// The index of the one that was freed last, where one was: it is taken next. Its mark names the one before it.
    last: u16,
}

impl<'a, 'b> Model for LentArena<'a, 'b> {
    ghost use Rattle.std.specs.Prelude.{length, take, [], ◌∷◌};
    ghost use Rattle.vs_arena.specs.Lent.{LentFrames, lent_code};
    ghost use Rattle.vs_arena.specs.Marked.{marked_frames, marked_notes};
    ghost use Rattle.vs_arena.specs.LentMarks.{uses_of_first, notes_of_first, IsLentArena};

    ghost Value = { LentFrames };

    ghost coded = { lent_code };

    ghost view = { λ a. record {
      base = a.base;
      size = length a.words.now;
      frames = marked_frames (uses_of_first a.taken a.marks.now) (take a.taken a.words.now);
      notes = marked_notes (uses_of_first a.taken a.marks.now) (notes_of_first a.taken a.marks.now);
      lenders = a.words.ghost_name ∷ a.marks.ghost_name ∷ [];
    } };

    ghost invariant = { λ a. IsLentArena a.base a.taken a.given a.last a.words.now a.marks.now };
}

/// A store over lent memory, taken apart: the memory, and four numbers. The frames in use are in the memory.
#[derive(Debug, Drop)]
pub struct LentParts<'a, 'b> {
    /// The number of the first frame.
    pub base: u64,
    /// The words of each frame.
    pub words: &'a mut [[u64; FRAME_WORDS]],
    /// The mark of each frame.
    pub marks: &'b mut [FrameMark],
    /// How many frames were ever taken.
    pub taken: usize,
    /// How many of them were freed.
    pub given: usize,
    /// The index of the one that was freed last, where one was.
    pub last: u16,
}

impl<'a, 'b> LentArena<'a, 'b> {
    /// A store of the frames lent, of which none is in use; the first has the number `base`. There is a mark for each frame, or more.
    /// Neither words nor marks need be 0, and none is written yet.
    pub fn new(
        base: u64,
        words: &'a mut [[u64; FRAME_WORDS]],
        marks: &'b mut [FrameMark],
    ) -> LentArena<'a, 'b>
        requires few { length words.old ≤ TABLES }
        requires in_range { base + length words.old ≤ 2 ^ 40 }
        requires marked { length words.old ≤ length marks.old }
        ensures { result ≡ record {
          base = base;
          size = length words.old;
          frames = finite.empty;
          notes = finite.empty;
          lenders = words.entry.ghost_name ∷ marks.entry.ghost_name ∷ [];
        } }
    {
        LentArena {
            base,
            words,
            marks,
            taken: 0,
            given: 0,
            last: 0,
        }
    }

    /// Takes the store apart. Its frames stay in the memory that was lent, as `from_parts` finds them there.
    pub fn into_parts(self) -> LentParts<'a, 'b>
        ensures laid_out { IsLentArena result.base result.taken result.given result.last
            result.words.now result.marks.now }
        ensures same { lent_frames result.base result.taken result.words.now result.marks.now
            (result.words.ghost_name ∷ result.marks.ghost_name ∷ []) ≡ self.entry }
    {
        let LentArena {
            base,
            words,
            marks,
            taken,
            given,
            last,
        } = self;
        LentParts {
            base,
            words,
            marks,
            taken,
            given,
            last,
        }
    }

    /// The store that was taken apart into these.
    pub fn from_parts(parts: LentParts<'a, 'b>) -> LentArena<'a, 'b>
        requires { IsLentArena parts.base parts.taken parts.given parts.last parts.words.now
            parts.marks.now }
        ensures { result
            ≡ lent_frames parts.entry.base parts.entry.taken parts.entry.words.now
            parts.entry.marks.now
            (parts.entry.words.ghost_name ∷ parts.entry.marks.ghost_name ∷ []) }
    {
        let LentParts {
            base,
            words,
            marks,
            taken,
            given,
            last,
        } = parts;
        LentArena {
            base,
            words,
            marks,
            taken,
            given,
            last,
        }
    }
}

impl<'a, 'b> FrameStore for LentArena<'a, 'b> {
    ghost frames = { λ a. a.frames };

    ghost notes = { λ a. a.notes };

    ghost place = { λ a. record { base = a.base; size = a.size; lenders = a.lenders } };

    fn capacity(&self) -> usize {
        self.words.len()
    }

    fn used(&self) -> usize {
        self.taken - self.given
    }

    fn take(&mut self) -> Option<Frame> {
        if self.given > 0 {
            let index = self.last as usize;
            self.given -= 1;
            self.last = self.marks[index].before;
            self.marks[index] = FrameMark {
                before: IN_USE,
                note: 0,
            };
            return Some(Frame::at_index(index));
        }
        let index = self.taken;
        if index == self.words.len() {
            return None;
        }
        self.words[index] = cleared_words();
        self.marks[index] = FrameMark {
            before: IN_USE,
            note: 0,
        };
        self.taken += 1;
        Some(Frame::at_index(index))
    }

    fn give(&mut self, frame: Frame) {
        self.words[frame.index()] = cleared_words();
        self.give_zeroed(frame);
    }

    fn give_zeroed(&mut self, frame: Frame) {
        let index = frame.index();
        self.marks[index].before = self.last;
        self.last = index as u16;
        self.given += 1;
    }

    fn get(&self, frame: Frame, index: usize) -> u64 {
        self.frame(frame)[index]
    }

    fn set(&mut self, frame: Frame, index: usize, word: u64) {
        let words = &mut self.words[frame.index()];
        words[index] = word;
    }

    fn note(&self, frame: Frame) -> u16 {
        self.marks[frame.index()].note
    }

    fn set_note(&mut self, frame: Frame, note: u16) {
        self.marks[frame.index()].note = note;
    }

    fn frame(&self, frame: Frame) -> &[u64; FRAME_WORDS] {
        let words = &*self.words;
        &words[frame.index()]
    }

    fn number(&self, frame: Frame) -> u64 {
        self.base + frame.index() as u64
    }

    fn at(&self, number: u64) -> Option<Frame> {
        let index = number.checked_sub(self.base)? as usize;
        if index < self.taken && self.marks[index].before == IN_USE {
            Some(Frame::at_index(index))
        } else {
            None
        }
    }

    fn in_use(&self, number: u64) -> Frame {
        Frame::at_index((number - self.base) as usize)
    }
}
