//! The page table of a handle: it is opened over the memory lent at the begin of a call, and taken apart at its end.
ghost use Rattle.std.specs.Prelude.{◌≡◌, [], ◌∷◌, length};
ghost use Rattle.vs_types.specs.Depth.{levels};
ghost use Rattle.nrvs_c.specs.declared.table.TheConstants.{MADE};
ghost use Rattle.nrvs_c.specs.Table.{IsOpen, depth_in, is_in_range, lent_status, lent_table};

use crate::status::{BAD_FRAMES, BAD_MARKS, NO_TABLE, OK};
use vs_arena::{FRAME_WORDS, FrameMark, LentArena, LentParts};
use vs_space::{Space, SpaceParts};
use vs_types::Depth;

/// The magic word of a handle that was made.
pub(crate) const MADE: u64 = 0x6E72_7673_7461_626C;

/// What C keeps of a page table between calls, beside the memory lent. C writes none of it.
#[repr(C)]
#[derive(Clone, Copy, Debug, PartialEq, Eq)]
pub struct Table {
    /// `MADE` where the handle was made.
    pub magic: u64,
    /// 4 or 5.
    pub levels: u64,
    /// The frame number of the root.
    pub root: u64,
    /// The number of the first frame.
    pub base: u64,
    /// How many frames are lent.
    pub frames: usize,
    /// How many frames were ever taken.
    pub taken: usize,
    /// How many of them were freed.
    pub given: usize,
    /// The index of the one that was freed last, where one was.
    pub last: u64,
}

impl Table {
    /// `OK` where the handle was made over as many frames, its numbers are in range and there is a mark for each frame, and else the
    /// status that says what is wrong.
    pub(crate) fn status(self, words: &[[u64; FRAME_WORDS]], marks: &[FrameMark]) -> u32
        ensures { result ≡ lent_status self words.now marks.now }
    {
        if self.magic != MADE || !self.is_in_range() {
            return NO_TABLE;
        }
        if words.len() != self.frames {
            return BAD_FRAMES;
        }
        if marks.len() < words.len() {
            return BAD_MARKS;
        }
        OK
    }

    /// Whether the numbers are ones that a handle can have, whatever is lent.
    fn is_in_range(self) -> bool
        ensures { result ≡ is_in_range self }
    {
        (self.levels == 4 || self.levels == 5)
            && self.taken <= self.frames
            && self.given <= self.taken
            && self.base <= self.root
            && self.root - self.base < self.taken as u64
            && (self.given == 0 || self.last < self.taken as u64)
    }

    /// The depth of the table.
    pub(crate) fn depth(self) -> Depth
        ensures { result ≡ depth_in self }
    {
        if self.levels == 5 {
            Depth::Five
        } else {
            Depth::Four
        }
    }
}

/// A page table that is taken apart: the memory lent, and its handle.
#[derive(Drop)]
pub(crate) struct Closed<'a, 'b> {
    pub(crate) words: &'a mut [[u64; FRAME_WORDS]],
    pub(crate) marks: &'b mut [FrameMark],
    pub(crate) table: Table,
}

/// The page table of a handle.
pub(crate) fn open<'a, 'b>(
    table: Table,
    words: &'a mut [[u64; FRAME_WORDS]],
    marks: &'b mut [FrameMark],
) -> Space<LentArena<'a, 'b>>
    requires { IsOpen table words.old marks.old }
    ensures { result
        ≡ lent_table (words.entry.ghost_name ∷ marks.entry.ghost_name ∷ []) table words.old
        marks.old }
{
    let store = LentArena::from_parts(LentParts {
        base: table.base,
        words,
        marks,
        taken: table.taken,
        given: table.given,
        last: table.last as u16,
    });
    Space::from_parts(SpaceParts {
        store,
        depth: table.depth(),
        root: table.root,
    })
}

/// The handle of a page table, and the memory in which it is.
pub(crate) fn close<'a, 'b>(space: Space<LentArena<'a, 'b>>) -> Closed<'a, 'b>
    ensures open { IsOpen result.table result.words.now result.marks.now }
    ensures made { result.table.magic ≡ MADE }
    ensures levels { result.table.levels ≡ levels space.entry.depth }
    ensures frames { result.table.frames ≡ length result.words.now }
    ensures same { lent_table (result.words.ghost_name ∷ result.marks.ghost_name ∷ []) result.table
        result.words.now result.marks.now
        ≡ space.entry }
{
    let SpaceParts { store, depth, root } = space.into_parts();
    let LentParts {
        base,
        words,
        marks,
        taken,
        given,
        last,
    } = store.into_parts();
    let table = Table {
        magic: MADE,
        levels: u64::from(depth.levels()),
        root,
        base,
        frames: words.len(),
        taken,
        given,
        last: u64::from(last),
    };
    Closed {
        words,
        marks,
        table,
    }
}
