//! A page table that is only asked: its handle and the memory lent are behind shared references, through which nothing is written.
ghost use Rattle.std.specs.Prelude.{◌≡◌, ◌≤◌, [], length};
ghost use Rattle.vs_types.specs.Depth.{IsCanonical};
ghost use Rattle.vs_types.specs.Space as spaces;
ghost use Rattle.vs_types.specs.Space.{table_count};
ghost use Rattle.vs_types.specs.Step.{look};
ghost use Rattle.vs_space.specs.Table.{IsTableOf};
ghost use Rattle.nrvs_c.specs.Table.{IsOpen, depth_in, lent_table};
ghost use Rattle.nrvs_c.specs.inside.View.{lent_memory};

use crate::table::Table;
use vs_arena::{FRAME_WORDS, FrameMark};
use vs_types::Answer;
use vs_walk::{FrameWords, Frames, Walk, translate};

/// A handle, and the memory that it was made over.
#[derive(Clone, Copy)]
pub(crate) struct View<'a> {
    pub(crate) table: &'a Table,
    pub(crate) words: &'a [[u64; FRAME_WORDS]],
    pub(crate) marks: &'a [FrameMark],
}

impl Frames for View<'_> {
    ghost memory = { λ v. lent_memory v.table.now.base v.words.now };

    /// Those of any frame that is lent: what is reached from the root is in use.
    fn words(&self, number: u64) -> Option<FrameWords<'_>> {
        let index = number.checked_sub(self.table.base)? as usize;
        let words = self.words.get(index)?;
        Some(FrameWords::whole(words))
    }
}

impl View<'_> {
    /// Translates a canonical address.
    pub(crate) fn resolve(&self, address: u64) -> Answer
        requires open { IsOpen self.now.table.now self.now.words.now self.now.marks.now }
        requires canonical { IsCanonical (depth_in self.now.table.now) address }
        ensures { (space : spaces.Space)
            → IsTableOf (lent_table [] self.now.table.now self.now.words.now self.now.marks.now)
            space
            → result ≡ look space address }
    {
        match translate(self, self.table.root, self.table.depth(), address) {
            Walk::Mapped(phys, size, rights) => Answer::Mapped(phys, size, rights),
            Walk::NotMapped | Walk::Reserved | Walk::Missing => Answer::NotMapped,
        }
    }

    /// How many tables there are.
    pub(crate) fn tables(&self) -> usize
        requires { IsOpen self.now.table.now self.now.words.now self.now.marks.now }
        ensures counts { (space : spaces.Space)
            → IsTableOf (lent_table [] self.now.table.now self.now.words.now self.now.marks.now)
            space
            → result ≡ table_count (depth_in self.now.table.now) space }
        ensures at_most { result ≤ length self.now.words.now }
    {
        self.table.taken - self.table.given
    }
}
