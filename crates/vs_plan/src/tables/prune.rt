//! The plan of a prune.
ghost use Rattle.std.specs.Prelude.{◌≡◌, ◌≢◌, ◌%◌, ◌<◌, ◌≤◌, ◌⊎◌, ℕ, IsTrue, IsFalse, slice_index};
ghost use Rattle.vs_types.specs.Depth.{index_at};
ghost use Rattle.vs_types.specs.declared.addresses.frame.TheConstants.{FRAME_WORDS};
ghost use Rattle.vs_plan.specs.declared.plans.request.Request.{Request};
ghost use Rattle.vs_plan.specs.Target.{highest_link};
ghost use Rattle.vs_plan.specs.inside.Ended.{IsAtEnd, IsRightWith};

use crate::plans::plan::{Flush, Plan, Reply, Store};
use crate::plans::planner::Planner;
use crate::words::reading::FrameWords;
use vs_types::{Answer, FRAME_WORDS, Size, index_at, is_present};

impl Planner {
    /// Unlinks the table at the end of the way, which has these words, where none is present.
    #[inline(never)]
    pub(crate) fn plan_prune<W: FrameWords>(&self, address: u64, word: u64, words: &mut W) -> Plan
        requires end { IsAtEnd self.now }
        requires request { self.now.request ≡ Request.Prune address }
        requires unread { (i : ℕ) → i < FRAME_WORDS → i ≢ index_at self.now.level address
            → W.is_unread words.old i }
        ensures { IsRightWith self.now word (W.words words.old) result }
    {
        let mut plan = Plan::nothing(Reply::Answer(Answer::Done), 0);
        if !self.can_prune(address, word, words) {
            return plan;
        }
        let above = self.level + 1;
        plan.stores.push(Store {
            frame: self.numbers[above as usize],
            index: index_at(above, address),
            old: self.words[above as usize],
            new: 0,
        });
        plan.unlinked.push(self.number);
        plan.flush = Flush::PageAndTables(address, Size::K4);
        plan
    }

    /// Whether the table at the end of the way, whose word there is this one, may be unlinked, and has no entry that is present.
    fn can_prune<W: FrameWords>(&self, address: u64, word: u64, words: &mut W) -> bool
        requires end { IsAtEnd self.now }
        requires unread { (i : ℕ) → i < FRAME_WORDS → i ≢ index_at self.now.level address
            → W.is_unread words.old i }
        ensures stays { IsFalse result → (highest_link self.now.target ≤ self.now.level)
            ⊎ ((word % 2 ≢ 0)
            ⊎ ((i : ℕ) × (i < FRAME_WORDS) × (slice_index (W.words words.old) i % 2 ≢ 0))) }
        ensures empty { IsTrue result → (self.now.level < highest_link self.now.target)
            × (word % 2 ≡ 0)
            × ((i : ℕ) → i < FRAME_WORDS → i ≢ index_at self.now.level address
            → slice_index (W.words words.old) i % 2 ≡ 0) }
    {
        self.level < self.target.highest_link()
            && !is_present(word)
            && !has_other(words, index_at(self.level, address))
    }
}

/// Whether a word of a frame but that at the index is present.
fn has_other<W: FrameWords>(words: &mut W, index: usize) -> bool
    requires { (i : ℕ) → i < FRAME_WORDS → i ≢ index → W.is_unread words.old i }
    ensures none { IsFalse result
        → (i : ℕ) → i < FRAME_WORDS → i ≢ index → slice_index (W.words words.old) i % 2 ≡ 0 }
    ensures other { IsTrue result
        → (i : ℕ) × (i < FRAME_WORDS) × (slice_index (W.words words.old) i % 2 ≢ 0) }
{
    for i in 0..FRAME_WORDS {
        if i != index && is_present(words.read(i)) {
            return true;
        }
    }
    false
}
