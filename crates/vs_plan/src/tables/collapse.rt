//! The plan of a collapse.
ghost use Rattle.std.specs.Prelude.{◌≡◌, ◌≢◌, ◌+◌, ◌%◌, ◌^◌, ◌≤◌, ◌<◌, ℕ, None, IfNone, IfSome, slice_index};
ghost use Rattle.vs_types.specs.Depth.{index_at};
ghost use Rattle.vs_types.specs.Page.{bytes_of};
ghost use Rattle.vs_types.specs.declared.addresses.frame.TheConstants.{FRAME_WORDS};
ghost use Rattle.vs_types.specs.declared.addresses.page.Size.{Size};
ghost use Rattle.vs_plan.specs.declared.plans.request.Request.{Request};
ghost use Rattle.vs_plan.specs.Changes.{larger, not_over};
ghost use Rattle.vs_plan.specs.Answered.{IsLike};
ghost use Rattle.vs_plan.specs.inside.Ended.{IsAtEnd, IsFirstUnlike, IsRightWith};

use crate::plans::plan::{Flush, Plan, Reply, Store};
use crate::plans::planner::Planner;
use crate::words::reading::FrameWords;
use crate::words::remap::phys_refusal;
use crate::words::word::larger;
use vs_types::{
    Answer, Entry, FRAME_WORDS, Meaning, Page, Rights, Size, bits_in, flagged, index_at, page_word,
    unflagged, with_address,
};

impl Planner {
    /// Puts one page in the place of those of the table at the end of the way, which has these words, where they are like the first.
    #[inline(never)]
    pub(crate) fn plan_collapse<W: FrameWords>(
        &self,
        base: u64,
        phys: u64,
        rights: Rights,
        word: u64,
        words: &mut W,
    ) -> Plan
        requires end { IsAtEnd self.now }
        requires request { self.now.request ≡ Request.Collapse base phys rights }
        requires unread { (i : ℕ) → i < FRAME_WORDS → i ≢ index_at self.now.level base
            → W.is_unread words.old i }
        ensures { IsRightWith self.now word (W.words words.old) result }
    {
        let Meaning::Leaf(_, own) = Entry::new(word).read(self.level) else {
            return self.plan_absent(base, word);
        };
        let size = Size::at_level(self.level);
        let offset = base % size.bytes();
        if offset != 0 {
            return Plan::nothing(Reply::Answer(Answer::Inside(base - offset)), 0);
        }
        if let Some(reply) = not_over(base, phys, self.target.phys_bits, size) {
            return Plan::nothing(reply, 0);
        }
        if !self.rights.permits(rights) {
            return Plan::nothing(Reply::Rights, 0);
        }
        if self.level >= self.target.highest_link() {
            return Plan::nothing(Reply::Pinned, 0);
        }
        if let Some(index) = first_unlike(word, words, size) {
            return Plan::nothing(Reply::Apart(index), 0);
        }
        let answer = Answer::Changed(self.rights.intersection(own));
        let mut plan = Plan::nothing(Reply::Answer(answer), bits_in(size, word));
        let whole = Page {
            base,
            size: larger(size),
            rights,
            phys,
        };
        let above = self.level + 1;
        plan.stores.push(Store {
            frame: self.numbers[above as usize],
            index: index_at(above, base),
            old: self.words[above as usize],
            new: page_word(whole, flagged(bits_in(size, word))),
        });
        plan.unlinked.push(self.number);
        plan.flush = Flush::Range(base, whole.size);
        plan
    }
}

/// Why no page of the next larger size can lie at this base and this physical address.
fn not_over(base: u64, phys: u64, phys_bits: u8, size: Size) -> Option<Reply>
    requires { phys_bits ≤ 52 }
    ensures is { result ≡ not_over base phys phys_bits size }
    ensures small { result ≡ None → size ≢ Size.G1 }
    ensures aligned { result ≡ None → (base % bytes_of (larger size) ≡ 0)
        × (phys % bytes_of (larger size) ≡ 0) }
    ensures within { result ≡ None → phys + bytes_of (larger size) ≤ 2 ^ 51 }
{
    if size == Size::G1 {
        return Some(Reply::Largest);
    }
    let whole = larger(size);
    if base % whole.bytes() != 0 {
        return Some(Reply::Unaligned);
    }
    phys_refusal(phys, phys_bits, whole)
}

/// The first index but 0 at which these words, of entries of pages of this size, aren't like the first, which is this one.
fn first_unlike<W: FrameWords>(first: u64, words: &mut W, size: Size) -> Option<usize>
    requires { (i : ℕ) → 1 ≤ i → i < FRAME_WORDS → W.is_unread words.old i }
    ensures none { IfNone result ((i : ℕ) → 1 ≤ i → i < FRAME_WORDS
        → IsLike size first (slice_index (W.words words.old) i)) }
    ensures first { IfSome result (IsFirstUnlike first (W.words words.old) size) }
{
    let rest = unflagged(with_address(size, first, 0));
    for index in 1..FRAME_WORDS {
        let here = unflagged(with_address(size, words.read(index), 0));
        if here != rest {
            return Some(index);
        }
    }
    None
}
