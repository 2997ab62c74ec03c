//! The plan of a join.
ghost use Rattle.std.specs.Prelude.{◌≡◌, ◌≢◌, ◌+◌, ◌%◌, ◌≤◌, ◌<◌, ℕ, None, IfNone, IfSome, slice_index};
ghost use Rattle.vs_types.specs.Depth.{index_at};
ghost use Rattle.vs_types.specs.Entry.{meaning, size_at};
ghost use Rattle.vs_types.specs.Page.{bytes_of};
ghost use Rattle.vs_types.specs.declared.entries.entry.Meaning.{Meaning};
ghost use Rattle.vs_types.specs.declared.addresses.frame.TheConstants.{FRAME_WORDS};
ghost use Rattle.vs_types.specs.declared.limits.TheConstants.{MOST_LEVELS};
ghost use Rattle.vs_types.specs.declared.addresses.page.Rights.{Rights};
ghost use Rattle.vs_types.specs.declared.addresses.page.Size.{Size};
ghost use Rattle.vs_plan.specs.declared.plans.request.Request.{Request};
ghost use Rattle.vs_plan.specs.Changes.{larger, not_first};
ghost use Rattle.vs_plan.specs.Answered.{Follows};
ghost use Rattle.vs_plan.specs.inside.Ended.{IsAtEnd, IsFirstApart, IsRightWith, IsWholeStore};

use crate::plans::plan::{Flush, Plan, Reply, Store};
use crate::plans::planner::Planner;
use crate::words::reading::FrameWords;
use crate::words::word::larger;
use vs_types::{
    Answer, Entry, FRAME_WORDS, Meaning, Page, Rights, Size, bits_in, flagged, index_at, page_word,
    unflagged,
};

impl Planner {
    /// Puts one page in the place of those of the table at the end of the way, which has these words, where they follow on from the first.
    #[inline(never)]
    pub(crate) fn plan_join<W: FrameWords>(&self, base: u64, word: u64, words: &mut W) -> Plan
        requires end { IsAtEnd self.now }
        requires request { self.now.request ≡ Request.Join base }
        requires unread { (i : ℕ) → i < FRAME_WORDS → i ≢ index_at self.now.level base
            → W.is_unread words.old i }
        ensures { IsRightWith self.now word (W.words words.old) result }
    {
        let Meaning::Leaf(phys, own) = Entry::new(word).read(self.level) else {
            return self.plan_absent(base, word);
        };
        let size = Size::at_level(self.level);
        let offset = base % size.bytes();
        if offset != 0 {
            return Plan::nothing(Reply::Answer(Answer::Inside(base - offset)), 0);
        }
        if let Some(reply) = not_first(base, phys, size) {
            return Plan::nothing(reply, 0);
        }
        if self.level >= self.target.highest_link() {
            return Plan::nothing(Reply::Pinned, 0);
        }
        if let Some(index) = first_apart(word, words, size) {
            return Plan::nothing(Reply::Apart(index), 0);
        }
        let answer = Answer::Changed(self.rights.intersection(own));
        let mut plan = Plan::nothing(Reply::Answer(answer), bits_in(size, word));
        plan.stores.push(self.whole_store(base, phys, own, word));
        plan.unlinked.push(self.number);
        plan.flush = Flush::Range(base, larger(size));
        plan
    }

    /// The store of one page's entry in the place of the link to the table at the end of the way, whose first entry is this word.
    fn whole_store(&self, base: u64, phys: u64, own: Rights, word: u64) -> Store
        requires end { IsAtEnd self.now }
        requires leaf { meaning self.now.level word ≡ Meaning.Leaf phys own }
        requires small { size_at self.now.level ≢ Size.G1 }
        requires aligned { phys % bytes_of (larger (size_at self.now.level)) ≡ 0 }
        ensures { IsWholeStore self.now base phys own word result }
    {
        let above = self.level + 1;
        let link = self.words[above as usize];
        let size = Size::at_level(self.level);
        let whole = Page {
            base,
            size: larger(size),
            rights: allowed_by(above, link).intersection(own),
            phys,
        };
        Store {
            frame: self.numbers[above as usize],
            index: index_at(above, base),
            old: link,
            new: page_word(whole, flagged(bits_in(size, word))),
        }
    }
}

/// What the link to a table allows, which is this word of a table of this level. Any other entry allows everything.
fn allowed_by(level: u8, link: u64) -> Rights
    requires some { 1 ≤ level }
    requires few { level ≤ MOST_LEVELS }
    ensures { (number : ℕ) (own : Rights) → meaning level link ≡ Meaning.Table number own
        → result ≡ own }
{
    match Entry::new(link).read(level) {
        Meaning::Table(_, own) => own,
        _ => Rights::ALL,
    }
}

/// Why a page at this base, with this physical address, is not the first part of a larger one.
fn not_first(base: u64, phys: u64, size: Size) -> Option<Reply>
    ensures is { result ≡ not_first base phys size }
    ensures small { result ≡ None → size ≢ Size.G1 }
    ensures aligned { result ≡ None → phys % bytes_of (larger size) ≡ 0 }
{
    if size == Size::G1 {
        return Some(Reply::Largest);
    }
    let bytes = larger(size).bytes();
    if base % bytes != 0 {
        return Some(Reply::Unaligned);
    }
    if phys % bytes != 0 {
        return Some(Reply::PhysUnaligned);
    }
    None
}

/// The first index but 0 at which these words, of entries of pages of this size, don't follow on from the first, which is this one.
fn first_apart<W: FrameWords>(first: u64, words: &mut W, size: Size) -> Option<usize>
    requires { (i : ℕ) → 1 ≤ i → i < FRAME_WORDS → W.is_unread words.old i }
    ensures none { IfNone result ((i : ℕ) → 1 ≤ i → i < FRAME_WORDS
        → Follows size first i (slice_index (W.words words.old) i)) }
    ensures first { IfSome result (IsFirstApart first (W.words words.old) size) }
{
    let start = unflagged(first);
    for index in 1..FRAME_WORDS {
        let here = unflagged(words.read(index));
        if here < start || here - start != index as u64 * size.bytes() {
            return Some(index);
        }
    }
    None
}
