//! The search for the first page below a table.
ghost use Rattle.std.specs.Prelude.{◌≡◌, ◌<◌, ◌%◌, ℕ, [], Some, IfNone, IfSome, slice_index};
ghost use Rattle.std.specs.FinMap as finite;
ghost use Rattle.vs_types.specs.declared.addresses.frame.TheConstants.{FRAME_WORDS};
ghost use Rattle.vs_walk.specs.Memory.{Memory};
ghost use Rattle.vs_plan.specs.declared.plans.planner.Phase.{Phase};
ghost use Rattle.vs_plan.specs.Planner.{HasGiven, AwaitsWords, Awaits, sees_left};
ghost use Rattle.vs_plan.specs.Shown.{IsSearched, IsNext};
ghost use Rattle.vs_plan.specs.inside.Ended.{IsFirstPresent};

use crate::plans::plan::{Reply, Step};
use crate::plans::planner::Planner;
use crate::words::reading::FrameWords;
use vs_types::{Answer, Entry, FRAME_WORDS, Meaning, entry_offset, is_present};

impl Planner {
    /// Goes on towards the first page below the level of the one that is to be mapped.
    #[inline(never)]
    pub(crate) fn search<W: FrameWords>(&mut self, words: &mut W) -> Step
        requires awaits { AwaitsWords self.old }
        requires phase { self.old.phase ≡ Phase.Search }
        requires unread { (i : ℕ) → i < FRAME_WORDS → W.is_unread words.old i }
        ensures same { (self.new.target ≡ self.old.target)
            × (self.new.request ≡ self.old.request) }
        ensures awaits { Awaits self.new result }
        ensures fewer { sees_left self.new result < self.old.level }
        ensures given { HasGiven self.new [] result }
        ensures next { (memory : Memory) → IsSearched memory self.old
            → finite.get memory self.old.number ≡ Some (W.words words.old)
            → IsNext memory self.new [] result }
    {
        let level = self.level;
        let Some((index, word)) = first_present(words) else {
            return self.refuse(Reply::Empty(self.number, self.base));
        };
        self.base = self.base.wrapping_add(entry_offset(level, index));
        match Entry::new(word).read(level) {
            Meaning::Table(next, _) => {
                if next >= self.target.frames_end() {
                    return self.refuse(Reply::Reserved(self.number, index));
                }
                self.number = next;
                self.level = level - 1;
                Step::See(next)
            }
            Meaning::Leaf(_, _) => self.refuse(Reply::Answer(Answer::Overlap(self.base))),
            Meaning::Absent | Meaning::Reserved => {
                self.refuse(Reply::Reserved(self.number, index))
            }
        }
    }
}

/// The index of the first word that is present, and the word.
fn first_present<W: FrameWords>(words: &mut W) -> Option<(usize, u64)>
    requires { (i : ℕ) → i < FRAME_WORDS → W.is_unread words.old i }
    ensures none { IfNone result
        ((i : ℕ) → i < FRAME_WORDS → slice_index (W.words words.old) i % 2 ≡ 0) }
    ensures first { IfSome result (λ found. IsFirstPresent (W.words words.old) found.0
        × (found.1 ≡ slice_index (W.words words.old) found.0)) }
{
    for index in 0..FRAME_WORDS {
        let word = words.read(index);
        if is_present(word) {
            return Some((index, word));
        }
    }
    None
}
