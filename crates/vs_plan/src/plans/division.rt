//! The end of a split, and of an unmap of parts: a frame filled with the parts of a page.
ghost use Rattle.std.specs.Prelude.{◌≡◌, ◌<◌, [], ◌∷◌, Some};
ghost use Rattle.vs_walk.specs.Memory.{Memory};
ghost use Rattle.vs_plan.specs.Planner.{HasGiven, AwaitsDivision, Awaits, Divides, IsSpareFor, sees_left};
ghost use Rattle.vs_plan.specs.Shown.{IsDivided, IsNext};
ghost use Rattle.vs_plan.specs.Request.{address_of};
ghost use Rattle.vs_plan.specs.Target.{frames_end};
ghost use Rattle.vs_plan.specs.inside.Ended.{DividesAround, HasEnded, IsAtEnd, IsEnd};

use crate::plans::plan::{Fill, Flush, Plan, Reply, Step, Store};
use crate::plans::planner::{Phase, Planner};
use crate::words::word::smaller;
use arrayvec::ArrayVec;
use vs_types::{Answer, Entry, Meaning, Page, Size, bits_in, index_at, page_word};

impl Planner {
    /// Asks for the frame of the table of the parts, where a page that can be split begins at the end of the way.
    #[inline(never)]
    pub(crate) fn end_split(&mut self, base: u64, word: u64) -> Step
        requires end { IsAtEnd self.old }
        requires divides { Divides self.old.request }
        requires place { address_of self.old.request ≡ base }
        ensures same { (self.new.target ≡ self.old.target)
            × (self.new.request ≡ self.old.request) }
        ensures awaits { Awaits self.new result }
        ensures fewer { sees_left self.new result < self.old.level }
        ensures given { HasGiven self.new [] result }
        ensures next { (memory : Memory) → HasEnded memory self.old word
            → IsNext memory self.new [] result }
    {
        let Meaning::Leaf(_, _) = Entry::new(word).read(self.level) else {
            let plan = self.plan_absent(base, word);
            self.phase = Phase::Ended;
            return Step::Planned(plan);
        };
        let offset = base % Size::at_level(self.level).bytes();
        if offset != 0 {
            return self.refuse(Reply::Answer(Answer::Inside(base - offset)));
        }
        if self.level == 1 {
            return self.refuse(Reply::Smallest);
        }
        self.phase = Phase::Division;
        self.height = self.level - 1;
        self.stores = ArrayVec::new();
        Step::Give
    }

    /// Fills this frame with the entries of the parts of the page, but for those in a gap, and links it in the page's place.
    #[inline(never)]
    pub(crate) fn divide(&mut self, base: u64, gap: u64, gap_count: u64, number: u64) -> Step
        requires awaits { AwaitsDivision self.old }
        requires request { DividesAround self.old.request base gap gap_count }
        requires in_range { number < frames_end self.old.target }
        ensures same { (self.new.target ≡ self.old.target)
            × (self.new.request ≡ self.old.request) }
        ensures planned { IsEnd result }
        ensures awaits { Awaits self.new result }
        ensures next { (memory : Memory) → IsDivided memory self.old
            → IsSpareFor memory self.old number
            → IsNext memory self.new (Some number ∷ []) result }
    {
        let word = self.words[self.level as usize];
        let Meaning::Leaf(phys, own) = Entry::new(word).read(self.level) else {
            return self.refuse(Reply::Answer(Answer::NotMapped));
        };
        let size = Size::at_level(self.level);
        let bits = bits_in(size, word);
        let part = Page {
            base,
            size: smaller(size),
            rights: own,
            phys,
        };
        let answer = Answer::Changed(self.rights.intersection(own));
        let mut plan = Plan::nothing(Reply::Answer(answer), bits);
        plan.fill = Some(Fill {
            frame: number,
            first: page_word(part, bits),
            step: part.size.bytes(),
            gap,
            gap_count,
        });
        plan.stores.push(Store {
            frame: self.number,
            index: index_at(self.level, base),
            old: word,
            new: Entry::table(number).word(),
        });
        plan.flush = Flush::Range(base, size);
        self.phase = Phase::Ended;
        Step::Planned(plan)
    }
}
