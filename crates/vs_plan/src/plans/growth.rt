//! The end of a map, and the tables that it links: frames taken, filled and linked.
ghost use Rattle.std.specs.Prelude.{◌≡◌, ◌<◌, ◌+◌, ◌-◌, ◌^◌, ℕ, List, length, [], ◌∷◌, Option, Some, IfSome, ◌++◌};
ghost use Rattle.vs_types.specs.declared.entries.entry.Meaning.{Meaning};
ghost use Rattle.vs_types.specs.Entry.{meaning};
ghost use Rattle.vs_types.specs.declared.addresses.page.Page.{Page};
ghost use Rattle.vs_walk.specs.Memory.{Memory};
ghost use Rattle.vs_plan.specs.declared.plans.planner.Phase.{Phase};
ghost use Rattle.vs_plan.specs.declared.plans.request.Request.{Request};
ghost use Rattle.vs_plan.specs.Planner.{HasGiven, frames_given, AwaitsFrame, AwaitsGrowth, Awaits, IsSpareFor, sees_left, gives_left};
ghost use Rattle.vs_plan.specs.Shown.{IsShown, IsGrown, IsNext};
ghost use Rattle.vs_plan.specs.Target.{frames_end};
ghost use Rattle.vs_plan.specs.inside.Ended.{IsAtEnd, HasEnded, IsEnd, IsPlanned, IsFilledUp};

use crate::plans::plan::{Plan, Reply, Step, Store};
use crate::plans::planner::{Phase, Planner};
use crate::plans::request::Request;
use arrayvec::ArrayVec;
use std::mem;
use vs_types::{Answer, Entry, Meaning, Page, Size, index_at, page_word};

impl Planner {
    /// Takes a frame whose words are all 0, or none. It asks for one frame a level below that of the root at most, and only where
    /// all that it asks for are used.
    #[inline(never)]
    pub fn give(&mut self, frame: Option<u64>) -> Step
        requires { AwaitsFrame self.old }
        ensures same { (self.new.target ≡ self.old.target)
            × (self.new.request ≡ self.old.request) }
        ensures awaits { Awaits self.new result }
        ensures fewer { gives_left self.new result < self.old.level - self.old.height }
        ensures given { IfSome frame (λ number.
            HasGiven self.new (frames_given self.old ++ number ∷ []) result) }
        ensures next { (memory : Memory) → IsShown memory self.old
            → IfSome frame (λ number. IsSpareFor memory self.old number)
            → IsNext memory self.new (frame ∷ []) result }
    {
        let Some(number) = frame else {
            return self.refuse(Reply::NoFrame);
        };
        if number >= self.target.frames_end() {
            return self.refuse(Reply::FrameRange(number));
        }
        match self.request {
            Request::Map(page, bits) => self.grow_on(page, bits, number),
            Request::Split(base) => self.divide(base, 0, 0, number),
            Request::UnmapPart(base, gap, count) => self.divide(base, gap, count, number),
            _ => unreachable!(),
        }
    }

    /// Fills the next new table, in this frame, and links them all if it was the last.
    #[inline(never)]
    fn grow_on(&mut self, page: Page, bits: u64, number: u64) -> Step
        requires awaits { AwaitsGrowth self.old }
        requires request { self.old.request ≡ Request.Map page bits }
        requires in_range { number < 2 ^ 40 }
        requires within { number < frames_end self.old.target }
        ensures same { (self.new.target ≡ self.old.target)
            × (self.new.request ≡ self.old.request) }
        ensures awaits { Awaits self.new result }
        ensures fewer { gives_left self.new result < self.old.level - self.old.height }
        ensures given { HasGiven self.new (frames_given self.old ++ number ∷ []) result }
        ensures next { (memory : Memory) (offered : List (Option ℕ)) → IsGrown memory self.old
            → IsSpareFor memory self.old number → IsNext memory self.new offered result }
    {
        self.fill(page, bits, number);
        if self.height < self.level {
            return Step::Give;
        }
        self.link(page)
    }

    /// Ends with a plan that changes nothing.
    #[inline(always)]
    pub(crate) fn refuse(&mut self, reply: Reply) -> Step
        ensures same { self.new ≡ record self.old { phase = Phase.Ended } }
        ensures planned { IsPlanned reply result }
    {
        self.phase = Phase::Ended;
        Step::Planned(Plan::nothing(reply, 0))
    }

    /// Maps the page at the end of its way, where nothing is mapped.
    #[inline(never)]
    pub(crate) fn end_map(&mut self, page: Page, bits: u64, word: u64) -> Step
        requires end { IsAtEnd self.old }
        requires request { self.old.request ≡ Request.Map page bits }
        ensures same { (self.new.target ≡ self.old.target)
            × (self.new.request ≡ self.old.request) }
        ensures awaits { Awaits self.new result }
        ensures fewer { sees_left self.new result < self.old.level }
        ensures given { HasGiven self.new [] result }
        ensures next { (memory : Memory) → HasEnded memory self.old word
            → IsNext memory self.new [] result }
    {
        match Entry::new(word).read(self.level) {
            Meaning::Absent => self.grow(page, bits, word),
            Meaning::Leaf(_, _) => {
                let offset = page.base % Size::at_level(self.level).bytes();
                self.refuse(Reply::Answer(Answer::Overlap(page.base - offset)))
            }
            Meaning::Table(next, _) => {
                if next >= self.target.frames_end() {
                    let index = index_at(self.level, page.base);
                    return self.refuse(Reply::Reserved(self.number, index));
                }
                self.phase = Phase::Search;
                self.base = page.base;
                self.number = next;
                self.level -= 1;
                Step::See(next)
            }
            Meaning::Reserved => {
                let index = index_at(self.level, page.base);
                self.refuse(Reply::Reserved(self.number, index))
            }
        }
    }

    /// Writes the page's entry over this absent one, or begins to fill the new tables that lead to it.
    #[inline(never)]
    fn grow(&mut self, page: Page, bits: u64, word: u64) -> Step
        requires end { IsAtEnd self.old }
        requires request { self.old.request ≡ Request.Map page bits }
        requires absent { meaning self.old.level word ≡ Meaning.Absent }
        ensures same { (self.new.target ≡ self.old.target)
            × (self.new.request ≡ self.old.request) }
        ensures awaits { Awaits self.new result }
        ensures fewer { sees_left self.new result < self.old.level }
        ensures given { HasGiven self.new [] result }
        ensures next { (memory : Memory) → HasEnded memory self.old word
            → IsNext memory self.new [] result }
    {
        if !self.rights.permits(page.rights) {
            return self.refuse(Reply::Rights);
        }
        if self.level > page.size.level() {
            self.phase = Phase::Growth;
            self.height = page.size.level();
            self.below = 0;
            self.stores = ArrayVec::new();
            return Step::Give;
        }
        let mut plan = Plan::nothing(Reply::Answer(Answer::Done), 0);
        plan.stores.push(Store {
            frame: self.number,
            index: index_at(self.level, page.base),
            old: word,
            new: page_word(page, bits),
        });
        self.phase = Phase::Ended;
        Step::Planned(plan)
    }

    /// Fills the next new table, in this frame: with the entry of the page, or with the link to the table below.
    fn fill(&mut self, page: Page, bits: u64, number: u64)
        requires awaits { AwaitsGrowth self.old }
        requires request { self.old.request ≡ Request.Map page bits }
        requires in_range { number < 2 ^ 40 }
        requires within { number < frames_end self.old.target }
        ensures same { self.new ≡ record self.old {
          height = self.old.height + 1;
          below = number;
          stores = self.new.stores;
        } }
        ensures grown { (memory : Memory) → IsGrown memory self.old
            → IsSpareFor memory self.old number → IsGrown memory self.new }
        ensures count { length self.new.stores.items ≡ length self.old.stores.items + 1 }
        ensures given { frames_given self.new ≡ frames_given self.old ++ number ∷ [] }
    {
        let new = if self.height == page.size.level() {
            page_word(page, bits)
        } else {
            Entry::table(self.below).word()
        };
        self.stores.push(Store {
            frame: number,
            index: index_at(self.height, page.base),
            old: 0,
            new,
        });
        self.below = number;
        self.height += 1;
    }

    /// Links the new tables, the topmost of which was filled last.
    fn link(&mut self, page: Page) -> Step
        requires filled { IsFilledUp self.old }
        requires request { (bits : ℕ) × (self.old.request ≡ Request.Map page bits) }
        ensures same { (self.new.target ≡ self.old.target)
            × (self.new.request ≡ self.old.request) }
        ensures planned { IsEnd result }
        ensures awaits { Awaits self.new result }
        ensures next { (memory : Memory) (offered : List (Option ℕ)) → IsGrown memory self.old
            → IsNext memory self.new offered result }
    {
        self.stores.push(Store {
            frame: self.number,
            index: index_at(self.level, page.base),
            old: self.words[self.level as usize],
            new: Entry::table(self.below).word(),
        });
        let mut plan = Plan::nothing(Reply::Answer(Answer::Done), 0);
        plan.stores = mem::replace(&mut self.stores, ArrayVec::new());
        self.phase = Phase::Ended;
        Step::Planned(plan)
    }
}
