//! The planner: the way of an address, frame by frame, and what comes at its end.
ghost use Rattle.std.specs.Prelude.{◌≡◌, ◌≢◌, ◌+◌, ◌-◌, ◌<◌, ◌≤◌, ◌⊎◌, ℕ, [], Some, None, MatchOption, MatchResult, slice_index};
ghost use Rattle.std.specs.FinMap as finite;
ghost use Rattle.vs_types.specs.declared.addresses.frame.TheConstants.{FRAME_WORDS};
ghost use Rattle.vs_types.specs.declared.entries.entry.Meaning.{Meaning};
ghost use Rattle.vs_types.specs.Entry.{meaning};
ghost use Rattle.vs_walk.specs.Memory.{Memory};
ghost use Rattle.vs_plan.specs.Request.{IsRequest, request_fault};
ghost use Rattle.vs_types.specs.Depth.{levels, index_at};
ghost use Rattle.vs_space.specs.Path.{table_in};
ghost use Rattle.vs_types.specs.declared.addresses.page.Rights.{Rights};
ghost use Rattle.vs_plan.specs.declared.plans.request.Request.{Request};
ghost use Rattle.vs_plan.specs.Request.{address_of, lowest_of};
ghost use Rattle.vs_plan.specs.Planner.{HasGiven, AwaitsWords, Awaits, asked_by, sees_left};
ghost use Rattle.vs_plan.specs.Shown.{IsShown, IsDescended, IsNext};
ghost use Rattle.vs_plan.specs.Target.{frames_end};
ghost use Rattle.vs_plan.specs.declared.plans.plan.Step.{Step};
ghost use Rattle.vs_plan.specs.inside.Ended.{IsAtEnd, IsNoMap, HasEnded, IsRightAt};

use crate::plans::plan::{Flush, MOST_STORES, Plan, Reply, Step, Store};
use crate::plans::request::{BadRequest, Request};
use crate::plans::target::Target;
use crate::words::reading::FrameWords;
use crate::words::word::is_alone;
use arrayvec::ArrayVec;
use vs_types::{
    Answer, Entry, FRAME_WORDS, Meaning, Page, Rights, Size, bits_in, index_at, with_rights,
};

/// The length of a way: an index for each level that there can be, of which 0 is of none.
const WAY_LENGTH: usize = 6;

/// What a planner waits for.
#[derive(Clone, Copy, Debug, PartialEq, Eq)]
pub enum Asks {
    /// The words of the frame of this number.
    Words(u64),
    /// A frame whose words are all 0.
    Frame,
    /// Nothing: its plan was made.
    Nothing,
}

/// How far a planner has come.
#[derive(Clone, Copy, Debug, PartialEq, Eq)]
pub enum Phase {
    /// On the way of the address, from the root down.
    Descent,
    /// Below the level of a page that is to be mapped, towards the first page there.
    Search,
    /// At an absent entry, below which new tables are filled, from the lowest up.
    Growth,
    /// At the entry of a page that is to be split, whose parts' table is filled next.
    Division,
    /// Its plan was made.
    Ended,
}

/// One call on a page table, from its request to its plan.
#[derive(Drop)]
pub struct Planner {
    pub target: Target,
    pub request: Request,
    pub phase: Phase,
    /// The level of the table that is seen next, or of the one with the absent entry.
    pub level: u8,
    /// Its frame number.
    pub number: u64,
    /// What the entries that lead to it allow.
    pub rights: Rights,
    /// The frame numbers of the tables on the way and the words of their entries, by level.
    pub numbers: [u64; WAY_LENGTH],
    pub words: [u64; WAY_LENGTH],
    /// The level of the lowest table on the way that stays where the page is removed: the others have no word but that on the way.
    pub stop: u8,
    /// In the search: where that table begins.
    pub base: u64,
    /// In the growth: the level of the next new table, and the number of the one below it.
    pub height: u8,
    pub below: u64,
    /// In the growth: the stores so far.
    pub stores: ArrayVec<Store, MOST_STORES>,
}

impl Planner {
    /// The planner of a request.
    ///
    /// # Errors
    ///
    /// `BadRequest`, the first that holds.
    pub fn new(target: Target, request: Request) -> Result<Planner, BadRequest>
        ensures made { MatchResult result
            (λ p. IsRequest target request × (p.target ≡ target) × (p.request ≡ request))
            (λ e. request_fault target request ≡ Some e) }
        ensures awaits { MatchResult result (λ p. AwaitsWords p) (λ e. Unit {0}) }
        ensures shown { MatchResult result
            (λ p. (memory : Memory) → IsShown memory p) (λ e. Unit {0}) }
    {
        request.test(target)?;
        Ok(Planner {
            target,
            request,
            phase: Phase::Descent,
            level: target.depth.levels(),
            number: target.root,
            rights: Rights::ALL,
            numbers: [0; WAY_LENGTH],
            words: [0; WAY_LENGTH],
            stop: target.highest_link(),
            base: 0,
            height: 0,
            below: 0,
            stores: ArrayVec::new(),
        })
    }

    /// What it waits for.
    pub fn asks(&self) -> Asks
        ensures { result ≡ asked_by self.now }
    {
        match self.phase {
            Phase::Descent | Phase::Search => Asks::Words(self.number),
            Phase::Growth | Phase::Division => Asks::Frame,
            Phase::Ended => Asks::Nothing,
        }
    }

    /// Takes the words of the frame that was asked for. It asks for one frame a level at most.
    #[inline(never)]
    pub fn see<W: FrameWords>(&mut self, words: &mut W) -> Step
        requires awaits { AwaitsWords self.old }
        requires unread { (i : ℕ) → i < FRAME_WORDS → W.is_unread words.old i }
        ensures same { (self.new.target ≡ self.old.target)
            × (self.new.request ≡ self.old.request) }
        ensures awaits { Awaits self.new result }
        ensures fewer { sees_left self.new result < self.old.level }
        ensures given { HasGiven self.new [] result }
        ensures next { (memory : Memory) → IsShown memory self.old
            → finite.get memory self.old.number ≡ Some (W.words words.old)
            → IsNext memory self.new [] result }
    {
        match self.phase {
            Phase::Descent => self.descend(words),
            Phase::Search => self.search(words),
            Phase::Growth | Phase::Division | Phase::Ended => unreachable!(),
        }
    }

    /// Goes on along the way.
    fn descend<W: FrameWords>(&mut self, words: &mut W) -> Step
        requires awaits { AwaitsWords self.old }
        requires phase { self.old.phase ≡ Phase.Descent }
        requires unread { (i : ℕ) → i < FRAME_WORDS → W.is_unread words.old i }
        ensures same { (self.new.target ≡ self.old.target)
            × (self.new.request ≡ self.old.request) }
        ensures awaits { Awaits self.new result }
        ensures fewer { sees_left self.new result < self.old.level }
        ensures given { HasGiven self.new [] result }
        ensures next { (memory : Memory) → IsDescended memory self.old
            → finite.get memory self.old.number ≡ Some (W.words words.old)
            → IsNext memory self.new [] result }
    {
        let index = index_at(self.level, self.request.address());
        let word = words.read(index);
        self.follow(word, words)
    }

    /// Takes the words of the frame that was asked for on the way down, by the word of its entry, which was read already. As `see` does. A link
    /// to a table within the physical addresses leads on: the way ends at no other word above the request's lowest level.
    pub fn follow<W: FrameWords>(&mut self, word: u64, words: &mut W) -> Step
        requires awaits { AwaitsWords self.old }
        requires phase { self.old.phase ≡ Phase.Descent }
        requires read { word ≡ slice_index (W.words words.old)
            (index_at self.old.level (address_of self.old.request)) }
        requires unread { (i : ℕ) → i < FRAME_WORDS
            → i ≢ index_at self.old.level (address_of self.old.request) → W.is_unread words.old i }
        ensures same { (self.new.target ≡ self.old.target)
            × (self.new.request ≡ self.old.request) }
        ensures awaits { Awaits self.new result }
        ensures fewer { sees_left self.new result < self.old.level }
        ensures given { HasGiven self.new [] result }
        ensures next { (memory : Memory) → IsDescended memory self.old
            → finite.get memory self.old.number ≡ Some (W.words words.old)
            → IsNext memory self.new [] result }
        ensures leads { (next : ℕ) (own : Rights) → lowest_of self.old.request < self.old.level
            → meaning self.old.level word ≡ Meaning.Table next own
            → next < frames_end self.old.target
            → (result ≡ Step.See next) × (self.new.level ≡ self.old.level - 1)
            × (self.new.phase ≡ Phase.Descent) }
    {
        let level = self.level;
        let index = index_at(level, self.request.address());
        self.stop = self.stop_at(words, index);
        self.numbers[level as usize] = self.number;
        self.words[level as usize] = word;
        let Some((next, own)) = self.leads_on(word) else {
            return self.end(word, words);
        };
        if next >= self.target.frames_end() {
            return self.refuse(Reply::Reserved(self.number, index));
        }
        self.rights = self.rights.intersection(own);
        self.number = next;
        self.level = level - 1;
        Step::See(next)
    }

    /// The table to which a word leads, and what it allows, where the way goes on below its level.
    fn leads_on(&self, word: u64) -> Option<(u64, Rights)>
        requires some { 1 ≤ self.now.level }
        requires few { self.now.level ≤ levels self.now.target.depth }
        ensures { MatchOption result
            (lowest_of self.now.request < self.now.level
            → table_in (Some (meaning self.now.level word)) ≡ None)
            (λ on. (lowest_of self.now.request < self.now.level)
            × (meaning self.now.level word ≡ Meaning.Table on.0 on.1)) }
    {
        if self.level <= self.request.lowest() {
            return None;
        }
        match Entry::new(word).read(self.level) {
            Meaning::Table(next, own) => Some((next, own)),
            _ => None,
        }
    }

    /// The level of the lowest table that stays, where the next one has these words, and its entry this index.
    fn stop_at<W: FrameWords>(&self, words: &mut W, index: usize) -> u8
        requires in_range { index < FRAME_WORDS }
        requires unread { (i : ℕ) → i < FRAME_WORDS → i ≢ index → W.is_unread words.old i }
        ensures same { W.words words.new ≡ W.words words.old }
        ensures untouched { ((base : ℕ) → self.now.request ≡ Request.Unmap base → ⊥)
            → words.new ≡ words.old }
        ensures at_most { result ≤ self.now.stop }
        ensures alone { ((result ≡ self.now.level)
            × ((base : ℕ) → self.now.request ≡ Request.Unmap base → self.now.level < self.now.stop
            → (i : ℕ) × (i ≢ index) × (slice_index (W.words words.old) i ≢ 0)))
            ⊎ ((result ≡ self.now.stop)
            × (self.now.level < self.now.stop
            → (i : ℕ) → i < FRAME_WORDS → i ≢ index
            → slice_index (W.words words.old) i ≡ 0)) }
    {
        if self.level >= self.stop {
            return self.stop;
        }
        if !self.request.unlinks() {
            return self.level;
        }
        if is_alone(words, index) {
            return self.stop;
        }
        self.level
    }

    /// Does what the request asks at the end of the way, at this word.
    #[inline(never)]
    fn end<W: FrameWords>(&mut self, word: u64, words: &mut W) -> Step
        requires end { IsAtEnd self.old }
        requires unread { ((base : ℕ) → self.old.request ≡ Request.Unmap base → ⊥)
            → (i : ℕ) → i < FRAME_WORDS
            → i ≢ index_at self.old.level (address_of self.old.request)
            → W.is_unread words.old i }
        ensures same { (self.new.target ≡ self.old.target)
            × (self.new.request ≡ self.old.request) }
        ensures awaits { Awaits self.new result }
        ensures fewer { sees_left self.new result < self.old.level }
        ensures given { HasGiven self.new [] result }
        ensures next { (memory : Memory) → HasEnded memory self.old word
            → finite.get memory self.old.number ≡ Some (W.words words.old)
            → IsNext memory self.new [] result }
    {
        let plan = match self.request {
            Request::Map(page, bits) => return self.end_map(page, bits, word),
            Request::Split(base) => return self.end_split(base, word),
            Request::UnmapPart(base, _, _) => return self.end_split(base, word),
            Request::Unmap(base) => self.plan_unmap(base, word),
            Request::Protect(base, rights) => self.plan_protect(base, rights, word),
            Request::Ask(address) => self.plan_ask(address, word),
            Request::Remap(base, phys, rights) => self.plan_remap(base, phys, rights, word),
            Request::Join(base) => self.plan_join(base, word, words),
            Request::Prune(address) => self.plan_prune(address, word, words),
            Request::Collapse(base, phys, rights) => {
                self.plan_collapse(base, phys, rights, word, words)
            }
        };
        self.phase = Phase::Ended;
        Step::Planned(plan)
    }

    /// Finds the page of the address at the end of the way.
    #[inline(never)]
    fn plan_ask(&self, address: u64, word: u64) -> Plan
        requires end { IsAtEnd self.now }
        requires request { self.now.request ≡ Request.Ask address }
        ensures { IsRightAt self.now word result }
    {
        let Meaning::Leaf(phys, own) = Entry::new(word).read(self.level) else {
            return self.plan_absent(address, word);
        };
        let size = Size::at_level(self.level);
        let rights = self.rights.intersection(own);
        let answer = Answer::Mapped(phys + address % size.bytes(), size, rights);
        Plan::nothing(Reply::Answer(answer), bits_in(size, word))
    }

    /// The plan if no page covers the address.
    #[inline(never)]
    pub(crate) fn plan_absent(&self, address: u64, word: u64) -> Plan
        requires end { IsAtEnd self.now }
        requires no_map { IsNoMap self.now.request }
        requires request { address_of self.now.request ≡ address }
        requires none { (phys : ℕ) (own : Rights)
            → meaning self.now.level word ≢ Meaning.Leaf phys own }
        ensures { IsRightAt self.now word result }
    {
        match Entry::new(word).read(self.level) {
            Meaning::Reserved => {
                let index = index_at(self.level, address);
                Plan::nothing(Reply::Reserved(self.number, index), 0)
            }
            _ => Plan::nothing(Reply::Answer(Answer::NotMapped), 0),
        }
    }

    /// Gives the page at the end of the way other rights, by one store.
    #[inline(never)]
    fn plan_protect(&self, base: u64, rights: Rights, word: u64) -> Plan
        requires end { IsAtEnd self.now }
        requires request { self.now.request ≡ Request.Protect base rights }
        ensures { IsRightAt self.now word result }
    {
        let Meaning::Leaf(_, own) = Entry::new(word).read(self.level) else {
            return self.plan_absent(base, word);
        };
        let size = Size::at_level(self.level);
        let offset = base % size.bytes();
        if offset != 0 {
            return Plan::nothing(Reply::Answer(Answer::Inside(base - offset)), 0);
        }
        if !self.rights.permits(rights) {
            return Plan::nothing(Reply::Rights, 0);
        }
        let answer = Answer::Changed(self.rights.intersection(own));
        let mut plan = Plan::nothing(Reply::Answer(answer), bits_in(size, word));
        let new = with_rights(word, rights);
        if new != word {
            plan.stores.push(Store {
                frame: self.number,
                index: index_at(self.level, base),
                old: word,
                new,
            });
            plan.flush = Flush::Page(base, size);
        }
        plan
    }

    /// Removes the page at the end of the way, and then unlinks the tables that are emptied, from the lowest up.
    #[inline(never)]
    fn plan_unmap(&self, base: u64, word: u64) -> Plan
        requires end { IsAtEnd self.now }
        requires request { self.now.request ≡ Request.Unmap base }
        ensures { IsRightAt self.now word result }
    {
        let Meaning::Leaf(phys, own) = Entry::new(word).read(self.level) else {
            return self.plan_absent(base, word);
        };
        let size = Size::at_level(self.level);
        let offset = base % size.bytes();
        if offset != 0 {
            return Plan::nothing(Reply::Answer(Answer::Inside(base - offset)), 0);
        }
        let answer = Answer::Removed(phys, size, self.rights.intersection(own));
        let mut plan = Plan::nothing(Reply::Answer(answer), bits_in(size, word));
        plan.stores.push(Store {
            frame: self.number,
            index: index_at(self.level, base),
            old: word,
            new: 0,
        });
        plan.flush = Flush::Page(base, size);
        let mut level = self.level;
        while level < self.stop {
            plan.unlinked.push(self.numbers[level as usize]);
            level += 1;
            plan.stores.push(Store {
                frame: self.numbers[level as usize],
                index: index_at(level, base),
                old: self.words[level as usize],
                new: 0,
            });
            plan.flush = Flush::PageAndTables(base, size);
        }
        plan
    }
}
