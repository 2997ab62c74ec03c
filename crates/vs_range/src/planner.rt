//! The planner of a range: the way of its first page, and then a run of pages in the table in which that ends.
ghost use Rattle.std.specs.Prelude.{◌≡◌, ◌≢◌, ◌+◌, ◌-◌, ◌<◌, ◌≤◌, ◌++◌, ◌∷◌, ℕ, [], IfSome, List, MatchResult, Some, cond, slice_index, true};
ghost use Rattle.vs_types.specs.declared.addresses.frame.TheConstants.{FRAME_WORDS};
ghost use Rattle.vs_types.specs.Depth.{index_at};
ghost use Rattle.vs_walk.specs.Memory.{Memory};
ghost use Rattle.vs_plan.specs.Planner.{AwaitsFrame, HasGiven, IsSpareFor, frames_given, gives_left, sees_left};
ghost use Rattle.vs_plan.specs.Request.{address_of};
ghost use Rattle.vs_plan.specs.Shown.{IsShown};
ghost use Rattle.vs_plan.specs.declared.plans.request.Request.{Request};
ghost use Rattle.vs_plan.specs.declared.plans.planner.Phase.{Phase};
ghost use Rattle.vs_range.specs.Planner.{AwaitsNext, AwaitsRange, HasGivenFor, HasRoom, IsNewRange, IsRanged, IsRangeNext};
ghost use Rattle.vs_range.specs.Planner.{FollowsLink, IsSameRange, IsSeenNext, TakesPage, are_pages, as_range, map_fault, range_fault, range_gives_left};
ghost use Rattle.vs_range.specs.Planner.{range_sees, range_sees_left};
ghost use Rattle.vs_range.specs.inside.Entry.{HasReadEntry, IsStep};

use crate::room::{are_pages, ends_late};
use crate::run::Run;
use vs_plan::{BadRequest, FrameWords, Phase, Plan, Planner, Request, Step, Target};
use vs_types::{Page, Rights, Size, index_at, is_present};

/// A range of pages of a page table: what is done to them, how far they go, and how far the planner of the first one has come.
///
/// One planner deals with pages of one table: with a run of them, or with the first page alone. The caller carries that out, and goes on with a
/// planner for the rest of the range, until nothing is left of it. So what comes of it is what comes of the calls page by page.
#[derive(Drop)]
pub struct RangePlanner {
    /// The planner of the first page.
    pub planner: Planner,
    /// The first address of the range.
    pub base: u64,
    /// How many bytes it has.
    pub bytes: u64,
    /// Whether the first page is dealt with by itself, since its table would be empty without it.
    pub alone: bool,
}

/// What is to be done next.
#[derive(Drop)]
pub enum RangeStep {
    /// To show the words of the frame of this number: `RangePlanner::see`.
    See(u64),
    /// To give a frame whose words are all 0, or none: `RangePlanner::give`.
    Give,
    /// The end, with a run of pages from the base on.
    Runs(Run),
    /// The end, with a run of pages from the base on whose flags are taken away. What they were is what each exchange finds.
    Harvests(Run),
    /// The end, with a plan for the page at the base alone: where it links or unlinks tables, is refused, or isn't there.
    Planned(Plan),
    /// The end: no page has any of so many bytes from the base on. Nothing is done.
    Absent(u64),
    /// The end: the page that begins at the base has this size, and ends beyond the range. Nothing is done.
    Beyond(Size),
}

impl RangePlanner {
    /// Maps this page and those that follow on from it, physically too, so many bytes in all, with these bits.
    ///
    /// # Errors
    ///
    /// `BadRequest::Unaligned` where the bytes are 0, or no multiple of the page's size; `BadRequest::NotCanonical` where they go beyond the last
    /// address; else the first that holds for the first page.
    pub fn map_range(
        target: Target,
        page: Page,
        bits: u64,
        bytes: u64,
    ) -> Result<RangePlanner, BadRequest>
        ensures made { MatchResult result (IsNewRange target (Request.Map page bits) bytes)
            (λ e. map_fault target page bits bytes ≡ Some e) }
        ensures whole { MatchResult result
            (λ r. are_pages page.size bytes ≡ true) (λ e. Unit {0}) }
    {
        if !are_pages(page.size, bytes) {
            return Err(BadRequest::Unaligned);
        }
        RangePlanner::begin(target, Request::Map(page, bits), page.base, bytes)
    }

    /// Removes the pages of so many bytes from this base on, of whatever sizes, and splits none.
    ///
    /// # Errors
    ///
    /// `BadRequest::NotCanonical` where the bytes go beyond the last address; else the first that holds for the base.
    pub fn unmap_range(target: Target, base: u64, bytes: u64) -> Result<RangePlanner, BadRequest>
        ensures made { MatchResult result (IsNewRange target (Request.Unmap base) bytes)
            (λ e. range_fault target (Request.Unmap base) bytes ≡ Some e) }
    {
        RangePlanner::begin(target, Request::Unmap(base), base, bytes)
    }

    /// Gives the pages of so many bytes from this base on, of whatever sizes, these rights, and splits none.
    ///
    /// # Errors
    ///
    /// `BadRequest::NotCanonical` where the bytes go beyond the last address; else the first that holds for the base.
    pub fn protect_range(
        target: Target,
        base: u64,
        bytes: u64,
        rights: Rights,
    ) -> Result<RangePlanner, BadRequest>
        ensures made { MatchResult result (IsNewRange target (Request.Protect base rights) bytes)
            (λ e. range_fault target (Request.Protect base rights) bytes ≡ Some e) }
    {
        RangePlanner::begin(target, Request::Protect(base, rights), base, bytes)
    }

    /// Takes the accessed and the dirty flag from the pages of so many bytes from this base on, of whatever sizes. A page that begins before the
    /// base is answered as by `Request::Ask`.
    ///
    /// # Errors
    ///
    /// `BadRequest::NotCanonical` where the bytes go beyond the last address; else the first that holds for the base.
    pub fn harvest_range(target: Target, base: u64, bytes: u64) -> Result<RangePlanner, BadRequest>
        ensures made { MatchResult result (IsNewRange target (Request.Ask base) bytes)
            (λ e. range_fault target (Request.Ask base) bytes ≡ Some e) }
    {
        RangePlanner::begin(target, Request::Ask(base), base, bytes)
    }

    /// The planner of so many bytes from the address of a request on.
    fn begin(
        target: Target,
        request: Request,
        base: u64,
        bytes: u64,
    ) -> Result<RangePlanner, BadRequest>
        requires base { address_of request ≡ base }
        requires kind { IsRanged request }
        ensures { MatchResult result (IsNewRange target request bytes)
            (λ e. range_fault target request bytes ≡ Some e) }
    {
        if ends_late(base, bytes) {
            return Err(BadRequest::NotCanonical);
        }
        let planner = Planner::new(target, request)?;
        Ok(RangePlanner {
            planner,
            base,
            bytes,
            alone: false,
        })
    }

    /// Takes the words of the frame that was asked for. It asks for one frame a level at most, but that of the lowest table once more, where
    /// an unmap would leave it empty.
    pub fn see<W: FrameWords>(&mut self, words: &mut W) -> RangeStep
        requires awaits { AwaitsRange self.old }
        requires unread { (i : ℕ) → i < FRAME_WORDS → W.is_unread words.old i }
        ensures same { IsSameRange self.old self.new }
        ensures awaits { AwaitsNext self.new result }
        ensures fewer { range_sees_left self.new result < range_sees self.old }
        ensures given { HasGivenFor self.new [] result }
        ensures room { HasRoom result }
        ensures next { IsSeenNext self.old (W.words words.old) self.new result }
        ensures taken { TakesPage self.old (W.words words.old) result }
        ensures leads { FollowsLink self.old (W.words words.old) self.new result }
    {
        if self.planner.phase != Phase::Descent {
            let step = self.planner.see(words);
            return self.step_of(step);
        }
        let word = words.read(index_at(self.planner.level, self.base));
        self.follow(word, words)
    }

    /// Takes the words of the frame that was asked for on the way down, by the word of its entry, which was read already. As `see` does.
    #[inline(never)]
    pub fn follow<W: FrameWords>(&mut self, word: u64, words: &mut W) -> RangeStep
        requires awaits { AwaitsRange self.old }
        requires phase { self.old.planner.phase ≡ Phase.Descent }
        requires read { word ≡ slice_index (W.words words.old)
            (index_at self.old.planner.level self.old.base) }
        requires unread { (i : ℕ) → i < FRAME_WORDS
            → i ≢ index_at self.old.planner.level self.old.base → W.is_unread words.old i }
        ensures same { IsSameRange self.old self.new }
        ensures awaits { AwaitsNext self.new result }
        ensures fewer { range_sees_left self.new result < range_sees self.old }
        ensures given { HasGivenFor self.new [] result }
        ensures room { HasRoom result }
        ensures next { IsSeenNext self.old (W.words words.old) self.new result }
        ensures taken { TakesPage self.old (W.words words.old) result }
        ensures leads { FollowsLink self.old (W.words words.old) self.new result }
    {
        match self.planner.request {
            Request::Map(page, bits) => self.see_map(page, bits, word, words),
            Request::Protect(_, _) | Request::Unmap(_) | Request::Ask(_) if !is_present(word) => {
                self.see_absent(words)
            }
            Request::Protect(_, rights) => self.see_protect(rights, word, words),
            Request::Unmap(_) => self.see_unmap(word, words),
            Request::Ask(_) => self.see_harvest(word, words),
            _ => unreachable!(),
        }
    }

    /// Takes a frame whose words are all 0, or none, as `Planner::give` does. It asks for no words then.
    pub fn give(&mut self, frame: Option<u64>) -> RangeStep
        requires awaits { AwaitsFrame self.old.planner }
        requires base { address_of self.old.planner.request ≡ self.old.base }
        requires kind { IsRanged self.old.planner.request }
        ensures same { IsSameRange self.old self.new }
        ensures awaits { AwaitsNext self.new result }
        ensures fewer { range_gives_left self.new result
            < self.old.planner.level - self.old.planner.height }
        ensures given { IfSome frame (λ number.
            HasGivenFor self.new (frames_given self.old.planner ++ number ∷ []) result) }
        ensures room { HasRoom result }
        ensures next { (memory : Memory) → IsShown memory self.old.planner
            → IfSome frame (λ number. IsSpareFor memory self.old.planner number)
            → IsRangeNext memory self.new (frame ∷ []) result }
    {
        let step = self.planner.give(frame);
        self.step_of(step)
    }

    /// The next step of the first page's planner. It keeps its plan in a place of its own.
    #[inline(never)]
    pub(crate) fn follow_alone<W: FrameWords>(&mut self, word: u64, words: &mut W) -> RangeStep
        requires entry { HasReadEntry self.old (W.words words.old) (W.is_unread words.old) word }
        ensures step { IsStep self.old self.new result }
        ensures next { IsSeenNext self.old (W.words words.old) self.new result }
        ensures leads { FollowsLink self.old (W.words words.old) self.new result }
    {
        let step = self.planner.follow(word, words);
        self.step_of(step)
    }

    /// The step of the first page's planner.
    pub(crate) fn step_of(&self, step: Step) -> RangeStep
        ensures is { result ≡ as_range step }
        ensures few { range_sees_left self.now result ≤ sees_left self.now.planner step
            + cond self.now.alone 0 1 }
        ensures gives { range_gives_left self.now result ≡ gives_left self.now.planner step }
        ensures given { (frames : List ℕ) → HasGiven self.now.planner frames step
            → HasGivenFor self.now frames result }
        ensures room { HasRoom result }
    {
        match step {
            Step::See(number) => RangeStep::See(number),
            Step::Give => RangeStep::Give,
            Step::Planned(plan) => RangeStep::Planned(plan),
        }
    }
}
