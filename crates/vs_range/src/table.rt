//! What a table says in which the way of a range's first page ends: a run of pages, or how far none lies.
ghost use Rattle.std.specs.Prelude.{◌≡◌, ◌≢◌, ◌+◌, ◌*◌, ◌<◌, ◌≤◌, ◌%◌, ◌^◌, ◌⊎◌, ℕ, [], MatchOption, min, slice_index};
ghost use Rattle.vs_types.specs.declared.addresses.frame.TheConstants.{FRAME_WORDS};
ghost use Rattle.vs_types.specs.Depth.{index_at};
ghost use Rattle.vs_types.specs.Page.{bytes_of};
ghost use Rattle.vs_types.specs.declared.addresses.page.Size.{Size};
ghost use Rattle.vs_plan.specs.declared.plans.request.Request.{Request};
ghost use Rattle.vs_plan.specs.declared.plans.planner.Phase.{Phase};
ghost use Rattle.vs_range.specs.Planner.{AwaitsNext, AwaitsRange, HasGivenFor, HasRoom, IsMap, IsMapRoom, IsPageAt};
ghost use Rattle.vs_range.specs.Planner.{IsSeenNext, range_sees_left};
ghost use Rattle.vs_range.specs.inside.Entry.{HasReadEntry, IsStep, TakesEntry};

use crate::made::{run_of_harvest, run_of_map, run_of_protect, run_of_unmap};
use crate::planner::{RangePlanner, RangeStep};
use crate::room::{pages_in, phys_room};
use crate::search::{count_alike, count_pages, removed};
use crate::word::is_page;
use vs_plan::FrameWords;
use vs_types::{FRAME_WORDS, Page, Rights, Size, entry_bytes, index_at, is_present};

impl RangePlanner {
    /// A run of absent entries from this word on, or the next step of the first page's planner.
    #[inline(never)]
    pub(crate) fn see_map<W: FrameWords>(
        &mut self,
        page: Page,
        bits: u64,
        word: u64,
        words: &mut W,
    ) -> RangeStep
        requires entry { HasReadEntry self.old (W.words words.old) (W.is_unread words.old) word }
        requires request { self.old.planner.request ≡ Request.Map page bits }
        ensures step { IsStep self.old self.new result }
        ensures next { IsSeenNext self.old (W.words words.old) self.new result }
        ensures entry { TakesEntry self.old (W.words words.old) self.new result }
    {
        let most = self.most_mapped(page, word);
        if most == 0 {
            return self.follow_alone(word, words);
        }
        let index = index_at(self.planner.level, self.base);
        let alike = count_alike(words, index, most, 0);
        RangeStep::Runs(run_of_map(page, bits, alike.count, self.planner.number, index))
    }

    /// How many pages of a map may follow one another from this entry on: 0 where the first of them is not written here.
    fn most_mapped(&self, page: Page, word: u64) -> usize
        requires awaits { AwaitsRange self.now }
        requires request { (bits : ℕ) × (self.now.planner.request ≡ Request.Map page bits) }
        ensures room { 1 ≤ result → IsMapRoom self.now page word result }
        ensures most { 1 ≤ result
            → (index_at self.now.planner.level self.now.base + result ≡ FRAME_WORDS)
            ⊎ ((self.now.bytes < (result + 1) * bytes_of page.size)
            ⊎ (2 ^ min self.now.planner.target.phys_bits 51
            < page.phys + (result + 1) * bytes_of page.size)) }
        ensures none { result ≡ 0 → IsMapRoom self.now page word 1 → ⊥ }
    {
        let level = self.planner.level;
        if level != page.size.level() || is_present(word) || self.bytes < page.size.bytes() {
            return 0;
        }
        if !self.planner.rights.permits(page.rights) {
            return 0;
        }
        self.most_here(page.size, index_at(level, self.base))
            .min(phys_room(page, self.planner.target.phys_bits))
    }

    /// How far no page lies, where the entry for the base is absent.
    #[inline(never)]
    pub(crate) fn see_absent<W: FrameWords>(&self, words: &mut W) -> RangeStep
        requires awaits { AwaitsRange self.now }
        requires phase { self.now.planner.phase ≡ Phase.Descent }
        requires kind { IsMap self.now.planner.request → ⊥ }
        requires absent { slice_index (W.words words.old)
            (index_at self.now.planner.level self.now.base) % 2 ≡ 0 }
        requires unread { (i : ℕ) → i < FRAME_WORDS
            → i ≢ index_at self.now.planner.level self.now.base → W.is_unread words.old i }
        ensures awaits { AwaitsNext self.now result }
        ensures fewer { range_sees_left self.now result ≡ 0 }
        ensures given { HasGivenFor self.now [] result }
        ensures room { HasRoom result }
        ensures next { IsSeenNext self.now (W.words words.old) self.now result }
        ensures entry { TakesEntry self.now (W.words words.old) self.now result }
    {
        let level = self.planner.level;
        let index = index_at(level, self.base);
        let alike = count_alike(words, index, FRAME_WORDS - index, 0);
        let bytes = entry_bytes(level);
        RangeStep::Absent(alike.count as u64 * bytes - self.base % bytes)
    }

    /// A run of pages that get other rights, from this word on, or the next step of the first page's planner.
    #[inline(never)]
    pub(crate) fn see_protect<W: FrameWords>(
        &mut self,
        rights: Rights,
        word: u64,
        words: &mut W,
    ) -> RangeStep
        requires entry { HasReadEntry self.old (W.words words.old) (W.is_unread words.old) word }
        requires request { self.old.planner.request ≡ Request.Protect self.old.base rights }
        ensures step { IsStep self.old self.new result }
        ensures next { IsSeenNext self.old (W.words words.old) self.new result }
        ensures entry { TakesEntry self.old (W.words words.old) self.new result }
    {
        let Some(size) = self.page_begins(word) else {
            return self.follow_alone(word, words);
        };
        if self.bytes < size.bytes() {
            return RangeStep::Beyond(size);
        }
        if !self.planner.rights.permits(rights) {
            return self.follow_alone(word, words);
        }
        let level = self.planner.level;
        let index = index_at(level, self.base);
        let found = count_pages(words, level, index, self.most_here(size, index));
        RangeStep::Runs(run_of_protect(
            size,
            self.base,
            rights,
            found.count,
            self.planner.number,
            index,
        ))
    }

    /// A run of pages whose flags are taken away, from this word on, or the next step of the first page's planner.
    #[inline(never)]
    pub(crate) fn see_harvest<W: FrameWords>(&mut self, word: u64, words: &mut W) -> RangeStep
        requires entry { HasReadEntry self.old (W.words words.old) (W.is_unread words.old) word }
        requires request { self.old.planner.request ≡ Request.Ask self.old.base }
        ensures step { IsStep self.old self.new result }
        ensures next { IsSeenNext self.old (W.words words.old) self.new result }
        ensures entry { TakesEntry self.old (W.words words.old) self.new result }
    {
        let Some(size) = self.page_begins(word) else {
            return self.follow_alone(word, words);
        };
        if self.bytes < size.bytes() {
            return RangeStep::Beyond(size);
        }
        let level = self.planner.level;
        let index = index_at(level, self.base);
        let found = count_pages(words, level, index, self.most_here(size, index));
        RangeStep::Harvests(run_of_harvest(
            size,
            self.base,
            found.count,
            self.planner.number,
            index,
        ))
    }

    /// A run of pages that are removed, from this word on, or the next step of the first page's planner. If the table would be left empty,
    /// the last page is left to the next planner, or the first one is planned alone.
    #[inline(never)]
    pub(crate) fn see_unmap<W: FrameWords>(&mut self, word: u64, words: &mut W) -> RangeStep
        requires entry { HasReadEntry self.old (W.words words.old) (W.is_unread words.old) word }
        requires request { self.old.planner.request ≡ Request.Unmap self.old.base }
        ensures step { IsStep self.old self.new result }
        ensures next { IsSeenNext self.old (W.words words.old) self.new result }
        ensures entry { TakesEntry self.old (W.words words.old) self.new result }
    {
        let Some(size) = self.page_begins(word) else {
            return self.follow_alone(word, words);
        };
        if self.bytes < size.bytes() {
            return RangeStep::Beyond(size);
        }
        if self.alone {
            return self.follow_alone(word, words);
        }
        let level = self.planner.level;
        let index = index_at(level, self.base);
        let pages = count_pages(words, level, index, self.most_here(size, index));
        let count = removed(words, index, pages, level < self.planner.stop);
        if count == 0 {
            self.alone = true;
            return RangeStep::See(self.planner.number);
        }
        RangeStep::Runs(run_of_unmap(size, self.base, count, self.planner.number, index))
    }

    /// The size of the page that begins at the base, where this is the word of its entry.
    fn page_begins(&self, word: u64) -> Option<Size>
        requires { AwaitsRange self.now }
        ensures { MatchOption result ((size : Size) → IsPageAt self.now word size → ⊥)
            (IsPageAt self.now word) }
    {
        let level = self.planner.level;
        if !is_page(level, word) {
            return None;
        }
        let size = Size::at_level(level);
        let offset = self.base % size.bytes();
        if offset != 0 {
            return None;
        }
        Some(size)
    }

    /// How many pages of this size the table and the range have room for, from an index on.
    fn most_here(&self, size: Size, index: usize) -> usize
        requires low { index < FRAME_WORDS }
        requires some { bytes_of size ≤ self.now.bytes }
        ensures some { 1 ≤ result }
        ensures room { index + result ≤ FRAME_WORDS }
        ensures within { (count : ℕ) → count ≤ result → count * bytes_of size ≤ self.now.bytes }
        ensures most { (index + result ≡ FRAME_WORDS)
            ⊎ (self.now.bytes < (result + 1) * bytes_of size) }
    {
        let left = pages_in(size, self.bytes);
        let table = (FRAME_WORDS - index) as u64;
        table.min(left) as usize
    }
}
