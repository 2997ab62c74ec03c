//! Ranges of pages for C: runs of words, one table after another.
ghost use Rattle.std.specs.Prelude.{◌≡◌, ◌≢◌, ◌↔◌, ◌+◌, ◌-◌, ◌^◌, ◌<◌, ◌≤◌, [], ◌∷◌, ◌++◌, ℕ, Some, None, IsFalse, nat_lt, slice_index, if◌then◌else◌};
ghost use Rattle.std.specs.FinMap as finite;
ghost use Rattle.vs_types.specs.declared.addresses.frame.TheConstants.{FRAME_WORDS};
ghost use Rattle.vs_types.specs.Depth.{index_at};
ghost use Rattle.vs_walk.specs.Memory.{Memory};
ghost use Rattle.vs_plan.specs.declared.plans.request.Request.{Request};
ghost use Rattle.vs_plan.specs.declared.plans.plan.TheConstants.{MOST_UNLINKED};
ghost use Rattle.vs_plan.specs.Planner.{IsSpareFor, frames_given};
ghost use Rattle.vs_plan.specs.Request.{address_of, request_fault};
ghost use Rattle.vs_plan.specs.Shown.{IsShown};
ghost use Rattle.vs_range.specs.Planner.{IsRanged};
ghost use Rattle.nrvs_plan_c.specs.declared.records.codes.TheConstants.{DESCENT, SEARCH};
ghost use Rattle.nrvs_plan_c.specs.Kept.{page_in, phase_in, planner_in, request_in, rights_in, takes_frame, target_in, target_of};
ghost use Rattle.nrvs_plan_c.specs.Next.{HasBegun};
ghost use Rattle.nrvs_plan_c.specs.Range.{are_whole, map_range_status, range_in, range_sees_in, range_status, HasBegunRange, IsRangeNextOf, IsRangeStatus, IsSoundRange, KeepsRange, TakesPageOf};
ghost use Rattle.nrvs_plan_c.specs.Status.{begun_status, target_status};
ghost use Rattle.nrvs_plan_c.specs.inside.Seen.{IsRangeStep};
ghost use Rattle.nrvs_plan_c.specs.inside.Stepped.{FollowsLinkOf};

use crate::begin::start;
use crate::exports::{give, nrvs_plan_ask, nrvs_plan_map, nrvs_plan_protect, nrvs_plan_unmap};
use crate::records::codes::{DESCENT, SEARCH, size_in};
use crate::records::kept::{Plan, Target, Words};
use crate::records::run_told::{go_on_range, open_range};
use crate::records::status::{NOT_ASKED, NOT_CANONICAL, SEE, UNALIGNED};
use crate::see::search;
use crate::ways::down::go_down;
use vs_plan::{FrameWords, PlainWords};
use vs_range::{RangePlanner, are_pages, ends_late};
use vs_types::index_at;

/// A range of pages, how far it is, and in the end a run of words of one table, or a plan.
#[repr(C)]
#[derive(Clone, Copy, Debug)]
pub struct Run {
    /// The table's frame.
    pub frame: u64,
    /// The index of the first word, and how many words follow on from it.
    pub index: usize,
    pub count: usize,
    /// Word i of the run becomes `(word & keep) + first_word + i * step`.
    pub keep: u64,
    pub first_word: u64,
    pub step: u64,
    /// The code of the pages' size.
    pub size: u32,
    /// What has to be forgotten then: 0 nothing, 1 each page.
    pub flush: u32,
    /// How many bytes the pages have, or how many no page has.
    pub covered: u64,
    /// The first address of the range.
    pub base: u64,
    /// How many bytes it has.
    pub bytes: u64,
    /// The library's own: 1 where the first page is dealt with by itself, else 0.
    pub own: u64,
    /// The plan of the first page.
    pub plan: Plan,
}

/// Begins a range of pages that are mapped, physically too one after another: `bytes` are whole pages, one at least.
#[unsafe(no_mangle)]
pub extern "C" fn nrvs_plan_map_range(
    run: &mut Run,
    target: &Target,
    base: u64,
    size: u32,
    physical: u64,
    rights: u32,
    bits: u64,
    bytes: u64,
) -> u32
    ensures status { result
        ≡ map_range_status target.now base size physical rights bits bytes }
    ensures begun { result ≡ 32 → HasBegunRange (target_of target.now)
        (Request.Map (page_in base size physical rights) bits) bytes run.new }
    ensures refused { result ≢ 32 → run.new ≡ run.old }
{
    if !are_whole(size, bytes) {
        return UNALIGNED;
    }
    if ends_late(base, bytes) {
        return NOT_CANONICAL;
    }
    let begun = nrvs_plan_map(&mut run.plan, target, base, size, physical, rights, bits);
    if begun != SEE {
        return begun;
    }
    begin_range(run, base, bytes);
    begun
}

/// Begins a range of pages that are removed.
#[unsafe(no_mangle)]
pub extern "C" fn nrvs_plan_unmap_range(
    run: &mut Run,
    target: &Target,
    base: u64,
    bytes: u64,
) -> u32
    ensures status { result ≡ range_status base bytes
        (target_status target.now.levels target.now.phys_bits
        (begun_status (request_fault (target_of target.now) (Request.Unmap base)))) }
    ensures begun { result ≡ 32
        → HasBegunRange (target_of target.now) (Request.Unmap base) bytes run.new }
    ensures refused { result ≢ 32 → run.new ≡ run.old }
{
    if ends_late(base, bytes) {
        return NOT_CANONICAL;
    }
    let begun = nrvs_plan_unmap(&mut run.plan, target, base);
    if begun != SEE {
        return begun;
    }
    begin_range(run, base, bytes);
    begun
}

/// Begins a range of pages that get other rights.
#[unsafe(no_mangle)]
pub extern "C" fn nrvs_plan_protect_range(
    run: &mut Run,
    target: &Target,
    base: u64,
    bytes: u64,
    rights: u32,
) -> u32
    ensures status { result ≡ range_status base bytes
        (target_status target.now.levels target.now.phys_bits
        (if nat_lt 7 rights then 7 else begun_status (request_fault (target_of target.now)
        (Request.Protect base (rights_in rights))))) }
    ensures begun { result ≡ 32 → HasBegunRange (target_of target.now)
        (Request.Protect base (rights_in rights)) bytes run.new }
    ensures refused { result ≢ 32 → run.new ≡ run.old }
{
    if ends_late(base, bytes) {
        return NOT_CANONICAL;
    }
    let begun = nrvs_plan_protect(&mut run.plan, target, base, rights);
    if begun != SEE {
        return begun;
    }
    begin_range(run, base, bytes);
    begun
}

/// Begins a range of pages whose accessed and dirty flags are taken away.
#[unsafe(no_mangle)]
pub extern "C" fn nrvs_plan_harvest_range(
    run: &mut Run,
    target: &Target,
    base: u64,
    bytes: u64,
) -> u32
    ensures status { result ≡ range_status base bytes
        (target_status target.now.levels target.now.phys_bits
        (begun_status (request_fault (target_of target.now) (Request.Ask base)))) }
    ensures begun { result ≡ 32
        → HasBegunRange (target_of target.now) (Request.Ask base) bytes run.new }
    ensures refused { result ≢ 32 → run.new ≡ run.old }
{
    if ends_late(base, bytes) {
        return NOT_CANONICAL;
    }
    let begun = nrvs_plan_ask(&mut run.plan, target, base);
    if begun != SEE {
        return begun;
    }
    begin_range(run, base, bytes);
    begun
}

/// Takes the words of the frame that is asked for: `RangePlanner::see`.
#[unsafe(no_mangle)]
pub extern "C" fn nrvs_run_see(run: &mut Run, words: &Words) -> u32
    requires { IsSoundRange run.old }
    ensures asked { (result ≡ 17) ↔ (SEARCH < run.old.plan.way.phase) }
    ensures status { result ≢ 17 → IsRangeStatus run.new result }
    ensures sound { IsSoundRange run.new }
    ensures kept { KeepsRange run.old run.new }
    ensures refused { result ≡ 17 → run.new ≡ run.old }
    ensures fewer { result ≡ 32 → range_sees_in run.new < range_sees_in run.old }
    ensures given { result ≡ 33 → frames_given (planner_in run.new.plan) ≡ [] }
    ensures next { result ≢ 17 → (memory : Memory) → IsShown memory (planner_in run.old.plan)
        → finite.get memory run.old.plan.frame ≡ Some words.now.word
        → IsRangeNextOf memory run.new [] result }
    ensures taken { result ≢ 17 → TakesPageOf (range_in run.old) words.now.word run.new result }
{
    if run.plan.way.phase > SEARCH {
        return NOT_ASKED;
    }
    let mut words = PlainWords(&words.word);
    see_range(run, &mut words)
}

/// Takes a frame whose words are all 0: `RangePlanner::give`.
#[unsafe(no_mangle)]
pub extern "C" fn nrvs_run_give(run: &mut Run, frame: u64) -> u32
    requires { IsSoundRange run.old }
    ensures asked { (result ≡ 17) ↔ (IsFalse (takes_frame run.old.plan.way.phase)) }
    ensures status { result ≢ 17 → IsRangeStatus run.new result }
    ensures ends { result ≢ 32 }
    ensures sound { IsSoundRange run.new }
    ensures kept { KeepsRange run.old run.new }
    ensures refused { result ≡ 17 → run.new ≡ run.old }
    ensures fewer { result ≡ 33 → run.new.plan.way.level - run.new.plan.way.height
        < run.old.plan.way.level - run.old.plan.way.height }
    ensures given { result ≡ 33 → frames_given (planner_in run.new.plan)
        ≡ frames_given (planner_in run.old.plan) ++ frame ∷ [] }
    ensures next { result ≢ 17 → (memory : Memory) → IsShown memory (planner_in run.old.plan)
        → IsSpareFor memory (planner_in run.old.plan) frame
        → IsRangeNextOf memory run.new (Some frame ∷ []) result }
{
    give(&mut run.plan, Some(frame))
}

/// Says that there is no frame: `RangePlanner::give`.
#[unsafe(no_mangle)]
pub extern "C" fn nrvs_run_give_none(run: &mut Run) -> u32
    requires { IsSoundRange run.old }
    ensures asked { (result ≡ 17) ↔ (IsFalse (takes_frame run.old.plan.way.phase)) }
    ensures status { result ≢ 17 → IsRangeStatus run.new result }
    ensures ends { result ≢ 32 }
    ensures sound { IsSoundRange run.new }
    ensures kept { KeepsRange run.old run.new }
    ensures refused { result ≡ 17 → run.new ≡ run.old }
    ensures fewer { result ≡ 33 → run.new.plan.way.level - run.new.plan.way.height
        < run.old.plan.way.level - run.old.plan.way.height }
    ensures next { result ≢ 17 → (memory : Memory) → IsShown memory (planner_in run.old.plan)
        → IsRangeNextOf memory run.new (None ∷ []) result }
{
    give(&mut run.plan, None)
}

/// Whether so many bytes are those of pages of the size of this code, of one at least; or the code means none.
fn are_whole(size: u32, bytes: u64) -> bool
    ensures { result ≡ are_whole size bytes }
{
    size > 2 || are_pages(size_in(size as u8), bytes)
}

/// A range begins, whose first page's plan has begun: each table on its way is looked at.
fn begin_range(run: &mut Run, base: u64, bytes: u64)
    requires begun { HasBegun run.old.plan }
    requires base { address_of (request_in run.old.plan.call) ≡ base }
    requires ends { base + bytes ≤ 2 ^ 64 }
    requires kind { IsRanged (request_in run.old.plan.call) }
    ensures begun { HasBegunRange (target_in run.old.plan.call) (request_in run.old.plan.call)
        bytes run.new }
{
    start(&mut run.plan, DESCENT);
    run.base = base;
    run.bytes = bytes;
    run.own = 0;
}

/// Takes the words of the frame that is asked for, and reads none of them twice.
pub(crate) fn see_range<W: FrameWords>(run: &mut Run, words: &mut W) -> u32
    requires sound { IsSoundRange run.old }
    requires waits { run.old.plan.way.phase ≤ SEARCH }
    requires unread { (i : ℕ) → i < FRAME_WORDS → W.is_unread words.old i }
    ensures step { IsRangeStep run.old run.new result }
    ensures next { (memory : Memory) → IsShown memory (planner_in run.old.plan)
        → finite.get memory run.old.plan.frame ≡ Some (W.words words.old)
        → IsRangeNextOf memory run.new [] result }
    ensures taken { TakesPageOf (range_in run.old) (W.words words.old) run.new result }
    ensures leads { FollowsLinkOf run.old (W.words words.old) run.new result }
{
    if run.plan.way.phase != DESCENT {
        return search(&mut run.plan, words);
    }
    let word = words.read(index_at(run.plan.way.level, run.plan.call.address));
    if go_down(&mut run.plan, word) {
        return SEE;
    }
    follow_by(&mut open_range(run), run, word, words)
}

/// The same on the way down, by the range's planner that is kept, and the word of its entry.
#[inline(never)]
fn follow_by<W: FrameWords>(
    range: &mut RangePlanner,
    run: &mut Run,
    word: u64,
    words: &mut W,
) -> u32
    requires sound { IsSoundRange run.old }
    requires descent { run.old.plan.way.phase ≡ DESCENT }
    requires range { range.old ≡ range_in run.old }
    requires target { range.old.planner.target ≡ target_in run.old.plan.call }
    requires read { word ≡ slice_index (W.words words.old)
        (index_at run.old.plan.way.level run.old.plan.call.address) }
    requires unread { (i : ℕ) → i < FRAME_WORDS
        → i ≢ index_at run.old.plan.way.level run.old.plan.call.address → W.is_unread words.old i }
    ensures step { IsRangeStep run.old run.new result }
    ensures next { (memory : Memory) → IsShown memory (planner_in run.old.plan)
        → finite.get memory run.old.plan.frame ≡ Some (W.words words.old)
        → IsRangeNextOf memory run.new [] result }
    ensures taken { TakesPageOf (range_in run.old) (W.words words.old) run.new result }
    ensures leads { FollowsLinkOf run.old (W.words words.old) run.new result }
{
    let step = range.follow(word, words);
    go_on_range(run, range, &step)
}
