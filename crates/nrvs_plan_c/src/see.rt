//! What comes of the words of a frame that are shown: mostly the plan is changed where it is kept.
ghost use Rattle.std.specs.Prelude.{◌≡◌, ◌≢◌, ◌%◌, ◌<◌, ◌≤◌, [], ℕ, Some, IsTrue, slice_index};
ghost use Rattle.vs_types.specs.Depth.{index_at};
ghost use Rattle.vs_types.specs.declared.addresses.frame.TheConstants.{FRAME_WORDS};
ghost use Rattle.vs_walk.specs.Memory.{Memory};
ghost use Rattle.vs_space.specs.Held.{word_at};
ghost use Rattle.vs_plan.specs.Shown.{IsShown};
ghost use Rattle.vs_plan.specs.Target.{highest_link};
ghost use Rattle.nrvs_plan_c.specs.declared.records.codes.TheConstants.{BRIEF, DESCENT, SEARCH};
ghost use Rattle.nrvs_plan_c.specs.Kept.{IsSound, planner_in, request_in, target_in};
ghost use Rattle.nrvs_plan_c.specs.Next.{IsPlanned};
ghost use Rattle.nrvs_plan_c.specs.inside.End.{IsMade};
ghost use Rattle.nrvs_plan_c.specs.inside.Seen.{IsSeen};

use crate::begin::start;
use crate::end::{End, end_ask, end_map, end_protect, end_remap, end_unmap};
use crate::next::go_on;
use crate::records::codes::{BRIEF, DESCENT};
use crate::records::kept::{Plan, open};
use crate::records::status::{PLANNED, SEE};
use crate::ways::down::go_down;
use vs_plan::{FrameWords, Planner, has_other};
use vs_types::index_at;

/// Takes the words of the frame that is asked for, and reads none of them twice.
pub(crate) fn see_each_once<W: FrameWords + Drop>(plan: &mut Plan, mut words: W) -> u32
    requires sound { IsSound plan.old }
    requires waits { plan.old.way.phase ≤ SEARCH }
    requires unread { (i : ℕ) → i < FRAME_WORDS → W.is_unread words i }
    ensures { IsSeen (W.words words) plan.old plan.new result }
{
    if plan.way.phase <= DESCENT {
        return go_on_down(plan, words);
    }
    search_these(plan, words)
}

/// Goes on along the way.
#[inline(always)]
pub(crate) fn go_on_down<W: FrameWords + Drop>(plan: &mut Plan, mut words: W) -> u32
    requires sound { IsSound plan.old }
    requires descent { plan.old.way.phase ≤ DESCENT }
    requires unread { (i : ℕ) → i < FRAME_WORDS → W.is_unread words i }
    ensures { IsSeen (W.words words) plan.old plan.new result }
{
    let word = words.read(index_at(plan.way.level, plan.call.address));
    if go_down(plan, word) {
        return SEE;
    }
    end_way(plan, words, word)
}

/// Ends the way at this word, which was read: where the plan is kept, by a second way, or by the planner.
#[inline(never)]
fn end_way<W: FrameWords + Drop>(plan: &mut Plan, mut words: W, word: u64) -> u32
    requires sound { IsSound plan.old }
    requires descent { plan.old.way.phase ≤ DESCENT }
    requires read { word ≡ slice_index (W.words words)
        (index_at plan.old.way.level plan.old.call.address) }
    requires unread { (i : ℕ) → i < FRAME_WORDS
        → i ≢ index_at plan.old.way.level plan.old.call.address → W.is_unread words i }
    ensures { IsSeen (W.words words) plan.old plan.new result }
{
    if plan.way.phase == BRIEF {
        return end_brief(plan, words, word);
    }
    if ends_here(plan) {
        end_here(plan, word);
        return PLANNED;
    }
    follow(plan, words, word)
}

/// Whether the word at which the way ends decides alone: that of a page of 4 KiB, whose table stays.
fn ends_here(plan: &Plan) -> bool
    ensures last { IsTrue result → plan.now.way.level ≡ 1 }
    ensures most { IsTrue result → plan.now.call.kind ≤ 4 }
    ensures stays { IsTrue result → plan.now.call.kind ≡ 1
        → highest_link (target_in plan.now.call) ≤ 1 }
{
    if plan.call.kind == 1 && !plan.call.pins_all() {
        return false;
    }
    plan.way.level == 1 && plan.call.kind <= 4
}

/// The end of the way at this word, in a table of level 1.
#[inline(always)]
fn end_of(plan: &Plan, word: u64) -> End
    ensures number { result.number ≡ plan.now.frame }
    ensures index { result.index ≡ index_at 1 plan.now.call.address }
    ensures low { result.index < FRAME_WORDS }
    ensures word { result.word ≡ word }
    ensures allowed { result.allowed ≡ plan.now.way.allowed }
{
    End {
        number: plan.frame,
        index: index_at(1, plan.call.address),
        word,
        allowed: plan.way.allowed,
    }
}

/// Makes the plan where it is kept, by this word of a table of level 1: of all that a page of 4 KiB alone decides.
#[inline(always)]
fn end_here(plan: &mut Plan, word: u64)
    requires sound { IsSound plan.old }
    requires descent { plan.old.way.phase ≤ DESCENT }
    requires last { plan.old.way.level ≡ 1 }
    requires most { plan.old.call.kind ≤ 4 }
    requires stays { plan.old.call.kind ≡ 1 → highest_link (target_in plan.old.call) ≤ 1 }
    ensures call { plan.new.call ≡ plan.old.call }
    ensures made { IsMade plan.new }
    ensures right { (memory : Memory) → IsShown memory (planner_in plan.old)
        → word_at memory plan.old.frame (index_at 1 plan.old.call.address) ≡ Some word
        → IsPlanned (target_in plan.old.call) (request_in plan.old.call) memory plan.new [] }
{
    let call = plan.call;
    let end = end_of(plan, word);
    match call.kind {
        0 => end_map(
            plan,
            end,
            call.address,
            call.physical,
            call.rights,
            call.bits,
        ),
        1 => end_unmap(plan, end, call.address),
        2 => end_protect(plan, end, call.address, call.rights),
        3 => end_ask(plan, end, call.address),
        _ => end_remap(
            plan,
            end,
            call.address,
            call.physical,
            call.phys_bits,
            call.rights,
        ),
    }
}

/// Ends the brief way of an unmap at this word: with its plan, where the page's table has another word, or with a second way.
#[inline(never)]
fn end_brief<W: FrameWords + Drop>(plan: &mut Plan, mut words: W, word: u64) -> u32
    requires sound { IsSound plan.old }
    requires brief { plan.old.way.phase ≡ BRIEF }
    requires read { word ≡ slice_index (W.words words)
        (index_at plan.old.way.level plan.old.call.address) }
    requires unread { (i : ℕ) → i < FRAME_WORDS
        → i ≢ index_at plan.old.way.level plan.old.call.address → W.is_unread words i }
    ensures { IsSeen (W.words words) plan.old plan.new result }
{
    if plan.way.level == 1 && plan.call.kind == 1 {
        let end = end_of(plan, word);
        if stays(&mut words, end) {
            end_unmap(plan, end, plan.call.address);
            return PLANNED;
        }
    }
    start(plan, DESCENT);
    SEE
}

/// Whether the table at the end stays linked, whatever it has in place of this entry: there is no page, or another word.
#[inline(always)]
fn stays<W: FrameWords>(words: &mut W, end: End) -> bool
    requires low { end.index < FRAME_WORDS }
    requires unread { (i : ℕ) → i < FRAME_WORDS → i ≢ end.index → W.is_unread words.old i }
    ensures { IsTrue result → end.word % 2 ≡ 1
        → (i : ℕ) × (i ≢ end.index) × (slice_index (W.words words.old) i ≢ 0) }
{
    !end.is_page() || has_other(words, end.index)
}

/// Takes the words of a frame below the level of a page that is to be mapped.
#[inline(never)]
pub(crate) fn search<W: FrameWords>(plan: &mut Plan, words: &mut W) -> u32
    requires sound { IsSound plan.old }
    requires waits { plan.old.way.phase ≤ SEARCH }
    requires searches { DESCENT < plan.old.way.phase }
    requires unread { (i : ℕ) → i < FRAME_WORDS → W.is_unread words.old i }
    ensures seen { IsSeen (W.words words.old) plan.old plan.new result }
    ensures phase { 1 ≤ plan.new.way.phase }
    ensures level { result ≡ 32 → plan.new.way.level < plan.old.way.level }
{
    search_by(&mut open(plan), plan, words)
}

/// The same, by the planner that is kept.
#[inline(never)]
fn search_by<W: FrameWords>(planner: &mut Planner, plan: &mut Plan, words: &mut W) -> u32
    requires sound { IsSound plan.old }
    requires waits { plan.old.way.phase ≤ SEARCH }
    requires searches { DESCENT < plan.old.way.phase }
    requires planner { planner.old ≡ planner_in plan.old }
    requires target { planner.old.target ≡ target_in plan.old.call }
    requires unread { (i : ℕ) → i < FRAME_WORDS → W.is_unread words.old i }
    ensures seen { IsSeen (W.words words.old) plan.old plan.new result }
    ensures phase { 1 ≤ plan.new.way.phase }
    ensures level { result ≡ 32 → plan.new.way.level < plan.old.way.level }
{
    let step = planner.see(words);
    go_on(plan, planner, &step)
}

/// The same, of words that are handed over.
#[inline(never)]
pub(crate) fn search_these<W: FrameWords + Drop>(plan: &mut Plan, mut words: W) -> u32
    requires sound { IsSound plan.old }
    requires waits { plan.old.way.phase ≤ SEARCH }
    requires searches { DESCENT < plan.old.way.phase }
    requires unread { (i : ℕ) → i < FRAME_WORDS → W.is_unread words i }
    ensures { IsSeen (W.words words) plan.old plan.new result }
{
    search(plan, &mut words)
}

/// Takes the words of the frame that is asked for on the way down, by the word of its entry, which was read, by the planner that is kept.
#[inline(never)]
fn follow<W: FrameWords + Drop>(plan: &mut Plan, mut words: W, word: u64) -> u32
    requires sound { IsSound plan.old }
    requires descent { plan.old.way.phase ≡ DESCENT }
    requires read { word ≡ slice_index (W.words words)
        (index_at plan.old.way.level plan.old.call.address) }
    requires unread { (i : ℕ) → i < FRAME_WORDS
        → i ≢ index_at plan.old.way.level plan.old.call.address → W.is_unread words i }
    ensures { IsSeen (W.words words) plan.old plan.new result }
{
    follow_by(&mut open(plan), plan, &mut words, word)
}

/// The same, by the planner that is kept.
#[inline(never)]
fn follow_by<W: FrameWords>(planner: &mut Planner, plan: &mut Plan, words: &mut W, word: u64) -> u32
    requires sound { IsSound plan.old }
    requires descent { plan.old.way.phase ≡ DESCENT }
    requires planner { planner.old ≡ planner_in plan.old }
    requires target { planner.old.target ≡ target_in plan.old.call }
    requires read { word ≡ slice_index (W.words words.old)
        (index_at plan.old.way.level plan.old.call.address) }
    requires unread { (i : ℕ) → i < FRAME_WORDS
        → i ≢ index_at plan.old.way.level plan.old.call.address → W.is_unread words.old i }
    ensures { IsSeen (W.words words.old) plan.old plan.new result }
{
    let step = planner.follow(word, words);
    go_on(plan, planner, &step)
}
