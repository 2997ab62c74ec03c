//! Whether a touch is answered as its address was, and what the touches and releases of a segment behind others come to.

ghost use Rattle.std.specs.Prelude.{◌≡◌, ◌↔◌, ◌<◌, ◌≤◌, ◌++◌, List, Contains, is_some, length, map, IfNone, IfOk, IfSome, IsSomeAnd, IsTrue, Option, Some};
ghost use Rattle.vs_types.specs.Space.{Space, page_at};
ghost use Rattle.vs_types.specs.Step.{look, allow, allow_in_page};
ghost use Rattle.nr_trace.specs.Laws.{HasCleanLog};
ghost use Rattle.nr_trace.specs.Run.{Run, run_with};
ghost use Rattle.nr_touch.specs.Touches.{IsAnsweredInTime, IsFaultOfLagging, IsFaultOfNone};
ghost use Rattle.vs_types.specs.declared.addresses.page.Page.{Page as PageRow};
ghost use Rattle.nr_touch.specs.Beside.{beside};
ghost use Rattle.nr_touch.specs.Excuses.{AreExcusedBy};
ghost use Rattle.nr_touch.specs.Releases.{AreMemory, FindsReachable};
ghost use Rattle.nr_touch.specs.Stale.{FindsStale};
ghost use Rattle.nr_touch.specs.Tails.{GoesOn, IsSoundTail, IsTailOf, KeepsChanges};
ghost use Rattle.nr_touch.specs.inside.Columns.{AreColumns, Covers, IsNumbered};
ghost use Rattle.nr_touch.specs.inside.Earlier.{IsAnsweredSo};
ghost use Rattle.nr_touch.specs.inside.Walk.{shown, IsAnsweredWithin};
ghost use Rattle.nr_touch.specs.declared.changes.change.PlacedChange.{PlacedChange as PlacedRow};
ghost use Rattle.nr_touch.specs.inside.Joined.{Behind, IsBuilt};
ghost use Rattle.nr_touch.specs.inside.Levels.{left_in, IsLadder};

use crate::changes::change::{Change, PlacedChange};
use crate::changes::history::History;
use crate::changes::replay::replay;
use crate::changes::undo::undo_all;
use crate::releases::lingering::indexes_after;
use crate::releases::reaching::first_reachable;
use crate::releases::release::Release;
use crate::touches::beside::beside_if;
use crate::touches::between::is_answered_between;
use crate::touches::excuse::{Excuse, excuses_of};
use crate::touches::joined::Joined;
use crate::touches::tail::{Tail, left_after, lefts_of};
use crate::touches::touch::Touch;
use nr_trace::Trace;
use std::alloc::Global;
use vs_plain::PlainSpace;
use vs_plain::laws::pages_are_a_space;
use vs_types::{Answer, Memory, fault_code};

fn is_same(recorded: Answer, given: Answer) -> bool
    ensures { IsTrue result ↔ (recorded ≡ given) }
{
    recorded == given
}

/// How an address looks before its next change, or else after the whole log.
pub(crate) fn look_until(next: Option<PlacedChange>, space: &PlainSpace, address: u64) -> Answer
    requires numbered { IfSome next IsNumbered }
    requires covers { IfSome next (Covers address) }
    ensures { (now : Space) → page_at now address ≡ shown next space.now.space address
        → result ≡ look now address }
{
    match next {
        Some(next) => next.change.look_before(address),
        None => space.resolve(address),
    }
}

/// Whether an address that looks so answers the touch as it was answered.
pub(crate) fn answers(seen: Answer, touch: &Touch) -> bool
    ensures { (now : Space) → seen ≡ look now touch.now.address
        → IsTrue result
        ↔ (touch.now.answer ≡ allow now touch.now.address touch.now.mode touch.now.access) }
{
    is_same(touch.answer, seen.accessed(touch.mode, touch.access))
}

/// Whether the change lies before the place.
fn lies_before(change: Option<PlacedChange>, place: u32) -> bool
    ensures { IsTrue result ↔ IsSomeAnd change (λ c. c.place < place) }
{
    match change {
        Some(change) => change.place < place,
        None => false,
    }
}

/// Whether the touch is answered as its address was after some entries: the first number of them, the last, or some number between.
/// At most six searches by halving in the changes of the three pages that may have the address; and where neither end is right and a
/// change lies between, at most 24 in how pages looked before changes.
pub(crate) fn is_answered_within(joined: &Joined, touch: &Touch, first: u32, last: u32) -> bool
    requires { IsBuilt joined.now }
    ensures { (b : Behind joined.now) → first ≤ last → last ≤ length b.segment.log
        → IsTrue result ↔ IsAnsweredWithin b.start b.segment touch.now first last }
{
    let next = joined.history.next(touch.address, first);
    if answers(look_until(next, &joined.space, touch.address), touch) {
        return true;
    }
    if !lies_before(next, last) {
        return false;
    }
    let later = joined.history.next(touch.address, last);
    if answers(look_until(later, &joined.space, touch.address), touch) {
        return true;
    }
    is_answered_between(&joined.history, touch, first, last)
}

/// Whether the touch faults since no page has its address.
fn is_fault_of_none(touch: &Touch) -> bool
    ensures { IsTrue result ↔ IsFaultOfNone touch.now }
{
    let code = fault_code(false, touch.mode, touch.access);
    is_same(touch.answer, Answer::Fault(code))
}

/// Whether the touch finds a page, if it is answered as any space answers.
pub(crate) fn finds_page(touch: &Touch) -> bool
    ensures { (page : Option PageRow) → touch.now.answer
        ≡ allow_in_page touch.now.address touch.now.mode touch.now.access page
        → result ≡ is_some page }
{
    !is_fault_of_none(touch)
}

/// Whether the touch is answered as its address was after some entries that are allowed.
pub(crate) fn is_in_time(joined: &Joined, touch: &Touch) -> bool
    requires { IsBuilt joined.now }
    ensures { (b : Behind joined.now)
        → IsTrue result ↔ IsAnsweredInTime b.start b.segment touch.now }
{
    let history = &joined.history;
    let last = history.last_allowed(touch.address, touch.answered, joined.places);
    let first = history.first_allowed(touch.address, touch.made, finds_page(touch));
    if last < first {
        return false;
    }
    is_answered_within(joined, touch, first, last)
}

/// Whether the touch faults by a table that lags: one that has no page at the address yet.
pub(crate) fn is_of_lagging(joined: &Joined, touch: &Touch) -> bool
    requires { IsBuilt joined.now }
    ensures { (b : Behind joined.now)
        → IsTrue result ↔ IsFaultOfLagging b.start b.segment touch.now }
{
    if !is_fault_of_none(touch) {
        return false;
    }
    let last = joined
        .history
        .last_allowed(touch.address, touch.answered, joined.places);
    let known = touch.known;
    let most = u64::from(last);
    if most < known {
        return false;
    }
    is_answered_within(joined, touch, known as u32, last)
}

/// Whether the touch is answered as its address may still be found to look by the levels before, or with this one behind them.
fn is_answered_with(level: &History, touch: &Touch, finds: bool, before: bool) -> bool
    requires columns { AreColumns level.now }
    requires finds { (page : Option PageRow) → touch.now.answer
        ≡ allow_in_page touch.now.address touch.now.mode touch.now.access page
        → finds ≡ is_some page }
    ensures { (front : List PlacedRow) → ((c d : PlacedRow) → Contains front c
        → Contains level.now.changes.items d → c.place < d.place)
        → IsTrue before ↔ IsAnsweredSo front touch.now
        → IsTrue result ↔ IsAnsweredSo (front ++ level.now.changes.items) touch.now }
{
    let first = level.first_allowed(touch.address, u32::MAX, finds);
    if is_answered_between(level, touch, first, u32::MAX) {
        return true;
    }
    if first == 0 {
        return before;
    }
    false
}

/// Whether the touch is answered as its address may still be found to look behind the segments before: as before a change of it,
/// where neither that one nor a later one of it ends this. At most three searches by halving in each level, and 24 in how pages looked
/// before changes.
pub(crate) fn is_of_earlier(earlier: &[History], touch: &Touch) -> bool
    requires { IsLadder earlier.now }
    ensures { IsTrue result ↔ IsAnsweredSo (left_in earlier.now) touch.now }
{
    let finds = finds_page(touch);
    let mut found = false;
    for level in earlier {
        found = is_answered_with(level, touch, finds, found);
    }
    found
}

/// The changes without their places.
fn changes_of(alloc: Global, changes: &[PlacedChange]) -> Result<Vec<Change>, Memory>
    ensures { IfOk result (λ v. v.items ≡ map (λ c. c.change) changes.now) }
{
    Ok(changes.iter().map(|each| each.change).collect(alloc)?)
}

/// What a segment behind others comes to.
#[derive(Debug, Drop)]
pub struct Followed {
    /// The index of the first touch that isn't right, or `None`.
    pub stale: Option<usize>,
    /// What excuses the touches before that one, or all of them.
    pub excuses: Vec<Excuse>,
    /// How many answered touches of the segment were open beside an update, if that was asked.
    pub beside: Option<u64>,
    /// The index of the first release that isn't right, or `None`.
    pub reachable: Option<usize>,
    /// What is left for the touches of later segments.
    pub tail: Tail,
    /// The space with which the segment begins.
    pub start: PlainSpace,
}

/// Judges the touches and the releases of a segment behind others, and gives the start back.
///
/// `stale`: the index of the first touch that isn't right. A right one is answered as its address was at a moment that is still allowed:
/// after the first entries of the run so far and the segment. These have no update that changes how the address looks and was made after
/// the touch was answered. If a page covers the address after them, they have each update that takes away from the address and was answered
/// before the touch was made. If none does, they have each that changes how it looks and was answered by then. Or the touch faults since no
/// page has its address, and its replica's table may lag. An update that its segment doesn't answer is never over, also behind later
/// segments. How addresses may still be found to look for this is what the tail has, of the segments so far and then with this one.
///
/// `reachable`: the index of the first release that is wrong: a touch that is made and answered at its event could find its memory, or it
/// is answered otherwise than by `Done`.
///
/// `excuses`: what excuses each touch, where all are right.
///
/// `beside`, if `counts`: how many answered touches of the segment were open while an update of it was that changes how their address looks.
///
/// The touches and the releases lie in the segment, whose space begins with this start. Of a segment whose log isn't clean nothing is said
/// but that the start comes back. It takes time for the events, the log, the touches, the releases and what of the tail is merged with the
/// changes. It takes none for the pages of the start: the updates of the log are done on it, and then undone. Only the first segment with
/// releases lists all pages, and those that the tail leaves to be found, in indexes that the tail keeps from then on. These have four rows
/// of 16 bytes for each page, and 24 bytes more for one that the tail leaves. Allocates a table of four bytes for each event, 160 bytes for
/// each update that changes the space, 216 bytes for each change of the tail that is merged, and a byte for each touch. With `counts` there
/// are 48 bytes more for each update that changes the space. Where there are releases there are at most 344 bytes more for each change of
/// the segment, and for each page that it changed. Each release has eight rows of 48 bytes, of which the tail keeps half until it lists its
/// pages again.
///
/// # Errors
///
/// `Memory` where a growth of memory was refused, or where the tail would have 2^32 changes.
pub fn follow(
    alloc: Global,
    tail: Tail,
    segment: &Trace,
    start: PlainSpace,
    touches: &[Touch],
    releases: &[Release],
    counts: bool,
) -> Result<Followed, Memory>
    requires depth { start.depth ≡ segment.now.layout.depth }
    requires limit { start.limit ≡ segment.now.layout.tables }
    requires sound { IsSoundTail tail }
    requires memory { AreMemory releases.now }
    ensures finds { (before : Option Run) → IsTailOf before tail
        → GoesOn before segment.now start.space → HasCleanLog segment.now → IfOk result
        (λ found. FindsStale before start.space segment.now touches.now found.stale) }
    ensures excuses { (before : Option Run) → IsTailOf before tail
        → GoesOn before segment.now start.space → HasCleanLog segment.now → IfOk result
        (λ found. IfNone found.stale
        (AreExcusedBy before start.space segment.now touches.now found.excuses.items)) }
    ensures beside { HasCleanLog segment.now → IfOk result
        (λ found. IfSome found.beside (λ count. count ≡ beside start.space segment.now)) }
    ensures counted { IfOk result (λ found. is_some found.beside ≡ counts) }
    ensures tail { (before : Option Run) → IsTailOf before tail
        → GoesOn before segment.now start.space → HasCleanLog segment.now → IfOk result
        (λ found. IsTailOf (Some (run_with before start.space segment.now)) found.tail) }
    ensures reaches { (before : Option Run) → IsTailOf before tail
        → GoesOn before segment.now start.space → HasCleanLog segment.now → IfOk result
        (λ found. FindsReachable before start.space segment.now releases.now found.reachable) }
    ensures within { IfOk result
        (λ found. IfSome found.stale (λ index. index < length touches.now)) }
    ensures released { IfOk result
        (λ found. IfSome found.reachable (λ index. index < length releases.now)) }
    ensures sound { IfOk result (λ found. IsSoundTail found.tail) }
    ensures changes { IfOk result (λ found. KeepsChanges tail found.tail) }
    ensures start { IfOk result (λ found. found.start ≡ start) }
{
    let places = segment.log().len() as u32;
    let Tail {
        changes,
        levels,
        index,
        ..
    } = tail;
    let (own, space) = replay(alloc, segment, start)?;
    let done = changes_of(alloc, &own)?;
    let lefts = lefts_of(alloc, &own)?;
    let beside = beside_if(counts, alloc, segment, &own)?;
    let history = History::of(alloc, own)?;
    pages_are_a_space(&space);
    let joined = Joined {
        history,
        earlier: levels,
        space,
        places,
    };
    let (stale, excuses) = excuses_of(alloc, &joined, touches)?;
    let (reachable, index) = first_reachable(alloc, &joined, &changes, index, releases)?;
    let Joined {
        earlier: levels,
        space,
        ..
    } = joined;
    let (changes, levels, kept) = left_after(alloc, changes, levels, &lefts)?;
    let index = indexes_after(alloc, index, &changes, &lefts)?;
    let start = undo_all(space, &done)?;
    Ok(Followed {
        stale,
        excuses,
        beside,
        reachable,
        tail: Tail {
            changes,
            levels,
            index,
            kept,
        },
        start,
    })
}
