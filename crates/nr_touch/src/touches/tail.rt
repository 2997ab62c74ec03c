//! What the segments so far leave for the touches of later ones: how addresses may still be found to look.

ghost use Rattle.std.specs.Prelude.{◌≡◌, ◌↔◌, ◌+◌, ◌<◌, ◌≤◌, ◌^◌, ◌++◌, ◌∷◌, ◌⊎◌, ◌||◌, if◌then◌else◌, map, drop, length, take, true, false, [], List, None, Contains};
ghost use Rattle.std.specs.Prelude.{IfOk, IsTrue, OnOk, Option};
ghost use Rattle.std.specs.List.Sorted.{IsNonDecreasingBy};
ghost use Rattle.nr_trace.specs.Run.{Run};
ghost use Rattle.nr_touch.specs.Tails.{ends_look, AreSound, IsSoundLeft, IsSoundTail, IsTailOf, KeepsAll, KeepsChanges};
ghost use Rattle.nr_touch.specs.declared.changes.change.PlacedChange.{PlacedChange};
ghost use Rattle.nr_touch.specs.inside.Changes.{number_of, page_before};
ghost use Rattle.nr_touch.specs.inside.Columns.{AreColumns, IsNumbered};
ghost use Rattle.nr_touch.specs.declared.touches.tail.Left.{Left as LeftRow};
ghost use Rattle.nr_touch.specs.inside.Lefts.{AreNoted, IsFarFrom, IsHiddenBy, KeepEnds, KeepLooks};
ghost use Rattle.nr_touch.specs.inside.Levels.{left_of, placed_at, AreLevels, ArePlacedFrom};

use crate::changes::change::{Change, PlacedChange};
use crate::changes::history::{History, number_at};
use crate::releases::lingering::Indexes;
use std::alloc::Global;
use std::collections::BTreeSet;
use vs_types::{Memory, Size};

/// A change of how addresses look that an update of an earlier segment made.
#[derive(Clone, Copy, Debug)]
pub(crate) struct Left {
    pub(crate) change: Change,
    /// Whether the update was answered.
    pub(crate) over: bool,
}

/// Behind some segments, how addresses may still be found to look. It has the changes, in the order of the log, before which their
/// addresses may still be found to look as they did, and those behind them that end this. Once a segment has had releases, it also has
/// indexes of the pages of the space, and of those that addresses may still be found to look as, by the memory that they lead into.
#[derive(Debug, Drop)]
pub struct Tail {
    pub(crate) changes: Vec<Left>,
    /// The columns of these changes, the oldest first. A level has more rows than all later ones together, but for those that are merged
    /// next.
    pub(crate) levels: Vec<History>,
    /// The pages that a release is compared with, by the memory that they lead into: from the first segment with releases on.
    pub(crate) index: Option<Indexes>,
    /// How many of the first changes were left before the last segment too.
    pub(crate) kept: usize,
}

impl Tail {
    /// What no segments leave: nothing. It allocates no memory.
    pub fn none(alloc: Global) -> Tail
        ensures none { IsTailOf None result }
        ensures sound { IsSoundTail result }
    {
        Tail {
            changes: Vec::new(alloc),
            levels: Vec::new(alloc),
            index: None,
            kept: 0,
        }
    }

    /// What is left behind a segment that changes nothing of it. It allocates no memory.
    pub fn unchanged(self) -> Tail
        ensures tail { (before : Option Run) → IsTailOf before self → IsTailOf before result }
        ensures sound { IsSoundTail self → IsSoundTail result }
        ensures changes { KeepsChanges self result }
        ensures all { KeepsAll self result }
    {
        let Tail {
            changes,
            levels,
            index,
            ..
        } = self;
        let kept = changes.len();
        Tail {
            changes,
            levels,
            index,
            kept,
        }
    }

    /// Whether nothing is left, and no index of the pages is built: as behind no segments.
    pub fn is_none(&self) -> bool
        ensures { IsTrue result ↔ IsTailOf None self.now }
    {
        if !self.changes.is_empty() {
            return false;
        }
        self.index.is_none()
    }
}

/// When a change is answered that is over before all events, or never is.
fn answered_of(over: bool) -> u32
    ensures { result ≡ if over then 0 else 4294967295 }
{
    if over { 0 } else { u32::MAX }
}

/// The number of the page of a change.
fn number_left(left: &Left) -> u64
    requires { IsSoundLeft left.now }
    ensures { result ≡ number_of left.now.change.page }
{
    number_at(left.change.page.base, left.change.page.size)
}

/// A change as that of a place of its own, made before all events, and answered so where it is over.
fn placed_at(left: &Left, place: u32) -> PlacedChange
    requires { IsSoundLeft left.now }
    ensures { result ≡ placed_at place left.now }
{
    PlacedChange {
        change: left.change,
        number: number_left(left),
        place,
        made: 0,
        answered: answered_of(left.over),
    }
}

/// The changes with their places among one another, from this one on. Allocates 56 bytes for each.
fn placed(alloc: Global, changes: &[Left], start: u32) -> Result<Vec<PlacedChange>, Memory>
    requires each { (left : LeftRow) → Contains changes.now left → IsSoundLeft left }
    requires few { start + length changes.now < 4294967295 }
    ensures each { IfOk result (λ placed. ArePlacedFrom start changes.now placed.items) }
    ensures by_place { IfOk result (λ placed. IsNonDecreasingBy (λ c. c.place) placed.items) }
    ensures numbered { IfOk result
        (λ placed. (c : PlacedChange) → Contains placed.items c → IsNumbered c) }
{
    let mut placed = Vec::new(alloc);
    for (index, left) in changes.iter().enumerate() {
        placed.push(placed_at(left, start + index as u32))?;
    }
    Ok(placed)
}

/// The columns of changes, in one level.
pub(crate) fn one_level(alloc: Global, changes: &[Left]) -> Result<Vec<History>, Memory>
    requires { AreSound changes.now }
    ensures { IfOk result (λ levels. AreLevels changes.now levels.items) }
{
    let mut levels = Vec::new(alloc);
    levels.push(History::of(alloc, placed(alloc, changes, 0)?)?)?;
    Ok(levels)
}

/// A change of the segment that ends now.
fn left_of(placed: &PlacedChange) -> Left
    ensures { result ≡ left_of placed.now }
{
    Left {
        change: placed.change,
        over: placed.answered < u32::MAX,
    }
}

/// The changes of a segment that ends now.
pub(crate) fn lefts_of(alloc: Global, own: &[PlacedChange]) -> Result<Vec<Left>, Memory>
    ensures { IfOk result (λ v. v.items ≡ map left_of own.now) }
{
    Ok(own.iter().map(|placed| left_of(placed)).collect(alloc)?)
}

/// Whether a page is found before the change, or it takes away.
fn finds_or_takes(change: Change) -> bool
    ensures { result ≡ (change.was_mapped || change.takes) }
{
    change.was_mapped || change.takes
}

/// Whether a later change of the page of this size that has this one's addresses ends what this one would.
fn is_hidden_in(history: &History, left: &Left, place: u32, size: Size) -> bool
    requires columns { AreColumns history.now }
    requires sound { IsSoundLeft left.now }
    requires few { place + 1 < 2 ^ 32 }
    ensures { IsTrue result → IsHiddenBy history.now.changes.items left.now place }
{
    let page = left.change.page;
    let own = page.size.level();
    let other = size.level();
    if other < own {
        return false;
    }
    let number = number_at(page.base, size);
    let finds = finds_or_takes(left.change);
    let until = history.flushed_of(number, u32::MAX, finds);
    let next = place + 1;
    if until <= next {
        return false;
    }
    true
}

/// Whether a later change of all addresses of this one ends what this one would: then it says nothing more of them.
fn is_hidden(history: &History, left: &Left, place: u32) -> bool
    requires columns { AreColumns history.now }
    requires sound { IsSoundLeft left.now }
    requires few { place + 1 < 2 ^ 32 }
    ensures { IsTrue result → IsHiddenBy history.now.changes.items left.now place }
{
    if is_hidden_in(history, left, place, Size::K4) {
        return true;
    }
    if is_hidden_in(history, left, place, Size::M2) {
        return true;
    }
    is_hidden_in(history, left, place, Size::G1)
}

/// Whether a change ends itself that its addresses are found to look as before it.
pub(crate) fn ends_itself(left: &Left) -> bool
    ensures { result ≡ ends_look left.now (page_before left.now.change) }
{
    if left.change.was_mapped {
        left.over && left.change.takes
    } else {
        left.over
    }
}

/// Notes the number of the page of a change that doesn't end itself how its addresses look. Allocates memory for a new one.
fn note(numbers: &mut BTreeSet<u64>, left: &Left) -> Result<(), Memory>
    requires { IsSoundLeft left.now }
    ensures { (changes : List LeftRow) → AreNoted changes numbers.old
        → OnOk result (AreNoted (changes ++ left.now ∷ []) numbers.new) }
{
    if ends_itself(left) {
        return Ok(());
    }
    numbers.insert(number_left(left))?;
    Ok(())
}

/// Whether no page whose number is noted has an address of the page of a change.
fn is_far(numbers: &BTreeSet<u64>, left: &Left) -> bool
    requires { IsSoundLeft left.now }
    ensures { (changes : List LeftRow) → AreNoted changes numbers.now → AreSound changes
        → IsTrue result → IsFarFrom changes left.now }
{
    let base = left.change.page.base;
    let large = number_at(base, Size::M2);
    if numbers.contains(&large) {
        return false;
    }
    let huge = number_at(base, Size::G1);
    if numbers.contains(&huge) {
        return false;
    }
    let last = base + (left.change.page.size.bytes() - 1);
    for _ in numbers.range(base..=last) {
        return false;
    }
    true
}

/// Whether a change says nothing more: a later one ends what it would; or it comes among the first, ends itself what it would leave, and
/// nothing before it.
fn is_needless(
    history: &History,
    left: &Left,
    place: u32,
    numbers: &BTreeSet<u64>,
    are_first: bool,
) -> bool
    requires columns { AreColumns history.now }
    requires sound { IsSoundLeft left.now }
    requires few { place + 1 < 2 ^ 32 }
    ensures { (changes : List LeftRow) → AreNoted changes numbers.now → AreSound changes → IsTrue result
        → ((are_first ≡ true) × (ends_look left.now (page_before left.now.change) ≡ true)
        × IsFarFrom changes left.now) ⊎ IsHiddenBy history.now.changes.items left.now place }
{
    if are_first && ends_itself(left) && is_far(numbers, left) {
        return true;
    }
    is_hidden(history, left, place)
}

/// The changes without those that say nothing more of the looks before them. Of those that end themselves what they would leave, it keeps
/// those behind one that has some of their addresses and doesn't; and all, where others come before these.
fn thinned(alloc: Global, changes: &[Left], are_first: bool) -> Result<Vec<Left>, Memory>
    requires { AreSound changes.now }
    ensures looks { IfOk result (λ kept. KeepLooks changes.now kept.items) }
    ensures ends { are_first ≡ false → IfOk result (λ kept. KeepEnds changes.now kept.items) }
    ensures sound { IfOk result (λ kept. AreSound kept.items) }
    ensures fewer { IfOk result (λ kept. length kept.items ≤ length changes.now) }
{
    let history = History::of(alloc, placed(alloc, changes, 0)?)?;
    let mut numbers = BTreeSet::new(alloc);
    let mut kept = Vec::new(alloc);
    for (place, left) in changes.iter().enumerate() {
        if is_needless(&history, left, place as u32, &numbers, are_first) {
            continue;
        }
        note(&mut numbers, left)?;
        kept.push(*left)?;
    }
    Ok(kept)
}

/// How many levels stay as they are, and how many changes these have: the last ones are merged, each of which has no more rows than
/// come behind it.
fn merged(changes: &[Left], levels: &[History], own: usize) -> (usize, usize)
    requires { AreLevels changes.now levels.now }
    ensures levels { AreLevels (take result.1 changes.now) (take result.0 levels.now) }
    ensures within { result.1 ≤ length changes.now }
{
    let many = changes.len();
    let count = levels.len();
    let mut start = many;
    for passed in 0..count {
        let keep = count - passed;
        let rows = levels[keep - 1].changes.len();
        if many - start < rows.saturating_sub(own) {
            return (keep, start);
        }
        start -= rows;
    }
    (0, start)
}

/// The changes from an index on, and behind them others. Allocates the list.
fn rows_behind(
    alloc: Global,
    changes: &[Left],
    start: usize,
    own: &[Left],
) -> Result<Vec<Left>, Memory>
    requires { start ≤ length changes.now }
    ensures { IfOk result (λ rows. rows.items ≡ drop start changes.now ++ own.now) }
{
    let mut rows = Vec::from_slice(alloc, &changes[start..])?;
    rows.extend_from_slice(own)?;
    Ok(rows)
}

/// The changes that are left behind the segments so far and one more, which made these, their columns, and how many of the first ones
/// were left before. It goes through a level that is left only if it has no more rows than what comes behind it.
pub(crate) fn left_after(
    alloc: Global,
    changes: Vec<Left>,
    levels: Vec<History>,
    own: &[Left],
) -> Result<(Vec<Left>, Vec<History>, usize), Memory>
    requires changes { AreSound changes.items }
    requires levels { AreLevels changes.items levels.items }
    requires own { (left : LeftRow) → Contains own.now left → IsSoundLeft left }
    ensures looks { IfOk result (λ found. KeepLooks (changes.items ++ own.now) found.0.items) }
    ensures sound { IfOk result (λ found. AreSound found.0.items) }
    ensures levels { IfOk result (λ found. AreLevels found.0.items found.1.items) }
    ensures kept { IfOk result
        (λ found. take found.2 found.0.items ≡ take found.2 changes.items) }
{
    let mut changes = changes;
    let mut levels = levels;
    if own.is_empty() {
        let all = changes.len();
        return Ok((changes, levels, all));
    }
    let (keep, start) = merged(&changes, &levels, own.len());
    let rows = rows_behind(alloc, &changes, start, own)?;
    if rows.len() >= 4294967295 - start {
        return Err(Memory);
    }
    let kept = thinned(alloc, &rows, start == 0)?;
    levels.truncate(keep);
    levels.push(History::of(alloc, placed(alloc, &kept, start as u32)?)?)?;
    changes.truncate(start);
    changes.extend_from_slice(&kept)?;
    Ok((changes, levels, start))
}
