//! What the segments of a chain so far have come to.

ghost use Rattle.std.specs.Prelude.{◌≡◌, ◌<◌, IfOk, IfSome, None, count_by, length, option_map};
ghost use Rattle.nr_trace.specs.Laws.{HasCleanLog};
ghost use Rattle.nr_trace.specs.Orders.{recorded_order, space_from};
ghost use Rattle.nr_touch.specs.Tails.{HasIndexes, IsSoundTail, KeepsChanges};
ghost use Rattle.nr_audit.specs.Verdict.{space_of};
ghost use Rattle.nr_audit.specs.Start.{first_space};
ghost use Rattle.nr_explain.specs.Progress.{is_release, is_there, is_touch, nothing_yet, sums_after};
ghost use Rattle.nr_explain.specs.inside.Reading.{all_states, began_seen, counts_seen, space_seen, state_of, sums_seen, BeginsWell, FitsSegment};
ghost use Rattle.nr_explain.specs.inside.Reading.{IsCopyOf, IsTwice};

use crate::chain::explanation::ChainCounts;
use crate::chain::spaces::{begin_first, start_space};
use nr_audit::{Met, Order, Past, Totals};
use nr_touch::{Tail, space_after};
use nr_trace::{Asked, Event, Trace, TraceLayout};
use std::alloc::Global;
use vs_plain::PlainSpace;
use vs_types::Memory;

/// How much the segments so far have. A number above 2^64 - 1 is given as that.
#[derive(Clone, Copy)]
pub(crate) struct Sums {
    pub(crate) segments: u64,
    /// What is counted of them.
    pub(crate) totals: Totals,
    pub(crate) updates: u64,
    pub(crate) reads: u64,
    pub(crate) touches: u64,
    pub(crate) releases: u64,
    pub(crate) dumps: u64,
    /// The bytes that spell them.
    pub(crate) bytes: u64,
}

impl Sums {
    fn none() -> Sums
        ensures { result ≡ nothing_yet }
    {
        Sums {
            segments: 0,
            totals: Totals::none(),
            updates: 0,
            reads: 0,
            touches: 0,
            releases: 0,
            dumps: 0,
            bytes: 0,
        }
    }
}

/// What the last segment has come to, and the chain with it.
#[derive(Drop)]
pub(crate) struct Progress {
    pub(crate) layout: TraceLayout,
    /// The space after the whole log of the last segment.
    pub(crate) space: PlainSpace,
    /// How addresses may still be found to look otherwise.
    pub(crate) tail: Tail,
    /// The space with which the chain begins, where its first segment has a start.
    pub(crate) began: Option<PlainSpace>,
    pub(crate) sums: Sums,
}

/// How much the segments so far have.
pub(crate) fn sums_of(last: &Option<Progress>) -> Sums
    ensures { result ≡ sums_seen (all_states last.now) }
{
    match last {
        Some(came) => came.sums,
        None => Sums::none(),
    }
}

fn is_touch(event: Event) -> bool
    ensures { result ≡ is_touch event }
{
    matches!(
        event,
        Event::Call {
            asked: Asked::Touch(_, _, _),
            ..
        }
    )
}

/// How many touches a segment has.
fn touches_in(segment: &Trace) -> usize
    ensures { result ≡ count_by is_touch segment.now.events }
{
    segment
        .events()
        .iter()
        .filter(|event| is_touch(event.event()))
        .count()
}

fn is_release(event: Event) -> bool
    ensures { result ≡ is_release event }
{
    matches!(
        event,
        Event::Call {
            asked: Asked::Release(_, _),
            ..
        }
    )
}

/// How many releases a segment has.
fn releases_in(segment: &Trace) -> usize
    ensures { result ≡ count_by is_release segment.now.events }
{
    segment
        .events()
        .iter()
        .filter(|event| is_release(event.event()))
        .count()
}

/// How many dumps of a segment are there.
fn dumps_in(segment: &Trace) -> usize
    ensures { result ≡ count_by is_there segment.now.dumps }
{
    segment
        .dumps()
        .iter()
        .filter(|dump| dump.count() > 0)
        .count()
}

/// How much there is with a segment more, of which this is the order, of which so much is counted, and which so many bytes spell.
fn sums_after(sums: Sums, segment: &Trace, order: &Order, met: Met, size: usize) -> Sums
    requires { order.now ≡ recorded_order segment.now }
    ensures { result ≡ sums_after sums segment.now met size }
{
    let calls = order.calls().len() as u64;
    let updates = segment.log().len() as u64;
    Sums {
        segments: sums.segments.saturating_add(1),
        totals: sums.totals.with(order, met),
        updates: sums.updates.saturating_add(updates),
        reads: sums.reads.saturating_add(calls - updates),
        touches: sums.touches.saturating_add(touches_in(segment) as u64),
        releases: sums.releases.saturating_add(releases_in(segment) as u64),
        dumps: sums.dumps.saturating_add(dumps_in(segment) as u64),
        bytes: sums.bytes.saturating_add(size as u64),
    }
}

/// What is there before a segment goes on.
#[derive(Drop)]
struct Before {
    /// The space with which it begins.
    space: PlainSpace,
    /// What the segments before leave, if there are any.
    tail: Option<Tail>,
    /// The space with which the chain begins, where its first segment has a start.
    began: Option<PlainSpace>,
}

/// What is there before a segment with whose start nothing is wrong. Of a first segment it allocates memory for both spaces, and for two
/// checks of the start.
fn begin_behind(alloc: Global, last: Option<Progress>, segment: &Trace) -> Result<Before, Memory>
    requires fits { IfSome last (FitsSegment segment.now) }
    requires well { BeginsWell last segment.now }
    ensures space { IfOk result (λ before. before.space ≡ space_of segment.now.layout
        (first_space (space_seen (all_states last)) segment.now)) }
    ensures tail { IfOk result (λ before. before.tail ≡ option_map (λ came. came.tail) last) }
    ensures began { IfOk result (λ before.
        option_map (λ space. space.space) before.began ≡ began_seen (all_states last) segment.now) }
{
    match last {
        Some(came) => {
            let Progress {
                space,
                tail,
                began,
                ..
            } = came;
            Ok(Before {
                space,
                tail: Some(tail),
                began,
            })
        }
        None => {
            let began = start_space(alloc, segment)?;
            let space = begin_first(alloc, segment)?;
            Ok(Before {
                space,
                tail: None,
                began,
            })
        }
    }
}

/// What is come to with a segment more, of which this is the order and so much is counted, which leaves this, and which so many bytes
/// spell. It is made by a copy of what the segment leaves, and that is given with it. It allocates two spaces where the segment is the
/// first, and memory for the pages that its log maps, the changes that its updates make, and what the copy doesn't have of the segments
/// before.
pub(crate) fn go_on(
    alloc: Global,
    last: Option<Progress>,
    segment: &Trace,
    order: &Order,
    met: Met,
    after: Past,
    size: usize,
) -> Result<(Progress, Past), Memory>
    requires fits { IfSome last (FitsSegment segment.now) }
    requires well { BeginsWell last segment.now }
    requires order { order.now ≡ recorded_order segment.now }
    requires clean { HasCleanLog segment.now }
    requires after { after.space ≡ space_of segment.now.layout
        (space_from (first_space (space_seen (all_states last)) segment.now) segment.now
        segment.now.log) }
    requires index { HasIndexes after.tail after.space.space }
    requires sound { IsSoundTail after.tail }
    requires kept { IfSome last (λ came. KeepsChanges came.tail after.tail) }
    ensures layout { IfOk result (λ done. done.0.layout ≡ segment.now.layout) }
    ensures space { IfOk result (λ done. done.0.space ≡ after.space) }
    ensures tail { IfOk result (λ done. IsCopyOf after.tail done.0.tail) }
    ensures same { IfOk result (λ done. done.1.tail ≡ after.tail) }
    ensures twice { IfOk result (λ done. IsTwice done.0 done.1) }
    ensures began { IfOk result (λ done.
        (state_of done.0).began ≡ began_seen (all_states last) segment.now) }
    ensures sums { IfOk result (λ done.
        done.0.sums ≡ sums_after (sums_seen (all_states last)) segment.now met size) }
{
    let sums = sums_of(&last);
    let layout = segment.layout();
    let before = begin_behind(alloc, last, segment)?;
    let Before {
        space: first,
        tail,
        began,
    } = before;
    let space = space_after(alloc, segment, first)?;
    let sums = sums_after(sums, segment, order, met, size);
    let left = after.tail.copy(alloc, tail)?;
    let Past { space: end, tail } = after;
    let came = Progress {
        layout,
        space,
        tail: left,
        began,
        sums,
    };
    Ok((came, Past { space: end, tail }))
}

/// How much a chain has whose segments have come to this. Allocates memory for a list of the pages.
pub(crate) fn counts_of(came: &Progress) -> Result<ChainCounts, Memory>
    ensures { IfOk result (λ counts. counts ≡ counts_seen (state_of came.now)) }
{
    let sums = came.sums;
    let met = sums.totals.met;
    let pages = came.space.pages()?;
    Ok(ChainCounts {
        segments: sums.segments,
        calls: sums.totals.calls,
        updates: sums.updates,
        reads: sums.reads,
        touches: sums.touches,
        releases: sums.releases,
        dumps: sums.dumps,
        replicas: came.layout.replicas(),
        pages: pages.len() as u64,
        overlapping: met.overlapping,
        beside: met.beside,
        since_open: met.since_open,
        since_kept: met.since_kept,
        since_lagging: met.since_lagging,
        repeated: met.repeated,
    })
}
