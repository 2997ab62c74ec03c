//! What is counted of a right segment.

ghost use Rattle.std.specs.Prelude.{◌≡◌, ◌↔◌, false, count_by, is_some, length, slice_get, unwrap_or, IfOk, IfSome, IsTrue, Option};
ghost use Rattle.std.specs.BTreeMap.{get};
ghost use Rattle.std.specs.Option.{option_map_or};
ghost use Rattle.vs_types.specs.Space.{Space};
ghost use Rattle.nr_trace.specs.Run.{Run};
ghost use Rattle.nr_touch.specs.Beside.{beside};
ghost use Rattle.nr_touch.specs.Excuses.{AreExcusedBy};
ghost use Rattle.nr_touch.specs.inside.Indexed.{row_cmp};
ghost use Rattle.nr_audit.specs.Met.{is_kept, is_lagging, is_late, is_open, no_totals, thread_at, totals_plus, totals_with};
ghost use Rattle.nr_audit.specs.Met.{AreTouchesOf, HasMet, IsMostLate};
ghost use Rattle.nr_audit.specs.inside.Begun.{HasSomeTouch};

use crate::checks::calls::thread_of;
use crate::histories::meetings::overlapping;
use crate::verdicts::verdict::Order;
use nr_touch::{Excuse, Touch};
use nr_trace::Trace;
use std::alloc::Global;
use std::collections::BTreeMap;
use vs_types::Memory;

/// What is counted of a right segment, or of several. A number above 2^64 - 1 is given as that.
#[derive(Clone, Copy, Debug, PartialEq, Eq)]
pub struct Met {
    /// The answered updates and reads that were open while another one was.
    pub overlapping: u64,
    /// The answered touches that were open while an update was that changes how their address looks.
    pub beside: u64,
    /// The touches that are right only since an update of their address is open.
    pub since_open: u64,
    /// The faults that are right only by rights that were kept after an update that gave more: one that was answered, or is of an earlier
    /// segment.
    pub since_kept: u64,
    /// The faults that are right only by a table that lags.
    pub since_lagging: u64,
    /// The most of these faults, by kept rights or a table that lags, of one thread at one address in one segment.
    pub repeated: u64,
}

/// How many calls the orders of segments have, and what else is counted of them: sums, but the most faults of one thread at one address within
/// a segment.
#[derive(Clone, Copy, Debug, PartialEq, Eq)]
pub struct Totals {
    pub calls: u64,
    pub met: Met,
}

impl Totals {
    /// Those of no segment.
    pub fn none() -> Totals
        ensures { result ≡ no_totals }
    {
        Totals {
            calls: 0,
            met: Met {
                overlapping: 0,
                beside: 0,
                since_open: 0,
                since_kept: 0,
                since_lagging: 0,
                repeated: 0,
            },
        }
    }

    /// Those of these segments and of others.
    pub fn plus(self, others: Totals) -> Totals
        ensures { result ≡ totals_plus self others }
    {
        let (met, more) = (self.met, others.met);
        Totals {
            calls: self.calls.saturating_add(others.calls),
            met: Met {
                overlapping: met.overlapping.saturating_add(more.overlapping),
                beside: met.beside.saturating_add(more.beside),
                since_open: met.since_open.saturating_add(more.since_open),
                since_kept: met.since_kept.saturating_add(more.since_kept),
                since_lagging: met.since_lagging.saturating_add(more.since_lagging),
                repeated: met.repeated.max(more.repeated),
            },
        }
    }

    /// Those with a segment more, of which this is the order, and so much is counted.
    pub fn with(self, order: &Order, met: Met) -> Totals
        ensures { result ≡ totals_with self order.now met }
    {
        let calls = order.calls().len() as u64;
        self.plus(Totals { calls, met })
    }
}

fn is_open(excuse: Excuse) -> bool
    ensures { result ≡ is_open excuse }
{
    matches!(excuse, Excuse::Open)
}

fn is_kept(excuse: Excuse) -> bool
    ensures { result ≡ is_kept excuse }
{
    matches!(excuse, Excuse::Kept)
}

fn is_lagging(excuse: Excuse) -> bool
    ensures { result ≡ is_lagging excuse }
{
    matches!(excuse, Excuse::Lagging)
}

fn is_late(excuse: Excuse) -> bool
    ensures { result ≡ is_late excuse }
{
    matches!(excuse, Excuse::Kept | Excuse::Lagging)
}

fn count_open(excuses: &[Excuse]) -> usize
    ensures { result ≡ count_by is_open excuses.now }
{
    excuses.iter().filter(|each| is_open(**each)).count()
}

fn count_kept(excuses: &[Excuse]) -> usize
    ensures { result ≡ count_by is_kept excuses.now }
{
    excuses.iter().filter(|each| is_kept(**each)).count()
}

fn count_lagging(excuses: &[Excuse]) -> usize
    ensures { result ≡ count_by is_lagging excuses.now }
{
    excuses.iter().filter(|each| is_lagging(**each)).count()
}

/// Whether the excuse of this index is that of a late fault.
fn is_late_at(excuses: &[Excuse], index: usize) -> bool
    ensures { result ≡ option_map_or is_late (slice_get excuses.now index) false }
{
    match excuses.get(index) {
        Some(excuse) => is_late(*excuse),
        None => false,
    }
}

/// The thread of a call, or 0 where no call has this number.
fn thread_at(segment: &Trace, call: u32) -> u16
    ensures { result ≡ thread_at segment.now call }
{
    match segment.events().get(call as usize) {
        Some(event) => thread_of(event.event()).unwrap_or(0),
        None => 0,
    }
}

/// How many faults of this thread at this address are known.
fn count_at(known: &BTreeMap<(u16, u64), u64>, row: (u16, u64)) -> u64
    ensures { result ≡ unwrap_or (get row_cmp known.now row) 0 }
{
    known.get(&row).copied().unwrap_or(0)
}

/// The most late faults of one thread at one address. Allocates a row of a map for each thread and address that has one.
fn most_late(
    alloc: Global,
    segment: &Trace,
    touches: &[Touch],
    excuses: &[Excuse],
) -> Result<u64, Memory>
    ensures { IfOk result
        (IsMostLate segment.now touches.now excuses.now (length touches.now)) }
{
    let mut known: BTreeMap<(u16, u64), u64> = BTreeMap::new(alloc);
    let mut most: u64 = 0;
    for (index, touch) in touches.iter().enumerate() {
        if is_late_at(excuses, index) {
            let row = (thread_at(segment, touch.made), touch.address);
            let count = count_at(&known, row) + 1;
            known.insert(row, count)?;
            most = most.max(count);
        }
    }
    Ok(most)
}

/// What is counted of a right segment that has these touches with these excuses, of which so many were beside an update. Allocates four
/// bytes for each event, and for the touches that fault late.
fn met_of(
    alloc: Global,
    segment: &Trace,
    touches: &[Touch],
    excuses: &[Excuse],
    near: u64,
) -> Result<Met, Memory>
    ensures { (before : Option Run) (start : Space) → AreTouchesOf segment.now touches.now
        → AreExcusedBy before start segment.now touches.now excuses.now
        → near ≡ beside start segment.now → IfOk result (HasMet before start segment.now) }
{
    let overlapping = overlapping(alloc, segment)?;
    let repeated = most_late(alloc, segment, touches, excuses)?;
    Ok(Met {
        overlapping,
        beside: near,
        since_open: count_open(excuses) as u64,
        since_kept: count_kept(excuses) as u64,
        since_lagging: count_lagging(excuses) as u64,
        repeated,
    })
}

/// The same, where it is asked how many were beside an update.
pub(crate) fn met_if(
    alloc: Global,
    segment: &Trace,
    touches: &[Touch],
    excuses: &[Excuse],
    near: Option<u64>,
) -> Result<Option<Met>, Memory>
    ensures met { (before : Option Run) (start : Space) → AreTouchesOf segment.now touches.now
        → AreExcusedBy before start segment.now touches.now excuses.now
        → IfSome near (λ count. count ≡ beside start segment.now)
        → IfOk result (λ met. IfSome met (HasMet before start segment.now)) }
    ensures counted { IfOk result (λ met. is_some met ≡ is_some near) }
{
    match near {
        None => Ok(None),
        Some(near) => {
            let met = met_of(alloc, segment, touches, excuses, near)?;
            Ok(Some(met))
        }
    }
}

/// What is counted of a segment without touches, if it is asked.
pub(crate) fn untouched(alloc: Global, segment: &Trace, counts: bool) -> Result<Option<Met>, Memory>
    requires { HasSomeTouch segment.now → ⊥ }
    ensures met { (before : Option Run) (start : Space)
        → IfOk result (λ met. IfSome met (HasMet before start segment.now)) }
    ensures counted { IfOk result (λ met. is_some met ≡ counts) }
{
    if !counts {
        return Ok(None);
    }
    let touches = Vec::new(alloc);
    let excuses = Vec::new(alloc);
    let met = met_of(alloc, segment, &touches, &excuses, 0)?;
    Ok(Some(met))
}
