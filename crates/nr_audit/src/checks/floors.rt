//! The pass of the replies: their positions, and the calls that come too early.

ghost use Rattle.std.specs.Prelude.{◌≡◌, ◌+◌, OnOk, IfOk, IfErr, length};
ghost use Rattle.vs_types.specs.Refusal.{IfRefused};
ghost use Rattle.nr_trace.specs.Faults.{StandsAfter};
ghost use Rattle.nr_trace.specs.Laws.{HasCleanLog};
ghost use Rattle.nr_trace.specs.Orders.{floor};
ghost use Rattle.nr_audit.specs.inside.Chains.{AreReads};
ghost use Rattle.nr_audit.specs.inside.Prefixes.{AreNeeds};
ghost use Rattle.nr_audit.specs.inside.Search.{FindsEarly, HasNone, IsFirstFromAny};
ghost use Rattle.nr_audit.specs.inside.Passes.{IsCallFault, IsFloorFault, IsLogFault, IsPositionFault};
ghost use Rattle.nr_audit.specs.inside.Tables.{ArePlaces};

use crate::checks::needs::{entries_known, raise_need};
use crate::checks::reads::Chains;
use crate::checks::tables::MaybeIndex;
use crate::histories::history::History;
use crate::histories::positions::position_fault;
use nr_trace::{Event, Fault};
use std::alloc::Global;
use vs_types::{Fail, REPLICAS};

/// The places of a trace's calls in the recorded order, and what is known by its replies.
#[derive(Drop)]
pub(crate) struct Standing {
    /// The answered reads, beside the places of the updates.
    pub(crate) chains: Chains,
    /// How many calls are in the order.
    pub(crate) count: usize,
    /// For each replica the most entries of the log that are known by a reply to a call made there.
    pub(crate) needed: [u64; REPLICAS as usize],
}

/// The first call that comes too early, as far as known: one that was found before, or else the next call, where it is
/// after fewer entries than are known before it.
fn early_call(
    history: &History,
    early: Option<u32>,
    call: u32,
    entries: u32,
    known: u64,
) -> Option<u32>
    requires stands { StandsAfter history.now call entries }
    requires known { known ≡ floor history.now call }
    ensures { HasCleanLog history.now → FindsEarly history.now call early
        → FindsEarly history.now (call + 1) result }
{
    if early.is_some() {
        return early;
    }
    if (entries as u64) < known {
        return Some(call);
    }
    None
}

/// Looks for a reply that gives an update another place than its own, and one that gives a read more entries than the log
/// has. Then it looks for a call that comes before one that was answered before it was made, by one pass over the events, with
/// the most entries that are known so far by a reply. Gives the places of the calls: the reads are put in chains in the table of
/// the places. Allocates four bytes for each place.
pub(crate) fn check_replies(
    alloc: Global,
    history: &History,
    places: Vec<MaybeIndex>,
) -> Result<Standing, Fail<Fault>>
    requires calls { HasNone IsCallFault history.now }
    requires log { HasNone IsLogFault history.now }
    requires table { ArePlaces history.now places.items }
    ensures reads { IfOk result
        (λ standing. AreReads history.now standing.chains.lasts.items
        standing.chains.places_or_reads.items) }
    ensures needs { IfOk result
        (λ standing. AreNeeds history.now (length history.now.events) standing.needed) }
    ensures clean { OnOk result
        (HasNone IsPositionFault history.now × HasNone IsFloorFault history.now) }
    ensures first { IfErr result (IfRefused (IsFirstFromAny history.now)) }
{
    let mut chains = Chains::over(alloc, history, places)?;
    let (mut count, mut early, mut floor, mut needed) = (0, None, 0, [0; REPLICAS as usize]);
    for (index, event) in history.events().iter().enumerate() {
        if let Event::Reply { call, at, .. } = event.event() {
            if let Some(fault) = position_fault(history, index as u32, call, at) {
                return Err(Fail::Refused(fault));
            }
            let known = entries_known(history, call, at);
            floor = floor.max(known);
            raise_need(history, &mut needed, call, known);
        } else if let Some(entries) = chains.pass(history, index as u32) {
            early = early_call(history, early, index as u32, entries, floor);
            count += 1;
        }
    }
    if let Some(call) = early {
        return Err(Fail::Refused(Fault::Early(call)));
    }
    Ok(Standing {
        chains,
        count,
        needed,
    })
}
