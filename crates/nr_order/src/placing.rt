//! A trace with an order of its calls as its log.

ghost use Rattle.std.specs.Prelude.{◌≡◌, ◌≢◌, ◌<◌, ◌-◌, ◌∷◌, [], ℕ, is_some, length, map, slice_get, IfOk, IfSome, List, Some};
ghost use Rattle.nr_trace.specs.Orders.{updates};
ghost use Rattle.nr_trace.specs.Calls.{operation_of};
ghost use Rattle.nr_trace.specs.Recording.{Recording};
ghost use Rattle.nr_order.specs.WithOrder.{placed_by, with_order};
ghost use Rattle.nr_order.specs.inside.Counted.{AreCounted};

use crate::copies::copy_all;
use nr_audit::request_of;
use nr_trace::{Event, Recorded, Trace};
use std::alloc::Global;
use vs_types::{CALLS, Memory, Query};

/// Whether an update has this number.
fn is_update(trace: &Trace, call: u32) -> bool
    ensures { result ≡ is_some (operation_of trace.now call) }
{
    match request_of(trace, call) {
        Some(request) => matches!(request.query(), Query::Update(_)),
        None => false,
    }
}

/// The updates of an order, in their order.
fn updates_of(alloc: Global, trace: &Trace, order: &[u32]) -> Result<Vec<u32>, Memory>
    ensures { IfOk result (λ log. log.items ≡ updates trace.now order.now) }
{
    Ok(
        order
            .iter()
            .copied()
            .filter(|call| is_update(trace, *call))
            .collect(alloc)?,
    )
}

/// How many updates come before a call, where so many come up to it, with itself.
fn before_own(trace: &Trace, call: u32, up_to: u32) -> u32
    ensures { result ≡ up_to - length (updates trace.now (call ∷ [])) }
{
    if is_update(trace, call) {
        up_to.saturating_sub(1)
    } else {
        up_to
    }
}

/// Notes how many updates come before a call, if there is a row for it.
fn note(counts: &mut [u32], call: u32, before: u32)
    ensures own { call < length counts.new → slice_get counts.new call ≡ Some before }
    ensures others { (other : ℕ) → other ≢ call
        → slice_get counts.new other ≡ slice_get counts.old other }
{
    if (call as usize) < counts.len() {
        counts[call as usize] = before;
    }
}

/// By call number how many updates come before the call in an order, which has so many in all. They are counted from the last member back,
/// so that the first of equal ones counts. Allocates four bytes for each event.
fn count_before(alloc: Global, trace: &Trace, order: &[u32], count: u32) -> Result<Vec<u32>, Memory>
    requires { count ≡ length (updates trace.now order.now) }
    ensures { IfOk result (λ counts. AreCounted trace.now order.now counts.items) }
{
    let mut before = count;
    let mut counts = vec![in alloc; before; trace.events().len()]?;
    for passed in 0..order.len() {
        let call = order[order.len() - 1 - passed];
        before = before_own(trace, call, before);
        note(&mut counts, call, before);
    }
    Ok(counts)
}

/// The event where so many updates come before each call; `None` where it answers a call that there isn't.
fn placed(event: Recorded, counts: &[u32]) -> Option<Recorded>
    ensures { (trace : Recording) (order : List ℕ) → AreCounted trace order counts.now
        → IfSome result (λ made. made ≡ placed_by trace order event) }
{
    match event.event() {
        Event::Reply { call, answer, .. } => {
            let at = *counts.get(call as usize)?;
            Some(Recorded::of(Event::Reply { call, at, answer }))
        }
        Event::Call { .. } => Some(event),
    }
}

/// The events of a trace, with each reply at so many updates; `None` where one answers a call that there isn't.
fn place_events(
    alloc: Global,
    trace: &Trace,
    counts: &[u32],
) -> Result<Option<Vec<Recorded>>, Memory>
    ensures { (order : List ℕ) → AreCounted trace.now order counts.now
        → IfOk result (λ placed. IfSome placed
        (λ events. events.items ≡ map (placed_by trace.now order) trace.now.events)) }
{
    let mut events = Vec::with_capacity(alloc, trace.events().len())?;
    for event in trace.events() {
        match placed(*event, counts) {
            Some(event) => events.push(event)?,
            None => return Ok(None),
        }
    }
    Ok(Some(events))
}

/// The trace with the updates of an order as its log: the reply to each call gets the number of updates before the call, and the dumps are
/// copied. `None` where that is no trace, and where a reply answers a call that there isn't. Allocates memory for the whole trace.
///
/// # Errors
///
/// `Memory` where a growth of memory was refused.
pub fn with_order(alloc: Global, trace: &Trace, order: &[u32]) -> Result<Option<Trace>, Memory>
    ensures { IfOk result (λ made. IfSome made (λ whole. whole ≡ with_order trace.now order.now)) }
{
    let log = updates_of(alloc, trace, order)?;
    if log.len() > CALLS as usize {
        return Ok(None);
    }
    let counts = count_before(alloc, trace, order, log.len() as u32)?;
    let Some(events) = place_events(alloc, trace, &counts)? else {
        return Ok(None);
    };
    if trace.start().is_some() {
        return Ok(None);
    }
    let dumps = copy_all(alloc, trace.dumps())?;
    Ok(Trace::new(trace.version(), trace.layout(), None, log, events, dumps).ok())
}
