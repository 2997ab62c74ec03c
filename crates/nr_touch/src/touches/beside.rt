//! How many touches of a segment were open while an update of it was that changes how their address looks.

ghost use Rattle.std.specs.Prelude.{◌≡◌, ◌↔◌, ◌<◌, ◌^◌, length, map, is_some, List, Contains, IfOk, IfSome, IsTrue};
ghost use Rattle.vs_types.specs.Space.{Space};
ghost use Rattle.nr_trace.specs.Laws.{HasCleanLog};
ghost use Rattle.nr_touch.specs.Beside.{beside, is_beside, touched};
ghost use Rattle.nr_touch.specs.declared.changes.change.PlacedChange.{PlacedChange};
ghost use Rattle.nr_touch.specs.Replies.{AreReplies};
ghost use Rattle.nr_touch.specs.inside.Changes.{AreChanges};
ghost use Rattle.nr_touch.specs.inside.Columns.{IsNumbered};
ghost use Rattle.nr_touch.specs.inside.Lives.{opening_of, AreLives, AreOpenings, IsOpenWithin};

use crate::changes::change::PlacedChange;
use crate::changes::history::number_at;
use crate::changes::replay::replies;
use crate::releases::lives::{Life, Lives};
use nr_trace::{Asked, Event, Trace};
use std::alloc::Global;
use vs_types::{Memory, Size};

/// From when on and until when an update is open.
fn opening_of(placed: &PlacedChange) -> Life
    ensures { result ≡ opening_of placed.now }
{
    Life {
        block: placed.number,
        from: placed.made,
        until: placed.answered,
        row: placed.place as usize,
    }
}

fn all_openings(alloc: Global, changes: &[PlacedChange]) -> Result<Vec<Life>, Memory>
    ensures { IfOk result (λ v. v.items ≡ map opening_of changes.now) }
{
    Ok(
        changes
            .iter()
            .map(|placed| opening_of(placed))
            .collect(alloc)?,
    )
}

/// When the updates are open that make the changes. Allocates 48 bytes for each, of which half are freed.
fn openings(alloc: Global, changes: &[PlacedChange]) -> Result<Lives, Memory>
    ensures lives { IfOk result AreLives }
    ensures columns { IfOk result (AreOpenings changes.now) }
{
    let openings = all_openings(alloc, changes)?;
    Lives::sorted(alloc, openings)
}

/// Whether an update that changes how the address looks is open at some event from the first one up to the last: three searches by
/// halving.
fn is_open_within(updates: &Lives, address: u64, first: u32, last: u32) -> bool
    requires { AreLives updates.now }
    ensures { (changes : List PlacedChange)
        → ((c : PlacedChange) → Contains changes c → IsNumbered c) → AreOpenings changes updates.now
        → IsTrue result ↔ IsOpenWithin changes address first last }
{
    if updates.meets(number_at(address, Size::K4), first, last) {
        return true;
    }
    if updates.meets(number_at(address, Size::M2), first, last) {
        return true;
    }
    updates.meets(number_at(address, Size::G1), first, last)
}

/// The address of the call of this number, if it is a touch.
fn touched(trace: &Trace, call: u32) -> Option<u64>
    ensures { result ≡ touched trace.now call }
{
    match trace.events().get(call as usize)?.event() {
        Event::Call {
            asked: Asked::Touch(address, _, _),
            ..
        } => Some(address),
        _ => None,
    }
}

/// Whether the call of this number is an answered touch that was open while an update of its page was.
fn is_beside(trace: &Trace, replies: &[u32], updates: &Lives, call: u32) -> bool
    requires few { length trace.now.events < 2 ^ 32 }
    requires replies { AreReplies trace.now replies.now }
    requires lives { AreLives updates.now }
    ensures { (start : Space) (changes : List PlacedChange) → HasCleanLog trace.now
        → AreChanges start trace.now changes
        → ((c : PlacedChange) → Contains changes c → IsNumbered c) → AreOpenings changes updates.now
        → result ≡ is_beside start trace.now call }
{
    let Some(address) = touched(trace, call) else {
        return false;
    };
    let answered = replies[call as usize];
    if answered as usize >= replies.len() {
        return false;
    }
    is_open_within(updates, address, call, answered)
}

/// How many touches of a segment were open while an update of it was that makes one of these changes at their address. Allocates a table of
/// four bytes for each event, and 48 bytes for each change.
fn count_beside(alloc: Global, segment: &Trace, changes: &[PlacedChange]) -> Result<u64, Memory>
    requires { (c : PlacedChange) → Contains changes.now c → IsNumbered c }
    ensures { (start : Space) → HasCleanLog segment.now → AreChanges start segment.now changes.now
        → IfOk result (λ count. count ≡ beside start segment.now) }
{
    let replies = replies(alloc, segment)?;
    let updates = openings(alloc, changes)?;
    let events = segment.events().len() as u32;
    let mut count: u64 = 0;
    for call in 0..events {
        if is_beside(segment, &replies, &updates, call) {
            count += 1;
        }
    }
    Ok(count)
}

/// The same, if it is asked.
pub(crate) fn beside_if(
    counts: bool,
    alloc: Global,
    segment: &Trace,
    changes: &[PlacedChange],
) -> Result<Option<u64>, Memory>
    requires { (c : PlacedChange) → Contains changes.now c → IsNumbered c }
    ensures count { (start : Space) → HasCleanLog segment.now
        → AreChanges start segment.now changes.now
        → IfOk result (λ found. IfSome found (λ count. count ≡ beside start segment.now)) }
    ensures counted { IfOk result (λ found. is_some found ≡ counts) }
{
    if !counts {
        return Ok(None);
    }
    let count = count_beside(alloc, segment, changes)?;
    Ok(Some(count))
}
