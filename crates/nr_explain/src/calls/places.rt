//! What shows a fault of the log, or of a place or number of entries that a reply gives.

ghost use Rattle.std.specs.Prelude.{◌≡◌, ◌<◌, ◌≤◌, ◌^◌, length};
ghost use Rattle.nr_trace.specs.Faults.{IsFirst};
ghost use Rattle.nr_trace.specs.declared.refusals.fault.Fault.TheVariants.{NotAnUpdate, NotPlaced, PastLog, PlacedTwice};
ghost use Rattle.nr_explain.specs.Evidence.{AreTwoPlaces, IsFirstPlace, IsMisplaced, IsNoUpdate, IsPastEnd};

use crate::search::events::{call_at, event_at, reply_at};
use crate::search::replies::first_place;
use crate::trace::evidence::{Misplaced, NoUpdate, PastEnd, TwoPlaces};
use nr_trace::Trace;

/// How many places the log has.
pub(crate) fn places(trace: &Trace) -> u32
    ensures { result ≡ length trace.now.log }
{
    trace.log().len() as u32
}

/// The number at a place of the log that is no update's, and the event that it names.
pub(crate) fn no_update(trace: &Trace, place: u32) -> NoUpdate
    requires { IsFirst trace.now (NotAnUpdate place) }
    ensures place { result.place ≡ place }
    ensures is { IsNoUpdate trace.now result }
{
    let call = trace.log()[place as usize];
    NoUpdate {
        place,
        call,
        named: event_at(trace, call),
    }
}

/// The two places of an update.
pub(crate) fn two_places(trace: &Trace, second: u32) -> TwoPlaces
    requires { IsFirst trace.now (PlacedTwice second) }
    ensures place { result.second ≡ second }
    ensures are { AreTwoPlaces trace.now result }
{
    let call = trace.log()[second as usize];
    match first_place(trace, call, second) {
        Some(first) => TwoPlaces {
            call: call_at(trace, call),
            first,
            second,
        },
        None => unreachable!(),
    }
}

/// The place at which the log has the update that a reply places elsewhere, and what the log has there.
pub(crate) fn misplaced(trace: &Trace, index: u32) -> Misplaced
    requires { IsFirst trace.now (NotPlaced index) }
    ensures event { result.reply.event ≡ index }
    ensures is { IsMisplaced trace.now result }
{
    let reply = reply_at(trace, index);
    let call = call_at(trace, reply.call);
    let own = first_place(trace, reply.call, places(trace));
    let there = trace.log().get(reply.at as usize).copied();
    Misplaced {
        call,
        reply,
        own,
        there,
    }
}

/// The read whose reply gives more entries than the log has.
pub(crate) fn past_end(trace: &Trace, index: u32) -> PastEnd
    requires { IsFirst trace.now (PastLog index) }
    ensures event { result.reply.event ≡ index }
    ensures is { IsPastEnd trace.now result }
{
    let reply = reply_at(trace, index);
    PastEnd {
        call: call_at(trace, reply.call),
        reply,
        places: places(trace),
    }
}
