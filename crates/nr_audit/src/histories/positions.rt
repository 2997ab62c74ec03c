//! The places at which replies say that their calls are.

ghost use Rattle.std.specs.Prelude.{◌≡◌, ◌≢◌, ◌<◌, ◌↔◌, IsTrue, MatchOption, Some, length, slice_get};
ghost use Rattle.vs_types.specs.declared.requests.answer.Answer.{Answer};
ghost use Rattle.nr_trace.specs.Calls.{IsRead, IsUpdate};
ghost use Rattle.nr_trace.specs.declared.recordings.event.Event.TheVariants.{Reply};
ghost use Rattle.nr_audit.specs.inside.Search.{HasNone, IsFirstAmong};
ghost use Rattle.nr_audit.specs.inside.Passes.{IsPositionFaultAt};

use crate::histories::history::History;
use nr_trace::Fault;

fn stands_at(log: &[u32], place: u32, call: u32) -> bool
    ensures { IsTrue result ↔ (slice_get log.now place ≡ Some call) }
{
    log.get(place as usize).copied() == Some(call)
}

/// Whether the call is an update and the log doesn't have it at this place.
fn is_misplaced(history: &History, call: u32, place: u32) -> bool
    ensures { IsTrue result ↔ IsUpdate history.now call
        × (slice_get history.now.log place ≢ Some call) }
{
    if !history.is_update(call) {
        return false;
    }
    !stands_at(history.log(), place, call)
}

/// Whether the call is a read and the log doesn't have so many entries.
fn is_past_log(history: &History, call: u32, entries: u32) -> bool
    ensures { IsTrue result ↔ IsRead history.now call × (length history.now.log < entries) }
{
    if !history.is_read(call) {
        return false;
    }
    entries as usize > history.log().len()
}

/// What is wrong with the position that a reply gives, the event of this index: another place of an update than its own, or
/// more entries that a read saw than the log has.
pub(crate) fn position_fault(history: &History, index: u32, call: u32, at: u32) -> Option<Fault>
    ensures { (answer : Answer) → slice_get history.now.events index ≡ Some (Reply call at answer)
        → MatchOption result (HasNone (IsPositionFaultAt index) history.now)
        (IsFirstAmong (IsPositionFaultAt index) history.now) }
{
    if is_misplaced(history, call, at) {
        return Some(Fault::NotPlaced(index));
    }
    if is_past_log(history, call, at) {
        return Some(Fault::PastLog(index));
    }
    None
}
