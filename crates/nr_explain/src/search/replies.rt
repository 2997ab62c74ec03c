//! Searches through the events and the log.

ghost use Rattle.std.specs.Prelude.{◌≡◌, ◌<◌, ◌≤◌, ℕ, MatchOption, Some, length, slice_get};
ghost use Rattle.nr_trace.specs.Orders.{floor};
ghost use Rattle.nr_explain.specs.Facts.{IsFirstReplyTo};
ghost use Rattle.nr_explain.specs.inside.Searches.{IsBinding, IsFirstReply, IsLastCall, IsResting, IsUnplacedBelow, RestsAt, RestsNowhere};

use crate::search::events::{entries_known, find_call, find_reply};
use crate::trace::evidence::{RecordedCall, RecordedReply, ShortPrefix};
use nr_trace::Trace;

/// The last call of a thread before an event.
pub(crate) fn last_call(trace: &Trace, thread: u16, end: u32) -> Option<RecordedCall>
    ensures { IsLastCall trace.now thread end result }
{
    let mut last = None;
    for index in 0..end {
        if let Some(call) = find_call(trace, index) {
            if call.thread == thread {
                last = Some(call);
            }
        }
    }
    last
}

/// The first reply to a call before an event.
pub(crate) fn first_reply(trace: &Trace, call: u32, end: u32) -> Option<RecordedReply>
    ensures { IsFirstReply trace.now call end result }
{
    for index in 0..end {
        if let Some(reply) = find_reply(trace, index) {
            if reply.call == call {
                return Some(reply);
            }
        }
    }
    None
}

/// The first reply to a call, if it has one.
pub fn reply_to(trace: &Trace, call: u32) -> Option<RecordedReply>
    ensures { IsFirstReplyTo trace.now call result }
{
    first_reply(trace, call, trace.events().len() as u32)
}

/// The first place of the log, of these, that has a call.
pub(crate) fn first_place(trace: &Trace, call: u32, end: u32) -> Option<u32>
    requires { end ≤ length trace.now.log }
    ensures { MatchOption result (IsUnplacedBelow trace.now call end)
        (λ place. (place < end) × (slice_get trace.now.log place ≡ Some call)
        × IsUnplacedBelow trace.now call place) }
{
    let log = trace.log();
    for place in 0..end {
        if log[place as usize] == call {
            return Some(place);
        }
    }
    None
}

/// The first reply before an event by which the most entries are known, and how many.
pub(crate) fn binding_reply(trace: &Trace, end: u32) -> (u64, Option<RecordedReply>)
    ensures floor { result.0 ≡ floor trace.now end }
    ensures reply { IsBinding trace.now end result.0 result.1 }
{
    let mut floor = 0;
    let mut binding = None;
    for index in 0..end {
        if let Some(reply) = find_reply(trace, index) {
            let known = entries_known(trace, reply);
            if known > floor {
                floor = known;
                binding = Some(reply);
            }
        }
    }
    (floor, binding)
}

/// The reply of an event, where it is one to a call made at a replica and more than so many entries are known by it.
fn resting_at(trace: &Trace, replica: u8, applied: u32, index: u32) -> Option<ShortPrefix>
    ensures { MatchOption result (RestsAt trace.now replica applied index → ⊥)
        (λ found. IsResting trace.now replica applied found × (found.reply.event ≡ index)) }
{
    let reply = find_reply(trace, index)?;
    let call = find_call(trace, reply.call)?;
    let known = entries_known(trace, reply);
    if call.replica == replica && known > applied as u64 {
        return Some(ShortPrefix {
            replica,
            applied,
            reply,
            known,
            call,
        });
    }
    None
}

/// The first reply to a call made at a replica by which more than so many entries are known.
pub(crate) fn first_resting(trace: &Trace, replica: u8, applied: u32) -> Option<ShortPrefix>
    ensures { MatchOption result (RestsNowhere trace.now replica applied (length trace.now.events))
        (λ found. IsResting trace.now replica applied found
        × RestsNowhere trace.now replica applied found.reply.event) }
{
    let events = trace.events().len();
    for index in 0..events {
        if let Some(found) = resting_at(trace, replica, applied, index as u32) {
            return Some(found);
        }
    }
    None
}
