//! Events of a trace by their indexes.

ghost use Rattle.std.specs.Prelude.{◌≡◌, ◌<◌, ◌↔◌, ◌+◌, MatchOption, IfSome, IsSome, IsTrue, None, Some, slice_get, is_some};
ghost use Rattle.vs_types.specs.Query.{IsQuery};
ghost use Rattle.nr_trace.specs.Calls.{call_of, operation_of, reply_of, request_of, touch_of, IsCall};
ghost use Rattle.nr_trace.specs.Orders.{known_by};
ghost use Rattle.nr_trace.specs.Recording.{IsAskable};
ghost use Rattle.nr_explain.specs.Facts.{response, IsCallOf, IsReplyOf};
ghost use Rattle.nr_explain.specs.inside.Searches.{IsReply};

use crate::trace::evidence::{RecordedCall, RecordedReply};
use nr_audit::request_of;
use nr_trace::{Event, Trace};
use vs_types::{Query, Request};

/// The event of this index, if there is one.
pub(crate) fn event_at(trace: &Trace, index: u32) -> Option<Event>
    ensures { result ≡ slice_get trace.now.events index }
{
    Some(trace.events().get(index as usize)?.event())
}

/// The call of this number, if there is one.
pub(crate) fn find_call(trace: &Trace, index: u32) -> Option<RecordedCall>
    ensures is { MatchOption result (call_of trace.now index ≡ None)
        (λ call. IsCallOf trace.now call × (call.event ≡ index)) }
    ensures askable { IfSome result (λ call. IsAskable trace.now.layout.depth call.asked) }
{
    match trace.events().get(index as usize)?.event() {
        Event::Call {
            replica,
            thread,
            asked,
        } => Some(RecordedCall {
            event: index,
            replica,
            thread,
            asked,
        }),
        _ => None,
    }
}

/// The reply that the event of this index is, if it is one.
pub(crate) fn find_reply(trace: &Trace, index: u32) -> Option<RecordedReply>
    ensures { MatchOption result (reply_of trace.now index ≡ None)
        (λ reply. IsReplyOf trace.now reply × (reply.event ≡ index)) }
{
    match trace.events().get(index as usize)?.event() {
        Event::Reply { call, at, answer } => Some(RecordedReply {
            event: index,
            call,
            at,
            answer,
        }),
        _ => None,
    }
}

/// The call of a number that is one.
pub fn call_at(trace: &Trace, index: u32) -> RecordedCall
    requires { IsCall trace.now index }
    ensures is { IsCallOf trace.now result }
    ensures event { result.event ≡ index }
    ensures askable { IsAskable trace.now.layout.depth result.asked }
{
    match find_call(trace, index) {
        Some(call) => call,
        None => unreachable!(),
    }
}

/// What an update or a read asks.
pub(crate) fn request_at(trace: &Trace, index: u32) -> Request
    requires { IsSome (request_of trace.now index) }
    ensures asks { request_of trace.now index ≡ Some result }
    ensures well_formed { IsQuery trace.now.layout.depth result }
{
    match request_of(trace, index) {
        Some(request) => request,
        None => unreachable!(),
    }
}

/// The reply that an event is.
pub(crate) fn reply_at(trace: &Trace, index: u32) -> RecordedReply
    requires { IsReply trace.now index }
    ensures is { IsReplyOf trace.now result }
    ensures event { result.event ≡ index }
{
    match find_reply(trace, index) {
        Some(reply) => reply,
        None => unreachable!(),
    }
}

/// Whether a touch or a release has this number.
fn is_touch(trace: &Trace, call: u32) -> bool
    ensures { result ≡ is_some (touch_of trace.now call) }
{
    match event_at(trace, call) {
        Some(event) => event.is_unordered(),
        None => false,
    }
}

/// Whether an update has this number.
pub(crate) fn is_update(trace: &Trace, call: u32) -> bool
    ensures { result ≡ is_some (operation_of trace.now call) }
{
    match request_of(trace, call) {
        Some(request) => matches!(request.query(), Query::Update(_)),
        None => false,
    }
}

/// How many entries of the log are known by a reply: those up to the update's own, or those that the read saw; by one to a
/// touch or a release none.
pub(crate) fn entries_known(trace: &Trace, reply: RecordedReply) -> u64
    ensures { result ≡ known_by trace.now (response reply) }
{
    if is_update(trace, reply.call) {
        reply.at as u64 + 1
    } else if is_touch(trace, reply.call) {
        0
    } else {
        reply.at as u64
    }
}
