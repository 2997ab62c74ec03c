//! The last event of each call of an order.

ghost use Rattle.std.specs.Prelude.{◌≡◌, ◌<◌, All, length, option_map};
ghost use Rattle.nr_trace.specs.Calls.{IsCall, reply_of};
ghost use Rattle.nr_audit.specs.inside.LastEvents.{call_at, AreLastEvents};

use crate::histories::history::History;
use crate::verdicts::verdict::Order;
use nr_trace::{Event, Trace};
use std::marker::Model;
use vs_types::Answer;

/// The calls of an order by the index of the last event of each: the reply to it, or the call itself where it has none. Such an
/// event names its call, and what that is answered. Contracts see the list of the events.
#[derive(Drop)]
pub(crate) struct LastEvents {
    events: Vec<u32>,
}

impl Model for LastEvents {
    ghost use Rattle.std.specs.Prelude.{ℕ, List};
    ghost use Rattle.std.specs.Coded.{coded_ℕ, coded_list};

    ghost Value = { List ℕ };

    ghost coded = { coded_list coded_ℕ };

    ghost view = { λ l. l.events.items };
}

impl LastEvents {
    ghost use Rattle.std.specs.Prelude.{◌≡◌};

    /// Those of an order, in the memory of it. The history is freed.
    pub(crate) fn of(history: History, order: Order) -> LastEvents
        requires { All (IsCall history) order }
        ensures { AreLastEvents history.entry order result }
    {
        LastEvents {
            events: put_last_events(history, order.into_calls()),
        }
    }

    pub(crate) fn into_events(self) -> Vec<u32>
        ensures { result.items ≡ self }
    {
        self.events
    }
}

/// Puts the last event of each call in the place of the call.
fn put_last_events(history: History, calls: Vec<u32>) -> Vec<u32>
    requires { All (IsCall history) calls.items }
    ensures { AreLastEvents history.entry calls.items result.items }
{
    let mut members = calls;
    for member in members.iter_mut() {
        *member = history.last_event(*member);
    }
    members
}

/// The call of an event: that which a reply names, or the one that the event is.
pub(crate) fn call_at(trace: &Trace, event: u32) -> u32
    requires { event < length trace.now.events }
    ensures { result ≡ call_at trace.now event }
{
    match trace.events()[event as usize].event() {
        Event::Reply { call, .. } => call,
        _ => event,
    }
}

/// What is answered at an event, or `None` where it is no reply.
#[inline(always)]
pub(crate) fn answer_at(trace: &Trace, event: u32) -> Option<Answer>
    requires { event < length trace.now.events }
    ensures { result ≡ option_map (λ reply. reply.answer) (reply_of trace.now event) }
{
    match trace.events()[event as usize].event() {
        Event::Reply { answer, .. } => Some(answer),
        _ => None,
    }
}

/// The position in a reply, or `None` where it is no reply.
#[inline(always)]
pub(crate) fn position_at(trace: &Trace, event: u32) -> Option<u32>
    requires { event < length trace.now.events }
    ensures { result ≡ option_map (λ reply. reply.at) (reply_of trace.now event) }
{
    match trace.events()[event as usize].event() {
        Event::Reply { at, .. } => Some(at),
        _ => None,
    }
}
