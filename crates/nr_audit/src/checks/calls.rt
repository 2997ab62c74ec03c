//! The first pass: calls and replies, each by itself.

ghost use Rattle.std.specs.Prelude.{◌≡◌, ◌<◌, ◌↔◌, OnOk, IfOk, IfErr, IfSome, IsSomeAnd, IsTrue};
ghost use Rattle.std.specs.Prelude.{is_some, length, option_map, slice_index_or};
ghost use Rattle.vs_types.specs.Refusal.{IfRefused};
ghost use Rattle.nr_trace.specs.Calls.{made_by};
ghost use Rattle.nr_audit.specs.inside.Search.{HasNone, IsFirstAmong};
ghost use Rattle.nr_audit.specs.inside.Passes.{IsCallFault};

use crate::checks::tables::{MaybeIndex, empty_table};
use crate::histories::history::History;
use crate::histories::last_calls::LastCalls;
use nr_trace::{Event, Fault, Recorded, Trace};
use std::alloc::Global;
use vs_types::Fail;

/// The thread of the call that an event is, or `None` where it is none. A touch and a release are calls here.
pub(crate) fn thread_of(event: Event) -> Option<u16>
    ensures { result ≡ option_map (λ made. made.thread) (made_by event) }
{
    match event {
        Event::Call { thread, .. } => Some(thread),
        _ => None,
    }
}

fn is_call(event: Recorded) -> bool
    ensures { result ≡ is_some (made_by event) }
{
    thread_of(event.event()).is_some()
}

/// Whether the last call of a thread has no reply.
fn is_open(last: Option<u32>, replies: &[MaybeIndex]) -> bool
    requires { IfSome last (λ call. call < length replies.now) }
    ensures { IsTrue result ↔ IsSomeAnd last (λ call. slice_index_or replies.now call None ≡ None) }
{
    match last {
        Some(call) => replies[call as usize].get().is_none(),
        None => false,
    }
}

/// Looks for a call of a thread whose earlier call has no reply yet, a reply to what is no earlier call, and a second
/// reply to a call; a touch and a release are calls here. Gives the history, and allocates memory for it, four bytes for each event,
/// and for the last calls of the threads.
pub(crate) fn check_calls<'a>(alloc: Global, trace: &'a Trace) -> Result<History<'a>, Fail<Fault>>
    ensures history { IfOk result (λ history. history ≡ trace.now) }
    ensures clean { OnOk result (HasNone IsCallFault trace.now) }
    ensures first { IfErr result (IfRefused (IsFirstAmong IsCallFault trace.now)) }
{
    let events = trace.events();
    let mut last = LastCalls::new(alloc, trace.layout().threads(), events.len())?;
    let mut replies = empty_table(alloc, events.len())?;
    for (index, event) in events.iter().enumerate() {
        let event = event.event();
        if let Event::Reply { call, .. } = event {
            if call as usize >= index || !is_call(events[call as usize]) {
                return Err(Fail::Refused(Fault::NoSuchCall(index as u32)));
            }
            if replies[call as usize].get().is_some() {
                return Err(Fail::Refused(Fault::AnsweredTwice(index as u32)));
            }
            replies[call as usize] = MaybeIndex::of(index as u32);
        } else if let Some(thread) = thread_of(event) {
            if is_open(last.of(thread), &replies) {
                return Err(Fail::Refused(Fault::ThreadOpen(index as u32)));
            }
            last.note(thread, index as u32)?;
        }
    }
    Ok(History::of(trace, replies))
}
