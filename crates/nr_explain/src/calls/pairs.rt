//! What shows a fault of calls and replies.

ghost use Rattle.std.specs.Prelude.{◌≡◌};
ghost use Rattle.nr_trace.specs.Faults.{IsFirst};
ghost use Rattle.nr_trace.specs.declared.refusals.fault.Fault.TheVariants.{ThreadOpen, NoSuchCall, AnsweredTwice};
ghost use Rattle.nr_explain.specs.Evidence.{AreOpen, AreTwoReplies, IsStrayReply};

use crate::search::events::{call_at, event_at, reply_at};
use crate::search::replies::{first_reply, last_call};
use crate::trace::evidence::{OpenCalls, StrayReply, TwoReplies};
use nr_trace::Trace;

/// The call that is made while an earlier one of its thread has no reply, and that one.
pub(crate) fn open_calls(trace: &Trace, index: u32) -> OpenCalls
    requires { IsFirst trace.now (ThreadOpen index) }
    ensures event { result.second.event ≡ index }
    ensures are { AreOpen trace.now result }
{
    let second = call_at(trace, index);
    match last_call(trace, second.thread, index) {
        Some(first) => OpenCalls { first, second },
        None => unreachable!(),
    }
}

/// The reply that names no earlier call, and what it names.
pub(crate) fn stray_reply(trace: &Trace, index: u32) -> StrayReply
    requires { IsFirst trace.now (NoSuchCall index) }
    ensures event { result.reply.event ≡ index }
    ensures is { IsStrayReply trace.now result }
{
    let reply = reply_at(trace, index);
    StrayReply {
        reply,
        named: event_at(trace, reply.call),
    }
}

/// The second reply to a call, the first one and the call.
pub(crate) fn two_replies(trace: &Trace, index: u32) -> TwoReplies
    requires { IsFirst trace.now (AnsweredTwice index) }
    ensures event { result.second.event ≡ index }
    ensures are { AreTwoReplies trace.now result }
{
    let second = reply_at(trace, index);
    let call = call_at(trace, second.call);
    match first_reply(trace, second.call, index) {
        Some(first) => TwoReplies {
            call,
            first,
            second,
        },
        None => unreachable!(),
    }
}
