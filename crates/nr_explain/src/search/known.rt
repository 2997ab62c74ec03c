//! How many entries of the log a replica is known to have applied.

ghost use Rattle.std.specs.Prelude.{◌≡◌};
ghost use Rattle.nr_audit.specs.Touches.{known_at, known_to};
ghost use Rattle.nr_explain.specs.Facts.{response};
ghost use Rattle.nr_explain.specs.ChainFacts.{IsShownBy};

use crate::search::events::{entries_known, find_call, find_reply};
use crate::trace::evidence::RecordedReply;
use nr_trace::Trace;

/// How many entries a reply shows that a replica has applied: none, where its call wasn't made there.
fn known_to(trace: &Trace, replica: u8, reply: RecordedReply) -> u64
    ensures { result ≡ known_to trace.now replica (response reply) }
{
    match find_call(trace, reply.call) {
        Some(call) => {
            if call.replica == replica {
                entries_known(trace, reply)
            } else {
                0
            }
        }
        None => 0,
    }
}

/// The most entries that the replies before an event show that a replica has applied, and the first reply that shows so many.
pub(crate) fn known_at(trace: &Trace, replica: u8, end: u32) -> (u64, Option<RecordedReply>)
    ensures known { result.0 ≡ known_at trace.now replica end }
    ensures shown { IsShownBy trace.now replica end result.0 result.1 }
{
    let mut known = 0;
    let mut shown = None;
    for index in 0..end {
        if let Some(reply) = find_reply(trace, index) {
            let own = known_to(trace, replica, reply);
            if own > known {
                known = own;
                shown = Some(reply);
            }
        }
    }
    (known, shown)
}
