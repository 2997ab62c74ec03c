//! How many entries of the log are known by the replies, and so needed by the replicas.

ghost use Rattle.std.specs.Prelude.{◌≡◌, ◌<◌, IfSome};
ghost use Rattle.vs_types.specs.declared.requests.answer.Answer.{Answer};
ghost use Rattle.nr_trace.specs.Calls.{Response, call_of};
ghost use Rattle.nr_trace.specs.Orders.{known_by};
ghost use Rattle.nr_audit.specs.inside.Prefixes.{with_known};

use crate::histories::history::History;
use vs_types::REPLICAS;

/// How many entries of the log are known by a reply: those up to the update's own, or those that the read saw; by one to a
/// touch or a release none.
pub(crate) fn entries_known(history: &History, call: u32, at: u32) -> u64
    ensures { (answer : Answer)
        → let reply : Response = record { call = call; at = at; answer = answer } in
        result ≡ known_by history.now reply }
{
    if history.is_update(call) {
        at as u64 + 1
    } else if history.is_touch(call) {
        0
    } else {
        at as u64
    }
}

/// Raises what the replica of a call needs to what is known by a reply to it.
pub(crate) fn raise_need(
    history: &History,
    needed: &mut [u64; REPLICAS as usize],
    call: u32,
    known: u64,
)
    ensures in_range { IfSome (call_of history.now call) (λ made. made.replica < 4) }
    ensures raised { needed.new ≡ with_known needed.old (call_of history.now call) known }
{
    if let Some(replica) = history.replica(call) {
        needed[replica as usize] = needed[replica as usize].max(known);
    }
}
