//! What shows that a call comes too early, or that a dump has applied too little.

ghost use Rattle.std.specs.Prelude.{◌≡◌, ◌<◌, ℕ};
ghost use Rattle.nr_trace.specs.Faults.{IsFirst, StandsAfter};
ghost use Rattle.nr_trace.specs.Laws.{HasCleanLog};
ghost use Rattle.nr_trace.specs.declared.refusals.fault.Fault.TheVariants.{Early, PrefixShort};
ghost use Rattle.nr_explain.specs.Dumps.{IsFirstOfItsDump};
ghost use Rattle.nr_explain.specs.Evidence.{IsEarly, IsShortPrefix};

use crate::calls::places::places;
use crate::search::events::{call_at, is_update};
use crate::search::replies::{binding_reply, first_place, first_reply, first_resting, reply_to};
use crate::trace::evidence::{EarlyCall, ShortPrefix};
use nr_trace::Trace;

/// After how many entries a call is in the recorded order.
fn entries_before(trace: &Trace, call: u32) -> u32
    requires clean { HasCleanLog trace.now }
    requires stands { (entries : ℕ) × StandsAfter trace.now call entries }
    ensures { StandsAfter trace.now call result }
{
    if is_update(trace, call) {
        match first_place(trace, call, places(trace)) {
            Some(place) => place,
            None => unreachable!(),
        }
    } else {
        match first_reply(trace, call, trace.events().len() as u32) {
            Some(reply) => reply.at,
            None => unreachable!(),
        }
    }
}

/// The call that comes too early, and the reply before it by which its floor is known.
pub(crate) fn early_call(trace: &Trace, index: u32) -> EarlyCall
    requires { IsFirst trace.now (Early index) }
    ensures event { result.call.event ≡ index }
    ensures is { IsEarly trace.now result }
{
    let entries = entries_before(trace, index);
    let (floor, binding) = binding_reply(trace, index);
    match binding {
        Some(reply) => EarlyCall {
            call: call_at(trace, index),
            entries,
            floor,
            reply,
            answered: call_at(trace, reply.call),
            own: reply_to(trace, index),
        },
        None => unreachable!(),
    }
}

/// The first reply at a replica by which more entries are known than its dump has applied.
pub(crate) fn short_prefix(trace: &Trace, replica: u8) -> ShortPrefix
    requires { IsFirstOfItsDump trace.now (PrefixShort replica) }
    ensures replica { result.replica ≡ replica }
    ensures is { IsShortPrefix trace.now result }
{
    let applied = trace.dumps()[replica as usize].applied();
    match first_resting(trace, replica, applied) {
        Some(found) => found,
        None => unreachable!(),
    }
}
