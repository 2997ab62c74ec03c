//! What shows that an answer is not the space's.

ghost use Rattle.std.specs.Prelude.{◌≡◌, IfOk};
ghost use Rattle.nr_trace.specs.Faults.{IsFirstFrom};
ghost use Rattle.nr_trace.specs.declared.refusals.fault.Fault.TheVariants.{WrongAnswer};
ghost use Rattle.nr_audit.specs.Verdict.{space_of};
ghost use Rattle.nr_explain.specs.Evidence.{IsOtherAnswerFrom};

use crate::calls::answers::address_about;
use crate::search::events::{call_at, request_at};
use crate::search::memory::memory_of;
use crate::search::nearest::nearest;
use crate::search::replies::reply_to;
use crate::search::spaces::{answer_after, last_look, space_from};
use crate::trace::evidence::OtherAnswer;
use nr_audit::copy;
use nr_trace::Trace;
use std::alloc::Global;
use vs_plain::PlainSpace;
use vs_types::Memory;

/// The call that is answered otherwise than the space answers it, where the segment begins with this one. With it come that answer, the
/// last update of the segment that made it so, and what is near: where the answer would have been right, and where its memory is.
/// Allocates memory for a copy of the space, and for others when that one is freed.
pub(crate) fn other_answer(
    alloc: Global,
    segment: &Trace,
    first: &PlainSpace,
    index: u32,
) -> Result<OtherAnswer, Memory>
    requires space { first.now ≡ space_of segment.now.layout first.now.space }
    requires first { IsFirstFrom first.now.space segment.now (WrongAnswer index) }
    ensures event { IfOk result (λ wrong. wrong.call.event ≡ index) }
    ensures is { IfOk result (IsOtherAnswerFrom first.now.space segment.now) }
{
    let call = call_at(segment, index);
    let request = request_at(segment, index);
    let Some(reply) = reply_to(segment, index) else {
        unreachable!()
    };
    let tables = segment.layout().tables();
    let space = copy(alloc, tables, first)?;
    let wanted = answer_after(segment, space, request, reply.at)?;
    let address = address_about(request, wanted);
    let again = copy(alloc, tables, first)?;
    let last = last_look(segment, again, address, reply.at)?;
    let before = copy(alloc, tables, first)?;
    let right = nearest(segment, before, request, reply.answer, reply.at, reply.at)?;
    let begun = copy(alloc, tables, first)?;
    let then = space_from(segment, begun, reply.at)?;
    let memory = memory_of(&then, reply.answer)?;
    Ok(OtherAnswer {
        call,
        reply,
        wanted,
        address,
        changed: last.1,
        right,
        memory,
    })
}
