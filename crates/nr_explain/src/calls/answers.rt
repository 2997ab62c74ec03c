//! What shows that an answer is not the space's.

ghost use Rattle.std.specs.Prelude.{◌≡◌, IfOk};
ghost use Rattle.nr_trace.specs.Faults.{IsFirst};
ghost use Rattle.nr_trace.specs.declared.refusals.fault.Fault.TheVariants.{WrongAnswer};
ghost use Rattle.nr_explain.specs.Evidence.{IsOtherAnswer};
ghost use Rattle.nr_explain.specs.Facts.{address_about, asked_address};

use crate::search::events::{call_at, request_at};
use crate::search::memory::memory_of;
use crate::search::nearest::nearest;
use crate::search::replies::first_reply;
use crate::search::spaces::{answer_after, last_look, no_pages, space_at};
use crate::trace::evidence::OtherAnswer;
use nr_trace::Trace;
use std::alloc::Global;
use vs_types::{Action, Answer, Memory, Query, Request};

/// The address that a request names.
pub fn asked_address(request: Request) -> u64
    ensures { result ≡ asked_address request }
{
    match request.query() {
        Query::Update(op) => match op.action() {
            Action::Map(page) => page.base,
            Action::Unmap(base) | Action::Protect(base, _) => base,
        },
        Query::Resolve(address) | Query::Access(address, _, _) => address,
    }
}

/// The address that an answer is about: the base that it names, where it names one, else the one that is asked for.
pub fn address_about(request: Request, answer: Answer) -> u64
    ensures { result ≡ address_about request answer }
{
    match answer {
        Answer::Overlap(base) | Answer::Inside(base) => base,
        _ => asked_address(request),
    }
}

/// The call that is answered otherwise than the space answers it, that answer, the last update that made it so, and what is near: where
/// the answer would have been right, and where its memory is. Allocates memory for a space, and for others when that one is freed.
pub(crate) fn other_answer(alloc: Global, trace: &Trace, index: u32) -> Result<OtherAnswer, Memory>
    requires { IsFirst trace.now (WrongAnswer index) }
    ensures event { IfOk result (λ wrong. wrong.call.event ≡ index) }
    ensures is { IfOk result (IsOtherAnswer trace.now) }
{
    let call = call_at(trace, index);
    let request = request_at(trace, index);
    let Some(reply) = first_reply(trace, index, trace.events().len() as u32) else {
        unreachable!()
    };
    let wanted = answer_after(trace, no_pages(alloc, trace), request, reply.at)?;
    let address = address_about(request, wanted);
    let last = last_look(trace, no_pages(alloc, trace), address, reply.at)?;
    let empty = no_pages(alloc, trace);
    let right = nearest(trace, empty, request, reply.answer, reply.at, reply.at)?;
    let then = space_at(alloc, trace, reply.at)?;
    let memory = memory_of(&then, reply.answer)?;
    Ok(OtherAnswer {
        call,
        reply,
        wanted,
        address,
        changed: last.1,
        right,
        memory,
    })
}
