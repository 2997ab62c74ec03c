//! The pass of the answers: each call of the recorded order is served on one space, beside which each dump is compared as it
//! comes to what the dump has applied.

ghost use Rattle.std.specs.Prelude.{◌≡◌, ◌↔◌, IfOk, OnOk, IfErr, OnErr, IfSome, IsTrue, length, slice_get, Some, ◌<◌};
ghost use Rattle.vs_types.specs.declared.limits.TheConstants.{LOG_PLACES};
ghost use Rattle.nr_trace.specs.Laws.{HasCleanLog};
ghost use Rattle.nr_trace.specs.Orders.{recorded_order, space_from};
ghost use Rattle.vs_types.specs.Query.{IsQuery};
ghost use Rattle.vs_types.specs.Refusal.{IfRefused};
ghost use Rattle.nr_audit.specs.inside.Dumps.{AreFound, HasPassed};
ghost use Rattle.nr_audit.specs.inside.LastEvents.{AreLastEvents};
ghost use Rattle.nr_audit.specs.inside.Search.{HasNoneFrom, IsFirstAmongFrom};
ghost use Rattle.nr_audit.specs.inside.Passes.{IsAnswerFault};
ghost use Rattle.nr_audit.specs.Served.{AddsPage, Serves};
ghost use Rattle.nr_audit.specs.Verdict.{space_of};

use crate::checks::dumps::compare_dumps;
use crate::checks::requests::request_of;
use crate::histories::last_events::{LastEvents, answer_at, call_at};
use crate::verdicts::verdict::Order;
use nr_dump::DumpFault;
use nr_trace::{Fault, Trace};
use std::alloc::Global;
use vs_plain::PlainSpace;
use vs_types::{Answer, Fail, Memory, Query, REPLICAS, Request};

/// Serves a request on a space: an update is applied, a resolve and an access are answered and change nothing.
///
/// # Errors
///
/// `Memory` where a growth of memory was refused, as it can be where an update adds a page: the space is as it was.
pub fn serve(space: &mut PlainSpace, request: Request) -> Result<Answer, Memory>
    requires { IsQuery space.old.depth request }
    ensures ok { IfOk result (λ answer. Serves space.old request answer space.new) }
    ensures err { OnErr result (space.new ≡ space.old) }
    ensures for_a_page { OnErr result (AddsPage space.old request) }
{
    match request.query() {
        Query::Update(op) => space.apply(op),
        Query::Resolve(address) => Ok(space.resolve(address)),
        Query::Access(address, mode, access) => Ok(space.access(address, mode, access)),
    }
}

fn is_same(recorded: Answer, given: Answer) -> bool
    ensures { IsTrue result ↔ (recorded ≡ given) }
{
    recorded == given
}

/// Whether what a call is answered, if anything is, is this answer.
pub(crate) fn agrees(told: Option<Answer>, answer: Answer) -> bool
    ensures { IsTrue result ↔ IfSome told (λ told. told ≡ answer) }
{
    match told {
        Some(told) => is_same(told, answer),
        None => true,
    }
}

/// Whether the log has the call at this place.
fn is_placed(trace: &Trace, place: usize, call: u32) -> bool
    ensures is { IsTrue result ↔ (slice_get trace.now.log place ≡ Some call) }
    ensures few { IsTrue result → place < LOG_PLACES }
{
    match trace.log().get(place) {
        Some(placed) => *placed == call,
        None => false,
    }
}

/// If the call is the update of the next place of the log, compares the dumps that have applied so many entries with the
/// space before it. Gives how many places the calls have passed with it.
fn pass_place(
    alloc: Global,
    trace: &Trace,
    place: usize,
    call: u32,
    space: &PlainSpace,
    faults: &mut [Option<DumpFault>; REPLICAS as usize],
) -> Result<usize, Memory>
    ensures { IfOk result
        (λ next. HasPassed trace.now space.now place call next faults.old faults.new) }
{
    if is_placed(trace, place, call) {
        compare_dumps(alloc, trace, place, space, faults)?;
        Ok(place + 1)
    } else {
        Ok(place)
    }
}

/// Serves the calls of a trace in the recorded order on one space, from its start on, and looks for an answer that is not the
/// space's. Puts each call in the place of its last event. On the way each dump that has not applied the whole log is compared
/// with the space after what it has applied.
fn serve_calls(
    alloc: Global,
    trace: &Trace,
    members: &mut [u32],
    start: PlainSpace,
    faults: &mut [Option<DumpFault>; REPLICAS as usize],
) -> Result<PlainSpace, Fail<Fault>>
    requires clean { HasCleanLog trace.now }
    requires listed { AreLastEvents trace.now (recorded_order trace.now) members.old }
    requires start { start ≡ space_of trace.now.layout start.space }
    requires none { AreFound start.space trace.now 0 faults.old }
    ensures calls { OnOk result (members.new ≡ recorded_order trace.now) }
    ensures space { IfOk result (λ space. space
        ≡ space_of trace.now.layout (space_from start.space trace.now trace.now.log)) }
    ensures found { OnOk result
        (AreFound start.space trace.now (length trace.now.log) faults.new) }
    ensures right { OnOk result (HasNoneFrom start.space IsAnswerFault trace.now) }
    ensures first { IfErr result
        (IfRefused (IsFirstAmongFrom start.space IsAnswerFault trace.now)) }
{
    let mut space = start;
    let mut place = 0;
    for member in members.iter_mut() {
        let event = *member;
        let call = call_at(trace, event);
        *member = call;
        let Some(request) = request_of(trace, call) else {
            continue;
        };
        place = pass_place(alloc, trace, place, call, &space, faults)?;
        let answer = serve(&mut space, request)?;
        if !agrees(answer_at(trace, event), answer) {
            return Err(Fail::Refused(Fault::WrongAnswer(call)));
        }
    }
    Ok(space)
}

/// Serves the calls of a trace, which come by their last events in the recorded order, on one space, from its start on, and
/// looks for an answer that is not the space's. Gives the order of the calls, in the memory of the events, and the space after
/// all of them. What is wrong with a dump that has not applied the whole log is kept under its replica.
pub(crate) fn check_answers(
    alloc: Global,
    trace: &Trace,
    events: LastEvents,
    start: PlainSpace,
    faults: &mut [Option<DumpFault>; REPLICAS as usize],
) -> Result<(Order, PlainSpace), Fail<Fault>>
    requires clean { HasCleanLog trace.now }
    requires listed { AreLastEvents trace.now (recorded_order trace.now) events }
    requires start { start ≡ space_of trace.now.layout start.space }
    requires none { AreFound start.space trace.now 0 faults.old }
    ensures calls { IfOk result (λ served. served.0 ≡ recorded_order trace.now) }
    ensures space { IfOk result (λ served. served.1
        ≡ space_of trace.now.layout (space_from start.space trace.now trace.now.log)) }
    ensures found { OnOk result
        (AreFound start.space trace.now (length trace.now.log) faults.new) }
    ensures right { OnOk result (HasNoneFrom start.space IsAnswerFault trace.now) }
    ensures first { IfErr result
        (IfRefused (IsFirstAmongFrom start.space IsAnswerFault trace.now)) }
{
    let mut members = events.into_events();
    let space = serve_calls(alloc, trace, &mut members, start, faults)?;
    Ok((Order::of(members), space))
}
