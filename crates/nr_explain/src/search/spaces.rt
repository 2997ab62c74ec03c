//! The space after the first places of the log, and the last of these that changed how an address looks.

ghost use Rattle.std.specs.Prelude.{◌≡◌, ◌+◌, ◌<◌, ◌≤◌, ◌↔◌, length, take, slice_get, Some, IfOk, IsTrue, OnErr, OnOk};
ghost use Rattle.vs_types.specs.Query.{IsQuery};
ghost use Rattle.vs_types.specs.Space.{Space, no_pages};
ghost use Rattle.nr_trace.specs.Orders.{answer_in, space_after, space_from};
ghost use Rattle.nr_audit.specs.Verdict.{space_of};
ghost use Rattle.nr_explain.specs.Facts.{IsCallOf, IsLastChangeFrom, looks_from};
ghost use Rattle.nr_explain.specs.inside.Searches.{HasCallAt};

use crate::search::events::call_at;
use crate::trace::evidence::PlacedUpdate;
use nr_audit::{request_of, serve};
use nr_trace::Trace;
use std::alloc::Global;
use vs_plain::PlainSpace;
use vs_types::{Answer, Memory, Request};

/// Applies the update of a place to the space before it.
///
/// # Errors
///
/// `Memory` where a growth of memory was refused; the space is then unchanged.
pub fn apply_place(trace: &Trace, space: &mut PlainSpace, place: u32) -> Result<(), Memory>
    requires within { place < length trace.now.log }
    requires before { (start : Space) × (space.old
        ≡ space_of trace.now.layout (space_from start trace.now (take place trace.now.log))) }
    ensures ok { (start : Space) → space.old
        ≡ space_of trace.now.layout (space_from start trace.now (take place trace.now.log))
        → OnOk result (space.new
        ≡ space_of trace.now.layout (space_from start trace.now (take (place + 1) trace.now.log))) }
    ensures err { OnErr result (space.new ≡ space.old) }
{
    let log = trace.log();
    if let Some(request) = request_of(trace, log[place as usize]) {
        serve(space, request)?;
    }
    Ok(())
}

/// The space after this many places, from this space on.
pub(crate) fn space_from(trace: &Trace, start: PlainSpace, end: u32) -> Result<PlainSpace, Memory>
    requires start { start ≡ space_of trace.now.layout start.space }
    requires within { end ≤ length trace.now.log }
    ensures { IfOk result (λ space. space ≡ space_of trace.now.layout
        (space_from start.space trace.now (take end trace.now.log))) }
{
    let mut space = start;
    for place in 0..end {
        apply_place(trace, &mut space, place)?;
    }
    Ok(space)
}

/// No pages. It allocates nothing.
pub(crate) fn no_pages(alloc: Global, trace: &Trace) -> PlainSpace
    ensures { result ≡ space_of trace.now.layout no_pages }
{
    let layout = trace.layout();
    PlainSpace::new(alloc, layout.tables(), layout.depth())
}

/// The space after this many places.
pub(crate) fn space_at(alloc: Global, trace: &Trace, end: u32) -> Result<PlainSpace, Memory>
    requires { end ≤ length trace.now.log }
    ensures { IfOk result (λ space.
        space ≡ space_of trace.now.layout (space_after trace.now (take end trace.now.log))) }
{
    space_from(trace, no_pages(alloc, trace), end)
}

/// What a request is answered in the space after this many places, from this space on. Allocates memory for the space.
///
/// # Errors
///
/// `Memory` where a growth of memory was refused.
pub fn answer_after(
    trace: &Trace,
    start: PlainSpace,
    request: Request,
    end: u32,
) -> Result<Answer, Memory>
    requires start { start ≡ space_of trace.now.layout start.space }
    requires within { end ≤ length trace.now.log }
    requires fits { IsQuery trace.now.layout.depth request }
    ensures { IfOk result (λ answer. answer ≡ answer_in trace.now.layout
        (space_from start.space trace.now (take end trace.now.log)) request) }
{
    let mut space = space_from(trace, start, end)?;
    serve(&mut space, request)
}

/// Whether two answers are one.
pub(crate) fn is_same(left: Answer, right: Answer) -> bool
    ensures { IsTrue result ↔ (left ≡ right) }
{
    left == right
}

/// The update at a place of the log.
pub(crate) fn update_at(trace: &Trace, place: u32) -> PlacedUpdate
    requires within { place < length trace.now.log }
    requires call { HasCallAt trace.now place }
    ensures place { result.place ≡ place }
    ensures call { IsCallOf trace.now result.call }
    ensures placed { slice_get trace.now.log place ≡ Some result.call.event }
{
    PlacedUpdate {
        place,
        call: call_at(trace, trace.log()[place as usize]),
    }
}

/// How an address looks in the space after the first places, this many, from this space on, and the last of these whose update changed
/// that. Allocates memory for the space.
///
/// # Errors
///
/// `Memory` where a growth of memory was refused.
pub fn last_look(
    trace: &Trace,
    start: PlainSpace,
    address: u64,
    end: u32,
) -> Result<(Answer, Option<PlacedUpdate>), Memory>
    requires start { start ≡ space_of trace.now.layout start.space }
    requires within { end ≤ length trace.now.log }
    ensures looks { IfOk result (λ last. last.0 ≡ looks_from start.space trace.now address end) }
    ensures changed { IfOk result (λ last.
        IsLastChangeFrom start.space trace.now address end last.1) }
{
    let mut space = start;
    let mut looks = space.resolve(address);
    let mut changed = None;
    for place in 0..end {
        apply_place(trace, &mut space, place)?;
        let then = space.resolve(address);
        if !is_same(looks, then) {
            changed = Some(update_at(trace, place));
        }
        looks = then;
    }
    Ok((looks, changed))
}
