//! The replay of the log, which lists what changes.

ghost use Rattle.std.specs.Prelude.{◌≡◌, ◌+◌, ◌≤◌, ◌^◌, ◌++◌, length, map, option_and_then, replicate, Contains, IfOk, IfSome, OnOk, Option};
ghost use Rattle.std.specs.Option.{option_map};
ghost use Rattle.std.specs.List.Sorted.{IsNonDecreasingBy};
ghost use Rattle.vs_types.specs.Operation.{IsAction};
ghost use Rattle.vs_types.specs.Page.{bytes_of};
ghost use Rattle.vs_types.specs.Query.{IsQuery};
ghost use Rattle.vs_types.specs.declared.addresses.depth.Depth.{Depth};
ghost use Rattle.nr_trace.specs.Calls.{operation_in, operation_of, reply_in, request_in};
ghost use Rattle.nr_trace.specs.Laws.{HasCleanLog};
ghost use Rattle.nr_trace.specs.Orders.{space_from};
ghost use Rattle.nr_trace.specs.Recording.{IsAskable};
ghost use Rattle.nr_touch.specs.declared.changes.change.PlacedChange.{PlacedChange};
ghost use Rattle.nr_touch.specs.Replies.{AreReplies};
ghost use Rattle.nr_touch.specs.inside.Changes.{AreChanges, listed};
ghost use Rattle.nr_touch.specs.inside.Columns.{IsNumbered};
ghost use Rattle.nr_touch.specs.inside.Undo.{LeadsTo};

use crate::changes::change::{Change, PlacedChange, apply, number_of};
use nr_trace::{Asked, Event, Trace};
use std::alloc::Global;
use vs_plain::PlainSpace;
use vs_plain::laws::pages_are_a_space;
use vs_types::{Memory, Op, Query, Request};

/// What a request does, where it is an update.
fn operation_in(request: Request) -> Option<Op>
    ensures asks { result ≡ operation_in request }
    ensures well_formed { (depth : Depth) → IsQuery depth request → IfSome result (IsAction depth) }
{
    match request.query() {
        Query::Update(op) => Some(op),
        Query::Resolve(_) => None,
        Query::Access(_, _, _) => None,
    }
}

/// What a call that asks this does, where it is an update.
fn operation_asked(asked: Asked) -> Option<Op>
    ensures asks { result ≡ option_and_then operation_in (request_in asked) }
    ensures well_formed { (depth : Depth) → IsAskable depth asked → IfSome result (IsAction depth) }
{
    match asked {
        Asked::Request(request) => operation_in(request),
        Asked::Touch(_, _, _) | Asked::Release(_, _) => None,
    }
}

/// The operation of a call, where it is an update.
fn operation_of(trace: &Trace, call: u32) -> Option<Op>
    ensures asks { result ≡ operation_of trace.now call }
    ensures well_formed { IfSome result (IsAction trace.now.layout.depth) }
{
    match trace.events().get(call as usize)?.event() {
        Event::Call { asked, .. } => operation_asked(asked),
        _ => None,
    }
}

/// A table of this many events, of none of which an answer is known.
fn no_replies(alloc: Global, rows: usize) -> Result<Vec<u32>, Memory>
    ensures { IfOk result (λ table. table.items ≡ replicate rows 4294967295) }
{
    Ok(vec![in alloc; u32::MAX; rows]?)
}

/// The call that an event answers, if it is a reply.
fn answered_in(event: Event) -> Option<u32>
    ensures { result ≡ option_map (λ reply. reply.call) (reply_in event) }
{
    match event {
        Event::Reply { call, .. } => Some(call),
        _ => None,
    }
}

/// By the index of each call the first event that answers it, or `u32::MAX` where there is none. Allocates four bytes for each event.
///
/// # Errors
///
/// `Memory` where a growth of memory was refused.
pub fn replies(alloc: Global, trace: &Trace) -> Result<Vec<u32>, Memory>
    ensures { IfOk result (λ replies. AreReplies trace.now replies.items) }
{
    let events = trace.events();
    let mut replies = no_replies(alloc, events.len())?;
    for (index, event) in events.iter().enumerate() {
        if let Some(call) = answered_in(event.event()) {
            let call = call as usize;
            if call < replies.len() {
                replies[call] = replies[call].min(index as u32);
            }
        }
    }
    Ok(replies)
}

/// Lists the change of a place, if there is one.
fn list(
    changes: &mut Vec<PlacedChange>,
    change: Option<Change>,
    place: u32,
    made: u32,
    answered: u32,
) -> Result<(), Memory>
    requires { IfSome change (λ c. c.page.base + bytes_of c.page.size ≤ 2 ^ 64) }
    ensures { OnOk result
        (changes.new.items ≡ changes.old.items ++ listed change place made answered) }
{
    match change {
        Some(change) => {
            changes.push(PlacedChange {
                change,
                number: number_of(change.page),
                place,
                made,
                answered,
            })?;
            Ok(())
        }
        None => Ok(()),
    }
}

/// The changes of how addresses look that the updates of the log make, by place, and the space after the whole log. What the log has
/// that is no update changes nothing. Allocates a table of four bytes for each event, and for the changes.
pub(crate) fn replay(
    alloc: Global,
    trace: &Trace,
    start: PlainSpace,
) -> Result<(Vec<PlacedChange>, PlainSpace), Memory>
    requires depth { start.depth ≡ trace.now.layout.depth }
    requires limit { start.limit ≡ trace.now.layout.tables }
    ensures changes { HasCleanLog trace.now
        → IfOk result (λ done. AreChanges start.space trace.now done.0.items) }
    ensures space { HasCleanLog trace.now → IfOk result
        (λ done. done.1.space ≡ space_from start.space trace.now trace.now.log) }
    ensures by_place { IfOk result (λ done. IsNonDecreasingBy (λ c. c.place) done.0.items) }
    ensures numbered { IfOk result
        (λ done. (c : PlacedChange) → Contains done.0.items c → IsNumbered c) }
    ensures leads { IfOk result (λ done.
        LeadsTo start.depth start.space (map (λ c. c.change) done.0.items) done.1.space) }
    ensures depth { IfOk result (λ done. done.1.depth ≡ start.depth) }
    ensures limit { IfOk result (λ done. done.1.limit ≡ start.limit) }
{
    let replies = replies(alloc, trace)?;
    let mut space = start;
    let mut changes = Vec::new(alloc);
    for (place, call) in trace.log().iter().enumerate() {
        let op = match operation_of(trace, *call) {
            Some(op) => op,
            None => continue,
        };
        pages_are_a_space(&space);
        let change = apply(&mut space, op)?;
        list(
            &mut changes,
            change,
            place as u32,
            *call,
            replies[*call as usize],
        )?;
    }
    Ok((changes, space))
}

/// The space after the whole log of a segment that begins with this one. What the log has that is no update changes nothing. Allocates a table
/// of four bytes for each event, the changes that the updates make, and the pages that the log maps.
///
/// # Errors
///
/// `Memory` where a growth of memory was refused.
pub fn space_after(alloc: Global, segment: &Trace, start: PlainSpace) -> Result<PlainSpace, Memory>
    requires depth { start.depth ≡ segment.now.layout.depth }
    requires limit { start.limit ≡ segment.now.layout.tables }
    ensures space { HasCleanLog segment.now → IfOk result
        (λ end. end.space ≡ space_from start.space segment.now segment.now.log) }
    ensures depth { IfOk result (λ end. end.depth ≡ start.depth) }
    ensures limit { IfOk result (λ end. end.limit ≡ start.limit) }
{
    let (_, space) = replay(alloc, segment, start)?;
    Ok(space)
}
