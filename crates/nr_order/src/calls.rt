//! The calls of a trace that an order may have.

use nr_audit::request_of;
use nr_touch::replies;
use nr_trace::{Event, Recorded, Trace};
use std::alloc::Global;
use vs_types::{Action, Answer, Memory, Query, Request};

/// No event, and no place.
pub(crate) const NEVER: u32 = u32::MAX;

/// An index in 32 bits: no list here has more elements.
pub(crate) fn short(index: usize) -> u32 {
    index.min(NEVER as usize) as u32
}

/// A call that an order has, or an unanswered update that it may have.
#[derive(Clone, Copy, Debug)]
pub(crate) struct Orderable {
    /// Its number: the event at which it was made.
    pub(crate) made: u32,
    /// The event at which it was answered, or `NEVER`.
    pub(crate) answered: u32,
    pub(crate) replica: u8,
    /// Its place in an order that is tried first, or `NEVER`.
    pub(crate) rank: u32,
    pub(crate) request: Request,
    pub(crate) answer: Option<Answer>,
}

impl Orderable {
    pub(crate) fn is_update(&self) -> bool {
        matches!(self.request.query(), Query::Update(_))
    }

    /// Whether it leaves each space as it is in which it is answered so.
    pub(crate) fn changes_nothing(&self) -> bool {
        match self.answer {
            None => !self.is_update(),
            Some(Answer::Done | Answer::Removed(_, _, _)) => false,
            Some(Answer::Changed(old)) => match self.request.query() {
                Query::Update(op) => matches!(op.action(), Action::Protect(_, new) if new == old),
                _ => true,
            },
            Some(_) => true,
        }
    }
}

/// What an event is answered, if it is a reply.
fn answer_in(event: Recorded) -> Option<Answer> {
    match event.event() {
        Event::Reply { answer, .. } => Some(answer),
        _ => None,
    }
}

/// By call number the place in the log, or `NEVER`. Allocates four bytes for each event.
fn places_of(alloc: Global, trace: &Trace) -> Result<Vec<u32>, Memory> {
    let mut places = vec![in alloc; NEVER; trace.events().len()]?;
    for (place, call) in trace.log().iter().enumerate() {
        if let Some(row) = places.get_mut(*call as usize) {
            *row = short(place);
        }
    }
    Ok(places)
}

/// The calls of a trace that an order may have, by number: an unanswered read says nothing. Allocates memory for them.
pub(crate) fn list_calls(alloc: Global, trace: &Trace) -> Result<Vec<Orderable>, Memory> {
    let answers = replies(alloc, trace)?;
    let places = places_of(alloc, trace)?;
    let mut calls = Vec::new(alloc);
    for (index, event) in trace.events().iter().enumerate() {
        let Event::Call { replica, .. } = event.event() else {
            continue;
        };
        let Some(request) = request_of(trace, short(index)) else {
            continue;
        };
        let answered = answers.get(index).copied().unwrap_or(NEVER);
        let answer = match trace.events().get(answered as usize) {
            Some(reply) => answer_in(*reply),
            None => None,
        };
        if answer.is_none() && !matches!(request.query(), Query::Update(_)) {
            continue;
        }
        calls.push(Orderable {
            made: short(index),
            answered,
            replica,
            rank: places.get(index).copied().unwrap_or(NEVER),
            request,
            answer,
        })?;
    }
    Ok(calls)
}
