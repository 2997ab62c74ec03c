//! What shows each fault, by numbers that are in the trace.

use crate::audit::trace_of;
use crate::audit_cases::{CALLS, Case, DUMPS, FORMATS, ORDERS};
use crate::units::feed_in_units;
use nr_explain::{Evidence, Explanation, PlacedUpdate, TableEntry, explain_read};
use nr_trace::{Asked, Event};
use std::alloc::{AllocError, Global};
use std::process::Abort;
use vs_types::Answer;
use vs_walk::Walk;

/// One more than a number, or 0 for none.
fn after(number: Option<u32>) -> u64 {
    match number {
        Some(number) => u64::from(number) + 1,
        None => 0,
    }
}

/// One more than the place of an update, or 0 for none.
fn after_place(changed: &Option<PlacedUpdate>) -> u64 {
    match changed {
        Some(update) => u64::from(update.place) + 1,
        None => 0,
    }
}

/// 1 for a call, 2 for a reply, 3 for a touch, or 0 for none.
fn kind_of(event: Option<Event>) -> u64 {
    match event {
        Some(Event::Call { asked, .. }) => match asked {
            Asked::Request(_) => 1,
            Asked::Touch(_, _, _) => 3,
            Asked::Release(_, _) => 4,
        },
        Some(Event::Reply { .. }) => 2,
        None => 0,
    }
}

/// The number of an answer, or 0.
fn number_of(answer: Answer) -> u64 {
    match answer {
        Answer::Full(number) | Answer::Mapped(number, _, _) | Answer::Allowed(number) => number,
        _ => 0,
    }
}

/// The physical address of a walk, or 0.
fn end_of(walk: Walk) -> u64 {
    match walk {
        Walk::Mapped(phys, _, _) => phys,
        _ => 0,
    }
}

/// Adds level, frame, index and word of each step.
fn push_steps(numbers: &mut Vec<u64>, steps: &[TableEntry]) -> Result<(), AllocError> {
    for step in steps {
        numbers.extend_from_slice(&[
            u64::from(step.level),
            step.frame,
            u64::from(step.index),
            step.word,
        ])?;
    }
    Ok(())
}

/// The numbers that show a fault of the calls and the answers.
fn numbers_of_calls(numbers: &mut Vec<u64>, shown: &Evidence) -> Result<(), AllocError> {
    match shown {
        Evidence::ThreadOpen(calls) => numbers.extend_from_slice(&[
            u64::from(calls.first.event),
            u64::from(calls.second.event),
        ]),
        Evidence::NoSuchCall(stray) => numbers.extend_from_slice(&[
            u64::from(stray.reply.event),
            u64::from(stray.reply.call),
            kind_of(stray.named),
        ]),
        Evidence::AnsweredTwice(replies) => numbers.extend_from_slice(&[
            u64::from(replies.call.event),
            u64::from(replies.first.event),
            u64::from(replies.second.event),
        ]),
        Evidence::Early(early) => numbers.extend_from_slice(&[
            u64::from(early.call.event),
            u64::from(early.entries),
            early.floor,
            u64::from(early.reply.event),
            u64::from(early.answered.event),
        ]),
        Evidence::WrongAnswer(wrong) => numbers.extend_from_slice(&[
            u64::from(wrong.call.event),
            u64::from(wrong.reply.event),
            wrong.address,
            number_of(wrong.wanted),
            after_place(&wrong.changed),
        ]),
        _ => Ok(()),
    }
}

/// The numbers that show a fault of the log and the places in it.
fn numbers_of_log(numbers: &mut Vec<u64>, shown: &Evidence) -> Result<(), AllocError> {
    match shown {
        Evidence::NotAnUpdate(wrong) => numbers.extend_from_slice(&[
            u64::from(wrong.place),
            u64::from(wrong.call),
            kind_of(wrong.named),
        ]),
        Evidence::PlacedTwice(places) => numbers.extend_from_slice(&[
            u64::from(places.call.event),
            u64::from(places.first),
            u64::from(places.second),
        ]),
        Evidence::NotPlaced(wrong) => numbers.extend_from_slice(&[
            u64::from(wrong.call.event),
            u64::from(wrong.reply.event),
            u64::from(wrong.reply.at),
            after(wrong.own),
            after(wrong.there),
        ]),
        Evidence::PastLog(wrong) => numbers.extend_from_slice(&[
            u64::from(wrong.call.event),
            u64::from(wrong.reply.event),
            u64::from(wrong.reply.at),
            u64::from(wrong.places),
        ]),
        _ => Ok(()),
    }
}

/// The numbers that show a fault of a dump.
fn numbers_of_dumps(numbers: &mut Vec<u64>, shown: &Evidence) -> Result<(), AllocError> {
    match shown {
        Evidence::PrefixPastLog(wrong) => numbers.extend_from_slice(&[
            u64::from(wrong.applied),
            u64::from(wrong.places),
        ]),
        Evidence::PrefixShort(wrong) => numbers.extend_from_slice(&[
            u64::from(wrong.applied),
            u64::from(wrong.reply.event),
            wrong.known,
            u64::from(wrong.call.event),
        ]),
        Evidence::MissingFrame(wrong) => push_steps(numbers, &wrong.path),
        Evidence::SharedFrame(wrong) => {
            push_steps(numbers, &wrong.first)?;
            push_steps(numbers, &wrong.second)
        }
        Evidence::ReservedBit(wrong) => {
            push_steps(numbers, &wrong.path)?;
            push_steps(numbers, &[wrong.entry])
        }
        Evidence::StrayFrame(wrong) => numbers.extend_from_slice(&[wrong.frame]),
        Evidence::Differs(wrong) => numbers.extend_from_slice(&[
            u64::from(wrong.applied),
            end_of(wrong.found),
            number_of(wrong.wanted),
            after_place(&wrong.changed),
        ]),
        Evidence::Format(bad) => numbers.extend_from_slice(&[bad.offset, bad.read.len() as u64]),
        _ => Ok(()),
    }
}

/// The numbers of the evidence.
fn numbers_of(rt: &impl Abort, alloc: Global, shown: &Evidence) -> Vec<u64> {
    let mut numbers = Vec::new(alloc);
    numbers_of_calls(&mut numbers, shown).expect(rt, "memory");
    numbers_of_log(&mut numbers, shown).expect(rt, "memory");
    numbers_of_dumps(&mut numbers, shown).expect(rt, "memory");
    numbers
}

/// Whether the trace of the case has its fault, and these numbers show it.
fn is_shown(rt: &impl Abort, alloc: Global, case: &Case, wanted: &[u64]) -> bool {
    let bytes = trace_of(rt, alloc, case);
    let read = feed_in_units(alloc, &bytes, 4096);
    match explain_read(alloc, read).expect(rt, "memory") {
        Explanation::Yes(_, _) => false,
        Explanation::No(fault, shown) => {
            Err(fault) == case.verdict && numbers_of(rt, alloc, &shown).as_slice() == wanted
        }
    }
}

/// The case of this name.
fn case_of<'a>(cases: &'a [Case], name: &str) -> Option<&'a Case> {
    for case in cases {
        if case.name == name {
            return Some(case);
        }
    }
    None
}

/// The name of a case, and the numbers that show its fault.
type Numbers = (&'static str, &'static [u64]);

/// Explains the traces of these names, and holds the numbers of the evidence against what is expected.
fn hold_all(rt: &impl Abort, alloc: Global, cases: &[Case], numbers: &[Numbers]) {
    for (name, wanted) in numbers {
        let case = case_of(cases, *name).expect(rt, "a case of this name");
        assert!(rt; is_shown(rt, alloc, case, *wanted), "{name}");
    }
}

static OF_CALLS: [Numbers; 8] = [
    ("a thread's call is open", &[0, 1]),
    ("a reply to a reply", &[3, 1, 2]),
    ("a second reply", &[0, 1, 3]),
    ("another place", &[0, 1, 1, 1, 0]),
    ("a read past the log", &[2, 3, 2, 1]),
    ("another physical address", &[2, 3, 0x400123, 0x1123, 1]),
    ("a read in the log", &[0, 2, 1]),
    ("an update twice in the log", &[0, 0, 1]),
];

#[test]
fn calls(rt: HostRuntime) {
    hold_all(&rt, rt.alloc(), &CALLS, &OF_CALLS);
}

static OF_ORDERS: [Numbers; 3] = [
    ("two tables too many", &[0, 1, 0x400000, 4, 0]),
    ("a stale read is early", &[3, 0, 1, 2, 1]),
    ("an unanswered update is early", &[2, 0, 2, 1, 0]),
];

#[test]
fn orders(rt: HostRuntime) {
    hold_all(&rt, rt.alloc(), &ORDERS, &OF_ORDERS);
}

static OF_FORMATS: [Numbers; 3] = [
    ("an access has a fault", &[2, 3, 0x400123, 0x1123, 1]),
    ("a large page in the root of five levels", &[5, 1, 0, 0x87]),
    ("an event of another kind", &[20, 24]),
];

#[test]
fn formats(rt: HostRuntime) {
    hold_all(&rt, rt.alloc(), &FORMATS, &OF_FORMATS);
}

static OF_DUMPS: [Numbers; 11] = [
    ("a prefix past the log", &[2, 1]),
    ("a prefix too short", &[0, 1, 1, 0]),
    ("fewer rights", &[1, 0x1000, 0x1000, 1]),
    (
        "a reserved bit",
        &[4, 1, 0, 0x2007, 3, 2, 0, 0x3007, 2, 3, 1, 0x202087],
    ),
    ("a large page", &[0, 0x200000, 0, 0]),
    ("a frame reached twice", &[4, 1, 0, 0x1007]),
    ("a frame that is not there", &[4, 1, 0, 0x2007]),
    ("a frame that is not reached", &[2]),
    ("a root that is not there", &[]),
    ("a page before the map, none after it", &[0, 0x1000, 0, 0]),
    ("no page after the map, one before it", &[1, 0, 0x1000, 1]),
];

#[test]
fn dumps(rt: HostRuntime) {
    hold_all(&rt, rt.alloc(), &DUMPS, &OF_DUMPS);
}
