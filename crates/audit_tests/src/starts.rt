//! Traces whose address space doesn't begin empty.

ghost use Rattle.std.specs.Prelude.{◌≡◌};
ghost use Rattle.nr_audit.specs.Segments.{FitsPast};

use crate::audit::trace_of;
use crate::audit_cases::{
    Case, EMPTY, EMPTY_LATE, Event, MAPPED, NOT_MAPPED, PAGE_EARLY, RESOLVE, RIGHT, UNMAP,
};
use nr_audit::{Met, Order, Past, judge_segment};
use nr_touch::Tail;
use nr_trace::{Fault, Trace, read};
use std::alloc::Global;
use std::process::Abort;
use vs_plain::PlainSpace;
use vs_types::{Fail, Op, Rights, Size};

/// Call 0 saw no entry, and found its address mapped to 0x1123.
const SEES_THE_PAGE: &[Event] = &[Event(RESOLVE, &[]), Event(MAPPED, &[(7, 0), (11, 0)])];

/// Call 0, at place 0, removed the page, which was mapped to 0x1000.
const UNMAPS_THE_PAGE: &[Event] = &[
    Event(UNMAP, &[]),
    Event(MAPPED, &[(1, 3), (7, 0), (11, 0), (22, 0x10), (23, 0)]),
];

const RESOLVED: Case = Case {
    name: "begins with a page and resolves it",
    config: [1, 4, 4],
    log: &[],
    events: SEES_THE_PAGE,
    dumps: &[PAGE_EARLY],
    verdict: Ok(&[0]),
};

const UNMAPPED: Case = Case {
    name: "begins with a page and unmaps it",
    log: &[0],
    events: UNMAPS_THE_PAGE,
    dumps: &[EMPTY_LATE],
    ..RESOLVED
};

/// Each with how many pages the space has at the end, where the trace is right.
static BEGUN_WITH_A_PAGE: [(Case, usize); 6] = [
    (RESOLVED, 1),
    (UNMAPPED, 0),
    (
        Case {
            name: "begins with a page and denies it",
            events: &[Event(RESOLVE, &[]), Event(NOT_MAPPED, &[(7, 0)])],
            verdict: Err(Fault::WrongAnswer(0)),
            ..RESOLVED
        },
        0,
    ),
    (
        Case {
            name: "a dump without the start",
            events: &[],
            dumps: &[EMPTY],
            verdict: Err(Fault::Differs(0, 0x400000)),
            ..RESOLVED
        },
        0,
    ),
    (
        Case {
            name: "a dump that lags has the page still",
            dumps: &[EMPTY_LATE, PAGE_EARLY],
            ..UNMAPPED
        },
        0,
    ),
    (
        Case {
            name: "a dump that lags without the start",
            dumps: &[EMPTY_LATE, EMPTY],
            verdict: Err(Fault::Differs(1, 0x400000)),
            ..UNMAPPED
        },
        0,
    ),
];

/// The space with the page that the cases begin with, of a trace's depth and limit of tables.
fn space_with_page(rt: &impl Abort, alloc: Global, trace: &Trace) -> PlainSpace
    ensures depth { result.depth ≡ trace.now.layout.depth }
    ensures limit { result.limit ≡ trace.now.layout.tables }
{
    let layout = trace.layout();
    let mut space = PlainSpace::new(alloc, layout.tables(), layout.depth());
    let op = Op::map(layout.depth(), 0x400000, Size::K4, 0x1000, Rights::ALL);
    let op = op.expect(rt, "an operation");
    assert!(rt; op.fits(space.depth()));
    space.apply(op).expect(rt, "memory");
    space
}

/// What is left where the space before a trace is this one, and no address lingers to look otherwise.
fn past_of(alloc: Global, trace: &Trace, space: PlainSpace) -> Past
    requires depth { space.depth ≡ trace.now.layout.depth }
    requires limit { space.limit ≡ trace.now.layout.tables }
    ensures { FitsPast trace.now.layout result }
{
    Past {
        space,
        tail: Tail::none(alloc),
    }
}

/// The trace of a case.
fn read_case(rt: &impl Abort, alloc: Global, case: &Case) -> Trace {
    read(alloc, &trace_of(rt, alloc, case)).expect(rt, "a trace")
}

/// Holds what is found of a case against what is expected; gives the space at the end.
fn expect_case(
    rt: &impl Abort,
    case: &Case,
    judged: Result<(Order, Past, Option<Met>), Fail<Fault>>,
) -> Option<PlainSpace> {
    match judged {
        Ok((order, past, _)) => {
            assert!(rt; Ok(order.calls()) == case.verdict, "{}", case.name);
            Some(past.space)
        }
        Err(Fail::Refused(fault)) => {
            assert!(rt; Err(fault) == case.verdict, "{}", case.name);
            None
        }
        Err(Fail::Memory) => panic!(rt; "memory"),
    }
}

#[test]
fn begun_with_a_page(rt: HostRuntime) {
    let alloc = rt.alloc();
    for (case, left) in &BEGUN_WITH_A_PAGE {
        let trace = read_case(&rt, alloc, case);
        let start = space_with_page(&rt, alloc, &trace);
        let before = past_of(alloc, &trace, start);
        let judged = judge_segment(alloc, &trace, Some(before), false);
        if let Some(space) = expect_case(&rt, case, judged) {
            let pages = space.pages().expect(&rt, "memory");
            assert_eq!(&rt; pages.len(), *left, "{}", case.name);
        }
    }
}

/// The space after a trace that is right from this one on, with an order of these calls.
fn after(
    rt: &impl Abort,
    alloc: Global,
    trace: &Trace,
    start: PlainSpace,
    calls: &[u32],
) -> PlainSpace
    requires depth { start.depth ≡ trace.now.layout.depth }
    requires limit { start.limit ≡ trace.now.layout.tables }
    ensures depth { result.depth ≡ trace.now.layout.depth }
    ensures limit { result.limit ≡ trace.now.layout.tables }
{
    let before = past_of(alloc, trace, start);
    match judge_segment(alloc, trace, Some(before), false) {
        Ok((order, past, _)) => {
            assert!(rt; order.calls() == calls);
            past.space
        }
        Err(_) => panic!(rt; "the trace is right"),
    }
}

/// A trace goes on where another one ended.
#[test]
fn one_after_another(rt: HostRuntime) {
    let alloc = rt.alloc();
    let first = read_case(&rt, alloc, &RIGHT);
    let layout = first.layout();
    let empty = PlainSpace::new(alloc, layout.tables(), layout.depth());
    let space = after(&rt, alloc, &first, empty, &[0, 2]);
    assert_eq!(&rt; space.tables(), 4);
    let second = read_case(&rt, alloc, &UNMAPPED);
    assert!(&rt; second.layout() == layout);
    let end = after(&rt, alloc, &second, space, &[0]);
    assert_eq!(&rt; end.tables(), 1);
}
