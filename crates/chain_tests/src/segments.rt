//! Segments, each by itself.

ghost use Rattle.std.specs.Prelude.{◌≡◌, IfSome};
ghost use Rattle.nr_audit.specs.Segments.{FitsLayout, FitsPast};

use crate::bytes::{CASES, bytes_of};
use nr_audit::{Past, judge_segment};
use nr_touch::Tail;
use nr_trace::{Fault, SegmentFeed, Trace};
use std::alloc::Global;
use std::process::Abort;
use vs_plain::PlainSpace;
use vs_types::{Fail, Op, Rights, Size};

/// The first segment of the worked chain of this name.
fn segment_of(rt: &impl Abort, alloc: Global, name: &str) -> Trace {
    let mut feed = SegmentFeed::new(alloc, None);
    for case in &CASES {
        if case.name == name {
            feed.feed(&bytes_of(rt, alloc, case)).expect(rt, "memory");
        }
    }
    assert!(rt; feed.is_whole(), "{name}");
    feed.end().expect(rt, "a segment")
}

/// The space with the page at 0x400000 alone, mapped there, as a segment before this one would leave it.
fn page_at(rt: &impl Abort, alloc: Global, segment: &Trace, phys: u64) -> PlainSpace
    ensures depth { result.depth ≡ segment.now.layout.depth }
    ensures limit { result.limit ≡ segment.now.layout.tables }
{
    let layout = segment.layout();
    let mut space = PlainSpace::new(alloc, layout.tables(), layout.depth());
    let op = Op::map(layout.depth(), 0x400000, Size::K4, phys, Rights::ALL);
    let op = op.expect(rt, "an operation");
    assert!(rt; op.fits(space.depth()));
    space.apply(op).expect(rt, "memory");
    space
}

/// How many calls the order of a segment has, and how many pages the space after it; or its fault.
type Found = Result<(usize, usize), Fault>;

/// What is left where the space before a segment is this one, if there is one, and no address lingers to look otherwise.
fn past_of(alloc: Global, segment: &Trace, before: Option<PlainSpace>) -> Option<Past>
    requires { IfSome before (FitsLayout segment.now.layout) }
    ensures { IfSome result (FitsPast segment.now.layout) }
{
    match before {
        Some(space) => Some(Past {
            space,
            tail: Tail::none(alloc),
        }),
        None => None,
    }
}

fn found(rt: &impl Abort, alloc: Global, segment: &Trace, before: Option<PlainSpace>) -> Found
    requires { IfSome before (FitsLayout segment.now.layout) }
{
    match judge_segment(alloc, segment, past_of(alloc, segment, before), false) {
        Ok((order, past, _)) => {
            let pages = past.space.pages().expect(rt, "memory");
            Ok((order.calls().len(), pages.len()))
        }
        Err(Fail::Refused(fault)) => Err(fault),
        Err(Fail::Memory) => panic!(rt; "memory: Memory"),
    }
}

/// The same, where the segment before leaves the page there.
fn found_after_page(rt: &impl Abort, alloc: Global, segment: &Trace, phys: u64) -> Found {
    let space = page_at(rt, alloc, segment, phys);
    found(rt, alloc, segment, Some(space))
}

const DIFFERS: Fault = Fault::StartDiffers(0x400000);

#[test]
fn a_first_segment(rt: HostRuntime) {
    let alloc = rt.alloc();
    let segment = segment_of(&rt, alloc, "two segments");
    assert!(rt; found(&rt, alloc, &segment, None) == Ok((2, 1)));
    // If the page is mapped already, the answer of the map is wrong.
    let overlaps = Fault::WrongAnswer(0);
    assert!(rt; found_after_page(&rt, alloc, &segment, 0x1000) == Err(overlaps));
}

/// A start is taken where the segment is the first one, and else compared.
#[test]
fn a_segment_with_a_start(rt: HostRuntime) {
    let alloc = rt.alloc();
    let segment = segment_of(&rt, alloc, "begins with a page");
    assert!(rt; found(&rt, alloc, &segment, None) == Ok((1, 1)));
    assert!(rt; found_after_page(&rt, alloc, &segment, 0x1000) == Ok((1, 1)));
    assert!(rt; found_after_page(&rt, alloc, &segment, 0x2000) == Err(DIFFERS));
}

#[test]
fn a_start_after_no_page(rt: HostRuntime) {
    let alloc = rt.alloc();
    let segment = segment_of(&rt, alloc, "begins with a page");
    let layout = segment.layout();
    let empty = PlainSpace::new(alloc, layout.tables(), layout.depth());
    assert!(rt; found(&rt, alloc, &segment, Some(empty)) == Err(DIFFERS));
}

/// A touch that found no page is right where there is none, and stale where there is one.
#[test]
fn a_touch_of_nothing(rt: HostRuntime) {
    let alloc = rt.alloc();
    let segment = segment_of(&rt, alloc, "a touch of nothing");
    assert!(rt; found(&rt, alloc, &segment, None) == Ok((0, 0)));
    let stale = Fault::Stale(0);
    assert!(rt; found_after_page(&rt, alloc, &segment, 0x1000) == Err(stale));
}
