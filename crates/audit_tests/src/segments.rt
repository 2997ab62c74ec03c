//! Segments of chains, read in pieces and written.
ghost use Rattle.std.specs.Prelude.{◌<◌};

use crate::bytes::changed;
use crate::trace::is_spelled;
use nr_trace::{Asked, Event, Format, SegmentFeed, Trace, TraceLayout, Version, read};
use std::alloc::Global;
use std::process::Abort;
use vs_types::{Access, Depth, Mode};

/// One replica, one thread and four tables; and nothing else.
static NOTHING: [u8; 40] = [
    0x4e, 0x52, 0x56, 0x53, 0, 0x01, 0x04, 0x01, 0, 0x01, 0, 0x04, 0, 0, 0, 0, 0, 0, 0, 0, 0, 0, 0,
    0, 0, 0, 0, 0, 0, 0, 0, 0, 0, 0, 0, 0, 0, 0, 0, 0,
];

/// A user's write of 0x400123 through a TLB by thread 9, and its reply: no page is there.
static TOUCHES_NOTHING: [u8; 88] = [
    0x4e, 0x52, 0x56, 0x53, 0, 0x01, 0x04, 0x01, 0xff, 0xff, 0xff, 0xff, 0, 0, 0, 0, 0, 0, 0, 0x02,
    0, 0, 0, 0, 0, 0, 0, 0x09, 0x05, 0x01, 0x01, 0, 0, 0, 0, 0, 0, 0x40, 0x01, 0x23, 0, 0, 0, 0, 0,
    0, 0, 0, 0x01, 0x09, 0, 0, 0, 0, 0, 0, 0, 0, 0, 0, 0, 0, 0, 0, 0, 0, 0, 0, 0, 0, 0, 0x06, 0, 0,
    0, 0, 0, 0, 0, 0, 0, 0, 0, 0, 0, 0, 0, 0,
];

/// A read of it by a supervisor was allowed, and a page was mapped there later.
static FORESEES_A_MAP: [u8; 140] = [
    0x4e, 0x52, 0x56, 0x53, 0, 0x01, 0x04, 0x01, 0xff, 0xff, 0xff, 0xff, 0, 0, 0, 0x01, 0, 0, 0,
    0x04, 0, 0, 0, 0, 0, 0, 0, 0x02, 0, 0, 0, 0x01, 0x05, 0, 0, 0, 0, 0, 0, 0, 0, 0x40, 0x01, 0x23,
    0, 0, 0, 0, 0, 0, 0, 0, 0x01, 0x08, 0, 0, 0, 0, 0, 0, 0, 0, 0, 0, 0, 0, 0, 0, 0, 0, 0, 0, 0, 0,
    0x11, 0x23, 0, 0, 0, 0, 0, 0, 0x07, 0, 0, 0, 0, 0, 0, 0x40, 0, 0, 0, 0, 0, 0, 0, 0, 0x10, 0,
    0x01, 0, 0, 0, 0, 0, 0, 0x02, 0, 0, 0, 0, 0, 0, 0, 0, 0, 0, 0, 0, 0, 0, 0, 0, 0, 0, 0, 0, 0, 0,
    0, 0, 0, 0, 0, 0, 0, 0, 0, 0,
];

type Bytes = &'static [u8];

/// At indexes, other bytes.
type Changes = &'static [(usize, u8)];

/// The first segment of the bytes, in pieces of this length.
fn segment_of(rt: &impl Abort, alloc: Global, bytes: &[u8], len: usize) -> Trace
    requires { 0 < len }
{
    let mut feed = SegmentFeed::new(alloc, None);
    for piece in bytes.chunks(len) {
        assert!(rt; !feed.is_whole());
        assert!(rt; feed.feed(piece) == Ok(piece.len()));
    }
    assert!(rt; feed.is_whole());
    feed.end().expect(rt, "a segment")
}

/// Whether the bytes spell a segment without a start in pieces of this length, which spells them.
fn is_read_and_written(rt: &impl Abort, alloc: Global, bytes: &[u8], len: usize) -> bool
    requires { 0 < len }
{
    let segment = segment_of(rt, alloc, bytes, len);
    segment.version() == Version::Segment
        && segment.start().is_none()
        && is_spelled(rt, alloc, &segment, bytes)
}

const SEGMENTS: [Bytes; 3] = [&NOTHING, &TOUCHES_NOTHING, &FORESEES_A_MAP];

#[test]
fn segments_are_read_in_pieces_and_written(rt: HostRuntime) {
    let alloc = rt.alloc();
    for bytes in &SEGMENTS {
        for len in [1, 7, 4096] {
            assert!(rt; len > 0);
            assert!(rt; is_read_and_written(&rt, alloc, *bytes, len), "{len}");
        }
    }
}

#[test]
fn a_touch_is_an_access(rt: HostRuntime) {
    let segment = segment_of(&rt, rt.alloc(), &TOUCHES_NOTHING, 4096);
    assert_eq!(rt; segment.layout().threads(), 65_535);
    assert_eq!(rt; segment.layout().tables(), 65_535);
    let touch = Event::Call {
        replica: 0,
        thread: 9,
        asked: Asked::Touch(0x400123, Mode::User, Access::Write),
    };
    let first = segment.events().first().map(|recorded| recorded.event());
    assert!(rt; first == Some(touch));
}

/// A segment, and another one.
fn two_segments(rt: &impl Abort, alloc: Global) -> Vec<u8> {
    let mut bytes = Vec::from_slice(alloc, &NOTHING).expect(rt, "memory");
    bytes.extend_from_slice(&NOTHING).expect(rt, "memory");
    bytes
}

/// What comes after a segment is not taken.
#[test]
fn a_feed_stops_behind_a_segment(rt: HostRuntime) {
    let alloc = rt.alloc();
    let bytes = two_segments(&rt, alloc);
    let mut feed = SegmentFeed::new(alloc, None);
    assert!(rt; feed.feed(&bytes) == Ok(40));
    assert!(rt; feed.is_whole());
    assert!(rt; feed.feed(&bytes) == Ok(0));
    let segment = feed.end().expect(&rt, "a segment");
    assert!(rt; is_spelled(&rt, alloc, &segment, &NOTHING));
}

#[test]
fn a_feed_of_a_further_segment_stops_behind_it(rt: HostRuntime) {
    let alloc = rt.alloc();
    let bytes = two_segments(&rt, alloc);
    let layout = segment_of(&rt, alloc, &NOTHING, 40).layout();
    let mut feed = SegmentFeed::new(alloc, Some(layout));
    assert!(rt; feed.feed(&bytes) == Ok(40));
    assert!(rt; feed.is_whole());
}

/// Bytes with these changes have this fault as a segment.
const FAULTS: [(Bytes, Changes, Format); 10] = [
    (&NOTHING, &[(3, 0x54)], Format::BadMagic),
    (&NOTHING, &[(5, 2)], Format::BadVersion),
    // No thread.
    (&NOTHING, &[(9, 0)], Format::BadCount),
    // A start of 65,536 frames.
    (&NOTHING, &[(21, 1)], Format::BadCount),
    // No dump, but one that has applied an entry, or has a root.
    (&NOTHING, &[(27, 1)], Format::BadCount),
    (&NOTHING, &[(39, 1)], Format::BadCount),
    // Kind 6, and a touch with a physical address, or by thread 65,535.
    (&TOUCHES_NOTHING, &[(28, 6)], Format::BadEvent(0)),
    (&TOUCHES_NOTHING, &[(47, 1)], Format::BadEvent(0)),
    (
        &FORESEES_A_MAP,
        &[(30, 0xff), (31, 0xff)],
        Format::BadEvent(0),
    ),
    // The last dump lacks a byte.
    (&NOTHING, &[], Format::Truncated),
];

/// The fault of the bytes as a segment after one that is laid out so, or as the first one.
fn fault_of(
    alloc: Global,
    before: Option<TraceLayout>,
    bytes: &[u8],
) -> Option<vs_types::Fail<Format>> {
    let mut feed = SegmentFeed::new(alloc, before);
    let told = feed.feed(bytes).err();
    let end = feed.end().err();
    told.or(end)
}

#[test]
fn faults_of_segments(rt: HostRuntime) {
    let alloc = rt.alloc();
    for (bytes, changes, fault) in &FAULTS {
        let mut other = changed(&rt, alloc, *bytes, *changes);
        if changes.is_empty() {
            other.pop();
        }
        let wanted = Some(vs_types::Fail::Refused(*fault));
        assert!(rt; fault_of(alloc, None, &other) == wanted);
    }
}

#[test]
fn a_further_segment_is_laid_out_alike(rt: HostRuntime) {
    let alloc = rt.alloc();
    let chain = Some(vs_types::Fail::Refused(Format::BadChain));
    for (depth, replicas, threads, tables, fault) in [
        (Depth::Four, 1, 1, 4, None),
        (Depth::Five, 1, 1, 4, chain),
        (Depth::Four, 2, 1, 4, chain),
        (Depth::Four, 1, 2, 4, chain),
        (Depth::Four, 1, 1, 5, chain),
    ] {
        let before = TraceLayout::new(Version::Segment, depth, replicas, threads, tables);
        assert!(rt; before.is_some());
        assert!(rt; fault_of(alloc, before, &NOTHING) == fault);
    }
}

#[test]
fn a_segment_is_no_trace(rt: HostRuntime) {
    let alloc = rt.alloc();
    let magic = Some(vs_types::Fail::Refused(Format::BadMagic));
    assert!(rt; read(alloc, &NOTHING).err() == magic);
    let third = changed(&rt, alloc, &NOTHING, &[(3, 0x54), (5, 3)]);
    let version = Some(vs_types::Fail::Refused(Format::BadVersion));
    assert!(rt; read(alloc, &third).err() == version);
}
