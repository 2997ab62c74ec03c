//! The unit that shows a fault of the format: which it is, where it begins, and what was read of it.

ghost use Rattle.std.specs.Prelude.{◌<◌};

use crate::bytes::{changed, map_then_resolve};
use nr_explain::{BadField, BadUnit, EventField, FieldFault, UnitFeed, Unread};
use nr_trace::{Format, Trace, TraceUnit};
use std::alloc::Global;
use std::process::Abort;

/// The unit that is bad in bytes that come in pieces of this length.
fn bad_unit(rt: &impl Abort, alloc: Global, bytes: &[u8], len: usize) -> BadUnit
    requires { 0 < len }
{
    match feed_in_units(alloc, bytes, len).err() {
        Some(Unread::Bad(bad)) => bad,
        Some(Unread::Memory) => panic!(rt; "memory: Memory"),
        None => panic!(rt; "no bad unit"),
    }
}

pub(crate) fn feed_in_units(alloc: Global, bytes: &[u8], len: usize) -> Result<Trace, Unread>
    requires { 0 < len }
{
    let mut feed = UnitFeed::new(alloc);
    for piece in bytes.chunks(len) {
        feed.feed(piece)?;
    }
    feed.end()
}

/// Whether the unit that is bad is this one, at this place, of whose bytes so many were read.
fn is_so(
    bad: &BadUnit,
    bytes: &[u8],
    fault: Format,
    unit: TraceUnit,
    place: (usize, usize),
) -> bool {
    let (offset, there) = place;
    let (_, rest) = bytes.split_at(bytes.len().min(offset));
    let read = &rest[..rest.len().min(there)];
    bad.fault == fault
        && bad.unit == unit
        && bad.offset == offset as u64
        && bad.read.as_slice() == read
}

/// Holds the unit that is bad, in pieces of every kind, against what is expected. It reads as many bytes as are said.
fn holds(
    rt: &impl Abort,
    alloc: Global,
    bytes: &[u8],
    wanted: (Format, TraceUnit),
    place: (usize, usize),
) {
    let (fault, unit) = wanted;
    for len in [1, 24, 4096] {
        assert!(rt; len > 0);
        let bad = bad_unit(rt, alloc, bytes, len);
        assert!(rt; is_so(&bad, bytes, fault, unit, place), "{}", place.0);
    }
}

/// Where a byte of the trace is another: the index, the byte, the fault, the unit that has it, its offset and how many bytes it has.
type Refused = (usize, u8, Format, TraceUnit, usize, usize);

static REFUSED: [Refused; 9] = [
    (3, 0x58, Format::BadMagic, TraceUnit::Magic, 0, 4),
    (5, 3, Format::BadVersion, TraceUnit::Version, 4, 2),
    (7, 0, Format::BadCount, TraceUnit::Counts, 6, 14),
    (24, 2, Format::BadEvent(0), TraceUnit::Event(0), 24, 24),
    (76, 9, Format::BadEvent(2), TraceUnit::Event(2), 72, 24),
    (97, 99, Format::BadEvent(3), TraceUnit::Event(3), 96, 24),
    (127, 0, Format::BadCount, TraceUnit::DumpHead(0), 120, 16),
    (
        4247,
        1,
        Format::BadFrame(0, 1),
        TraceUnit::FrameNumber(0, 1),
        4240,
        8,
    ),
    (
        12448,
        1,
        Format::BadFrame(0, 3),
        TraceUnit::FrameNumber(0, 3),
        12448,
        8,
    ),
];

fn refuse_all(rt: &impl Abort, alloc: Global, version: u8, levels: u8) {
    let right = map_then_resolve(rt, alloc);
    for (at, byte, fault, unit, offset, there) in &REFUSED {
        let bytes = changed(
            rt,
            alloc,
            &right,
            &[(5, version), (6, levels), (*at, *byte)],
        );
        holds(rt, alloc, &bytes, (*fault, *unit), (*offset, *there));
    }
}

#[test]
fn each_unit_is_refused(rt: HostRuntime) {
    refuse_all(&rt, rt.alloc(), 1, 4);
    refuse_all(&rt, rt.alloc(), 2, 4);
    refuse_all(&rt, rt.alloc(), 2, 5);
}

/// How many bytes are left of the trace, the unit that is cut off, and its offset.
static CUT_OFF: [(usize, TraceUnit, usize); 14] = [
    (0, TraceUnit::Magic, 0),
    (3, TraceUnit::Magic, 0),
    (5, TraceUnit::Version, 4),
    (19, TraceUnit::Counts, 6),
    (20, TraceUnit::Place(0), 20),
    (23, TraceUnit::Place(0), 20),
    (24, TraceUnit::Event(0), 24),
    (71, TraceUnit::Event(1), 48),
    (121, TraceUnit::DumpHead(0), 120),
    (136, TraceUnit::FrameNumber(0, 0), 136),
    (144, TraceUnit::FrameWords(0, 0), 144),
    (4239, TraceUnit::FrameWords(0, 0), 144),
    (4240, TraceUnit::FrameNumber(0, 1), 4240),
    (16551, TraceUnit::FrameWords(0, 3), 12456),
];

#[test]
fn each_unit_is_cut_off(rt: HostRuntime) {
    let alloc = rt.alloc();
    let bytes = map_then_resolve(&rt, alloc);
    for (len, unit, offset) in &CUT_OFF {
        let front = &bytes[..bytes.len().min(*len)];
        let place = (*offset, len.saturating_sub(*offset));
        holds(&rt, alloc, front, (Format::Truncated, *unit), place);
    }
}

#[test]
fn what_stands_behind_the_last_unit(rt: HostRuntime) {
    let alloc = rt.alloc();
    let mut bytes = map_then_resolve(&rt, alloc);
    for len in [1, 7, 4096] {
        assert!(rt; len > 0);
        let _trace = feed_in_units(alloc, &bytes, len).expect(&rt, "memory");
    }
    bytes.extend_from_slice(&[7, 8]).expect(&rt, "memory");
    holds(
        &rt,
        alloc,
        &bytes,
        (Format::Trailing, TraceUnit::Behind),
        (16552, 1),
    );
}

/// Where a byte of a trace of version 1 is another: the index, the byte, the field that is named, its value and what is wrong with it.
type WrongField = (usize, u8, EventField, u64, FieldFault);

static WRONG_FIELDS: [WrongField; 18] = [
    (24, 2, EventField::Tag, 2, FieldFault::NotBelow(2)),
    (25, 1, EventField::Replica, 1, FieldFault::NotBelow(1)),
    (27, 4, EventField::Thread, 4, FieldFault::NotBelow(1)),
    (28, 4, EventField::Kind, 4, FieldFault::NotBelow(4)),
    (29, 3, EventField::Size, 3, FieldFault::NotBelow(3)),
    (30, 8, EventField::Rights, 8, FieldFault::NotBelow(8)),
    (31, 1, EventField::Unused, 1, FieldFault::NotBelow(1)),
    (
        34,
        0x80,
        EventField::Address,
        0x8000_0040_0000,
        FieldFault::NotCanonical(4),
    ),
    (
        39,
        1,
        EventField::Address,
        0x40_0001,
        FieldFault::NotMultiple(4096),
    ),
    (
        47,
        1,
        EventField::Physical,
        0x1001,
        FieldFault::NotMultiple(4096),
    ),
    (
        41,
        8,
        EventField::Physical,
        0x8_0000_0000_1000,
        FieldFault::Beyond,
    ),
    (49, 8, EventField::Answer, 8, FieldFault::NotBelow(8)),
    (50, 1, EventField::Size, 1, FieldFault::NotBelow(1)),
    (51, 2, EventField::Rights, 2, FieldFault::NotBelow(1)),
    (63, 5, EventField::Unused, 5, FieldFault::NotBelow(1)),
    (71, 1, EventField::Value, 1, FieldFault::NotBelow(1)),
    (78, 1, EventField::Rights, 1, FieldFault::NotBelow(1)),
    (95, 1, EventField::Physical, 1, FieldFault::NotBelow(1)),
];

#[test]
fn the_wrong_field_of_an_event_is_named(rt: HostRuntime) {
    let alloc = rt.alloc();
    let right = map_then_resolve(&rt, alloc);
    for (at, byte, field, value, fault) in &WRONG_FIELDS {
        let bytes = changed(&rt, alloc, &right, &[(*at, *byte)]);
        let bad = bad_unit(&rt, alloc, &bytes, 7);
        let wanted = BadField {
            field: *field,
            value: *value,
            fault: *fault,
        };
        assert!(rt; bad.field == Some(wanted), "{at}");
    }
}
