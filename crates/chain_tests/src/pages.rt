//! The pages of dumps and of spaces.

use crate::bytes::{TABLES, push_frames};
use audit_readers::{ProgFault, Report, pages_read};
use audit_texts::{dump_text, space_text};
use nr_trace::{Format, Trace, read};
use std::alloc::Global;
use std::process::Abort;
use vs_plain::PlainSpace;
use vs_types::{Depth, Fail, Op, Rights, Size};

// A trace in which nothing is recorded, up to the first frame of its dump.
static HEAD: [u8; 36] = [
    0x4e, 0x52, 0x56, 0x54, 0, 1, 4, 1, 0, 1, 0, 4, 0, 0, 0, 0, 0, 0, 0, 0, // counts
    0, 0, 0, 0, 0, 0, 0, 4, 0, 0, 0, 0, 0, 0, 0, 1, // head of the dump
];

/// Whether as ranges, and the text of the page at 0x400000, which is mapped to 0x1000.
static TEXTS: [(bool, &'static str); 2] = [
    (false, "0x400000 4K 0x1000 wux\n"),
    (true, "0x400000 0x401000 4K 0x1000 wux\n"),
];

fn trace_with_page(rt: &impl Abort, alloc: Global) -> Trace {
    let mut bytes = Vec::from_slice(alloc, &HEAD).expect(rt, "memory");
    push_frames(&mut bytes, TABLES).expect(rt, "memory");
    read(alloc, &bytes).expect(rt, "a trace")
}

/// Holds a report against its text and its status.
fn expect(rt: &impl Abort, told: Result<Report, ProgFault>, text: &str, status: u8) {
    let report = told.ok().expect(rt, "a report");
    assert!(rt; report.text.as_str() == text);
    assert!(rt; report.status == status);
}

#[test]
fn the_pages_of_what_was_read(rt: HostRuntime) {
    let alloc = rt.alloc();
    for (as_ranges, text) in &TEXTS {
        let trace = trace_with_page(&rt, alloc);
        let told = pages_read(alloc, Ok(trace), 0, *as_ranges);
        expect(&rt, told, *text, 0);
    }
    let told = pages_read(alloc, Ok(trace_with_page(&rt, alloc)), 200, false);
    assert!(&rt; matches!(told, Err(ProgFault::NoSuchReplica)));
}

#[test]
fn the_pages_of_what_was_not_read(rt: HostRuntime) {
    let alloc = rt.alloc();
    let told = pages_read(alloc, Err(Fail::Refused(Format::Truncated)), 0, false);
    expect(&rt, told, "no 1 Format Truncated\n", 1);
    let told = pages_read(alloc, Err(Fail::Memory), 0, false);
    assert!(&rt; matches!(told, Err(ProgFault::Memory)));
}

#[test]
fn the_pages_of_a_dump(rt: HostRuntime) {
    let alloc = rt.alloc();
    let trace = trace_with_page(&rt, alloc);
    let dump = trace.dumps().first().expect(&rt, "a dump");
    for (as_ranges, text) in &TEXTS {
        let listed = dump_text(alloc, dump, Depth::Four, *as_ranges).ok();
        let listed = listed.expect(&rt, "no fault");
        assert!(&rt; listed.as_str() == *text);
    }
}

fn space_with_page(rt: &impl Abort, alloc: Global) -> PlainSpace {
    let mut space = PlainSpace::new(alloc, 4, Depth::Four);
    let op = Op::map(Depth::Four, 0x400000, Size::K4, 0x1000, Rights::ALL);
    let op = op.expect(rt, "an operation");
    assert!(rt; op.fits(space.depth()));
    space.apply(op).expect(rt, "memory");
    space
}

#[test]
fn the_pages_of_a_space(rt: HostRuntime) {
    let alloc = rt.alloc();
    let space = space_with_page(&rt, alloc);
    for (as_ranges, text) in &TEXTS {
        let listed = space_text(alloc, &space, *as_ranges).expect(&rt, "memory");
        assert!(&rt; listed.as_str() == *text);
    }
}
