//! The engines of chains, over ends that give little at a time, or that fail.

use crate::bytes::NOTHING_RECORDED;
use audit_readers::{Input, ProgFault, Unwatched, audit_chain_io, chain_end_io, chain_start_io};
use audit_texts::Style;
use std::alloc::Global;
use std::io::{Chain, Error, ErrorKind, Read, Write};
use std::process::Abort;

static NOTHING: [u8; 40] = NOTHING_RECORDED;

/// Two segments, a byte a read; a read fails where so many were given.
#[derive(Drop)]
struct ByByte(Chain<&'static [u8], &'static [u8]>, usize);

impl Read for ByByte {
    fn read(&mut self, buffer: &mut [u8]) -> std::io::Result<usize> {
        if self.1 == 0 {
            return Err(Error::from(ErrorKind::Other));
        }
        self.1 -= 1;
        if buffer.is_empty() {
            return Ok(0);
        }
        self.0.read(&mut buffer[..1])
    }
}

fn two_segments(reads: usize) -> ByByte {
    ByByte(NOTHING.as_slice().chain(NOTHING.as_slice()), reads)
}

/// Takes one text, and fails at the next.
#[derive(Drop)]
struct TakesOne(Vec<u8>);

impl Write for TakesOne {
    fn write(&mut self, bytes: &[u8]) -> std::io::Result<usize> {
        if !self.0.is_empty() {
            return Err(Error::from(ErrorKind::Other));
        }
        self.0.extend_from_slice(bytes)?;
        Ok(bytes.len())
    }

    fn flush(&mut self) -> std::io::Result<()> {
        Ok(())
    }
}

const LINES: Style = Style {
    as_json: false,
    quiet: false,
};

const LAST_LINES: Style = Style {
    as_json: false,
    quiet: true,
};

const JSON: Style = Style {
    as_json: true,
    quiet: false,
};

const LAST_JSON: Style = Style {
    as_json: true,
    quiet: true,
};

// The reads until one fails, how it is printed, the status, none where there is no answer, and what is written.
static CASES: [(usize, Style, Option<u8>, &'static str); 9] = [
    (
        100,
        LINES,
        Some(0),
        "segment 0\nyes\norder\nsegment 1\nyes\norder\nsegments 2\n",
    ),
    (100, LAST_LINES, Some(0), "segments 2\n"),
    (79, LINES, None, "segment 0\nyes\norder\n"),
    (40, LINES, None, "segment 0\nyes\norder\n"),
    (39, LINES, None, ""),
    (79, LAST_LINES, None, ""),
    (
        100,
        JSON,
        Some(0),
        "{\"calls\":0,\"segment\":0,\"verdict\":\"yes\"}\n{\"calls\":0,\"segment\":1,\"verdict\":\"yes\"}\n\
            {\"beside\":0,\"calls\":0,\"kept\":0,\"lagging\":0,\"open\":0,\"overlapping\":0,\
            \"repeated\":0,\"segments\":2,\"verdict\":\"segments 2\"}\n",
    ),
    (
        40,
        JSON,
        None,
        "{\"calls\":0,\"segment\":0,\"verdict\":\"yes\"}\n",
    ),
    (
        100,
        LAST_JSON,
        Some(0),
        "{\"beside\":0,\"calls\":0,\"kept\":0,\"lagging\":0,\"open\":0,\"overlapping\":0,\
            \"repeated\":0,\"segments\":2,\"verdict\":\"segments 2\"}\n",
    ),
];

/// Audits a chain, and holds what it writes and its status against what is expected, none where no read can be made.
fn audits_to<R: Read + Drop>(
    rt: &impl Abort,
    alloc: Global,
    input: R,
    style: Style,
    wanted: (Option<u8>, &str),
) {
    let (status, written) = wanted;
    let mut output = Vec::new(alloc);
    let told = audit_chain_io(
        alloc,
        &mut Input::new(input),
        &mut output,
        style,
        0,
        &mut Unwatched,
    );
    assert!(rt; output.as_slice() == written.as_bytes());
    expect_status(rt, told, status);
}

fn expect_status(rt: &impl Abort, told: Result<u8, ProgFault>, wanted: Option<u8>) {
    match (told, wanted) {
        (Ok(got), Some(wanted)) => assert_eq!(rt; got, wanted),
        (Err(ProgFault::CannotRead), None) => {}
        _ => panic!(rt; "another outcome"),
    }
}

#[test]
fn chains_in_short_reads(rt: HostRuntime) {
    for (reads, style, status, written) in &CASES {
        let wanted = (*status, *written);
        audits_to(&rt, rt.alloc(), two_segments(*reads), *style, wanted);
    }
}

// How it is printed, and what is written of a segment and the first byte of another.
static CUT_SHORT: [(Style, &'static str); 3] = [
    (
        LINES,
        "segment 0\nyes\norder\nsegment 1\nno 1 Format Truncated\n",
    ),
    (LAST_LINES, "segment 1\nno 1 Format Truncated\n"),
    (
        LAST_JSON,
        "{\"code\":1,\"fault\":\"Format Truncated\",\"numbers\":[],\"segment\":1,\
            \"verdict\":\"no 1 Format Truncated\"}\n",
    ),
];

#[test]
fn a_segment_cut_short(rt: HostRuntime) {
    for (style, written) in &CUT_SHORT {
        let input = NOTHING.as_slice().chain(&NOTHING[..1]);
        audits_to(&rt, rt.alloc(), input, *style, (Some(1), *written));
    }
}

#[test]
fn a_second_write_that_fails(rt: HostRuntime) {
    let mut output = TakesOne(Vec::new(rt.alloc()));
    let mut input = Input::new(two_segments(100));
    let told = audit_chain_io(
        rt.alloc(),
        &mut input,
        &mut output,
        LINES,
        0,
        &mut Unwatched,
    );
    assert!(rt; output.0.as_slice() == b"segment 0\nyes\norder\n".as_slice());
    assert!(rt; matches!(told, Err(ProgFault::CannotWrite)));
}

// The reads until one fails, and the status of the start and of the end, none where there is no answer; no page is there.
static ENDS: [(usize, Option<u8>, Option<u8>); 4] = [
    (100, Some(0), Some(0)),
    (80, Some(0), None),
    (40, Some(0), None),
    (39, None, None),
];

/// Writes the pages at an end of a chain, and holds what it writes and its status against what is expected.
fn lists_to<R: Read + Drop>(
    rt: &impl Abort,
    alloc: Global,
    input: R,
    is_end: bool,
    wanted: (Option<u8>, &str),
) {
    let (status, written) = wanted;
    let mut output = Vec::new(alloc);
    let mut source = Input::new(input);
    let told = if is_end {
        chain_end_io(alloc, &mut source, &mut output, false)
    } else {
        chain_start_io(alloc, &mut source, &mut output, true)
    };
    assert!(rt; output.as_slice() == written.as_bytes());
    expect_status(rt, told, status);
}

#[test]
fn the_ends_of_a_chain_in_short_reads(rt: HostRuntime) {
    for (reads, start, end) in &ENDS {
        for (is_end, status) in [(false, *start), (true, *end)] {
            lists_to(&rt, rt.alloc(), two_segments(*reads), is_end, (status, ""));
        }
    }
}

#[test]
fn the_ends_of_a_chain_cut_short(rt: HostRuntime) {
    let first = "segment 0\nno 1 Format Truncated\n";
    lists_to(&rt, rt.alloc(), &NOTHING[..1], false, (Some(1), first));
    let input = NOTHING.as_slice().chain(&NOTHING[..1]);
    let second = "segment 1\nno 1 Format Truncated\n";
    lists_to(&rt, rt.alloc(), input, true, (Some(1), second));
}
