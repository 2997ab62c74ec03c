//! One trace of 19 MB through each call that reads, judges, gathers or writes: five levels, version 2, thousands of empty tables.

use crate::bytes::push_frame;
use crate::pieces::is_read_in_pieces;
use crate::trace::is_spelled;
use nr_audit::{Verdict, audit, judge};
use nr_trace::{Fault, Format, read};
use std::alloc::{AllocError, Global};
use std::process::Abort;
use vs_types::Depth;
use vs_walk::{Dump, leaves};

const UPDATES: u32 = 20_000;

const READS: u32 = 10_000;
/// The root, 8 tables below it, and 510 below each of these.
const FRAMES: u32 = 4_089;

/// A frame of which the first words lead to tables that come one after another.
fn push_tables(
    bytes: &mut Vec<u8>,
    number: u32,
    first: u32,
    tables: u64,
) -> Result<(), AllocError> {
    push_frame(
        bytes,
        u64::from(number),
        0,
        tables,
        u64::from(first) * 4096 + 7,
    )
}

fn push_dump(bytes: &mut Vec<u8>, frames: u32) -> Result<(), AllocError> {
    bytes.extend_from_slice(&UPDATES.to_be_bytes())?;
    bytes.extend_from_slice(&frames.to_be_bytes())?;
    bytes.extend_from_slice(&1u64.to_be_bytes())?;
    push_tables(bytes, 1, 2, if frames == 1 { 0 } else { 8 })?;
    if frames > 1 {
        for table in 0..8u32 {
            push_tables(bytes, 2 + table, 10 + 510 * table, 510)?;
        }
        for number in 10..=frames {
            push_tables(bytes, number, 0, 0)?;
        }
    }
    Ok(())
}

/// An unmap or a resolve of an address that is not mapped, and its answer.
fn push_call(bytes: &mut Vec<u8>, index: u32, is_update: bool) -> Result<(), AllocError> {
    let thread = (index % 64) as u8;
    let (kind, at) = if is_update { (1, index) } else { (3, UPDATES) };
    let call = u64::from(index) * 2 + (0x0104_0000 << 32);
    let address = u64::from(index) * 4096;
    bytes.extend_from_slice(&[0, thread % 2, 0, thread, kind, 0, 0, 0])?;
    bytes.extend_from_slice(&address.to_be_bytes())?;
    bytes.extend_from_slice(&[0; 8])?;
    bytes.extend_from_slice(&call.to_be_bytes())?;
    bytes.extend_from_slice(&at.to_be_bytes())?;
    bytes.extend_from_slice(&[0; 12])
}

fn push_trace(bytes: &mut Vec<u8>) -> Result<(), AllocError> {
    bytes.extend_from_slice(&[0x4e, 0x52, 0x56, 0x54, 0, 2, 5, 2, 0, 64, 16, 0])?;
    bytes.extend_from_slice(&UPDATES.to_be_bytes())?;
    bytes.extend_from_slice(&(2 * (UPDATES + READS)).to_be_bytes())?;
    for place in 0..UPDATES {
        bytes.extend_from_slice(&(2 * place).to_be_bytes())?;
    }
    for index in 0..UPDATES + READS {
        push_call(bytes, index, index < UPDATES)?;
    }
    push_dump(bytes, FRAMES)?;
    push_dump(bytes, 1)
}

fn large_trace(rt: &impl Abort, alloc: Global) -> Vec<u8> {
    let mut bytes = Vec::new(alloc);
    push_trace(&mut bytes).expect(rt, "memory");
    bytes
}

/// How many calls of the order there are, where these are the calls of the trace as they were made; or the fault.
fn told(verdict: &Verdict) -> Result<usize, Option<Fault>> {
    let order = match verdict {
        Verdict::Yes(order) => order,
        Verdict::No(fault) => return Err(Some(*fault)),
    };
    let mut made = 0u32;
    for call in order.calls() {
        if *call != made {
            return Err(None);
        }
        made = made.wrapping_add(2);
    }
    Ok(order.calls().len())
}

/// The same of bytes.
fn audited(rt: &impl Abort, alloc: Global, bytes: &[u8]) -> Result<usize, Option<Fault>> {
    told(&audit(alloc, bytes).expect(rt, "memory"))
}

/// The frames that a dump's tables lead to, which are all of it, and how many pages are found there.
fn gathered(alloc: Global, dump: &Dump) -> Option<(usize, usize)> {
    let listed = leaves(alloc, dump, dump.root(), Depth::Five).ok()?;
    let held = dump.count();
    let again = Dump::gather(alloc, dump, dump.root(), Depth::Five, 7).ok()?;
    if held != again.count() {
        return None;
    }
    Some((again.count(), listed.pages.as_slice().len()))
}

#[test]
fn read_and_written(rt: HostRuntime) {
    let alloc = rt.alloc();
    let bytes = large_trace(&rt, alloc);
    assert!(rt; bytes.len() == 20 + 80_000 + 60_000 * 24 + 2 * 16 + 4_090 * 4_104);
    let trace = read(alloc, &bytes).expect(&rt, "a trace");
    assert!(rt; is_spelled(&rt, alloc, &trace, &bytes));
    assert!(rt; is_read_in_pieces(&rt, alloc, &bytes, 1_000_003));
}

#[test]
fn judged(rt: HostRuntime) {
    let alloc = rt.alloc();
    let mut bytes = large_trace(&rt, alloc);
    assert!(rt; audited(&rt, alloc, &bytes) == Ok(30_000));
    let trace = read(alloc, &bytes).expect(&rt, "a trace");
    let verdict = judge(alloc, &trace).expect(&rt, "memory");
    assert!(rt; told(&verdict) == Ok(30_000));
    let dump = trace.dumps().first().expect(&rt, "a dump");
    assert!(rt; gathered(alloc, dump) == Some((4_089, 0)));
    bytes.push(0).expect(&rt, "memory");
    let trailing = Fault::Format(Format::Trailing);
    assert!(rt; audited(&rt, alloc, &bytes) == Err(Some(trailing)));
}
