//! The verdicts on traces that are made by hand.

use crate::audit_cases::{CALLS, Case, DUMPS, FORMATS, ORDERS};
use crate::bytes::push_dump;
use nr_audit::{Verdict, audit};
use nr_trace::{Fault, Format};
use std::alloc::{AllocError, Global};
use std::process::Abort;

/// The bytes of a trace of 3 threads.
pub(crate) fn trace_of(rt: &impl Abort, alloc: Global, case: &Case) -> Vec<u8> {
    let mut bytes = Vec::new(alloc);
    spell(&mut bytes, case).expect(rt, "memory");
    bytes
}

fn spell(bytes: &mut Vec<u8>, case: &Case) -> Result<(), AllocError> {
    let [version, levels, tables] = case.config;
    let replicas = case.dumps.len().min(255) as u8;
    let places = case.log.len().min(255) as u8;
    let count = case.events.len().min(255) as u8;
    bytes.extend_from_slice(&[
        0x4e, 0x52, 0x56, 0x54, 0, version, levels, replicas, 0, 3, 0, tables, 0, 0, 0, places, 0,
        0, 0, count,
    ])?;
    for call in case.log {
        bytes.extend_from_slice(&[0, 0, 0, *call])?;
    }
    for event in case.events {
        let mut event_bytes = event.0;
        for (index, byte) in event.1 {
            event_bytes[*index % 24] = *byte;
        }
        bytes.extend_from_slice(&event_bytes)?;
    }
    for dump in case.dumps {
        push_dump(bytes, dump.applied, dump.root, dump.words)?;
    }
    Ok(())
}

/// Whether the verdict on the trace is what is expected.
fn is_judged(rt: &impl Abort, alloc: Global, case: &Case) -> bool {
    let bytes = trace_of(rt, alloc, case);
    match audit(alloc, &bytes).expect(rt, "memory") {
        Verdict::Yes(order) => Ok(order.calls()) == case.verdict,
        Verdict::No(fault) => Err(fault) == case.verdict,
    }
}

/// Audits each trace, and holds the verdict against what is expected.
fn run(rt: &impl Abort, alloc: Global, cases: &[Case]) {
    for case in cases {
        assert!(rt; is_judged(rt, alloc, case), "{}", case.name);
    }
}

#[test]
fn orders(rt: HostRuntime) {
    run(&rt, rt.alloc(), &ORDERS);
}

#[test]
fn formats(rt: HostRuntime) {
    run(&rt, rt.alloc(), &FORMATS);
}

#[test]
fn faults_of_calls(rt: HostRuntime) {
    run(&rt, rt.alloc(), &CALLS);
}

#[test]
fn dumps(rt: HostRuntime) {
    run(&rt, rt.alloc(), &DUMPS);
}

#[test]
fn no_bytes(rt: HostRuntime) {
    let verdict = audit(rt.alloc(), &[]).expect(&rt, "memory");
    let truncated = Fault::Format(Format::Truncated);
    assert!(rt; matches!(verdict, Verdict::No(fault) if fault == truncated));
}
