//! Orders that are found of traces, whatever their logs say.

use crate::bytes::{changed, map_then_resolve};
use nr_audit::{Verdict, audit};
use nr_order::{Finding, find_order_read, judge_order};
use nr_trace::{Fault, Format, read, write};
use std::alloc::Global;
use std::process::Abort;

/// The `at` of the read is 0: it says that it saw no entry.
const AT_ZERO: (usize, u8) = (107, 0);

/// The read finds the page at another physical address.
const OTHER_PAGE: (usize, u8) = (119, 0x24);

/// What is found of `map_then_resolve` with these bytes at indexes.
fn found(rt: &impl Abort, alloc: Global, changes: &[(usize, u8)]) -> Finding {
    let bytes = changed(rt, alloc, &map_then_resolve(rt, alloc), changes);
    find_order_read(alloc, read(alloc, &bytes), 1000).expect(rt, "memory")
}

/// Whether the order of the calls is found with which it is right, and the trace with that order as its log is the right one.
fn is_found(rt: &impl Abort, alloc: Global, changes: &[(usize, u8)]) -> bool {
    let Finding::Right(ordered) = found(rt, alloc, changes) else {
        return false;
    };
    let placed = write(alloc, &ordered.trace).expect(rt, "memory");
    ordered.order.calls() == [0, 2].as_slice() && placed == map_then_resolve(rt, alloc)
}

#[test]
fn as_recorded(rt: HostRuntime) {
    assert!(rt; is_found(&rt, rt.alloc(), &[]));
}

#[test]
fn recorded_wrongly(rt: HostRuntime) {
    let alloc = rt.alloc();
    let bytes = changed(&rt, alloc, &map_then_resolve(&rt, alloc), &[AT_ZERO]);
    let verdict = audit(alloc, &bytes).expect(&rt, "memory");
    assert!(rt; matches!(verdict, Verdict::No(Fault::Early(2))));
    assert!(rt; is_found(&rt, alloc, &[AT_ZERO]));
}

#[test]
fn no_verdict(rt: HostRuntime) {
    let found = found(&rt, rt.alloc(), &[OTHER_PAGE]);
    assert!(rt; matches!(found, Finding::NoVerdict));
}

#[test]
fn format_fault(rt: HostRuntime) {
    let found = found(&rt, rt.alloc(), &[(0, 0)]);
    assert!(rt; matches!(found, Finding::Wrong(Fault::Format(Format::BadMagic))));
}

#[test]
fn given_orders(rt: HostRuntime) {
    let alloc = rt.alloc();
    let trace = read(alloc, &map_then_resolve(&rt, alloc)).expect(&rt, "a trace");
    let right = judge_order(alloc, &trace, &[0, 2]).expect(&rt, "memory");
    assert!(rt; right.is_some());
    let reversed = judge_order(alloc, &trace, &[2, 0]).expect(&rt, "memory");
    assert!(rt; reversed.is_none());
    let lacking = judge_order(alloc, &trace, &[2]).expect(&rt, "memory");
    assert!(rt; lacking.is_none());
}
