//! The finding on a trace: an order with which it is right; or a fault that needs no order; or nothing.

ghost use Rattle.std.specs.Prelude.{◌≡◌, ◌↔◌, ℕ, IfOk, IfSome, IsTrue, List, None};
ghost use Rattle.nr_trace.specs.Feed.{Reads};
ghost use Rattle.nr_trace.specs.Recording.{Recording};
ghost use Rattle.nr_audit.specs.Verdict.{IsVerdictOn};
ghost use Rattle.nr_order.specs.Finding.{IsFindingOf, IsFindingOn, IsOrderedOf, NeedsNoOrder};
ghost use Rattle.nr_order.specs.inside.ByThemselves.{IsFoundAlone, IsFoundAmong, IsOfEvents, IsOfSomeTables, IsOfTables};

use crate::attempts::Attempts;
use crate::calls::list_calls;
use crate::demands::Demands;
use crate::judging::Ordered;
use nr_audit::{Verdict, fault_at, judge, table_fault};
use nr_dump::DumpFault;
use nr_trace::{Fault, Format, Trace, TraceLayout};
use std::alloc::Global;
use vs_plain::PlainSpace;
use vs_types::{Fail, Memory};
use vs_walk::Dump;

/// What is found of a trace whose log isn't looked at.
#[derive(Drop)]
pub enum Finding {
    /// It is right with an order as its log.
    Right(Ordered),
    /// The first fault that needs no order: of the format, of the events by themselves, or of the tables of a dump by themselves.
    Wrong(Fault),
    /// No order was found.
    NoVerdict,
}

/// Whether a fault is one of the events by themselves.
fn is_of_events(fault: Fault) -> bool
    ensures { IsTrue result ↔ IsOfEvents fault }
{
    matches!(
        fault,
        Fault::ThreadOpen(_) | Fault::NoSuchCall(_) | Fault::AnsweredTwice(_)
    )
}

/// The fault of a verdict, where it is one of the events by themselves.
fn event_fault(verdict: &Verdict) -> Option<Fault>
    ensures { (trace : Recording) → trace.start ≡ None → IsVerdictOn trace verdict.now
        → IsFoundAmong IsOfEvents trace result }
{
    match verdict {
        Verdict::Yes(_) => None,
        Verdict::No(fault) => {
            if is_of_events(*fault) {
                Some(*fault)
            } else {
                None
            }
        }
    }
}

/// What is wrong with the tables of a dump by themselves.
fn fault_of_dump(
    alloc: Global,
    dump: &Dump,
    layout: TraceLayout,
) -> Result<Option<DumpFault>, Memory>
    ensures { IfOk result (IsFoundAlone layout.depth dump.now) }
{
    let empty = PlainSpace::new(alloc, layout.tables(), layout.depth());
    match table_fault(alloc, dump, &empty)? {
        None => Ok(None),
        Some(DumpFault::Differs(_)) => Ok(None),
        Some(fault) => Ok(Some(fault)),
    }
}

/// The first fault of the tables of a replica's dump by themselves.
fn fault_of_tables(alloc: Global, trace: &Trace, replica: u8) -> Result<Option<Fault>, Memory>
    ensures { IfOk result (IsFoundAmong (IsOfTables replica) trace.now) }
{
    let Some(dump) = trace.dumps().get(replica as usize) else {
        return Ok(None);
    };
    if dump.count() == 0 {
        return Ok(None);
    }
    match fault_of_dump(alloc, dump, trace.layout())? {
        None => Ok(None),
        Some(fault) => Ok(Some(fault_at(replica, fault))),
    }
}

/// The first such fault of a trace, by replica.
fn first_of_tables(alloc: Global, trace: &Trace) -> Result<Option<Fault>, Memory>
    ensures { IfOk result (IsFoundAmong IsOfSomeTables trace.now) }
{
    for replica in 0..trace.layout().replicas() {
        if let Some(fault) = fault_of_tables(alloc, trace, replica)? {
            return Ok(Some(fault));
        }
    }
    Ok(None)
}

/// The first fault that needs no order.
fn fault_by_itself(alloc: Global, trace: &Trace) -> Result<Option<Fault>, Memory>
    requires { trace.now.start ≡ None }
    ensures { IfOk result (IsFoundAmong NeedsNoOrder trace.now) }
{
    let verdict = judge(alloc, trace)?;
    if let Some(fault) = event_fault(&verdict) {
        return Ok(Some(fault));
    }
    first_of_tables(alloc, trace)
}

/// An order with which a trace is right that has no such fault, if one is found with at most so many steps.
fn search(alloc: Global, trace: &Trace, steps: u32) -> Result<Option<Ordered>, Memory>
    ensures { IfOk result (λ found. IfSome found (IsOrderedOf trace.now)) }
{
    let Some(demands) = Demands::of(alloc, trace)? else {
        return Ok(None);
    };
    let calls = list_calls(alloc, trace)?;
    let mut attempts = Attempts::new(alloc, calls, demands, steps);
    attempts.run(trace)
}

/// Looks for an order of the calls with which a trace is right, whatever its log and its `at`s are, with at most so many steps. A step is a
/// call that is tried as the next one, or an event that is passed. `Right` says what `judge_order` says of the order that was found;
/// `NoVerdict` says nothing.
///
/// Allocates memory for the calls, for each step, for whole traces that are judged, and what `judge` takes.
///
/// # Errors
///
/// `Memory` where a growth of memory was refused.
pub fn find_order(alloc: Global, trace: &Trace, steps: u32) -> Result<Finding, Memory>
    ensures { IfOk result (IsFindingOn trace.now) }
{
    if trace.start().is_some() {
        return Ok(Finding::NoVerdict);
    }
    if let Some(fault) = fault_by_itself(alloc, trace)? {
        return Ok(Finding::Wrong(fault));
    }
    match search(alloc, trace, steps)? {
        Some(ordered) => Ok(Finding::Right(ordered)),
        None => Ok(Finding::NoVerdict),
    }
}

/// The finding on bytes of which this was read: on the trace that they spell, or `Wrong` with their format fault.
///
/// Takes what `find_order` takes. `Right` says that the bytes are right with its order.
///
/// # Errors
///
/// `Memory` where a growth of memory was refused, here or as the bytes were read.
pub fn find_order_read(
    alloc: Global,
    read: Result<Trace, Fail<Format>>,
    steps: u32,
) -> Result<Finding, Memory>
    ensures { (bytes : List ℕ) → Reads bytes read → IfOk result (IsFindingOf bytes) }
{
    match read {
        Ok(trace) => find_order(alloc, &trace, steps),
        Err(Fail::Memory) => Err(Memory),
        Err(Fail::Refused(fault)) => Ok(Finding::Wrong(Fault::Format(fault))),
    }
}
