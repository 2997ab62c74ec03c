//! The first fault of a trace with its evidence, or its order with counts.

ghost use Rattle.std.specs.Prelude.{ℕ, IfOk, List};
ghost use Rattle.nr_trace.specs.Faults.{IsFirst};
ghost use Rattle.nr_audit.specs.Verdict.{IsTrace};
ghost use Rattle.nr_explain.specs.Evidence.{IsEvidence};
ghost use Rattle.nr_explain.specs.Explanation.{IsExplanationOf};
ghost use Rattle.nr_explain.specs.Units.{ReadsUnits};
ghost use Rattle.nr_explain.specs.inside.Explained.{IsExplanationOn};

use crate::calls::answers::other_answer;
use crate::calls::floors::early_call;
use crate::calls::pairs::{open_calls, stray_reply, two_replies};
use crate::calls::places::{misplaced, no_update, past_end, two_places};
use crate::tables::dumps::explain_dump;
use crate::trace::counts::{Counts, count};
use crate::trace::evidence::Evidence;
use crate::units::{BadUnit, Unread};
use nr_audit::{Order, Verdict, is_trace, judge};
use nr_trace::{Fault, Format, Trace, TraceUnit};
use std::alloc::Global;
use vs_types::Memory;

/// What an audit finds, and what shows it.
#[derive(Debug, Drop)]
pub enum Explanation {
    /// The trace is right, with this order of its calls, and has so much.
    Yes(Order, Counts),
    /// The first fault, and what shows it.
    No(Fault, Evidence),
}

/// What shows the first fault of a trace: each fact of it is one of the trace.
///
/// Allocates memory for a space at a time, where an answer is wrong or a translation differs, and for the entries that lead to
/// a table.
///
/// # Errors
///
/// `Memory` where a growth of memory was refused.
pub fn explain(alloc: Global, trace: &Trace, fault: Fault) -> Result<Evidence, Memory>
    requires { IsFirst trace.now fault }
    ensures { IfOk result (IsEvidence trace.now fault) }
{
    match fault {
        Fault::Format(_) => unreachable!(),
        Fault::ThreadOpen(index) => Ok(Evidence::ThreadOpen(open_calls(trace, index))),
        Fault::NoSuchCall(index) => Ok(Evidence::NoSuchCall(stray_reply(trace, index))),
        Fault::AnsweredTwice(index) => Ok(Evidence::AnsweredTwice(two_replies(trace, index))),
        Fault::NotAnUpdate(place) => Ok(Evidence::NotAnUpdate(no_update(trace, place))),
        Fault::PlacedTwice(place) => Ok(Evidence::PlacedTwice(two_places(trace, place))),
        Fault::NotPlaced(index) => Ok(Evidence::NotPlaced(misplaced(trace, index))),
        Fault::PastLog(index) => Ok(Evidence::PastLog(past_end(trace, index))),
        Fault::Early(call) => Ok(Evidence::Early(early_call(trace, call))),
        Fault::WrongAnswer(call) => Ok(Evidence::WrongAnswer(other_answer(alloc, trace, call)?)),
        Fault::PrefixPastLog(_)
        | Fault::PrefixShort(_)
        | Fault::MissingFrame(_, _)
        | Fault::SharedFrame(_, _)
        | Fault::ReservedBit(_, _, _)
        | Fault::StrayFrame(_, _)
        | Fault::Differs(_, _) => explain_dump(alloc, trace, fault),
        Fault::StartMissing(_) => unreachable!(),
        Fault::StartShared(_) => unreachable!(),
        Fault::StartReserved(_, _) => unreachable!(),
        Fault::StartStray(_) => unreachable!(),
        Fault::StartBeyond(_) => unreachable!(),
        Fault::StartDiffers(_) => unreachable!(),
        Fault::Stale(_) => unreachable!(),
        Fault::Reachable(_) => unreachable!(),
    }
}

/// What is said of a segment: it is no trace, as the magic at its front shows.
fn told_of_segment(alloc: Global) -> Result<Explanation, Memory> {
    let mut read = Vec::new(alloc);
    read.extend_from_slice(b"NRVS")?;
    let bad = BadUnit {
        fault: Format::BadMagic,
        unit: TraceUnit::Magic,
        offset: 0,
        read,
        field: None,
    };
    Ok(Explanation::No(Fault::Format(bad.fault), Evidence::Format(bad)))
}

/// The verdict on a trace, and for a no what shows the fault, for a yes how much the trace has.
pub(crate) fn explain_trace(alloc: Global, trace: &Trace) -> Result<Explanation, Memory>
    ensures { IsTrace trace.now → IfOk result (IsExplanationOn trace.now) }
{
    if !is_trace(trace) {
        return told_of_segment(alloc);
    }
    match judge(alloc, trace)? {
        Verdict::Yes(order) => {
            let counts = count(alloc, trace, &order)?;
            Ok(Explanation::Yes(order, counts))
        }
        Verdict::No(fault) => {
            let shown = explain(alloc, trace, fault)?;
            Ok(Explanation::No(fault, shown))
        }
    }
}

/// The verdict on bytes of which this was read, and for a no what shows the fault, for a yes how much the trace has.
///
/// Takes what `judge` takes, and then what `explain` takes, or for a yes a space and a list of its pages.
///
/// # Errors
///
/// `Memory` where a growth of memory was refused, here or as the bytes were read.
pub fn explain_read(alloc: Global, read: Result<Trace, Unread>) -> Result<Explanation, Memory>
    ensures { (bytes : List ℕ) → ReadsUnits bytes read → IfOk result (IsExplanationOf bytes) }
{
    match read {
        Ok(trace) => explain_trace(alloc, &trace),
        Err(Unread::Memory) => Err(Memory),
        Err(Unread::Bad(bad)) => {
            Ok(Explanation::No(Fault::Format(bad.fault), Evidence::Format(bad)))
        }
    }
}
