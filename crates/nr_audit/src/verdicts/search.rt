//! The passes, one after another.

ghost use Rattle.std.specs.Prelude.{◌≡◌, is_some, IfOk, IfErr, IfSome, OnOk, Option, Some};
ghost use Rattle.vs_types.specs.Refusal.{IfRefused};
ghost use Rattle.nr_trace.specs.Orders.{recorded_order, space_from};
ghost use Rattle.nr_trace.specs.Run.{Run, run_with};
ghost use Rattle.nr_touch.specs.Tails.{GoesOn, IsSoundTail, IsTailOf, KeepsChanges};
ghost use Rattle.nr_audit.specs.Met.{HasMet};
ghost use Rattle.nr_audit.specs.Touches.{HasRightTouches};
ghost use Rattle.nr_audit.specs.Verdict.{space_of};
ghost use Rattle.nr_audit.specs.inside.Search.{late_fault, HasNoFaultBehind, IsFirstBehind};

use crate::checks::answers::check_answers;
use crate::checks::calls::check_calls;
use crate::checks::dumps::check_dumps;
use crate::checks::floors::check_replies;
use crate::checks::order::list_order;
use crate::checks::touches::{Touched, stale_touch};
use crate::histories::last_events::LastEvents;
use crate::histories::log::check_log;
use crate::histories::met::Met;
use crate::histories::past::Past;
use crate::verdicts::verdict::Order;
use nr_touch::Tail;
use nr_trace::{Fault, Trace};
use std::alloc::Global;
use vs_plain::PlainSpace;
use vs_types::{Fail, REPLICAS};

/// The fault of the stale touch of this number, or else of the release of that number, which is wrong; or `None`.
fn late_fault(stale: Option<u32>, reachable: Option<u32>) -> Option<Fault>
    ensures { result ≡ late_fault stale reachable }
{
    match stale {
        Some(call) => Some(Fault::Stale(call)),
        None => Some(Fault::Reachable(reachable?)),
    }
}

/// The passes over a trace, or over a segment behind others that left this, one after another, up to the first fault from the start on.
/// Where there is none, gives the recorded order, what is kept for the next segment, and what is counted, if that is asked.
pub(crate) fn search(
    alloc: Global,
    trace: &Trace,
    tail: Tail,
    start: PlainSpace,
    counts: bool,
) -> Result<(Order, Past, Option<Met>), Fail<Fault>>
    requires start { start ≡ space_of trace.now.layout start.space }
    requires sound { IsSoundTail tail }
    ensures none { (before : Option Run) → IsTailOf before tail
        → GoesOn before trace.now start.space
        → OnOk result (HasNoFaultBehind before start.space trace.now) }
    ensures touches { (before : Option Run) → IsTailOf before tail
        → GoesOn before trace.now start.space
        → OnOk result (HasRightTouches before start.space trace.now) }
    ensures order { IfOk result (λ right. right.0 ≡ recorded_order trace.now) }
    ensures space { IfOk result (λ right. right.1.space
        ≡ space_of trace.now.layout (space_from start.space trace.now trace.now.log)) }
    ensures tail { (before : Option Run) → IsTailOf before tail
        → GoesOn before trace.now start.space → IfOk result
        (λ right. IsTailOf (Some (run_with before start.space trace.now)) right.1.tail) }
    ensures met { (before : Option Run) → IsTailOf before tail
        → GoesOn before trace.now start.space → IfOk result
        (λ right. IfSome right.2 (HasMet before start.space trace.now)) }
    ensures counted { IfOk result (λ right. is_some right.2 ≡ counts) }
    ensures left { IfOk result (λ right. IsSoundTail right.1.tail) }
    ensures changes { IfOk result (λ right. KeepsChanges tail right.1.tail) }
    ensures first { (before : Option Run) → IsTailOf before tail
        → GoesOn before trace.now start.space
        → IfErr result (IfRefused (IsFirstBehind before start.space trace.now)) }
{
    let history = check_calls(alloc, trace)?;
    let places = check_log(alloc, &history)?;
    let standing = check_replies(alloc, &history, places)?;
    let touched = stale_touch(alloc, trace, &history, tail, start, counts)?;
    let Touched {
        stale,
        reachable,
        met,
        tail,
        start,
    } = touched;
    let needed = standing.needed;
    let order = list_order(alloc, &history, standing)?;
    let events = LastEvents::of(history, order);
    let mut faults = [None; REPLICAS as usize];
    let (order, space) = check_answers(alloc, trace, events, start, &mut faults)?;
    if let Some(fault) = late_fault(stale, reachable) {
        return Err(Fail::Refused(fault));
    }
    check_dumps(alloc, trace, &needed, &space, &mut faults)?;
    Ok((order, Past { space, tail }, met))
}
