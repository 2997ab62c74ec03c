//! The judgement of a trace with an order.

ghost use Rattle.std.specs.Prelude.{◌≡◌, ℕ, IfOk, IfSome, List};
ghost use Rattle.nr_trace.specs.Spelling.{Spells};
ghost use Rattle.nr_audit.specs.Headline.{AreRightWith};
ghost use Rattle.nr_order.specs.Finding.{IsOrderedOf};
ghost use Rattle.nr_order.specs.WithOrder.{with_order};

use crate::placing::with_order;
use nr_audit::{Order, Verdict, judge};
use nr_trace::Trace;
use std::alloc::Global;
use vs_types::Memory;

/// A trace that has an order as its log and is right, and the order that it records: each read comes behind as many updates as before
/// it, and of reads with equally many the earlier call first.
#[derive(Drop)]
pub struct Ordered {
    pub trace: Trace,
    pub order: Order,
}

/// The trace with the updates of this order as its log, where it is right: the audit judges it. `None` where it isn't.
///
/// If bytes spell the trace, they are right with the order that is given, whatever their log and their `at`s are: these are no part of what
/// that says. The dumps have the numbers of entries that are recorded.
///
/// Allocates memory for the whole trace, and what `judge` takes.
///
/// # Errors
///
/// `Memory` where a growth of memory was refused.
pub fn judge_order(alloc: Global, trace: &Trace, order: &[u32]) -> Result<Option<Ordered>, Memory>
    ensures placed { IfOk result
        (λ found. IfSome found (λ made. made.trace ≡ with_order trace.now order.now)) }
    ensures ordered { IfOk result (λ found. IfSome found (IsOrderedOf trace.now)) }
    ensures right { (bytes : List ℕ) → Spells bytes trace.now
        → IfOk result (λ found. IfSome found (λ made. AreRightWith bytes made.order)) }
{
    let Some(placed) = with_order(alloc, trace, order)? else {
        return Ok(None);
    };
    match judge(alloc, &placed)? {
        Verdict::Yes(order) => Ok(Some(Ordered {
            trace: placed,
            order,
        })),
        Verdict::No(_) => Ok(None),
    }
}
