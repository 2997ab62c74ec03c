//! How many calls, updates, reads, replicas and pages a trace has, and how many calls overlap.

ghost use Rattle.std.specs.Prelude.{◌≡◌, IfOk};
ghost use Rattle.nr_trace.specs.Orders.{recorded_order};
ghost use Rattle.nr_explain.specs.Counts.{IsCountOf};

use crate::calls::places::places;
use crate::search::spaces::space_at;
use nr_audit::{Order, overlapping};
use nr_trace::Trace;
use std::alloc::Global;
use vs_types::Memory;

/// How much a right trace has.
#[derive(Clone, Copy, Debug, PartialEq, Eq)]
pub struct Counts {
    /// The calls of the order: the updates and the reads.
    pub calls: u64,
    pub updates: u64,
    pub reads: u64,
    pub replicas: u8,
    /// The pages of the space after the whole log.
    pub pages: u64,
    /// The updates and reads of these that were open while another one was, in the order or not.
    pub overlapping: u64,
}

/// Counts a right trace, of which this is the order. Allocates memory for a space and a list of its pages, and then four bytes for each
/// event.
pub(crate) fn count(alloc: Global, trace: &Trace, order: &Order) -> Result<Counts, Memory>
    requires { order.now ≡ recorded_order trace.now }
    ensures { IfOk result (IsCountOf trace.now) }
{
    let calls = order.calls().len();
    let updates = trace.log().len();
    let reads = calls - updates;
    let space = space_at(alloc, trace, places(trace))?;
    let pages = space.pages()?;
    let meeting = overlapping(alloc, trace)?;
    Ok(Counts {
        calls: calls as u64,
        updates: updates as u64,
        reads: reads as u64,
        replicas: trace.layout().replicas(),
        pages: pages.len() as u64,
        overlapping: meeting,
    })
}
