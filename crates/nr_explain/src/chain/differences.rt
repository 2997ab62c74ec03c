//! What shows that a dump translates an address otherwise than the space.

ghost use Rattle.std.specs.Prelude.{◌≡◌, IfOk};
ghost use Rattle.nr_trace.specs.Faults.{HasDump, IsFirstFrom};
ghost use Rattle.nr_trace.specs.declared.refusals.fault.Fault.TheVariants.{Differs};
ghost use Rattle.nr_audit.specs.Verdict.{space_of};
ghost use Rattle.nr_explain.specs.Evidence.{IsDifferenceFrom};

use crate::trace::evidence::Difference;
use nr_audit::copy;
use nr_trace::Trace;
use std::alloc::Global;
use vs_plain::PlainSpace;
use vs_types::Memory;

/// How the dump of a replica translates an address and by which entries, how the address looks in the space, where the segment begins with
/// this one, and the last update of the segment that made it so. Allocates the entries, and a copy of the space.
pub(crate) fn difference(
    alloc: Global,
    segment: &Trace,
    first: &PlainSpace,
    replica: u8,
    address: u64,
) -> Result<Difference, Memory>
    requires space { first.now ≡ space_of segment.now.layout first.now.space }
    requires first { IsFirstFrom first.now.space segment.now (Differs replica address) }
    ensures replica { IfOk result (λ wrong. wrong.replica ≡ replica) }
    ensures address { IfOk result (λ wrong. wrong.address ≡ address) }
    ensures is { IfOk result (λ wrong.
        HasDump segment.now wrong.replica (IsDifferenceFrom first.now.space segment.now wrong)) }
{
    let space = copy(alloc, segment.layout().tables(), first)?;
    crate::tables::dumps::difference(alloc, segment, space, replica, address)
}
