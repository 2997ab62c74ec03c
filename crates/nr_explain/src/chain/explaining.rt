//! What shows the first fault of a segment.

ghost use Rattle.std.specs.Prelude.{◌≡◌, IfOk, IfSome, is_some, true};
ghost use Rattle.vs_types.specs.Space.{Space};
ghost use Rattle.nr_trace.specs.Faults.{IsFirstFrom};
ghost use Rattle.nr_explain.specs.Dumps.{replica_of};
ghost use Rattle.nr_explain.specs.ChainEvidence.{IsOfItself};
ghost use Rattle.nr_explain.specs.inside.Itself.{IsShownByItself};
ghost use Rattle.nr_audit.specs.Start.{first_space};
ghost use Rattle.nr_explain.specs.inside.Firsts.{IsFirstOver, IsReleaseToShow, IsToShow, IsTouchToShow, ShowsLeft};
ghost use Rattle.nr_explain.specs.inside.Reading.{all_states, space_seen, BeginsWell, FitsSegment, IsShownSeen};
ghost use Rattle.nr_explain.specs.inside.Starts.{is_within};

use crate::chain::answers::other_answer;
use crate::chain::differences::difference;
use crate::chain::evidence::SegmentEvidence;
use crate::chain::origins::origin_of;
use crate::chain::progress::Progress;
use crate::chain::releases::wrong_release;
use crate::chain::spaces::begin;
use crate::chain::starts::explain_start;
use crate::chain::touches::stale_touch;
use crate::tables::dumps::explain_dump;
use crate::trace::all_dumps::replica_of;
use crate::trace::explaining::explain;
use nr_trace::{Fault, Trace};
use std::alloc::Global;
use vs_types::Memory;

/// A wrong answer, and where the look of its address comes from.
fn explain_answer(
    alloc: Global,
    last: &Option<Progress>,
    segment: &Trace,
    call: u32,
) -> Result<SegmentEvidence, Memory>
    requires fits { IfSome last.now (FitsSegment segment.now) }
    requires first { IsFirstOver (space_seen (all_states last.now)) segment.now
        (Fault.WrongAnswer call) }
    ensures { IfOk result (IsShownSeen (all_states last.now) segment.now
        (Fault.WrongAnswer call)) }
{
    let first = begin(alloc, last, segment)?;
    let wrong = other_answer(alloc, segment, &first, call)?;
    let origin = origin_of(last, segment, &first, wrong.address);
    Ok(SegmentEvidence::WrongAnswer(wrong, origin))
}

/// A dump that translates an address otherwise, and where the look of that address comes from.
fn explain_difference(
    alloc: Global,
    last: &Option<Progress>,
    segment: &Trace,
    replica: u8,
    address: u64,
) -> Result<SegmentEvidence, Memory>
    requires fits { IfSome last.now (FitsSegment segment.now) }
    requires first { IsFirstOver (space_seen (all_states last.now)) segment.now
        (Fault.Differs replica address) }
    ensures { IfOk result (IsShownSeen (all_states last.now) segment.now
        (Fault.Differs replica address)) }
{
    let first = begin(alloc, last, segment)?;
    let wrong = difference(alloc, segment, &first, replica, address)?;
    let origin = origin_of(last, segment, &first, wrong.address);
    Ok(SegmentEvidence::Differs(wrong, origin))
}

/// Whether a fault is one of a dump.
fn is_of_dump(fault: Fault) -> bool
    ensures { result ≡ is_some (replica_of fault) }
{
    replica_of(fault).is_some()
}

/// Whether a fault is one that a trace may have too.
fn is_within(fault: Fault) -> bool
    ensures { result ≡ is_within fault }
{
    !matches!(
        fault,
        Fault::StartMissing(_)
            | Fault::StartShared(_)
            | Fault::StartReserved(..)
            | Fault::StartStray(_)
            | Fault::StartBeyond(_)
            | Fault::StartDiffers(_)
            | Fault::Stale(_)
            | Fault::Reachable(_)
    )
}

/// What shows the first fault of a segment, where that doesn't depend on the space with which it begins.
fn explain_itself(alloc: Global, segment: &Trace, fault: Fault) -> Result<SegmentEvidence, Memory>
    requires own { IsOfItself fault }
    requires first { (start : Space) × IsFirstFrom start segment.now fault }
    ensures { IfOk result (IsShownByItself segment.now fault) }
{
    if is_of_dump(fault) {
        return Ok(SegmentEvidence::Within(explain_dump(alloc, segment, fault)?));
    }
    Ok(SegmentEvidence::Within(explain(alloc, segment, fault)?))
}

/// What shows the first fault of a segment, which is one that a trace may have too.
fn explain_within(
    alloc: Global,
    last: &Option<Progress>,
    segment: &Trace,
    fault: Fault,
) -> Result<SegmentEvidence, Memory>
    requires fits { IfSome last.now (FitsSegment segment.now) }
    requires own { is_within fault ≡ true }
    requires first { IsFirstOver (space_seen (all_states last.now)) segment.now fault }
    ensures { IfOk result (IsShownSeen (all_states last.now) segment.now fault) }
{
    match fault {
        Fault::Format(_) => unreachable!(),
        Fault::WrongAnswer(call) => explain_answer(alloc, last, segment, call),
        Fault::Differs(replica, address) => {
            explain_difference(alloc, last, segment, replica, address)
        }
        _ => explain_itself(alloc, segment, fault),
    }
}

/// A stale touch, and how its address looked at the moments from which it may be answered.
fn explain_touch(
    alloc: Global,
    last: &Option<Progress>,
    segment: &Trace,
    call: u32,
) -> Result<SegmentEvidence, Memory>
    requires fits { IfSome last.now (FitsSegment segment.now) }
    requires touch { IsTouchToShow (space_seen (all_states last.now)) segment.now call }
    ensures shown { IfOk result (IsShownSeen (all_states last.now) segment.now (Fault.Stale call)) }
    ensures left { IfOk result (ShowsLeft (all_states last.now)
        (first_space (space_seen (all_states last.now)) segment.now) segment.now) }
{
    let first = begin(alloc, last, segment)?;
    Ok(SegmentEvidence::Stale(stale_touch(alloc, last, segment, &first, call)?))
}

/// A release that is wrong, and from where its memory may be reached.
fn explain_release(
    alloc: Global,
    last: &Option<Progress>,
    segment: &Trace,
    call: u32,
) -> Result<SegmentEvidence, Memory>
    requires fits { IfSome last.now (FitsSegment segment.now) }
    requires well { BeginsWell last.now segment.now }
    requires release { IsReleaseToShow (all_states last.now)
        (first_space (space_seen (all_states last.now)) segment.now) segment.now call }
    ensures shown { IfOk result
        (IsShownSeen (all_states last.now) segment.now (Fault.Reachable call)) }
    ensures left { IfOk result (ShowsLeft (all_states last.now)
        (first_space (space_seen (all_states last.now)) segment.now) segment.now) }
{
    let first = begin(alloc, last, segment)?;
    Ok(SegmentEvidence::Reachable(wrong_release(alloc, last, segment, &first, call)?))
}

/// What shows the first fault of a segment that comes behind what the segments so far have come to. Each fact of it is one of the segment,
/// of the space before it, of what lingers behind the segments before, or of the space with which the chain begins. Allocates memory for a
/// space or two, and for what is shown; for a release what a judgement of it takes.
pub(crate) fn explain_segment(
    alloc: Global,
    last: &Option<Progress>,
    segment: &Trace,
    fault: Fault,
) -> Result<SegmentEvidence, Memory>
    requires fits { IfSome last.now (FitsSegment segment.now) }
    requires first { IsToShow (all_states last.now) segment.now fault }
    ensures shown { IfOk result (IsShownSeen (all_states last.now) segment.now fault) }
    ensures left { IfOk result (ShowsLeft (all_states last.now)
        (first_space (space_seen (all_states last.now)) segment.now) segment.now) }
{
    if is_within(fault) {
        return explain_within(alloc, last, segment, fault);
    }
    match fault {
        Fault::Stale(call) => explain_touch(alloc, last, segment, call),
        Fault::Reachable(call) => explain_release(alloc, last, segment, call),
        _ => explain_start(alloc, last, segment, fault),
    }
}
