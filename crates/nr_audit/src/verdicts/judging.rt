//! The audit: of a trace, of a segment behind another, of what was read, and of bytes.

ghost use Rattle.std.specs.Prelude.{◌≡◌, ℕ, is_some, IfErr, IfOk, IfSome, List, None, OnOk, Option, option_map};
ghost use Rattle.vs_types.specs.Refusal.{IfRefused};
ghost use Rattle.nr_trace.specs.Calls.{IsWellFormedHistory};
ghost use Rattle.nr_trace.specs.Feed.{Reads};
ghost use Rattle.nr_trace.specs.Faults.{IsFirstOf};
ghost use Rattle.nr_trace.specs.Laws.{IsFaultless};
ghost use Rattle.nr_trace.specs.Orders.{recorded_order, HasItsCalls, HasTheAnswers, KeepsPrecedence};
ghost use Rattle.nr_trace.specs.Recording.{Recording};
ghost use Rattle.nr_trace.specs.Spelling.{Spells};
ghost use Rattle.nr_trace.specs.declared.refusals.fault.Fault.{Fault};
ghost use Rattle.nr_audit.specs.Faults.{IsFirstAfter, IsSoundAfter};
ghost use Rattle.nr_audit.specs.Headline.{AreRightWith, HasFittingDumps, IsSpelledWith, SpellsAlone};
ghost use Rattle.nr_audit.specs.Met.{HasMet};
ghost use Rattle.nr_audit.specs.Start.{begins_in};
ghost use Rattle.nr_trace.specs.Run.{Run};
ghost use Rattle.nr_touch.specs.Tails.{IsSoundTail, IsTailOf, KeepsChanges};
ghost use Rattle.nr_audit.specs.Segments.{run_after, FitsPast, IsBehind, IsKept, IsRightAfter};
ghost use Rattle.nr_audit.specs.Verdict.{IfYes, IsVerdictOf, IsVerdictOn};

use crate::histories::met::Met;
use crate::histories::past::Past;
use crate::verdicts::search::search;
use crate::verdicts::start::begin;
use crate::verdicts::verdict::{Order, Verdict};
use nr_touch::Tail;
use nr_trace::{Fault, Format, Trace, read};
use std::alloc::Global;
use vs_plain::PlainSpace;
use vs_types::{Fail, Memory};

/// The space before a segment, where there is one, and what the segments before left. It allocates no memory.
fn parts_of(alloc: Global, before: Option<Past>) -> (Option<PlainSpace>, Tail)
    ensures space { result.0 ≡ option_map (λ past. past.space) before }
    ensures tail { IfSome before (λ past. result.1 ≡ past.tail) }
    ensures none { before ≡ None → IsTailOf None result.1 }
    ensures sound { before ≡ None → IsSoundTail result.1 }
{
    match before {
        Some(past) => (Some(past.space), past.tail),
        None => (None, Tail::none(alloc)),
    }
}

/// The recorded order of a segment that is right, and what is kept for the next one. That is the space after its whole log, and how
/// addresses may still be found to look otherwise; with `counts` also what is counted of it. `before` is what the segment before
/// left; without one the segment is the first of its chain. A trace is such a first one, without a start, touches and releases.
///
/// The space that is kept, where there is one, has the depth and the limit of the segment's layout. A segment with a start is then
/// compared with that space, and goes on from it; the first one begins with the pages of its start, or with none. The recorded order
/// has the updates by place, and each answered read after the entries that it saw.
///
/// Of a right one the events are a well-formed history. The order has all answered updates and reads and some unanswered updates, each
/// once, and keeps what came before what. Each answer is that of one sequential address space, from the space on with which the
/// segment begins. Each dump that is there translates every canonical address as that space does after so many updates as the replica
/// had applied. Each answered touch was answered as after a prefix of the whole run so far that is allowed for its address, or faulted
/// by a table that lags. No release is wrong. An update that its segment doesn't answer is never over. A refusal does not say that no
/// other order explains it.
///
/// Allocates memory beside the trace: at most 16 bytes for each event and 4 for each thread. Where there are more threads than events, it
/// is an entry of a map for each thread that makes a call. There are 8 bytes more for each event where there are touches or releases, or
/// updates of which one is a protect or has no reply, or updates behind something that was left open or behind a release. So there are for
/// the touches and releases, and for the changes of the space, which are done and undone. These are freed but for 4 bytes for each call of
/// the order; then come the pages of the space and what the check of a dump takes. It takes time for the segment's own events, log, start
/// and dumps, and for what was left open, and not for the pages of the space before. A segment without updates, touches and releases takes
/// none for what was left open. Only the first segment with releases lists all pages, in an index that is kept for the next ones: four rows
/// of 16 bytes for each page. With `counts` it allocates four bytes more for each event, 48 for each update that changes the space, and a
/// row of a map for each thread and address of a late fault.
///
/// # Errors
///
/// The first of the faults that hold, and `Memory` where a growth of memory was refused.
pub fn judge_segment(
    alloc: Global,
    segment: &Trace,
    before: Option<Past>,
    counts: bool,
) -> Result<(Order, Past, Option<Met>), Fail<Fault>>
    requires { IfSome before (FitsPast segment.now.layout) }
    ensures sound { (run : Option Run) → IsBehind run before segment.now
        → OnOk result (IsSoundAfter run segment.now) }
    ensures order { IfOk result (λ right. right.0 ≡ recorded_order segment.now) }
    ensures kept { (run : Option Run) → IsBehind run before segment.now
        → IfOk result (λ right. IsKept (run_after run segment.now) right.1) }
    ensures met { (run : Option Run) → IsBehind run before segment.now → IfOk result
        (λ right. IfSome right.2 (HasMet run (begins_in run segment.now) segment.now)) }
    ensures counted { IfOk result (λ right. is_some right.2 ≡ counts) }
    ensures fits { IfOk result (λ right. FitsPast segment.now.layout right.1) }
    ensures changes { IfSome before
        (λ past. IfOk result (λ right. KeepsChanges past.tail right.1.tail)) }
    ensures right { (run : Option Run) → IsBehind run before segment.now
        → IfOk result (λ right. IsRightAfter run segment.now right.0) }
    ensures first { (run : Option Run) → IsBehind run before segment.now
        → IfErr result (IfRefused (IsFirstAfter run segment.now)) }
{
    let parts = parts_of(alloc, before);
    let start = begin(alloc, segment, parts.0)?;
    search(alloc, segment, parts.1, start, counts)
}

/// Whether a trace is right: `Yes` with the recorded order of its calls where none of the faults holds, else `No` with the first.
/// The same for a segment that is the first one of its chain.
///
/// Takes what `judge_segment` takes, of which it is the case that no segment comes before: `Yes` says what that says.
///
/// # Errors
///
/// `Memory` where a growth of memory was refused.
pub fn judge(alloc: Global, trace: &Trace) -> Result<Verdict, Memory>
    ensures verdict { IfOk result (IsVerdictOn trace.now) }
    ensures yes { IsSoundAfter None trace.now
        → IfOk result (λ verdict. verdict ≡ Verdict.Yes (recorded_order trace.now)) }
    ensures no { (fault : Fault) → IsFirstAfter None trace.now fault
        → IfOk result (λ verdict. verdict ≡ Verdict.No fault) }
    ensures right { IfOk result (IfYes (IsRightAfter None trace.now)) }
{
    match judge_segment(alloc, trace, None, false) {
        Ok((order, _, _)) => Ok(Verdict::Yes(order)),
        Err(Fail::Memory) => Err(Memory),
        Err(Fail::Refused(fault)) => Ok(Verdict::No(fault)),
    }
}

/// The verdict on bytes of which this was read: the trace that they spell, which is judged, or `No` with their format fault.
///
/// Takes what `judge` takes.
///
/// # Errors
///
/// `Memory` where a growth of memory was refused, here or as the bytes were read.
pub fn judge_read(alloc: Global, read: Result<Trace, Fail<Format>>) -> Result<Verdict, Memory>
    ensures verdict { (bytes : List ℕ) → Reads bytes read → IfOk result (IsVerdictOf bytes) }
    ensures right { (bytes : List ℕ) → Reads bytes read → IfOk result (IfYes (AreRightWith bytes)) }
{
    match read {
        Ok(trace) => judge(alloc, &trace),
        Err(Fail::Memory) => Err(Memory),
        Err(Fail::Refused(fault)) => Ok(Verdict::No(Fault::Format(fault))),
    }
}

/// Whether bytes are those of a right trace: they are read, and what they spell is judged. `No` with a fault of the format
/// where they spell none.
///
/// Allocates memory for the trace, and what `judge` takes.
///
/// # Errors
///
/// `Memory` where a growth of memory was refused.
pub fn audit(alloc: Global, bytes: &[u8]) -> Result<Verdict, Memory>
    ensures verdict { IfOk result (IsVerdictOf bytes.now) }
    ensures yes { (trace : Recording) → Spells bytes.now trace → IsFaultless trace
        → IfOk result (λ verdict. verdict ≡ Verdict.Yes (recorded_order trace)) }
    ensures no { (fault : Fault) → IsFirstOf bytes.now fault
        → IfOk result (λ verdict. verdict ≡ Verdict.No fault) }
    ensures right { IfOk result (IfYes (AreRightWith bytes.now)) }
    ensures one_trace { IfOk result
        (IfYes (λ order. (trace : Recording) × SpellsAlone bytes.now trace)) }
    ensures events { IfOk result
        (IfYes (λ order. IsSpelledWith bytes.now IsWellFormedHistory)) }
    ensures members { IfOk result
        (IfYes (λ order. IsSpelledWith bytes.now (λ trace. HasItsCalls trace order))) }
    ensures precedence { IfOk result
        (IfYes (λ order. IsSpelledWith bytes.now (λ trace. KeepsPrecedence trace order))) }
    ensures answers { IfOk result
        (IfYes (λ order. IsSpelledWith bytes.now (λ trace. HasTheAnswers trace order))) }
    ensures dumps { IfOk result
        (IfYes (λ order. IsSpelledWith bytes.now (λ trace. HasFittingDumps trace order))) }
{
    judge_read(alloc, read(alloc, bytes))
}
