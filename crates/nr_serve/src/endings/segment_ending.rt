//! The end of a segment: its threads have ended, and what they hand back is cut off or settled, written down and judged.
ghost use Rattle.std.specs.Prelude.{◌≡◌, ◌+◌, All, IfOk, IfSome, IsTrue, Option, length, map};
ghost use Rattle.vs_types.specs.Config.{Layout};
ghost use Rattle.nr_trace.specs.Parts.{HasFrames};
ghost use Rattle.nr_trace.specs.Spelling.{SpellsSegment};
ghost use Rattle.nr_trace.specs.declared.formats.version.Version.TheVariants.{Segment};
ghost use Rattle.nr_replicas.specs.Settled.{IsCut, IsSettled};
ghost use Rattle.nr_record.specs.Events.{AreEventsOf};
ghost use Rattle.nr_record.specs.Pen.{AreAllPens};
ghost use Rattle.nr_serve.specs.SegmentRun.{IsAnswer};
ghost use Rattle.nr_serve.specs.inside.Calls.{since};
ghost use Rattle.nr_serve.specs.inside.SegmentEnd.{IsEndOf, MayEnd};

use crate::endings::call_outcome::CallOutcome;
use crate::endings::ending::Parts;
use crate::endings::outcome::{Answers, Passes, TraceBytes};
use crate::endings::segment_outcome::SegmentOutcome;
use crate::instances::no_segment::NoSegment;
use crate::threading::chain_run::{Between, ChainRun};
use nr_audit::{Past, judge_segment};
use nr_record::{Clock, Pen, finish_segment};
use nr_replicas::{Cut, Replicas, ReplicasName};
use nr_ring::{LogName, LogPass};
use nr_trace::{Trace, write};
use std::alloc::Global;
use vs_types::{Config, Fail, LOG_PLACES, Memory};
use vs_walk::Dump;

/// A segment, and its bytes.
#[derive(Drop)]
struct Written {
    trace: Trace,
    bytes: Vec<u8>,
}

/// Whether each of these calls was answered.
fn are_answered(items: &[CallOutcome]) -> bool
    ensures yes { IsTrue result → All IsAnswer items.now }
    ensures no { All IsAnswer items.now → IsTrue result }
{
    for item in items {
        match item {
            CallOutcome::Answer(_, _) => {}
            CallOutcome::Stopped => return false,
        }
    }
    true
}

/// Whether each call of all threads was answered.
fn all_answered(answers: &[Vec<CallOutcome>]) -> bool
    ensures yes { IsTrue result → All (λ items. All IsAnswer items.items) answers.now }
    ensures no { All (λ items. All IsAnswer items.items) answers.now → IsTrue result }
{
    for items in answers {
        if !are_answered(items) {
            return false;
        }
    }
    true
}

/// The segment of what the pens were given, with these calls of the log and these dumps.
fn written_segment(
    alloc: Global,
    clock: Clock,
    pens: Vec<Pen>,
    config: Config,
    calls: Vec<u32>,
    dumps: Vec<Dump>,
) -> Result<Written, Fail<NoSegment>>
    requires config { config ≡ clock.layout }
    requires pens { AreAllPens clock pens.items }
    requires dumps { (length dumps.items ≡ config.replicas)
        × All (HasFrames Segment) dumps.items }
    ensures layout { IfOk result (λ written. written.trace.layout ≡ config) }
    ensures recorded { IfOk result (λ written. AreEventsOf written.trace.events pens.items) }
    ensures calls { IfOk result (λ written. written.trace.log ≡ calls.items) }
    ensures spelled { (before : Option Layout) → IfSome before (λ layout. layout ≡ config)
        → IfOk result (λ written. SpellsSegment before written.bytes.items written.trace) }
{
    if calls.len() > LOG_PLACES as usize {
        return Err(Fail::Refused(NoSegment::NotCut));
    }
    let trace = finish_segment(alloc, clock, pens, config, calls, dumps)?;
    let bytes = write(alloc, &trace)?;
    Ok(Written { trace, bytes })
}

/// Cuts the log: the cut, and the passes, which have then seen the whole log.
fn cut_log<J: LogName, K: ReplicasName>(
    replicas: Replicas<J, K>,
    passes: Vec<LogPass<J>>,
) -> Result<(Cut<J>, Vec<LogPass<J>>), Fail<NoSegment>>
    requires { All (λ pass. pass.log ≡ K.log) passes.items }
    ensures opened { IfOk result (λ made. (made.0.replicas.log ≡ K.log)
        × (made.0.replicas.layout ≡ replicas)
        × (made.0.replicas.base ≡ K.base + length made.0.calls.items)) }
    ensures cut { IfOk result (λ made.
        IsCut J.depth J.replicas J.places K.tables K.base passes.items made.1.items
        made.0.calls.items made.0.dumps.items) }
    ensures count { IfOk result (λ made. length made.1.items ≡ length passes.items) }
    ensures log { IfOk result (λ made. All (λ pass. pass.log ≡ K.log) made.1.items) }
{
    let mut passes = passes;
    match replicas.cut(&mut passes) {
        Ok(cut) => Ok((cut, passes)),
        Err(Fail::Memory) => Err(Fail::Memory),
        Err(Fail::Refused(_)) => Err(Fail::Refused(NoSegment::NotCut)),
    }
}

/// Settles the replicas: the calls since the last cut, the dumps, and the passes as they were.
fn settled<J: LogName, K: ReplicasName>(
    replicas: Replicas<J, K>,
    passes: Vec<LogPass<J>>,
) -> Result<(Vec<u32>, Vec<Dump>, Vec<LogPass<J>>), Memory>
    requires { All (λ pass. pass.log ≡ K.log) passes.items }
    ensures settled { IfOk result (λ made.
        IsSettled J.depth J.replicas J.places K.tables K.base passes.items made.0.items made.1.items) }
    ensures passes { IfOk result (λ made. made.2.items ≡ passes.items) }
{
    let mut passes = passes;
    let (calls, dumps) = replicas.settle(&mut passes)?;
    Ok((calls, dumps, passes))
}

/// The end of a segment whose requests are all answered: the log is cut, and the run goes on.
fn going_on<J: LogName, K: ReplicasName>(
    alloc: Global,
    clock: Clock,
    replicas: Replicas<J, K>,
    config: Config,
    past: Option<Past>,
    parts: Parts<J>,
) -> Result<SegmentOutcome<J>, Fail<NoSegment>>
    requires ended { MayEnd J.depth J.replicas clock (since K.log K.base) replicas config past
        parts.pens.items parts.passes.items }
    requires answered { All (λ items. All IsAnswer items.items) parts.answers.items }
    ensures { IfOk result
        (IsEndOf clock (since K.log K.base) config past parts.pens.items parts.passes.items
        (map (λ said. said.items) parts.answers.items)) }
{
    let Parts {
        pens,
        passes,
        answers,
    } = parts;
    let (cut, passes) = cut_log(replicas, passes)?;
    let Cut {
        calls,
        dumps,
        replicas: opened,
    } = cut;
    let Written { trace, bytes } = written_segment(alloc, clock, pens, config, calls, dumps)?;
    let bytes = TraceBytes::of(bytes);
    match judge_segment(alloc, &trace, past, false) {
        Ok((order, after, _)) => {
            let answers = Answers::of(answers);
            let past = Some(after);
            let between = Between {
                opened,
                passes,
                config,
                past,
            };
            let run = ChainRun { between };
            Ok(SegmentOutcome::Right {
                answers,
                bytes,
                order,
                run,
            })
        }
        Err(Fail::Memory) => Err(Fail::Memory),
        Err(Fail::Refused(fault)) => Ok(SegmentOutcome::Wrong { bytes, fault }),
    }
}

/// The end of the last segment: the replicas are settled.
fn last<J: LogName, K: ReplicasName>(
    alloc: Global,
    clock: Clock,
    replicas: Replicas<J, K>,
    config: Config,
    past: Option<Past>,
    parts: Parts<J>,
) -> Result<SegmentOutcome<J>, Fail<NoSegment>>
    requires ended { MayEnd J.depth J.replicas clock (since K.log K.base) replicas config past
        parts.pens.items parts.passes.items }
    requires stopped { All (λ items. All IsAnswer items.items) parts.answers.items → ⊥ }
    ensures { IfOk result
        (IsEndOf clock (since K.log K.base) config past parts.pens.items parts.passes.items
        (map (λ said. said.items) parts.answers.items)) }
{
    let Parts {
        pens,
        passes,
        answers,
    } = parts;
    let (calls, dumps, passes) = settled(replicas, passes)?;
    let Written { trace, bytes } = written_segment(alloc, clock, pens, config, calls, dumps)?;
    let bytes = TraceBytes::of(bytes);
    match judge_segment(alloc, &trace, past, false) {
        Ok((order, _after, _)) => {
            let answers = Answers::of(answers);
            let passes = Passes::of(passes);
            Ok(SegmentOutcome::Last {
                answers,
                bytes,
                order,
                passes,
            })
        }
        Err(Fail::Memory) => Err(Fail::Memory),
        Err(Fail::Refused(fault)) => Ok(SegmentOutcome::Wrong { bytes, fault }),
    }
}

/// What comes of a segment whose threads have ended and handed this back.
///
/// It allocates memory.
///
/// # Errors
///
/// `NotCut` where an update has no answer though no thread was stopped, or out of memory.
pub(crate) fn segment_ending<J: LogName, K: ReplicasName>(
    alloc: Global,
    clock: Clock,
    replicas: Replicas<J, K>,
    config: Config,
    past: Option<Past>,
    parts: Parts<J>,
) -> Result<SegmentOutcome<J>, Fail<NoSegment>>
    requires { MayEnd J.depth J.replicas clock (since K.log K.base) replicas config past
        parts.pens.items parts.passes.items }
    ensures { IfOk result
        (IsEndOf clock (since K.log K.base) config past parts.pens.items parts.passes.items
        (map (λ said. said.items) parts.answers.items)) }
{
    if all_answered(&parts.answers) {
        going_on(alloc, clock, replicas, config, past, parts)
    } else {
        last(alloc, clock, replicas, config, past, parts)
    }
}
