//! Laws of the definitions in `specs/`. Each function does nothing: its clauses say what holds of all bytes, traces and segments.

ghost use Rattle.std.specs.Prelude.{◌≡◌, ◌↔◌, ℕ, length, IfSome, List, Option, Some, None};
ghost use Rattle.vs_types.specs.Space.{IsSpace, Space};
ghost use Rattle.vs_walk.specs.Dump.{Image};
ghost use Rattle.vs_walk.specs.Walk.{TranslatesAs};
ghost use Rattle.nr_trace.specs.Recording.{Recording, IsRecording};
ghost use Rattle.nr_trace.specs.Faults.{IsFirst};
ghost use Rattle.nr_trace.specs.Laws.{HasCleanLog, IsFaultless};
ghost use Rattle.nr_trace.specs.declared.refusals.fault.Fault.{Fault};
ghost use Rattle.nr_audit.specs.Faults.{HasNoFaultAfter, IsFirstAfter, IsSoundAfter};
ghost use Rattle.nr_trace.specs.Joined.{joined_traces};
ghost use Rattle.nr_trace.specs.Run.{Run, end_of, IsOrderly};
ghost use Rattle.nr_touch.specs.Touches.{touch_behind, IsAnsweredInTime, IsRightBehind, IsRightTouch};
ghost use Rattle.nr_touch.specs.declared.touches.touch.Touch.{Touch};
ghost use Rattle.nr_audit.specs.Touches.{HasTouch};
ghost use Rattle.nr_audit.specs.Releases.{HasSettledReleases};
ghost use Rattle.nr_audit.specs.Start.{begins_in, space_before, start_space};
ghost use Rattle.nr_audit.specs.Headline.{AreRightWith};
ghost use Rattle.nr_audit.specs.Verdict.{IsTrace, IsVerdictOf, IsVerdictOn};
ghost use Rattle.nr_audit.specs.declared.verdicts.verdict.Verdict.{Verdict};
ghost use Rattle.nr_audit.specs.declared.verdicts.verdict.Verdict.TheVariants.{Yes};

/// The headline: where the verdict on bytes is yes, they are right with its order.
pub fn yes_means_right()
    ensures { (bytes order : List ℕ) → IsVerdictOf bytes (Yes order) → AreRightWith bytes order }
{}

/// Bytes, and traces, have one verdict only.
pub fn one_verdict()
    ensures of_bytes { (bytes : List ℕ) (first second : Verdict) → IsVerdictOf bytes first
        → IsVerdictOf bytes second → first ≡ second }
    ensures on_traces { (trace : Recording) (first second : Verdict) → IsVerdictOn trace first
        → IsVerdictOn trace second → first ≡ second }
{}

/// A trace is a segment without a start, touches and releases, the first of its chain: it is right as the one where it is right as the
/// other, and else it has the same first fault.
pub fn traces_are_first_segments()
    ensures sound { (trace : Recording) → IsTrace trace
        → IsSoundAfter None trace ↔ IsFaultless trace }
    ensures first { (trace : Recording) (fault : Fault) → IsTrace trace
        → IsFirstAfter None trace fault ↔ IsFirst trace fault }
{}

/// At most one fault of a segment is the first, where the space before it is given.
pub fn one_fault_of_a_segment_is_first()
    ensures { (before : Option Run) (segment : Recording) (fault other : Fault)
        → IsFirstAfter before segment fault → IsFirstAfter before segment other → fault ≡ other }
{}

/// The start of a segment in which no fault is found translates as the space with which the segment begins.
pub fn right_starts_translate()
    ensures { (before : Option Run) (segment : Recording) (start : Image) → IsRecording segment
        → segment.start ≡ Some start → IfSome (space_before before) (IsSpace segment.layout.depth)
        → HasNoFaultAfter before segment
        → TranslatesAs segment.layout.depth start.frames start.root (begins_in before segment) }
{}

/// A segment with a start that is right as the first one is right behind any run that leads to the space of its start. Where it gives
/// memory away, no address may still be found to look otherwise behind that run.
pub fn segments_go_on_from_their_starts()
    ensures { (segment : Recording) (start : Image) (run : Run) → IsRecording segment
        → IsOrderly run.trace → segment.layout ≡ run.trace.layout
        → segment.start ≡ Some start
        → start_space segment.layout.depth segment.start ≡ end_of run
        → HasSettledReleases run segment → IsSoundAfter None segment
        → IsSoundAfter (Some run) segment }
{}

/// The table of the only replica never lags: where a segment has one, a touch is right just where it is answered as its address was at a
/// moment that is allowed; by itself, and behind other segments.
pub fn one_replica_never_lags()
    ensures alone { (start : Space) (segment : Recording) (touch : Touch) → IsRecording segment
        → segment.layout.replicas ≡ 1 → HasCleanLog segment → HasTouch segment touch
        → IsRightTouch start segment touch ↔ IsAnsweredInTime start segment touch }
    ensures behind { (run : Run) (start : Space) (segment : Recording) (touch : Touch)
        → IsRecording segment → segment.layout.replicas ≡ 1 → HasCleanLog segment
        → HasTouch segment touch → IsOrderly run.trace
        → let whole : Recording = joined_traces run.trace segment in
        let later : Touch = touch_behind (length run.trace.events) (length run.trace.log) touch in
        IsRightBehind (Some run) start segment touch
        ↔ IsAnsweredInTime run.start whole later }
{}
