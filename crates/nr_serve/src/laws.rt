//! Laws of runs in segments. Each function does nothing: its clause says what holds of all of them.
ghost use Rattle.std.specs.Prelude.{◌≡◌, ◌≤◌, ℕ, List, None, [], ◌∷◌, ◌++◌};
ghost use Rattle.vs_types.specs.Config.{Layout};
ghost use Rattle.nr_chain.specs.Fed.{IsKeptOf};
ghost use Rattle.nr_chain.specs.Headline.{IsRightChain};
ghost use Rattle.nr_ring.specs.Pass.{Known, TableId};
ghost use Rattle.nr_ring.specs.declared.ring.log_event.LogEvent.{LogEvent};
ghost use Rattle.nr_serve.specs.ChainOfRun.{logs_of, orders_of, run_through, RunsOn};
ghost use Rattle.nr_serve.specs.Run.{IsLogOf};
ghost use Rattle.nr_serve.specs.RunState.{HasOneLog, new_run, RunState};
ghost use Rattle.nr_serve.specs.SegmentRun.{GoesOn, IsRightSegment, Ran};

/// A run goes on by a segment that is right from where it has come to, behind which its log is cut.
pub fn runs_go_on_by_segments()
    ensures { (state mid end : RunState) (bytes : List ℕ) (segments : List Ran) (segment : Ran)
        (passes : List Known) (history : List LogEvent) → RunsOn state bytes segments mid
        → IsRightSegment mid segment passes history → GoesOn mid segment history end
        → RunsOn state (bytes ++ segment.bytes) (segments ++ segment ∷ []) end }
{}

/// What is kept of a run is kept of its segments so far, as one: what is said of the next segment behind each such run is said of it behind
/// these.
pub fn runs_are_kept()
    ensures { (layout : Layout) (log : TableId) (bytes : List ℕ) (segments : List Ran)
        (end : RunState) → RunsOn (new_run layout log) bytes segments end
        → IsKeptOf (run_through None segments) end.kept }
{}

/// The bytes of a run of one segment or more are one chain, which is right with the orders of its segments; and so they are with a last
/// segment, in which a thread was stopped.
pub fn runs_are_right_chains()
    ensures all { (layout : Layout) (log : TableId) (bytes : List ℕ) (first : Ran)
        (more : List Ran) (end : RunState)
        → RunsOn (new_run layout log) bytes (first ∷ more) end
        → IsRightChain bytes (orders_of (first ∷ more)) }
    ensures last { (layout : Layout) (log : TableId) (bytes : List ℕ) (segments : List Ran)
        (end : RunState) (segment : Ran) (passes : List Known) (history : List LogEvent)
        → RunsOn (new_run layout log) bytes segments end
        → IsRightSegment end segment passes history
        → IsRightChain (bytes ++ segment.bytes) (orders_of (segments ++ segment ∷ [])) }
{}

/// The logs of a run's segments, one after the other, are one log, which the passes of its threads have seen. With a last segment they are one
/// log too, up to the end of a history that begins with all that each of the passes has seen.
pub fn runs_have_one_log()
    ensures all { (layout : Layout) (log : TableId) (bytes : List ℕ) (segments : List Ran)
        (end : RunState) → 1 ≤ layout.threads
        → RunsOn (new_run layout log) bytes segments end → HasOneLog end (logs_of segments) }
    ensures last { (layout : Layout) (log : TableId) (bytes : List ℕ) (segments : List Ran)
        (end : RunState) (segment : Ran) (passes : List Known) (history : List LogEvent)
        → 1 ≤ layout.threads → RunsOn (new_run layout log) bytes segments end
        → IsRightSegment end segment passes history
        → IsLogOf layout (logs_of (segments ++ segment ∷ [])) passes }
{}
