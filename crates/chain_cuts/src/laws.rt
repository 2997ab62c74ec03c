//! Laws of cuts. Each function does nothing: its clauses say what holds of all runs.

ghost use Rattle.std.specs.Prelude.{◌≡◌, ◌∷◌, ◌⊎◌, ◌↔◌, [], length, ℕ, List, Option, None, Some};
ghost use Rattle.vs_types.specs.Config.{Layout};
ghost use Rattle.vs_types.specs.Space.{Space};
ghost use Rattle.nr_trace.specs.Laws.{HasCleanLog, IsFaultlessFrom};
ghost use Rattle.nr_trace.specs.Orders.{recorded_order, space_from};
ghost use Rattle.nr_trace.specs.Recording.{Recording};
ghost use Rattle.nr_audit.specs.Faults.{IsSoundAfter};
ghost use Rattle.nr_audit.specs.Releases.{HasRightReleases};
ghost use Rattle.nr_audit.specs.Touches.{HasRightTouches, HasTouch};
ghost use Rattle.nr_touch.specs.Touches.{IsRightBehind};
ghost use Rattle.nr_touch.specs.declared.touches.touch.Touch.{Touch};
ghost use Rattle.nr_chain.specs.Bytes.{GoesOnSo, SpellsChain};
ghost use Rattle.nr_chain.specs.Headline.{traces};
ghost use Rattle.nr_trace.specs.Joined.{joined_traces};
ghost use Rattle.nr_trace.specs.Run.{Run, run_with};
ghost use Rattle.nr_chain.specs.Joined.{joined, Segment};
ghost use Rattle.nr_chain.specs.Run.{AreFaultlessFrom};
ghost use Rattle.chain_cuts.specs.Cut.{orders_of, without_dumps, AreCut, AreRecorded, AreSoundAfter, HaveAllCaughtUp, HaveCaughtUp, HaveNoStarts};
ghost use Rattle.chain_cuts.specs.Cut.{IsCutAt, IsSameRun, MayCome};
ghost use Rattle.chain_cuts.specs.Moments.{HadCaughtUp, IsOfSecond, Moments, ShowBehind, touch_in_both, until_cut};

/// Let a run be cut in two, where a thread with a call open at the cut makes none behind it. The run has no fault exactly where the two have
/// none, the second from the space after the first, but perhaps of touches and releases. Dumps are of the second alone, and each has applied the
/// whole log of the first: of a run with a dump of fewer entries nothing is said.
pub fn a_cut_makes_no_difference()
    ensures { (start : Space) (first second : Recording) → second.layout ≡ first.layout
        → IsCutAt first second → IsFaultlessFrom start (joined_traces first second)
        ↔ (IsFaultlessFrom start (without_dumps first)
        × IsFaultlessFrom (space_from start first first.log) second) }
{}

/// So it is with several cuts, where no dump is there of a segment but the last.
pub fn cuts_make_no_difference()
    ensures whole { (start : Space) (layout : Layout) (first : Segment) (more : List Segment)
        → AreCut first more → AreFaultlessFrom start layout (first ∷ more)
        → IsFaultlessFrom start (joined first more).trace }
    ensures order { (start : Space) (layout : Layout) (first : Segment) (more : List Segment)
        → AreCut first more → AreFaultlessFrom start layout (first ∷ more)
        → (joined first more).order ≡ recorded_order (joined first more).trace }
    ensures segments { (start : Space) (layout : Layout) (first : Segment) (more : List Segment)
        → AreCut first more → AreRecorded layout (first ∷ more)
        → IsFaultlessFrom start (joined first more).trace
        → AreFaultlessFrom start layout (first ∷ more) }
{}

/// Take a run as one segment, and the same run cut in segments, where a thread with a call open at a cut makes none behind it. The one is sound
/// where the others are, one behind the other. Where bytes that spell the others are found right with their orders, those that spell the one are
/// found right with its order. Dumps are taken at the end alone. The other way round it is so too, if no cut gives a segment a start of its own
/// and each replica that lags behind a cut has caught up at it. A touch that faults by a table that lags from before a cut isn't right behind
/// the cut.
pub fn a_cut_keeps_the_verdict()
    ensures as_one { (before : Option Run) (first : Segment) (more : List Segment)
        → MayCome before first.trace.layout → AreCut first more
        → AreRecorded first.trace.layout (first ∷ more)
        → AreSoundAfter before (first ∷ more) → IsSoundAfter before (joined first more).trace }
    ensures apart { (before : Option Run) (first : Segment) (more : List Segment)
        → MayCome before first.trace.layout → AreCut first more
        → AreRecorded first.trace.layout (first ∷ more) → HaveNoStarts more
        → HaveAllCaughtUp first more
        → IsSoundAfter before (joined first more).trace → AreSoundAfter before (first ∷ more) }
    ensures bytes_as_one { (whole cut : List ℕ) (run : Recording) (first : Segment)
        (more : List Segment) → SpellsChain whole run []
        → SpellsChain cut first.trace (traces more)
        → IsSameRun run (joined first more).trace → AreCut first more
        → AreRecorded first.trace.layout (first ∷ more)
        → GoesOnSo None cut (orders_of (first ∷ more)) None
        → GoesOnSo None whole ((joined first more).order ∷ []) None }
    ensures bytes_apart { (whole cut : List ℕ) (run : Recording) (first : Segment)
        (more : List Segment) → SpellsChain whole run []
        → SpellsChain cut first.trace (traces more)
        → IsSameRun run (joined first more).trace → AreCut first more
        → AreRecorded first.trace.layout (first ∷ more) → HaveNoStarts more
        → HaveAllCaughtUp first more
        → GoesOnSo None whole ((joined first more).order ∷ []) None
        → GoesOnSo None cut (orders_of (first ∷ more)) None }
{}

/// A run that is cut in two, anywhere, has right touches where the two have, the second behind the first: also where an update before the
/// cut is never answered. The other way round it is so too, where each replica has caught up at the cut that a touch behind it shows to
/// lag.
pub fn a_cut_keeps_the_touches()
    ensures as_one { (before : Option Run) (start : Space) (first second : Recording)
        → MayCome before first.layout → second.layout ≡ first.layout → HasCleanLog first
        → HasRightTouches before start first
        → HasRightTouches (Some (run_with before start first))
        (space_from start first first.log) second
        → HasRightTouches before start (joined_traces first second) }
    ensures apart { (before : Option Run) (start : Space) (first second : Recording)
        → MayCome before first.layout → second.layout ≡ first.layout → HasCleanLog first
        → HaveCaughtUp first second → HasRightTouches before start (joined_traces first second)
        → HasRightTouches before start first × HasRightTouches
        (Some (run_with before start first)) (space_from start first first.log) second }
{}

/// Each touch of two runs as one is a touch of the first, or one of the second (`touches`). The moments that show a touch to be right are the
/// same on its side of a cut and in the two runs as one. A moment past the first run counts as
/// its end, on the side before the cut. And the moment of a table that lagged is one behind the cut where its replica has caught up there.
pub fn a_cut_keeps_the_moments()
    ensures right { (before : Option Run) (start : Space) (segment : Recording) (touch : Touch)
        → IsRightBehind before start segment touch
        ↔ ((moments : Moments) × ShowBehind before start segment touch moments) }
    ensures touches { (first second : Recording) (touch : Touch) → HasCleanLog first
        → HasTouch (joined_traces first second) touch
        ↔ (HasTouch first touch ⊎ IsOfSecond first second touch) }
    ensures first { (before : Option Run) (start : Space) (first second : Recording)
        (touch : Touch) (moments : Moments) → MayCome before first.layout
        → second.layout ≡ first.layout → HasCleanLog first → HasTouch first touch
        → ShowBehind before start first touch moments
        → ShowBehind before start (joined_traces first second) touch moments }
    ensures first_apart { (before : Option Run) (start : Space) (first second : Recording)
        (touch : Touch) (moments : Moments) → MayCome before first.layout
        → second.layout ≡ first.layout → HasCleanLog first → HasTouch first touch
        → ShowBehind before start (joined_traces first second) touch moments
        → ShowBehind before start first touch
        (until_cut (length (run_with before start first).trace.log) moments) }
    ensures second { (before : Option Run) (start : Space) (first second : Recording)
        (touch : Touch) (moments : Moments)
        → second.layout ≡ first.layout → HasCleanLog first → HasTouch second touch
        → ShowBehind (Some (run_with before start first)) (space_from start first first.log)
        second touch moments → ShowBehind before start (joined_traces first second)
        (touch_in_both first second touch) moments }
    ensures second_apart { (before : Option Run) (start : Space) (first second : Recording)
        (touch : Touch) (moments : Moments)
        → second.layout ≡ first.layout → HasCleanLog first → HasTouch second touch
        → HadCaughtUp first second touch moments
        → ShowBehind before start (joined_traces first second)
        (touch_in_both first second touch) moments
        → ShowBehind (Some (run_with before start first)) (space_from start first first.log)
        second touch moments }
{}

/// A run that is cut in two, anywhere, has right releases exactly where the two have, the second behind the first.
pub fn a_cut_keeps_the_releases()
    ensures { (before : Option Run) (start : Space) (first second : Recording)
        → MayCome before first.layout → second.layout ≡ first.layout → HasCleanLog first
        → HasRightReleases before start (joined_traces first second)
        ↔ (HasRightReleases before start first × HasRightReleases
        (Some (run_with before start first)) (space_from start first first.log) second) }
{}
