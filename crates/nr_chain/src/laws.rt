//! Laws of the definitions in `specs/`. Each function does nothing: its clauses say what holds of all runs.

ghost use Rattle.std.specs.Prelude.{◌≡◌, ◌++◌, ◌∷◌, ℕ, length, List};
ghost use Rattle.vs_types.specs.Config.{Layout};
ghost use Rattle.vs_types.specs.Space.{Space};
ghost use Rattle.nr_trace.specs.Calls.{IsAnswered, IsCall, IsWellFormedHistory};
ghost use Rattle.nr_trace.specs.Laws.{HasCleanLog};
ghost use Rattle.nr_trace.specs.Orders.{recorded_order};
ghost use Rattle.nr_trace.specs.Recording.{Recording};
ghost use Rattle.nr_trace.specs.Joined.{calls_behind, joined_traces};
ghost use Rattle.nr_chain.specs.Joined.{joined, Segment};
ghost use Rattle.nr_chain.specs.Run.{AreFaultlessFrom, AreRightFrom, IsHistory, IsRightRun};
ghost use Rattle.nr_chain.specs.Run.{space_behind, space_behind_all};

/// If each segment is right from the space after those before it, but perhaps its touches and releases, so is the run of them all.
pub fn right_segments_are_a_right_run()
    ensures { (start : Space) (first : Segment) (more : List Segment)
        → AreRightFrom start first.trace.layout (first ∷ more) → IsRightRun start first more }
{}

/// Segments without a fault but perhaps of touches and releases, each with the order that it records, are right but for these.
pub fn faultless_segments_are_right()
    ensures { (start : Space) (layout : Layout) (segments : List Segment)
        → AreFaultlessFrom start layout segments → AreRightFrom start layout segments }
{}

/// Parts of a chain, of which the second begins with the space after the first, are right, or without a fault, as one: but perhaps for
/// touches and releases.
pub fn parts_are_right_as_one()
    ensures right { (start : Space) (layout : Layout) (front rest : List Segment)
        → AreRightFrom start layout front → AreRightFrom (space_behind_all start front) layout rest
        → AreRightFrom start layout (front ++ rest) }
    ensures faultless { (start : Space) (layout : Layout) (front rest : List Segment)
        → AreFaultlessFrom start layout front
        → AreFaultlessFrom (space_behind_all start front) layout rest
        → AreFaultlessFrom start layout (front ++ rest) }
{}

/// Two runs in segments that are right but perhaps for touches and releases, of which the second begins with the space after the first, are
/// so as one.
pub fn right_runs_are_right_as_one()
    ensures { (start : Space) (first next : Segment) (more rest : List Segment)
        → next.trace.layout ≡ first.trace.layout → IsRightRun start first more
        → IsRightRun (space_behind start (joined first more)) next rest
        → IsRightRun start first (more ++ next ∷ rest) }
{}

/// The space after a run is the one after its segments, one after another.
pub fn spaces_go_on_by_segments()
    ensures { (start : Space) (first : Segment) (more : List Segment)
        → AreRightFrom start first.trace.layout (first ∷ more)
        → space_behind start (joined first more) ≡ space_behind_all start (first ∷ more) }
{}

/// Two runs record, as one, the order of the first, and behind it that of the second.
pub fn recorded_orders_follow()
    ensures { (first second : Recording) → HasCleanLog first
        → recorded_order (joined_traces first second)
        ≡ recorded_order first ++ calls_behind (length first.events) (recorded_order second) }
{}

/// A well-formed history is one of threads that wait for each reply that comes; and so is that of two runs, which is
/// well formed where all calls of the first are answered.
pub fn histories_follow()
    ensures waits { (trace : Recording) → IsWellFormedHistory trace → IsHistory trace }
    ensures follow { (first second : Recording) → IsHistory first → IsHistory second
        → IsHistory (joined_traces first second) }
    ensures closed { (first second : Recording) → IsWellFormedHistory first
        → IsWellFormedHistory second
        → ((call : ℕ) → IsCall first call → IsAnswered first call)
        → IsWellFormedHistory (joined_traces first second) }
{}
