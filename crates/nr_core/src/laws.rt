//! What holds of every state that steps reach, whatever the layout, the scripts and the list of steps. Each function does nothing:
//! its clauses say what holds.

ghost use Rattle.std.specs.Prelude.{◌≡◌, ◌↔◌, ℕ, Some, slice_get};
ghost use Rattle.nr_core.specs.Laws.{answer_noted, HasHolder, HoldsLockOf, IsTaken};
ghost use Rattle.nr_core.specs.Run.{IsReachable};
ghost use Rattle.nr_core.specs.State.{State, Replica};
ghost use Rattle.nr_core.specs.Steps.{answer, noted_for};
ghost use Rattle.nr_core.specs.declared.states.stage.Answered.{Answered};

/// An answer is noted for a thread only while its update is taken, and is the answer of that call. So `Answer` is the same step
/// whether it asks that the update is taken, or for the note alone.
pub fn noted_answers_are_of_taken_updates()
    ensures taken { (state : State) (r s : ℕ) (replica : Replica) (answered : Answered)
        → IsReachable state → slice_get state.replicas r ≡ Some replica
        → noted_for s replica ≡ Some answered → IsTaken state.threads s answered.call }
    ensures same_step { (state : State) (t s : ℕ) → IsReachable state
        → answer state t s ≡ answer_noted state t s }
{}

/// A thread holds a replica's lock exactly where the replica says that this thread does. So no two threads hold one lock.
pub fn threads_and_replicas_agree_on_locks()
    ensures both { (state : State) (t r : ℕ) → IsReachable state
        → HoldsLockOf state t r ↔ HasHolder state r t }
    ensures alone { (state : State) (t u r : ℕ) → IsReachable state → HoldsLockOf state t r
        → HoldsLockOf state u r → t ≡ u }
{}
