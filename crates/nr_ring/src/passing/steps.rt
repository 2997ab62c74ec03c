//! The steps on the cell of a log keep its rule. Each function does nothing: its clauses say what holds of every cell.
ghost use Rattle.std.specs.Prelude.{◌≡◌, ℕ, ◌<◌, ◌≤◌, List, [], ◌∷◌, count_by, length, nat_le, slice_set};
ghost use mathlib.Core.Option.{some};
ghost use lib.ListN.{get_elem?};
ghost use Rattle.crossbeam_utils.specs.Register.{Forks, Merges, Turns};
ghost use Rattle.version_cell.specs.Words.{Leaves};
ghost use Rattle.vs_types.specs.declared.addresses.depth.Depth.{Depth};
ghost use Rattle.nr_ring.specs.Calls.{AreCut, IsCut, Looks, MayMake, joint_view, left_view, offshoot, empty_view, with_event};
ghost use Rattle.nr_ring.specs.LogHistory.{MayFollow, log_after, log_after_event, tail};
ghost use Rattle.nr_ring.specs.Laws.{IsMaker};
ghost use Rattle.nr_ring.specs.Rule.{IsKept};
ghost use Rattle.nr_ring.specs.Words.{Lasts, Needs, stored_after_event};
ghost use Rattle.nr_ring.specs.declared.ring.log_event.LogEvent.{LogEvent};
ghost use Rattle.nr_ring.specs.declared.cells.stored.Stored.{Stored};
ghost use Rattle.nr_ring.specs.declared.ring.view.View.{View};

/// A load of the cell keeps the rule, and is a look.
pub fn looks_keep_the_rule()
    ensures { (depth : Depth) (replicas passes places pass : ℕ) (v : View)
        → Turns (IsKept depth replicas passes places) pass v (λ x. x)
        (λ before x found after. Looks depth replicas passes places found before after) }
{}

/// Where the value is what a pass has seen, an exchange of it for that after one event more keeps the rule. The event may follow, and
/// the log has the places. The pass has a right, where it is an advance the pass owns the replica, and the ring is that of a pass.
pub fn events_keep_the_rule()
    ensures { (depth : Depth) (replicas passes places pass ring : ℕ) (v : View) (event : LogEvent)
        (stored : Stored) (views : List View)
        → IsKept depth replicas passes places stored views → get_elem? views pass ≡ some v
        → stored.history ≡ v.seen → ring < passes
        → MayFollow depth (log_after replicas v.seen) event → MayMake v event
        → tail (log_after_event (log_after replicas v.seen) event) ≤ places
        → IsKept depth replicas passes places (stored_after_event ring stored event)
        (slice_set views pass (with_event v event)) }
{}

/// And it leaves each word that another pass counts on: one that a replica of that pass needs, which nobody else advances.
pub fn events_leave_what_lasts()
    ensures { (depth : Depth) (replicas passes places pass ring : ℕ) (v : View) (event : LogEvent)
        (stored : Stored)
        → MayFollow depth (log_after replicas v.seen) event → MayMake v event
        → tail (log_after_event (log_after replicas v.seen) event) ≤ places
        → Leaves (IsKept depth replicas passes places) (Needs replicas) (Lasts replicas) pass v stored
        (stored_after_event ring stored event) }
{}

/// Splitting a pass keeps the rule: the new pass has seen as much, has made nothing, and takes some of the replicas and of the
/// rights that the other had.
pub fn splits_keep_the_rule()
    ensures { (depth : Depth) (replicas passes places pass : ℕ) (v : View) (kept given : List ℕ)
        (left right : ℕ) → IsCut v.owns kept given → AreCut v left right
        → Forks (IsKept depth replicas passes places) pass v
        (left_view v kept left) (offshoot v given right) }
{}

/// Joining a pass that has made nothing keeps the rule. It says nothing of how the two lists that were seen compare; the next
/// look shows that both are beginnings of what it sees.
pub fn joins_keep_the_rule()
    ensures { (depth : Depth) (replicas passes places pass other : ℕ) (v w : View) → w.mine ≡ []
        → Merges (IsKept depth replicas passes places) pass v other w (joint_view v w) empty_view }
{}

/// The rule holds of a new log, whose first pass has seen and made nothing and has all rights, whatever it owns.
pub fn new_logs_keep_the_rule()
    ensures { (depth : Depth) (replicas places : ℕ) (v : View)
        → v.seen ≡ [] → v.mine ≡ [] → v.told ≡ []
        → IsKept depth replicas v.rights places (record { history = []; rings = [] }) (v ∷ []) }
{}

/// Each event was made by a pass that has a right, and no more passes have one than the log has rights.
pub fn makers_have_rights()
    ensures maker { (depth : Depth) (replicas passes places : ℕ) (stored : Stored) (views : List View)
        → IsKept depth replicas passes places stored views → (number : ℕ)
        → number < length stored.history → (pass : ℕ) × IsMaker views number pass }
    ensures few { (depth : Depth) (replicas passes places : ℕ) (stored : Stored) (views : List View)
        → IsKept depth replicas passes places stored views
        → count_by (λ view. nat_le 1 view.rights) views ≤ passes }
{}
