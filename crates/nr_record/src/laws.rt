//! Laws of the definitions in `specs/`. Each function does nothing: its clauses say what holds of every clock.
ghost use Rattle.std.specs.Prelude.{◌≡◌, ℕ, ◌+◌, ◌*◌, ◌<◌, ◌≤◌, List, [], ◌∷◌, ◌++◌, length, slice_index, slice_set};
ghost use mathlib.Core.Option.{some};
ghost use lib.ListN.{get_elem?};
ghost use Rattle.vs_types.specs.declared.limits.TheConstants.{LOG_PLACES};
ghost use Rattle.nr_record.specs.Rule.{HasDrawn, IsKept, given, joint_seat, left_seat, new_view, empty_seat, with_stamp};
ghost use Rattle.nr_record.specs.Stamps.{AreBelow};
ghost use Rattle.nr_record.specs.declared.view.Plan.{Plan};
ghost use Rattle.nr_record.specs.declared.view.View.{View};

/// The rule holds of a new word, which is 0, and of its first seat, which may draw for all calls.
pub fn new_clocks_keep_the_rule()
    ensures { (plan : Plan) → plan.calls ≤ LOG_PLACES
        → IsKept plan.calls (0 ∷ []) (new_view plan ∷ []) }
{}

/// Splitting a seat keeps the rule: it gives a part of its quota to the new seat.
pub fn splits_keep_the_rule()
    ensures { (calls quota seat : ℕ) (words : List ℕ) (views : List View) (v : View)
        → IsKept calls words views → get_elem? views seat ≡ some v
        → quota ≤ v.quota → v.stamps ≡ []
        → IsKept calls words (slice_set views seat (left_seat quota v) ++ given quota v ∷ []) }
{}

/// Drawing keeps the rule: a seat with quota left draws the word, which is then greater by one, and no other seat has drawn that stamp.
pub fn draws_keep_the_rule()
    ensures kept { (calls seat : ℕ) (words : List ℕ) (views : List View) (v : View)
        → IsKept calls words views → get_elem? views seat ≡ some v
        → length v.stamps < 2 * v.quota
        → IsKept calls (slice_set words 0 (slice_index words 0 + 1))
        (slice_set views seat (with_stamp v (slice_index words 0))) }
    ensures drawn { (calls seat : ℕ) (words : List ℕ) (views : List View) (v : View)
        → IsKept calls words views → get_elem? views seat ≡ some v
        → length v.stamps < 2 * v.quota
        → HasDrawn v (slice_index words 0) (with_stamp v (slice_index words 0)) }
{}

/// Joining two seats keeps the rule.
pub fn joins_keep_the_rule()
    ensures { (calls seat other : ℕ) (words : List ℕ) (views : List View) (v w : View)
        → IsKept calls words views → get_elem? views seat ≡ some v
        → get_elem? views other ≡ some w → (other ≡ seat → ⊥)
        → IsKept calls words (slice_set (slice_set views seat (joint_seat v w)) other empty_seat) }
{}

/// A seat that has the quotas of all calls has all stamps: they are the numbers below the word, each once.
pub fn whole_quotas_have_all_stamps()
    ensures { (calls seat : ℕ) (words : List ℕ) (views : List View) (v : View)
        → IsKept calls words views → get_elem? views seat ≡ some v
        → v.quota ≡ calls → AreBelow (slice_index words 0) v.stamps
        × (length v.stamps ≡ slice_index words 0) }
{}
