//! Worked examples of histories.
ghost use Rattle.std.specs.Prelude.{◌≡◌, ℕ, [], ◌∷◌, ◌++◌, drop, length};
ghost use Rattle.vs_types.specs.declared.addresses.depth.Depth.TheVariants.{Four};
ghost use Rattle.vs_types.specs.declared.limits.TheConstants.{LOG_PLACES};
ghost use Rattle.nr_ring.specs.Examples.{batch_of, filled, freed, half_freed, rounds};
ghost use Rattle.nr_ring.specs.LogHistory.{IsEnded, IsFull, IsLogHistory, MayAppend, completed, log_after, tail};
ghost use Rattle.nr_ring.specs.declared.ring.log_event.LogEvent.TheVariants.{Append};

/// A log of two replicas. After 16 entries it is full, and still so when only replica 0 has taken them. When replica 1 has
/// taken one, one entry may be appended, and replica 1 has 16 entries to take.
pub fn ring_fills_and_frees()
    ensures fills { IsLogHistory Four 2 filled }
    ensures full { IsFull (log_after 2 filled) 1 }
    ensures half_freed { IsLogHistory Four 2 half_freed }
    ensures still_full { IsFull (log_after 2 half_freed) 1 }
    ensures freed { IsLogHistory Four 2 freed }
    ensures one_more { MayAppend Four (log_after 2 freed) (batch_of 1) }
    ensures tail { tail (log_after 2 (freed ++ Append (batch_of 1) ∷ [])) ≡ 17 }
    ensures completed { completed (log_after 2 (freed ++ Append (batch_of 1) ∷ [])) ≡ 16 }
    ensures locals { (log_after 2 (freed ++ Append (batch_of 1) ∷ [])).locals ≡ 16 ∷ 1 ∷ [] }
    ensures to_take { length
        (drop 1 (log_after 2 (freed ++ Append (batch_of 1) ∷ [])).entries) ≡ 16 }
{}

/// A log of one replica and 65,536 places has room for 4,096 rounds of 16 entries, and then for none.
pub fn log_ends()
    ensures rounds { IsLogHistory Four 1 (rounds 4096 0) }
    ensures tail { tail (log_after 1 (rounds 4096 0)) ≡ 65536 }
    ensures locals { (log_after 1 (rounds 4096 0)).locals ≡ 65536 ∷ [] }
    ensures ended { IsEnded LOG_PLACES (log_after 1 (rounds 4096 0)) 1 }
{}
