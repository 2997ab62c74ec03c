//! Worked examples: what the definitions say of short runs. Each function does nothing: the prover computes.

ghost use Rattle.std.specs.Prelude.{◌≡◌, [], ◌∷◌};
ghost use Rattle.nr_trace.specs.Calls.{IsWellFormedHistory};
ghost use Rattle.nr_trace.specs.Examples.{map_then_resolve};
ghost use Rattle.nr_trace.specs.Orders.{recorded_order};
ghost use Rattle.nr_chain.specs.Examples.{maps_it, maps_without_a_reply, resolves_it};
ghost use Rattle.nr_chain.specs.Joined.{both, joined};

/// A map in one segment and a resolve in the next are one run that maps and then resolves.
pub fn map_and_resolve_as_one()
    ensures trace { (both maps_it resolves_it).trace ≡ map_then_resolve }
    ensures order { (joined maps_it (resolves_it ∷ [])).order ≡ 0 ∷ 2 ∷ [] }
    ensures recorded { recorded_order (both maps_it resolves_it).trace ≡ 0 ∷ 2 ∷ [] }
{}

/// A thread whose call has no reply makes another in the next segment: that is no well-formed history.
pub fn a_thread_goes_on_without_a_reply()
    ensures { IsWellFormedHistory (both maps_without_a_reply resolves_it).trace → ⊥ }
{}
