//! A worked example: what the definitions say of a short list of steps. The function does nothing.

ghost use Rattle.std.specs.Prelude.{◌≡◌, map};
ghost use Rattle.nr_trace.specs.Examples.{map_then_resolve};
ghost use Rattle.nr_core.specs.Examples.{after_both};

use nr_trace::examples::map_then_resolve_answers;

/// One thread maps a page and resolves an address in it, by each of the twelve steps. The events, the log and the completed tail are
/// those of a recording that was written by hand.
pub fn map_and_resolve_in_steps()
    ensures events { after_both.events ≡ map_then_resolve.events }
    ensures log { map (λ entry. entry.call) after_both.log ≡ map_then_resolve.log }
    ensures completed { after_both.completed ≡ 1 }
{
    map_then_resolve_answers();
}
