//! Worked examples: what the definitions say of short traces. Each function does nothing.

ghost use Rattle.std.specs.Prelude.{ℕ, List};
ghost use Rattle.nr_trace.specs.Examples.{answered_again};
ghost use Rattle.nr_trace.specs.Spelling.{spelling};
ghost use Rattle.nr_audit.specs.Headline.{AreRightWith};

/// A trace in which a call is answered again, otherwise, is right with no order.
pub fn answered_again_is_not_right()
    ensures { (order : List ℕ) → AreRightWith (spelling answered_again) order → ⊥ }
{}
