//! Laws of the definitions. Each function does nothing: its clause says what holds.

ghost use Rattle.std.specs.Prelude.{◌≡◌, ℕ, List};
ghost use Rattle.nr_audit.specs.Verdict.{IsVerdictOf};
ghost use Rattle.nr_audit.specs.declared.verdicts.verdict.Verdict.{Verdict};
ghost use Rattle.nr_audit.specs.declared.verdicts.verdict.Verdict.TheVariants.{Yes};
ghost use Rattle.nr_core.specs.Faultless.{IsRecordingOfSteps};
ghost use Rattle.nr_trace.specs.Orders.{recorded_order};
ghost use Rattle.nr_trace.specs.Recording.{Recording};
ghost use Rattle.nr_trace.specs.Spelling.{Spells};

/// Whatever the steps: yes, with its recorded order, is a verdict on the spelling of a recording of them, and no other is.
pub fn steps_are_judged_yes()
    ensures yes { (trace : Recording) (bytes : List ℕ) → IsRecordingOfSteps trace
        → Spells bytes trace → IsVerdictOf bytes (Yes (recorded_order trace)) }
    ensures no_other { (trace : Recording) (bytes : List ℕ) (verdict : Verdict)
        → IsRecordingOfSteps trace → Spells bytes trace → IsVerdictOf bytes verdict
        → verdict ≡ Yes (recorded_order trace) }
{}
