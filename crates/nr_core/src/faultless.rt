//! Whatever the steps, the recording of the state after them has no fault. Each function does nothing: its clauses say what holds of
//! every recording of a state that steps reach, whatever the layout, the scripts and the list of steps.

ghost use Rattle.std.specs.Prelude.{◌≡◌, ℕ, List, Some, slice_get};
ghost use Rattle.vs_walk.specs.Dump.{Image};
ghost use Rattle.nr_trace.specs.Faults.{HasFault, IsFirstOf};
ghost use Rattle.nr_trace.specs.Laws.{HasCleanLog, IsFaultless};
ghost use Rattle.nr_trace.specs.Orders.{IsLegalOrder, FitsOrder, recorded_order};
ghost use Rattle.nr_trace.specs.Recording.{Recording};
ghost use Rattle.nr_trace.specs.Spelling.{Spells};
ghost use Rattle.nr_trace.specs.declared.refusals.fault.Fault.{Fault};
ghost use Rattle.nr_trace.specs.declared.refusals.fault.Fault.TheVariants.{Early, WrongAnswer};
ghost use Rattle.nr_trace.specs.declared.refusals.fault.Fault.TheVariants.{PrefixPastLog, PrefixShort};
ghost use Rattle.nr_trace.specs.declared.refusals.fault.Fault.TheVariants.{MissingFrame, SharedFrame};
ghost use Rattle.nr_trace.specs.declared.refusals.fault.Fault.TheVariants.{ReservedBit, StrayFrame, Differs};
ghost use Rattle.nr_core.specs.Faultless.{IsRecordingOfSteps};

/// No thread makes a call while one is open, each reply answers a call before it, and no call is answered twice. The log has
/// nothing but updates and none twice. Each answered update is at the place that its reply names, and no read saw more entries
/// than the log has.
pub fn recorded_calls_are_well_formed()
    ensures { (trace : Recording) → IsRecordingOfSteps trace → HasCleanLog trace }
{}

/// Each dump is that of the space after the first entries of the log, as many as it says, and no answer given at its replica depends on
/// more. Its table has no fault.
pub fn dumps_are_of_the_log()
    ensures within { (trace : Recording) (replica : ℕ) → IsRecordingOfSteps trace
        → HasFault trace (PrefixPastLog replica) → ⊥ }
    ensures enough { (trace : Recording) (replica : ℕ) → IsRecordingOfSteps trace
        → HasFault trace (PrefixShort replica) → ⊥ }
    ensures none_missing { (trace : Recording) (replica number : ℕ) → IsRecordingOfSteps trace
        → HasFault trace (MissingFrame replica number) → ⊥ }
    ensures none_shared { (trace : Recording) (replica number : ℕ) → IsRecordingOfSteps trace
        → HasFault trace (SharedFrame replica number) → ⊥ }
    ensures none_reserved { (trace : Recording) (replica number index : ℕ)
        → IsRecordingOfSteps trace → HasFault trace (ReservedBit replica number index) → ⊥ }
    ensures none_stray { (trace : Recording) (replica number : ℕ) → IsRecordingOfSteps trace
        → HasFault trace (StrayFrame replica number) → ⊥ }
    ensures translates { (trace : Recording) (replica address : ℕ) → IsRecordingOfSteps trace
        → HasFault trace (Differs replica address) → ⊥ }
{}

/// Each answer is that of the one space after the entries of the log before the update's place, or after those that the read saw.
pub fn answers_are_of_the_log()
    ensures { (trace : Recording) (call : ℕ) → IsRecordingOfSteps trace
        → HasFault trace (WrongAnswer call) → ⊥ }
{}

/// No call comes before an entry that was known by a reply before the call was made.
pub fn no_call_is_early()
    ensures { (trace : Recording) (call : ℕ) → IsRecordingOfSteps trace
        → HasFault trace (Early call) → ⊥ }
{}

/// So no fault holds of the recording. Its order is legal, a linearization of the calls, and each dump fits it.
pub fn no_list_of_steps_makes_a_fault()
    ensures faultless { (trace : Recording) → IsRecordingOfSteps trace → IsFaultless trace }
    ensures legal { (trace : Recording) → IsRecordingOfSteps trace
        → IsLegalOrder trace (recorded_order trace) }
    ensures fits { (trace : Recording) (replica : ℕ) (dump : Image) → IsRecordingOfSteps trace
        → slice_get trace.dumps replica ≡ Some dump
        → FitsOrder trace (recorded_order trace) replica dump }
{}

/// Nor of its bytes: no fault is the first of bytes that spell such a recording, so that no verdict on them is no. The auditor's verdict
/// is yes: the law `steps_are_judged_yes` of `core_tests`.
pub fn no_bytes_of_steps_have_a_fault()
    ensures { (trace : Recording) (bytes : List ℕ) (fault : Fault) → IsRecordingOfSteps trace
        → Spells bytes trace → IsFirstOf bytes fault → ⊥ }
{}
