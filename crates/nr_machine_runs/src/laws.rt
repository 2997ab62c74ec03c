//! What holds of every schedule of single operations. Each function does nothing: its clauses say what holds.

ghost use Rattle.std.specs.Prelude.{◌≡◌, ℕ, List, Some, slice_get};
ghost use Rattle.vs_types.specs.declared.addresses.depth.Depth.{Depth};
ghost use Rattle.vs_types.specs.declared.log_entry.LogEntry.{LogEntry};
ghost use Rattle.vs_walk.specs.Dump.{Image};
ghost use Rattle.nr_trace.specs.Laws.{IsFaultless};
ghost use Rattle.nr_trace.specs.Orders.{FitsOrder, IsLegalOrder, recorded_order};
ghost use Rattle.nr_trace.specs.Recording.{IsThere, Recording};
ghost use Rattle.nr_ring.specs.LogHistory.{IsLogHistory, log_after};
ghost use Rattle.nr_machine.specs.declared.words.Update.{Update};
ghost use Rattle.nr_machine.specs.World.{Act, opening, played};
ghost use Rattle.nr_machine_runs.specs.History.{IsLogOf, IsScheduleFor, history};
ghost use Rattle.nr_machine_runs.specs.Recorded.{IsRecordingOfRun, MayAll, new_run, noted_all};
ghost use Rattle.nr_machine_runs.specs.Examples.{example, its_events, two_nodes, unmaps};

/// Each schedule makes a history of the log of `nr_ring`, and its log has the machine's entries and local tails. So what is proved of such
/// histories holds of machines: as long as there are at most 15 times 2^30 entries, where that log ends.
pub fn schedules_are_histories()
    ensures history { (depth : Depth) (means : Update → LogEntry) (nodes : ℕ) (acts : List Act)
        → IsScheduleFor depth means nodes acts
        → IsLogHistory depth nodes (history means nodes acts) }
    ensures log { (depth : Depth) (means : Update → LogEntry) (nodes : ℕ) (acts : List Act)
        → IsScheduleFor depth means nodes acts
        → IsLogOf means nodes (played (opening nodes) acts)
        (log_after nodes (history means nodes acts)) }
{}

/// No fault, but perhaps one of the format, holds of the recording of a run, whatever the schedule. Each call is recorded before its update
/// or its read begins, and each reply after it. Its order is legal, a linearization of the calls, and each dump fits it.
pub fn recordings_of_runs_have_no_fault()
    ensures faultless { (trace : Recording) → IsRecordingOfRun trace → IsFaultless trace }
    ensures legal { (trace : Recording) → IsRecordingOfRun trace
        → IsLegalOrder trace (recorded_order trace) }
    ensures fits { (trace : Recording) (replica : ℕ) (dump : Image) → IsRecordingOfRun trace
        → slice_get trace.dumps replica ≡ Some dump → IsThere dump
        → FitsOrder trace (recorded_order trace) replica dump }
{}

/// What is asked of a run can be met, by each kind of note: three threads unmap on two nodes, two of them in one call of a machine, and an
/// exchange fails; then one of them reads.
pub fn runs_can_be_recorded()
    ensures plays { MayAll two_nodes unmaps (new_run two_nodes unmaps) example }
    ensures events { (noted_all two_nodes unmaps (new_run two_nodes unmaps) example).events
        ≡ its_events }
{}
