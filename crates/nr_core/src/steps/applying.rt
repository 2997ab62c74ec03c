//! What a combiner does to its replica's table and batch.
ghost use Rattle.std.specs.Prelude.{◌≡◌, ◌<◌, ◌&&◌, Some, IsSome, slice_get};
ghost use Rattle.vs_types.specs.Config.{Layout};
ghost use Rattle.vs_types.specs.Operation.{IsAction};
ghost use Rattle.vs_types.specs.declared.limits.TheConstants.{LOG_PLACES};
ghost use Rattle.nr_core.specs.State as states;
ghost use Rattle.nr_core.specs.State.{with_replica};
ghost use Rattle.nr_core.specs.Steps as steps;
ghost use Rattle.nr_core.specs.inside.Parts.{replica_in, IsReplica};
ghost use Rattle.nr_core.specs.inside.Views.{MayApply};

use crate::runs::batch::{find_noted, keep_others, note};
use crate::states::parts::ReplicaState;
use crate::states::stage::{Answered, Collected};
use crate::states::state::Core;
use vs_types::LogEntry;

/// The entry at the place that a replica has come to is applied, and its answer noted in the batch.
fn apply_to(stored: &mut ReplicaState, entry: LogEntry)
    requires fits { IsAction stored.old.table.pages.depth entry.op }
    requires in_range { stored.old.marks.applied < LOG_PLACES }
    ensures seen { (state : states.State) → IsReplica state.layout stored.old
        → replica_in stored.new ≡ steps.with_entry state (replica_in stored.old) entry }
    ensures each { (layout : Layout) → IsReplica layout stored.old → IsReplica layout stored.new }
{
    let answer = stored.table.apply(entry.op);
    let answered = Answered {
        call: entry.call,
        at: stored.marks.applied,
        answer,
    };
    note(&mut stored.batch, answered);
    stored.marks.applied += 1;
}

/// Whether a batch that was placed, or not, still is: an empty one is not.
#[tactic(auto, using(crate::proofs::Lists::some_left, crate::proofs::Lists::none_left))]
fn is_placed(placed: bool, left: &[Collected]) -> bool
    ensures { result ≡ (placed && steps.is_some_left left.now) }
{
    let n = left.len();
    if n == 0 { false } else { placed }
}

/// The update of a thread leaves the batch.
fn take_from(stored: &mut ReplicaState, thread: u16)
    ensures seen { replica_in stored.new ≡ steps.without thread (replica_in stored.old) }
    ensures each { (layout : Layout) → IsReplica layout stored.old → IsReplica layout stored.new }
{
    keep_others(&mut stored.batch, thread);
    stored.marks.placed = is_placed(stored.marks.placed, &stored.batch);
}

impl Core {
    /// The entry at the place that a replica has come to is applied, and its answer noted in the batch.
    pub(crate) fn apply_entry(&mut self, replica: u8, entry: LogEntry)
        requires { MayApply self.old replica entry }
        ensures { (before : states.Replica) → slice_get self.old.replicas replica ≡ Some before
            → self.new ≡ with_replica self.old replica (steps.with_entry self.old before entry) }
    {
        let stored = &mut self.replicas[usize::from(replica)];
        apply_to(stored, entry);
    }

    /// The answer that is noted for the update of a thread.
    pub(crate) fn noted_for(&self, replica: u8, thread: u16) -> Option<Answered>
        requires { IsSome (slice_get self.now.replicas replica) }
        ensures { (there : states.Replica) → slice_get self.now.replicas replica ≡ Some there
            → result ≡ steps.noted_for thread there }
    {
        find_noted(&self.stored(replica).batch, thread)
    }

    /// The update of a thread leaves the batch.
    pub(crate) fn take_out(&mut self, replica: u8, thread: u16)
        requires { IsSome (slice_get self.old.replicas replica) }
        ensures set { (before : states.Replica) → slice_get self.old.replicas replica ≡ Some before
            → self.new ≡ with_replica self.old replica (steps.without thread before) }
        ensures threads { self.new.threads ≡ self.old.threads }
        ensures layout { self.new.layout ≡ self.old.layout }
    {
        let stored = &mut self.replicas[usize::from(replica)];
        take_from(stored, thread);
    }
}
