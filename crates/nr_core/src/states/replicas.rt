//! What the steps read and write of replicas and of the log.
ghost use Rattle.std.specs.Prelude.{◌≡◌, ◌<◌, ◌≤◌, None, Some, IsSome, MatchBool, slice_get};
ghost use Rattle.vs_types.specs.declared.limits.TheConstants.{LOG_PLACES};
ghost use Rattle.nr_core.specs.State as states;
ghost use Rattle.nr_core.specs.State.{home, tail, with_replica};
ghost use Rattle.nr_core.specs.inside.Parts.{marks_of, with_marks};
ghost use Rattle.nr_core.specs.inside.Views.{IsStored};

use crate::states::parts::{Marks, ReplicaState};
use crate::states::state::Core;

impl Core {
    /// Whether there is this replica.
    pub(crate) fn has_replica(&self, replica: u8) -> bool
        ensures { MatchBool result ((there : states.Replica)
            × (slice_get self.now.replicas replica ≡ Some there))
            (slice_get self.now.replicas replica ≡ None) }
    {
        usize::from(replica) < self.replicas.len()
    }

    /// The replica to which a thread belongs.
    pub(crate) fn home(&self, thread: u16) -> u8
        ensures { result ≡ home self.now thread }
    {
        (thread % u16::from(self.config.replicas())) as u8
    }

    /// What is stored of a replica.
    pub(crate) fn stored(&self, replica: u8) -> &ReplicaState
        requires { IsSome (slice_get self.now.replicas replica) }
        ensures { IsStored self.now replica result.now }
    {
        &self.replicas[usize::from(replica)]
    }

    /// How far a replica has come.
    pub(crate) fn marks(&self, replica: u8) -> Marks
        requires { IsSome (slice_get self.now.replicas replica) }
        ensures { (there : states.Replica) → slice_get self.now.replicas replica ≡ Some there
            → result ≡ marks_of there }
    {
        self.stored(replica).marks
    }

    /// The replica has come so far.
    pub(crate) fn set_marks(&mut self, replica: u8, marks: Marks)
        requires { IsSome (slice_get self.old.replicas replica) }
        ensures { (before : states.Replica) → slice_get self.old.replicas replica ≡ Some before
            → self.new ≡ with_replica self.old replica (with_marks before marks) }
    {
        self.replicas[usize::from(replica)].marks = marks;
    }

    /// How many entries the log has.
    pub(crate) fn tail(&self) -> u32
        ensures is { result ≡ tail self.now }
        ensures few { result ≤ LOG_PLACES }
    {
        self.log.len() as u32
    }

    /// The completed tail.
    pub(crate) fn completed(&self) -> u32
        ensures { result ≡ self.now.completed }
    {
        self.completed
    }

    /// The completed tail is this.
    pub(crate) fn set_completed(&mut self, completed: u32)
        ensures { self.new ≡ record self.old { completed = completed } }
    {
        self.completed = completed;
    }
}
