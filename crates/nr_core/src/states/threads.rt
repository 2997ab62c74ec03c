//! What the steps read and write of threads.
ghost use Rattle.std.specs.Prelude.{◌≡◌, ◌<◌, ℕ, None, Some, Option, IsSome, MatchOption, slice_get};
ghost use Rattle.nr_core.specs.State as states;
ghost use Rattle.nr_core.specs.State.{with_thread};
ghost use Rattle.nr_core.specs.Steps.{by_holder};
ghost use Rattle.nr_core.specs.inside.Views.{IsAt, MayGoTo, HoldsJust, HoldsLock};

use crate::states::stage::Stage;
use crate::states::state::Core;

impl Core {
    /// How far a thread has come, if there is such a thread.
    pub(crate) fn stage(&self, thread: u16) -> Option<Stage>
        ensures { MatchOption result (slice_get self.now.threads thread ≡ None)
            (IsAt self.now thread) }
    {
        let t = usize::from(thread);
        if t < self.threads.len() {
            Some(self.threads[t].stage)
        } else {
            None
        }
    }

    /// The thread comes to this stage.
    pub(crate) fn set_stage(&mut self, thread: u16, stage: Stage)
        requires { MayGoTo self.old thread stage }
        ensures set { (before : states.Thread) → slice_get self.old.threads thread ≡ Some before
            → self.new ≡ with_thread self.old thread (record before { stage = stage }) }
        ensures replicas { self.new.replicas ≡ self.old.replicas }
    {
        self.threads[usize::from(thread)].stage = stage;
    }

    /// The replica whose lock a thread holds, if any, if there is such a thread.
    pub(crate) fn holds(&self, thread: u16) -> Option<Option<u8>>
        ensures { MatchOption result (slice_get self.now.threads thread ≡ None)
            (HoldsJust self.now thread) }
    {
        let t = usize::from(thread);
        if t < self.threads.len() {
            Some(self.threads[t].holds)
        } else {
            None
        }
    }

    /// The thread holds this lock, or none.
    pub(crate) fn set_holds(&mut self, thread: u16, holds: Option<u8>)
        requires { IsSome (slice_get self.old.threads thread) }
        ensures set { (before : states.Thread) → slice_get self.old.threads thread ≡ Some before
            → self.new ≡ with_thread self.old thread (record before { holds = holds }) }
        ensures replicas { self.new.replicas ≡ self.old.replicas }
    {
        self.threads[usize::from(thread)].holds = holds;
    }

    /// The replica whose lock a thread holds.
    pub(crate) fn lock_of(&self, thread: u16) -> Option<u8>
        ensures { MatchOption result
            ((go : states.Thread → ℕ → states.Replica → Option states.State)
            → by_holder self.now thread go ≡ None)
            (HoldsLock self.now thread) }
    {
        let holds = self.holds(thread)?;
        let r = holds?;
        if self.has_replica(r) { Some(r) } else { None }
    }
}
