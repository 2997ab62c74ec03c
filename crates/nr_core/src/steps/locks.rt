//! The steps that take a replica's lock and give it back.
ghost use Rattle.nr_core.specs.Run.{IsStepped};
ghost use Rattle.nr_core.specs.Steps as steps;

use crate::states::parts::Marks;
use crate::states::state::Core;

impl Core {
    /// The thread, which holds no lock, takes that of a replica, which is free.
    pub(crate) fn take(&mut self, thread: u16, replica: u8) -> bool
        ensures { IsStepped self.old (steps.take_lock self.old thread replica) result self.new }
    {
        let Some(holds) = self.holds(thread) else {
            return false;
        };
        if !self.has_replica(replica) {
            return false;
        }
        let marks = self.marks(replica);
        if holds.is_some() || marks.holder.is_some() {
            return false;
        }
        self.set_holds(thread, Some(replica));
        self.set_marks(
            replica,
            Marks {
                holder: Some(thread),
                ..marks
            },
        );
        true
    }

    /// The thread gives the lock that it holds back, once all that was fetched is applied.
    pub(crate) fn release(&mut self, thread: u16) -> bool
        ensures { IsStepped self.old (steps.release self.old thread) result self.new }
    {
        let Some(replica) = self.lock_of(thread) else {
            return false;
        };
        let marks = self.marks(replica);
        if marks.applied != marks.local {
            return false;
        }
        self.set_holds(thread, None);
        self.set_marks(
            replica,
            Marks {
                holder: None,
                ..marks
            },
        );
        true
    }

    /// All entries of the log that the replica lacks are fetched, once all that was fetched is applied.
    pub(crate) fn advance(&mut self, thread: u16) -> bool
        ensures { IsStepped self.old (steps.advance self.old thread) result self.new }
    {
        let Some(replica) = self.lock_of(thread) else {
            return false;
        };
        let marks = self.marks(replica);
        let tail = self.tail();
        if marks.applied != marks.local || marks.local >= tail {
            return false;
        }
        self.set_completed(tail);
        self.set_marks(
            replica,
            Marks {
                local: tail,
                ..marks
            },
        );
        true
    }
}
