//! The steps that read replicas, and those that record.
ghost use Rattle.std.specs.Prelude.{◌≡◌, ◌<◌, IsSome, Some, MatchResult, slice_get};
ghost use Rattle.nr_trace.specs.Orders.{answer_in};
ghost use Rattle.nr_core.specs.Run.{IsStepped};
ghost use Rattle.nr_core.specs.State as states;
ghost use Rattle.nr_core.specs.Steps as steps;
ghost use Rattle.nr_core.specs.inside.Parts.{FitsRead};
ghost use Rattle.nr_core.specs.inside.Views.{IsOpen};

use crate::states::stage::{Answered, Stage};
use crate::states::state::Core;
use nr_trace::Recorded;
use vs_types::{Answer, Memory, Query, Request};

impl Core {
    /// The read of the open call is answered by its replica, whose lock is free, once that has applied as much as was noted.
    pub(crate) fn read(&mut self, thread: u16) -> bool
        ensures { IsStepped self.old (steps.read self.old thread) result self.new }
    {
        let Some(stage) = self.stage(thread) else {
            return false;
        };
        let Stage::Looked {
            call,
            request,
            completed,
        } = stage
        else {
            return false;
        };
        let replica = self.home(thread);
        if !self.has_replica(replica) {
            return false;
        }
        let marks = self.marks(replica);
        if marks.holder.is_some() || completed > marks.applied {
            return false;
        }
        let answer = self.answer_at(replica, request);
        let answered = Answered {
            call,
            at: marks.applied,
            answer,
        };
        self.set_stage(thread, Stage::HasRead { answered });
        true
    }

    /// The answer is in the slot, or the thread has read: the reply is recorded, and no call is open.
    pub(crate) fn reply(&mut self, thread: u16) -> Result<bool, Memory>
        ensures { MatchResult result
            (λ done. IsStepped self.old (steps.reply self.old thread) done self.new)
            (λ _. self.new ≡ self.old) }
    {
        let Some(stage) = self.stage(thread) else {
            return Ok(false);
        };
        let (Stage::Ready { answered } | Stage::HasRead { answered }) = stage else {
            return Ok(false);
        };
        self.record_reply(thread, answered)?;
        Ok(true)
    }

    /// The thread's reply is recorded, and it has no call open.
    fn record_reply(&mut self, thread: u16, answered: Answered) -> Result<(), Memory>
        requires { IsOpen self.old thread }
        ensures { (before : states.Thread) → slice_get self.old.threads thread ≡ Some before
            → MatchResult result
            (λ _. Some self.new ≡ steps.with_reply self.old thread before answered)
            (λ _. self.new ≡ self.old) }
    {
        let event = answered.reply();
        if self.events.push(Recorded::of(event)).is_err() {
            return Err(Memory);
        }
        self.threads[usize::from(thread)].stage = Stage::Idle;
        Ok(())
    }

    /// What a replica answers to a read.
    fn answer_at(&self, replica: u8, request: Request) -> Answer
        requires there { IsSome (slice_get self.now.replicas replica) }
        requires fits { FitsRead self.now.layout.depth request }
        ensures { (there : states.Replica) → slice_get self.now.replicas replica ≡ Some there
            → result ≡ answer_in self.now.layout there.space request }
    {
        let table = &self.stored(replica).table;
        match request.query() {
            Query::Resolve(address) => table.resolve(address),
            Query::Access(address, mode, access) => table.access(address, mode, access),
            Query::Update(_) => unreachable!(),
        }
    }
}
