//! The steps that move updates between slots, batches and the log.
ghost use Rattle.std.specs.Prelude.{◌≡◌, ◌+◌, ◌++◌, ◌≤◌, None, IsSome, Some, MatchOption, MatchResult, length, map, slice_get};
ghost use Rattle.vs_types.specs.Operation.{IsAction};
ghost use Rattle.nr_core.specs.Run.{IsStepped};
ghost use Rattle.nr_core.specs.State as states;
ghost use Rattle.nr_core.specs.State.{with_replica};
ghost use Rattle.nr_core.specs.Steps as steps;
ghost use Rattle.nr_core.specs.inside.Views.{IsEntry};
ghost use Rattle.vs_types.specs.declared.limits.TheConstants.{LOG_PLACES};

use crate::runs::batch::{keep_up, push_entries};
use crate::states::parts::Marks;
use crate::states::stage::{Collected, Stage};
use crate::states::state::Core;
use vs_types::{LOG_PLACES, LogEntry, Memory, RING};

impl Core {
    /// The update in the slot of `from` is taken, and is the last of the batch.
    pub(crate) fn collect(&mut self, thread: u16, from: u16) -> Result<bool, Memory>
        ensures { MatchResult result
            (λ done. IsStepped self.old (steps.collect self.old thread from) done self.new)
            (λ _. self.new ≡ self.old) }
    {
        let Some(replica) = self.lock_of(thread) else {
            return Ok(false);
        };
        let Some(stage) = self.stage(from) else {
            return Ok(false);
        };
        let Stage::Posted { call, op } = stage else {
            return Ok(false);
        };
        if self.home(from) != replica || !self.has_place(replica) {
            return Ok(false);
        }
        let update = Collected {
            thread: from,
            entry: LogEntry { call, op },
            noted: None,
        };
        self.push_update(replica, update)?;
        self.set_stage(from, Stage::Taken { call });
        Ok(true)
    }

    /// Whether the batch has fewer than 16 updates and is not placed.
    fn has_place(&self, replica: u8) -> bool
        requires { IsSome (slice_get self.now.replicas replica) }
        ensures { (there : states.Replica) → slice_get self.now.replicas replica ≡ Some there
            → result ≡ steps.has_place there }
    {
        let stored = self.stored(replica);
        stored.batch.len() < RING && !stored.marks.placed
    }

    /// An update is the last of the batch.
    fn push_update(&mut self, replica: u8, update: Collected) -> Result<(), Memory>
        requires there { IsSome (slice_get self.old.replicas replica) }
        requires fits { IsAction self.old.layout.depth update.entry.op }
        ensures pushed { (before : states.Replica)
            → slice_get self.old.replicas replica ≡ Some before
            → MatchResult result
            (λ _. self.new ≡ with_replica self.old replica (steps.with_update before update))
            (λ _. self.new ≡ self.old) }
        ensures threads { self.new.threads ≡ self.old.threads }
        ensures layout { self.new.layout ≡ self.old.layout }
    {
        let r = usize::from(replica);
        match self.replicas[r].batch.push(update) {
            Ok(()) => Ok(()),
            Err(_) => Err(Memory),
        }
    }

    /// The batch, which is not empty nor placed, is at the log's end, where there is room.
    pub(crate) fn append(&mut self, thread: u16) -> Result<bool, Memory>
        ensures { MatchResult result
            (λ done. IsStepped self.old (steps.append self.old thread) done self.new)
            (λ _. self.new ≡ self.old) }
    {
        let Some(replica) = self.lock_of(thread) else {
            return Ok(false);
        };
        if !self.may_append(replica) {
            return Ok(false);
        }
        let marks = self.marks(replica);
        self.extend_log(replica)?;
        self.set_marks(
            replica,
            Marks {
                placed: true,
                ..marks
            },
        );
        Ok(true)
    }

    /// Whether a replica's batch may be appended.
    fn may_append(&self, replica: u8) -> bool
        requires { IsSome (slice_get self.now.replicas replica) }
        ensures { (there : states.Replica) → slice_get self.now.replicas replica ≡ Some there
            → result ≡ steps.may_append self.now there }
    {
        let stored = self.stored(replica);
        let n = stored.batch.len();
        0 < n && !stored.marks.placed && self.has_room(n)
    }

    /// Whether the log has room for so many entries more, and no replica would have more than 16 to fetch.
    fn has_room(&self, n: usize) -> bool
        ensures { result ≡ steps.has_room self.now n }
    {
        let tail = self.log.len();
        n <= LOG_PLACES as usize - tail && keep_up(&self.replicas, tail + n)
    }

    /// The entries of a replica's batch are at the log's end.
    fn extend_log(&mut self, replica: u8) -> Result<(), Memory>
        requires there { IsSome (slice_get self.old.replicas replica) }
        requires room { (there : states.Replica) → slice_get self.old.replicas replica ≡ Some there
            → length self.old.log + length there.batch ≤ LOG_PLACES }
        ensures replicas { self.new.replicas ≡ self.old.replicas }
        ensures extended { (before : states.Replica)
            → slice_get self.old.replicas replica ≡ Some before
            → MatchResult result (λ _. self.new ≡ record self.old
            { log = self.old.log ++ map (λ update. update.entry) before.batch })
            (λ _. self.new ≡ self.old) }
    {
        match push_entries(&mut self.log, &self.replicas[usize::from(replica)].batch) {
            Ok(()) => Ok(()),
            Err(error) => Err(error),
        }
    }

    /// The first fetched entry that is left is applied, and its answer noted in the batch.
    pub(crate) fn apply(&mut self, thread: u16) -> bool
        ensures { IsStepped self.old (steps.apply self.old thread) result self.new }
    {
        let Some(replica) = self.lock_of(thread) else {
            return false;
        };
        let marks = self.marks(replica);
        let Some(entry) = self.entry(marks.applied) else {
            return false;
        };
        if marks.applied >= marks.local {
            return false;
        }
        self.apply_entry(replica, entry);
        true
    }

    /// The entry at a place of the log.
    fn entry(&self, place: u32) -> Option<LogEntry>
        ensures { MatchOption result (slice_get self.now.log place ≡ None)
            (IsEntry self.now place) }
    {
        match self.log.get(place as usize) {
            Some(entry) => Some(*entry),
            None => None,
        }
    }

    /// An answer that is noted for the update of `to` is in its slot, and the update leaves the batch.
    pub(crate) fn answer(&mut self, thread: u16, to: u16) -> bool
        ensures { IsStepped self.old (steps.answer self.old thread to) result self.new }
    {
        let Some(replica) = self.lock_of(thread) else {
            return false;
        };
        let Some(stage) = self.stage(to) else {
            return false;
        };
        let Some(answered) = self.noted_for(replica, to) else {
            return false;
        };
        let Stage::Taken { .. } = stage else {
            return false;
        };
        self.take_out(replica, to);
        self.set_stage(to, Stage::Ready { answered });
        true
    }
}
