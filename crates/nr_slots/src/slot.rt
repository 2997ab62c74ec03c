//! What lies in one slot, and why it takes no update or gives no answer.
ghost use Rattle.std.specs.Prelude.{◌≡◌, ◌≢◌, OnOk, OnErr, IfSome, IfNone, MatchOption, MatchResult};

use crate::answered::Answered;
use crate::waiting::Waiting;

/// The place where one thread puts its update and finds the answer.
#[derive(Clone, Copy, Debug, PartialEq, Eq)]
pub enum Slot {
    /// The thread has no update.
    Empty,
    /// The update waits for a combiner.
    Posted(Waiting),
    /// A combiner has the update of this call.
    Taken(u32),
    /// The answer waits for the thread.
    Ready(Answered),
}

/// The slot is not empty.
#[derive(Clone, Copy, Debug, PartialEq, Eq)]
pub struct Occupied;

/// The slot is not taken, or is taken with another call; or there is no such slot.
#[derive(Clone, Copy, Debug, PartialEq, Eq)]
pub struct NotTaken;

impl Slot {
    ghost use Rattle.nr_slots.specs.declared.slot.Slot.TheVariants.{Empty, Posted, Taken, Ready};

    /// Puts an update into an empty slot.
    ///
    /// # Errors
    ///
    /// `Occupied` where the slot is not empty; it stays as it was.
    pub fn post(&mut self, waiting: Waiting) -> Result<(), Occupied>
        ensures posted { OnOk result ((self.old ≡ Empty) × (self.new ≡ Posted waiting)) }
        ensures occupied { OnErr result ((self.old ≢ Empty) × (self.new ≡ self.old)) }
    {
        match self {
            Slot::Empty => {
                *self = Slot::Posted(waiting);
                Ok(())
            }
            _ => Err(Occupied),
        }
    }

    /// Takes the update that waits, if one does.
    pub fn take(&mut self) -> Option<Waiting>
        ensures taken { IfSome result (λ waiting.
            (self.old ≡ Posted waiting) × (self.new ≡ Taken waiting.call)) }
        ensures none { IfNone result
            (((waiting : _) → self.old ≢ Posted waiting) × (self.new ≡ self.old)) }
    {
        match self {
            Slot::Posted(waiting) => {
                let waiting = *waiting;
                *self = Slot::Taken(waiting.call());
                Some(waiting)
            }
            _ => None,
        }
    }

    /// Leaves the answer to the call that was taken.
    ///
    /// # Errors
    ///
    /// `NotTaken` where the slot is not taken with that call; it stays as it was.
    pub fn answer(&mut self, answered: Answered) -> Result<(), NotTaken>
        ensures answered { OnOk result
            ((self.old ≡ Taken answered.call) × (self.new ≡ Ready answered)) }
        ensures not_taken { OnErr result
            ((self.old ≢ Taken answered.call) × (self.new ≡ self.old)) }
    {
        match *self {
            Slot::Taken(call) if call == answered.call() => {
                *self = Slot::Ready(answered);
                Ok(())
            }
            _ => Err(NotTaken),
        }
    }

    /// Empties the slot, where it is taken with this call, which is answered elsewhere.
    ///
    /// # Errors
    ///
    /// `NotTaken` where the slot is not taken with that call; it stays as it was.
    pub fn close(&mut self, call: u32) -> Result<(), NotTaken>
        ensures closed { OnOk result ((self.old ≡ Taken call) × (self.new ≡ Empty)) }
        ensures not_taken { OnErr result ((self.old ≢ Taken call) × (self.new ≡ self.old)) }
    {
        match *self {
            Slot::Taken(taken) if taken == call => {
                *self = Slot::Empty;
                Ok(())
            }
            _ => Err(NotTaken),
        }
    }

    /// Takes the answer, if there is one, and leaves the slot empty.
    pub fn poll(&mut self) -> Option<Answered>
        ensures ready { IfSome result (λ answered.
            (self.old ≡ Ready answered) × (self.new ≡ Empty)) }
        ensures none { IfNone result
            (((answered : _) → self.old ≢ Ready answered) × (self.new ≡ self.old)) }
    {
        match self {
            Slot::Ready(answered) => {
                let answered = *answered;
                *self = Slot::Empty;
                Some(answered)
            }
            _ => None,
        }
    }
}
