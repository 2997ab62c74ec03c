//! The slots of a replica's threads.
ghost use Rattle.std.specs.Prelude.{◌≡◌, ◌<◌, ◌≤◌, ◌^◌, ℕ, [], All, IfOk, IfSome, IsErr};
ghost use Rattle.vs_types.specs.declared.limits.TheConstants.{CALLS};

use crate::answered::Answered;
use crate::cells::Cells;
use crate::rule::{Anything, SlotRule};
use crate::slot::{NotTaken, Occupied};
use crate::waiting::Waiting;
use arrayvec::ArrayVec;
use std::alloc::Global;
use std::marker::Model;
use vs_types::{Memory, Op, RING};

/// A slot for each thread of a replica, each beside a word that says what lies in it. Contracts see how many there are.
#[derive(Drop)]
pub struct Slots<P: SlotRule = Anything> {
    cells: Cells<P>,
}

impl<P: SlotRule> Model for Slots<P> {
    ghost Value = { ℕ };

    ghost view = { λ s. s.cells.table.shared.table_id.words };

    ghost invariant = { λ s. s.cells.table.shared.table_id.words < 2 ^ 16 };
}

impl<P: SlotRule> Slots<P> {
    ghost use Rattle.nr_slots.specs.Batch.{Rises};

    /// Empty slots for threads 0 to n - 1. It allocates all memory that the slots ever need.
    ///
    /// # Errors
    ///
    /// `Memory` where the allocator gives none.
    pub fn new(alloc: Global, n: u16) -> Result<Slots<P>, Memory>
        ensures { IfOk result (λ slots. slots ≡ n) }
    {
        let cells = Cells::new(alloc, n)?;
        Ok(Slots { cells })
    }

    /// Whether all slots are empty, so that no update waits, is on its way or has an answer that its thread has not taken: as a load
    /// of each word in turn finds them. It waits for nobody.
    pub fn are_empty(&self) -> bool {
        for thread in 0..self.cells.count() {
            if !self.cells.is_empty(thread) {
                return false;
            }
        }
        true
    }

    /// Puts an update into the thread's slot. It waits for nobody.
    ///
    /// # Errors
    ///
    /// `Occupied` where the slot is not empty.
    pub fn post(&self, thread: u16, call: u32, op: Op) -> Result<(), Occupied>
        requires thread { thread < self.now }
        requires call { call < CALLS }
        requires rule { ∥ P.posted thread call op ∥₁ }
    {
        self.post_waiting(Waiting::new(thread, call, op))
    }

    /// Puts an update into its thread's slot, as `post` does, where it is packed already. It waits for nobody.
    ///
    /// # Errors
    ///
    /// `Occupied` where the slot is not empty.
    #[inline(always)]
    pub fn post_waiting(&self, waiting: Waiting) -> Result<(), Occupied>
        requires thread { waiting.thread < self.now }
        requires rule { ∥ P.posted waiting.thread waiting.call waiting.op ∥₁ }
    {
        self.cells.post(waiting)
    }

    /// Takes updates that wait into the batch, by rising thread, until the batch is full: of each thread its own.
    ///
    /// It loads the word of each slot in turn, touches those slots alone in which an update waits, and waits for nobody.
    pub fn collect(&self, batch: &mut ArrayVec<Waiting, RING>)
        requires { batch.old.items ≡ [] }
        ensures rising { Rises batch.new.items }
        ensures below { All (λ waiting. waiting.thread < self.now) batch.new.items }
        ensures rule { All (λ waiting. ∥ P.posted waiting.thread waiting.call waiting.op ∥₁)
            batch.new.items }
    {
        for thread in 0..self.cells.count() {
            if batch.is_full() {
                break;
            }
            if let Some(waiting) = self.cells.take(thread) {
                batch.push(waiting);
            }
        }
    }

    /// Leaves an answer in its thread's slot. It waits for nobody.
    ///
    /// # Errors
    ///
    /// `NotTaken` where there is no such slot, or it is not taken with the call that is answered.
    pub fn answer(&self, answered: Answered) -> Result<(), NotTaken>
        requires { ∥ P.answered answered ∥₁ }
        ensures { self.now ≤ answered.thread → IsErr result }
    {
        if usize::from(answered.thread()) < self.cells.count() {
            self.cells.answer(answered)
        } else {
            Err(NotTaken)
        }
    }

    /// Empties the thread's slot, where it is taken with this call, which is answered elsewhere. It waits for nobody.
    ///
    /// # Errors
    ///
    /// `NotTaken` where the slot is not taken with that call.
    #[inline(always)]
    pub fn close(&self, thread: u16, call: u32) -> Result<(), NotTaken>
        requires { thread < self.now }
    {
        self.cells.close(usize::from(thread), call)
    }

    /// Takes the thread's answer, if there is one, and leaves its slot empty. It waits for nobody.
    #[inline(always)]
    pub fn poll(&self, thread: u16) -> Option<Answered>
        requires { thread < self.now }
        ensures thread { IfSome result (λ answered. answered.thread ≡ thread) }
        ensures rule { IfSome result (λ answered. ∥ P.answered answered ∥₁) }
    {
        self.cells.poll(usize::from(thread))
    }
}
