//! The table in which slots lie, each beside its state word.
ghost use Rattle.std.specs.Prelude.{◌≡◌, ◌≢◌, ◌<◌, ◌≤◌, ◌^◌, IfOk, IfSome, MatchOption};
ghost use Rattle.nr_slots.specs.declared.state.TheConstants.{BUSY};
ghost use Rattle.nr_slots.specs.inside.Kept.{GoesTo, HasSlot};

use crate::answered::Answered;
use crate::kept::{Claim, Enter, GiveBack, Kept};
use crate::rule::SlotRule;
use crate::slot::{NotTaken, Occupied, Slot};
use crate::state::{BUSY, EMPTY, POSTED, READY, TAKEN};
use crate::waiting::Waiting;
use atomic_table::{Refused, Seat, Table};
use std::alloc::Global;
use vs_types::Memory;

/// A slot for each thread, and its state word.
#[derive(Drop)]
pub(crate) struct Cells<P: SlotRule> {
    table: Table<Slot, (), (), Kept<P>, Global>,
    ghost counts: { table.shared.table_id.slots ≡ table.shared.table_id.words },
}

/// A slot that is out with the thread that steps on it, and the state in which it was. It has no `Drop`: whoever has it puts it back.
struct Loan {
    seat: Seat<Slot, ()>,
    from: u64,
}

impl<P: SlotRule> Cells<P> {
    /// So many empty slots.
    pub(crate) fn new(alloc: Global, count: u16) -> Result<Cells<P>, Memory>
        ensures { IfOk result (λ cells. cells.table.shared.table_id.words ≡ count) }
    {
        let count = usize::from(count);
        let words = vec![in alloc; EMPTY; count]?;
        let slots = vec![in alloc; Slot::Empty; count]?;
        match Table::new(alloc, words.as_slice(), slots, &()) {
            Ok((table, _)) => Ok(Cells { table }),
            Err(Refused { slots: _ }) => Err(Memory),
        }
    }

    /// How many there are.
    pub(crate) fn count(&self) -> usize
        ensures { result ≡ self.now.table.shared.table_id.words }
    {
        self.table.word_count()
    }

    /// Whether a slot is empty, as a load finds its word.
    pub(crate) fn is_empty(&self, place: usize) -> bool
        requires { place < self.now.table.shared.table_id.words }
    {
        let (found, _) = self.table.shared.load_new_seat::<Enter>(place);
        found == EMPTY
    }

    /// Puts an update into its thread's slot, where it is empty.
    #[tactic(auto, using(crate::proofs::Goes::posts_on))]
    pub(crate) fn post(&self, waiting: Waiting) -> Result<(), Occupied>
        requires thread { waiting.thread < self.now.table.shared.table_id.words }
        requires rule { ∥ P.posted waiting.thread waiting.call waiting.op ∥₁ }
    {
        let place = usize::from(waiting.thread());
        let Some(mut loan) = self.claim(place, EMPTY) else {
            return Err(Occupied);
        };
        let posted = loan.seat.slot_mut(&self.table.shared, place).post(waiting);
        self.give_back(loan, place, POSTED);
        posted
    }

    /// Takes the update that waits in a slot, if one does.
    #[inline(always)]
    #[tactic(auto, using(crate::proofs::Goes::takes_on))]
    pub(crate) fn take(&self, place: usize) -> Option<Waiting>
        requires { place < self.now.table.shared.table_id.words }
        ensures thread { IfSome result (λ waiting. waiting.thread ≡ place) }
        ensures rule { IfSome result (λ waiting.
            ∥ P.posted waiting.thread waiting.call waiting.op ∥₁) }
    {
        let mut loan = self.claim(place, POSTED)?;
        let taken = loan.seat.slot_mut(&self.table.shared, place).take();
        self.give_back(loan, place, TAKEN);
        taken
    }

    /// Leaves an answer in its thread's slot, where that is taken with its call.
    #[tactic(auto, using(crate::proofs::Goes::answers_on, crate::proofs::Goes::stays_taken))]
    pub(crate) fn answer(&self, answered: Answered) -> Result<(), NotTaken>
        requires thread { answered.thread < self.now.table.shared.table_id.words }
        requires rule { ∥ P.answered answered ∥₁ }
    {
        let place = usize::from(answered.thread());
        let Some(mut loan) = self.claim(place, TAKEN) else {
            return Err(NotTaken);
        };
        let answer = loan
            .seat
            .slot_mut(&self.table.shared, place)
            .answer(answered);
        match answer {
            Ok(()) => self.give_back(loan, place, READY),
            Err(NotTaken) => self.give_back(loan, place, TAKEN),
        }
        answer
    }

    /// Empties a slot, where it is taken with this call.
    #[inline(always)]
    #[tactic(auto, using(crate::proofs::Goes::closes_on, crate::proofs::Goes::stays_taken))]
    pub(crate) fn close(&self, place: usize, call: u32) -> Result<(), NotTaken>
        requires { place < self.now.table.shared.table_id.words }
    {
        let Some(mut loan) = self.claim(place, TAKEN) else {
            return Err(NotTaken);
        };
        let closed = loan.seat.slot_mut(&self.table.shared, place).close(call);
        match closed {
            Ok(()) => self.give_back(loan, place, EMPTY),
            Err(NotTaken) => self.give_back(loan, place, TAKEN),
        }
        closed
    }

    /// Takes the answer that waits in a slot, if one does, and leaves it empty.
    #[inline(always)]
    #[tactic(auto, using(crate::proofs::Goes::polls_on))]
    pub(crate) fn poll(&self, place: usize) -> Option<Answered>
        requires { place < self.now.table.shared.table_id.words }
        ensures thread { IfSome result (λ answered. answered.thread ≡ place) }
        ensures rule { IfSome result (λ answered. ∥ P.answered answered ∥₁) }
    {
        let mut loan = self.claim(place, READY)?;
        let answered = loan.seat.slot_mut(&self.table.shared, place).poll();
        self.give_back(loan, place, EMPTY);
        answered
    }

    /// A slot, where it is in this state and no other thread steps on it.
    #[inline(always)]
    fn claim(&self, place: usize, word: u64) -> Option<Loan>
        requires place { place < self.now.table.shared.table_id.words }
        requires word { word ≢ BUSY }
        ensures table { IfSome result (λ loan.
            loan.seat.table_id ≡ self.now.table.shared.table_id) }
        ensures from { IfSome result (λ loan. loan.from ≡ word) }
        ensures out { IfSome result (λ loan.
            HasSlot (λ waiting. ∥ P.posted waiting.thread waiting.call waiting.op ∥₁)
            (λ answered. ∥ P.answered answered ∥₁) place word loan.seat.me.1) }
    {
        let shared = &self.table.shared;
        let (found, mut seat) = shared.load_new_seat::<Enter>(place);
        if found != word {
            return None;
        }
        let found = shared.compare_exchange::<Claim<P>>(&mut seat, place, word, BUSY);
        if found != word {
            return None;
        }
        Some(Loan { seat, from: word })
    }

    /// Puts a slot back, which is in this state: one that may follow the one in which it was.
    #[inline(always)]
    fn give_back(&self, loan: Loan, place: usize, word: u64)
        requires place { place < self.now.table.shared.table_id.words }
        requires table { loan.seat.table_id ≡ self.now.table.shared.table_id }
        requires goes { GoesTo loan.from word }
        requires out { HasSlot (λ waiting. ∥ P.posted waiting.thread waiting.call waiting.op ∥₁)
            (λ answered. ∥ P.answered answered ∥₁) place word loan.seat.me.1 }
    {
        let Loan { mut seat, from: _ } = loan;
        self.table.shared.store::<GiveBack>(&mut seat, place, word);
    }
}
