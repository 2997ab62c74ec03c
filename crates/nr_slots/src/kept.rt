//! The rule of the table in which slots lie, and what each step on it shows.
ghost use Rattle.nr_slots.specs.inside.Kept.{Lends};

use crate::rule::SlotRule;
use crate::slot::Slot;
use atomic_table::{Play, TableRule};
use std::marker::PhantomData;

/// A slot that isn't out is as its word says, and has an update or an answer of its own thread, as the slots' rule says.
pub struct Kept<P> {
    of: PhantomData<P>,
}

impl<P: SlotRule> TableRule<Slot, (), ()> for Kept<P> {
    ghost use Rattle.nr_slots.specs.inside.Kept.{AreKept};

    ghost holds = { λ _. AreKept (λ waiting. ∥ P.posted waiting.thread waiting.call waiting.op ∥₁)
        (λ answered. ∥ P.answered answered ∥₁) };

    ghost first = { λ _. tt };
}

/// A load of a word by a thread that has no seat yet, which shows nothing.
pub(crate) struct Enter;

impl Play<Slot, ()> for Enter {
    ghost use Rattle.std.specs.Prelude.{⊤};

    ghost then = { λ step before found after. ⊤ };
}

/// A word goes to busy where it is the wanted one: the slot is then out with the seat, and is as that word says.
pub(crate) struct Claim<P> {
    of: PhantomData<P>,
}

impl<P: SlotRule> Play<Slot, ()> for Claim<P> {
    ghost then = { Lends (λ waiting. ∥ P.posted waiting.thread waiting.call waiting.op ∥₁)
        (λ answered. ∥ P.answered answered ∥₁) };
}

/// A word goes from busy to what its slot then is, which is put back.
pub(crate) struct GiveBack;

impl Play<Slot, ()> for GiveBack {
    ghost use Rattle.std.specs.Prelude.{⊤};

    ghost then = { λ step before found after. ⊤ };
}
