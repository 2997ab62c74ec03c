//! What holds of the updates and answers that go through slots.

/// A rule for the slots of a replica: what holds of each update that is posted, and of each answer that is left. Who posts or
/// answers shows it; who collects or polls then knows it.
pub trait SlotRule {
    ghost use Rattle.std.specs.Prelude.{ℕ};
    ghost use Rattle.vs_types.specs.declared.requests.op.Op.{Op};
    ghost use Rattle.nr_slots.specs.Updates.{Answered};

    /// A thread's number, that of its call, and its update.
    ghost posted: { ℕ → ℕ → Op → Type 0 };

    ghost answered: { Answered → Type 0 };
}

/// The rule that asks for nothing.
pub struct Anything;

impl SlotRule for Anything {
    ghost use Rattle.std.specs.Prelude.{⊤};

    ghost posted = { λ thread call op. ⊤ };

    ghost answered = { λ answered. ⊤ };
}
