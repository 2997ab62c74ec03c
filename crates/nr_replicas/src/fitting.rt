//! The rule of a replica's slots.
use nr_ring::LogName;
use nr_slots::SlotRule;
use std::marker::PhantomData;

/// The rule of a replica's slots: each update that is posted is well formed at the log's depth.
pub(crate) struct Fitting<J: LogName> {
    of: PhantomData<J>,
}

impl<J: LogName> SlotRule for Fitting<J> {
    ghost use Rattle.std.specs.Prelude.{⊤};
    ghost use Rattle.vs_types.specs.Operation.{IsAction};

    ghost posted = { λ thread call op. IsAction J.depth op };

    ghost answered = { λ answered. ⊤ };
}
