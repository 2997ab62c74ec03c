//! A thread's pass to a cell.
ghost use Rattle.std.specs.Prelude.{◌≡◌, ◌<◌, ℕ, slice_index};

use crate::doing::Doing;
use crate::rule::CellRule;
use atomic_table::Seat;
use std::marker::{Model, PhantomData};

/// What one thread knows of a cell: the code of the value that it saw last, what that says at the first `H` places, and which words
/// beside the cell belong to it. Contracts see a `CellPass`, which has the value.
#[derive(Drop)]
pub struct Pass<V, X, P: CellRule<V, X>, const H: usize> {
    pub(crate) seat: Seat<(), Doing<V, X>>,
    pub(crate) version: u64,
    pub(crate) head: [u64; H],
    pub(crate) of: PhantomData<P>,
}

impl<V, X, P: CellRule<V, X>, const H: usize> Model for Pass<V, X, P, H> {
    ghost use Rattle.std.specs.Prelude.{◌≡◌};
    ghost use Rattle.version_cell.specs.Passes.{CellPass};
    ghost use Rattle.version_cell.specs.inside.Heads.{IsHead};

    ghost Value = { CellPass V X };

    ghost view = { λ p. record {
      cell = p.seat.table_id;
      number = p.seat.id;
      view = p.seat.me.0.client;
      value = p.seat.me.0.value;
      fresh = p.seat.me.0.fresh;
      from = p.seat.me.0.from;
      own = p.seat.me.0.own;
    } };

    ghost invariant = { λ p. (p.version ≡ P.code p.seat.me.0.value)
        × IsHead P.head p.version H p.head };
}

impl<V, X, P: CellRule<V, X>, const H: usize> Pass<V, X, P, H> {
    /// What the code of the value that the pass saw last says at the first places.
    pub fn head(&self) -> &[u64; H]
        ensures { (place : ℕ) → place < H
            → slice_index result.now place ≡ P.head (P.code self.now.value) place }
    {
        &self.head
    }
}
