//! Tables of indexes, of four bytes each.

ghost use Rattle.std.specs.Prelude.{◌≡◌, ◌+◌, ◌<◌, ◌^◌, IfOk, None, Some, replicate};

use std::alloc::Global;
use std::marker::Model;
use vs_types::Memory;

/// An index, or none, in four bytes. Contracts see it as an option.
#[derive(Clone, Copy, Debug)]
pub(crate) struct MaybeIndex {
    /// One more than the index, and 0 for none.
    successor: u32,
}

impl Model for MaybeIndex {
    ghost use Rattle.std.specs.Prelude.{ℕ, Option};
    ghost use Rattle.nr_audit.specs.inside.Indexes.{predecessor, successor_of, same_successor};

    ghost Value = { Option ℕ };

    ghost view = { λ i. predecessor i.successor };

    ghost inverse = { λ o. record { successor = successor_of o } };

    ghost inverse_ok = { λ i h. same_successor i };
}

impl MaybeIndex {
    pub(crate) fn none() -> MaybeIndex
        ensures { result ≡ None }
    {
        MaybeIndex { successor: 0 }
    }

    pub(crate) fn of(index: u32) -> MaybeIndex
        requires { index + 1 < 2 ^ 32 }
        ensures { result ≡ Some index }
    {
        MaybeIndex {
            successor: index + 1,
        }
    }

    pub(crate) fn get(self) -> Option<u32>
        ensures { result ≡ self }
    {
        match self.successor {
            0 => None,
            successor => Some(successor - 1),
        }
    }
}

/// A table of this many rows, with nothing in any of them.
pub(crate) fn empty_table(alloc: Global, rows: usize) -> Result<Vec<MaybeIndex>, Memory>
    ensures { IfOk result (λ table. table.items ≡ replicate rows None) }
{
    Ok(vec![in alloc; MaybeIndex::none(); rows]?)
}
