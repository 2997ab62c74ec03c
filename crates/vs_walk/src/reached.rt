//! The frames that a traversal reaches, while it runs and at its end.
ghost use Rattle.std.specs.Prelude.{◌≡◌, ◌↔◌, ◌<◌, ◌∷◌, [], length, Contains, IsTrue, not, IfOk};
ghost use Rattle.std.specs.List.{AllPairs};
ghost use Rattle.vs_walk.specs.Reached.{AreJust};

use std::alloc::Global;
use std::collections::BTreeSet;
use std::marker::Model;
use vs_types::Memory;

/// The frames that the traversal of a page table reaches, by rising number, each once.
#[derive(Debug, Drop)]
pub struct Reached {
    numbers: Vec<u64>,
}

impl Model for Reached {
    ghost use Rattle.std.specs.Prelude.{ℕ, List, ◌<◌};
    ghost use Rattle.std.specs.List.Sorted.{IsStrictlySortedBy};
    ghost use Rattle.std.specs.Ordering.{nat_cmp};

    ghost Value = { List ℕ };

    ghost view = { λ r. r.numbers.items };

    ghost invariant = { λ r. IsStrictlySortedBy nat_cmp r.numbers.items };
}

impl Reached {
    /// How many frames.
    pub fn len(&self) -> usize
        ensures { result ≡ length self.now }
    {
        self.numbers.len()
    }

    /// Whether the frame of this number is among them.
    pub fn contains(&self, number: u64) -> bool
        ensures { IsTrue result ↔ Contains self.now number }
    {
        self.numbers.binary_search(&number).is_ok()
    }

    /// Their numbers.
    pub fn as_slice(&self) -> &[u64]
        ensures is { result.now ≡ self.now }
        ensures rising { AllPairs (λ a b. a < b) self.now }
    {
        self.numbers.as_slice()
    }
}

/// The frames that were reached so far.
#[derive(Drop)]
pub(crate) struct Marks {
    alloc: Global,
    numbers: BTreeSet<u64>,
}

impl Model for Marks {
    ghost use Rattle.std.specs.Prelude.{ℕ, List};
    ghost use Rattle.std.specs.List.Sorted.{IsStrictlySortedBy};
    ghost use Rattle.std.specs.Ordering.{nat_cmp};

    ghost Value = { List ℕ };

    ghost view = { λ m. m.numbers.keys };

    ghost invariant = { λ m. IsStrictlySortedBy nat_cmp m.numbers.keys };
}

impl Marks {
    pub(crate) fn new(alloc: Global) -> Marks
        ensures { result ≡ [] }
    {
        Marks {
            alloc,
            numbers: BTreeSet::new(alloc),
        }
    }

    /// Adds a frame, and answers whether it is new. Allocates memory.
    pub(crate) fn add(&mut self, number: u64) -> Result<bool, Memory>
        ensures new { IfOk result (λ new. IsTrue (not new) ↔ Contains self.old number) }
        ensures added { IfOk result (λ _. AreJust self.new (number ∷ self.old)) }
    {
        Ok(self.numbers.insert(number)?)
    }

    /// All of them, by rising number. Allocates memory.
    pub(crate) fn list(self) -> Result<Reached, Memory>
        ensures { IfOk result (λ reached. reached ≡ self) }
    {
        let numbers = self.numbers.into_iter().collect::<Vec<u64>>(self.alloc)?;
        Ok(Reached { numbers })
    }
}
