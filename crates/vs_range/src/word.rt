//! Entries of pages.
ghost use Rattle.std.specs.Prelude.{◌≤◌, IsFalse, IsTrue};
ghost use Rattle.vs_range.specs.Planner.{IsPageWord};

use vs_types::{Entry, Meaning};

/// Whether a word of a table of this level is the entry of a page.
pub(crate) fn is_page(level: u8, word: u64) -> bool
    requires some { 1 ≤ level }
    requires few { level ≤ 5 }
    ensures page { IsTrue result → IsPageWord level word }
    ensures none { IsFalse result → IsPageWord level word → ⊥ }
{
    match Entry::new(word).read(level) {
        Meaning::Leaf(_, _) => true,
        _ => false,
    }
}
