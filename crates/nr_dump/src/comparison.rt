//! The pages of a dump beside those of a space, by rising base.

ghost use Rattle.std.specs.Prelude.{◌≡◌, ◌↔◌, ◌++◌, ◌∷◌, [], List, Option, IsTrue, IsOk, IfOk};
ghost use Rattle.nr_dump.specs.inside.Comparing.{AreTaken, HasCompared, IsCompared};
ghost use Rattle.vs_types.specs.declared.addresses.page.Page.{Page};

use vs_plain::Pages;
use vs_types::{Memory, Page};
use vs_walk::PageVisitor;

/// The pages of a space, beside which those of a dump are taken, both by rising base.
#[derive(Drop)]
pub(crate) struct Comparison<'a> {
    /// The pages that were not met yet.
    pages: Pages<'a>,
    /// The first address that is translated otherwise, if there is one.
    difference: Option<u64>,
}

fn are_equal(left: Page, right: Page) -> bool
    ensures { IsTrue result ↔ (left ≡ right) }
{
    left == right
}

impl<'a> Comparison<'a> {
    pub(crate) fn new(pages: Pages<'a>) -> Comparison<'a>
        ensures { result ≡ record { pages = pages.entry; difference = None } }
    {
        Comparison {
            pages,
            difference: None,
        }
    }

    /// The first address that is translated otherwise, where all pages of the dump were taken.
    pub(crate) fn difference(mut self) -> Option<u64>
        ensures { (pages taken : List Page)
            → AreTaken pages self.entry.pages self.entry.difference taken
            → IsCompared taken pages result }
    {
        match self.difference {
            Some(address) => Some(address),
            None => Some(self.pages.next()?.base),
        }
    }
}

impl<'a> PageVisitor for Comparison<'a> {
    ghost HasTaken = { λ comparison told. HasCompared comparison.pages comparison.difference told };

    /// It allocates no memory.
    fn take(&mut self, page: Page) -> Result<(), Memory>
        ensures taken { IfOk result
            (λ _. (told : List Page) → HasCompared self.old.pages self.old.difference told
            → HasCompared self.new.pages self.new.difference (told ++ page ∷ [])) }
        ensures answers { IsOk result }
    {
        if self.difference.is_some() {
            return Ok(());
        }
        let Some(next) = self.pages.next() else {
            self.difference = Some(page.base);
            return Ok(());
        };
        if !are_equal(page, next) {
            self.difference = Some(page.base.min(next.base));
        }
        Ok(())
    }
}
