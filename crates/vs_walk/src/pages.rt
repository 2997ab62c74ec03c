//! The pages that a page table maps, and what `leaves` answers.
ghost use Rattle.std.specs.Prelude.{◌≡◌};

use crate::reached::Reached;
use std::marker::Model;
use vs_types::Page;

/// Pages one after another. Contracts see their list.
#[derive(Debug, Drop)]
pub struct Pages {
    pages: Vec<Page>,
}

impl Model for Pages {
    ghost use Rattle.std.specs.Prelude.{List};
    ghost use Rattle.std.specs.Coded.{coded_list};
    ghost use Rattle.vs_types.specs.contracts.addresses.page.Page as page_contract;
    ghost use Rattle.vs_types.specs.declared.addresses.page.Page.{Page};

    ghost Value = { List Page };

    ghost coded = { coded_list page_contract.the_row.coded };

    ghost view = { λ p. p.pages.items };
}

impl Pages {
    /// These pages.
    pub(crate) fn of(pages: Vec<Page>) -> Pages
        ensures { result ≡ pages.items }
    {
        Pages { pages }
    }

    /// All of them, in order.
    pub fn as_slice(&self) -> &[Page]
        ensures { result.now ≡ self.now }
    {
        self.pages.as_slice()
    }
}

/// What the tables of a memory map, and the frames that they take.
#[derive(Debug, Drop)]
pub struct Leaves {
    /// The pages by rising base, each with the rights that the entries of all levels allow.
    pub pages: Pages,
    /// The frames that are reached, by rising number: the root, and the table that each entry leads to.
    pub reached: Reached,
}
