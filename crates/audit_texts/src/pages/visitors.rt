//! What takes the pages of a table, one after another, and makes their lines.

ghost use Rattle.std.specs.Prelude.{◌≡◌, ◌≤◌, ◌^◌, ◌++◌, ◌∷◌, [], List, All, IfOk, string_bytes};
ghost use Rattle.vs_types.specs.Page.{end_of};
ghost use Rattle.vs_types.specs.declared.addresses.page.Page.{Page};
ghost use Rattle.audit_texts.specs.Listing.{page_lines, range_lines};
ghost use Rattle.audit_texts.specs.Ranges.{ranges_of};
ghost use Rattle.audit_texts.specs.inside.Taking.{HasJoined};

use crate::pages::lines::{push_page_line, push_range_line};
use crate::pages::range::PageRange;
use std::alloc::Global;
use vs_types::{Memory, Page};
use vs_walk::PageVisitor;

/// The lines of the pages that it has taken.
#[derive(Drop)]
pub(crate) struct PageLines {
    pub(crate) text: String,
}

impl PageLines {
    /// No lines. It allocates no memory.
    pub(crate) fn new(alloc: Global) -> PageLines
        ensures { string_bytes result.text ≡ [] }
    {
        PageLines {
            text: String::new(alloc),
        }
    }
}

impl PageVisitor for PageLines {
    ghost HasTaken = { λ lines pages. string_bytes lines.text ≡ page_lines pages };

    fn take(&mut self, page: Page) -> Result<(), Memory>
        ensures { IfOk result
            (λ _. (pages : List Page) → string_bytes self.old.text ≡ page_lines pages
            → string_bytes self.new.text ≡ page_lines (pages ++ page ∷ [])) }
    {
        push_page_line(&mut self.text, page)?;
        Ok(())
    }
}

/// The lines of the ranges of the pages that it has taken, but of the last one, which may go on.
#[derive(Drop)]
pub(crate) struct RangeLines {
    text: String,
    open: Option<PageRange>,
}

impl RangeLines {
    /// No lines. It allocates no memory.
    pub(crate) fn new(alloc: Global) -> RangeLines
        ensures { HasJoined (string_bytes result.text) result.open [] }
    {
        RangeLines {
            text: String::new(alloc),
            open: None,
        }
    }

    /// All lines, where no page comes any more.
    pub(crate) fn end(self) -> Result<String, Memory>
        ensures { IfOk result (λ text. (pages : List Page)
            → HasJoined (string_bytes self.text) self.open pages
            → All (λ page. end_of page ≤ 2 ^ 64) pages
            → string_bytes text ≡ range_lines (ranges_of pages)) }
    {
        let RangeLines { mut text, open } = self;
        if let Some(range) = open {
            push_range_line(&mut text, range)?;
        }
        Ok(text)
    }
}

impl PageVisitor for RangeLines {
    ghost HasTaken = { λ lines pages. HasJoined (string_bytes lines.text) lines.open pages };

    fn take(&mut self, page: Page) -> Result<(), Memory>
        ensures { IfOk result
            (λ _. (pages : List Page) → HasJoined (string_bytes self.old.text) self.old.open pages
            → HasJoined (string_bytes self.new.text) self.new.open (pages ++ page ∷ [])) }
    {
        let Some(range) = self.open else {
            self.open = Some(PageRange::alone(page));
            return Ok(());
        };
        if range.goes_on_with(page) {
            self.open = Some(range.longer());
            return Ok(());
        }
        push_range_line(&mut self.text, range)?;
        self.open = Some(PageRange::alone(page));
        Ok(())
    }
}
