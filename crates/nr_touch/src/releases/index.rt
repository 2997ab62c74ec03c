//! Pages by the memory that they lead into: so that a release costs a few searches, however many pages there are.

ghost use Rattle.std.specs.Prelude.{◌≡◌, ℕ, ◌⊎◌, Contains, IfOk, IfSome, OnOk, Some};
ghost use Rattle.vs_types.specs.Space.{Holds};
ghost use Rattle.vs_types.specs.declared.addresses.page.Page.{Page as PageRow};
ghost use Rattle.nr_touch.specs.inside.Indexed.{HasOwn, HasPages, IsIndexed, IsIndexedAs};
ghost use Rattle.nr_touch.specs.inside.Reached.{IsRoomy};

use crate::changes::change::PlacedChange;
use crate::releases::block::blocks;
use std::alloc::Global;
use std::collections::BTreeSet;
use vs_plain::PlainSpace;
use vs_plain::laws::pages_are_a_space;
use vs_types::{Answer, Memory, Page};

/// The keys of pages, each under the four blocks of memory that its page leads into: of the pages of a space their bases.
#[derive(Debug, Drop)]
pub(crate) struct Index {
    pub(crate) rows: BTreeSet<(u64, u64)>,
}

/// The page of the space that begins at this base, if one does.
pub(crate) fn page_from(space: &PlainSpace, base: u64) -> Option<Page>
    ensures is { (page : PageRow) → Holds space.now.space page → page.base ≡ base
        → result ≡ Some page }
    ensures only { IfSome result (Holds space.now.space) }
    ensures roomy { IfSome result IsRoomy }
{
    pages_are_a_space(space);
    let Answer::Mapped(phys, size, rights) = space.resolve(base) else {
        return None;
    };
    if base % size.bytes() != 0 {
        return None;
    }
    Some(Page {
        base,
        phys,
        size,
        rights,
    })
}

/// Adds the page that begins at this base, if one does, to those that were found. Allocates memory for it.
fn add_from(found: &mut Vec<Page>, space: &PlainSpace, base: u64) -> Result<(), Memory>
    ensures own { OnOk result ((page : PageRow) → Holds space.now.space page → page.base ≡ base
        → Contains found.new.items page) }
    ensures kept { OnOk result ((page : PageRow) → Contains found.old.items page
        → Contains found.new.items page) }
    ensures only { OnOk result ((page : PageRow) → Contains found.new.items page
        → Contains found.old.items page ⊎ Holds space.now.space page) }
{
    if let Some(page) = page_from(space, base) {
        found.push(page)?;
    }
    Ok(())
}

/// The pages of the space that begin where a page of the changes does. Allocates the list of them.
pub(crate) fn changed_now(
    alloc: Global,
    changes: &[PlacedChange],
    space: &PlainSpace,
) -> Result<Vec<Page>, Memory>
    ensures all { IfOk result (λ found. (page : PageRow) → Holds space.now.space page
        → HasOwn changes.now page → Contains found.items page) }
    ensures only { IfOk result (λ found. (page : PageRow) → Contains found.items page
        → Holds space.now.space page) }
{
    // the changes come by page, so those of one page follow one another: it is looked up once
    let mut found = Vec::new(alloc);
    let mut last = None;
    for placed in changes {
        let base = placed.change.page.base;
        if last == Some(base) {
            continue;
        }
        last = Some(base);
        add_from(&mut found, space, base)?;
    }
    Ok(found)
}

impl Index {
    /// The pages of a space. Allocates four rows of 16 bytes for each, and the nodes of the set around them.
    pub(crate) fn of(alloc: Global, space: &PlainSpace) -> Result<Index, Memory>
        ensures { IfOk result (λ index. HasPages index space.now.space) }
    {
        let mut index = Index {
            rows: BTreeSet::new(alloc),
        };
        for page in space.iter() {
            index.note(page, page.base)?;
        }
        Ok(index)
    }

    /// Gives a page its rows. Allocates memory for new ones.
    pub(crate) fn note(&mut self, page: Page, key: u64) -> Result<(), Memory>
        ensures own { OnOk result (IsIndexedAs self.new page key) }
        ensures others { OnOk result ((other : PageRow) (own : ℕ) → IsIndexedAs self.old other own
            → IsIndexedAs self.new other own) }
    {
        for block in blocks(page) {
            self.rows.insert((block, key))?;
        }
        Ok(())
    }

    /// Takes the rows of a page away.
    fn forget(&mut self, page: Page)
        ensures { (other : PageRow) → (other.base ≡ page.base → ⊥) → IsIndexed self.old other
            → IsIndexed self.new other }
    {
        for block in blocks(page) {
            self.rows.remove(&(block, page.base));
        }
    }

    /// Gives each of these pages its rows. Allocates memory for new ones.
    pub(crate) fn note_all(&mut self, pages: &[Page]) -> Result<(), Memory>
        ensures own { OnOk result ((page : PageRow) → Contains pages.now page
            → IsIndexed self.new page) }
        ensures others { OnOk result ((page : PageRow) → IsIndexed self.old page
            → IsIndexed self.new page) }
    {
        for page in pages {
            self.note(*page, page.base)?;
        }
        Ok(())
    }

    /// Takes away the rows of the pages of these changes. The pages that begin elsewhere keep theirs.
    pub(crate) fn forget_all(&mut self, changes: &[PlacedChange])
        ensures { (page : PageRow) → (HasOwn changes.now page → ⊥) → IsIndexed self.old page
            → IsIndexed self.new page }
    {
        for placed in changes {
            self.forget(placed.change.page);
        }
    }
}
