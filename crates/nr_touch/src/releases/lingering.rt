//! Pages that addresses may still be found to look as, since updates of earlier segments left them; listed by the memory that they lead
//! into.

ghost use Rattle.std.specs.Prelude.{◌≡◌, ℕ, ◌≤◌, ◌⊎◌, ◌++◌, false, length, slice_get, Contains, IfOk, IfSome, IsTrue, List, OnOk, Option, Some};
ghost use Rattle.vs_types.specs.Space.{Space};
ghost use Rattle.vs_types.specs.declared.addresses.page.Page.{Page as PageRow};
ghost use Rattle.nr_trace.specs.Recording.{IsMemory};
ghost use Rattle.nr_touch.specs.Tails.{ends_look, HasNoEnd, IsLeft, IsSoundLeft};
ghost use Rattle.nr_touch.specs.declared.releases.overs.Over.{Over as OverRow};
ghost use Rattle.nr_touch.specs.declared.releases.overs.Overs.{Overs as OversRow};
ghost use Rattle.nr_touch.specs.declared.touches.tail.Left.{Left as LeftRow};
ghost use Rattle.nr_touch.specs.inside.Blocks.{IsBlockOf, IsRoomy};
ghost use Rattle.nr_touch.specs.inside.Changes.{page_before};
ghost use Rattle.nr_touch.specs.inside.Indexed.{HasPages, IsIndexedAs};
ghost use Rattle.nr_touch.specs.inside.Joined.{Behind, IsBuilt};
ghost use Rattle.nr_touch.specs.inside.Lefts.{KeepLooks};
ghost use Rattle.nr_touch.specs.inside.Listed.{AreListed, AreWithin, HasRoom, IsListed};
ghost use Rattle.nr_touch.specs.inside.Overs.{IsNoted};
ghost use Rattle.nr_touch.specs.inside.Reached.{IsOpen, IsOpenThere, LeadsSo, LeadsThere};

use crate::releases::index::Index;
use crate::releases::meeting::leads_there;
use crate::releases::overs::Overs;
use crate::releases::release::Release;
use crate::touches::joined::Joined;
use crate::touches::tail::{Left, ends_itself};
use std::alloc::Global;
use std::collections::BTreeSet;
use vs_types::{Memory, Page};

/// Pages that addresses may still be found to look as: a list of them, and their numbers in it by the memory that they lead into.
#[derive(Debug, Drop)]
pub(crate) struct Lingering {
    pub(crate) index: Index,
    pub(crate) pages: Vec<Page>,
}

/// What a release is compared with behind the first segment with releases.
#[derive(Debug, Drop)]
pub(crate) struct Indexes {
    /// The pages that are there now, by the memory that they lead into.
    pub(crate) pages: Index,
    /// Those that addresses may still be found to look as.
    pub(crate) lingering: Lingering,
    /// How many of the first of these, if they are of a block, lead no more to a memory.
    pub(crate) gone: Overs,
}

impl Lingering {
    /// Lists the page before a change, if its update may still leave addresses to look so. Allocates memory for its rows.
    fn note(&mut self, left: &Left) -> Result<(), Memory>
        requires { IsSoundLeft left.now }
        ensures room { OnOk result (HasRoom self.old → HasRoom self.new) }
        ensures grown { OnOk result (length self.old.pages.items ≤ length self.new.pages.items) }
        ensures others { OnOk result ((gone : OversRow) (page : PageRow) (frame : ℕ)
            → IsListed self.old gone page frame → IsListed self.new gone page frame) }
        ensures own { OnOk result ((gone : OversRow) (page : PageRow) (frame : ℕ)
            → AreWithin self.old gone → page_before left.now.change ≡ Some page
            → ends_look left.now (Some page) ≡ false → IsListed self.new gone page frame) }
    {
        if !left.change.was_mapped {
            return Ok(());
        }
        if ends_itself(left) {
            return Ok(());
        }
        let page = left.change.page;
        let number = self.pages.len() as u64;
        self.index.note(page, number)?;
        self.pages.push(page)?;
        Ok(())
    }

    /// Lists the pages that these changes leave. Allocates 24 bytes and four rows of 16 bytes for each.
    fn note_all(&mut self, lefts: &[Left]) -> Result<(), Memory>
        requires { (left : LeftRow) → Contains lefts.now left → IsSoundLeft left }
        ensures room { OnOk result (HasRoom self.old → HasRoom self.new) }
        ensures grown { OnOk result (length self.old.pages.items ≤ length self.new.pages.items) }
        ensures others { OnOk result ((gone : OversRow) (page : PageRow) (frame : ℕ)
            → IsListed self.old gone page frame → IsListed self.new gone page frame) }
        ensures own { OnOk result ((gone : OversRow) → AreWithin self.old gone
            → AreListed (IsLeft lefts.now) self.new gone) }
    {
        for left in lefts {
            self.note(left)?;
        }
        Ok(())
    }
}

/// The indexes of pages, and of those that changes leave. Allocates what `note_all` does.
pub(crate) fn with_listed(alloc: Global, pages: Index, lefts: &[Left]) -> Result<Indexes, Memory>
    requires { (left : LeftRow) → Contains lefts.now left → IsSoundLeft left }
    ensures pages { IfOk result (λ indexes. indexes.pages ≡ pages) }
    ensures room { IfOk result (λ indexes. HasRoom indexes.lingering) }
    ensures listed { IfOk result
        (λ indexes. AreListed (IsLeft lefts.now) indexes.lingering indexes.gone) }
{
    let mut lingering = Lingering {
        index: Index {
            rows: BTreeSet::new(alloc),
        },
        pages: Vec::new(alloc),
    };
    lingering.note_all(lefts)?;
    let gone = Overs::none(alloc);
    Ok(Indexes {
        pages,
        lingering,
        gone,
    })
}

/// Whether so many more pages are listed, or so much more is noted of them, than changes are left, that listing again costs no more.
fn is_worn(lingering: &Lingering, gone: &Overs, changes: usize) -> bool {
    let fair = changes.saturating_add(1000);
    lingering.pages.len() / 2 > fair || gone.known.len() / 16 > fair
}

/// The indexes behind a segment that made its own changes, and behind which these are left. Allocates what `note_all` does.
pub(crate) fn indexes_after(
    alloc: Global,
    index: Option<Indexes>,
    changes: &[Left],
    own: &[Left],
) -> Result<Option<Indexes>, Memory>
    requires changes { (left : LeftRow) → Contains changes.now left → IsSoundLeft left }
    requires own { (left : LeftRow) → Contains own.now left → IsSoundLeft left }
    ensures pages { (space : Space) → IfSome index (λ indexes. HasPages indexes.pages space)
        → IfOk result (λ after. IfSome after (λ indexes. HasPages indexes.pages space)) }
    ensures room { IfSome index (λ indexes. HasRoom indexes.lingering)
        → IfOk result (λ after. IfSome after (λ indexes. HasRoom indexes.lingering)) }
    ensures listed { (old : List LeftRow) → KeepLooks (old ++ own.now) changes.now
        → IfSome index (λ indexes. AreListed (λ address page. IsLeft old address page
        × HasNoEnd own.now address page) indexes.lingering indexes.gone)
        → IfOk result (λ after. IfSome after
        (λ indexes. AreListed (IsLeft changes.now) indexes.lingering indexes.gone)) }
{
    let Some(indexes) = index else {
        return Ok(None);
    };
    let Indexes {
        pages,
        lingering,
        gone,
    } = indexes;
    if is_worn(&lingering, &gone, changes.len()) {
        let fresh = with_listed(alloc, pages, changes)?;
        return Ok(Some(fresh));
    }
    let mut lingering = lingering;
    lingering.note_all(own)?;
    Ok(Some(Indexes {
        pages,
        lingering,
        gone,
    }))
}

// ---- releases beside them

/// Whether an access that begins with the release could reach its memory through the page of this number.
fn leads_in_row(joined: &Joined, pages: &[Page], release: &Release, number: u64) -> bool
    requires built { IsBuilt joined.now }
    requires room { (page : PageRow) → Contains pages.now page → IsRoomy page }
    requires memory { IsMemory release.now.size release.now.phys }
    ensures sound { (b : Behind joined.now) → IsTrue result
        → (page : PageRow) × LeadsThere b release.now page }
    ensures whole { (b : Behind joined.now) (page : PageRow)
        → slice_get pages.now number ≡ Some page → LeadsSo b release.now page → IsTrue result }
{
    let row = number as usize;
    let many = pages.len();
    if row >= many {
        return false;
    }
    leads_there(joined, release, pages[row])
}

/// Whether an access that begins with the release could reach its memory through a page that is listed in this block, from this number on;
/// and whether it was compared with one.
fn leads_in_rows(
    joined: &Joined,
    lingering: &Lingering,
    release: &Release,
    block: u64,
    first: usize,
) -> (bool, bool)
    requires built { IsBuilt joined.now }
    requires room { HasRoom lingering.now }
    requires memory { IsMemory release.now.size release.now.phys }
    ensures sound { (b : Behind joined.now) → IsTrue result.0
        → (page : PageRow) × LeadsThere b release.now page }
    ensures whole { (b : Behind joined.now) (page : PageRow) (number : ℕ)
        → slice_get lingering.now.pages.items number ≡ Some page
        → IsIndexedAs lingering.now.index page number → IsBlockOf page block → first ≤ number
        → LeadsSo b release.now page → IsTrue result.0 }
{
    let mut compared = false;
    for row in lingering
        .index
        .rows
        .range((block, first as u64)..=(block, u64::MAX))
    {
        compared = true;
        if leads_in_row(joined, &lingering.pages, release, row.1) {
            return (true, compared);
        }
    }
    (false, compared)
}

/// The number from which on a release is compared with the pages that are listed in a block: a search.
fn first_of(gone: &Overs, release: &Release, block: u64) -> usize
    ensures { (result ≡ 0) ⊎ ((over : OverRow) × IsNoted gone.now release.now block over
        × (over.rows ≡ result)) }
{
    match gone.noted(release, block) {
        Some(over) => over.rows,
        None => 0,
    }
}

/// Whether an access that begins with the release could reach its memory through a page that is listed in this block. Allocates memory for
/// what it notes where it was compared in vain.
pub(crate) fn leads_left_in(
    joined: &Joined,
    lingering: &Lingering,
    gone: &mut Overs,
    release: &Release,
    block: u64,
) -> Result<bool, Memory>
    requires built { IsBuilt joined.now }
    requires room { HasRoom lingering.now }
    requires memory { IsMemory release.now.size release.now.phys }
    ensures sound { (b : Behind joined.now) → IfOk result (λ leads. IsTrue leads
        → (page : PageRow) × LeadsThere b release.now page) }
    ensures whole { (b : Behind joined.now) (page : PageRow) (frame : ℕ)
        → AreListed (IsOpen b release.now.made) lingering.now gone.old
        → IsOpenThere b release.now page frame → IsBlockOf page block
        → IfOk result (λ leads. IsTrue leads) }
    ensures listed { (b : Behind joined.now)
        → AreListed (IsOpen b release.now.made) lingering.now gone.old
        → OnOk result (AreListed (IsOpen b release.now.made) lingering.now gone.new) }
{
    let first = first_of(gone, release, block);
    let (leads, compared) = leads_in_rows(joined, lingering, release, block, first);
    if leads {
        return Ok(true);
    }
    if !compared {
        return Ok(false);
    }
    gone.note(release, block, lingering.pages.len())?;
    Ok(false)
}
