//! A release beside the pages that updates of its segment changed: a search finds those that may be met.

ghost use Rattle.std.specs.Prelude.{◌≡◌, ◌<◌, ◌≤◌, ◌⊎◌, if◌then◌else◌, false, max, slice_get, Contains, IfOk, IsTrue, OnOk, Some};
ghost use Rattle.vs_types.specs.declared.addresses.page.Page.{Page as PageRow};
ghost use Rattle.nr_trace.specs.Recording.{IsMemory};
ghost use Rattle.nr_touch.specs.declared.releases.stays.Stay.{Stay as StayRow};
ghost use Rattle.nr_touch.specs.inside.Blocks.{IsBlockOf};
ghost use Rattle.nr_touch.specs.inside.Joined.{Behind, IsBuilt};
ghost use Rattle.nr_touch.specs.inside.Met.{AreRows, HasSeen};
ghost use Rattle.nr_touch.specs.inside.Overs.{AreKnown, AreOver, IsSettled};
ghost use Rattle.nr_touch.specs.inside.Reached.{IsRoomy, LeadsBy, LeadsSo, LeadsThere};
ghost use Rattle.nr_touch.specs.inside.Stays.{AreRoomy};

use crate::releases::lives::Lives;
use crate::releases::meeting::{is_settled, leads_there};
use crate::releases::overs::Overs;
use crate::releases::release::Release;
use crate::releases::seen::seen_in;
use crate::releases::stays::{Stay, stays_of};
use crate::releases::stretches::Stretches;
use crate::touches::joined::Joined;
use std::alloc::Global;
use vs_types::{Memory, Page};

/// The pages that changes of a segment are of, and from when on and until when a touch may find them, as far as these say.
#[derive(Debug, Drop)]
pub(crate) struct Changed {
    pub(crate) stays: Vec<Stay>,
    pub(crate) lives: Lives,
    pub(crate) stretches: Stretches,
}

impl Changed {
    /// Those of the pages that are there after the log, and of the ones before each change of the segment. Allocates
    /// at most 344 bytes for each of them, of which 160 are freed.
    pub(crate) fn of(alloc: Global, joined: &Joined, present: &[Page]) -> Result<Changed, Memory>
        requires built { IsBuilt joined.now }
        requires roomy { (page : PageRow) → Contains present.now page → IsRoomy page }
        ensures seen { IfOk result (HasSeen joined.now present.now) }
        ensures rows { IfOk result AreRows }
    {
        let seen = seen_in(alloc, joined, present)?;
        let stays = stays_of(alloc, &joined.history, seen)?;
        let lives = Lives::of(alloc, &stays)?;
        let stretches = Stretches::of(alloc, &lives, &stays)?;
        Ok(Changed {
            stays,
            lives,
            stretches,
        })
    }
}

/// Whether the page of a stay hasn't gone by the release, and an access that begins with the release could reach its memory through that
/// page. The row is the index of the stay.
fn leads_in_row(joined: &Joined, stays: &[Stay], release: &Release, row: usize) -> bool
    requires built { IsBuilt joined.now }
    requires roomy { AreRoomy stays.now }
    requires memory { IsMemory release.now.size release.now.phys }
    ensures sound { (b : Behind joined.now) → IsTrue result
        → (page : PageRow) × LeadsThere b release.now page }
    ensures whole { (b : Behind joined.now) (stay : StayRow) → slice_get stays.now row ≡ Some stay
        → release.now.made ≤ stay.until → LeadsSo b release.now stay.page → IsTrue result }
{
    let many = stays.len();
    if row >= many {
        return false;
    }
    let stay = stays[row];
    let until = stay.until;
    let made = release.made;
    if until < made {
        return false;
    }
    leads_there(joined, release, stay.page)
}

/// Whether the page of a stay is over for the memory of the release, which it doesn't lead to now. The row is the index of the stay.
fn is_row_over(joined: &Joined, stays: &[Stay], release: &Release, row: usize) -> bool
    requires built { IsBuilt joined.now }
    requires roomy { AreRoomy stays.now }
    requires memory { IsMemory release.now.size release.now.phys }
    ensures { IsTrue result → (stay : StayRow) → slice_get stays.now row ≡ Some stay
        → (stay.until < release.now.made)
        ⊎ IsSettled joined.now.history.changes.items release.now stay.page stay.place }
{
    let many = stays.len();
    if row >= many {
        return true;
    }
    let stay = stays[row];
    let until = stay.until;
    let made = release.made;
    if until < made {
        return true;
    }
    is_settled(joined, release, stay.page, stay.place)
}

/// How many of the first rows are over, where those from this end on are, up to so many, and the last one before it is, or isn't.
fn over_with(over: usize, last: usize, end: usize, is_over: bool) -> usize
    ensures { result ≡ (if is_over then max over end else last) }
{
    if is_over { over.max(end) } else { last }
}

/// Whether an access that begins with the release could reach its memory through a page that leads into this block then; and how many of
/// the first rows are over for it, if they are of this block. So many were before. It is compared with the pages of the others that began
/// to lead there by then and may still do so, from the last one back.
fn leads_in_rows(
    joined: &Joined,
    changed: &Changed,
    release: &Release,
    block: u64,
    before: usize,
) -> (bool, usize)
    requires built { IsBuilt joined.now }
    requires rows { AreRows changed.now }
    requires memory { IsMemory release.now.size release.now.phys }
    ensures sound { (b : Behind joined.now) → IsTrue result.0
        → (page : PageRow) × LeadsThere b release.now page }
    ensures whole { (b : Behind joined.now) (stay : StayRow)
        → AreOver b changed.now release.now block 0 before → Contains changed.now.stays.items stay
        → IsBlockOf stay.page block → stay.from ≤ release.now.made → release.now.made ≤ stay.until
        → LeadsBy b release.now stay.page stay.place → IsTrue result.0 }
    ensures over { (b : Behind joined.now) → AreOver b changed.now release.now block 0 before
        → result.0 ≡ false → AreOver b changed.now release.now block 0 result.1 }
{
    let lives = &changed.lives;
    let stretches = &changed.stretches;
    let made = release.made;
    let mut end = lives.begun(block, made);
    let mut over = before;
    while end > before {
        let last = end - 1;
        let own = lives.blocks[last];
        if own != block {
            return (false, over);
        }
        let until = stretches.until[last];
        if until < made {
            end = stretches.since[last];
        } else {
            let row = lives.rows[last];
            if leads_in_row(joined, &changed.stays, release, row) {
                return (true, over);
            }
            let is_over = is_row_over(joined, &changed.stays, release, row);
            over = over_with(over, last, end, is_over);
            end = last;
        }
    }
    (false, over)
}

/// Whether an access that begins with the release could reach its memory through a page that leads into this block then. Allocates memory
/// for what it notes where it was compared in vain.
pub(crate) fn leads_in_block(
    joined: &Joined,
    changed: &Changed,
    overs: &mut Overs,
    release: &Release,
    block: u64,
) -> Result<bool, Memory>
    requires built { IsBuilt joined.now }
    requires rows { AreRows changed.now }
    requires memory { IsMemory release.now.size release.now.phys }
    ensures sound { (b : Behind joined.now) → IfOk result (λ leads. IsTrue leads
        → (page : PageRow) × LeadsThere b release.now page) }
    ensures whole { (b : Behind joined.now) (stay : StayRow) → AreKnown b changed.now overs.old
        → Contains changed.now.stays.items stay → IsBlockOf stay.page block
        → stay.from ≤ release.now.made → release.now.made ≤ stay.until
        → LeadsBy b release.now stay.page stay.place → IfOk result (λ leads. IsTrue leads) }
    ensures known { (b : Behind joined.now) → AreKnown b changed.now overs.old
        → OnOk result (AreKnown b changed.now overs.new) }
{
    let before = overs.rows(release, block);
    let (leads, over) = leads_in_rows(joined, changed, release, block, before);
    if leads {
        return Ok(true);
    }
    if over <= before {
        return Ok(false);
    }
    overs.note(release, block, over)?;
    Ok(false)
}
