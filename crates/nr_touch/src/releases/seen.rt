//! The pages that a touch of a segment may find: those that are there at its end, and those before its changes and the ones left before it.

ghost use Rattle.std.specs.Prelude.{◌≡◌, ◌++◌, [], map, Contains, IfOk};
ghost use Rattle.vs_types.specs.declared.addresses.page.Page.{Page as PageRow};
ghost use Rattle.nr_touch.specs.inside.Joined.{IsBuilt};
ghost use Rattle.nr_touch.specs.inside.Reached.{seen_before, seen_left, seen_now, AreSeen, IsRoomy};
ghost use Rattle.nr_touch.specs.inside.Levels.{left_in};

use crate::changes::change::{PlacedChange, taken_at};
use crate::changes::history::History;
use crate::touches::joined::Joined;
use std::alloc::Global;
use vs_types::{Memory, Page};

/// A page that a touch may find after so many entries of the log.
#[derive(Clone, Copy, Debug)]
pub(crate) struct Seen {
    pub(crate) page: Page,
    pub(crate) place: u32,
    /// Whether it is there then: a page that is mapped next is not, nor one before a change that earlier segments left and that ends this.
    pub(crate) there: bool,
}

fn seen_now(page: Page, places: u32) -> Seen
    ensures { result ≡ seen_now places page }
{
    Seen {
        page,
        place: places,
        there: true,
    }
}

fn seen_before(placed: &PlacedChange) -> Seen
    ensures { result ≡ seen_before placed.now }
{
    Seen {
        page: placed.change.page,
        place: placed.place,
        there: placed.change.was_mapped,
    }
}

fn seen_left(placed: &PlacedChange) -> Seen
    ensures { result ≡ seen_left placed.now }
{
    let is_ended = taken_at(placed) < u32::MAX;
    Seen {
        page: placed.change.page,
        place: 0,
        there: placed.change.was_mapped && !is_ended,
    }
}

/// The pages that are there after the whole log, of so many places.
fn all_now(alloc: Global, present: &[Page], places: u32) -> Result<Vec<Seen>, Memory>
    ensures { IfOk result (λ v. v.items ≡ map (seen_now places) present.now) }
{
    Ok(
        present
            .iter()
            .map(|page| seen_now(*page, places))
            .collect(alloc)?,
    )
}

/// The pages before the changes of the segment.
fn all_before(alloc: Global, changes: &[PlacedChange]) -> Result<Vec<Seen>, Memory>
    ensures { IfOk result (λ v. v.items ≡ map seen_before changes.now) }
{
    Ok(changes.iter().map(|each| seen_before(each)).collect(alloc)?)
}

/// The pages before these changes that earlier segments left.
fn all_of(alloc: Global, changes: &[PlacedChange]) -> Result<Vec<Seen>, Memory>
    ensures { IfOk result (λ v. v.items ≡ map seen_left changes.now) }
{
    Ok(changes.iter().map(|each| seen_left(each)).collect(alloc)?)
}

/// The pages before all changes that earlier segments left.
fn all_left(alloc: Global, levels: &[History]) -> Result<Vec<Seen>, Memory>
    ensures { IfOk result (λ v. v.items ≡ map seen_left (left_in levels.now)) }
{
    let mut seen = Vec::new(alloc);
    for level in levels {
        let more = all_of(alloc, &level.changes)?;
        seen = with_more(seen, &more)?;
    }
    Ok(seen)
}

/// Some pages, and behind them others.
fn with_more(seen: Vec<Seen>, more: &[Seen]) -> Result<Vec<Seen>, Memory>
    ensures { IfOk result (λ v. v.items ≡ seen.items ++ more.now) }
{
    let mut seen = seen;
    seen.extend_from_slice(more)?;
    Ok(seen)
}

/// Of so many pages that are there after the log of a segment, and of those before its changes: each that a touch
/// may find by the segment alone. Allocates 32 bytes for each of them; and as many again, which are freed, for each that a change is of.
pub(crate) fn seen_in(alloc: Global, joined: &Joined, present: &[Page]) -> Result<Vec<Seen>, Memory>
    requires built { IsBuilt joined.now }
    requires roomy { (page : PageRow) → Contains present.now page → IsRoomy page }
    ensures { IfOk result (λ seen. AreSeen joined.now [] present.now seen.items) }
{
    let now = all_now(alloc, present, joined.places)?;
    let before = all_before(alloc, &joined.history.changes)?;
    let seen = with_more(now, &before)?;
    Ok(seen)
}

/// The same, and those that earlier segments left. Allocates as much again for each of these.
pub(crate) fn seen_of(alloc: Global, joined: &Joined, present: &[Page]) -> Result<Vec<Seen>, Memory>
    requires built { IsBuilt joined.now }
    requires roomy { (page : PageRow) → Contains present.now page → IsRoomy page }
    ensures { IfOk result (λ seen. AreSeen joined.now (left_in joined.now.earlier.items)
        present.now seen.items) }
{
    let own = seen_in(alloc, joined, present)?;
    let left = all_left(alloc, &joined.earlier)?;
    let seen = with_more(own, &left)?;
    Ok(seen)
}
