//! From when on and until when each page may be found, as far as its own changes say. A page that is changed again while a change of it is
//! open stays all that time.

ghost use Rattle.std.specs.Prelude.{◌≡◌, ℕ, ◌<◌, ◌≤◌, ◌^◌, ◌++◌, ◌∷◌, [], Contains, IfOk, IsTrue, OnOk};
ghost use Rattle.std.specs.List.Sorted.{IsPermutation};
ghost use Rattle.vs_types.specs.declared.addresses.page.Page.{Page as PageRow};
ghost use Rattle.nr_touch.specs.declared.releases.seen.Seen.{Seen as SeenRow};
ghost use Rattle.nr_touch.specs.inside.Columns.{AreColumns};
ghost use Rattle.nr_touch.specs.inside.Reached.{IsAlive, IsRoomy, IsSamePlace};
ghost use Rattle.nr_touch.specs.inside.Stays.{AreRoomy, HasStay, HaveStays};

use crate::changes::change::number_of;
use crate::changes::history::History;
use crate::releases::seen::Seen;
use std::alloc::Global;
use vs_types::{Memory, Page};

/// A page may be found from one event to another.
#[derive(Clone, Copy, Debug)]
pub(crate) struct Stay {
    pub(crate) page: Page,
    /// The most entries of the log after which it is there so.
    pub(crate) place: u32,
    pub(crate) from: u32,
    pub(crate) until: u32,
}

/// From when on and until when a touch may find the page, as far as its own changes say: `u32::MAX` and 0 where it isn't there.
fn span(history: &History, seen: &Seen) -> (u32, u32)
    requires columns { AreColumns history.now }
    requires roomy { IsRoomy seen.now.page }
    ensures { (event : ℕ) → event < 2 ^ 32 → IsAlive history.now.changes.items seen.now event
        → (result.0 ≤ event) × (event ≤ result.1) }
{
    if seen.there {
        let number = number_of(seen.page);
        let from = history.latest_made(number, seen.place);
        let until = history.earliest_taken(number, seen.place);
        return (from, until);
    }
    (u32::MAX, 0)
}

/// Whether two pages have the same addresses and the same memory.
fn is_same_place(page: Page, other: Page) -> bool
    ensures { IsTrue result → IsSamePlace page other }
{
    if page.base != other.base {
        return false;
    }
    if page.phys != other.phys {
        return false;
    }
    page.size == other.size
}

impl Stay {
    /// Whether both are of the same addresses and memory, and have an event in common.
    fn meets(&self, other: &Stay) -> bool
        ensures { IsTrue result → IsSamePlace self.now.page other.now.page }
    {
        if other.from > self.until {
            return false;
        }
        if self.from > other.until {
            return false;
        }
        is_same_place(self.page, other.page)
    }

    /// One stay that has the events of both.
    fn with(&self, other: &Stay) -> Stay
        ensures page { result.page ≡ self.now.page }
        ensures places { (self.now.place ≤ result.place) × (other.now.place ≤ result.place) }
        ensures own { (result.from ≤ self.now.from) × (self.now.until ≤ result.until) }
        ensures other { (result.from ≤ other.now.from) × (other.now.until ≤ result.until) }
    {
        Stay {
            page: self.page,
            place: self.place.max(other.place),
            from: self.from.min(other.from),
            until: self.until.max(other.until),
        }
    }
}

/// Adds a stay at the end. If it meets the last one, the two become one. A stay that ends before it begins is left out.
fn put(stays: &mut Vec<Stay>, stay: Stay) -> Result<(), Memory>
    ensures kept { OnOk result ((page : PageRow) (place event : ℕ)
        → HasStay (stays.old.items ++ stay ∷ []) page place event
        → HasStay stays.new.items page place event) }
    ensures roomy { OnOk result (AreRoomy stays.old.items → IsRoomy stay.page
        → AreRoomy stays.new.items) }
{
    if stay.until < stay.from {
        return Ok(());
    }
    if let Some(last) = stays.pop() {
        if last.meets(&stay) {
            stays.push(last.with(&stay))?;
            return Ok(());
        }
        stays.push(last)?;
    }
    stays.push(stay)?;
    Ok(())
}

/// Sorts the pages by memory, so that those of one place come together. Those of one memory keep their order.
fn sort(seen: &mut Vec<Seen>) -> Result<(), Memory>
    ensures { OnOk result (IsPermutation seen.old.items seen.new.items) }
{
    seen.sort_by_key(|each| each.page.phys)?;
    Ok(())
}

/// The stays of the pages, in their order. Those of one page that follow each other and meet are one.
fn listed(alloc: Global, history: &History, seen: &[Seen]) -> Result<Vec<Stay>, Memory>
    requires columns { AreColumns history.now }
    requires roomy { (s : SeenRow) → Contains seen.now s → IsRoomy s.page }
    ensures stays { IfOk result
        (λ stays. HaveStays history.now.changes.items seen.now stays.items) }
    ensures roomy { IfOk result (λ stays. AreRoomy stays.items) }
{
    let mut stays = Vec::new(alloc);
    for each in seen {
        let (from, until) = span(history, each);
        let page = each.page;
        let place = each.place;
        put(
            &mut stays,
            Stay {
                page,
                place,
                from,
                until,
            },
        )?;
    }
    Ok(stays)
}

/// The stays of the pages. Allocates 40 bytes for each page, and while it sorts a copy of them.
pub(crate) fn stays_of(
    alloc: Global,
    history: &History,
    seen: Vec<Seen>,
) -> Result<Vec<Stay>, Memory>
    requires columns { AreColumns history.now }
    requires roomy { (s : SeenRow) → Contains seen.items s → IsRoomy s.page }
    ensures stays { IfOk result
        (λ stays. HaveStays history.now.changes.items seen.items stays.items) }
    ensures roomy { IfOk result (λ stays. AreRoomy stays.items) }
{
    let mut seen = seen;
    sort(&mut seen)?;
    listed(alloc, history, &seen)
}
