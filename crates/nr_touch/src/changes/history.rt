//! All changes of how addresses look, by page and place.

ghost use Rattle.std.specs.Prelude.{◌≡◌, ℕ, ◌+◌, ◌%◌, ◌<◌, ◌≤◌, ◌^◌, map, length, IfOk, OnOk, IfSome, Contains};
ghost use Rattle.std.specs.List.Sorted.{IsNonDecreasingBy, IsPermutation};
ghost use Rattle.nr_touch.specs.declared.changes.change.PlacedChange.{PlacedChange as PlacedRow};
ghost use Rattle.nr_touch.specs.inside.Bounds.{IsLowered, IsRising};
ghost use Rattle.nr_touch.specs.inside.Changes.{ended_at, number_at, taken_at, earlier};
ghost use Rattle.nr_touch.specs.inside.Alike.{AreAlikeTo, IsAlikeIn, IsBefore};
ghost use Rattle.nr_touch.specs.inside.Columns.{AreColumns, Covers, IsAhead, IsEarliest, IsLatest, IsNext, IsNumbered, IsOf, IsPast};

use crate::changes::bounds::{lower, raise};
use crate::changes::change::{PlacedChange, taken_at};
use crate::changes::search::{first_from, last_below, search};
use crate::changes::sights::Sights;
use std::alloc::Global;
use vs_types::{Memory, Size};

/// The changes by page and place, with columns that are searched. The bounds rise with the places of a page.
#[derive(Debug, Drop)]
pub(crate) struct History {
    pub(crate) changes: Vec<PlacedChange>,
    /// The number of each one's page.
    pages: Vec<u64>,
    places: Vec<u32>,
    /// The latest event at which each one, or one before it of its page, was made.
    made: Vec<u32>,
    /// The earliest event at which each one, or one behind it of its page, was answered.
    answered: Vec<u32>,
    /// The same of those that take away: `u32::MAX` for the others.
    taken: Vec<u32>,
    pub(crate) sights: Sights,
}

/// The number of the page of this size that has the address.
pub(crate) fn number_at(address: u64, size: Size) -> u64
    ensures { result ≡ number_at address size }
{
    address - address % size.bytes() + u64::from(size.level())
}

/// The earlier one of two changes, if there is one.
fn earlier(first: Option<PlacedChange>, second: Option<PlacedChange>) -> Option<PlacedChange>
    ensures { result ≡ earlier first second }
{
    let (Some(one), Some(other)) = (first, second) else {
        return first.or(second);
    };
    if other.place < one.place {
        second
    } else {
        first
    }
}

/// Sorts the changes, which come by place, by page and place.
fn sort(changes: &mut Vec<PlacedChange>) -> Result<(), Memory>
    requires { IsNonDecreasingBy (λ c. c.place) changes.old.items }
    ensures same { OnOk result (IsPermutation changes.old.items changes.new.items) }
    ensures rising { OnOk result (IsRising (map (λ c. c.number) changes.new.items)
        (map (λ c. c.place) changes.new.items)) }
{
    changes.sort_by_key(|each| each.number)?;
    Ok(())
}

fn pages_of(alloc: Global, changes: &[PlacedChange]) -> Result<Vec<u64>, Memory>
    ensures { IfOk result (λ v. v.items ≡ map (λ c. c.number) changes.now) }
{
    Ok(changes.iter().map(|each| each.number).collect(alloc)?)
}

fn places_of(alloc: Global, changes: &[PlacedChange]) -> Result<Vec<u32>, Memory>
    ensures { IfOk result (λ v. v.items ≡ map (λ c. c.place) changes.now) }
{
    Ok(changes.iter().map(|each| each.place).collect(alloc)?)
}

fn made_of(alloc: Global, changes: &[PlacedChange]) -> Result<Vec<u32>, Memory>
    ensures { IfOk result (λ v. v.items ≡ map (λ c. c.made) changes.now) }
{
    Ok(changes.iter().map(|each| each.made).collect(alloc)?)
}

fn answered_of(alloc: Global, changes: &[PlacedChange]) -> Result<Vec<u32>, Memory>
    ensures { IfOk result (λ v. v.items ≡ map (λ c. c.answered) changes.now) }
{
    Ok(changes.iter().map(|each| each.answered).collect(alloc)?)
}

fn all_taken(alloc: Global, changes: &[PlacedChange]) -> Result<Vec<u32>, Memory>
    ensures { IfOk result (λ v. v.items ≡ map taken_at changes.now) }
{
    Ok(changes.iter().map(|each| taken_at(each)).collect(alloc)?)
}

impl History {
    /// For changes that come by place. Allocates 72 bytes for each of them, and while it sorts a copy of them.
    pub(crate) fn of(alloc: Global, changes: Vec<PlacedChange>) -> Result<History, Memory>
        requires by_place { IsNonDecreasingBy (λ c. c.place) changes.items }
        requires numbered { (c : PlacedRow) → Contains changes.items c → IsNumbered c }
        ensures columns { IfOk result AreColumns }
        ensures same { IfOk result (λ h. IsPermutation changes.items h.changes.items) }
    {
        let mut changes = changes;
        sort(&mut changes)?;
        let pages = pages_of(alloc, &changes)?;
        let places = places_of(alloc, &changes)?;
        let mut made = made_of(alloc, &changes)?;
        raise(&pages, &mut made);
        let mut answered = answered_of(alloc, &changes)?;
        lower(&pages, &mut answered);
        let mut taken = all_taken(alloc, &changes)?;
        lower(&pages, &mut taken);
        let sights = Sights::of(alloc, &changes)?;
        Ok(History {
            changes,
            pages,
            places,
            made,
            answered,
            taken,
            sights,
        })
    }

    /// The fewest entries that have each change of a page whose number in this column is below the event.
    fn past_in(&self, column: &[u32], page: u64, event: u32) -> u32
        requires columns { AreColumns self.now }
        requires many { length column.now ≡ length self.now.changes.items }
        requires column { (at : PlacedRow → ℕ) × IsLowered self.now.pages.items
            (map at self.now.changes.items) column.now 0 }
        ensures { (at : PlacedRow → ℕ) → IsLowered self.now.pages.items
            (map at self.now.changes.items) column.now 0
            → IsPast self.now.changes.items (λ c. IsOf page c × (at c < event)) result }
    {
        match last_below(&self.pages, column, page, u64::from(event)) {
            Some(row) => self.places[row] + 1,
            None => 0,
        }
    }

    /// The fewest entries that have each change of a page that was answered before the event and ends that a page is found, or that none
    /// is.
    pub(crate) fn flushed_of(&self, page: u64, event: u32, finds: bool) -> u32
        requires { AreColumns self.now }
        ensures { IsPast self.now.changes.items (λ c. IsOf page c × (ended_at finds c < event))
            result }
    {
        if finds {
            self.past_in(&self.taken, page, event)
        } else {
            self.past_in(&self.answered, page, event)
        }
    }

    /// The most entries, of no more than these, that have no change of a page that was made after the event.
    fn foreseen_of(&self, page: u64, event: u32, most: u32) -> u32
        requires { AreColumns self.now }
        ensures { IsAhead self.now.changes.items (λ c. IsOf page c × (event < c.made)) most result }
    {
        match first_from(&self.pages, &self.made, page, u64::from(event) + 1) {
            Some(row) => self.places[row],
            None => most,
        }
    }

    /// The first change of a page from a place on.
    fn next_of(&self, page: u64, place: u32) -> Option<PlacedChange>
        requires { AreColumns self.now }
        ensures { IsNext self.now.changes.items (IsOf page) place result }
    {
        let row = first_from(&self.pages, &self.places, page, u64::from(place))?;
        Some(self.changes[row])
    }

    /// The latest event at which a change of a page was made that lies before the place, or 0 where there is none.
    pub(crate) fn latest_made(&self, page: u64, place: u32) -> u32
        requires { AreColumns self.now }
        ensures { IsLatest self.now.changes.items page place result }
    {
        match last_below(&self.pages, &self.places, page, u64::from(place)) {
            Some(row) => self.made[row],
            None => 0,
        }
    }

    /// The earliest event at which a change of a page was answered that takes away, and lies at the place or behind it; or `u32::MAX`
    /// where there is none.
    pub(crate) fn earliest_taken(&self, page: u64, place: u32) -> u32
        requires { AreColumns self.now }
        ensures { IsEarliest self.now.changes.items page place result }
    {
        match first_from(&self.pages, &self.places, page, u64::from(place)) {
            Some(row) => self.taken[row],
            None => u32::MAX,
        }
    }

    /// The fewest entries that have each change of how the address looks that was answered before the event and ends that a page is found
    /// there, or that none is.
    pub(crate) fn first_allowed(&self, address: u64, event: u32, finds: bool) -> u32
        requires { AreColumns self.now }
        ensures past { IsPast self.now.changes.items
            (λ c. Covers address c × (ended_at finds c < event)) result }
        ensures in_range { event < 2 ^ 32 }
    {
        let small = self.flushed_of(number_at(address, Size::K4), event, finds);
        let large = self.flushed_of(number_at(address, Size::M2), event, finds);
        let huge = self.flushed_of(number_at(address, Size::G1), event, finds);
        small.max(large).max(huge)
    }

    /// The most entries, of no more than these, that have no change of how the address looks that was made after the event.
    pub(crate) fn last_allowed(&self, address: u64, event: u32, most: u32) -> u32
        requires { AreColumns self.now }
        ensures { IsAhead self.now.changes.items (λ c. Covers address c × (event < c.made)) most
            result }
    {
        let small = self.foreseen_of(number_at(address, Size::K4), event, most);
        let large = self.foreseen_of(number_at(address, Size::M2), event, most);
        let huge = self.foreseen_of(number_at(address, Size::G1), event, most);
        small.min(large).min(huge)
    }

    /// The first change of how the address looks from a place on.
    pub(crate) fn next(&self, address: u64, place: u32) -> Option<PlacedChange>
        requires { AreColumns self.now }
        ensures next { IsNext self.now.changes.items (Covers address) place result }
        ensures numbered { IfSome result IsNumbered }
        ensures covers { IfSome result (Covers address) }
    {
        let small = self.next_of(number_at(address, Size::K4), place);
        let large = self.next_of(number_at(address, Size::M2), place);
        let huge = self.next_of(number_at(address, Size::G1), place);
        earlier(earlier(small, large), huge)
    }

    /// The last address of the page of this size that has the address, if a change is of that page; or else the greatest number.
    fn last_of(&self, address: u64, size: Size) -> u64
        requires { AreColumns self.now }
        ensures { IsAlikeIn self.now.changes.items address size result }
    {
        match self.next_of(number_at(address, size), 0) {
            Some(_) => address - address % size.bytes() + (size.bytes() - 1),
            None => u64::MAX,
        }
    }

    /// The last address before the first page behind the address that a change is of, or the greatest number.
    fn last_before(&self, address: u64) -> u64
        requires columns { AreColumns self.now }
        requires frame { address % 4096 ≡ 0 }
        requires in_range { address + 4096 ≤ 2 ^ 64 }
        ensures { IsBefore self.now.changes.items address result }
    {
        let behind = search(&self.pages, &self.places, address + 4095, 0);
        if behind == self.pages.len() {
            return u64::MAX;
        }
        let number = self.pages[behind];
        number - number % 4096 - 1
    }

    /// An address from the first of a frame on, up to which each has the same changes as that: at most four searches by halving.
    pub(crate) fn alike_until(&self, address: u64) -> u64
        requires columns { AreColumns self.now }
        requires frame { address % 4096 ≡ 0 }
        requires in_range { address + 4096 ≤ 2 ^ 64 }
        ensures { AreAlikeTo self.now.changes.items address result }
    {
        let small = self.last_of(address, Size::K4);
        let large = self.last_of(address, Size::M2);
        let huge = self.last_of(address, Size::G1);
        let behind = self.last_before(address);
        small.min(large).min(huge).min(behind)
    }
}
