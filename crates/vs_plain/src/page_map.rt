//! Pages, each under its base, and the pages next to an address.
ghost use Rattle.std.specs.Prelude.{◌≡◌, ◌+◌, ◌<◌, ◌≤◌, ◌||◌, map, None, option_map, IfOk, IfSome, IfNone, OnOk, OnErr};
ghost use Rattle.vs_types.specs.declared.limits.TheConstants.{MOST_LEVELS};
ghost use Rattle.std.specs.FinMap as finite;
ghost use Rattle.std.specs.List.Sorted.{IsStrictlyIncreasing};
ghost use Rattle.vs_types.specs.Space.{no_pages, pages, least_overlapped, table_count, IsSpace};
ghost use Rattle.vs_types.specs.Depth.{levels};
ghost use Rattle.vs_types.specs.Page.{IsPage};
ghost use Rattle.vs_plain.specs.inside.Listed.{page_from};
ghost use Rattle.vs_plain.specs.inside.Tables.{begins_in_stretch};
ghost use Rattle.vs_plain.specs.inside.PageMap.{IsLastUpTo, IsFirstFrom};

use crate::mapping::Mapping;
use crate::pages::Pages;
use std::alloc::Global;
use std::collections::BTreeMap;
use std::marker::Model;
use vs_types::{Depth, Memory, Page, Rights};

/// Pages, each under its base. Contracts see the space that they make.
#[derive(Debug, Drop)]
pub(crate) struct PageMap {
    alloc: Global,
    by_base: BTreeMap<u64, Mapping>,
}

impl Model for PageMap {
    ghost use Rattle.std.specs.Coded.{coded_ℕ};
    ghost use Rattle.std.specs.FinMap as finite;
    ghost use Rattle.std.specs.Ordering.{nat_cmp};
    ghost use Rattle.vs_types.specs.contracts.addresses.page.Page as page_contract;
    ghost use Rattle.vs_types.specs.Space.{Space};
    ghost use Rattle.std.specs.Map.{keys_of};
    ghost use Rattle.std.specs.List.Sorted.{IsStrictlySortedBy};
    ghost use Rattle.vs_plain.specs.inside.Listed.{listed_space};

    ghost Value = { Space };

    ghost coded = { finite.code {R = nat_cmp} coded_ℕ page_contract.the_row.coded };

    ghost view = { λ m. listed_space m.by_base.entries };

    ghost invariant = { λ m. IsStrictlySortedBy nat_cmp (keys_of m.by_base.entries) };
}

/// Whether the page begins in the stretch that the address's table of this level covers.
fn begins_in_stretch(level: u8, address: u64, page: Option<Page>) -> bool
    requires { level < MOST_LEVELS }
    ensures { result ≡ begins_in_stretch level address page }
{
    let shift = 12 + 9 * level;
    match page {
        Some(page) => page.base >> shift == address >> shift,
        None => false,
    }
}

/// Whether one of the pages next to the address begins in that stretch.
fn shares_table(level: u8, address: u64, below: Option<Page>, above: Option<Page>) -> bool
    requires { level < MOST_LEVELS }
    ensures { result
        ≡ (begins_in_stretch level address below || begins_in_stretch level address above) }
{
    begins_in_stretch(level, address, below) || begins_in_stretch(level, address, above)
}

impl PageMap {
    pub(crate) fn new(alloc: Global) -> PageMap
        ensures { result ≡ no_pages }
    {
        PageMap {
            alloc,
            by_base: BTreeMap::new(alloc),
        }
    }

    /// The greatest base up to the address, and what is mapped from there on.
    fn entry_up_to(&self, address: u64) -> Option<(&u64, &Mapping)>
        ensures { IsLastUpTo self.now address
            (option_map (λ entry. page_from entry.0.now entry.1.now) result) }
    {
        self.by_base.range(..=address).next_back()
    }

    /// The page with the greatest base up to the address. It is put together where it is looked at, and not in memory.
    #[inline(always)]
    pub(crate) fn last_up_to(&self, address: u64) -> Option<Page>
        ensures { IsLastUpTo self.now address result }
    {
        let (base, mapping) = self.entry_up_to(address)?;
        Some(mapping.page_from(*base))
    }

    /// The page with the least base from the address on.
    pub(crate) fn first_from(&self, address: u64) -> Option<Page>
        ensures { IsFirstFrom self.now address result }
    {
        let (base, mapping) = self.by_base.range(address..).next()?;
        Some(mapping.page_from(*base))
    }

    /// Puts the page under its base, where none begins.
    pub(crate) fn insert(&mut self, page: Page) -> Result<(), Memory>
        ensures ok { OnOk result (self.new ≡ finite.insert self.old page.base page) }
        ensures err { OnErr result (self.new ≡ self.old) }
    {
        self.by_base.insert(page.base, Mapping::of(page))?;
        Ok(())
    }

    /// Takes out the page that begins at `base`, if one does.
    pub(crate) fn remove(&mut self, base: u64) -> Option<Page>
        ensures was { result ≡ finite.get self.old base }
        ensures removed { self.new ≡ finite.remove self.old base }
        ensures unchanged { IfNone result (self.new ≡ self.old) }
    {
        let mapping = self.by_base.remove(&base)?;
        Some(mapping.page_from(base))
    }

    /// Gives the page that begins at `base`, if one does, these rights. The page as it was.
    pub(crate) fn protect(&mut self, base: u64, rights: Rights) -> Option<Page>
        ensures was { result ≡ finite.get self.old base }
        ensures changed { IfSome result
            (λ page. self.new ≡ finite.insert self.old base (record page { rights = rights })) }
        ensures unchanged { IfNone result (self.new ≡ self.old) }
    {
        let mapping = self.by_base.get_mut(&base)?;
        let was = mapping.page_from(base);
        mapping.rights = rights;
        Some(was)
    }

    /// How many tables the page needs beside those of the pages here, none of which it overlaps; `below` is the last of them
    /// up to its base.
    pub(crate) fn new_tables(&self, depth: Depth, page: Page, below: Option<Page>) -> usize
        requires is_space { IsSpace depth self.now }
        requires well_formed { IsPage depth page }
        requires free { least_overlapped self.now page ≡ None }
        requires last { IsLastUpTo self.now page.base below }
        ensures more { result + table_count depth self.now
            ≡ table_count depth (finite.insert self.now page.base page) }
        ensures few { result ≤ levels depth }
    {
        if begins_in_stretch(page.size.level(), page.base, below) {
            return 0;
        }
        let above = self.first_from(page.base);
        let mut count = 0;
        for level in page.size.level()..depth.levels() {
            if !shares_table(level, page.base, below, above) {
                count += 1;
            }
        }
        count
    }

    /// The pages, by rising base.
    pub(crate) fn iter(&self) -> Pages<'_>
        ensures lists { result ≡ pages self.now }
        ensures rising { IsStrictlyIncreasing (map (λ page. page.base) result) }
    {
        Pages::new(self.by_base.iter())
    }

    /// A list of the pages, by rising base.
    pub(crate) fn list(&self) -> Result<Vec<Page>, Memory>
        ensures lists { IfOk result (λ v. v.items ≡ pages self.now) }
        ensures rising { IfOk result (λ v. IsStrictlyIncreasing (map (λ page. page.base) v.items)) }
    {
        Ok(self.iter().collect(self.alloc)?)
    }
}
