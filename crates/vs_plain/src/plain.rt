//! The plain space and its calls.
ghost use Rattle.std.specs.Prelude.{◌≡◌, map, None, IfOk, OnOk, OnErr};
ghost use Rattle.std.specs.FinMap as finite;
ghost use Rattle.std.specs.List.Sorted.{IsStrictlyIncreasing};
ghost use Rattle.vs_types.specs.Page.{IsPage};
ghost use Rattle.vs_types.specs.Space.{no_pages, pages, page_at, least_overlapped, IsSpace, table_count};
ghost use Rattle.vs_types.specs.Operation.{IsAction};
ghost use Rattle.vs_types.specs.Step.{step, look, allow};
ghost use Rattle.vs_plain.specs.Plain.{BoundedSpace, IsPlainStep};
ghost use Rattle.vs_plain.specs.inside.Place.{IsPlaceOf, no_page};

use crate::page_map::PageMap;
use crate::pages::Pages;
use crate::place::{Place, reaches};
use std::alloc::Global;
use std::marker::Model;
use vs_types::{Access, Action, Answer, Depth, Memory, Mode, Op, Page, Rights, Size};

/// An address space as its pages in an ordered map. Each call takes time logarithmic in their number, `pages` linear.
///
/// Contracts see its depth, its limit of tables and its space.
#[derive(Debug, Drop)]
pub struct PlainSpace {
    depth: Depth,
    limit: u16,
    tables: usize,
    page_map: PageMap,
}

impl Model for PlainSpace {
    ghost use Rattle.std.specs.Coded.{codes, coded_ℕ};
    ghost use Rattle.std.specs.FinMap as finite;
    ghost use Rattle.std.specs.Ordering.{nat_cmp};
    ghost use Rattle.vs_types.specs.contracts.addresses.page.Page as page_contract;
    ghost use Rattle.vs_plain.specs.Plain.{BoundedSpace};
    ghost use Rattle.vs_plain.specs.inside.Invariant.{IsCounted};

    ghost Value = { BoundedSpace };

    ghost coded = { Prim.hlevel (codes, finite.code {R = nat_cmp} coded_ℕ page_contract.the_row.coded) };

    ghost view = { λ s. record { depth = s.depth; limit = s.limit; space = s.page_map } };

    ghost invariant = { λ s. IsCounted s.depth s.tables s.page_map };
}

impl PlainSpace {
    /// The space with no pages, under a limit of tables. It allocates no memory.
    pub fn new(alloc: Global, tables: u16, depth: Depth) -> PlainSpace
        ensures { let empty : BoundedSpace =
            record { depth = depth; limit = tables; space = no_pages } in result ≡ empty }
    {
        PlainSpace {
            depth,
            limit: tables,
            tables: 1,
            page_map: PageMap::new(alloc),
        }
    }

    /// The depth that it was made with.
    pub fn depth(&self) -> Depth
        ensures { result ≡ self.now.depth }
    {
        self.depth
    }

    /// How many tables the space takes, the root among them.
    pub fn tables(&self) -> usize
        ensures { result ≡ table_count self.now.depth self.now.space }
    {
        self.tables
    }

    /// The pages, by rising base, one after another. Allocates no memory.
    pub fn iter(&self) -> Pages<'_>
        ensures lists { result ≡ pages self.now.space }
        ensures rising { IsStrictlyIncreasing (map (λ page. page.base) result) }
        ensures apart { IsSpace self.now.depth self.now.space }
    {
        self.page_map.iter()
    }

    /// A list of the pages, by rising base. Allocates memory.
    ///
    /// # Errors
    ///
    /// Out of memory.
    pub fn pages(&self) -> Result<Vec<Page>, Memory>
        ensures lists { IfOk result (λ v. v.items ≡ pages self.now.space) }
        ensures rising { IfOk result (λ v. IsStrictlyIncreasing (map (λ page. page.base) v.items)) }
        ensures apart { IsSpace self.now.depth self.now.space }
    {
        self.page_map.list()
    }

    fn place_of(&self, address: u64) -> Place
        ensures is { IsPlaceOf self.now.depth self.now.space address result }
        ensures apart { IsSpace self.now.depth self.now.space }
    {
        let Some(page) = self.page_map.last_up_to(address) else {
            return Place::Free(None);
        };
        if reaches(page, address) {
            Place::Covered(page)
        } else {
            Place::Free(Some(page))
        }
    }

    /// The translation of an address, or `NotMapped`. Allocates no memory.
    pub fn resolve(&self, address: u64) -> Answer
        ensures { result ≡ look self.now.space address }
    {
        match self.place_of(address) {
            Place::Free(_) => Answer::NotMapped,
            Place::Covered(page) => {
                Answer::Mapped(page.phys + (address - page.base), page.size, page.rights)
            }
        }
    }

    /// What an access of an address is answered: `Allowed` or `Fault`. Allocates no memory.
    pub fn access(&self, address: u64, mode: Mode, access: Access) -> Answer
        ensures { result ≡ allow self.now.space address mode access }
    {
        self.resolve(address).accessed(mode, access)
    }

    /// The least base of a page that overlaps this one, whose base none covers.
    fn overlapped_above(&self, page: Page) -> Option<u64>
        requires well_formed { IsPage self.now.depth page }
        requires free { page_at self.now.space page.base ≡ None }
        ensures { result ≡ least_overlapped self.now.space page }
    {
        let pages = &self.page_map;
        if let Size::K4 = page.size {
            return None;
        }
        let above = pages.first_from(page.base)?;
        if reaches(page, above.base) {
            Some(above.base)
        } else {
            None
        }
    }

    fn map(&mut self, page: Page) -> Result<Answer, Memory>
        requires { IsPage self.old.depth page }
        ensures ok { IfOk result
            (λ answer. IsPlainStep self.old (Action.Map page) answer self.new) }
        ensures err { OnErr result (self.new ≡ self.old) }
        ensures for_a_page { OnErr result
            ((step self.old.depth self.old.limit self.old.space (Action.Map page)).answer
            ≡ Answer.Done) }
        ensures apart { IsSpace self.old.depth self.old.space }
    {
        let below = match self.place_of(page.base) {
            Place::Covered(other) => return Ok(Answer::Overlap(other.base)),
            Place::Free(below) => below,
        };
        if let Some(base) = self.overlapped_above(page) {
            return Ok(Answer::Overlap(base));
        }
        let need = self.tables + self.page_map.new_tables(self.depth, page, below);
        if need > usize::from(self.limit) {
            return Ok(Answer::Full(need as u64));
        }
        self.page_map.insert(page)?;
        self.tables = need;
        Ok(Answer::Done)
    }

    /// Adds a page that overlaps none, whatever the limit of tables: a space whose pages were there before may have more tables
    /// than its limit, and a map then answers `Full`. Allocates memory.
    ///
    /// # Errors
    ///
    /// `Memory` where the growth was refused; the space is then unchanged.
    pub fn add(&mut self, page: Page) -> Result<(), Memory>
        requires well_formed { IsPage self.old.depth page }
        requires free { least_overlapped self.old.space page ≡ None }
        ensures ok { OnOk result (self.new
            ≡ record self.old { space = finite.insert self.old.space page.base page }) }
        ensures err { OnErr result (self.new ≡ self.old) }
    {
        let below = self.page_map.last_up_to(page.base);
        let more = self.page_map.new_tables(self.depth, page, below);
        self.page_map.insert(page)?;
        self.tables += more;
        Ok(())
    }

    /// What a call is answered that names a base at which no page begins.
    fn no_page(&self, base: u64) -> Answer
        requires { finite.get self.now.space base ≡ None }
        ensures { result ≡ no_page (page_at self.now.space base) }
    {
        match self.place_of(base) {
            Place::Free(_) => Answer::NotMapped,
            Place::Covered(page) => Answer::Inside(page.base),
        }
    }

    fn unmap(&mut self, base: u64) -> Answer
        ensures step { IsPlainStep self.old (Action.Unmap base) result self.new }
        ensures apart { IsSpace self.old.depth self.old.space }
    {
        let Some(page) = self.page_map.remove(base) else {
            return self.no_page(base);
        };
        let below = self.page_map.last_up_to(base);
        self.tables -= self.page_map.new_tables(self.depth, page, below);
        Answer::Removed(page.phys, page.size, page.rights)
    }

    fn protect(&mut self, base: u64, rights: Rights) -> Answer
        ensures step { IsPlainStep self.old (Action.Protect base rights) result self.new }
        ensures apart { IsSpace self.old.depth self.old.space }
    {
        match self.page_map.protect(base, rights) {
            None => self.no_page(base),
            Some(page) => Answer::Changed(page.rights),
        }
    }

    /// Does an operation that is well formed at the space's depth. Allocates memory where it maps a page.
    ///
    /// # Errors
    ///
    /// `Memory` where a growth was refused, which only a page that is added needs; the space is then unchanged.
    pub fn apply(&mut self, op: Op) -> Result<Answer, Memory>
        requires { IsAction self.old.depth op }
        ensures ok { IfOk result (λ answer. IsPlainStep self.old op answer self.new) }
        ensures err { OnErr result (self.new ≡ self.old) }
        ensures for_a_page { OnErr result
            ((step self.old.depth self.old.limit self.old.space op).answer ≡ Answer.Done) }
        ensures apart { IsSpace self.old.depth self.old.space }
    {
        match op.action() {
            Action::Map(page) => self.map(page),
            Action::Unmap(base) => Ok(self.unmap(base)),
            Action::Protect(base, rights) => Ok(self.protect(base, rights)),
        }
    }
}
