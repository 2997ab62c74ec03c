//! A page table and a plain space side by side: after the same calls both are of one space, and they give the same answers. `Both` depends
//! on nothing but the contracts of the two.

ghost use Rattle.std.specs.Prelude.{◌≡◌, IfOk, OnErr};
ghost use Rattle.std.specs.FinMap as finite;
ghost use Rattle.vs_types.specs.Depth.{IsCanonical};
ghost use Rattle.vs_types.specs.Operation.{IsAction};
ghost use Rattle.vs_types.specs.Space as spaces;
ghost use Rattle.vs_types.specs.Space.{no_pages, table_count};
ghost use Rattle.vs_types.specs.Step.{step, look, allow};
ghost use Rattle.vs_space.specs.Walk.{walk, as_walk};
ghost use Rattle.vs_space.specs.Table as tables;
ghost use Rattle.vs_plain.specs.Plain.{BoundedSpace, IsPlainStep};
ghost use Rattle.space_tests.specs.Alike.{AreAlike};

use std::alloc::Global;
use std::marker::Model;
use vs_arena::FrameStore;
use vs_plain::PlainSpace;
use vs_space::{NoRoot, Space};
use vs_types::{Access, Answer, Depth, Memory, Mode, Op};

/// What the page table says, and what the plain space says.
#[derive(Clone, Copy, Debug)]
pub struct Told<T> {
    pub table: T,
    pub plain: T,
}

/// A page table and a plain space that are of one space. Contracts see both.
#[derive(Drop)]
pub struct Both<S: FrameStore> {
    table: Space<S>,
    plain: PlainSpace,
}

impl<S: FrameStore> Model for Both<S> {
    ghost use Rattle.std.specs.Coded.{codes, coded_ℕ, coded_list};
    ghost use Rattle.std.specs.FinMap as finite;
    ghost use Rattle.std.specs.Ordering.{nat_cmp};
    ghost use Rattle.vs_plain.specs.contracts.plain.PlainSpace as plain_contract;
    ghost use Rattle.space_tests.specs.Alike.{Pair, AreAlike};

    ghost Value = { Pair };

    ghost coded = { Prim.hlevel (
      codes,
      finite.code {R = nat_cmp} coded_ℕ (coded_list coded_ℕ),
      plain_contract.the_row.coded,
    ) };

    ghost view = { λ b. record { table = b.table; plain = b.plain } };

    ghost invariant = { λ b. AreAlike b.table b.plain };
}

impl<S: FrameStore + Drop> Both<S> {
    /// The two with no pages, over a store of which no frame is in use. Its capacity is the limit of both. Nothing is allocated yet: the
    /// plain space keeps `alloc`, for the pages that are mapped.
    ///
    /// # Errors
    ///
    /// `NoRoot` only where the store has no frame.
    pub fn new(alloc: Global, store: S, depth: Depth) -> Result<Both<S>, NoRoot>
        requires { S.frames store ≡ finite.empty }
        ensures empty { IfOk result (λ both.
            let empty : BoundedSpace = record {
              depth = depth;
              limit = (S.place store).size;
              space = no_pages;
            } in both.plain ≡ empty) }
        ensures alike { IfOk result (λ both. AreAlike both.table both.plain) }
        ensures base { IfOk result (λ both. both.table.base ≡ (S.place store).base) }
        ensures no_root { OnErr result ((S.place store).size ≡ 0) }
    {
        let limit = store.capacity() as u16;
        let table = Space::new(store, depth)?;
        let plain = PlainSpace::new(alloc, limit, depth);
        Ok(Both { table, plain })
    }
}

impl<S: FrameStore> Both<S> {
    /// The page table.
    pub fn table(&self) -> &Space<S>
        ensures table { result.now ≡ self.now.table }
        ensures alike { AreAlike self.now.table self.now.plain }
    {
        &self.table
    }

    /// The plain space.
    pub fn plain(&self) -> &PlainSpace
        ensures { result.now ≡ self.now.plain }
    {
        &self.plain
    }

    /// How many tables each takes: as many as the other.
    pub fn tables(&self) -> Told<usize>
        ensures same { result.table ≡ result.plain }
        ensures frames { result.table ≡ finite.len self.now.table.memory }
        ensures counts { result.plain ≡ table_count self.now.plain.depth self.now.plain.space }
    {
        Told {
            table: self.table.tables(),
            plain: self.plain.tables(),
        }
    }

    /// The translation of a canonical address in each: the same.
    pub fn resolve(&self, address: u64) -> Told<Answer>
        requires { IsCanonical self.now.plain.depth address }
        ensures same { result.table ≡ result.plain }
        ensures walks { walk self.now.table.depth self.now.table.memory self.now.table.root address
            ≡ as_walk result.table }
        ensures looks { result.plain ≡ look self.now.plain.space address }
    {
        Told {
            table: self.table.resolve(address),
            plain: self.plain.resolve(address),
        }
    }

    /// An access of a canonical address in each: the same answer.
    pub fn access(&self, address: u64, mode: Mode, access: Access) -> Told<Answer>
        requires { IsCanonical self.now.plain.depth address }
        ensures same { result.table ≡ result.plain }
        ensures table_allows { (space : spaces.Space) → tables.IsTableOf self.now.table space
            → result.table ≡ allow space address mode access }
        ensures plain_allows { result.plain ≡ allow self.now.plain.space address mode access }
    {
        Told {
            table: self.table.access(address, mode, access),
            plain: self.plain.access(address, mode, access),
        }
    }

    /// Does an operation that is well formed at their depth on each: their answers are the same. Allocates memory where it maps a
    /// page.
    ///
    /// # Errors
    ///
    /// `Memory` where a growth was refused, which only a page that is added needs; both are then unchanged.
    pub fn apply(&mut self, op: Op) -> Result<Told<Answer>, Memory>
        requires { IsAction self.old.plain.depth op }
        ensures same { IfOk result (λ told. told.table ≡ told.plain) }
        ensures table_steps { IfOk result
            (λ told. tables.IsTableStep self.old.table op told.table self.new.table) }
        ensures plain_steps { IfOk result
            (λ told. IsPlainStep self.old.plain op told.plain self.new.plain) }
        ensures err { OnErr result (self.new ≡ self.old) }
        ensures for_a_page { OnErr result
            ((step self.old.plain.depth self.old.plain.limit self.old.plain.space op).answer
            ≡ Answer.Done) }
    {
        let plain = self.plain.apply(op)?;
        let table = self.table.apply(op);
        Ok(Told { table, plain })
    }
}
