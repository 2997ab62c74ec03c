//! An address space as a page table: `Space`, its operations, and its parts.
ghost use Rattle.std.specs.Prelude.{◌<◌, ◌≤◌, ◌≡◌, ◌≢◌, ◌^◌, ◌+◌, ℕ, Contains, IsTrue, None, slice_index, IfOk, OnErr};
ghost use Rattle.vs_types.specs.declared.limits.TheConstants.{MOST_LEVELS};
ghost use Rattle.std.specs.FinMap as finite;
ghost use Rattle.vs_types.specs.declared.requests.answer.Answer.{Answer};
ghost use Rattle.vs_types.specs.declared.entries.entry.Meaning.{Meaning};
ghost use Rattle.vs_types.specs.declared.requests.op.Action.{Action};
ghost use Rattle.vs_types.specs.Depth.{IsCanonical};
ghost use Rattle.vs_types.specs.Entry.{leaf_word, meaning};
ghost use Rattle.vs_types.specs.Operation.{IsAction, IsBase};
ghost use Rattle.vs_types.specs.Page.{IsPage, level_of};
ghost use Rattle.vs_types.specs.Space as spaces;
ghost use Rattle.vs_types.specs.Space.{no_pages, table_count};
ghost use Rattle.vs_types.specs.Step.{allow, look};
ghost use Rattle.vs_walk.specs.Traversal.{traversal, reached, walk_fault};
ghost use Rattle.vs_space.specs.Flags.{AddsNoFlags};
ghost use Rattle.vs_space.specs.Table.{PageTable, IsTableOf, IsTableStep};
ghost use Rattle.vs_space.specs.Kept.{KeepsTable, table_of};
ghost use Rattle.vs_space.specs.Written.{IsWrittenTable};
ghost use Rattle.vs_space.specs.inside.Descent.{HasEnded, HasMet};

use crate::descent::{Descent, PATH_LENGTH};
use crate::tables::Tables;
use std::error::Error;
use std::fmt;
use std::marker::Model;
use vs_arena::{FRAME_WORDS, FrameStore};
use vs_types::{
    Access, Action, Answer, Depth, Entry, Meaning, Mode, Op, Page, Rights, RightsBits, Size,
    index_at, read_written,
};
use vs_walk::{FrameWords, Frames};

/// There is no frame for the root: the store has none.
#[derive(Clone, Copy, Debug, PartialEq, Eq)]
pub struct NoRoot;

impl fmt::Display for NoRoot {
    fn fmt<W: fmt::Write>(&self, f: &mut fmt::Formatter<W>) -> fmt::Result {
        write!(f, "the store has no frame for the root")
    }
}

impl Error for NoRoot {}

/// An address space as a page table in the frames of a store. An emptied table goes back to the store at once.
#[derive(Drop)]
pub struct Space<S: FrameStore> {
    tables: Tables<S>,
    depth: Depth,
    root: u64,
}

impl<S: FrameStore> Model for Space<S> {
    ghost use Rattle.std.specs.Coded.{codes, coded_ℕ, coded_list};
    ghost use Rattle.std.specs.FinMap as finite;
    ghost use Rattle.std.specs.Ordering.{nat_cmp};
    ghost use Rattle.vs_space.specs.Held.{AreNumbered};
    ghost use Rattle.vs_space.specs.Table.{PageTable};
    ghost use Rattle.vs_space.specs.Invariant.{IsPageTable, table_in_store};

    ghost Value = { PageTable };

    ghost coded = { Prim.hlevel (codes, finite.code {R = nat_cmp} coded_ℕ (coded_list coded_ℕ)) };

    ghost view = { λ s.
        record {
          depth = s.depth;
          base = s.tables.base;
          limit = s.tables.limit;
          root = s.root;
          memory = s.tables.memory;
          lenders = s.tables.lenders;
        } };

    ghost invariant = { λ s. IsPageTable (table_in_store s.depth s.tables s.root)
        × AreNumbered s.tables };
}

impl<S: FrameStore> Frames for Space<S> {
    ghost memory = { λ s. s.memory };

    fn words(&self, number: u64) -> Option<FrameWords<'_>> {
        Some(FrameWords::whole(self.tables.words(number)?))
    }
}

impl<S: FrameStore + Drop> Space<S> {
    /// The space with no pages: its root takes a frame of the store, none of which is in use. The store's capacity is
    /// the limit of tables.
    ///
    /// # Errors
    ///
    /// `NoRoot` only where the store has no frame.
    pub fn new(store: S, depth: Depth) -> Result<Space<S>, NoRoot>
        requires { S.frames store ≡ finite.empty }
        ensures empty { IfOk result (λ s. IsTableOf s no_pages) }
        ensures plain { IfOk result (λ s. AddsNoFlags finite.empty s.memory) }
        ensures same_depth { IfOk result (λ s. s.depth ≡ depth) }
        ensures base { IfOk result (λ s. s.base ≡ (S.place store).base) }
        ensures limit { IfOk result (λ s. s.limit ≡ (S.place store).size) }
        ensures lenders { IfOk result (λ s. s.lenders ≡ (S.place store).lenders) }
        ensures no_root { OnErr result ((S.place store).size ≡ 0) }
    {
        let mut tables = Tables::new(store);
        let Some(root) = tables.take() else {
            return Err(NoRoot);
        };
        Ok(Space {
            tables,
            depth,
            root,
        })
    }
}

/// A page table that is taken apart: its store, with the tables in its frames, and the frame number of the root.
#[derive(Drop)]
pub struct SpaceParts<S: FrameStore> {
    /// The store.
    pub store: S,
    /// The depth.
    pub depth: Depth,
    /// The frame number of the root.
    pub root: u64,
}

impl<S: FrameStore> Space<S> {
    /// Takes the page table apart. It stays in the frames of its store, as `from_parts` finds it there.
    pub fn into_parts(self) -> SpaceParts<S>
        ensures keeps { KeepsTable result.depth result.root (S.place result.store).base
            (S.place result.store).size (S.frames result.store) (S.notes result.store) }
        ensures same { table_of (S.place result.store).lenders result.depth result.root
            (S.place result.store).base (S.place result.store).size (S.frames result.store)
            ≡ self }
    {
        let Space {
            tables,
            depth,
            root,
        } = self;
        SpaceParts {
            store: tables.into_store(),
            depth,
            root,
        }
    }

    /// The page table that was taken apart into these.
    pub fn from_parts(parts: SpaceParts<S>) -> Space<S>
        requires { KeepsTable parts.depth parts.root (S.place parts.store).base
            (S.place parts.store).size (S.frames parts.store) (S.notes parts.store) }
        ensures { result ≡ table_of (S.place parts.store).lenders parts.depth parts.root
            (S.place parts.store).base (S.place parts.store).size (S.frames parts.store) }
    {
        let SpaceParts { store, depth, root } = parts;
        Space {
            tables: Tables::from_store(store),
            depth,
            root,
        }
    }
}

impl<S: FrameStore> Space<S> {
    /// Its depth.
    pub fn depth(&self) -> Depth
        ensures { result ≡ self.now.depth }
    {
        self.depth
    }

    /// How many tables there are, the root among them: the frames in use.
    pub fn tables(&self) -> usize
        ensures reads { result ≡ finite.len self.now.memory }
        ensures at_most { result ≤ self.now.limit }
        ensures counts { (space : spaces.Space) → IsTableOf self.now space
            → result ≡ table_count self.now.depth space }
    {
        self.tables.used()
    }

    /// The frame number of the root. The path through all tables from there meets no fault, and reaches just the frames in
    /// use. Each word of these is 0, or the word that `Entry` writes for a table or for a page of its level, in all bits
    /// but the accessed and the dirty flag. Frame numbers are those of the store: from its base up to below its base plus
    /// its capacity, and below 2^40.
    pub fn root(&self) -> u64
        ensures reads { result ≡ self.now.root }
        ensures some_space { (space : spaces.Space) × IsTableOf self.now space }
        ensures faultless { walk_fault self.now.depth self.now.memory self.now.root ≡ None }
        ensures in_use { (number : ℕ)
            → Contains (reached (traversal self.now.depth self.now.memory self.now.root)) number
            → IsTrue (finite.contains_key self.now.memory number) }
        ensures each { (number : ℕ) → IsTrue (finite.contains_key self.now.memory number)
            → Contains (reached (traversal self.now.depth self.now.memory self.now.root)) number }
        ensures written { (number : ℕ) → IsTrue (finite.contains_key self.now.memory number)
            → IsWrittenTable self.now.depth self.now.memory self.now.root number }
        ensures from_base { (number : ℕ) → IsTrue (finite.contains_key self.now.memory number)
            → self.now.base ≤ number }
        ensures below_limit { (number : ℕ) → IsTrue (finite.contains_key self.now.memory number)
            → number < self.now.base + self.now.limit }
        ensures in_range { (number : ℕ) → IsTrue (finite.contains_key self.now.memory number)
            → number < 2 ^ 40 }
    {
        self.root
    }

    // What a call takes doesn't depend on the program around it: what each call does is compiled into its caller, and what few calls
    // do never is. By its own choice a compiler inlines a call only where its store has one caller. Elsewhere it took half as many
    // instructions again.

    /// The translation of a canonical address, or `NotMapped`.
    #[inline(always)]
    pub fn resolve(&self, address: u64) -> Answer
        requires { IsCanonical self.now.depth address }
        ensures { (space : spaces.Space) → IsTableOf self.now space → result ≡ look space address }
    {
        let descent = self.tables.descend(self.depth, self.root, address, 1);
        match descent.level {
            1 => self.resolve_at(1, &descent, address),
            2 => self.resolve_at(2, &descent, address),
            3 => self.resolve_at(3, &descent, address),
            level => self.resolve_at(level as u8, &descent, address),
        }
    }

    /// Does what `resolve` does, where the descent ended at this level. Its code is there once for each level that has pages, so
    /// that their size is a constant there.
    #[inline(always)]
    fn resolve_at(&self, level: u8, descent: &Descent, address: u64) -> Answer
        requires canonical { IsCanonical self.now.depth address }
        requires some_level { 1 ≤ level }
        requires few_levels { level ≤ MOST_LEVELS }
        requires ended { HasEnded self.now address level descent.now.number descent.now.word
            descent.now.path }
        ensures { (space : spaces.Space) → IsTableOf self.now space → result ≡ look space address }
    {
        let Meaning::Leaf(phys, rights) = read_written(level, descent.word) else {
            return Answer::NotMapped;
        };
        let size = Size::at_level(level);
        Answer::Mapped(phys + address % size.bytes(), size, rights)
    }

    /// Whether an access of a canonical address is allowed, and where that is: `Allowed`, or `Fault` with the error code of
    /// the page fault. It goes down the tables once.
    pub fn access(&self, address: u64, mode: Mode, access: Access) -> Answer
        requires { IsCanonical self.now.depth address }
        ensures { (space : spaces.Space) → IsTableOf self.now space
            → result ≡ allow space address mode access }
    {
        self.resolve(address).accessed(mode, access)
    }

    /// Does an operation that is well formed at the space's depth: the answer and the space after it are those of a step,
    /// under the store's capacity as the limit.
    /// It reads and writes at most one table a level, but for the first page below a table.
    #[inline(always)]
    pub fn apply(&mut self, op: Op) -> Answer
        requires { IsAction self.old.depth op }
        ensures { IsTableStep self.old op result self.new }
    {
        match op.action() {
            Action::Map(page) => self.map(page),
            Action::Unmap(base) => self.unmap(base),
            Action::Protect(base, rights) => self.protect(base, rights),
        }
    }

    /// The page's word is made before the descent: one number is kept meanwhile, and not its size, its address and three rights.
    #[inline(always)]
    fn map(&mut self, page: Page) -> Answer
        requires { IsPage self.old.depth page }
        ensures { IsTableStep self.old (Action.Map page) result self.new }
    {
        let leaf = Entry::leaf(page.size, page.phys, page.rights);
        let lowest = page.size.level();
        let descent = self
            .tables
            .descend(self.depth, self.root, page.base, lowest);
        let level = descent.level as u8;
        match read_written(level, descent.word) {
            Meaning::Absent => self.add(page, leaf, level, descent.number),
            met => Answer::Overlap(self.overlapped(page, level, met)),
        }
    }

    /// The least base of a page that this one overlaps, where the descent for it met this entry, which isn't absent.
    #[inline(always)]
    fn overlapped(&self, page: Page, level: u8, met: Meaning) -> u64
        requires page { IsPage self.now.depth page }
        requires some_level { 1 ≤ level }
        requires few_levels { level ≤ MOST_LEVELS }
        requires present { met ≢ Meaning.Absent }
        requires ended { (number : ℕ) × HasMet self.now page level number met }
        ensures { IsTableStep self.now (Action.Map page) (Answer.Overlap result) self.now }
    {
        match met {
            Meaning::Table(table, _) => {
                let below = page.size.level() - 1;
                self.tables.least_base(page.base, table, below)
            }
            Meaning::Leaf(_, _) => {
                let bytes = Size::at_level(level).bytes();
                page.base - page.base % bytes
            }
            Meaning::Absent | Meaning::Reserved => unreachable!(),
        }
    }

    /// Does what `map` does, where the descent ended at this level, at an absent entry of the table with this frame number:
    /// the page, whose entry is this leaf, overlaps no other.
    #[inline(always)]
    fn add(&mut self, page: Page, leaf: Entry, level: u8, last: u64) -> Answer
        requires page { IsPage self.old.depth page }
        requires leaf_written { leaf ≡ leaf_word page.size page.phys page.rights }
        requires leaf_read { meaning (level_of page.size) leaf
            ≡ Meaning.Leaf page.phys page.rights }
        requires few_levels { level ≤ MOST_LEVELS }
        requires absent { HasMet self.old page level last Meaning.Absent }
        ensures { IsTableStep self.old (Action.Map page) result self.new }
    {
        let lowest = page.size.level();
        let limit = self.tables.limit();
        let need = self.tables.used() + usize::from(level - lowest);
        if need > limit {
            return Answer::Full(need as u64);
        }
        let number = self.tables.extend(page.base, last, level, lowest);
        self.tables
            .fill(number, index_at(lowest, page.base), leaf.word());
        Answer::Done
    }

    #[inline(always)]
    fn unmap(&mut self, base: u64) -> Answer
        requires { IsBase self.old.depth base }
        ensures { IsTableStep self.old (Action.Unmap base) result self.new }
    {
        let Descent {
            path,
            level,
            word,
            ..
        } = self.tables.descend(self.depth, self.root, base, 1);
        match level {
            1 => self.unmap_at(1, &path, word, base),
            2 => self.unmap_at(2, &path, word, base),
            3 => self.unmap_at(3, &path, word, base),
            level => self.unmap_at(level as u8, &path, word, base),
        }
    }

    /// Does what `unmap` does, where the descent ended at this level, at this word, and met the tables of this path.
    #[inline(always)]
    fn unmap_at(&mut self, level: u8, path: &[u64; PATH_LENGTH], word: u64, base: u64) -> Answer
        requires base { IsBase self.old.depth base }
        requires some_level { 1 ≤ level }
        requires few_levels { level ≤ MOST_LEVELS }
        requires ended { HasEnded self.old base level (slice_index path.now level) word path.now }
        ensures { IsTableStep self.old (Action.Unmap base) result self.new }
    {
        let Meaning::Leaf(phys, rights) = read_written(level, word) else {
            return Answer::NotMapped;
        };
        let size = Size::at_level(level);
        let offset = base % size.bytes();
        if offset != 0 {
            return Answer::Inside(base - offset);
        }
        let number = path[level as usize];
        self.tables.clear(number, index_at(level, base));
        let _stop = self.tables.prune(self.depth, base, path, level);
        Answer::Removed(phys, size, rights)
    }

    /// The bits of the rights are found before the descent, as the word is in `map`.
    #[inline(always)]
    fn protect(&mut self, base: u64, rights: Rights) -> Answer
        requires { IsBase self.old.depth base }
        ensures { IsTableStep self.old (Action.Protect base rights) result self.new }
    {
        let bits = RightsBits::new(rights);
        let descent = self.tables.descend(self.depth, self.root, base, 1);
        match descent.level {
            1 => self.protect_at(1, &descent, base, bits),
            2 => self.protect_at(2, &descent, base, bits),
            3 => self.protect_at(3, &descent, base, bits),
            level => self.protect_at(level as u8, &descent, base, bits),
        }
    }

    /// Does what `protect` does, where the descent ended at this level.
    #[inline(always)]
    fn protect_at(&mut self, level: u8, descent: &Descent, base: u64, rights: RightsBits) -> Answer
        requires base { IsBase self.old.depth base }
        requires some_level { 1 ≤ level }
        requires few_levels { level ≤ MOST_LEVELS }
        requires ended { HasEnded self.old base level descent.now.number descent.now.word
            descent.now.path }
        ensures { IsTableStep self.old (Action.Protect base rights) result self.new }
    {
        let Meaning::Leaf(phys, old) = read_written(level, descent.word) else {
            return Answer::NotMapped;
        };
        let size = Size::at_level(level);
        let offset = base % size.bytes();
        if offset != 0 {
            return Answer::Inside(base - offset);
        }
        let leaf = rights.leaf(size, phys);
        self.tables
            .write(descent.number, index_at(level, base), leaf);
        Answer::Changed(old)
    }
}
