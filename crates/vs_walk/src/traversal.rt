//! The traversal of a page table.
ghost use Rattle.std.specs.Prelude.{◌≡◌, ◌+◌, ◌-◌, ◌*◌, ◌<◌, ◌≤◌, List, Some, None, IfOk, IfErr, OnOk, length, map, ◌++◌, ◌∷◌, []};
ghost use Rattle.vs_types.specs.declared.addresses.page.Page.{Page};
ghost use Rattle.vs_types.specs.declared.addresses.frame.TheConstants.{FRAME_WORDS};
ghost use Rattle.vs_types.specs.Depth.{entry_bytes};
ghost use Rattle.vs_types.specs.Entry.{size_at};
ghost use Rattle.vs_types.specs.Format.{IsFormat};
ghost use Rattle.vs_types.specs.Refusal.{IfRefused};
ghost use Rattle.vs_walk.specs.InFormat.{table_visits_in, traversal_in, walk_fault_in};
ghost use Rattle.vs_walk.specs.Traversal.{traversal, reached, found, walk_fault};
ghost use Rattle.vs_walk.specs.Reached.{AreJust};
ghost use Rattle.vs_walk.specs.inside.Traversed.{Fits, GoesOn, Stops, TakesFound, table_at};

use crate::frames::Frames;
use crate::reached::{Marks, Reached};
use crate::walk::WalkFault;
use std::alloc::Global;
use vs_types::{
    Depth, EntryFormat, EntryKind, FRAME_WORDS, Fail, Memory, Page, Size, entry_offset,
};

/// Takes pages of a type, one after another.
pub trait VisitorOf<P> {
    /// It has taken these pages, in this order.
    ghost HasVisited: { Self → List P → Type 0 };

    /// Takes the next page. It may allocate memory.
    fn visit(&mut self, page: P) -> Result<(), Memory>
        ensures { IfOk result
            (λ _. (pages : List P) → HasVisited self.old pages
            → HasVisited self.new (pages ++ page ∷ [])) };
}

/// Takes the pages of a page table, one after another.
pub trait PageVisitor {
    /// It has taken these pages, in this order.
    ghost HasTaken: { Self → List Page → Type 0 };

    /// Takes the next page. It may allocate memory.
    fn take(&mut self, page: Page) -> Result<(), Memory>
        ensures { IfOk result
            (λ _. (pages : List Page) → HasTaken self.old pages
            → HasTaken self.new (pages ++ page ∷ [])) };
}

impl<V: PageVisitor> VisitorOf<Page> for V {
    ghost HasVisited = { V.HasTaken };

    #[inline]
    fn visit(&mut self, page: Page) -> Result<(), Memory> {
        self.take(page)
    }
}

/// The place of a table: its level, its frame, the translated bits at which it begins, and what the entries above it
/// allow.
#[derive(Clone, Copy)]
struct TablePosition<R> {
    level: u8,
    number: u64,
    start: u64,
    rights: R,
}

/// The translated bits at which the entry of this index begins, in the table at a place.
fn start_of<E: EntryFormat>(format: E, place: TablePosition<E::Rights>, index: usize) -> u64
    requires within { index < FRAME_WORDS }
    requires format { IsFormat (E.format format) }
    requires fits { Fits (E.format format) place }
    ensures { result ≡ place.start + index * entry_bytes place.level }
{
    place.start + entry_offset(place.level, index)
}

/// The table to which the entry of this index leads, in the table at a place.
fn below<E: EntryFormat>(
    format: E,
    place: TablePosition<E::Rights>,
    index: usize,
    number: u64,
    own: E::Rights,
) -> TablePosition<E::Rights>
    requires within { index < FRAME_WORDS }
    requires format { IsFormat (E.format format) }
    requires fits { Fits (E.format format) place }
    requires lower { 1 < place.level }
    ensures level { result.level ≡ place.level - 1 }
    ensures stands { table_at result
        ≡ record {
          number = number;
          start = place.start + index * entry_bytes place.level;
          rights = (E.format format).both place.rights own;
        } }
    ensures fits { Fits (E.format format) result }
{
    TablePosition {
        level: place.level - 1,
        number,
        start: start_of(format, place, index),
        rights: format.both(place.rights, own),
    }
}

/// The page that the entry of this index maps, in the table at a place.
fn page_at<E: EntryFormat>(
    format: E,
    place: TablePosition<E::Rights>,
    index: usize,
    phys: u64,
    own: E::Rights,
) -> E::Page
    requires within { index < FRAME_WORDS }
    requires format { IsFormat (E.format format) }
    requires fits { Fits (E.format format) place }
    ensures { result ≡ (E.format format).page
        ((E.format format).address_at (place.start + index * entry_bytes place.level))
        (size_at place.level) phys ((E.format format).both place.rights own) }
{
    let base = format.address_at(start_of(format, place, index));
    let rights = format.both(place.rights, own);
    format.page(base, Size::at_level(place.level), phys, rights)
}

/// Goes through a table and all that it leads to.
fn go_through<F: Frames, E: EntryFormat, V: VisitorOf<E::Page>>(
    frames: &F,
    format: E,
    place: TablePosition<E::Rights>,
    marks: &mut Marks,
    visitor: &mut V,
) -> Result<(), Fail<WalkFault>>
    requires format { IsFormat (E.format format) }
    requires fits { Fits (E.format format) place }
    ensures pages { IfOk result (λ _. TakesFound (V.HasVisited visitor.old) (V.HasVisited visitor.new)
        (table_visits_in (E.format format) (F.memory frames.now) place.level (table_at place))) }
    ensures goes_on { IfOk result (λ _. GoesOn (F.memory frames.now) marks.old marks.new
        (table_visits_in (E.format format) (F.memory frames.now) place.level (table_at place))) }
    ensures stops { IfErr result
        (IfRefused
        (Stops (F.memory frames.now) marks.old
        (table_visits_in (E.format format) (F.memory frames.now) place.level (table_at place)))) }
{
    let Some(words) = frames.words(place.number) else {
        return Err(Fail::Refused(WalkFault::Missing(place.number)));
    };
    if !marks.add(place.number)? {
        return Err(Fail::Refused(WalkFault::Shared(place.number)));
    }
    let mut next = words.next_word(0, 0);
    while next.index < FRAME_WORDS {
        let index = next.index;
        match format.kind(place.level, next.word) {
            EntryKind::Absent => {}
            EntryKind::Reserved => {
                return Err(Fail::Refused(WalkFault::Reserved(place.number, index as u16)));
            }
            EntryKind::Leaf(phys, own) => visitor.visit(page_at(format, place, index, phys, own))?,
            EntryKind::Table(number, own) => {
                let lower = below(format, place, index, number, own);
                go_through(frames, format, lower, marks, visitor)?;
            }
        }
        next = words.next_word(index + 1, next.next_place);
    }
    Ok(())
}

/// Goes once through all tables from the root on, in any format of entries: each table's words by index, the table below an entry before
/// the next entry. The visitor takes each page as it is found, with the rights that all levels allow; its answer on memory ends the
/// traversal. Allocates memory for the numbers of the frames that are reached.
///
/// # Errors
///
/// The first fault of the traversal, or out of memory.
pub fn traverse_in<F: Frames, E: EntryFormat, V: VisitorOf<E::Page>>(
    alloc: Global,
    frames: &F,
    root: u64,
    format: E,
    visitor: &mut V,
) -> Result<Reached, Fail<WalkFault>>
    ensures pages { IfOk result (λ _. TakesFound (V.HasVisited visitor.old) (V.HasVisited visitor.new)
        (traversal_in (E.format format) (F.memory frames.now) root)) }
    ensures faultless { OnOk result (walk_fault_in (E.format format) (F.memory frames.now) root ≡ None) }
    ensures reached { IfOk result
        (λ r. AreJust r (reached (traversal_in (E.format format) (F.memory frames.now) root))) }
    ensures first { IfErr result
        (IfRefused (λ fault. walk_fault_in (E.format format) (F.memory frames.now) root ≡ Some fault)) }
{
    format.laws();
    let mut marks = Marks::new(alloc);
    let top = TablePosition {
        level: format.levels(),
        number: root,
        start: 0,
        rights: format.all(),
    };
    go_through(frames, format, top, &mut marks, visitor)?;
    Ok(marks.list()?)
}

/// Goes once through all tables from the root on: each table's words by index, the table below an entry before the next
/// entry. The visitor takes each page as it is found, by rising base, with the rights that all levels allow; its answer
/// on memory ends the traversal. Allocates memory for the numbers of the frames that are reached.
///
/// # Errors
///
/// The first fault of the traversal, or out of memory.
pub fn traverse<F: Frames, V: PageVisitor>(
    alloc: Global,
    frames: &F,
    root: u64,
    depth: Depth,
    visitor: &mut V,
) -> Result<Reached, Fail<WalkFault>>
    ensures pages { IfOk result (λ _. (pages : List Page) → V.HasTaken visitor.old pages
        → V.HasTaken visitor.new (pages ++ found (traversal depth (F.memory frames.now) root))) }
    ensures faultless { OnOk result (walk_fault depth (F.memory frames.now) root ≡ None) }
    ensures reached { IfOk result
        (λ r. AreJust r (reached (traversal depth (F.memory frames.now) root))) }
    ensures first { IfErr result
        (IfRefused (λ fault. walk_fault depth (F.memory frames.now) root ≡ Some fault)) }
{
    traverse_in(alloc, frames, root, depth, visitor)
}
