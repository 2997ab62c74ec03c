//! The space with which a segment begins, where this is the space before it, or it is the first
//! one. It is the space before it. For the first segment it is that of the pages of its start, or
//! one with no pages.

ghost use Rattle.std.specs.Prelude.{◌≡◌, IfErr, IfNone, IfOk, IfSome, OnOk};
ghost use Rattle.vs_types.specs.Refusal.{IfRefused};
ghost use Rattle.vs_types.specs.Space.{no_pages, IsSpace};
ghost use Rattle.vs_walk.specs.Differences.{HasDifference};
ghost use Rattle.vs_walk.specs.Dump.{IsDump};
ghost use Rattle.vs_walk.specs.Walk.{TranslatesAs};
ghost use Rattle.vs_walk.specs.Traversal.{found_in};
ghost use Rattle.nr_audit.specs.Verdict.{space_of};
ghost use Rattle.nr_audit.specs.Start.{first_space, space_of_pages, BeginsRight, BeginsWrong};
ghost use Rattle.nr_audit.specs.Segments.{pages_before, FitsLayout};
ghost use Rattle.nr_audit.specs.inside.Begun.{AreApart, HasNoneBeyond, HasNoStartFault, HasRightTables, IsFirstBeyond};
ghost use Rattle.nr_audit.specs.inside.Begun.{IsFirstOfAny, IsFirstOfStart};

use nr_dump::{DumpFault, check};
use nr_trace::{Fault, Trace};
use std::alloc::Global;
use vs_plain::PlainSpace;
use vs_plain::laws::pages_are_a_space;
use vs_types::{Depth, Fail, Memory, Page};
use vs_walk::laws::frames_are_a_dump;
use vs_walk::pages::Pages;
use vs_walk::{Dump, leaves};

/// Adds pages to a space that has none. It allocates memory for them.
fn fill(space: &mut PlainSpace, found: &[Page]) -> Result<(), Memory>
    requires empty { space.old.space ≡ no_pages }
    requires apart { AreApart space.old.depth found.now }
    ensures { OnOk result (space.new ≡ record space.old { space = space_of_pages found.now }) }
{
    for page in found {
        space.add(*page)?;
    }
    Ok(())
}

/// A space with the same pages, of this limit of tables, which is the space's. It allocates memory for them.
///
/// # Errors
///
/// `Memory` where a growth of memory was refused.
pub fn copy(alloc: Global, tables: u16, space: &PlainSpace) -> Result<PlainSpace, Memory>
    requires { space.now.limit ≡ tables }
    ensures { IfOk result (λ copy. copy ≡ space.now) }
{
    let pages = space.pages()?;
    let mut copy = PlainSpace::new(alloc, tables, space.depth());
    fill(&mut copy, &pages)?;
    Ok(copy)
}

/// The base of the first page that ends above the physical addresses that a page may have.
fn first_beyond(found: &[Page]) -> Option<u64>
    ensures none { IfNone result (HasNoneBeyond found.now) }
    ensures some { IfSome result (IsFirstBeyond found.now) }
{
    for page in found {
        if page.phys > Page::PHYS_END - page.size.bytes() {
            return Some(page.base);
        }
    }
    None
}

/// Checks the tables of a start, and gives the least address that it translates otherwise than the space, or `None` where there is
/// none. It allocates memory for the numbers of the frames that are reached.
///
/// # Errors
///
/// The first fault of the tables: of the traversal, or a stray frame; and `Memory`.
fn difference(alloc: Global, start: &Dump, space: &PlainSpace) -> Result<Option<u64>, Fail<Fault>>
    ensures is_dump { IsDump start.now }
    ensures is_space { IsSpace space.now.depth space.now.space }
    ensures tables { OnOk result (HasRightTables space.now.depth start.now) }
    ensures same { IfOk result (λ address. IfNone address
        (TranslatesAs space.now.depth start.now.frames start.now.root space.now.space)) }
    ensures other { IfOk result (λ address. IfSome address
        (HasDifference space.now.depth start.now space.now.space)) }
    ensures first { IfErr result (IfRefused (IsFirstOfAny space.now.depth start.now)) }
{
    frames_are_a_dump(start);
    pages_are_a_space(space);
    match check(alloc, start, space) {
        Ok(()) => Ok(None),
        Err(Fail::Memory) => Err(Fail::Memory),
        Err(Fail::Refused(fault)) => match fault {
            DumpFault::MissingFrame(number) => Err(Fail::Refused(Fault::StartMissing(number))),
            DumpFault::SharedFrame(number) => Err(Fail::Refused(Fault::StartShared(number))),
            DumpFault::ReservedBit(number, index) => {
                Err(Fail::Refused(Fault::StartReserved(number, index)))
            }
            DumpFault::StrayFrame(number) => Err(Fail::Refused(Fault::StartStray(number))),
            DumpFault::Differs(address) => Ok(Some(address)),
        },
    }
}

/// The pages of a start whose tables are right. It allocates memory for them.
///
/// # Errors
///
/// `StartBeyond` for the first page that ends too high, and `Memory`.
fn pages_in(alloc: Global, start: &Dump, depth: Depth) -> Result<Pages, Fail<Fault>>
    requires is_dump { IsDump start.now }
    requires tables { HasRightTables depth start.now }
    ensures pages { IfOk result (λ pages. pages ≡ found_in depth start.now) }
    ensures apart { IfOk result (AreApart depth) }
    ensures first { IfErr result (IfRefused (IsFirstOfAny depth start.now)) }
{
    let pages = match leaves(alloc, start, start.root(), depth) {
        Ok(leaves) => leaves.pages,
        Err(Fail::Memory) => return Err(Fail::Memory),
        Err(Fail::Refused(_)) => unreachable!(),
    };
    match first_beyond(pages.as_slice()) {
        Some(base) => Err(Fail::Refused(Fault::StartBeyond(base))),
        None => Ok(pages),
    }
}

/// The space of the pages of a start, in place of one that has none.
fn begin_anew(alloc: Global, start: &Dump, empty: PlainSpace) -> Result<PlainSpace, Fail<Fault>>
    requires { empty.space ≡ no_pages }
    ensures space { IfOk result (λ space. space
        ≡ record empty { space = space_of_pages (found_in empty.depth start.now) }) }
    ensures right { OnOk result (HasNoStartFault empty.depth None start.now) }
    ensures first { IfErr result (IfRefused (IsFirstOfStart empty.depth None start.now)) }
{
    let mut space = empty;
    difference(alloc, start, &space)?;
    let pages = pages_in(alloc, start, space.depth())?;
    fill(&mut space, pages.as_slice())?;
    Ok(space)
}

/// The space before a start, which has to translate as that does.
fn go_on(alloc: Global, start: &Dump, before: PlainSpace) -> Result<PlainSpace, Fail<Fault>>
    ensures same { IfOk result (λ space. space ≡ before) }
    ensures right { OnOk result (HasNoStartFault before.depth (Some before.space) start.now) }
    ensures first { IfErr result
        (IfRefused (IsFirstOfStart before.depth (Some before.space) start.now)) }
{
    match difference(alloc, start, &before)? {
        None => Ok(before),
        Some(address) => {
            pages_in(alloc, start, before.depth())?;
            Err(Fail::Refused(Fault::StartDiffers(address)))
        }
    }
}

/// The space with which a segment begins, where this is the space before it, or it is the first one: the space before it; of the
/// first segment that of the pages of its start, or one with no pages. A space before it has the depth and the limit of the segment's
/// layout. It allocates memory for the check of a start, and for the pages of the first one.
///
/// # Errors
///
/// The first fault of the start, and `Memory` where a growth of memory was refused.
pub fn begin(
    alloc: Global,
    segment: &Trace,
    before: Option<PlainSpace>,
) -> Result<PlainSpace, Fail<Fault>>
    requires { IfSome before (FitsLayout segment.now.layout) }
    ensures space { IfOk result (λ space. space
        ≡ space_of segment.now.layout (first_space (pages_before before) segment.now)) }
    ensures right { OnOk result (BeginsRight (pages_before before) segment.now) }
    ensures first { IfErr result (IfRefused (BeginsWrong (pages_before before) segment.now)) }
{
    let layout = segment.layout();
    let Some(start) = segment.start() else {
        return match before {
            Some(before) => Ok(before),
            None => Ok(PlainSpace::new(alloc, layout.tables(), layout.depth())),
        };
    };
    match before {
        Some(before) => go_on(alloc, start, before),
        None => {
            let empty = PlainSpace::new(alloc, layout.tables(), layout.depth());
            begin_anew(alloc, start, empty)
        }
    }
}
