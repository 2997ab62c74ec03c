//! What shows a fault of a start.

ghost use Rattle.std.specs.Prelude.{◌≡◌, ◌+◌, ◌<◌, ℕ, Contains, IfNone, IfOk, IfSome, None, Some, option_map};
ghost use Rattle.vs_types.specs.Page.{bytes_of};
ghost use Rattle.vs_types.specs.declared.addresses.page.Page.{Page as PageRow};
ghost use Rattle.vs_types.specs.declared.addresses.page.TheConstants.Page.{PHYS_END};
ghost use Rattle.vs_walk.specs.Traversal.{walk_fault, found_in};
ghost use Rattle.vs_walk.specs.Differences.{HasDifference};
ghost use Rattle.nr_audit.specs.Start.{HasPageBeyond, HasStartFault};
ghost use Rattle.nr_explain.specs.inside.Starts.{IsFirstOfTables, IsShownInStart};
ghost use Rattle.nr_explain.specs.inside.Firsts.{IsFirstOver};
ghost use Rattle.nr_explain.specs.ChainEvidence.{IsStartBeyond, IsStartDiffers};
ghost use Rattle.nr_explain.specs.inside.Reading.{all_states, space_seen, IsShownSeen};

use crate::chain::evidence::{SegmentEvidence, StartBeyond, StartDiffers};
use crate::chain::origins::origin_from;
use crate::chain::progress::Progress;
use crate::tables::faults::{missing_table, reserved_entry, shared_table};
use crate::tables::paths::entries_read;
use crate::trace::evidence::Owner;
use nr_trace::{Fault, Trace};
use std::alloc::Global;
use vs_types::{Depth, Fail, Memory, Page};
use vs_walk::{Dump, leaves, translate};

/// The first of some pages at a base that ends above the physical addresses that a page may have.
fn first_beyond(pages: &[Page], base: u64) -> Option<Page>
    ensures none { IfNone result ((page : PageRow) → Contains pages.now page → page.base ≡ base
        → PHYS_END < page.phys + bytes_of page.size → ⊥) }
    ensures base { IfSome result (λ page. page.base ≡ base) }
    ensures found { IfSome result (Contains pages.now) }
    ensures beyond { IfSome result (λ page. PHYS_END < page.phys + bytes_of page.size) }
{
    for page in pages {
        if page.base == base && page.phys > Page::PHYS_END - page.size.bytes() {
            return Some(*page);
        }
    }
    None
}

/// The page of a start at a base that ends above the physical addresses that a page may have. Allocates a list of the pages.
fn page_beyond(alloc: Global, start: &Dump, depth: Depth, base: u64) -> Result<Page, Memory>
    requires walked { walk_fault depth start.now.frames start.now.root ≡ None }
    requires beyond { HasPageBeyond depth start.now base }
    ensures base { IfOk result (λ page. page.base ≡ base) }
    ensures found { IfOk result (Contains (found_in depth start.now)) }
    ensures beyond { IfOk result (λ page. PHYS_END < page.phys + bytes_of page.size) }
{
    let pages = match leaves(alloc, start, start.root(), depth) {
        Ok(leaves) => leaves.pages,
        Err(Fail::Memory) => return Err(Memory),
        Err(Fail::Refused(_)) => unreachable!(),
    };
    match first_beyond(pages.as_slice(), base) {
        Some(page) => Ok(page),
        None => unreachable!(),
    }
}

/// The page of a start at a base that ends above the physical addresses that a page may have, and the entries that the walk of its base
/// reads. Allocates them, and a list of the pages.
fn start_beyond(alloc: Global, start: &Dump, depth: Depth, base: u64) -> Result<StartBeyond, Memory>
    requires walked { walk_fault depth start.now.frames start.now.root ≡ None }
    requires beyond { HasPageBeyond depth start.now base }
    ensures base { IfOk result (λ wrong. wrong.page.base ≡ base) }
    ensures is { IfOk result (IsStartBeyond depth start.now) }
{
    let page = page_beyond(alloc, start, depth, base)?;
    let path = entries_read(alloc, start, depth, base)?;
    Ok(StartBeyond { page, path })
}

/// How a start translates an address and by which entries, and how the address looks in the space before. Allocates the entries.
fn start_differs(
    alloc: Global,
    start: &Dump,
    depth: Depth,
    last: &Progress,
    address: u64,
) -> Result<StartDiffers, Memory>
    requires { HasDifference depth start.now last.now.space.space address }
    ensures address { IfOk result (λ wrong. wrong.address ≡ address) }
    ensures is { IfOk result (IsStartDiffers (option_map (λ space. space.space) last.now.began)
        depth start.now last.now.space.space) }
{
    let found = translate(start, start.root(), depth, address);
    let path = entries_read(alloc, start, depth, address)?;
    Ok(StartDiffers {
        address,
        found,
        path,
        wanted: last.space.resolve(address),
        origin: origin_from(&last.began, &last.space, address),
    })
}

/// What shows a fault of the tables of a start, or of a page that they lead to.
fn explain_tables(
    alloc: Global,
    start: &Dump,
    depth: Depth,
    fault: Fault,
) -> Result<SegmentEvidence, Memory>
    requires { IsFirstOfTables depth start.now fault }
    ensures { IfOk result (IsShownInStart depth start.now fault) }
{
    match fault {
        Fault::StartMissing(frame) => {
            let wrong = missing_table(alloc, Owner::Start, start, depth, frame)?;
            Ok(SegmentEvidence::StartMissing(wrong))
        }
        Fault::StartShared(frame) => {
            let wrong = shared_table(alloc, Owner::Start, start, depth, frame)?;
            Ok(SegmentEvidence::StartShared(wrong))
        }
        Fault::StartReserved(frame, index) => {
            let wrong = reserved_entry(alloc, Owner::Start, start, depth, frame, index)?;
            Ok(SegmentEvidence::StartReserved(wrong))
        }
        Fault::StartStray(frame) => Ok(SegmentEvidence::StartStray(frame)),
        Fault::StartBeyond(base) => {
            Ok(SegmentEvidence::StartBeyond(start_beyond(alloc, start, depth, base)?))
        }
        _ => unreachable!(),
    }
}

/// What shows the first fault of a segment, which is one of its start. Allocates it.
pub(crate) fn explain_start(
    alloc: Global,
    last: &Option<Progress>,
    segment: &Trace,
    fault: Fault,
) -> Result<SegmentEvidence, Memory>
    requires of_start { HasStartFault (space_seen (all_states last.now)) segment.now fault }
    requires first { IsFirstOver (space_seen (all_states last.now)) segment.now fault }
    ensures { IfOk result (IsShownSeen (all_states last.now) segment.now fault) }
{
    let Some(start) = segment.start() else {
        unreachable!()
    };
    let depth = segment.layout().depth();
    match fault {
        Fault::StartDiffers(address) => match last {
            Some(came) => Ok(SegmentEvidence::StartDiffers(start_differs(
                alloc, start, depth, came, address,
            )?)),
            None => unreachable!(),
        },
        _ => explain_tables(alloc, start, depth, fault),
    }
}
