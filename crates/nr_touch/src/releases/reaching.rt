//! The search for the first release of memory that can be reached.

ghost use Rattle.std.specs.Prelude.{◌≡◌, ℕ, ◌↔◌, ◌<◌, length, Contains, IfOk, IfSome, IsTrue, None, OnOk, Option};
ghost use Rattle.vs_types.specs.Space.{Space, pages};
ghost use Rattle.nr_trace.specs.Laws.{HasCleanLog};
ghost use Rattle.nr_trace.specs.Recording.{IsMemory};
ghost use Rattle.nr_trace.specs.Run.{Run};
ghost use Rattle.vs_types.specs.declared.addresses.page.Page.{Page as PageRow};
ghost use Rattle.nr_touch.specs.Releases.{AreMemory, FindsReachable, FindsReached, IsWrongRelease};
ghost use Rattle.nr_touch.specs.Tails.{GoesOn, AreSound, IsLeft, IsTailOf};
ghost use Rattle.nr_touch.specs.declared.releases.lingering.Lingering.{Lingering as LingeringRow};
ghost use Rattle.nr_touch.specs.declared.releases.overs.Overs.{Overs as OversRow};
ghost use Rattle.nr_touch.specs.declared.releases.seen.Seen.{Seen as SeenRow};
ghost use Rattle.nr_touch.specs.declared.touches.joined.Joined.{Joined as JoinedRow};
ghost use Rattle.nr_touch.specs.inside.Blocks.{IsBlockOf};
ghost use Rattle.nr_touch.specs.inside.Indexed.{HasPages, HasStayed, HavePresent, HaveQuiet};
ghost use Rattle.nr_touch.specs.inside.Joined.{Behind, IsBuilt};
ghost use Rattle.nr_touch.specs.inside.Listed.{AreListed, HasRoom};
ghost use Rattle.nr_touch.specs.inside.Met.{AreRows, IsMetBy, LeadsFrom};
ghost use Rattle.nr_touch.specs.inside.Overs.{AreKnown};
ghost use Rattle.nr_touch.specs.inside.Reached.{AreSeen, FindsAddress, IsLower, IsOpen, IsRoomy, LeadsThere};
ghost use Rattle.nr_touch.specs.inside.Levels.{left_in, AreLevels};

use crate::changes::history::History;
use crate::changes::replay::replay;
use crate::releases::block::{around, whole};
use crate::releases::changed::{Changed, leads_in_block};
use crate::releases::index::{Index, changed_now};
use crate::releases::lingering::{Indexes, Lingering, leads_left_in, with_listed};
use crate::releases::meeting::{event_fits, frame_address, frame_there};
use crate::releases::overs::Overs;
use crate::releases::quiet::leads_in_pages;
use crate::releases::release::Release;
use crate::releases::seen::{Seen, seen_of};
use crate::touches::joined::Joined;
use crate::touches::tail::{Left, Tail, one_level};
use nr_trace::Trace;
use std::alloc::Global;
use vs_plain::PlainSpace;
use vs_plain::laws::pages_are_a_space;
use vs_types::{Memory, Page, Size};

/// The pages that a touch of a segment may find: those that no change of the segment is of, those that its changes are of, and those that
/// addresses were left to look as before it.
#[derive(Debug, Drop)]
pub(crate) struct Reach {
    quiet: Index,
    changed: Changed,
    lingering: Lingering,
}

/// Whether an access that begins with the release could reach its memory through a page that leads into this block. Allocates memory for what
/// it notes where it was compared in vain.
fn leads_in(
    joined: &Joined,
    reach: &Reach,
    overs: &mut Overs,
    gone: &mut Overs,
    release: &Release,
    block: u64,
) -> Result<bool, Memory>
    requires built { IsBuilt joined.now }
    requires rows { AreRows reach.now.changed }
    requires room { HasRoom reach.now.lingering }
    requires memory { IsMemory release.now.size release.now.phys }
    ensures sound { (b : Behind joined.now) → IfOk result (λ leads. IsTrue leads
        → (page : PageRow) × LeadsThere b release.now page) }
    ensures whole { (b : Behind joined.now) (page : PageRow)
        → AreKnown b reach.now.changed overs.old
        → AreListed (IsOpen b release.now.made) reach.now.lingering gone.old
        → LeadsFrom b reach.now.quiet reach.now.changed release.now page → IsBlockOf page block
        → IfOk result (λ leads. IsTrue leads) }
    ensures known { (b : Behind joined.now) → AreKnown b reach.now.changed overs.old
        → OnOk result (AreKnown b reach.now.changed overs.new) }
    ensures listed { (b : Behind joined.now)
        → AreListed (IsOpen b release.now.made) reach.now.lingering gone.old
        → OnOk result (AreListed (IsOpen b release.now.made) reach.now.lingering gone.new) }
{
    if leads_in_pages(joined, &reach.quiet, release, block) {
        return Ok(true);
    }
    let by_left = leads_left_in(joined, &reach.lingering, gone, release, block)?;
    if by_left {
        return Ok(true);
    }
    let by_changes = leads_in_block(joined, &reach.changed, overs, release, block)?;
    Ok(by_changes)
}

/// Whether an access that begins with the release could reach its memory: four searches for the pages of each kind that may lead there, and
/// the pages that are found, up to the first that does. Allocates memory for what it notes.
fn leads(
    joined: &Joined,
    reach: &Reach,
    overs: &mut Overs,
    gone: &mut Overs,
    release: &Release,
) -> Result<bool, Memory>
    requires built { IsBuilt joined.now }
    requires rows { AreRows reach.now.changed }
    requires room { HasRoom reach.now.lingering }
    requires memory { IsMemory release.now.size release.now.phys }
    ensures sound { (b : Behind joined.now) → IfOk result (λ leads. IsTrue leads
        → (page : PageRow) × LeadsThere b release.now page) }
    ensures whole { (b : Behind joined.now) (page : PageRow)
        → AreKnown b reach.now.changed overs.old
        → AreListed (IsOpen b release.now.made) reach.now.lingering gone.old
        → LeadsFrom b reach.now.quiet reach.now.changed release.now page → IsRoomy page
        → IfOk result (λ leads. IsTrue leads) }
    ensures known { (b : Behind joined.now) → AreKnown b reach.now.changed overs.old
        → OnOk result (AreKnown b reach.now.changed overs.new) }
    ensures listed { (b : Behind joined.now)
        → AreListed (IsOpen b release.now.made) reach.now.lingering gone.old
        → OnOk result (AreListed (IsOpen b release.now.made) reach.now.lingering gone.new) }
{
    let phys = release.phys;
    let own = around(phys, release.size);
    let by_own = leads_in(joined, reach, overs, gone, release, own)?;
    if by_own {
        return Ok(true);
    }
    let small = whole(phys, Size::K4);
    let by_small = leads_in(joined, reach, overs, gone, release, small)?;
    if by_small {
        return Ok(true);
    }
    let large = whole(phys, Size::M2);
    let by_large = leads_in(joined, reach, overs, gone, release, large)?;
    if by_large {
        return Ok(true);
    }
    let huge = whole(phys, Size::G1);
    let by_huge = leads_in(joined, reach, overs, gone, release, huge)?;
    Ok(by_huge)
}

/// Whether the release is wrong: it is answered otherwise than by `Done`, or an access that begins with it could reach its memory. Allocates
/// memory for what it notes.
fn is_wrong(
    joined: &Joined,
    reach: &Reach,
    overs: &mut Overs,
    gone: &mut Overs,
    release: &Release,
) -> Result<bool, Memory>
    requires built { IsBuilt joined.now }
    requires met { IsMetBy joined.now reach.now.changed }
    requires room { HasRoom reach.now.lingering }
    requires memory { IsMemory release.now.size release.now.phys }
    ensures wrong { (b : Behind joined.now)
        → HaveQuiet joined.now reach.now.quiet
        → AreKnown b reach.now.changed overs.old
        → AreListed (IsOpen b release.now.made) reach.now.lingering gone.old
        → IfOk result (λ wrong. IsTrue wrong ↔ IsWrongRelease b.before b.start b.segment
        release.now) }
    ensures known { (b : Behind joined.now) → AreKnown b reach.now.changed overs.old
        → OnOk result (AreKnown b reach.now.changed overs.new) }
    ensures listed { (b : Behind joined.now)
        → AreListed (IsOpen b release.now.made) reach.now.lingering gone.old
        → OnOk result (AreListed (IsOpen b release.now.made) reach.now.lingering gone.new) }
{
    if !release.is_done {
        return Ok(true);
    }
    event_fits(release.made);
    let found = leads(joined, reach, overs, gone, release)?;
    Ok(found)
}

/// What is gone at a release: what was gone at the last one, at this event, where that doesn't come later; or else nothing.
fn gone_at(alloc: Global, gone: Overs, last: u32, release: &Release) -> Overs
    ensures { (joined : JoinedRow) (b : Behind joined) (lingering : LingeringRow) (first : OversRow)
        → AreListed (IsOpen b 0) lingering first → AreListed (IsOpen b last) lingering gone
        → AreListed (IsOpen b release.now.made) lingering result }
{
    if release.made < last {
        return Overs::none(alloc);
    }
    gone
}

/// The index of the first wrong release, or `None`; and what is gone at the last one. Allocates memory for what releases are compared with in
/// vain.
fn first_wrong(
    alloc: Global,
    joined: &Joined,
    reach: &Reach,
    gone: Overs,
    releases: &[Release],
) -> Result<(Option<usize>, Overs), Memory>
    requires built { IsBuilt joined.now }
    requires met { IsMetBy joined.now reach.now.changed }
    requires room { HasRoom reach.now.lingering }
    requires memory { AreMemory releases.now }
    ensures finds { (b : Behind joined.now)
        → HaveQuiet joined.now reach.now.quiet
        → AreListed (IsOpen b 0) reach.now.lingering gone
        → IfOk result (λ done. FindsReachable b.before b.start b.segment releases.now done.0) }
    ensures listed { (b : Behind joined.now) → AreListed (IsOpen b 0) reach.now.lingering gone
        → IfOk result (λ done. (event : ℕ)
        × AreListed (IsOpen b event) reach.now.lingering done.1) }
    ensures within { IfOk result
        (λ done. IfSome done.0 (λ index. index < length releases.now)) }
{
    let mut overs = Overs::none(alloc);
    let mut gone = gone;
    let mut last = 0;
    for (index, release) in releases.iter().enumerate() {
        gone = gone_at(alloc, gone, last, release);
        last = release.made;
        let wrong = is_wrong(joined, reach, &mut overs, &mut gone, release)?;
        if wrong {
            return Ok((Some(index), gone));
        }
    }
    Ok((None, gone))
}

/// The indexes; where none were built yet, those of the pages of the space, and of those that these changes leave. Allocates four rows for
/// each page of the space, and for each change that was left, where there are no indexes yet; and for each page that the segment changed.
/// It allocates 344 bytes for each change of the segment, and for each page that it changed, and at most eight rows of 48 bytes for each
/// release.
fn built(
    alloc: Global,
    joined: &Joined,
    index: Option<Indexes>,
    left: &[Left],
) -> Result<Indexes, Memory>
    requires { AreSound left.now }
    ensures kept { IfSome index (λ index. IfOk result (λ built. built ≡ index)) }
    ensures new { index ≡ None
        → IfOk result (λ built. HasPages built.pages joined.now.space.space
        × AreListed (IsLeft left.now) built.lingering built.gone × HasRoom built.lingering) }
{
    match index {
        Some(index) => Ok(index),
        None => {
            let pages = Index::of(alloc, &joined.space)?;
            let indexes = with_listed(alloc, pages, left)?;
            Ok(indexes)
        }
    }
}

/// The indexes; where none were built yet, those of the space after a segment, and of what was left before it. The rows of the pages that
/// the changes of the segment are of are taken away. Allocates what `built` does.
fn quiet_of(
    alloc: Global,
    joined: &Joined,
    index: Option<Indexes>,
    left: &[Left],
) -> Result<Indexes, Memory>
    requires { AreSound left.now }
    ensures quiet { (start : Space) → IfSome index (λ index. HasPages index.pages start)
        → HasStayed joined.now start
        → IfOk result (λ index. HaveQuiet joined.now index.pages) }
    ensures listed { IfSome index
        (λ index. AreListed (IsLeft left.now) index.lingering index.gone)
        → IfOk result (λ index. AreListed (IsLeft left.now) index.lingering index.gone) }
    ensures room { IfSome index (λ index. HasRoom index.lingering)
        → IfOk result (λ index. HasRoom index.lingering) }
{
    let mut quiet = built(alloc, joined, index, left)?;
    quiet.pages.forget_all(&joined.history.changes);
    Ok(quiet)
}

/// The index of the pages after a segment: that of the pages that no change is of, with those that changes are of. Allocates memory for
/// their rows.
fn noted(quiet: Index, present: &[Page]) -> Result<Index, Memory>
    ensures { (joined : JoinedRow) → HaveQuiet joined quiet → HavePresent joined present.now
        → IfOk result (λ index. HasPages index joined.space.space) }
{
    let mut index = quiet;
    index.note_all(present)?;
    Ok(index)
}

/// The indexes before a segment, if there are any, with the pages after it.
fn index_after(
    alloc: Global,
    joined: &Joined,
    index: Option<Indexes>,
    left: &[Left],
) -> Result<Option<Indexes>, Memory>
    requires { AreSound left.now }
    ensures pages { (start : Space) → IfSome index (λ index. HasPages index.pages start)
        → HasStayed joined.now start
        → IfOk result (λ after. IfSome after
        (λ index. HasPages index.pages joined.now.space.space)) }
    ensures listed { IfSome index
        (λ index. AreListed (IsLeft left.now) index.lingering index.gone) → IfOk result (λ after.
        IfSome after (λ index. AreListed (IsLeft left.now) index.lingering index.gone)) }
    ensures room { IfSome index (λ index. HasRoom index.lingering)
        → IfOk result (λ after. IfSome after (λ index. HasRoom index.lingering)) }
{
    if index.is_none() {
        return Ok(None);
    }
    let present = changed_now(alloc, &joined.history.changes, &joined.space)?;
    let quiet = quiet_of(alloc, joined, index, left)?;
    let Indexes {
        pages,
        lingering,
        gone,
    } = quiet;
    let pages = noted(pages, &present)?;
    Ok(Some(Indexes {
        pages,
        lingering,
        gone,
    }))
}

/// The index of the first wrong release, or `None`; and the indexes with the pages after the segment, but without what its own changes
/// leave.
///
/// Where there are no releases, nothing is built for them, and indexes that were built before are kept up to date. Allocates four rows for
/// each page of the space, and for each change that was left, where there are no indexes yet; and for each page that the segment changed; and
/// 344 bytes for each change of the segment, and for each page that it changed; and at most eight rows of 48 bytes for each release.
pub(crate) fn first_reachable(
    alloc: Global,
    joined: &Joined,
    left: &[Left],
    index: Option<Indexes>,
    releases: &[Release],
) -> Result<(Option<usize>, Option<Indexes>), Memory>
    requires built { IsBuilt joined.now }
    requires levels { AreLevels left.now joined.now.earlier.items }
    requires sound { AreSound left.now }
    requires room { IfSome index (λ index. HasRoom index.lingering) }
    requires memory { AreMemory releases.now }
    ensures finds { (b : Behind joined.now) → IfSome index (λ index. HasPages index.pages b.start)
        → IfSome index (λ index. AreListed (IsLeft left.now) index.lingering index.gone)
        → HasStayed joined.now b.start
        → IfOk result (λ done. FindsReachable b.before b.start b.segment releases.now done.0) }
    ensures index { (start : Space) → IfSome index (λ index. HasPages index.pages start)
        → HasStayed joined.now start
        → IfOk result (λ done. IfSome done.1
        (λ index. HasPages index.pages joined.now.space.space)) }
    ensures listed { (b : Behind joined.now)
        → IfSome index (λ index. AreListed (IsLeft left.now) index.lingering index.gone)
        → IfOk result (λ done. IfSome done.1 (λ index. (event : ℕ)
        × AreListed (IsOpen b event) index.lingering index.gone)) }
    ensures room { IfOk result (λ done. IfSome done.1 (λ index. HasRoom index.lingering)) }
    ensures within { IfOk result
        (λ done. IfSome done.0 (λ index. index < length releases.now)) }
{
    let many = releases.len();
    if many == 0 {
        let index = index_after(alloc, joined, index, left)?;
        return Ok((None, index));
    }
    let present = changed_now(alloc, &joined.history.changes, &joined.space)?;
    let begun = quiet_of(alloc, joined, index, left)?;
    let Indexes {
        pages,
        lingering,
        gone,
    } = begun;
    let changed = Changed::of(alloc, joined, &present)?;
    let reach = Reach {
        quiet: pages,
        changed,
        lingering,
    };
    let (found, gone) = first_wrong(alloc, joined, &reach, gone, releases)?;
    let Reach {
        quiet,
        lingering,
        ..
    } = reach;
    let pages = noted(quiet, &present)?;
    let index = Some(Indexes {
        pages,
        lingering,
        gone,
    });
    Ok((found, index))
}

// ---- where a release could be reached

/// The lower one of two addresses, if there are two.
fn lower(address: Option<u64>, other: u64) -> u64
    ensures { IsLower address other result }
{
    match address {
        Some(address) => address.min(other),
        None => other,
    }
}

/// The least address of a frame of these pages from which an access that begins with the release could reach its memory, or `None`.
fn least_address(joined: &Joined, seen: &[Seen], release: &Release) -> Option<u64>
    requires built { IsBuilt joined.now }
    requires roomy { (s : SeenRow) → Contains seen.now s → IsRoomy s.page }
    requires memory { IsMemory release.now.size release.now.phys }
    ensures { (b : Behind joined.now) → FindsAddress b release.now seen.now result }
{
    let mut least = None;
    for each in seen {
        match frame_there(joined, release, each.page) {
            Some(frame) => {
                let address = frame_address(each.page, frame);
                least = Some(lower(least, address));
            }
            None => {}
        }
    }
    least
}

/// The least address of a frame from which an access that begins with the release could reach its memory, or `None` where none could.
fn address_of(joined: &Joined, seen: &[Seen], release: &Release) -> Option<u64>
    requires built { IsBuilt joined.now }
    requires seen { AreSeen joined.now (left_in joined.now.earlier.items)
        (pages joined.now.space.space) seen.now }
    requires memory { IsMemory release.now.size release.now.phys }
    ensures { (b : Behind joined.now) → FindsReached b.before b.start b.segment release.now result }
{
    event_fits(release.made);
    least_address(joined, seen, release)
}

/// The least address from which an access that begins with the release could reach its memory, or `None` where none could.
///
/// The release lies in the segment, whose space begins with this start, behind segments that left this tail. Of a segment whose log isn't
/// clean nothing is said. Goes through all pages of the space. Allocates what `follow` allocates, a list of these pages, and at most 64
/// bytes for each of them, and for each change of the segment and of the tail.
///
/// # Errors
///
/// `Memory` where a growth of memory was refused.
pub fn reached(
    alloc: Global,
    tail: &Tail,
    segment: &Trace,
    start: PlainSpace,
    release: &Release,
) -> Result<Option<u64>, Memory>
    requires depth { start.depth ≡ segment.now.layout.depth }
    requires limit { start.limit ≡ segment.now.layout.tables }
    requires sound { AreSound tail.now.changes.items }
    requires memory { IsMemory release.now.size release.now.phys }
    ensures { (before : Option Run) → IsTailOf before tail.now
        → GoesOn before segment.now start.space → HasCleanLog segment.now
        → IfOk result (FindsReached before start.space segment.now release.now) }
{
    let places = segment.log().len() as u32;
    let (changes, space) = replay(alloc, segment, start)?;
    let earlier = one_level(alloc, &tail.changes)?;
    let history = History::of(alloc, changes)?;
    let present = space.pages()?;
    pages_are_a_space(&space);
    let joined = Joined {
        history,
        earlier,
        space,
        places,
    };
    let seen = seen_of(alloc, &joined, &present)?;
    Ok(address_of(&joined, &seen, release))
}
