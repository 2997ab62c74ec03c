//! Which events and dumps are in the ranges of a trace.

ghost use Rattle.std.specs.Prelude.{◌≡◌, ◌≤◌, ◌↔◌, IsTrue, IsFalse, All, Any, IfSome, MatchOption};
ghost use Rattle.vs_walk.specs.Dump.{IsDump};
ghost use Rattle.nr_trace.specs.Recording.{start_frames, IsAskable, IsEvent, IsImage, IsMemory, IsStart};
ghost use Rattle.nr_trace.specs.Versions.{most_start, KnowsAsked};
ghost use Rattle.nr_trace.specs.Parts.{HasFrames, IsFirstOut, LacksFrames};

use crate::formats::layout::TraceLayout;
use crate::formats::version::Version;
use crate::recordings::event::{Asked, Event};
use crate::recordings::recorded::Recorded;
use vs_types::{Depth, Page, Size};
use vs_walk::Dump;

/// Whether memory of this size may begin at the physical address: that is a multiple of the size, and the memory ends at or below 2^51.
pub(crate) fn is_memory(size: Size, phys: u64) -> bool
    ensures { IsTrue result ↔ IsMemory size phys }
{
    let bytes = size.bytes();
    if phys > Page::PHYS_END - bytes {
        return false;
    }
    phys % bytes == 0
}

/// Whether what a call asks is well formed at the depth, and known to the version.
fn is_asked(version: Version, depth: Depth, asked: Asked) -> bool
    ensures { IsTrue result ↔ IsAskable depth asked × KnowsAsked version asked }
{
    match asked {
        Asked::Request(request) => request.fits(depth) && version.knows_query(request.query()),
        Asked::Touch(address, _, _) => depth.is_canonical(address) && version.knows_touch(),
        Asked::Release(size, phys) => is_memory(size, phys) && version.knows_touch(),
    }
}

fn is_in_range(version: Version, layout: TraceLayout, event: Event) -> bool
    ensures { IsTrue result ↔ IsEvent version layout event }
{
    match event {
        Event::Call {
            replica,
            thread,
            asked,
        } => {
            replica < layout.replicas()
                && thread < layout.threads()
                && is_asked(version, layout.depth(), asked)
        }
        Event::Reply { answer, .. } => version.knows_answer(answer),
    }
}

/// The index of the first event that is none of a service laid out so, or that the version does not know.
pub(crate) fn first_out_of_range(
    version: Version,
    layout: TraceLayout,
    events: &[Recorded],
) -> Option<usize>
    ensures { MatchOption result (All (IsEvent version layout) events.now)
        (IsFirstOut version layout events.now) }
{
    for (index, event) in events.iter().enumerate() {
        if !is_in_range(version, layout, event.event()) {
            return Some(index);
        }
    }
    None
}

/// Whether the dump has as many frames as the version allows, and nothing without frames.
fn has_frames(version: Version, dump: &Dump) -> bool
    ensures count { IsTrue result ↔ HasFrames version dump.now }
    ensures is_dump { IsDump dump.now }
{
    let frames = dump.count();
    let is_empty = dump.applied() == 0 && dump.root() == 0;
    frames >= usize::from(version.least_frames())
        && frames <= usize::from(version.most_frames())
        && (frames > 0 || is_empty)
}

/// Whether each dump has as many frames as the version allows.
pub(crate) fn all_have_frames(version: Version, dumps: &[Dump]) -> bool
    ensures yes { IsTrue result → All (IsImage version) dumps.now }
    ensures no { IsFalse result → Any (LacksFrames version) dumps.now }
{
    for dump in dumps {
        if !has_frames(version, dump) {
            return false;
        }
    }
    true
}

/// Whether the start is one of the version: none of a trace.
pub(crate) fn is_start(version: Version, start: &Option<Dump>) -> bool
    ensures { IsTrue result ↔ IfSome start.now IsStart
        × (start_frames start.now ≤ most_start version) }
{
    match start {
        Some(start) => {
            let frames = start.count();
            frames >= 1 && frames <= usize::from(version.most_start()) && start.applied() == 0
        }
        None => true,
    }
}
