//! From how many entries of the log to how many a touch may be answered that finds a page, or that
//! finds none. With it comes the first place whose update ends that it finds that, and isn't
//! answered when it is made; it is the number of places where there is no such update.

ghost use Rattle.std.specs.Prelude.{◌≡◌, ◌+◌, ◌<◌, ◌^◌, ◌↔◌, ◌&&◌, if◌then◌else◌, IfOk, IsTrue, length, min, not};
ghost use Rattle.vs_types.specs.Space.{IsSpace};
ghost use Rattle.vs_types.specs.Step.{look};
ghost use Rattle.nr_audit.specs.Verdict.{space_of};
ghost use Rattle.nr_touch.specs.Touches.{Includes, IsAnsweredBefore, IsMadeAfter};
ghost use Rattle.nr_touch.specs.Replies.{AreReplies};
ghost use Rattle.nr_explain.specs.ChainFacts.{is_mapped};
ghost use Rattle.nr_explain.specs.inside.Searches.{HasCallAt};
ghost use Rattle.nr_explain.specs.inside.Windows.{EndsBetween, IsTakenLook, IsWindowOf, StillLooks};

use crate::chain::origins::is_same;
use crate::search::spaces::apply_place;
use nr_audit::copy;
use nr_touch::replies;
use nr_trace::Trace;
use std::alloc::Global;
use vs_plain::PlainSpace;
use vs_plain::laws::pages_are_a_space;
use vs_types::{Answer, Memory, Rights, Size};

/// From how many entries of the log to how many a touch may be answered that finds a page, or that finds none; and the first place whose
/// update ends that it finds that, and isn't answered when it is made: the number of places where there is no such update.
#[derive(Clone, Copy)]
pub(crate) struct Window {
    pub(crate) first: u32,
    pub(crate) last: u32,
    pub(crate) still_open: u32,
}

/// Whether the update of a place is answered before an event, by the first replies to calls.
fn is_answered_before(segment: &Trace, replies: &[u32], place: u32, event: u32) -> bool
    requires replies { AreReplies segment.now replies.now }
    requires within { place < length segment.now.log }
    requires call { HasCallAt segment.now place }
    ensures { IsTrue result ↔ IsAnsweredBefore segment.now place event }
{
    let call = segment.log()[place as usize];
    replies[call as usize] < event
}

/// Whether the update of a place is made after an event.
fn is_made_after(segment: &Trace, place: u32, event: u32) -> bool
    requires { place < length segment.now.log }
    ensures { IsTrue result ↔ IsMadeAfter segment.now place event }
{
    segment.log()[place as usize] > event
}

/// How an address looks in a space.
pub(crate) fn look_of(space: &PlainSpace, address: u64) -> Answer
    ensures looks { result ≡ look space.now.space address }
    ensures is_space { IsSpace space.now.depth space.now.space }
{
    pages_are_a_space(space);
    space.resolve(address)
}

/// Whether a page covers an address that looks so.
pub(crate) fn is_mapped(look: Answer) -> bool
    ensures { result ≡ is_mapped look }
{
    matches!(look, Answer::Mapped(..))
}

/// Whether the new rights have each of the old ones.
fn includes(old: Rights, new: Rights) -> bool
    ensures { IsTrue result ↔ Includes old new }
{
    if old.write && !new.write {
        return false;
    }
    if old.user && !new.user {
        return false;
    }
    if old.exec && !new.exec {
        return false;
    }
    true
}

fn is_size(one: Size, other: Size) -> bool
    ensures { IsTrue result ↔ (one ≡ other) }
{
    one == other
}

/// Whether an address that looked so looks then as by the same page, with rights that include those before.
fn still_looks(before: Answer, after: Answer) -> bool
    ensures { IsTrue result ↔ StillLooks before after }
{
    let Answer::Mapped(phys, size, old) = before else {
        return false;
    };
    let Answer::Mapped(then_phys, then_size, new) = after else {
        return false;
    };
    if phys != then_phys {
        return false;
    }
    if !is_size(size, then_size) {
        return false;
    }
    includes(old, new)
}

/// Whether an update takes away from an address that looked so before it and looks so then.
fn is_taken(before: Answer, after: Answer) -> bool
    ensures { IsTrue result ↔ IsTakenLook before after }
{
    if !is_mapped(before) {
        return false;
    }
    !still_looks(before, after)
}

/// Whether it ends that the address is found with a page, or without one.
fn is_ended(with_page: bool, before: Answer, after: Answer) -> bool
    ensures { IsTrue result ↔ EndsBetween with_page before after }
{
    if with_page {
        is_taken(before, after)
    } else {
        !is_same(before, after)
    }
}

/// The window of a touch, of which these places are known, with one more that changes how its address looks: whether its update ends what
/// the touch finds, is answered before the touch is made, and is made after it is answered.
fn narrow(window: Window, place: u32, ends: bool, is_over: bool, is_later: bool) -> Window
    requires { place + 1 < 2 ^ 32 }
    ensures first { result.first ≡ if ends && is_over then place + 1 else window.first }
    ensures last { result.last ≡ if is_later then min window.last place else window.last }
    ensures still_open { result.still_open
        ≡ if ends && not is_over then min window.still_open place else window.still_open }
{
    let first = if ends && is_over {
        place + 1
    } else {
        window.first
    };
    let last = if is_later {
        window.last.min(place)
    } else {
        window.last
    };
    let still_open = if ends && !is_over {
        window.still_open.min(place)
    } else {
        window.still_open
    };
    Window {
        first,
        last,
        still_open,
    }
}

/// From how many entries to how many a touch of an address may be answered that is made and answered at these events. The segment
/// begins with this space and these are its first replies. The touch is one that finds a page, or one that finds none.
fn window_of(
    segment: &Trace,
    replies: &[u32],
    start: PlainSpace,
    address: u64,
    made: u32,
    answered: u32,
    with_page: bool,
) -> Result<Window, Memory>
    requires start { start ≡ space_of segment.now.layout start.space }
    requires replies { AreReplies segment.now replies.now }
    ensures { IfOk result
        (IsWindowOf start.space segment.now address made answered with_page) }
{
    let places = segment.log().len() as u32;
    let mut space = start;
    let mut look = look_of(&space, address);
    let mut window = Window {
        first: 0,
        last: places,
        still_open: places,
    };
    for place in 0..places {
        apply_place(segment, &mut space, place)?;
        let then = look_of(&space, address);
        if !is_same(look, then) {
            let ends = is_ended(with_page, look, then);
            let is_over = is_answered_before(segment, replies, place, made);
            let is_later = is_made_after(segment, place, answered);
            window = narrow(window, place, ends, is_over, is_later);
        }
        look = then;
    }
    Ok(window)
}

/// The same where the segment begins with a space that stays. Allocates a table of four bytes for each event, and memory for a copy of the
/// space, and frees both.
pub(crate) fn window_in(
    alloc: Global,
    segment: &Trace,
    first: &PlainSpace,
    address: u64,
    made: u32,
    answered: u32,
    with_page: bool,
) -> Result<Window, Memory>
    requires { first.now ≡ space_of segment.now.layout first.now.space }
    ensures { IfOk result
        (IsWindowOf first.now.space segment.now address made answered with_page) }
{
    let replies = replies(alloc, segment)?;
    let space = copy(alloc, segment.layout().tables(), first)?;
    window_of(
        segment,
        replies.as_slice(),
        space,
        address,
        made,
        answered,
        with_page,
    )
}
