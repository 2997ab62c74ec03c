//! What shows a stale touch.

ghost use Rattle.std.specs.Prelude.{◌≡◌, ◌≢◌, ◌<◌, ◌≤◌, ◌⊎◌, ◌↔◌, ℕ, Bool, IfOk, IfSome, IsTrue, false, filter, length};
ghost use Rattle.vs_types.specs.Space.{Space};
ghost use Rattle.vs_types.specs.Query.{IsQuery};
ghost use Rattle.nr_audit.specs.Verdict.{space_of};
ghost use Rattle.nr_touch.specs.Looks.{AreLooksLeft};
ghost use Rattle.nr_explain.specs.ChainEvidence.{fewest, found_page, AreLooks, IsLater, IsMissed, IsOpenBefore, IsStaleTouch};
ghost use Rattle.nr_explain.specs.ChainFacts.{IsFaultOfNoPage, IsLagOf};
ghost use Rattle.nr_explain.specs.Nearest.{IsNearest};
ghost use Rattle.nr_explain.specs.inside.Firsts.{AreEarlierLeft, HasEarlierLeft, IsTouchToShow};
ghost use Rattle.nr_explain.specs.inside.Reading.{all_states, left_seen, space_seen, FitsSegment, HasSoundTail};
ghost use Rattle.nr_explain.specs.inside.Windows.{is_found, HasReached, IsWindowOf};

use crate::chain::evidence::{Lag, MissedUpdate, Moment, OpenUpdate, StaleTouch};
use crate::chain::origins::is_same;
use crate::chain::progress::Progress;
use crate::chain::windows::{Window, is_mapped, window_in};
use crate::search::events::call_at;
use crate::search::known::known_at;
use crate::search::nearest::nearest;
use crate::search::replies::reply_to;
use crate::search::spaces::{apply_place, update_at};
use crate::trace::evidence::{PlacedUpdate, RecordedCall};
use crate::trace::nearby::RightAfter;
use nr_audit::copy;
use nr_trace::{Asked, Trace};
use std::alloc::Global;
use vs_plain::PlainSpace;
use vs_types::{Answer, Memory, Query, Request, fault_code};

/// Whether a moment after so many entries, the first or a later one, is listed, with which an address looks so, as it looked so before.
fn is_listed(first: u32, entries: u32, before: Answer, then: Answer) -> bool
    ensures listed { IsTrue result → (first ≤ entries) × ((entries ≡ first) ⊎ (before ≢ then)) }
    ensures not_listed { result ≡ false → first ≤ entries
        → (entries ≡ first) ⊎ (before ≢ then) → ⊥ }
{
    entries == first || (entries > first && !is_same(before, then))
}

/// How an address looks after the first number of entries, and then after each that is no greater than the last and with which it
/// looks otherwise. Allocates a list of these moments.
fn looks_in(
    alloc: Global,
    segment: &Trace,
    start: PlainSpace,
    address: u64,
    window: Window,
) -> Result<Vec<Moment>, Memory>
    requires start { start ≡ space_of segment.now.layout start.space }
    requires within { window.last ≤ length segment.now.log }
    ensures { IfOk result (λ looks.
        AreLooks start.space segment.now address window.first window.last looks.items) }
{
    let mut looks = Vec::new(alloc);
    let mut space = start;
    let mut look = space.resolve(address);
    if window.first == 0 {
        looks.push(Moment { entries: 0, look })?;
    }
    for place in 0..window.last {
        apply_place(segment, &mut space, place)?;
        let then = space.resolve(address);
        let entries = place + 1;
        if is_listed(window.first, entries, look, then) {
            looks.push(Moment {
                entries,
                look: then,
            })?;
        }
        look = then;
    }
    Ok(looks)
}

/// How an address may still be found to look behind the segments so far. Allocates a list of these looks.
pub(crate) fn looks_before(
    alloc: Global,
    last: &Option<Progress>,
    address: u64,
) -> Result<Vec<Answer>, Memory>
    requires { IfSome last.now HasSoundTail }
    ensures { IfOk result
        (λ looks. AreLooksLeft (left_seen (all_states last.now)) address looks.items) }
{
    match last {
        Some(came) => came.tail.looks_left(alloc, address),
        None => Ok(Vec::new(alloc)),
    }
}

/// Whether a page covers an address that looks so, or none does, as is asked.
fn is_found(look: Answer, with_page: bool) -> bool
    ensures { result ≡ is_found with_page look }
{
    if with_page {
        is_mapped(look)
    } else {
        !is_mapped(look)
    }
}

/// The looks by which a page covers the address stay, or those by which none does.
fn keep_found(looks: &mut Vec<Answer>, with_page: bool)
    ensures { looks.new.items ≡ filter (is_found with_page) looks.old.items }
{
    looks.retain(|look| is_found(*look, with_page));
}

/// How the address of a touch that may be answered from so few entries of its segment's log, which finds a page, or none, may be found to
/// look behind the segments before: in no way but where these are none. Allocates a list of these looks.
fn earlier_looks(
    alloc: Global,
    last: &Option<Progress>,
    address: u64,
    first: u32,
    with_page: bool,
) -> Result<Vec<Answer>, Memory>
    requires { IfSome last.now HasSoundTail }
    ensures { IfOk result (λ looks. AreEarlierLeft (left_seen (all_states last.now)) address first
        with_page looks.items) }
{
    if first > 0 {
        return Ok(Vec::new(alloc));
    }
    let mut looks = looks_before(alloc, last, address)?;
    keep_found(&mut looks, with_page);
    Ok(looks)
}

/// Whether a touch that asks this would be answered so where no page has its address.
fn is_fault_of_none(asked: Asked, answer: Answer) -> bool
    ensures { IsTrue result ↔ IsFaultOfNoPage asked answer }
{
    match asked {
        Asked::Touch(_, mode, access) => {
            is_same(answer, Answer::Fault(fault_code(false, mode, access)))
        }
        Asked::Request(_) | Asked::Release(_, _) => false,
    }
}

/// How far the table of a touch's replica may lag, where the touch found no page.
fn lag_of(segment: &Trace, call: &RecordedCall, answer: Answer) -> Option<Lag>
    ensures { IsLagOf segment.now call.now answer result }
{
    if !is_fault_of_none(call.asked, answer) {
        return None;
    }
    let (known, shown) = known_at(segment, call.replica, call.event);
    Some(Lag { known, shown })
}

/// From how many entries of the log on a touch may be answered: from the fewest that are allowed, or from the known ones if these are
/// fewer, by a table that lags.
pub fn fewest(first: u32, lag: Option<Lag>) -> u32
    ensures { result ≡ fewest first lag }
{
    match lag {
        Some(lag) => u64::from(first).min(lag.known) as u32,
        None => first,
    }
}

/// The window of a touch, with the moments from which it may be answered by a table that lags.
fn with_lag(window: Window, lag: Option<Lag>) -> Window
    ensures first { result.first ≡ fewest window.first lag }
    ensures last { result.last ≡ window.last }
{
    Window {
        first: fewest(window.first, lag),
        ..window
    }
}

/// The update that ends right before the window of a touch of an address that is made at this event, and its first reply.
fn missed_update(segment: &Trace, first: u32) -> Option<MissedUpdate>
    requires { (start : Space) × (address : ℕ) × (made : ℕ) × (with_page : Bool)
        × HasReached start segment.now address made with_page first }
    ensures { (start : Space) (address made : ℕ) (with_page : Bool)
        → HasReached start segment.now address made with_page first
        → IsMissed start segment.now address made with_page first result }
{
    if first == 0 {
        return None;
    }
    let update = update_at(segment, first - 1);
    match reply_to(segment, update.call.event) {
        Some(reply) => Some(MissedUpdate { update, reply }),
        None => unreachable!(),
    }
}

/// The first update before the window of a touch that ends what it finds and isn't answered when it is made, and its first reply.
fn open_update(segment: &Trace, window: Window) -> Option<OpenUpdate>
    requires { (start : Space) × (address : ℕ) × (made : ℕ) × (answered : ℕ) × (with_page : Bool)
        × IsWindowOf start segment.now address made answered with_page window }
    ensures { (start : Space) (address made answered : ℕ) (with_page : Bool)
        → IsWindowOf start segment.now address made answered with_page window
        → IsOpenBefore start segment.now address made with_page window.first result }
{
    if window.still_open >= window.first {
        return None;
    }
    let update = update_at(segment, window.still_open);
    let reply = reply_to(segment, update.call.event);
    Some(OpenUpdate { update, reply })
}

/// The update that ends the window of a touch and is made after that is answered, where the answer is right after more entries.
fn later_update(segment: &Trace, window: Window, right: RightAfter) -> Option<PlacedUpdate>
    requires window { (start : Space) × (address : ℕ) × (made : ℕ) × (answered : ℕ) × (with_page : Bool)
        × IsWindowOf start segment.now address made answered with_page window }
    requires right { IfSome right.behind (λ stretch. window.last < length segment.now.log) }
    ensures { (start : Space) (address made answered : ℕ) (with_page : Bool)
        → IsWindowOf start segment.now address made answered with_page window
        → IsLater start segment.now address answered window.last right.behind result }
{
    match right.behind {
        Some(_) => Some(update_at(segment, window.last)),
        None => None,
    }
}

/// After how many entries the space answers a request so, where the segment begins with this space: nearest below a window, and nearest
/// above it. Allocates memory for a copy of the space, and for others when that one is freed.
fn nearest_to(
    alloc: Global,
    segment: &Trace,
    first: &PlainSpace,
    request: Request,
    told: Answer,
    window: Window,
) -> Result<RightAfter, Memory>
    requires space { first.now ≡ space_of segment.now.layout first.now.space }
    requires fits { IsQuery segment.now.layout.depth request }
    ensures { IfOk result
        (IsNearest first.now.space segment.now request told window.first window.last) }
{
    let begun = copy(alloc, segment.layout().tables(), first)?;
    nearest(segment, begun, request, told, window.first, window.last)
}

/// A stale touch, where the segment begins with this space. It has the moments from which it may be answered, and how its address looked
/// at these. It has the updates that it should have seen, that were open then, and that were made later, and after which entries its
/// answer would be right. Allocates a table of four bytes for each event, memory for a copy of the space, and for others when that one is
/// freed.
pub(crate) fn stale_touch(
    alloc: Global,
    last: &Option<Progress>,
    segment: &Trace,
    first: &PlainSpace,
    index: u32,
) -> Result<StaleTouch, Memory>
    requires space { first.now ≡ space_of segment.now.layout first.now.space }
    requires fits { IfSome last.now (FitsSegment segment.now) }
    requires touch { IsTouchToShow (space_seen (all_states last.now)) segment.now index }
    ensures event { IfOk result (λ stale. stale.call.event ≡ index) }
    ensures is { IfOk result (IsStaleTouch first.now.space segment.now) }
    ensures left { IfOk result (HasEarlierLeft (left_seen (all_states last.now))) }
{
    let call = call_at(segment, index);
    let Asked::Touch(address, mode, access) = call.asked else {
        unreachable!()
    };
    let Some(reply) = reply_to(segment, index) else {
        unreachable!()
    };
    let lag = lag_of(segment, &call, reply.answer);
    let with_page = lag.is_none();
    let window = window_in(
        alloc,
        segment,
        first,
        address,
        index,
        reply.event,
        with_page,
    )?;
    let again = copy(alloc, segment.layout().tables(), first)?;
    let from = with_lag(window, lag);
    let looks = looks_in(alloc, segment, again, address, from)?;
    let earlier = earlier_looks(alloc, last, address, window.first, with_page)?;
    let missed = missed_update(segment, window.first);
    let still_open = open_update(segment, window);
    let request = Request::of(Query::Access(address, mode, access));
    let right = nearest_to(alloc, segment, first, request, reply.answer, window)?;
    let later = later_update(segment, window, right);
    Ok(StaleTouch {
        call,
        reply,
        first: window.first,
        last: window.last,
        lag,
        looks,
        earlier,
        missed,
        still_open,
        later,
        right,
    })
}
