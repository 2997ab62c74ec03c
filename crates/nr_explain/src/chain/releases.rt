//! What shows a release whose memory may still be reached.

ghost use Rattle.std.specs.Prelude.{◌≡◌, ◌≤◌, ◌↔◌, IfOk, IfSome, IsTrue, None, Option, Some, length};
ghost use Rattle.nr_audit.specs.Releases.{IsDoneOrOpen};
ghost use Rattle.nr_audit.specs.Verdict.{space_of};
ghost use Rattle.nr_touch.specs.Releases.{FindsReached};
ghost use Rattle.nr_touch.specs.Tails.{GoesOn};
ghost use Rattle.nr_trace.specs.Calls.{released_of};
ghost use Rattle.nr_trace.specs.Laws.{HasCleanLog};
ghost use Rattle.nr_trace.specs.Recording.{IsMemory};
ghost use Rattle.nr_explain.specs.ChainEvidence.{IsShownRelease};
ghost use Rattle.nr_explain.specs.ChainFacts.{IsIn, IsTakenFrom, LeadsInto};
ghost use Rattle.nr_explain.specs.Facts.{looks_from, released, IsFirstReplyTo};
ghost use Rattle.nr_explain.specs.Progress.{run_in, ChainState, IsSeenOf};
ghost use Rattle.nr_explain.specs.inside.Firsts.{IsLeastSeen, IsReleaseToShow, ShowsReachLeft};
ghost use Rattle.nr_explain.specs.inside.Reaches.{FindsBefore, FindsLeading, FindsLook, FindsOtherwise, FindsReach, FindsWithin};
ghost use Rattle.nr_explain.specs.inside.Reaches.{IsLeastReach, IsReachWithin, IsWhyOf};
ghost use Rattle.nr_explain.specs.inside.Reading.{all_states, left_seen, FitsSegment, HasSoundTail};

use crate::chain::evidence::{Given, Leading, Moment, OpenUpdate, Reach, WhyWrong, WrongRelease};
use crate::chain::origins::is_same;
use crate::chain::progress::Progress;
use crate::chain::touches::looks_before;
use crate::chain::windows::{Window, window_in};
use crate::search::events::call_at;
use crate::search::replies::reply_to;
use crate::search::spaces::{apply_place, space_from, update_at};
use crate::trace::evidence::RecordedReply;
use nr_audit::copy;
use nr_touch::{Release, Tail, reached};
use nr_trace::{Asked, Trace};
use std::alloc::Global;
use vs_plain::PlainSpace;
use vs_types::{Answer, Memory};

/// Whether the memory has the physical address.
fn is_in(given: Given, phys: u64) -> bool
    ensures { IsTrue result ↔ IsIn given phys }
{
    if phys < given.phys {
        return false;
    }
    let offset = phys - given.phys;
    offset < given.size.bytes()
}

/// Whether an address that looks so leads into the memory.
fn leads_into(given: Given, look: Answer) -> bool
    ensures { IsTrue result ↔ LeadsInto given look }
{
    match look {
        Answer::Mapped(phys, _, _) => is_in(given, phys),
        _ => false,
    }
}

/// Whether an address leads into the memory after so many entries, the first number of them or more, where it looks so then.
fn is_leading(first: u32, entries: u32, given: Given, look: Answer) -> bool
    ensures { IsTrue result ↔ (first ≤ entries) × LeadsInto given look }
{
    if entries < first {
        return false;
    }
    leads_into(given, look)
}

/// The most entries of a window after which an address leads into the memory, and how it looks then; or `None`.
fn last_leading(
    segment: &Trace,
    start: PlainSpace,
    address: u64,
    window: Window,
    given: Given,
) -> Result<Option<Moment>, Memory>
    requires start { start ≡ space_of segment.now.layout start.space }
    requires within { window.last ≤ length segment.now.log }
    ensures { IfOk result
        (FindsLeading start.space segment.now address window.first window.last given) }
{
    let mut space = start;
    let look = space.resolve(address);
    let mut found = None;
    if is_leading(window.first, 0, given, look) {
        found = Some(Moment { entries: 0, look });
    }
    for place in 0..window.last {
        apply_place(segment, &mut space, place)?;
        let then = space.resolve(address);
        let entries = place + 1;
        if is_leading(window.first, entries, given, then) {
            found = Some(Moment {
                entries,
                look: then,
            });
        }
    }
    Ok(found)
}

/// The first place from a number of entries on after which an address no longer leads into the memory, with its update and the reply
/// to that; or `None`. After these entries it leads there.
fn taken_from(
    segment: &Trace,
    start: PlainSpace,
    address: u64,
    given: Given,
    entries: u32,
) -> Result<Option<OpenUpdate>, Memory>
    requires start { start ≡ space_of segment.now.layout start.space }
    requires within { entries ≤ length segment.now.log }
    requires leads { LeadsInto given (looks_from start.space segment.now address entries) }
    ensures { IfOk result (IsTakenFrom start.space segment.now address given entries) }
{
    let places = segment.log().len() as u32;
    let mut space = space_from(segment, start, entries)?;
    for place in entries..places {
        apply_place(segment, &mut space, place)?;
        if !leads_into(given, space.resolve(address)) {
            let update = update_at(segment, place);
            let reply = reply_to(segment, update.call.event);
            return Ok(Some(OpenUpdate { update, reply }));
        }
    }
    Ok(None)
}

/// The last one of the looks that leads into the memory, or `None`.
fn last_into(given: Given, looks: &[Answer]) -> Option<Answer>
    ensures { FindsLook given looks.now result }
{
    let mut found = None;
    for look in looks {
        if leads_into(given, *look) {
            found = Some(*look);
        }
    }
    found
}

/// How an address leads into the memory after so many entries, which are the last ones of a window after which it does, and what takes
/// that away. Allocates memory for a copy of the space.
fn reach_at(
    alloc: Global,
    segment: &Trace,
    first: &PlainSpace,
    address: u64,
    window: Window,
    given: Given,
    moment: Moment,
) -> Result<Reach, Memory>
    requires space { first.now ≡ space_of segment.now.layout first.now.space }
    requires within { window.last ≤ length segment.now.log }
    requires found { FindsLeading first.now.space segment.now address window.first window.last given
        (Some moment) }
    ensures { IfOk result
        (IsReachWithin first.now.space segment.now address window given moment) }
{
    let space = copy(alloc, segment.layout().tables(), first)?;
    let taken = taken_from(segment, space, address, given, moment.entries)?;
    Ok(Reach {
        address,
        first: window.first,
        last: window.last,
        look: moment.look,
        leading: Leading::Within(moment.entries, taken),
    })
}

/// How an address leads into the memory after entries of its segment's log, which a window allows; or `None`. Allocates memory for a copy
/// of the space at a time.
fn reach_within(
    alloc: Global,
    segment: &Trace,
    first: &PlainSpace,
    address: u64,
    window: Window,
    given: Given,
) -> Result<Option<Reach>, Memory>
    requires space { first.now ≡ space_of segment.now.layout first.now.space }
    requires within { window.last ≤ length segment.now.log }
    ensures { IfOk result (FindsWithin first.now.space segment.now address window given) }
{
    let space = copy(alloc, segment.layout().tables(), first)?;
    let found = last_leading(segment, space, address, window, given)?;
    let Some(moment) = found else {
        return Ok(None);
    };
    let reach = reach_at(alloc, segment, first, address, window, given, moment)?;
    Ok(Some(reach))
}

/// How an address leads into the memory behind the segments before, where a window allows that; or `None`. Allocates the looks that
/// linger there.
fn reach_before(
    alloc: Global,
    last: &Option<Progress>,
    address: u64,
    window: Window,
    given: Given,
) -> Result<Option<Reach>, Memory>
    requires { IfSome last.now HasSoundTail }
    ensures { IfOk result (FindsBefore (left_seen (all_states last.now)) address window given) }
{
    if window.first > 0 {
        return Ok(None);
    }
    let looks = looks_before(alloc, last, address)?;
    match last_into(given, looks.as_slice()) {
        Some(look) => Ok(Some(Reach {
            address,
            first: window.first,
            last: window.last,
            look,
            leading: Leading::Earlier,
        })),
        None => Ok(None),
    }
}

/// How an address leads into the memory of a release that is made at an event, where the segment begins with this space; or `None`.
/// Allocates a table of four bytes for each event, and memory for a copy of the space at a time.
fn reach_from(
    alloc: Global,
    last: &Option<Progress>,
    segment: &Trace,
    first: &PlainSpace,
    event: u32,
    given: Given,
    address: u64,
) -> Result<Option<Reach>, Memory>
    requires space { first.now ≡ space_of segment.now.layout first.now.space }
    requires fits { IfSome last.now (FitsSegment segment.now) }
    ensures { IfOk result (FindsReach (left_seen (all_states last.now)) first.now.space segment.now
        event given address) }
{
    let window = window_in(alloc, segment, first, address, event, event, true)?;
    let own = reach_within(alloc, segment, first, address, window, given)?;
    match own {
        Some(reach) => Ok(Some(reach)),
        None => reach_before(alloc, last, address, window, given),
    }
}

/// The least address from which the memory of a release could be reached, where the segment begins with this space; or `None`.
fn find_address(
    alloc: Global,
    last: &Option<Progress>,
    segment: &Trace,
    start: PlainSpace,
    release: &Release,
) -> Result<Option<u64>, Memory>
    requires start { start ≡ space_of segment.now.layout start.space }
    requires fits { IfSome last.now (FitsSegment segment.now) }
    requires memory { IsMemory release.now.size release.now.phys }
    ensures { (came : Option ChainState) → IsSeenOf came (all_states last.now)
        → GoesOn (run_in came) segment.now start.space → HasCleanLog segment.now
        → IfOk result (FindsReached (run_in came) start.space segment.now release.now) }
{
    match last {
        Some(came) => reached(alloc, &came.tail, segment, start, release),
        None => reached(alloc, &Tail::none(alloc), segment, start, release),
    }
}

/// The least address from which the memory of a release could be reached that is wrong, though no reply says otherwise.
fn address_in(
    alloc: Global,
    last: &Option<Progress>,
    segment: &Trace,
    first: &PlainSpace,
    index: u32,
    given: Given,
) -> Result<u64, Memory>
    requires space { first.now ≡ space_of segment.now.layout first.now.space }
    requires fits { IfSome last.now (FitsSegment segment.now) }
    requires show { IsReleaseToShow (all_states last.now) first.now.space segment.now index }
    requires gives { released_of segment.now index ≡ Some (released given) }
    requires memory { IsMemory given.size given.phys }
    requires done { IsDoneOrOpen segment.now index }
    ensures { IfOk result
        (IsLeastSeen (all_states last.now) first.now.space segment.now index given) }
{
    let release = Release {
        made: index,
        size: given.size,
        phys: given.phys,
        is_done: true,
    };
    let start = copy(alloc, segment.layout().tables(), first)?;
    let found = find_address(alloc, last, segment, start, &release)?;
    match found {
        Some(address) => Ok(address),
        None => unreachable!(),
    }
}

/// From where, at the least, the memory of a release may be reached that is wrong, though no reply says otherwise.
fn reach_in(
    alloc: Global,
    last: &Option<Progress>,
    segment: &Trace,
    first: &PlainSpace,
    index: u32,
    given: Given,
) -> Result<Reach, Memory>
    requires space { first.now ≡ space_of segment.now.layout first.now.space }
    requires fits { IfSome last.now (FitsSegment segment.now) }
    requires show { IsReleaseToShow (all_states last.now) first.now.space segment.now index }
    requires gives { released_of segment.now index ≡ Some (released given) }
    requires memory { IsMemory given.size given.phys }
    requires done { IsDoneOrOpen segment.now index }
    ensures { IfOk result
        (IsLeastReach (all_states last.now) first.now.space segment.now index given) }
{
    let address = address_in(alloc, last, segment, first, index, given)?;
    let found = reach_from(alloc, last, segment, first, index, given, address)?;
    match found {
        Some(reach) => Ok(reach),
        None => unreachable!(),
    }
}

/// The reply to a release, where it says otherwise than `Done`.
fn otherwise(reply: Option<RecordedReply>) -> Option<RecordedReply>
    ensures { FindsOtherwise reply result }
{
    let reply = reply?;
    if is_same(reply.answer, Answer::Done) {
        return None;
    }
    Some(reply)
}

/// That the memory of a release may be reached, with the reply to it, which doesn't say otherwise than `Done`, if there is one.
fn why_reached(
    alloc: Global,
    last: &Option<Progress>,
    segment: &Trace,
    first: &PlainSpace,
    index: u32,
    given: Given,
    reply: Option<RecordedReply>,
) -> Result<WhyWrong, Memory>
    requires space { first.now ≡ space_of segment.now.layout first.now.space }
    requires fits { IfSome last.now (FitsSegment segment.now) }
    requires show { IsReleaseToShow (all_states last.now) first.now.space segment.now index }
    requires gives { released_of segment.now index ≡ Some (released given) }
    requires memory { IsMemory given.size given.phys }
    requires reply { IsFirstReplyTo segment.now index reply }
    requires done { FindsOtherwise reply None }
    ensures { IfOk result
        (IsWhyOf (all_states last.now) first.now.space segment.now index given) }
{
    let reach = reach_in(alloc, last, segment, first, index, given)?;
    Ok(WhyWrong::Reached(reply, reach))
}

/// Why a release is wrong.
fn why_wrong(
    alloc: Global,
    last: &Option<Progress>,
    segment: &Trace,
    first: &PlainSpace,
    index: u32,
    given: Given,
) -> Result<WhyWrong, Memory>
    requires space { first.now ≡ space_of segment.now.layout first.now.space }
    requires fits { IfSome last.now (FitsSegment segment.now) }
    requires show { IsReleaseToShow (all_states last.now) first.now.space segment.now index }
    requires gives { released_of segment.now index ≡ Some (released given) }
    requires memory { IsMemory given.size given.phys }
    ensures { IfOk result
        (IsWhyOf (all_states last.now) first.now.space segment.now index given) }
{
    let reply = reply_to(segment, index);
    match otherwise(reply) {
        Some(other) => Ok(WhyWrong::Otherwise(other)),
        None => why_reached(alloc, last, segment, first, index, given, reply),
    }
}

/// A release that is wrong, where the segment begins with this space: its reply, or from where its memory may be reached. Allocates memory
/// for a copy of the space, and for another when that one is freed.
pub(crate) fn wrong_release(
    alloc: Global,
    last: &Option<Progress>,
    segment: &Trace,
    first: &PlainSpace,
    index: u32,
) -> Result<WrongRelease, Memory>
    requires space { first.now ≡ space_of segment.now.layout first.now.space }
    requires fits { IfSome last.now (FitsSegment segment.now) }
    requires show { IsReleaseToShow (all_states last.now) first.now.space segment.now index }
    ensures event { IfOk result (λ wrong. wrong.call.event ≡ index) }
    ensures is { IfOk result (IsShownRelease first.now.space segment.now) }
    ensures left { IfOk result (λ wrong.
        ShowsReachLeft (all_states last.now) first.now.space segment.now wrong.call wrong.why) }
{
    let call = call_at(segment, index);
    let Asked::Release(size, phys) = call.asked else {
        unreachable!()
    };
    let given = Given { size, phys };
    let why = why_wrong(alloc, last, segment, first, index, given)?;
    Ok(WrongRelease { call, why })
}
