//! The touches of a segment.

ghost use Rattle.std.specs.Prelude.{◌≡◌, ◌↔◌, ◌+◌, ◌^◌, ◌<◌, [], false, IfNone, IfOk, IfSome, IsTrue, OnOk, length};
ghost use Rattle.std.specs.Prelude.{is_some, option_and_then, option_map, slice_get, Option, Some};
ghost use Rattle.nr_trace.specs.Laws.{HasCleanLog};
ghost use Rattle.nr_trace.specs.Run.{Run, run_with};
ghost use Rattle.nr_touch.specs.Tails.{GoesOn, IsSoundTail, IsTailOf, KeepsChanges};
ghost use Rattle.nr_audit.specs.Verdict.{space_of};
ghost use Rattle.nr_audit.specs.Releases.{HasRightReleases};
ghost use Rattle.nr_audit.specs.Met.{HasMet};
ghost use Rattle.nr_audit.specs.Touches.{known_when, HasRightTouches};
ghost use Rattle.nr_trace.specs.Calls.{operation_of};
ghost use Rattle.nr_trace.specs.Recording.{IsRecording};
ghost use Rattle.nr_audit.specs.inside.Begun.{is_protect, touch_between, ArePlacesAnswered, ArePlacesPlain, AreTouchesBelow};
ghost use Rattle.nr_audit.specs.inside.Begun.{HasSomeTouch, IsPlaceAnswered, IsPlacePlain};
ghost use Rattle.nr_audit.specs.inside.Begun.{IsFirstStale, IsFirstWrong, IsQuiet, IsTouchAt};
ghost use Rattle.nr_audit.specs.inside.Prefixes.{AreNeeds};

use crate::checks::needs::{entries_known, raise_need};
use crate::checks::releases::{release_number, releases_of};
use crate::histories::history::History;
use crate::histories::last_events::{call_at, position_at};
use crate::histories::met::{Met, met_if, untouched};
use crate::verdicts::forms::is_trace;
use nr_touch::{Followed, Tail, Touch, follow};
use nr_trace::{Asked, Event, Trace};
use std::alloc::Global;
use vs_plain::PlainSpace;
use vs_plain::laws::pages_are_a_space;
use vs_types::{Memory, REPLICAS};

/// Whether there is a touch or a release among the events: a trace has none.
fn has_touches(segment: &Trace) -> bool
    ensures { IsTrue result ↔ HasSomeTouch segment.now }
{
    !is_trace(segment)
        && segment
            .events()
            .iter()
            .any(|event| event.event().is_unordered())
}

/// Whether the call that the log has at the place is answered, if there is one.
fn is_answered_at(segment: &Trace, history: &History, place: usize) -> bool
    requires { history.now ≡ segment.now }
    ensures { IsTrue result → IsPlaceAnswered segment.now place }
{
    match segment.log().get(place) {
        Some(call) => history.reply(*call).is_some(),
        None => true,
    }
}

/// Whether each call of the log is answered.
fn are_answered(segment: &Trace, history: &History) -> bool
    requires { history.now ≡ segment.now }
    ensures { IsTrue result → ArePlacesAnswered segment.now }
{
    for place in 0..segment.log().len() {
        if !is_answered_at(segment, history, place) {
            return false;
        }
    }
    true
}

/// Whether a call is no protect.
fn is_plain(history: &History, call: u32) -> bool
    ensures { IsTrue result → is_protect (operation_of history.now call) ≡ false }
{
    !history.is_protect(call)
}

/// Whether the call that the log has at the place is no protect, if there is one.
fn is_plain_at(segment: &Trace, history: &History, place: usize) -> bool
    requires { history.now ≡ segment.now }
    ensures { IsTrue result → IsPlacePlain segment.now place }
{
    match segment.log().get(place) {
        Some(call) => is_plain(history, *call),
        None => true,
    }
}

/// Whether the log has no protect.
fn are_plain(segment: &Trace, history: &History) -> bool
    requires { history.now ≡ segment.now }
    ensures plain { IsTrue result → ArePlacesPlain segment.now }
    ensures in_range { IsRecording segment.now }
{
    for place in 0..segment.log().len() {
        if !is_plain_at(segment, history, place) {
            return false;
        }
    }
    true
}

/// Whether no update is in the log.
fn has_no_log(segment: &Trace) -> bool
    ensures empty { IsTrue result → segment.now.log ≡ [] }
    ensures in_range { IsRecording segment.now }
{
    segment.log().is_empty()
}

/// Whether the segment has no touch or release and leaves what was left so far: its log is empty; or nothing is left by the segments so
/// far, and the log has answered calls alone, and no protect. Then it need not be replayed.
fn is_quiet(segment: &Trace, history: &History, tail: &Tail) -> bool
    requires { history.now ≡ segment.now }
    ensures { IsTrue result → IsQuiet segment.now tail.now }
{
    if has_touches(segment) {
        return false;
    }
    if has_no_log(segment) {
        return true;
    }
    if !tail.is_none() {
        return false;
    }
    if !are_answered(segment, history) {
        return false;
    }
    are_plain(segment, history)
}

/// How many entries its replica was known to have applied when a call was made, of what the replies before that show.
fn known_of(segment: &Trace, history: &History, call: u32, needed: &[u64; REPLICAS as usize]) -> u64
    requires same { history.now ≡ segment.now }
    requires needs { AreNeeds segment.now call needed.now }
    ensures { result ≡ known_when segment.now call }
{
    match history.replica(call) {
        Some(replica) => needed[replica as usize],
        None => 0,
    }
}

/// Raises what a replica is known to have applied, where the event is a reply to a call that was made there.
fn pass(segment: &Trace, history: &History, index: u32, needed: &mut [u64; REPLICAS as usize])
    requires same { history.now ≡ segment.now }
    requires within { index < length segment.now.events }
    ensures { AreNeeds segment.now index needed.old
        → AreNeeds segment.now (index + 1) needed.new }
{
    if let Some(at) = position_at(segment, index) {
        let call = call_at(segment, index);
        let known = entries_known(history, call, at);
        raise_need(history, needed, call, known);
    }
}

/// The touch that was made at an event and answered at another, if these are that; so many entries were known at it.
fn touch_at(segment: &Trace, made: u32, answered: u32, known: u64) -> Option<Touch>
    requires { known ≡ known_when segment.now made }
    ensures { result ≡ touch_between segment.now made answered }
{
    let asked = segment.events().get(made as usize)?.event();
    let reply = segment.events().get(answered as usize)?.event();
    match (asked, reply) {
        (
            Event::Call {
                asked: Asked::Touch(address, mode, access),
                ..
            },
            Event::Reply { answer, .. },
        ) => Some(Touch {
            made,
            answered,
            known,
            address,
            mode,
            access,
            answer,
        }),
        _ => None,
    }
}

/// The touch that was made at an event, if it is one and was answered.
fn answered_touch(segment: &Trace, history: &History, made: usize, known: u64) -> Option<Touch>
    requires same { history.now ≡ segment.now }
    requires few { made < 2 ^ 32 }
    requires known { known ≡ known_when segment.now made }
    ensures { IsTouchAt segment.now made result }
{
    match history.reply(made as u32) {
        None => None,
        Some(answered) => touch_at(segment, made as u32, answered, known),
    }
}

/// Adds the touch that was made at an event, if it is one and was answered. It allocates memory for it.
fn push_touch(
    segment: &Trace,
    history: &History,
    made: usize,
    known: u64,
    touches: &mut Vec<Touch>,
) -> Result<(), Memory>
    requires same { history.now ≡ segment.now }
    requires few { made < 2 ^ 32 }
    requires known { known ≡ known_when segment.now made }
    ensures { AreTouchesBelow segment.now made touches.old.items
        → OnOk result (AreTouchesBelow segment.now (made + 1) touches.new.items) }
{
    match answered_touch(segment, history, made, known) {
        None => Ok(()),
        Some(touch) => {
            touches.push(touch)?;
            Ok(())
        }
    }
}

/// The answered touches of a segment, by call number. It allocates memory for them.
fn touches_of(alloc: Global, segment: &Trace, history: &History) -> Result<Vec<Touch>, Memory>
    requires same { history.now ≡ segment.now }
    ensures { IfOk result
        (λ touches. AreTouchesBelow segment.now (length segment.now.events) touches.items) }
{
    let mut touches = Vec::new(alloc);
    let mut needed = [0; REPLICAS as usize];
    for made in 0..segment.events().len() {
        let known = known_of(segment, history, made as u32, &needed);
        push_touch(segment, history, made, known, &mut touches)?;
        pass(segment, history, made as u32, &mut needed);
    }
    Ok(touches)
}

/// The call number of the touch of this index, if there is one.
fn number_in(touches: &[Touch], index: Option<usize>) -> Option<u32>
    ensures { result ≡ option_map (λ touch. touch.made)
        (option_and_then (slice_get touches.now) index) }
{
    let touch = touches.get(index?)?;
    Some(touch.made)
}

/// What is found of a segment's touches and releases. These are the call number of the first touch that is stale, or `None`, and
/// that of the first release that is wrong, or `None`. With them come what is counted of a right segment, if that is asked, what is
/// left for the touches of later segments, and the space with which the segment begins.
#[derive(Drop)]
pub(crate) struct Touched {
    pub(crate) stale: Option<u32>,
    pub(crate) reachable: Option<u32>,
    pub(crate) met: Option<Met>,
    pub(crate) tail: Tail,
    pub(crate) start: PlainSpace,
}

/// The call numbers of the first touch that is stale, and of the first release that is wrong, or `None` each. The segment begins with this
/// space, behind segments that left this. What is left then and the space again are given with them. Of a segment whose log isn't clean
/// nothing is said but that the space comes back. Where no touch or release is made, an empty log isn't replayed; nor is one of answered
/// maps and unmaps where nothing is left so far. It allocates memory for the touches, and for the replay of the log, which is undone; and
/// with `counts` for what is counted.
pub(crate) fn stale_touch(
    alloc: Global,
    segment: &Trace,
    history: &History,
    tail: Tail,
    start: PlainSpace,
    counts: bool,
) -> Result<Touched, Memory>
    requires same { history.now ≡ segment.now }
    requires start { start ≡ space_of segment.now.layout start.space }
    requires sound { IsSoundTail tail }
    ensures none { (before : Option Run) → IsTailOf before tail
        → GoesOn before segment.now start.space → HasCleanLog segment.now → IfOk result
        (λ found. IfNone found.stale (HasRightTouches before start.space segment.now)) }
    ensures some { (before : Option Run) → IsTailOf before tail
        → GoesOn before segment.now start.space → HasCleanLog segment.now → IfOk result
        (λ found. IfSome found.stale (IsFirstStale before start.space segment.now)) }
    ensures released { (before : Option Run) → IsTailOf before tail
        → GoesOn before segment.now start.space → HasCleanLog segment.now → IfOk result
        (λ found. IfNone found.reachable (HasRightReleases before start.space segment.now)) }
    ensures reaches { (before : Option Run) → IsTailOf before tail
        → GoesOn before segment.now start.space → HasCleanLog segment.now → IfOk result
        (λ found. IfSome found.reachable (IsFirstWrong before start.space segment.now)) }
    ensures met { (before : Option Run) → IsTailOf before tail
        → GoesOn before segment.now start.space → HasCleanLog segment.now → IfOk result
        (λ found. IfNone found.stale
        (IfSome found.met (HasMet before start.space segment.now))) }
    ensures counted { IfOk result (λ found. is_some found.met ≡ counts) }
    ensures tail { (before : Option Run) → IsTailOf before tail
        → GoesOn before segment.now start.space → HasCleanLog segment.now → IfOk result
        (λ found. IsTailOf (Some (run_with before start.space segment.now)) found.tail) }
    ensures sound { IfOk result (λ found. IsSoundTail found.tail) }
    ensures changes { IfOk result (λ found. KeepsChanges tail found.tail) }
    ensures start { IfOk result (λ found. found.start ≡ start) }
{
    pages_are_a_space(&start);
    if is_quiet(segment, history, &tail) {
        let met = untouched(alloc, segment, counts)?;
        return Ok(Touched {
            stale: None,
            reachable: None,
            met,
            tail: tail.unchanged(),
            start,
        });
    }
    let touches = touches_of(alloc, segment, history)?;
    let releases = releases_of(alloc, segment, history)?;
    let followed = follow(alloc, tail, segment, start, &touches, &releases, counts)?;
    let Followed {
        stale,
        excuses,
        beside,
        reachable,
        tail,
        start,
    } = followed;
    let stale = number_in(&touches, stale);
    let reachable = release_number(&releases, reachable);
    let met = met_if(alloc, segment, &touches, &excuses, beside)?;
    Ok(Touched {
        stale,
        reachable,
        met,
        tail,
        start,
    })
}
