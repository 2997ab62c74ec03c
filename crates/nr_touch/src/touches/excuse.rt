//! What excuses a touch that is right.

ghost use Rattle.std.specs.Prelude.{◌<◌, ◌↔◌, length, IfNone, IfOk, IfSome, IsTrue, MatchOption, Option};
ghost use Rattle.nr_touch.specs.Excuses.{AreExcusedBy, IsAnsweredAsNow, IsAnsweredUpToDate, IsExcusedBehind, IsFault};
ghost use Rattle.nr_touch.specs.Stale.{FindsStale};
ghost use Rattle.nr_touch.specs.Touches.{IsRightBehind};
ghost use Rattle.nr_touch.specs.inside.Earlier.{IsOfLeft};
ghost use Rattle.nr_touch.specs.inside.Excused.{IsOpenOrKept};
ghost use Rattle.nr_touch.specs.inside.Joined.{Behind, IsBuilt};
ghost use Rattle.nr_touch.specs.inside.Levels.{left_in};

use crate::touches::joined::Joined;
use crate::touches::stale::{
    answers, finds_page, is_answered_within, is_in_time, is_of_earlier, is_of_lagging, look_until,
};
use crate::touches::touch::Touch;
use std::alloc::Global;
use vs_types::{Answer, Memory};

/// What excuses a touch that is right.
#[derive(Clone, Copy, Debug, PartialEq, Eq)]
pub enum Excuse {
    /// It needs none: it is answered as after the newest entries of the log that it may see.
    None,
    /// An update of its address is open.
    Open,
    /// It is a fault, by rights that were kept after an update that gave more: one that was answered, or is of an earlier segment.
    Kept,
    /// It is a fault, by a table that lags.
    Lagging,
}

/// Whether the touch is a fault.
fn is_fault(touch: &Touch) -> bool
    ensures { IsTrue result ↔ IsFault touch.now }
{
    matches!(touch.answer, Answer::Fault(_))
}

/// Whether the touch is answered as after the newest entries that it may see: at most nine searches by halving.
fn is_as_now(joined: &Joined, touch: &Touch) -> bool
    requires { IsBuilt joined.now }
    ensures { (b : Behind joined.now)
        → IsTrue result ↔ IsAnsweredAsNow b.start b.segment touch.now }
{
    let history = &joined.history;
    let last = history.last_allowed(touch.address, touch.answered, joined.places);
    let first = history.first_allowed(touch.address, touch.made, finds_page(touch));
    if last < first {
        return false;
    }
    let next = history.next(touch.address, last);
    answers(look_until(next, &joined.space, touch.address), touch)
}

/// Whether the touch is answered as after entries of its own segment that have each answered update of its address.
fn is_up_to_date(joined: &Joined, touch: &Touch) -> bool
    requires { IsBuilt joined.now }
    ensures { (b : Behind joined.now)
        → IsTrue result ↔ IsAnsweredUpToDate 0 b.start b.segment touch.now }
{
    let history = &joined.history;
    let last = history.last_allowed(touch.address, touch.answered, joined.places);
    let first = history.first_allowed(touch.address, touch.made, false);
    if last < first {
        return false;
    }
    is_answered_within(joined, touch, first, last)
}

/// Whether the touch is answered as its address may still be found to look behind the segments before, and no update of its own segment ends
/// that.
fn is_left(joined: &Joined, touch: &Touch) -> bool
    requires { IsBuilt joined.now }
    ensures { (b : Behind joined.now)
        → IsTrue result ↔ IsOfLeft b.start b.segment (left_in joined.now.earlier.items) touch.now }
{
    if joined
        .history
        .first_allowed(touch.address, touch.made, finds_page(touch))
        > 0
    {
        return false;
    }
    is_of_earlier(&joined.earlier, touch)
}

/// What excuses a touch in time that isn't answered as its address looks now.
fn open_or_kept(joined: &Joined, touch: &Touch) -> Excuse
    requires { IsBuilt joined.now }
    ensures { (b : Behind joined.now) → IsOpenOrKept b.start b.segment touch.now result }
{
    if !is_fault(touch) {
        return Excuse::Open;
    }
    if is_up_to_date(joined, touch) {
        return Excuse::Open;
    }
    Excuse::Kept
}

/// What excuses the touch, or `None` where it isn't right.
pub(crate) fn excuse_of(joined: &Joined, touch: &Touch) -> Option<Excuse>
    requires { IsBuilt joined.now }
    ensures { (b : Behind joined.now)
        → MatchOption result (IsRightBehind b.before b.start b.segment touch.now
        → ⊥) (IsExcusedBehind b.before b.start b.segment touch.now) }
{
    if is_as_now(joined, touch) {
        return Some(Excuse::None);
    }
    if is_in_time(joined, touch) {
        return Some(open_or_kept(joined, touch));
    }
    if is_left(joined, touch) {
        return Some(open_or_kept(joined, touch));
    }
    if is_of_lagging(joined, touch) {
        return Some(Excuse::Lagging);
    }
    None
}

/// Whether the touch is right: of its segment, or behind the segments before.
pub(crate) fn is_right_behind(joined: &Joined, touch: &Touch) -> bool
    requires { IsBuilt joined.now }
    ensures { (b : Behind joined.now)
        → IsTrue result ↔ IsRightBehind b.before b.start b.segment touch.now }
{
    excuse_of(joined, touch).is_some()
}

/// The excuses of touches up to the first one that isn't right, and the index of that, or `None`. Allocates a byte for each touch.
pub(crate) fn excuses_of(
    alloc: Global,
    joined: &Joined,
    touches: &[Touch],
) -> Result<(Option<usize>, Vec<Excuse>), Memory>
    requires { IsBuilt joined.now }
    ensures finds { (b : Behind joined.now)
        → IfOk result (λ found. FindsStale b.before b.start b.segment touches.now found.0) }
    ensures excuses { (b : Behind joined.now)
        → IfOk result (λ found. IfNone found.0
        (AreExcusedBy b.before b.start b.segment touches.now found.1.items)) }
    ensures within { IfOk result (λ found. IfSome found.0 (λ index. index < length touches.now)) }
{
    let mut excuses = Vec::new(alloc);
    for (index, touch) in touches.iter().enumerate() {
        match excuse_of(joined, touch) {
            Some(excuse) => excuses.push(excuse)?,
            None => return Ok((Some(index), excuses)),
        }
    }
    Ok((None, excuses))
}
