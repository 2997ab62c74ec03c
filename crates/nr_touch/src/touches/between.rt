//! Whether a touch is answered as its address looked at a moment between two others.

ghost use Rattle.std.specs.Prelude.{◌≡◌, ◌+◌, ◌↔◌, false, IsTrue};
ghost use Rattle.vs_types.specs.declared.requests.answer.Answer.{Answer};
ghost use Rattle.nr_touch.specs.inside.Changes.{number_at};
ghost use Rattle.nr_touch.specs.inside.Columns.{AreColumns, Covers, IsOf};
ghost use Rattle.nr_touch.specs.inside.Sights.{IsAnsweredBetween};

use crate::changes::history::{History, number_at};
use crate::changes::sights::{Sight, has, has_rights};
use crate::touches::touch::Touch;
use vs_types::{Answer, Size, fault_code};

/// Whether the touch, which is allowed and answered with this physical address, is answered as a page of this size looked that has
/// its address, before a change from the first place on and before the last one.
fn is_allowed(
    history: &History,
    size: Size,
    touch: &Touch,
    phys: u64,
    first: u32,
    last: u32,
) -> bool
    requires { AreColumns history.now }
    ensures { touch.now.answer ≡ Answer.Allowed phys → IsTrue result
        ↔ IsAnsweredBetween history.now.changes.items (IsOf (number_at touch.now.address size))
        touch.now first last }
{
    let offset = touch.address % size.bytes();
    if phys < offset {
        return false;
    }
    let from = Sight {
        number: number_at(touch.address, size),
        phys: phys - offset,
        kind: 0,
        place: first,
    };
    has_rights(&history.sights.exact, from, last, touch, true)
}

/// The same of a touch that is answered with this error code.
fn is_refused(
    history: &History,
    size: Size,
    touch: &Touch,
    code: u64,
    first: u32,
    last: u32,
) -> bool
    requires { AreColumns history.now }
    ensures { touch.now.answer ≡ Answer.Fault code → IsTrue result
        ↔ IsAnsweredBetween history.now.changes.items (IsOf (number_at touch.now.address size))
        touch.now first last }
{
    let from = Sight {
        number: number_at(touch.address, size),
        phys: 0,
        kind: 0,
        place: first,
    };
    if code == fault_code(false, touch.mode, touch.access) {
        return has(&history.sights.kinds, from, last);
    }
    if code == fault_code(true, touch.mode, touch.access) {
        return has_rights(&history.sights.kinds, from, last, touch, false);
    }
    false
}

/// The same of a touch with any answer.
fn is_answered_in(history: &History, size: Size, touch: &Touch, first: u32, last: u32) -> bool
    requires { AreColumns history.now }
    ensures { IsTrue result
        ↔ IsAnsweredBetween history.now.changes.items (IsOf (number_at touch.now.address size))
        touch.now first last }
{
    match touch.answer {
        Answer::Allowed(phys) => is_allowed(history, size, touch, phys, first, last),
        Answer::Fault(code) => is_refused(history, size, touch, code, first, last),
        _ => false,
    }
}

/// Whether the touch is answered as its address looked before a change of it from the first place on and before the last one: at
/// most 24 searches by halving.
pub(crate) fn is_answered_between(history: &History, touch: &Touch, first: u32, last: u32) -> bool
    requires { AreColumns history.now }
    ensures { IsTrue result
        ↔ IsAnsweredBetween history.now.changes.items (Covers touch.now.address)
        touch.now first last }
{
    if is_answered_in(history, Size::K4, touch, first, last) {
        return true;
    }
    if is_answered_in(history, Size::M2, touch, first, last) {
        return true;
    }
    is_answered_in(history, Size::G1, touch, first, last)
}
