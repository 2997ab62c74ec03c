//! Laws of the definitions in `specs/`. Each function does nothing: its clauses say what holds of all touches.

ghost use Rattle.std.specs.Prelude.{◌≡◌, ◌↔◌, ℕ};
ghost use Rattle.vs_types.specs.Space.{Space};
ghost use Rattle.nr_trace.specs.Laws.{HasCleanLog};
ghost use Rattle.nr_trace.specs.Recording.{Recording};
ghost use Rattle.nr_touch.specs.Touches.{page_after, IsAllowedPrefix, IsAnsweredAt, IsAnsweredInTime};
ghost use Rattle.nr_touch.specs.Touches.{IsOfQuietPage, IsOfThePresent, IsRightTouch, KeepsNothing, LagsInNothing};
ghost use Rattle.nr_touch.specs.declared.touches.touch.Touch.{Touch};

/// A touch that is answered as an access of the present is right: one through a TLB that doesn't lag.
pub fn touches_of_the_present_are_right()
    ensures { (start : Space) (trace : Recording) (touch : Touch) (n : ℕ) → HasCleanLog trace
        → IsOfThePresent trace touch n → IsAnsweredAt start trace touch n
        → IsRightTouch start trace touch }
{}

/// A right touch whose replica lags in none of the updates that were answered before it was made is answered as its address was at a
/// moment that is allowed. So where there is one replica, faults by tables that lag add nothing.
pub fn touches_of_tables_that_have_caught_up_are_in_time()
    ensures { (start : Space) (trace : Recording) (touch : Touch) → LagsInNothing start trace touch
        → IsRightTouch start trace touch ↔ IsAnsweredInTime start trace touch }
{}

/// A right touch is of a page that no update changes while it is open, and none of whose updates is open when it is made. Then it is
/// answered as an access of the present, unless a moment before an answered update that only gave is still allowed, or it faults by a table
/// that lags in these updates. So where flushes are in order and tables have caught up, a TLB can't be distinguished from none.
pub fn touches_of_quiet_pages_are_of_the_present()
    ensures looks { (start : Space) (trace : Recording) (touch : Touch) (m n : ℕ)
        → IsOfQuietPage start trace touch → KeepsNothing start trace touch
        → IsAllowedPrefix start trace touch m → IsAllowedPrefix start trace touch n
        → page_after start trace touch.address m ≡ page_after start trace touch.address n }
    ensures answers { (start : Space) (trace : Recording) (touch : Touch) (n : ℕ)
        → HasCleanLog trace → IsOfQuietPage start trace touch → IsRightTouch start trace touch
        → LagsInNothing start trace touch → KeepsNothing start trace touch
        → IsOfThePresent trace touch n → IsAnsweredAt start trace touch n }
{}
