//! The rule of the cell, and what each kind of step shows its pass.
use crate::cells::code::head_word;
use crate::cells::stored::Stored;
use crate::ring::name::LogName;
use crate::ring::view::View;
use atomic_table::{Join, Split};
use std::marker::{Brand, PhantomData};
use version_cell::{CellChange, CellOutcome, CellRule};

/// The rule of the cell of a log.
pub struct LogRule<J: LogName> {
    of: PhantomData<J>,
}

impl<J: LogName> CellRule<View, Stored> for LogRule<J> {
    ghost use Rattle.nr_ring.specs.Rule.{IsKept};
    ghost use Rattle.nr_ring.specs.Words.{Lasts, Needs};
    ghost use Rattle.nr_ring.specs.inside.Codes.{code_in, word_in};
    ghost use Rattle.nr_ring.specs.inside.Held.{new_view, nothing_stored};
    ghost use Rattle.std.specs.List.{range_with_len};
    ghost use Rattle.std.specs.Prelude.{length};

    ghost holds = { IsKept J.depth J.replicas J.passes J.places };

    ghost start = { nothing_stored };

    ghost first = { new_view (range_with_len 0 J.replicas) J.passes };

    ghost code = { code_in J.replicas };

    ghost age = { λ x. length x.history };

    ghost needs = { Needs J.replicas };

    ghost lasts = { Lasts J.replicas };

    ghost head = { word_in };

    #[inline(always)]
    fn word(told_by: u64, place: usize) -> u64 {
        head_word(told_by, place)
    }
}

/// A look at the cell.
pub struct Looking<J: LogName> {
    of: PhantomData<J>,
}

impl<J: LogName> CellOutcome<View, Stored> for Looking<J> {
    ghost use Rattle.nr_ring.specs.Calls.{Looks};

    ghost then = { λ before x found after.
        Looks J.depth J.replicas J.passes J.places found before after };
}

/// Names the events that an exchange makes, one after another, and the ring of the pass that makes them.
pub trait Happening {
    ghost use Rattle.std.specs.Prelude.{ℕ, List};
    ghost use Rattle.nr_ring.specs.declared.ring.log_event.LogEvent.{LogEvent};

    ghost events: { List LogEvent };

    ghost ring: { ℕ };
}

impl Happening for Brand {
    ghost use Rattle.std.specs.Prelude.{[]};

    ghost events = { [] };

    ghost ring = { 0 };
}

/// An exchange of the value of the cell for that after events.
pub struct Making<E: Happening> {
    of: PhantomData<E>,
}

impl<E: Happening> CellChange<View, Stored> for Making<E> {
    ghost use Rattle.std.specs.Prelude.{◌≡◌};
    ghost use Rattle.nr_ring.specs.Calls.{with_events};
    ghost use Rattle.nr_ring.specs.Words.{stored_after};

    ghost next = { λ x. stored_after E.ring x E.events };

    ghost then = { λ before x next after. after ≡ with_events before E.events };
}

/// The new pass takes the first replica that the other owns, and one right.
pub struct FirstOwned;

impl Split<View> for FirstOwned {
    ghost use Rattle.std.specs.Prelude.{◌-◌, drop, take};
    ghost use Rattle.nr_ring.specs.Calls.{left_view, offshoot};

    ghost left = { λ v. left_view v (drop 1 v.owns) (v.rights - 1) };

    ghost right = { λ v. offshoot v (take 1 v.owns) 1 };
}

/// A copy of a pass owns nothing and has no right, so that it makes no event and can be joined to another.
pub struct Copies;

impl Split<View> for Copies {
    ghost use Rattle.nr_ring.specs.Calls.{copy_of};

    ghost left = { λ v. v };

    ghost right = { copy_of };
}

impl Join<View> for Copies {
    ghost use Rattle.nr_ring.specs.Calls.{joint_view, empty_view};

    ghost both = { joint_view };

    ghost spent = { empty_view };
}

/// What a pass owns goes to another, which gathers it. Each replica has one owner at most, so that both owned different ones.
pub struct Gathers;

impl Split<View> for Gathers {
    ghost use Rattle.std.specs.Prelude.{[]};
    ghost use Rattle.nr_ring.specs.Calls.{left_view};
    ghost use Rattle.nr_ring.specs.inside.Gathering.{owner_of};

    ghost left = { λ v. left_view v [] v.rights };

    ghost right = { owner_of };
}

impl Join<View> for Gathers {
    ghost use Rattle.nr_ring.specs.Calls.{empty_view};
    ghost use Rattle.nr_ring.specs.inside.Gathering.{gathered};

    ghost both = { gathered };

    ghost spent = { empty_view };
}

/// The view is one that a pass has.
pub struct Existing;

impl CellOutcome<View, Stored> for Existing {
    ghost use Rattle.std.specs.Prelude.{◌≡◌, ◌≢◌};
    ghost use Rattle.nr_ring.specs.inside.Gathering.{no_view};

    ghost then = { λ before x same after. (before ≢ no_view) × (after ≡ before) };
}
