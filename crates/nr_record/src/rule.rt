//! The rule of the word that stamps are drawn from, and what each kind of step does to a view.
use crate::view::{Plan, View};
use atomic_table::{Join, Play, Split, TableRule};
use std::marker::{Brand, PhantomData};

/// The word is the number of stamps drawn so far.
pub struct Stamps;

impl TableRule<(), View, Plan> for Stamps {
    ghost use Rattle.nr_record.specs.Rule.{IsKept, new_view};

    ghost holds = { λ plan state. IsKept plan.calls state.words state.views };

    ghost first = { new_view };
}

/// A draw of one stamp.
pub struct Draws;

impl Play<(), View> for Draws {
    ghost use Rattle.std.specs.Prelude.{◌≡◌};
    ghost use Rattle.nr_record.specs.Rule.{HasDrawn};

    ghost then = { λ step before stamp after. HasDrawn before.0 stamp after.0 × (after.1 ≡ before.1) };
}

/// Names a number of calls.
pub trait Quota {
    ghost use Rattle.std.specs.Prelude.{ℕ};

    ghost quota: { ℕ };
}

impl Quota for Brand {
    ghost quota = { 0 };
}

/// A seat gives a new one so much of its quota.
pub struct Gives<Q: Quota> {
    of: PhantomData<Q>,
}

impl<Q: Quota> Split<View> for Gives<Q> {
    ghost use Rattle.nr_record.specs.Rule.{left_seat, given};

    ghost left = { left_seat Q.quota };

    ghost right = { given Q.quota };
}

/// A seat takes over the quota and the stamps of another.
pub struct Takes;

impl Join<View> for Takes {
    ghost use Rattle.nr_record.specs.Rule.{joint_seat, empty_seat};

    ghost both = { joint_seat };

    ghost spent = { empty_seat };
}
