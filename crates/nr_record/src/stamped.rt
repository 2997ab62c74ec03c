//! A note of a pen.
use nr_trace::Recorded;

/// What a pen was given with a stamp.
#[derive(Clone, Copy, Debug, PartialEq, Eq)]
pub struct Stamped {
    pub stamp: u32,
    pub event: Recorded,
}
