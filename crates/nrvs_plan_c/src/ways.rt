//! The ways in which a plan is made: at once, step by step, or over a range.

pub(crate) mod at_once;
pub(crate) mod direct;
pub(crate) mod down;
pub(crate) mod in_steps;
pub(crate) mod range_in;
