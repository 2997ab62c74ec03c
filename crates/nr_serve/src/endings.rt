//! How a run or a segment ends, and what is said of it.

pub(crate) mod call_outcome;
pub(crate) mod ending;
pub(crate) mod outcome;
pub(crate) mod promise;
pub(crate) mod segment_ending;
pub(crate) mod segment_outcome;
