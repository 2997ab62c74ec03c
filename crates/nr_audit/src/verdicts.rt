//! The judge of traces and of segments, and its verdict.

pub(crate) mod forms;
pub(crate) mod judging;
pub(crate) mod search;
pub(crate) mod start;
pub(crate) mod verdict;
