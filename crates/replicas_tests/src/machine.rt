//! Machines of several nodes over one array of words, in drawn schedules of single operations.

pub(crate) mod counters;
pub(crate) mod schedules;
pub(crate) mod words;
