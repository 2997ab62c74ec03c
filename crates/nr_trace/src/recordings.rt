//! What a trace records: events, calls, and whole runs.

pub(crate) mod event;
pub(crate) mod recorded;
pub(crate) mod trace;
