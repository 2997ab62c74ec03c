//! Tables that become large pages or go, and whether a table has another entry.

pub(crate) mod collapse;
pub(crate) mod join;
pub(crate) mod others;
pub(crate) mod prune;
pub(crate) mod search;
