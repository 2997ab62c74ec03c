//! What shows a fault of page tables, those of a dump or of a start, by the entries that lead to it.

pub(crate) mod dumps;
pub(crate) mod faults;
pub(crate) mod paths;
