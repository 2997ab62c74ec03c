//! The first fault of a trace with what shows it, that of each of its dumps, and how much a trace has.

pub(crate) mod all_dumps;
pub(crate) mod counts;
pub(crate) mod evidence;
pub(crate) mod explaining;
pub(crate) mod nearby;
