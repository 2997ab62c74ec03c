//! What shows a fault of calls: their replies, answers, numbers of entries and places of the log.

pub(crate) mod answers;
pub(crate) mod floors;
pub(crate) mod pairs;
pub(crate) mod places;
