//! Words of answers, faults, units and sentences.

pub(crate) mod answer;
pub(crate) mod sentence;
pub(crate) mod text;
pub(crate) mod units;
pub(crate) mod usual;
