//! The shared log and the slots: worked examples, and threads that share one log.

pub(crate) mod entry;
pub(crate) mod log_words;
pub(crate) mod pair;
pub(crate) mod party;
pub(crate) mod ring;
pub(crate) mod ring_calls;
pub(crate) mod ring_fresh;
pub(crate) mod ring_races;
pub(crate) mod ring_threads;
pub(crate) mod scene;
pub(crate) mod slots;
pub(crate) mod slots_threads;
pub(crate) mod start;
pub(crate) mod steps;
