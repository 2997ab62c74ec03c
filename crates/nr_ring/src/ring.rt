//! The ring, its tails and its name, and what is seen of it.

pub(crate) mod log_event;
pub(crate) mod name;
pub(crate) mod ring_log;
pub(crate) mod tails;
pub(crate) mod view;
