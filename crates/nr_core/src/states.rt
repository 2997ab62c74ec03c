//! The core's state: replicas, threads, stages, and its table.

pub(crate) mod parts;
pub(crate) mod replicas;
pub(crate) mod stage;
pub(crate) mod start;
pub(crate) mod state;
pub(crate) mod table;
pub(crate) mod threads;
