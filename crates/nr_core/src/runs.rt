//! Runs of steps: a step, a batch, and what is recorded.

pub(crate) mod batch;
pub(crate) mod recording;
pub(crate) mod running;
pub(crate) mod step;
pub(crate) mod stepping;
