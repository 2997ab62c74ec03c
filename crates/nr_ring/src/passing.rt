//! How entries are appended in batches, and taken, pass after pass.

pub(crate) mod batch;
pub(crate) mod pass;
pub(crate) mod rule;
pub(crate) mod steps;
pub(crate) mod taking;
