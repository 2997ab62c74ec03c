//! What is wrong with a trace, and what is refused of one.

pub(crate) mod fault;
pub(crate) mod refusal;
