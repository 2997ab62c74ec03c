//! Requests to an address space, their answers, and what is refused.

pub(crate) mod answer;
pub(crate) mod fields;
pub(crate) mod op;
pub(crate) mod refusal;
pub(crate) mod request;
