//! Plans: what is asked, what is to be stored, and what is to be flushed.

pub(crate) mod division;
pub(crate) mod growth;
pub(crate) mod plan;
pub(crate) mod planner;
pub(crate) mod request;
pub(crate) mod target;
