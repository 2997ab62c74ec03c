//! JSON of verdicts, facts and parts.

pub(crate) mod audit_json;
pub(crate) mod fact_json;
pub(crate) mod part_json;
