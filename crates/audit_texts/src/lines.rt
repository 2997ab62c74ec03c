//! Lines of text: facts, fields and parts, one after the other.

pub(crate) mod fact_text;
pub(crate) mod field_text;
pub(crate) mod full;
pub(crate) mod output;
pub(crate) mod part_text;
pub(crate) mod parts;
