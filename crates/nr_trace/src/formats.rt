//! A trace's bytes: units, layouts, ranges and versions.

pub(crate) mod fields;
pub(crate) mod layout;
pub(crate) mod ranges;
pub(crate) mod version;
