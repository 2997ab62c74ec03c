//! Entries of tables: what their bits mean, and the codes of small enumerations.

pub(crate) mod codes;
pub(crate) mod entry;
pub(crate) mod format;
pub(crate) mod kind;
pub(crate) mod x86;
