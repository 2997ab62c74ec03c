//! Words of tables: read, made again with other bits, and moved.

pub(crate) mod again;
pub(crate) mod reading;
pub(crate) mod remap;
pub(crate) mod word;
