//! Words of the ring: entries packed into cells, and codes of their parts.

pub(crate) mod cell_words;
pub(crate) mod code;
pub(crate) mod packed;
pub(crate) mod stored;
pub(crate) mod words;
