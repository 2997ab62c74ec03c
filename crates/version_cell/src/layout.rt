//! The places of things in the table of a cell.

/// A word that is never written. A pass loads it where it takes a step that looks at nothing.
pub(crate) const STILL: usize = 0;

/// The code of the value. It lies on cache lines of its own, since the words around it are not used.
pub(crate) const VERSION: usize = 16;

/// The first of the words beside it.
pub const WORDS: usize = 32;
