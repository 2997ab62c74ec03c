//! Pages in words: a line for each, or for each range of pages that follow one another.

mod lines;
pub(crate) mod printing;
mod range;
mod visitors;
