//! Releases, each compared with the pages that lead into its memory.

pub(crate) mod block;
pub(crate) mod changed;
pub(crate) mod index;
pub(crate) mod lingering;
pub(crate) mod lives;
pub(crate) mod meeting;
pub(crate) mod overs;
pub(crate) mod quiet;
pub(crate) mod reaching;
pub(crate) mod release;
pub(crate) mod seen;
pub(crate) mod stays;
pub(crate) mod stretches;
