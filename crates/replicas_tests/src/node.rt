//! One node by itself, over both stores and at both depths.

pub(crate) mod bench;
pub(crate) mod node;
