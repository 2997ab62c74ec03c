//! The engines of chains: `audit --chain`, `explain --chain` and `pages --chain`.

pub(crate) mod audit;
pub(crate) mod explain;
pub(crate) mod pages;
