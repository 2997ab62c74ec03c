//! Addresses: levels, pages, frames, accesses, and where tables are.

pub(crate) mod access;
pub(crate) mod config;
pub(crate) mod depth;
pub(crate) mod frame;
pub(crate) mod page;
