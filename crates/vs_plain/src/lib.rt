//! The plain address space: the pages in an ordered map by base, with the table count kept beside them.
//!
//! Numbers are bytes unless a name says otherwise. `PlainSpace::apply`, `PlainSpace::add` and `PlainSpace::pages` allocate memory.
#![tactic(auto)]

mod byte_aligned;
pub mod laws;
mod mapping;
mod page_map;
mod pages;
mod place;
mod plain;

pub use pages::Pages;
pub use plain::PlainSpace;
