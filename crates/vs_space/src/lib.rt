//! A page table in the frames of a store: it maps, unmaps and protects pages, and translates addresses.
//!
//! Addresses are in bytes. A frame number is a physical address divided by 4,096. No call allocates memory or waits.
#![tactic(auto)]

mod descent;
pub mod laws;
mod space;
mod tables;

pub use space::{NoRoot, Space, SpaceParts};
