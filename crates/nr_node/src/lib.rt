//! The replicas of an address space (Node Replication, ASPLOS 2017): each node keeps a page table that follows the shared log.
//!
//! Places and tails count entries of the log from 0. Addresses are in bytes.
#![tactic(auto)]

mod applied_entry;
mod batch;
mod held;
pub mod laws;
mod node;
mod past;
mod replica;
mod seen;

pub use held::Held;
pub use node::Node;
