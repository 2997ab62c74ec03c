//! The machine of a node for C: each call is given C's own struct, in which a `Node` of `nr_machine` lies behind what it asks for.
//!
//! A call allocates nothing, and keeps no pointer once it has returned.
#![tactic(auto)]

mod codes;
mod exports;
mod node;
mod numbers;

pub use node::Node;
pub use numbers::Numbers;
