//! The page table for C: each call is given the memory that C lends, and a handle, a struct of C's own, which keeps the rest.
//!
//! A call allocates nothing, and keeps no pointer once it has returned.
#![tactic(auto)]

mod change;
mod codes;
mod exports;
pub mod laws;
mod reply;
mod status;
mod table;
mod view;

pub use reply::Reply;
pub use table::Table;
