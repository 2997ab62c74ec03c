//! Plans for C: each call is given C's own struct, in which the request, what was met on the way, and in the end the plan are kept as
//! numbers.
//!
//! A call allocates nothing, and keeps no pointer once it has returned.
#![tactic(auto)]

mod begin;
mod end;
mod exports;
pub mod laws;
mod next;
mod records;
mod see;
mod walk;
mod ways;

pub use records::kept::{Call, Met, Plan, Target, Way, Words};
pub use records::range::Run;
pub use records::told::Reply;
