//! The protocol by itself (Node Replication, ASPLOS 2017): one state, and the steps that running threads take, here one by one in
//! any order.
//!
//! A place is an index of the log; a call's number is the index of its event. No call waits.
#![tactic(auto)]

pub mod examples;
pub mod faultless;
pub mod laws;
mod runs;
mod states;
mod steps;

pub use runs::running::run_steps;
pub use runs::step::{Act, Step};
pub use states::state::Core;
