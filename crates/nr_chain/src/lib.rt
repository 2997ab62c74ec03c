//! Runs that were recorded in segments, one after another: the run that they are, and what it is right with.
#![tactic(auto)]

mod auditing;
pub mod byte_laws;
mod chain;
pub mod examples;
pub mod laws;
mod verdict;

pub use auditing::audit_chain;
pub use chain::{Chain, Step};
pub use verdict::ChainVerdict;
