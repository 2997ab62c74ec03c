//! Node replication as a machine: a log that the nodes of a machine share, and what holds under every schedule of single operations.
#![tactic(auto)]

mod asked;
mod calls;
pub mod laws;
mod node;
mod phase;
mod steps;
mod words;

pub use asked::{Asked, END, Refusal, Reply};
pub use calls::everywhere;
pub use node::Node;
pub use phase::Phase;
pub use words::{NODES, Operation, RING, Update, Word};
