//! An address space with one copy for each memory node (Node Replication, ASPLOS 2017): replicas behind locks, the slots of
//! their threads, and the combiner.
//!
//! Places and tails count entries of the log from 0. Addresses are in bytes.
#![tactic(auto)]

mod cutting;
mod fitting;
mod gate;
mod local;
mod name;
mod opened;
mod patience;
mod question;
mod replicas;
mod settling;
mod shared;
mod update_fault;

pub use cutting::{Cut, Open};
pub use gate::{Gate, Point, Signal};
pub use name::ReplicasName;
pub use opened::OpenReplicas;
pub use replicas::Replicas;
pub use update_fault::{Stopped, UpdateFault};
