//! Dumps, each checked against the space that its replica is to have. No table is missing, no table is reached twice,
//! no reserved bit is set, no frame is left over, and every address is translated as the space says.
#![tactic(auto)]

mod checking;
mod comparison;
mod fault;
pub mod laws;

pub use checking::check;
pub use fault::DumpFault;
