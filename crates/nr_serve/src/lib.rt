//! A run of the replicated address space: one thread for each script, whose calls and replies are stamped, recorded and audited.
//!
//! A run that is verified has a trace that the auditor found right, and that trace is what its threads asked and were answered.
#![tactic(auto)]

mod endings;
mod instances;
pub mod laws;
mod threading;

pub use endings::call_outcome::CallOutcome;
pub use endings::outcome::{Answers, Outcome, Passes, TraceBytes};
pub use endings::segment_outcome::SegmentOutcome;
pub use instances::always_go::AlwaysGo;
pub use instances::no_segment::NoSegment;
pub use instances::no_thread::NoThread;
pub use threading::chain_run::ChainRun;
pub use threading::running::run;
