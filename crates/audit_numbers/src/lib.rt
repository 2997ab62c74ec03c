//! Verdicts in numbers: of a trace, and of a chain that is judged as it comes, a segment at a time. What a verdict has beside its status is
//! written to arrays and numbers that the caller lends.
#![tactic(auto)]

mod finding;
mod judging;
pub mod status;
mod telling;
mod trace;
mod written;

pub use finding::Finding;
pub use judging::Judging;
pub use telling::Telling;
pub use trace::judge_trace;
