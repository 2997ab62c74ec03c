//! The auditor of traces and of segments: whether what was recorded is one run of the address space, which a segment goes on with.
//!
//! First the start of a segment is looked at, the page table with which it begins. The first pass makes a history of the
//! trace: by number each call's reply. The later passes come one after another in the order of the faults that they look for.
//! By the history they look at the log, and at the positions with the floors. By the last events of the calls, in the recorded
//! order, they look at the answers; then at the touches and releases of a segment, and then at the dumps.
#![tactic(auto)]

mod checks;
pub mod examples;
mod histories;
pub mod laws;
mod verdicts;

pub use checks::answers::serve;
pub use checks::dumps::{fault_at, table_fault};
pub use checks::requests::request_of;
pub use histories::meetings::overlapping;
pub use histories::met::{Met, Totals};
pub use histories::past::Past;
pub use verdicts::forms::is_trace;
pub use verdicts::judging::{audit, judge, judge_read, judge_segment};
pub use verdicts::start::{begin, copy};
pub use verdicts::verdict::{Order, Verdict};
