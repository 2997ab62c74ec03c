//! The commands `audit`, `explain`, `order`, `resolve` and `pages`: their words on the command line, and what they do with standard input
//! or with the files that are named.
#![tactic(auto)]

mod diagnostics;
mod files;
mod host_words;
mod inspection;
mod meter;
mod progress_line;
mod refusal;
mod remarks;
mod running;
mod tap;
mod task;
mod words;

pub use diagnostics::Diagnostics;
pub use files::FilesByName;
pub use host_words::{NoWords, program_words};
pub use inspection::{Inspection, read_inspection};
pub use meter::Meter;
pub use refusal::{exit_status, tell_outcome, tell_refusal};
pub use remarks::remark;
pub use running::run_inspection;
pub use task::{ChainPoint, Task};
pub use words::{VERSION, with_command, with_inspections};
