//! Ranges of pages in a page table whose frames a kernel keeps itself: one run of words for each table, and one flush for all.
#![tactic(auto)]

mod direct;
pub mod laws;
mod made;
mod planner;
mod room;
mod run;
mod search;
mod table;
mod word;

pub use direct::plan_in;
pub use planner::{RangePlanner, RangeStep};
pub use room::{are_pages, ends_late};
pub use run::{Change, Forget, Run};
