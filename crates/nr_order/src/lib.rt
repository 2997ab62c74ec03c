//! Orders of the calls of a trace with which it is right, whatever its log says. An order is judged by the audit of the trace that has it as
//! its log. One is looked for.
#![tactic(auto)]

mod attempts;
mod calls;
mod choices;
mod copies;
mod demands;
mod finding;
mod frontier;
mod judging;
mod moments;
mod moving;
mod parts;
mod placing;
mod search;
mod stays;

pub use finding::{Finding, find_order, find_order_read};
pub use judging::{Ordered, judge_order};
pub use placing::with_order;
