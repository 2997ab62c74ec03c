//! The reader of scripts: what each thread asks, and the steps of a schedule.
#![tactic(auto)]

mod bad_lines;
pub mod examples;
mod gathering;
pub mod laws;
mod line;
mod line_feed;
mod number;
mod parts;
mod portion;
mod reading;
mod script;
mod step;

pub use bad_lines::why_bad;
pub use line::Line;
pub use line_feed::{Fed, LineFeed};
pub use portion::PortionFeed;
pub use script::{BadLine, SCRIPT_BYTES, SCRIPT_REQUESTS, SCRIPT_STEPS, Script, read_script};
