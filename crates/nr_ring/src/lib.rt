//! The shared log: what one thread may do to a log and what the log is then, with laws and worked examples.
//!
//! Places and tails count entries from 0. A replica's local tail is the number of entries that it has taken; the completed
//! tail is the greatest local tail.
#![tactic(auto)]

mod cells;
pub mod examples;
pub mod laws;
mod passing;
mod ring;

pub use cells::packed::PackedEntry;
pub use cells::words::{MOST_PLACES, OTHERS};
pub use passing::pass::LogPass;
pub use ring::log_event::LogEvent;
pub use ring::name::LogName;
pub use ring::ring_log::RingLog;
pub use ring::tails::{AppendFault, Moved, Tails};
pub use ring::view::View;
