//! Traces: what a recorded run says, how it is spelled in bytes, and what can be wrong with it.
//!
//! A place is an index of the log; a call's number is the index of its event.
#![tactic(auto)]

pub mod examples;
mod formats;
pub mod laws;
mod reading;
mod recordings;
mod refusals;
mod writing;

pub use formats::layout::TraceLayout;
pub use formats::version::{Form, Version};
pub use reading::{Feed, SegmentFeed, read};
pub use recordings::event::{Asked, Event};
pub use recordings::recorded::Recorded;
pub use recordings::trace::Trace;
pub use refusals::fault::{Fault, Format};
pub use refusals::refusal::{Refusal, TraceUnit};
pub use writing::write;
